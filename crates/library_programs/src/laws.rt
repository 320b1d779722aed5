//! That the texts of the library are the programs that its laws speak of.

ghost use Rattle.std.specs.Prelude.{◌≡◌, Some};
ghost use Rattle.ideal_meaning.specs.Library as library;
ghost use Rattle.ads_library.specs.RedBlackProgram as red_black;
ghost use Rattle.ads_library.specs.SkipListProgram as skip_list;
ghost use Rattle.library_programs.specs.Readings.{program_read};

use ads_library::texts::{BST, MERKLE, REDBLACK, SKIPLIST};

/// By the grammar and the typing rules each text is read to its program.
pub fn texts()
    ensures bst { program_read BST.now ≡ Some library.bst }
    ensures merkle { program_read MERKLE.now ≡ Some library.merkle }
    ensures redblack { program_read REDBLACK.now ≡ Some red_black.redblack }
    ensures skiplist { program_read SKIPLIST.now ≡ Some skip_list.skiplist }
{}
