//! The laws of the types' text in `specs/`: that it is what is printed of the declarations, and that it tells the table. Each is a function
//! without parameters, whose contract is the law.

ghost use Rattle.printed_types.specs.Laws.{EqualTextsAreEqualTables, TypesTextIsPrinted};

/// The text that is made from the table of a program's types is what is printed of their declarations, each on its line. This holds of
/// each program whose written types are known and whose types have a constructor each.
pub fn types_text_is_printed()
    ensures { TypesTextIsPrinted }
{}

/// Two programs that texts are parsed to, whose types have the same text, have the same types: their names, their constructors and their
/// table. One may be of the first format and the other of the second.
pub fn equal_texts_are_equal_tables()
    ensures { EqualTextsAreEqualTables }
{
    printed_syntax::laws::parsed_is_read_back();
}
