// The words of a command line, read.
ghost use Rattle.std.specs.Prelude.{◌≡◌, IfOk, false};
ghost use Rattle.std.specs.List.{list_any};
ghost use Rattle.command_words.specs.Commands.{IsNamedBy, IsOfCommand, texts};
ghost use Rattle.command_words.specs.Invocations.{is_refused, is_refused_word};
ghost use Rattle.command_words.specs.Reading.{IsJudged, Reads};
ghost use Rattle.command_words.specs.Rows.{row_of};

use crate::command::{Row, row_named};
use crate::line::command_line;
use crate::{Invocation, WordsFault};
use std::alloc::Global;

/// What the words call, the program's name first.
///
/// # Errors
///
/// `Refused` exactly where the program's own test or clap refuses the words, memory aside. `NoMemory` where there is no memory for clap's
/// command line or its reading of the words.
pub fn read<'a>(alloc: Global, words: &'a [&'a str]) -> Result<Invocation<'a>, WordsFault>
    ensures reads { Reads (texts words.entry.now) result }
    ensures counted { IfOk result (λ invocation. IsOfCommand invocation.command (texts invocation.texts.now)) }
{
    if is_refused(words) {
        return Err(WordsFault::Refused);
    }
    let [_, name, texts @ ..] = words else {
        return Err(WordsFault::Refused);
    };
    let Some(row) = row_named(name) else {
        return Err(WordsFault::Refused);
    };
    // of this command alone: to build all of them takes longer than to read the words
    judge(alloc, row, words)?;
    Ok(Invocation {
        command: row.command,
        texts,
    })
}

/// Judges words of this row by clap. `Refused` exactly where it refuses them for another cause than memory; `NoMemory` where memory was
/// wanting.
fn judge(alloc: Global, row: &Row, words: &[&str]) -> Result<(), WordsFault>
    requires own { is_refused (texts words.now) ≡ false }
    requires named { IsNamedBy (row_of row.now) (texts words.now) }
    ensures { IsJudged (texts words.now) result }
{
    // clap is asked about the one command that is named, since building all of them costs more than reading the words
    command_line(alloc, row)?.try_get_matches_from(words)?;
    Ok(())
}

/// Whether the program's own test refuses the words: one behind its name is empty or begins with `-`, or the command is `help`.
fn is_refused(words: &[&str]) -> bool
    ensures { result ≡ is_refused (texts words.now) }
{
    let [_, name, arguments @ ..] = words else {
        return false;
    };
    *name == "help" || is_refused_word(name) || some_refused(arguments)
}

/// Whether one of the words is empty or begins with `-`.
fn some_refused(words: &[&str]) -> bool
    ensures { result ≡ list_any is_refused_word (texts words.now) }
{
    words.iter().any(|word| is_refused_word(word))
}

/// Whether the word is empty or begins with `-`.
fn is_refused_word(word: &str) -> bool
    ensures { result ≡ is_refused_word word.now }
{
    word.is_empty() || word.starts_with('-')
}
