// The lines of a script.
ghost use Rattle.std.specs.Prelude.{◌≡◌, [], ◌∷◌, codes, option_map, IfOk};
ghost use Rattle.core_terms.specs.Programs.{constructor_names, meaning};
ghost use Rattle.core_terms.specs.Terms as tree;
ghost use Rattle.printed_syntax.specs.Literals.{ConstructorNames};
ghost use Rattle.ask_script.specs.Scripts.{form_of, step_in, words_of};
ghost use Rattle.ask_script.specs.ScriptAnswers.{step_meant};

use crate::Step;
use crate::calls::read_call;
use crate::words::{cut_word, read_session};
use core_terms::Program;
use number_words::read_number;
use std::alloc::{AllocError, Global};
use std::str::from_utf8;

/// The step that a line asks for; none where the line is at fault.
pub fn read_line(alloc: Global, program: &Program, line: &[u8]) -> Result<Option<Step>, AllocError>
    ensures { IfOk result (λ step. option_map step_meant step ≡ step_in (meaning program.now) (constructor_names program.now.types.named.items) line.now) }
{
    match from_utf8(line) {
        Ok(text) => read_words(alloc, program, text),
        Err(_) => Ok(None),
    }
}

/// The step that the words of a line ask for.
fn read_words(alloc: Global, program: &Program, line: &str) -> Result<Option<Step>, AllocError>
    ensures { IfOk result (λ step. option_map step_meant step ≡ form_of (meaning program.now) (constructor_names program.now.types.named.items) (words_of line.now)) }
{
    let Some((word, behind)) = cut_word(line) else {
        return Ok(read_go(line));
    };
    match word {
        "open" => Ok(read_open(program, behind)),
        "call" => read_call(alloc, program, behind),
        "close" => Ok(read_close(behind)),
        _ => Ok(None),
    }
}

/// The step of a line of one word.
fn read_go(word: &str) -> Option<Step>
    ensures { (P : tree.Program) (names : ConstructorNames) → option_map step_meant result ≡ form_of P names (word.now ∷ []) }
{
    if word == "go" { Some(Step::Go) } else { None }
}

/// The step of a line that opens a session, from the words behind the first.
fn read_open(program: &Program, words: &str) -> Option<Step>
    ensures { (names : ConstructorNames) → option_map step_meant result ≡ form_of (meaning program.now) names (codes "open" ∷ words_of words.now) }
{
    let (session, kept) = cut_word(words)?;
    let session = read_session(session)?;
    let kept = read_number(kept, u64::from(program.types().most_kept()))?;
    Some(Step::Open {
        session,
        kept: kept as u16,
    })
}

/// The step of a line that closes a session, from the words behind the first.
fn read_close(words: &str) -> Option<Step>
    ensures { (P : tree.Program) (names : ConstructorNames) → option_map step_meant result ≡ form_of P names (codes "close" ∷ words_of words.now) }
{
    let session = read_session(words)?;
    Some(Step::Close { session })
}
