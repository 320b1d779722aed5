// Scripts as a whole.
ghost use Rattle.std.specs.Prelude.{◌≡◌, map, IfOk};
ghost use Rattle.std.specs.List.{All, list_all};
ghost use Rattle.core_terms.specs.Programs.{constructor_names, meaning};
ghost use Rattle.ask_script.specs.Scripts.{Fits, is_blank, is_blank_line, lines_of, script_of};
ghost use Rattle.ask_script.specs.ScriptAnswers.{ReadsScript, step_meant};
ghost use Rattle.ask_script.specs.declared.script.ScriptFault.TheVariants.{NoMemory};

use crate::Step;
use crate::line::read_line;
use core_terms::Program;
use std::alloc::{AllocError, AllocFailed, Global};

/// Why a script gave no steps.
#[derive(Clone, Copy)]
pub enum ScriptFault {
    /// The first line that is at fault, by its number, from 1 on. Blank lines count.
    Line(usize),
    /// There was no memory for the lines, the steps or an argument.
    NoMemory,
}

impl From<AllocError> for ScriptFault {
    ghost from_gives = { λ _ fault. fault ≡ NoMemory };

    fn from(_: AllocError) -> Self {
        ScriptFault::NoMemory
    }
}

impl<T: Drop> From<AllocFailed<T>> for ScriptFault {
    ghost from_gives = { λ _ fault. fault ≡ NoMemory };

    fn from(_: AllocFailed<T>) -> Self {
        ScriptFault::NoMemory
    }
}

/// Reads a script for a program, whole, and gives its steps in order.
///
/// Each line ends with a line feed, which the last one may lack. A line of nothing but blanks, tabs and carriage returns is
/// skipped. Every other one is of one of these forms, with one blank between two words: `open S N`, `call S ROLE FUEL ARG`, `go`,
/// `close S`. S is a session, 1 to 65,535; N a number of pieces, 0 to 1,024; ROLE the name of a query or an update; FUEL 0 to
/// 10^12; ARG the rest of the line, a literal of the role's argument type. A number has 1 to 20 decimal digits; leading zeros change
/// nothing.
///
/// # Errors
///
/// `Line` with the number of the first line that is of none of these forms, or isn't UTF-8, or of which a number, the role or
/// the literal is refused. `NoMemory` where there is no memory for the lines, the steps or an argument.
pub fn read_script(alloc: Global, program: &Program, text: &[u8]) -> Result<Vec<Step>, ScriptFault>
    ensures script { ReadsScript (script_of (meaning program.now) (constructor_names program.now.types.named.items) text.now) result }
    ensures fits { IfOk result (λ steps. All (λ step. Fits (meaning program.now) (step_meant step)) steps.items) }
{
    let lines = split_lines(alloc, text)?;
    let mut steps = Vec::new(alloc);
    for (above, line) in lines.iter().enumerate() {
        if is_blank_line(line) {
            continue;
        }
        match read_line(alloc, program, line)? {
            Some(step) => steps.push(step)?,
            None => return Err(ScriptFault::Line(above + 1)),
        }
    }
    Ok(steps)
}

/// The lines of a text, each without the line feed that ends it.
fn split_lines(alloc: Global, text: &[u8]) -> Result<Vec<&[u8]>, AllocError>
    ensures { IfOk result (λ lines. map (λ line. line.now) lines.items ≡ lines_of text.now) }
{
    text.split(|byte| *byte == b'\n').collect(alloc)
}

/// Whether a line is to be skipped.
fn is_blank_line(line: &[u8]) -> bool
    ensures { result ≡ is_blank_line line.now }
{
    line.iter().all(|byte| is_blank(*byte))
}

/// Whether the byte is a blank, a tab or a carriage return.
fn is_blank(byte: u8) -> bool
    ensures { result ≡ is_blank byte }
{
    byte == b' ' || byte == b'\t' || byte == b'\r'
}
