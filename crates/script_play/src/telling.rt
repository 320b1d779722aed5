// What is told, and its line.
ghost use Rattle.std.specs.Prelude.{ℕ};

use crate::play_stop::PlayStop;
use core_terms::Spelling;
use lam_outside::{Sink, write_all};

/// What is told.
#[derive(Drop)]
pub struct Telling {
    pub line: Vec<u8>,
    /// The spelling of the state that was made, where one was.
    pub made: Option<Spelling>,
    /// Whether the script goes on behind it.
    pub goes_on: bool,
}

ghost use Rattle.script_play.specs.PlayingInCode.{TellingIsTold, PlayCause};

/// Tells: the state that was made is the one told last, from before the line is written on.
pub fn tell<O: Sink>(
    out: &mut O,
    last: &mut Option<Spelling>,
    telling: Telling,
) -> Result<(), PlayStop>
    ensures told { TellingIsTold telling (O.written out.old) (O.written out.new) last.old last.new result }
    ensures cause { (link : ℕ) → PlayCause link link (O.faults out.old) (O.faults out.new) result }
{
    let Telling {
        line,
        made,
        goes_on,
    } = telling;
    *last = made.or(last.take());
    write_all(out, &line)?;
    if goes_on {
        return Ok(());
    }
    Err(PlayStop::Ended)
}
