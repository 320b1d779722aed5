//! Journals of the library's search tree on the disk of the machine, to be tried by hand: `make FILE` makes one of an empty tree; `append FILE
//! KEY COUNT CALLS` appends puts of so many keys from this one on, to a disk that stops after so many calls; `open FILE` opens one. `torn STEP`
//! needs no file: it opens journals in memory with each STEP-th value of three bytes behind their closed gate.
#![tactic(auto)]

mod torn;
mod trial;
mod trouble;

use std::env;
use std::process::ExitCode;
use torn::try_torn;
use trial::{append_puts, make_empty, open_file};
use trouble::Trouble;

fn main(rt: HostRuntime) -> ExitCode {
    match tried(&rt) {
        Ok(()) => ExitCode::SUCCESS,
        Err(trouble) => {
            let _ = println!(rt; "{}", trouble.text());
            ExitCode::from(trouble.status())
        }
    }
}

/// Does what the words say.
fn tried(rt: &HostRuntime) -> Result<(), Trouble> {
    let words: Vec<String> = env::args(rt)?.collect(rt.alloc())?;
    let words: Vec<&str> = words.iter().map(|word| word.as_str()).collect(rt.alloc())?;
    match &*words {
        [_, command, word] => match *command {
            "make" => make_empty(rt, word),
            "open" => open_file(rt, word),
            "torn" => try_torn(rt, number(word)?),
            _ => Err(Trouble::Usage),
        },
        [_, "append", file, key, count, calls] => {
            append_puts(rt, file, number(key)?, number(count)?, number(calls)?)
        }
        _ => Err(Trouble::Usage),
    }
}

/// The number that a word spells.
fn number(word: &str) -> Result<u64, Trouble> {
    match word.parse::<u64>() {
        Ok(number) => Ok(number),
        Err(_) => Err(Trouble::Usage),
    }
}
