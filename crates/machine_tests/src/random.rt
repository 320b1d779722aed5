// Random programs, on which the machine is compared with the reference.

mod generator;
mod numbers;
mod templates;

use crate::fuel::check_ends;
use crate::random::generator::program_text;
use crate::stage::code_of;
use code_gen::Code;
use core_terms::Outcome;
use reference_run::{Plain, metered_run};
use std::alloc::{AllocError, Global};
use std::test::Fail;
use term_stage::one_int::{FIRST, trap_word};

/// How many programs there are.
const PROGRAMS: u64 = 1_000;

/// The fuel of the runs of each program.
const FUEL: [u64; 5] = [0, 2, 5, 20, 1_000];

/// How often runs ended with a value, with a trap, and without fuel.
#[derive(Clone, Copy)]
struct Ends {
    done: u64,
    trapped: u64,
    out: u64,
}

impl Ends {
    fn count(&mut self, outcome: &Outcome<Plain>) {
        match outcome {
            Outcome::Done(_) => self.done = self.done.saturating_add(1),
            Outcome::Trapped(_) => self.trapped = self.trapped.saturating_add(1),
            Outcome::Out => self.out = self.out.saturating_add(1),
        }
    }
}

/// An outcome of the reference in a word, as the machine's is told.
fn outcome_text(alloc: Global, outcome: &Outcome<Plain>) -> Result<String, AllocError> {
    match outcome {
        Outcome::Done(value) => leaf_text(alloc, value),
        Outcome::Trapped(trap) => String::from_str(alloc, trap_word(*trap)),
        Outcome::Out => String::from_str(alloc, "out"),
    }
}

fn leaf_text(alloc: Global, value: &Plain) -> Result<String, AllocError> {
    match value {
        Plain::BoolValue(value) => format!(in alloc; "{value}"),
        Plain::IntValue(value) => format!(in alloc; "{value}"),
        Plain::TextValue(text) => match str::from_utf8(text.as_bytes()) {
            Ok(text) => String::from_str(alloc, text),
            Err(_) => Err(AllocError),
        },
        _ => Err(AllocError),
    }
}

/// Compares the machine's runs with that of the reference, with so much fuel.
fn compare(
    alloc: Global,
    code: &Code,
    argument: i64,
    fuel: u64,
    ends: &mut Ends,
) -> Result<(), Fail> {
    let mut left = fuel;
    let mut arguments = Vec::new(alloc);
    arguments.push(Plain::IntValue(argument))?;
    let outcome = metered_run(alloc, code.program(), FIRST, arguments, &mut left)?;
    ends.count(&outcome);
    let end = outcome_text(alloc, &outcome)?;
    check_ends(alloc, code, argument, fuel, fuel - left, &end)
}

/// Compares the runs of the program of a seed.
fn compare_program(alloc: Global, seed: u64, ends: &mut Ends) -> Result<(), Fail> {
    let text = program_text(alloc, seed)?;
    let code = code_of(alloc, &text)?;
    for fuel in FUEL {
        compare(alloc, &code, (seed % 6) as i64, fuel, ends)?;
    }
    Ok(())
}

#[test]
fn random_programs(rt: HostRuntime) -> Result<(), Fail> {
    let mut ends = Ends {
        done: 0,
        trapped: 0,
        out: 0,
    };
    for seed in 0..PROGRAMS {
        compare_program(rt.alloc(), seed, &mut ends)?;
    }
    assert!(rt; ends.done > 1_000);
    assert!(rt; ends.trapped > 300);
    assert!(rt; ends.out > 300);
    Ok(())
}
