// The runs of 1,000 random programs on the machine, beside those of the reference.
use crate::drawn::{limit_of, program_of_seed};
use crate::stage::{end_word, ends_as};
use code_gen::Code;
use core_terms::Outcome;
use reference_run::{Plain, metered_run};
use std::alloc::Global;
use std::test::Fail;
use term_stage::one_int::FIRST;

/// How many programs there are.
const PROGRAMS: u64 = 1_000;

/// The fuel of the runs of a program that is drawn, and of one that is near a limit.
const FUEL: [u64; 3] = [0, 2, 9];

const LIMIT_FUEL: [u64; 1] = [1_000];

/// The ways in which runs on arrays end; ints trap in two more, which are not counted.
const WORDS: [&str; 5] = ["done", "out", "index", "toobig", "toodeep"];

/// How many runs must end in each of these ways.
const FEWEST: u64 = 5;

/// How often runs ended in each of these ways.
type Ends = [u64; 5];

fn count(ends: &mut Ends, word: &str) {
    for (place, other) in WORDS.iter().enumerate() {
        if *other == word {
            ends[place] = ends[place].saturating_add(1);
        }
    }
}

/// Compares the runs with so much fuel: their ends, and how much fuel they spend. What ends with a value or a trap ends so with just what it
/// spends, and is out with one unit less.
fn compare(
    alloc: Global,
    code: &Code,
    argument: i64,
    fuel: u64,
    ends: &mut Ends,
) -> Result<bool, Fail> {
    let mut left = fuel;
    let mut arguments = Vec::new(alloc);
    arguments.push(Plain::IntValue(argument))?;
    let expected = metered_run(alloc, code.program(), FIRST, arguments, &mut left)?;
    count(ends, end_word(&expected));
    if !ends_as(alloc, code, argument, fuel, &expected)? {
        return Ok(false);
    }
    let spent = fuel - left;
    if let Outcome::Out = expected {
        return Ok(spent == fuel);
    }
    Ok(
        ends_as(alloc, code, argument, spent, &expected)?
            && (spent == 0 || ends_as(alloc, code, argument, spent - 1, &Outcome::Out)?),
    )
}

/// Compares the runs of the program of a seed.
fn compare_program(alloc: Global, seed: u64, ends: &mut Ends) -> Result<(), Fail> {
    let program = program_of_seed(alloc, seed)?;
    let code = Box::new(alloc, Code::generate(Box::into_inner(program), alloc)?)?;
    let fuels: &[u64] = match limit_of(seed) {
        Some(_) => &LIMIT_FUEL,
        None => &FUEL,
    };
    for fuel in fuels {
        if !compare(alloc, &code, (seed % 6) as i64 - 1, *fuel, ends)? {
            return Err(Fail::new(format_args!("program {seed} with {fuel} units of fuel")));
        }
    }
    Ok(())
}

#[test]
fn random_programs_with_arrays(rt: HostRuntime) -> Result<(), Fail> {
    let mut ends = [0; 5];
    for seed in 0..PROGRAMS {
        compare_program(rt.alloc(), seed, &mut ends)?;
    }
    for (word, count) in WORDS.iter().zip(&ends) {
        if *count < FEWEST {
            return Err(Fail::new(format_args!("{count} runs end with {word}")));
        }
    }
    Ok(())
}
