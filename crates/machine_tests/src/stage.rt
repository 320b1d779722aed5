// Code for the tests, and how calls end that run on it.
use auth_syntax::parser::parse;
use auth_types::check::check;
use code_gen::Code;
use core_terms::{Digest, MOST_FUEL, MOST_PROGRAM_BYTES, Outcome};
use mode_vm::{IdealMode, Machine, Step, ideal_run};
use std::alloc::{AllocError, Global};
use term_stage::one_int::{FIRST, takes_int, trap_word};
use value_store::{Nodes, Ref, Store, View};

/// The code of a text, in a box: it is wide, and tests hold it over many calls.
///
/// # Errors
///
/// `AllocError` where memory runs out, or where the text is no program.
pub fn code_of(alloc: Global, text: &[u8]) -> Result<Box<Code>, AllocError> {
    if text.len() > MOST_PROGRAM_BYTES {
        return Err(AllocError);
    }
    let Ok(ast) = parse(alloc, text) else {
        return Err(AllocError);
    };
    match check(alloc, &ast, Digest([7; 32])) {
        Ok(program) => Ok(Box::new(alloc, Code::generate(program, alloc)?)?),
        Err(_) => Err(AllocError),
    }
}

/// How a call of the first function on an int ends, with so much fuel, in one run: as [`outcome_text`] tells it.
///
/// # Errors
///
/// `AllocError` where memory runs out, where the function takes no int, where there is too much fuel, or where the value is no leaf.
pub fn run(alloc: Global, code: &Code, argument: i64, fuel: u64) -> Result<String, AllocError> {
    let (told, _) = run_counted(alloc, code, argument, fuel)?;
    Ok(told)
}

/// The same, and how many nodes there are then.
///
/// # Errors
///
/// As of `run`.
pub fn run_counted(
    alloc: Global,
    code: &Code,
    argument: i64,
    fuel: u64,
) -> Result<(String, usize), AllocError> {
    if fuel > MOST_FUEL || !takes_int(code.program()) {
        return Err(AllocError);
    }
    let mut store = Store::new(alloc, code.types().spelling_limit() as u32);
    let value = store.put_int(argument)?;
    let outcome = ideal_run(code, &mut store, FIRST, &[value], fuel, alloc)?;
    let told = outcome_text(alloc, &store, outcome)?;
    Ok((told, store.count()))
}

/// The same in slices of so many calls, and how often the machine paused.
///
/// # Errors
///
/// As of `run`, and `AllocError` where a slice has no calls.
pub fn run_in_slices(
    alloc: Global,
    code: &Code,
    argument: i64,
    fuel: u64,
    units: u64,
) -> Result<(String, u64), AllocError> {
    if fuel > MOST_FUEL || units == 0 || !takes_int(code.program()) {
        return Err(AllocError);
    }
    let mut store = Store::new(alloc, code.types().spelling_limit() as u32);
    let value = store.put_int(argument)?;
    let mut machine = Machine::start(code, FIRST, &[value], fuel, IdealMode, alloc)?;
    for pauses in 0..u64::MAX {
        match machine.run_slice(code, &mut store, &mut (), units) {
            Ok(Step::Paused) => {}
            Ok(Step::Ended(outcome)) => return Ok((outcome_text(alloc, &store, outcome)?, pauses)),
            Err(_) => return Err(AllocError),
        }
    }
    Err(AllocError)
}

/// An outcome in a word: a value without parts, the trap, or `out`.
///
/// # Errors
///
/// `AllocError` where memory runs out, or where the value has parts.
fn outcome_text(alloc: Global, store: &Store, outcome: Outcome<Ref>) -> Result<String, AllocError> {
    match outcome {
        Outcome::Done(r) if r.0 < store.count() => leaf_text(alloc, store.view(r)),
        Outcome::Done(_) => Err(AllocError),
        Outcome::Trapped(trap) => String::from_str(alloc, trap_word(trap)),
        Outcome::Out => String::from_str(alloc, "out"),
    }
}

fn leaf_text(alloc: Global, view: View<'_>) -> Result<String, AllocError> {
    match view {
        View::Unit => String::from_str(alloc, "()"),
        View::Bool(value) => format!(in alloc; "{value}"),
        View::Int(value) => format!(in alloc; "{value}"),
        View::Text(text) => String::from_str(alloc, text),
        _ => Err(AllocError),
    }
}
