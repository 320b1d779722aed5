// Runs of programs with arrays: of the machine, and of the reference.
use code_gen::Code;
use core_terms::{MOST_FUEL, Outcome};
use mode_vm::ideal_run;
use reference_run::Plain;
use std::alloc::{AllocError, Global};
use term_stage::one_int::{FIRST, takes_int, trap_word};
use value_store::{Held, Nodes, Ref, Store, View};

/// How many levels a type has at most.
const MOST_LEVELS: u8 = 100;

/// Whether a call of the first function on an int ends as expected on the machine, with so much fuel.
///
/// # Errors
///
/// `AllocError` where memory runs out, where the function takes no int, and where there is too much fuel.
pub fn ends_as(
    alloc: Global,
    code: &Code,
    argument: i64,
    fuel: u64,
    expected: &Outcome<Plain>,
) -> Result<bool, AllocError> {
    if fuel > MOST_FUEL || !takes_int(code.program()) {
        return Err(AllocError);
    }
    let mut store = Store::new(alloc, code.types().spelling_limit() as u32);
    let value = store.put_int(argument)?;
    let outcome = ideal_run(code, &mut store, FIRST, &[value], fuel, alloc)?;
    Ok(is_same_outcome(&store, outcome, expected))
}

/// Whether two outcomes are one.
fn is_same_outcome(store: &Store, outcome: Outcome<Ref>, expected: &Outcome<Plain>) -> bool {
    match (outcome, expected) {
        (Outcome::Done(r), Outcome::Done(value)) => is_same(store, r, value),
        (Outcome::Trapped(trap), Outcome::Trapped(other)) => trap_word(trap) == trap_word(*other),
        (Outcome::Out, Outcome::Out) => true,
        _ => false,
    }
}

/// How an outcome of the reference ends, in a word.
pub fn end_word(outcome: &Outcome<Plain>) -> &'static str {
    match outcome {
        Outcome::Done(_) => "done",
        Outcome::Trapped(trap) => trap_word(*trap),
        Outcome::Out => "out",
    }
}

/// What was authenticated, where a node stands for an authenticated value.
fn opened(store: &Store, r: Ref) -> Ref {
    let mut r = r;
    for _level in 0..MOST_LEVELS {
        if r.0 >= store.count() {
            return r;
        }
        match store.view(r) {
            View::Auth(Held::Inner(inner)) => r = inner,
            _ => return r,
        }
    }
    r
}

/// Whether a node stands for a value. What stands for an authenticated one has a node of its own.
#[cycle(comparing)]
fn is_same(store: &Store, r: Ref, value: &Plain) -> bool {
    let r = opened(store, r);
    if r.0 >= store.count() {
        return false;
    }
    match (store.view(r), value) {
        (View::Unit, Plain::UnitValue) => true,
        (View::Bool(bool), Plain::BoolValue(other)) => bool == *other,
        (View::Int(int), Plain::IntValue(other)) => int == *other,
        (View::Text(text), Plain::TextValue(other)) => text == other.as_str(),
        (View::Pair(first, second), Plain::PairValue(x, y)) => {
            is_same(store, first, x) && is_same(store, second, y)
        }
        (View::Constructor(_, tag, fields), Plain::ConstructorValue(other, values)) => {
            tag == *other && are_same(store, fields, values)
        }
        (View::Items(items), Plain::ItemsValue(values)) => are_same(store, items, values),
        _ => false,
    }
}

/// Whether nodes stand for values, one for one.
#[cycle(comparing)]
fn are_same(store: &Store, nodes: &[Ref], values: &[Plain]) -> bool {
    if nodes.len() != values.len() {
        return false;
    }
    for (place, value) in values.iter().enumerate() {
        if !is_same(store, nodes[place], value) {
            return false;
        }
    }
    true
}
