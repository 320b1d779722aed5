// A checker that is written plainly, to compare `accept` with: lists of types are vectors, which are copied at each instruction.
mod checker;
mod forms;
mod shapes;
mod state;

use checker::Checker;
use code_check::ObjectFault;
use object_reader::{Object, read_object};
use shapes::first_misshaped;
use std::alloc::Global;

/// The first fault of the bytes, where they are no accepted object.
pub fn judged(alloc: Global, bytes: &[u8]) -> Result<(), ObjectFault> {
    let object = read_object(alloc, bytes)?;
    match first_misshaped(alloc, &object)? {
        Some(function) => Err(ObjectFault::Shape(function)),
        None => kinds_judged(alloc, &object),
    }
}

fn kinds_judged(alloc: Global, object: &Object<'_>) -> Result<(), ObjectFault> {
    let mut checker = Checker::new(alloc, object)?;
    for (number, function) in object.functions.iter().enumerate() {
        if let Some(place) = checker.first_fault(function)? {
            return Err(ObjectFault::Kind(number, place));
        }
    }
    Ok(())
}
