// What is known before an instruction.
use std::alloc::{AllocError, AllocFailed, Global};

/// Why an instruction isn't gone past.
#[derive(Clone, Copy)]
pub enum Stop {
    Fault,
    NoMemory,
}

impl From<AllocError> for Stop {
    fn from(_: AllocError) -> Stop {
        Stop::NoMemory
    }
}

impl<T: Drop> From<AllocFailed<T>> for Stop {
    fn from(_: AllocFailed<T>) -> Stop {
        Stop::NoMemory
    }
}

/// The types of the locals and of the operands, by number; the top operand is the last.
#[derive(Drop)]
pub struct State {
    pub locals: Vec<usize>,
    pub operands: Vec<usize>,
}

impl State {
    pub fn copied(&self, alloc: Global) -> Result<State, AllocError> {
        let locals = Vec::from_slice(alloc, &self.locals)?;
        let operands = Vec::from_slice(alloc, &self.operands)?;
        Ok(State { locals, operands })
    }

    pub fn is(&self, other: &State) -> bool {
        self.locals.as_slice() == other.locals.as_slice()
            && self.operands.as_slice() == other.operands.as_slice()
    }

    /// Takes the top operand off.
    pub fn pop(&mut self) -> Result<usize, Stop> {
        match self.operands.pop() {
            Some(ty) => Ok(ty),
            None => Err(Stop::Fault),
        }
    }

    /// Takes the top operand off, which has this type.
    pub fn take(&mut self, ty: usize) -> Result<(), Stop> {
        let top = self.pop()?;
        if top == ty { Ok(()) } else { Err(Stop::Fault) }
    }

    /// Takes operands of these types off, of which the last is the top one.
    pub fn take_all(&mut self, types: &[u32]) -> Result<(), Stop> {
        for ty in types.iter().rev() {
            self.take(*ty as usize)?;
        }
        Ok(())
    }

    pub fn push(&mut self, ty: usize) -> Result<(), Stop> {
        self.operands.push(ty)?;
        Ok(())
    }

    /// Makes the top operand the last local.
    pub fn bind(&mut self) -> Result<(), Stop> {
        let ty = self.pop()?;
        self.locals.push(ty)?;
        Ok(())
    }

    /// Drops so many locals.
    pub fn unbind(&mut self, count: usize) -> Result<(), Stop> {
        if count > self.locals.len() {
            return Err(Stop::Fault);
        }
        let left = self.locals.len() - count;
        self.locals.truncate(left);
        Ok(())
    }

    /// Adds locals of these types.
    pub fn extend(&mut self, types: &[u32]) -> Result<(), Stop> {
        for ty in types {
            self.locals.push(*ty as usize)?;
        }
        Ok(())
    }
}
