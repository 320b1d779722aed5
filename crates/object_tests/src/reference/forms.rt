// Types by number: those that an object lists, and those that its code makes.
use object_reader::{ListedType, TypeShape};
use std::alloc::{AllocError, Global};

/// A type, by the numbers of its parts. A named type is its number.
#[derive(Clone, Copy, PartialEq)]
pub enum Form {
    Unit,
    Bool,
    Int,
    Text,
    Pair(usize, usize),
    Auth(usize),
    Named(usize),
}

/// All types that are known, each once.
#[derive(Drop)]
pub struct Forms {
    forms: Vec<Form>,
}

fn form_of(number: usize, listed: &ListedType<'_>) -> Form {
    match listed {
        ListedType::Named(_) => Form::Named(number),
        ListedType::Shaped(TypeShape::UnitShape) => Form::Unit,
        ListedType::Shaped(TypeShape::BoolShape) => Form::Bool,
        ListedType::Shaped(TypeShape::IntShape) => Form::Int,
        ListedType::Shaped(TypeShape::TextShape) => Form::Text,
        ListedType::Shaped(TypeShape::PairShape(a, b)) => Form::Pair(*a as usize, *b as usize),
        ListedType::Shaped(TypeShape::AuthShape(part)) => Form::Auth(*part as usize),
    }
}

impl Forms {
    /// The listed types, by their numbers in the list.
    pub fn new(alloc: Global, types: &[ListedType<'_>]) -> Result<Forms, AllocError> {
        let mut forms = Vec::new(alloc);
        for (number, listed) in types.iter().enumerate() {
            forms.push(form_of(number, listed))?;
        }
        Ok(Forms { forms })
    }

    pub fn at(&self, number: usize) -> Form {
        match self.forms.get(number) {
            Some(form) => *form,
            None => Form::Unit,
        }
    }

    /// The number of a type, which is added where it isn't there yet.
    pub fn number(&mut self, form: Form) -> Result<usize, AllocError> {
        if let Some(number) = self.forms.iter().position(|other| *other == form) {
            return Ok(number);
        }
        let number = self.forms.len();
        self.forms.push(form)?;
        Ok(number)
    }
}
