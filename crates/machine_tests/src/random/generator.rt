// Texts of random programs, typed by the way they are made.
use crate::random::numbers::Numbers;
use crate::random::templates::{BEHIND, COMMON, FIRST, Sort};
use std::alloc::{AllocError, Global};

/// How deep templates stand in one another.
const DEPTH: usize = 4;

/// More steps than a program takes.
const MAX_STEPS: usize = 1_000_000;

/// What is left to be written of a template, its sort, and how deep further ones may stand in it.
#[derive(Clone, Copy)]
struct Task {
    left: &'static [u8],
    sort: Sort,
    depth: usize,
}

/// What stands first in a template.
#[derive(Clone, Copy)]
enum Mark {
    /// An expression of the sort of a letter.
    Expression(u8),
    /// The name of a local so many places further.
    Name(u8),
    /// A local of the sort of a letter is bound.
    Bind(u8),
    /// The last local is dropped.
    Drop,
    /// Whether functions are called from here on.
    Calls(bool),
    /// A byte that stands for itself.
    Byte(u8),
}

/// What stands first in a template, and what is left; none where it is at its end.
fn next_mark(template: &'static [u8]) -> Option<(Mark, &'static [u8])> {
    match template {
        [b'%', letter, left @ ..] => Some((Mark::Expression(*letter), left)),
        [b'^', digit, left @ ..] => Some((Mark::Name(digit.wrapping_sub(b'0')), left)),
        [b'+', letter, left @ ..] => Some((Mark::Bind(*letter), left)),
        [b'!', left @ ..] => Some((Mark::Drop, left)),
        [b'[', left @ ..] => Some((Mark::Calls(false), left)),
        [b']', left @ ..] => Some((Mark::Calls(true), left)),
        [byte, left @ ..] => Some((Mark::Byte(*byte), left)),
        [] => None,
    }
}

/// A program that is being written.
#[derive(Drop)]
struct Generator {
    alloc: Global,
    numbers: Numbers,
    /// The sorts of the locals, the outermost first. A local's name is `v` and its place.
    locals: Vec<Sort>,
    /// The templates that are being written, the innermost last.
    tasks: Vec<Task>,
    calls: bool,
    text: Vec<u8>,
}

impl Generator {
    /// Writes what stands first in a template.
    fn step(&mut self, task: Task) -> Result<(), AllocError> {
        let Some((mark, left)) = next_mark(task.left) else {
            return Ok(());
        };
        self.write_later(left, task.sort, task.depth)?;
        match mark {
            Mark::Expression(letter) => {
                self.begin(Sort::of_letter(letter, task.sort), task.depth)
            }
            Mark::Name(further) => self.push_later_name(usize::from(further)),
            Mark::Bind(letter) => self.bind(Sort::of_letter(letter, task.sort)),
            Mark::Drop => {
                self.locals.pop();
                Ok(())
            }
            Mark::Calls(calls) => {
                self.calls = calls;
                Ok(())
            }
            Mark::Byte(byte) => self.push_byte(byte),
        }
    }

    /// Writes a template before all others that are left.
    fn write_later(
        &mut self,
        left: &'static [u8],
        sort: Sort,
        depth: usize,
    ) -> Result<(), AllocError> {
        self.tasks.push(Task { left, sort, depth })?;
        Ok(())
    }

    fn bind(&mut self, sort: Sort) -> Result<(), AllocError> {
        self.locals.push(sort)?;
        Ok(())
    }

    fn push_byte(&mut self, byte: u8) -> Result<(), AllocError> {
        self.text.push(byte)?;
        Ok(())
    }

    /// Writes the name of the local that will be bound so many places further.
    fn push_later_name(&mut self, further: usize) -> Result<(), AllocError> {
        let place = self.locals.len().saturating_add(further);
        self.push_name(place)
    }

    fn push_name(&mut self, place: usize) -> Result<(), AllocError> {
        let name = format!(in self.alloc; "v{place}")?;
        self.text.extend_from_slice(name.as_bytes())
    }

    /// Begins an expression of a sort, in which templates may stand so deep: a template of it, or an expression without parts.
    fn begin(&mut self, sort: Sort, depth: usize) -> Result<(), AllocError> {
        if depth == 0 || self.numbers.below(5) == 0 {
            return self.push_leaf(sort);
        }
        let left = match self.numbers.below(8) {
            0 | 1 | 2 | 3 => self.numbers.one_of(sort.own_templates()),
            4 if self.calls => sort.call(),
            _ => self.numbers.one_of(&COMMON),
        };
        self.write_later(left, sort, depth - 1)
    }

    /// Writes a local of a sort, or where none is found another expression without parts.
    fn push_leaf(&mut self, sort: Sort) -> Result<(), AllocError> {
        match self.local_of(sort) {
            Some(place) => self.push_name(place),
            None => {
                let leaf = self.numbers.one_of(sort.leaves());
                self.text.extend_from_slice(leaf)
            }
        }
    }

    /// The last local of a sort up to some place; now and then none is sought.
    fn local_of(&mut self, sort: Sort) -> Option<usize> {
        if self.numbers.below(4) == 0 {
            return None;
        }
        let end = self.numbers.below(self.locals.len().saturating_add(1));
        let before = self.locals.get(..end)?;
        before.iter().rposition(|local| *local == sort)
    }
}

/// The text of the program of a seed.
///
/// # Errors
///
/// `AllocError` where memory runs out.
pub fn program_text(alloc: Global, seed: u64) -> Result<Vec<u8>, AllocError> {
    let mut generator = Generator {
        alloc,
        numbers: Numbers::new(seed),
        locals: Vec::new(alloc),
        tasks: Vec::new(alloc),
        calls: true,
        text: Vec::new(alloc),
    };
    let first = generator.numbers.one_of(&FIRST);
    for left in [BEHIND, first] {
        generator.write_later(left, Sort::Int, DEPTH)?;
    }
    for _ in 0..MAX_STEPS {
        match generator.tasks.pop() {
            Some(task) => generator.step(task)?,
            None => return Ok(generator.text),
        }
    }
    Err(AllocError)
}
