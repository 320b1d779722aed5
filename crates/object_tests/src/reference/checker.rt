// The kinds of the code of one function after another, read off the definition.
use super::forms::{Form, Forms};
use super::state::{State, Stop};
use object_reader::{ListedFunction, ListedInstruction, ListedType, Object};
use std::alloc::{AllocError, Global};
use std::mem;

/// What the instructions before it say of an instruction.
#[derive(Drop)]
enum Known {
    Unreached,
    Reached(State),
    Clashing,
}

/// An object, its types, and what is known of the instructions of a function.
#[derive(Drop)]
pub struct Checker<'a> {
    alloc: Global,
    object: &'a Object<'a>,
    forms: Forms,
    known: Vec<Known>,
}

impl<'a> Checker<'a> {
    pub fn new(alloc: Global, object: &'a Object<'a>) -> Result<Checker<'a>, AllocError> {
        let forms = Forms::new(alloc, &object.types)?;
        let known = Vec::new(alloc);
        Ok(Checker {
            alloc,
            object,
            forms,
            known,
        })
    }

    /// The first instruction at fault of a function.
    pub fn first_fault(
        &mut self,
        function: &ListedFunction<'_>,
    ) -> Result<Option<usize>, AllocError> {
        self.begin(function)?;
        for (place, instruction) in function.code.iter().enumerate() {
            match self.step(place, instruction, function.result as usize) {
                Ok(()) => {}
                Err(Stop::Fault) => return Ok(Some(place)),
                Err(Stop::NoMemory) => return Err(AllocError),
            }
        }
        Ok(None)
    }

    /// Its parameters are the locals of the first instruction, and no other is reached.
    fn begin(&mut self, function: &ListedFunction<'_>) -> Result<(), AllocError> {
        self.known = Vec::new(self.alloc);
        for _instruction in &function.code {
            self.known.push(Known::Unreached)?;
        }
        let mut state = State {
            locals: Vec::new(self.alloc),
            operands: Vec::new(self.alloc),
        };
        match state.extend(&function.parameters) {
            Ok(()) => {}
            Err(_) => return Err(AllocError),
        }
        if let Some(known) = self.known.get_mut(0) {
            *known = Known::Reached(state);
        }
        Ok(())
    }

    fn known_at(&self, place: usize) -> Result<State, Stop> {
        match self.known.get(place) {
            Some(Known::Reached(state)) => Ok(state.copied(self.alloc)?),
            _ => Err(Stop::Fault),
        }
    }

    /// One more way leads to an instruction.
    fn reach(&mut self, place: usize, state: &State) -> Result<(), Stop> {
        if state.locals.len() > 255 {
            return Err(Stop::Fault);
        }
        let copy = state.copied(self.alloc)?;
        let Some(known) = self.known.get_mut(place) else {
            return Err(Stop::Fault);
        };
        let met = match mem::replace(known, Known::Clashing) {
            Known::Unreached => Known::Reached(copy),
            Known::Reached(other) if other.is(state) => Known::Reached(other),
            _ => Known::Clashing,
        };
        *known = met;
        Ok(())
    }

    fn step(
        &mut self,
        place: usize,
        instruction: &ListedInstruction<'_>,
        gives: usize,
    ) -> Result<(), Stop> {
        let mut state = self.known_at(place)?;
        match instruction {
            ListedInstruction::Switch(ty, targets) => self.switch(*ty, targets, &mut state),
            ListedInstruction::Branch(target) => self.branch(place, *target, &mut state),
            ListedInstruction::Jump(target) => self.reach(*target as usize, &state),
            ListedInstruction::Return => returns(gives, &mut state),
            _ => {
                self.change(instruction, &mut state)?;
                self.reach(place.saturating_add(1), &state)
            }
        }
    }

    fn branch(&mut self, place: usize, target: u32, state: &mut State) -> Result<(), Stop> {
        let test = self.forms.number(Form::Bool)?;
        state.take(test)?;
        self.reach(place.saturating_add(1), state)?;
        self.reach(target as usize, state)
    }

    fn switch(&mut self, ty: u32, targets: &[u32], state: &mut State) -> Result<(), Stop> {
        state.take(ty as usize)?;
        for (tag, target) in targets.iter().enumerate() {
            let mut behind = state.copied(self.alloc)?;
            behind.extend(fields(self.object, ty, tag))?;
            self.reach(*target as usize, &behind)?;
        }
        Ok(())
    }

    /// What an instruction that leads to the next one makes of the locals and the operands.
    fn change(
        &mut self,
        instruction: &ListedInstruction<'_>,
        state: &mut State,
    ) -> Result<(), Stop> {
        match instruction {
            ListedInstruction::Load(local) => load(usize::from(*local), state),
            ListedInstruction::Bind => state.bind(),
            ListedInstruction::Unbind(count) => state.unbind(usize::from(*count)),
            ListedInstruction::Pair => self.pair(state),
            ListedInstruction::Fst => self.part(true, state),
            ListedInstruction::Snd => self.part(false, state),
            ListedInstruction::Make(ty, tag) => {
                state.take_all(fields(self.object, *ty, usize::from(*tag)))?;
                state.push(*ty as usize)
            }
            ListedInstruction::Call(function) => call(self.object, usize::from(*function), state),
            ListedInstruction::Auth(ty) => {
                state.take(*ty as usize)?;
                self.push(Form::Auth(*ty as usize), state)
            }
            ListedInstruction::Unauth(ty) => {
                let hashed = self.forms.number(Form::Auth(*ty as usize))?;
                state.take(hashed)?;
                state.push(*ty as usize)
            }
            _ => self.operate(instruction, state),
        }
    }

    fn operate(
        &mut self,
        instruction: &ListedInstruction<'_>,
        state: &mut State,
    ) -> Result<(), Stop> {
        match instruction {
            ListedInstruction::PushUnit => self.push(Form::Unit, state),
            ListedInstruction::PushBool(_) => self.push(Form::Bool, state),
            ListedInstruction::PushInt(_) => self.push(Form::Int, state),
            ListedInstruction::PushText(_) => self.push(Form::Text, state),
            ListedInstruction::Arith(_) => self.of_two(Form::Int, Form::Int, state),
            ListedInstruction::Compare(_) => self.of_two(Form::Int, Form::Bool, state),
            ListedInstruction::TextCompare(_) => self.of_two(Form::Text, Form::Bool, state),
            ListedInstruction::Cat => self.of_two(Form::Text, Form::Text, state),
            ListedInstruction::Len => self.of_one(Form::Text, Form::Int, state),
            ListedInstruction::Not => self.of_one(Form::Bool, Form::Bool, state),
            _ => Err(Stop::Fault),
        }
    }

    fn push(&mut self, form: Form, state: &mut State) -> Result<(), Stop> {
        let ty = self.forms.number(form)?;
        state.push(ty)
    }

    fn of_one(&mut self, takes: Form, gives: Form, state: &mut State) -> Result<(), Stop> {
        let ty = self.forms.number(takes)?;
        state.take(ty)?;
        self.push(gives, state)
    }

    fn of_two(&mut self, takes: Form, gives: Form, state: &mut State) -> Result<(), Stop> {
        let ty = self.forms.number(takes)?;
        state.take(ty)?;
        self.of_one(takes, gives, state)
    }

    fn pair(&mut self, state: &mut State) -> Result<(), Stop> {
        let second = state.pop()?;
        let first = state.pop()?;
        self.push(Form::Pair(first, second), state)
    }

    fn part(&mut self, is_first: bool, state: &mut State) -> Result<(), Stop> {
        let pair = state.pop()?;
        match self.forms.at(pair) {
            Form::Pair(first, second) => state.push(if is_first { first } else { second }),
            _ => Err(Stop::Fault),
        }
    }
}

fn load(local: usize, state: &mut State) -> Result<(), Stop> {
    let ty = match state.locals.get(local) {
        Some(ty) => *ty,
        None => return Err(Stop::Fault),
    };
    state.push(ty)
}

fn call(object: &Object<'_>, function: usize, state: &mut State) -> Result<(), Stop> {
    match object.functions.get(function) {
        Some(called) => {
            state.take_all(&called.parameters)?;
            state.push(called.result as usize)
        }
        None => Err(Stop::Fault),
    }
}

fn returns(gives: usize, state: &mut State) -> Result<(), Stop> {
    state.take(gives)?;
    if state.operands.is_empty() {
        Ok(())
    } else {
        Err(Stop::Fault)
    }
}

/// The types of the fields of a constructor; none where there is no such one.
fn fields<'a>(object: &'a Object<'a>, ty: u32, tag: usize) -> &'a [u32] {
    match object.types.get(ty as usize) {
        Some(ListedType::Named(constructors)) => match constructors.get(tag) {
            Some(constructor) => &constructor.fields,
            None => &[],
        },
        _ => &[],
    }
}
