// Objects with bytes changed at random: however the calls of those that are accepted end, what is proved is accepted and agreed with.
use crate::stage::{
    Call, DIGEST, audited, file, is_same_outcome, proved, source, takes_call, verdict,
};
use ads_library::Gen;
use call_stage::calls::code_of;
use code_check::{ObjectFault, accept};
use code_gen::Code;
use collision_audit::Audited;
use core_terms::{Digest, Format, Outcome, Spelling};
use digest_layer::Sha;
use object_writer::write_object;
use std::alloc::{AllocError, Global};
use std::test::Fail;
use value_store::Store;

/// A text, and three of its roles, which take ints.
struct Subject {
    text: &'static [u8],
    roles: [&'static str; 3],
}

/// A loop that opens pieces again and again, lists of pieces, and pieces within pieces.
static SUBJECTS: [Subject; 3] = [
    Subject {
        text: b"state int; fun opened(n: int): int = fst(unauth(auth((n, \"piece\")))); fun sum(n: int, k: int, s: int): int = if le(n, 0) then s else sum(sub(n, 1), k, add(s, opened(rem(n, k)))); query again(k: int, m: int): int = sum(m, k, 0); query over(s: int, x: int): int = add(opened(s), opened(x)); update swap(s: int, x: int): (int, int) = (opened(x), opened(s));",
        roles: ["again", "over", "swap"],
    },
    Subject {
        text: b"type list = Nil | More(int, auth list); state int; fun made(n: int): auth list = if le(n, 0) then auth(Nil) else auth(More(n, made(sub(n, 1)))); fun sum(l: auth list, k: int): int = match unauth(l) with | Nil -> k | More(n, rest) -> sum(rest, add(n, k)) end; query total(s: int, x: int): int = sum(made(x), s); query front(s: int, x: int): list = unauth(made(s)); update keep(s: int, x: int): (int, auth list) = (add(s, x), made(x));",
        roles: ["total", "front", "keep"],
    },
    Subject {
        text: b"state int; query word(s: int, x: int): (bool, text) = let t = unauth(auth(if lt(s, x) then \"a\" else \"bc\")) in (tlt(t, \"b\"), cat(t, \"d\")); query deep(s: int, x: int): (int, int) = let p = unauth(auth((auth(s), auth(x)))) in (div(unauth(fst(p)), x), mul(unauth(snd(p)), s)); update mean(s: int, x: int): (int, auth (auth int, bool)) = (div(add(s, x), 2), auth((auth(s), not(eq(s, x)))));",
        roles: ["word", "deep", "mean"],
    },
];

/// How many changed objects are made of each.
const TRIES: u32 = 100_000;

/// How many accepted objects are to be run at least.
const RUNS: u32 = 10_000;

/// The longest object that is judged.
const MAX_OBJECT: usize = 4_194_304;

/// How many pieces a proof asks to be kept.
const RING: u16 = 4;

/// The object of the program with this text.
fn object_of(alloc: Global, text: &[u8]) -> Result<Vec<u8>, AllocError> {
    let code = code_of(alloc, text, DIGEST)?;
    if code.program().code().is_some() || code.program().format() != Format::First {
        return Err(AllocError);
    }
    match write_object(alloc, &code) {
        Ok(object) => Ok(object),
        Err(_) => Err(AllocError),
    }
}

/// A byte in the place of this one: every other time with one of its low bits flipped, as numbers of instructions, locals and types are small.
fn byte_for(byte: u8, numbers: &mut Gen) -> u8 {
    if numbers.next() % 2 == 0 {
        return byte ^ (1 << (numbers.next() % 3));
    }
    (numbers.next() % 256) as u8
}

/// The object with one to three bytes changed; a byte may become what it was.
fn changed(alloc: Global, object: &[u8], numbers: &mut Gen) -> Result<Vec<u8>, AllocError> {
    let mut bytes = Vec::from_slice(alloc, object)?;
    let len = object.len().max(1) as u64;
    for _ in 0..=numbers.next() % 3 {
        let place = (numbers.next() % len) as usize;
        if let Some(byte) = bytes.get_mut(place) {
            *byte = byte_for(*byte, numbers);
        }
    }
    Ok(bytes)
}

/// An int from -8 to 8, or every eighth time a large one.
fn int_of(numbers: &mut Gen) -> i64 {
    let small = (numbers.next() % 17) as i64 - 8;
    if numbers.next() % 8 == 0 {
        return i64::MAX - 8 + small;
    }
    small
}

/// A call of one of these roles, with at most 199 units of fuel.
fn call_of(roles: &[&'static str; 3], numbers: &mut Gen) -> Call {
    let role = roles[(numbers.next() % 3) as usize];
    let state = int_of(numbers);
    let argument = int_of(numbers);
    let fuel = numbers.next() % 200;
    Call {
        role,
        state,
        argument,
        fuel,
    }
}

/// What comes of a changed object.
#[derive(Clone, Copy)]
enum Trial {
    /// It is the object as it was, or isn't accepted.
    Refused,
    /// The role is gone, or doesn't take ints any more.
    Uncallable,
    /// The call ends with a value, the proof is accepted and the audit agrees.
    Done,
    /// The same, where it ends with a trap.
    Trapped,
    /// The same, where it ends without fuel.
    Out,
    /// The verdict or the audit is another.
    Differs,
}

impl Trial {
    /// The trial whose call ended so.
    fn of(outcome: &Outcome<Spelling>) -> Self {
        match outcome {
            Outcome::Done(_) => Trial::Done,
            Outcome::Trapped(_) => Trial::Trapped,
            Outcome::Out => Trial::Out,
        }
    }
}

/// How many trials came to what.
#[derive(Clone, Copy, Debug)]
struct Tally {
    refused: u32,
    uncallable: u32,
    done: u32,
    trapped: u32,
    out: u32,
    differs: u32,
}

impl Tally {
    fn new() -> Self {
        Tally {
            refused: 0,
            uncallable: 0,
            done: 0,
            trapped: 0,
            out: 0,
            differs: 0,
        }
    }

    fn count(&mut self, trial: Trial) {
        let counter = match trial {
            Trial::Refused => &mut self.refused,
            Trial::Uncallable => &mut self.uncallable,
            Trial::Done => &mut self.done,
            Trial::Trapped => &mut self.trapped,
            Trial::Out => &mut self.out,
            Trial::Differs => &mut self.differs,
        };
        *counter = counter.saturating_add(1);
    }

    /// Whether enough calls ran, some to each end, and none differs.
    fn is_good(&self) -> bool {
        let ran = self
            .done
            .saturating_add(self.trapped)
            .saturating_add(self.out);
        self.differs == 0 && ran >= RUNS && self.done > 0 && self.trapped > 0 && self.out > 0
    }
}

/// Whether a proof is accepted whole, with this outcome.
fn is_accepted(
    alloc: Global,
    code: &Code,
    call: Call,
    proof: &[u8],
    outcome: &Outcome<Spelling>,
) -> Result<bool, AllocError> {
    let mut judged = source(alloc, proof, 4096)?;
    match &verdict::<Sha>(alloc, code, call, &mut judged)? {
        Ok(told) => Ok(is_same_outcome(told, outcome) && judged.left() == 0),
        Err(_) => Ok(false),
    }
}

/// Whether the audit agrees with a proof, with this outcome.
fn is_agreed(
    alloc: Global,
    code: &Code,
    store: &mut Store,
    call: Call,
    proof: &[u8],
    outcome: &Outcome<Spelling>,
) -> Result<bool, AllocError> {
    let mut compared = source(alloc, proof, 4096)?;
    match &audited::<Sha>(alloc, code, store, call, &mut compared)? {
        Ok(Audited::Agrees(told)) => Ok(is_same_outcome(told, outcome)),
        _ => Ok(false),
    }
}

/// What comes of a call of an accepted object.
fn run(alloc: Global, code: &Code, call: Call) -> Result<Trial, AllocError> {
    if !takes_call(code, call.role) {
        return Ok(Trial::Uncallable);
    }
    let mut store = Store::new(alloc, code.types().spelling_limit() as u32);
    let told = proved::<Sha>(alloc, code, &mut store, call, RING)?;
    let proof = file(alloc, RING, &told.frames)?;
    if is_accepted(alloc, code, call, &proof, &told.outcome)?
        && is_agreed(alloc, code, &mut store, call, &proof, &told.outcome)?
    {
        return Ok(Trial::of(&told.outcome));
    }
    Ok(Trial::Differs)
}

/// The code of bytes that are an accepted object.
fn accepted(alloc: Global, bytes: &[u8]) -> Result<Option<Box<Code>>, AllocError> {
    if bytes.len() > MAX_OBJECT {
        return Ok(None);
    }
    match accept(alloc, bytes, Digest([7; 32])) {
        Ok(program) => Ok(Some(Box::new(alloc, Code::generate(program, alloc)?)?)),
        Err(ObjectFault::NoMemory) => Err(AllocError),
        Err(_) => Ok(None),
    }
}

/// What comes of an object that is changed at random.
fn try_one(
    alloc: Global,
    object: &[u8],
    roles: &[&'static str; 3],
    numbers: &mut Gen,
) -> Result<Trial, AllocError> {
    let bytes = changed(alloc, object, numbers)?;
    if bytes.as_slice() == object {
        return Ok(Trial::Refused);
    }
    match &accepted(alloc, &bytes)? {
        Some(code) => run(alloc, code, call_of(roles, numbers)),
        None => Ok(Trial::Refused),
    }
}

/// Counts what comes of the changed objects of a text's program.
fn try_all(
    alloc: Global,
    subject: &Subject,
    numbers: &mut Gen,
    tally: &mut Tally,
) -> Result<(), AllocError> {
    let object = object_of(alloc, subject.text)?;
    for _ in 0..TRIES {
        tally.count(try_one(alloc, &object, &subject.roles, numbers)?);
    }
    Ok(())
}

#[test]
fn accepted_objects_are_proved(rt: HostRuntime) -> Result<(), Fail> {
    let mut numbers = Gen::new(1);
    let mut tally = Tally::new();
    for subject in &SUBJECTS {
        try_all(rt.alloc(), subject, &mut numbers, &mut tally)?;
    }
    if !tally.is_good() {
        return Err(Fail::new(format_args!("{tally:?}")));
    }
    Ok(())
}
