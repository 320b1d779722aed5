// The program of the tests, in either format, and its roles:
//
//     type tree = Leaf(int) | Node(auth tree, auth tree);
//     state auth tree;
//     fun walk(t: auth tree, path: int): int =
//         match unauth(t) {
//             Leaf(n) => n,
//             Node(l, r) => if lt(rem(path, 2), 1) then walk(l, div(path, 2)) else walk(r, div(path, 2))
//         };
//     fun sum(t: auth tree): int = match unauth(t) { Leaf(n) => n, Node(l, r) => add(sum(l), sum(r)) };
//     fun grown(t: auth tree, by: int): auth tree =
//         match unauth(t) { Leaf(n) => auth(Leaf(add(n, by))), Node(l, r) => auth(Node(grown(l, by), r)) };
//     query get(s: auth tree, path: int): int = walk(s, path);
//     query total(s: auth tree, x: unit): int = sum(s);
//     update grow(s: auth tree, by: int): (auth tree, int) = (grown(s, by), by);
use crate::terms::{CHANGED, HELD, INT, Step, TREE, UNIT, term_of};
use code_gen::Code;
use core_terms::{
    Arith, Constructor, Format, Function, Kind, NamedId, NamedType, TyForm, TyId, TyTable,
};
use std::alloc::{AllocError, Global};
use term_stage::parts::program_of;
use term_stage::tables::{may_stand, name};

/// The forms of the types, by number.
const FORMS: [TyForm; 5] = [
    TyForm::UnitForm,
    TyForm::IntForm,
    TyForm::NamedForm(NamedId(0)),
    TyForm::AuthForm(TREE),
    TyForm::PairForm(HELD, INT),
];

/// A function: its name, its kind, the types of its parameters and its result, and its body.
type Declared = (&'static [u8], Kind, &'static [TyId], TyId, &'static [Step]);

/// The numbers of the functions that others call.
const WALK: usize = 0;

const SUM: usize = 1;

const GROWN: usize = 2;

static FUNCTIONS: [Declared; 6] = [
    (
        b"walk",
        Kind::Inner,
        &[HELD, INT],
        INT,
        &[
            Step::Local(0),
            Step::Unauth,
            Step::Local(2),
            Step::Local(1),
            Step::Int(2),
            Step::Arith(Arith::Rem),
            Step::Int(1),
            Step::Less,
            Step::Local(2),
            Step::Local(1),
            Step::Int(2),
            Step::Arith(Arith::Div),
            Step::Call(WALK, 2),
            Step::Local(3),
            Step::Local(1),
            Step::Int(2),
            Step::Arith(Arith::Div),
            Step::Call(WALK, 2),
            Step::If,
            Step::Match,
        ],
    ),
    (
        b"sum",
        Kind::Inner,
        &[HELD],
        INT,
        &[
            Step::Local(0),
            Step::Unauth,
            Step::Local(1),
            Step::Local(1),
            Step::Call(SUM, 1),
            Step::Local(2),
            Step::Call(SUM, 1),
            Step::Arith(Arith::Add),
            Step::Match,
        ],
    ),
    (
        b"grown",
        Kind::Inner,
        &[HELD, INT],
        HELD,
        &[
            Step::Local(0),
            Step::Unauth,
            Step::Local(2),
            Step::Local(1),
            Step::Arith(Arith::Add),
            Step::Leaf,
            Step::Auth,
            Step::Local(2),
            Step::Local(1),
            Step::Call(GROWN, 2),
            Step::Local(3),
            Step::Node,
            Step::Auth,
            Step::Match,
        ],
    ),
    (
        b"get",
        Kind::Query,
        &[HELD, INT],
        INT,
        &[Step::Local(0), Step::Local(1), Step::Call(WALK, 2)],
    ),
    (
        b"total",
        Kind::Query,
        &[HELD, UNIT],
        INT,
        &[Step::Local(0), Step::Call(SUM, 1)],
    ),
    (
        b"grow",
        Kind::Update,
        &[HELD, INT],
        CHANGED,
        &[
            Step::Local(0),
            Step::Local(1),
            Step::Call(GROWN, 2),
            Step::Local(1),
            Step::Pair,
        ],
    ),
];

/// The types in a table of a format.
fn types_in(alloc: Global, format: Format) -> Result<Box<TyTable>, AllocError> {
    let mut types = Box::new(alloc, TyTable::new(format, alloc))?;
    for form in FORMS {
        if !may_stand(&types, form) {
            return Err(AllocError);
        }
        types.intern(form)?;
    }
    Ok(types)
}

/// A constructor with fields of these types.
fn constructor(alloc: Global, bytes: &[u8], fields: &[TyId]) -> Result<Constructor, AllocError> {
    Ok(Constructor {
        name: name(bytes, alloc)?,
        fields: Vec::from_slice(alloc, fields)?,
    })
}

/// The named type.
fn named_types(alloc: Global) -> Result<Vec<NamedType>, AllocError> {
    let mut constructors = Vec::new(alloc);
    constructors.push(constructor(alloc, b"Leaf", &[INT])?)?;
    constructors.push(constructor(alloc, b"Node", &[HELD, HELD])?)?;
    let name = name(b"tree", alloc)?;
    let mut named = Vec::new(alloc);
    named.push(NamedType { name, constructors })?;
    Ok(named)
}

/// A function, in a box.
fn function(alloc: Global, declared: &Declared) -> Result<Box<Function>, AllocError> {
    let (bytes, kind, parameters, result, steps) = *declared;
    let body = term_of(alloc, steps)?;
    let name = name(bytes, alloc)?;
    let parameters = Vec::from_slice(alloc, parameters)?;
    Ok(Box::new(
        alloc,
        Function {
            name,
            kind,
            parameters,
            result,
            body: Box::into_inner(body),
        },
    )?)
}

/// The functions.
fn functions(alloc: Global) -> Result<Vec<Function>, AllocError> {
    let mut functions = Vec::new(alloc);
    for declared in &FUNCTIONS {
        let function = function(alloc, declared)?;
        functions.push(Box::into_inner(function))?;
    }
    Ok(functions)
}

/// The code of the program in a format.
///
/// # Errors
///
/// `AllocError` where memory runs out.
pub fn code_of(alloc: Global, format: Format) -> Result<Box<Code>, AllocError> {
    let types = types_in(alloc, format)?;
    let named = named_types(alloc)?;
    let functions = functions(alloc)?;
    let program = program_of(Box::into_inner(types), named, HELD, functions, alloc)?;
    let code = Code::generate(Box::into_inner(program), alloc)?;
    Ok(Box::new(alloc, code)?)
}
