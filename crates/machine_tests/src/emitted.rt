// The instructions that are generated for functions.
use crate::stage::code_of;
use code_gen::Code;
use core_terms::{Arith, Compare, FunctionId, Instruction, TextCompare};
use std::alloc::{AllocError, Global};
use std::test::Fail;

/// A function, and its instructions.
type Row = (&'static str, &'static [&'static str]);

/// What stands behind each function.
const BEHIND: &str = "
    state unit;
    type shape = Dot | Box(int) | Line(int, bool);
    type only = Only(shape, int);
    fun g(a: int, b: unit): int = a;";

const ROWS: [Row; 14] = [
    ("fun f(x: int): unit = ();", &["PushUnit", "Return"]),
    (
        "fun f(x: int): (bool, text) = (true, \"ab\");",
        &["PushBool true", "PushText ab", "Pair", "Return"],
    ),
    (
        "fun f(x: int): int = sub(x, -2);",
        &["Load 0", "PushInt -2", "Sub", "Return"],
    ),
    (
        "fun f(x: int): bool = le(len(cat(\"a\", \"b\")), rem(x, 2));",
        &[
            "PushText a",
            "PushText b",
            "Cat",
            "Len",
            "Load 0",
            "PushInt 2",
            "Rem",
            "Le",
            "Return",
        ],
    ),
    (
        "fun f(x: int): bool = not(tlt(\"a\", \"b\"));",
        &["PushText a", "PushText b", "TextLt", "Not", "Return"],
    ),
    (
        "fun f(x: int): int = unauth(auth(fst((x, snd((1, x))))));",
        &[
            "Load 0",
            "PushInt 1",
            "Load 0",
            "Pair",
            "Snd",
            "Pair",
            "Fst",
            "Auth",
            "Unauth",
            "Return",
        ],
    ),
    (
        "fun f(x: int): int = let y = add(x, 1) in let z = y in mul(y, z);",
        &[
            "Load 0",
            "PushInt 1",
            "Add",
            "Bind",
            "Load 1",
            "Bind",
            "Load 1",
            "Load 2",
            "Mul",
            "Unbind 1",
            "Unbind 1",
            "Return",
        ],
    ),
    (
        "fun f(x: int): int = if le(x, 0) then 0 else sub(x, 1);",
        &[
            "Load 0",
            "PushInt 0",
            "Le",
            "Branch 2",
            "PushInt 0",
            "Jump 3",
            "Load 0",
            "PushInt 1",
            "Sub",
            "Return",
        ],
    ),
    (
        "fun f(x: int): int = if true then if false then 1 else 2 else 3;",
        &[
            "PushBool true",
            "Branch 6",
            "PushBool false",
            "Branch 2",
            "PushInt 1",
            "Jump 1",
            "PushInt 2",
            "Jump 1",
            "PushInt 3",
            "Return",
        ],
    ),
    (
        "fun f(x: shape): int = match x with | Dot -> 0 | Box(n) -> n | Line(n, b) -> n end;",
        &[
            "Load 0",
            "Switch 0 0 2 5",
            "PushInt 0",
            "Jump 5",
            "Load 1",
            "Unbind 1",
            "Jump 2",
            "Load 1",
            "Unbind 2",
            "Return",
        ],
    ),
    (
        "fun f(x: only): int = match x with | Only(s, n) -> add(match s with | Dot -> n | Box(m) -> m | Line(m, b) -> n end, n) end;",
        &[
            "Load 0",
            "Switch 1 0",
            "Load 1",
            "Switch 0 0 2 5",
            "Load 2",
            "Jump 5",
            "Load 3",
            "Unbind 1",
            "Jump 2",
            "Load 2",
            "Unbind 2",
            "Load 2",
            "Add",
            "Unbind 2",
            "Return",
        ],
    ),
    (
        "fun f(x: int): shape = Line(div(x, 2), eq(x, 1));",
        &[
            "Load 0",
            "PushInt 2",
            "Div",
            "Load 0",
            "PushInt 1",
            "Eq",
            "Make 0 2",
            "Return",
        ],
    ),
    (
        "fun f(x: int): int = g(g(x, ()), ());",
        &[
            "Load 0", "PushUnit", "Call 1", "PushUnit", "Call 1", "Return",
        ],
    ),
    (
        "fun f(x: int): int = let a = 1 in match Box(a) with | Dot -> x | Box(b) -> let c = b in c | Line(c, d) -> if d then c else a end;",
        &[
            "PushInt 1",
            "Bind",
            "Load 1",
            "Make 0 1",
            "Switch 0 0 2 8",
            "Load 0",
            "Jump 12",
            "Load 2",
            "Bind",
            "Load 3",
            "Unbind 1",
            "Unbind 1",
            "Jump 6",
            "Load 3",
            "Branch 2",
            "Load 2",
            "Jump 1",
            "Load 1",
            "Unbind 2",
            "Unbind 1",
            "Return",
        ],
    ),
];

/// The name of an instruction, with its numbers or its literal; of one on a type, the name alone.
fn told(alloc: Global, instruction: &Instruction) -> Result<String, AllocError> {
    match instruction {
        Instruction::PushBool(value) => format!(in alloc; "PushBool {value}"),
        Instruction::PushInt(value) => format!(in alloc; "PushInt {value}"),
        Instruction::PushText(text) => push_text(alloc, text.as_bytes()),
        Instruction::Load(local) => format!(in alloc; "Load {}", local.0),
        Instruction::Unbind(count) => format!(in alloc; "Unbind {count}"),
        Instruction::Make(named, tag) => format!(in alloc; "Make {} {}", named.0, tag.0),
        Instruction::Switch(named, places) => switch(alloc, named.0, places),
        Instruction::Branch(count) => format!(in alloc; "Branch {count}"),
        Instruction::Jump(count) => format!(in alloc; "Jump {count}"),
        Instruction::Call(function) => format!(in alloc; "Call {}", function.0),
        other => String::from_str(alloc, name(other)),
    }
}

fn push_text(alloc: Global, bytes: &[u8]) -> Result<String, AllocError> {
    match str::from_utf8(bytes) {
        Ok(text) => format!(in alloc; "PushText {text}"),
        Err(_) => Err(AllocError),
    }
}

fn switch(alloc: Global, named: usize, places: &[usize]) -> Result<String, AllocError> {
    let mut text = format!(in alloc; "Switch {named}")?;
    for place in places {
        let more = format!(in alloc; " {place}")?;
        text.push_str(&more)?;
    }
    Ok(text)
}

fn name(instruction: &Instruction) -> &'static str {
    match instruction {
        Instruction::PushUnit => "PushUnit",
        Instruction::Bind => "Bind",
        Instruction::Pair => "Pair",
        Instruction::Fst => "Fst",
        Instruction::Snd => "Snd",
        Instruction::Return => "Return",
        Instruction::Auth(_) => "Auth",
        Instruction::Unauth(_) => "Unauth",
        Instruction::Arith(op) => arith_name(*op),
        Instruction::Compare(Compare::Eq) => "Eq",
        Instruction::Compare(Compare::Lt) => "Lt",
        Instruction::Compare(Compare::Le) => "Le",
        Instruction::TextCompare(TextCompare::Eq) => "TextEq",
        Instruction::TextCompare(TextCompare::Lt) => "TextLt",
        Instruction::Cat => "Cat",
        Instruction::Len => "Len",
        Instruction::Not => "Not",
        _ => "",
    }
}

fn arith_name(op: Arith) -> &'static str {
    match op {
        Arith::Add => "Add",
        Arith::Sub => "Sub",
        Arith::Mul => "Mul",
        Arith::Div => "Div",
        Arith::Rem => "Rem",
    }
}

/// The instructions of the first function; none where there is no function.
fn first_instructions(code: &Code) -> &[Instruction] {
    if code.program().functions().is_empty() {
        &[]
    } else {
        code.instructions(FunctionId(0))
    }
}

/// Checks an instruction of a function.
fn check_instruction(
    alloc: Global,
    function: &str,
    instruction: &Instruction,
    wanted: &str,
) -> Result<(), Fail> {
    let told = told(alloc, instruction)?;
    if told.as_str() != wanted {
        return Err(Fail::new(format_args!("{function}: {told} for {wanted}")));
    }
    Ok(())
}

/// Checks the instructions of a function of this code.
fn check_instructions(alloc: Global, code: &Code, (function, expected): Row) -> Result<(), Fail> {
    let instructions = first_instructions(code);
    if instructions.len() != expected.len() {
        return Err(Fail::new(format_args!("{function}: {} instructions", instructions.len())));
    }
    for (instruction, wanted) in instructions.iter().zip(expected) {
        check_instruction(alloc, function, instruction, wanted)?;
    }
    Ok(())
}

/// Checks the instructions of a function.
fn check_row(alloc: Global, row: Row) -> Result<(), Fail> {
    let function = row.0;
    let text = format!(in alloc; "{function}{BEHIND}")?;
    let code = code_of(alloc, text.as_bytes())?;
    check_instructions(alloc, &code, row)
}

#[test]
fn generated_instructions(rt: HostRuntime) -> Result<(), Fail> {
    for row in &ROWS {
        check_row(rt.alloc(), *row)?;
    }
    Ok(())
}
