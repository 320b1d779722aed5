// Texts, and what they are printed as once they are parsed.
use crate::answers::{failed_row, printed};
use program_texts::{BST, MERKLE};
use std::alloc::{AllocError, Global};
use std::test::Fail;

/// A text, and the text that it is printed as.
pub type Row = (&'static [u8], &'static [u8]);

/// Each declaration stands on a line. Words that would join stand apart, and a `(` stands at the name or the operation before it alone.
static TEXTS: [Row; 13] = [
    // declarations and types
    (b"", b""),
    (b"# nothing but a comment", b""),
    (
        b"state auth unit; init make(x: unit): auth unit = auth(x); query open(s: auth unit, x: unit): unit = unauth(s);",
        b"state auth unit;\ninit make(x: unit): auth unit = auth(x);\nquery open(s: auth unit, x: unit): unit = unauth(s);\n",
    ),
    (
        b"state\tauth int ;init f(x:int):auth int=auth(add (x,-01));",
        b"state auth int;\ninit f(x: int): auth int = auth(add(x, -1));\n",
    ),
    (b"state\tauth  auth\n text ;# x", b"state auth auth text;\n"),
    (
        b"type t=A|B(int)|C(t,auth t,(text,bool));state auth (int,(t,t));",
        b"type t = A | B(int) | C(t, auth t, (text, bool));\nstate auth(int, (t, t));\n",
    ),
    (
        b"fun f ( x : int ) : int = x ;update g(x:int,y:(int,int)):(int,int)=y;",
        b"fun f(x: int): int = x;\nupdate g(x: int, y: (int, int)): (int, int) = y;\n",
    ),
    // expressions
    (
        b"fun f(x:t):t=g((),true,false,(x,A),B(x));",
        b"fun f(x: t): t = g((), true, false, (x, A), B(x));\n",
    ),
    (
        b"fun f(x:int):t=g (0,-0,007,-0009,9223372036854775807,-9223372036854775808);",
        b"fun f(x: int): t = g(0, 0, 7, -9, 9223372036854775807, -9223372036854775808);\n",
    ),
    (
        b"fun f(x:t):t=if lt(x,sub(1,2))then(x,x)else unauth(fst(snd(x)));",
        b"fun f(x: t): t = if lt(x, sub(1, 2)) then (x, x) else unauth(fst(snd(x)));\n",
    ),
    (
        b"fun f(x:t):t=let y=x in let z=(y,1)in(z,z);",
        b"fun f(x: t): t = let y = x in let z = (y, 1) in (z, z);\n",
    ),
    (
        b"fun f(x:t):t=match(x,1)with|A->()|B(y,z)->match y with|C->z end end;",
        b"fun f(x: t): t = match (x, 1) with | A -> () | B(y, z) -> match y with | C -> z end end;\n",
    ),
    (
        b"fun f(x:t):t=\"a\\\"\\\\\\n\\t\\x0a\\x00\\x1F ~\\x7f\\x41\xc3\xa9#\";",
        b"fun f(x: t): t = \"a\\\"\\\\\\n\\t\\n\\x00\\x1f ~\\x7fA\xc3\xa9#\";\n",
    ),
];

/// Whether a text is printed so, and what is printed is printed as itself.
pub fn is_printed_so(alloc: Global, text: &[u8], wanted: &[u8]) -> Result<bool, AllocError> {
    let Some(first) = printed(alloc, text)? else {
        return Ok(false);
    };
    let Some(again) = printed(alloc, &first)? else {
        return Ok(false);
    };
    Ok(first.as_slice() == wanted && again.as_slice() == wanted)
}

/// The first four declarations of the search tree, as they are printed.
const BST_BEGINNING: &[u8] = b"type tree = Leaf | Node(int, int, auth tree, auth tree);
type found = Missing | Found(int);
state auth tree;
fun look(t: auth tree, k: int): found = match unauth(t) with | Leaf -> Missing | Node(a, v, l, r) -> if eq(k, a) then Found(v) else if lt(k, a) then look(l, k) else look(r, k) end;
";

#[test]
fn texts_are_printed(rt: HostRuntime) -> Result<(), Fail> {
    for (number, (text, wanted)) in TEXTS.iter().enumerate() {
        if !is_printed_so(rt.alloc(), text, wanted)? {
            return Err(failed_row(number));
        }
    }
    Ok(())
}

/// Whether a text is printed with this beginning, and what is printed is printed as itself.
fn is_printed_from(alloc: Global, text: &[u8], beginning: &[u8]) -> Result<bool, AllocError> {
    let Some(first) = printed(alloc, text)? else {
        return Ok(false);
    };
    Ok(first.starts_with(beginning) && is_printed_so(alloc, &first, &first)?)
}

/// Programs of some size, and what they are printed as at their beginning.
static PROGRAMS: [(&[u8], &[u8]); 2] = [
    (BST, BST_BEGINNING),
    (
        MERKLE,
        b"type tree = Tip(int) | Fork(auth tree, auth tree);\n",
    ),
];

#[test]
fn programs_of_some_size_are_printed(rt: HostRuntime) -> Result<(), Fail> {
    for (number, (text, beginning)) in PROGRAMS.iter().enumerate() {
        if !is_printed_from(rt.alloc(), text, beginning)? {
            return Err(failed_row(number));
        }
    }
    Ok(())
}
