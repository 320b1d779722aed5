// The trees that texts are: their words, parts and places.
use crate::answers::tree_of;
use auth_syntax::tree::{
    Arm, Ast, Declaration, ExpTree, Function, FunctionKind, TypeTree, UnaryOperator,
};
use core_terms::{Arith, BinaryOperator, Compare, TextCompare};
use std::test::Fail;

/// Texts of a function, and the word of its operation, or else of its kind.
const WORDS: [(&[u8], &str); 21] = [
    (b"fun f(x: t): t = ();", "fun"),
    (b"init f(x: t): t = ();", "init"),
    (b"query f(x: t): t = ();", "query"),
    (b"update f(x: t): t = ();", "update"),
    (b"fun f(x: t): t = fst(x);", "fst"),
    (b"fun f(x: t): t = snd(x);", "snd"),
    (b"fun f(x: t): t = auth(x);", "auth"),
    (b"fun f(x: t): t = unauth(x);", "unauth"),
    (b"fun f(x: t): t = len(x);", "len"),
    (b"fun f(x: t): t = not(x);", "not"),
    (b"fun f(x: t): t = add(x, y);", "add"),
    (b"fun f(x: t): t = sub(x, y);", "sub"),
    (b"fun f(x: t): t = mul(x, y);", "mul"),
    (b"fun f(x: t): t = div(x, y);", "div"),
    (b"fun f(x: t): t = rem(x, y);", "rem"),
    (b"fun f(x: t): t = eq(x, y);", "eq"),
    (b"fun f(x: t): t = lt(x, y);", "lt"),
    (b"fun f(x: t): t = le(x, y);", "le"),
    (b"fun f(x: t): t = teq(x, y);", "teq"),
    (b"fun f(x: t): t = tlt(x, y);", "tlt"),
    (b"fun f(x: t): t = cat(x, y);", "cat"),
];

/// The word of a function's operation, or else of its kind.
fn word_of(function: &Function) -> &'static str {
    match &function.body {
        ExpTree::Unary(_, operator, _) => unary_word(*operator),
        ExpTree::Binary(_, operator, _, _) => binary_word(*operator),
        _ => match function.kind {
            FunctionKind::Inner => "fun",
            FunctionKind::Init => "init",
            FunctionKind::Query => "query",
            FunctionKind::Update => "update",
        },
    }
}

fn unary_word(operator: UnaryOperator) -> &'static str {
    match operator {
        UnaryOperator::Fst => "fst",
        UnaryOperator::Snd => "snd",
        UnaryOperator::Auth => "auth",
        UnaryOperator::Unauth => "unauth",
        UnaryOperator::Len => "len",
        UnaryOperator::Not => "not",
    }
}

fn binary_word(operator: BinaryOperator) -> &'static str {
    match operator {
        BinaryOperator::Arith(Arith::Add) => "add",
        BinaryOperator::Arith(Arith::Sub) => "sub",
        BinaryOperator::Arith(Arith::Mul) => "mul",
        BinaryOperator::Arith(Arith::Div) => "div",
        BinaryOperator::Arith(Arith::Rem) => "rem",
        BinaryOperator::Compare(Compare::Eq) => "eq",
        BinaryOperator::Compare(Compare::Lt) => "lt",
        BinaryOperator::Compare(Compare::Le) => "le",
        BinaryOperator::TextCompare(TextCompare::Eq) => "teq",
        BinaryOperator::TextCompare(TextCompare::Lt) => "tlt",
        BinaryOperator::Cat => "cat",
    }
}

/// Whether the function that is declared first has this word.
fn has_word(ast: &Ast, word: &str) -> bool {
    match ast.declarations.first() {
        Some(Declaration::Function(_, function)) => word_of(function) == word,
        _ => false,
    }
}

#[test]
fn kinds_and_operations_have_their_words(rt: HostRuntime) -> Result<(), Fail> {
    for (text, word) in &WORDS {
        if !has_word(&tree_of(rt.alloc(), text)?, word) {
            return Err(Fail::new(*word));
        }
    }
    Ok(())
}

/// A named type, and functions whose bodies have parts.
const PARTS: &[u8] = b"\n type shape = Dot | Box(int, (auth shape, text));
fun f(x: t): t =\n let y = g(x, -1) in true;
fun g(x: t): t = if x then 1 else (x, \"c\");
fun h(x: t): t = match x with | B(a, b) -> a | C -> D(x) end;";

/// Whether a declaration is that of `shape`.
fn is_shape(declaration: &Declaration) -> bool {
    let Declaration::Type(at, declared) = declaration else {
        return false;
    };
    let [dot, filled] = declared.constructors.as_slice() else {
        return false;
    };
    let [first, second] = filled.fields.as_slice() else {
        return false;
    };
    (at.offset, at.line, at.column) == (2, 2, 2)
        && declared.name.name.as_bytes() == b"shape".as_slice()
        && dot.name.name.as_bytes() == b"Dot".as_slice()
        && dot.fields.is_empty()
        && filled.name.at.column == 21
        && matches!(first, TypeTree::IntType(_))
        && matches!(second, TypeTree::PairType(_, _, _))
}

/// The body of a function.
fn body_of(declaration: &Declaration) -> Option<&ExpTree> {
    match declaration {
        Declaration::Function(_, function) => Some(&function.body),
        _ => None,
    }
}

/// Whether a body is `let y = g(x, -1) in true`, on line 4.
fn is_let(body: &ExpTree) -> bool {
    let ExpTree::Let {
        at,
        name,
        bound,
        body,
    } = body
    else {
        return false;
    };
    (at.line, at.column) == (4, 2)
        && name.name.as_bytes() == b"y".as_slice()
        && is_call_of_two(bound)
        && matches!(&**body, ExpTree::BoolLiteral(_, true))
}

/// Whether an expression is `g(x, -1)`.
fn is_call_of_two(expression: &ExpTree) -> bool {
    let ExpTree::Call(_, called, arguments) = expression else {
        return false;
    };
    let [ExpTree::Local(_, first), ExpTree::IntLiteral(_, -1)] = arguments.as_slice() else {
        return false;
    };
    called.as_bytes() == b"g".as_slice() && first.as_bytes() == b"x".as_slice()
}

/// Whether a body is an `if` of a local, an int, and a pair of a local and a text.
fn is_if(body: &ExpTree) -> bool {
    let ExpTree::If {
        test,
        first,
        other,
        ..
    } = body
    else {
        return false;
    };
    let ExpTree::Pair(_, left, right) = &**other else {
        return false;
    };
    matches!(&**test, ExpTree::Local(_, _))
        && matches!(&**first, ExpTree::IntLiteral(_, 1))
        && matches!(&**left, ExpTree::Local(_, _))
        && matches!(&**right, ExpTree::TextLiteral(_, _))
}

/// Whether a body is a `match` with the arms `B(a, b)`, of a local, and `C`, of a constructor.
fn is_match(body: &ExpTree) -> bool {
    let ExpTree::Match { arms, .. } = body else {
        return false;
    };
    let [several, none] = arms.as_slice() else {
        return false;
    };
    is_arm_of(several, b"B", b"ab")
        && matches!(several.body, ExpTree::Local(_, _))
        && is_arm_of(none, b"C", b"")
        && matches!(none.body, ExpTree::Constructor(_, _, _))
}

/// Whether an arm has this constructor, and fields of one letter each.
fn is_arm_of(arm: &Arm, constructor: &[u8], letters: &[u8]) -> bool {
    if arm.constructor.name.as_bytes() != constructor || arm.fields.len() != letters.len() {
        return false;
    }
    for (field, letter) in arm.fields.iter().zip(letters) {
        if field.name.as_bytes() != [*letter].as_slice() {
            return false;
        }
    }
    true
}

/// The first part of a tree that is not as `PARTS` has it.
fn lost_part(ast: &Ast) -> Option<&'static str> {
    let [shape, bound, conditional, matched] = ast.declarations.as_slice() else {
        return Some("not four declarations");
    };
    if !is_shape(shape) {
        return Some("no shape");
    }
    if !body_of(bound).is_some_and(is_let) {
        return Some("no let");
    }
    if !body_of(conditional).is_some_and(is_if) {
        return Some("no if");
    }
    if !body_of(matched).is_some_and(is_match) {
        return Some("no match");
    }
    if ast.end.offset != PARTS.len() {
        return Some("another end");
    }
    None
}

#[test]
fn parts_are_kept(rt: HostRuntime) -> Result<(), Fail> {
    match lost_part(&tree_of(rt.alloc(), PARTS)?) {
        Some(part) => Err(Fail::new(part)),
        None => Ok(()),
    }
}

/// A program of a state, an init and a query.
const PROGRAM: &[u8] = b"state auth int;
init make(x: int): auth int = auth(add(x, 1));
query open(s: auth int, x: unit): int = unauth(s); # what the state is";

/// Whether a declaration is that of `open`.
fn is_open(declaration: &Declaration) -> bool {
    let Declaration::Function(at, open) = declaration else {
        return false;
    };
    (at.offset, at.line, at.column) == (63, 3, 1)
        && open.kind == FunctionKind::Query
        && open.name.name.as_bytes() == b"open".as_slice()
        && open.parameters.len() == 2
        && matches!(open.body, ExpTree::Unary(_, _, _))
}

/// The first part of a tree that is not as `PROGRAM` has it.
fn lost_part_of_program(ast: &Ast) -> Option<&'static str> {
    if ast.declarations.len() != 3 {
        return Some("not three declarations");
    }
    if !ast.declarations.last().is_some_and(is_open) {
        return Some("no open");
    }
    if ast.end.offset != PROGRAM.len() {
        return Some("another end");
    }
    None
}

#[test]
fn a_program_is_parsed(rt: HostRuntime) -> Result<(), Fail> {
    match lost_part_of_program(&tree_of(rt.alloc(), PROGRAM)?) {
        Some(part) => Err(Fail::new(part)),
        None => Ok(()),
    }
}
