// Expressions, as they are written.

ghost use Rattle.std.specs.Prelude.{◌≡◌, ◌++◌, ◌∷◌, [], IfOk, List, OnOk, Option, option_map};
ghost use Rattle.lexemes.specs.Tokens.{Tokens, count};
ghost use Rattle.auth_syntax.specs.Parsing.{begins_expression, expression_from, operation_from, read_arm_separator, read_arms, read_expression, read_if, read_let, read_list, read_lower, read_match, read_operate, read_optional_list, read_so_many, read_unit_or_pair, read_whole_expression, word_begins, word_from};
ghost use Rattle.auth_syntax.specs.Nesting.{others_of};
ghost use Rattle.auth_syntax.specs.Parsing as parsing;
ghost use Rattle.auth_syntax.specs.Arms.{read_arm};
ghost use Rattle.auth_syntax.specs.Parts.{Begins, as_call, as_constructor, both_of, head_token, operands_of, operation_of, pattern_of, read_before, read_behind, read_binding, read_both, behind_operand, read_opened, read_operands, read_operation, read_pattern, then_closed};
ghost use Rattle.lexemes.specs.Remaining.{remaining};
ghost use Rattle.lexemes.specs.TokenViews.{token_view};
ghost use Rattle.auth_syntax.specs.Trees.{arm_of, arms_of, array_of, boxed_of, expression_of, expressions_of, name_of, names_of, unary_of};
ghost use Rattle.lexemes.specs.Remaining.{Reads};
ghost use Rattle.lexemes.specs.Readings.{Reading, read_mark, read_separator, then_read};
ghost use Rattle.auth_syntax.specs.Syntax.{ExpSyntax};

use crate::parser::types::array_length;
use crate::parser::{NESTING_LIMIT, lower, upper};
use crate::tree::{Arm, ArrayOperator, ExpTree, PlacedName, UnaryOperator};
use core_terms::{BinaryOperator, Name, Text};
use lexemes::fault::{SyntaxFault, SyntaxKind};
use lexemes::parser::{Parser, PlacedToken};
use lexemes::place::Place;
use lexemes::token::{Keyword, Mark, Token};
use std::alloc::{AllocError, Global};

/// What has to stand behind a part of an expression.
#[derive(Clone, Copy)]
enum Behind {
    Nothing,
    Mark(Mark),
    Word(Keyword),
}

/// An operation, by the number of its operands.
#[derive(Clone, Copy)]
enum Operator {
    Unary(UnaryOperator),
    Binary(BinaryOperator),
}

/// The token that begins an expression, with a name of its own.
#[derive(Drop)]
enum Head {
    Keyword(Keyword),
    Mark(Mark),
    Lower(Name),
    Upper(Name),
    Int(i64),
    Text(Text),
}

/// The token that begins an expression, where it stands.
#[derive(Drop)]
struct PlacedHead {
    at: Place,
    head: Head,
}

/// What an arm matches: a constructor, and the names of its fields.
#[derive(Drop)]
struct Pattern {
    constructor: PlacedName,
    fields: Vec<PlacedName>,
}

/// An expression that stands in no other.
pub(crate) fn whole_expression(parser: &mut Parser<'_>) -> Result<ExpTree, SyntaxFault>
    ensures { Reads expression_of (read_whole_expression (remaining parser.old)) result (remaining parser.new) }
{
    expression(parser, NESTING_LIMIT)
}

/// An expression, of at most so many levels.
#[cycle(expressions)]
fn expression(parser: &mut Parser<'_>, levels: usize) -> Result<ExpTree, SyntaxFault>
    ensures { Reads expression_of (read_expression levels (remaining parser.old)) result (remaining parser.new) }
{
    let PlacedHead { at, head } = expression_head(parser, levels)?;
    expression_from(parser, at, head, levels - 1)
}

/// An expression on the heap, of at most so many levels, with what has to stand behind it.
#[cycle(expressions)]
fn boxed(
    parser: &mut Parser<'_>,
    levels: usize,
    behind: Behind,
) -> Result<Box<ExpTree>, SyntaxFault>
    ensures { Reads boxed_of (read_before behind (read_expression levels) (remaining parser.old)) result (remaining parser.new) }
{
    let part = expression(parser, levels)?;
    closed(parser, part, behind)
}

/// Two expressions with a comma between them, and the parenthesis that ends them.
#[cycle(expressions)]
fn both(parser: &mut Parser<'_>, levels: usize) -> Result<(Box<ExpTree>, Box<ExpTree>), SyntaxFault>
    ensures { Reads both_of (read_both (read_expression levels) (remaining parser.old)) result (remaining parser.new) }
{
    let first = boxed(parser, levels, Behind::Mark(Mark::Comma))?;
    let second = boxed(parser, levels, Behind::Mark(Mark::RightParenthesis))?;
    Ok((first, second))
}

/// The expression that a token begins, whose parts have at most so many levels.
#[cycle(expressions)]
fn expression_from(
    parser: &mut Parser<'_>,
    at: Place,
    head: Head,
    levels: usize,
) -> Result<ExpTree, SyntaxFault>
    ensures { Reads expression_of (expression_from (read_expression levels) at (head_token head) (remaining parser.old)) result (remaining parser.new) }
{
    match head {
        Head::Mark(Mark::LeftParenthesis) => unit_or_pair(parser, at, levels),
        Head::Lower(name) => local_or_call(at, name, operands(parser, levels)),
        Head::Upper(name) => {
            let alloc = parser.alloc;
            constructor(alloc, at, name, operands(parser, levels))
        }
        Head::Int(value) => Ok(ExpTree::IntLiteral(at, value)),
        Head::Text(text) => Ok(ExpTree::TextLiteral(at, text)),
        Head::Keyword(keyword) => word(parser, at, keyword, levels),
        Head::Mark(_) => Err(SyntaxFault::At(SyntaxKind::Expected, at)),
    }
}

/// Behind a parenthesis: its end, or a pair.
#[cycle(expressions)]
fn unit_or_pair(parser: &mut Parser<'_>, at: Place, levels: usize) -> Result<ExpTree, SyntaxFault>
    ensures { Reads expression_of (read_unit_or_pair (read_expression levels) at (remaining parser.old)) result (remaining parser.new) }
{
    if parser.if_mark(Mark::RightParenthesis)? {
        return Ok(ExpTree::UnitLiteral(at));
    }
    let (first, second) = both(parser, levels)?;
    Ok(ExpTree::Pair(at, first, second))
}

/// Behind a name: expressions in parentheses, or none where no parenthesis stands.
#[cycle(expressions)]
fn operands(parser: &mut Parser<'_>, levels: usize) -> Result<Option<Vec<ExpTree>>, SyntaxFault>
    ensures { Reads operands_of (read_operands (read_expression levels) (remaining parser.old)) result (remaining parser.new) }
{
    if !parser.if_mark(Mark::LeftParenthesis)? {
        return Ok(None);
    }
    let operands = expression_list(parser, levels)?;
    Ok(Some(operands))
}

/// At least one expression, and the parenthesis that ends them.
#[cycle(expressions)]
fn expression_list(parser: &mut Parser<'_>, levels: usize) -> Result<Vec<ExpTree>, SyntaxFault>
    ensures { Reads expressions_of (read_list (read_expression levels) (count (remaining parser.old)) (remaining parser.old)) result (remaining parser.new) }
{
    let mut expressions = Vec::new(parser.alloc);
    'each: loop {
        let next = expression(parser, levels)?;
        if !listed(parser, &mut expressions, next)? {
            return Ok(expressions);
        }
    }
}

/// The expression that a keyword begins, whose parts have at most so many levels.
#[cycle(expressions)]
fn word(
    parser: &mut Parser<'_>,
    at: Place,
    keyword: Keyword,
    levels: usize,
) -> Result<ExpTree, SyntaxFault>
    ensures { Reads expression_of (word_from (read_expression levels) at keyword (remaining parser.old)) result (remaining parser.new) }
{
    match keyword {
        Keyword::True => Ok(ExpTree::BoolLiteral(at, true)),
        Keyword::False => Ok(ExpTree::BoolLiteral(at, false)),
        Keyword::Let => let_in(parser, at, levels),
        Keyword::If => conditional(parser, at, levels),
        Keyword::Match => matching(parser, at, levels),
        Keyword::VecFill | Keyword::VecGet | Keyword::VecPut => {
            operate(parser, at, keyword, levels)
        }
        _ => operation(parser, at, keyword, levels),
    }
}

/// The operation whose word a keyword is, with its operands.
#[cycle(expressions)]
fn operation(
    parser: &mut Parser<'_>,
    at: Place,
    keyword: Keyword,
    levels: usize,
) -> Result<ExpTree, SyntaxFault>
    ensures { Reads expression_of (operation_from (read_expression levels) at (parsing.unary_of keyword) (parsing.binary_of keyword) (remaining parser.old)) result (remaining parser.new) }
{
    match operation_word(parser, at, keyword)? {
        Operator::Unary(operator) => {
            let closing = Behind::Mark(Mark::RightParenthesis);
            let operand = boxed(parser, levels, closing)?;
            Ok(ExpTree::Unary(at, operator, operand))
        }
        Operator::Binary(operator) => {
            let (first, second) = both(parser, levels)?;
            Ok(ExpTree::Binary(at, operator, first, second))
        }
    }
}

/// Behind the word of an operation on arrays: its length, where it has one, and its operands.
#[cycle(expressions)]
fn operate(
    parser: &mut Parser<'_>,
    at: Place,
    keyword: Keyword,
    levels: usize,
) -> Result<ExpTree, SyntaxFault>
    ensures { Reads expression_of (read_operate (read_expression levels) at keyword (remaining parser.old)) result (remaining parser.new) }
{
    let operator = array_operator(parser, at, keyword)?;
    let operands = so_many(parser, levels, others_of(operator))?;
    Ok(ExpTree::Operate(at, operator, operands))
}

/// An expression and so many others, and the parenthesis that ends them.
#[cycle(expressions)]
fn so_many(
    parser: &mut Parser<'_>,
    levels: usize,
    others: usize,
) -> Result<Vec<ExpTree>, SyntaxFault>
    ensures { Reads expressions_of (read_so_many (read_expression levels) others (remaining parser.old)) result (remaining parser.new) }
{
    let mut expressions = Vec::new(parser.alloc);
    let mut left = others;
    'each: loop {
        let next = expression(parser, levels)?;
        counted(parser, &mut expressions, next, left)?;
        if left == 0 {
            return Ok(expressions);
        }
        left -= 1;
    }
}

/// Behind `let`: a name, what is bound to it, and the body.
#[cycle(expressions)]
fn let_in(parser: &mut Parser<'_>, at: Place, levels: usize) -> Result<ExpTree, SyntaxFault>
    ensures { Reads expression_of (read_let (read_expression levels) at (remaining parser.old)) result (remaining parser.new) }
{
    let name = binding(parser)?;
    let bound = boxed(parser, levels, Behind::Word(Keyword::In))?;
    let body = boxed(parser, levels, Behind::Nothing)?;
    Ok(ExpTree::Let {
        at,
        name,
        bound,
        body,
    })
}

/// Behind `if`: the test, and what is taken where it holds, or else.
#[cycle(expressions)]
fn conditional(parser: &mut Parser<'_>, at: Place, levels: usize) -> Result<ExpTree, SyntaxFault>
    ensures { Reads expression_of (read_if (read_expression levels) at (remaining parser.old)) result (remaining parser.new) }
{
    let test = boxed(parser, levels, Behind::Word(Keyword::Then))?;
    let first = boxed(parser, levels, Behind::Word(Keyword::Else))?;
    let other = boxed(parser, levels, Behind::Nothing)?;
    Ok(ExpTree::If {
        at,
        test,
        first,
        other,
    })
}

/// Behind `match`: its subject, and the arms.
#[cycle(expressions)]
fn matching(parser: &mut Parser<'_>, at: Place, levels: usize) -> Result<ExpTree, SyntaxFault>
    ensures { Reads expression_of (read_match (read_expression levels) at (remaining parser.old)) result (remaining parser.new) }
{
    let subject = boxed(parser, levels, Behind::Word(Keyword::With))?;
    parser.mark(Mark::Bar)?;
    let arms = arm_list(parser, levels)?;
    Ok(ExpTree::Match { at, subject, arms })
}

/// Behind a bar: at least one arm, and the `end` behind them.
#[cycle(expressions)]
fn arm_list(parser: &mut Parser<'_>, levels: usize) -> Result<Vec<Arm>, SyntaxFault>
    ensures { Reads arms_of (read_arms (read_expression levels) (count (remaining parser.old)) (remaining parser.old)) result (remaining parser.new) }
{
    let mut arms = Vec::new(parser.alloc);
    'each: loop {
        let next = arm(parser, levels)?;
        if !arm_listed(parser, &mut arms, next)? {
            return Ok(arms);
        }
    }
}

/// An arm, behind its bar.
#[cycle(expressions)]
fn arm(parser: &mut Parser<'_>, levels: usize) -> Result<Arm, SyntaxFault>
    ensures { Reads arm_of (read_arm (read_expression levels) (remaining parser.old)) result (remaining parser.new) }
{
    let pattern = arm_pattern(parser)?;
    let body = expression(parser, levels)?;
    Ok(Arm {
        constructor: pattern.constructor,
        fields: pattern.fields,
        body,
    })
}

/// An operation on arrays, behind its word, with the parenthesis before its operands.
fn array_operator(
    parser: &mut Parser<'_>,
    at: Place,
    keyword: Keyword,
) -> Result<ArrayOperator, SyntaxFault>
    ensures { Reads array_of (read_opened keyword at (remaining parser.old)) result (remaining parser.new) }
{
    let operator = match keyword {
        Keyword::VecFill => ArrayOperator::VecFill(array_length(parser)?),
        Keyword::VecGet => ArrayOperator::VecGet,
        Keyword::VecPut => ArrayOperator::VecPut,
        _ => return Err(SyntaxFault::At(SyntaxKind::Expected, at)),
    };
    parser.mark(Mark::LeftParenthesis)?;
    Ok(operator)
}

/// How many operands an operation on arrays has behind its first.
fn others_of(operator: ArrayOperator) -> usize
    ensures { result ≡ others_of (array_of operator) }
{
    match operator {
        ArrayOperator::VecFill(_) => 0,
        ArrayOperator::VecGet => 1,
        ArrayOperator::VecPut => 2,
    }
}

/// Adds an expression to a list, and takes what stands behind it: a comma where others are left, else the parenthesis that ends them.
fn counted(
    parser: &mut Parser<'_>,
    expressions: &mut Vec<ExpTree>,
    next: ExpTree,
    left: usize,
) -> Result<(), SyntaxFault>
    ensures added { OnOk result (expressions.new.items ≡ expressions.old.items ++ next ∷ []) }
    ensures behind { Reads (λ _. tt) (read_mark (behind_operand left) (remaining parser.old)) result (remaining parser.new) }
{
    expressions.push(next)?;
    parser.mark(if left == 0 {
        Mark::RightParenthesis
    } else {
        Mark::Comma
    })
}

/// Takes the token that begins an expression of at most so many levels.
fn expression_head(parser: &mut Parser<'_>, levels: usize) -> Result<PlacedHead, SyntaxFault>
    ensures { Begins levels (remaining parser.old) result (remaining parser.new) }
{
    let PlacedToken { at, token } = parser.token()?;
    if !begins_expression(&token) {
        return Err(SyntaxFault::At(SyntaxKind::Expected, at));
    }
    if levels == 0 {
        return Err(SyntaxFault::At(SyntaxKind::TooNested, at));
    }
    let head = owned(parser.alloc, token)?;
    Ok(PlacedHead { at, head })
}

/// A token whose name is copied.
fn owned(alloc: Global, token: Token<'_>) -> Result<Head, AllocError>
    ensures { IfOk result (λ head. head_token head ≡ token_view token.entry) }
{
    match token {
        Token::Keyword(keyword) => Ok(Head::Keyword(keyword)),
        Token::Mark(mark) => Ok(Head::Mark(mark)),
        Token::Lower(name) => Ok(Head::Lower(name.to_name(alloc)?)),
        Token::Upper(name) => Ok(Head::Upper(name.to_name(alloc)?)),
        Token::Int(value) => Ok(Head::Int(value)),
        Token::Text(text) => Ok(Head::Text(text)),
    }
}

/// Adds an expression to a list, and tells whether another one follows.
fn listed(
    parser: &mut Parser<'_>,
    expressions: &mut Vec<ExpTree>,
    next: ExpTree,
) -> Result<bool, SyntaxFault>
    ensures added { OnOk result (expressions.new.items ≡ expressions.old.items ++ next ∷ []) }
    ensures follows { Reads (λ follows. follows) (read_separator (remaining parser.old)) result (remaining parser.new) }
{
    expressions.push(next)?;
    parser.separator()
}

/// Adds an arm to those of a `match`, and tells whether another one follows.
fn arm_listed(parser: &mut Parser<'_>, arms: &mut Vec<Arm>, next: Arm) -> Result<bool, SyntaxFault>
    ensures added { OnOk result (arms.new.items ≡ arms.old.items ++ next ∷ []) }
    ensures follows { Reads (λ follows. follows) (read_arm_separator (remaining parser.old)) result (remaining parser.new) }
{
    arms.push(next)?;
    arm_separator(parser)
}

/// A lower name with what was read behind it: the call of a function, or a local where no parenthesis stands.
fn local_or_call(
    at: Place,
    name: Name,
    operands: Result<Option<Vec<ExpTree>>, SyntaxFault>,
) -> Result<ExpTree, SyntaxFault>
    ensures { (reading : Reading (Option (List ExpSyntax))) (left : Tokens) → Reads operands_of reading operands left → Reads expression_of (then_read reading (as_call at name)) result left }
{
    match operands? {
        Some(operands) => Ok(ExpTree::Call(at, name, operands)),
        None => Ok(ExpTree::Local(at, name)),
    }
}

/// An upper name with what was read behind it: the fields of a constructor, none where no parenthesis stands.
fn constructor(
    alloc: Global,
    at: Place,
    name: Name,
    operands: Result<Option<Vec<ExpTree>>, SyntaxFault>,
) -> Result<ExpTree, SyntaxFault>
    ensures { (reading : Reading (Option (List ExpSyntax))) (left : Tokens) → Reads operands_of reading operands left → Reads expression_of (then_read reading (as_constructor at name)) result left }
{
    match operands? {
        Some(fields) => Ok(ExpTree::Constructor(at, name, fields)),
        None => Ok(ExpTree::Constructor(at, name, Vec::new(alloc))),
    }
}

/// Takes what has to stand behind a part.
fn take(parser: &mut Parser<'_>, behind: Behind) -> Result<(), SyntaxFault>
    ensures { Reads (λ _. tt) (read_behind behind (remaining parser.old)) result (remaining parser.new) }
{
    match behind {
        Behind::Nothing => Ok(()),
        Behind::Mark(mark) => parser.mark(mark),
        Behind::Word(keyword) => parser.keyword(keyword),
    }
}

/// Puts a part on the heap, and takes what has to stand behind it.
fn closed(
    parser: &mut Parser<'_>,
    part: ExpTree,
    behind: Behind,
) -> Result<Box<ExpTree>, SyntaxFault>
    ensures { Reads boxed_of (then_closed behind (expression_of part) (remaining parser.old)) result (remaining parser.new) }
{
    let part = Box::new(parser.alloc, part)?;
    take(parser, behind)?;
    Ok(part)
}

/// The operation whose word a keyword is, with the parenthesis before its operands.
fn operation_word(
    parser: &mut Parser<'_>,
    at: Place,
    keyword: Keyword,
) -> Result<Operator, SyntaxFault>
    ensures { Reads operation_of (read_operation at (parsing.unary_of keyword) (parsing.binary_of keyword) (remaining parser.old)) result (remaining parser.new) }
{
    if let Some(operator) = unary_operator(keyword) {
        parser.mark(Mark::LeftParenthesis)?;
        return Ok(Operator::Unary(operator));
    }
    match binary_operator(keyword) {
        Some(operator) => {
            parser.mark(Mark::LeftParenthesis)?;
            Ok(Operator::Binary(operator))
        }
        None => Err(SyntaxFault::At(SyntaxKind::Expected, at)),
    }
}

/// The name that a `let` binds, with the sign behind it.
fn binding(parser: &mut Parser<'_>) -> Result<PlacedName, SyntaxFault>
    ensures { Reads name_of (read_binding (remaining parser.old)) result (remaining parser.new) }
{
    let name = lower(parser)?;
    parser.mark(Mark::EqualsSign)?;
    Ok(name)
}

/// What an arm matches, with the arrow behind it.
fn arm_pattern(parser: &mut Parser<'_>) -> Result<Pattern, SyntaxFault>
    ensures { Reads pattern_of (read_pattern (remaining parser.old)) result (remaining parser.new) }
{
    let constructor = upper(parser)?;
    let fields = field_names(parser)?;
    parser.mark(Mark::Arrow)?;
    Ok(Pattern {
        constructor,
        fields,
    })
}

/// Whether another arm follows: behind a bar it does, behind `end` it does not.
fn arm_separator(parser: &mut Parser<'_>) -> Result<bool, SyntaxFault>
    ensures { Reads (λ follows. follows) (read_arm_separator (remaining parser.old)) result (remaining parser.new) }
{
    let PlacedToken { at, token } = parser.token()?;
    match token {
        Token::Mark(Mark::Bar) => Ok(true),
        Token::Keyword(Keyword::End) => Ok(false),
        _ => Err(SyntaxFault::At(SyntaxKind::Expected, at)),
    }
}

/// The names of an arm's fields: none where no parenthesis stands.
fn field_names(parser: &mut Parser<'_>) -> Result<Vec<PlacedName>, SyntaxFault>
    ensures { Reads names_of (read_optional_list read_lower (remaining parser.old)) result (remaining parser.new) }
{
    if !parser.if_mark(Mark::LeftParenthesis)? {
        return Ok(Vec::new(parser.alloc));
    }
    name_list(parser)
}

/// At least one lower name, and the parenthesis that ends them.
fn name_list(parser: &mut Parser<'_>) -> Result<Vec<PlacedName>, SyntaxFault>
    ensures { Reads names_of (read_list read_lower (count (remaining parser.old)) (remaining parser.old)) result (remaining parser.new) }
{
    let mut names = Vec::new(parser.alloc);
    'each: loop {
        names.push(lower(parser)?)?;
        if !parser.separator()? {
            return Ok(names);
        }
    }
}

/// The operation on one operand whose word a keyword is.
fn unary_operator(keyword: Keyword) -> Option<UnaryOperator>
    ensures { option_map unary_of result ≡ parsing.unary_of keyword }
{
    match keyword {
        Keyword::Fst => Some(UnaryOperator::Fst),
        Keyword::Snd => Some(UnaryOperator::Snd),
        Keyword::Auth => Some(UnaryOperator::Auth),
        Keyword::Unauth => Some(UnaryOperator::Unauth),
        Keyword::Len => Some(UnaryOperator::Len),
        Keyword::Not => Some(UnaryOperator::Not),
        _ => None,
    }
}

/// The operation on two operands whose word a keyword is.
fn binary_operator(keyword: Keyword) -> Option<BinaryOperator>
    ensures { result ≡ parsing.binary_of keyword }
{
    match keyword {
        Keyword::Binary(operator) => Some(operator),
        _ => None,
    }
}

/// Whether a token begins an expression.
fn begins_expression(token: &Token<'_>) -> bool
    ensures { result ≡ begins_expression (token_view token.now) }
{
    match token {
        Token::Mark(Mark::LeftParenthesis)
        | Token::Lower(_)
        | Token::Upper(_)
        | Token::Int(_)
        | Token::Text(_) => true,
        Token::Keyword(keyword) => word_begins(*keyword),
        Token::Mark(_) => false,
    }
}

/// Whether a keyword begins an expression.
fn word_begins(keyword: Keyword) -> bool
    ensures { result ≡ word_begins keyword }
{
    matches!(
        keyword,
        Keyword::True
            | Keyword::False
            | Keyword::Let
            | Keyword::If
            | Keyword::Match
            | Keyword::Fst
            | Keyword::Snd
            | Keyword::Auth
            | Keyword::Unauth
            | Keyword::Len
            | Keyword::Not
            | Keyword::Binary(_)
            | Keyword::VecFill
            | Keyword::VecGet
            | Keyword::VecPut
    )
}
