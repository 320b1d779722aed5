// Literals: values of a type, as they are written.

mod parts;

ghost use Rattle.std.specs.Prelude.{◌≡◌, map};
ghost use Rattle.core_terms.specs.Programs.{constructor_names, meaning, types_of};
ghost use Rattle.core_terms.specs.ProgramTrees.{types_at};
ghost use Rattle.core_terms.specs.Spelling.{spelling, spellings};
ghost use Rattle.core_terms.specs.TypeTables.{type_at};
ghost use Rattle.lexemes.specs.declared.token.Mark.TheVariants.{RightParenthesis};
ghost use Rattle.printed_syntax.specs.Literals.{array_literal, constructor_literal, fields_literal, literal_in, literal_of, more_values, pair_literal};
ghost use Rattle.printed_syntax.specs.LiteralAnswers.{ReadsLiteral};
ghost use Rattle.printed_syntax.specs.LiteralSteps.{ReadsPart, ReadsWhole, literal_on, spelled};
ghost use Rattle.lexemes.specs.Remaining.{remaining};

use crate::fault::LiteralFault;
use core_terms::{NamedId, Program, Spelling, TyForm, TyId};
use lexemes::fault::{SyntaxFault, SyntaxKind};
use lexemes::parser::{Parser, PlacedToken};
use lexemes::token::{Mark, Token};
use parts::{bool, comma, int, mark, no_level, no_value, text, told, unit, within};
use std::alloc::Global;

/// How many levels a value may have. Reading a part calls itself once for each level, so this bounds the stack too.
const DEPTH_LIMIT: usize = 512;

/// Reads the text of a literal of a type of the program, by the tokens of the program's format, and gives the spelling of its value. An
/// authenticated value has no literal.
///
/// # Errors
///
/// `At` with the first fault, in order of the text: a lexical one, `TooDeep` at the first token of a value on level 513, or
/// `Mismatch` at a token that no literal of the type has there, in this order where two stand at one token; after all of these
/// `TooBig` at 0, where the spelling has more bytes than the limit of the program's format. `NoMemory` where there is no memory for a
/// text or for the spelling.
pub fn parse_literal(
    alloc: Global,
    program: &Program,
    ty: TyId,
    written: &str,
) -> Result<Spelling, LiteralFault>
    ensures { ReadsLiteral (literal_in (meaning program.now) (constructor_names program.now.types.named.items) (type_at (types_of program.now) ty) written.now) result }
{
    match whole(alloc, program, ty, written.as_bytes()) {
        Ok(bytes) => within(bytes, program.spelling_limit()),
        Err(fault) => Err(told(fault)),
    }
}

/// The spelling of the value of a text that is a literal as a whole.
fn whole(alloc: Global, program: &Program, ty: TyId, written: &[u8]) -> Result<Vec<u8>, SyntaxFault>
    ensures { ReadsWhole (meaning program.now) (constructor_names program.now.types.named.items) (type_at (types_of program.now) ty) written.now result }
{
    let mut parser = Parser::new(alloc, program.format(), written);
    let mut bytes = Vec::new(alloc);
    value(&mut parser, program, ty, DEPTH_LIMIT, &mut bytes)?;
    parser.end()?;
    Ok(bytes)
}

/// The value of the literal at the head, of at most so many levels.
#[cycle(value)]
fn value(
    parser: &mut Parser<'_>,
    program: &Program,
    ty: TyId,
    levels: usize,
    bytes: &mut Vec<u8>,
) -> Result<(), SyntaxFault>
    ensures { ReadsPart (λ _. bytes.new.items) (spelled spelling bytes.old.items (literal_on program.now levels (type_at (types_of program.now) ty) (remaining parser.old))) result (remaining parser.new) }
{
    if levels == 0 {
        return no_level(parser);
    }
    match program.form(ty) {
        TyForm::UnitForm => unit(parser),
        TyForm::BoolForm => bool(parser, bytes),
        TyForm::IntForm => int(parser, bytes),
        TyForm::TextForm => text(parser, bytes),
        TyForm::AuthForm(_) => no_value(parser),
        TyForm::PairForm(first, second) => pair(
            parser,
            program,
            (first, second),
            levels - 1,
            bytes,
        ),
        TyForm::NamedForm(named) => constructor(parser, program, named, levels - 1, bytes),
        TyForm::VecForm(count, item) => array(parser, program, count, item, levels - 1, bytes),
    }
}

/// A pair of values of these types, each of at most so many levels.
#[cycle(value)]
fn pair(
    parser: &mut Parser<'_>,
    program: &Program,
    of: (TyId, TyId),
    levels: usize,
    bytes: &mut Vec<u8>,
) -> Result<(), SyntaxFault>
    ensures { ReadsPart (λ _. bytes.new.items) (spelled spelling bytes.old.items (pair_literal (literal_on program.now levels (type_at (types_of program.now) of.0)) (literal_on program.now levels (type_at (types_of program.now) of.1)) (remaining parser.old))) result (remaining parser.new) }
{
    mark(parser, Mark::LeftParenthesis)?;
    value(parser, program, of.0, levels, bytes)?;
    mark(parser, Mark::Comma)?;
    value(parser, program, of.1, levels, bytes)?;
    mark(parser, Mark::RightParenthesis)
}

/// A constructor of a named type, with its fields, each of at most so many levels.
#[cycle(value)]
fn constructor(
    parser: &mut Parser<'_>,
    program: &Program,
    named: NamedId,
    levels: usize,
    bytes: &mut Vec<u8>,
) -> Result<(), SyntaxFault>
    ensures { ReadsPart (λ _. bytes.new.items) (spelled spelling bytes.old.items (constructor_literal (meaning program.now).types (constructor_names program.now.types.named.items) (literal_on program.now levels) named.0 (remaining parser.old))) result (remaining parser.new) }
{
    let PlacedToken { at, token } = parser.token()?;
    let Token::Upper(name) = token else {
        return Err(SyntaxFault::At(SyntaxKind::Expected, at));
    };
    let Some((tag, types)) = program.constructor(named, name.as_bytes()) else {
        return Err(SyntaxFault::At(SyntaxKind::Expected, at));
    };
    bytes.push(tag.0)?;
    fields(parser, program, types, levels, bytes)
}

/// Values of these types: in parentheses, or nothing where there are none.
#[cycle(value)]
fn fields(
    parser: &mut Parser<'_>,
    program: &Program,
    types: &[TyId],
    levels: usize,
    bytes: &mut Vec<u8>,
) -> Result<(), SyntaxFault>
    ensures { ReadsPart (λ _. bytes.new.items) (spelled spellings bytes.old.items (fields_literal (literal_on program.now levels) (types_at (types_of program.now) types.now) (remaining parser.old))) result (remaining parser.new) }
{
    let Some((first, others)) = types.split_first() else {
        return Ok(());
    };
    mark(parser, Mark::LeftParenthesis)?;
    value(parser, program, *first, levels, bytes)?;
    other_fields(parser, program, others, levels, bytes)
}

/// Values of these types, each behind a comma, and the parenthesis that ends them.
#[cycle(value)]
fn other_fields(
    parser: &mut Parser<'_>,
    program: &Program,
    types: &[TyId],
    levels: usize,
    bytes: &mut Vec<u8>,
) -> Result<(), SyntaxFault>
    ensures { ReadsPart (λ _. bytes.new.items) (spelled spellings bytes.old.items (more_values RightParenthesis (literal_on program.now levels) (types_at (types_of program.now) types.now) (remaining parser.old))) result (remaining parser.new) }
{
    for ty in types {
        mark(parser, Mark::Comma)?;
        value(parser, program, *ty, levels, bytes)?;
    }
    mark(parser, Mark::RightParenthesis)
}

/// An array of so many values of a type, each of at most so many levels.
#[cycle(value)]
fn array(
    parser: &mut Parser<'_>,
    program: &Program,
    count: u8,
    item: TyId,
    levels: usize,
    bytes: &mut Vec<u8>,
) -> Result<(), SyntaxFault>
    ensures { ReadsPart (λ _. bytes.new.items) (spelled spelling bytes.old.items (array_literal (literal_on program.now levels) count (type_at (types_of program.now) item) (remaining parser.old))) result (remaining parser.new) }
{
    mark(parser, Mark::LeftBracket)?;
    for index in 0..count {
        comma(parser, index)?;
        value(parser, program, item, levels, bytes)?;
    }
    mark(parser, Mark::RightBracket)
}
