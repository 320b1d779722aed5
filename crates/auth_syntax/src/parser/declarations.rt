// Declarations, and the program that they are.

ghost use Rattle.std.specs.Prelude.{◌≡◌, true, false, IfOk, MatchResult};
ghost use Rattle.core_terms.specs.declared.fault.Fault.TheVariants.{At};
ghost use Rattle.lexemes.specs.declared.fault.SyntaxKind.TheVariants.{Expected};
ghost use Rattle.lexemes.specs.Tokens.{KeywordToken, Next, End, count};
ghost use Rattle.auth_syntax.specs.ProgramTokens.{read_format, read_format_number};
ghost use Rattle.auth_syntax.specs.Parsing.{read_bar, read_behind_parameters, read_constructor_declaration, read_constructors, read_declaration, read_declarations, read_function, read_function_declaration, read_list, read_parameter, read_state, read_type_declaration};
ghost use Rattle.lexemes.specs.Remaining.{remaining};
ghost use Rattle.lexemes.specs.TokenViews.{token_view};
ghost use Rattle.auth_syntax.specs.Trees.{constructor_of, constructors_of, declaration_of, declarations_of, function_of, kind_of, name_of, parameter_of, parameters_of, type_declaration_of};
ghost use Rattle.lexemes.specs.Remaining.{Reads};

use crate::parser::expressions::whole_expression;
use crate::parser::types::{field_types, whole_type};
use crate::parser::{lower, upper};
use crate::tree::{
    ConstructorDeclaration, Declaration, Function, FunctionKind, Parameter, PlacedName,
    TypeDeclaration,
};
use core_terms::Format;
use lexemes::fault::{SyntaxFault, SyntaxKind};
use lexemes::lexer::Lexeme;
use lexemes::parser::{Parser, PlacedToken};
use lexemes::place::Place;
use lexemes::token::{Keyword, Mark, Token};

/// The word that tells a format.
const FORMAT_WORD: &[u8] = b"format";

/// What a program tells of its format: the word, a number and a semicolon; or none, where the word doesn't stand at the head.
pub(crate) fn format(parser: &mut Parser<'_>) -> Result<Option<Format>, SyntaxFault>
    ensures { Reads (λ format. format) (read_format (remaining parser.old)) result (remaining parser.new) }
{
    if !parser.if_lower(FORMAT_WORD)? {
        return Ok(None);
    }
    let format = format_number(parser)?;
    parser.mark(Mark::Semicolon)?;
    Ok(Some(format))
}

/// The number of a format.
fn format_number(parser: &mut Parser<'_>) -> Result<Format, SyntaxFault>
    ensures { Reads (λ format. format) (read_format_number (remaining parser.old)) result (remaining parser.new) }
{
    let PlacedToken { at, token } = parser.token()?;
    match token {
        Token::Int(1) => Ok(Format::First),
        Token::Int(2) => Ok(Format::Second),
        _ => Err(SyntaxFault::At(SyntaxKind::Expected, at)),
    }
}

/// All declarations up to the end of the text, and the place of that end.
pub(crate) fn program(parser: &mut Parser<'_>) -> Result<(Vec<Declaration>, Place), SyntaxFault>
    ensures declarations { Reads (λ found. declarations_of found.0) (read_declarations (count (remaining parser.old)) (remaining parser.old)) result (remaining parser.new) }
    ensures end { IfOk result (λ found. remaining parser.new ≡ End found.1) }
{
    let mut declarations = Vec::new(parser.alloc);
    'each: loop {
        match parser.next()? {
            Lexeme::Token(at, token) => {
                declarations.push(declaration(parser, at, token)?)?;
            }
            Lexeme::End(end) => return Ok((declarations, end)),
            Lexeme::Fault(at, kind) => return Err(SyntaxFault::At(SyntaxKind::Lexical(kind), at)),
        }
    }
}

/// The declaration that a token begins.
fn declaration(
    parser: &mut Parser<'_>,
    at: Place,
    token: Token<'_>,
) -> Result<Declaration, SyntaxFault>
    ensures { Reads declaration_of (read_declaration (Next at (token_view token.entry) (remaining parser.old))) result (remaining parser.new) }
{
    match token {
        Token::Keyword(keyword) => declared_by(parser, at, keyword),
        _ => Err(SyntaxFault::At(SyntaxKind::Expected, at)),
    }
}

/// The declaration that a keyword begins.
fn declared_by(
    parser: &mut Parser<'_>,
    at: Place,
    keyword: Keyword,
) -> Result<Declaration, SyntaxFault>
    ensures { Reads declaration_of (read_declaration (Next at (KeywordToken keyword) (remaining parser.old))) result (remaining parser.new) }
{
    match keyword {
        Keyword::Type => type_declaration(parser, at),
        Keyword::State => state(parser, at),
        Keyword::Fun => function(parser, at, FunctionKind::Inner),
        Keyword::Init => function(parser, at, FunctionKind::Init),
        Keyword::Query => function(parser, at, FunctionKind::Query),
        Keyword::Update => function(parser, at, FunctionKind::Update),
        _ => Err(SyntaxFault::At(SyntaxKind::Expected, at)),
    }
}

/// The type of the state, behind its keyword.
fn state(parser: &mut Parser<'_>, at: Place) -> Result<Declaration, SyntaxFault>
    ensures { Reads declaration_of (read_state at (remaining parser.old)) result (remaining parser.new) }
{
    let of_type = whole_type(parser)?;
    parser.mark(Mark::Semicolon)?;
    Ok(Declaration::State(at, of_type))
}

/// A named type, behind its keyword.
fn type_declaration(parser: &mut Parser<'_>, at: Place) -> Result<Declaration, SyntaxFault>
    ensures { Reads declaration_of (read_type_declaration at (remaining parser.old)) result (remaining parser.new) }
{
    let name = lower(parser)?;
    parser.mark(Mark::EqualsSign)?;
    let constructors = constructor_list(parser)?;
    Ok(Declaration::Type(at, TypeDeclaration { name, constructors }))
}

/// At least one constructor, and the semicolon that ends them.
fn constructor_list(parser: &mut Parser<'_>) -> Result<Vec<ConstructorDeclaration>, SyntaxFault>
    ensures { Reads constructors_of (read_constructors (count (remaining parser.old)) (remaining parser.old)) result (remaining parser.new) }
{
    let mut constructors = Vec::new(parser.alloc);
    'each: loop {
        constructors.push(constructor(parser)?)?;
        if !bar(parser)? {
            return Ok(constructors);
        }
    }
}

/// A constructor, with the types of its fields.
fn constructor(parser: &mut Parser<'_>) -> Result<ConstructorDeclaration, SyntaxFault>
    ensures { Reads constructor_of (read_constructor_declaration (remaining parser.old)) result (remaining parser.new) }
{
    let name = upper(parser)?;
    let fields = field_types(parser)?;
    Ok(ConstructorDeclaration { name, fields })
}

/// Whether another constructor follows: behind a bar it does, behind the semicolon that ends the type it does not.
fn bar(parser: &mut Parser<'_>) -> Result<bool, SyntaxFault>
    ensures { Reads (λ follows. follows) (read_bar (remaining parser.old)) result (remaining parser.new) }
{
    let PlacedToken { at, token } = parser.token()?;
    match token {
        Token::Mark(Mark::Bar) => Ok(true),
        Token::Mark(Mark::Semicolon) => Ok(false),
        _ => Err(SyntaxFault::At(SyntaxKind::Expected, at)),
    }
}

/// A function, behind the keyword of its kind.
fn function(
    parser: &mut Parser<'_>,
    at: Place,
    kind: FunctionKind,
) -> Result<Declaration, SyntaxFault>
    ensures { Reads declaration_of (read_function_declaration at (kind_of kind) (remaining parser.old)) result (remaining parser.new) }
{
    let function = function_of_kind(parser, kind)?;
    Ok(Declaration::Function(at, function))
}

/// A function of this kind, from its name on.
fn function_of_kind(parser: &mut Parser<'_>, kind: FunctionKind) -> Result<Function, SyntaxFault>
    ensures { Reads function_of (read_function (kind_of kind) (remaining parser.old)) result (remaining parser.new) }
{
    let name = lower(parser)?;
    parser.mark(Mark::LeftParenthesis)?;
    let parameters = parameter_list(parser)?;
    behind_parameters(parser, kind, name, parameters)
}

/// The same function from the colon behind its parameters on.
fn behind_parameters(
    parser: &mut Parser<'_>,
    kind: FunctionKind,
    name: PlacedName,
    parameters: Vec<Parameter>,
) -> Result<Function, SyntaxFault>
    ensures { Reads function_of (read_behind_parameters (kind_of kind) (name_of name) (parameters_of parameters) (remaining parser.old)) result (remaining parser.new) }
{
    parser.mark(Mark::Colon)?;
    let result_type = whole_type(parser)?;
    parser.mark(Mark::EqualsSign)?;
    let body = whole_expression(parser)?;
    parser.mark(Mark::Semicolon)?;
    Ok(Function {
        kind,
        name,
        parameters,
        result_type,
        body,
    })
}

/// At least one parameter, and the parenthesis that ends them.
fn parameter_list(parser: &mut Parser<'_>) -> Result<Vec<Parameter>, SyntaxFault>
    ensures { Reads parameters_of (read_list (read_parameter) (count (remaining parser.old)) (remaining parser.old)) result (remaining parser.new) }
{
    let mut parameters = Vec::new(parser.alloc);
    'each: loop {
        parameters.push(parameter(parser)?)?;
        if !parser.separator()? {
            return Ok(parameters);
        }
    }
}

/// A parameter, with its type.
fn parameter(parser: &mut Parser<'_>) -> Result<Parameter, SyntaxFault>
    ensures { Reads parameter_of (read_parameter (remaining parser.old)) result (remaining parser.new) }
{
    let name = lower(parser)?;
    parser.mark(Mark::Colon)?;
    let of_type = whole_type(parser)?;
    Ok(Parameter { name, of_type })
}
