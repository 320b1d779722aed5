// The names of the kinds of faults and of arguments, as they are printed.

ghost use Rattle.std.specs.Prelude.{◌≡◌};
ghost use Rattle.printed_lines.specs.Lines as def;

use crate::refusal::{Argument, ProgramKind};
use declared_types::fault::{Limited, TypeKind};
use lexemes::fault::{LexicalFault, SyntaxKind};
use printed_syntax::fault::LiteralKind;

fn lexical_name(kind: LexicalFault) -> &'static str
    ensures { result.now ≡ def.lexical_name kind }
{
    match kind {
        LexicalFault::Char => "Char",
        LexicalFault::BadEscape => "BadEscape",
        LexicalFault::Unclosed => "Unclosed",
        LexicalFault::Utf8 => "Utf8",
        LexicalFault::TextLong => "TextLong",
        LexicalFault::NumberRange => "NumberRange",
        LexicalFault::NameLong => "NameLong",
    }
}

fn syntax_name(kind: SyntaxKind) -> &'static str
    ensures { result.now ≡ def.syntax_name kind }
{
    match kind {
        SyntaxKind::Lexical(kind) => lexical_name(kind),
        SyntaxKind::Expected => "Expected",
        SyntaxKind::TooNested => "TooNested",
    }
}

pub(crate) fn literal_name(kind: LiteralKind) -> &'static str
    ensures { result.now ≡ def.literal_name kind }
{
    match kind {
        LiteralKind::Lexical(kind) => lexical_name(kind),
        LiteralKind::Mismatch => "Mismatch",
        LiteralKind::TooDeep => "TooDeep",
        LiteralKind::TooBig => "TooBig",
    }
}

fn limit_name(thing: Limited) -> &'static str
    ensures { result.now ≡ def.typing_name (def.limit_of thing) }
{
    match thing {
        Limited::Types => "Limit-types",
        Limited::Constructors => "Limit-constructors",
        Limited::Fields => "Limit-fields",
        Limited::Functions => "Limit-functions",
        Limited::Parameters => "Limit-parameters",
        Limited::Locals => "Limit-locals",
    }
}

fn typing_name(kind: TypeKind) -> &'static str
    ensures { result.now ≡ def.typing_name kind }
{
    match kind {
        TypeKind::Twice => "Twice",
        TypeKind::Limit(thing) => limit_name(thing),
        TypeKind::NoState => "NoState",
        TypeKind::UnknownName => "UnknownName",
        TypeKind::RoleShape => "RoleShape",
        TypeKind::AuthInArgument => "AuthInArgument",
        TypeKind::WrongType => "WrongType",
        TypeKind::NotPair => "NotPair",
        TypeKind::NotAuth => "NotAuth",
        TypeKind::NotVec => "NotVec",
        TypeKind::NotSum => "NotSum",
        TypeKind::ArmsWrong => "ArmsWrong",
        TypeKind::WrongCount => "WrongCount",
    }
}

pub(crate) fn program_name(kind: ProgramKind) -> &'static str
    ensures { result.now ≡ def.program_name kind }
{
    match kind {
        ProgramKind::Syntax(kind) => syntax_name(kind),
        ProgramKind::Typing(kind) => typing_name(kind),
    }
}

pub(crate) fn argument_name(argument: Argument) -> &'static str
    ensures { result.now ≡ def.argument_name argument }
{
    match argument {
        Argument::Program => "P",
        Argument::Other => "Q",
        Argument::State => "STATE",
        Argument::Fuel => "FUEL",
        Argument::Image => "IMG",
        Argument::Number => "N",
        Argument::Out => "OUT",
        Argument::Seed => "SEED",
        Argument::Count => "COUNT",
        Argument::Port => "PORT",
        Argument::Connections => "CONNS",
        Argument::Slice => "SLICE",
        Argument::Script => "SCRIPT",
        Argument::Mirror => "MIRROR",
    }
}
