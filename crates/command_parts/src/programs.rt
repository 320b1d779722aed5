// Programs, from their texts, from objects and from files.
ghost use Rattle.std.specs.Prelude.{◌≡◌, ◌≤◌, length, IfOk};
ghost use Rattle.std.specs.Option.{ForSome};
ghost use Rattle.sha2.specs.Sha256.{sha256};
ghost use Rattle.core_terms.specs.ProgramTypes.{text_of};
ghost use Rattle.core_terms.specs.Programs.{constructor_names, meaning};
ghost use Rattle.core_terms.specs.TypeNames.{all_constructor_names};
ghost use Rattle.command_parts.specs.ReachingInCode.{FaultsAt};
ghost use Rattle.command_parts.specs.FileInputs.{with_declared_file, with_program_bytes, with_program_file};
ghost use Rattle.command_parts.specs.FilePrograms.{begins_as_object, constructor_names_of_file, longest_program, program_of_file, IsOfTextOrObject};
ghost use Rattle.command_parts.specs.Halting.{StepGives, HaltCause};
ghost use Rattle.command_parts.specs.ReadPrograms.{ReadsProgram, declared_of, named_of};
ghost use Rattle.command_parts.specs.SoundPrograms.{IsOfDeclared};
ghost use Rattle.command_parts.specs.TextPrograms.{constructor_names_of_text, constructors_of_text, program_of_text, types_text_of_text};

use crate::Halt;
use crate::report::load;
use auth_syntax::parser::parse;
use auth_types::check::check;
use code_check::{ObjectFault, accept};
use core_terms::{Hash32, MOST_PROGRAM_BYTES, OBJECT_MAGIC, Program};
use declared_types::fault::TypeFault;
use digest_layer::Sha;
use lam_outside::Files;
use lexemes::fault::SyntaxFault;
use printed_lines::refusal::{Argument, InputFault, ObjectKind, ProgramKind};
use std::alloc::Global;

/// Why bytes give no program.
#[derive(Clone, Copy)]
pub enum ProgramFault {
    /// The first fault of a text: its kind, its line and its column, from 1 and by bytes.
    At(ProgramKind, usize, usize),
    /// The first fault of bytes that begin as an object.
    Object(ObjectKind),
    /// Memory was wanting.
    NoMemory,
}

impl From<SyntaxFault> for ProgramFault {
    ghost use Rattle.std.specs.Prelude.{◌≡◌};
    ghost use Rattle.command_parts.specs.ReadPrograms.{of_syntax_fault};

    ghost from_gives = { λ given fault. fault ≡ of_syntax_fault given };

    fn from(fault: SyntaxFault) -> ProgramFault {
        match fault {
            SyntaxFault::At(kind, at) => {
                ProgramFault::At(ProgramKind::Syntax(kind), at.line, at.column)
            }
            SyntaxFault::NoMemory => ProgramFault::NoMemory,
        }
    }
}

impl From<TypeFault> for ProgramFault {
    ghost use Rattle.std.specs.Prelude.{◌≡◌};
    ghost use Rattle.command_parts.specs.ReadPrograms.{of_type_fault};

    ghost from_gives = { λ given fault. fault ≡ of_type_fault given };

    fn from(fault: TypeFault) -> ProgramFault {
        match fault {
            TypeFault::At(kind, at) => {
                ProgramFault::At(ProgramKind::Typing(kind), at.line, at.column)
            }
            TypeFault::NoMemory => ProgramFault::NoMemory,
        }
    }
}

impl From<ObjectFault> for ProgramFault {
    ghost use Rattle.std.specs.Prelude.{◌≡◌};
    ghost use Rattle.command_parts.specs.ReadPrograms.{of_object_fault};

    ghost from_gives = { λ given fault. fault ≡ of_object_fault given };

    fn from(fault: ObjectFault) -> ProgramFault {
        let kind = match fault {
            ObjectFault::Cut(bytes) => ObjectKind::Cut(bytes),
            ObjectFault::BadField(offset) => ObjectKind::BadField(offset),
            ObjectFault::Leftover(bytes) => ObjectKind::Leftover(bytes),
            ObjectFault::Shape(function) => ObjectKind::Shape(function),
            ObjectFault::Kind(function, instruction) => ObjectKind::Kind(function, instruction),
            ObjectFault::NoMemory => return ProgramFault::NoMemory,
        };
        ProgramFault::Object(kind)
    }
}

/// The longest object of a program, in bytes.
const MAX_OBJECT: usize = 4_194_304;

/// The program of a text of at most 262,144 bytes, with the SHA-256 digest of the text.
///
/// # Errors
///
/// `At` with the first fault of the syntax, or of the typing where the syntax has none; `NoMemory` where there is no memory for
/// the tokens, the tree or the program.
#[tactic(auto, unfolding(crate::specs::TextPrograms::program_of_text))]
pub fn read_program(alloc: Global, text: &[u8]) -> Result<Program, ProgramFault>
    requires { length text.now ≤ 262144 }
    ensures answer { ReadsProgram meaning (program_of_text text.now) result }
    ensures digest { IfOk result (λ p. p.text_digest.0 ≡ sha256 text.now) }
    ensures names { IfOk result (λ p. constructor_names p.types.named.items ≡ constructor_names_of_text text.now) }
    ensures constructors { IfOk result (λ p. all_constructor_names p.types.named.items ≡ constructors_of_text text.now) }
    ensures types { IfOk result (λ p. text_of p.types ≡ types_text_of_text text.now) }
{
    let ast = parse(alloc, text)?;
    Ok(check(alloc, &ast, Sha::of(text))?)
}

/// Whether bytes begin as an object.
pub fn begins_as_object(bytes: &[u8]) -> bool
    ensures { result ≡ begins_as_object bytes.now }
{
    bytes.starts_with(&OBJECT_MAGIC)
}

/// How many bytes the file of a program may have: an object has a limit of its own.
fn longest_program(bytes: &[u8]) -> usize
    ensures { result ≡ longest_program bytes.now }
{
    if begins_as_object(bytes) {
        MAX_OBJECT
    } else {
        MOST_PROGRAM_BYTES
    }
}

/// The program of bytes that begin as an object, or of a text, with the SHA-256 digest of the bytes.
///
/// # Errors
///
/// `Object` with the first fault of an object; else those of `read_program`.
fn read_object_or_text(alloc: Global, bytes: &[u8]) -> Result<Program, ProgramFault>
    requires { length bytes.now ≤ longest_program bytes.now }
    ensures answer { ReadsProgram meaning (program_of_file bytes.now) result }
    ensures digest { IfOk result (λ p. p.text_digest.0 ≡ sha256 bytes.now) }
    ensures names { IfOk result (λ p. constructor_names p.types.named.items ≡ constructor_names_of_file bytes.now) }
{
    if begins_as_object(bytes) {
        return Ok(accept(alloc, bytes, Sha::of(bytes))?);
    }
    read_program(alloc, bytes)
}

/// The bytes of the file of a program: at most 4,194,304 that begin as an object, or a text of at most 262,144.
pub fn load_program<F: Files>(alloc: Global, files: &mut F, name: &str) -> Result<Vec<u8>, Halt>
    ensures goes { ForSome (F.contents files.old) (λ told. StepGives (with_program_bytes (told name.now)) (λ bytes. bytes.items) result) }
    ensures fits { IfOk result (λ bytes. length bytes.items ≤ longest_program bytes.items) }
    ensures asked { FaultsAt name.now (F.asked files.new) result }
    ensures cause { HaltCause (F.faults files.old) (F.faults files.new) result }
    ensures contents { F.contents files.new ≡ F.contents files.old }
    ensures stores { F.stores files.new ≡ F.stores files.old }
    ensures store_faults { F.store_faults files.new ≡ F.store_faults files.old }
{
    let bytes = load(alloc, files, Argument::Program, name, MAX_OBJECT)?;
    if bytes.len() > longest_program(&bytes) {
        return Err(InputFault::TooLong(Argument::Program).into());
    }
    Ok(bytes)
}

/// The program in a file, of a text or of an object.
pub fn read_program_file<F: Files>(
    alloc: Global,
    files: &mut F,
    name: &str,
) -> Result<Program, Halt>
    ensures goes { ForSome (F.contents files.old) (λ told. StepGives (with_program_file (told name.now)) named_of result) }
    ensures source { IfOk result (λ program. IsOfTextOrObject (meaning program)) }
    ensures asked { FaultsAt name.now (F.asked files.new) result }
    ensures cause { HaltCause (F.faults files.old) (F.faults files.new) result }
    ensures contents { F.contents files.new ≡ F.contents files.old }
    ensures stores { F.stores files.new ≡ F.stores files.old }
    ensures store_faults { F.store_faults files.new ≡ F.store_faults files.old }
{
    let bytes = load_program(alloc, files, name)?;
    Ok(read_object_or_text(alloc, &bytes)?)
}

/// The program of a text in a file, which this argument names.
pub fn read_named_program<F: Files>(
    alloc: Global,
    files: &mut F,
    argument: Argument,
    name: &str,
) -> Result<Program, Halt>
    ensures goes { ForSome (F.contents files.old) (λ told. StepGives (with_declared_file argument (told name.now)) declared_of result) }
    ensures text { IfOk result (λ program. IsOfDeclared (text_of program.types) (meaning program)) }
    ensures asked { FaultsAt name.now (F.asked files.new) result }
    ensures cause { HaltCause (F.faults files.old) (F.faults files.new) result }
    ensures contents { F.contents files.new ≡ F.contents files.old }
    ensures stores { F.stores files.new ≡ F.stores files.old }
    ensures store_faults { F.store_faults files.new ≡ F.store_faults files.old }
{
    let text = load(alloc, files, argument, name, MOST_PROGRAM_BYTES)?;
    Ok(read_program(alloc, &text)?)
}
