// What a command's work found, and how it is told.
ghost use Rattle.std.specs.Prelude.{◌≡◌, ◌≤◌, length, Some, IfErr, IfOk};
ghost use Rattle.std.specs.Option.{ForSome};
ghost use Rattle.command_words.specs.declared.command.Command.{Command};
ghost use Rattle.printed_lines.specs.declared.refusal.Refusal.TheVariants.{Input};
ghost use Rattle.command_parts.specs.declared.report.Halt.TheVariants.{NoMemory, ReadFault, Refused};
ghost use Rattle.command_parts.specs.ReachingInCode.{FaultsAt};
ghost use Rattle.command_parts.specs.FileInputs.{with_file};
ghost use Rattle.command_parts.specs.RefusedAnswers.{refusal_status};
ghost use Rattle.command_parts.specs.Halting.{StepGives, HaltCause, ending_status, halt_status, image_kind, of_audit_fault, of_image_fault, of_literal_fault, of_mirror_fault, of_program_fault, of_save_fault, of_script_fault, of_write_fault};
ghost use Rattle.command_parts.specs.VerdictHalts.{of_verdict};
ghost use Rattle.command_parts.specs.Statuses.{MayAnswer, ReadsFiles};
ghost use Rattle.command_parts.specs.Telling.{TellsText};
ghost use Rattle.command_parts.specs.TellingInCode.{Tells};

use crate::Status;
use crate::programs::ProgramFault;
use ask_script::ScriptFault;
use collision_audit::AuditFault;
use images::{ImageFault, SaveFault};
use lam_outside::{Failed, Files, Load, Sink, load_all, write_all};
use object_writer::WriteFault;
use piece_mirror::MirrorFault;
use printed_lines::lines::refusal_line;
use printed_lines::refusal::{Argument, ImageKind, InputFault, MirrorKind, Refusal, Rejection};
use printed_syntax::fault::{LiteralFault, LiteralKind};
use std::alloc::{AllocError, Global};
use verifier_mode::Verdict;

/// How a command ends whose work was done.
#[derive(Clone, Copy)]
pub enum Ending {
    Done,
    Trap,
    OutOfFuel,
    Collision,
}

/// What a command tells whose work was done: how it ends, and the lines that say so.
#[derive(Drop)]
pub struct Report {
    pub ending: Ending,
    pub text: Vec<u8>,
}

/// What a command gives that may store a file, whose work was done.
#[derive(Drop)]
pub struct Output {
    pub report: Report,
    /// The bytes of the file that is stored, where one is.
    pub file: Option<Vec<u8>>,
}

/// What ends a command's work early.
#[derive(Clone, Copy)]
pub enum Halt {
    /// The words call no command.
    Usage,
    /// The program, an input or the proof is refused.
    Refused(Refusal),
    /// A file could not be read.
    ReadFault,
    /// Memory was wanting.
    NoMemory,
}

impl From<AllocError> for Halt {
    ghost from_gives = { λ _ halt. halt ≡ NoMemory };

    fn from(_: AllocError) -> Self {
        Halt::NoMemory
    }
}

impl From<Failed> for Halt {
    ghost from_gives = { λ _ halt. halt ≡ ReadFault };

    fn from(_: Failed) -> Self {
        Halt::ReadFault
    }
}

impl From<InputFault> for Halt {
    ghost from_gives = { λ fault halt. halt ≡ Refused (Input fault) };

    fn from(fault: InputFault) -> Self {
        Halt::Refused(Refusal::Input(fault))
    }
}

impl From<ProgramFault> for Halt {
    ghost from_gives = { λ fault halt. halt ≡ of_program_fault fault };

    fn from(fault: ProgramFault) -> Self {
        match fault {
            ProgramFault::At(kind, line, column) => {
                Halt::Refused(Refusal::Program(kind, line, column))
            }
            ProgramFault::Object(kind) => Halt::Refused(Refusal::Object(kind)),
            ProgramFault::NoMemory => Halt::NoMemory,
        }
    }
}

impl From<LiteralFault> for Halt {
    ghost from_gives = { λ fault halt. halt ≡ of_literal_fault fault };

    fn from(fault: LiteralFault) -> Self {
        match fault {
            LiteralFault::At(kind, offset) => {
                Halt::Refused(Refusal::Input(InputFault::Literal(kind, offset)))
            }
            LiteralFault::NoMemory => Halt::NoMemory,
        }
    }
}

impl From<ImageFault> for Halt {
    ghost from_gives = { λ fault halt. halt ≡ of_image_fault fault };

    fn from(fault: ImageFault) -> Self {
        match image_kind(fault) {
            Some(kind) => Halt::Refused(Refusal::Input(InputFault::Image(kind))),
            None => Halt::NoMemory,
        }
    }
}

/// How the fault of an image is told; `None` where memory was wanting.
pub fn image_kind(fault: ImageFault) -> Option<ImageKind>
    ensures { result ≡ image_kind fault }
{
    let kind = match fault {
        ImageFault::Magic => ImageKind::Magic,
        ImageFault::Cut(bytes) => ImageKind::Cut(bytes),
        ImageFault::OtherProgram => ImageKind::OtherProgram,
        ImageFault::BadRecord(number) => ImageKind::BadRecord(number),
        ImageFault::TooBig(number) => ImageKind::TooBig(number),
        ImageFault::TooDeep(number) => ImageKind::TooDeep(number),
        ImageFault::RootType => ImageKind::RootType,
        ImageFault::Leftover(bytes) => ImageKind::Leftover(bytes),
        ImageFault::NoMemory => return None,
    };
    Some(kind)
}

impl From<SaveFault> for Halt {
    ghost from_gives = { λ fault halt. halt ≡ of_save_fault fault };

    fn from(fault: SaveFault) -> Self {
        match fault {
            SaveFault::TooLong => {
                Halt::Refused(Refusal::Input(InputFault::TooLong(Argument::Out)))
            }
            SaveFault::NoMemory => Halt::NoMemory,
        }
    }
}

impl From<WriteFault> for Halt {
    ghost from_gives = { λ fault halt. halt ≡ of_write_fault fault };

    fn from(fault: WriteFault) -> Self {
        match fault {
            WriteFault::TooLong => {
                Halt::Refused(Refusal::Input(InputFault::TooLong(Argument::Out)))
            }
            WriteFault::NoMemory => Halt::NoMemory,
        }
    }
}

impl From<ScriptFault> for Halt {
    ghost from_gives = { λ fault halt. halt ≡ of_script_fault fault };

    fn from(fault: ScriptFault) -> Self {
        match fault {
            ScriptFault::Line(number) => Halt::Refused(Refusal::Input(InputFault::Script(number))),
            ScriptFault::NoMemory => Halt::NoMemory,
        }
    }
}

impl From<MirrorFault> for Halt {
    ghost from_gives = { λ fault halt. halt ≡ of_mirror_fault fault };

    fn from(fault: MirrorFault) -> Self {
        let refused = match fault {
            MirrorFault::Cut(bytes) => InputFault::Mirror(MirrorKind::Cut(bytes)),
            MirrorFault::BadField(offset) => InputFault::Mirror(MirrorKind::BadField(offset)),
            MirrorFault::Leftover(bytes) => InputFault::Mirror(MirrorKind::Leftover(bytes)),
            MirrorFault::TooLong => InputFault::TooLong(Argument::Out),
            MirrorFault::NoMemory => return Halt::NoMemory,
        };
        Halt::Refused(Refusal::Input(refused))
    }
}

impl From<Verdict> for Halt {
    ghost from_gives = { λ verdict halt. halt ≡ of_verdict verdict };

    fn from(verdict: Verdict) -> Self {
        match verdict {
            Verdict::Rejected(cause) => Halt::Refused(Refusal::Proof(Rejection::Cause(cause))),
            Verdict::BadState(offset) => Halt::Refused(Refusal::Input(InputFault::State(offset))),
            Verdict::BadArgument(offset) => Halt::Refused(Refusal::Input(InputFault::Literal(
                LiteralKind::Mismatch,
                offset as usize,
            ))),
            Verdict::ReadFault => Halt::ReadFault,
            Verdict::NoMemory => Halt::NoMemory,
        }
    }
}

impl From<AuditFault> for Halt {
    ghost from_gives = { λ fault halt. halt ≡ of_audit_fault fault };

    fn from(fault: AuditFault) -> Self {
        match fault {
            AuditFault::ReadFault => Halt::ReadFault,
            AuditFault::NoMemory => Halt::NoMemory,
        }
    }
}

impl Ending {
    /// The status of a run that ends so.
    fn status(self) -> Status
        ensures { result ≡ ending_status self }
    {
        match self {
            Ending::Done => Status::Done,
            Ending::Trap => Status::Trap,
            Ending::OutOfFuel => Status::OutOfFuel,
            Ending::Collision => Status::Collision,
        }
    }
}

/// The bytes of the file of this name, which an argument gives, at most `max` of them.
///
/// # Errors
///
/// `Refused` where the file has more bytes: the argument is too long. `ReadFault` where it could not be read, and the count of faults of
/// `files` rose. `NoMemory` where there is no memory for the bytes.
pub fn load<F: Files>(
    alloc: Global,
    files: &mut F,
    argument: Argument,
    name: &str,
    max: usize,
) -> Result<Vec<u8>, Halt>
    ensures goes { ForSome (F.contents files.old) (λ told. StepGives (with_file max argument (told name.now)) (λ bytes. bytes.items) result) }
    ensures holds { ForSome (F.contents files.old) (λ told. IfOk result (λ bytes. told name.now ≡ Some bytes.items)) }
    ensures fits { IfOk result (λ bytes. length bytes.items ≤ max) }
    ensures asked { FaultsAt name.now (F.asked files.new) result }
    ensures cause { HaltCause (F.faults files.old) (F.faults files.new) result }
    ensures possible { (command : Command) → ReadsFiles command → IfErr result (λ halt. MayAnswer command (halt_status halt)) }
    ensures contents { F.contents files.new ≡ F.contents files.old }
    ensures stores { F.stores files.new ≡ F.stores files.old }
    ensures store_faults { F.store_faults files.new ≡ F.store_faults files.old }
{
    match load_all(alloc, files, name, max) {
        Ok(bytes) => Ok(bytes),
        Err(Load::TooLong) => Err(Halt::Refused(Refusal::Input(InputFault::TooLong(argument)))),
        Err(Load::ReadFault) => Err(Halt::ReadFault),
        Err(Load::NoMemory) => Err(Halt::NoMemory),
    }
}

/// The line of the want of memory.
pub const NO_MEMORY: &[u8] = b"no memory\n";

/// Writes the line that was found, or the one for what halted the work.
///
/// `WriteFault` exactly where the sink failed. Where there is no memory for the line of a refusal, that is told in its place.
pub fn tell<O: Sink>(alloc: Global, out: &mut O, found: Result<Report, Halt>) -> Status
    ensures { Tells found result (O.written out.old) (O.written out.new) (O.faults out.old) (O.faults out.new) }
{
    match found {
        Ok(report) => tell_text(out, report.ending.status(), &report.text),
        Err(Halt::Refused(refusal)) => tell_refusal(alloc, out, &refusal),
        Err(Halt::Usage) => tell_text(out, Status::Usage, b"usage: lamauth COMMAND ARGUMENTS\n"),
        Err(Halt::ReadFault) => tell_text(out, Status::ReadFault, b"read fault\n"),
        Err(Halt::NoMemory) => tell_text(out, Status::NoMemory, NO_MEMORY),
    }
}

/// Writes the line of a refusal, which is made first.
fn tell_refusal<O: Sink>(alloc: Global, out: &mut O, refusal: &Refusal) -> Status
    ensures { Tells (Err (Refused refusal.now)) result (O.written out.old) (O.written out.new) (O.faults out.old) (O.faults out.new) }
{
    match refusal_line(alloc, refusal) {
        Ok(line) => tell_text(out, status_of(refusal), &line),
        Err(AllocError) => tell_text(out, Status::NoMemory, NO_MEMORY),
    }
}

/// The status of a run that refuses this.
fn status_of(refusal: &Refusal) -> Status
    ensures { result ≡ refusal_status refusal.now }
{
    match refusal {
        Refusal::Program(_, _, _) | Refusal::Object(_) => Status::ProgramRefused,
        Refusal::Input(_) => Status::InputRefused,
        Refusal::Proof(_) => Status::Rejected,
    }
}

/// Writes a text, and answers the status that is meant, or `WriteFault`.
pub fn tell_text<O: Sink>(out: &mut O, status: Status, text: &[u8]) -> Status
    ensures { TellsText status text.now result (O.written out.old) (O.written out.new) (O.faults out.old) (O.faults out.new) }
{
    match write_all(out, text) {
        Ok(()) => status,
        Err(Failed) => Status::WriteFault,
    }
}
