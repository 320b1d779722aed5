// The lines of outcomes and refusals.

ghost use Rattle.std.specs.Prelude.{◌≡◌, ◌<◌, ◌^◌, ◌++◌, length, option_map, IfOk, string_bytes};
ghost use Rattle.core_terms.specs.Programs.{constructor_names, meaning, types_of};
ghost use Rattle.core_terms.specs.Spelling.{spelling};
ghost use Rattle.core_terms.specs.TypeTables.{type_at};
ghost use Rattle.core_terms.specs.Values.{IsShallow, Value};
ghost use Rattle.core_terms.specs.declared.digest.Digest.{Digest};
ghost use Rattle.ideal_meaning.specs.Told.{trap_told};
ghost use Rattle.printed_lines.specs.Lines as def;
ghost use Rattle.printed_lines.specs.OutcomeLines as outcome_lines;

use crate::names::{argument_name, literal_name, program_name};
use crate::refusal::{
    ImageKind, InputFault, JournalKind, MigrationKind, MirrorKind, ObjectKind, ProgramKind, Refusal,
};
use crate::rejections::rejection_line;
use core_terms::{Digest, Program, Trap, TyId};
use printed_syntax::printing::print_value;
use std::alloc::{AllocError, Global};

/// The line of a refusal.
pub fn refusal_line(alloc: Global, refusal: &Refusal) -> Result<Vec<u8>, AllocError>
    ensures { IfOk result (λ line. line.items ≡ def.refusal_line refusal.now) }
{
    match *refusal {
        Refusal::Program(kind, line, column) => program_line(alloc, kind, line, column),
        Refusal::Object(kind) => {
            let text = object_text(alloc, kind)?;
            between(alloc, b"program refused: ", text.as_bytes())
        }
        Refusal::Input(fault) => {
            let text = input_text(alloc, fault)?;
            between(alloc, b"input refused: ", text.as_bytes())
        }
        Refusal::Proof(why) => rejection_line(alloc, why),
    }
}

/// The line of a text that is no program.
fn program_line(
    alloc: Global,
    kind: ProgramKind,
    line: usize,
    column: usize,
) -> Result<Vec<u8>, AllocError>
    ensures { IfOk result (λ text. text.items ≡ def.program_line kind line column) }
{
    let kind = program_name(kind);
    let fault = format!(in alloc; "{kind} {line} {column}")?;
    between(alloc, b"program refused: ", fault.as_bytes())
}

/// Why bytes are no object that is accepted.
fn object_text(alloc: Global, kind: ObjectKind) -> Result<String, AllocError>
    ensures { IfOk result (λ text. string_bytes text ≡ def.object_text kind) }
{
    match kind {
        ObjectKind::Cut(bytes) => format!(in alloc; "object cut {bytes}"),
        ObjectKind::BadField(offset) => format!(in alloc; "object field {offset}"),
        ObjectKind::Leftover(bytes) => format!(in alloc; "object leftover {bytes}"),
        ObjectKind::Shape(function) => format!(in alloc; "object shape {function}"),
        ObjectKind::Kind(function, instruction) => {
            format!(in alloc; "object kind {function} {instruction}")
        }
    }
}

/// Why an input is refused.
fn input_text(alloc: Global, fault: InputFault) -> Result<String, AllocError>
    ensures { IfOk result (λ text. string_bytes text ≡ def.input_text fault) }
{
    match fault {
        InputFault::TooLong(word) => {
            let word = argument_name(word);
            format!(in alloc; "too long {word}")
        }
        InputFault::LibraryUnknown => format!(in alloc; "library unknown"),
        InputFault::Migration(kind) => migration_text(alloc, kind),
        InputFault::ObjectFormat => format!(in alloc; "object format"),
        InputFault::RoleUnknown => format!(in alloc; "role unknown"),
        InputFault::RoleKind => format!(in alloc; "role kind"),
        InputFault::Number(word) => {
            let word = argument_name(word);
            format!(in alloc; "number {word}")
        }
        InputFault::State(offset) => format!(in alloc; "state {offset}"),
        InputFault::Literal(kind, offset) => {
            let kind = literal_name(kind);
            format!(in alloc; "argument {kind} {offset}")
        }
        InputFault::Image(kind) => image_text(alloc, kind),
        InputFault::Mirror(kind) => mirror_text(alloc, kind),
        InputFault::Journal(kind) => journal_text(alloc, kind),
        InputFault::Script(line) => format!(in alloc; "script {line}"),
    }
}

/// Why a state is not moved.
fn migration_text(alloc: Global, kind: MigrationKind) -> Result<String, AllocError>
    ensures { IfOk result (λ text. string_bytes text ≡ def.migration_text kind) }
{
    match kind {
        MigrationKind::Format => format!(in alloc; "migrate format"),
        MigrationKind::Types => format!(in alloc; "migrate types"),
    }
}

/// Why bytes are no image.
fn image_text(alloc: Global, kind: ImageKind) -> Result<String, AllocError>
    ensures { IfOk result (λ text. string_bytes text ≡ def.image_text kind) }
{
    match kind {
        ImageKind::Magic => format!(in alloc; "image magic"),
        ImageKind::OtherProgram => format!(in alloc; "image program"),
        ImageKind::Cut(bytes) => format!(in alloc; "image cut {bytes}"),
        ImageKind::BadRecord(number) => format!(in alloc; "image record {number}"),
        ImageKind::RootType => format!(in alloc; "image root"),
        ImageKind::TooBig(number) => format!(in alloc; "image too big {number}"),
        ImageKind::TooDeep(number) => format!(in alloc; "image too deep {number}"),
        ImageKind::Leftover(bytes) => format!(in alloc; "image leftover {bytes}"),
    }
}

/// Why bytes are no mirror.
fn mirror_text(alloc: Global, kind: MirrorKind) -> Result<String, AllocError>
    ensures { IfOk result (λ text. string_bytes text ≡ def.mirror_text kind) }
{
    match kind {
        MirrorKind::Cut(bytes) => format!(in alloc; "mirror cut {bytes}"),
        MirrorKind::BadField(offset) => format!(in alloc; "mirror field {offset}"),
        MirrorKind::Leftover(bytes) => format!(in alloc; "mirror leftover {bytes}"),
    }
}

/// Why a journal is refused.
fn journal_text(alloc: Global, kind: JournalKind) -> Result<String, AllocError>
    ensures { IfOk result (λ text. string_bytes text ≡ def.journal_text kind) }
{
    match kind {
        JournalKind::NotEmpty => format!(in alloc; "journal not empty"),
        JournalKind::Magic => format!(in alloc; "journal magic"),
        JournalKind::Cut(bytes) => format!(in alloc; "journal cut {bytes}"),
        JournalKind::OtherProgram => format!(in alloc; "journal program"),
        JournalKind::BadRecord(number) => format!(in alloc; "journal record {number}"),
        JournalKind::Image(kind) => {
            let kind = image_text(alloc, kind)?;
            format!(in alloc; "journal {kind}")
        }
    }
}

/// The line of an outcome with a value of a type of the program, which these bytes spell, fewer than 2^32. Constructors are
/// written with the names of the program.
pub fn named_done_line(
    alloc: Global,
    program: &Program,
    ty: TyId,
    bytes: &[u8],
) -> Result<Vec<u8>, AllocError>
    ensures { let P = meaning program.now in let t = type_at (types_of program.now) ty in
        IfOk result (λ line. (v : Value) → IsShallow P.types t v → length bytes.now < 2 ^ 32 → bytes.now ≡ spelling v
        → line.items ≡ outcome_lines.named_done_line P.types (constructor_names program.now.types.named.items) t v) }
{
    value_line(alloc, b"done ", program, ty, bytes)
}

/// The line of a state with a value of a type of the program, which these bytes spell, fewer than 2^32. Constructors are
/// written with the names of the program.
pub fn state_line(
    alloc: Global,
    program: &Program,
    ty: TyId,
    bytes: &[u8],
) -> Result<Vec<u8>, AllocError>
    ensures { let P = meaning program.now in let t = type_at (types_of program.now) ty in
        IfOk result (λ line. (v : Value) → IsShallow P.types t v → length bytes.now < 2 ^ 32 → bytes.now ≡ spelling v
        → line.items ≡ def.state_line P.types (constructor_names program.now.types.named.items) t v) }
{
    value_line(alloc, b"state ", program, ty, bytes)
}

/// The line that begins so and ends with such a value.
fn value_line(
    alloc: Global,
    front: &[u8],
    program: &Program,
    ty: TyId,
    bytes: &[u8],
) -> Result<Vec<u8>, AllocError>
    ensures { let P = meaning program.now in let t = type_at (types_of program.now) ty in
        IfOk result (λ line. (v : Value) → IsShallow P.types t v → length bytes.now < 2 ^ 32 → bytes.now ≡ spelling v
        → line.items ≡ outcome_lines.value_line front.now P.types (constructor_names program.now.types.named.items) t v) }
{
    let value = print_value(alloc, program, ty, bytes)?;
    between(alloc, front, &value)
}

/// The line of a proof: how many pieces it has of its own, how many it names again, and how many bytes it has.
pub fn proof_line(
    alloc: Global,
    fresh: u64,
    again: u64,
    bytes: usize,
) -> Result<Vec<u8>, AllocError>
    ensures { IfOk result (λ line. line.items ≡ def.proof_line fresh again bytes) }
{
    let text = proofs_text(alloc, fresh.into(), again.into(), bytes as u128)?;
    between(alloc, b"proof ", text.as_bytes())
}

/// The line of many calls: how many there were, how many of them ended with a value, and of their proofs together how many pieces
/// these have of their own, how many they name again, and how many bytes they have.
pub fn calls_line(
    alloc: Global,
    calls: u64,
    done: u64,
    fresh: u128,
    again: u128,
    bytes: u128,
) -> Result<Vec<u8>, AllocError>
    ensures { IfOk result (λ line. line.items ≡ def.calls_line calls done fresh again bytes) }
{
    let calls = calls_text(alloc, calls, done)?;
    let proofs = proofs_text(alloc, fresh, again, bytes)?;
    between(alloc, calls.as_bytes(), proofs.as_bytes())
}

/// How many calls there were, and how many of them ended with a value.
fn calls_text(alloc: Global, calls: u64, done: u64) -> Result<String, AllocError>
    ensures { IfOk result (λ text. string_bytes text ≡ def.calls_text calls done) }
{
    format!(in alloc; "calls {calls} done {done} ")
}

/// What proofs have: pieces of their own, pieces that they name again, and bytes.
fn proofs_text(alloc: Global, fresh: u128, again: u128, bytes: u128) -> Result<String, AllocError>
    ensures { IfOk result (λ text. string_bytes text ≡ def.proofs_text fresh again bytes) }
{
    format!(in alloc; "new {fresh} used {again} bytes {bytes}")
}

/// The line of a mirror that is stored: how many pieces it has.
pub fn pieces_line(alloc: Global, count: usize) -> Result<Vec<u8>, AllocError>
    ensures { IfOk result (λ line. line.items ≡ def.pieces_line count) }
{
    let count = format!(in alloc; "{count}")?;
    between(alloc, b"pieces ", count.as_bytes())
}

/// The line of a collision: the number of the piece, what the proof offers and what an honest prover writes, each in lower-case
/// hexadecimal digits, or a dash where it has no bytes. Then the fingerprint of the pieces' type, where digests tell it.
pub fn collision_line(
    alloc: Global,
    place: u64,
    offered: &[u8],
    honest: &[u8],
    print: Option<Digest>,
) -> Result<Vec<u8>, AllocError>
    ensures { IfOk result (λ line. line.items ≡ def.collision_line place offered.now honest.now (option_map (λ (digest : Digest). digest.0) print)) }
{
    let offered = piece_text(alloc, offered)?;
    let honest = piece_text(alloc, honest)?;
    let print = print_text(alloc, print)?;
    let text = pieces_text(alloc, place, &offered, &honest, &print)?;
    between(alloc, b"collision", text.as_bytes())
}

/// The hexadecimal digits of a piece, or a dash where it has no bytes.
fn piece_text(alloc: Global, bytes: &[u8]) -> Result<String, AllocError>
    ensures { IfOk result (λ text. string_bytes text ≡ def.piece_text bytes.now) }
{
    if bytes.is_empty() {
        return format!(in alloc; "-");
    }
    hex::encode(alloc, bytes)
}

/// The hexadecimal digits of a fingerprint behind a blank, where there is one.
fn print_text(alloc: Global, print: Option<Digest>) -> Result<String, AllocError>
    ensures { IfOk result (λ text. string_bytes text ≡ def.print_text (option_map (λ (digest : Digest). digest.0) print)) }
{
    let Some(print) = print else {
        return Ok(String::new(alloc));
    };
    let digits = hex::encode(alloc, &print.0)?;
    format!(in alloc; " {digits}")
}

/// A place and two pieces as texts, each behind a blank, and what stands behind them.
fn pieces_text(
    alloc: Global,
    place: u64,
    offered: &str,
    honest: &str,
    print: &str,
) -> Result<String, AllocError>
    ensures { IfOk result (λ text. string_bytes text ≡ def.also place ++ (def.word offered.now ++ (def.word honest.now ++ print.now))) }
{
    format!(in alloc; " {place} {offered} {honest}{print}")
}

/// The line of an audit that agrees on an outcome, whose own line is this one.
pub fn agrees_line(alloc: Global, line: &[u8]) -> Result<Vec<u8>, AllocError>
    ensures { IfOk result (λ agreed. agreed.items ≡ def.agrees_line line.now) }
{
    let mut agreed = Vec::from_slice(alloc, b"agrees ")?;
    agreed.extend_from_slice(line)?;
    Ok(agreed)
}

/// A line that ends with these bytes.
pub(crate) fn between(alloc: Global, front: &[u8], text: &[u8]) -> Result<Vec<u8>, AllocError>
    ensures { IfOk result (λ line. line.items ≡ outcome_lines.line_of front.now text.now) }
{
    let mut line = Vec::from_slice(alloc, front)?;
    line.extend_from_slice(text)?;
    line.push(b'\n')?;
    Ok(line)
}

/// The line of a trap.
pub fn trap_line(trap: Trap) -> &'static str
    ensures { result.now ≡ outcome_lines.trap_line (trap_told trap) }
{
    match trap {
        Trap::Overflow => "trap overflow\n",
        Trap::DivZero => "trap divzero\n",
        Trap::TooBig => "trap toobig\n",
        Trap::TooDeep => "trap toodeep\n",
        Trap::Index => "trap index\n",
    }
}

/// The line of an outcome without the fuel that was wanted.
pub fn out_line() -> &'static str
    ensures { result.now ≡ outcome_lines.out_line }
{
    "out of fuel\n"
}

/// The line of a program that is accepted, with its digest.
pub fn ok_line(alloc: Global, digest: &Digest) -> Result<Vec<u8>, AllocError>
    ensures { IfOk result (λ line. line.items ≡ def.ok_line digest.now.0) }
{
    let digest = hex::encode(alloc, digest.as_bytes())?;
    between(alloc, b"ok ", digest.as_bytes())
}

/// The line of a server that listens to a port.
pub fn listening_line(alloc: Global, port: u16) -> Result<Vec<u8>, AllocError>
    ensures { IfOk result (λ line. line.items ≡ def.listening_line port) }
{
    let port = format!(in alloc; "{port}")?;
    between(alloc, b"listening ", port.as_bytes())
}

/// The line of a server at its end: how many versions of the state it has, and how many commits.
pub fn versions_line(alloc: Global, versions: usize, commits: usize) -> Result<Vec<u8>, AllocError>
    ensures { IfOk result (λ line. line.items ≡ def.versions_line versions commits) }
{
    let text = versions_text(alloc, versions, commits)?;
    between(alloc, b"versions ", text.as_bytes())
}

/// How many versions there are, and how many commits.
fn versions_text(alloc: Global, versions: usize, commits: usize) -> Result<String, AllocError>
    ensures { IfOk result (λ text. string_bytes text ≡ def.versions_text versions commits) }
{
    format!(in alloc; "{versions} commits {commits}")
}

/// The line of a link that failed.
pub fn link_fault_line() -> &'static str
    ensures { result.now ≡ def.link_fault_line }
{
    "link fault\n"
}
