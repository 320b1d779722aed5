// Servers of programs, and connections to them.
ghost use Rattle.std.specs.Prelude.{◌≡◌, ◌<◌, IfOk, IsTrue};
ghost use Rattle.core_terms.specs.Programs.{meaning};
ghost use Rattle.core_terms.specs.Values.{Value};
ghost use Rattle.mode_vm.specs.Meanings.{program_of};
ghost use Rattle.value_store.specs.Markings.{HasLimit};
ghost use Rattle.value_store.specs.Stores.{nodes_in, store_lent};
ghost use Rattle.session_meaning.specs.MessageFields.{IsReply};
ghost use Rattle.session_turns.specs.Versions.{IsVersion};
ghost use Rattle.session_meaning.specs.Server as meant;
ghost use Rattle.sha2.specs.Sha256.{sha256};
ghost use Rattle.wire_form.specs.MessageViews.{reply_meant};
ghost use Rattle.serve_core.specs.Serving.{Serves};

use auth_syntax::parser::parse;
use auth_types::check::check;
use code_gen::Code;
use core_terms::{Hash32, MOST_PROGRAM_BYTES, Program};
use digest_layer::{ProverMarker, Sha};
use images::{Loaded, load_image};
use lam_outside::MemLink;
use serve_core::{Heard, ServeCore};
use session_turns::{Gate, NoGate};
use std::alloc::{AllocError, Global};
use std::thread::Threads;
use wire_form::{ReadStop, Reply, read_request, write_reply};

/// What is served: the text of a program, and the records of the image of its first version.
#[derive(Clone, Copy)]
pub struct Stage {
    pub text: &'static [u8],
    pub count: u32,
    pub records: &'static [u8],
}

/// The code of a text.
pub fn code_of(alloc: Global, text: &[u8]) -> Result<Code, AllocError> {
    if text.len() > MOST_PROGRAM_BYTES {
        return Err(AllocError);
    }
    let Ok(ast) = parse(alloc, text) else {
        return Err(AllocError);
    };
    match check(alloc, &ast, Sha::of(text)) {
        Ok(program) => Code::generate(program, alloc),
        Err(_) => Err(AllocError),
    }
}

/// The image of a program with so many records.
fn image(
    alloc: Global,
    program: &Program,
    count: u32,
    records: &[u8],
) -> Result<Vec<u8>, AllocError> {
    let mut bytes = Vec::from_slice(alloc, &program.types().image_magic())?;
    bytes.extend_from_slice(program.text_digest().as_bytes())?;
    bytes.extend_from_slice(&count.to_be_bytes())?;
    bytes.extend_from_slice(records)?;
    Ok(bytes)
}

/// The first version, from an image of the program.
fn first_version(alloc: Global, program: &Program, bytes: &[u8]) -> Result<Loaded, AllocError>
    ensures version { IfOk result (λ loaded. (v : Value) × IsVersion sha256 (meaning program.now) (nodes_in loaded.store) loaded.root v) }
    ensures limit { IfOk result (λ loaded. HasLimit (meaning program.now) (store_lent loaded.store)) }
{
    let types = program.types();
    let mut marker = ProverMarker::new(alloc, types)?;
    let digest = program.text_digest();
    match load_image(alloc, types, digest, &mut marker, bytes) {
        Ok(loaded) => Ok(loaded),
        Err(_) => Err(AllocError),
    }
}

/// A server with this code, first version and gate.
fn server_at<G: Gate + Drop>(
    alloc: Global,
    code: Code,
    first: Loaded,
    slice: u64,
    gate: G,
) -> Result<Box<ServeCore<Sha, G>>, AllocError>
    requires some { 0 < slice }
    requires version { (v : Value) × IsVersion sha256 (program_of code) (nodes_in first.store) first.root v }
    requires limit { HasLimit (program_of code) (store_lent first.store) }
    ensures { IfOk result (λ core. (server : meant.Server) × Serves sha256 core.value server) }
{
    let Loaded { store, root } = first;
    let core = ServeCore::new(alloc, code, store, root, slice, gate)?;
    Ok(Box::new(alloc, core)?)
}

/// A server of a program from the records of an image, behind a gate.
pub fn server_from<G: Gate + Drop>(
    alloc: Global,
    text: &[u8],
    count: u32,
    records: &[u8],
    slice: u64,
    gate: G,
) -> Result<Box<ServeCore<Sha, G>>, AllocError>
    requires { 0 < slice }
    ensures { IfOk result (λ core. (server : meant.Server) × Serves sha256 core.value server) }
{
    let code = code_of(alloc, text)?;
    let bytes = image(alloc, code.program(), count, records)?;
    let first = first_version(alloc, code.program(), &bytes)?;
    server_at(alloc, code, first, slice, gate)
}

/// A server of a program, without a gate.
pub fn server(
    alloc: Global,
    stage: Stage,
    slice: u64,
) -> Result<Box<ServeCore<Sha, NoGate>>, AllocError>
    requires { 0 < slice }
    ensures { IfOk result (λ core. (server : meant.Server) × Serves sha256 core.value server) }
{
    server_from(alloc, stage.text, stage.count, stage.records, slice, NoGate)
}

/// What is heard on a link.
fn heard(alloc: Global, link: &mut MemLink) -> Result<Heard, AllocError> {
    match read_request(alloc, link) {
        Ok(request) => Ok(Heard::Request(request)),
        Err(ReadStop::BadMessage(_, _) | ReadStop::TooLong(_)) => Ok(Heard::Bad),
        Err(ReadStop::End | ReadStop::Cut | ReadStop::LinkFault) => Ok(Heard::End),
        Err(ReadStop::NoMemory) => Err(AllocError),
    }
}

/// Whether a reply is a message: no reply that is longer is ever sent.
fn is_message(reply: &Reply) -> bool
    ensures { IsTrue result → IsReply (reply_meant reply.now) }
{
    match reply {
        Reply::Welcome { session } => *session > 0,
        Reply::Proof { session, frames } => *session > 0 && frames.as_bytes().len() <= 16_777_213,
        Reply::Stale { session, state } => *session > 0 && state.as_bytes().len() <= 16_777_213,
        Reply::Refused { session, cause } | Reply::Closed { session, cause } => {
            let _session = *session;
            let _cause = *cause;
            true
        }
    }
}

/// Sends a reply.
fn send(alloc: Global, link: &mut MemLink, reply: &Reply) -> Result<(), AllocError> {
    if !is_message(reply) || write_reply(alloc, link, reply).is_err() {
        return Err(AllocError);
    }
    Ok(())
}

fn send_all(alloc: Global, link: &mut MemLink, replies: &[Reply]) -> Result<(), AllocError> {
    for reply in replies {
        send(alloc, link, reply)?;
    }
    Ok(())
}

/// What became of a connection behind a message.
#[derive(Clone, Copy)]
pub enum Then {
    /// It goes on.
    Goes,
    /// It ended.
    Ended,
    /// The server closed it.
    Closed,
}

/// Hears a message on a link, and sends the replies.
pub fn hear<G: Gate + Drop, R: Threads + Sync>(
    rt: &R,
    alloc: Global,
    core: &mut ServeCore<Sha, G>,
    link: &mut MemLink,
) -> Result<Then, AllocError>
    requires { (server : meant.Server) × Serves sha256 core.old server }
    ensures { IfOk result (λ _. (server : meant.Server) × Serves sha256 core.new server) }
{
    let heard = heard(alloc, link)?;
    let ends = matches!(&heard, Heard::End);
    let replies = core.handle(rt, heard)?;
    send_all(alloc, link, &replies.list)?;
    Ok(if replies.closing {
        Then::Closed
    } else if ends {
        Then::Ended
    } else {
        Then::Goes
    })
}

/// What a server sent on a connection, and whether it closed it.
#[derive(Drop)]
pub struct Sent {
    pub bytes: Vec<u8>,
    pub closing: bool,
}

/// Serves one connection on which these bytes come, and then the end.
pub fn served<G: Gate + Drop, R: Threads + Sync>(
    rt: &R,
    alloc: Global,
    core: &mut ServeCore<Sha, G>,
    fed: &[u8],
    most: usize,
) -> Result<Sent, AllocError>
    requires some { 0 < most }
    requires serves { (server : meant.Server) × Serves sha256 core.old server }
    ensures { IfOk result (λ _. (server : meant.Server) × Serves sha256 core.new server) }
{
    let mut link = MemLink::from_bytes(alloc, fed, most, &[])?;
    for _ in 0..=fed.len() {
        let closing = match hear(rt, alloc, core, &mut link)? {
            Then::Goes => continue,
            Then::Ended => false,
            Then::Closed => true,
        };
        let bytes = Vec::from_slice(alloc, link.sent())?;
        return Ok(Sent { bytes, closing });
    }
    Err(AllocError)
}
