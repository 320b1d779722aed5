// The bytes of a message as they come: its length field, and its body.
ghost use Rattle.std.specs.Prelude.{◌≡◌, ◌≤◌, length, IfOk};
ghost use Rattle.std.specs.Option.{ForSome};
ghost use Rattle.std.specs.Io.{ReadsAtMost};
ghost use Rattle.lam_outside.specs.Causes.{HasCause};
ghost use Rattle.lam_outside.specs.LinkSteps.{AtEachRead, Notes, WaitsWithin};
ghost use Rattle.lam_outside.specs.FileSteps.{Reads};
ghost use Rattle.session_meaning.specs.Messages.{message_limit};
ghost use Rattle.wire_form.specs.Incoming.{BodyCame, IsWithinLimit, LengthCame, ReadCause};
ghost use Rattle.wire_form.specs.MovedBytes.{Moves};

use crate::ReadStop;
use byteorder::{BigEndian, ByteOrder};
use lam_outside::{Failed, Link, fill};
use std::alloc::Global;

/// The greatest number of bytes of a message behind its length field.
pub const MOST_BYTES: u32 = 16_777_216;

/// How many bytes are asked for at once.
const CHUNK: usize = 4096;

/// The length field of the next message.
pub fn read_length<L: Link>(link: &mut L) -> Result<u32, ReadStop>
    ensures came { ForSome (L.left link.old) (λ bytes. LengthCame bytes (L.left link.new) result) }
    ensures fits { IfOk result (λ len. len ≤ message_limit) }
    ensures waits { ForSome (L.left link.old) (λ bytes. AtEachRead (WaitsWithin 4 bytes (L.sent link.old)) (L.reads link.old) (L.reads link.new)) }
    ensures moves { Moves (L.given link.old) (L.left link.old) (L.given link.new) (L.left link.new) }
    ensures sent { L.sent link.new ≡ L.sent link.old }
    ensures beyond { L.beyond link.new ≡ L.beyond link.old }
    ensures cause { ReadCause (L.faults link.old) (L.faults link.new) result }
{
    let mut field = [0; 4];
    match fill(link, &mut field)? {
        4 => within_limit(BigEndian::read_u32(&field)),
        0 => Err(ReadStop::End),
        _ => Err(ReadStop::Cut),
    }
}

/// A length that a message may have.
fn within_limit(len: u32) -> Result<u32, ReadStop>
    ensures { IsWithinLimit len result }
{
    if len > MOST_BYTES {
        return Err(ReadStop::TooLong(len));
    }
    Ok(len)
}

/// The body of so many bytes. It takes no more memory than comes.
pub fn read_body<L: Link>(alloc: Global, link: &mut L, len: usize) -> Result<Vec<u8>, ReadStop>
    ensures came { ForSome (L.left link.old) (λ bytes. BodyCame len bytes (L.left link.new) result) }
    ensures whole { IfOk result (λ body. length body.items ≡ len) }
    ensures waits { ForSome (L.left link.old) (λ bytes. AtEachRead (WaitsWithin len bytes (L.sent link.old)) (L.reads link.old) (L.reads link.new)) }
    ensures moves { Moves (L.given link.old) (L.left link.old) (L.given link.new) (L.left link.new) }
    ensures sent { L.sent link.new ≡ L.sent link.old }
    ensures beyond { L.beyond link.new ≡ L.beyond link.old }
    ensures cause { ReadCause (L.faults link.old) (L.faults link.new) result }
{
    let mut body = Vec::new(alloc);
    let mut chunk = [0; CHUNK];
    while body.len() < len {
        let most = CHUNK.min(len - body.len());
        let count = read_some(link, &mut chunk[..most])?;
        if count == 0 {
            return Err(ReadStop::Cut);
        }
        body.extend_from_slice(&chunk[..count])?;
    }
    Ok(body)
}

/// One read, which sends nothing.
fn read_some<L: Link>(link: &mut L, into: &mut [u8]) -> Result<usize, Failed>
    ensures bound { ReadsAtMost result into.new }
    ensures bytes { Reads (L.given link.old) (L.left link.old) (L.given link.new) (L.left link.new) into.new result }
    ensures noted { Notes (L.reads link.old) (L.reads link.new) (L.left link.old) (L.sent link.old) result }
    ensures sent { L.sent link.new ≡ L.sent link.old }
    ensures beyond { L.beyond link.new ≡ L.beyond link.old }
    ensures cause { HasCause (L.faults link.old) (L.faults link.new) result }
{
    link.read(into)
}
