// Requests and replies as bytes on a link in memory.
ghost use Rattle.std.specs.Prelude.{IsTrue};
ghost use Rattle.session_meaning.specs.MessageFields.{IsRequest};
ghost use Rattle.wire_form.specs.MessageViews.{request_meant};

use lam_outside::{MemLink, Plan};
use std::alloc::{AllocError, Global};
use wire_form::{Request, write_request};

/// How many bytes a call of a link moves at most.
const MOST: usize = 4096;

/// A link on which these bytes come.
pub fn link_with(alloc: Global, coming: Vec<u8>) -> MemLink {
    MemLink::new(alloc, coming, MOST, Plan::new(Vec::new(alloc)))
}

/// Whether a request is a message: no request of the tests is longer. A field that is read is within the range of its type.
fn is_message(request: &Request) -> bool
    ensures { IsTrue result → IsRequest (request_meant request.now) }
{
    match request {
        Request::Hello {
            session,
            program,
            kept,
            state,
        } => {
            let _kept = *kept;
            *session > 0 && program.as_bytes().len() == 32 && state.as_bytes().len() <= 65_536
        }
        Request::Call {
            session,
            role,
            fuel,
            argument,
        } => {
            let (_role, _fuel) = (*role, *fuel);
            *session > 0 && argument.as_bytes().len() <= 65_536
        }
        Request::Go { rounds } => {
            let _rounds = *rounds;
            true
        }
        Request::Bye { session } => *session > 0,
    }
}

/// The bytes of a request.
pub fn request_bytes(alloc: Global, request: &Request) -> Result<Vec<u8>, AllocError> {
    let mut link = link_with(alloc, Vec::new(alloc));
    if !is_message(request) || write_request(alloc, &mut link, request).is_err() {
        return Err(AllocError);
    }
    Vec::from_slice(alloc, link.sent())
}
