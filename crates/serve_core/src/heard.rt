// What a server hears, and what it answers.
ghost use Rattle.std.specs.Prelude.{◌≡◌, [], ◌∷◌, IfOk};

use std::alloc::{AllocError, Global};
use wire_form::{Reply, Request};

/// What a server hears on a connection.
#[derive(Drop)]
pub enum Heard {
    /// A request.
    Request(Request),
    /// A message that is none, or one that is too long.
    Bad,
    /// The end of the connection, also inside a message.
    End,
}

/// What a server answers.
#[derive(Drop)]
pub struct Replies {
    /// The replies, in the order in which they arise.
    pub list: Vec<Reply>,
    /// Whether the server closes the connection behind them.
    pub closing: bool,
}

impl Replies {
    /// One reply.
    pub(crate) fn one(alloc: Global, reply: Reply, closing: bool) -> Result<Replies, AllocError>
        ensures list { IfOk result (λ replies. replies.list.items ≡ reply ∷ []) }
        ensures closing { IfOk result (λ replies. replies.closing ≡ closing) }
    {
        let mut list = Vec::new(alloc);
        list.push(reply)?;
        Ok(Replies { list, closing })
    }
}
