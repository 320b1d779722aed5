//! What is true of whole runs of a client, whose calls take the steps of the client of `session_meaning` one by one: each the
//! contract of a function that does nothing.
ghost use Rattle.session_meaning.specs.ClientLaws.{ToldIsTrue};
ghost use Rattle.session_meaning.specs.Exchange.{RepliesAreTaken};

/// A client, over whole runs and against whoever serves.
///
/// A session that begins with the spelling of an ideal state's projection is told what is true of that state and of those that
/// its told updates leave, up to the first told call whose proof shows a collision of the hash at a named place. So it is over any
/// calls of `hello`, `call`, `bye` and `take_reply`, and where memory is wanting in any of them.
pub fn client_run()
    ensures { ToldIsTrue }
{
    session_meaning::laws::client_run();
}

/// A client of an honest server: `take_reply` never answers `Rejected`, `Stranger` or `WrongReply`.
///
/// So it is whatever the client asks, whenever it takes replies, and with any ring sizes.
pub fn honest_exchange()
    ensures { RepliesAreTaken }
{
    session_meaning::laws::honest_exchange();
}
