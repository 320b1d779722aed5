// What each reply has.
ghost use Rattle.std.specs.Prelude.{◌≡◌};
ghost use Rattle.session_meaning.specs.Client.{cause_for_all};
ghost use Rattle.session_meaning.specs.Messages.{session_of};
ghost use Rattle.wire_form.specs.MessageViews.{reply_meant};

use wire_form::Reply;

/// The number of the session that it is to; 0 where it is to none.
pub fn session_of(reply: &Reply) -> u16
    ensures { result ≡ session_of (reply_meant reply.now) }
{
    match reply {
        Reply::Welcome { session } => *session,
        Reply::Proof { session, .. } => *session,
        Reply::Stale { session, .. } => *session,
        Reply::Refused { session, .. } => *session,
        Reply::Closed { session, .. } => *session,
    }
}

/// The cause for which all sessions end; none where it ends no more than one.
pub fn cause_for_all(reply: &Reply) -> Option<u8>
    ensures { result ≡ cause_for_all (reply_meant reply.now) }
{
    match reply {
        Reply::Refused { session: 0, cause } => Some(*cause),
        Reply::Closed { session: 0, cause } => Some(*cause),
        _ => None,
    }
}
