//! The laws of the server, over whole runs: each is the contract of a function that does nothing.
ghost use Rattle.session_meaning.specs.ServerLaws.{ServersMayBegin, LimitsHold, OnlyGoCommits, OnlyUpdatesCommit, ProofsAreHonest, RoundsAreOwn, TurnsByCalls, UpdatesCommit, VersionsAreCommitted, HistoryGoesOn, StopsKeepHistory};
ghost use Rattle.session_meaning.specs.Isolation.{SessionsAreIsolated};
ghost use Rattle.session_meaning.specs.ReplyLaws.{ProofsAreLimited, RepliesAreMessages};

/// The server, whatever is heard, and in whatever number of turns each call ends.
///
/// `versions`: each version but the first is made of the one before it by its commit, from the start; `goes_on` says so from
/// each server with such a history, and `stopped` of a step that memory is wanting for. `begun`: what a server has behind whatever it
/// heard is what one may begin with. `proofs`: each proof that is sent is the
/// honest one of the call that ran in its session, on the session's own version. `commits`, `only` and `only_go`: an update
/// commits exactly where its version is the last one as its run ends, and nothing else does. `rounds`: rounds leave to each
/// session what its own call makes of it, and `turns` says in which turn a run of so many calls ends. `limits`: there are never
/// more messages counted, sessions and versions than there may be.
pub fn server_run()
    ensures versions { VersionsAreCommitted }
    ensures proofs { ProofsAreHonest }
    ensures commits { UpdatesCommit }
    ensures only { OnlyUpdatesCommit }
    ensures only_go { OnlyGoCommits }
    ensures rounds { RoundsAreOwn }
    ensures limits { LimitsHold }
    ensures goes_on { HistoryGoesOn }
    ensures stopped { StopsKeepHistory }
    ensures begun { ServersMayBegin }
    ensures turns { TurnsByCalls }
{
    session_meaning::laws::server_run();
}

/// The replies to a session are those to its own messages and the GO messages between them.
pub fn isolation()
    ensures { SessionsAreIsolated }
{
    session_meaning::laws::isolation();
}

/// Each reply is a message, where each heard request is one. `limit` says how long a proof may be.
pub fn replies()
    ensures replies { RepliesAreMessages }
    ensures limit { ProofsAreLimited }
{
    session_meaning::laws::replies();
}
