// What each reply tells in each standing of a session, and how the session stands then.

use crate::replies::Answer::{
    BadMessage, Cut, Done, End, Ended, HasFailed, IsBroken, IsClosed, Refused, Rejected, Stale,
    Stranger, TooLong, Welcome, Wrong,
};
use crate::standings::Standing::{
    Absent, Broken, CallsQuery, CallsUpdate, Closed, Failed, Greeting, Idle, Leaving, Moved,
};
use crate::standings::{ON_BOOL, ON_UNIT, Played, Standing, bring, new_client, standing_of};
use crate::wire::link_with;
use ask_core::{AskCore, AskFault, Told};
use core_stage::notation::bytes_of;
use core_terms::{Cause, Hash32, Outcome};
use digest_layer::Sha;
use std::alloc::Global;
use std::test::Fail;
use wire_form::{ReadStop, Reply, read_reply};

/// What a client answers to what comes.
#[derive(Clone, Copy, PartialEq)]
enum Answer {
    Welcome,
    /// An outcome with a value whose spelling has so many bytes.
    Done(usize),
    Stale,
    Refused(u8),
    Ended,
    Rejected(u16, Cause),
    Stranger(u16),
    Wrong(u8),
    HasFailed(Cause),
    IsBroken(u8),
    IsClosed(u8),
    BadMessage(u8, u32),
    TooLong(u32),
    Cut,
    End,
    /// None of these.
    Another,
}

/// How the session stands, what comes, what is answered, and how the session stands then.
struct Row(Standing, &'static [u8], Answer, Standing);

// The causes of rejections.

const SHORT: Cause = Cause::Short(0);

const SHORT_AT_1: Cause = Cause::Short(1);

const THREE_LEFT: Cause = Cause::Leftover(3);

const ONE_LEFT: Cause = Cause::Leftover(1);

const NONE_KEPT: Cause = Cause::BadUse(0, 0, 0);

// The replies. That of `both` is the honest proof of the query, that of `flip` of the update.

const WELCOME: &[u8] = b"[81 0001]";

const PROOF_OF_BOTH: &[u8] = b"[82 0001 00 00000001 01 01 0000]";

const PROOF_OF_FLIP: &[u8] = b"[82 0001 00 00000001 01]";

const EMPTY_PROOF: &[u8] = b"[82 0001]";

const STALE: &[u8] = b"[83 0001 F]";

const REFUSED_3: &[u8] = b"[84 0001 03]";

const REFUSED_5: &[u8] = b"[84 0001 05]";

const REFUSED_13: &[u8] = b"[84 0001 0d]";

const CLOSED: &[u8] = b"[85 0001 00]";

const REFUSED_TO_ALL: &[u8] = b"[84 0000 0b]";

const CLOSED_TO_ALL: &[u8] = b"[85 0000 01]";

const WELCOME_TO_2: &[u8] = b"[81 0002]";

/// Each reply in each standing, of a bool: `both`, a query, opens it two times, and `flip`, an update, once.
static ON_BOOL_ROWS: [Row; 108] = [
    // absent
    Row(Absent, WELCOME, Stranger(1), Absent),
    Row(Absent, PROOF_OF_BOTH, Stranger(1), Absent),
    Row(Absent, PROOF_OF_FLIP, Stranger(1), Absent),
    Row(Absent, EMPTY_PROOF, Stranger(1), Absent),
    Row(Absent, STALE, Stranger(1), Absent),
    Row(Absent, REFUSED_3, Stranger(1), Absent),
    Row(Absent, REFUSED_5, Stranger(1), Absent),
    Row(Absent, REFUSED_13, Stranger(1), Absent),
    Row(Absent, CLOSED, Stranger(1), Absent),
    Row(Absent, REFUSED_TO_ALL, IsClosed(11), Closed(11)),
    Row(Absent, CLOSED_TO_ALL, IsClosed(1), Closed(1)),
    Row(Absent, WELCOME_TO_2, Stranger(2), Absent),
    // greeting
    Row(Greeting, WELCOME, Welcome, Idle),
    Row(Greeting, PROOF_OF_BOTH, Wrong(0x82), Broken(0x82)),
    Row(Greeting, PROOF_OF_FLIP, Wrong(0x82), Broken(0x82)),
    Row(Greeting, EMPTY_PROOF, Wrong(0x82), Broken(0x82)),
    Row(Greeting, STALE, Wrong(0x83), Broken(0x83)),
    Row(Greeting, REFUSED_3, Refused(3), Absent),
    Row(Greeting, REFUSED_5, Refused(5), Absent),
    Row(Greeting, REFUSED_13, Refused(13), Absent),
    Row(Greeting, CLOSED, Wrong(0x85), Broken(0x85)),
    Row(Greeting, REFUSED_TO_ALL, IsClosed(11), Closed(11)),
    Row(Greeting, CLOSED_TO_ALL, IsClosed(1), Closed(1)),
    Row(Greeting, WELCOME_TO_2, Stranger(2), Greeting),
    // idle
    Row(Idle, WELCOME, Stranger(1), Idle),
    Row(Idle, PROOF_OF_BOTH, Stranger(1), Idle),
    Row(Idle, PROOF_OF_FLIP, Stranger(1), Idle),
    Row(Idle, EMPTY_PROOF, Stranger(1), Idle),
    Row(Idle, STALE, Stranger(1), Idle),
    Row(Idle, REFUSED_3, Stranger(1), Idle),
    Row(Idle, REFUSED_5, Stranger(1), Idle),
    Row(Idle, REFUSED_13, Stranger(1), Idle),
    Row(Idle, CLOSED, Stranger(1), Idle),
    Row(Idle, REFUSED_TO_ALL, IsClosed(11), Closed(11)),
    Row(Idle, CLOSED_TO_ALL, IsClosed(1), Closed(1)),
    Row(Idle, WELCOME_TO_2, Stranger(2), Idle),
    // calling a query
    Row(CallsQuery, WELCOME, Wrong(0x81), Broken(0x81)),
    Row(CallsQuery, PROOF_OF_BOTH, Done(2), Idle),
    Row(
        CallsQuery,
        PROOF_OF_FLIP,
        Rejected(1, SHORT_AT_1),
        Failed(SHORT_AT_1),
    ),
    Row(CallsQuery, EMPTY_PROOF, Rejected(1, SHORT), Failed(SHORT)),
    Row(CallsQuery, STALE, Wrong(0x83), Broken(0x83)),
    Row(CallsQuery, REFUSED_3, Refused(3), Absent),
    Row(CallsQuery, REFUSED_5, Refused(5), Idle),
    Row(CallsQuery, REFUSED_13, Refused(13), Absent),
    Row(CallsQuery, CLOSED, Wrong(0x85), Broken(0x85)),
    Row(CallsQuery, REFUSED_TO_ALL, IsClosed(11), Closed(11)),
    Row(CallsQuery, CLOSED_TO_ALL, IsClosed(1), Closed(1)),
    Row(CallsQuery, WELCOME_TO_2, Stranger(2), CallsQuery),
    // calling an update
    Row(CallsUpdate, WELCOME, Wrong(0x81), Broken(0x81)),
    Row(
        CallsUpdate,
        PROOF_OF_BOTH,
        Rejected(1, THREE_LEFT),
        Failed(THREE_LEFT),
    ),
    Row(CallsUpdate, PROOF_OF_FLIP, Done(33), Moved),
    Row(CallsUpdate, EMPTY_PROOF, Rejected(1, SHORT), Failed(SHORT)),
    Row(CallsUpdate, STALE, Stale, Absent),
    Row(CallsUpdate, REFUSED_3, Refused(3), Absent),
    Row(CallsUpdate, REFUSED_5, Refused(5), Idle),
    Row(CallsUpdate, REFUSED_13, Refused(13), Absent),
    Row(CallsUpdate, CLOSED, Wrong(0x85), Broken(0x85)),
    Row(CallsUpdate, REFUSED_TO_ALL, IsClosed(11), Closed(11)),
    Row(CallsUpdate, CLOSED_TO_ALL, IsClosed(1), Closed(1)),
    Row(CallsUpdate, WELCOME_TO_2, Stranger(2), CallsUpdate),
    // leaving
    Row(Leaving, WELCOME, Wrong(0x81), Broken(0x81)),
    Row(Leaving, PROOF_OF_BOTH, Wrong(0x82), Broken(0x82)),
    Row(Leaving, PROOF_OF_FLIP, Wrong(0x82), Broken(0x82)),
    Row(Leaving, EMPTY_PROOF, Wrong(0x82), Broken(0x82)),
    Row(Leaving, STALE, Wrong(0x83), Broken(0x83)),
    Row(Leaving, REFUSED_3, Wrong(0x84), Broken(0x84)),
    Row(Leaving, REFUSED_5, Wrong(0x84), Broken(0x84)),
    Row(Leaving, REFUSED_13, Wrong(0x84), Broken(0x84)),
    Row(Leaving, CLOSED, Ended, Absent),
    Row(Leaving, REFUSED_TO_ALL, IsClosed(11), Closed(11)),
    Row(Leaving, CLOSED_TO_ALL, IsClosed(1), Closed(1)),
    Row(Leaving, WELCOME_TO_2, Stranger(2), Leaving),
    // failed by a rejection
    Row(Failed(SHORT), WELCOME, HasFailed(SHORT), Failed(SHORT)),
    Row(
        Failed(SHORT),
        PROOF_OF_BOTH,
        HasFailed(SHORT),
        Failed(SHORT),
    ),
    Row(
        Failed(SHORT),
        PROOF_OF_FLIP,
        HasFailed(SHORT),
        Failed(SHORT),
    ),
    Row(Failed(SHORT), EMPTY_PROOF, HasFailed(SHORT), Failed(SHORT)),
    Row(Failed(SHORT), STALE, HasFailed(SHORT), Failed(SHORT)),
    Row(Failed(SHORT), REFUSED_3, HasFailed(SHORT), Failed(SHORT)),
    Row(Failed(SHORT), REFUSED_5, HasFailed(SHORT), Failed(SHORT)),
    Row(Failed(SHORT), REFUSED_13, HasFailed(SHORT), Failed(SHORT)),
    Row(Failed(SHORT), CLOSED, HasFailed(SHORT), Failed(SHORT)),
    Row(Failed(SHORT), REFUSED_TO_ALL, IsClosed(11), Closed(11)),
    Row(Failed(SHORT), CLOSED_TO_ALL, IsClosed(1), Closed(1)),
    Row(Failed(SHORT), WELCOME_TO_2, Stranger(2), Failed(SHORT)),
    // failed by a wrong reply
    Row(Broken(0x82), WELCOME, IsBroken(0x82), Broken(0x82)),
    Row(Broken(0x82), PROOF_OF_BOTH, IsBroken(0x82), Broken(0x82)),
    Row(Broken(0x82), PROOF_OF_FLIP, IsBroken(0x82), Broken(0x82)),
    Row(Broken(0x82), EMPTY_PROOF, IsBroken(0x82), Broken(0x82)),
    Row(Broken(0x82), STALE, IsBroken(0x82), Broken(0x82)),
    Row(Broken(0x82), REFUSED_3, IsBroken(0x82), Broken(0x82)),
    Row(Broken(0x82), REFUSED_5, IsBroken(0x82), Broken(0x82)),
    Row(Broken(0x82), REFUSED_13, IsBroken(0x82), Broken(0x82)),
    Row(Broken(0x82), CLOSED, IsBroken(0x82), Broken(0x82)),
    Row(Broken(0x82), REFUSED_TO_ALL, IsClosed(11), Closed(11)),
    Row(Broken(0x82), CLOSED_TO_ALL, IsClosed(1), Closed(1)),
    Row(Broken(0x82), WELCOME_TO_2, Stranger(2), Broken(0x82)),
    // all sessions were ended
    Row(Closed(7), WELCOME, IsClosed(7), Closed(7)),
    Row(Closed(7), PROOF_OF_BOTH, IsClosed(7), Closed(7)),
    Row(Closed(7), PROOF_OF_FLIP, IsClosed(7), Closed(7)),
    Row(Closed(7), EMPTY_PROOF, IsClosed(7), Closed(7)),
    Row(Closed(7), STALE, IsClosed(7), Closed(7)),
    Row(Closed(7), REFUSED_3, IsClosed(7), Closed(7)),
    Row(Closed(7), REFUSED_5, IsClosed(7), Closed(7)),
    Row(Closed(7), REFUSED_13, IsClosed(7), Closed(7)),
    Row(Closed(7), CLOSED, IsClosed(7), Closed(7)),
    Row(Closed(7), REFUSED_TO_ALL, IsClosed(7), Closed(7)),
    Row(Closed(7), CLOSED_TO_ALL, IsClosed(7), Closed(7)),
    Row(Closed(7), WELCOME_TO_2, IsClosed(7), Closed(7)),
];

/// What comes while the session greets, and proofs for its query, of a unit, which `open` opens.
static ON_UNIT_ROWS: [Row; 12] = [
    Row(Greeting, b"00000003 01 0001", BadMessage(1, 0), Greeting),
    Row(Greeting, b"00000003 85 0001", BadMessage(133, 3), Greeting),
    Row(Greeting, b"00000004 85 0002 00", Stranger(2), Greeting),
    Row(Greeting, b"00000003 82 0001", Wrong(130), Broken(130)),
    Row(Greeting, b"00000004 84 0000 0b", IsClosed(11), Closed(11)),
    Row(Greeting, b"01000001", TooLong(16_777_217), Greeting),
    Row(Greeting, b"000000", Cut, Greeting),
    Row(Greeting, b"", End, Greeting),
    Row(CallsQuery, b"00000008 82 0001 00 00000000", Done(0), Idle),
    Row(
        CallsQuery,
        b"00000009 82 0001 00 00000000 00",
        Rejected(1, ONE_LEFT),
        Failed(ONE_LEFT),
    ),
    Row(
        CallsQuery,
        b"00000006 82 0001 01 0000",
        Rejected(1, NONE_KEPT),
        Failed(NONE_KEPT),
    ),
    Row(
        CallsQuery,
        b"00000003 82 0001",
        Rejected(1, SHORT),
        Failed(SHORT),
    ),
];

fn told_answer(told: &Told) -> Answer {
    match told {
        Told::Welcome => Answer::Welcome,
        Told::Outcome(Outcome::Done(value)) => Answer::Done(value.as_bytes().len()),
        Told::Outcome(_) => Answer::Another,
        Told::Stale(_) => Answer::Stale,
        Told::Refused(cause) => Answer::Refused(*cause),
        Told::Ended => Answer::Ended,
    }
}

fn fault_answer(fault: AskFault) -> Answer {
    match fault {
        AskFault::Rejected(session, cause) => Answer::Rejected(session, cause),
        AskFault::Stranger(session) => Answer::Stranger(session),
        AskFault::WrongReply(kind) => Answer::Wrong(kind),
        AskFault::Failed(cause) => Answer::HasFailed(cause),
        AskFault::Broken(kind) => Answer::IsBroken(kind),
        AskFault::Closed(cause) => Answer::IsClosed(cause),
        _ => Answer::Another,
    }
}

fn stop_answer(stop: ReadStop) -> Answer {
    match stop {
        ReadStop::BadMessage(kind, offset) => Answer::BadMessage(kind, offset),
        ReadStop::TooLong(len) => Answer::TooLong(len),
        ReadStop::Cut => Answer::Cut,
        ReadStop::End => Answer::End,
        _ => Answer::Another,
    }
}

fn reply_answer(core: &mut AskCore<Sha>, reply: Reply) -> Answer {
    match core.take_reply(reply) {
        Ok(told) => told_answer(&told),
        Err(fault) => fault_answer(fault),
    }
}

/// What a client answers where these bytes come.
fn bytes_answer(alloc: Global, core: &mut AskCore<Sha>, bytes: Vec<u8>) -> Answer {
    let mut link = link_with(alloc, bytes);
    match read_reply(alloc, &mut link) {
        Ok(reply) => reply_answer(core, reply),
        Err(stop) => stop_answer(stop),
    }
}

/// Whether a new client, brought to stand as a row says, answers so, and stands so then.
fn answers(
    alloc: Global,
    core: &mut AskCore<Sha>,
    played: &Played,
    row: &Row,
) -> Result<bool, AskFault> {
    bring(alloc, core, played, row.0)?;
    let bytes = bytes_of(alloc, row.1, &Sha::of(played.of.text))?;
    let answer = bytes_answer(alloc, core, bytes);
    Ok(answer == row.2 && standing_of(core, played)? == row.3)
}

/// Whether what comes is answered as a row says.
fn is_met(alloc: Global, played: &Played, row: &Row) -> Result<bool, AskFault> {
    let mut core = new_client(alloc, played)?;
    answers(alloc, &mut core, played, row)
}

/// The number of the first row of a table that isn't met.
fn unmet(alloc: Global, played: &Played, rows: &[Row]) -> Option<usize> {
    rows.iter()
        .position(|row| !is_met(alloc, played, row).unwrap_or(false))
}

#[test]
fn replies_are_answered(rt: HostRuntime) -> Result<(), Fail> {
    if let Some(number) = unmet(rt.alloc(), &ON_BOOL, &ON_BOOL_ROWS) {
        return Err(Fail::new(format_args!("row {number} of the bool")));
    }
    if let Some(number) = unmet(rt.alloc(), &ON_UNIT, &ON_UNIT_ROWS) {
        return Err(Fail::new(format_args!("row {number} of the unit")));
    }
    Ok(())
}
