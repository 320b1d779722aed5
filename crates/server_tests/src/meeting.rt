// Turns of a round that run at once: two wait for one another at the gate.
//
// A `take_turns` that calls itself for one half after the other, in the place of `join_mut`, meets its contract. It fails here: the first
// turn looks in vain.

use core_stage::notation::bytes_of;
use core_stage::programs::SPIN;
use core_stage::stage::{served, server_from};
use core_terms::Hash32;
use digest_layer::Sha;
use session_turns::Gate;
use std::alloc::{AllocError, Global};
use std::sync::atomic::{AtomicBool, Ordering};
use std::test::Fail;
use std::thread::{self, Threads};

/// How often a turn looks for the other one: for some seconds where it doesn't come.
const LOOKS: u32 = 10_000_000;

/// A turn: whether it came to the gate, and whether it saw the other one there.
#[derive(Drop)]
struct Visitor {
    came: AtomicBool,
    met: AtomicBool,
}

impl Visitor {
    fn new() -> Visitor {
        Visitor {
            came: AtomicBool::new(false),
            met: AtomicBool::new(false),
        }
    }

    /// Comes, and looks for the other one until it has come.
    fn meet(&self, other: &Visitor) {
        self.came.store(true, Ordering::SeqCst);
        for _ in 0..LOOKS {
            if other.came.load(Ordering::SeqCst) {
                self.met.store(true, Ordering::SeqCst);
                return;
            }
            thread::yield_now();
        }
    }
}

/// The turns of session 1 and of any other.
#[derive(Drop)]
struct Meeting {
    first: Visitor,
    second: Visitor,
}

/// A gate at which they wait for one another.
#[derive(Clone, Copy)]
struct MeetingGate<'a>(&'a Meeting);

impl Gate for MeetingGate<'_> {
    fn pass(&self, session: u16) {
        let meeting = self.0;
        if session == 1 {
            meeting.first.meet(&meeting.second);
        } else {
            meeting.second.meet(&meeting.first);
        }
    }
}

/// Two sessions call an update in one round. What is sent is what one thread sends: the first commits, and the second is told so.
const FED: &[u8] =
    b"[01 0001 P 0000 T] [01 0002 P 0000 T] [02 0001 0001 0000000000000064 0000000000000003 01] [02 0002 0001 0000000000000064 0000000000000000 00] G";

const SENT: &[u8] = b"[81 0001] [81 0002] [82 0001] [83 0002 T]";

/// Whether a server with this gate sends so.
fn sends_so<G: Gate + Drop, R: Threads + Sync>(
    rt: &R,
    alloc: Global,
    gate: G,
) -> Result<bool, AllocError> {
    let program = Sha::of(SPIN.text);
    let mut core = server_from(alloc, SPIN.text, SPIN.count, SPIN.records, 1_000, gate)?;
    let fed = bytes_of(alloc, FED, &program)?;
    let sent = bytes_of(alloc, SENT, &program)?;
    let told = served(rt, alloc, &mut core, &fed, 4096)?;
    Ok(told.bytes == sent)
}

#[test]
fn two_turns_meet(rt: HostRuntime) -> Result<(), Fail> {
    let meeting = Meeting {
        first: Visitor::new(),
        second: Visitor::new(),
    };
    assert!(rt; sends_so(&rt, rt.alloc(), MeetingGate(&meeting))?);
    assert!(rt; meeting.first.met.load(Ordering::SeqCst));
    assert!(rt; meeting.second.met.load(Ordering::SeqCst));
    Ok(())
}
