// Both cores against each other: a user asks what looks random, in several sessions, and messages are handed across
// as bytes.
ghost use Rattle.std.specs.Prelude.{IfOk};
ghost use Rattle.session_meaning.specs.Server as meant;
ghost use Rattle.sha2.specs.Sha256.{sha256};
ghost use Rattle.serve_core.specs.Serving.{Serves};

mod library;
mod spelled;
mod user;

use crate::exchange::library::{Library, Records};
use crate::exchange::user::{Trouble, User};
use crate::wire::link_with;
use core_stage::stage::{Then, code_of, hear, server_from};
use digest_layer::Sha;
use serve_core::ServeCore;
use session_turns::NoGate;
use std::alloc::{AllocError, Global};
use std::test::Fail;
use std::thread::Threads;

/// How many requests there are in a case.
const STEPS: u32 = 625;

/// How many outcomes are told in a case at least.
const OUTCOMES: usize = 60;

/// How many calls there are in a turn of the server.
const SLICE: u64 = 20;

/// Each program with each size of rings.
static CASES: [(Library, u16); 16] = [
    (Library::SearchTree, 0),
    (Library::SearchTree, 1),
    (Library::SearchTree, 16),
    (Library::SearchTree, 1_024),
    (Library::List, 0),
    (Library::List, 1),
    (Library::List, 16),
    (Library::List, 1_024),
    (Library::RedBlackTree, 0),
    (Library::RedBlackTree, 1),
    (Library::RedBlackTree, 16),
    (Library::RedBlackTree, 1_024),
    (Library::SkipList, 0),
    (Library::SkipList, 1),
    (Library::SkipList, 16),
    (Library::SkipList, 1_024),
];

/// What the server sends for a request.
fn replied<R: Threads + Sync>(
    rt: &R,
    alloc: Global,
    core: &mut ServeCore<Sha, NoGate>,
    asked: Vec<u8>,
) -> Result<Vec<u8>, Trouble>
    requires { (server : meant.Server) × Serves sha256 core.old server }
    ensures { IfOk result (λ _. (server : meant.Server) × Serves sha256 core.new server) }
{
    let mut link = link_with(alloc, asked);
    match hear(rt, alloc, core, &mut link)? {
        Then::Goes => Ok(Vec::from_slice(alloc, link.sent())?),
        Then::Ended | Then::Closed => Err(Trouble::NoMessage),
    }
}

/// A request and its replies, which are taken then or later.
fn step<R: Threads + Sync>(
    rt: &R,
    alloc: Global,
    core: &mut ServeCore<Sha, NoGate>,
    user: &mut User,
) -> Result<(), Trouble>
    requires { (server : meant.Server) × Serves sha256 core.old server }
    ensures { IfOk result (λ _. (server : meant.Server) × Serves sha256 core.new server) }
{
    let asked = user.ask()?;
    if !asked.is_empty() {
        let replies = replied(rt, alloc, core, asked)?;
        user.comes(&replies)?;
        user.learn(core)?;
    }
    user.take_some()
}

/// Where an exchange doesn't go on, and why.
#[derive(Clone, Copy)]
struct Finding {
    /// The number of the request.
    step: u32,
    trouble: Trouble,
}

impl From<AllocError> for Finding {
    fn from(_: AllocError) -> Self {
        Finding {
            step: 0,
            trouble: Trouble::NoMemory,
        }
    }
}

/// So many requests.
fn steps<R: Threads + Sync>(
    rt: &R,
    alloc: Global,
    core: &mut ServeCore<Sha, NoGate>,
    user: &mut User,
) -> Result<(), Finding>
    requires { (server : meant.Server) × Serves sha256 core.old server }
{
    for step_number in 0..STEPS {
        if let Err(trouble) = step(rt, alloc, core, user) {
            let step = step_number;
            return Err(Finding { step, trouble });
        }
    }
    Ok(())
}

/// A server of the first version of a program.
fn first_server(alloc: Global, library: Library) -> Result<Box<ServeCore<Sha, NoGate>>, AllocError>
    ensures { IfOk result (λ core. (server : meant.Server) × Serves sha256 core.value server) }
{
    let Records { count, bytes } = library.first_version(alloc)?;
    server_from(alloc, library.text(), count, &bytes, SLICE, NoGate)
}

/// The replies that are left are taken, and enough was told.
fn told_all(core: &ServeCore<Sha, NoGate>, user: &mut User) -> Result<(), Trouble> {
    user.take_all()?;
    user.is_told(core, OUTCOMES)
}

/// The same, behind the last request.
fn ends(core: &ServeCore<Sha, NoGate>, user: &mut User) -> Result<(), Finding> {
    match told_all(core, user) {
        Ok(()) => Ok(()),
        Err(trouble) => Err(Finding {
            step: STEPS,
            trouble,
        }),
    }
}

/// A user of a program, with rings of this size.
fn user_of(alloc: Global, library: Library, kept: u16) -> Result<User, AllocError> {
    let code = code_of(alloc, library.text())?;
    Ok(User::new(alloc, code, u64::from(kept), kept))
}

/// All requests of a case, from the first version on.
fn asks_all<R: Threads + Sync>(
    rt: &R,
    alloc: Global,
    core: &mut ServeCore<Sha, NoGate>,
    user: &mut User,
) -> Result<(), Finding>
    requires { (server : meant.Server) × Serves sha256 core.old server }
{
    user.learn(core)?;
    steps(rt, alloc, core, user)?;
    ends(core, user)
}

/// The exchange of a user with a new server.
fn meets_server<R: Threads + Sync>(
    rt: &R,
    alloc: Global,
    library: Library,
    user: &mut User,
) -> Result<(), Finding> {
    let mut core = first_server(alloc, library)?;
    asks_all(rt, alloc, &mut core, user)
}

/// The exchange of a case.
fn exchange<R: Threads + Sync>(
    rt: &R,
    alloc: Global,
    library: Library,
    kept: u16,
) -> Result<(), Finding> {
    let mut user = user_of(alloc, library, kept)?;
    meets_server(rt, alloc, library, &mut user)
}

fn trouble_word(trouble: Trouble) -> &'static str {
    match trouble {
        Trouble::NoMemory => "no memory",
        Trouble::NoMessage => "no message",
        Trouble::NotAsked => "not asked",
        Trouble::NotTaken => "not taken",
        Trouble::OtherState => "another state",
        Trouble::NotTold => "not told",
    }
}

#[test]
fn both_cores_agree(rt: HostRuntime) -> Result<(), Fail> {
    for (case, (library, kept)) in CASES.iter().enumerate() {
        if let Err(finding) = exchange(&rt, rt.alloc(), *library, *kept) {
            let step = finding.step;
            let word = trouble_word(finding.trouble);
            return Err(Fail::new(format_args!("case {case}, request {step}: {word}")));
        }
    }
    Ok(())
}
