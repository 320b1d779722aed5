// A server that lies: each byte of an honest server's replies is changed, and each reply is left out, said twice, or
// said behind the next one. What a client is told of its calls is what the honest replies tell, up to a fault.

mod player;

use crate::lies::player::{Told, told_of};
use core_stage::notation::bytes_of;
use core_stage::programs::{BOOL, TREE};
use core_stage::stage::{Stage, served, server};
use core_terms::Hash32;
use digest_layer::Sha;
use std::alloc::{AllocError, Global};
use std::test::Fail;
use std::thread::Threads;

/// What a client asks.
struct Conversation {
    of: Stage,
    /// The requests.
    asked: &'static [u8],
    /// How many outcomes the honest replies tell.
    outcomes: usize,
}

/// A search tree, of which the first session makes versions, while the second one stays behind, comes too late, and
/// greets again.
///
/// Between a query of the second session and its update the first session calls. Else that query's proof, said twice,
/// would tell the value of the update, which opens the same: it is true of the state that the session holds, though an
/// honest server says that this update comes too late.
const ON_TREE: Conversation = Conversation {
    of: TREE,
    asked: b"[01 0001 P 0002 F] [01 0002 P 0000 F]
        [02 0001 0002 0000000000000064 0000000000000005 0000000000000032] G
        [02 0002 0001 0000000000000064 0000000000000005] G
        [02 0001 0002 0000000000000064 0000000000000003 000000000000001e] G
        [02 0001 0002 0000000000000064 0000000000000007 0000000000000046] [02 0002 0001 0000000000000064 0000000000000003] G
        [02 0001 0001 0000000000000064 0000000000000007] G
        [02 0002 0002 0000000000000064 0000000000000009 000000000000005a] G
        [02 0001 0001 0000000000000064 0000000000000004] G
        [02 0001 0002 0000000000000064 0000000000000005 0000000000000033] G
        [02 0001 0001 0000000000000064 0000000000000005] G
        [02 0001 0001 0000000000000001 0000000000000005] G
        [01 0002 P 0400 F] [01 0003 P 0000 T]
        [02 0002 0001 0000000000000064 0000000000000005] G
        [02 0001 0002 0000000000000064 0000000000000001 000000000000000a] [02 0002 0001 0000000000000064 0000000000000005] G
        [02 0001 0001 0000000000000064 0000000000000001] G
        [04 0002] [04 0001]",
    outcomes: 14,
};

/// A bool, which one session flips and another one looks at, and which traps.
const ON_BOOL: Conversation = Conversation {
    of: BOOL,
    asked: b"[01 0001 P 0001 T] [01 0002 P 0000 T]
        [02 0001 0001 0000000000000001] [02 0002 0001 0000000000000001] G
        [02 0001 0002 0000000000000001] [02 0002 0003 0000000000000001] G
        [02 0001 0001 0000000000000001] G
        [02 0001 0002 0000000000000000] G
        [02 0001 0002 0000000000000001] G
        [02 0001 0003 0000000000000001] [02 0002 0002 0000000000000001] G
        [04 0001] [01 0001 P 0001 F]
        [02 0001 0001 0000000000000001] G
        [04 0001]",
    outcomes: 9,
};

/// The requests, and the replies of an honest server.
#[derive(Drop)]
struct HonestRun {
    asked: Vec<u8>,
    replies: Vec<u8>,
    told: Told,
}

fn honest_run<R: Threads + Sync>(
    rt: &R,
    alloc: Global,
    conversation: &Conversation,
) -> Result<HonestRun, AllocError> {
    let asked = bytes_of(alloc, conversation.asked, &Sha::of(conversation.of.text))?;
    let mut core = server(alloc, conversation.of, 1_000)?;
    let replies = served(rt, alloc, &mut core, &asked, 4096)?.bytes;
    let told = told_of(alloc, conversation.of, &asked, &replies)?;
    Ok(HonestRun {
        asked,
        replies,
        told,
    })
}

/// Where a reply stands among the bytes.
#[derive(Clone, Copy)]
struct Place {
    start: usize,
    end: usize,
}

/// The place of no bytes.
const NOWHERE: Place = Place { start: 0, end: 0 };

impl Place {
    /// The bytes there.
    fn of(self, bytes: &[u8]) -> &[u8] {
        bytes.get(self.start..self.end).unwrap_or(&[])
    }
}

/// Where the replies stand.
fn places(alloc: Global, bytes: &[u8]) -> Result<Vec<Place>, AllocError> {
    let mut replies = Vec::new(alloc);
    let mut start = 0;
    for _ in 0..bytes.len() {
        let Some(len) = bytes.get(start..).and_then(|rest| rest.first_chunk::<4>()) else {
            break;
        };
        let end = usize::wrapping_add(start, 4).wrapping_add(u32::from_be_bytes(*len) as usize);
        replies.push(Place { start, end })?;
        start = end;
    }
    Ok(replies)
}

/// A way of lying with a reply.
#[derive(Clone, Copy)]
enum Lie {
    LeftOut,
    SaidTwice,
    /// Said behind the next one.
    SaidLater,
}

/// Where a reply stands; nowhere behind the last one.
fn place_of(replies: &[Place], number: usize) -> Place {
    replies.get(number).copied().unwrap_or(NOWHERE)
}

/// Whose bytes are said in the place of the other reply, one behind the other, with a lie with that of this number.
fn said(replies: &[Place], other: usize, number: usize, lie: Lie) -> (Place, Place) {
    let place = place_of(replies, other);
    match lie {
        Lie::LeftOut if other == number => (NOWHERE, NOWHERE),
        Lie::SaidTwice if other == number => (place, place),
        Lie::SaidLater if other == number => (place_of(replies, other.saturating_add(1)), place),
        Lie::SaidLater if other == number.saturating_add(1) => (NOWHERE, NOWHERE),
        _ => (place, NOWHERE),
    }
}

/// The replies with a lie with that of this number.
fn with_lie(
    alloc: Global,
    honest: &[u8],
    replies: &[Place],
    number: usize,
    lie: Lie,
) -> Result<Vec<u8>, AllocError> {
    let mut bytes = Vec::new(alloc);
    for other in 0..replies.len() {
        let (first, second) = said(replies, other, number, lie);
        bytes.extend_from_slice(first.of(honest))?;
        bytes.extend_from_slice(second.of(honest))?;
    }
    Ok(bytes)
}

/// Whether what is told of these replies is what the honest ones tell at first.
fn is_true(
    alloc: Global,
    of: Stage,
    honest: &HonestRun,
    replies: &[u8],
) -> Result<bool, AllocError> {
    let told = told_of(alloc, of, &honest.asked, replies)?;
    Ok(told.begins(&honest.told))
}

/// The number of the first reply with which a lie tells what isn't true.
fn untrue_reply(
    alloc: Global,
    of: Stage,
    honest: &HonestRun,
    lie: Lie,
) -> Result<Option<usize>, AllocError> {
    let replies = places(alloc, &honest.replies)?;
    for number in 0..replies.len() {
        let lies = with_lie(alloc, &honest.replies, &replies, number, lie)?;
        if !is_true(alloc, of, honest, &lies)? {
            return Ok(Some(number));
        }
    }
    Ok(None)
}

/// Changes these bits of a byte.
fn change(bytes: &mut [u8], place: usize, bits: u8) {
    if let Some(byte) = bytes.get_mut(place) {
        *byte ^= bits;
    }
}

/// Whether what is told is true where these bits of a byte of the replies are changed. They are changed back then.
fn is_true_changed(
    alloc: Global,
    of: Stage,
    honest: &HonestRun,
    replies: &mut [u8],
    place: usize,
    bits: u8,
) -> Result<bool, AllocError> {
    change(replies, place, bits);
    let is_so = is_true(alloc, of, honest, replies)?;
    change(replies, place, bits);
    Ok(is_so)
}

/// The place of the first byte which, where these bits of it are changed, tells what isn't true.
fn untrue_byte(
    alloc: Global,
    of: Stage,
    honest: &HonestRun,
    bits: u8,
) -> Result<Option<usize>, AllocError> {
    let mut replies = Vec::from_slice(alloc, &honest.replies)?;
    for place in 0..replies.len() {
        if !is_true_changed(alloc, of, honest, &mut replies, place, bits)? {
            return Ok(Some(place));
        }
    }
    Ok(None)
}

/// What is found of a conversation.
#[derive(Clone, Copy)]
enum Finding {
    /// The honest replies tell so many outcomes, or the client doesn't ask what it is to ask.
    NotTold(usize),
    /// A lie with the reply of this number tells what isn't true.
    OfReply(usize),
    /// A change of the byte at this place does.
    OfByte(usize),
}

/// What is found of a conversation; none where no lie tells what isn't true.
fn found<R: Threads + Sync>(
    rt: &R,
    alloc: Global,
    conversation: &Conversation,
) -> Result<Option<Finding>, AllocError> {
    let honest = honest_run(rt, alloc, conversation)?;
    found_beside(alloc, conversation, &honest)
}

/// The same beside its honest run.
fn found_beside(
    alloc: Global,
    conversation: &Conversation,
    honest: &HonestRun,
) -> Result<Option<Finding>, AllocError> {
    let of = conversation.of;
    let whole = honest.told.whole && honest.told.sent == honest.asked;
    if !whole || honest.told.count != conversation.outcomes {
        return Ok(Some(Finding::NotTold(honest.told.count)));
    }
    if let Some(number) = untrue_replies(alloc, of, honest)? {
        return Ok(Some(Finding::OfReply(number)));
    }
    Ok(untrue_bytes(alloc, of, honest)?.map(Finding::OfByte))
}

/// The number of the first reply with which some lie tells what isn't true.
fn untrue_replies(
    alloc: Global,
    of: Stage,
    honest: &HonestRun,
) -> Result<Option<usize>, AllocError> {
    for lie in [Lie::LeftOut, Lie::SaidTwice, Lie::SaidLater] {
        if let Some(number) = untrue_reply(alloc, of, honest, lie)? {
            return Ok(Some(number));
        }
    }
    Ok(None)
}

/// The place of the first byte of which some change tells what isn't true.
fn untrue_bytes(alloc: Global, of: Stage, honest: &HonestRun) -> Result<Option<usize>, AllocError> {
    for bits in [0x01, 0x80, 0xff] {
        if let Some(place) = untrue_byte(alloc, of, honest, bits)? {
            return Ok(Some(place));
        }
    }
    Ok(None)
}

#[test]
fn lies_tell_nothing_untrue(rt: HostRuntime) -> Result<(), Fail> {
    for (number, conversation) in [ON_TREE, ON_BOOL].iter().enumerate() {
        let (word, place) = match found(&rt, rt.alloc(), conversation)? {
            None => continue,
            Some(Finding::NotTold(count)) => ("outcomes", count),
            Some(Finding::OfReply(reply)) => ("reply", reply),
            Some(Finding::OfByte(place)) => ("byte", place),
        };
        return Err(Fail::new(format_args!("conversation {number}: {word} {place}")));
    }
    Ok(())
}
