// The ring of kept pieces, against a plain search.
ghost use Rattle.std.specs.Prelude.{◌≤◌};

use reuse_buffer::{Ring, SpareRing};
use std::alloc::{AllocError, Global};
use std::test::Fail;

/// Numbers that repeat, by a fixed rule.
#[derive(Drop)]
struct Numbers {
    state: u64,
}

impl Numbers {
    /// The next number, below 65,536.
    fn next(&mut self) -> u16 {
        self.state = self
            .state
            .wrapping_mul(6_364_136_223_846_793_005)
            .wrapping_add(1_442_695_040_888_963_407);
        (self.state >> 48) as u16
    }
}

/// The place of the last push of a number, among the last `size`.
fn plain_place(pushed: &[u16], size: usize, number: u16) -> Option<usize> {
    pushed
        .iter()
        .rev()
        .take(size)
        .position(|other| *other == number)
}

/// Whether the ring answers as the plain search.
fn agrees(ring: &Ring, pushed: &[u16], number: u16) -> bool {
    let held = pushed.len().min(ring.size());
    let found = ring.place_of(&number.to_be_bytes());
    let last = ring.get((held as u16).saturating_sub(1));
    let first_kept = pushed.len() - held;
    found.map(usize::from) == plain_place(pushed, ring.size(), number)
        && ring.held() == held
        && ring.get(held as u16).is_none()
        && last.is_some() == (held > 0)
        && last.is_none_or(|piece| {
            pushed
                .get(first_kept)
                .is_some_and(|number| piece == number.to_be_bytes().as_slice())
        })
}

/// The number of the first push, of so many, behind which a ring that holds nothing yet answers otherwise than the plain search; the
/// pieces are of so many kinds, and from the push `unindexed` on they don't come into the index.
fn misplaced_in(
    ring: &mut Ring,
    alloc: Global,
    kinds: u16,
    count: usize,
    unindexed: usize,
) -> Result<Option<usize>, AllocError> {
    let mut numbers = Numbers { state: 1 };
    let mut pushed = Vec::new(alloc);
    for push in 0..count {
        let number = numbers.next() % kinds.max(1);
        let piece = Vec::from_slice(alloc, &number.to_be_bytes())?;
        if push < unindexed {
            ring.push(piece);
        } else {
            ring.push_unindexed(piece);
        }
        pushed.push(number)?;
        let other = numbers.next() % kinds.max(1);
        if !agrees(ring, &pushed, number) || !agrees(ring, &pushed, other) {
            return Ok(Some(push));
        }
    }
    ring.clear();
    let is_empty = ring.held() == 0
        && ring.get(0).is_none()
        && ring.place_of(b"\x00\x00").is_none();
    Ok(if is_empty { None } else { Some(count) })
}

/// The same in a new ring with the index; then in this ring with half as many pushes, half of them without it; and then with it again.
fn misplaced(
    alloc: Global,
    size: u16,
    kinds: u16,
    count: usize,
) -> Result<Option<usize>, AllocError>
    requires { size ≤ 1024 }
{
    let mut spare = SpareRing::new();
    let mut ring = spare.take(alloc, size)?;
    let first = misplaced_in(&mut ring, alloc, kinds, count, count)?;
    spare.keep(ring);
    let mut ring = spare.take(alloc, size)?;
    let second = misplaced_in(&mut ring, alloc, kinds, count / 2, count / 4)?;
    spare.keep(ring);
    let mut ring = spare.take(alloc, size)?;
    let third = misplaced_in(&mut ring, alloc, kinds, count / 2, count)?;
    Ok(first.or(second).or(third))
}

#[test]
fn rings_answer_as_a_plain_search(rt: HostRuntime) -> Result<(), Fail> {
    for size in [0, 1, 2, 3, 4, 5] {
        for kinds in [1, 2, 3, 7, 60_000] {
            if let Some(push) = misplaced(rt.alloc(), size, kinds, 200)? {
                return Err(Fail::new(format_args!("size {size}, kinds {kinds}, push {push}")));
            }
        }
    }
    Ok(())
}

#[test]
fn a_great_ring_answers_as_a_plain_search(rt: HostRuntime) -> Result<(), Fail> {
    for kinds in [900, 1500] {
        if let Some(push) = misplaced(rt.alloc(), 1024, kinds, 2500)? {
            return Err(Fail::new(format_args!("kinds {kinds}, push {push}")));
        }
    }
    Ok(())
}

/// Whether so many look-ups find their piece, one after another among all pieces of a full ring.
fn finds_each(alloc: Global, size: u16, look_ups: u16) -> Result<bool, AllocError>
    requires { size ≤ 1024 }
{
    let mut ring = Ring::with_size(alloc, size)?;
    for number in 0..size {
        ring.push(Vec::from_slice(alloc, &number.to_be_bytes())?);
    }
    for look_up in 0..look_ups {
        let number = look_up % size.max(1);
        let place = size.wrapping_sub(number).wrapping_sub(1);
        if ring.place_of(&number.to_be_bytes()) != Some(place) {
            return Ok(false);
        }
    }
    Ok(true)
}

#[test]
fn each_piece_among_16_is_found(rt: HostRuntime) -> Result<(), Fail> {
    assert!(rt; finds_each(rt.alloc(), 16, 20_480)?);
    Ok(())
}

#[test]
fn each_piece_among_128_is_found(rt: HostRuntime) -> Result<(), Fail> {
    assert!(rt; finds_each(rt.alloc(), 128, 20_480)?);
    Ok(())
}

#[test]
fn each_piece_among_1024_is_found(rt: HostRuntime) -> Result<(), Fail> {
    assert!(rt; finds_each(rt.alloc(), 1024, 20_480)?);
    Ok(())
}

/// Whether a push gives memory back where the ring is full or a piece was forgotten, and there alone.
fn gives_back(alloc: Global, ring: &mut Ring, wanted: &[bool]) -> Result<bool, AllocError> {
    for want in wanted {
        if ring.push(Vec::from_slice(alloc, b"piece")?).is_some() != *want {
            return Ok(false);
        }
    }
    Ok(true)
}

#[test]
fn memory_of_forgotten_pieces_is_given_back(rt: HostRuntime) -> Result<(), Fail> {
    let alloc = rt.alloc();
    let mut spare = SpareRing::new();
    let mut ring = spare.take(alloc, 3)?;
    assert!(rt; gives_back(alloc, &mut ring, &[false, false])?);
    spare.keep(ring);
    let mut ring = spare.take(alloc, 3)?;
    assert!(rt; gives_back(alloc, &mut ring, &[false, true, true, true])?);
    spare.keep(ring);
    let mut ring = spare.take(alloc, 2)?;
    assert!(rt; gives_back(alloc, &mut ring, &[false, false, true])?);
    Ok(())
}
