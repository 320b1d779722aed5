// The ring of kept pieces.
ghost use Rattle.std.specs.Prelude.{◌≡◌, ◌≤◌, ◌<◌, ◌↔◌, ◌∷◌, ◌+◌, [], List, ℕ, length, min, slice_get, take, option_copied, IfOk, IsTrue, Some};
ghost use Rattle.ideal_meaning.specs.Frames as frames;
ghost use Rattle.reuse_buffer.specs.Kept.{kept};
ghost use Rattle.reuse_buffer.specs.Index.{IsBucketOf, IsFirstOf, IsIndex, buckets_in, bytes_in, next_turn, place_at};

use crate::held_piece::{HeldPiece, bucket_of, bytes_of};
use circular_buffer::HeapCircularBuffer;
use std::alloc::{AllocError, Global};
use std::marker::Model;

/// The last pieces that were pushed, up to a number that is fixed when it is made. To use a piece doesn't move it.
#[derive(Drop)]
pub struct Ring {
    // The last one first. Behind those that are held stand pieces that were forgotten, until their memory is given back.
    pieces: HeapCircularBuffer<HeldPiece>,
    // For each bucket the turn of its last piece; where that is no longer held, another bucket's piece is at its place, or none.
    newest: Vec<u16>,
    // The turn of the last piece. Turns count the pushes, modulo the size.
    turn: u16,
    // How many of the pieces are held.
    held: usize,
    // Whether the index has those. Else a piece is found by a walk over them.
    indexed: bool,
}

impl Model for Ring {
    ghost use Rattle.reuse_buffer.specs.Kept.{Kept, kept_as, kept_code};
    ghost use Rattle.reuse_buffer.specs.Index.{AreHeld, HasRoom, IsIndex, bytes_in};
    ghost use Rattle.std.specs.Prelude.{IsTrue, take};

    ghost Value = { Kept };

    ghost coded = { kept_code };

    ghost view = { λ r. kept_as (bytes_in (take r.held r.pieces.items)) r.pieces.capacity };

    ghost invariant = { λ r. HasRoom r.pieces.capacity r.turn r.newest.items × AreHeld r.pieces.capacity r.held r.pieces.items
        × (IsTrue r.indexed → IsIndex r.pieces.capacity r.turn r.newest.items (take r.held r.pieces.items)) };
}

/// A bucket of the index by which a ring finds its pieces.
#[derive(Clone, Copy)]
pub struct Bucket(u16);

impl Ring {
    /// A ring that holds at most `size` pieces, up to 1,024, and none yet. All the room that it needs is made here.
    pub fn with_size(alloc: Global, size: u16) -> Result<Ring, AllocError>
        requires { size ≤ 1024 }
        ensures { IfOk result (λ ring. ring ≡ kept size []) }
    {
        let pieces = HeapCircularBuffer::with_capacity(alloc, usize::from(size))?;
        let newest = Vec::from_elem(alloc, 0, usize::from(size))?;
        Ok(Ring {
            pieces,
            newest,
            turn: 0,
            held: 0,
            indexed: true,
        })
    }

    /// How many pieces it holds at most.
    pub fn size(&self) -> usize
        ensures size { result ≡ self.now.size }
        ensures small { result ≤ 1024 }
    {
        self.pieces.capacity()
    }

    /// How many pieces it holds.
    pub fn held(&self) -> usize
        ensures count { result ≡ length self.now.pieces }
        ensures within { result ≤ self.now.size }
        ensures small { result ≤ 1024 }
    {
        self.held
    }

    /// The k-th last piece, 0 being the last; none exactly where k isn't below [`held`](Ring::held).
    pub fn get(&self, k: u16) -> Option<&[u8]>
        ensures { option_copied result ≡ slice_get self.now.pieces k }
    {
        match held_at(&self.pieces, self.held, usize::from(k)) {
            Some(held) => Some(held.bytes.as_slice()),
            None => None,
        }
    }

    /// The least place of a piece with these bytes, 0 being that of the last; none exactly where no such piece is held.
    pub fn place_of(&self, bytes: &[u8]) -> Option<u16>
        ensures { result ≡ frames.place_of bytes.now self.now.pieces }
    {
        self.place_in(self.bucket(bytes), bytes)
    }

    /// The bucket in which a piece is looked for, for [`place_in`](Ring::place_in) and [`push_in`](Ring::push_in).
    #[inline(always)]
    pub fn bucket(&self, bytes: &[u8]) -> Bucket
        ensures { IsBucketOf self.now.size bytes.now result }
    {
        let count = self.pieces.capacity() as u16;
        if count == 0 {
            return Bucket(0);
        }
        Bucket(bucket_of(bytes, count))
    }

    /// The place of a piece with these bytes, as [`place_of`](Ring::place_of) gives it, where their bucket is known.
    pub fn place_in(&self, bucket: Bucket, bytes: &[u8]) -> Option<u16>
        requires { IsBucketOf self.now.size bytes.now bucket }
        ensures { result ≡ frames.place_of bytes.now self.now.pieces }
    {
        if !self.indexed {
            return walked(&self.pieces, self.held, bytes);
        }
        let count = self.pieces.capacity() as u16;
        if count == 0 {
            return None;
        }
        let first = first_of(&self.pieces, self.held, &self.newest, self.turn, bucket.0);
        let mut place = usize::from(first);
        while let Some(held) = held_at(&self.pieces, self.held, place) {
            if held.bytes.as_slice() == bytes {
                return Some(place as u16);
            }
            place += usize::from(held.between) + 1;
        }
        None
    }

    /// Takes a piece in, as the last one. Where as many pieces as the ring holds at most are there, forgotten ones among them, the oldest
    /// one goes, and its memory is given back; where it holds none, that of the piece itself.
    #[inline(always)]
    pub fn push(&mut self, piece: Vec<u8>) -> Option<Vec<u8>>
        ensures last { (recent : List (List ℕ)) → self.old ≡ kept self.old.size recent → self.new ≡ kept self.old.size (piece.items ∷ recent) }
        ensures pieces { self.new ≡ kept self.old.size (piece.items ∷ self.old.pieces) }
    {
        let bucket = self.bucket(&piece);
        self.push_in(bucket, piece)
    }

    /// Takes a piece in as [`push`](Ring::push) does, where its bucket is known.
    #[inline(always)]
    pub fn push_in(&mut self, bucket: Bucket, piece: Vec<u8>) -> Option<Vec<u8>>
        requires { IsBucketOf self.old.size piece.items bucket }
        ensures last { (recent : List (List ℕ)) → self.old ≡ kept self.old.size recent → self.new ≡ kept self.old.size (piece.items ∷ recent) }
        ensures pieces { self.new ≡ kept self.old.size (piece.items ∷ self.old.pieces) }
    {
        if !self.indexed {
            return self.push_unindexed(piece);
        }
        let count = self.pieces.capacity() as u16;
        if count == 0 {
            return Some(piece);
        }
        let between = first_of(&self.pieces, self.held, &self.newest, self.turn, bucket.0);
        self.turn = next_turn(count, self.turn);
        self.newest[usize::from(bucket.0)] = self.turn;
        self.held = held_behind(self.held, usize::from(count));
        let oldest = self.pieces.push_front(HeldPiece {
            bytes: piece,
            bucket: bucket.0,
            between,
        });
        bytes_of(oldest)
    }

    /// Takes a piece in as [`push`](Ring::push) does, without its bucket. Until the ring is cleared, a piece is then found by a walk over
    /// those that are held.
    #[inline(always)]
    pub fn push_unindexed(&mut self, piece: Vec<u8>) -> Option<Vec<u8>>
        ensures last { (recent : List (List ℕ)) → self.old ≡ kept self.old.size recent → self.new ≡ kept self.old.size (piece.items ∷ recent) }
        ensures pieces { self.new ≡ kept self.old.size (piece.items ∷ self.old.pieces) }
    {
        self.indexed = false;
        self.held = held_behind(self.held, self.pieces.capacity());
        let oldest = self.pieces.push_front(HeldPiece {
            bytes: piece,
            bucket: 0,
            between: 0,
        });
        bytes_of(oldest)
    }

    /// Forgets all pieces. Their memory stays, for [`push`](Ring::push) to give back.
    pub fn clear(&mut self)
        ensures { self.new ≡ kept self.old.size [] }
    {
        self.held = 0;
        self.indexed = true;
    }
}

/// The piece at a place, among the first `held`.
fn held_at(pieces: &HeapCircularBuffer<HeldPiece>, held: usize, place: usize) -> Option<&HeldPiece>
    ensures { option_copied result ≡ slice_get (take held pieces.now.items) place }
{
    if place < held {
        pieces.get(place)
    } else {
        None
    }
}

/// The least place of a piece with these bytes, among the first `held`.
fn walked(pieces: &HeapCircularBuffer<HeldPiece>, held: usize, bytes: &[u8]) -> Option<u16>
    requires { held ≤ 1024 }
    ensures { result ≡ frames.place_of bytes.now (bytes_in (take held pieces.now.items)) }
{
    let mut place = 0;
    while let Some(piece) = held_at(pieces, held, place) {
        if piece.bytes.as_slice() == bytes {
            return Some(place as u16);
        }
        place += 1;
    }
    None
}

/// How many pieces a ring of `count` holds behind a push, where it held `held`.
fn held_behind(held: usize, count: usize) -> usize
    requires within { held ≤ count }
    requires small { count ≤ 1024 }
    ensures { result ≡ min count (held + 1) }
{
    if held < count { held + 1 } else { held }
}

/// The place of the last piece in a bucket; where the bucket has none, a number that is no place.
fn first_of(
    pieces: &HeapCircularBuffer<HeldPiece>,
    held: usize,
    newest: &[u16],
    now: u16,
    bucket: u16,
) -> u16
    requires index { IsIndex pieces.now.capacity now newest.now (take held pieces.now.items) }
    requires bucket { bucket < pieces.now.capacity }
    requires held { held ≤ pieces.now.capacity }
    ensures first { IsFirstOf bucket result (buckets_in (take held pieces.now.items)) }
{
    let count = pieces.capacity() as u16;
    let place = place_at(count, now, newest[usize::from(bucket)]);
    if is_in(pieces, held, place, bucket) {
        place
    } else {
        count
    }
}

/// Whether a piece of the bucket stands at the place.
fn is_in(pieces: &HeapCircularBuffer<HeldPiece>, held: usize, place: u16, bucket: u16) -> bool
    ensures { IsTrue result ↔ (slice_get (buckets_in (take held pieces.now.items)) place ≡ Some bucket) }
{
    match held_at(pieces, held, usize::from(place)) {
        Some(piece) => piece.bucket == bucket,
        None => false,
    }
}

/// The place of the piece that was pushed at a turn, of `count`, where the last one was pushed at the turn `now`.
fn place_at(count: u16, now: u16, turn: u16) -> u16
    requires now { now < count }
    requires turn { turn < count }
    requires small { count ≤ 1024 }
    ensures { result ≡ place_at count now turn }
{
    if turn <= now {
        now - turn
    } else {
        now + count - turn
    }
}

/// The turn behind the turn `now`, of `count`.
fn next_turn(count: u16, now: u16) -> u16
    requires { now < count }
    ensures { result ≡ next_turn count now }
{
    if now + 1 < count { now + 1 } else { 0 }
}
