//! The places of one shelf.
//!
//! They are kept in pieces of 256. A piece that nobody met is empty and stands in no memory yet; by
//! the invariant there is room for it. Only `reach` takes memory, and may be refused it.
ghost use Rattle.std.specs.Prelude.{◌≡◌, ◌<◌, ◌≤◌, ◌+◌, ◌*◌, ◌++◌, ℕ, [], None, Some, length, replicate, set, slice_get, vec_capacity, OnOk, OnErr};
ghost use Rattle.std.specs.Borrow.{sem};
ghost use Rattle.std.specs.Option.{option_copied_mut};
ghost use Rattle.oe_undo.specs.Shelf.{spread, content_in};
ghost use Rattle.oe_undo.specs.ShelfPieces.{stands_at, content_of, ArePieces};

use oe_values::NoMemory;
use std::alloc::Global;
use std::marker::Model;

// How many places a piece has.
const PIECE: usize = 256;

/// The places of a shelf, numbered from 0 on: each is empty or has something in it.
#[derive(Drop)]
pub(crate) struct PlaceShelf<T> {
    // For each piece where it starts among the met places, if it was met.
    starts: Vec<Option<u32>>,
    // The places of the met pieces, in the order in which those were met.
    met: Vec<Option<T>>,
    // How many places there are.
    count: usize,
}

impl<T> Model for PlaceShelf<T> {
    ghost use Rattle.std.specs.Prelude.{List, Option};
    ghost use Rattle.std.specs.Prelude.{◌≤◌, ◌*◌, length, vec_capacity};
    ghost use Rattle.oe_undo.specs.ShelfPieces.{ArePieces, IsEmptyFrom, places_by_number};

    ghost Value = { List (Option T) };

    ghost view = { λ s. places_by_number s.count s.starts.items s.met.items };

    ghost invariant = { λ s. ArePieces s.starts.items s.met.items
        × IsEmptyFrom s.count s.starts.items s.met.items
        × (s.count ≤ 256 * length s.starts.items)
        × (256 * length s.starts.items ≤ vec_capacity s.met)
        × (length s.starts.items ≤ 16_777_216) };
}

// Where the place of that number stands among the met ones, if its piece was met.
#[inline(always)]
fn stands_at(starts: &[Option<u32>], number: usize) -> Option<usize>
    ensures { result ≡ stands_at starts.now number }
{
    let start = (*starts.get(number / PIECE)?)?;
    Some(start as usize + number % PIECE)
}

// The content of the place of that number; none where its piece was not met.
#[inline(always)]
fn content_of<T: Copy>(starts: &[Option<u32>], met: &[Option<T>], number: usize) -> Option<T>
    requires { ArePieces starts.now met.now }
    ensures { result ≡ content_of starts.now met.now number }
{
    match stands_at(starts, number) {
        Some(at) => met[at],
        None => None,
    }
}

// Puts an empty piece behind the others, for which there is room, and answers where it starts.
#[inline(never)]
fn append<T: Copy>(starts: &mut Vec<Option<u32>>, met: &mut Vec<Option<T>>, piece: usize) -> usize
    requires there { piece < length starts.old.items }
    requires room { length met.old.items + 256 ≤ vec_capacity met.old }
    requires small { length met.old.items < 4_294_967_296 }
    ensures start { result ≡ length met.old.items }
    ensures starts { starts.new.items ≡ set starts.old.items piece (Some result) }
    ensures met { met.new.items ≡ met.old.items ++ replicate 256 None }
    ensures capacity { vec_capacity met.old ≤ vec_capacity met.new }
{
    let start = met.len();
    let Ok(()) = met.resize(start + PIECE, None) else {
        unreachable!()
    };
    starts[piece] = Some(start as u32);
    start
}

// Meets the place of that number, for whose piece there is room, and answers where it stands.
#[inline(always)]
fn meet<T: Copy>(starts: &mut Vec<Option<u32>>, met: &mut Vec<Option<T>>, number: usize) -> usize
    requires pieces { ArePieces starts.old.items met.old.items }
    requires there { number < 256 * length starts.old.items }
    requires room { 256 * length starts.old.items ≤ vec_capacity met.old }
    requires few { length starts.old.items ≤ 16_777_216 }
    ensures pieces { ArePieces starts.new.items met.new.items }
    ensures place { stands_at starts.new.items number ≡ Some result }
    ensures contents { (n : ℕ) → content_of starts.new.items met.new.items n
        ≡ content_of starts.old.items met.old.items n }
    ensures length { length starts.new.items ≡ length starts.old.items }
    ensures capacity { vec_capacity met.old ≤ vec_capacity met.new }
{
    match stands_at(starts, number) {
        Some(at) => at,
        None => append(starts, met, number / PIECE) + number % PIECE,
    }
}

// For how many more pieces memory is taken with the first ones, so that those that follow soon want
// no more, and none is moved.
fn spare(there: usize, pieces: usize) -> usize
    ensures { result ≤ pieces }
{
    if there == 0 { pieces / 2 } else { 0 }
}

// Takes memory for so many items in all; `NoMemory` where it was refused.
fn reserve<T>(items: &mut Vec<T>, room: usize) -> Result<(), NoMemory>
    requires { length items.old.items ≤ room }
    ensures items { items.new.items ≡ items.old.items }
    ensures room { OnOk result (room ≤ vec_capacity items.new) }
    ensures capacity { vec_capacity items.old ≤ vec_capacity items.new }
{
    let more = room - items.len();
    if let Err(_refused) = items.reserve(more) {
        return Err(NoMemory);
    }
    Ok(())
}

// Sees to it that there are so many pieces, and room for their places; `NoMemory` where memory was
// refused.
#[inline(always)]
fn reach_pieces<T>(
    starts: &mut Vec<Option<u32>>,
    met: &mut Vec<Option<T>>,
    pieces: usize,
) -> Result<(), NoMemory>
    requires met { length met.old.items ≤ 256 * length starts.old.items }
    requires room { 256 * length starts.old.items ≤ vec_capacity met.old }
    requires few { pieces ≤ 16_777_216 }
    ensures starts { OnOk result (starts.new.items ≡ spread pieces starts.old.items) }
    ensures err { OnErr result (starts.new.items ≡ starts.old.items) }
    ensures met { met.new.items ≡ met.old.items }
    ensures room { 256 * length starts.new.items ≤ vec_capacity met.new }
{
    let there = starts.len();
    if pieces <= there {
        return Ok(());
    }
    let wanted = pieces + spare(there, pieces);
    if let Err(refused) = reserve(met, PIECE * wanted) {
        return Err(refused);
    }
    if let Err(refused) = reserve(starts, wanted) {
        return Err(refused);
    }
    let Ok(()) = starts.resize(pieces, None) else {
        unreachable!()
    };
    Ok(())
}

impl<T> PlaceShelf<T> {
    ghost use Rattle.oe_undo.specs.ShelfLends.{lends_place};

    /// Makes a shelf without places, and takes no memory.
    pub(crate) fn new(alloc: Global) -> Self
        ensures { result ≡ [] }
    {
        PlaceShelf {
            starts: Vec::new(alloc),
            met: Vec::new(alloc),
            count: 0,
        }
    }

    /// Answers the content of the place of that number; none where it is empty, or there is no such
    /// place.
    #[inline(always)]
    pub(crate) fn content(&self, number: usize) -> Option<T>
    where
        T: Copy,
        ensures { result ≡ content_in (slice_get self.now number) }
    {
        content_of(&self.starts, &self.met, number)
    }

    /// Gives the place of that number, where there is one, to be set there. It takes no memory.
    #[inline(always)]
    pub(crate) fn place_mut(&mut self, number: usize) -> Option<&mut Option<T>>
    where
        T: Copy,
        ensures* writes_back { sem 𝓛 (lends_place T.row self.entry number result) }
        ensures place { option_copied_mut result ≡ slice_get self.old number }
    {
        if self.count <= number {
            return None;
        }
        let at = meet(&mut self.starts, &mut self.met, number);
        Some(&mut self.met[at])
    }

    /// Makes places, which are empty, up to that number, where there are fewer; `NoMemory` where
    /// memory for them was refused.
    #[inline(never)]
    pub(crate) fn reach(&mut self, number: usize) -> Result<(), NoMemory>
        requires { number < 4_294_967_296 }
        ensures reached { OnOk result (self.new ≡ spread (number + 1) self.old) }
        ensures short { OnErr result (length self.old ≤ number) }
        ensures err { OnErr result (self.new ≡ self.old) }
    {
        if number < self.count {
            return Ok(());
        }
        let pieces = number / PIECE + 1;
        if let Err(refused) = reach_pieces(&mut self.starts, &mut self.met, pieces) {
            return Err(refused);
        }
        self.count = number + 1;
        Ok(())
    }
}
