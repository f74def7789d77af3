//! One shelf of a table: its keys ascend, each with its row or, where it was blanked, none.
//!
//! That the keys ascend is asked of each call and is the invariant of the table that has the shelf.
//! By its own invariant a shelf knows of some slots at its beginning that they are blanked, so that
//! a walk over rows can pass them. Only `put` takes memory, for a key without a place, and `reserve`;
//! where that is refused the shelf is as before.
ghost use Rattle.std.specs.Prelude.{◌≡◌, ◌+◌, ◌<◌, ◌≤◌, ◌↔◌, Some, None, List, Option, [], Err, IfSome, IsTrue, OnOk, OnErr, is_some, length, take};
ghost use Rattle.std.specs.List.{insert, list_all, remove};
ghost use Rattle.std.specs.Option.{option_copied, option_copied_mut};
ghost use Rattle.std.specs.Borrow.{sem};
ghost use Rattle.oe_table.specs.Table.{place, live, with_rows};
ghost use Rattle.oe_table.specs.Shelf.{IsAscending, StandsAt, IsFound, put_at, lower, upper, without, without_blanked};

use crate::front_vec::FrontVec;
use oe_values::{NoMemory, ShelvedKey};
use std::alloc::Global;
use std::cmp::Ordering;
use std::marker::Model;

/// A key's place: its row, or none where it was blanked.
#[derive(Drop)]
pub struct Slot<K, R> {
    key: K,
    content: Option<R>,
}

impl<K, R> Model for Slot<K, R> {
    ghost Value = { K × Option R };

    ghost view = { λ s. (s.key, s.content) };
}

impl<K, R> Slot<K, R> {
    ghost use Rattle.oe_table.specs.ShelfLends.{lends_content};

    /// Gives the key and what stands at it.
    pub fn parts(&self) -> (&K, &Option<R>)
        ensures { (result.0.now, result.1.now) ≡ self.now }
    {
        (&self.key, &self.content)
    }

    #[inline(always)]
    fn content_mut(&mut self) -> &mut Option<R>
        ensures* writes_back { sem 𝓛 (lends_content K.row R.row self.entry result) }
        ensures value { result.now ≡ self.old.1 }
    {
        &mut self.content
    }
}

/// The slots of a shelf, in their keys' order. That the keys ascend is kept by the table that has
/// the shelf.
#[derive(Drop)]
pub struct Shelf<K, R> {
    slots: FrontVec<Slot<K, R>>,
    // So many slots at the beginning have no row.
    blanked: usize,
    // The index of the slot that was last lent to be changed, a hint: the next key that is asked
    // for often stands there, or behind it.
    touched: usize,
}

impl<K, R> Model for Shelf<K, R> {
    ghost Value = { List (K × Option R) };

    ghost view = { λ s. s.slots };

    ghost invariant = { λ s. live (take s.blanked s.slots) ≡ [] };
}

impl<K, R> Shelf<K, R> {
    /// Makes a shelf without a slot, which takes no memory.
    pub fn empty(alloc: Global) -> Self
        ensures { result ≡ [] }
    {
        Shelf {
            slots: FrontVec::new(alloc),
            blanked: 0,
            touched: 0,
        }
    }
}

impl<K, R> Shelf<K, R> {
    /// Gives the slots, in their keys' order.
    #[inline(always)]
    pub fn slots(&self) -> &[Slot<K, R>]
        ensures { result.now ≡ self.now }
    {
        self.slots.as_slice()
    }

    /// Counts slots at the beginning that have no row.
    pub(crate) fn blanked(&self) -> usize
        ensures { live (take result self.now) ≡ [] }
    {
        self.blanked
    }

    // How many slots at the beginning have no row, from those on that are known to have none.
    fn front(&self) -> usize
        ensures { live (take result self.now) ≡ [] }
    {
        let mut passed = self.blanked;
        while let Some(slot) = self.slots.as_slice().get(passed) {
            if slot.content.is_some() {
                return passed;
            }
            passed += 1;
        }
        passed
    }

    // Whether each slot has a row.
    fn has_rows_alone(&self) -> bool
        ensures { result ≡ list_all (λ e. is_some e.1) self.now }
    {
        self.slots().iter().all(|slot| slot.content.is_some())
    }

    /// Passes the slots at the beginning that have no row, so that no walk over rows meets them
    /// again.
    pub(crate) fn pass_blanked(&mut self)
        ensures { self.new ≡ self.old }
    {
        self.blanked = self.front();
    }
}

// How many of the first slots are left where one slot is taken out.
fn passed_without(passed: usize, at: usize) -> usize
    ensures before { at < passed → result + 1 ≡ passed }
    ensures after { passed ≤ at → result ≡ passed }
{
    if at < passed { passed - 1 } else { passed }
}

// Takes the slots out that have no row.
fn keep_rows<K: Drop, R: Drop>(slots: &mut FrontVec<Slot<K, R>>)
    ensures { slots.new ≡ with_rows slots.old }
{
    slots.retain(
        |slot: &Slot<K, R>| -> bool
            ensures { result ≡ is_some slot.now.1 }
        { slot.content.is_some() },
    );
}

// Where a key stands, or would stand, among slots whose keys ascend.
fn search<K: ShelvedKey, R>(slots: &[Slot<K, R>], key: &K) -> Result<usize, usize>
    requires { IsAscending K.cmp slots.now }
    ensures { IsFound K.cmp slots.now key.now result }
{
    slots.binary_search_by(
        |slot: &Slot<K, R>| -> Ordering
            ensures { result ≡ K.cmp slot.now.0 key.entry.now }
        { slot.key.cmp(key) },
    )
}

// About where a place stands, if places lie between the first and the last slot as evenly as slots.
// A product that wraps makes the guess a bad one, and no more.
#[inline(always)]
fn guess(place: usize, first: usize, last: usize, end: usize) -> usize
    ensures { result ≤ end }
{
    let ahead = place.saturating_sub(first);
    let span = last.saturating_sub(first).max(1);
    let guessed = ahead.wrapping_mul(end) / span;
    guessed.min(end)
}

// How many slots have a lower place, if places ascend as keys do: a hint, as places are. Two keys
// stand no further apart than their places, so the slot that is guessed bounds the search.
fn lower_places<K: ShelvedKey, R>(slots: &[Slot<K, R>], place: usize) -> usize {
    let (Some(first), Some(last)) = (slots.first(), slots.last()) else {
        return 0;
    };
    let last = last.key.place();
    if last < place {
        return slots.len();
    }
    let at = guess(place, first.key.place(), last, slots.len() - 1);
    let slot = &slots[at];
    let there = slot.key.place();
    let mut from = at.saturating_sub(there.saturating_sub(place));
    let mut to = at
        .saturating_add(place.saturating_sub(there))
        .min(slots.len());
    while from < to {
        let middle = from + (to - from) / 2;
        let slot = &slots[middle];
        let there = slot.key.place();
        if there == place {
            return middle;
        }
        if there < place {
            from = middle + 1;
        } else {
            to = middle;
        }
    }
    from
}

impl<K: ShelvedKey, R> Shelf<K, R> {
    ghost use Rattle.oe_table.specs.ShelfLends.{lends_slot};

    // Where the key may stand, by the numbers of the first key and of this one.
    #[inline(always)]
    fn hint(&self, key: &K) -> usize {
        match self.slots().first() {
            Some(first) => key.place().wrapping_sub(first.key.place()),
            None => 0,
        }
    }

    // Whether the key stands at an index.
    #[inline(always)]
    fn stands_at(&self, at: usize, key: &K) -> bool
        ensures { IsTrue result ↔ StandsAt K.cmp self.now key.now at }
    {
        match self.slots().get(at) {
            Some(slot) => slot.key.cmp(key).is_eq(),
            None => false,
        }
    }

    // The index of a key that stands where the hint says.
    #[inline(always)]
    fn hinted(&self, key: &K) -> Option<usize>
        ensures { IfSome result (StandsAt K.cmp self.now key.now) }
    {
        let hint = self.hint(key);
        if self.stands_at(hint, key) {
            return Some(hint);
        }
        None
    }

    // Finds where a key stands, or would stand.
    #[inline(always)]
    fn find(&self, key: &K) -> Result<usize, usize>
        requires { IsAscending K.cmp self.now }
        ensures { IsFound K.cmp self.now key.now result }
    {
        match self.hinted(key) {
            Some(at) => Ok(at),
            None => self.find_elsewhere(key),
        }
    }

    // Finds where a key stands, or would stand, whatever the hint.
    #[inline(never)]
    fn find_elsewhere(&self, key: &K) -> Result<usize, usize>
        requires { IsAscending K.cmp self.now }
        ensures { IsFound K.cmp self.now key.now result }
    {
        if self.ends_before(key) {
            return Err(self.slots().len());
        }
        if let Some(at) = self.touched_at(key) {
            return Ok(at);
        }
        self.find_by_place(key)
    }

    // The index of a key at the slot that was last lent to be changed, or at the one behind it.
    #[inline(always)]
    fn touched_at(&self, key: &K) -> Option<usize>
        ensures { IfSome result (StandsAt K.cmp self.now key.now) }
    {
        let behind = self.touched.wrapping_add(1);
        if self.stands_at(behind, key) {
            return Some(behind);
        }
        if self.stands_at(self.touched, key) {
            return Some(self.touched);
        }
        None
    }

    // Finds where a key stands, or would stand, by how far its place lies between the first and the
    // last.
    #[inline(never)]
    fn find_by_place(&self, key: &K) -> Result<usize, usize>
        requires { IsAscending K.cmp self.now }
        ensures { IsFound K.cmp self.now key.now result }
    {
        let near = lower_places(self.slots(), key.place());
        if self.stands_at(near, key) {
            return Ok(near);
        }
        if self.falls_at(near, key) {
            return Err(near);
        }
        search(self.slots(), key)
    }

    // Whether a key would stand at an index: it is greater than the slot before, and less than the
    // one there.
    #[inline(always)]
    fn falls_at(&self, at: usize, key: &K) -> bool
        requires { IsAscending K.cmp self.now }
        ensures { IsTrue result → IsFound K.cmp self.now key.now (Err at) }
    {
        let slots = self.slots();
        let Some(slot) = slots.get(at) else {
            return at == slots.len() && self.ends_before(key);
        };
        if !slot.key.cmp(key).is_gt() {
            return false;
        }
        if at == 0 {
            return true;
        }
        let before = &slots[at - 1];
        before.key.cmp(key).is_lt()
    }

    // Whether the last key is less than this one.
    #[inline(always)]
    fn ends_before(&self, key: &K) -> bool
        requires { IsAscending K.cmp self.now }
        ensures { IsTrue result → IsFound K.cmp self.now key.now (Err (length self.now)) }
    {
        match self.slots().last() {
            Some(last) => last.key.cmp(key).is_lt(),
            None => true,
        }
    }

    // Where a key stands, or past the last slot.
    #[inline(always)]
    fn position(&self, key: &K) -> usize
        requires { IsAscending K.cmp self.now }
        ensures stands { result < length self.now → StandsAt K.cmp self.now key.now result }
        ensures none { length self.now ≤ result → place K.cmp self.now key.now ≡ None }
    {
        match self.find(key) {
            Ok(at) => at,
            Err(_) => self.slots().len(),
        }
    }

    // Finds where a key stands, or would stand, as an end of a range: no slot that was lent is
    // near it more often than another.
    #[inline(always)]
    fn find_end(&self, key: &K) -> Result<usize, usize>
        requires { IsAscending K.cmp self.now }
        ensures { IsFound K.cmp self.now key.now result }
    {
        match self.hinted(key) {
            Some(at) => Ok(at),
            None => self.find_by_place(key),
        }
    }

    /// Tells how many keys are less than a key.
    pub(crate) fn lower(&self, key: &K) -> usize
        requires { IsAscending K.cmp self.now }
        ensures { result ≡ lower K.cmp self.now key.now }
    {
        match self.find_end(key) {
            Ok(at) => at,
            Err(at) => at,
        }
    }

    /// Tells how many keys are not greater than a key.
    pub(crate) fn upper(&self, key: &K) -> usize
        requires { IsAscending K.cmp self.now }
        ensures { result ≡ upper K.cmp self.now key.now }
    {
        let _known = self.slots().len();
        match self.find_end(key) {
            Ok(at) => at + 1,
            Err(at) => at,
        }
    }

    /// Gives what stands at a key.
    #[inline(always)]
    pub(crate) fn slot(&self, key: &K) -> Option<&Option<R>>
        requires { IsAscending K.cmp self.now }
        ensures { option_copied result ≡ place K.cmp self.now key.now }
    {
        let at = self.position(key);
        match self.slots().get(at) {
            Some(slot) => Some(&slot.content),
            None => None,
        }
    }

    /// Gives what stands at a key, to be changed there.
    #[inline(always)]
    pub(crate) fn slot_mut(&mut self, key: &K) -> Option<&mut Option<R>>
        requires { IsAscending K.cmp self.old }
        ensures* writes_back { sem 𝓛 (lends_slot K.row R.row K.cmp self.entry key.now result) }
        ensures value { option_copied_mut result ≡ place K.cmp self.old key.now }
    {
        let at = self.position(key);
        if self.slots().len() <= at {
            return None;
        }
        self.blanked = at.min(self.blanked);
        self.touched = at;
        Some(self.slots.item_mut(at).content_mut())
    }

    /// Takes memory for so many keys more. It changes nothing, also where memory is refused.
    pub(crate) fn reserve(&mut self, more: usize) -> Result<(), NoMemory>
    where
        K: Drop,
        R: Drop,
        ensures { self.new ≡ self.old }
    {
        self.slots.reserve(more)
    }

    /// Puts a row at a key, into its place or a new one.
    pub fn put(&mut self, key: K, row: R) -> Result<(), NoMemory>
    where
        K: Drop,
        R: Drop,
        requires { IsAscending K.cmp self.old }
        ensures ok { OnOk result (self.new ≡ put_at K.cmp self.old key (Some row)) }
        ensures err { OnErr result (self.new ≡ self.old) }
        ensures no_place { OnErr result (place K.cmp self.old key ≡ None) }
    {
        if self.ends_before(&key) {
            return self.put_last(key, row);
        }
        self.put_in(key, row)
    }

    // Puts a row at a key, whether or not the key stands before the last one.
    #[inline(never)]
    fn put_in(&mut self, key: K, row: R) -> Result<(), NoMemory>
    where
        K: Drop,
        R: Drop,
        requires { IsAscending K.cmp self.old }
        ensures ok { OnOk result (self.new ≡ put_at K.cmp self.old key (Some row)) }
        ensures err { OnErr result (self.new ≡ self.old) }
        ensures no_place { OnErr result (place K.cmp self.old key ≡ None) }
    {
        match self.find(&key) {
            Ok(at) => {
                self.blanked = self.blanked.min(at);
                *self.slots.item_mut(at).content_mut() = Some(row);
                Ok(())
            }
            Err(at) => self.put_new(at, key, row),
        }
    }

    // Puts a slot after the others.
    #[inline(always)]
    fn put_last(&mut self, key: K, row: R) -> Result<(), NoMemory>
    where
        K: Drop,
        R: Drop,
        ensures ok { OnOk result
            (self.new ≡ insert self.old (length self.old) (key, Some row)) }
        ensures err { OnErr result (self.new ≡ self.old) }
    {
        let end = self.slots().len();
        let slot = Slot {
            key,
            content: Some(row),
        };
        if let Err(refusal) = self.slots.push(slot) {
            return Err(refusal);
        }
        self.blanked = self.blanked.min(end);
        Ok(())
    }

    // Puts a slot before the one at an index.
    fn put_new(&mut self, at: usize, key: K, row: R) -> Result<(), NoMemory>
    where
        K: Drop,
        R: Drop,
        requires { at ≤ length self.old }
        ensures ok { OnOk result (self.new ≡ insert self.old at (key, Some row)) }
        ensures err { OnErr result (self.new ≡ self.old) }
    {
        let slot = Slot {
            key,
            content: Some(row),
        };
        if let Err(refusal) = self.slots.insert(at, slot) {
            return Err(refusal);
        }
        self.blanked = self.blanked.min(at);
        Ok(())
    }

    /// Gives up the place of a blanked key. Where the key has a row, or no place, nothing changes.
    pub(crate) fn give_up(&mut self, key: &K)
    where
        K: Drop,
        R: Drop,
        requires { IsAscending K.cmp self.old }
        ensures { self.new ≡ without_blanked K.cmp self.old key.now }
    {
        let at = self.position(key);
        let Some(slot) = self.slots().get(at) else {
            return;
        };
        let has_row = slot.content.is_some();
        if has_row {
            return;
        }
        self.remove(at);
    }

    /// Takes a key's slot out, whatever stands in it. Where the key has no place, nothing changes.
    pub fn take_out(&mut self, key: &K)
    where
        K: Drop,
        R: Drop,
        requires { IsAscending K.cmp self.old }
        ensures { self.new ≡ without K.cmp self.old key.now }
    {
        let at = self.position(key);
        if at >= self.slots().len() {
            return;
        }
        self.remove(at);
    }

    /// Gives up the places of all blanked keys. It writes nothing where none is blanked.
    pub(crate) fn sweep(&mut self)
    where
        K: Drop,
        R: Drop,
        ensures { self.new ≡ with_rows self.old }
    {
        if self.has_rows_alone() {
            return;
        }
        keep_rows(&mut self.slots);
        self.blanked = 0;
    }

    // Takes a slot out.
    fn remove(&mut self, at: usize)
    where
        K: Drop,
        R: Drop,
        requires { at < length self.old }
        ensures { self.new ≡ remove self.old at }
    {
        self.blanked = passed_without(self.blanked, at);
        self.slots.remove(at);
    }
}
