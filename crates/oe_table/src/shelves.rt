//! A table whose keys lie by number: shelf by shelf, and on its shelf each key after those that are
//! less.
//!
//! By the invariant the keys of the n-th shelf are those that name it, and ascend; so all keys
//! ascend from shelf to shelf. A `Cut` is a place between two slots, from which walks begin and at
//! which they end. A walk over rows passes what is blanked at the beginning of its first shelf, and
//! so goes over no row that was taken before all others. Only `put_new` takes memory, for a key
//! without a place and for the shelves up to its own, and `reserve`; where that is refused the table
//! is as before.
ghost use Rattle.std.specs.Prelude.{◌≡◌, ◌+◌, ◌<◌, ◌≤◌, ℕ, Some, None, OnOk, OnErr, IsSome, IsTrue, ◌↔◌, List, [], ◌++◌, Option, map as each, vec_len, replicate, length, slice_index_or, take, drop};
ghost use Rattle.std.specs.List.Sorted.{IsStrictlySortedBy};
ghost use Rattle.std.specs.Map.{keys_of};
ghost use Rattle.std.specs.BTreeMap.Range.{IsLeBy, entries_between};
ghost use Rattle.std.specs.declared.ops.Bound.TheVariants.{Included};
ghost use Rattle.std.specs.FinMap.{entries};
ghost use Rattle.std.specs.Option.{option_copied, option_copied_mut};
ghost use Rattle.std.specs.Borrow.{sem};
ghost use Rattle.std.specs.FinMap as map;
ghost use Rattle.oe_table.specs.Table.{place, live, rows_of, with_rows, IsBlanked, SetsPlace, GivesUpPlace, GivesUpBlanked, LosesPlace};
ghost use Rattle.oe_table.specs.Shelf.{whole_list, AreShelves, lower, upper, cut_between};

use crate::shelf::{Shelf, Slot};
use crate::shelf_walks::{Candidates, Rows, Slots};
use oe_values::{NoMemory, ShelvedKey};
use std::alloc::Global;
use std::marker::Model;

/// A map from keys to rows, in which a key whose row was taken keeps its place, blanked, until that
/// is given up.
///
/// Only `put_new` may take memory, and only for a key without a place: so each change of a row, and
/// what undoes it, can be done without memory. Contracts see a table as the list of its places, and
/// its rows, `rows_of`, as a finite map.
#[derive(Drop)]
pub struct Shelves<K: ShelvedKey, R> {
    shelves: Vec<Shelf<K, R>>,
    alloc: Global,
}

impl<K: ShelvedKey, R> Model for Shelves<K, R> {
    ghost Value = { List (K × Option R) };

    ghost view = { λ t. whole_list t.shelves.items };

    ghost invariant = { λ t. AreShelves K.cmp K.shelf_of 0 t.shelves.items };
}

/// Puts empty shelves after the others, until there is one of a number below 1,000,000.
pub fn reach<K: Drop, R: Drop>(
    shelves: &mut Vec<Shelf<K, R>>,
    alloc: Global,
    number: usize,
) -> Result<(), NoMemory>
    requires { number < 1_000_000 }
    ensures padded { (n : ℕ) × (shelves.new.items ≡ shelves.old.items ++ replicate n []) }
    ensures reached { OnOk result (number < vec_len shelves.new) }
    ensures short { OnErr result (vec_len shelves.old ≤ number) }
{
    while shelves.len() <= number {
        let shelf = Shelf::empty(alloc);
        if let Err(_refused) = shelves.push(shelf) {
            return Err(NoMemory);
        }
    }
    Ok(())
}

// Sweeps each shelf.
fn sweep_each<K: ShelvedKey + Drop, R: Drop>(shelves: &mut Vec<Shelf<K, R>>)
    ensures { shelves.new.items ≡ each with_rows shelves.old.items }
{
    for number in 0..shelves.len() {
        shelves[number].sweep();
    }
}

// A place between two slots: a shelf, and how many of its slots stand before.
#[derive(Clone, Copy)]
struct Cut {
    shelf: usize,
    slot: usize,
}

// No slots.
fn no_slots<'a, K, R>() -> &'a [Slot<K, R>]
    ensures { result.now ≡ [] }
{
    &[]
}

// No shelves.
fn no_shelves<'a, K, R>() -> &'a [Shelf<K, R>]
    ensures { result.now ≡ [] }
{
    &[]
}

// The slots of a shelf; none where there is no such shelf.
fn slots_on<K, R>(shelves: &[Shelf<K, R>], number: usize) -> &[Slot<K, R>]
    ensures { result.now ≡ slice_index_or shelves.now number [] }
{
    match shelves.get(number) {
        Some(shelf) => shelf.slots(),
        None => &[],
    }
}

// The cut before a key.
fn cut_before<K: ShelvedKey, R>(shelves: &[Shelf<K, R>], key: &K) -> Cut
    requires { AreShelves K.cmp K.shelf_of 0 shelves.now }
    ensures shelf { result.shelf ≡ K.shelf_of key.now }
    ensures slot { result.slot
        ≡ lower K.cmp (slice_index_or shelves.now (K.shelf_of key.now) []) key.now }
{
    let number = key.shelf();
    let slot = match shelves.get(number) {
        Some(shelf) => shelf.lower(key),
        None => 0,
    };
    Cut {
        shelf: number,
        slot,
    }
}

// The cut after a key.
fn cut_after<K: ShelvedKey, R>(shelves: &[Shelf<K, R>], key: &K) -> Cut
    requires { AreShelves K.cmp K.shelf_of 0 shelves.now }
    ensures shelf { result.shelf ≡ K.shelf_of key.now }
    ensures slot { result.slot
        ≡ upper K.cmp (slice_index_or shelves.now (K.shelf_of key.now) []) key.now }
{
    let number = key.shelf();
    let slot = match shelves.get(number) {
        Some(shelf) => shelf.upper(key),
        None => 0,
    };
    Cut {
        shelf: number,
        slot,
    }
}

// The shelves after one and before another.
fn shelves_between<K, R>(shelves: &[Shelf<K, R>], after: usize, before: usize) -> &[Shelf<K, R>]
    requires { after < before }
    ensures { result.now ≡ drop (after + 1) (take before shelves.now) }
{
    let end = before.min(shelves.len());
    let start = (after + 1).min(end);
    &shelves[start..end]
}

// The slots on a shelf from one on and before another.
#[inline]
fn slots_within<K, R>(
    shelves: &[Shelf<K, R>],
    number: usize,
    from: usize,
    to: usize,
) -> Slots<'_, K, R>
    requires forward { from ≤ to }
    requires ends { to ≤ length (slice_index_or shelves.now number []) }
    ensures { result ≡ drop from (take to (slice_index_or shelves.now number [])) }
{
    let slots = slots_on(shelves, number);
    Slots {
        front: slots[from..to].iter(),
        shelves: no_shelves().iter(),
        back: no_slots().iter(),
    }
}

// The slots on a shelf from a cut on.
#[inline]
fn slots_from<K, R>(shelves: &[Shelf<K, R>], cut: Cut) -> &[Slot<K, R>]
    requires { cut.slot ≤ length (slice_index_or shelves.now cut.shelf []) }
    ensures { result.now ≡ drop cut.slot (slice_index_or shelves.now cut.shelf []) }
{
    let (_, behind) = slots_on(shelves, cut.shelf).split_at(cut.slot);
    behind
}

// The slots on a shelf before a cut.
#[inline]
fn slots_to<K, R>(shelves: &[Shelf<K, R>], cut: Cut) -> &[Slot<K, R>]
    requires { cut.slot ≤ length (slice_index_or shelves.now cut.shelf []) }
    ensures { result.now ≡ take cut.slot (slice_index_or shelves.now cut.shelf []) }
{
    let (before, _) = slots_on(shelves, cut.shelf).split_at(cut.slot);
    before
}

// The slots between two cuts.
fn slots_between<K, R>(shelves: &[Shelf<K, R>], from: Cut, to: Cut) -> Slots<'_, K, R>
    requires forward { from.shelf ≤ to.shelf }
    requires within { from.slot ≤ length (slice_index_or shelves.now from.shelf []) }
    requires ends { to.slot ≤ length (slice_index_or shelves.now to.shelf []) }
    requires same { from.shelf ≡ to.shelf → from.slot ≤ to.slot }
    ensures { result ≡ cut_between shelves.now from.shelf from.slot to.shelf to.slot }
{
    if from.shelf == to.shelf {
        return slots_within(shelves, to.shelf, from.slot, to.slot);
    }
    let front = slots_from(shelves, from);
    let between = shelves_between(shelves, from.shelf, to.shelf);
    let back = slots_to(shelves, to);
    Slots {
        front: front.iter(),
        shelves: between.iter(),
        back: back.iter(),
    }
}

// How many slots at the beginning of a shelf are known to have no row.
fn blanked_on<K, R>(shelves: &[Shelf<K, R>], number: usize) -> usize
    ensures { live (take result (slice_index_or shelves.now number [])) ≡ [] }
{
    match shelves.get(number) {
        Some(shelf) => shelf.blanked(),
        None => 0,
    }
}

// How far a walk from one cut to another may begin later than at the first: at what is blanked of
// the first's shelf.
fn row_cut<K, R>(shelves: &[Shelf<K, R>], from: Cut, to: Cut) -> usize
    requires within { from.slot ≤ length (slice_index_or shelves.now from.shelf []) }
    requires ends { to.slot ≤ length (slice_index_or shelves.now to.shelf []) }
    requires same { from.shelf ≡ to.shelf → from.slot ≤ to.slot }
    ensures within { result ≤ length (slice_index_or shelves.now from.shelf []) }
    ensures same { from.shelf ≡ to.shelf → result ≤ to.slot }
    ensures later { from.slot ≤ result }
    ensures blanked { live (drop from.slot (take result (slice_index_or shelves.now from.shelf [])))
        ≡ [] }
{
    let end = if from.shelf == to.shelf {
        to.slot
    } else {
        slots_on(shelves, from.shelf).len()
    };
    from.slot.max(blanked_on(shelves, from.shelf).min(end))
}

// The rows between two cuts.
fn rows_between<K, R>(shelves: &[Shelf<K, R>], from: Cut, to: Cut) -> Rows<'_, K, R>
    requires forward { from.shelf ≤ to.shelf }
    requires within { from.slot ≤ length (slice_index_or shelves.now from.shelf []) }
    requires ends { to.slot ≤ length (slice_index_or shelves.now to.shelf []) }
    requires same { from.shelf ≡ to.shelf → from.slot ≤ to.slot }
    ensures { result ≡ live (cut_between shelves.now from.shelf from.slot to.shelf to.slot) }
{
    let start = Cut {
        shelf: from.shelf,
        slot: row_cut(shelves, from, to),
    };
    let slots = slots_between(shelves, start, to);
    Rows { slots }
}

impl<K: ShelvedKey, R> Shelves<K, R> {
    ghost use Rattle.oe_table.specs.ShelvesLends.{lends_place, lends_row};

    /// Makes a table without a place, which takes no memory.
    pub fn new(alloc: Global) -> Self
        ensures places { result ≡ [] }
        ensures rows { rows_of K.cmp result ≡ map.empty }
    {
        Shelves {
            shelves: Vec::new(alloc),
            alloc,
        }
    }

    // What stands at a key.
    #[inline(always)]
    fn slot(&self, key: &K) -> Option<&Option<R>>
        ensures { option_copied result ≡ place K.cmp self.now key.now }
    {
        let number = key.shelf();
        match self.shelves.get(number) {
            Some(shelf) => shelf.slot(key),
            None => None,
        }
    }

    // What stands at a key, to be changed there.
    #[inline(always)]
    fn slot_mut(&mut self, key: &K) -> Option<&mut Option<R>>
        ensures* writes_back { sem 𝓛
            (lends_place K.row R.row K.ShelvedKey self.entry key.now result) }
        ensures value { option_copied_mut result ≡ place K.cmp self.old key.now }
    {
        let number = key.shelf();
        self.shelves.get_mut(number)?.slot_mut(key)
    }

    /// Gives the row at a key; a blanked key and one without a place have none.
    #[tactic(auto, using(crate::proofs::TableFacts::at_keys))]
    pub fn get(&self, key: &K) -> Option<&R>
        ensures { option_copied result ≡ map.get (rows_of K.cmp self.now) key.now }
    {
        self.slot(key)?.as_ref()
    }

    /// Tells whether a key was blanked: it has a place, and no row.
    pub fn is_blanked(&self, key: &K) -> bool
        ensures { IsTrue result ↔ IsBlanked K.cmp self.now key.now }
    {
        matches!(self.slot(key), Some(None))
    }

    /// Tells whether a key has a place, with a row or blanked.
    pub fn has_place(&self, key: &K) -> bool
        ensures { IsTrue result ↔ IsSome (place K.cmp self.now key.now) }
    {
        self.slot(key).is_some()
    }

    /// Takes memory for so many keys more on the shelf of a key, so that they are put there without
    /// moving those before them. It changes nothing, also where memory is refused.
    pub fn reserve(&mut self, key: &K, more: usize) -> Result<(), NoMemory>
    where
        K: Drop,
        R: Drop,
        ensures { self.new ≡ self.old }
    {
        let number = key.shelf();
        reach(&mut self.shelves, self.alloc, number)?;
        self.shelves[number].reserve(more)
    }

    /// Puts a row at a key that has none.
    ///
    /// A blanked key takes its old place, and the answer is then always `Ok`. `NoMemory` comes only
    /// for a key without a place; the table is then as before, and the row is dropped.
    pub fn put_new(&mut self, key: K, row: R) -> Result<(), NoMemory>
    where
        K: Drop,
        R: Drop,
        requires { map.get (rows_of K.cmp self.old) key ≡ None }
        ensures ok { OnOk result (SetsPlace K.cmp self.old self.new key (Some row)) }
        ensures rows { OnOk result
            (rows_of K.cmp self.new ≡ map.insert (rows_of K.cmp self.old) key row) }
        ensures err { OnErr result (self.new ≡ self.old) }
        ensures no_place { OnErr result (place K.cmp self.old key ≡ None) }
    {
        let number = key.shelf();
        if let Err(refusal) = reach(&mut self.shelves, self.alloc, number) {
            return Err(refusal);
        }
        self.shelves[number].put(key, row)
    }

    /// Puts another row in the place of the one at a key that has a row, and answers that one.
    #[tactic(auto, using(crate::proofs::TableFacts::at_keys))]
    pub fn swap(&mut self, key: &K, row: R) -> R
        requires { IsSome (map.get (rows_of K.cmp self.old) key.now) }
        ensures before { map.get (rows_of K.cmp self.old) key.now ≡ Some result }
        ensures places { SetsPlace K.cmp self.old self.new key.now (Some row) }
        ensures rows { rows_of K.cmp self.new ≡ map.insert (rows_of K.cmp self.old) key.now row }
    {
        let slot = self.slot_mut(key).unwrap();
        slot.replace(row).unwrap()
    }

    /// Gives the row at a key, to be changed where it stands; a blanked key and one without a place
    /// have none.
    pub fn row_mut(&mut self, key: &K) -> Option<&mut R>
        ensures* writes_back { sem 𝓛
            (lends_row K.row R.row K.ShelvedKey self.entry key.now result) }
        ensures row { option_copied_mut result ≡ map.get (rows_of K.cmp self.old) key.now }
    {
        self.slot_mut(key)?.as_mut()
    }

    /// Takes the row at a key that has one. The key keeps its place, blanked.
    #[tactic(auto, using(crate::proofs::TableFacts::at_keys))]
    pub fn blank(&mut self, key: &K) -> R
        requires { IsSome (map.get (rows_of K.cmp self.old) key.now) }
        ensures before { map.get (rows_of K.cmp self.old) key.now ≡ Some result }
        ensures places { SetsPlace K.cmp self.old self.new key.now None }
        ensures rows { rows_of K.cmp self.new ≡ map.remove (rows_of K.cmp self.old) key.now }
    {
        let slot = self.slot_mut(key).unwrap();
        let row = slot.take().unwrap();
        self.pass_blanked(key);
        row
    }

    // Has the key's shelf pass what is blanked at its beginning.
    fn pass_blanked(&mut self, key: &K)
        ensures { self.new ≡ self.old }
    {
        let number = key.shelf();
        if let Some(shelf) = self.shelves.get_mut(number) {
            shelf.pass_blanked();
        }
    }

    /// Puts a row in the place of a blanked key.
    pub fn refill(&mut self, key: &K, row: R)
    where
        R: Drop,
        requires { IsBlanked K.cmp self.old key.now }
        ensures places { SetsPlace K.cmp self.old self.new key.now (Some row) }
        ensures rows { rows_of K.cmp self.new ≡ map.insert (rows_of K.cmp self.old) key.now row }
    {
        let slot = self.slot_mut(key).unwrap();
        *slot = Some(row);
    }

    /// Gives up the place of a blanked key. Where the key has a row, or no place, nothing changes.
    pub fn give_up(&mut self, key: &K)
    where
        K: Drop,
        R: Drop,
        ensures places { GivesUpPlace K.cmp self.old self.new key.now }
        ensures rows { rows_of K.cmp self.new ≡ rows_of K.cmp self.old }
    {
        let number = key.shelf();
        let Some(shelf) = self.shelves.get_mut(number) else {
            return;
        };
        shelf.give_up(key);
    }

    /// Takes the row at a key that has one, and the key's place.
    pub fn remove(&mut self, key: &K) -> R
    where
        K: Drop,
        R: Drop,
        requires { IsSome (map.get (rows_of K.cmp self.old) key.now) }
        ensures before { map.get (rows_of K.cmp self.old) key.now ≡ Some result }
        ensures places { LosesPlace K.cmp self.old self.new key.now }
        ensures rows { rows_of K.cmp self.new ≡ map.remove (rows_of K.cmp self.old) key.now }
    {
        let taken = self.blank(key);
        self.give_up(key);
        taken
    }

    /// Gives up the places of all blanked keys. It takes no memory, and writes none of a shelf on
    /// which no key is blanked.
    pub fn sweep(&mut self)
    where
        K: Drop,
        R: Drop,
        ensures places { GivesUpBlanked K.cmp self.old self.new }
        ensures rows { rows_of K.cmp self.new ≡ rows_of K.cmp self.old }
    {
        sweep_each(&mut self.shelves);
    }

    /// Gives the rows with their keys, in the keys' order.
    pub fn iter(&self) -> Rows<'_, K, R>
        ensures rows { result ≡ entries (rows_of K.cmp self.now) }
        ensures ordered { IsStrictlySortedBy K.cmp (keys_of result) }
    {
        let slots = self.all_slots();
        Rows { slots }
    }

    /// Gives the rows whose keys lie from `from` up to `to`, both included, in the keys' order.
    pub fn range_inclusive(&self, from: K, to: K) -> Rows<'_, K, R>
    where
        K: Drop,
        requires { IsLeBy K.cmp from to }
        ensures { result
            ≡ entries_between K.cmp (Included from) (Included to)
            (entries (rows_of K.cmp self.now)) }
    {
        let start = cut_before(&self.shelves, &from);
        let end = cut_after(&self.shelves, &to);
        rows_between(&self.shelves, start, end)
    }

    /// Gives the keys that have a place, in their order, each with its row or, where it was
    /// blanked, `None`.
    pub fn places(&self) -> Candidates<'_, K, R>
        ensures { result ≡ self.now }
    {
        let all_places = self.all_slots();
        Candidates { slots: all_places }
    }

    // All slots.
    fn all_slots(&self) -> Slots<'_, K, R>
        ensures places { result ≡ self.now }
        ensures ordered { IsStrictlySortedBy K.cmp (keys_of self.now) }
    {
        Slots {
            front: no_slots().iter(),
            shelves: self.shelves.iter(),
            back: no_slots().iter(),
        }
    }
}
