//! Keys with the sum of what was added for each.
//!
//! What is added goes into its key's entry, where that is the last one, and else behind the other
//! entries. So a table that comes in the order of its keys takes an entry a key. `settle` brings the
//! entries of each key together and puts them in the keys' order. Where the entries fill their
//! memory and there may be many to a key, `add` does so before it asks for more. Once settling has
//! joined a fifth of them, `add` looks for its key's entry among the settled ones too.
//!
//! A contract speaks of `total`, the sum for a key, which no order of adding and no settling
//! changes. `add` alone can fail, where memory is refused; no sum changes then.
ghost use Rattle.std.specs.Prelude.{◌≡◌, ◌+◌, ◌<◌, ◌≤◌, List, [], IfOk, OnOk, OnErr, IfSome, length};
ghost use Rattle.std.specs.List.Sorted.{IsPermutation, IsSortedByKey};
ghost use Rattle.std.specs.Option.{option_copied};
ghost use Rattle.std.specs.Bool.{OnTrue};
ghost use Rattle.oe_tally.specs.Tallies.{total, Adds, SameTotals, EntriesAreTotals};
ghost use Rattle.oe_tally.specs.Tallies.{IsAt, IsSettled, one_per_key, one_per_key_up_to};

use crate::join::Join;
use std::alloc::{AllocError, Global};
use std::marker::Model;

/// Keys with the sum of what was added for each.
#[derive(Drop)]
pub struct Tally<K, V> {
    entries: Vec<(K, V)>,
    // How many entries there were when the tally was last settled.
    apart: usize,
    // The same where a fifth or more were joined then, so that further values may be of their keys.
    front: usize,
}

impl<K, V> Model for Tally<K, V> {
    ghost Value = { List (K × V) };

    ghost view = { λ t. t.entries.items };
}

impl<K: Ord + Copy, V: Join> Tally<K, V> {
    /// Makes a tally to which nothing was added, which takes no memory.
    pub fn new(alloc: Global) -> Self
        ensures { result ≡ [] }
    {
        Tally {
            entries: Vec::new(alloc),
            apart: 0,
            front: 0,
        }
    }

    /// Makes a settled tally of rows.
    pub fn of(alloc: Global, rows: &[(K, V)]) -> Result<Self, AllocError>
        ensures totals { IfOk result (SameTotals K.eq V.joined rows.now) }
        ensures ordered { IfOk result (IsSettled K.cmp) }
    {
        let mut tally = Tally::new(alloc);
        for row in rows {
            if let Err(refused) = tally.add(row.0, row.1) {
                return Err(refused);
            }
        }
        tally.settle();
        Ok(tally)
    }

    /// Adds a value for a key. Where memory is refused, each sum is as before.
    pub fn add(&mut self, key: K, value: V) -> Result<(), AllocError>
        ensures ok { OnOk result (Adds K.eq V.joined self.old self.new key value) }
        ensures err { OnErr result (SameTotals K.eq V.joined self.old self.new) }
    {
        if let Some(at) = self.find(&key) {
            self.entries[at].1 = self.entries[at].1.join(value);
            return Ok(());
        }
        if let Err(refused) = self.make_room() {
            return Err(refused);
        }
        self.push(key, value)
    }

    // Finds an entry of the key, where it is the last one or in the settled front.
    fn find(&self, key: &K) -> Option<usize>
        ensures { IfSome result (IsAt K.eq self.now key.now) }
    {
        let count = self.entries.len();
        if count > 0 && self.entries[count - 1].0 == *key {
            return Some(count - 1);
        }
        find_entry(&self.entries[..self.front.min(count)], key)
    }

    // Makes room for an entry: settles the tally where there may be many to a key, and takes an
    // eighth more memory where the entries fill it.
    fn make_room(&mut self) -> Result<(), AllocError>
        ensures { SameTotals K.eq V.joined self.old self.new }
    {
        let count = self.entries.len();
        if count < self.entries.capacity() {
            return Ok(());
        }
        if count >= 4096 && count / 2 >= self.apart {
            self.join_entries();
        }
        self.grow()
    }

    // Takes an eighth more memory where the entries fill it.
    fn grow(&mut self) -> Result<(), AllocError>
        ensures { self.new ≡ self.old }
    {
        let count = self.entries.len();
        if count < self.entries.capacity() {
            return Ok(());
        }
        self.entries.reserve_exact(count / 8 + 16)
    }

    // Puts an entry behind the others.
    fn push(&mut self, key: K, value: V) -> Result<(), AllocError>
        ensures ok { OnOk result (Adds K.eq V.joined self.old self.new key value) }
        ensures err { OnErr result (self.new ≡ self.old) }
    {
        if let Err(_refused) = self.entries.push((key, value)) {
            return Err(AllocError);
        }
        Ok(())
    }

    /// Brings the entries of each key together, and puts them in the keys' order. No sum changes.
    /// Gives memory back that is not needed.
    pub fn settle(&mut self)
        ensures totals { SameTotals K.eq V.joined self.old self.new }
        ensures ordered { IsSettled K.cmp self.new }
        ensures fewer { length self.new ≤ length self.old }
    {
        self.join_entries();
        self.shrink();
    }

    // The same without giving memory back.
    fn join_entries(&mut self)
        ensures totals { SameTotals K.eq V.joined self.old self.new }
        ensures ordered { IsSettled K.cmp self.new }
        ensures fewer { length self.new ≤ length self.old }
    {
        let before = self.entries.len();
        settle_entries(&mut self.entries);
        self.apart = self.entries.len();
        self.front = if self.apart <= before - before / 5 && before >= 4096 {
            self.apart
        } else {
            0
        };
    }

    // Gives memory back.
    fn shrink(&mut self)
        ensures { self.new ≡ self.old }
    {
        self.entries.shrink_to_fit();
    }

    /// Gives the sum for a key, where something was added for it.
    pub fn get(&self, key: &K) -> Option<&V>
        requires { IsSettled K.cmp self.now }
        ensures { option_copied result ≡ total K.eq V.joined self.now key.now }
    {
        match self.entries.binary_search_by(|entry| entry.0.cmp(key)) {
            Ok(at) => Some(&self.entries[at].1),
            Err(_) => None,
        }
    }

    /// Gives the entries, in the keys' order once the tally is settled.
    pub fn entries(&self) -> &[(K, V)]
        ensures value { result.now ≡ self.now }
        ensures sums { IsSettled K.cmp self.now → EntriesAreTotals K.eq V.joined self.now }
    {
        &self.entries
    }
}

/// The order in which rows are added is in no sum.
pub fn order_is_free<K: Ord + Copy, V: Join>()
    ensures { (rows others : List (K × V)) → IsPermutation rows others
        → SameTotals K.eq V.joined rows others }
{}

// Brings the entries of each key together, in the keys' order.
fn settle_entries<K: Ord + Copy, V: Join>(entries: &mut Vec<(K, V)>)
    ensures totals { SameTotals K.eq V.joined entries.old.items entries.new.items }
    ensures ordered { IsSettled K.cmp entries.new.items }
    ensures fewer { length entries.new.items ≤ length entries.old.items }
{
    if is_settled(entries) {
        return;
    }
    sort(entries);
    join_runs(entries);
}

// Finds the key's entry, where keys ascend. A key behind the last is not looked for.
fn find_entry<K: Ord, V>(entries: &[(K, V)], key: &K) -> Option<usize>
    ensures { IfSome result (IsAt K.eq entries.now key.now) }
{
    if entries.is_empty() || entries[entries.len() - 1].0.cmp(key).is_lt() {
        return None;
    }
    let at = place_of(entries, key);
    if entries[at].0 == *key {
        return Some(at);
    }
    None
}

// Gives where the key's entry is, if there is one and keys ascend.
fn place_of<K: Ord, V>(entries: &[(K, V)], key: &K) -> usize
    requires { 0 < length entries.now }
    ensures { result < length entries.now }
{
    let mut low = 0usize;
    let mut size = entries.len();
    while size > 1 {
        let half = size / 2;
        let is_greater = entries[low + half].0.cmp(key).is_gt();
        low = if is_greater { low } else { low + half };
        size -= half;
    }
    low
}

// Whether the keys ascend.
fn is_settled<K: Ord, V>(entries: &[(K, V)]) -> bool
    ensures { OnTrue result (IsSettled K.cmp entries.now) }
{
    entries.is_sorted_by(|first, second| first.0.cmp(&second.0).is_lt())
}

// Puts entries in the keys' order.
fn sort<K: Ord + Copy, V>(entries: &mut Vec<(K, V)>)
    ensures moved { IsPermutation entries.old.items entries.new.items }
    ensures ordered { IsSortedByKey (λ e. e.0) K.cmp entries.new.items }
{
    entries.sort_unstable_by_key(|entry| entry.0);
}

// Joins the entry at `at` to the one at `last`, or puts it behind that. Gives the last place then.
fn join_next<K: Ord + Copy, V: Join>(entries: &mut Vec<(K, V)>, last: usize, at: usize) -> usize
    requires before { last < at }
    requires within { at < length entries.old.items }
    ensures before { result ≤ at }
    ensures length { length entries.new.items ≡ length entries.old.items }
    ensures joins { one_per_key_up_to K.eq V.joined entries.new.items result (at + 1)
        ≡ one_per_key_up_to K.eq V.joined entries.old.items last at }
{
    let entry = entries[at];
    if entry.0 == entries[last].0 {
        entries[last].1 = entries[last].1.join(entry.1);
        return last;
    }
    entries[last + 1] = entry;
    last + 1
}

// Joins neighbours of one key.
fn join_runs<K: Ord + Copy, V: Join>(entries: &mut Vec<(K, V)>)
    ensures { entries.new.items ≡ one_per_key K.eq V.joined entries.old.items }
{
    if entries.len() < 2 {
        return;
    }
    let mut last = 0usize;
    for at in 1..entries.len() {
        last = join_next(entries, last, at);
    }
    entries.truncate(last + 1);
}

#[cfg(test)]
mod tests {
    use crate::count::Count;
    use crate::tally::Tally;
    use std::alloc::AllocError;

    #[test]
    fn sums_in_any_order(rt: HostRuntime) -> Result<(), AllocError> {
        let mut tally: Tally<(u32, u8), Count> = Tally::new(rt.alloc());
        tally.add((2, 1), Count { rows: 5 })?;
        tally.add((2, 1), Count { rows: 7 })?;
        tally.add((1, 9), Count { rows: 11 })?;
        tally.add((2, 1), Count { rows: 13 })?;
        tally.add((1, 3), Count { rows: 40 })?;
        tally.add((1, 3), Count::one())?;
        assert_eq!(rt; tally.entries().len(), 4);
        tally.settle();
        assert_eq!(rt; tally.entries().len(), 3);
        assert!(rt; tally.entries()[0].0 == (1, 3));
        assert!(rt; tally.get(&(1, 3)) == Some(&Count { rows: 41 }));
        assert!(rt; tally.get(&(2, 1)) == Some(&Count { rows: 25 }));
        assert!(rt; tally.get(&(1, 4)).is_none());
        Ok(())
    }

    #[test]
    fn takes_little_memory(rt: HostRuntime) -> Result<(), AllocError> {
        let mut tally: Tally<u32, Count> = Tally::new(rt.alloc());
        for i in 0..40_000u32 {
            tally.add(i % 3, Count::one())?;
        }
        assert!(rt; tally.entries().len() <= 8192);
        tally.settle();
        assert!(rt; tally.get(&1) == Some(&Count { rows: 13_333 }));
        Ok(())
    }
}
