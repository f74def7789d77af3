//! Keys that are listed under numbers, each list in the keys' order.
//!
//! By the invariant the keys of each list ascend. A key is listed once under a number, until it is
//! taken off. Only `add` takes memory, for a key that is not listed; where that is refused all lists
//! are as before.
ghost use Rattle.std.specs.Prelude.{◌≡◌, ◌↔◌, ◌<◌, ◌≤◌, ℕ, [], ◌++◌, replicate, vec_len, OnOk, OnErr, IsTrue, slice_index_or};
ghost use Rattle.oe_table.specs.Shelf.{IsAscending};
ghost use Rattle.oe_index.specs.Listed.{IsListed, ListsAtMost, Unlists};

use crate::key_lists::{KeyList, KeyWalk};
use oe_values::{NoMemory, ShelvedKey};
use std::alloc::Global;
use std::marker::Model;

/// Keys under numbers. A few words are kept for each number up to the last that has a list.
#[derive(Drop)]
pub(crate) struct Lists<K: ShelvedKey> {
    lists: Vec<KeyList<K>>,
    alloc: Global,
    // Whether a key that is alone takes no memory of its own. It pays where few lists get another.
    keeps_singles: bool,
}

impl<K: ShelvedKey> Model for Lists<K> {
    ghost use Rattle.std.specs.Prelude.{List, Option};
    ghost use Rattle.oe_index.specs.Listed.{AreLists};

    ghost Value = { List (List (K × Option (Unit {0}))) };

    ghost view = { λ l. l.lists.items };

    ghost invariant = { λ l. AreLists K.cmp l.lists.items };
}

/// Puts empty lists after the others, until there is one of a number below 1,000,000.
fn reach<K: Drop>(lists: &mut Vec<KeyList<K>>, alloc: Global, number: usize) -> Result<(), NoMemory>
    requires { number < 1_000_000 }
    ensures padded { (n : ℕ) × (lists.new.items ≡ lists.old.items ++ replicate n []) }
    ensures reached { OnOk result (number < vec_len lists.new) }
    ensures short { OnErr result (vec_len lists.old ≤ number) }
{
    while lists.len() <= number {
        let list = KeyList::empty(alloc);
        if let Err(_refused) = lists.push(list) {
            return Err(NoMemory);
        }
    }
    Ok(())
}

impl<K: ShelvedKey> Lists<K> {
    /// Makes a value without lists, and takes no memory. It keeps a single key in its list or not.
    pub(crate) fn new(alloc: Global, keeps_singles: bool) -> Self
        ensures { result ≡ [] }
    {
        Lists {
            lists: Vec::new(alloc),
            alloc,
            keeps_singles,
        }
    }

    /// Gives a walk over the keys under a number, in their order.
    pub(crate) fn under(&self, number: usize) -> KeyWalk<'_, K>
        ensures listed { result ≡ slice_index_or self.now number [] }
        ensures ordered { IsAscending K.cmp result }
    {
        let Some(list) = self.lists.get(number) else {
            return KeyWalk::none();
        };
        list.keys()
    }

    /// Tells whether a key is listed under a number.
    pub(crate) fn has(&self, number: usize, key: &K) -> bool
    where
        K: Copy + Drop,
        ensures { IsTrue result ↔ IsListed K.cmp self.now number key.now }
    {
        let Some(list) = self.lists.get(number) else {
            return false;
        };
        list.has(key)
    }

    /// Lists a key under a number. `NoMemory` comes only for a key that is not listed there, and
    /// nothing has changed then.
    pub(crate) fn add(&mut self, number: usize, key: K) -> Result<(), NoMemory>
    where
        K: Copy + Drop,
        requires { number < 1_000_000 }
        ensures lists { ListsAtMost K.cmp self.old self.new number key }
        ensures listed { OnOk result (IsListed K.cmp self.new number key) }
        ensures unlisted { OnErr result (¬ IsListed K.cmp self.old number key) }
        ensures refused { OnErr result (¬ IsListed K.cmp self.new number key) }
        ensures err { OnErr result (self.new ≡ self.old) }
    {
        let count = self.lists.len();
        let Err(refusal) = self.put(number, key) else {
            return Ok(());
        };
        self.lists.truncate(count);
        Err(refusal)
    }

    // Lists a key under a number. Where memory is refused, empty lists may stand after the others.
    fn put(&mut self, number: usize, key: K) -> Result<(), NoMemory>
    where
        K: Copy + Drop,
        requires { number < 1_000_000 }
        ensures lists { ListsAtMost K.cmp self.old self.new number key }
        ensures listed { OnOk result (IsListed K.cmp self.new number key) }
        ensures unlisted { OnErr result (¬ IsListed K.cmp self.old number key) }
        ensures padded { OnErr result ((n : ℕ) × (self.new ≡ self.old ++ replicate n [])) }
    {
        if let Err(refusal) = reach(&mut self.lists, self.alloc, number) {
            return Err(refusal);
        }
        self.lists[number].put(self.alloc, self.keeps_singles, key)
    }

    /// Takes a key off the list under a number. Where it is not listed there, nothing changes.
    pub(crate) fn remove(&mut self, number: usize, key: &K)
    where
        K: Copy + Drop,
        ensures { Unlists K.cmp self.old self.new number key.now }
    {
        let Some(list) = self.lists.get_mut(number) else {
            return;
        };
        list.take_out(self.alloc, key);
    }
}
