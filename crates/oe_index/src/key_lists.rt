//! Keys in their order, of which a single one may take no memory of its own.
//!
//! Only `put` takes memory; where that is refused the list is as before.
ghost use Rattle.std.specs.Prelude.{◌≡◌, ◌↔◌, Some, None, Option, [], ◌∷◌, OnOk, OnErr, IfOk, IfSome, IfNone, IsSome, IsTrue};
ghost use Rattle.oe_table.specs.Table.{place};
ghost use Rattle.oe_table.specs.Shelf.{IsAscending, put_at, without};
ghost use Rattle.oe_index.specs.Listed.{alone};

use oe_table::shelf::{Shelf, Slot};
use oe_values::{NoMemory, ShelvedKey};
use std::alloc::Global;
use std::cmp::Ordering;
use std::marker::Model;
use std::slice::Iter;

/// Keys in their order.
#[derive(Drop)]
pub(crate) struct KeyList<K> {
    // The only key, where it takes no memory of its own.
    single: Option<K>,
    // All keys, where there is no such key.
    several: Shelf<K, ()>,
}

impl<K> Model for KeyList<K> {
    ghost use Rattle.std.specs.Prelude.{List, Option};
    ghost use Rattle.oe_index.specs.Listed.{single_or};

    ghost Value = { List (K × Option (Unit {0})) };

    ghost view = { λ l. single_or l.single l.several };
}

/// Lists two keys, of which neither is the other.
#[inline(never)]
fn pair<K: ShelvedKey + Copy + Drop>(
    alloc: Global,
    first: K,
    second: K,
) -> Result<Shelf<K, ()>, NoMemory>
    ensures { IfOk result (λ s. s ≡ put_at K.cmp (alone first) second (Some tt)) }
{
    let mut keys = Shelf::empty(alloc);
    if let Err(refusal) = keys.put(first, ()) {
        return Err(refusal);
    }
    if let Err(refusal) = keys.put(second, ()) {
        return Err(refusal);
    }
    Ok(keys)
}

// Whether a key is among slots whose keys ascend.
fn is_among<K: ShelvedKey>(slots: &[Slot<K, ()>], key: &K) -> bool
    requires { IsAscending K.cmp slots.now }
    ensures { IsTrue result ↔ IsSome (place K.cmp slots.now key.now) }
{
    let found = slots.binary_search_by(
        |slot: &Slot<K, ()>| -> Ordering
            ensures { result ≡ K.cmp slot.now.0 key.entry.now }
        { slot.parts().0.cmp(key) },
    );
    found.is_ok()
}

impl<K> KeyList<K> {
    /// Makes a list without a key, which takes no memory.
    #[inline(always)]
    pub(crate) fn empty(alloc: Global) -> Self
        ensures { result ≡ [] }
    {
        KeyList {
            single: None,
            several: Shelf::empty(alloc),
        }
    }

    /// Gives a walk over its keys, in their order.
    pub(crate) fn keys(&self) -> KeyWalk<'_, K>
        ensures { result ≡ self.now }
    {
        match &self.single {
            Some(key) => KeyWalk::over(key),
            None => KeyWalk {
                single: None,
                several: self.several.slots().iter(),
            },
        }
    }
}

impl<K: ShelvedKey + Copy + Drop> KeyList<K> {
    /// Lists a key. Where it is listed already, nothing changes, and no memory is asked for. A
    /// first key takes memory, with room for more, unless single keys are kept in their lists.
    pub(crate) fn put(&mut self, alloc: Global, keeps_single: bool, key: K) -> Result<(), NoMemory>
        requires { IsAscending K.cmp self.old }
        ensures ok { OnOk result (self.new ≡ put_at K.cmp self.old key (Some tt)) }
        ensures err { OnErr result (self.new ≡ self.old) }
        ensures no_place { OnErr result (place K.cmp self.old key ≡ None) }
    {
        if let Some(single) = self.single {
            if key.cmp(&single).is_eq() {
                return Ok(());
            }
            match pair(alloc, single, key) {
                Ok(keys) => {
                    self.several = keys;
                    self.single = None;
                    return Ok(());
                }
                Err(refusal) => return Err(refusal),
            }
        }
        if keeps_single && self.several.slots().is_empty() {
            self.single = Some(key);
            return Ok(());
        }
        self.several.put(key, ())
    }

    /// Tells whether a key is listed.
    pub(crate) fn has(&self, key: &K) -> bool
        requires { IsAscending K.cmp self.now }
        ensures { IsTrue result ↔ IsSome (place K.cmp self.now key.now) }
    {
        let Some(single) = self.single else {
            return is_among(self.several.slots(), key);
        };
        key.cmp(&single).is_eq()
    }

    /// Takes a key off. Where it is not listed, nothing changes.
    pub(crate) fn take_out(&mut self, alloc: Global, key: &K)
        requires { IsAscending K.cmp self.old }
        ensures { self.new ≡ without K.cmp self.old key.now }
    {
        let Some(single) = self.single else {
            self.several.take_out(key);
            return;
        };
        if key.cmp(&single).is_eq() {
            *self = KeyList::empty(alloc);
        }
    }
}

/// Keys that are left of a walk, in their order.
#[derive(Drop)]
pub(crate) struct KeyWalk<'a, K> {
    single: Option<&'a K>,
    several: Iter<'a, Slot<K, ()>>,
}

impl<'a, K> Model for KeyWalk<'a, K> {
    ghost use Rattle.std.specs.Prelude.{List, Option};
    ghost use Rattle.std.specs.Option.{option_copied};
    ghost use Rattle.std.specs.Slice.Iter.{iter_rest};
    ghost use Rattle.oe_index.specs.Listed.{single_before};

    ghost Value = { List (K × Option (Unit {0})) };

    ghost view = { λ w. single_before (option_copied w.single) (iter_rest w.several) };
}

impl<'a, K> KeyWalk<'a, K> {
    /// Makes a walk over no key.
    pub(crate) fn none() -> Self
        ensures { result ≡ [] }
    {
        let none: &[Slot<K, ()>] = &[];
        KeyWalk {
            single: None,
            several: none.iter(),
        }
    }

    /// Makes a walk over a key.
    fn over(key: &'a K) -> Self
        ensures { result ≡ alone key.now }
    {
        let none: &[Slot<K, ()>] = &[];
        KeyWalk {
            single: Some(key),
            several: none.iter(),
        }
    }

    /// Gives the next key, where there is one.
    pub(crate) fn next(&mut self) -> Option<&'a K>
        ensures next { IfSome result
            (λ k. (v : Option (Unit {0})) × (self.old ≡ (k.now, v) ∷ self.new)) }
        ensures none { IfNone result (self.old ≡ []) }
        ensures over { IfNone result (self.new ≡ []) }
    {
        let single = self.single.take();
        if single.is_some() {
            return single;
        }
        match self.several.next() {
            Some(slot) => Some(slot.parts().0),
            None => None,
        }
    }
}
