//! The ring: a pool of extents, and the lists of extents that were filled from it, one for each
//! slot and each commit.
//!
//! Strings are packed: each stands behind the one before it, or, where the rest of its extent is
//! too short, begins another extent. By the invariant each extent is free or in one list, and the
//! extents of a list are as many as its strings fill in order; so whether a string has room follows
//! from the lengths of strings alone. All memory for strings is taken by `new`, and room for the
//! strings of commits by `reserve`; these two may be refused memory. `push` is refused exactly
//! where the ring is full, and changes nothing then. No other call can be refused.
ghost use Rattle.std.specs.Prelude.{◌≡◌, ◌<◌, ◌≤◌, ◌+◌, ◌↔◌, [], length, get_or, replicate, IsErr, IfOk, OnOk, OnErr};
ghost use Rattle.oe_extent.specs.declared.sizes.TheConstants.{EXTENT_BYTES};
ghost use Rattle.oe_extent.specs.Strings.{IsFramed};
ghost use Rattle.oe_extent.specs.Ring.{used_of, IsFull, IsFresh, IsNextAddress, no_strings, with_string_at, without_string_at, after_seal_at, after_reopening_at, newest_bytes, strings_of, without_oldest, capacity_of, HasAddress, IsStringAt};

use crate::extents::{Address, ExtentList};
use crate::images::Written;
use crate::pools::Pool;
use crate::walks::Strings;
use oe_values::ExtentCount;
use std::alloc::{AllocError, Global};
use std::collections::VecDeque;
use std::marker::Model;

/// The string fits neither the rest of its slot's newest extent nor a free extent.
#[derive(Clone, Copy)]
pub struct Full;

/// Byte strings in extents of 4,096 bytes, by slot and by commit.
#[derive(Drop)]
pub struct Ring {
    pool: Pool,
    // By slot.
    active: Vec<ExtentList>,
    // The newest first.
    committed: VecDeque<ExtentList>,
}

impl Model for Ring {
    ghost use Rattle.std.specs.Prelude.{◌-◌, length, map};
    ghost use Rattle.std.specs.VecDeque.{deque_len, deque_capacity};
    ghost use Rattle.oe_extent.specs.Ring.{RingStrings};
    ghost use Rattle.oe_extent.specs.Kept.{addressed_of, IsRing};

    ghost Value = { RingStrings };

    ghost view = { λ r. record {
      extents = length r.pool.is_free;
      active = map addressed_of r.active.items;
      committed = map addressed_of r.committed.items;
      room = deque_capacity r.committed - deque_len r.committed;
      pool = r.pool;
    } };

    ghost invariant = { λ r. IsRing r.pool.is_free r.active.items r.committed.items };
}

/// Makes `count` lists without extents.
fn empty_lists(alloc: Global, count: usize) -> Result<Vec<ExtentList>, AllocError>
    ensures { IfOk result (λ v. v.items ≡ replicate count []) }
{
    let mut lists = Vec::with_capacity(alloc, count)?;
    for _ in 0..count {
        lists.push_reserved(ExtentList::new());
    }
    Ok(lists)
}

impl Ring {
    /// Makes a ring of `extents` extents and `slots` slots without strings; an error where memory
    /// is refused.
    pub fn new(alloc: Global, extents: ExtentCount, slots: usize) -> Result<Ring, AllocError>
        ensures { IfOk result (λ r. r ≡ record (no_strings extents slots) { room = r.room }) }
    {
        let pool = Pool::new(alloc, extents)?;
        let active = empty_lists(alloc, slots)?;
        Ok(Ring {
            pool,
            active,
            committed: VecDeque::new(alloc),
        })
    }

    /// Tells how many extents there are. All strings fill no more.
    pub fn extents(&self) -> usize
        ensures value { result ≡ self.now.extents }
        ensures used { used_of self.now ≤ result }
    {
        self.pool.len()
    }

    /// Makes room for `additional` commits more; an error where memory is refused.
    pub fn reserve(&mut self, additional: usize) -> Result<(), AllocError>
        ensures same { self.new ≡ record self.old { room = self.new.room } }
        ensures room { OnOk result (additional ≤ self.new.room) }
        ensures more { self.old.room ≤ self.new.room }
    {
        self.committed.reserve(additional)
    }

    /// Gives a slot's strings to a commit, the newest from then on, and leaves the slot none.
    pub fn seal(&mut self, slot: usize)
        requires slot { slot < length self.old.active }
        requires room { 0 < self.old.room }
        ensures sealed { self.new ≡ record (after_seal_at self.old slot) { room = self.new.room } }
        ensures room { self.new.room + 1 ≡ self.old.room }
    {
        let list = std::mem::replace(&mut self.active[slot], ExtentList::new());
        self.committed.push_front_reserved(list);
    }

    /// Gives the newest commit's strings to a slot that has none. There is room for a commit more.
    pub fn reopen_newest(&mut self, slot: usize)
        requires slot { slot < length self.old.active }
        requires empty { get_or self.old.active slot [] ≡ [] }
        requires some { 0 < length self.old.committed }
        ensures reopened { self.new ≡ record (after_reopening_at self.old slot)
            { room = self.new.room } }
        ensures room { capacity_of self.new ≡ capacity_of self.old }
    {
        let newest = self.committed.pop_front();
        let Some(list) = newest else { unreachable!() };
        self.active[slot] = list;
    }

    /// Appends a string of 4 to 4,096 bytes to a slot's strings, and answers its address, where no
    /// other string is. Where the rest of the slot's newest extent is too short, it takes the next
    /// free extent from the cursor on, and behind the last from 0 on.
    pub fn push<S: Written>(&mut self, slot: usize, string: &S) -> Result<Address, Full>
        requires slot { slot < length self.old.active }
        requires framed { IsFramed (S.image string.now) }
        requires small { length (S.image string.now) ≤ EXTENT_BYTES }
        ensures pushed { IfOk result (λ a.
            self.new ≡ with_string_at self.old slot a (S.image string.now)) }
        ensures same { OnErr result (self.new ≡ self.old) }
        ensures next { IfOk result (IsNextAddress self.old slot (length (S.image string.now))) }
        ensures full { IsErr result ↔ IsFull self.old slot (length (S.image string.now)) }
        ensures fresh { IfOk result (IsFresh self.old) }
    {
        if let Some(address) = self.active[slot].push(string) {
            return Ok(address);
        }
        let Some(extent) = self.pool.take() else {
            return Err(Full);
        };
        Ok(self.active[slot].push_new(extent, string))
    }

    /// Gives the newest string of a slot, where it stands.
    pub fn newest(&self, slot: usize) -> &[u8]
        requires slot { slot < length self.now.active }
        requires some { 0 < length (get_or self.now.active slot []) }
        ensures { newest_bytes (get_or self.now.active slot []) ≡ result.now }
    {
        self.active[slot].newest()
    }

    /// Gives the string at that address of a slot, where it stands.
    pub fn at(&self, slot: usize, address: Address) -> &[u8]
        requires slot { slot < length self.now.active }
        requires some { HasAddress (get_or self.now.active slot []) address }
        ensures { IsStringAt (get_or self.now.active slot []) address result.now }
    {
        self.active[slot].at(address)
    }

    /// Gives the string at that address of a commit, where it stands. The newest commit has number
    /// 0, and each older one the next number.
    pub fn committed_at(&self, commit: usize, address: Address) -> &[u8]
        requires commit { commit < length self.now.committed }
        requires some { HasAddress (get_or self.now.committed commit []) address }
        ensures { IsStringAt (get_or self.now.committed commit []) address result.now }
    {
        self.committed[commit].at(address)
    }

    /// Gives the strings of a slot, the newest first, where they stand. It takes no memory.
    pub fn strings(&self, slot: usize) -> Strings<'_>
        requires { slot < length self.now.active }
        ensures { result ≡ strings_of (get_or self.now.active slot []) }
    {
        self.active[slot].strings()
    }

    /// Gives the strings of a commit, the newest first, where they stand. The newest commit has
    /// number 0, and each older one the next number. It takes no memory.
    pub fn committed_strings(&self, commit: usize) -> Strings<'_>
        requires { commit < length self.now.committed }
        ensures { result ≡ strings_of (get_or self.now.committed commit []) }
    {
        self.committed[commit].strings()
    }

    /// Takes the newest string of a slot off. Where it was the only one of its extent, that is free
    /// again.
    pub fn pop(&mut self, slot: usize)
        requires slot { slot < length self.old.active }
        requires some { 0 < length (get_or self.old.active slot []) }
        ensures { self.new ≡ without_string_at self.old slot }
    {
        let emptied = self.active[slot].pop();
        if let Some(extent) = emptied {
            self.pool.give(extent);
        }
    }

    /// Gives up the oldest commit's strings, where there is one. Its extents are free again, and
    /// there is room for a commit more.
    pub fn drop_oldest(&mut self)
        ensures left { self.new ≡ without_oldest self.old self.new.room }
        ensures room { capacity_of self.new ≡ capacity_of self.old }
    {
        let taken = self.committed.pop_back();
        if let Some(list) = taken {
            self.pool.give_all(list);
        }
    }
}
