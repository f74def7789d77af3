//! A list whose first elements are taken out in constant time.
//!
//! A first element that is taken out is only counted, and stays in memory. When those are half of
//! all, one pass takes them away; so to take out n first elements costs in proportion to n. Only
//! `insert` and `push` take memory.
ghost use Rattle.std.specs.Prelude.{◌≡◌, ◌<◌, ◌≤◌, List, [], ◌∷◌, ◌++◌, OnOk, OnErr, length, drop, slice_index_or};
ghost use Rattle.std.specs.List.{insert, remove};
ghost use Rattle.std.specs.List.Retain.{IsFiltered};
ghost use Rattle.std.specs.Fn.{CalledAt};
ghost use Rattle.std.specs.Borrow.{sem};

use oe_values::NoMemory;
use std::alloc::Global;
use std::marker::Model;

/// A list of elements.
#[derive(Drop)]
pub struct FrontVec<T> {
    all: Vec<T>,
    // So many of them, at the beginning, were taken out.
    gone: usize,
}

impl<T> Model for FrontVec<T> {
    ghost Value = { List T };

    ghost view = { λ v. drop v.gone v.all.items };

    ghost invariant = { λ v. v.gone ≤ length v.all.items };
}

// Takes elements at the beginning away, in one pass.
fn cut_front<T: Drop>(all: &mut Vec<T>, count: usize)
    requires { count ≤ length all.old.items }
    ensures { all.new.items ≡ drop count all.old.items }
{
    let kept = all.len() - count;
    all.rotate_left(count);
    all.truncate(kept);
}

impl<T> FrontVec<T> {
    ghost use Rattle.oe_table.specs.FrontVecLends.{lends_item};

    /// Makes a list without an element, which takes no memory.
    pub(crate) fn new(alloc: Global) -> Self
        ensures { result ≡ [] }
    {
        FrontVec {
            all: Vec::new(alloc),
            gone: 0,
        }
    }

    /// Gives the elements.
    #[inline(always)]
    pub(crate) fn as_slice(&self) -> &[T]
        ensures { result.now ≡ self.now }
    {
        &self.all[self.gone..]
    }

    /// Gives the element at an index, to be changed there.
    #[inline(always)]
    pub(crate) fn item_mut(&mut self, at: usize) -> &mut T
        requires { at < length self.old }
        ensures* writes_back { sem 𝓛 (lends_item T.row self.entry at result) }
        ensures value { result.now ≡ slice_index_or self.old at result.now }
    {
        &mut self.all[self.gone + at]
    }
}

impl<T: Drop> FrontVec<T> {
    /// Takes memory for so many elements more. It changes nothing, also where memory is refused.
    pub(crate) fn reserve(&mut self, more: usize) -> Result<(), NoMemory>
        ensures { self.new ≡ self.old }
    {
        if let Err(_refused) = self.all.reserve(more) {
            return Err(NoMemory);
        }
        Ok(())
    }

    /// Puts an element before the one at an index. Where memory is refused, the list is as before.
    pub(crate) fn insert(&mut self, at: usize, item: T) -> Result<(), NoMemory>
        requires { at ≤ length self.old }
        ensures ok { OnOk result (self.new ≡ insert self.old at item) }
        ensures err { OnErr result (self.new ≡ self.old) }
    {
        if let Err(_refused) = self.all.insert(self.gone + at, item) {
            return Err(NoMemory);
        }
        Ok(())
    }

    /// Puts an element after the others. Where memory is refused, the list is as before.
    #[inline(always)]
    pub(crate) fn push(&mut self, item: T) -> Result<(), NoMemory>
        ensures ok { OnOk result (self.new ≡ self.old ++ item ∷ []) }
        ensures err { OnErr result (self.new ≡ self.old) }
    {
        if let Err(_refused) = self.all.push(item) {
            return Err(NoMemory);
        }
        Ok(())
    }

    /// Takes the element at an index out.
    pub(crate) fn remove(&mut self, at: usize)
        requires { at < length self.old }
        ensures { self.new ≡ remove self.old at }
    {
        if at == 0 {
            return self.remove_first();
        }
        self.all.remove(self.gone + at);
    }

    // Takes the first element out.
    fn remove_first(&mut self)
        requires { 0 < length self.old }
        ensures { self.new ≡ remove self.old 0 }
    {
        self.gone += 1;
        if self.all.len() - self.gone <= self.gone {
            self.compact();
        }
    }

    // Takes those away that are only counted.
    fn compact(&mut self)
        ensures { self.new ≡ self.old }
    {
        cut_front(&mut self.all, self.gone);
        self.gone = 0;
    }

    /// Takes those elements out that the test does not keep.
    pub(crate) fn retain<F: FnMut(&T) -> bool>(&mut self, keeps: F)
        requires { F.IsAlwaysCallable keeps }
        ensures { IsFiltered (CalledAt F.FnMut) keeps self.old self.new }
    {
        cut_front(&mut self.all, self.gone);
        self.gone = 0;
        self.all.retain(keeps);
    }
}
