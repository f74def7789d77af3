//! The extents that no list has.
//!
//! All extents are made with the pool. A free one lies at its number, and one that was taken leaves
//! `None` there; by the invariant they are counted, so that a pool without a free one is seen at
//! once. Only `new` takes memory, and may be refused it; that no extent is free is no error, and
//! changes nothing.
ghost use Rattle.std.specs.Prelude.{◌≡◌, ◌<◌, ◌≤◌, ℕ, true, length, map, is_some, replicate, set, IfOk, IfSome, IfNone};
ghost use Rattle.std.specs.List.{AllByRecursion};
ghost use Rattle.oe_extent.specs.Free.{AllTaken, IsFirstFree, IsNextFree, without_free_at, with_free_at, with_all_free};
ghost use Rattle.oe_extent.specs.Extents.{number_of, numbers_of, IsEmptyExtent};

use crate::extents::{Extent, ExtentList};
use oe_values::ExtentCount;
use oe_values::numbers::Number;
use std::alloc::{AllocError, Global};
use std::marker::Model;

/// The extents that are free, by number, and where the search for the next one begins.
#[derive(Drop)]
pub(crate) struct Pool {
    extents: Vec<Option<Box<Extent>>>,
    free_count: usize,
    cursor: usize,
    // What the touch of the last extent taken answered: it means nothing, and is kept so that no
    // compiler leaves the touch out.
    touched: u8,
}

impl Model for Pool {
    ghost use Rattle.std.specs.Prelude.{map, is_some};
    ghost use Rattle.oe_extent.specs.Free.{FreeExtents, IsPool};
    ghost use Rattle.oe_extent.specs.Extents.{LieAtNumbers};

    ghost Value = { FreeExtents };

    ghost view = { λ p. record { is_free = map is_some p.extents.items; cursor = p.cursor } };

    ghost invariant = { λ p. IsPool (map is_some p.extents.items) p.free_count p.cursor
        × LieAtNumbers p.extents.items };
}

/// Gives the least number from `from` up to `to` of a free extent, where there is one.
#[tactic(auto, using(crate::proofs::PoolFacts::some_at, crate::proofs::PoolFacts::taken_more))]
fn first_free(extents: &[Option<Box<Extent>>], from: usize, to: usize) -> Option<usize>
    requires { to ≤ length extents.now }
    ensures some { IfSome result (IsFirstFree (map is_some extents.now) from to) }
    ensures none { IfNone result (AllTaken (map is_some extents.now) from to) }
{
    for i in from..to {
        if extents[i].is_some() {
            return Some(i);
        }
    }
    None
}

/// Gives the number of the next free extent from the cursor on, and behind the last from 0 on;
/// `None` where none is free.
fn next_free(extents: &[Option<Box<Extent>>], cursor: usize) -> Option<usize>
    requires { cursor ≤ length extents.now }
    ensures next { IfSome result (IsNextFree (map is_some extents.now) cursor) }
    ensures within { IfSome result (λ n. n < length extents.now) }
    ensures none { IfNone result (AllTaken (map is_some extents.now) 0 (length extents.now)) }
{
    match first_free(extents, cursor, extents.len()) {
        Some(number) => Some(number),
        None => first_free(extents, 0, cursor),
    }
}

impl Pool {
    /// Makes `count` extents, all free, numbered from 0; an error where memory is refused.
    pub(crate) fn new(alloc: Global, count: ExtentCount) -> Result<Pool, AllocError>
        ensures free { IfOk result (λ p. p.is_free ≡ replicate count true) }
        ensures cursor { IfOk result (λ p. p.cursor ≡ 0) }
    {
        let count = count.get();
        let mut extents = Vec::with_capacity(alloc, count as usize)?;
        for number in 0..count {
            let number = Number::new(number).unwrap();
            extents.push_reserved(Some(Extent::new(alloc, number)?));
        }
        Ok(Pool {
            extents,
            free_count: count as usize,
            cursor: 0,
            touched: 0,
        })
    }

    /// Tells how many extents it was made with, whether they are free or taken.
    #[tactic(auto, using(crate::proofs::PoolFacts::as_many))]
    pub(crate) fn len(&self) -> usize
        ensures { result ≡ length self.now.is_free }
    {
        self.extents.len()
    }

    /// Takes the next free extent from the cursor on, and behind the last from 0 on. `None` where
    /// none is free.
    #[inline(never)]
    pub(crate) fn take(&mut self) -> Option<Box<Extent>>
        ensures next { IfSome result (λ e.
            IsNextFree self.old.is_free self.old.cursor (number_of e.value)) }
        ensures fresh { IfSome result (λ e. IsEmptyExtent e.value) }
        ensures taken { IfSome result (λ e. self.new
            ≡ without_free_at self.old (number_of e.value)) }
        ensures none { IfNone result (AllTaken self.old.is_free 0 (length self.old.is_free)) }
        ensures same { IfNone result (self.new ≡ self.old) }
    {
        if self.free_count == 0 {
            return None;
        }
        let found = next_free(self.extents.as_slice(), self.cursor)?;
        let taken = self.extents[found].take();
        let Some(extent) = taken else { unreachable!() };
        self.free_count -= 1;
        self.cursor = found + 1;
        self.touched = extent.strings.touch();
        Some(extent.cleared())
    }

    /// Gives an extent back.
    pub(crate) fn give(&mut self, extent: Box<Extent>)
        requires { number_of extent.value < length self.old.is_free }
        ensures { self.new ≡ with_free_at self.old (number_of extent.value) }
    {
        let number = extent.number().get() as usize;
        let before = self.extents[number].replace(extent);
        if before.is_none() {
            self.free_count += 1;
        }
    }

    /// Gives all extents of a list back.
    pub(crate) fn give_all(&mut self, list: ExtentList)
        requires { AllByRecursion (λ e. e < length self.old.is_free) (numbers_of list) }
        ensures { self.new ≡ with_all_free self.old (numbers_of list) }
    {
        let mut list = list;
        while let Some(extent) = list.take_newest() {
            self.give(extent);
        }
    }
}
