//! Walks over a table of shelves in the keys' order, which take no memory.
//!
//! A walk is seen as the list of what is left of it: `Slots` of all places, `Rows` of those that
//! have a row, `Candidates` of all places with their rows. Nothing can fail.
ghost use Rattle.std.specs.Prelude.{Option, List, ◌++◌};
ghost use Rattle.std.specs.Iterator.{YieldsFirstBy, item_count};
ghost use Rattle.std.specs.Slice.Iter.{iter_rest};
ghost use Rattle.std.specs.Option.{option_copied};
ghost use Rattle.oe_table.specs.Table.{live};
ghost use Rattle.oe_table.specs.Shelf.{whole_list};

use crate::shelf::{Shelf, Slot};
use std::marker::Model;
use std::slice::Iter;

/// The keys between two places of a table, with what stands at each: what is left of the first
/// shelf, the shelves after it, and the beginning of the last.
#[derive(Drop)]
pub(crate) struct Slots<'a, K, R> {
    pub(crate) front: Iter<'a, Slot<K, R>>,
    pub(crate) shelves: Iter<'a, Shelf<K, R>>,
    pub(crate) back: Iter<'a, Slot<K, R>>,
}

impl<'a, K, R> Model for Slots<'a, K, R> {
    ghost Value = { List (K × Option R) };

    ghost view = { λ it. iter_rest it.front
        ++ (whole_list (iter_rest it.shelves) ++ iter_rest it.back) };
}

impl<'a, K, R> Iterator for Slots<'a, K, R> {
    type Item = (&'a K, &'a Option<R>);

    ghost next_gives = { YieldsFirstBy (λ p. (p.0.now, p.1.now)) (λ it. it) };

    ghost remaining = { item_count (λ it. it) };

    fn next(&mut self) -> Option<(&'a K, &'a Option<R>)> {
        if let Some(slot) = self.front.next() {
            return Some(slot.parts());
        }
        while let Some(shelf) = self.shelves.next() {
            self.front = shelf.slots().iter();
            if let Some(slot) = self.front.next() {
                return Some(slot.parts());
            }
        }
        match self.back.next() {
            Some(slot) => Some(slot.parts()),
            None => None,
        }
    }
}

/// The rows of a table, or of a range of its keys, with their keys, in the keys' order.
#[derive(Drop)]
pub struct Rows<'a, K, R> {
    pub(crate) slots: Slots<'a, K, R>,
}

impl<'a, K, R> Model for Rows<'a, K, R> {
    ghost Value = { List (K × R) };

    ghost view = { λ it. live it.slots };
}

impl<'a, K, R> Iterator for Rows<'a, K, R> {
    type Item = (&'a K, &'a R);

    ghost next_gives = { YieldsFirstBy (λ p. (p.0.now, p.1.now)) (λ it. it) };

    ghost remaining = { item_count (λ it. it) };

    fn next(&mut self) -> Option<(&'a K, &'a R)> {
        while let Some((key, content)) = self.slots.next() {
            if let Some(row) = content {
                return Some((key, row));
            }
        }
        None
    }
}

/// The keys of a range that have a place, in their order, each with its row or, where it was
/// blanked, `None`.
#[derive(Drop)]
pub struct Candidates<'a, K, R> {
    pub(crate) slots: Slots<'a, K, R>,
}

impl<'a, K, R> Model for Candidates<'a, K, R> {
    ghost Value = { List (K × Option R) };

    ghost view = { λ it. it.slots };
}

impl<'a, K, R> Iterator for Candidates<'a, K, R> {
    type Item = (&'a K, Option<&'a R>);

    ghost next_gives = { YieldsFirstBy (λ p. (p.0.now, option_copied p.1)) (λ it. it) };

    ghost remaining = { item_count (λ it. it) };

    fn next(&mut self) -> Option<(&'a K, Option<&'a R>)> {
        let (key, content) = self.slots.next()?;
        Some((key, content.as_ref()))
    }
}
