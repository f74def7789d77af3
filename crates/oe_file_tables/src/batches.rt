//! The rows of a file in batches: each batch gives its memory back as soon as its rows are used.
//!
//! While rows are gathered it is kept whether their keys ascend. Rows that ascend stand in the
//! order of their keys, and no key stands twice among them: nobody has to look at them again.
ghost use Rattle.std.specs.Prelude.{◌≡◌, ◌++◌, ◌∷◌, [], length, true, IfOk, OnOk};
ghost use Rattle.std.specs.List.{flat_map};
ghost use Rattle.std.specs.Iterator.{YieldsFirstRef, item_count};
ghost use Rattle.oe_file_tables.specs.Batches.{Ascend, EndBelow};

use crate::lines::{Numbered, Stop};
use oe_values::TableKey;
use std::alloc::Global;
use std::marker::Model;
use std::slice::Iter;

/// So many rows fill a batch.
const BATCH: usize = 4_096;

/// Rows of a file, in batches.
#[derive(Drop)]
pub struct Batches<K, R> {
    batches: Vec<Vec<Numbered<K, R>>>,
    len: u64,
}

impl<K, R> Model for Batches<K, R> {
    ghost use Rattle.std.specs.Prelude.{◌≡◌, List, length};
    ghost use Rattle.std.specs.List.{flat_map};
    ghost use Rattle.oe_file_tables.specs.declared.lines.Numbered.{Numbered};

    ghost Value = { List (Numbered K R) };

    ghost view = { λ b. flat_map (λ v. v.items) b.batches.items };

    ghost invariant = { λ b. b.len ≡ length (flat_map (λ v. v.items) b.batches.items) };
}

impl<K, R> Batches<K, R> {
    /// Counts the rows.
    pub fn len(&self) -> u64
        ensures { result ≡ length self.now }
    {
        self.len
    }

    /// Gives the batches, in their order.
    pub fn into_vecs(self) -> Vec<Vec<Numbered<K, R>>>
        ensures { flat_map (λ v. v.items) result.items ≡ self }
    {
        let Batches { batches, len: _ } = self;
        batches
    }

    /// Goes over the rows, in their order.
    pub fn iter(&self) -> Walk<'_, K, R>
        ensures { result ≡ self.now }
    {
        Walk {
            batch: no_rows().iter(),
            batches: self.batches.as_slice().iter(),
        }
    }
}

impl<K: Drop, R: Drop> Batches<K, R> {
    /// Makes these rows one batch.
    pub(crate) fn of(alloc: Global, rows: Vec<Numbered<K, R>>) -> Result<Self, Stop>
        ensures { IfOk result (λ b. b ≡ rows.items) }
    {
        let len = rows.len() as u64;
        let mut batches = Vec::new(alloc);
        match batches.push(rows) {
            Ok(()) => Ok(Batches { batches, len }),
            Err(_) => Err(Stop::NoMemory),
        }
    }

    /// Puts all rows into one vector.
    pub(crate) fn join(self, alloc: Global) -> Result<Vec<Numbered<K, R>>, Stop>
        ensures { IfOk result (λ rows. rows.items ≡ self) }
    {
        let mut rows = Vec::new(alloc);
        for batch in self.into_vecs() {
            let mut batch = batch;
            if let Err(_) = rows.append(&mut batch) {
                return Err(Stop::NoMemory);
            }
        }
        Ok(rows)
    }
}

/// Gives no rows.
fn no_rows<'a, K, R>() -> &'a [Numbered<K, R>]
    ensures { result.now ≡ [] }
{
    &[]
}

/// The rows of batches, in their order, as a walk has left them.
#[derive(Drop)]
pub struct Walk<'a, K, R> {
    batch: Iter<'a, Numbered<K, R>>,
    batches: Iter<'a, Vec<Numbered<K, R>>>,
}

impl<'a, K, R> Model for Walk<'a, K, R> {
    ghost use Rattle.std.specs.Prelude.{◌++◌, List};
    ghost use Rattle.std.specs.List.{flat_map};
    ghost use Rattle.std.specs.Slice.Iter.{iter_rest};
    ghost use Rattle.oe_file_tables.specs.declared.lines.Numbered.{Numbered};

    ghost Value = { List (Numbered K R) };

    ghost view = { λ w. iter_rest w.batch ++ flat_map (λ v. v.items) (iter_rest w.batches) };
}

impl<'a, K, R> Iterator for Walk<'a, K, R> {
    type Item = &'a Numbered<K, R>;

    ghost next_gives = { YieldsFirstRef (λ w. w) };

    ghost remaining = { item_count (λ w. w) };

    fn next(&mut self) -> Option<&'a Numbered<K, R>> {
        if let Some(row) = self.batch.next() {
            return Some(row);
        }
        while let Some(batch) = self.batches.next() {
            self.batch = batch.as_slice().iter();
            if let Some(row) = self.batch.next() {
                return Some(row);
            }
        }
        None
    }
}

/// The rows that lines have spelled so far, and whether their keys ascend.
#[derive(Drop)]
pub(crate) struct Gathered<K: TableKey, R> {
    full: Vec<Vec<Numbered<K, R>>>,
    // The rows behind those.
    last: Vec<Numbered<K, R>>,
    len: u64,
    is_ascending: bool,
    alloc: Global,
}

impl<K: TableKey, R> Model for Gathered<K, R> {
    ghost use Rattle.std.specs.Prelude.{◌++◌, List};
    ghost use Rattle.std.specs.List.{flat_map};
    ghost use Rattle.oe_file_tables.specs.declared.lines.Numbered.{Numbered};
    ghost use Rattle.oe_file_tables.specs.Batches.{AreGathered};

    ghost Value = { List (Numbered K R) };

    ghost view = { λ g. flat_map (λ v. v.items) g.full.items ++ g.last.items };

    ghost invariant = { λ g. AreGathered K.cmp g.len g.is_ascending
        (flat_map (λ v. v.items) g.full.items ++ g.last.items) };
}

/// Puts the last batch behind the full ones, and begins the next.
#[inline(never)]
fn begin_next<T>(full: &mut Vec<Vec<T>>, last: &mut Vec<T>, alloc: Global) -> Result<(), Stop>
    ensures { flat_map (λ v. v.items) full.new.items ++ last.new.items
        ≡ flat_map (λ v. v.items) full.old.items ++ last.old.items }
{
    if let Err(_) = full.reserve(1) {
        return Err(Stop::NoMemory);
    }
    match Vec::with_capacity(alloc, BATCH) {
        Ok(next) => {
            full.push_reserved(std::mem::replace(last, next));
            Ok(())
        }
        Err(_) => Err(Stop::NoMemory),
    }
}

/// Begins the next batch where the last one is full.
#[inline]
fn end_full<T>(full: &mut Vec<Vec<T>>, last: &mut Vec<T>, alloc: Global) -> Result<(), Stop>
    ensures { flat_map (λ v. v.items) full.new.items ++ last.new.items
        ≡ flat_map (λ v. v.items) full.old.items ++ last.old.items }
{
    if last.len() < BATCH {
        return Ok(());
    }
    begin_next(full, last, alloc)
}

impl<K: TableKey + Drop, R: Drop> Gathered<K, R> {
    /// Gathers no row, and takes no memory.
    pub(crate) fn new(alloc: Global) -> Self
        ensures { result ≡ [] }
    {
        Gathered {
            full: Vec::new(alloc),
            last: Vec::new(alloc),
            len: 0,
            is_ascending: true,
            alloc,
        }
    }

    /// Tells whether the keys are known to ascend.
    pub(crate) fn ascends(&self) -> bool
        ensures { result ≡ true → Ascend K.cmp self.now }
    {
        self.is_ascending
    }

    // Tells whether the keys ascend, and this one is greater than the last.
    #[inline]
    fn ascends_to(&self, key: &K) -> bool
        ensures { result ≡ true → Ascend K.cmp self.now × EndBelow K.cmp self.now key.now }
    {
        if !self.is_ascending {
            return false;
        }
        match self.last.as_slice().last() {
            Some(row) => row.key.cmp(key).is_lt(),
            None => self.len == 0,
        }
    }

    /// Adds a row behind the others.
    #[inline]
    pub(crate) fn push(&mut self, row: Numbered<K, R>) -> Result<(), Stop>
        ensures { OnOk result (self.new ≡ self.old ++ row ∷ []) }
    {
        let is_ascending = self.ascends_to(&row.key);
        let Some(len) = self.len.checked_add(1) else {
            return Err(Stop::NoMemory);
        };
        if let Err(stop) = end_full(&mut self.full, &mut self.last, self.alloc) {
            return Err(stop);
        }
        match self.last.push(row) {
            Ok(()) => {
                self.len = len;
                self.is_ascending = is_ascending;
                Ok(())
            }
            Err(_) => Err(Stop::NoMemory),
        }
    }

    /// Gives the rows, in the order in which they were added.
    pub(crate) fn into_batches(self) -> Result<Batches<K, R>, Stop>
        ensures { IfOk result (λ b. b ≡ self) }
    {
        let Gathered {
            full: mut batches,
            last,
            len,
            is_ascending: _,
            alloc: _,
        } = self;
        match batches.push(last) {
            Ok(()) => Ok(Batches { batches, len }),
            Err(_) => Err(Stop::NoMemory),
        }
    }
}
