//! How often each name was in the way.
ghost use Rattle.std.specs.Prelude.{◌≡◌, [], Some, cond, OnOk};
ghost use Rattle.std.specs.Map.{keys_of, lookup};
ghost use Rattle.oe_rows.specs.declared.locks.Name.{Name};
ghost use Rattle.oe_rows.specs.contracts.locks.NamePartialEq.TheImpl.{ghosts};
ghost use Rattle.oe_busy.specs.Happenings.{count_in, name_in_way, met_more};

use crate::happenings::Happening;
use crate::tables::Uncounted;
use indexmap::IndexMap;
use oe_rows::Name;
use std::alloc::Global;
use std::marker::Model;

/// Counts by name, which clauses see as a list.
#[derive(Drop)]
pub struct NameCounts {
    counts: IndexMap<Name, u64>,
}

impl Model for NameCounts {
    ghost use Rattle.std.specs.Prelude.{List, ℕ};
    ghost use Rattle.oe_rows.specs.declared.locks.Name.{Name};

    ghost Value = { List (Name × ℕ) };

    ghost view = { λ c. c.counts.entries };
}

impl NameCounts {
    /// Counts no name.
    pub(crate) fn new(alloc: Global) -> NameCounts
        ensures { result ≡ [] }
    {
        NameCounts {
            counts: IndexMap::new(alloc),
        }
    }

    /// Gives the count of a name.
    pub fn count(&self, name: &Name) -> u64
        ensures { result ≡ count_in self.now name.now }
    {
        match self.counts.get(name) {
            Some(count) => *count,
            None => 0,
        }
    }

    /// Lends the names that were counted.
    pub(crate) fn names(&self) -> &[Name]
        ensures { result.now ≡ keys_of self.now }
    {
        self.counts.keys().as_slice()
    }

    // Sets the count of a name.
    fn put(&mut self, name: &Name, count: u64) -> Result<(), Uncounted>
        ensures { OnOk result ((q : Name) → lookup (ghosts.eq q) self.new
            ≡ cond (ghosts.eq name.now q) (Some count) (lookup (ghosts.eq q) self.old)) }
    {
        match self.counts.insert(*name, count) {
            Ok(_) => Ok(()),
            Err(_) => Err(Uncounted::NoMemory),
        }
    }

    // Counts a name once more.
    fn add(&mut self, name: &Name) -> Result<(), Uncounted>
        ensures { OnOk result (count_in self.new ≡ met_more (Some name.now) (count_in self.old)) }
    {
        match self.count(name).checked_add(1) {
            Some(more) => self.put(name, more),
            None => Err(Uncounted::TooMany),
        }
    }

    /// Counts the name that was in the way, where one was.
    pub(crate) fn note(&mut self, happening: &Happening) -> Result<(), Uncounted>
        ensures { OnOk result
            (count_in self.new ≡ met_more (name_in_way happening.now) (count_in self.old)) }
    {
        match happening {
            Happening::Waits(_, name, _) => self.add(name),
            _ => Ok(()),
        }
    }
}
