//! What is kept of ITEM rows: their number by I_ID.
ghost use Rattle.std.specs.Prelude.{[], OnOk};
ghost use Rattle.oe_ledgers.specs.Keeping.{KeepsItems, Takes, Stays};
ghost use Rattle.oe_ledgers.specs.Settling.{AreSettledItems};

use oe_facts::facts::ItemFact;
use oe_tally::count::Count;
use oe_tally::tally::Tally;
use std::alloc::{AllocError, Global};

/// What is kept of ITEM rows: their number by I_ID.
#[derive(Drop)]
pub struct Items {
    pub by_item: Tally<u32, Count>,
}

impl Items {
    /// Begins without a row.
    pub fn new(alloc: Global) -> Self
        ensures { KeepsItems [] result }
    {
        Items {
            by_item: Tally::new(alloc),
        }
    }

    /// Takes a row in. Where memory is refused, the row may be in part of the sums.
    pub fn add(&mut self, fact: &ItemFact) -> Result<(), AllocError>
        ensures { OnOk result (Takes KeepsItems self.old self.new fact.now) }
    {
        self.by_item.add(fact.item, Count::one())
    }

    /// Puts all sums in the order of their keys.
    pub fn settle(&mut self)
        ensures stays { Stays KeepsItems self.old self.new }
        ensures settled { AreSettledItems self.new }
    {
        self.by_item.settle();
    }
}
