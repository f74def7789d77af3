//! What is kept of HISTORY rows: H_AMOUNT by customer, by district and by H_W_ID.
ghost use Rattle.std.specs.Prelude.{[], OnOk};
ghost use Rattle.oe_ledgers.specs.Keeping.{KeepsHistories, Takes, Stays};
ghost use Rattle.oe_ledgers.specs.Settling.{AreSettledHistories};

use crate::takings::Takings;
use oe_facts::facts::HistoryFact;
use oe_facts::keys::{CustomerId, DistrictId};
use oe_tally::tally::Tally;
use std::alloc::{AllocError, Global};

/// What is kept of HISTORY rows: H_AMOUNT by customer, by district and by H_W_ID.
#[derive(Drop)]
pub struct Histories {
    pub by_customer: Tally<CustomerId, Takings>,
    pub by_district: Tally<DistrictId, Takings>,
    pub by_warehouse: Tally<u32, Takings>,
}

impl Histories {
    /// Begins without a row.
    pub fn new(alloc: Global) -> Self
        ensures { KeepsHistories [] result }
    {
        Histories {
            by_customer: Tally::new(alloc),
            by_district: Tally::new(alloc),
            by_warehouse: Tally::new(alloc),
        }
    }

    /// Takes a row in. Where memory is refused, the row may be in part of the sums.
    pub fn add(&mut self, fact: &HistoryFact) -> Result<(), AllocError>
        ensures { OnOk result (Takes KeepsHistories self.old self.new fact.now) }
    {
        if let Err(refused) = self
            .by_customer
            .add(fact.customer, Takings::of_history(fact))
        {
            return Err(refused);
        }
        if let Err(refused) = self
            .by_district
            .add(fact.district, Takings::of_history(fact))
        {
            return Err(refused);
        }
        self.by_warehouse
            .add(fact.district.warehouse, Takings::of_history(fact))
    }

    /// Puts all sums in the order of their keys.
    pub fn settle(&mut self)
        ensures stays { Stays KeepsHistories self.old self.new }
        ensures settled { AreSettledHistories self.new }
    {
        self.by_customer.settle();
        self.by_district.settle();
        self.by_warehouse.settle();
    }
}
