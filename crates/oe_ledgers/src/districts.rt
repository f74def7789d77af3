//! What is kept of DISTRICT rows: by key, and D_YTD by D_W_ID.
ghost use Rattle.std.specs.Prelude.{◌≡◌, [], OnOk};
ghost use Rattle.oe_ledgers.specs.Keeping.{KeepsDistricts, Takes, Stays};
ghost use Rattle.oe_ledgers.specs.Settling.{AreSettledDistricts};
ghost use Rattle.oe_ledgers.specs.Keeping.{district_sums};

use crate::takings::Takings;
use oe_facts::facts::DistrictFact;
use oe_facts::keys::DistrictId;
use oe_tally::join::Join;
use oe_tally::tally::Tally;
use std::alloc::{AllocError, Global};

/// Of the DISTRICT rows of one key their number, at most 2^32 - 1, the greatest D_YTD in cents and
/// the greatest D_NEXT_O_ID.
#[derive(Clone, Copy)]
pub struct DistrictSums {
    pub ytd: i64,
    pub next_order: u32,
    pub rows: u32,
}

impl Join for DistrictSums {
    ghost use Rattle.oe_ledgers.specs.Sums.{districts_joined};
    ghost use Rattle.oe_ledgers.specs.SumLaws.{districts_associative, districts_commutative};

    ghost joined = { districts_joined };

    ghost associative = { districts_associative };

    ghost commutative = { districts_commutative };

    fn join(self, other: Self) -> Self {
        DistrictSums {
            ytd: self.ytd.max(other.ytd),
            next_order: self.next_order.max(other.next_order),
            rows: self.rows.saturating_add(other.rows),
        }
    }
}

impl DistrictSums {
    /// Gives what one row brings.
    pub fn of(fact: &DistrictFact) -> Self
        ensures { result ≡ district_sums fact.now }
    {
        DistrictSums {
            ytd: fact.ytd,
            next_order: fact.next_order,
            rows: 1,
        }
    }
}

/// What is kept of DISTRICT rows: by key, and D_YTD by D_W_ID.
#[derive(Drop)]
pub struct Districts {
    pub by_district: Tally<DistrictId, DistrictSums>,
    pub by_warehouse: Tally<u32, Takings>,
}

impl Districts {
    /// Begins without a row.
    pub fn new(alloc: Global) -> Self
        ensures { KeepsDistricts [] result }
    {
        Districts {
            by_district: Tally::new(alloc),
            by_warehouse: Tally::new(alloc),
        }
    }

    /// Takes a row in. Where memory is refused, the row may be in part of the sums.
    pub fn add(&mut self, fact: &DistrictFact) -> Result<(), AllocError>
        ensures { OnOk result (Takes KeepsDistricts self.old self.new fact.now) }
    {
        if let Err(refused) = self.by_district.add(fact.key, DistrictSums::of(fact)) {
            return Err(refused);
        }
        self.by_warehouse
            .add(fact.key.warehouse, Takings::of_district(fact))
    }

    /// Puts all sums in the order of their keys.
    pub fn settle(&mut self)
        ensures stays { Stays KeepsDistricts self.old self.new }
        ensures settled { AreSettledDistricts self.new }
    {
        self.by_district.settle();
        self.by_warehouse.settle();
    }
}
