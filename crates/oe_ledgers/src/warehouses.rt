//! What is kept of WAREHOUSE rows.
ghost use Rattle.std.specs.Prelude.{◌≡◌, [], OnOk};
ghost use Rattle.oe_ledgers.specs.Keeping.{KeepsWarehouses, Takes, Stays};
ghost use Rattle.oe_ledgers.specs.Settling.{AreSettledWarehouses};
ghost use Rattle.oe_ledgers.specs.Keeping.{warehouse_sums};

use oe_facts::facts::WarehouseFact;
use oe_tally::join::Join;
use oe_tally::tally::Tally;
use std::alloc::{AllocError, Global};

/// Of the WAREHOUSE rows of one W_ID their number, at most 2^32 - 1, and the greatest W_YTD in
/// cents.
#[derive(Clone, Copy)]
pub struct WarehouseSums {
    pub ytd: i64,
    pub rows: u32,
}

impl Join for WarehouseSums {
    ghost use Rattle.oe_ledgers.specs.Sums.{warehouses_joined};
    ghost use Rattle.oe_ledgers.specs.SumLaws.{warehouses_associative, warehouses_commutative};

    ghost joined = { warehouses_joined };

    ghost associative = { warehouses_associative };

    ghost commutative = { warehouses_commutative };

    fn join(self, other: Self) -> Self {
        WarehouseSums {
            ytd: self.ytd.max(other.ytd),
            rows: self.rows.saturating_add(other.rows),
        }
    }
}

impl WarehouseSums {
    /// Gives what one row brings.
    pub fn of(fact: &WarehouseFact) -> Self
        ensures { result ≡ warehouse_sums fact.now }
    {
        WarehouseSums {
            ytd: fact.ytd,
            rows: 1,
        }
    }
}

/// What is kept of WAREHOUSE rows.
#[derive(Drop)]
pub struct Warehouses {
    pub by_warehouse: Tally<u32, WarehouseSums>,
}

impl Warehouses {
    /// Begins without a row.
    pub fn new(alloc: Global) -> Self
        ensures { KeepsWarehouses [] result }
    {
        Warehouses {
            by_warehouse: Tally::new(alloc),
        }
    }

    /// Takes a row in. Where memory is refused, the row may be in part of the sums.
    pub fn add(&mut self, fact: &WarehouseFact) -> Result<(), AllocError>
        ensures { OnOk result (Takes KeepsWarehouses self.old self.new fact.now) }
    {
        self.by_warehouse
            .add(fact.warehouse, WarehouseSums::of(fact))
    }

    /// Puts all sums in the order of their keys.
    pub fn settle(&mut self)
        ensures stays { Stays KeepsWarehouses self.old self.new }
        ensures settled { AreSettledWarehouses self.new }
    {
        self.by_warehouse.settle();
    }
}
