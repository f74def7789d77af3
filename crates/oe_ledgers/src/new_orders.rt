//! What is kept of NEW-ORDER rows: their number by key, and NO_O_ID by district.
ghost use Rattle.std.specs.Prelude.{◌≡◌, [], OnOk};
ghost use Rattle.oe_ledgers.specs.Keeping.{KeepsNewOrders, Takes, Stays};
ghost use Rattle.oe_ledgers.specs.Settling.{AreSettledNewOrders};
ghost use Rattle.oe_ledgers.specs.Keeping.{new_order_sums};

use oe_facts::facts::NewOrderFact;
use oe_facts::keys::{DistrictId, OrderId};
use oe_tally::count::Count;
use oe_tally::join::Join;
use oe_tally::tally::Tally;
use std::alloc::{AllocError, Global};

/// Of the NEW-ORDER rows of one district their number, at most 2^32 - 1, the least and the greatest
/// NO_O_ID.
#[derive(Clone, Copy)]
pub struct NewOrderSums {
    pub least: u32,
    pub greatest: u32,
    pub rows: u32,
}

impl Join for NewOrderSums {
    ghost use Rattle.oe_ledgers.specs.Sums.{new_orders_joined};
    ghost use Rattle.oe_ledgers.specs.SumLaws.{new_orders_associative, new_orders_commutative};

    ghost joined = { new_orders_joined };

    ghost associative = { new_orders_associative };

    ghost commutative = { new_orders_commutative };

    fn join(self, other: Self) -> Self {
        NewOrderSums {
            least: self.least.min(other.least),
            greatest: self.greatest.max(other.greatest),
            rows: self.rows.saturating_add(other.rows),
        }
    }
}

impl NewOrderSums {
    /// Gives what one row brings.
    pub fn of(fact: &NewOrderFact) -> Self
        ensures { result ≡ new_order_sums fact.now }
    {
        NewOrderSums {
            least: fact.key.order,
            greatest: fact.key.order,
            rows: 1,
        }
    }
}

/// What is kept of NEW-ORDER rows: their number by key, and NO_O_ID by district.
#[derive(Drop)]
pub struct NewOrders {
    pub by_order: Tally<OrderId, Count>,
    pub by_district: Tally<DistrictId, NewOrderSums>,
}

impl NewOrders {
    /// Begins without a row.
    pub fn new(alloc: Global) -> Self
        ensures { KeepsNewOrders [] result }
    {
        NewOrders {
            by_order: Tally::new(alloc),
            by_district: Tally::new(alloc),
        }
    }

    /// Takes a row in. Where memory is refused, the row may be in part of the sums.
    pub fn add(&mut self, fact: &NewOrderFact) -> Result<(), AllocError>
        ensures { OnOk result (Takes KeepsNewOrders self.old self.new fact.now) }
    {
        let district = DistrictId {
            warehouse: fact.key.warehouse,
            district: fact.key.district,
        };
        if let Err(refused) = self.by_order.add(fact.key, Count::one()) {
            return Err(refused);
        }
        self.by_district.add(district, NewOrderSums::of(fact))
    }

    /// Puts all sums in the order of their keys.
    pub fn settle(&mut self)
        ensures stays { Stays KeepsNewOrders self.old self.new }
        ensures settled { AreSettledNewOrders self.new }
    {
        self.by_order.settle();
        self.by_district.settle();
    }
}
