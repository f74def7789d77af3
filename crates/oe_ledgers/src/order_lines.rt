//! What is kept of ORDER-LINE rows: by order, their number by district, and what each STOCK row
//! supplies.
ghost use Rattle.std.specs.Prelude.{◌≡◌, [], OnOk};
ghost use Rattle.oe_ledgers.specs.Keeping.{KeepsOrderLines, Takes, Stays};
ghost use Rattle.oe_ledgers.specs.Settling.{AreSettledOrderLines};
ghost use Rattle.oe_ledgers.specs.Keeping.{line_sums, supply_sums};

use oe_facts::facts::OrderLineFact;
use oe_facts::keys::{DistrictId, OrderId, StockId};
use oe_tally::count::Count;
use oe_tally::join::Join;
use oe_tally::tally::Tally;
use std::alloc::{AllocError, Global};

/// Of the ORDER-LINE rows of one order their number, the number of those that have an OL_DELIVERY_D
/// and of those that another warehouse supplies, each at most 2^32 - 1, and the sum of OL_AMOUNT of
/// those that have an OL_DELIVERY_D, in cents. The sum wraps as that of `Takings` does.
#[derive(Clone, Copy)]
pub struct LineSums {
    pub amount: i128,
    pub rows: u32,
    pub delivered: u32,
    pub remotes: u32,
}

impl Join for LineSums {
    ghost use Rattle.oe_ledgers.specs.Sums.{lines_joined};
    ghost use Rattle.oe_ledgers.specs.SumLaws.{lines_associative, lines_commutative};

    ghost joined = { lines_joined };

    ghost associative = { lines_associative };

    ghost commutative = { lines_commutative };

    fn join(self, other: Self) -> Self {
        LineSums {
            amount: self.amount.wrapping_add(other.amount),
            rows: self.rows.saturating_add(other.rows),
            delivered: self.delivered.saturating_add(other.delivered),
            remotes: self.remotes.saturating_add(other.remotes),
        }
    }
}

impl LineSums {
    /// Gives what one row brings.
    pub fn of(fact: &OrderLineFact) -> Self
        ensures { result ≡ line_sums fact.now }
    {
        let is_remote = fact.supply != fact.order.warehouse;
        LineSums {
            amount: if fact.is_delivered {
                fact.amount as i128
            } else {
                0
            },
            rows: 1,
            delivered: if fact.is_delivered { 1 } else { 0 },
            remotes: if is_remote { 1 } else { 0 },
        }
    }
}

/// Of the ORDER-LINE rows of one OL_SUPPLY_W_ID and OL_I_ID their number; and of those whose order
/// the population did not have the sum of OL_QUANTITY, at most 2^64 - 1, their number and the
/// number of those of another warehouse's order. Numbers are at most 2^32 - 1.
#[derive(Clone, Copy)]
pub struct SupplySums {
    pub quantity: u64,
    pub rows: u32,
    pub orders: u32,
    pub remotes: u32,
}

impl Join for SupplySums {
    ghost use Rattle.oe_ledgers.specs.Sums.{supplies_joined};
    ghost use Rattle.oe_ledgers.specs.SumLaws.{supplies_associative, supplies_commutative};

    ghost joined = { supplies_joined };

    ghost associative = { supplies_associative };

    ghost commutative = { supplies_commutative };

    fn join(self, other: Self) -> Self {
        SupplySums {
            quantity: self.quantity.saturating_add(other.quantity),
            rows: self.rows.saturating_add(other.rows),
            orders: self.orders.saturating_add(other.orders),
            remotes: self.remotes.saturating_add(other.remotes),
        }
    }
}

impl SupplySums {
    /// Gives what one row brings, where the population had `initial` orders in each district.
    pub fn of(fact: &OrderLineFact, initial: u32) -> Self
        ensures { result ≡ supply_sums initial fact.now }
    {
        if fact.order.order <= initial {
            return SupplySums {
                quantity: 0,
                rows: 1,
                orders: 0,
                remotes: 0,
            };
        }
        let is_remote = fact.supply != fact.order.warehouse;
        SupplySums {
            quantity: fact.quantity as u64,
            rows: 1,
            orders: 1,
            remotes: if is_remote { 1 } else { 0 },
        }
    }
}

/// What is kept of ORDER-LINE rows: by order, their number by district, and what each STOCK row
/// supplies.
#[derive(Drop)]
pub struct OrderLines {
    pub initial: u32,
    pub by_order: Tally<OrderId, LineSums>,
    pub by_district: Tally<DistrictId, Count>,
    pub by_stock: Tally<StockId, SupplySums>,
}

impl OrderLines {
    /// Begins without a row, where the population had `initial` orders in each district.
    pub fn new(alloc: Global, initial: u32) -> Self
        ensures kept { KeepsOrderLines [] result }
        ensures initial { result.initial ≡ initial }
    {
        OrderLines {
            initial,
            by_order: Tally::new(alloc),
            by_district: Tally::new(alloc),
            by_stock: Tally::new(alloc),
        }
    }

    /// Takes a row in. Where memory is refused, the row may be in part of the sums.
    pub fn add(&mut self, fact: &OrderLineFact) -> Result<(), AllocError>
        ensures kept { OnOk result (Takes KeepsOrderLines self.old self.new fact.now) }
        ensures initial { self.new.initial ≡ self.old.initial }
    {
        let district = DistrictId {
            warehouse: fact.order.warehouse,
            district: fact.order.district,
        };
        let stock = StockId {
            warehouse: fact.supply,
            item: fact.item,
        };
        if let Err(refused) = self.by_order.add(fact.order, LineSums::of(fact)) {
            return Err(refused);
        }
        if let Err(refused) = self.by_district.add(district, Count::one()) {
            return Err(refused);
        }
        self.by_stock.add(stock, SupplySums::of(fact, self.initial))
    }

    /// Puts all sums in the order of their keys.
    pub fn settle(&mut self)
        ensures stays { Stays KeepsOrderLines self.old self.new }
        ensures settled { AreSettledOrderLines self.new }
        ensures initial { self.new.initial ≡ self.old.initial }
    {
        self.by_order.settle();
        self.by_district.settle();
        self.by_stock.settle();
    }
}
