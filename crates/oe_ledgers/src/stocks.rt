//! What is kept of STOCK rows: by key, and their number by S_W_ID and by S_I_ID.
ghost use Rattle.std.specs.Prelude.{◌≡◌, [], OnOk};
ghost use Rattle.oe_ledgers.specs.Keeping.{KeepsStocks, Takes, Stays};
ghost use Rattle.oe_ledgers.specs.Settling.{AreSettledStocks};
ghost use Rattle.oe_ledgers.specs.Keeping.{stock_sums};

use oe_facts::facts::StockFact;
use oe_facts::keys::StockId;
use oe_tally::count::Count;
use oe_tally::join::Join;
use oe_tally::tally::Tally;
use std::alloc::{AllocError, Global};

/// Of the STOCK rows of one key their number, at most 2^32 - 1, and the greatest S_QUANTITY, S_YTD,
/// S_ORDER_CNT and S_REMOTE_CNT.
#[derive(Clone, Copy)]
pub struct StockSums {
    pub quantity: i64,
    pub ytd: u64,
    pub orders: u64,
    pub remotes: u64,
    pub rows: u32,
}

impl Join for StockSums {
    ghost use Rattle.oe_ledgers.specs.Sums.{stocks_joined};
    ghost use Rattle.oe_ledgers.specs.SumLaws.{stocks_associative, stocks_commutative};

    ghost joined = { stocks_joined };

    ghost associative = { stocks_associative };

    ghost commutative = { stocks_commutative };

    fn join(self, other: Self) -> Self {
        StockSums {
            quantity: self.quantity.max(other.quantity),
            ytd: self.ytd.max(other.ytd),
            orders: self.orders.max(other.orders),
            remotes: self.remotes.max(other.remotes),
            rows: self.rows.saturating_add(other.rows),
        }
    }
}

impl StockSums {
    /// Gives what one row brings.
    pub fn of(fact: &StockFact) -> Self
        ensures { result ≡ stock_sums fact.now }
    {
        StockSums {
            quantity: fact.quantity,
            ytd: fact.ytd,
            orders: fact.orders,
            remotes: fact.remotes,
            rows: 1,
        }
    }
}

/// What is kept of STOCK rows: by key, and their number by S_W_ID and by S_I_ID.
#[derive(Drop)]
pub struct Stocks {
    pub by_stock: Tally<StockId, StockSums>,
    pub by_warehouse: Tally<u32, Count>,
    pub by_item: Tally<u32, Count>,
}

impl Stocks {
    /// Begins without a row.
    pub fn new(alloc: Global) -> Self
        ensures { KeepsStocks [] result }
    {
        Stocks {
            by_stock: Tally::new(alloc),
            by_warehouse: Tally::new(alloc),
            by_item: Tally::new(alloc),
        }
    }

    /// Takes a row in. Where memory is refused, the row may be in part of the sums.
    pub fn add(&mut self, fact: &StockFact) -> Result<(), AllocError>
        ensures { OnOk result (Takes KeepsStocks self.old self.new fact.now) }
    {
        if let Err(refused) = self.by_stock.add(fact.key, StockSums::of(fact)) {
            return Err(refused);
        }
        if let Err(refused) = self.by_warehouse.add(fact.key.warehouse, Count::one()) {
            return Err(refused);
        }
        self.by_item.add(fact.key.item, Count::one())
    }

    /// Puts all sums in the order of their keys.
    pub fn settle(&mut self)
        ensures stays { Stays KeepsStocks self.old self.new }
        ensures settled { AreSettledStocks self.new }
    {
        self.by_stock.settle();
        self.by_warehouse.settle();
        self.by_item.settle();
    }
}
