//! What is kept of ORDER rows: by key, O_ID and O_OL_CNT by district, and deliveries by customer.
ghost use Rattle.std.specs.Prelude.{◌≡◌, [], OnOk};
ghost use Rattle.oe_ledgers.specs.Keeping.{KeepsOrders, Takes, Stays};
ghost use Rattle.oe_ledgers.specs.Settling.{AreSettledOrders};
ghost use Rattle.oe_ledgers.specs.Keeping.{order_sums, order_sums_of_district, order_sums_of_customer, delivered_of};

use oe_facts::facts::OrderFact;
use oe_facts::keys::{CustomerId, DistrictId, OrderId};
use oe_tally::join::Join;
use oe_tally::tally::Tally;
use std::alloc::{AllocError, Global};

/// Of the ORDER rows of one key their number, at most 2^32 - 1, the greatest O_C_ID and O_OL_CNT,
/// and whether one has an O_CARRIER_ID, and an O_ALL_LOCAL of 1.
#[derive(Clone, Copy)]
pub struct OrderSums {
    pub customer: u32,
    pub line_count: u32,
    pub rows: u32,
    pub is_delivered: bool,
    pub is_all_local: bool,
}

impl Join for OrderSums {
    ghost use Rattle.oe_ledgers.specs.Sums.{orders_joined};
    ghost use Rattle.oe_ledgers.specs.SumLaws.{orders_associative, orders_commutative};

    ghost joined = { orders_joined };

    ghost associative = { orders_associative };

    ghost commutative = { orders_commutative };

    fn join(self, other: Self) -> Self {
        OrderSums {
            customer: self.customer.max(other.customer),
            line_count: self.line_count.max(other.line_count),
            rows: self.rows.saturating_add(other.rows),
            is_delivered: self.is_delivered || other.is_delivered,
            is_all_local: self.is_all_local || other.is_all_local,
        }
    }
}

impl OrderSums {
    /// Gives what one row brings.
    pub fn of(fact: &OrderFact) -> Self
        ensures { result ≡ order_sums fact.now }
    {
        OrderSums {
            customer: fact.customer,
            line_count: fact.line_count,
            rows: 1,
            is_delivered: fact.is_delivered,
            is_all_local: fact.is_all_local,
        }
    }
}

/// Of the ORDER rows of one district their number, at most 2^32 - 1, the greatest O_ID and the sum
/// of O_OL_CNT, at most 2^64 - 1.
#[derive(Clone, Copy)]
pub struct DistrictOrders {
    pub lines: u64,
    pub greatest: u32,
    pub rows: u32,
}

impl Join for DistrictOrders {
    ghost use Rattle.oe_ledgers.specs.Sums.{district_orders_joined};
    ghost use Rattle.oe_ledgers.specs.SumLaws.{district_orders_associative};
    ghost use Rattle.oe_ledgers.specs.SumLaws.{district_orders_commutative};

    ghost joined = { district_orders_joined };

    ghost associative = { district_orders_associative };

    ghost commutative = { district_orders_commutative };

    fn join(self, other: Self) -> Self {
        DistrictOrders {
            lines: self.lines.saturating_add(other.lines),
            greatest: self.greatest.max(other.greatest),
            rows: self.rows.saturating_add(other.rows),
        }
    }
}

impl DistrictOrders {
    /// Gives what one row brings.
    pub fn of(fact: &OrderFact) -> Self
        ensures { result ≡ order_sums_of_district fact.now }
    {
        DistrictOrders {
            lines: fact.line_count as u64,
            greatest: fact.key.order,
            rows: 1,
        }
    }
}

/// Of the ORDER rows of one customer their number, and the number of those that have an
/// O_CARRIER_ID and that the population had not delivered, each at most 2^32 - 1.
#[derive(Clone, Copy)]
pub struct CustomerOrders {
    pub rows: u32,
    pub deliveries: u32,
}

impl Join for CustomerOrders {
    ghost use Rattle.oe_ledgers.specs.Sums.{customer_orders_joined};
    ghost use Rattle.oe_ledgers.specs.SumLaws.{customer_orders_associative};
    ghost use Rattle.oe_ledgers.specs.SumLaws.{customer_orders_commutative};

    ghost joined = { customer_orders_joined };

    ghost associative = { customer_orders_associative };

    ghost commutative = { customer_orders_commutative };

    fn join(self, other: Self) -> Self {
        CustomerOrders {
            rows: self.rows.saturating_add(other.rows),
            deliveries: self.deliveries.saturating_add(other.deliveries),
        }
    }
}

impl CustomerOrders {
    /// Gives what one row brings, where the population had `initial` orders in each district.
    pub fn of(fact: &OrderFact, initial: u32) -> Self
        ensures { result ≡ order_sums_of_customer initial fact.now }
    {
        let is_counted = fact.is_delivered && fact.key.order > delivered_before(initial);
        CustomerOrders {
            rows: 1,
            deliveries: if is_counted { 1 } else { 0 },
        }
    }
}

/// Gives how many of `initial` orders the population had delivered: all but the last three tenths,
/// rounded down (clause 4.3.3.1).
pub fn delivered_before(initial: u32) -> u32
    ensures { result ≡ delivered_of initial }
{
    let open = initial as u64 * 3 / 10;
    initial - open as u32
}

/// What is kept of ORDER rows: by key, O_ID and O_OL_CNT by district, and deliveries by customer.
#[derive(Drop)]
pub struct Orders {
    pub initial: u32,
    pub by_order: Tally<OrderId, OrderSums>,
    pub by_district: Tally<DistrictId, DistrictOrders>,
    pub by_customer: Tally<CustomerId, CustomerOrders>,
}

impl Orders {
    /// Begins without a row, where the population had `initial` orders in each district.
    pub fn new(alloc: Global, initial: u32) -> Self
        ensures kept { KeepsOrders [] result }
        ensures initial { result.initial ≡ initial }
    {
        Orders {
            initial,
            by_order: Tally::new(alloc),
            by_district: Tally::new(alloc),
            by_customer: Tally::new(alloc),
        }
    }

    /// Takes a row in. Where memory is refused, the row may be in part of the sums.
    pub fn add(&mut self, fact: &OrderFact) -> Result<(), AllocError>
        ensures kept { OnOk result (Takes KeepsOrders self.old self.new fact.now) }
        ensures initial { self.new.initial ≡ self.old.initial }
    {
        let district = DistrictId {
            warehouse: fact.key.warehouse,
            district: fact.key.district,
        };
        let customer = CustomerId {
            warehouse: fact.key.warehouse,
            district: fact.key.district,
            customer: fact.customer,
        };
        if let Err(refused) = self.by_order.add(fact.key, OrderSums::of(fact)) {
            return Err(refused);
        }
        if let Err(refused) = self.by_district.add(district, DistrictOrders::of(fact)) {
            return Err(refused);
        }
        self.by_customer
            .add(customer, CustomerOrders::of(fact, self.initial))
    }

    /// Puts all sums in the order of their keys.
    pub fn settle(&mut self)
        ensures stays { Stays KeepsOrders self.old self.new }
        ensures settled { AreSettledOrders self.new }
        ensures initial { self.new.initial ≡ self.old.initial }
    {
        self.by_order.settle();
        self.by_district.settle();
        self.by_customer.settle();
    }
}
