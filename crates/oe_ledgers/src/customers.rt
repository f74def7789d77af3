//! What is kept of CUSTOMER rows: by key, and their number by district.
ghost use Rattle.std.specs.Prelude.{◌≡◌, [], OnOk};
ghost use Rattle.oe_ledgers.specs.Keeping.{KeepsCustomers, Takes, Stays};
ghost use Rattle.oe_ledgers.specs.Settling.{AreSettledCustomers};
ghost use Rattle.oe_ledgers.specs.Keeping.{customer_sums};

use oe_facts::facts::CustomerFact;
use oe_facts::keys::{CustomerId, DistrictId};
use oe_tally::count::Count;
use oe_tally::join::Join;
use oe_tally::tally::Tally;
use std::alloc::{AllocError, Global};

/// Of the CUSTOMER rows of one key their number, at most 2^32 - 1, and the greatest C_BALANCE and
/// C_YTD_PAYMENT in cents, C_PAYMENT_CNT and C_DELIVERY_CNT.
#[derive(Clone, Copy)]
pub struct CustomerSums {
    pub balance: i64,
    pub ytd_payment: i64,
    pub payments: u64,
    pub deliveries: u64,
    pub rows: u32,
}

impl Join for CustomerSums {
    ghost use Rattle.oe_ledgers.specs.Sums.{customers_joined};
    ghost use Rattle.oe_ledgers.specs.SumLaws.{customers_associative, customers_commutative};

    ghost joined = { customers_joined };

    ghost associative = { customers_associative };

    ghost commutative = { customers_commutative };

    fn join(self, other: Self) -> Self {
        CustomerSums {
            balance: self.balance.max(other.balance),
            ytd_payment: self.ytd_payment.max(other.ytd_payment),
            payments: self.payments.max(other.payments),
            deliveries: self.deliveries.max(other.deliveries),
            rows: self.rows.saturating_add(other.rows),
        }
    }
}

impl CustomerSums {
    /// Gives what one row brings.
    pub fn of(fact: &CustomerFact) -> Self
        ensures { result ≡ customer_sums fact.now }
    {
        CustomerSums {
            balance: fact.balance,
            ytd_payment: fact.ytd_payment,
            payments: fact.payments,
            deliveries: fact.deliveries,
            rows: 1,
        }
    }
}

/// What is kept of CUSTOMER rows: by key, and their number by district.
#[derive(Drop)]
pub struct Customers {
    pub by_customer: Tally<CustomerId, CustomerSums>,
    pub by_district: Tally<DistrictId, Count>,
}

impl Customers {
    /// Begins without a row.
    pub fn new(alloc: Global) -> Self
        ensures { KeepsCustomers [] result }
    {
        Customers {
            by_customer: Tally::new(alloc),
            by_district: Tally::new(alloc),
        }
    }

    /// Takes a row in. Where memory is refused, the row may be in part of the sums.
    pub fn add(&mut self, fact: &CustomerFact) -> Result<(), AllocError>
        ensures { OnOk result (Takes KeepsCustomers self.old self.new fact.now) }
    {
        let district = DistrictId {
            warehouse: fact.key.warehouse,
            district: fact.key.district,
        };
        if let Err(refused) = self.by_customer.add(fact.key, CustomerSums::of(fact)) {
            return Err(refused);
        }
        self.by_district.add(district, Count::one())
    }

    /// Puts all sums in the order of their keys.
    pub fn settle(&mut self)
        ensures stays { Stays KeepsCustomers self.old self.new }
        ensures settled { AreSettledCustomers self.new }
    {
        self.by_customer.settle();
        self.by_district.settle();
    }
}
