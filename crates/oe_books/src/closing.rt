//! The end of the rows: books are closed, and stand settled for the checks, or lack what no check
//! can do without.
ghost use Rattle.std.specs.Prelude.{◌≡◌, ◌<◌, ◌^◌, ℕ, Option, IfOk, IsErr};
ghost use Rattle.oe_books.specs.Facts.{Facts};
ghost use Rattle.oe_ledgers.specs.Figures.{AreFew};
ghost use Rattle.oe_ledgers.specs.Settling.{AreSettledCustomers};
ghost use Rattle.oe_books.specs.Keeping.{KeepsRows, Keeps, IsBegun, IsLost};
ghost use Rattle.oe_books.specs.Closing.{count_of, lack_of, lack_at, first_lack, AreSettledBooks, IsSized, IsClosed};

use crate::books::{Books, Initial};
use oe_checks::deliveries::deliveries;
use oe_checks::sizes::customers_of_a_district;
use oe_facts::Table;
use oe_facts::keys::CustomerId;
use oe_ledgers::takings::Takings;
use oe_tally::tally::Tally;
use std::alloc::{AllocError, Global};

/// What books lack.
#[derive(Clone, Copy)]
pub enum Lack {
    /// A row of this table.
    Rows(Table),
    /// Room: this table has 2^32 rows or more.
    Room(Table),
    /// The number of orders that the population had in each district: none was given, and behind
    /// the first ORDER or ORDER-LINE row came CUSTOMER rows, by which the first district has
    /// another number of customers than before.
    Initial,
}

/// Books that are closed.
#[derive(Drop)]
pub enum Closed {
    Settled(Settled),
    Lacking(Lack),
}

/// Books whose sums stand in the order of their keys, and what was delivered to each customer.
#[derive(Drop)]
pub struct Settled {
    pub(crate) books: Books,
    pub(crate) delivered: Tally<CustomerId, Takings>,
    // The customers of a district.
    pub(crate) each: u32,
}

// Tells what a table lacks that has this number of rows. NEW-ORDER may have none.
fn lack_of(table: Table, rows: u64) -> Option<Lack>
    ensures { result ≡ lack_of table rows }
{
    if rows > u64::from(u32::MAX) {
        return Some(Lack::Room(table));
    }
    if rows > 0 {
        return None;
    }
    match table {
        Table::NewOrder => None,
        _ => Some(Lack::Rows(table)),
    }
}

impl Books {
    /// Counts the rows of a table, at most 2^64 - 1.
    pub fn count(&self, table: Table) -> u64
        ensures { result ≡ count_of self.now table }
    {
        match table {
            Table::Warehouse => self.warehouses.count,
            Table::District => self.districts.count,
            Table::Customer => self.customers.count,
            Table::History => self.histories.count,
            Table::NewOrder => self.new_orders.count,
            Table::Order => self.orders.count,
            Table::OrderLine => self.lines.count,
            Table::Item => self.items.count,
            Table::Stock => self.stocks.count,
        }
    }

    // Tells what a table lacks.
    fn lack_at(&self, table: Table) -> Option<Lack>
        ensures { result ≡ lack_at self.now table }
    {
        lack_of(table, self.count(table))
    }

    // Tells what the first table lacks that lacks something.
    fn lack(&self) -> Option<Lack>
        ensures { result ≡ first_lack self.now }
    {
        self.lack_at(Table::Warehouse)
            .or(self.lack_at(Table::District))
            .or(self.lack_at(Table::Customer))
            .or(self.lack_at(Table::History))
            .or(self.lack_at(Table::NewOrder))
            .or(self.lack_at(Table::Order))
            .or(self.lack_at(Table::OrderLine))
            .or(self.lack_at(Table::Item))
            .or(self.lack_at(Table::Stock))
    }
}

impl Books {
    // Puts all sums in the order of their keys.
    fn settle(&mut self)
        ensures kept { (t : Facts) → KeepsRows t self.old → KeepsRows t self.new }
        ensures initial { self.new.initial ≡ self.old.initial }
        ensures number { self.new.orders.kept.initial ≡ self.old.orders.kept.initial }
        ensures settled { AreSettledBooks self.new }
    {
        self.warehouses.kept.settle();
        self.districts.kept.settle();
        self.customers.kept.settle();
        self.histories.kept.settle();
        self.new_orders.kept.settle();
        self.orders.kept.settle();
        self.lines.kept.sums.settle();
        self.lines.kept.numbers.settle();
        self.items.kept.settle();
        self.stocks.kept.settle();
    }

    // Tells how many customers a district has; nothing where another number was counted before the
    // last of them came.
    fn customers_each(&self) -> Option<u32>
        requires { AreSettledCustomers self.now.customers.kept }
        ensures { (given : Option ℕ) (t : Facts) → KeepsRows t self.now → IsBegun given t self.now
            → AreFew t.customers → IsSized given t self.now.orders.kept.initial result }
    {
        let counted = self.orders.kept.initial;
        if let Initial::Counted = self.initial {
            return Some(counted);
        }
        let each = customers_of_a_district(&self.customers.kept).unwrap_or(0);
        if let Initial::Late = self.initial {
            return if counted == each { Some(each) } else { None };
        }
        Some(each)
    }

    /// Closes the books behind the last row. Where memory is refused, or was before, they are lost.
    pub fn close(mut self, alloc: Global) -> Result<Closed, AllocError>
        ensures closed { (given : Option ℕ) (t : Facts) → Keeps given t self
            → IfOk result (IsClosed given t) }
        ensures lost { IsLost self → IsErr result }
    {
        if self.is_lost {
            drop(self);
            return Err(AllocError);
        }
        if let Some(lack) = self.lack() {
            drop(self);
            return Ok(Closed::Lacking(lack));
        }
        self.begin();
        self.settle();
        let Some(each) = self.customers_each() else {
            drop(self);
            return Ok(Closed::Lacking(Lack::Initial));
        };
        let delivered = match deliveries(alloc, &self.orders.kept, &self.lines.kept.sums) {
            Ok(delivered) => delivered,
            Err(refused) => {
                drop(self);
                return Err(refused);
            }
        };
        Ok(Closed::Settled(Settled {
            books: self,
            delivered,
            each,
        }))
    }
}
