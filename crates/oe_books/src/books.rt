//! The ledgers of all nine tables as one, which takes facts of all tables in any order.
//!
//! How many orders of each district the population had is asked for as soon as an ORDER or an
//! ORDER-LINE row comes: it is given, or it is the number of CUSTOMER rows that a district has by
//! then. Only memory can be refused; the books are lost then, and stay so: they take no fact, and
//! are not closed.
ghost use Rattle.std.specs.Prelude.{◌≡◌, ◌⊎◌, ℕ, Option, OnOk, OnSome, IfNone, is_err, false, IsErr, IsNone};
ghost use Rattle.oe_books.specs.Facts.{Facts, no_facts, with_fact, with_apart};
ghost use Rattle.oe_books.specs.Closing.{HaveBoth};
ghost use Rattle.oe_books.specs.Keeping.{KeepsRows, Keeps, IsBegun, IsLost, behind_customer};

use crate::rows::{
    Lines, Rows, add_customer, add_district, add_history, add_item, add_line, add_new_order,
    add_order, add_stock, add_warehouse,
};
use oe_checks::sizes::customers_of_a_district;
use oe_facts::Fact;
use oe_ledgers::{Customers, Districts, Histories, Items, NewOrders, Orders, Stocks, Warehouses};
use std::alloc::{AllocError, Global};

// How it is known how many orders of each district the population had.
#[derive(Clone, Copy)]
pub(crate) enum Initial {
    // It is given.
    Given,
    // No ORDER or ORDER-LINE row came, which asks for it.
    Open,
    // A district had as many CUSTOMER rows when the first such row came.
    Counted,
    // And a further CUSTOMER row came behind it.
    Late,
}

/// What is kept of the rows of nine tables.
#[derive(Drop)]
pub struct Books {
    alloc: Global,
    // Memory was refused, so that a row may be in part of the sums.
    pub(crate) is_lost: bool,
    pub(crate) initial: Initial,
    pub(crate) warehouses: Rows<Warehouses>,
    pub(crate) districts: Rows<Districts>,
    pub(crate) customers: Rows<Customers>,
    pub(crate) histories: Rows<Histories>,
    pub(crate) new_orders: Rows<NewOrders>,
    pub(crate) orders: Rows<Orders>,
    pub(crate) lines: Rows<Lines>,
    pub(crate) items: Rows<Items>,
    pub(crate) stocks: Rows<Stocks>,
}

// How the number is known behind a further CUSTOMER row.
fn behind_customer(initial: Initial) -> Initial
    ensures { result ≡ behind_customer initial }
{
    match initial {
        Initial::Counted => Initial::Late,
        _ => initial,
    }
}

impl Books {
    /// Begins without a row. `given` is the number of orders that the population had in each
    /// district; where it is none, that is the number of the district's customers.
    pub fn new(alloc: Global, given: Option<u32>) -> Books
        ensures keeps { Keeps given no_facts result }
        ensures lost { result.is_lost ≡ false }
    {
        let initial = given.unwrap_or(0);
        Books {
            alloc,
            is_lost: false,
            initial: match given {
                Some(_) => Initial::Given,
                None => Initial::Open,
            },
            warehouses: Rows::new(Warehouses::new(alloc)),
            districts: Rows::new(Districts::new(alloc)),
            customers: Rows::new(Customers::new(alloc)),
            histories: Rows::new(Histories::new(alloc)),
            new_orders: Rows::new(NewOrders::new(alloc)),
            orders: Rows::new(Orders::new(alloc, initial)),
            lines: Rows::new(Lines::new(alloc, initial)),
            items: Rows::new(Items::new(alloc)),
            stocks: Rows::new(Stocks::new(alloc)),
        }
    }

    // Settles how many orders of each district the population had, where that is open yet: as many
    // as a district has customers.
    pub(crate) fn begin(&mut self)
        ensures { (given : Option ℕ) (t : Facts) → Keeps given t self.old
            → KeepsRows t self.new × IsBegun given t self.new }
    {
        let Initial::Open = self.initial else {
            return;
        };
        self.customers.kept.settle();
        let initial = customers_of_a_district(&self.customers.kept).unwrap_or(0);
        self.initial = Initial::Counted;
        self.orders.kept = Orders::new(self.alloc, initial);
        self.lines.kept = Lines::new(self.alloc, initial);
    }

    // Takes one fact more. Where memory is refused, its row may be in part of the sums.
    fn enter(&mut self, fact: &Fact) -> Result<(), AllocError>
        ensures { OnOk result ((given : Option ℕ) (t : Facts) → Keeps given t self.old
            → Keeps given (with_fact t fact.now) self.new) }
    {
        match fact {
            Fact::Warehouse(fact) => add_warehouse(&mut self.warehouses, fact),
            Fact::District(fact) => add_district(&mut self.districts, fact),
            Fact::Customer(fact) => {
                self.initial = behind_customer(self.initial);
                add_customer(&mut self.customers, fact)
            }
            Fact::History(fact) => add_history(&mut self.histories, fact),
            Fact::NewOrder(fact) => add_new_order(&mut self.new_orders, fact),
            Fact::Order(fact) => {
                self.begin();
                add_order(&mut self.orders, fact)
            }
            Fact::OrderLine(fact) => {
                self.begin();
                add_line(&mut self.lines, fact)
            }
            Fact::Item(fact) => add_item(&mut self.items, fact),
            Fact::Stock(fact) => add_stock(&mut self.stocks, fact),
        }
    }

    /// Takes one fact more. Where memory is refused, the books are lost; lost books take none.
    pub fn take(&mut self, fact: &Fact) -> Result<(), AllocError>
        ensures keeps { OnOk result ((given : Option ℕ) (t : Facts) → Keeps given t self.old
            → Keeps given (with_fact t fact.now) self.new) }
        ensures lost { self.new.is_lost ≡ is_err result }
        ensures stays { IsLost self.old → IsErr result × (self.new ≡ self.old) }
    {
        if self.is_lost {
            return Err(AllocError);
        }
        let entered = self.enter(fact);
        self.is_lost = entered.is_err();
        entered
    }

    // Takes in the rows of other books, of the tables that stand apart. None where both have rows of
    // one; some ledgers may have theirs then.
    fn take_all(&mut self, other: Books) -> Option<()>
        ensures keeps { OnSome result ((given own : Option ℕ) (t u : Facts) → Keeps given t self.old
            → Keeps own u other → Keeps given (with_apart t u) self.new) }
        ensures lost { self.new.is_lost ≡ self.old.is_lost }
        ensures cause { IfNone result (HaveBoth self.old other) }
        ensures refused { HaveBoth self.old other → IsNone result }
    {
        let Books {
            alloc: _,
            is_lost: _,
            initial: _,
            warehouses,
            districts,
            customers,
            histories,
            new_orders,
            orders,
            lines,
            items,
            stocks,
        } = other;
        drop(customers);
        drop(orders);
        drop(lines);
        let in_warehouses = self.warehouses.take_all(warehouses);
        let in_districts = self.districts.take_all(districts);
        let in_histories = self.histories.take_all(histories);
        let in_new_orders = self.new_orders.take_all(new_orders);
        let in_items = self.items.take_all(items);
        let in_stocks = self.stocks.take_all(stocks);
        in_warehouses
            .and(in_districts)
            .and(in_histories)
            .and(in_new_orders)
            .and(in_items)
            .and(in_stocks)
    }

    /// Takes in the rows of other books, but for those of CUSTOMER, ORDER and ORDER-LINE: where these
    /// come tells how many orders the population had. None exactly if both have rows of one of the
    /// tables taken in, or the others are lost; the books are lost then.
    pub fn append_apart(&mut self, other: Books) -> Option<()>
        ensures keeps { OnSome result ((given own : Option ℕ) (t u : Facts) → Keeps given t self.old
            → Keeps own u other → Keeps given (with_apart t u) self.new) }
        ensures lost { IfNone result (IsLost self.new) }
        ensures stays { OnSome result (self.new.is_lost ≡ self.old.is_lost) }
        ensures cause { IfNone result (IsLost other ⊎ HaveBoth self.old other) }
        ensures refused { IsLost other ⊎ HaveBoth self.old other → IsNone result }
    {
        if other.is_lost {
            drop(other);
            self.is_lost = true;
            return None;
        }
        match self.take_all(other) {
            Some(()) => Some(()),
            None => {
                self.is_lost = true;
                None
            }
        }
    }
}
