//! A table's ledger, with the number of its rows.
ghost use Rattle.std.specs.Prelude.{◌≡◌, ◌⊎◌, ◌<◌, ◌≤◌, ◌+◌, ◌^◌, [], OnOk, OnSome, IfNone};
ghost use Rattle.std.specs.Int.RustNames.{unsigned_abs};
ghost use Rattle.oe_ledgers.specs.Keeping.{KeepsWarehouses, KeepsCustomers, KeepsNewOrders, KeepsItems, KeepsStocks, Takes};
ghost use Rattle.oe_books.specs.Keeping.{in_64_bits, IsOf, BookDistricts, BookHistories, BookOrders, BookLines};

use oe_facts::facts::{
    CustomerFact, DistrictFact, HistoryFact, ItemFact, NewOrderFact, OrderFact, OrderLineFact,
    StockFact, WarehouseFact,
};
use oe_ledgers::{
    Customers, Districts, Histories, Items, NewOrders, OrderLines, Orders, Stocks, Warehouses,
};
use oe_line_numbers::numbers::LineNumbers;
use std::alloc::{AllocError, Global};

/// What is kept of a table's rows, and how many there are, at most 2^64 - 1.
#[derive(Drop)]
pub struct Rows<L> {
    pub kept: L,
    pub count: u64,
}

/// What is kept of ORDER-LINE rows: sums, and OL_NUMBERs by order.
#[derive(Drop)]
pub struct Lines {
    pub sums: OrderLines,
    pub numbers: LineNumbers,
}

impl<L> Rows<L> {
    /// Takes the rows of another ledger in, where one of both has none.
    pub(crate) fn take_all(&mut self, other: Rows<L>) -> Option<()>
    where
        L: Drop,
        ensures taken { OnSome result (((self.new ≡ self.old) × (other.count ≡ 0))
            ⊎ ((self.new ≡ other) × (self.old.count ≡ 0))) }
        ensures cause { IfNone result ((0 < self.old.count) × (0 < other.count)) }
    {
        if other.count == 0 {
            return Some(());
        }
        if self.count == 0 {
            *self = other;
            return Some(());
        }
        None
    }

    /// Takes a ledger without a row.
    pub(crate) fn new(kept: L) -> Rows<L>
        ensures { result ≡ record { kept = kept; count = 0 } }
    {
        Rows { kept, count: 0 }
    }
}

impl Lines {
    /// Begins without a row, where the population had `initial` orders in each district.
    pub(crate) fn new(alloc: Global, initial: u32) -> Lines
        ensures kept { BookLines [] result }
        ensures initial { result.sums.initial ≡ initial }
    {
        Lines {
            sums: OrderLines::new(alloc, initial),
            numbers: LineNumbers::new(alloc),
        }
    }

    /// Takes a row in. Where memory is refused, the row may be in part of the sums.
    fn add(&mut self, fact: &OrderLineFact) -> Result<(), AllocError>
        ensures kept { OnOk result (Takes BookLines self.old self.new fact.now) }
        ensures initial { self.new.sums.initial ≡ self.old.sums.initial }
    {
        within(&fact.amount);
        below(fact.quantity);
        if let Err(refused) = self.sums.add(fact) {
            return Err(refused);
        }
        self.numbers.add(fact)
    }
}

// Tells of an amount that 64 bits hold it.
fn within(amount: &i64)
    ensures { unsigned_abs amount.now ≤ 2 ^ 63 }
{
    let _amount = *amount;
}

// Tells of a number that 32 bits hold it.
fn below(number: u32)
    ensures { number < 2 ^ 32 }
{}

// Counts one row more.
fn count(rows: &mut u64)
    ensures { rows.new ≡ in_64_bits (rows.old + 1) }
{
    *rows = rows.saturating_add(1);
}

/// Takes a WAREHOUSE row in.
pub(crate) fn add_warehouse(
    rows: &mut Rows<Warehouses>,
    fact: &WarehouseFact,
) -> Result<(), AllocError>
    ensures { OnOk result (Takes (IsOf KeepsWarehouses) rows.old rows.new fact.now) }
{
    count(&mut rows.count);
    rows.kept.add(fact)
}

/// Takes a DISTRICT row in.
pub(crate) fn add_district(
    rows: &mut Rows<Districts>,
    fact: &DistrictFact,
) -> Result<(), AllocError>
    ensures { OnOk result (Takes (IsOf BookDistricts) rows.old rows.new fact.now) }
{
    within(&fact.ytd);
    count(&mut rows.count);
    rows.kept.add(fact)
}

/// Takes a CUSTOMER row in.
pub(crate) fn add_customer(
    rows: &mut Rows<Customers>,
    fact: &CustomerFact,
) -> Result<(), AllocError>
    ensures { OnOk result (Takes (IsOf KeepsCustomers) rows.old rows.new fact.now) }
{
    count(&mut rows.count);
    rows.kept.add(fact)
}

/// Takes a HISTORY row in.
pub(crate) fn add_history(rows: &mut Rows<Histories>, fact: &HistoryFact) -> Result<(), AllocError>
    ensures { OnOk result (Takes (IsOf BookHistories) rows.old rows.new fact.now) }
{
    within(&fact.amount);
    count(&mut rows.count);
    rows.kept.add(fact)
}

/// Takes a NEW-ORDER row in.
pub(crate) fn add_new_order(
    rows: &mut Rows<NewOrders>,
    fact: &NewOrderFact,
) -> Result<(), AllocError>
    ensures { OnOk result (Takes (IsOf KeepsNewOrders) rows.old rows.new fact.now) }
{
    count(&mut rows.count);
    rows.kept.add(fact)
}

/// Takes an ORDER row in.
pub(crate) fn add_order(rows: &mut Rows<Orders>, fact: &OrderFact) -> Result<(), AllocError>
    ensures kept { OnOk result (Takes (IsOf BookOrders) rows.old rows.new fact.now) }
    ensures initial { rows.new.kept.initial ≡ rows.old.kept.initial }
{
    below(fact.line_count);
    count(&mut rows.count);
    rows.kept.add(fact)
}

/// Takes an ORDER-LINE row in.
pub(crate) fn add_line(rows: &mut Rows<Lines>, fact: &OrderLineFact) -> Result<(), AllocError>
    ensures kept { OnOk result (Takes (IsOf BookLines) rows.old rows.new fact.now) }
    ensures initial { rows.new.kept.sums.initial ≡ rows.old.kept.sums.initial }
{
    count(&mut rows.count);
    rows.kept.add(fact)
}

/// Takes an ITEM row in.
pub(crate) fn add_item(rows: &mut Rows<Items>, fact: &ItemFact) -> Result<(), AllocError>
    ensures { OnOk result (Takes (IsOf KeepsItems) rows.old rows.new fact.now) }
{
    count(&mut rows.count);
    rows.kept.add(fact)
}

/// Takes a STOCK row in.
pub(crate) fn add_stock(rows: &mut Rows<Stocks>, fact: &StockFact) -> Result<(), AllocError>
    ensures { OnOk result (Takes (IsOf KeepsStocks) rows.old rows.new fact.now) }
{
    count(&mut rows.count);
    rows.kept.add(fact)
}
