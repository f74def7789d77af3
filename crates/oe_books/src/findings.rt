//! What each part of each check finds: the keys at which it fails, in order, with both figures.
ghost use Rattle.std.specs.Prelude.{◌≡◌, ℕ, Bool, List, Option, map, IfOk, IfSome};
ghost use Rattle.std.specs.declared.cmp.Ordering.{Ordering};
ghost use Rattle.oe_tally.specs.Walks.{AreAll};
ghost use Rattle.oe_books.specs.Facts.{Facts};
ghost use Rattle.oe_books.specs.Found.{AreOnce, Refers, Extends, Fails, Moves, AreGone, AreChanged, IsCompared, IsFound, ArePartsFound, AreChecksFound, AreResults, rows_each, Lists, finding_of, initial_of};
ghost use Rattle.oe_books.specs.Parts.{asked_checks};
ghost use Rattle.oe_earlier.specs.Traces.{Traced};
ghost use Rattle.oe_earlier.specs.Keeping.{KeepsCompared, AreSettledCompared};
ghost use Rattle.oe_books.specs.Closing.{AreSettled, IsReady, count_of};

use crate::closing::Settled;
use crate::keys::{Key, RowKey};
use crate::parts::{
    Asked, Before, Check, Condition, Extent, Lasting, Movement, Once, Part, Reference, asked_checks,
};
use oe_checks::accounts::{condition_10, condition_12};
use oe_checks::conditions::{
    condition_1, condition_2_of_new_orders, condition_2_of_orders, condition_3, condition_4,
    condition_5, condition_6, condition_7, condition_8, condition_9,
};
use oe_checks::figures::Apart;
use oe_checks::keys::{
    customers_once, districts_once, items_once, new_orders_once, orders_once, stocks_once,
    warehouses_once,
};
use oe_checks::movements::{
    all_local, delivery_count, payment_count, stock_orders, stock_quantity, stock_remote, stock_ytd,
};
use oe_checks::references::{
    customers_refer, districts_refer, histories_refer_to_customers, histories_refer_to_districts,
    lines_refer_to_orders, lines_refer_to_stocks, new_orders_refer, orders_refer,
    stocks_refer_to_items, stocks_refer_to_warehouses,
};
use oe_checks::schema::{orders_without_gap, ten_districts};
use oe_checks::sizes::{customers_each, stocked};
use oe_earlier::{Compared, changed, gone, moved};
use oe_facts::Table;
use oe_line_numbers::numbers::lines_once;
use std::alloc::{AllocError, Global};

/// A key at which a check fails, with both figures.
#[derive(Drop)]
pub struct Finding {
    pub key: Key,
    pub apart: Apart,
}

/// What a part of a check finds.
#[derive(Drop)]
pub struct PartFound {
    pub part: Part,
    pub found: Vec<Finding>,
}

/// What a check finds, part by part.
#[derive(Drop)]
pub struct CheckFound {
    pub check: Check,
    pub parts: Vec<PartFound>,
}

/// How many rows a table has.
#[derive(Clone, Copy)]
pub struct TableRows {
    pub table: Table,
    pub rows: u64,
}

/// How many rows each table has, and what each check finds.
#[derive(Drop)]
pub struct Results {
    pub rows: [TableRows; 9],
    pub checks: Vec<CheckFound>,
}

// Gives the numbers of keys, with both figures of each.
fn shown<K: RowKey>(alloc: Global, entries: &[(K, Apart)]) -> Result<Vec<Finding>, AllocError>
    ensures { IfOk result (λ found. found.items ≡ map (finding_of K.numbers) entries.now) }
{
    let mut found = Vec::new(alloc);
    for entry in entries {
        let finding = Finding {
            key: entry.0.key(),
            apart: entry.1,
        };
        if let Err(_refused) = found.push(finding) {
            return Err(AllocError);
        }
    }
    Ok(found)
}

// Lists keys of a kind by their numbers.
fn listed<K: RowKey + Drop>(
    alloc: Global,
    entries: Result<Vec<(K, Apart)>, AllocError>,
) -> Result<Vec<Finding>, AllocError>
    ensures { (cmp : K → K → Ordering) (same : K → K → Bool) (wrong : K → Option Apart)
        → IfOk entries (λ es. AreAll cmp same wrong es.items)
        → IfOk result (λ found. Lists K.numbers cmp same wrong found.items) }
{
    match entries {
        Ok(entries) => shown(alloc, &entries),
        Err(refused) => Err(refused),
    }
}

// Gives what a part finds.
fn once_found(alloc: Global, part: Once, s: &Settled) -> Result<Vec<Finding>, AllocError>
    requires { AreSettled s.now }
    ensures { (given : Option ℕ) (t : Facts) → IsReady given t s.now
        → IfOk result (λ found. AreOnce (initial_of s.now) s.now.each t part found.items) }
{
    match part {
        Once::Warehouses => listed(alloc, warehouses_once(alloc, &s.books.warehouses.kept)),
        Once::Districts => listed(alloc, districts_once(alloc, &s.books.districts.kept)),
        Once::Customers => listed(alloc, customers_once(alloc, &s.books.customers.kept)),
        Once::NewOrders => listed(alloc, new_orders_once(alloc, &s.books.new_orders.kept)),
        Once::Orders => listed(alloc, orders_once(alloc, &s.books.orders.kept)),
        Once::Lines => listed(alloc, lines_once(alloc, &s.books.lines.kept.numbers)),
        Once::Items => listed(alloc, items_once(alloc, &s.books.items.kept)),
        Once::Stocks => listed(alloc, stocks_once(alloc, &s.books.stocks.kept)),
    }
}

// Gives what a part finds.
fn references_found(alloc: Global, part: Reference, s: &Settled) -> Result<Vec<Finding>, AllocError>
    requires { AreSettled s.now }
    ensures { (given : Option ℕ) (t : Facts) → IsReady given t s.now
        → IfOk result (λ found. Refers (initial_of s.now) s.now.each t part found.items) }
{
    match part {
        Reference::DistrictWarehouse => listed(
            alloc,
            districts_refer(alloc, &s.books.districts.kept, &s.books.warehouses.kept),
        ),
        Reference::CustomerDistrict => listed(
            alloc,
            customers_refer(alloc, &s.books.customers.kept, &s.books.districts.kept),
        ),
        Reference::HistoryCustomer => listed(
            alloc,
            histories_refer_to_customers(alloc, &s.books.histories.kept, &s.books.customers.kept),
        ),
        Reference::HistoryDistrict => listed(
            alloc,
            histories_refer_to_districts(alloc, &s.books.histories.kept, &s.books.districts.kept),
        ),
        Reference::NewOrderOrder => listed(
            alloc,
            new_orders_refer(alloc, &s.books.new_orders.kept, &s.books.orders.kept),
        ),
        Reference::OrderCustomer => listed(
            alloc,
            orders_refer(alloc, &s.books.orders.kept, &s.books.customers.kept),
        ),
        Reference::LineOrder => listed(
            alloc,
            lines_refer_to_orders(alloc, &s.books.lines.kept.sums, &s.books.orders.kept),
        ),
        Reference::LineStock => listed(
            alloc,
            lines_refer_to_stocks(alloc, &s.books.lines.kept.sums, &s.books.stocks.kept),
        ),
        Reference::StockWarehouse => listed(
            alloc,
            stocks_refer_to_warehouses(alloc, &s.books.stocks.kept, &s.books.warehouses.kept),
        ),
        Reference::StockItem => listed(
            alloc,
            stocks_refer_to_items(alloc, &s.books.stocks.kept, &s.books.items.kept),
        ),
    }
}

// Gives what a part finds.
fn extents_found(alloc: Global, part: Extent, s: &Settled) -> Result<Vec<Finding>, AllocError>
    requires { AreSettled s.now }
    ensures { (given : Option ℕ) (t : Facts) → IsReady given t s.now
        → IfOk result (λ found. Extends (initial_of s.now) s.now.each t part found.items) }
{
    match part {
        Extent::Districts => listed(
            alloc,
            ten_districts(alloc, &s.books.warehouses.kept, &s.books.districts.kept),
        ),
        Extent::Stocks => listed(
            alloc,
            stocked(
                alloc,
                &s.books.warehouses.kept,
                &s.books.items.kept,
                &s.books.stocks.kept,
            ),
        ),
        Extent::Customers => listed(
            alloc,
            customers_each(
                alloc,
                s.each,
                &s.books.districts.kept,
                &s.books.customers.kept,
            ),
        ),
        Extent::Orders => listed(alloc, orders_without_gap(alloc, &s.books.orders.kept)),
    }
}

// Gives what a part finds.
fn conditions_found(alloc: Global, part: Condition, s: &Settled) -> Result<Vec<Finding>, AllocError>
    requires { AreSettled s.now }
    ensures { (given : Option ℕ) (t : Facts) → IsReady given t s.now
        → IfOk result (λ found. Fails (initial_of s.now) s.now.each t part found.items) }
{
    match part {
        Condition::First => listed(
            alloc,
            condition_1(alloc, &s.books.warehouses.kept, &s.books.districts.kept),
        ),
        Condition::SecondOfOrders => listed(
            alloc,
            condition_2_of_orders(alloc, &s.books.districts.kept, &s.books.orders.kept),
        ),
        Condition::SecondOfNewOrders => listed(
            alloc,
            condition_2_of_new_orders(alloc, &s.books.districts.kept, &s.books.new_orders.kept),
        ),
        Condition::Third => listed(alloc, condition_3(alloc, &s.books.new_orders.kept)),
        Condition::Fourth => listed(
            alloc,
            condition_4(alloc, &s.books.orders.kept, &s.books.lines.kept.sums),
        ),
        Condition::Fifth => listed(
            alloc,
            condition_5(alloc, &s.books.orders.kept, &s.books.new_orders.kept),
        ),
        Condition::Sixth => listed(
            alloc,
            condition_6(alloc, &s.books.orders.kept, &s.books.lines.kept.sums),
        ),
        Condition::Seventh => listed(
            alloc,
            condition_7(alloc, &s.books.orders.kept, &s.books.lines.kept.sums),
        ),
        Condition::Eighth => listed(
            alloc,
            condition_8(alloc, &s.books.warehouses.kept, &s.books.histories.kept),
        ),
        Condition::Ninth => listed(
            alloc,
            condition_9(alloc, &s.books.districts.kept, &s.books.histories.kept),
        ),
        Condition::Tenth => listed(
            alloc,
            condition_10(
                alloc,
                &s.books.customers.kept,
                &s.delivered,
                &s.books.histories.kept,
            ),
        ),
        Condition::Twelfth => listed(
            alloc,
            condition_12(alloc, &s.books.customers.kept, &s.delivered),
        ),
    }
}

// Gives what a part finds.
fn movements_found(alloc: Global, part: Movement, s: &Settled) -> Result<Vec<Finding>, AllocError>
    requires { AreSettled s.now }
    ensures { (given : Option ℕ) (t : Facts) → IsReady given t s.now
        → IfOk result (λ found. Moves (initial_of s.now) s.now.each t part found.items) }
{
    match part {
        Movement::StockYtd => listed(
            alloc,
            stock_ytd(alloc, &s.books.stocks.kept, &s.books.lines.kept.sums),
        ),
        Movement::StockOrders => listed(
            alloc,
            stock_orders(alloc, &s.books.stocks.kept, &s.books.lines.kept.sums),
        ),
        Movement::StockRemote => listed(
            alloc,
            stock_remote(alloc, &s.books.stocks.kept, &s.books.lines.kept.sums),
        ),
        Movement::PaymentCount => listed(
            alloc,
            payment_count(alloc, &s.books.customers.kept, &s.books.histories.kept),
        ),
        Movement::DeliveryCount => listed(
            alloc,
            delivery_count(alloc, &s.books.customers.kept, &s.books.orders.kept),
        ),
        Movement::AllLocal => listed(
            alloc,
            all_local(alloc, &s.books.orders.kept, &s.books.lines.kept.sums),
        ),
        Movement::Quantity => listed(alloc, stock_quantity(alloc, &s.books.stocks.kept)),
    }
}

// Gives the rows of a table that are gone.
fn gone_found(
    alloc: Global,
    table: Lasting,
    compared: &Compared,
) -> Result<Vec<Finding>, AllocError>
    requires { AreSettledCompared compared.now }
    ensures { (b n : Traced) → KeepsCompared b n compared.now
        → IfOk result (λ found. AreGone b n table found.items) }
{
    let before = &compared.before;
    let now = &compared.current;
    match table {
        Lasting::Warehouses => listed(alloc, gone(alloc, &before.warehouses, &now.warehouses)),
        Lasting::Districts => listed(alloc, gone(alloc, &before.districts, &now.districts)),
        Lasting::Customers => listed(alloc, gone(alloc, &before.customers, &now.customers)),
        Lasting::Items => listed(alloc, gone(alloc, &before.items, &now.items)),
        Lasting::Stocks => listed(alloc, gone(alloc, &before.stocks, &now.stocks)),
    }
}

// Gives the rows of a table whose columns have changed that no transaction changes.
fn changed_found(
    alloc: Global,
    table: Lasting,
    compared: &Compared,
) -> Result<Vec<Finding>, AllocError>
    requires { AreSettledCompared compared.now }
    ensures { (b n : Traced) → KeepsCompared b n compared.now
        → IfOk result (λ found. AreChanged b n table found.items) }
{
    let before = &compared.before;
    let now = &compared.current;
    match table {
        Lasting::Warehouses => listed(alloc, changed(alloc, &before.warehouses, &now.warehouses)),
        Lasting::Districts => listed(alloc, changed(alloc, &before.districts, &now.districts)),
        Lasting::Customers => listed(alloc, changed(alloc, &before.customers, &now.customers)),
        Lasting::Items => listed(alloc, changed(alloc, &before.items, &now.items)),
        Lasting::Stocks => listed(alloc, changed(alloc, &before.stocks, &now.stocks)),
    }
}

// Gives what a part finds.
fn before_found(
    alloc: Global,
    part: Before,
    compared: &Compared,
) -> Result<Vec<Finding>, AllocError>
    requires { AreSettledCompared compared.now }
    ensures { (b n : Traced) → KeepsCompared b n compared.now
        → IfOk result (λ found. IsCompared b n part found.items) }
{
    match part {
        Before::Gone(table) => gone_found(alloc, table, compared),
        Before::Changed(table) => changed_found(alloc, table, compared),
        Before::Moved => {
            let before = &compared.before.residues;
            listed(alloc, moved(alloc, before, &compared.current.residues))
        }
    }
}

/// Gives what a part of a check finds.
pub fn found(
    alloc: Global,
    part: Part,
    settled: &Settled,
    compared: &Compared,
) -> Result<Vec<Finding>, AllocError>
    requires settled { AreSettled settled.now }
    requires compared { AreSettledCompared compared.now }
    ensures { (given : Option ℕ) (t : Facts) → IsReady given t settled.now
        → (b n : Traced) → KeepsCompared b n compared.now → IfOk result
        (λ found. IsFound (initial_of settled.now) settled.now.each t b n part found.items) }
{
    match part {
        Part::Once(part) => once_found(alloc, part, settled),
        Part::Reference(part) => references_found(alloc, part, settled),
        Part::Extent(part) => extents_found(alloc, part, settled),
        Part::Condition(part) => conditions_found(alloc, part, settled),
        Part::Movement(part) => movements_found(alloc, part, settled),
        Part::Before(part) => before_found(alloc, part, compared),
    }
}

// Gives what parts of a check find.
fn parts_found(
    alloc: Global,
    parts: &[Part],
    settled: &Settled,
    compared: &Compared,
) -> Result<Vec<PartFound>, AllocError>
    requires settled { AreSettled settled.now }
    requires compared { AreSettledCompared compared.now }
    ensures { (given : Option ℕ) (t : Facts) → IsReady given t settled.now
        → (b n : Traced) → KeepsCompared b n compared.now → IfOk result
        (λ found. ArePartsFound (initial_of settled.now) settled.now.each t b n parts.now
        found.items) }
{
    let mut all = Vec::new(alloc);
    for part in parts {
        let found = match found(alloc, *part, settled, compared) {
            Ok(found) => found,
            Err(refused) => return Err(refused),
        };
        if let Err(_refused) = all.push(PartFound { part: *part, found }) {
            return Err(AllocError);
        }
    }
    Ok(all)
}

// Gives what each check finds, in the order of a report.
fn all_found(
    alloc: Global,
    checks: &[Check],
    settled: &Settled,
    compared: &Compared,
) -> Result<Vec<CheckFound>, AllocError>
    requires settled { AreSettled settled.now }
    requires compared { AreSettledCompared compared.now }
    ensures { (given : Option ℕ) (t : Facts) → IsReady given t settled.now
        → (b n : Traced) → KeepsCompared b n compared.now → IfOk result
        (λ found. AreChecksFound (initial_of settled.now) settled.now.each t b n checks.now
        found.items) }
{
    let mut all = Vec::new(alloc);
    for check in checks {
        let parts = match parts_found(alloc, check.parts(), settled, compared) {
            Ok(parts) => parts,
            Err(refused) => return Err(refused),
        };
        if let Err(_refused) = all.push(CheckFound {
            check: *check,
            parts,
        }) {
            return Err(AllocError);
        }
    }
    Ok(all)
}

impl Settled {
    // Counts the rows of a table.
    fn rows_of(&self, table: Table) -> TableRows
        ensures { result ≡ record { table = table; rows = count_of self.now.books table } }
    {
        TableRows {
            table,
            rows: self.books.count(table),
        }
    }

    // Counts the rows of each table.
    fn rows(&self) -> [TableRows; 9]
        ensures { (given : Option ℕ) (t : Facts) → IsReady given t self.now →
            result ≡ rows_each t }
    {
        [
            self.rows_of(Table::Warehouse),
            self.rows_of(Table::District),
            self.rows_of(Table::Customer),
            self.rows_of(Table::History),
            self.rows_of(Table::NewOrder),
            self.rows_of(Table::Order),
            self.rows_of(Table::OrderLine),
            self.rows_of(Table::Item),
            self.rows_of(Table::Stock),
        ]
    }

    /// Counts the rows of each table, and gives what each check finds. Earlier rows are looked at
    /// by the checks against them alone.
    pub fn results(
        &self,
        alloc: Global,
        asked: Asked,
        compared: &Compared,
    ) -> Result<Results, AllocError>
        requires settled { AreSettled self.now }
        requires compared { AreSettledCompared compared.now }
        ensures { (given : Option ℕ) (t : Facts) → IsReady given t self.now
            → (b n : Traced) → KeepsCompared b n compared.now → IfOk result
            (AreResults (initial_of self.now) self.now.each t b n (asked_checks asked)) }
    {
        match all_found(alloc, asked_checks(asked), self, compared) {
            Ok(checks) => Ok(Results {
                rows: self.rows(),
                checks,
            }),
            Err(refused) => Err(refused),
        }
    }
}
