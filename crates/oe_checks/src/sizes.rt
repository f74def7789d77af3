//! How many customers a district has, and that each warehouse stocks each item (clause 1.2.1).
ghost use Rattle.std.specs.Prelude.{◌≡◌, ◌++◌, OnOk, IfOk, List, nat_eq, pos};
ghost use Rattle.std.specs.Option.{option_map};
ghost use Rattle.std.specs.Ordering.{nat_cmp};
ghost use Rattle.oe_tally.specs.Tallies.{IsSettled};
ghost use Rattle.oe_tally.specs.Walks.{AreAll};
ghost use Rattle.oe_facts.specs.declared.facts.WarehouseFact.{WarehouseFact};
ghost use Rattle.oe_facts.specs.declared.facts.DistrictFact.{DistrictFact};
ghost use Rattle.oe_facts.specs.declared.facts.CustomerFact.{CustomerFact};
ghost use Rattle.oe_facts.specs.declared.facts.ItemFact.{ItemFact};
ghost use Rattle.oe_facts.specs.declared.facts.StockFact.{StockFact};
ghost use Rattle.oe_ledgers.specs.Keys.{same_district, district_cmp, same_stock, stock_cmp};
ghost use Rattle.oe_ledgers.specs.Keeping.{KeepsWarehouses, KeepsDistricts, KeepsCustomers};
ghost use Rattle.oe_ledgers.specs.Keeping.{KeepsItems, KeepsStocks};
ghost use Rattle.oe_ledgers.specs.Settling.{AreSettledWarehouses, AreSettledDistricts};
ghost use Rattle.oe_ledgers.specs.Settling.{AreSettledCustomers, AreSettledItems, AreSettledStocks};
ghost use Rattle.oe_ledgers.specs.Figures.{AreFew};
ghost use Rattle.oe_checks.specs.Comparing.{against};
ghost use Rattle.oe_checks.specs.Sizes.{IsOfFirst, customers_each, stock_apart, missing_of, all_missing};

use crate::figures::{Apart, differing};
use oe_facts::keys::{DistrictId, StockId};
use oe_ledgers::customers::Customers;
use oe_ledgers::districts::{DistrictSums, Districts};
use oe_ledgers::items::Items;
use oe_ledgers::stocks::{StockSums, Stocks};
use oe_ledgers::warehouses::{WarehouseSums, Warehouses};
use oe_tally::checks::{Check, findings};
use oe_tally::count::Count;
use oe_tally::tally::Tally;
use std::alloc::{AllocError, Global};

/// Gives the number of CUSTOMER rows of the first district, by warehouse and number, that has one.
pub fn customers_of_a_district(customers: &Customers) -> Option<u32>
    requires { AreSettledCustomers customers.now }
    ensures { (of_customers : List CustomerFact) → KeepsCustomers of_customers customers.now
        → AreFew of_customers → IsOfFirst of_customers result }
{
    let Some((first, _others)) = customers.by_district.entries().split_first() else {
        return None;
    };
    Some(first.1.rows)
}

#[derive(Drop)]
struct CustomersEach {
    each: u32,
}

impl Check<DistrictSums, Count> for CustomersEach {
    ghost use Rattle.std.specs.Prelude.{refl};

    type Wrong = Apart;

    ghost judged = { λ c row sum. against (option_map (λ s. pos c.each) row)
        (option_map (λ s. pos s.rows) sum) };

    ghost nothing = { λ _. refl };

    fn judge(&self, row: Option<DistrictSums>, sum: Option<Count>) -> Option<Apart>
        ensures { result ≡ against (option_map (λ s. pos self.now.each) row)
            (option_map (λ s. pos s.rows) sum) }
    {
        if row.is_none() {
            return None;
        }
        let second = match sum {
            Some(sum) => sum.rows as i128,
            None => 0,
        };
        differing(self.each as i128, second)
    }
}

/// Gives each district that has not `each` CUSTOMER rows, with `each` and their number.
pub fn customers_each(
    alloc: Global,
    each: u32,
    districts: &Districts,
    customers: &Customers,
) -> Result<Vec<(DistrictId, Apart)>, AllocError>
    requires districts { AreSettledDistricts districts.now }
    requires customers { AreSettledCustomers customers.now }
    ensures { (of_districts : List DistrictFact) (of_customers : List CustomerFact)
        → KeepsDistricts of_districts districts.now
        → AreFew of_districts
        → KeepsCustomers of_customers customers.now
        → AreFew of_customers
        → IfOk result (λ found. AreAll district_cmp same_district
        (customers_each each of_districts of_customers) found.items) }
{
    let check = CustomersEach { each };
    findings(
        alloc,
        &check,
        &districts.by_district,
        &customers.by_district,
    )
}

// Puts the items behind `found` of which the warehouse has no STOCK row.
fn add_missing(
    found: &mut Vec<(StockId, Apart)>,
    warehouse: u32,
    items: &[(u32, Count)],
    stocks: &Tally<StockId, StockSums>,
) -> Result<(), AllocError>
    requires { IsSettled stock_cmp stocks.now }
    ensures { OnOk result (found.new.items
        ≡ found.old.items ++ missing_of stocks.now warehouse items.now) }
{
    for entry in items {
        let key = StockId {
            warehouse,
            item: entry.0,
        };
        if stocks.get(&key).is_none() {
            let missing = Apart {
                first: 1,
                second: 0,
            };
            if let Err(_refused) = found.push((key, missing)) {
                return Err(AllocError);
            }
        }
    }
    Ok(())
}

// Gives all STOCK rows that are missing, in their order.
fn missing(
    alloc: Global,
    warehouses: &[(u32, WarehouseSums)],
    items: &[(u32, Count)],
    stocks: &Tally<StockId, StockSums>,
) -> Result<Vec<(StockId, Apart)>, AllocError>
    requires { IsSettled stock_cmp stocks.now }
    ensures { IfOk result (λ found. found.items ≡ all_missing stocks.now items.now warehouses.now) }
{
    let mut found = Vec::new(alloc);
    for entry in warehouses {
        if let Err(refused) = add_missing(&mut found, entry.0, items, stocks) {
            return Err(refused);
        }
    }
    Ok(found)
}

/// Gives each warehouse and item without a STOCK row, with 1, the rows that are asked for, and 0.
pub fn stocked(
    alloc: Global,
    warehouses: &Warehouses,
    items: &Items,
    stocks: &Stocks,
) -> Result<Vec<(StockId, Apart)>, AllocError>
    requires warehouses { AreSettledWarehouses warehouses.now }
    requires items { AreSettledItems items.now }
    requires stocks { AreSettledStocks stocks.now }
    ensures { (of_warehouses : List WarehouseFact) (of_items : List ItemFact)
        (of_stocks : List StockFact)
        → KeepsWarehouses of_warehouses warehouses.now
        → AreFew of_warehouses
        → KeepsItems of_items items.now
        → AreFew of_items
        → KeepsStocks of_stocks stocks.now
        → AreFew of_stocks
        → IfOk result (λ found. AreAll stock_cmp same_stock
        (stock_apart of_warehouses of_items of_stocks) found.items) }
{
    let there = warehouses.by_warehouse.entries();
    missing(alloc, there, items.by_item.entries(), &stocks.by_stock)
}
