//! The test of a population: whether a core may be opened on these tables. Each table is walked
//! once for each of the conditions that it asks.
ghost use Rattle.std.specs.Prelude.{◌≡◌, ◌↔◌, ◌==◌, IsTrue, is_some};
ghost use Rattle.std.specs.FinMap.{get};
ghost use Rattle.oe_model.specs.Conditions.{IsPopulation};
ghost use Rattle.oe_model.specs.PopulationTest.{each_row, has_stocks};
ghost use Rattle.oe_model.specs.Verdicts.{IsMet};
ghost use Rattle.oe_store.specs.Places.{rows};
ghost use Rattle.oe_machine.specs.Verdict.{condition_of};
ghost use Rattle.oe_audit.specs.Verdict.{AreMet};
ghost use Rattle.oe_audit.specs.Tests.{stocks_each_item};

use crate::conditions::condition;
use oe_requests::{Condition, Verdict};
use oe_rows::{StockKey, WarehouseKey};
use oe_store::Tables;

/// Tells whether a condition holds.
fn holds(number: Condition, tables: &Tables) -> bool
    ensures { IsTrue result ↔ IsMet (condition_of number) (rows tables.now) }
{
    match condition(number, tables) {
        Verdict::Holds => true,
        Verdict::Fails(_) => false,
    }
}

/// Tells whether conditions 1 to 4 hold (clause 3.3.2).
fn are_met(tables: &Tables) -> bool
    ensures { IsTrue result ↔ AreMet (rows tables.now) }
{
    holds(Condition::First, tables)
        && holds(Condition::Second, tables)
        && holds(Condition::Third, tables)
        && holds(Condition::Fourth, tables)
}

/// Tells whether a key has a STOCK row.
fn has_stock(tables: &Tables, key: StockKey) -> bool
    ensures { result ≡ is_some (get (rows tables.now).stocks key) }
{
    tables.stock(key).is_some()
}

/// Tells whether a warehouse has a STOCK row for each ITEM row.
fn is_stocked(tables: &Tables, key: WarehouseKey) -> bool
    ensures { result ≡ stocks_each_item (rows tables.now) key }
{
    tables.items().all(|(item, _)| {
        let stock = StockKey {
            warehouse: key.warehouse,
            item: item.item,
        };
        has_stock(tables, stock)
    })
}

/// Tells whether each warehouse has a STOCK row for each ITEM row.
fn are_stocked(tables: &Tables) -> bool
    ensures { result ≡ has_stocks (rows tables.now) }
{
    tables.warehouses().all(|(key, _)| is_stocked(tables, *key))
}

/// Tells whether each HISTORY row is of terminal 0, the population's.
fn are_of_population(tables: &Tables) -> bool
    ensures { result ≡ each_row (λ k x. k.terminal == 0) (rows tables.now).histories }
{
    tables.histories().all(|(key, _)| key.terminal.get() == 0)
}

/// Tells whether the tables are such as to begin from: conditions 1 to 4 hold (clause 3.3.2), and
/// by the second each district has an order; each warehouse has a STOCK row for each ITEM row; and
/// each HISTORY row is of terminal 0. The schema holds by the tables' type. No memory is taken.
pub fn is_population(tables: &Tables) -> bool
    ensures { IsTrue result ↔ IsPopulation (rows tables.now) }
{
    tables.schema_holds();
    if !are_met(tables) {
        return false;
    }
    if !are_stocked(tables) {
        return false;
    }
    are_of_population(tables)
}
