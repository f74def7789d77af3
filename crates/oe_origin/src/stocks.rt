//! The first STOCK row, in key order, that is not there, though its warehouse and its item are.
ghost use Rattle.std.specs.Prelude.{◌≡◌, MatchOption};
ghost use Rattle.std.specs.FinMap.{entries};
ghost use Rattle.oe_model.specs.Conditions.{IsStocked};
ghost use Rattle.oe_store.specs.Places.{rows};
ghost use Rattle.oe_origin.specs.Lacks.{IsFirstAbsent};
ghost use Rattle.oe_origin.specs.Walks.{stock_in, absent, first_absent, first_unstocked};

use oe_rows::{ItemKey, StockKey, WarehouseKey};
use oe_store::Tables;

// Gives the STOCK key of an item in a warehouse.
fn stock_in(warehouse: &WarehouseKey, item: &ItemKey) -> StockKey
    ensures { result ≡ stock_in warehouse.now item.now }
{
    StockKey {
        warehouse: warehouse.warehouse,
        item: item.item,
    }
}

// Gives the STOCK key of an item in a warehouse, where it has no row.
fn absent(tables: &Tables, warehouse: &WarehouseKey, item: &ItemKey) -> Option<StockKey>
    ensures { result ≡ absent (rows tables.now) warehouse.now item.now }
{
    match tables.stock(stock_in(warehouse, item)) {
        Some(_) => None,
        None => Some(stock_in(warehouse, item)),
    }
}

// Finds the first item that has no stock in a warehouse.
fn first_absent(tables: &Tables, warehouse: &WarehouseKey) -> Option<StockKey>
    ensures { result
        ≡ first_absent (rows tables.now) warehouse.now (entries (rows tables.now).items) }
{
    for (item, _) in tables.items() {
        if let Some(key) = absent(tables, warehouse, item) {
            return Some(key);
        }
    }
    None
}

// Finds the first item that has no stock in the first warehouse that has not all.
fn first_unstocked(tables: &Tables) -> Option<StockKey>
    ensures { result ≡ first_unstocked (rows tables.now) (entries (rows tables.now).warehouses) }
{
    for (warehouse, _) in tables.warehouses() {
        if let Some(key) = first_absent(tables, warehouse) {
            return Some(key);
        }
    }
    None
}

/// Finds the first STOCK row, in key order, that is not there, though its warehouse and its item
/// are.
pub(crate) fn no_stock(tables: &Tables) -> Option<StockKey>
    ensures { MatchOption result (IsStocked (rows tables.now)) (IsFirstAbsent (rows tables.now)) }
{
    first_unstocked(tables)
}
