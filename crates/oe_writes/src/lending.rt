//! The records of writes that have whole rows, lent from where they lie.
ghost use Rattle.std.specs.Prelude.{◌≡◌, Some, None, option_map};
ghost use Rattle.std.specs.FinMap.{get};
ghost use Rattle.oe_model.specs.Changes.{UpdatedWarehouse, UpdatedDistrict, UpdatedCustomer, UpdatedOrder, UpdatedOrderLine, UpdatedStock};
ghost use Rattle.oe_layout.specs.Records.{record_of_lent};
ghost use Rattle.oe_store.specs.Places.{rows};

use oe_layout::LentRecord;
use oe_rows::{CustomerKey, DistrictKey, OrderKey, OrderLineKey, StockKey, WarehouseKey};
use oe_store::Tables;

/// Gives the record of an update of a warehouse, if that is there.
#[inline(always)]
pub(crate) fn warehouse<'a>(tables: &'a Tables, key: &WarehouseKey) -> Option<LentRecord<'a>>
    ensures { option_map record_of_lent result
        ≡ option_map (λ x. UpdatedWarehouse key.now (Some x))
        (get (rows tables.now).warehouses key.now) }
{
    match tables.warehouse(*key) {
        Some(row) => Some(LentRecord::UpdatedWarehouse(*key, row)),
        None => None,
    }
}

/// Gives the record of an update of a district, if that is there.
#[inline(always)]
pub(crate) fn district<'a>(tables: &'a Tables, key: &DistrictKey) -> Option<LentRecord<'a>>
    ensures { option_map record_of_lent result
        ≡ option_map (λ x. UpdatedDistrict key.now (Some x))
        (get (rows tables.now).districts key.now) }
{
    match tables.district(*key) {
        Some(row) => Some(LentRecord::UpdatedDistrict(*key, row)),
        None => None,
    }
}

/// Gives the record of an update of a customer, if that is there.
#[inline(always)]
pub(crate) fn customer<'a>(tables: &'a Tables, key: &CustomerKey) -> Option<LentRecord<'a>>
    ensures { option_map record_of_lent result
        ≡ option_map (λ x. UpdatedCustomer key.now (Some x))
        (get (rows tables.now).customers key.now) }
{
    match tables.customer(*key) {
        Some(row) => Some(LentRecord::UpdatedCustomer(*key, row)),
        None => None,
    }
}

/// Gives the record of an update of an order, if that is there.
#[inline(always)]
pub(crate) fn order<'a>(tables: &'a Tables, key: &OrderKey) -> Option<LentRecord<'a>>
    ensures { option_map record_of_lent result
        ≡ option_map (λ x. UpdatedOrder key.now (Some x)) (get (rows tables.now).orders key.now) }
{
    match tables.order(*key) {
        Some(row) => Some(LentRecord::UpdatedOrder(*key, row)),
        None => None,
    }
}

/// Gives the record of an update of an order's line, if that is there.
#[inline(always)]
pub(crate) fn order_line<'a>(tables: &'a Tables, key: &OrderLineKey) -> Option<LentRecord<'a>>
    ensures { option_map record_of_lent result
        ≡ option_map (λ x. UpdatedOrderLine key.now (Some x))
        (get (rows tables.now).order_lines key.now) }
{
    match tables.order_line(*key) {
        Some(row) => Some(LentRecord::UpdatedOrderLine(*key, row)),
        None => None,
    }
}

/// Gives the record of an update of a stock, if that is there.
#[inline(always)]
pub(crate) fn stock<'a>(tables: &'a Tables, key: &StockKey) -> Option<LentRecord<'a>>
    ensures { option_map record_of_lent result
        ≡ option_map (λ x. UpdatedStock key.now (Some x)) (get (rows tables.now).stocks key.now) }
{
    match tables.stock(*key) {
        Some(row) => Some(LentRecord::UpdatedStock(*key, row)),
        None => None,
    }
}
