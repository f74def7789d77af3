//! Rows inserted and deleted, without a record. Each has a function of its own, which stands in no
//! caller, so that its row is copied there alone.
ghost use Rattle.std.specs.Prelude.{◌≡◌, IfErr, OnOk, OnErr};
ghost use Rattle.oe_model.specs.Changes.{InsertHistory, InsertNewOrder, InsertOrder, InsertOrderLine, DeleteNewOrder};
ghost use Rattle.oe_writes.specs.Made.{IsApplied, IsRefused};

use oe_requests::Refusal;
use oe_rows::{History, HistoryKey, NewOrderKey, Order, OrderKey, OrderLine, OrderLineKey};
use oe_store::Tables;

/// Inserts a HISTORY row; refused as `insert_history` of `oe_change`.
#[inline(never)]
pub(crate) fn insert_history(
    tables: &mut Tables,
    key: &HistoryKey,
    row: &History,
) -> Result<(), Refusal>
    ensures applied { OnOk result
        (IsApplied (InsertHistory key.now row.now) tables.old tables.new) }
    ensures refused { IfErr result (IsRefused (InsertHistory key.now row.now) tables.old) }
    ensures unchanged { OnErr result (tables.new ≡ tables.old) }
{
    match oe_change::insert_history(tables, key, row.copied()) {
        Ok(_before) => Ok(()),
        Err(refusal) => Err(refusal),
    }
}

/// Inserts a NEW-ORDER row; refused as `insert_new_order` of `oe_change`.
#[inline(never)]
pub(crate) fn insert_new_order(tables: &mut Tables, key: &NewOrderKey) -> Result<(), Refusal>
    ensures applied { OnOk result
        (IsApplied (InsertNewOrder key.now (record {})) tables.old tables.new) }
    ensures refused { IfErr result (IsRefused (InsertNewOrder key.now (record {})) tables.old) }
    ensures unchanged { OnErr result (tables.new ≡ tables.old) }
{
    match oe_change::insert_new_order(tables, key) {
        Ok(_before) => Ok(()),
        Err(refusal) => Err(refusal),
    }
}

/// Inserts an ORDER row; refused as `insert_order` of `oe_change`.
#[inline(never)]
pub(crate) fn insert_order(tables: &mut Tables, key: &OrderKey, row: &Order) -> Result<(), Refusal>
    ensures applied { OnOk result (IsApplied (InsertOrder key.now row.now) tables.old tables.new) }
    ensures refused { IfErr result (IsRefused (InsertOrder key.now row.now) tables.old) }
    ensures unchanged { OnErr result (tables.new ≡ tables.old) }
{
    match oe_change::insert_order(tables, key, row.copied()) {
        Ok(_before) => Ok(()),
        Err(refusal) => Err(refusal),
    }
}

/// Inserts an ORDER-LINE row; refused as `insert_order_line` of `oe_change`.
#[inline(always)]
pub(crate) fn insert_order_line(
    tables: &mut Tables,
    key: &OrderLineKey,
    row: &OrderLine,
) -> Result<(), Refusal>
    ensures applied { OnOk result
        (IsApplied (InsertOrderLine key.now row.now) tables.old tables.new) }
    ensures refused { IfErr result (IsRefused (InsertOrderLine key.now row.now) tables.old) }
    ensures unchanged { OnErr result (tables.new ≡ tables.old) }
{
    match oe_change::insert_order_line(tables, key, row.copied()) {
        Ok(_before) => Ok(()),
        Err(refusal) => Err(refusal),
    }
}

/// Takes a NEW-ORDER row away; refused as `delete_new_order` of `oe_change`.
#[inline(never)]
pub(crate) fn delete_new_order(tables: &mut Tables, key: &NewOrderKey) -> Result<(), Refusal>
    ensures applied { OnOk result (IsApplied (DeleteNewOrder key.now) tables.old tables.new) }
    ensures refused { IfErr result (IsRefused (DeleteNewOrder key.now) tables.old) }
    ensures unchanged { OnErr result (tables.new ≡ tables.old) }
{
    match oe_change::delete_new_order(tables, key) {
        Ok(_before) => Ok(()),
        Err(refusal) => Err(refusal),
    }
}
