//! Inserts of rows that the tables accept. A key without a place takes memory. The undo record is
//! the same in each layout.
ghost use Rattle.std.specs.Prelude.{◌≡◌, IfOk, IfErr, OnErr};
ghost use Rattle.oe_rows.specs.declared.layouts.Layout.{Layout};
ghost use Rattle.oe_model.specs.Changes.{InsertHistory, InsertNewOrder, InsertOrder, InsertOrderLine};
ghost use Rattle.oe_store.specs.Places.{rows};
ghost use Rattle.oe_change.specs.Applies.{HasApplied, Refuses, IsFirst};

use crate::accepts::{accept_history, accept_new_order, accept_order, accept_order_line};
use oe_layout::OwnRecord;
use oe_requests::Refusal;
use oe_rows::{
    History, HistoryKey, NewOrder, NewOrderKey, Order, OrderKey, OrderLine, OrderLineKey,
};
use oe_store::Tables;

/// Inserts a HISTORY row, which refers to a customer and a district, and answers its undo record.
///
/// `RowExists`: the key is there. `Reference`: the customer is absent, or else the district (clause
/// 1.4). `NoMemory`: the tables accept the row, but its key takes a new place, and its memory was
/// refused. Nothing has changed then.
#[inline(always)]
pub fn insert_history(
    tables: &mut Tables,
    key: &HistoryKey,
    row: History,
) -> Result<OwnRecord, Refusal>
    ensures applied { (l : Layout) → IfOk result
        (HasApplied l (InsertHistory key.now row) tables.old tables.new) }
    ensures refused { IfErr result (λ e. Refuses (InsertHistory key.now row) tables.old e) }
    ensures first { IfErr result (λ e. IsFirst (InsertHistory key.now row) (rows tables.old) e) }
    ensures unchanged { OnErr result (tables.new ≡ tables.old) }
{
    if let Err(refusal) = accept_history(tables, key, &row) {
        return Err(refusal);
    }
    match tables.insert_history(*key, row) {
        Ok(()) => Ok(OwnRecord::InsertedHistory(*key)),
        Err(_) => Err(Refusal::NoMemory),
    }
}

/// Inserts a NEW-ORDER row, which refers to its order, and answers its undo record.
///
/// `RowExists`: the key is there. `Reference`: its order is absent (clause 1.4). `NoMemory`: the
/// tables accept the row, but its key takes a new place, and its memory was refused. Nothing has
/// changed then.
#[inline(always)]
pub fn insert_new_order(tables: &mut Tables, key: &NewOrderKey) -> Result<OwnRecord, Refusal>
    ensures applied { (l : Layout) → IfOk result (
        HasApplied l (InsertNewOrder key.now (record {})) tables.old tables.new) }
    ensures refused { IfErr result (Refuses (InsertNewOrder key.now (record {})) tables.old) }
    ensures first { IfErr result (IsFirst (InsertNewOrder key.now (record {})) (rows tables.old)) }
    ensures unchanged { OnErr result (tables.new ≡ tables.old) }
{
    if let Err(refusal) = accept_new_order(tables, key) {
        return Err(refusal);
    }
    match tables.insert_new_order(*key, NewOrder) {
        Ok(()) => Ok(OwnRecord::InsertedNewOrder(*key)),
        Err(_) => Err(Refusal::NoMemory),
    }
}

/// Inserts an ORDER row, which refers to its customer, and answers its undo record.
///
/// `RowExists`: the key is there. `Reference`: its customer is absent (clause 1.4). `NoMemory`: the
/// tables accept the row, but its key takes a new place, and its memory was refused. Nothing has
/// changed then.
#[inline(always)]
pub fn insert_order(tables: &mut Tables, key: &OrderKey, row: Order) -> Result<OwnRecord, Refusal>
    ensures applied { (l : Layout) → IfOk result
        (HasApplied l (InsertOrder key.now row) tables.old tables.new) }
    ensures refused { IfErr result (λ e. Refuses (InsertOrder key.now row) tables.old e) }
    ensures first { IfErr result (λ e. IsFirst (InsertOrder key.now row) (rows tables.old) e) }
    ensures unchanged { OnErr result (tables.new ≡ tables.old) }
{
    if let Err(refusal) = accept_order(tables, key, &row) {
        return Err(refusal);
    }
    match tables.insert_order(*key, row) {
        Ok(()) => Ok(OwnRecord::InsertedOrder(*key)),
        Err(_) => Err(Refusal::NoMemory),
    }
}

/// Inserts an ORDER-LINE row, which refers to its order and to the stock that it is supplied from,
/// and answers its undo record.
///
/// `RowExists`: the key is there. `Reference`: its order is absent, or else the stock (clause 1.4).
/// `NoMemory`: the tables accept the row, but its key takes a new place, and its memory was
/// refused. Nothing has changed then.
#[inline(always)]
pub fn insert_order_line(
    tables: &mut Tables,
    key: &OrderLineKey,
    row: OrderLine,
) -> Result<OwnRecord, Refusal>
    ensures applied { (l : Layout) → IfOk result
        (HasApplied l (InsertOrderLine key.now row) tables.old tables.new) }
    ensures refused { IfErr result (λ e. Refuses (InsertOrderLine key.now row) tables.old e) }
    ensures first { IfErr result (λ e. IsFirst (InsertOrderLine key.now row) (rows tables.old) e) }
    ensures unchanged { OnErr result (tables.new ≡ tables.old) }
{
    if let Err(refusal) = accept_order_line(tables, key, &row) {
        return Err(refusal);
    }
    match tables.insert_order_line(*key, row) {
        Ok(()) => Ok(OwnRecord::InsertedOrderLine(*key)),
        Err(_) => Err(Refusal::NoMemory),
    }
}
