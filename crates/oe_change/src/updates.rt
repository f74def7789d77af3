//! Updates and deletes: the key is there, O_C_ID stays, and what the row refers to is there. Only
//! another C_LAST takes memory, since customers are found by it.
ghost use Rattle.std.specs.Prelude.{◌≡◌, IfOk, IfErr, OnErr};
ghost use Rattle.oe_rows.specs.declared.layouts.Layout.{Layout};
ghost use Rattle.oe_model.specs.Changes.{UpdateWarehouse, UpdateDistrict, UpdateCustomer, UpdateOrder, UpdateOrderLine, UpdateStock, DeleteNewOrder};
ghost use Rattle.oe_store.specs.Places.{rows};
ghost use Rattle.oe_change.specs.Applies.{HasApplied, Refuses, IsFirst};

use crate::accepts::supply_key;
use crate::made::{
    customer_record, district_record, order_line_record, order_record, stock_record,
    warehouse_record,
};
use oe_layout::OwnRecord;
use oe_requests::Refusal;
use oe_rows::{
    Customer, CustomerKey, District, DistrictKey, Key, Layout, NewOrderKey, Order, OrderKey,
    OrderLine, OrderLineKey, Stock, StockKey, Warehouse, WarehouseKey,
};
use oe_store::Tables;

/// Puts another WAREHOUSE row in the place of a key's.
pub(crate) fn update_warehouse(
    tables: &mut Tables,
    layout: Layout,
    key: &WarehouseKey,
    row: Warehouse,
) -> Result<OwnRecord, Refusal>
    ensures applied { IfOk result
        (HasApplied layout (UpdateWarehouse key.now row) tables.old tables.new) }
    ensures refused { IfErr result (λ e. Refuses (UpdateWarehouse key.now row) tables.old e) }
    ensures first { IfErr result (λ e. IsFirst (UpdateWarehouse key.now row) (rows tables.old) e) }
    ensures unchanged { OnErr result (tables.new ≡ tables.old) }
{
    let Some(old) = tables.warehouse(*key) else {
        return Err(Refusal::NoSuchRow(Key::Warehouse(*key)));
    };
    let record = warehouse_record(layout, key, old, &row);
    drop(tables.update_warehouse(*key, row));
    Ok(record)
}

/// Puts another DISTRICT row in the place of a key's.
pub(crate) fn update_district(
    tables: &mut Tables,
    layout: Layout,
    key: &DistrictKey,
    row: District,
) -> Result<OwnRecord, Refusal>
    ensures applied { IfOk result
        (HasApplied layout (UpdateDistrict key.now row) tables.old tables.new) }
    ensures refused { IfErr result (λ e. Refuses (UpdateDistrict key.now row) tables.old e) }
    ensures first { IfErr result (λ e. IsFirst (UpdateDistrict key.now row) (rows tables.old) e) }
    ensures unchanged { OnErr result (tables.new ≡ tables.old) }
{
    let Some(old) = tables.district(*key) else {
        return Err(Refusal::NoSuchRow(Key::District(*key)));
    };
    let record = district_record(layout, key, old, &row);
    drop(tables.update_district(*key, row));
    Ok(record)
}

/// Puts another CUSTOMER row in the place of a key's. `NoMemory`: C_LAST is another, and its memory
/// was refused. Nothing has changed then.
#[inline(never)]
pub(crate) fn update_customer(
    tables: &mut Tables,
    layout: Layout,
    key: &CustomerKey,
    row: Customer,
) -> Result<OwnRecord, Refusal>
    ensures applied { IfOk result
        (HasApplied layout (UpdateCustomer key.now row) tables.old tables.new) }
    ensures refused { IfErr result (λ e. Refuses (UpdateCustomer key.now row) tables.old e) }
    ensures first { IfErr result (λ e. IsFirst (UpdateCustomer key.now row) (rows tables.old) e) }
    ensures unchanged { OnErr result (tables.new ≡ tables.old) }
{
    let Some(old) = tables.customer(*key) else {
        return Err(Refusal::NoSuchRow(Key::Customer(*key)));
    };
    let record = customer_record(layout, key, old, &row);
    match tables.update_customer(*key, row) {
        Ok(_before) => Ok(record),
        Err(_) => Err(Refusal::NoMemory),
    }
}

/// Puts another ORDER row with the same O_C_ID in the place of a key's.
pub(crate) fn update_order(
    tables: &mut Tables,
    layout: Layout,
    key: &OrderKey,
    row: Order,
) -> Result<OwnRecord, Refusal>
    ensures applied { IfOk result
        (HasApplied layout (UpdateOrder key.now row) tables.old tables.new) }
    ensures refused { IfErr result (λ e. Refuses (UpdateOrder key.now row) tables.old e) }
    ensures first { IfErr result (λ e. IsFirst (UpdateOrder key.now row) (rows tables.old) e) }
    ensures unchanged { OnErr result (tables.new ≡ tables.old) }
{
    let Some(old) = tables.order(*key) else {
        return Err(Refusal::NoSuchRow(Key::Order(*key)));
    };
    if row.customer != old.customer {
        return Err(Refusal::KeyColumn);
    }
    let record = order_record(layout, key, old, &row);
    drop(tables.update_order(*key, row));
    Ok(record)
}

/// Puts another ORDER-LINE row, whose stock is there, in the place of a key's.
pub(crate) fn update_order_line(
    tables: &mut Tables,
    layout: Layout,
    key: &OrderLineKey,
    row: OrderLine,
) -> Result<OwnRecord, Refusal>
    ensures applied { IfOk result
        (HasApplied layout (UpdateOrderLine key.now row) tables.old tables.new) }
    ensures refused { IfErr result (λ e. Refuses (UpdateOrderLine key.now row) tables.old e) }
    ensures first { IfErr result (λ e. IsFirst (UpdateOrderLine key.now row) (rows tables.old) e) }
    ensures unchanged { OnErr result (tables.new ≡ tables.old) }
{
    let Some(old) = tables.order_line(*key) else {
        return Err(Refusal::NoSuchRow(Key::OrderLine(*key)));
    };
    let supply = &supply_key(&row);
    if tables.stock(*supply).is_none() {
        return Err(Refusal::Reference(Key::Stock(*supply)));
    }
    let record = order_line_record(layout, key, old, &row);
    drop(tables.update_order_line(*key, row));
    Ok(record)
}

/// Puts another STOCK row in the place of a key's.
#[inline(never)]
pub(crate) fn update_stock(
    tables: &mut Tables,
    layout: Layout,
    key: &StockKey,
    row: Stock,
) -> Result<OwnRecord, Refusal>
    ensures applied { IfOk result
        (HasApplied layout (UpdateStock key.now row) tables.old tables.new) }
    ensures refused { IfErr result (λ e. Refuses (UpdateStock key.now row) tables.old e) }
    ensures first { IfErr result (λ e. IsFirst (UpdateStock key.now row) (rows tables.old) e) }
    ensures unchanged { OnErr result (tables.new ≡ tables.old) }
{
    let Some(old) = tables.stock(*key) else {
        return Err(Refusal::NoSuchRow(Key::Stock(*key)));
    };
    let record = stock_record(layout, key, old, &row);
    drop(tables.update_stock(*key, row));
    Ok(record)
}

/// Takes a NEW-ORDER row away and answers its undo record. Its key keeps its place, and it takes no
/// memory.
///
/// `NoSuchRow`: the row is absent. Nothing has changed then.
#[inline(always)]
pub fn delete_new_order(tables: &mut Tables, key: &NewOrderKey) -> Result<OwnRecord, Refusal>
    ensures applied { (l : Layout) → IfOk result
        (HasApplied l (DeleteNewOrder key.now) tables.old tables.new) }
    ensures refused { IfErr result (λ e. Refuses (DeleteNewOrder key.now) tables.old e) }
    ensures first { IfErr result (λ e. IsFirst (DeleteNewOrder key.now) (rows tables.old) e) }
    ensures unchanged { OnErr result (tables.new ≡ tables.old) }
{
    if tables.new_order(*key).is_none() {
        return Err(Refusal::NoSuchRow(Key::NewOrder(*key)));
    }
    let _row = tables.delete_new_order(*key);
    Ok(OwnRecord::DeletedNewOrder(*key))
}
