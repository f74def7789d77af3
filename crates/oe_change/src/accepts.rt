//! Which rows the tables accept to be inserted: the key is absent, and what the row refers to is
//! there. Nothing is changed.
ghost use Rattle.std.specs.Prelude.{◌≡◌, IfErr, OnOk};
ghost use Rattle.oe_model.specs.Keys.{supply_of_line};
ghost use Rattle.oe_model.specs.Changes.{InsertHistory, InsertNewOrder, InsertOrder, InsertOrderLine};
ghost use Rattle.oe_model.specs.Meets.{Accepts, Cause};
ghost use Rattle.oe_store.specs.Places.{rows};
ghost use Rattle.oe_change.specs.Applies.{IsFirst};

use oe_requests::Refusal;
use oe_rows::{
    History, HistoryKey, Key, NewOrderKey, Order, OrderKey, OrderLine, OrderLineKey, StockKey,
};
use oe_store::Tables;

/// Tells whether the tables accept a HISTORY row, which refers to a customer and a district.
///
/// `RowExists`: the key is there. `Reference`: the customer is absent, or else the district (clause
/// 1.4).
#[inline(always)]
pub fn accept_history(tables: &Tables, key: &HistoryKey, row: &History) -> Result<(), Refusal>
    ensures accepted { OnOk result (Accepts (InsertHistory key.now row.now) (rows tables.now)) }
    ensures cause { IfErr result (Cause (InsertHistory key.now row.now) (rows tables.now)) }
    ensures first { IfErr result (IsFirst (InsertHistory key.now row.now) (rows tables.now)) }
{
    if tables.history(*key).is_some() {
        return Err(Refusal::RowExists(Key::History(*key)));
    }
    let customer = &row.customer;
    if tables.customer(*customer).is_none() {
        return Err(Refusal::Reference(Key::Customer(*customer)));
    }
    let district = &row.district;
    if tables.district(*district).is_none() {
        return Err(Refusal::Reference(Key::District(*district)));
    }
    Ok(())
}

/// Tells whether the tables accept a NEW-ORDER row, which refers to its order.
///
/// `RowExists`: the key is there. `Reference`: its order is absent (clause 1.4).
#[inline(always)]
pub fn accept_new_order(tables: &Tables, key: &NewOrderKey) -> Result<(), Refusal>
    ensures accepted { OnOk result
        (Accepts (InsertNewOrder key.now (record {})) (rows tables.now)) }
    ensures cause { IfErr result (Cause (InsertNewOrder key.now (record {})) (rows tables.now)) }
    ensures first { IfErr result (IsFirst (InsertNewOrder key.now (record {})) (rows tables.now)) }
{
    if tables.new_order(*key).is_some() {
        return Err(Refusal::RowExists(Key::NewOrder(*key)));
    }
    let order = &key.order_key();
    if tables.order(*order).is_none() {
        return Err(Refusal::Reference(Key::Order(*order)));
    }
    Ok(())
}

/// Tells whether the tables accept an ORDER row, which refers to its customer.
///
/// `RowExists`: the key is there. `Reference`: its customer is absent (clause 1.4).
#[inline(always)]
pub fn accept_order(tables: &Tables, key: &OrderKey, row: &Order) -> Result<(), Refusal>
    ensures accepted { OnOk result (Accepts (InsertOrder key.now row.now) (rows tables.now)) }
    ensures cause { IfErr result (Cause (InsertOrder key.now row.now) (rows tables.now)) }
    ensures first { IfErr result (IsFirst (InsertOrder key.now row.now) (rows tables.now)) }
{
    if tables.order(*key).is_some() {
        return Err(Refusal::RowExists(Key::Order(*key)));
    }
    let customer = &key.district_key().customer(row.customer);
    if tables.customer(*customer).is_none() {
        return Err(Refusal::Reference(Key::Customer(*customer)));
    }
    Ok(())
}

/// Tells whether the tables accept an ORDER-LINE row, which refers to its order and to the stock
/// that it is supplied from.
///
/// `RowExists`: the key is there. `Reference`: its order is absent, or else the stock (clause 1.4).
#[inline(always)]
pub fn accept_order_line(
    tables: &Tables,
    key: &OrderLineKey,
    row: &OrderLine,
) -> Result<(), Refusal>
    ensures accepted { OnOk result (Accepts (InsertOrderLine key.now row.now) (rows tables.now)) }
    ensures cause { IfErr result (Cause (InsertOrderLine key.now row.now) (rows tables.now)) }
    ensures first { IfErr result (IsFirst (InsertOrderLine key.now row.now) (rows tables.now)) }
{
    if tables.order_line(*key).is_some() {
        return Err(Refusal::RowExists(Key::OrderLine(*key)));
    }
    let order = &key.order_key();
    if tables.order(*order).is_none() {
        return Err(Refusal::Reference(Key::Order(*order)));
    }
    let supply = &supply_key(row);
    if tables.stock(*supply).is_none() {
        return Err(Refusal::Reference(Key::Stock(*supply)));
    }
    Ok(())
}

/// Gives the key of the stock that a line is supplied from.
#[inline(always)]
pub(crate) fn supply_key(row: &OrderLine) -> StockKey
    ensures { result ≡ supply_of_line row.now }
{
    StockKey {
        warehouse: row.supply,
        item: row.item,
    }
}
