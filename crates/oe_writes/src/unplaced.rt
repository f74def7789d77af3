//! Which refusal a write answers where memory was refused for the place of a key's link, and the
//! key has no place in its table either: what the tables would say.
ghost use Rattle.oe_model.specs.Changes.{key_of, InsertHistory, InsertNewOrder, InsertOrder, InsertOrderLine};
ghost use Rattle.oe_store.specs.Places.{HasPlace};
ghost use Rattle.oe_writes.specs.Made.{IsRefused};

use oe_change::{accept_history, accept_new_order, accept_order, accept_order_line};
use oe_requests::Refusal;
use oe_rows::{History, HistoryKey, NewOrderKey, Order, OrderKey, OrderLine, OrderLineKey};
use oe_store::Tables;

/// Says why a HISTORY row is refused whose key has no place.
#[inline(never)]
pub(crate) fn unplaced_history(tables: &Tables, key: &HistoryKey, row: &History) -> Refusal
    requires { HasPlace tables.now (key_of (InsertHistory key.now row.now)) → ⊥ }
    ensures { IsRefused (InsertHistory key.now row.now) tables.now result }
{
    match accept_history(tables, key, row) {
        Ok(()) => Refusal::NoMemory,
        Err(refusal) => refusal,
    }
}

/// Says why a NEW-ORDER row is refused whose key has no place.
#[inline(never)]
pub(crate) fn unplaced_new_order(tables: &Tables, key: &NewOrderKey) -> Refusal
    requires { HasPlace tables.now (key_of (InsertNewOrder key.now (record {}))) → ⊥ }
    ensures { IsRefused (InsertNewOrder key.now (record {})) tables.now result }
{
    match accept_new_order(tables, key) {
        Ok(()) => Refusal::NoMemory,
        Err(refusal) => refusal,
    }
}

/// Says why an ORDER row is refused whose key has no place.
#[inline(never)]
pub(crate) fn unplaced_order(tables: &Tables, key: &OrderKey, row: &Order) -> Refusal
    requires { HasPlace tables.now (key_of (InsertOrder key.now row.now)) → ⊥ }
    ensures { IsRefused (InsertOrder key.now row.now) tables.now result }
{
    match accept_order(tables, key, row) {
        Ok(()) => Refusal::NoMemory,
        Err(refusal) => refusal,
    }
}

/// Says why an ORDER-LINE row is refused whose key has no place.
#[inline(never)]
pub(crate) fn unplaced_order_line(tables: &Tables, key: &OrderLineKey, row: &OrderLine) -> Refusal
    requires { HasPlace tables.now (key_of (InsertOrderLine key.now row.now)) → ⊥ }
    ensures { IsRefused (InsertOrderLine key.now row.now) tables.now result }
{
    match accept_order_line(tables, key, row) {
        Ok(()) => Refusal::NoMemory,
        Err(refusal) => refusal,
    }
}
