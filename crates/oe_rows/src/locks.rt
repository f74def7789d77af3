//! Names of locks, and the modes in which they are held.
//!
//! A name has the key of what it names; no two rows of the tables that it governs have one name,
//! but for an order and its lines, and for the NEW-ORDER rows of a district. Under `Names` lies who
//! of a district has a last name. Nothing can fail, and nothing takes memory.
use crate::keys::{CustomerKey, DistrictKey, OrderKey, StockKey, WarehouseKey};
use oe_values::ShortText;

/// What a transaction locks: a row, the queue of a district's orders that are not yet delivered, or
/// the customers of a district with one last name.
#[derive(Clone, Copy, PartialEq, Eq, Hash)]
pub enum Name {
    Warehouse(WarehouseKey),
    District(DistrictKey),
    Customer(CustomerKey),
    Order(OrderKey),
    Queue(DistrictKey),
    Stock(StockKey),
    Names(DistrictKey, ShortText),
}

/// How a name is held: with others, or alone.
#[derive(Clone, Copy, PartialEq, Eq)]
pub enum Mode {
    Shared,
    Exclusive,
}
