//! Changes of one whole row, for those who have the tables alone. A change owns its row and is
//! spent by `apply`; a program writes by `Write`.
ghost use Rattle.std.specs.Prelude.{◌≡◌};
ghost use Rattle.oe_model.specs.Changes.{key_of};

use oe_rows::customers::Customer;
use oe_rows::districts::District;
use oe_rows::histories::History;
use oe_rows::items::Stock;
use oe_rows::keys::{
    CustomerKey, DistrictKey, HistoryKey, Key, NewOrderKey, OrderKey, OrderLineKey, StockKey,
    WarehouseKey,
};
use oe_rows::orders::{Order, OrderLine};
use oe_rows::warehouses::Warehouse;

/// A change of one row, of those that the standard's transactions make (clauses 2.4.2, 2.5.2 and
/// 2.7.4): the row that is inserted or takes another's place, under its key, or the key whose row
/// is deleted.
#[derive(Drop)]
pub enum Change {
    InsertHistory(HistoryKey, History),
    InsertNewOrder(NewOrderKey),
    InsertOrder(OrderKey, Order),
    InsertOrderLine(OrderLineKey, OrderLine),
    UpdateWarehouse(WarehouseKey, Warehouse),
    UpdateDistrict(DistrictKey, District),
    UpdateCustomer(CustomerKey, Customer),
    UpdateOrder(OrderKey, Order),
    UpdateOrderLine(OrderLineKey, OrderLine),
    UpdateStock(StockKey, Stock),
    DeleteNewOrder(NewOrderKey),
}

impl Change {
    ghost use Rattle.oe_change.specs.Changes.{change_of};

    /// Gives the key of the row that it changes.
    pub fn key(&self) -> Key
        ensures { result ≡ key_of (change_of self.now) }
    {
        match self {
            Change::InsertHistory(key, _) => Key::History(*key),
            Change::InsertNewOrder(key) => Key::NewOrder(*key),
            Change::InsertOrder(key, _) => Key::Order(*key),
            Change::InsertOrderLine(key, _) => Key::OrderLine(*key),
            Change::UpdateWarehouse(key, _) => Key::Warehouse(*key),
            Change::UpdateDistrict(key, _) => Key::District(*key),
            Change::UpdateCustomer(key, _) => Key::Customer(*key),
            Change::UpdateOrder(key, _) => Key::Order(*key),
            Change::UpdateOrderLine(key, _) => Key::OrderLine(*key),
            Change::UpdateStock(key, _) => Key::Stock(*key),
            Change::DeleteNewOrder(key) => Key::NewOrder(*key),
        }
    }

    /// Copies the value, and takes no memory.
    pub fn copied(&self) -> Self
        ensures { result ≡ self.now }
    {
        match self {
            Change::InsertHistory(key, row) => Change::InsertHistory(*key, row.copied()),
            Change::InsertNewOrder(key) => Change::InsertNewOrder(*key),
            Change::InsertOrder(key, row) => Change::InsertOrder(*key, row.copied()),
            Change::InsertOrderLine(key, row) => Change::InsertOrderLine(*key, row.copied()),
            Change::UpdateWarehouse(key, row) => Change::UpdateWarehouse(*key, row.copied()),
            Change::UpdateDistrict(key, row) => Change::UpdateDistrict(*key, row.copied()),
            Change::UpdateCustomer(key, row) => Change::UpdateCustomer(*key, row.copied()),
            Change::UpdateOrder(key, row) => Change::UpdateOrder(*key, row.copied()),
            Change::UpdateOrderLine(key, row) => Change::UpdateOrderLine(*key, row.copied()),
            Change::UpdateStock(key, row) => Change::UpdateStock(*key, row.copied()),
            Change::DeleteNewOrder(key) => Change::DeleteNewOrder(*key),
        }
    }
}
