//! Undo records with rows or columns of their own, as reading gives them and as `oe_change` undoes
//! them.
ghost use Rattle.std.specs.Prelude.{◌≡◌};
ghost use Rattle.oe_model.specs.Changes.{record_key};
ghost use Rattle.oe_layout.specs.Kinds.{kind_of};
ghost use Rattle.oe_layout.specs.Records.{record_of_own};
ghost use Rattle.oe_layout.specs.Stored.{last_before};

use crate::kinds::RecordKind;
use oe_rows::before::{
    CustomerBefore, DistrictBefore, OrderBefore, OrderLineBefore, StockBefore, WarehouseBefore,
};
use oe_rows::customers::Customer;
use oe_rows::districts::District;
use oe_rows::items::Stock;
use oe_rows::orders::{Order, OrderLine};
use oe_rows::warehouses::Warehouse;
use oe_rows::{
    CustomerKey, DistrictKey, HistoryKey, Key, NewOrderKey, OrderKey, OrderLineKey, StockKey,
    WarehouseKey,
};
use oe_values::Text;

/// The undo record of a change, as it is read: its key, with the row before an update, or of each
/// column that the update changed its value before. Before an insert there is no row, and the row
/// before a delete has no column but its key. It has no memory of its own.
#[derive(Drop)]
pub enum OwnRecord {
    InsertedHistory(HistoryKey),
    InsertedNewOrder(NewOrderKey),
    InsertedOrder(OrderKey),
    InsertedOrderLine(OrderLineKey),
    UpdatedWarehouse(WarehouseKey, Warehouse),
    UpdatedDistrict(DistrictKey, District),
    UpdatedCustomer(CustomerKey, Customer),
    UpdatedOrder(OrderKey, Order),
    UpdatedOrderLine(OrderLineKey, OrderLine),
    UpdatedStock(StockKey, Stock),
    DeletedNewOrder(NewOrderKey),
    ChangedWarehouse(WarehouseKey, WarehouseBefore),
    ChangedDistrict(DistrictKey, DistrictBefore),
    ChangedCustomer(CustomerKey, CustomerBefore),
    ChangedOrder(OrderKey, OrderBefore),
    ChangedOrderLine(OrderLineKey, OrderLineBefore),
    ChangedStock(StockKey, StockBefore),
}

impl OwnRecord {
    /// Answers what was done, and in which table.
    pub fn kind(&self) -> RecordKind
        ensures { result ≡ kind_of (record_of_own self.now) }
    {
        match self {
            OwnRecord::InsertedHistory(_) => RecordKind::InsertedHistory,
            OwnRecord::InsertedNewOrder(_) => RecordKind::InsertedNewOrder,
            OwnRecord::InsertedOrder(_) => RecordKind::InsertedOrder,
            OwnRecord::InsertedOrderLine(_) => RecordKind::InsertedOrderLine,
            OwnRecord::UpdatedWarehouse(_, _) => RecordKind::UpdatedWarehouse,
            OwnRecord::UpdatedDistrict(_, _) => RecordKind::UpdatedDistrict,
            OwnRecord::UpdatedCustomer(_, _) => RecordKind::UpdatedCustomer,
            OwnRecord::UpdatedOrder(_, _) => RecordKind::UpdatedOrder,
            OwnRecord::UpdatedOrderLine(_, _) => RecordKind::UpdatedOrderLine,
            OwnRecord::UpdatedStock(_, _) => RecordKind::UpdatedStock,
            OwnRecord::DeletedNewOrder(_) => RecordKind::DeletedNewOrder,
            OwnRecord::ChangedWarehouse(_, _) => RecordKind::ChangedWarehouse,
            OwnRecord::ChangedDistrict(_, _) => RecordKind::ChangedDistrict,
            OwnRecord::ChangedCustomer(_, _) => RecordKind::ChangedCustomer,
            OwnRecord::ChangedOrder(_, _) => RecordKind::ChangedOrder,
            OwnRecord::ChangedOrderLine(_, _) => RecordKind::ChangedOrderLine,
            OwnRecord::ChangedStock(_, _) => RecordKind::ChangedStock,
        }
    }

    /// Gives the key of the row that was changed.
    pub fn key(&self) -> Key
        ensures { result ≡ record_key (record_of_own self.now) }
    {
        match self {
            OwnRecord::InsertedHistory(key) => Key::History(*key),
            OwnRecord::InsertedNewOrder(key) => Key::NewOrder(*key),
            OwnRecord::InsertedOrder(key) => Key::Order(*key),
            OwnRecord::InsertedOrderLine(key) => Key::OrderLine(*key),
            OwnRecord::UpdatedWarehouse(key, _) => Key::Warehouse(*key),
            OwnRecord::UpdatedDistrict(key, _) => Key::District(*key),
            OwnRecord::UpdatedCustomer(key, _) => Key::Customer(*key),
            OwnRecord::UpdatedOrder(key, _) => Key::Order(*key),
            OwnRecord::UpdatedOrderLine(key, _) => Key::OrderLine(*key),
            OwnRecord::UpdatedStock(key, _) => Key::Stock(*key),
            OwnRecord::DeletedNewOrder(key) => Key::NewOrder(*key),
            OwnRecord::ChangedWarehouse(key, _) => Key::Warehouse(*key),
            OwnRecord::ChangedDistrict(key, _) => Key::District(*key),
            OwnRecord::ChangedCustomer(key, _) => Key::Customer(*key),
            OwnRecord::ChangedOrder(key, _) => Key::Order(*key),
            OwnRecord::ChangedOrderLine(key, _) => Key::OrderLine(*key),
            OwnRecord::ChangedStock(key, _) => Key::Stock(*key),
        }
    }

    /// Gives the customer whose C_LAST before the change the record tells, with that name; none where
    /// it tells none.
    pub fn last_before(&self) -> Option<(CustomerKey, Text<0, 16>)>
        ensures { result ≡ last_before (record_of_own self.now) }
    {
        match self {
            OwnRecord::UpdatedCustomer(key, row) => Some((*key, row.name.last.copied())),
            OwnRecord::ChangedCustomer(key, columns) => match &columns.name.last {
                Some(last) => Some((*key, last.copied())),
                None => None,
            },
            _ => None,
        }
    }
}
