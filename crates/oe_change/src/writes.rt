//! Writes, which a program makes of the columns that it sets. A write is lent to the engine, and
//! owns no row but one that is inserted.
ghost use Rattle.std.specs.Prelude.{◌≡◌};

use oe_rows::customers::Account;
use oe_rows::histories::History;
use oe_rows::items::StockCounters;
use oe_rows::keys::{
    CustomerKey, DistrictKey, HistoryKey, Key, NewOrderKey, OrderKey, OrderLineKey, StockKey,
    WarehouseKey,
};
use oe_rows::orders::{Order, OrderLine};
use oe_values::numbers::{Carrier, OrderNumber, YearToDate};
use oe_values::stamps::Stamp;
use oe_values::texts::Text;

/// What a transaction writes to one row (clauses 2.4.2, 2.5.2 and 2.7.4, and renames): under its
/// key the columns that an update sets, the row that is inserted, or nothing but the key of a row
/// that is deleted. An update has no column that it does not set, so that it is short; it is passed
/// by reference.
#[derive(Drop)]
pub enum Write {
    /// W_YTD.
    WarehouseYtd(WarehouseKey, YearToDate),
    /// D_YTD.
    DistrictYtd(DistrictKey, YearToDate),
    /// D_NEXT_O_ID.
    NextOrder(DistrictKey, OrderNumber),
    /// The account of a customer.
    CustomerAccount(CustomerKey, Account),
    /// The account of a customer with bad credit, and the entry that goes before C_DATA.
    BadCredit(CustomerKey, Account, Text<0, 90>),
    /// C_LAST and C_FIRST.
    CustomerNames(CustomerKey, Text<0, 16>, Text<0, 16>),
    /// S_QUANTITY, S_YTD, S_ORDER_CNT and S_REMOTE_CNT.
    StockCounters(StockKey, StockCounters),
    /// O_CARRIER_ID.
    Carrier(OrderKey, Carrier),
    /// OL_DELIVERY_D.
    DeliveryDate(OrderLineKey, Stamp),
    InsertHistory(HistoryKey, History),
    InsertNewOrder(NewOrderKey),
    InsertOrder(OrderKey, Order),
    InsertOrderLine(OrderLineKey, OrderLine),
    DeleteNewOrder(NewOrderKey),
}

impl Write {
    ghost use Rattle.oe_change.specs.Writes.{key_written};

    /// Gives the key of the row that it changes.
    #[inline(always)]
    pub fn key(&self) -> Key
        ensures { result ≡ key_written self.now }
    {
        match self {
            Write::WarehouseYtd(key, _) => Key::Warehouse(*key),
            Write::DistrictYtd(key, _) => Key::District(*key),
            Write::NextOrder(key, _) => Key::District(*key),
            Write::CustomerAccount(key, _) => Key::Customer(*key),
            Write::BadCredit(key, _, _) => Key::Customer(*key),
            Write::CustomerNames(key, _, _) => Key::Customer(*key),
            Write::StockCounters(key, _) => Key::Stock(*key),
            Write::Carrier(key, _) => Key::Order(*key),
            Write::DeliveryDate(key, _) => Key::OrderLine(*key),
            Write::InsertHistory(key, _) => Key::History(*key),
            Write::InsertNewOrder(key) => Key::NewOrder(*key),
            Write::InsertOrder(key, _) => Key::Order(*key),
            Write::InsertOrderLine(key, _) => Key::OrderLine(*key),
            Write::DeleteNewOrder(key) => Key::NewOrder(*key),
        }
    }
}
