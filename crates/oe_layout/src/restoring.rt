//! The row before a change, from its undo record and the row that stands. A whole row is the same
//! whatever row stands; columns are put on it. Nothing can fail, and nothing takes memory.
ghost use Rattle.std.specs.Prelude.{◌≡◌, Some};
ghost use Rattle.std.specs.Option.{option_map, option_and_then};
ghost use Rattle.oe_rows.specs.declared.rows.Row.TheVariants as row;
ghost use Rattle.oe_rows.specs.Before.{with_warehouse, with_district, with_customer};
ghost use Rattle.oe_rows.specs.Before.{with_order, with_order_line, with_stock};
ghost use Rattle.oe_model.specs.Rows.{as_warehouse, as_district, as_customer, as_order};
ghost use Rattle.oe_model.specs.Rows.{as_order_line, as_stock};
ghost use Rattle.oe_model.specs.Changes.{with_columns, restore};
ghost use Rattle.oe_layout.specs.Records.{record_of_own};

use crate::records::OwnRecord;
use oe_rows::Row;
use oe_rows::before::{
    CustomerBefore, DistrictBefore, OrderBefore, OrderLineBefore, StockBefore, WarehouseBefore,
};
use oe_rows::orders::NewOrder;

/// Puts the columns on the WAREHOUSE row that stands, if one does.
fn warehouse_before(columns: WarehouseBefore, now: Option<Row>) -> Option<Row>
    ensures { result
        ≡ option_map row.Warehouse (with_columns with_warehouse (Some columns)
        (option_and_then as_warehouse now)) }
{
    let Some(now) = now else {
        return None;
    };
    match now {
        Row::Warehouse(row) => {
            let mut row = row;
            columns.put_on(&mut row);
            Some(Row::Warehouse(row))
        }
        _ => None,
    }
}

/// Puts the columns on the DISTRICT row that stands, if one does.
fn district_before(columns: DistrictBefore, now: Option<Row>) -> Option<Row>
    ensures { result
        ≡ option_map row.District (with_columns with_district (Some columns)
        (option_and_then as_district now)) }
{
    let Some(now) = now else {
        return None;
    };
    match now {
        Row::District(row) => {
            let mut row = row;
            columns.put_on(&mut row);
            Some(Row::District(row))
        }
        _ => None,
    }
}

/// Puts the columns on the CUSTOMER row that stands, if one does.
fn customer_before(columns: CustomerBefore, now: Option<Row>) -> Option<Row>
    ensures { result
        ≡ option_map row.Customer (with_columns with_customer (Some columns)
        (option_and_then as_customer now)) }
{
    let Some(now) = now else {
        return None;
    };
    match now {
        Row::Customer(row) => {
            let mut row = row;
            columns.put_on(&mut row);
            Some(Row::Customer(row))
        }
        _ => None,
    }
}

/// Puts the columns on the ORDER row that stands, if one does.
fn order_before(columns: OrderBefore, now: Option<Row>) -> Option<Row>
    ensures { result
        ≡ option_map row.Order (with_columns with_order (Some columns)
        (option_and_then as_order now)) }
{
    let Some(now) = now else {
        return None;
    };
    match now {
        Row::Order(row) => {
            let mut row = row;
            columns.put_on(&mut row);
            Some(Row::Order(row))
        }
        _ => None,
    }
}

/// Puts the columns on the ORDER-LINE row that stands, if one does.
fn order_line_before(columns: OrderLineBefore, now: Option<Row>) -> Option<Row>
    ensures { result
        ≡ option_map row.OrderLine (with_columns with_order_line (Some columns)
        (option_and_then as_order_line now)) }
{
    let Some(now) = now else {
        return None;
    };
    match now {
        Row::OrderLine(row) => {
            let mut row = row;
            columns.put_on(&mut row);
            Some(Row::OrderLine(row))
        }
        _ => None,
    }
}

/// Puts the columns on the STOCK row that stands, if one does.
fn stock_before(columns: StockBefore, now: Option<Row>) -> Option<Row>
    ensures { result
        ≡ option_map row.Stock (with_columns with_stock (Some columns)
        (option_and_then as_stock now)) }
{
    let Some(now) = now else {
        return None;
    };
    match now {
        Row::Stock(row) => {
            let mut row = row;
            columns.put_on(&mut row);
            Some(Row::Stock(row))
        }
        _ => None,
    }
}

impl OwnRecord {
    /// Gives the row before the change, by the row that stands.
    pub fn restore(self, now: Option<Row>) -> Option<Row>
        ensures { result ≡ restore (record_of_own self) now }
    {
        match self {
            OwnRecord::InsertedHistory(_) => None,
            OwnRecord::InsertedNewOrder(_) => None,
            OwnRecord::InsertedOrder(_) => None,
            OwnRecord::InsertedOrderLine(_) => None,
            OwnRecord::UpdatedWarehouse(_, row) => Some(Row::Warehouse(row)),
            OwnRecord::UpdatedDistrict(_, row) => Some(Row::District(row)),
            OwnRecord::UpdatedCustomer(_, row) => Some(Row::Customer(row)),
            OwnRecord::UpdatedOrder(_, row) => Some(Row::Order(row)),
            OwnRecord::UpdatedOrderLine(_, row) => Some(Row::OrderLine(row)),
            OwnRecord::UpdatedStock(_, row) => Some(Row::Stock(row)),
            OwnRecord::DeletedNewOrder(_) => Some(Row::NewOrder(NewOrder)),
            OwnRecord::ChangedWarehouse(_, columns) => warehouse_before(columns, now),
            OwnRecord::ChangedDistrict(_, columns) => district_before(columns, now),
            OwnRecord::ChangedCustomer(_, columns) => customer_before(columns, now),
            OwnRecord::ChangedOrder(_, columns) => order_before(columns, now),
            OwnRecord::ChangedOrderLine(_, columns) => order_line_before(columns, now),
            OwnRecord::ChangedStock(_, columns) => stock_before(columns, now),
        }
    }
}
