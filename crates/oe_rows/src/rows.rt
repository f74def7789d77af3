//! Rows of any table, for those who read a row by a key of any table. Nothing can fail, and nothing
//! takes memory.
ghost use Rattle.std.specs.Prelude.{◌≡◌, ◌↔◌, IsTrue};
ghost use Rattle.oe_rows.specs.Row.{table_of_row};

use crate::customers::Customer;
use crate::districts::District;
use crate::histories::History;
use crate::items::{Item, Stock};
use crate::keys::Table;
use crate::orders::{NewOrder, Order, OrderLine};
use crate::warehouses::Warehouse;

/// A row of any table, without its key.
#[derive(Drop)]
pub enum Row {
    Warehouse(Warehouse),
    District(District),
    Customer(Customer),
    History(History),
    NewOrder(NewOrder),
    Order(Order),
    OrderLine(OrderLine),
    Item(Item),
    Stock(Stock),
}

impl Row {
    /// Gives the table that the row is of.
    pub fn table(&self) -> Table
        ensures { result ≡ table_of_row self.now }
    {
        match self {
            Row::Warehouse(_) => Table::Warehouse,
            Row::District(_) => Table::District,
            Row::Customer(_) => Table::Customer,
            Row::History(_) => Table::History,
            Row::NewOrder(_) => Table::NewOrder,
            Row::Order(_) => Table::Order,
            Row::OrderLine(_) => Table::OrderLine,
            Row::Item(_) => Table::Item,
            Row::Stock(_) => Table::Stock,
        }
    }

    /// Copies the value, and takes no memory.
    pub fn copied(&self) -> Self
        ensures { result ≡ self.now }
    {
        match self {
            Row::Warehouse(row) => Row::Warehouse(row.copied()),
            Row::District(row) => Row::District(row.copied()),
            Row::Customer(row) => Row::Customer(row.copied()),
            Row::History(row) => Row::History(row.copied()),
            Row::NewOrder(row) => Row::NewOrder(*row),
            Row::Order(row) => Row::Order(*row),
            Row::OrderLine(row) => Row::OrderLine(row.copied()),
            Row::Item(row) => Row::Item(row.copied()),
            Row::Stock(row) => Row::Stock(row.copied()),
        }
    }

    /// Tells whether two rows are of one table and equal.
    pub fn is_same(&self, other: &Row) -> bool
        ensures { IsTrue result ↔ (self.now ≡ other.now) }
    {
        match (self, other) {
            (Row::Warehouse(row), Row::Warehouse(other)) => row.is_same(other),
            (Row::District(row), Row::District(other)) => row.is_same(other),
            (Row::Customer(row), Row::Customer(other)) => row.is_same(other),
            (Row::History(row), Row::History(other)) => row.is_same(other),
            (Row::NewOrder(row), Row::NewOrder(other)) => row.is_same(other),
            (Row::Order(row), Row::Order(other)) => row.is_same(other),
            (Row::OrderLine(row), Row::OrderLine(other)) => row.is_same(other),
            (Row::Item(row), Row::Item(other)) => row.is_same(other),
            (Row::Stock(row), Row::Stock(other)) => row.is_same(other),
            _ => false,
        }
    }
}
