//! The nine tables (clause 1.2), and a fact of any of them.
ghost use Rattle.std.specs.Prelude.{◌≡◌, ◌<◌};
ghost use Rattle.oe_facts.specs.Table.{name_of, place_of, table_of};

use crate::facts::{
    CustomerFact, DistrictFact, HistoryFact, ItemFact, NewOrderFact, OrderFact, OrderLineFact,
    StockFact, WarehouseFact,
};

/// A table whose rows are read.
#[derive(Clone, Copy)]
pub enum Table {
    Warehouse,
    District,
    Customer,
    History,
    NewOrder,
    Order,
    OrderLine,
    Item,
    Stock,
}

/// The nine tables, in the order of clause 1.3.1.
pub const TABLES: [Table; 9] = [
    Table::Warehouse,
    Table::District,
    Table::Customer,
    Table::History,
    Table::NewOrder,
    Table::Order,
    Table::OrderLine,
    Table::Item,
    Table::Stock,
];

impl Table {
    /// Gives the table's place among the nine, from 0 on.
    pub fn place(self) -> usize
        ensures value { result ≡ place_of self }
        ensures below { result < 9 }
    {
        match self {
            Table::Warehouse => 0,
            Table::District => 1,
            Table::Customer => 2,
            Table::History => 3,
            Table::NewOrder => 4,
            Table::Order => 5,
            Table::OrderLine => 6,
            Table::Item => 7,
            Table::Stock => 8,
        }
    }

    /// Gives the table's name, as dumps and reports have it.
    pub fn name(self) -> &'static str
        ensures { result.now ≡ name_of self }
    {
        match self {
            Table::Warehouse => "warehouse",
            Table::District => "district",
            Table::Customer => "customer",
            Table::History => "history",
            Table::NewOrder => "neworder",
            Table::Order => "order",
            Table::OrderLine => "orderline",
            Table::Item => "item",
            Table::Stock => "stock",
        }
    }
}

/// What is kept of a row of any table.
#[derive(Clone, Copy)]
pub enum Fact {
    Warehouse(WarehouseFact),
    District(DistrictFact),
    Customer(CustomerFact),
    History(HistoryFact),
    NewOrder(NewOrderFact),
    Order(OrderFact),
    OrderLine(OrderLineFact),
    Item(ItemFact),
    Stock(StockFact),
}

impl Fact {
    /// Gives the table of the row.
    pub fn table(&self) -> Table
        ensures { result ≡ table_of self.now }
    {
        match self {
            Fact::Warehouse(_) => Table::Warehouse,
            Fact::District(_) => Table::District,
            Fact::Customer(_) => Table::Customer,
            Fact::History(_) => Table::History,
            Fact::NewOrder(_) => Table::NewOrder,
            Fact::Order(_) => Table::Order,
            Fact::OrderLine(_) => Table::OrderLine,
            Fact::Item(_) => Table::Item,
            Fact::Stock(_) => Table::Stock,
        }
    }
}
