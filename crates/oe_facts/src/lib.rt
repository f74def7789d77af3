//! Keys and facts of rows, as an audit of files keeps them, and the nine tables. Clause numbers
//! are TPC Benchmark C 5.11's.
#![tactic(auto)]

pub mod facts;
pub mod keys;
pub mod tables;

pub use facts::{
    CustomerFact, DistrictFact, HistoryFact, ItemFact, NewOrderFact, OrderFact, OrderLineFact,
    StockFact, WarehouseFact,
};
pub use keys::{CustomerId, DistrictId, OrderId, StockId};
pub use tables::{Fact, TABLES, Table};
