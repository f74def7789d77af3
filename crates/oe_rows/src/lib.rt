//! The nine tables' keys and rows, each column in its range by type, and the names that
//! transactions lock. Beside them stand the total of an order and the data of a customer with bad
//! credit. Rows are copied by `copied`, which takes no memory, and compared by `is_same`. Clause
//! numbers are TPC Benchmark C 5.11's.
#![tactic(auto)]

pub mod before;
pub mod columns_before;
pub mod credits;
pub mod customers;
pub mod districts;
pub mod histories;
pub mod items;
pub mod keys;
pub mod layouts;
pub mod locks;
pub mod orders;
mod put_back;
pub mod rows;
pub mod scales;
pub mod table_keys;
pub mod warehouses;

pub use before::{
    AccountBefore, AddressBefore, CustomerBefore, CustomerNameBefore, DistrictBefore, OrderBefore,
    OrderLineBefore, StockBefore, WarehouseBefore,
};
pub use credits::{CreditIds, bad_credit_data, credit_entry, total};
pub use customers::{Account, Credit, Customer, CustomerName};
pub use districts::District;
pub use histories::History;
pub use items::{Item, Stock, StockCounters};
pub use keys::{
    CustomerKey, DistrictKey, HistoryKey, ItemKey, Key, NewOrderKey, OrderKey, OrderLineKey,
    StockKey, TABLES, Table, WarehouseKey,
};
pub use layouts::Layout;
pub use locks::{Mode, Name};
pub use orders::{NewOrder, Order, OrderLine};
pub use rows::Row;
pub use scales::Scale;
pub use warehouses::{Address, Warehouse};
