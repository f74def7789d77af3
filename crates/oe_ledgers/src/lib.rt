//! What an audit keeps of the facts of each table: sums by key, and no rows. Clause numbers are TPC
//! Benchmark C 5.11's.
#![tactic(auto)]

pub mod customers;
pub mod districts;
pub mod histories;
pub mod items;
pub mod new_orders;
pub mod order_lines;
pub mod orders;
pub mod stocks;
pub mod takings;
pub mod warehouses;

pub use customers::{CustomerSums, Customers};
pub use districts::{DistrictSums, Districts};
pub use histories::Histories;
pub use items::Items;
pub use new_orders::{NewOrderSums, NewOrders};
pub use order_lines::{LineSums, OrderLines, SupplySums};
pub use orders::{CustomerOrders, DistrictOrders, OrderSums, Orders};
pub use stocks::{StockSums, Stocks};
pub use takings::Takings;
pub use warehouses::{WarehouseSums, Warehouses};
