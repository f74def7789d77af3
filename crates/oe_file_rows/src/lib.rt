//! The rows of the nine tables, read from lines as a dump prints them: columns that tabs part, each
//! spelled as its values are. Each reading finds exactly the row that a line spells, or the first
//! column that no value is spelled by. Nothing here takes memory. Clause numbers are TPC Benchmark
//! C 5.11's.
#![tactic(auto)]

pub mod columns;
pub mod customers;
pub mod fields;
pub mod forms;
mod fronts;
pub mod histories;
pub mod items;
pub mod laws;
pub mod orders;
pub mod warehouses;
mod words;

pub use customers::read_customer;
pub use forms::{Form, LineFault};
pub use histories::read_history;
pub use items::{read_item, read_stock};
pub use laws::dumps_are_read;
pub use orders::{read_new_order, read_order, read_order_line};
pub use warehouses::{read_district, read_warehouse};
