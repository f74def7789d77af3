//! Tables whose rows are found by something other than their key: customers by last name, and
//! orders by customer. Clause numbers are TPC Benchmark C 5.11's.
#![tactic(auto)]

pub mod customers;
mod flags;
mod key_lists;
mod lists;
mod names;
mod numbers;
pub mod orders;
pub mod walks;

pub use customers::Customers;
pub use numbers::name_number;
pub use orders::Orders;
pub use walks::Found;
