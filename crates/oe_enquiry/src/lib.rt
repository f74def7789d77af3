//! Order-Status (clause 2.6) and Stock-Level (clause 2.8), of the rows of now or of any moment that
//! is kept. Nothing is changed, no lock is asked for, and nothing takes memory. Clause numbers are
//! TPC Benchmark C 5.11's.
#![tactic(auto)]

mod items;
pub mod laws;
pub mod level;
pub mod queries;
pub mod status;
mod warehouses;

pub use level::stock_level;
pub use queries::{answer, rejection};
pub use status::order_status;
