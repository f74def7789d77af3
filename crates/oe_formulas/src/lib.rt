//! The rows that each transaction leaves, one row at a time, without tables or locks. Each function
//! is a formula of the model; clause numbers are TPC Benchmark C 5.11's.
#![tactic(auto)]

pub mod deliveries;
pub mod laws;
pub mod names;
pub mod orders;
pub mod payments;
