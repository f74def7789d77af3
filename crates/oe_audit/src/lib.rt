//! Audits of the tables as they stand or stood at a moment: the verdict of each consistency
//! condition, and the test of a population. No memory is taken. Clause numbers are TPC Benchmark C
//! 5.11's.
#![tactic(auto)]

pub mod conditions;
mod customers;
mod districts;
mod ledgers;
mod orders;
mod payments;
pub mod populations;
mod warehouses;

pub use conditions::{condition, condition_at};
pub use populations::is_population;
