//! The checks of an audit of files: each gives all keys at which the rows do not keep it, in their
//! order, with both figures. Clause numbers are TPC Benchmark C 5.11's.
#![tactic(auto)]

pub mod accounts;
pub mod conditions;
pub mod deliveries;
pub mod figures;
pub mod keys;
pub mod movements;
pub mod references;
pub mod schema;
pub mod sizes;

pub use figures::Apart;
