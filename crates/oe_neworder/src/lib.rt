//! The New-Order transaction (clause 2.4), a stage at a time. Clause numbers are TPC Benchmark C
//! 5.11's.
#![tactic(auto)]

pub mod fillings;
pub mod looks;
pub mod programs;
pub mod stages;

pub use fillings::{Filled, Filling};
pub use programs::Program;
