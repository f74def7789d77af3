//! The Payment transaction (clause 2.5), a stage at a time. Clause numbers are TPC Benchmark C
//! 5.11's.
#![tactic(auto)]

pub mod positions;
pub mod programs;
pub mod stages;

pub use programs::Program;
