//! The Delivery transaction of one district and of all ten (clause 2.7), a stage at a time. Clause
//! numbers are TPC Benchmark C 5.11's.
#![tactic(auto)]

pub mod deliveries;
pub mod looks;
pub mod programs;
pub mod remainders;
pub mod stages;

pub use deliveries::Deliveries;
pub use programs::Program;
pub use remainders::Remainder;
