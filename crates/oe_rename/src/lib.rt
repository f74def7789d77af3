//! The rename of a customer, a stage at a time. It is none of the standard's transactions: it
//! changes what a customer is found by.
#![tactic(auto)]

pub mod programs;
pub mod stages;

pub use programs::Program;
