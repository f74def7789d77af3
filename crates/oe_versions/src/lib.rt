//! Rows as they stood at a moment, read from the tables and the undo log on the ring alone. Clause
//! numbers are TPC Benchmark C 5.11's.
#![tactic(auto)]

pub mod columns;
pub mod last;
pub mod laws;
pub mod lines;
mod looks;
pub mod moments;
pub mod names;
mod namesakes;
pub mod rows;
mod standing;

pub use moments::Version;
