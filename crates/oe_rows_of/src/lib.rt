//! The rows as they stand or as they stood at a moment, as audits and queries ask for them. Whoever
//! is generic in `R: RowsOf` is proved without the undo log. Clause numbers are TPC Benchmark C
//! 5.11's.
#![tactic(auto)]

pub mod lines;
pub mod rows;
mod standing;

pub use lines::told;
pub use rows::RowsOf;
