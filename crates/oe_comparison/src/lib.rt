//! Whether the tables that a serial file's transactions leave are those in nine files. Each file's
//! rows are walked beside the table's, in the order of their keys, and a line names the first row
//! that differs. Clause numbers are TPC Benchmark C 5.11's.
#![tactic(auto)]

mod columns;
pub mod faults;
pub mod forms;
mod histories;
pub mod laws;
pub mod names;
pub mod reports;
pub mod rows;
pub mod runs;
mod sides;
mod tables;
mod walks;

pub use faults::write_faults;
pub use laws::{
    differences_are_counted, differences_are_first, histories_are_counted, rows_are_told_apart,
};
pub use runs::{ComparisonFault, Verdict, run_comparison, status};
