//! A table's file to its rows. The file's lines spell rows, in any order, as a dump prints them or
//! as comma-separated values. The rows come in the order of their keys, and each line that can't be
//! read is a fault. Clause numbers are TPC Benchmark C 5.11's.
#![tactic(auto)]

pub mod batches;
pub mod faults;
pub mod formats;
pub mod lines;
mod records;
pub mod rows;
pub mod tables;

pub use batches::{Batches, Walk};
pub use faults::{Faults, TableFault, Wrong};
pub use formats::Format;
pub use lines::{LINE, Numbered, PIECE, Stop};
pub use rows::RowLine;
pub use tables::{read_table, read_table_as};
