//! The facts of a table's file, or of a stream with a section for each table, handed to a ledger in
//! order; and what is wrong with their lines. Clause numbers are TPC Benchmark C 5.11's.
#![tactic(auto)]

pub mod dumps;
pub mod faults;
pub mod ledgers;
pub mod lines;
pub mod names;
pub mod readings;
pub mod tables;
mod texts;

pub use dumps::read_dump;
pub use faults::{Faults, KEPT, SHOWN, Shown, SourceFault, Wrong};
pub use ledgers::{Ledger, Taken};
pub use names::{table_named, table_of_file};
pub use tables::read_table;
