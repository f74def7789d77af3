#![tactic(auto)]
//! Dumps of tables: each row is one line, in the order of the keys, and the last line has their
//! count.

pub mod dumps;

pub use dumps::{DumpedRow, dump};
