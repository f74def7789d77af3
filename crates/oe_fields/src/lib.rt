//! The fields of a line, and the values that a field may spell. A line has tabs between two fields
//! or commas; a field is found without a look at what it spells. Clause numbers are TPC Benchmark C
//! 5.11's.
#![tactic(auto)]

pub mod fields;
pub mod numbers;
pub mod words;

pub use fields::{Fields, Format, count_fields};
pub use numbers::{amount, number, quantity};
pub use words::{flag, is_null};
