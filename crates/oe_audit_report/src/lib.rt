//! The report of an audit, as lines or as one JSON object. Clause numbers are TPC Benchmark C
//! 5.11's.
#![tactic(auto)]

pub mod figures;
pub mod forms;
mod json;
pub mod labels;
pub mod lines;
pub mod report;
mod texts;

pub use forms::{Form, write_report};
pub use lines::{LineOf, TextOf};
pub use report::{Counts, counted};
