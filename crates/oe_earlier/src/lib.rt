//! What is kept of rows to compare them with earlier ones, and what has changed that no transaction
//! changes. Clause numbers are TPC Benchmark C 5.11's.
#![tactic(auto)]

pub mod changes;
pub mod compared;
pub mod traces;

pub use changes::{changed, gone, moved};
pub use compared::Compared;
pub use traces::{Residue, Trace, Traces};
