//! What a report says of tables after the work on them: the first of conditions 1 to 4 that fails,
//! whether other tables have the same rows, and the two lines that say both. Nothing takes memory,
//! and nothing waits. Clause numbers are TPC Benchmark C 5.11's.
#![tactic(auto)]

pub mod comparisons;
pub mod reports;
pub mod verdicts;

pub use comparisons::are_same;
pub use reports::{report, status};
pub use verdicts::first_failing;
