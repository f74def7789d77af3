//! Tallies: for each key the sum of the values that were added for it, in whatever order they came.
#![tactic(auto)]

pub mod checks;
pub mod count;
pub mod join;
pub mod pairs;
pub mod tally;
