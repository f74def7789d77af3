//! The population by formula: all rows of the nine tables at a scale. Clause numbers are TPC
//! Benchmark C 5.11's.
#![tactic(auto)]

mod fills;
mod formulas;
pub mod population;
mod texts;

pub use population::populate;
