//! A population from the nine files of a folder, or what it lacks. Clause numbers are TPC Benchmark
//! C 5.11's.
#![tactic(auto)]

pub mod lacks;
pub mod populations;
mod stocks;
pub mod texts;

pub use lacks::{Lack, first_lack};
pub use populations::{NoPopulation, load_population};
pub use texts::write_lack;
