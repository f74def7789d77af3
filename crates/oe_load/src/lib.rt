//! Seeded loads: a script in which terminals' transactions overlap and that meets no error but
//! `Busy`, a table of what was in its way, or the requests alone for another engine. Clause numbers
//! are TPC Benchmark C 5.11's.
#![tactic(auto)]

mod flats;
mod laws;
mod loads;
mod origins;
mod picks;
mod ranges;
mod served;
mod turns;
mod watches;

pub use laws::{scripts_are_one, turns_are_one};
pub use loads::{LoadFault, run_load};
pub use origins::Origin;
pub use turns::Shortage;
