//! What was in the way of a load: the table of what happened at its lines, and counts that keep it.
//! Memory is taken for the names that were in the way alone.
#![tactic(auto)]

pub mod counts;
pub mod firsts;
pub mod happenings;
pub mod names;
pub mod tables;
pub mod waits;

pub use happenings::Happening;
pub use tables::{Busyness, Uncounted};
