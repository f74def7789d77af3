//! One history for all threads that take turns at a core: a step and its answer stand there for
//! each turn, in the order of the turns, and each caller knows its own.
//!
//! Nothing of it is kept at run time: an entry is picked in the proof, by the call that writes it.
#![tactic(auto)]

pub mod histories;
pub mod views;

pub use histories::{Caller, History};
pub use views::{Entry, Told};
