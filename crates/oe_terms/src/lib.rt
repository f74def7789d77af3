//! The requests of seeded terminals: what a terminal sends as its r-th is a function of the scale,
//! the seed, the terminal and r, and of a load's kinds. Nothing can fail, and nothing takes memory.
//! Clause numbers are TPC Benchmark C 5.11's.
#![tactic(auto)]

pub mod columns;
pub mod draws;
pub mod errands;
pub mod kinds;
pub mod names;
pub mod orders;
pub mod payments;
pub mod plans;

pub use draws::words;
pub use errands::{Kind, RequestNumber, RequestPlace, errand, request};
pub use plans::{Asked, Plan};
