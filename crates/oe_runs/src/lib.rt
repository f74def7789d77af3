//! A list of steps, one after another, and what follows of their answers. No program runs one;
//! scripts are runs of this form.
#![tactic(auto)]

pub mod runs;

pub use runs::run;
