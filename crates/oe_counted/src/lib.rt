//! A machine that counts the steps that it is asked for, and passes each call on to the machine
//! inside.
//!
//! Whatever is generic in a `Machine` of `oe_machine` runs on it unchanged, and answers the same:
//! what it stands for is what the machine inside stands for.
#![tactic(auto)]

pub mod counting;
pub mod counts;
pub mod crossing;

pub use counting::Counted;
pub use counts::Counts;
