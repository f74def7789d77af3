#![tactic(auto)]
//! Where a script comes from and where its answers go: a reader, a writer, the output that waits,
//! and what the system refuses.

pub mod faults;
pub mod output;
pub mod ports;
pub mod standard;
