//! The nine tables and their undo log on the ring as one: a write with its record, records put
//! back, a purge and a rewind. The record goes first, so that no row is changed without one, and
//! each row is changed where it lies. Nothing takes memory but an insert at a key without a place
//! and another C_LAST. Nothing here knows of locks: who may write, and when, is the engine's.
#![tactic(auto)]

mod forgetting;
pub mod laws;
mod names;
pub mod purges;
pub mod rewinds;
pub mod unwinding;
pub mod writes;

pub use purges::purge;
pub use rewinds::rewind;
pub use unwinding::take_back;
pub use writes::write;
