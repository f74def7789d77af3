//! The fourteen kinds of writes of a row: the key of each, the lock under which it is made, its
//! record in either layout, and how it is made on the tables. A kind's record is lent from where
//! its row lies (`lending`, `columns`, `parts`); nothing of an undo log or an engine is here.
#![tactic(auto)]

mod columns;
mod inserts;
pub mod kinds;
mod lending;
mod locks;
mod parts;
mod settings;
mod unplaced;

pub use kinds::OneWrite;
