//! The engine: tables, undo log and locks as one: transactions, what each holds and may write, and
//! what programs call. A transaction's changes stand at its commit or are forgotten. A test begins
//! one, which takes locks and reads under them, and rolls it back:
//!
//! ```
//! let Ok(tx) = engine.begin(terminal) else {
//!     return false;
//! };
//! let are_right = are_answered(engine, &tx) == Some(true);
//! match engine.rollback(tx) {
//!     Ok(()) => are_right,
//!     Err(_) => panic!(rt; "not open"),
//! }
//! ```
#![tactic(auto)]

pub mod access;
pub mod choices;
pub mod crossing;
pub mod engine;
mod opening;
pub mod past;
pub mod programs;
pub mod renames;
pub mod stages;
mod touches;
pub mod writes;

pub use engine::{Engine, Savepoint, Tx};
pub use programs::Progress;
