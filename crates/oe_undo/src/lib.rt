//! The undo log on the ring, with what leads from each key to its records there.
//!
//! The crate keeps the links of keys to their newest records (`links`, in places by the keys'
//! numbers), chains, which are all records of a key from its link on (`holders`, `laws`), walks
//! along a chain, by which reads of a moment find its rows (`walks`), and log and links as one
//! (`undo`, `pushes`, `commits`): each record is pushed with its key's link, and the link leads to
//! it then. By the invariant of `Undo` all records of each key are such a chain. A call that is
//! refused memory has changed nothing. A test pushes a record, takes it off, and pushes it again
//! for a commit:
//!
//! ```
//! push_order(undo, terminal, key, &row)?;
//! let pushed = link(undo, key);
//! pop(undo, terminal)?;
//! let popped = link(undo, key);
//! push_order(undo, terminal, key, &row)?;
//! commit(undo, terminal)?;
//! Some(
//!     pushed == open_at(1, 0, terminal)
//!         && popped == made_at(0, 38, 1)
//!         && link(undo, key) == made_at(1, 0, 2),
//! )
//! ```
#![tactic(auto)]

pub mod commits;
pub mod crossing;
pub mod holders;
pub mod laws;
pub mod links;
mod moments;
mod numbers;
mod places;
pub mod pushes;
mod shelf;
mod tables;
pub mod undo;
pub mod walks;

pub use holders::{Holder, Link};
pub use links::{Links, OwnedLink, comes_with};
pub use oe_log::Ticks;
pub use pushes::CantPush;
pub use undo::Undo;
