//! The core: overlapping transactions. Each call is one step of the model's machine. A test takes a
//! payment one stage, and rolls it back:
//!
//! ```
//! if core.begin(terminal, request).is_err() {
//!     return false;
//! }
//! let is_under_way = matches!(core.advance(terminal), Advanced::More);
//! let open = core.open_count();
//! let is_gone = matches!(core.rollback(terminal), Answer::RolledBack);
//! is_under_way && open == 1 && is_gone
//! ```
#![tactic(auto)]

pub mod cores;
pub mod crossing;
mod machine;
mod slots;
mod works;

pub use cores::Core;
