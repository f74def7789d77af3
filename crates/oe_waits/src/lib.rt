//! Which open transactions wait for which, and what they hold: the answers to `waits` and `locks`.
//! Nothing here changes a core or takes memory.
#![tactic(auto)]

pub mod holdings;
pub mod laws;
mod reaching;
pub mod shows;
pub mod waiting;

pub use holdings::{is_before, place, show_locks};
pub use reaching::waits_for_itself;
pub use shows::show_waits;
pub use waiting::waits_for;
