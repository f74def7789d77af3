//! What each command of the program answers, what it tells on standard error, and the exit status
//! with which it ends. Drives alone are answered elsewhere, since they start threads. Clause
//! numbers are TPC Benchmark C 5.11's.
//!
//! The caller opens streams and files. What it could not open comes here as the system's error. It
//! chooses the machine too, the first type parameter of each command that opens one.
#![tactic(auto)]

pub mod audits;
pub mod endings;
pub mod folders;
mod formats;
pub mod loads;
mod nine;
mod notes;
pub mod progress;
pub mod scripts;
pub mod serials;
pub mod usage;

pub use audits::answer_audit;
pub use endings::{Aim, Output, fail};
pub use folders::{Audited, BeforeFolder, open_audited, open_before};
pub use loads::{answer_following, answer_load};
pub use progress::{Progress, Watched};
pub use scripts::{explain, open_script, opened_script, script};
pub use serials::{Replies, serial};
pub use usage::{refuse, tell_usage};
