//! What a drive's terminals keep of their commits and of answers `Busy`, and the file that tells
//! the commits in the order of their moments.
#![tactic(auto)]

pub mod busy;
pub mod commits;
pub mod files;

pub use busy::BusyCounts;
pub use commits::{Commit, Commits};
pub use files::write_commits;
