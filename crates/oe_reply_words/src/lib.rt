//! What a reply's words are: which of them differs, the row that it tells of, and whether a
//! transaction changed that row. Clause numbers are TPC Benchmark C 5.11's.
#![tactic(auto)]

pub mod others;
pub mod parts;
pub mod rows;
pub mod told;

pub use others::other_line;
pub use parts::parted_at;
pub use rows::{Change, changes};
pub use told::row_told;
