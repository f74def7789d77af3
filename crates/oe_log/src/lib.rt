//! The undo log on a ring of extents: the undo records of each terminal's open transaction and of
//! each commit, with whose they are, the commits' requests and replies, and the terminals' counts
//! of commits. Records lie there as bytes, each with its address; they are written from the row
//! where it lies, and read back exactly. All memory for them is taken when the log is made. Clause
//! numbers are TPC Benchmark C 5.11's.
#![tactic(auto)]

pub mod commits;
pub mod crossing;
pub mod heads;
pub mod laws;
pub mod log;
pub mod moments;
pub mod opens;
pub mod reads;
pub mod ticks;
pub mod walks;

pub use heads::SegmentOwner;
pub use log::{Log, Segment};
pub use oe_extent::Full;
pub use ticks::Ticks;
pub use walks::Deleted;
