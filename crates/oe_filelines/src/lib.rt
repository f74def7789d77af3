//! The lines of a file or a stream, found in the pieces that its reader gives, and handed on one
//! after another. A line of more than 65,536 bytes is not kept.
#![tactic(auto)]

pub mod held;
pub mod lines;

pub use held::HeldLine;
pub use lines::{LINE, LineTaker, Stop, read_lines};
