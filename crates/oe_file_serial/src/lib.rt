//! Whether the replies of another engine are those of its transactions and queries one at a time,
//! in the order in which it says that they took effect. Clause numbers are TPC Benchmark C 5.11's.
#![tactic(auto)]

mod alone;
mod answers;
mod changes;
pub mod faults;
mod lines;
pub mod origins;
mod reasons;
mod reports;
mod texts;
pub mod verdicts;

ghost use Rattle.oe_file_serial.specs.Alone.{Alone_is_whole};

pub use answers::AnswerText;
pub use faults::write_bad_lines;
pub use lines::BadLines;
pub use origins::{Opening, Origin};
pub use reasons::{BadLine, Behind, Why};
pub use reports::{SerialFault, run_serial, status, write_verdict};
pub use verdicts::{Decision, Shortage, Verdict, decide};

/// A transaction of which no other is beside it commits its whole effect on what commits have left,
/// or is rolled back where there is none.
pub fn law_alone()
    ensures { Alone_is_whole }
{}
