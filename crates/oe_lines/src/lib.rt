//! The grammar of a script's lines, read and written. Nothing here takes memory. Clause numbers are
//! TPC Benchmark C 5.11's.
#![tactic(auto)]

pub mod commands;
pub mod reading;
pub mod requests;
mod words;
pub mod writing;

pub use commands::{Command, Display, MomentChoice};
pub use reading::{command, payment_to_begin, terminal_to_run};
pub use requests::{query, request};
pub use writing::{begin_line, next_line, open_line, purge_line, read_line, rollback_line};
