//! A queue of up to 16 messages, in which terminals leave deliveries for the one that carries them
//! out (clause 2.7.2). What was taken of a sender is a beginning of what it submitted, in order,
//! each once; with its end mark, the whole. Clause numbers are TPC Benchmark C 5.11's.
#![tactic(auto)]

pub mod ends;
pub mod messages;
pub mod rules;
pub mod senders;

pub use ends::{CAPACITY, Taker};
pub use messages::Message;
pub use senders::{Finished, Sender, open};
