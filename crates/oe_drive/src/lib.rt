//! Terminals that run in threads of their own, each at its desk, and a worker who carries out the
//! deliveries that they leave in the queue. Here alone threads are started.
//!
//! A run takes seven numbers to two lines: the requests of a seed come in at the desks of a shop on
//! a new population; then the closed core is audited, rewound to moment 0 and compared with another
//! new population. Clauses of the standard are those of TPC Benchmark C 5.11.
#![tactic(auto)]

pub mod deeds;
pub mod driving;
pub mod endings;
pub mod gates;
pub mod idle;
pub mod openings;
pub mod planning;
pub mod posts;
pub mod room;
pub mod runs;
pub mod stations;

pub use deeds::{Cause, Deeds};
pub use driving::{Driven, drive};
pub use gates::{Ajar, Gate};
pub use idle::MOST_BUSY;
pub use planning::plans;
pub use room::{Overfull, may_overfill};
pub use runs::{DriveFault, Ran, run_drive};
pub use stations::Plan;
