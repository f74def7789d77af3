#![tactic(auto)]
//! What a script is answered: a session between the bytes that are read and the bytes that are
//! written. Clause numbers are TPC Benchmark C 5.11's. A test says four lines to a session:
//!
//! ```
//! let mut session = Session::<Core>::new();
//! let lines =
//!     b"open 2 10 20 64\nbegin 5 payment 2 7 1 3 9 250.00 2001-01-01T00:00:00\nnext 5\nrollback 5\n";
//! let is_written = session
//!     .feed(alloc, lines, &mut Nowhere {}, &mut Quiet {})
//!     .is_ok();
//! let are_answers = session.out.as_slice() == b"opened\nbegun\nmore\nrolled back\n".as_slice();
//! session.close();
//! is_written && are_answers
//! ```

pub mod listeners;
pub mod outcome;
pub mod script;
pub mod session;
