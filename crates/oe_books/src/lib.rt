//! The facts of nine tables as one value that keeps sums and no rows, and what each check of them
//! finds. Clause numbers are TPC Benchmark C 5.11's.
#![tactic(auto)]

pub mod books;
pub mod closing;
pub mod findings;
pub mod keys;
pub mod parts;
pub mod rows;

pub use books::Books;
pub use closing::{Closed, Lack, Settled};
pub use findings::{CheckFound, Finding, PartFound, Results, TableRows};
pub use keys::Key;
pub use parts::{
    Asked, Before, CHECKS, Check, Condition, Extent, Lasting, Movement, Once, Part, Reference,
};
