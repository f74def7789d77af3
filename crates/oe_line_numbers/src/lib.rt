//! That an order's ORDER-LINE rows have different numbers (clause 1.3.1).
//!
//! Of 64 numbers of an order, a block, their set is kept, a bit each, and how many rows there are.
//! They are one exactly where no number stands twice. `add` alone can fail, where memory is refused.
#![tactic(auto)]

pub mod numbers;
