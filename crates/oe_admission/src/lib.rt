//! What is asked of a request before its transaction begins: that its numbers are in their ranges,
//! and that its warehouses are there.
#![tactic(auto)]

mod ranges;
mod rejections;

pub use ranges::{choice_holds, district_holds, ranges_hold};
pub use rejections::rejection;
