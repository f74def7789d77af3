//! Keys and rows read from the front of bytes: each reading finds exactly the value whose image
//! stands there. Bytes that are no image are refused. No call takes memory.
#![tactic(auto)]

pub mod before;
pub mod customers;
mod decode;
mod fronts;
pub mod items;
pub mod keys;
pub mod laws;
mod masks;
pub mod orders;
pub mod rows;
pub mod warehouses;

pub use decode::{Decode, Row, read_exactly};
pub use fronts::Ranged;
pub use keys::read_key;
pub use rows::{read_image, read_row};
