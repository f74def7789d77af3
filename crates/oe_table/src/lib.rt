//! Tables whose blanked keys keep their places, so putting a row back never takes memory.
#![tactic(auto)]

mod front_vec;
pub mod shelf;
pub mod shelf_walks;
pub mod shelves;
