//! Changes of one row of the tables, and their undo, for users of the tables alone; and writes, by
//! which transactions set columns where they lie. Clause numbers are TPC Benchmark C 5.11's.
#![tactic(auto)]

pub mod accepts;
pub mod applies;
pub mod changes;
pub mod inserts;
pub mod laws;
mod made;
pub mod records;
pub mod updates;
pub mod writes;

pub use accepts::{accept_history, accept_new_order, accept_order, accept_order_line};
pub use applies::apply;
pub use changes::Change;
pub use inserts::{insert_history, insert_new_order, insert_order, insert_order_line};
pub use oe_layout::OwnRecord;
pub use records::{undo, undo_and_give_up};
pub use updates::delete_new_order;
pub use writes::Write;
