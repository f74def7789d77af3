//! The texts of answers and of dumped rows, appended to a buffer of fixed size. Nothing here takes
//! memory. Clause numbers are TPC Benchmark C 5.11's.
#![tactic(auto)]

pub mod answers;
pub mod columns;
pub mod dumps;
pub mod keys;
pub mod laws;
pub mod pending;
mod refusals;
mod replies;

pub use answers::{answer, audited, begun, committed, more, opened, refused};
pub use columns::small;
pub use dumps::{
    customer_row, district_row, history_row, item_row, new_order_row, order_line_row, order_row,
    rows, stock_row, warehouse_row,
};
pub use keys::name;
pub use laws::stamps_are_read;
pub use pending::{LONGEST, Pending, SIZE, decimal, has_room, text};
