//! How many rows of each table were read. Plain values.

/// How many rows of each table were read, those set apart too.
#[derive(Clone, Copy)]
pub struct RowCounts {
    pub warehouses: u64,
    pub districts: u64,
    pub customers: u64,
    pub histories: u64,
    pub new_orders: u64,
    pub orders: u64,
    pub order_lines: u64,
    pub items: u64,
    pub stocks: u64,
}
