//! How large a database is: warehouses, customers a district, and items.
use oe_values::numbers::{CustomerNumber, ItemNumber, WarehouseNumber};

/// The number of warehouses, of customers in each district, and of items.
#[derive(Clone, Copy)]
pub struct Scale {
    pub warehouses: WarehouseNumber,
    pub customers: CustomerNumber,
    pub items: ItemNumber,
}
