//! Keys of rows, as audits of files read them (clause 1.3.1).
//!
//! A key has the columns of its table's primary key; its order is theirs from the left. Who reads a
//! key promises its ranges: a warehouse, an item, a customer and an order are 1 to 2^32 - 1, a
//! district is 1 to 10. Nothing can fail, and nothing takes memory.

/// The key of a DISTRICT row: D_W_ID, D_ID.
#[derive(Clone, Copy, Debug, PartialEq, Eq, PartialOrd, Ord)]
pub struct DistrictId {
    pub warehouse: u32,
    pub district: u8,
}

/// The key of a CUSTOMER row: C_W_ID, C_D_ID, C_ID.
#[derive(Clone, Copy, Debug, PartialEq, Eq, PartialOrd, Ord)]
pub struct CustomerId {
    pub warehouse: u32,
    pub district: u8,
    pub customer: u32,
}

/// The key of an ORDER row and of a NEW-ORDER row: O_W_ID, O_D_ID, O_ID.
#[derive(Clone, Copy, Debug, PartialEq, Eq, PartialOrd, Ord)]
pub struct OrderId {
    pub warehouse: u32,
    pub district: u8,
    pub order: u32,
}

/// The key of a STOCK row: S_W_ID, S_I_ID.
#[derive(Clone, Copy, Debug, PartialEq, Eq, PartialOrd, Ord)]
pub struct StockId {
    pub warehouse: u32,
    pub item: u32,
}
