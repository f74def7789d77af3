//! What an audit keeps of a row: the columns that conditions and references need, and nothing else
//! (clauses 1.3.1, 3.3.2).
//!
//! Money is in cents, and like S_QUANTITY signed, within 10^15 either side. Counters are 0 to
//! 2^64 - 1, OL_NUMBER 1 to 255, OL_QUANTITY 0 to 2^32 - 1. Who reads a fact promises its ranges.
//! Nothing can fail, and nothing takes memory.

use crate::keys::{CustomerId, DistrictId, OrderId, StockId};

/// Of a WAREHOUSE row W_ID and W_YTD.
#[derive(Clone, Copy, Debug, PartialEq, Eq)]
pub struct WarehouseFact {
    pub warehouse: u32,
    pub ytd: i64,
}

/// Of a DISTRICT row its key, D_YTD and D_NEXT_O_ID.
#[derive(Clone, Copy, Debug, PartialEq, Eq)]
pub struct DistrictFact {
    pub key: DistrictId,
    pub ytd: i64,
    pub next_order: u32,
}

/// Of a CUSTOMER row its key, C_BALANCE, C_YTD_PAYMENT, C_PAYMENT_CNT and C_DELIVERY_CNT.
#[derive(Clone, Copy, Debug, PartialEq, Eq)]
pub struct CustomerFact {
    pub key: CustomerId,
    pub balance: i64,
    pub ytd_payment: i64,
    pub payments: u64,
    pub deliveries: u64,
}

/// Of a HISTORY row its customer (H_C_W_ID, H_C_D_ID, H_C_ID), its district (H_W_ID, H_D_ID) and
/// H_AMOUNT.
#[derive(Clone, Copy, Debug, PartialEq, Eq)]
pub struct HistoryFact {
    pub customer: CustomerId,
    pub district: DistrictId,
    pub amount: i64,
}

/// Of a NEW-ORDER row its key.
#[derive(Clone, Copy, Debug, PartialEq, Eq)]
pub struct NewOrderFact {
    pub key: OrderId,
}

/// Of an ORDER row its key, O_C_ID, whether O_CARRIER_ID is not null, O_OL_CNT and O_ALL_LOCAL.
#[derive(Clone, Copy, Debug, PartialEq, Eq)]
pub struct OrderFact {
    pub key: OrderId,
    pub customer: u32,
    pub is_delivered: bool,
    pub line_count: u32,
    pub is_all_local: bool,
}

/// Of an ORDER-LINE row its order (OL_W_ID, OL_D_ID, OL_O_ID), OL_NUMBER, OL_I_ID, OL_SUPPLY_W_ID,
/// whether OL_DELIVERY_D is not null, OL_QUANTITY and OL_AMOUNT.
#[derive(Clone, Copy, Debug, PartialEq, Eq)]
pub struct OrderLineFact {
    pub order: OrderId,
    pub number: u8,
    pub item: u32,
    pub supply: u32,
    pub is_delivered: bool,
    pub quantity: u32,
    pub amount: i64,
}

/// Of an ITEM row I_ID.
#[derive(Clone, Copy, Debug, PartialEq, Eq)]
pub struct ItemFact {
    pub item: u32,
}

/// Of a STOCK row its key, S_QUANTITY, S_YTD, S_ORDER_CNT and S_REMOTE_CNT.
#[derive(Clone, Copy, Debug, PartialEq, Eq)]
pub struct StockFact {
    pub key: StockId,
    pub quantity: i64,
    pub ytd: u64,
    pub orders: u64,
    pub remotes: u64,
}
