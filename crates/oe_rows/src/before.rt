//! The columns of rows that an update changed, as they stood before it.
//!
//! A column is there exactly where the update gave it another value. Columns are in their ranges by
//! type. Nothing can fail, and nothing takes memory.

use crate::customers::Credit;
use oe_values::numbers::{
    Balance, Carrier, Count, CustomerNumber, ItemNumber, LineAmount, LineCount, LineQuantity,
    OrderNumber, Rate, StockYtd, WarehouseNumber, YearToDate,
};
use oe_values::stamps::Stamp;
use oe_values::texts::Text;

/// The changed columns of an address (clause 1.3.1).
#[derive(Drop)]
pub struct AddressBefore {
    pub street_1: Option<Text<0, 20>>,
    pub street_2: Option<Text<0, 20>>,
    pub city: Option<Text<0, 20>>,
    pub state: Option<Text<2, 2>>,
    pub zip: Option<Text<9, 9>>,
}

/// The changed columns of a WAREHOUSE row (clause 1.3.1).
#[derive(Drop)]
pub struct WarehouseBefore {
    pub name: Option<Text<0, 10>>,
    pub address: AddressBefore,
    pub tax: Option<Rate>,
    pub ytd: Option<YearToDate>,
}

/// The changed columns of a DISTRICT row (clause 1.3.1).
#[derive(Drop)]
pub struct DistrictBefore {
    pub name: Option<Text<0, 10>>,
    pub address: AddressBefore,
    pub tax: Option<Rate>,
    pub ytd: Option<YearToDate>,
    pub next_order: Option<OrderNumber>,
}

/// The changed columns of a customer's name (clause 1.3.1).
#[derive(Drop)]
pub struct CustomerNameBefore {
    pub first: Option<Text<0, 16>>,
    pub middle: Option<Text<2, 2>>,
    pub last: Option<Text<0, 16>>,
}

/// The changed columns of a customer's money and counts (clause 1.3.1).
#[derive(Drop)]
pub struct AccountBefore {
    pub credit_limit: Option<YearToDate>,
    pub discount: Option<Rate>,
    pub balance: Option<Balance>,
    pub ytd_payment: Option<YearToDate>,
    pub payment_count: Option<Count>,
    pub delivery_count: Option<Count>,
}

/// The changed columns of a CUSTOMER row (clause 1.3.1).
#[derive(Drop)]
pub struct CustomerBefore {
    pub name: CustomerNameBefore,
    pub address: AddressBefore,
    pub phone: Option<Text<16, 16>>,
    pub since: Option<Stamp>,
    pub credit: Option<Credit>,
    pub account: AccountBefore,
    pub data: Option<Text<0, 500>>,
}

/// The changed columns of an ORDER row (clause 1.3.1).
#[derive(Drop)]
pub struct OrderBefore {
    pub customer: Option<CustomerNumber>,
    pub entry: Option<Stamp>,
    pub carrier: Option<Option<Carrier>>,
    pub line_count: Option<LineCount>,
    pub all_local: Option<bool>,
}

/// The changed columns of an ORDER-LINE row (clause 1.3.1).
#[derive(Drop)]
pub struct OrderLineBefore {
    pub item: Option<ItemNumber>,
    pub supply: Option<WarehouseNumber>,
    pub delivery: Option<Option<Stamp>>,
    pub quantity: Option<LineQuantity>,
    pub amount: Option<LineAmount>,
    pub dist_info: Option<Text<24, 24>>,
}

/// The changed columns of a STOCK row (clause 1.3.1). `dist_info` has S_DIST_01 to S_DIST_10.
#[derive(Drop)]
pub struct StockBefore {
    pub quantity: Option<Count>,
    pub dist_info: [Option<Text<24, 24>>; 10],
    pub ytd: Option<StockYtd>,
    pub order_count: Option<Count>,
    pub remote_count: Option<Count>,
    pub data: Option<Text<0, 50>>,
}
