//! Keys, a payment, and small populations. `None` where a number is out of its range, or the system
//! has refused memory.

use oe_population::populate;
use oe_requests::{CustomerChoice, PaymentRequest, Request};
use oe_rows::{DistrictKey, HistoryKey, OrderKey, Scale};
use oe_store::Tables;
use oe_values::{Number, Stamp};
use std::alloc::Global;

pub(crate) fn district_key(warehouse: u32, district: u32) -> Option<DistrictKey> {
    Some(DistrictKey {
        warehouse: Number::new(warehouse)?,
        district: Number::new(district)?,
    })
}

/// Makes the key of an order from its three columns.
pub(crate) fn order_key(columns: &[u32; 3]) -> Option<OrderKey> {
    Some(district_key(columns[0], columns[1])?.order(Number::new(columns[2])?))
}

pub(crate) fn history_key(terminal: u32, number: u32) -> Option<HistoryKey> {
    Some(HistoryKey {
        terminal: Number::new(terminal)?,
        number: Number::new(number)?,
        ordinal: Number::new(1)?,
    })
}

/// Makes the payment of a customer of district 3 of warehouse 1, in cents, in district 7 of
/// warehouse 2.
pub(crate) fn payment(customer: u32, cents: u32) -> Option<Request> {
    Some(Request::Payment(PaymentRequest {
        district: district_key(2, 7)?,
        customer_district: district_key(1, 3)?,
        customer: CustomerChoice::Number(Number::new(customer)?),
        amount: Number::new(cents)?,
        stamp: Stamp::from_seconds(3_187_296_000)?,
    }))
}

/// Makes the population of two warehouses with that number of customers in each district, and of
/// items.
pub(crate) fn populated(alloc: Global, customers: u32, items: u32) -> Option<Tables> {
    let scale = Scale {
        warehouses: Number::new(2)?,
        customers: Number::new(customers)?,
        items: Number::new(items)?,
    };
    populate(alloc, scale).ok()
}
