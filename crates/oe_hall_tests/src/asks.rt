//! Requests and queries at a place.

use oe_requests::{
    CustomerChoice, DeliveriesRequest, DeliveryRequest, LevelQuery, NewOrderRequest,
    PaymentRequest, Query, Request, RequestLine, RequestLines, StatusQuery,
};
use oe_rows::{DistrictKey, Layout, WarehouseKey};
use oe_values::{Number, Stamp};
use std::process::Abort;

/// Where a script takes place, in a population of two warehouses: whose district, whose customer,
/// from which warehouse an order is supplied, how many of each item, and in which layout undo
/// records are kept.
#[derive(Clone, Copy)]
pub(crate) struct Place {
    pub(crate) warehouse: u32,
    pub(crate) district: u32,
    pub(crate) customer: u32,
    pub(crate) supply: u32,
    pub(crate) quantity: u32,
    pub(crate) layout: Layout,
}

/// A request at a place.
#[derive(Clone, Copy)]
pub(crate) enum Ask {
    /// An order of items 1 to 5, in the district that is that many further.
    Order(u32),
    /// An order of items 1 to 4, and of one that is unused.
    Unused,
    /// A payment by a customer of the district that is that many further.
    Payment(u32),
    /// A payment in the other warehouse.
    PaymentAway,
    /// The delivery of the district's oldest order by that carrier.
    Delivery(u32),
    /// The delivery of all ten districts' oldest orders by that carrier.
    Deliveries(u32),
}

/// A query at a place.
#[derive(Clone, Copy)]
pub(crate) enum Look {
    /// The newest order of the customer.
    Status,
    /// How many items of the district are short of 20.
    Level,
}

fn district(rt: &impl Abort, warehouse: u32, district: u32) -> DistrictKey {
    DistrictKey {
        warehouse: Number::new(warehouse).expect(rt, "a warehouse"),
        district: Number::new(district).expect(rt, "a district"),
    }
}

fn line(rt: &impl Abort, at: &Place, item: u32) -> RequestLine {
    RequestLine {
        supply: Number::new(at.supply).expect(rt, "a warehouse"),
        item: Number::new(item).expect(rt, "an item"),
        quantity: Number::new(at.quantity).expect(rt, "a quantity"),
    }
}

fn order(rt: &impl Abort, at: &Place, further: u32, last: u32) -> NewOrderRequest {
    let lines = [
        line(rt, at, 1),
        line(rt, at, 2),
        line(rt, at, 3),
        line(rt, at, 4),
        line(rt, at, last),
    ];
    NewOrderRequest {
        district: district(rt, at.warehouse, at.district.saturating_add(further)),
        customer: Number::new(at.customer).expect(rt, "a customer"),
        stamp: stamp(rt),
        lines: RequestLines::read(&lines).expect(rt, "five lines"),
    }
}

fn payment(rt: &impl Abort, at: &Place, warehouse: u32, further: u32) -> PaymentRequest {
    let by = at.district.saturating_add(further);
    PaymentRequest {
        district: district(rt, warehouse, at.district),
        customer_district: district(rt, warehouse, by),
        customer: CustomerChoice::Number(Number::new(at.customer).expect(rt, "a customer")),
        amount: Number::new(250).expect(rt, "an amount"),
        stamp: stamp(rt),
    }
}

fn stamp(rt: &impl Abort) -> Stamp {
    Stamp::from_seconds(3_187_296_000).expect(rt, "a stamp")
}

/// Makes a request at a place.
pub(crate) fn request(rt: &impl Abort, at: &Place, ask: Ask) -> Request {
    match ask {
        Ask::Order(further) => Request::NewOrder(order(rt, at, further, 5)),
        Ask::Unused => Request::NewOrder(order(rt, at, 0, 21)),
        Ask::Payment(further) => Request::Payment(payment(rt, at, at.warehouse, further)),
        Ask::PaymentAway => {
            let away = 3u32.saturating_sub(at.warehouse);
            Request::Payment(payment(rt, at, away, 0))
        }
        Ask::Delivery(carrier) => Request::Delivery(DeliveryRequest {
            district: district(rt, at.warehouse, at.district),
            carrier: Number::new(carrier).expect(rt, "a carrier"),
            stamp: stamp(rt),
        }),
        Ask::Deliveries(carrier) => Request::Deliveries(DeliveriesRequest {
            warehouse: WarehouseKey {
                warehouse: Number::new(at.warehouse).expect(rt, "a warehouse"),
            },
            carrier: Number::new(carrier).expect(rt, "a carrier"),
            stamp: stamp(rt),
        }),
    }
}

/// Makes a query at a place.
pub(crate) fn query(rt: &impl Abort, at: &Place, look: Look) -> Query {
    let district = district(rt, at.warehouse, at.district);
    match look {
        Look::Status => Query::Status(StatusQuery {
            district,
            customer: CustomerChoice::Number(Number::new(at.customer).expect(rt, "a customer")),
        }),
        Look::Level => Query::Level(LevelQuery {
            district,
            threshold: Number::new(20).expect(rt, "a threshold"),
        }),
    }
}
