//! Rows that are read before a transaction takes them, so that they lie in the processor's cache
//! once it does. No row, record or lock changes, and nothing can fail.
ghost use Rattle.std.specs.Prelude.{◌≡◌};

use crate::engine::Engine;
use oe_requests::{CustomerChoice, NewOrderRequest, PaymentRequest, Request, RequestLine};
use oe_rows::{Key, Layout, StockKey};
use oe_store::Tables;
use oe_undo::Undo;
use oe_values::{DistrictNumber, ItemNumber};

// Gives the key of a line's STOCK row, where an item may have its number.
fn stock_key(line: &RequestLine) -> Option<StockKey> {
    Some(StockKey {
        warehouse: line.supply,
        item: ItemNumber::new(line.item.get())?,
    })
}

// Touches the rows of an order's line, and the place of its stock's link.
fn touched_line(tables: &Tables, undo: &Undo, district: DistrictNumber, line: &RequestLine) -> u32 {
    let (Some(key), Some(linked)) = (stock_key(line), stock_key(line)) else {
        return 0;
    };
    let layout = undo.segments().layout();
    tables.touch_stock(key, district, layout) ^ undo.touch(&Key::Stock(linked))
}

// Touches what an order takes.
fn touched_order(tables: &Tables, undo: &Undo, order: &NewOrderRequest) -> u32 {
    let mut joined = tables.touch_account(order.district.customer(order.customer));
    for line in order.lines.as_slice() {
        joined ^= touched_line(tables, undo, order.district.district, line);
    }
    joined
}

// Touches what a payment by number takes.
fn touched_payment(tables: &Tables, layout: Layout, payment: &PaymentRequest) -> u32 {
    match &payment.customer {
        CustomerChoice::Number(customer) => {
            tables.touch_customer(payment.customer_district.customer(*customer), layout)
        }
        CustomerChoice::LastName(_) => 0,
    }
}

// Touches what a request names.
fn touched(tables: &Tables, undo: &Undo, request: &Request) -> u32 {
    match request {
        Request::NewOrder(order) => touched_order(tables, undo, order),
        Request::Payment(payment) => { touched_payment(tables, undo.segments().layout(), payment) }
        _ => 0,
    }
}

impl Engine {
    /// Reads early what a transaction of that request will take: an order's customer, stocks and
    /// items, and a payment's customer. Nothing changes.
    pub fn touch(&mut self, request: &Request)
        ensures { self.new ≡ self.old }
    {
        self.touched ^= touched(&self.tables, &self.undo, request);
    }
}
