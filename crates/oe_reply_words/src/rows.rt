//! Rows that replies tell of, and which transactions change them. Nothing here takes memory or can
//! fail.
ghost use Rattle.std.specs.Prelude.{◌≡◌, ◌≤◌, ◌+◌, ◌++◌};
ghost use Rattle.std.specs.List.{list_any};
ghost use Rattle.arrayvec.specs.ArrayVec.{array_vec_len};
ghost use Rattle.oe_reply_words.specs.Rows.{is_in, is_chosen, is_ordered, is_delivered, are_delivered, changes_district, changes_customer, changes_stock, changes, change_text, last_text};

use crate::parts::{is_number, is_same, next_part, part_at};
use oe_requests::{CustomerChoice, Request, RequestLine};
use oe_rows::{CustomerKey, DistrictKey, Key, StockKey};
use oe_texts::{Pending, SIZE, decimal, keys, text};

/// A row, and the line whose transaction changed it last.
#[derive(Clone, Copy)]
pub struct Change {
    pub row: Key,
    pub line: u128,
}

// Tells whether a district is that of these numbers.
fn is_in(district: DistrictKey, warehouse: u32, number: u32) -> bool
    ensures { result ≡ is_in district warehouse number }
{
    district.warehouse.get() == warehouse && district.district.get() == number
}

// Tells whether a customer was chosen: by its number, or by its last name, where the reply tells
// its number behind the first word.
fn is_chosen(choice: &CustomerChoice, reply: &[u8], customer: u32) -> bool
    ensures { result ≡ is_chosen choice.now reply.now customer }
{
    match choice {
        CustomerChoice::Number(number) => number.get() == customer,
        CustomerChoice::LastName(_) => is_number(part_at(reply, b' ', 1), customer),
    }
}

// Tells whether a line of an order takes from a stock.
fn is_ordered(line: &RequestLine, key: &StockKey) -> bool
    ensures { result ≡ is_ordered key.now line.now }
{
    line.supply.get() == key.warehouse.get() && line.item.get() == key.item.get()
}

// Tells whether some line of an order takes from a stock.
fn orders(lines: &[RequestLine], key: &StockKey) -> bool
    ensures { result ≡ list_any (is_ordered key.now) lines.now }
{
    for line in lines {
        if is_ordered(line, key) {
            return true;
        }
    }
    false
}

// Tells whether a district's part of the reply of ten deliveries tells of that customer.
fn is_delivered(part: &[u8], key: &CustomerKey) -> bool
    ensures { result ≡ is_delivered key.now part.now }
{
    is_number(part_at(part, b':', 0), key.district.get())
        && is_number(part_at(part, b':', 2), key.customer.get())
}

// Tells whether some part of the reply of ten deliveries tells of that customer.
fn are_delivered(reply: &[u8], key: &CustomerKey) -> bool
    ensures { result ≡ are_delivered key.now reply.now }
{
    let mut left = reply;
    loop {
        let cut = next_part(left, b' ');
        if is_delivered(cut.part, key) {
            return true;
        }
        let Some(rest) = cut.rest else {
            return false;
        };
        left = rest;
    }
}

// Tells whether a request changes a DISTRICT row: D_YTD by a payment (clause 2.5.2.2), D_NEXT_O_ID
// by an order (clause 2.4.2.2).
fn changes_district(request: &Request, key: DistrictKey) -> bool
    ensures { result ≡ changes_district request.now key }
{
    match request {
        Request::Payment(payment) => {
            is_in(payment.district, key.warehouse.get(), key.district.get())
        }
        Request::NewOrder(order) => is_in(order.district, key.warehouse.get(), key.district.get()),
        _ => false,
    }
}

// Tells whether a request with that reply changes a CUSTOMER row: a payment by it, a delivery to
// it (clauses 2.5.2.2, 2.7.4.2), or a rename.
fn changes_customer(request: &Request, reply: &[u8], key: &CustomerKey) -> bool
    ensures { result ≡ changes_customer request.now reply.now key.now }
{
    let warehouse = key.warehouse.get();
    let district = key.district.get();
    let customer = key.customer.get();
    match request {
        Request::Payment(payment) => {
            is_in(payment.customer_district, warehouse, district)
                && is_chosen(&payment.customer, reply, customer)
        }
        Request::Delivery(delivery) => {
            is_in(delivery.district, warehouse, district)
                && is_number(part_at(reply, b' ', 2), customer)
        }
        Request::Deliveries(deliveries) => {
            deliveries.warehouse.warehouse.get() == warehouse && are_delivered(reply, key)
        }
        Request::Rename(rename) => rename.customer.cmp(key).is_eq(),
        Request::NewOrder(_) => false,
    }
}

// Tells whether a request changes a STOCK row: an order with a line that takes from it (clause
// 2.4.2.2).
fn changes_stock(request: &Request, key: &StockKey) -> bool
    ensures { result ≡ changes_stock request.now key.now }
{
    match request {
        Request::NewOrder(order) => orders(order.lines.as_slice(), key),
        _ => false,
    }
}

/// Tells whether a transaction of that request, with that reply, changed a row of DISTRICT,
/// CUSTOMER or STOCK. A refused one changed none.
pub fn changes(request: &Request, reply: &[u8], row: &Key) -> bool
    ensures { result ≡ changes request.now reply.now row.now }
{
    if is_same(part_at(reply, b' ', 0), b"error") {
        return false;
    }
    match row {
        Key::District(key) => changes_district(request, *key),
        Key::Customer(key) => changes_customer(request, reply, key),
        Key::Stock(key) => changes_stock(request, key),
        _ => false,
    }
}

// Appends which line changed a row last.
fn tell_change(out: &mut Pending, change: &Change)
    requires { array_vec_len out.old + 140 ≤ SIZE }
    ensures items { out.new.items ≡ out.old.items ++ change_text change.now }
    ensures len { array_vec_len out.new ≤ array_vec_len out.old + 140 }
{
    text(out, b" (");
    keys::row(out, &change.row);
    text(out, b" was changed last by line ");
    decimal(out, change.line);
    text(out, b")");
}

/// Appends which line changed a row last, where one did.
pub(crate) fn last_line(out: &mut Pending, last: Option<Change>)
    requires { array_vec_len out.old + 140 ≤ SIZE }
    ensures items { out.new.items ≡ out.old.items ++ last_text last }
    ensures len { array_vec_len out.new ≤ array_vec_len out.old + 140 }
{
    match &last {
        Some(change) => tell_change(out, change),
        None => {}
    }
}
