//! The words of requests and queries, parted by blanks.
ghost use Rattle.std.specs.Prelude.{◌≡◌, ◌≤◌, ◌+◌, ◌*◌, ◌++◌, ◌∷◌, length};
ghost use Rattle.std.specs.List.{flat_map};
ghost use Rattle.arrayvec.specs.ArrayVec.{array_vec_len};
ghost use Rattle.oe_requests.specs.declared.requests.Request.TheVariants as spec;
ghost use Rattle.oe_requests.specs.declared.requests.Query.TheVariants as asks;
ghost use Rattle.oe_lines.specs.Grammar.{customer_word, request_words, query_words};
ghost use Rattle.oe_texts.specs.Stamp.{stamp_text};
ghost use Rattle.oe_lines.specs.Texts.{customer_text, district_text, head_text, item_text, line_of_words, parties_text};

use oe_requests::{
    CustomerChoice, DeliveriesRequest, DeliveryRequest, LevelQuery, NewOrderRequest,
    PaymentRequest, Query, RenameRequest, Request, RequestLine, StatusQuery,
};
use oe_rows::{CustomerKey, DistrictKey};
use oe_texts::columns::{money, nullable_stamp};
use oe_texts::{Pending, SIZE, small, text};
use oe_values::Stamp;

/// Appends a customer's number or last name.
fn customer(out: &mut Pending, customer: &CustomerChoice)
    requires { array_vec_len out.old + 16 ≤ SIZE }
    ensures items { out.new.items ≡ out.old.items ++ customer_word customer.now }
    ensures len { array_vec_len out.new ≤ array_vec_len out.old + 16 }
{
    match customer {
        CustomerChoice::Number(number) => small(out, number.get()),
        CustomerChoice::LastName(name) => text(out, name.as_str().as_bytes()),
    }
}

/// Appends a warehouse and a district.
fn district(out: &mut Pending, district: &DistrictKey)
    requires { array_vec_len out.old + 21 ≤ SIZE }
    ensures items { out.new.items ≡ out.old.items ++ district_text district.now }
    ensures len { array_vec_len out.new ≤ array_vec_len out.old + 21 }
{
    small(out, district.warehouse.get());
    out.push(b' ');
    small(out, district.district.get());
}

/// Appends a stamp behind a blank.
fn stamp(out: &mut Pending, stamp: Stamp)
    requires { array_vec_len out.old + 20 ≤ SIZE }
    ensures items { out.new.items ≡ out.old.items ++ 32 ∷ stamp_text stamp }
    ensures len { array_vec_len out.new ≤ array_vec_len out.old + 20 }
{
    out.push(b' ');
    nullable_stamp(out, Some(stamp));
}

/// Appends an item of an order behind a blank.
fn item(out: &mut Pending, line: &RequestLine)
    requires { array_vec_len out.old + 33 ≤ SIZE }
    ensures items { out.new.items ≡ out.old.items ++ item_text line.now }
    ensures len { array_vec_len out.new ≤ array_vec_len out.old + 33 }
{
    out.push(b' ');
    small(out, line.supply.get());
    out.push(b':');
    small(out, line.item.get());
    out.push(b':');
    small(out, line.quantity.get());
}

/// Appends the items of an order.
fn items(out: &mut Pending, lines: &[RequestLine])
    requires few { length lines.now ≤ 15 }
    requires room { array_vec_len out.old + 33 * length lines.now ≤ SIZE }
    ensures items { out.new.items ≡ out.old.items ++ flat_map item_text lines.now }
    ensures len { array_vec_len out.new ≤ array_vec_len out.old + 33 * length lines.now }
{
    for line in lines {
        item(out, line);
    }
}

/// Appends who pays where.
fn parties(out: &mut Pending, payment: &PaymentRequest)
    requires { array_vec_len out.old + 60 ≤ SIZE }
    ensures items { out.new.items ≡ out.old.items ++ parties_text payment.now }
    ensures len { array_vec_len out.new ≤ array_vec_len out.old + 60 }
{
    district(out, &payment.district);
    out.push(b' ');
    district(out, &payment.customer_district);
    out.push(b' ');
    customer(out, &payment.customer);
}

/// Appends the words of a payment.
fn payment(out: &mut Pending, payment: &PaymentRequest)
    requires { array_vec_len out.old + 113 ≤ SIZE }
    ensures items { out.new.items
        ≡ out.old.items ++ line_of_words (request_words (spec.Payment payment.now)) }
    ensures len { array_vec_len out.new ≤ array_vec_len out.old + 113 }
{
    text(out, b"payment ");
    parties(out, payment);
    out.push(b' ');
    money(out, u64::from(payment.amount.get()));
    stamp(out, payment.stamp);
}

/// Appends who orders where and when.
fn head(out: &mut Pending, order: &NewOrderRequest)
    requires { array_vec_len out.old + 52 ≤ SIZE }
    ensures items { out.new.items ≡ out.old.items ++ head_text order.now }
    ensures len { array_vec_len out.new ≤ array_vec_len out.old + 52 }
{
    district(out, &order.district);
    out.push(b' ');
    small(out, order.customer.get());
    stamp(out, order.stamp);
}

/// Appends the words of an order.
fn order(out: &mut Pending, order: &NewOrderRequest)
    requires { array_vec_len out.old + 556 ≤ SIZE }
    ensures items { out.new.items
        ≡ out.old.items ++ line_of_words (request_words (spec.NewOrder order.now)) }
    ensures len { array_vec_len out.new ≤ array_vec_len out.old + 556 }
{
    text(out, b"neworder ");
    head(out, order);
    items(out, order.lines.as_slice());
}

/// Appends the words of the delivery of one district.
fn delivery(out: &mut Pending, delivery: &DeliveryRequest)
    requires { array_vec_len out.old + 61 ≤ SIZE }
    ensures items { out.new.items
        ≡ out.old.items ++ line_of_words (request_words (spec.Delivery delivery.now)) }
    ensures len { array_vec_len out.new ≤ array_vec_len out.old + 61 }
{
    text(out, b"delivery ");
    district(out, &delivery.district);
    out.push(b' ');
    small(out, delivery.carrier.get());
    stamp(out, delivery.stamp);
}

/// Appends the words of the delivery of ten districts.
fn deliveries(out: &mut Pending, deliveries: &DeliveriesRequest)
    requires { array_vec_len out.old + 50 ≤ SIZE }
    ensures items { out.new.items
        ≡ out.old.items ++ line_of_words (request_words (spec.Deliveries deliveries.now)) }
    ensures len { array_vec_len out.new ≤ array_vec_len out.old + 50 }
{
    text(out, b"delivery ");
    small(out, deliveries.warehouse.warehouse.get());
    out.push(b' ');
    small(out, deliveries.carrier.get());
    stamp(out, deliveries.stamp);
}

/// Appends a customer's warehouse, district and number.
fn customer_key(out: &mut Pending, customer: &CustomerKey)
    requires { array_vec_len out.old + 32 ≤ SIZE }
    ensures items { out.new.items ≡ out.old.items ++ customer_text customer.now }
    ensures len { array_vec_len out.new ≤ array_vec_len out.old + 32 }
{
    small(out, customer.warehouse.get());
    out.push(b' ');
    small(out, customer.district.get());
    out.push(b' ');
    small(out, customer.customer.get());
}

/// Appends the words of a rename.
fn rename(out: &mut Pending, rename: &RenameRequest)
    requires { array_vec_len out.old + 73 ≤ SIZE }
    ensures items { out.new.items
        ≡ out.old.items ++ line_of_words (request_words (spec.Rename rename.now)) }
    ensures len { array_vec_len out.new ≤ array_vec_len out.old + 73 }
{
    text(out, b"rename ");
    customer_key(out, &rename.customer);
    out.push(b' ');
    text(out, rename.last.as_str().as_bytes());
    out.push(b' ');
    text(out, rename.first.as_str().as_bytes());
}

/// Appends the words of a request.
pub fn request(out: &mut Pending, request: &Request)
    requires { array_vec_len out.old + 556 ≤ SIZE }
    ensures items { out.new.items ≡ out.old.items ++ line_of_words (request_words request.now) }
    ensures len { array_vec_len out.new ≤ array_vec_len out.old + 556 }
{
    match request {
        Request::Payment(request) => payment(out, request),
        Request::NewOrder(request) => order(out, request),
        Request::Delivery(request) => delivery(out, request),
        Request::Deliveries(request) => deliveries(out, request),
        Request::Rename(request) => rename(out, request),
    }
}

/// Appends the words of an order status.
fn status(out: &mut Pending, query: &StatusQuery)
    requires { array_vec_len out.old + 45 ≤ SIZE }
    ensures items { out.new.items ≡ out.old.items
        ++ line_of_words (query_words (asks.Status query.now)) }
    ensures len { array_vec_len out.new ≤ array_vec_len out.old + 45 }
{
    text(out, b"status ");
    district(out, &query.district);
    out.push(b' ');
    customer(out, &query.customer);
}

/// Appends the words of a stock level.
fn level(out: &mut Pending, query: &LevelQuery)
    requires { array_vec_len out.old + 38 ≤ SIZE }
    ensures items { out.new.items ≡ out.old.items
        ++ line_of_words (query_words (asks.Level query.now)) }
    ensures len { array_vec_len out.new ≤ array_vec_len out.old + 38 }
{
    text(out, b"level ");
    district(out, &query.district);
    out.push(b' ');
    small(out, query.threshold.get());
}

/// Appends the words of a query.
pub fn query(out: &mut Pending, query: &Query)
    requires { array_vec_len out.old + 45 ≤ SIZE }
    ensures items { out.new.items ≡ out.old.items ++ line_of_words (query_words query.now) }
    ensures len { array_vec_len out.new ≤ array_vec_len out.old + 45 }
{
    match query {
        Query::Status(query) => status(out, query),
        Query::Level(query) => level(out, query),
    }
}
