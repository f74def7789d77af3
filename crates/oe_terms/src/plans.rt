//! The requests of a plan. A request is drawn from a generator of its own, so that none has to be
//! kept.
ghost use Rattle.std.specs.Prelude.{◌≡◌, ◌≤◌, length, map, min, true};
ghost use Rattle.oe_terms.specs.Plans.{generator_of, used_line, used_order, order_of, delivery_of, asked_of_kind, asked_of};
ghost use Rattle.oe_terms.specs.Plans.{IsKnown};
ghost use Rattle.oe_terms.specs.declared.plans.Asked.TheVariants as spec;

use crate::columns::{district_in, home};
use crate::draws::random;
use crate::kinds::kind_drawn;
use crate::orders::new_order;
use crate::payments::{delivery, order_status, payment, stock_level};
use crate::{Kind, RequestPlace, words};
use oe_numbers::{Items, Kinds, LoadNumbers, Ordinal};
use oe_requests::{DeliveryRequest, NewOrderRequest, Query, Request, RequestLine, RequestLines};
use oe_rows::Scale;
use oe_values::{Lines, Number, RequestedItem, Terminal};
use rand_pcg::Lcg64Xsh32;

/// A load: the scale, the extents, how many terminals ask for how many requests each, the seed,
/// the number of the first that each asks for, which kinds are drawn, and what becomes of unused
/// items.
#[derive(Clone, Copy)]
pub struct Plan {
    pub numbers: LoadNumbers,
    pub first: Ordinal,
    pub kinds: Kinds,
    pub items: Items,
}

/// What a terminal asks for: a transaction, or a query of the newest moment.
#[derive(Drop)]
pub enum Asked {
    Transaction(Request),
    Query(Query),
}

/// Gives a requested item that is there: one past the last gives place to the last.
fn used_item(scale: &Scale, item: RequestedItem) -> RequestedItem
    ensures { result ≡ min item scale.now.items }
{
    let last = scale.items.get();
    if item.get() <= last {
        return item;
    }
    Number::new(last).unwrap()
}

/// Gives a line whose item is there.
fn used_line(scale: &Scale, line: &RequestLine) -> RequestLine
    ensures { result ≡ used_line scale.now line.now }
{
    RequestLine {
        supply: line.supply,
        item: used_item(scale, line.item),
        quantity: line.quantity,
    }
}

/// Gives lines whose items are all there.
fn used_lines(scale: &Scale, lines: &[RequestLine]) -> Lines<RequestLine, 0, 15>
    requires { length lines.now ≤ 15 }
    ensures { result ≡ map (used_line scale.now) lines.now }
{
    let mut used = Lines::new();
    for line in lines {
        used.push(used_line(scale, line));
    }
    used
}

/// Tells whether the items of lines are all there, so that these lines are the ones to use.
fn are_used(scale: &Scale, lines: &[RequestLine]) -> bool
    ensures { result ≡ true → map (used_line scale.now) lines.now ≡ lines.now }
{
    let last = scale.items.get();
    for line in lines {
        if last < line.item.get() {
            return false;
        }
    }
    true
}

/// Gives an order whose items are all there, so that it isn't rolled back (clause 2.4.1.4).
fn used_order(scale: &Scale, order: NewOrderRequest) -> NewOrderRequest
    ensures { result ≡ used_order scale.now order }
{
    if are_used(scale, order.lines.as_slice()) {
        return order;
    }
    let used = used_lines(scale, order.lines.as_slice());
    match RequestLines::read(used.as_slice()) {
        Some(lines) => NewOrderRequest {
            district: order.district,
            customer: order.customer,
            stamp: order.stamp,
            lines,
        },
        None => unreachable!(),
    }
}

/// Gives the order that is asked for in place of one that was drawn. Of a hundred that are drawn
/// one has an unused item (clause 2.4.1.4), and stays as it is only where the items do.
fn order_of(items: Items, scale: &Scale, drawn: NewOrderRequest) -> NewOrderRequest
    ensures { result ≡ order_of items scale.now drawn }
{
    match items {
        Items::Used => used_order(scale, drawn),
        Items::AsDrawn => drawn,
    }
}

/// Draws a delivery: of ten districts (clause 2.7.1), or in 1 of 2 of one.
fn delivery_of(
    scale: &Scale,
    terminal: Terminal,
    r: RequestPlace,
    words: &mut Lcg64Xsh32,
) -> Request
    ensures value { result ≡ delivery_of scale.now terminal r words.old }
    ensures known { IsKnown (spec.Transaction result) }
{
    let deliveries = delivery(scale, terminal, r, words);
    let form = random(words, 1, 2);
    let district = district_in(home(scale, terminal), words);
    if form == 1 {
        return Request::Deliveries(deliveries);
    }
    Request::Delivery(DeliveryRequest {
        district,
        carrier: deliveries.carrier,
        stamp: deliveries.stamp,
    })
}

/// Draws a request of a kind.
fn asked_of_kind(
    kind: Kind,
    items: Items,
    scale: &Scale,
    terminal: Terminal,
    r: RequestPlace,
    words: &mut Lcg64Xsh32,
) -> Asked
    ensures value { result ≡ asked_of_kind kind items scale.now terminal r words.old }
    ensures known { IsKnown result }
{
    match kind {
        Kind::NewOrder => Asked::Transaction(Request::NewOrder(order_of(
            items,
            scale,
            new_order(scale, terminal, r, words),
        ))),
        Kind::Payment => Asked::Transaction(Request::Payment(payment(scale, terminal, r, words))),
        Kind::OrderStatus => Asked::Query(Query::Status(order_status(scale, terminal, words))),
        Kind::Delivery => Asked::Transaction(delivery_of(scale, terminal, r, words)),
        Kind::StockLevel => Asked::Query(Query::Level(stock_level(scale, terminal, words))),
    }
}

/// Makes the generator of a terminal's r-th request: the terminal's, a thousand words further for
/// each.
fn generator(seed: u32, terminal: Terminal, r: RequestPlace) -> Lcg64Xsh32
    ensures { result ≡ generator_of seed terminal r }
{
    let mut words = words(seed, terminal);
    words.advance(u64::from(r.get()) * 1_000);
    words
}

impl Plan {
    /// Gives the r-th request of a terminal.
    pub fn asked(&self, terminal: Terminal, r: RequestPlace) -> Asked
        ensures value { result ≡ asked_of self.now terminal r }
        ensures known { IsKnown result }
    {
        let mut words = generator(self.numbers.seed, terminal, r);
        let kind = kind_drawn(&self.kinds, &mut words);
        let scale = &self.numbers.scale;
        asked_of_kind(kind, self.items, scale, terminal, r, &mut words)
    }
}
