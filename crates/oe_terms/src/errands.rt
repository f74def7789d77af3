//! What a terminal sends, one errand after another.
ghost use Rattle.std.specs.Prelude.{◌≡◌, ◌≤◌};
ghost use Rattle.oe_model.specs.Population.{IsScale};
ghost use Rattle.oe_terms.specs.Errands.{kind_of, errand_of_kind, errand_of, request_of};
ghost use Rattle.oe_terms.specs.Ranges.{IsErrandOf};

use crate::draws::words;
use crate::orders::new_order;
use crate::payments::{delivery, order_status, payment, stock_level};
use oe_requests::{Errand, Query, Request};
use oe_rows::Scale;
use oe_values::known::number;
use oe_values::{Number, Terminal};
use rand_pcg::Lcg64Xsh32;

/// The number of a request among its terminal's in a drive, from 1 to 1,000.
pub type RequestNumber = Number<1, 1_000>;

/// The number of a request among its terminal's, in a drive or a load, from 1 to 2,000,000,000.
pub type RequestPlace = Number<1, 2_000_000_000>;

/// A kind of request: one of the standard's five transactions (clause 1.1).
#[derive(Clone, Copy)]
pub enum Kind {
    NewOrder,
    Payment,
    OrderStatus,
    Delivery,
    StockLevel,
}

impl Kind {
    /// Gives the kind of a terminal's r-th request: the kinds come in turn, in place of the mix of
    /// clause 5.2.3.
    pub fn at(r: RequestNumber) -> Kind
        ensures { result ≡ kind_of r }
    {
        match r.get() % 5 {
            1 => Kind::NewOrder,
            2 => Kind::Payment,
            3 => Kind::OrderStatus,
            4 => Kind::Delivery,
            _ => Kind::StockLevel,
        }
    }
}

// A scale and a number of a request are in their ranges: a law.
fn ranges_hold(scale: &Scale, r: RequestNumber)
    ensures scale { IsScale scale.now }
    ensures number { r ≤ 1_000 }
{
    let _warehouses = scale.warehouses.get();
    let _customers = scale.customers.get();
    let _items = scale.items.get();
    let _number = r.get();
}

// Draws an errand of a kind.
fn drawn(
    kind: Kind,
    scale: &Scale,
    terminal: Terminal,
    r: RequestPlace,
    words: &mut Lcg64Xsh32,
) -> Errand
    ensures { (result, words.new) ≡ errand_of_kind kind scale.now terminal r words.old }
{
    match kind {
        Kind::NewOrder => Errand::Begin(Request::NewOrder(new_order(scale, terminal, r, words))),
        Kind::Payment => Errand::Begin(Request::Payment(payment(scale, terminal, r, words))),
        Kind::OrderStatus => Errand::Read(Query::Status(order_status(scale, terminal, words))),
        Kind::Delivery => Errand::Deliver(delivery(scale, terminal, r, words)),
        Kind::StockLevel => Errand::Read(Query::Level(stock_level(scale, terminal, words))),
    }
}

/// Draws the r-th errand of a terminal from its generator, which has drawn the earlier ones.
pub fn errand(scale: &Scale, terminal: Terminal, r: RequestNumber, words: &mut Lcg64Xsh32) -> Errand
    ensures drawn { (result, words.new) ≡ errand_of scale.now terminal r words.old }
    ensures ranges { IsErrandOf scale.now result }
{
    ranges_hold(scale, r);
    let kind = Kind::at(r);
    let place = number(r.get());
    drawn(kind, scale, terminal, place, words)
}

/// Draws what a terminal sends as its r-th: the earlier ones are drawn before it.
pub fn request(scale: &Scale, seed: u32, terminal: Terminal, r: RequestNumber) -> Errand
    ensures drawn { result ≡ request_of scale.now seed terminal r }
    ensures ranges { IsErrandOf scale.now result }
{
    let mut words = words(seed, terminal);
    for before in 0..r.get() - 1 {
        let _passed = errand(scale, terminal, number(before + 1), &mut words);
    }
    errand(scale, terminal, r, &mut words)
}
