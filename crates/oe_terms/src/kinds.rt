//! Which kind of request comes next (clause 5.2.3).
ghost use Rattle.std.specs.Prelude.{◌≡◌, ◌≤◌};
ghost use Rattle.oe_terms.specs.Plans.{are_all, share, shares_to, kind_of, kind_drawn};

use crate::Kind;
use crate::draws::random;
use oe_numbers::Kinds;
use rand_pcg::Lcg64Xsh32;

/// Tells whether no kind is named, so that all are drawn.
fn are_all(kinds: &Kinds) -> bool
    ensures { result ≡ are_all kinds.now }
{
    !(kinds.new_order || kinds.payment || kinds.status || kinds.delivery || kinds.level)
}

/// Gives a kind's share: what the standard has of it in a hundred, or nothing where it is not
/// drawn.
fn share(kinds: &Kinds, is_named: bool, standard: u32) -> u32
    ensures value { result ≡ share kinds.now is_named standard }
    ensures most { result ≤ standard }
{
    if are_all(kinds) || is_named {
        standard
    } else {
        0
    }
}

/// The shares of the kinds, each with those before it.
#[derive(Clone, Copy)]
pub(crate) struct Shares {
    pub(crate) orders: u32,
    pub(crate) payments: u32,
    pub(crate) statuses: u32,
    pub(crate) deliveries: u32,
    pub(crate) levels: u32,
}

/// Adds the shares up (clause 5.2.3): of a hundred requests 45 are orders, 43 payments, and 4 of
/// each other kind.
#[tactic(auto, using(crate::proofs::PlanFacts::some_share))]
fn added_up(kinds: &Kinds) -> Shares
    ensures value { result ≡ shares_to kinds.now }
    ensures least { 1 ≤ result.levels }
    ensures most { result.levels ≤ 100 }
{
    let orders = share(kinds, kinds.new_order, 45);
    let payments = orders + share(kinds, kinds.payment, 43);
    let statuses = payments + share(kinds, kinds.status, 4);
    let deliveries = statuses + share(kinds, kinds.delivery, 4);
    let levels = deliveries + share(kinds, kinds.level, 4);
    Shares {
        orders,
        payments,
        statuses,
        deliveries,
        levels,
    }
}

/// Gives the kind to whose share a number belongs.
fn kind_of(shares: &Shares, number: u32) -> Kind
    ensures { result ≡ kind_of shares.now number }
{
    if number <= shares.orders {
        Kind::NewOrder
    } else if number <= shares.payments {
        Kind::Payment
    } else if number <= shares.statuses {
        Kind::OrderStatus
    } else if number <= shares.deliveries {
        Kind::Delivery
    } else {
        Kind::StockLevel
    }
}

/// Draws the kind of a request.
pub(crate) fn kind_drawn(kinds: &Kinds, words: &mut Lcg64Xsh32) -> Kind
    ensures { (result, words.new) ≡ kind_drawn kinds.now words.old }
{
    let shares = added_up(kinds);
    kind_of(&shares, random(words, 1, shares.levels))
}
