//! Whether the undo extents of a drive are sure to suffice. No transaction is purged in a drive.
ghost use Rattle.std.specs.Prelude.{◌≡◌, ◌≤◌, IfSome, IfNone};
ghost use Rattle.oe_drive.specs.Room.{transactions_of, most_extents_of, transactions_by, most_extents_by, MayOverfill, asked_in, kept_in};

use oe_numbers::DriveNumbers;
use oe_terms::errands::{Kind, RequestNumber};
use oe_values::Number;

/// A drive that may fill its extents: how many transactions its terminals ask for, and about how
/// many of them have room.
#[derive(Clone, Copy)]
pub struct Overfull {
    pub asked: u32,
    pub kept: u32,
}

// Tells how many transactions a terminal's errand of a kind is: none where it is a query.
fn transactions_of(kind: Kind) -> u32
    ensures { result ≡ transactions_of kind }
{
    match kind {
        Kind::NewOrder | Kind::Payment | Kind::Delivery => 1,
        Kind::OrderStatus | Kind::StockLevel => 0,
    }
}

// Tells how many extents an errand of a kind fills at most.
fn most_extents_of(kind: Kind) -> u32
    ensures { result ≡ most_extents_of kind }
{
    match kind {
        Kind::NewOrder | Kind::Payment => 1,
        Kind::Delivery => 2,
        Kind::OrderStatus | Kind::StockLevel => 0,
    }
}

// Counts the transactions among a terminal's first requests, and the extents that these fill at
// most.
fn needs(requests: RequestNumber) -> (u32, u32)
    ensures transactions { result.0 ≡ transactions_by requests }
    ensures extents { result.1 ≡ most_extents_by requests }
    ensures few { (result.0 ≤ 1_000) × (result.1 ≤ 2_000) }
{
    let mut transactions = 0;
    let mut extents = 0;
    for before in 0..requests.get() {
        let kind = Kind::at(Number::new(before + 1).unwrap());
        transactions += transactions_of(kind);
        extents += most_extents_of(kind);
    }
    (transactions, extents)
}

/// Tells of a drive whose transactions may fill more extents than it has; none where all of them are
/// sure to have room. An order or a payment fills one at most, a delivery of ten districts two.
pub fn may_overfill(numbers: &DriveNumbers) -> Option<Overfull>
    ensures some { IfSome result (λ o. MayOverfill numbers.now
        × (o.asked ≡ asked_in numbers.now) × (o.kept ≡ kept_in numbers.now)) }
    ensures none { IfNone result (MayOverfill numbers.now → ⊥) }
{
    let (transactions, extents) = needs(numbers.requests);
    let terminals = numbers.terminals.get();
    let asked = terminals * transactions;
    let most = terminals * extents;
    let held = numbers.extents.get();
    if most <= held {
        return None;
    }
    Some(Overfull {
        asked,
        kept: held * asked / most,
    })
}
