//! What desks were told, as shares of three ledgers: how many transactions were begun, were
//! committed and were rolled back.
//!
//! A `Told` has as many parts of each ledger, by its invariant. What all parts were told is the
//! total in the `Totals`. Nothing can fail, and nothing takes memory or room.
ghost use Rattle.std.specs.Prelude.{◌≡◌, ◌+◌, ◌<◌, ◌≤◌, ◌^◌};
ghost use Rattle.oe_hall.specs.Counts.{Counts, Tally, none, tally_of, tally, with_one_more, AreTotals, with_begin, with_commit, with_rollback, tally_with_begin, tally_with_commit, tally_with_rollback};

use crate::naming::Naming;
use std::marker::{Model, PhantomData};
use std::sync::ledger::{Blank, Book, Ledger, Share};

/// How many parts a ledger has: one for each of 64 desks, and one for the shop.
const PARTS: u64 = 65;

/// The ledger of the transactions that a shop began.
pub struct Begins<J: Naming> {
    of: PhantomData<J>,
}

impl<J: Naming> Ledger for Begins<J> {
    ghost name = { J.names.begun };

    ghost parts = { 65 };
}

/// The ledger of those that it committed.
pub struct Commits<J: Naming> {
    of: PhantomData<J>,
}

impl<J: Naming> Ledger for Commits<J> {
    ghost name = { J.names.committed };

    ghost parts = { 65 };
}

/// The ledger of those that it rolled back.
pub struct Rollbacks<J: Naming> {
    of: PhantomData<J>,
}

impl<J: Naming> Ledger for Rollbacks<J> {
    ghost name = { J.names.rolled_back };

    ghost parts = { 65 };
}

/// What a hand was told: how many transactions it began, and how many of them ended either way.
#[derive(Drop)]
pub struct Told<J: Naming> {
    begun: Share<Begins<J>>,
    committed: Share<Commits<J>>,
    rolled_back: Share<Rollbacks<J>>,
}

impl<J: Naming> Model for Told<J> {
    ghost Value = { Tally };

    ghost view = { λ t. record {
      parts = t.begun.parts;
      begun = t.begun.amount;
      committed = t.committed.amount;
      rolled_back = t.rolled_back.amount;
    } };

    ghost invariant = { λ t. (t.committed.parts ≡ t.begun.parts)
        × (t.rolled_back.parts ≡ t.begun.parts) };
}

/// How many transactions were begun, committed and rolled back.
#[derive(Clone, Copy)]
pub struct Counted {
    pub begun: u64,
    pub committed: u64,
    pub rolled_back: u64,
}

impl Counted {
    /// Makes the counts of nothing.
    pub(crate) fn none() -> Counted
        ensures { result ≡ record { begun = 0; committed = 0; rolled_back = 0 } }
    {
        Counted {
            begun: 0,
            committed: 0,
            rolled_back: 0,
        }
    }

    /// Adds what one more hand was told.
    pub(crate) fn with(&self, other: &Counted) -> Counted
        requires begun { self.now.begun + other.now.begun < 2 ^ 64 }
        requires committed { self.now.committed + other.now.committed < 2 ^ 64 }
        requires rolled_back { self.now.rolled_back + other.now.rolled_back < 2 ^ 64 }
        ensures { result ≡ record {
          begun = self.now.begun + other.now.begun;
          committed = self.now.committed + other.now.committed;
          rolled_back = self.now.rolled_back + other.now.rolled_back;
        } }
    {
        Counted {
            begun: self.begun + other.begun,
            committed: self.committed + other.committed,
            rolled_back: self.rolled_back + other.rolled_back,
        }
    }
}

/// The totals of what all hands were told.
#[derive(Drop)]
pub struct Totals<J: Naming> {
    begun: Book<Begins<J>>,
    committed: Book<Commits<J>>,
    rolled_back: Book<Rollbacks<J>>,
}

impl<J: Naming> Model for Totals<J> {
    ghost Value = { Counts };

    ghost view = { λ b. record {
      begun = b.begun.total;
      committed = b.committed.total;
      rolled_back = b.rolled_back.total;
    } };

    ghost invariant = { λ b. Unit {0} };
}

/// Ledgers that are not opened yet, each with a part for every desk and one for the shop.
#[derive(Drop)]
pub(crate) struct UnopenedLedgers {
    begun: Blank,
    committed: Blank,
    rolled_back: Blank,
    ghost parts: { (begun.parts ≡ 65) × (committed.parts ≡ 65) × (rolled_back.parts ≡ 65) },
}

impl UnopenedLedgers {
    /// Makes blank ledgers.
    pub(crate) fn new() -> UnopenedLedgers {
        UnopenedLedgers {
            begun: Blank::new(PARTS),
            committed: Blank::new(PARTS),
            rolled_back: Blank::new(PARTS),
        }
    }
}

/// Opens the ledgers: no total yet, and all parts in one hand.
pub(crate) fn open_ledgers<J: Naming>(unopened: UnopenedLedgers) -> (Totals<J>, Told<J>)
    requires begun { unopened.begun.name ≡ J.names.begun }
    requires committed { unopened.committed.name ≡ J.names.committed }
    requires rolled_back { unopened.rolled_back.name ≡ J.names.rolled_back }
    ensures { (result.0 ≡ none) × (result.1 ≡ tally_of 65) }
{
    let UnopenedLedgers {
        begun,
        committed,
        rolled_back,
        ..
    } = unopened;
    let (begun_total, begun) = begun.open::<Begins<J>>();
    let (committed_total, committed) = committed.open::<Commits<J>>();
    let (rolled_back_total, rolled_back) = rolled_back.open::<Rollbacks<J>>();
    let totals = Totals {
        begun: begun_total,
        committed: committed_total,
        rolled_back: rolled_back_total,
    };
    let told = Told {
        begun,
        committed,
        rolled_back,
    };
    (totals, told)
}

impl<J: Naming> Told<J> {
    /// Gives one part away, with nothing told.
    pub(crate) fn split_one(&mut self) -> Told<J>
        requires { 1 < self.old.parts }
        ensures one { result ≡ tally_of 1 }
        ensures rest { self.old ≡ record self.new { parts = self.new.parts + 1 } }
    {
        Told {
            begun: self.begun.split_off(1, 0),
            committed: self.committed.split_off(1, 0),
            rolled_back: self.rolled_back.split_off(1, 0),
        }
    }

    /// Gives one part to another hand, and what it was told.
    pub(crate) fn give(&mut self, to: &mut Told<J>, told: Counted)
        requires part { 0 < self.old.parts }
        requires enough { (told.begun ≤ self.old.begun) × (told.committed ≤ self.old.committed)
            × (told.rolled_back ≤ self.old.rolled_back) }
        requires last { self.old.parts ≡ 1 → self.old ≡ tally 1 told }
        ensures left { self.old ≡ with_one_more told self.new }
        ensures given { to.new ≡ with_one_more told to.old }
    {
        self.begun.give(&mut to.begun, 1, told.begun);
        self.committed.give(&mut to.committed, 1, told.committed);
        self.rolled_back
            .give(&mut to.rolled_back, 1, told.rolled_back);
    }
}

impl<J: Naming> Totals<J> {
    /// Counts a transaction that was begun, and that this hand is told of it.
    pub(crate) fn add_begun(&mut self, told: &mut Told<J>)
        requires { 0 < told.old.parts }
        ensures total { self.new ≡ with_begin self.old }
        ensures told { told.new ≡ tally_with_begin told.old }
    {
        self.begun.add(&mut told.begun, 1);
    }

    /// Counts a commit, and that this hand is told of it.
    pub(crate) fn add_committed(&mut self, told: &mut Told<J>)
        requires { 0 < told.old.parts }
        ensures total { self.new ≡ with_commit self.old }
        ensures told { told.new ≡ tally_with_commit told.old }
    {
        self.committed.add(&mut told.committed, 1);
    }

    /// Counts a transaction that was rolled back, and that this hand is told of it.
    pub(crate) fn add_rolled_back(&mut self, told: &mut Told<J>)
        requires { 0 < told.old.parts }
        ensures total { self.new ≡ with_rollback self.old }
        ensures told { told.new ≡ tally_with_rollback told.old }
    {
        self.rolled_back.add(&mut told.rolled_back, 1);
    }

    /// Shows that what all parts were told is the totals. This does nothing: it is a law.
    pub(crate) fn audit(&mut self, told: &mut Told<J>)
        requires whole { told.old.parts ≡ 65 }
        ensures same { (self.new ≡ self.old) × (told.new ≡ told.old) }
        ensures whole { AreTotals told.old self.old }
    {
        self.begun.audit(&mut told.begun);
        self.committed.audit(&mut told.committed);
        self.rolled_back.audit(&mut told.rolled_back);
    }
}
