//! What a script is made of: who is asked for what, and what is told.

use crate::asks::{Ask, Look};
use oe_hall::Open;
use oe_moments::Pin;
use oe_requests::{Answer, Refusal};
use std::process::Abort;

/// What a desk is asked for. Its transaction and its pin are those that a hand holds.
#[derive(Clone, Copy)]
pub(crate) enum Act {
    /// Begins a transaction.
    Begin(Ask),
    /// Advances the transaction by a stage.
    Advance,
    /// Advances the transaction until no stage is left.
    CarryOut,
    /// Rolls the transaction back.
    End,
    /// Tells the desk a moment.
    Tell(u64),
    /// Loads the newest moment that the desk knows.
    Newest,
    /// Pins the newest moment.
    Pin,
    /// Reads at the pin's moment.
    Read(Look),
    /// Ends the pin.
    Unpin,
    /// Purges up to a moment.
    Purge(u64),
}

/// What is told.
#[derive(Clone, Copy, PartialEq, Eq)]
pub(crate) enum Told {
    /// It is done.
    Done,
    /// The transaction has a stage left.
    More,
    /// The transaction stays open where it is, by the refusal of that number.
    Kept(u8),
    /// The transaction is rolled back, by the refusal of that number.
    RolledBack(u8),
    /// Nothing was done, by the refusal of that number.
    Refused(u8),
    /// The moment that was made, pinned or loaded, or that is the horizon now.
    Moment(u64),
    /// The keeper's claim, which is past what the desk could pin.
    TooOld(u64),
    /// The pin is another's; the desk's own pin word is that one.
    NotPinned(u64),
}

/// One move of a script: the desk of the first number is asked, with what the hand of the second
/// number holds. A core is asked too where both numbers are one.
#[derive(Clone, Copy)]
pub(crate) struct Move(
    pub(crate) usize,
    pub(crate) usize,
    pub(crate) Act,
    pub(crate) Told,
);

/// What a desk told, and the answer that a core has to give; none where only desks can be asked. A
/// core reads at `commits`, or purges up to it.
#[derive(Drop)]
pub(crate) struct Said {
    pub(crate) told: Told,
    pub(crate) answer: Option<Answer>,
    pub(crate) commits: u64,
}

/// Says what a desk told where a core has to give that answer.
pub(crate) fn answered(told: Told, answer: Answer) -> Said {
    answered_at(told, answer, 0)
}

/// Says what a desk told of that moment where a core has to give that answer.
pub(crate) fn answered_at(told: Told, answer: Answer, commits: u64) -> Said {
    Said {
        told,
        answer: Some(answer),
        commits,
    }
}

/// Says what a desk told where no core can be asked.
pub(crate) fn alone(told: Told) -> Said {
    Said {
        told,
        answer: None,
        commits: 0,
    }
}

/// A hand, which holds a transaction that is open, and a pin.
pub(crate) struct Hand {
    pub(crate) open: Option<Open>,
    pub(crate) pin: Option<Pin>,
}

/// The hands of a shop's three desks.
pub(crate) struct Hands {
    one: Hand,
    two: Hand,
    three: Hand,
}

/// Takes what a hand holds.
pub(crate) fn taken<T>(rt: &impl Abort, slot: &mut Option<T>) -> T {
    match slot.take() {
        Some(value) => value,
        None => panic!(rt; "a hand is empty"),
    }
}

/// Puts into a hand what it is to hold.
pub(crate) fn put<T>(rt: &impl Abort, slot: &mut Option<T>, value: T) {
    let old = slot.replace(value);
    let None = old else {
        panic!(rt; "a hand is full")
    };
}

impl Hand {
    /// Makes an empty hand.
    pub(crate) fn empty() -> Hand {
        Hand {
            open: None,
            pin: None,
        }
    }

    /// Gives up a hand that is empty again.
    pub(crate) fn put_down(self, rt: &impl Abort) {
        let Hand { open, pin } = self;
        let None = open else {
            panic!(rt; "a transaction is open")
        };
        let None = pin else {
            panic!(rt; "a pin is out")
        };
    }
}

impl Hands {
    /// Makes three empty hands.
    pub(crate) fn empty() -> Hands {
        Hands {
            one: Hand::empty(),
            two: Hand::empty(),
            three: Hand::empty(),
        }
    }

    /// Lends the hand of that number.
    pub(crate) fn hand(&mut self, number: usize) -> &mut Hand {
        match number {
            0 => &mut self.one,
            1 => &mut self.two,
            _ => &mut self.three,
        }
    }

    /// Gives up hands that are empty again.
    pub(crate) fn put_down(self, rt: &impl Abort) {
        let Hands { one, two, three } = self;
        one.put_down(rt);
        two.put_down(rt);
        three.put_down(rt);
    }
}

/// Says what was refused.
pub(crate) fn refused(refusal: &Refusal) -> Told {
    match refusal {
        Refusal::NotPinned(word) => Told::NotPinned(*word),
        other => Told::Refused(other.number()),
    }
}
