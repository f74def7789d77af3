//! What the keeper of the history and each caller know of it, and how steps change that. All of it
//! is for proofs: no value of these types is made.
ghost use Rattle.oe_history.specs.declared.views.Entry.{Entry};
ghost use Rattle.oe_history.specs.Views.{no_entry, IsKept, keeper, both, nobody, keeper_of, caller_of, dealt_on, next_caller, Appended, Looked};

use atomic_table::{Join, Play, Split, TableRule};
use oe_requests::{Answer, Step};
use std::collections::LinkedList;
use std::marker::{Brand, PhantomData};

/// A step, by whom, and its answer.
pub struct Entry {
    pub by: u64,
    pub step: Step,
    pub answer: Answer,
}

/// What the holder of a seat knows: the keeper all entries, and how many callers there are; a caller
/// its number, the entries that it has seen, and its own.
pub struct View {
    pub keeps: bool,
    pub log: LinkedList<Entry>,
    pub dealt: u64,
    pub calls: bool,
    pub by: u64,
    pub seen: LinkedList<Entry>,
    pub mine: LinkedList<Entry>,
}

/// The rule of the history.
pub struct OneHistory;

impl TableRule<u8, View, u64> for OneHistory {
    ghost use Rattle.std.specs.Prelude.{[]};

    ghost holds = { IsKept };

    ghost first = { λ _. keeper [] 0 };
}

/// A caller comes to the keeper.
pub struct Comes;

impl Join<View> for Comes {
    ghost both = { both };

    ghost spent = { nobody };
}

/// And goes.
pub struct Goes;

impl Split<View> for Goes {
    ghost left = { keeper_of };

    ghost right = { caller_of };
}

/// A new caller.
pub struct Deals;

impl Split<View> for Deals {
    ghost left = { dealt_on };

    ghost right = { next_caller };
}

/// Names an entry. Each call that writes one picks it, so that no value of it is made.
pub trait Told {
    ghost entry: { Entry };
}

impl Told for Brand {
    ghost entry = { no_entry };
}

/// The keeper adds an entry of the caller that is there.
pub struct Appends<T: Told> {
    of: PhantomData<T>,
}

impl<T: Told> Play<u8, View> for Appends<T> {
    ghost then = { λ s v found w. Appended T.entry s v found w };
}

/// The keeper compares what the caller that is there knows.
pub struct Looks;

impl Play<u8, View> for Looks {
    ghost then = { Looked };
}
