//! Heads: whose the segments are, and how many records each has in the ring.
//!
//! The log that keeps them has their invariant. No call takes memory, and nothing can fail.
ghost use Rattle.std.specs.Prelude.{◌≡◌};

use oe_requests::replies::Reply;
use oe_requests::requests::Request;
use oe_values::numbers::{Terminal, TransactionNumber};
use std::marker::Model;
use std::snapshot::Snapshot;

/// Whose a segment is: a transaction, by its terminal and its number among the terminal's, from 1.
#[derive(Clone, Copy, PartialEq, Eq)]
pub struct SegmentOwner {
    pub terminal: Terminal,
    pub number: TransactionNumber,
}

/// A terminal's commits so far, its open transaction, if it has one, and how many records that has.
#[derive(Drop)]
pub struct TerminalHead {
    pub count: u32,
    pub active: Option<SegmentOwner>,
    // Whether that has recorded a deleted row, be the record taken off since.
    pub(crate) deletes: bool,
    pub(crate) len: usize,
}

/// A transaction that has committed. What it was begun with and what it answered are for clauses
/// alone: no byte is kept of either.
#[derive(Drop)]
pub struct CommitHead {
    pub(crate) owner: SegmentOwner,
    // As its terminal's head said.
    pub(crate) deletes: bool,
    pub(crate) len: usize,
    pub(crate) request: Snapshot<Request>,
    pub(crate) reply: Snapshot<Reply>,
}

impl Model for CommitHead {
    ghost use Rattle.oe_log.specs.Kept.{Head};

    ghost Value = { Head };

    ghost view = { λ c. record {
      terminal = c.owner.terminal;
      number = c.owner.number;
      deletes = c.deletes;
      len = c.len;
      request = c.request.value;
      reply = c.reply.value;
    } };
}

impl CommitHead {
    /// Tells whose it was.
    pub(crate) fn owner(&self) -> SegmentOwner
        ensures { result ≡ record { terminal = self.now.terminal; number = self.now.number } }
    {
        self.owner
    }

    /// Tells whether it may have deleted a row.
    pub(crate) fn may_delete(&self) -> bool
        ensures { result ≡ self.now.deletes }
    {
        self.deletes
    }
    /// Tells how many records it has.
    pub(crate) fn len(&self) -> usize
        ensures { result ≡ self.now.len }
    {
        self.len
    }
}
