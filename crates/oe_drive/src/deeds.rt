//! What terminals did, for a person to read, and the commits that they kept. No contract speaks of
//! the counts, and no count goes past the greatest number.

use oe_deeds::{BusyCounts, Commits};
use oe_requests::Refusal;
use std::alloc::Global;

/// Why a terminal lets go of a transaction.
#[derive(Clone, Copy)]
pub enum Cause {
    /// Its begin was refused, so that nothing was begun.
    Refused,
    /// It was answered `Busy` as often as a terminal bears.
    Busy,
    /// It was answered `UndoFull`: all extents are in use.
    Full,
    /// It was answered `NoMemory`.
    NoMemory,
}

/// How many errands were done, queries read and deliveries left in the queue; how often a
/// transaction was answered `Busy`, its last time too, for which kinds of names, and in the longest
/// row without another answer; how many begins were refused, and how many transactions were given
/// up, by cause. Then the commits, where they are asked for.
#[derive(Drop)]
pub struct Deeds {
    pub errands: u64,
    pub reads: u64,
    pub deliveries: u64,
    pub busy: u64,
    pub busy_for: BusyCounts,
    pub longest_row: u32,
    pub refused: u64,
    pub given_up_busy: u64,
    pub given_up_full: u64,
    pub given_up_no_memory: u64,
    pub commits: Commits,
}

impl Deeds {
    /// Makes the counts of one that did nothing, and that keeps its commits where they are asked
    /// for.
    pub fn none(alloc: Global, keeps_commits: bool) -> Deeds {
        Deeds {
            errands: 0,
            reads: 0,
            deliveries: 0,
            busy: 0,
            busy_for: BusyCounts::none(),
            longest_row: 0,
            refused: 0,
            given_up_busy: 0,
            given_up_full: 0,
            given_up_no_memory: 0,
            commits: Commits::new(alloc, keeps_commits),
        }
    }

    /// Counts an answer `Busy`, the last of a row of so many.
    pub fn note_busy(&mut self, refusal: &Refusal, row: u32) {
        self.busy = self.busy.saturating_add(1);
        self.longest_row = self.longest_row.max(row);
        if let Refusal::Busy(name, _) = refusal {
            self.busy_for.note(name);
        }
    }

    /// Counts a transaction that a terminal lets go.
    pub fn note(&mut self, cause: Cause) {
        match cause {
            Cause::Refused => self.refused = self.refused.saturating_add(1),
            Cause::Busy => self.given_up_busy = self.given_up_busy.saturating_add(1),
            Cause::Full => self.given_up_full = self.given_up_full.saturating_add(1),
            Cause::NoMemory => {
                self.given_up_no_memory = self.given_up_no_memory.saturating_add(1);
            }
        }
    }

    /// Tells how many transactions were begun and given up, of all causes.
    pub fn given_up(&self) -> u64 {
        self.given_up_busy
            .saturating_add(self.given_up_full)
            .saturating_add(self.given_up_no_memory)
    }

    /// Adds what another did.
    pub fn add(&mut self, other: Deeds) {
        self.errands = self.errands.saturating_add(other.errands);
        self.reads = self.reads.saturating_add(other.reads);
        self.deliveries = self.deliveries.saturating_add(other.deliveries);
        self.busy = self.busy.saturating_add(other.busy);
        self.busy_for.add(&other.busy_for);
        self.longest_row = self.longest_row.max(other.longest_row);
        self.refused = self.refused.saturating_add(other.refused);
        self.given_up_busy = self.given_up_busy.saturating_add(other.given_up_busy);
        self.given_up_full = self.given_up_full.saturating_add(other.given_up_full);
        self.given_up_no_memory = self
            .given_up_no_memory
            .saturating_add(other.given_up_no_memory);
        self.commits.add(other.commits);
    }
}
