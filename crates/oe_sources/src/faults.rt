//! What is wrong with lines. Of each table the first three faults are kept, and all are counted.
ghost use Rattle.std.specs.Prelude.{◌≡◌, ◌<◌, ◌≤◌, take, length, slice_index, OnOk, IfOk};
ghost use Rattle.oe_facts.specs.Table.{place_of};
ghost use Rattle.oe_sources.specs.Fault.{no_faults, with_fault};

use arrayvec::ArrayVec;
use oe_columns::{LayoutFault, Misfit};
use oe_facts::Table;
use std::alloc::{AllocError, Global};
use std::marker::Model;

/// Of each table this many faults are kept.
pub const KEPT: u64 = 3;

/// Of the text that a fault shows this many bytes are kept.
pub const SHOWN: usize = 40;

/// What is wrong with a line.
#[derive(Clone, Copy)]
pub enum Wrong {
    /// The field of a column does not spell what it has to, or is not there.
    Misfit(Misfit),
    /// The first line does not tell where the columns stand.
    Layout(LayoutFault),
    /// It has more than 65,536 bytes.
    TooLong,
    /// It stands behind the end of the rows.
    PastEnd,
    /// It says that there are this number of rows, and there are not.
    Miscount(u64),
    /// It is the last one, and the section is not ended.
    NotEnded,
}

/// The text that a fault shows: its first 40 bytes.
#[derive(Drop)]
pub struct Shown {
    bytes: ArrayVec<u8, SHOWN>,
}

impl Model for Shown {
    ghost use Rattle.std.specs.Prelude.{ℕ, List};

    ghost Value = { List ℕ };

    ghost view = { λ s. s.bytes.items };
}

/// Gives the first 40 bytes of a text.
fn front(text: &[u8]) -> &[u8]
    ensures value { result.now ≡ take 40 text.now }
    ensures most { length result.now ≤ 40 }
{
    if text.len() <= SHOWN {
        return text;
    }
    &text[..SHOWN]
}

impl Shown {
    /// Takes the first bytes of a text.
    pub(crate) fn of(text: &[u8]) -> Shown
        ensures { result ≡ take 40 text.now }
    {
        let front = front(text);
        let mut bytes = ArrayVec::new();
        for byte in front {
            bytes.push(*byte);
        }
        Shown { bytes }
    }

    /// Gives the bytes.
    pub fn as_slice(&self) -> &[u8]
        ensures value { result.now ≡ self.now }
        ensures most { length result.now ≤ 40 }
    {
        self.bytes.as_slice()
    }
}

/// A line that can't be read. Lines are counted from 1. The text is the field that was read, or
/// else the line.
#[derive(Drop)]
pub struct SourceFault {
    pub table: Table,
    pub line: u64,
    pub wrong: Wrong,
    pub text: Shown,
}

/// The faults so far.
#[derive(Drop)]
pub struct Faults {
    kept: Vec<SourceFault>,
    counts: [u64; 9],
}

impl Model for Faults {
    ghost use Rattle.oe_sources.specs.Fault.{Told};

    ghost Value = { Told };

    ghost view = { λ f. record { kept = f.kept.items; counts = f.counts } };
}

impl Faults {
    /// Nothing is wrong so far.
    pub fn new(alloc: Global) -> Faults
        ensures { result ≡ no_faults }
    {
        Faults {
            kept: Vec::new(alloc),
            counts: [0; 9],
        }
    }

    /// Adds a fault. It is kept where fewer than three of its table stand before it.
    pub(crate) fn push(&mut self, fault: SourceFault) -> Result<(), AllocError>
        ensures { OnOk result (self.new ≡ with_fault fault self.old) }
    {
        let at = fault.table.place();
        let count = self.counts[at];
        self.counts[at] = count.saturating_add(1);
        if count < KEPT {
            if self.kept.push(fault).is_err() {
                return Err(AllocError);
            }
        }
        Ok(())
    }

    /// Gives the faults that are kept, in the order of their lines.
    pub fn kept(&self) -> &[SourceFault]
        ensures { result.now ≡ self.now.kept }
    {
        self.kept.as_slice()
    }

    /// Counts the faults of a table.
    pub fn count(&self, table: Table) -> u64
        ensures { result ≡ slice_index self.now.counts (place_of table) }
    {
        self.counts[table.place()]
    }
}
