//! What is wrong with a file. At most twenty faults are kept, and all are counted.
ghost use Rattle.std.specs.Prelude.{◌≡◌, ◌<◌, ◌≤◌, length, IfOk};
ghost use Rattle.oe_file_tables.specs.Fault.{with_fault, no_faults};

use oe_file_rows::LineFault;
use oe_rows::{Key, Table};
use oe_values::NoMemory;
use std::alloc::Global;
use std::marker::Model;

/// How many faults are kept.
pub const KEPT: usize = 20;

/// What is wrong with a line.
#[derive(Clone, Copy)]
pub enum Wrong {
    /// It is no row of its table.
    NoRow(LineFault),
    /// It is no record of comma-separated values: a quote stands where none may, or a field holds a
    /// tab.
    NoRecord,
    /// It has more than 4,096 bytes.
    TooLong,
    /// It ends in a carriage return: lines end in a line feed alone.
    CarriageReturn,
    /// An earlier line has the same key.
    Twice(Key),
    /// It says that there are this number of rows, and there are not.
    Miscount(u64),
    /// It stands behind the line that says how many rows there are.
    PastCount,
}

/// A line that can't be read. Lines are counted from 1.
#[derive(Clone, Copy)]
pub struct TableFault {
    pub table: Table,
    pub line: u64,
    pub wrong: Wrong,
}

/// The first twenty of some values, and how many there are.
#[derive(Drop)]
pub struct Firsts<T> {
    kept: Vec<T>,
    count: u64,
}

/// The faults so far.
pub type Faults = Firsts<TableFault>;

impl<T> Model for Firsts<T> {
    ghost use Rattle.oe_file_tables.specs.Fault.{Told};
    ghost use Rattle.oe_file_tables.specs.declared.faults.TheConstants.{KEPT};
    ghost use Rattle.std.specs.Prelude.{◌≤◌, length, vec_capacity};

    ghost Value = { Told T };

    ghost view = { λ f. record { kept = f.kept.items; count = f.count } };

    ghost invariant = { λ f. (length f.kept.items ≤ f.count) × (KEPT ≤ vec_capacity f.kept) };
}

impl<T: Drop> Firsts<T> {
    /// Makes a list without a value, with the room for those that are kept.
    pub fn new(alloc: Global) -> Result<Self, NoMemory>
        ensures { IfOk result (λ f. f ≡ no_faults) }
    {
        match Vec::with_capacity(alloc, KEPT) {
            Ok(kept) => Ok(Firsts { kept, count: 0 }),
            Err(_) => Err(NoMemory),
        }
    }

    /// Adds a value, which is kept where there is room.
    pub fn push(&mut self, value: T)
        ensures { self.new ≡ with_fault value self.old }
    {
        self.count = self.count.saturating_add(1);
        if self.kept.len() < KEPT {
            self.kept.push(value).unwrap();
        }
    }

    /// Gives the values that are kept.
    pub fn kept(&self) -> &[T]
        ensures { result.now ≡ self.now.kept }
    {
        self.kept.as_slice()
    }

    /// Counts all values.
    pub fn count(&self) -> u64
        ensures value { result ≡ self.now.count }
        ensures kept { length self.now.kept ≤ result }
    {
        self.count
    }
}
