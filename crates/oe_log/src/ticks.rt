//! A count of records that were read, by which a read shows how many it took.
//!
//! Each call that lends a record ticks once. Nothing can fail, and nothing takes memory.
ghost use Rattle.std.specs.Prelude.{◌≡◌};
ghost use Rattle.oe_log.specs.Ticks.{ticks_with};

use std::marker::Model;

/// How many records were read. At its greatest value it rises no further.
#[derive(Clone, Copy)]
pub struct Ticks {
    records: u64,
}

impl Model for Ticks {
    ghost use Rattle.std.specs.Prelude.{ℕ};

    ghost Value = { ℕ };

    ghost view = { λ t. t.records };

    ghost inverse = { λ n. record { records = n } };
}

impl Ticks {
    /// Starts the count at none.
    pub fn new() -> Ticks
        ensures { result ≡ 0 }
    {
        Ticks { records: 0 }
    }

    /// Tells how many there were.
    pub fn records(&self) -> u64
        ensures { result ≡ self.now }
    {
        self.records
    }

    /// Counts one more.
    pub(crate) fn tick(&mut self)
        ensures { self.new ≡ ticks_with self.old 1 }
    {
        self.records = self.records.saturating_add(1);
    }
}
