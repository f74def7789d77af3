//! The lines of a source so far, of a table's file or of a dump: how they are read, how many came,
//! and what was taken.
ghost use Rattle.std.specs.Prelude.{◌≡◌, ◌++◌, List, OnOk};
ghost use Rattle.oe_sources.specs.Fault.{no_faults};
ghost use Rattle.oe_sources.specs.Reading.{says};
ghost use Rattle.oe_sources.specs.Taken.{Got, Spelled, rows_said, faults_said};
ghost use Rattle.oe_sources.specs.declared.faults.SourceFault.{SourceFault};
ghost use Rattle.oe_sources.specs.declared.ledgers.Taken as taken;

use crate::faults::Faults;
use crate::ledgers::{Ledger, Taken};
use crate::readings::{Reading, Said};
use std::alloc::{AllocError, Global};

/// The lines so far.
#[derive(Drop)]
pub struct SoFar<L> {
    pub(crate) reading: Reading,
    // How many lines came.
    pub(crate) count: u64,
    pub(crate) taken: Taken<L>,
}

impl<L: Ledger> SoFar<L> {
    /// No line came, and they are to be read so.
    pub(crate) fn new(alloc: Global, reading: Reading, ledger: L) -> SoFar<L>
        ensures { result ≡ record {
          reading = reading;
          count = 0;
          taken = record { ledger = ledger; faults = no_faults };
        } }
    {
        SoFar {
            reading,
            count: 0,
            taken: Taken {
                ledger,
                faults: Faults::new(alloc),
            },
        }
    }

    /// Takes what the line says that came last.
    #[inline]
    pub(crate) fn add(&mut self, said: Said) -> Result<(), AllocError>
        ensures reading { self.new.reading ≡ self.old.reading }
        ensures count { self.new.count ≡ self.old.count }
        ensures taken { OnOk result ((start : taken.Taken L) (rows : List Spelled)
            (faults : List SourceFault) →
            Got L.holds start rows faults self.old.taken →
            Got L.holds start (rows ++ rows_said (says said))
            (faults ++ faults_said self.old.reading.table self.old.count (says said))
            self.new.taken) }
    {
        let table = self.reading.table();
        self.taken.add(table, self.count, said)
    }
}
