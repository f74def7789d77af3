//! What takes the facts of rows, and what was taken so far.
ghost use Rattle.std.specs.Prelude.{◌++◌, ◌∷◌, [], ℕ, List, OnOk};
ghost use Rattle.oe_columns.specs.declared.prints.RowFact.{RowFact};
ghost use Rattle.oe_sources.specs.Reading.{says};
ghost use Rattle.oe_sources.specs.declared.faults.SourceFault.{SourceFault};
ghost use Rattle.oe_sources.specs.Taken.{Got, Spelled, rows_said, faults_said};
ghost use Rattle.oe_sources.specs.declared.ledgers.Taken as taken;

use crate::faults::{Faults, SourceFault};
use crate::readings::Said;
use oe_columns::RowFact;
use oe_facts::Table;
use std::alloc::AllocError;

/// What takes facts, one after another.
pub trait Ledger {
    /// What a ledger is begun with, which no fact changes.
    ghost Begun: { Type 0 };

    /// Begun with that, it is of exactly these rows' facts and prints, in this order.
    ghost holds: { Begun → Self → List RowFact → Type 0 };

    /// Takes a row's fact, and its print where that is wanted.
    fn take(&mut self, row: &RowFact) -> Result<(), AllocError>
        ensures { OnOk result ((begun : Begun) (rows : List RowFact) → holds begun self.old rows
            → holds begun self.new (rows ++ row.now ∷ [])) };
}

/// A ledger with the facts that were read, and what is wrong with the lines that spell none.
#[derive(Drop)]
pub struct Taken<L> {
    pub ledger: L,
    pub faults: Faults,
}

impl<L: Ledger> Taken<L> {
    /// Takes what a line says.
    #[inline]
    pub(crate) fn add(&mut self, table: Table, line: u64, said: Said) -> Result<(), AllocError>
        ensures { OnOk result ((start : taken.Taken L) (rows : List Spelled)
            (faults : List SourceFault) →
            Got L.holds start rows faults self.old →
            Got L.holds start (rows ++ rows_said (says said))
            (faults ++ faults_said table line (says said)) self.new) }
    {
        match said {
            Said::Nothing => Ok(()),
            Said::Row(row) => self.ledger.take(&row),
            Said::Fault(wrong, text) => self.faults.push(SourceFault {
                table,
                line,
                wrong,
                text,
            }),
        }
    }
}
