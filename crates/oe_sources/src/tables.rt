//! A table's file: each line is taken in turn, and what it says goes to the ledger or the faults.
ghost use Rattle.std.specs.Prelude.{IfOk};
ghost use Rattle.oe_sources.specs.Tables.{TableTaken, TableRead};

use crate::ledgers::{Ledger, Taken};
use crate::lines::SoFar;
use crate::readings::Reading;
use crate::texts::text_of;
use oe_columns::Wanted;
use oe_facts::Table;
use oe_fields::Format;
use oe_filelines::{LINE, LineTaker, Stop, read_lines};
use std::alloc::{AllocError, Global};
use std::io::Read;

/// The lines of a table's file so far.
#[derive(Drop)]
pub struct TableLines<L> {
    so_far: SoFar<L>,
}

impl<L: Ledger> LineTaker<LINE> for TableLines<L> {
    type Error = AllocError;

    ghost taken = { TableTaken L.holds };

    #[inline]
    fn take_line(&mut self, line: &[u8]) -> Result<(), AllocError> {
        self.so_far.count = self.so_far.count.saturating_add(1);
        let text = text_of(self.so_far.count == 1, line);
        let said = self.so_far.reading.take(text);
        self.so_far.add(said)
    }

    fn take_long(&mut self) -> Result<(), AllocError> {
        self.so_far.count = self.so_far.count.saturating_add(1);
        let said = self.so_far.reading.take_long();
        self.so_far.add(said)
    }
}

/// Reads a table's file to its end, and hands the fact of each row to the ledger, and its print
/// where that is wanted.
///
/// The first line is a heading, which names the columns, or a row in the order of a dump. Blank
/// lines are passed over; `\.` or a count ends the rows. A line that can't be read is a fault, and
/// no verdict on the ledger may be given where there is one. The source is used up. Where a read
/// fails or there is no memory, the ledger is lost too.
pub fn read_table<S: Read + Drop, L: Ledger + Drop>(
    alloc: Global,
    table: Table,
    wanted: Wanted,
    format: Format,
    source: S,
    ledger: L,
) -> Result<Taken<L>, Stop>
    ensures { IfOk result (TableRead L.holds table wanted format ledger (S.remaining source)) }
{
    let mut source = source;
    let mut lines = TableLines {
        so_far: SoFar::new(alloc, Reading::new(table, wanted, format), ledger),
    };
    match read_lines(&mut source, &mut lines) {
        Ok(()) => {
            let TableLines { so_far } = lines;
            let SoFar {
                reading: _,
                count: _,
                taken,
            } = so_far;
            Ok(taken)
        }
        Err(stop) => Err(stop),
    }
}
