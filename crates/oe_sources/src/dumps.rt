//! A dump with a section for each table, as `pg_dump --data-only` writes it. A section begins with
//! `COPY table (columns) FROM stdin;` and ends with `\.`; its lines are rows, with tabs between two
//! fields. All other lines are passed over, and so are sections of other tables. A table may have
//! more sections than one. A section that is not ended is a fault.
ghost use Rattle.std.specs.Prelude.{◌≡◌, IfOk};
ghost use Rattle.oe_sources.specs.Dump.{statement_step, section_of, stated_layout, dump_step, dump_long, end_says, DumpTaken, DumpRead};
ghost use Rattle.oe_fields.specs.Parting.{fields_of};
ghost use Rattle.oe_fields.specs.declared.fields.Format.TheVariants.{Commas};
ghost use Rattle.oe_sources.specs.Reading.{says};

use crate::faults::{Shown, Wrong};
use crate::ledgers::{Ledger, Taken};
use crate::lines::SoFar;
use crate::names::statement;
use crate::readings::{Layout, Reading, Said, fault};
use crate::texts::text_of;
use oe_columns::{LayoutFault, Wanted, heading_constants, heading_places};
use oe_facts::Table;
use oe_fields::Format;
use oe_filelines::{LINE, LineTaker, Stop, read_lines};
use std::alloc::{AllocError, Global};
use std::io::Read;

/// The lines of a dump so far.
#[derive(Drop)]
pub struct DumpLines<L> {
    so_far: SoFar<L>,
}

/// Tells where the columns of a section stand, by the names in its statement.
fn stated_layout(wanted: Wanted, table: Table, columns: &[u8]) -> Result<Layout, LayoutFault>
    ensures { result ≡ stated_layout wanted table (fields_of Commas columns.now) }
{
    match heading_places(table, Format::Commas, columns) {
        Ok(places) => match heading_constants(wanted, table, Format::Commas, columns) {
            Ok(constants) => Ok(Layout::Known(places, constants)),
            Err(lost) => Err(lost),
        },
        Err(lost) => Err(lost),
    }
}

/// Opens a section of the table, whose columns the statement names.
fn open(reading: &mut Reading, table: Table, columns: &[u8], text: &[u8]) -> Said
    ensures now { reading.new ≡ (section_of reading.old.wanted table columns.now text.now).0 }
    ensures said { says result ≡ (section_of reading.old.wanted table columns.now text.now).1 }
{
    let wanted = reading.wanted();
    match stated_layout(wanted, table, columns) {
        Ok(layout) => {
            *reading = Reading::new_at(table, wanted, Format::Tabs, layout);
            Said::Nothing
        }
        Err(lost) => {
            *reading = Reading::new_at(table, wanted, Format::Tabs, Layout::Lost);
            fault(Wrong::Layout(lost), text)
        }
    }
}

/// Takes a line that stands in no section.
#[inline(never)]
#[tactic(auto, unfolding(crate::specs::Dump::statement_step))]
fn take_statement(reading: &mut Reading, text: &[u8]) -> Said
    ensures now { reading.new ≡ (statement_step reading.old text.now).0 }
    ensures said { says result ≡ (statement_step reading.old text.now).1 }
{
    match statement(text) {
        Some((table, columns)) => open(reading, table, columns, text),
        None => Said::Nothing,
    }
}

/// Takes the next line's text.
#[inline]
#[tactic(auto, unfolding(crate::specs::Dump::dump_step))]
fn take_text(reading: &mut Reading, text: &[u8]) -> Said
    ensures now { reading.new ≡ (dump_step reading.old text.now).0 }
    ensures said { says result ≡ (dump_step reading.old text.now).1 }
{
    if reading.is_ended() {
        return take_statement(reading, text);
    }
    reading.take(text)
}

/// Takes the next line, which is too long.
fn take_long(reading: &Reading) -> Said
    ensures { says result ≡ dump_long reading.now }
{
    if reading.is_ended() {
        return Said::Nothing;
    }
    reading.take_long()
}

impl<L: Ledger> LineTaker<LINE> for DumpLines<L> {
    type Error = AllocError;

    ghost taken = { DumpTaken L.holds };

    #[inline]
    fn take_line(&mut self, line: &[u8]) -> Result<(), AllocError> {
        self.so_far.count = self.so_far.count.saturating_add(1);
        let text = text_of(self.so_far.count == 1, line);
        let said = take_text(&mut self.so_far.reading, text);
        self.so_far.add(said)
    }

    fn take_long(&mut self) -> Result<(), AllocError> {
        self.so_far.count = self.so_far.count.saturating_add(1);
        let said = take_long(&self.so_far.reading);
        self.so_far.add(said)
    }
}

/// Tells what the end of a dump says: a section that is not ended is a fault.
fn end_of(reading: &Reading) -> Said
    ensures { says result ≡ end_says reading.now }
{
    if reading.is_ended() {
        return Said::Nothing;
    }
    Said::Fault(Wrong::NotEnded, Shown::of(b""))
}

/// Reads a dump to its end, and hands the fact of each row to the ledger, and its print where that
/// is wanted.
///
/// A line of a section that can't be read is a fault, and no verdict on the ledger may be given
/// where there is one. The source is used up. Where a read fails or there is no memory, the ledger
/// is lost too.
pub fn read_dump<S: Read + Drop, L: Ledger + Drop>(
    alloc: Global,
    wanted: Wanted,
    source: S,
    ledger: L,
) -> Result<Taken<L>, Stop>
    ensures { IfOk result (DumpRead L.holds wanted ledger (S.remaining source)) }
{
    let mut source = source;
    let mut lines = DumpLines {
        so_far: SoFar::new(alloc, Reading::new_ended(wanted), ledger),
    };
    if let Err(stop) = read_lines(&mut source, &mut lines) {
        return Err(stop);
    }
    let DumpLines { mut so_far } = lines;
    let said = end_of(&so_far.reading);
    if let Err(_) = so_far.add(said) {
        return Err(Stop::NoMemory);
    }
    let SoFar {
        reading: _,
        count: _,
        taken,
    } = so_far;
    Ok(taken)
}
