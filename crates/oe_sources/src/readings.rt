//! How the rows of one table are read, line by line: the first line tells where the columns stand,
//! and each line behind it is a row, until the end of the rows or their count.
//!
//! Blank lines are passed over. Where the first line does not tell where the columns stand, that is
//! a fault, and the lines behind it are passed over.
ghost use Rattle.std.specs.Prelude.{◌≡◌};
ghost use Rattle.oe_fields.specs.Parting.{fields_of};
ghost use Rattle.oe_sources.specs.Reading.{says, fault_says, misfit_says, read_row, row_step, first_layout, begin_step, count_step, data_step, step, long_says, first_reading, begun_at, between};

use crate::faults::{Shown, Wrong};
use crate::texts::{is_end, said_count};
use oe_columns::{
    Constants, LayoutFault, Misfit, Places, Row, RowFact, Wanted, first_constants, is_heading,
    layout, print, read_fact,
};
use oe_facts::Table;
use oe_fields::Format;

/// What is known of where the columns stand.
#[derive(Drop)]
pub enum Layout {
    /// Nothing yet.
    Unknown,
    /// Their places, and those of the columns that no transaction changes.
    Known(Places, Constants),
    /// They can't be told.
    Lost,
}

/// What a line says.
#[derive(Drop)]
pub enum Said {
    /// Nothing that is kept.
    Nothing,
    /// The fact of a row, and its print where that is wanted.
    Row(RowFact),
    /// It can't be read. The text is shown.
    Fault(Wrong, Shown),
}

/// The rows of a table that are read.
#[derive(Drop)]
pub struct Reading {
    table: Table,
    wanted: Wanted,
    format: Format,
    layout: Layout,
    // How many lines were rows.
    rows: u64,
    // The end of the rows came, or their count.
    is_ended: bool,
}

/// Tells that a line can't be read, and shows it.
pub(crate) fn fault(wrong: Wrong, text: &[u8]) -> Said
    ensures { says result ≡ fault_says wrong text.now }
{
    Said::Fault(wrong, Shown::of(text))
}

/// Tells that a row's column has no value, and shows its field.
fn misfit(row: &mut Row<'_>, misfit: Misfit) -> Said
    ensures { says result ≡ misfit_says row.old misfit }
{
    match row.field(misfit.column) {
        Some(field) => fault(Wrong::Misfit(misfit), field),
        None => fault(Wrong::Misfit(misfit), b""),
    }
}

/// Reads a row.
#[inline]
#[tactic(auto, unfolding(crate::specs::Reading::read_row))]
fn read_row(
    table: Table,
    format: Format,
    places: &[usize],
    constants: &Constants,
    text: &[u8],
) -> Said
    ensures { says result ≡ read_row table format places.now constants.now text.now }
{
    let mut row = Row::new(format, text, places);
    match read_fact(table, &mut row) {
        Ok(fact) => Said::Row(RowFact {
            fact,
            print: print(table, format, text, constants),
        }),
        Err(none) => misfit(&mut row, none),
    }
}

impl Reading {
    /// Begins to read the rows of a file.
    pub(crate) fn new(table: Table, wanted: Wanted, format: Format) -> Reading
        ensures { result ≡ first_reading table wanted format }
    {
        Reading {
            table,
            wanted,
            format,
            layout: Layout::Unknown,
            rows: 0,
            is_ended: false,
        }
    }

    /// Begins to read rows whose columns stand at these places.
    pub(crate) fn new_at(table: Table, wanted: Wanted, format: Format, layout: Layout) -> Reading
        ensures { result ≡ begun_at table wanted format layout }
    {
        Reading {
            table,
            wanted,
            format,
            layout,
            rows: 0,
            is_ended: false,
        }
    }

    /// No rows are read.
    pub(crate) fn new_ended(wanted: Wanted) -> Reading
        ensures { result ≡ between wanted }
    {
        Reading {
            table: Table::Warehouse,
            wanted,
            format: Format::Tabs,
            layout: Layout::Lost,
            rows: 0,
            is_ended: true,
        }
    }

    /// Gives the table.
    #[inline]
    pub(crate) fn table(&self) -> Table
        ensures { result ≡ self.now.table }
    {
        self.table
    }

    /// Gives what is read of rows.
    pub(crate) fn wanted(&self) -> Wanted
        ensures { result ≡ self.now.wanted }
    {
        self.wanted
    }

    /// Tells whether the end of the rows came.
    #[inline]
    pub(crate) fn is_ended(&self) -> bool
        ensures { result ≡ self.now.is_ended }
    {
        self.is_ended
    }

    /// Takes a row, where the places of the columns are known.
    #[inline]
    #[tactic(auto, unfolding(crate::specs::Reading::row_step))]
    fn take_row(&mut self, text: &[u8]) -> Said
        ensures now { self.new ≡ (row_step self.old text.now).0 }
        ensures said { says result ≡ (row_step self.old text.now).1 }
    {
        match &self.layout {
            Layout::Known(places, constants) => {
                let places = places.as_slice();
                let said = read_row(self.table, self.format, places, constants, text);
                self.rows = self.rows.saturating_add(1);
                said
            }
            Layout::Unknown | Layout::Lost => Said::Nothing,
        }
    }

    /// Tells where the columns stand, by the first line.
    fn first_layout(&self, text: &[u8]) -> Result<Layout, LayoutFault>
        ensures { result ≡ first_layout self.now (fields_of self.now.format text.now) }
    {
        match layout(self.table, self.format, text) {
            Ok(places) => match first_constants(self.wanted, self.table, self.format, text) {
                Ok(constants) => Ok(Layout::Known(places, constants)),
                Err(lost) => Err(lost),
            },
            Err(lost) => Err(lost),
        }
    }

    /// Takes the first line, which is a heading or a row.
    #[inline(never)]
    #[tactic(auto, unfolding(crate::specs::Reading::begin_step))]
    fn take_first(&mut self, text: &[u8]) -> Said
        ensures now { self.new ≡ (begin_step self.old text.now).0 }
        ensures said { says result ≡ (begin_step self.old text.now).1 }
    {
        match self.first_layout(text) {
            Ok(layout) => {
                self.layout = layout;
                if is_heading(self.format, text) {
                    return Said::Nothing;
                }
                self.take_row(text)
            }
            Err(lost) => {
                self.layout = Layout::Lost;
                fault(Wrong::Layout(lost), text)
            }
        }
    }

    /// Takes the count of the rows.
    #[inline(never)]
    #[tactic(auto, unfolding(crate::specs::Reading::count_step))]
    fn take_count(&mut self, said: u64, text: &[u8]) -> Said
        ensures now { self.new ≡ (count_step self.old said text.now).0 }
        ensures said { says result ≡ (count_step self.old said text.now).1 }
    {
        self.is_ended = true;
        if said == self.rows {
            return Said::Nothing;
        }
        fault(Wrong::Miscount(said), text)
    }

    /// Takes a line that is neither blank nor the end.
    #[inline]
    #[tactic(auto, unfolding(crate::specs::Reading::data_step))]
    fn take_data(&mut self, text: &[u8]) -> Said
        ensures now { self.new ≡ (data_step self.old text.now).0 }
        ensures said { says result ≡ (data_step self.old text.now).1 }
    {
        if let Layout::Lost = &self.layout {
            return Said::Nothing;
        }
        if let Some(said) = said_count(text) {
            return self.take_count(said, text);
        }
        match &self.layout {
            Layout::Unknown => self.take_first(text),
            Layout::Known(_, _) => self.take_row(text),
            Layout::Lost => Said::Nothing,
        }
    }

    /// Takes the next line's text.
    #[inline]
    #[tactic(auto, unfolding(crate::specs::Reading::step))]
    pub(crate) fn take(&mut self, text: &[u8]) -> Said
        ensures now { self.new ≡ (step self.old text.now).0 }
        ensures said { says result ≡ (step self.old text.now).1 }
    {
        if text.is_empty() {
            return Said::Nothing;
        }
        if self.is_ended {
            return fault(Wrong::PastEnd, text);
        }
        if is_end(text) {
            self.is_ended = true;
            return Said::Nothing;
        }
        self.take_data(text)
    }

    /// Takes the next line, which is too long.
    pub(crate) fn take_long(&self) -> Said
        ensures { says result ≡ long_says self.now }
    {
        match &self.layout {
            Layout::Lost => Said::Nothing,
            Layout::Unknown | Layout::Known(_, _) => fault(Wrong::TooLong, b""),
        }
    }
}
