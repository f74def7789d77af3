//! A file's lines, found in the pieces that its reader gives, and the rows that they spell.
//!
//! A line that can't be read is a fault, and is passed. A line of more than 4,096 bytes is not
//! kept.
ghost use Rattle.std.specs.Prelude.{◌≡◌, ◌≢◌, ◌<◌, ◌≤◌, ◌+◌, ◌++◌, ◌∷◌, [], ◌⊎◌, ℕ, List, length, true, false, OnOk, IfOk, IfSome, ◌^◌};
ghost use Rattle.oe_io.specs.Ports.{Source};
ghost use Rattle.oe_file_tables.specs.declared.faults.Wrong.TheVariants as wrong;
ghost use Rattle.oe_file_tables.specs.declared.faults.TableFault.{TableFault};
ghost use Rattle.oe_file_tables.specs.Fault.{Told, in_64_bits, with_fault};
ghost use Rattle.oe_file_tables.specs.Lines.{said_of, beside_rows, Stands, FileRead};
ghost use Rattle.oe_file_tables.specs.Reading.{TakesOne, TakesRead, CountsOne, TableTaken};
ghost use Rattle.oe_file_tables.specs.declared.formats.Format.{Format};
ghost use Rattle.oe_file_tables.specs.declared.formats.Format.TheVariants as written;

use crate::batches::Gathered;
use crate::faults::{Faults, TableFault, Wrong};
use crate::formats::{Format, ends_in_return, heads, null_place, text_in};
use crate::records::{Record, Unread};
use crate::rows::RowLine;
use oe_file_rows::LineFault;
use oe_filelines::{HeldLine, LineTaker};
use oe_io::ports::Intake;
use oe_rows::Table;
use oe_values::TableKey;
use oe_values::fronts::{after, decimal};
use std::alloc::Global;
use std::fmt;
use std::fmt::{Debug, Display, Formatter, Write};
use thiserror::Error;

/// A line's bytes before its end are at most as many.
pub const LINE: usize = 4_096;

/// So many bytes are read at once.
pub const PIECE: usize = 65_536;

/// Why files were not read to their ends.
#[derive(Clone, Copy, Error)]
pub enum Stop {
    /// A read of the table's file failed.
    #[error("{}: can't be read", .0.name())]
    Read(Table),
    /// There was no memory.
    #[error("no memory")]
    NoMemory,
}

// Its text stands for it, since a table has no `Debug`.
impl Debug for Stop {
    fn fmt<W: Write>(&self, f: &mut Formatter<W>) -> fmt::Result {
        Display::fmt(self, f)
    }
}

/// A row with its key, and the number of its line.
#[derive(Drop)]
pub struct Numbered<K, R> {
    pub line: u64,
    pub key: K,
    pub row: R,
}

// The rows that lines have spelled so far.
#[derive(Drop)]
struct Lot<K: TableKey, R> {
    rows: Gathered<K, R>,
    // How many lines came before.
    count: u64,
    // The line came that says how many rows there are.
    is_counted: bool,
    // A heading came.
    is_headed: bool,
    // What a line of comma-separated values is read by.
    values: Record,
}

// What takes the lines of a file: rows go to the lot, and what is wrong with a line to the faults.
#[derive(Drop)]
struct TableLines<'a, K: TableKey, R> {
    format: Format,
    lot: &'a mut Lot<K, R>,
    faults: &'a mut Faults,
}

/// Reads `rows N`, which may be a file's last line.
#[tactic(auto, unfolding(crate::specs::Lines::said_of))]
fn count_said(line: &[u8]) -> Option<u64>
    ensures value { result ≡ said_of line.now }
    ensures small { IfSome result (λ n. n < 10 ^ 15) }
{
    let rest = after(line, b"rows ")?;
    let (said, rest) = decimal(rest)?;
    if rest.is_empty() { Some(said) } else { None }
}

/// Counts the lines up to a count that are no rows: the count, and a heading.
fn beside_rows(is_headed: bool) -> u64
    ensures value { result ≡ beside_rows is_headed }
    ensures small { result ≤ 2 }
{
    if is_headed { 2 } else { 1 }
}

impl<K: TableKey + Drop, R: RowLine<K> + Drop> Lot<K, R> {
    // No line was taken.
    fn new(alloc: Global) -> Self
        ensures { (format : Format) (start : Told TableFault) →
            Stands format R.spells R.own_table start [] result.is_counted result.is_headed
            result.count result.rows start }
    {
        Lot {
            rows: Gathered::new(alloc),
            count: 0,
            is_counted: false,
            is_headed: false,
            values: Record::new(alloc),
        }
    }

    // Tells what is wrong with the line.
    fn tell(&self, wrong: Wrong, faults: &mut Faults)
        ensures { faults.new
            ≡ with_fault (record { table = R.own_table; line = self.now.count; wrong = wrong })
            faults.old }
    {
        faults.push(TableFault {
            table: R::table(),
            line: self.count,
            wrong,
        });
    }

    // Takes the next line, which says how many rows there are.
    fn take_count(&mut self, said: u64, faults: &mut Faults)
        requires { said < 10 ^ 15 }
        ensures rows { self.new.rows ≡ self.old.rows }
        ensures count { self.new.count ≡ self.old.count }
        ensures counted { self.new.is_counted ≡ true }
        ensures headed { self.new.is_headed ≡ self.old.is_headed }
        ensures faults { CountsOne R.own_table self.old.is_headed said self.old.count faults.old
            faults.new }
    {
        self.is_counted = true;
        if said + beside_rows(self.is_headed) != self.count {
            self.tell(Wrong::Miscount(said), faults);
        }
    }

    // Takes the next line, which spells this text of a dump's line.
    fn take_row(&mut self, text: &[u8], faults: &mut Faults) -> Result<(), Stop>
        ensures count { self.new.count ≡ self.old.count }
        ensures counted { self.new.is_counted ≡ self.old.is_counted }
        ensures headed { self.new.is_headed ≡ self.old.is_headed }
        ensures taken { OnOk result (TakesOne written.Dump R.spells R.own_table self.old.count
            text.now self.old.rows faults.old self.new.rows faults.new) }
    {
        let read = R::read(text, self.count);
        self.take_read(read, faults)
    }

    // Takes what was read of the next line.
    fn take_read(
        &mut self,
        read: Result<(K, R), LineFault>,
        faults: &mut Faults,
    ) -> Result<(), Stop>
        ensures count { self.new.count ≡ self.old.count }
        ensures counted { self.new.is_counted ≡ self.old.is_counted }
        ensures headed { self.new.is_headed ≡ self.old.is_headed }
        ensures taken { OnOk result (TakesRead R.own_table self.old.count read
            self.old.rows faults.old self.new.rows faults.new) }
    {
        match read {
            Ok((key, row)) => {
                let numbered = Numbered {
                    line: self.count,
                    key,
                    row,
                };
                self.rows.push(numbered)
            }
            Err(fault) => {
                self.tell(Wrong::NoRow(fault), faults);
                Ok(())
            }
        }
    }

    // Takes the next line, which has this text of comma-separated values.
    fn take_record(&mut self, text: &[u8], faults: &mut Faults) -> Result<(), Stop>
        ensures count { self.new.count ≡ self.old.count }
        ensures counted { self.new.is_counted ≡ self.old.is_counted }
        ensures headed { self.new.is_headed ≡ self.old.is_headed }
        ensures taken { OnOk result (TakesOne written.Csv R.spells R.own_table self.old.count
            text.now self.old.rows faults.old self.new.rows faults.new) }
    {
        match self.values.read(text, null_place(R::table())) {
            Ok(()) => {
                let read = R::read(self.values.line(), self.count);
                self.take_read(read, faults)
            }
            Err(Unread::NoRecord) => {
                self.tell(Wrong::NoRecord, faults);
                Ok(())
            }
            Err(Unread::NoMemory) => Err(Stop::NoMemory),
        }
    }

    // Takes the next line, which has this text.
    fn take_text(&mut self, format: Format, text: &[u8], faults: &mut Faults) -> Result<(), Stop>
        ensures count { self.new.count ≡ self.old.count }
        ensures counted { self.new.is_counted ≡ self.old.is_counted }
        ensures headed { self.new.is_headed ≡ self.old.is_headed }
        ensures taken { OnOk result (TakesOne format R.spells R.own_table self.old.count
            text.now self.old.rows faults.old self.new.rows faults.new) }
    {
        match format {
            Format::Dump => self.take_row(text, faults),
            Format::Csv => self.take_record(text, faults),
        }
    }

    // Takes the next line.
    fn take_line(&mut self, format: Format, line: &[u8], faults: &mut Faults) -> Result<(), Stop>
        ensures { OnOk result ((start : Told TableFault) (ls : List (List ℕ)) →
            Stands format R.spells R.own_table start ls self.old.is_counted self.old.is_headed
            self.old.count self.old.rows faults.old →
            Stands format R.spells R.own_table start (ls ++ line.now ∷ []) self.new.is_counted
            self.new.is_headed self.new.count self.new.rows faults.new) }
    {
        self.count = self.count.saturating_add(1);
        if self.is_counted {
            self.tell(Wrong::PastCount, faults);
            return Ok(());
        }
        let text = text_in(format, line);
        if let Some(said) = count_said(text) {
            self.take_count(said, faults);
            return Ok(());
        }
        if heads(format, self.count, text) {
            self.is_headed = true;
            return Ok(());
        }
        if ends_in_return(text) {
            self.tell(Wrong::CarriageReturn, faults);
            return Ok(());
        }
        self.take_text(format, text, faults)
    }

    // Takes the next line, which has too many bytes.
    fn take_long(&mut self, faults: &mut Faults)
        ensures { (format : Format) (start : Told TableFault) (ls : List (List ℕ)) (line : List ℕ) →
            4_096 < length line →
            Stands format R.spells R.own_table start ls self.old.is_counted self.old.is_headed
            self.old.count self.old.rows faults.old →
            Stands format R.spells R.own_table start (ls ++ line ∷ []) self.new.is_counted
            self.new.is_headed self.new.count self.new.rows faults.new }
    {
        self.count = self.count.saturating_add(1);
        self.tell(Wrong::TooLong, faults);
    }
}

impl<K: TableKey + Drop, R: RowLine<K> + Drop> LineTaker<LINE> for TableLines<'_, K, R> {
    type Error = Stop;

    ghost taken = { TableTaken R.spells R.own_table };

    fn take_line(&mut self, line: &[u8]) -> Result<(), Stop> {
        self.lot.take_line(self.format, line, self.faults)
    }

    fn take_long(&mut self) -> Result<(), Stop> {
        self.lot.take_long(self.faults);
        Ok(())
    }
}

impl<K: TableKey + Drop, R: RowLine<K> + Drop> TableLines<'_, K, R> {
    // Reads the file to its end.
    fn run<S: Intake>(&mut self, source: &mut S) -> Result<(), Stop>
        requires { TableTaken R.spells R.own_table self.old [] self.old }
        ensures lot { OnOk result (self.new.lot.ghost_name ≡ self.old.lot.ghost_name) }
        ensures faults { OnOk result (self.new.faults.ghost_name ≡ self.old.faults.ghost_name) }
        ensures read { OnOk result (FileRead self.old.format R.spells R.own_table
            (S.source source.old) (S.source source.new) self.old.faults.now
            self.new.lot.now.rows self.new.faults.now) }
    {
        let mut held = HeldLine::new();
        let mut buf = [0u8; PIECE];
        for _ in 0..u64::MAX {
            match source.read(&mut buf) {
                Err(_) => return Err(Stop::Read(R::table())),
                Ok(0) => return held.finish(self),
                Ok(n) => {
                    if let Err(stop) = held.feed(&buf[..n], self) {
                        return Err(stop);
                    }
                }
            }
        }
        Err(Stop::Read(R::table()))
    }
}

// Takes the lines of a whole file.
fn take_file<K: TableKey + Drop, R: RowLine<K> + Drop, S: Intake>(
    lot: &mut Lot<K, R>,
    format: Format,
    source: &mut S,
    faults: &mut Faults,
) -> Result<(), Stop>
    requires { (start : Told TableFault) → Stands format R.spells R.own_table start []
        lot.old.is_counted lot.old.is_headed lot.old.count lot.old.rows start }
    ensures { OnOk result (FileRead format R.spells R.own_table (S.source source.old)
        (S.source source.new) faults.old lot.new.rows faults.new) }
{
    let mut lines = TableLines {
        format,
        lot,
        faults,
    };
    if let Err(stop) = lines.run(source) {
        return Err(stop);
    }
    Ok(())
}

/// Reads the rows of a file.
///
/// Each line is taken in turn: it spells a row, or says as the last one how many rows there are, or
/// it is a fault, which is added to `faults`. Lines end in byte 10; the last may lack its end. What
/// was read is lost where a read fails or there is no memory; the faults stay.
pub(crate) fn read_file<K: TableKey + Drop, R: RowLine<K> + Drop, S: Intake>(
    alloc: Global,
    format: Format,
    source: &mut S,
    faults: &mut Faults,
) -> Result<Gathered<K, R>, Stop>
    ensures { IfOk result (λ rows. FileRead format R.spells R.own_table (S.source source.old)
        (S.source source.new) faults.old rows faults.new) }
{
    let mut lot = Lot::new(alloc);
    if let Err(stop) = take_file(&mut lot, format, source, faults) {
        return Err(stop);
    }
    let Lot {
        rows,
        count: _,
        is_counted: _,
        is_headed: _,
        values: _,
    } = lot;
    Ok(rows)
}
