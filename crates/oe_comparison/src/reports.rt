//! The report on tables: of each that differs the first row that does, and how many more do; and how
//! many tables differ. Lines are kept until all files are read. A want of memory leaves a report that is of no use any more.
ghost use Rattle.std.specs.Prelude.{◌≡◌, ◌≤◌, ◌<◌, ◌+◌, ◌++◌, ◌∷◌, [], length, decimal, OnOk};
ghost use Rattle.arrayvec.specs.ArrayVec.{array_vec_len};
ghost use Rattle.oe_texts.specs.Dump.{reference_columns};
ghost use Rattle.oe_comparison.specs.Names.{column_name};
ghost use Rattle.oe_comparison.specs.Histories.{with_blanks, history_text};
ghost use Rattle.oe_comparison.specs.Texts.{nothing_told, with_piece, with_line, with_more, extra_line, missing_line, column_front, column_line, often_line, last_line};

use crate::names::column_name;
use oe_rows::{CustomerKey, DistrictKey, History, Key, Table};
use oe_texts::columns::{money, nullable_stamp, number, small};
use oe_texts::{LONGEST, Pending, SIZE, keys, text};
use oe_values::NoMemory;
use std::alloc::Global;
use std::marker::Model;

/// The lines of tables that differ, and how many tables do.
#[derive(Drop)]
pub struct Report {
    text: Vec<u8>,
    count: u64,
}

impl Model for Report {
    ghost use Rattle.oe_comparison.specs.Texts.{Told};
    ghost use Rattle.std.specs.Prelude.{◌≤◌, length};

    ghost Value = { Told };

    ghost view = { λ r. record { text = r.text.items; count = r.count } };

    ghost invariant = { λ r. r.count ≤ length r.text.items };
}

// Writes a number and a blank.
fn number_then(out: &mut Pending, number: u32)
    requires { array_vec_len out.old + 11 ≤ SIZE }
    ensures items { out.new.items ≡ out.old.items ++ (decimal number ++ 32 ∷ []) }
    ensures len { array_vec_len out.new ≤ array_vec_len out.old + 11 }
{
    small(out, number);
    out.push(b' ');
}

// Writes H_C_ID, H_C_D_ID, H_C_W_ID, H_D_ID and H_W_ID, with a blank behind each.
fn references(out: &mut Pending, customer: CustomerKey, district: DistrictKey)
    requires { array_vec_len out.old + 55 ≤ SIZE }
    ensures items { out.new.items ≡ out.old.items
        ++ with_blanks (reference_columns customer district) }
    ensures len { array_vec_len out.new ≤ array_vec_len out.old + 55 }
{
    number_then(out, customer.customer.get());
    number_then(out, customer.district.get());
    number_then(out, customer.warehouse.get());
    number_then(out, district.district.get());
    number_then(out, district.warehouse.get());
}

/// Writes the columns of a HISTORY row, without our key columns.
fn history(out: &mut Pending, row: &History)
    requires { array_vec_len out.old + LONGEST ≤ SIZE }
    ensures items { out.new.items ≡ out.old.items ++ history_text row.now }
    ensures len { array_vec_len out.new ≤ array_vec_len out.old + 200 }
{
    text(out, b"history ");
    references(out, row.customer, row.district);
    nullable_stamp(out, Some(row.date));
    out.push(b' ');
    money(out, row.amount.cents());
    out.push(b' ');
    text(out, row.data.as_str().as_bytes());
}

// Writes the name of a column.
fn name(out: &mut Pending, table: Table, place: usize)
    requires { array_vec_len out.old + 20 ≤ SIZE }
    ensures items { out.new.items ≡ out.old.items ++ column_name table place }
    ensures len { array_vec_len out.new ≤ array_vec_len out.old + 20 }
{
    text(out, column_name(table, place).as_bytes());
}

// Writes what stands before the texts of a column that differs.
fn column_front(out: &mut Pending, key: &Key, place: usize)
    requires { array_vec_len out.old + LONGEST ≤ SIZE }
    ensures { out.new.items ≡ out.old.items ++ column_front key.now place }
{
    keys::row(out, key);
    text(out, b": ");
    name(out, key.table(), place);
    text(out, b" ");
}

/// Writes `same 9 of 9 tables`, or `differs in <count> of 9 tables`.
pub(crate) fn last_line(out: &mut Pending, count: u64)
    requires { out.old.items ≡ [] }
    ensures { out.new.items ≡ last_line count }
{
    if count == 0 {
        text(out, b"same 9 of 9 tables\n");
        return;
    }
    text(out, b"differs in ");
    number(out, count);
    text(out, b" of 9 tables\n");
}

impl Report {
    /// Makes a report that tells nothing.
    pub fn new(alloc: Global) -> Self
        ensures { result ≡ nothing_told }
    {
        Report {
            text: Vec::new(alloc),
            count: 0,
        }
    }

    /// Gives the lines.
    pub fn text(&self) -> &[u8]
        ensures { result.now ≡ self.now.text }
    {
        self.text.as_slice()
    }

    /// Counts the tables that differ.
    pub fn count(&self) -> u64
        ensures { result ≡ self.now.count }
    {
        self.count
    }

    // Adds a piece of a line.
    fn put(&mut self, piece: &[u8]) -> Result<(), NoMemory>
        ensures { OnOk result (self.new ≡ with_piece piece.now self.old) }
    {
        match self.text.extend_from_slice(piece) {
            Ok(()) => Ok(()),
            Err(_) => Err(NoMemory),
        }
    }

    // Adds the last piece of a line, and counts the line.
    fn end(&mut self, piece: &[u8]) -> Result<(), NoMemory>
        requires { 0 < length piece.now }
        ensures { OnOk result (self.new ≡ with_line piece.now self.old) }
    {
        match self.text.extend_from_slice(piece) {
            Ok(()) => {
                self.count += 1;
                Ok(())
            }
            Err(_) => Err(NoMemory),
        }
    }

    /// Tells of a row that the file alone has.
    pub(crate) fn extra(&mut self, key: &Key) -> Result<(), NoMemory>
        ensures { OnOk result (self.new ≡ with_line (extra_line key.now) self.old) }
    {
        let mut line = Pending::new();
        keys::row(&mut line, key);
        text(&mut line, b": no such row in this order\n");
        self.end(line.as_slice())
    }

    /// Tells of a row that this order alone has.
    pub(crate) fn missing(&mut self, key: &Key) -> Result<(), NoMemory>
        ensures { OnOk result (self.new ≡ with_line (missing_line key.now) self.old) }
    {
        let mut line = Pending::new();
        keys::row(&mut line, key);
        text(&mut line, b": no such row in the file\n");
        self.end(line.as_slice())
    }

    /// Tells of a column that differs: its place, counted from 0, and its text on both sides.
    pub(crate) fn column(
        &mut self,
        key: &Key,
        place: usize,
        theirs: &[u8],
        ours: &[u8],
    ) -> Result<(), NoMemory>
        ensures { OnOk result (self.new
            ≡ with_line (column_line key.now
            (record { place = place; theirs = theirs.now; ours = ours.now })) self.old) }
    {
        let mut front = Pending::new();
        column_front(&mut front, key, place);
        if let Err(refusal) = self.put(front.as_slice()) {
            return Err(refusal);
        }
        if let Err(refusal) = self.put(theirs) {
            return Err(refusal);
        }
        if let Err(refusal) = self.put(b", in this order ") {
            return Err(refusal);
        }
        if let Err(refusal) = self.put(ours) {
            return Err(refusal);
        }
        self.end(b"\n")
    }

    /// Tells how many rows of a table differ besides the first of them.
    pub(crate) fn more(&mut self, table: Table, others: u64) -> Result<(), NoMemory>
        ensures { OnOk result (self.new ≡ with_more table others self.old) }
    {
        if others <= 1 {
            return Ok(());
        }
        let mut line = Pending::new();
        text(&mut line, table.name().as_bytes());
        text(&mut line, b" differs at ");
        number(&mut line, others - 1);
        text(&mut line, b" more\n");
        self.put(line.as_slice())
    }

    /// Tells of a HISTORY row that stands more often there.
    pub(crate) fn more_often(&mut self, row: &History, side: &[u8]) -> Result<(), NoMemory>
        requires { length side.now ≤ 100 }
        ensures { OnOk result (self.new ≡ with_line (often_line row.now side.now) self.old) }
    {
        let mut line = Pending::new();
        history(&mut line, row);
        text(&mut line, b": more often in ");
        text(&mut line, side);
        line.push(b'\n');
        self.end(line.as_slice())
    }
}
