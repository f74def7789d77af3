//! The lines that tell what is wrong with sources: at most three lines of each table, how many more
//! there are, and the likely cause where all lines are wrong in one way. Before a table of earlier
//! sources stands `before/`. No memory is taken.
ghost use Rattle.std.specs.Prelude.{◌≡◌, ◌≤◌, ◌+◌, ◌++◌, [], length, slice_index};
ghost use Rattle.oe_columns.specs.Constants.{constant_names};
ghost use Rattle.oe_facts.specs.Table.{place_of};
ghost use Rattle.std.specs.List.{flat_map};
ghost use Rattle.arrayvec.specs.ArrayVec.{array_vec_len};
ghost use Rattle.oe_io.specs.Ports.{Streams};
ghost use Rattle.oe_file_audit.specs.Faults.{side_text, table_text, name_or, name_at, kind_at, wanted_text, printable_byte, shown_text, wrong_text, fault_line, more_line, more_text, cause_line, source_text, lack_line};

use crate::causes::{cause_name, cause_of};
use oe_audit_report::lines::{LineOf, Lines, TextOf, put_each, put_line};
use oe_books::Lack;
use oe_columns::{Kind, LayoutFault, constant_columns, fact_columns};
use oe_facts::{TABLES, Table};
use oe_fields::Format;
use oe_io::output::flush;
use oe_io::ports::{Failed, Outlet};
use oe_sources::{Faults, SourceFault, Wrong};
use oe_texts::columns::number;
use oe_texts::{LONGEST, Pending, SIZE, text};

/// Whether a line names today's sources or the earlier ones.
#[derive(Clone, Copy)]
pub enum Side {
    /// Those whose rows are checked.
    Now,
    /// Those of earlier rows.
    Before,
}

/// Appends what stands before a table's name.
fn before_name(out: &mut Pending, side: Side)
    requires { array_vec_len out.old + 10 ≤ SIZE }
    ensures items { out.new.items ≡ out.old.items ++ side_text side }
    ensures len { array_vec_len out.new ≤ array_vec_len out.old + 10 }
{
    match side {
        Side::Now => {}
        Side::Before => text(out, b"before/"),
    }
}

/// Appends a table's name.
fn table_name(out: &mut Pending, of: Side, table: Table)
    requires { array_vec_len out.old + 20 ≤ SIZE }
    ensures items { out.new.items ≡ out.old.items ++ table_text of table }
    ensures len { array_vec_len out.new ≤ array_vec_len out.old + 20 }
{
    before_name(out, of);
    text(out, table.name().as_bytes());
}

/// Gives the name of a column that no transaction changes, by its number among them.
fn constant_name(table: Table, column: usize) -> &'static str
    ensures value { result.now ≡ name_or (constant_names table) column }
    ensures most { length result.now ≤ 20 }
{
    match constant_columns(table).get(column) {
        Some(found) => found.name,
        None => "?",
    }
}

/// Gives the name of a column, by its number: those that a fact needs come first, then those that
/// no transaction changes.
#[tactic(auto, using(crate::proofs::FaultFacts::name_first, crate::proofs::FaultFacts::name_second, crate::proofs::FaultFacts::name_short))]
fn name_at(table: Table, column: usize) -> &'static str
    ensures value { result.now ≡ name_at table column }
    ensures most { length result.now ≤ 20 }
{
    let columns = fact_columns(table);
    if column < columns.len() {
        return columns[column].name;
    }
    constant_name(table, column - columns.len())
}

/// Appends the name of a column.
fn name(out: &mut Pending, table: Table, column: usize)
    requires { array_vec_len out.old + 20 ≤ SIZE }
    ensures items { out.new.items ≡ out.old.items ++ name_at table column }
    ensures len { array_vec_len out.new ≤ array_vec_len out.old + 20 }
{
    text(out, name_at(table, column).as_bytes());
}

/// Gives what the field of a column has to spell.
fn kind_at(table: Table, column: usize) -> Kind
    ensures { result ≡ kind_at table column }
{
    match fact_columns(table).get(column) {
        Some(found) => found.kind,
        None => Kind::Nullable,
    }
}

/// Appends what a field has to spell.
fn wanted(out: &mut Pending, kind: Kind)
    requires { array_vec_len out.old + 80 ≤ SIZE }
    ensures items { out.new.items ≡ out.old.items ++ wanted_text kind }
    ensures len { array_vec_len out.new ≤ array_vec_len out.old + 80 }
{
    match kind {
        Kind::Number(low, high) => {
            text(out, b"a number from ");
            number(out, low);
            text(out, b" to ");
            number(out, high);
        }
        Kind::Quantity => text(out, b"a whole number"),
        Kind::Amount => text(out, b"an amount in cents"),
        Kind::Nullable => text(out, b"a field"),
        Kind::Flag => text(out, b"1 or 0"),
    }
}

/// Gives a byte, or a question mark in its place where it can't be printed.
fn printed(byte: u8) -> u8
    ensures { result ≡ printable_byte byte }
{
    if byte < 32 || byte > 126 { b'?' } else { byte }
}

/// Appends a text in quotes.
fn shown(out: &mut Pending, bytes: &[u8])
    requires most { length bytes.now ≤ 40 }
    requires room { array_vec_len out.old + 44 ≤ SIZE }
    ensures items { out.new.items ≡ out.old.items ++ shown_text bytes.now }
    ensures len { array_vec_len out.new ≤ array_vec_len out.old + 44 }
{
    text(out, b" \"");
    for byte in bytes {
        out.push(printed(*byte));
    }
    out.push(b'"');
}

/// Appends what is wrong with a line.
fn wrong(out: &mut Pending, fault: &SourceFault)
    requires { array_vec_len out.old + 300 ≤ SIZE }
    ensures items { out.new.items ≡ out.old.items ++ wrong_text fault.now }
    ensures len { array_vec_len out.new ≤ array_vec_len out.old + 300 }
{
    match &fault.wrong {
        Wrong::Misfit(misfit) => {
            name(out, fault.table, misfit.column);
            shown(out, fault.text.as_slice());
            text(out, b": ");
            wanted(out, kind_at(fault.table, misfit.column));
        }
        Wrong::Layout(LayoutFault::Missing(column)) => {
            text(out, b"no column ");
            name(out, fault.table, *column);
            text(out, b" in");
            shown(out, fault.text.as_slice());
        }
        Wrong::Layout(LayoutFault::Twice(column)) => {
            text(out, b"twice the column ");
            name(out, fault.table, *column);
            text(out, b" in");
            shown(out, fault.text.as_slice());
        }
        Wrong::Layout(LayoutFault::Fields(count)) => {
            number(out, *count as u64);
            text(out, b" fields, and no heading:");
            shown(out, fault.text.as_slice());
        }
        Wrong::TooLong => text(out, b"more than 65536 bytes"),
        Wrong::PastEnd => {
            text(out, b"after the end of the rows:");
            shown(out, fault.text.as_slice());
        }
        Wrong::Miscount(_) => {
            text(out, b"not the number of rows:");
            shown(out, fault.text.as_slice());
        }
        Wrong::NotEnded => text(out, b"the end of its section is missing"),
    }
}

/// Makes the lines of faults.
#[derive(Drop)]
struct FaultLines {
    side: Side,
}

impl LineOf<SourceFault> for FaultLines {
    ghost line = { λ l fault. fault_line l.side fault };

    fn append(&self, fault: &SourceFault, out: &mut Pending) {
        table_name(out, self.side, fault.table);
        text(out, b" line ");
        number(out, fault.line);
        text(out, b": ");
        wrong(out, fault);
        out.push(b'\n');
    }
}

/// Appends how many lines of a table more there are.
fn more(out: &mut Pending, side: Side, table: Table, count: u64)
    requires { array_vec_len out.old + 100 ≤ SIZE }
    ensures { out.new.items ≡ out.old.items ++ more_line side table count }
{
    table_name(out, side, table);
    text(out, b": ");
    number(out, count);
    text(out, b" more lines\n");
}

/// Makes the lines that tell how many lines of a table more there are.
#[derive(Drop)]
struct MoreLines<'a> {
    side: Side,
    faults: &'a Faults,
}

impl LineOf<Table> for MoreLines<'_> {
    ghost line = { λ l table. more_text l.side table
        (slice_index l.faults.now.counts (place_of table)) };

    fn append(&self, table: &Table, out: &mut Pending) {
        let count = self.faults.count(*table);
        if count > 3 {
            more(out, self.side, *table, count - 3);
        }
    }
}

/// Makes the line of the likely cause, where the source is a table's file with fields of a format.
#[derive(Drop)]
struct CauseLine {
    side: Side,
    format: Option<Format>,
}

impl LineOf<Faults> for CauseLine {
    ghost line = { λ l faults. cause_line l.side l.format faults.kept };

    fn append(&self, faults: &Faults, out: &mut Pending) {
        let Some(format) = self.format else {
            return;
        };
        let kept = faults.kept();
        let [first, ..] = kept else {
            return;
        };
        if let Some(cause) = cause_of(format, kept) {
            table_name(out, self.side, first.table);
            text(out, b": ");
            text(out, cause_name(cause).as_bytes());
            out.push(b'\n');
        }
    }
}

/// Writes the faults of sources.
#[derive(Drop)]
struct SourceTexts {
    side: Side,
    format: Option<Format>,
}

impl TextOf<Faults> for SourceTexts {
    ghost text = { λ t faults. source_text t.side t.format faults };

    fn put<W: Outlet>(&self, faults: &Faults, out: &mut Pending, to: &mut W) -> Result<(), Failed> {
        let side = self.side;
        if let Err(failed) = put_each(
            &Lines {
                of: &FaultLines { side },
            },
            faults.kept(),
            out,
            to,
        ) {
            return Err(failed);
        }
        let more = MoreLines { side, faults };
        if let Err(failed) = put_each(&Lines { of: &more }, &TABLES, out, to) {
            return Err(failed);
        }
        let cause = CauseLine {
            side,
            format: self.format,
        };
        put_line(&cause, faults, out, to)
    }
}

/// Writes what is wrong with the lines of sources, one source after another, and the likely cause
/// where all lines of a table's file are wrong in one way: `format` is that of such files' fields,
/// and none of a dump.
///
/// `Failed` where a write fails: a beginning of the lines is written then.
pub fn write_faults<W: Outlet>(
    side: Side,
    format: Option<Format>,
    faults: &[Faults],
    to: &mut W,
) -> Result<(), Failed>
    ensures { Streams (W.sink to.old) [] (W.sink to.new) []
        (flat_map (source_text side format) faults.now) result }
{
    let mut out = Pending::new();
    match put_each(&SourceTexts { side, format }, faults, &mut out, to) {
        Ok(()) => flush(&mut out, to),
        Err(failed) => Err(failed),
    }
}

/// Appends what sources lack.
fn lacking(out: &mut Pending, lack: Lack)
    requires { array_vec_len out.old + 100 ≤ SIZE }
    ensures { out.new.items ≡ out.old.items ++ lack_line lack }
{
    match lack {
        Lack::Rows(table) => {
            text(out, table.name().as_bytes());
            text(out, b": no row\n");
        }
        Lack::Room(table) => {
            text(out, table.name().as_bytes());
            text(out, b": more than 4294967295 rows\n");
        }
        Lack::Initial => text(
            out,
            b"customers come after orders: --initial N says how many orders districts had\n",
        ),
    }
}

/// Writes what sources lack.
///
/// `Failed` where a write fails: a beginning of the line is written then.
pub fn write_lack<W: Outlet>(lack: Lack, to: &mut W) -> Result<(), Failed>
    ensures { Streams (W.sink to.old) [] (W.sink to.new) [] (lack_line lack) result }
{
    let mut out = Pending::new();
    lacking(&mut out, lack);
    flush(&mut out, to)
}
