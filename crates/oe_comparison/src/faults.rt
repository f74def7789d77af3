//! The lines that tell what is wrong with files: each names the table, the line, and the column
//! where one is at fault. No memory is taken.
ghost use Rattle.std.specs.Prelude.{◌≡◌, ◌≤◌, ◌+◌, ◌-◌, ◌++◌, [], length, codes, decimal};
ghost use Rattle.std.specs.List.{flat_map};
ghost use Rattle.arrayvec.specs.ArrayVec.{array_vec_len};
ghost use Rattle.oe_io.specs.Ports.{Streams};
ghost use Rattle.oe_comparison.specs.Names.{column_names, column_name};
ghost use Rattle.oe_comparison.specs.Faults.{line_fault_text, miscount_text, wrong_text, fault_line, more_line, faults_text};

use crate::forms::form;
use crate::names::{column_count, column_name};
use oe_file_rows::LineFault;
use oe_file_tables::{Faults, TableFault, Wrong};
use oe_io::output::{flush, make_room};
use oe_io::ports::{Failed, Outlet};
use oe_rows::Table;
use oe_texts::columns::number;
use oe_texts::keys::columns;
use oe_texts::{LONGEST, Pending, SIZE, text};

/// Appends the name of a column.
fn column(out: &mut Pending, table: Table, place: usize)
    requires { array_vec_len out.old + 20 ≤ SIZE }
    ensures items { out.new.items ≡ out.old.items ++ column_name table place }
    ensures len { array_vec_len out.new ≤ array_vec_len out.old + 20 }
{
    text(out, column_name(table, place).as_bytes());
}

/// Appends why a line is no row.
fn line_fault(out: &mut Pending, table: Table, fault: LineFault)
    requires { array_vec_len out.old + 130 ≤ SIZE }
    ensures items { out.new.items ≡ out.old.items ++ line_fault_text table fault }
    ensures len { array_vec_len out.new ≤ array_vec_len out.old + 130 }
{
    match fault {
        LineFault::NoForm(place, own) => {
            column(out, table, place);
            text(out, b" is no ");
            form(out, own);
        }
        LineFault::MissingColumn(place) => {
            column(out, table, place);
            text(out, b" is missing");
        }
        LineFault::ExtraColumn => {
            text(out, b"more than ");
            number(out, column_count(table) as u64);
            text(out, b" columns");
        }
        LineFault::NoKey => text(out, b"past line 4294967295 a row has no key"),
    }
}

/// Appends how many rows a line says there are, and how many lines stand before it.
fn miscount(out: &mut Pending, said: u64, line: u64)
    requires { array_vec_len out.old + 80 ≤ SIZE }
    ensures items { out.new.items ≡ out.old.items ++ miscount_text said line }
    ensures len { array_vec_len out.new ≤ array_vec_len out.old + 80 }
{
    text(out, b"rows ");
    number(out, said);
    text(out, b" after ");
    number(out, line.saturating_sub(1));
    text(out, b" lines");
}

/// Appends what is wrong with a line.
fn wrong(out: &mut Pending, fault: &TableFault)
    requires { array_vec_len out.old + 130 ≤ SIZE }
    ensures items { out.new.items
        ≡ out.old.items ++ wrong_text fault.now.table fault.now.line fault.now.wrong }
    ensures len { array_vec_len out.new ≤ array_vec_len out.old + 130 }
{
    match &fault.wrong {
        Wrong::NoRow(why) => line_fault(out, fault.table, *why),
        Wrong::NoRecord => {
            text(
                out,
                b"no record: a quote where none is allowed, or a tab in a field",
            );
        }
        Wrong::TooLong => text(out, b"more than 4096 bytes"),
        Wrong::CarriageReturn => {
            text(
                out,
                b"ends in a carriage return; end lines in a line feed alone",
            );
        }
        Wrong::Twice(key) => {
            text(out, b"twice the key ");
            columns(out, key, b' ');
        }
        Wrong::Miscount(said) => miscount(out, *said, fault.line),
        Wrong::PastCount => text(out, b"comes after the count of rows"),
    }
}

/// Appends a fault's line.
pub fn fault_line(out: &mut Pending, fault: &TableFault)
    requires { array_vec_len out.old + LONGEST ≤ SIZE }
    ensures { out.new.items ≡ out.old.items ++ fault_line fault.now }
{
    text(out, fault.table.name().as_bytes());
    text(out, b" line ");
    number(out, fault.line);
    text(out, b": ");
    wrong(out, fault);
    out.push(b'\n');
}

/// Writes a fault's line.
fn put_fault<W: Outlet>(fault: &TableFault, out: &mut Pending, to: &mut W) -> Result<(), Failed>
    ensures { Streams (W.sink to.old) out.old.items (W.sink to.new) out.new.items
        (fault_line fault.now) result }
{
    if let Err(e) = make_room(out, to) {
        return Err(e);
    }
    fault_line(out, fault);
    Ok(())
}

/// Writes the lines of faults.
fn put_kept<W: Outlet>(faults: &[TableFault], out: &mut Pending, to: &mut W) -> Result<(), Failed>
    ensures { Streams (W.sink to.old) out.old.items (W.sink to.new) out.new.items
        (flat_map fault_line faults.now) result }
{
    for fault in faults {
        if let Err(e) = put_fault(fault, out, to) {
            return Err(e);
        }
    }
    Ok(())
}

/// Writes how many faults there are behind those that are named.
fn put_more<W: Outlet>(count: u64, out: &mut Pending, to: &mut W) -> Result<(), Failed>
    ensures { Streams (W.sink to.old) out.old.items (W.sink to.new) out.new.items
        (more_line count) result }
{
    if let Err(e) = make_room(out, to) {
        return Err(e);
    }
    if count > 0 {
        number(out, count);
        text(out, b" more\n");
    }
    Ok(())
}

/// Writes the lines of the faults.
fn put_faults<W: Outlet>(faults: &Faults, out: &mut Pending, to: &mut W) -> Result<(), Failed>
    ensures { Streams (W.sink to.old) out.old.items (W.sink to.new) out.new.items
        (faults_text faults.now) result }
{
    let kept = faults.kept();
    let more = faults.count().saturating_sub(kept.len() as u64);
    if let Err(e) = put_kept(kept, out, to) {
        return Err(e);
    }
    put_more(more, out, to)
}

/// Writes a line for each fault that is kept, and how many there are besides.
///
/// `Failed` where a write fails: a beginning of the lines is written then.
pub fn write_faults<W: Outlet>(faults: &Faults, to: &mut W) -> Result<(), Failed>
    ensures { Streams (W.sink to.old) [] (W.sink to.new) [] (faults_text faults.now) result }
{
    let mut out = Pending::new();
    match put_faults(faults, &mut out, to) {
        Ok(()) => flush(&mut out, to),
        Err(e) => Err(e),
    }
}
