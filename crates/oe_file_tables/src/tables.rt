//! A table's file to its rows, in the order of their keys.
ghost use Rattle.std.specs.Prelude.{◌≡◌, IfOk, OnOk};
ghost use Rattle.std.specs.List.Sorted.{IsPermutation, IsSortedByKey};
ghost use Rattle.oe_file_tables.specs.Batches.{AreOrdered};
ghost use Rattle.oe_file_tables.specs.Fault.{with_each_fault};
ghost use Rattle.oe_file_tables.specs.Twice.{twice_at, twice_in};
ghost use Rattle.oe_file_tables.specs.Tables.{TableReadAs, TableRead};

use crate::batches::{Batches, Gathered};
use crate::faults::{Faults, TableFault, Wrong};
use crate::formats::Format;
use crate::lines::{Numbered, Stop, read_file};
use crate::rows::RowLine;
use oe_io::ports::Intake;
use oe_values::{NoMemory, TableKey};
use std::alloc::Global;

/// Puts rows in the order of their keys.
fn sort<K: TableKey, R>(rows: &mut Vec<Numbered<K, R>>) -> Result<(), NoMemory>
    ensures moved { IsPermutation rows.old.items rows.new.items }
    ensures sorted { OnOk result (IsSortedByKey (λ n. n.key) K.cmp rows.new.items) }
{
    match rows.sort_by(|a, b| a.key.cmp(&b.key)) {
        Ok(()) => Ok(()),
        Err(_) => Err(NoMemory),
    }
}

/// Tells of a row whose key the row before it has.
fn tell_same<K: TableKey, R: RowLine<K>>(
    before: &Numbered<K, R>,
    row: &Numbered<K, R>,
    faults: &mut Faults,
)
    ensures { faults.new
        ≡ with_each_fault (twice_at K.cmp R.own_table R.key_of before.now row.now) faults.old }
{
    if before.key.cmp(&row.key).is_eq() {
        faults.push(TableFault {
            table: R::table(),
            line: row.line,
            wrong: Wrong::Twice(R::key(&row.key)),
        });
    }
}

/// Tells of each row whose key the row before it has, where rows stand in the order of their keys.
fn tell_twice<K: TableKey, R: RowLine<K>>(rows: &[Numbered<K, R>], faults: &mut Faults)
    ensures { faults.new
        ≡ with_each_fault (twice_in K.cmp R.own_table R.key_of rows.now) faults.old }
{
    for at in 1..rows.len() {
        tell_same(&rows[at - 1], &rows[at], faults);
    }
}

/// Sorts rows by their keys, and tells of each whose key an earlier one has.
fn order<K: TableKey + Drop, R: RowLine<K> + Drop>(
    alloc: Global,
    rows: Batches<K, R>,
    faults: &mut Faults,
) -> Result<Batches<K, R>, Stop>
    ensures { IfOk result (λ ordered. AreOrdered K.cmp R.own_table R.key_of rows ordered faults.old
        faults.new) }
{
    let mut joined = match rows.join(alloc) {
        Ok(joined) => joined,
        Err(stop) => return Err(stop),
    };
    match sort(&mut joined) {
        Ok(()) => {
            tell_twice(&joined, faults);
            Batches::of(alloc, joined)
        }
        Err(_) => Err(Stop::NoMemory),
    }
}

/// Gives rows in the order of their keys, and tells of each whose key an earlier one has. Rows that
/// ascend are given as they are.
fn in_order<K: TableKey + Drop, R: RowLine<K> + Drop>(
    alloc: Global,
    gathered: Gathered<K, R>,
    faults: &mut Faults,
) -> Result<Batches<K, R>, Stop>
    ensures { IfOk result (λ ordered. AreOrdered K.cmp R.own_table R.key_of gathered ordered
        faults.old faults.new) }
{
    let ascends = gathered.ascends();
    let rows = match gathered.into_batches() {
        Ok(rows) => rows,
        Err(stop) => return Err(stop),
    };
    if ascends {
        return Ok(rows);
    }
    order(alloc, rows, faults)
}

/// Reads the rows of a table's file of this format, and gives them in the order of their keys.
///
/// Each line is a row of the table, or says as the last one how many rows there are; the first of a
/// file of comma-separated values may be a heading. Faults are added to `faults`: those of lines in
/// the order of lines, and then one for each row whose key an earlier line has, in the order of
/// keys. `Stop` where a read fails or there is no memory; the faults that were found before stay.
pub fn read_table_as<K: TableKey + Drop, R: RowLine<K> + Drop, S: Intake>(
    alloc: Global,
    format: Format,
    source: &mut S,
    faults: &mut Faults,
) -> Result<Batches<K, R>, Stop>
    ensures { IfOk result (λ rows. TableReadAs format K.cmp R.key_of R.spells R.own_table
        (S.source source.old) (S.source source.new) faults.old faults.new rows) }
{
    match read_file(alloc, format, source, faults) {
        Ok(gathered) => in_order(alloc, gathered, faults),
        Err(stop) => Err(stop),
    }
}

/// Reads the rows of a table's file, as a dump prints them, and gives them in the order of their
/// keys.
///
/// Errors and faults are those of `read_table_as`.
pub fn read_table<K: TableKey + Drop, R: RowLine<K> + Drop, S: Intake>(
    alloc: Global,
    source: &mut S,
    faults: &mut Faults,
) -> Result<Batches<K, R>, Stop>
    ensures { IfOk result (λ rows. TableRead K.cmp R.key_of R.spells R.own_table
        (S.source source.old) (S.source source.new) faults.old faults.new rows) }
{
    read_table_as(alloc, Format::Dump, source, faults)
}
