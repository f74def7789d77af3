//! A table's rows beside its file's, in the order of their keys: a line names the first that
//! differs, and the others are counted.
ghost use Rattle.std.specs.Prelude.{◌≡◌, OnOk, Some};
ghost use Rattle.std.specs.declared.cmp.Ordering.TheVariants.{Equal};
ghost use Rattle.oe_comparison.specs.Columns.{column_texts, first_other};
ghost use Rattle.oe_comparison.specs.Tables.{IsTold};
ghost use Rattle.oe_comparison.specs.Texts.{line_of};
ghost use Rattle.oe_comparison.specs.Walks.{at_rows, TellsFront};

use crate::columns::{first_other, write_row};
use crate::reports::Report;
use crate::rows::ComparedRow;
use crate::sides::{Comparing, RowWalk, Turn, compare_sides, one_more};
use oe_dumps::DumpedRow;
use oe_file_tables::{Batches, RowLine, Walk};
use oe_rows::Table;
use oe_table::shelf_walks::Rows;
use oe_texts::Pending;
use oe_values::{NoMemory, TableKey};
use std::cmp::Ordering;

impl<'a, K, R> RowWalk<'a, K, R> for Walk<'a, K, R> {
    ghost use Rattle.std.specs.Prelude.{map};
    ghost use Rattle.oe_comparison.specs.Differences.{row_by_key};

    ghost left = { λ w. map row_by_key w };

    fn next_row(&mut self) -> Option<(&'a K, &'a R)> {
        match self.next() {
            Some(numbered) => Some((&numbered.key, &numbered.row)),
            None => None,
        }
    }
}

impl<'a, K, R> RowWalk<'a, K, R> for Rows<'a, K, R> {
    ghost left = { λ rows. rows };

    fn next_row(&mut self) -> Option<(&'a K, &'a R)> {
        self.next()
    }
}

// Passes two rows of a key, and tells of the first column at which they differ, where they are the
// first that do.
fn pass_column<K, R: RowLine<K> + DumpedRow<K>>(
    their_key: &K,
    theirs: &R,
    key: &K,
    ours: &R,
    others: u64,
    report: &mut Report,
) -> Result<Turn, NoMemory>
    ensures { TellsFront (line_of R.key_of) (Some (at_rows Equal their_key.now key.now
        (first_other 0 (column_texts (R.columns their_key.now theirs.now))
        (column_texts (R.columns key.now ours.now))))) others report.old report.new result }
{
    let mut their_line = Pending::new();
    write_row(&mut their_line, their_key, theirs);
    let mut our_line = Pending::new();
    write_row(&mut our_line, key, ours);
    let found = first_other(their_line.as_slice(), our_line.as_slice());
    let Some(other) = &found else {
        return Ok(Turn::Passed(Ordering::Equal, others));
    };
    if others > 0 {
        return one_more(others, Ordering::Equal);
    }
    match report.column(&R::key(key), other.place, other.theirs, other.ours) {
        Ok(()) => Ok(Turn::Passed(Ordering::Equal, 1)),
        Err(refusal) => Err(refusal),
    }
}

// Passes two rows of a key, and tells of them where they are the first that differ.
fn pass_both<K, R: RowLine<K> + DumpedRow<K> + ComparedRow>(
    their_key: &K,
    theirs: &R,
    key: &K,
    ours: &R,
    others: u64,
    report: &mut Report,
) -> Result<Turn, NoMemory>
    requires { their_key.now ≡ key.now }
    ensures { TellsFront (line_of R.key_of) (Some (at_rows Equal their_key.now key.now
        (first_other 0 (column_texts (R.columns their_key.now theirs.now))
        (column_texts (R.columns key.now ours.now))))) others report.old report.new result }
{
    if theirs.equals(ours) {
        return Ok(Turn::Passed(Ordering::Equal, others));
    }
    pass_column(their_key, theirs, key, ours, others, report)
}

/// A row is compared with the row of its own key.
pub(crate) struct ByKey;

impl<K: TableKey, R: RowLine<K> + DumpedRow<K> + ComparedRow> Comparing<K, R> for ByKey {
    ghost order_of = { K.cmp };

    ghost columns_of = { λ k x. column_texts (R.columns k x) };

    ghost line_at = { line_of R.key_of };

    ghost own_table = { R.own_table };

    fn table() -> Table {
        R::table()
    }

    fn order(theirs: &K, ours: &K) -> Ordering {
        theirs.cmp(ours)
    }

    fn extra(key: &K, report: &mut Report) -> Result<(), NoMemory> {
        report.extra(&R::key(key))
    }

    fn missing(key: &K, report: &mut Report) -> Result<(), NoMemory> {
        report.missing(&R::key(key))
    }

    fn both(
        their_key: &K,
        theirs: &R,
        key: &K,
        ours: &R,
        others: u64,
        report: &mut Report,
    ) -> Result<Turn, NoMemory> {
        pass_both(their_key, theirs, key, ours, others, report)
    }
}

/// Tells of the first row at which a file and a table differ, and how many more do.
pub(crate) fn compare_rows<'a, K: TableKey, R: RowLine<K> + DumpedRow<K> + ComparedRow>(
    theirs: &'a Batches<K, R>,
    ours: Rows<'a, K, R>,
    report: &mut Report,
) -> Result<(), NoMemory>
    ensures { OnOk result (IsTold R.own_table K.cmp R.key_of R.columns theirs.now ours.entry
        report.old report.new) }
{
    compare_sides::<ByKey, Walk<'a, K, R>, Rows<'a, K, R>, K, R>(theirs.iter(), ours, report)
}
