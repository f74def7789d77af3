//! HISTORY rows, which have no key in the standard: those of a file and of this order are sorted by
//! their columns, and compared from the front.
ghost use Rattle.std.specs.Prelude.{◌≡◌, ◌++◌, ◌∷◌, [], OnOk, IfOk, map};
ghost use Rattle.oe_rows.specs.declared.keys.Table.TheVariants as table;
ghost use Rattle.oe_comparison.specs.Differences.{differences, keyless};
ghost use Rattle.oe_comparison.specs.Histories.{history_order, AreSorted};
ghost use Rattle.oe_comparison.specs.Tables.{AreHistoriesTold};
ghost use Rattle.oe_comparison.specs.Texts.{history_line_of, with_histories};

use crate::reports::Report;
use crate::sides::{Comparing, RowWalk, Turn, compare_sides};
use oe_file_tables::Batches;
use oe_rows::{History, HistoryKey, Table};
use oe_table::shelf_walks::Rows;
use oe_values::NoMemory;
use std::alloc::Global;
use std::cmp::Ordering;
use std::slice::Iter;

const FILE: &[u8; 8] = b"the file";

const ORDER: &[u8; 10] = b"this order";

// Compares two rows by their columns.
fn order_of(a: &History, b: &History) -> Ordering
    ensures { result ≡ history_order a.now b.now }
{
    a.customer
        .cmp(&b.customer)
        .then(a.district.cmp(&b.district))
        .then(a.date.seconds().cmp(&b.date.seconds()))
        .then(a.amount.cents().cmp(&b.amount.cents()))
        .then(a.data.as_str().cmp(b.data.as_str()))
}

// Appends a row.
fn append(rows: &mut Vec<History>, row: History) -> Result<(), NoMemory>
    ensures { OnOk result (rows.new.items ≡ rows.old.items ++ row ∷ []) }
{
    match rows.push(row) {
        Ok(()) => Ok(()),
        Err(_) => Err(NoMemory),
    }
}

// Copies a file's rows without their keys.
fn without_keys(
    alloc: Global,
    numbered: &Batches<HistoryKey, History>,
) -> Result<Vec<History>, NoMemory>
    ensures { IfOk result (λ rows. rows.items ≡ map (λ n. n.row) numbered.now) }
{
    let mut rows = Vec::new(alloc);
    for each in numbered.iter() {
        if let Err(refusal) = append(&mut rows, each.row.copied()) {
            return Err(refusal);
        }
    }
    Ok(rows)
}

// Copies a table's rows without their keys.
fn copied(alloc: Global, ours: Rows<'_, HistoryKey, History>) -> Result<Vec<History>, NoMemory>
    ensures { IfOk result (λ rows. rows.items ≡ map (λ e. e.1) ours.entry) }
{
    let mut rows = Vec::new(alloc);
    for (key, row) in ours {
        let _key = key;
        if let Err(refusal) = append(&mut rows, row.copied()) {
            return Err(refusal);
        }
    }
    Ok(rows)
}

// Sorts rows by their columns.
fn sort(rows: &mut Vec<History>) -> Result<(), NoMemory>
    ensures { OnOk result (AreSorted rows.old.items rows.new.items) }
{
    match rows.sort_by(|a, b| order_of(a, b)) {
        Ok(()) => Ok(()),
        Err(_) => Err(NoMemory),
    }
}

impl<'a> RowWalk<'a, History, History> for Iter<'a, History> {
    ghost use Rattle.std.specs.Slice.Iter.{iter_rest};
    ghost use Rattle.oe_comparison.specs.Differences.{own_key};

    ghost left = { λ it. map own_key (iter_rest it) };

    fn next_row(&mut self) -> Option<(&'a History, &'a History)> {
        match self.next() {
            Some(row) => Some((row, row)),
            None => None,
        }
    }
}

/// Each row is its own key, by all its columns: two of one key differ in none.
struct ByColumns;

impl Comparing<History, History> for ByColumns {
    ghost order_of = { history_order };

    ghost columns_of = { λ h x. [] };

    ghost line_at = { history_line_of };

    ghost own_table = { table.History };

    fn table() -> Table {
        Table::History
    }

    fn order(theirs: &History, ours: &History) -> Ordering {
        order_of(theirs, ours)
    }

    fn extra(key: &History, report: &mut Report) -> Result<(), NoMemory> {
        report.more_often(key, FILE)
    }

    fn missing(key: &History, report: &mut Report) -> Result<(), NoMemory> {
        report.more_often(key, ORDER)
    }

    fn both(
        _their_key: &History,
        _theirs: &History,
        _key: &History,
        _ours: &History,
        others: u64,
        _report: &mut Report,
    ) -> Result<Turn, NoMemory> {
        Ok(Turn::Passed(Ordering::Equal, others))
    }
}

// Tells of the first of sorted rows that stands more often on one side, and how many more do.
fn compare_sorted(theirs: &[History], ours: &[History], report: &mut Report) -> Result<(), NoMemory>
    ensures { OnOk result (report.new
        ≡ with_histories (differences history_order (keyless theirs.now) (keyless ours.now))
        report.old) }
{
    compare_sides::<ByColumns, Iter<'_, History>, Iter<'_, History>, History, History>(
        theirs.iter(),
        ours.iter(),
        report,
    )
}

/// Tells of the first HISTORY row, in the order of its columns, that stands more often in the file
/// or in this order, and how many more do. Keys are not compared.
pub(crate) fn compare_histories(
    alloc: Global,
    theirs: &Batches<HistoryKey, History>,
    ours: Rows<'_, HistoryKey, History>,
    report: &mut Report,
) -> Result<(), NoMemory>
    ensures { OnOk result (AreHistoriesTold theirs.now ours.entry report.old report.new) }
{
    let mut file = match without_keys(alloc, theirs) {
        Ok(rows) => rows,
        Err(refusal) => return Err(refusal),
    };
    let mut order = match copied(alloc, ours) {
        Ok(rows) => rows,
        Err(refusal) => return Err(refusal),
    };
    if let Err(refusal) = sort(&mut file) {
        return Err(refusal);
    }
    if let Err(refusal) = sort(&mut order) {
        return Err(refusal);
    }
    compare_sorted(file.as_slice(), order.as_slice(), report)
}
