//! A file's rows beside this order's, both in one order: a walk tells the first that differs, and
//! counts the others. The caller says how rows compare, and what a line says of them.
ghost use Rattle.std.specs.Prelude.{◌≡◌, ◌+◌, ℕ, List, OnOk, IfOk, Some, if◌then◌else◌};
ghost use Rattle.std.specs.Iterator.{YieldsFirstBy};
ghost use Rattle.std.specs.declared.cmp.Ordering.{Ordering};
ghost use Rattle.std.specs.declared.cmp.Ordering.TheVariants.{Less, Equal, Greater};
ghost use Rattle.oe_rows.specs.declared.keys.Table.{Table};
ghost use Rattle.oe_comparison.specs.Columns.{first_other};
ghost use Rattle.oe_comparison.specs.Differences.{Difference, Extra, Missing, differences, with_columns};
ghost use Rattle.oe_comparison.specs.Texts.{with_line, with_differences};
ghost use Rattle.oe_comparison.specs.Walks.{rows_from, pair_of, key_and_texts, at_rows, front, TellsFront};
ghost use Rattle.oe_comparison.specs.declared.sides.Turn.TheVariants as turn;

use crate::reports::Report;
use oe_rows::Table;
use oe_values::NoMemory;
use std::cmp::Ordering;

/// Rows with their keys, as a walk over them has left them.
pub(crate) trait RowWalk<'a, K: 'a, R: 'a> {
    /// What is left.
    ghost left: { Self → List (K × R) };

    /// Gives the next row with its key.
    fn next_row(&mut self) -> Option<(&'a K, &'a R)>
        ensures { YieldsFirstBy (λ p. (p.0.now, p.1.now)) left self.old result self.new };
}

/// What the next rows of both sides were.
#[derive(Clone, Copy)]
pub(crate) enum Turn {
    /// There was none.
    End,
    /// The file's row was passed, this order's, or both, as their keys compare. So many rows differ
    /// by now.
    Passed(Ordering, u64),
}

/// How rows of one table are compared, and what lines say of rows that differ.
pub(crate) trait Comparing<K, R> {
    /// The order of both sides' rows.
    ghost order_of: { K → K → Ordering };

    /// The texts of a row's columns.
    ghost columns_of: { K → R → List (List ℕ) };

    /// The line of a row that differs.
    ghost line_at: { Difference K → List ℕ };

    ghost own_table: { Table };

    /// Gives the table.
    fn table() -> Table
        ensures { result ≡ own_table };

    /// Compares two keys.
    fn order(theirs: &K, ours: &K) -> Ordering
        ensures { result ≡ order_of theirs.now ours.now };

    /// Tells of a row that the file alone has.
    fn extra(key: &K, report: &mut Report) -> Result<(), NoMemory>
        ensures { OnOk result (report.new ≡ with_line (line_at (Extra key.now)) report.old) };

    /// Tells of a row that this order alone has.
    fn missing(key: &K, report: &mut Report) -> Result<(), NoMemory>
        ensures { OnOk result (report.new ≡ with_line (line_at (Missing key.now)) report.old) };

    /// Passes two rows of one key, and tells of them where they are the first that differ.
    fn both(
        their_key: &K,
        theirs: &R,
        key: &K,
        ours: &R,
        others: u64,
        report: &mut Report,
    ) -> Result<Turn, NoMemory>
        requires { order_of their_key.now key.now ≡ Equal }
        ensures { TellsFront line_at (Some (at_rows Equal their_key.now key.now
            (first_other 0 (columns_of their_key.now theirs.now) (columns_of key.now ours.now))))
            others report.old report.new result };
}

/// Counts one row more that differs. No memory holds as many rows as there are numbers.
pub(crate) fn one_more(others: u64, passed: Ordering) -> Result<Turn, NoMemory>
    ensures { IfOk result (λ t. t ≡ turn.Passed passed (others + 1)) }
{
    match others.checked_add(1) {
        Some(more) => Ok(Turn::Passed(passed, more)),
        None => Err(NoMemory),
    }
}

// Passes a row that the file alone has, and tells of it where it is the first that differs.
fn pass_extra<C: Comparing<K, R>, K, R>(
    key: &K,
    others: u64,
    report: &mut Report,
) -> Result<Turn, NoMemory>
    ensures { TellsFront C.line_at
        (Some (record { difference = Some (Extra key.now); passed = Less }))
        others report.old report.new result }
{
    if others > 0 {
        return one_more(others, Ordering::Less);
    }
    match C::extra(key, report) {
        Ok(()) => Ok(Turn::Passed(Ordering::Less, 1)),
        Err(refusal) => Err(refusal),
    }
}

// Passes a row that this order alone has, and tells of it where it is the first that differs.
fn pass_missing<C: Comparing<K, R>, K, R>(
    key: &K,
    others: u64,
    report: &mut Report,
) -> Result<Turn, NoMemory>
    ensures { TellsFront C.line_at
        (Some (record { difference = Some (Missing key.now); passed = Greater }))
        others report.old report.new result }
{
    if others > 0 {
        return one_more(others, Ordering::Greater);
    }
    match C::missing(key, report) {
        Ok(()) => Ok(Turn::Passed(Ordering::Greater, 1)),
        Err(refusal) => Err(refusal),
    }
}

// Passes the row whose key is first, or both of one key.
fn pass<C: Comparing<K, R>, K, R>(
    their: Option<(&K, &R)>,
    our: Option<(&K, &R)>,
    others: u64,
    report: &mut Report,
) -> Result<Turn, NoMemory>
    ensures { TellsFront C.line_at
        (front C.order_of (key_and_texts C.columns_of their.entry)
        (key_and_texts C.columns_of our.entry)) others
        report.old report.new result }
{
    match (their, our) {
        (None, None) => Ok(Turn::End),
        (Some((file, _)), None) => pass_extra::<C, K, R>(file, others, report),
        (None, Some((key, _))) => pass_missing::<C, K, R>(key, others, report),
        (Some((file, theirs)), Some((key, ours))) => match C::order(file, key) {
            Ordering::Less => pass_extra::<C, K, R>(file, others, report),
            Ordering::Greater => pass_missing::<C, K, R>(key, others, report),
            Ordering::Equal => C::both(file, theirs, key, ours, others, report),
        },
    }
}

// Gives the row behind this one, where this one was passed.
fn next_of<'a, A: RowWalk<'a, K, R>, K: 'a, R: 'a>(
    walk: &mut A,
    at: Option<(&'a K, &'a R)>,
    is_passed: bool,
) -> Option<(&'a K, &'a R)>
    ensures { rows_from (pair_of result) (A.left walk.new)
        ≡ (if is_passed then A.left walk.old else rows_from (pair_of at.entry) (A.left walk.old)) }
{
    if is_passed { walk.next_row() } else { at }
}

/// Tells of the first row at which both sides differ, and how many more do.
pub(crate) fn compare_sides<
    'a,
    C: Comparing<K, R>,
    A: RowWalk<'a, K, R> + Drop,
    B: RowWalk<'a, K, R> + Drop,
    K: 'a,
    R: 'a,
>(theirs: A, ours: B, report: &mut Report) -> Result<(), NoMemory>
    ensures { OnOk result (report.new ≡ with_differences C.own_table C.line_at
        (differences C.order_of (with_columns C.columns_of (A.left theirs))
        (with_columns C.columns_of (B.left ours))) report.old) }
{
    let mut theirs = theirs;
    let mut ours = ours;
    let mut their = theirs.next_row();
    let mut our = ours.next_row();
    let mut others = 0;
    loop {
        match pass::<C, K, R>(their, our, others, report) {
            Ok(Turn::Passed(passed, count)) => {
                others = count;
                their = next_of(&mut theirs, their, passed.is_le());
                our = next_of(&mut ours, our, passed.is_ge());
            }
            Ok(Turn::End) => return report.more(C::table(), others),
            Err(refusal) => return Err(refusal),
        }
    }
}
