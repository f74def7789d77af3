//! The report of an audit as lines: how many rows each table has, what each check finds, and how
//! many checks fail.
//!
//! Each line is written as it is made, behind what waits in a buffer of fixed size, so that no
//! memory is taken. Only a write can fail: a beginning of the report is then written.
ghost use Rattle.std.specs.Prelude.{if◌then◌else◌, ◌≡◌, ◌≤◌, ◌+◌, ◌-◌, ◌++◌, [], length, codes, true, false, IfOk};
ghost use Rattle.std.specs.List.{flat_map};
ghost use Rattle.arrayvec.specs.ArrayVec.{array_vec_len};
ghost use Rattle.oe_io.specs.Ports.{Streams};
ghost use Rattle.oe_audit_report.specs.Labels.{names_in, label_of, name_of};
ghost use Rattle.oe_audit_report.specs.Report.{rows_text, read_line, failure_text, named_figure, row_line, findings_shown, more_line, part_text, finds, fails, failing, holds_line, check_text, before_name, names_text, count_line, counts_of, last_line, report_text};

use crate::figures::Label;
use crate::labels::{check_name, label_of};
use crate::lines::{LineOf, Lines, TextOf, put, put_each, put_line};
use crate::texts::{figure, numbers};
use oe_books::{Check, CheckFound, Finding, PartFound, TableRows};
use oe_io::ports::{Failed, Outlet};
use oe_texts::columns::number;
use oe_texts::{LONGEST, Pending, SIZE, text};

/// Makes the texts of tables' rows.
#[derive(Drop)]
struct RowsText {}

impl LineOf<TableRows> for RowsText {
    ghost line = { λ _ rows. rows_text rows };

    fn append(&self, rows: &TableRows, out: &mut Pending) {
        out.push(b' ');
        text(out, rows.table.name().as_bytes());
        out.push(b' ');
        number(out, rows.rows);
    }
}

/// Writes how many rows each table has.
fn put_rows<W: Outlet>(rows: &[TableRows; 9], out: &mut Pending, to: &mut W) -> Result<(), Failed>
    ensures { Streams (W.sink to.old) out.old.items (W.sink to.new) out.new.items
        (read_line rows.now) result }
{
    if let Err(failed) = put(b"read", out, to) {
        return Err(failed);
    }
    if let Err(failed) = put_each(&Lines { of: &RowsText {} }, rows, out, to) {
        return Err(failed);
    }
    put(b"\n", out, to)
}

/// Appends that a check fails, and what the key is of.
fn failure(out: &mut Pending, check: Check, label: &Label)
    requires { array_vec_len out.old + 40 ≤ SIZE }
    ensures items { out.new.items ≡ out.old.items ++ failure_text check (names_in label.now) }
    ensures len { array_vec_len out.new ≤ array_vec_len out.old + 40 }
{
    text(out, check_name(check).as_bytes());
    text(out, b" fails");
    let row = label.row();
    if !row.is_empty() {
        out.push(b' ');
        text(out, row);
    }
}

/// Appends a figure behind its name.
fn named_figure(out: &mut Pending, name: &[u8], is_money: bool, size: i128)
    requires short { length name.now ≤ 30 }
    requires room { array_vec_len out.old + 80 ≤ SIZE }
    ensures items { out.new.items ≡ out.old.items ++ named_figure name.now is_money size }
    ensures len { array_vec_len out.new ≤ array_vec_len out.old + 80 }
{
    text(out, name);
    out.push(b' ');
    figure(out, is_money, size);
}

/// Makes the lines of rows at which a part of a check fails.
#[derive(Drop)]
struct RowLines {
    check: Check,
    label: Label,
}

impl LineOf<Finding> for RowLines {
    ghost line = { λ l finding. row_line l.check (names_in l.label) finding };

    fn append(&self, finding: &Finding, out: &mut Pending) {
        let is_money = self.label.is_money;
        failure(out, self.check, &self.label);
        numbers(out, b' ', finding.key.as_slice());
        text(out, b": ");
        named_figure(out, self.label.first(), is_money, finding.apart.first);
        text(out, b", ");
        named_figure(out, self.label.second(), is_money, finding.apart.second);
        out.push(b'\n');
    }
}

/// Makes the line that tells how many rows more there are, where there are more.
impl LineOf<u64> for RowLines {
    ghost line = { λ l count. more_line l.check (names_in l.label) count };

    fn append(&self, count: &u64, out: &mut Pending) {
        if *count > 0 {
            failure(out, self.check, &self.label);
            text(out, b" at ");
            number(out, *count);
            text(out, b" more\n");
        }
    }
}

/// Gives the first findings, or all.
pub(crate) fn shown(first: Option<u32>, found: &[Finding]) -> &[Finding]
    ensures value { result.now ≡ findings_shown first found.now }
    ensures most { length result.now ≤ length found.now }
{
    match first {
        Some(first) if (first as usize) < found.len() => &found[..first as usize],
        _ => found,
    }
}

/// Writes what parts of a check find.
#[derive(Drop)]
struct PartTexts {
    first: Option<u32>,
    check: Check,
}

impl TextOf<PartFound> for PartTexts {
    ghost text = { λ t part. part_text t.first t.check part };

    fn put<W: Outlet>(
        &self,
        part: &PartFound,
        out: &mut Pending,
        to: &mut W,
    ) -> Result<(), Failed> {
        let by = RowLines {
            check: self.check,
            label: label_of(part.part),
        };
        let found = part.found.as_slice();
        let shown = shown(self.first, found);
        let more = found.len() - shown.len();
        match put_each(&Lines { of: &by }, shown, out, to) {
            Ok(()) => put_line(&by, &(more as u64), out, to),
            Err(failed) => Err(failed),
        }
    }
}

/// Tells whether a check fails.
pub(crate) fn fails(check: &CheckFound) -> bool
    ensures { result ≡ fails check.now }
{
    for part in &check.parts {
        if !part.found.is_empty() {
            return true;
        }
    }
    false
}

/// Makes the lines of checks that hold.
#[derive(Drop)]
struct HoldsLines {}

impl LineOf<CheckFound> for HoldsLines {
    ghost line = { λ _ check. holds_line check };

    fn append(&self, check: &CheckFound, out: &mut Pending) {
        if !fails(check) {
            text(out, check_name(check.check).as_bytes());
            text(out, b" holds\n");
        }
    }
}

/// Writes what checks find.
#[derive(Drop)]
struct CheckTexts {
    first: Option<u32>,
}

impl TextOf<CheckFound> for CheckTexts {
    ghost text = { λ t check. check_text t.first check };

    fn put<W: Outlet>(
        &self,
        check: &CheckFound,
        out: &mut Pending,
        to: &mut W,
    ) -> Result<(), Failed> {
        let parts = PartTexts {
            first: self.first,
            check: check.check,
        };
        match put_each(&parts, check.parts.as_slice(), out, to) {
            Ok(()) => put_line(&HoldsLines {}, check, out, to),
            Err(failed) => Err(failed),
        }
    }
}

/// How many checks fail, of how many.
#[derive(Clone, Copy)]
pub struct Counts {
    pub failing: u64,
    pub all: u64,
}

/// Counts the checks that fail.
fn count_failing(checks: &[CheckFound]) -> u64
    ensures count { result ≡ length (failing checks.now) }
    ensures most { result ≤ length checks.now }
{
    let mut count = 0u64;
    for check in checks {
        if fails(check) {
            count += 1;
        }
    }
    count
}

/// Counts the checks, and those that fail.
pub fn counted(checks: &[CheckFound]) -> Counts
    ensures is { result ≡ counts_of checks.now }
    ensures most { result.failing ≤ result.all }
{
    Counts {
        failing: count_failing(checks),
        all: checks.len() as u64,
    }
}

/// Gives what stands before the name of a check that fails.
fn before_name(is_first: bool) -> &'static str
    ensures value { result.now ≡ before_name is_first }
    ensures most { length result.now ≤ 2 }
{
    if is_first { ": " } else { ", " }
}

/// Makes the text of a check that fails, among their names.
#[derive(Drop)]
struct NameText {
    is_first: bool,
}

impl LineOf<Check> for NameText {
    ghost line = { λ t check. before_name t.is_first ++ name_of check };

    fn append(&self, check: &Check, out: &mut Pending) {
        text(out, before_name(self.is_first).as_bytes());
        text(out, check_name(*check).as_bytes());
    }
}

/// Writes the name of a check where it fails, and tells whether the next name is the first.
fn put_failing<W: Outlet>(
    is_first: bool,
    check: &CheckFound,
    out: &mut Pending,
    to: &mut W,
) -> Result<bool, Failed>
    ensures stream { Streams (W.sink to.old) out.old.items (W.sink to.new) out.new.items
        (if fails check.now then before_name is_first ++ name_of check.now.check else []) result }
    ensures next { IfOk result (λ next. next ≡ (if fails check.now then false else is_first)) }
{
    if !fails(check) {
        return Ok(is_first);
    }
    match put_line(&NameText { is_first }, &check.check, out, to) {
        Ok(()) => Ok(false),
        Err(failed) => Err(failed),
    }
}

/// Writes the names of the checks that fail.
fn put_names<W: Outlet>(checks: &[CheckFound], out: &mut Pending, to: &mut W) -> Result<(), Failed>
    ensures { Streams (W.sink to.old) out.old.items (W.sink to.new) out.new.items
        (names_text true (failing checks.now)) result }
{
    let mut is_first = true;
    for check in checks {
        match put_failing(is_first, check, out, to) {
            Ok(next) => is_first = next,
            Err(failed) => return Err(failed),
        }
    }
    Ok(())
}

/// Makes the text of how many checks fail.
#[derive(Drop)]
struct CountText {}

impl LineOf<Counts> for CountText {
    ghost line = { λ _ counts. count_line counts };

    fn append(&self, counts: &Counts, out: &mut Pending) {
        if counts.failing == 0 {
            text(out, b"holds ");
            number(out, counts.all);
        } else {
            text(out, b"fails ");
            number(out, counts.failing);
        }
        text(out, b" of ");
        number(out, counts.all);
        text(out, b" checks");
    }
}

/// Writes how many checks fail, and which.
fn put_last<W: Outlet>(checks: &[CheckFound], out: &mut Pending, to: &mut W) -> Result<(), Failed>
    ensures { Streams (W.sink to.old) out.old.items (W.sink to.new) out.new.items
        (last_line checks.now) result }
{
    if let Err(failed) = put_line(&CountText {}, &counted(checks), out, to) {
        return Err(failed);
    }
    if let Err(failed) = put_names(checks, out, to) {
        return Err(failed);
    }
    put(b"\n", out, to)
}

/// Writes the report as lines.
pub(crate) fn put_report<W: Outlet>(
    first: Option<u32>,
    rows: &[TableRows; 9],
    checks: &[CheckFound],
    out: &mut Pending,
    to: &mut W,
) -> Result<(), Failed>
    ensures { Streams (W.sink to.old) out.old.items (W.sink to.new) out.new.items
        (report_text first rows.now checks.now) result }
{
    if let Err(failed) = put_rows(rows, out, to) {
        return Err(failed);
    }
    if let Err(failed) = put_each(&CheckTexts { first }, checks, out, to) {
        return Err(failed);
    }
    put_last(checks, out, to)
}
