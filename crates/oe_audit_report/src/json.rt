//! The report of an audit as one JSON object on a line. Each part of it is written as it is made,
//! so that no memory is taken. Only a write can fail: a beginning of the object is then written.
ghost use Rattle.std.specs.Prelude.{◌≡◌, ◌≤◌, ◌-◌, ◌+◌, ◌++◌, length};
ghost use Rattle.arrayvec.specs.ArrayVec.{array_vec_len};
ghost use Rattle.oe_io.specs.Ports.{Streams};
ghost use Rattle.oe_audit_report.specs.Labels.{names_in};
ghost use Rattle.oe_audit_report.specs.Report.{fails};
ghost use Rattle.oe_audit_report.specs.Json.{listing, rows_member, figures_json, finding_json, part_head, part_json, rows_failing, truth_text, check_head, check_json, counts_tail, report_json};

use crate::figures::Label;
use crate::labels::{check_name, label_of};
use crate::lines::{LineOf, Lines, TextOf, put, put_joined, put_line};
use crate::report::{Counts, counted, fails, shown};
use crate::texts::{figure, listed, string};
use oe_books::{CheckFound, Finding, PartFound, TableRows};
use oe_io::ports::{Failed, Outlet};
use oe_texts::columns::number;
use oe_texts::{LONGEST, Pending, SIZE, decimal, text};

/// Writes items with a comma between two of them, and a text before and behind.
fn put_listing<X, T: TextOf<X>, W: Outlet>(
    by: &T,
    before: &[u8],
    items: &[X],
    behind: &[u8],
    out: &mut Pending,
    to: &mut W,
) -> Result<(), Failed>
    requires before { length before.now ≤ 1_280 }
    requires behind { length behind.now ≤ 1_280 }
    ensures { Streams (W.sink to.old) out.old.items (W.sink to.new) out.new.items
        (listing (T.text by.now) before.now items.now behind.now) result }
{
    if let Err(failed) = put(before, out, to) {
        return Err(failed);
    }
    if let Err(failed) = put_joined(by, items, out, to) {
        return Err(failed);
    }
    put(behind, out, to)
}

/// Makes the members that tell how many rows tables have.
#[derive(Drop)]
struct RowsMembers {}

impl LineOf<TableRows> for RowsMembers {
    ghost line = { λ _ rows. rows_member rows };

    fn append(&self, rows: &TableRows, out: &mut Pending) {
        string(out, rows.table.name().as_bytes());
        out.push(b':');
        number(out, rows.rows);
    }
}

/// Appends both figures of a row, and ends its object.
fn figures(out: &mut Pending, is_money: bool, finding: &Finding)
    requires { array_vec_len out.old + 120 ≤ SIZE }
    ensures { out.new.items ≡ out.old.items ++ figures_json is_money finding.now }
{
    text(out, b"],\"first\":");
    figure(out, is_money, finding.apart.first);
    text(out, b",\"second\":");
    figure(out, is_money, finding.apart.second);
    text(out, b"}");
}

/// Makes the objects of rows at which a part of a check fails.
#[derive(Drop)]
struct FindingObjects {
    is_money: bool,
}

impl LineOf<Finding> for FindingObjects {
    ghost line = { λ o finding. finding_json o.is_money finding };

    fn append(&self, finding: &Finding, out: &mut Pending) {
        text(out, b"{\"key\":[");
        listed(out, finding.key.as_slice());
        figures(out, self.is_money, finding);
    }
}

/// Makes the front of a part's object, of the number of rows at which it fails.
#[derive(Drop)]
struct PartHeads<'a> {
    label: &'a Label,
}

impl LineOf<u64> for PartHeads<'_> {
    ghost line = { λ h count. part_head (names_in h.label.now) count };

    fn append(&self, count: &u64, out: &mut Pending) {
        text(out, b"{\"row\":");
        string(out, self.label.row());
        text(out, b",\"first\":");
        string(out, self.label.first());
        text(out, b",\"second\":");
        string(out, self.label.second());
        text(out, b",\"failing\":");
        number(out, *count);
    }
}

/// Writes the objects of parts of a check.
#[derive(Drop)]
struct PartObjects {
    first: Option<u32>,
}

impl TextOf<PartFound> for PartObjects {
    ghost text = { λ o part. part_json o.first part };

    fn put<W: Outlet>(
        &self,
        part: &PartFound,
        out: &mut Pending,
        to: &mut W,
    ) -> Result<(), Failed> {
        let label = label_of(part.part);
        let found = part.found.as_slice();
        let shown = shown(self.first, found);
        let objects = FindingObjects {
            is_money: label.is_money,
        };
        match put_line(&PartHeads { label: &label }, &(found.len() as u64), out, to) {
            Ok(()) => put_listing(
                &Lines { of: &objects },
                b",\"rows\":[",
                shown,
                b"]}",
                out,
                to,
            ),
            Err(failed) => Err(failed),
        }
    }
}

/// Counts the rows at which a check fails.
fn count_rows(parts: &[PartFound]) -> u128
    ensures { result ≡ rows_failing parts.now }
{
    let mut count = 0u128;
    for part in parts {
        count += part.found.len() as u128;
    }
    count
}

/// Gives a truth value of JSON.
fn truth(is_true: bool) -> &'static str
    ensures value { result.now ≡ truth_text is_true }
    ensures most { length result.now ≤ 5 }
{
    if is_true { "true" } else { "false" }
}

/// Makes the front of a check's object.
#[derive(Drop)]
struct CheckHeads {}

impl LineOf<CheckFound> for CheckHeads {
    ghost line = { λ _ check. check_head check };

    fn append(&self, check: &CheckFound, out: &mut Pending) {
        text(out, b"{\"name\":");
        string(out, check_name(check.check).as_bytes());
        text(out, b",\"holds\":");
        text(out, truth(!fails(check)).as_bytes());
        text(out, b",\"failing\":");
        decimal(out, count_rows(check.parts.as_slice()));
    }
}

/// Writes the objects of checks.
#[derive(Drop)]
struct CheckObjects {
    first: Option<u32>,
}

impl TextOf<CheckFound> for CheckObjects {
    ghost text = { λ o check. check_json o.first check };

    fn put<W: Outlet>(
        &self,
        check: &CheckFound,
        out: &mut Pending,
        to: &mut W,
    ) -> Result<(), Failed> {
        let parts = PartObjects { first: self.first };
        let found = check.parts.as_slice();
        match put_line(&CheckHeads {}, check, out, to) {
            Ok(()) => put_listing(&parts, b",\"parts\":[", found, b"]}", out, to),
            Err(failed) => Err(failed),
        }
    }
}

/// Makes the end of the object.
#[derive(Drop)]
struct CountsTail {}

impl LineOf<Counts> for CountsTail {
    ghost line = { λ _ counts. counts_tail counts };

    fn append(&self, counts: &Counts, out: &mut Pending) {
        text(out, b",\"holds\":");
        number(out, counts.all.saturating_sub(counts.failing));
        text(out, b",\"fails\":");
        number(out, counts.failing);
        text(out, b"}\n");
    }
}

/// Writes the report as one JSON object.
pub(crate) fn put_json<W: Outlet>(
    first: Option<u32>,
    rows: &[TableRows; 9],
    checks: &[CheckFound],
    out: &mut Pending,
    to: &mut W,
) -> Result<(), Failed>
    ensures { Streams (W.sink to.old) out.old.items (W.sink to.new) out.new.items
        (report_json first rows.now checks.now) result }
{
    let members = RowsMembers {};
    if let Err(failed) = put_listing(
        &Lines { of: &members },
        b"{\"read\":{",
        rows,
        b"},",
        out,
        to,
    ) {
        return Err(failed);
    }
    if let Err(failed) = put_listing(
        &CheckObjects { first },
        b"\"checks\":[",
        checks,
        b"]",
        out,
        to,
    ) {
        return Err(failed);
    }
    put_line(&CountsTail {}, &counted(checks), out, to)
}
