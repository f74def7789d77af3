//! The forms of a report.
ghost use Rattle.std.specs.Prelude.{◌≡◌, []};
ghost use Rattle.oe_io.specs.Ports.{Streams};
ghost use Rattle.oe_audit_report.specs.Forms.{report_of};

use crate::json::put_json;
use crate::report::put_report;
use oe_books::Results;
use oe_io::output::flush;
use oe_io::ports::{Failed, Outlet};
use oe_texts::Pending;

/// How a report is written.
#[derive(Clone, Copy)]
pub enum Form {
    /// As lines.
    Text,
    /// As one JSON object on a line.
    Json,
}

/// Writes the report in a form.
fn put_form<W: Outlet>(
    form: Form,
    first: Option<u32>,
    results: &Results,
    out: &mut Pending,
    to: &mut W,
) -> Result<(), Failed>
    ensures { Streams (W.sink to.old) out.old.items (W.sink to.new) out.new.items
        (report_of form first results.now) result }
{
    let checks = results.checks.as_slice();
    match form {
        Form::Text => put_report(first, &results.rows, checks, out, to),
        Form::Json => put_json(first, &results.rows, checks, out, to),
    }
}

/// Writes the report of an audit, in which each list is cut behind its first `first` rows, where a
/// number is given.
///
/// `Failed` where a write fails: a beginning of the report is written then.
pub fn write_report<W: Outlet>(
    form: Form,
    first: Option<u32>,
    results: &Results,
    to: &mut W,
) -> Result<(), Failed>
    ensures { Streams (W.sink to.old) [] (W.sink to.new) [] (report_of form first results.now)
        result }
{
    let mut out = Pending::new();
    match put_form(form, first, results, &mut out, to) {
        Ok(()) => flush(&mut out, to),
        Err(failed) => Err(failed),
    }
}
