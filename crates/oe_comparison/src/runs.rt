//! A file of replies and nine files of tables: the verdict on the replies, and where these are
//! serial, what differs between the files and the tables that the transactions leave.
ghost use Rattle.std.specs.Prelude.{◌≡◌, ◌≤◌, [], length, OnOk};
ghost use Rattle.oe_io.specs.Ports.{Streams};
ghost use Rattle.oe_file_loading.specs.Loading.{nine_of};
ghost use Rattle.oe_file_serial.specs.Verdicts.{IsOrigin, IsShort, verdict_text};
ghost use Rattle.oe_store.specs.Places.{rows};
ghost use Rattle.oe_comparison.specs.Runs.{status_of, IsOther, TellsOther, Tells, Compares, ComparisonRan};
ghost use Rattle.oe_comparison.specs.Texts.{comparison_text};

use crate::reports::{Report, last_line};
use crate::tables::compare_tables;
use arrayvec::ArrayVec;
use oe_file_loading::Sources;
use oe_file_serial::{
    AnswerText, Decision, Origin, Shortage, Verdict as Replies, decide, write_verdict,
};
use oe_file_tables::{Faults, Format, Stop};
use oe_io::output::{flush, write_all};
use oe_io::ports::{Failed, Intake, Outlet};
use oe_machine::Machine;
use oe_store::Tables;
use oe_texts::{LONGEST, Pending};
use std::alloc::Global;
use thiserror::Error;

/// What a file of replies and nine files of tables come to.
#[derive(Drop)]
pub enum Verdict<'a> {
    /// The replies are not serial, or lines of the file of replies have no form. No table was
    /// compared.
    Replies(Replies<'a>),
    /// The replies are serial, and all tables are the same.
    Same,
    /// The replies are serial, and this number of tables differ.
    Differs(u64),
    /// The replies are serial, and lines of the tables' files can't be read. Nothing was written.
    Unreadable(Faults),
}

/// Why nothing was decided, or a verdict is not told whole.
#[derive(Clone, Copy, Debug, Error)]
pub enum ComparisonFault {
    /// No memory or undo extents for the transactions. Nothing was written.
    #[error(transparent)]
    Short(Shortage),
    /// A file was not read to its end, or memory was refused. Nothing was written.
    #[error(transparent)]
    Stopped(Stop),
    /// A write failed. A beginning of the report was written.
    #[error("write")]
    Write,
}

/// Gives the exit status of a verdict: 0 where the replies are serial and the tables the same, 1
/// where a reply or a table differs, and 2 where lines can't be read.
pub fn status(verdict: &Verdict) -> u8
    ensures { result ≡ status_of verdict.now }
{
    match verdict {
        Verdict::Replies(replies) => oe_file_serial::status(replies),
        Verdict::Same => 0,
        Verdict::Differs(_) => 1,
        Verdict::Unreadable(_) => 2,
    }
}

// Writes the verdict on replies that are not serial.
fn tell_replies<'a, W: Outlet>(
    replies: Replies<'a>,
    ours: &[u8],
    writer: &mut W,
) -> Result<Verdict<'a>, ComparisonFault>
    requires short { IsShort replies }
    requires ours { length ours.now ≤ LONGEST }
    requires other { IsOther replies }
    ensures { TellsOther replies.entry ours.now (W.sink writer.old) (W.sink writer.new) result }
{
    match write_verdict(&replies, ours, writer) {
        Ok(()) => Ok(Verdict::Replies(replies)),
        Err(_) => Err(ComparisonFault::Write),
    }
}

// Writes the verdict on serial replies, and the report on the tables.
fn write_report<W: Outlet>(count: u128, report: &Report, writer: &mut W) -> Result<(), Failed>
    ensures { Streams (W.sink writer.old) [] (W.sink writer.new) []
        (comparison_text count report.now) result }
{
    if let Err(e) = write_verdict(&Replies::Serial(count), b"", writer) {
        return Err(e);
    }
    if let Err(e) = write_all(writer, report.text()) {
        return Err(e);
    }
    let mut out = Pending::new();
    last_line(&mut out, report.count());
    flush(&mut out, writer)
}

// Writes the report on tables that were compared, and gives the verdict.
fn tell<'a, W: Outlet>(
    count: u128,
    report: &Report,
    writer: &mut W,
) -> Result<Verdict<'a>, ComparisonFault>
    ensures { Tells count report.now (W.sink writer.old) (W.sink writer.new) result }
{
    if write_report(count, report, writer).is_err() {
        return Err(ComparisonFault::Write);
    }
    if report.count() == 0 {
        return Ok(Verdict::Same);
    }
    Ok(Verdict::Differs(report.count()))
}

// Compares tables with nine files, and tells what differs.
fn compare<'a, S: Intake, W: Outlet>(
    alloc: Global,
    format: Format,
    count: u128,
    tables: &Tables,
    sources: &mut Sources<S>,
    writer: &mut W,
) -> Result<Verdict<'a>, ComparisonFault>
    ensures { Compares format count (rows tables.now) (nine_of S.source sources.old)
        (nine_of S.source sources.new) (W.sink writer.old) (W.sink writer.new) result }
{
    let Ok(mut faults) = Faults::new(alloc) else {
        return Err(ComparisonFault::Stopped(Stop::NoMemory));
    };
    let mut report = Report::new(alloc);
    if let Err(stop) = compare_tables(alloc, format, tables, sources, &mut faults, &mut report) {
        return Err(ComparisonFault::Stopped(stop));
    }
    if faults.count() > 0 {
        return Ok(Verdict::Unreadable(faults));
    }
    tell(count, &report, writer)
}

/// Decides whether a file's lines tell the replies that its transactions and queries have, one at a
/// time in this order from those tables. Where they do, it compares the rows of nine files with the
/// tables that the transactions leave, and writes the verdict and a line for each table that
/// differs; else it writes the verdict alone. Nothing is written where lines can't be read: they
/// are part of the verdict then.
pub fn run_comparison<'a, M: Machine, S: Intake, W: Outlet>(
    alloc: Global,
    format: Format,
    input: &'a [u8],
    origin: Origin,
    sources: &mut Sources<S>,
    writer: &mut W,
) -> Result<Verdict<'a>, ComparisonFault>
    requires { IsOrigin origin }
    ensures { ComparisonRan format origin input.now (nine_of S.source sources.old)
        (nine_of S.source sources.new) (W.sink writer.old) (W.sink writer.new) result }
{
    let mut ours: AnswerText = ArrayVec::new();
    let decision = match decide::<M>(alloc, input, origin, &mut ours) {
        Ok(decision) => decision,
        Err(shortage) => return Err(ComparisonFault::Short(shortage)),
    };
    match decision {
        Decision::Serial(count, tables) => {
            let verdict = compare(alloc, format, count, &tables, sources, writer);
            tables.discard();
            verdict
        }
        Decision::Differs(number, theirs, last) => {
            let replies = Replies::Differs(number, theirs, last);
            tell_replies(replies, ours.as_slice(), writer)
        }
        Decision::Unreadable(bad) => Ok(Verdict::Replies(Replies::Unreadable(bad))),
    }
}
