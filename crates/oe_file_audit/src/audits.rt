//! The audit of files: their lines are read, what they spell is checked, and the report is written.
//! Earlier files, where they are given, are read first, and rows are compared with theirs. Where a
//! line can't be read, or what is read lacks what no check can do without, nothing is written.
ghost use Rattle.std.specs.Prelude.{◌≡◌, List, Option};
ghost use Rattle.std.specs.Option.{option_map};
ghost use Rattle.oe_columns.specs.declared.prints.RowFact.{RowFact};
ghost use Rattle.oe_earlier.specs.Keeping.{KeepsCompared, AreSettledCompared};
ghost use Rattle.oe_books.specs.Closing.{AreSettled, IsReady};
ghost use Rattle.oe_books.specs.Facts.{facts_by_table};
ghost use Rattle.oe_books.specs.Keeping.{Keeps};
ghost use Rattle.oe_file_audit.specs.Reading.{Holds, HoldsSome, StopsAt, facts_of, TablesSpell};
ghost use Rattle.oe_file_audit.specs.Earlier.{any_fault, asked_of, compared_with, IsEarlier};
ghost use Rattle.oe_file_audit.specs.Audits.{status_of, Reports, JudgesSound, Judges, KeepsSome, EndsBehind, AreSpelled, TablesAudited, DumpAudited};

use crate::earlier::{Earlier, EarlierRead, any_fault, read_earlier};
use crate::reading::{Entered, Spelled, TableSource, Unread, read_one, read_tables};
use oe_audit_report::{Form, counted, write_report};
use oe_books::{Asked, Books, Closed, Lack, Settled};
use oe_earlier::Compared;
use oe_fields::Format;
use oe_io::ports::Outlet;
use oe_sources::Faults;
use std::alloc::Global;
use std::io::Read;
use std::thread::Threads;

/// How files are audited.
#[derive(Clone, Copy)]
pub struct Options {
    /// How many orders the population had in each district; else as many as a district has
    /// customers.
    pub initial: Option<u32>,
    /// Each list is cut behind this number of rows.
    pub first: Option<u32>,
    /// How the report is written.
    pub form: Form,
}

/// What files come to.
#[derive(Drop)]
pub enum Verdict {
    /// All checks hold.
    Holds,
    /// A check fails.
    Fails,
    /// Lines can't be read, and nothing is reported.
    Unreadable(Vec<Faults>),
    /// Lines of the earlier files can't be read, and nothing is reported.
    UnreadableBefore(Vec<Faults>),
    /// What no check can do without is not there, and nothing is reported.
    Lacking(Lack),
}

/// Why files are not reported of whole.
#[derive(Clone, Copy)]
pub enum AuditFault {
    /// A source was not read to its end. Nothing was written.
    Unread(Unread),
    /// A source of earlier rows was not read to its end. Nothing was written.
    UnreadBefore(Unread),
    /// Memory was refused. Nothing was written.
    NoMemory,
    /// A write failed. A beginning of the report was written.
    Write,
}

/// Gives the exit status of a verdict: 0 where all checks hold, 1 where one fails, and 2 where
/// nothing can be judged.
pub fn status(verdict: &Verdict) -> u8
    ensures { result ≡ status_of verdict.now }
{
    match verdict {
        Verdict::Holds => 0,
        Verdict::Fails => 1,
        Verdict::Unreadable(_) | Verdict::UnreadableBefore(_) | Verdict::Lacking(_) => 2,
    }
}

// Writes the report of books that are settled.
fn report<W: Outlet>(
    alloc: Global,
    options: &Options,
    asked: Asked,
    settled: &Settled,
    compared: &Compared,
    writer: &mut W,
) -> Result<Verdict, AuditFault>
    requires settled { AreSettled settled.now }
    requires compared { AreSettledCompared compared.now }
    ensures { (earlier : Option (List RowFact)) (rows : List RowFact)
        → IsReady options.now.initial (facts_by_table (facts_of rows)) settled.now
        → asked ≡ asked_of earlier → compared_with earlier rows compared.now
        → Reports options.now (W.sink writer.old) (W.sink writer.new) earlier rows result }
{
    let results = match settled.results(alloc, asked, compared) {
        Ok(results) => results,
        Err(_) => return Err(AuditFault::NoMemory),
    };
    match write_report(options.form, options.first, &results, writer) {
        Ok(()) if counted(results.checks.as_slice()).failing == 0 => Ok(Verdict::Holds),
        Ok(()) => Ok(Verdict::Fails),
        Err(_) => Err(AuditFault::Write),
    }
}

// Judges the rows of books.
fn judge_books<W: Outlet>(
    alloc: Global,
    options: &Options,
    asked: Asked,
    books: Books,
    compared: &Compared,
    writer: &mut W,
) -> Result<Verdict, AuditFault>
    requires books { KeepsSome options.now.initial books }
    requires compared { AreSettledCompared compared.now }
    ensures { (earlier : Option (List RowFact)) (rows : List RowFact)
        → Keeps options.now.initial (facts_by_table (facts_of rows)) books
        → asked ≡ asked_of earlier → compared_with earlier rows compared.now
        → JudgesSound options.now (W.sink writer.old) (W.sink writer.new) earlier rows result }
{
    match books.close(alloc) {
        Ok(Closed::Settled(settled)) => {
            let reported = report(alloc, options, asked, &settled, compared, writer);
            drop(settled);
            reported
        }
        Ok(Closed::Lacking(lack)) => Ok(Verdict::Lacking(lack)),
        Err(_) => Err(AuditFault::NoMemory),
    }
}

// Judges what sources without a fault spell.
fn judge_sound<W: Outlet>(
    alloc: Global,
    options: &Options,
    earlier: Earlier,
    entered: Entered,
    writer: &mut W,
) -> Result<Verdict, AuditFault>
    requires { HoldsSome options.now.initial entered }
    ensures { (of_earlier : Option (List RowFact)) (rows : List RowFact)
        → IsEarlier of_earlier earlier → Holds options.now.initial entered rows
        → JudgesSound options.now (W.sink writer.old) (W.sink writer.new) of_earlier rows result }
{
    let Entered { books, traces } = entered;
    let Earlier {
        asked,
        traces: before,
    } = earlier;
    let compared = Compared::of(before, traces);
    let judged = judge_books(alloc, options, asked, books, &compared, writer);
    drop(compared);
    judged
}

// Judges what sources spell.
fn judge<W: Outlet>(
    alloc: Global,
    options: &Options,
    earlier: Earlier,
    spelled: Spelled,
    writer: &mut W,
) -> Result<Verdict, AuditFault>
    requires { HoldsSome options.now.initial spelled.entered }
    ensures { (of_earlier : Option (List RowFact)) (rows : List RowFact)
        → IsEarlier of_earlier earlier → Holds options.now.initial spelled.entered rows
        → Judges options.now (W.sink writer.old) (W.sink writer.new) of_earlier rows
        spelled.faults.items result }
{
    let Spelled { entered, faults } = spelled;
    if any_fault(&faults) {
        drop(entered);
        drop(earlier);
        return Ok(Verdict::Unreadable(faults));
    }
    judge_sound(alloc, options, earlier, entered, writer)
}

// Audits the rows of tables behind what earlier rows were.
fn audit_tables_behind<R: Threads + Sync, S: Read + Drop + Send, W: Outlet>(
    rt: &R,
    alloc: Global,
    options: &Options,
    format: Format,
    earlier: Earlier,
    sources: Vec<TableSource<S>>,
    writer: &mut W,
) -> Result<Verdict, AuditFault>
    ensures { (of_earlier : Option (List RowFact)) → IsEarlier of_earlier earlier
        → EndsBehind options.now (W.sink writer.old) (W.sink writer.new)
        (λ wanted. TablesSpell S.remaining wanted format sources.items) (StopsAt sources.items)
        of_earlier result }
{
    match read_tables(
        rt,
        alloc,
        options.initial,
        earlier.wanted(),
        format,
        sources,
    ) {
        Ok(spelled) => judge(alloc, options, earlier, spelled, writer),
        Err(unread) => {
            drop(earlier);
            Err(AuditFault::Unread(unread))
        }
    }
}

/// Audits the rows of tables, each from a source of its own, and writes the report. Where earlier
/// sources are given, they are read first, and rows are compared with theirs.
pub fn audit_tables<R: Threads + Sync, S: Read + Drop + Send, W: Outlet>(
    rt: &R,
    alloc: Global,
    options: &Options,
    format: Format,
    before: Option<Vec<TableSource<S>>>,
    sources: Vec<TableSource<S>>,
    writer: &mut W,
) -> Result<Verdict, AuditFault>
    ensures { TablesAudited S.remaining options.now format (option_map (λ v. v.items) before)
        sources.items (W.sink writer.old) (W.sink writer.new) result }
{
    match read_earlier(rt, alloc, format, before) {
        Ok(EarlierRead::Sound(earlier)) => {
            audit_tables_behind(rt, alloc, options, format, earlier, sources, writer)
        }
        Ok(EarlierRead::Faulty(faults)) => Ok(Verdict::UnreadableBefore(faults)),
        Err(unread) => Err(AuditFault::UnreadBefore(unread)),
    }
}

// Audits the rows of a dump behind what earlier rows were.
fn audit_dump_behind<S: Read + Drop, W: Outlet>(
    alloc: Global,
    options: &Options,
    earlier: Earlier,
    source: S,
    writer: &mut W,
) -> Result<Verdict, AuditFault>
    ensures { (of_earlier : Option (List RowFact)) → IsEarlier of_earlier earlier
        → EndsBehind options.now (W.sink writer.old) (W.sink writer.new)
        (AreSpelled (S.remaining source)) (λ unread. unread.table ≡ None)
        of_earlier result }
{
    match read_one(alloc, options.initial, earlier.wanted(), source) {
        Ok(spelled) => judge(alloc, options, earlier, spelled, writer),
        Err(unread) => {
            drop(earlier);
            Err(AuditFault::Unread(unread))
        }
    }
}

/// Audits the rows of a dump, and writes the report. Where earlier sources are given, files of
/// tables with tabs, they are read first, and rows are compared with theirs.
pub fn audit_dump<R: Threads + Sync, B: Read + Drop + Send, S: Read + Drop, W: Outlet>(
    rt: &R,
    alloc: Global,
    options: &Options,
    before: Option<Vec<TableSource<B>>>,
    source: S,
    writer: &mut W,
) -> Result<Verdict, AuditFault>
    ensures { DumpAudited B.remaining options.now (option_map (λ v. v.items) before)
        (S.remaining source) (W.sink writer.old) (W.sink writer.new) result }
{
    match read_earlier(rt, alloc, Format::Tabs, before) {
        Ok(EarlierRead::Sound(earlier)) => {
            audit_dump_behind(alloc, options, earlier, source, writer)
        }
        Ok(EarlierRead::Faulty(faults)) => Ok(Verdict::UnreadableBefore(faults)),
        Err(unread) => Err(AuditFault::UnreadBefore(unread)),
    }
}
