//! Audits: a report, what is wrong with lines, or why files were not read to their ends. Status 0
//! is that of checks that hold, 1 that of a check that fails, 2 that of what can't be judged, and 3
//! that of a fault.
ghost use Rattle.std.specs.Option.{option_map};
ghost use Rattle.oe_file_audit.specs.Audits.{TablesAudited, DumpAudited};
ghost use Rattle.std.specs.Prelude.{None, Some};
ghost use Rattle.oe_answers.specs.Endings.{EndsWith, Tells, Told};
ghost use Rattle.oe_answers.specs.Notes.{audit_note};
ghost use Rattle.oe_answers.specs.Opened.{AuditAnswered, BehindEarlier, DumpAnswered};
ghost use Rattle.oe_answers.specs.Opened.{FolderAnswered};
ghost use Rattle.oe_answers.specs.Statuses.{audit_status, unread_status};

use crate::endings::{Aim, Output, fail, unread};
use crate::folders::{Audited, BeforeFolder, before_name};
use crate::formats::{audit_options, field_format};
use crate::notes::tell_audit;
use oe_command_line::AuditOptions;
use oe_fields::Format;
use oe_file_audit::{
    AuditFault, Options, Side, TableSource, Unread, Verdict, audit_dump as run_dump, audit_tables,
    status,
};
use oe_filelines::Stop;
use oe_io::faults::SystemFault;
use oe_io::ports::Outlet;
use std::io;
use std::io::Read;
use std::thread::Threads;

// Says why a source was not read to its end.
fn tell_unread<R: Eprint>(rt: &R, side: Side, unread: &Unread) -> io::Result<u8>
    ensures { EndsWith (unread_status unread.now) result }
{
    let cause = match unread.stop {
        Stop::NoMemory => return fail(rt, Aim::Judges, SystemFault::NoMemory),
        Stop::Read(cause) => cause,
    };
    let before = before_name(side);
    match unread.table {
        Some(table) => eprintln!(rt; "{before}{}: can't be read: {cause}", table.name())?,
        None => eprintln!(rt; "the dump can't be read: {cause}")?,
    }
    Ok(2)
}

// Tells what an audit came to.
fn tell<R: Eprint, W: Output, E: Outlet>(
    rt: &R,
    format: Option<Format>,
    answer: &Result<Verdict, AuditFault>,
    writer: &W,
    errors: &mut E,
) -> io::Result<u8>
    ensures told { Told (E.sink errors.old) (E.sink errors.new) (audit_note format answer.now) }
    ensures status { EndsWith (audit_status answer.now) result }
{
    match answer {
        Ok(verdict) => {
            tell_audit(format, verdict, errors);
            Ok(status(verdict))
        }
        Err(AuditFault::Unread(unread)) => tell_unread(rt, Side::Now, unread),
        Err(AuditFault::UnreadBefore(unread)) => tell_unread(rt, Side::Before, unread),
        Err(AuditFault::NoMemory) => fail(rt, Aim::Judges, SystemFault::NoMemory),
        Err(AuditFault::Write) => fail(rt, Aim::Judges, writer.fault()),
    }
}

// Audits the tables in files that are open.
fn audit_all<R: Eprint + AllocGlobal + Threads + Sync, S: Read + Drop + Send, W: Output, E: Outlet>(
    rt: &R,
    options: &Options,
    format: Format,
    before: Option<Vec<TableSource<S>>>,
    sources: Vec<TableSource<S>>,
    writer: &mut W,
    errors: &mut E,
) -> io::Result<u8>
    ensures { Tells (TablesAudited S.remaining options.now format
        (option_map (λ v. v.items) before) sources.items (W.sink writer.old)
        (W.sink writer.new)) audit_status
        (audit_note (Some format)) (E.sink errors.old) (E.sink errors.new) result }
{
    let answer = audit_tables(rt, rt.alloc(), options, format, before, sources, writer);
    tell(rt, Some(format), &answer, writer, errors)
}

// Audits the tables in files that are open beside those of an earlier folder of that name.
fn audit_beside<
    R: Eprint + AllocGlobal + Threads + Sync,
    S: Read + Drop + Send,
    W: Output,
    E: Outlet,
>(
    rt: &R,
    options: &Options,
    format: Format,
    name: &str,
    earlier: io::Result<Option<Vec<TableSource<S>>>>,
    sources: Vec<TableSource<S>>,
    writer: &mut W,
    errors: &mut E,
) -> io::Result<u8>
    ensures { BehindEarlier (W.sink writer.old) (W.sink writer.new) (E.sink errors.old)
        (E.sink errors.new) (Some earlier)
        (λ earlier. Tells (TablesAudited S.remaining options.now format earlier sources.items
        (W.sink writer.old) (W.sink writer.new)) audit_status (audit_note (Some format))
        (E.sink errors.old) (E.sink errors.new) result) result }
{
    match earlier {
        Ok(Some(before)) => audit_all(rt, options, format, Some(before), sources, writer, errors),
        Ok(None) => Ok(2),
        Err(cause) => unread(rt, name, &cause),
    }
}

// Audits the tables in files that are open, where the earlier files are open too.
fn audit_open<
    R: Eprint + AllocGlobal + Threads + Sync,
    S: Read + Drop + Send,
    W: Output,
    E: Outlet,
>(
    rt: &R,
    options: &Options,
    format: Format,
    before: Option<BeforeFolder<'_, S>>,
    sources: Vec<TableSource<S>>,
    writer: &mut W,
    errors: &mut E,
) -> io::Result<u8>
    ensures { BehindEarlier (W.sink writer.old) (W.sink writer.new) (E.sink errors.old)
        (E.sink errors.new) (option_map (λ f. f.sources) before.entry)
        (λ earlier. Tells (TablesAudited S.remaining options.now format earlier sources.items
        (W.sink writer.old) (W.sink writer.new)) audit_status (audit_note (Some format))
        (E.sink errors.old) (E.sink errors.new) result) result }
{
    match before {
        Some(folder) => {
            let BeforeFolder {
                name,
                sources: earlier,
            } = folder;
            audit_beside(rt, options, format, name, earlier, sources, writer, errors)
        }
        None => audit_all(rt, options, format, None, sources, writer, errors),
    }
}

// Audits the tables in the files of the folder of that name, one for each table.
fn audit_folder<
    R: Eprint + AllocGlobal + Threads + Sync,
    S: Read + Drop + Send,
    W: Output,
    E: Outlet,
>(
    rt: &R,
    options: &Options,
    format: Format,
    before: Option<BeforeFolder<'_, S>>,
    name: &str,
    sources: io::Result<Option<Vec<TableSource<S>>>>,
    writer: &mut W,
    errors: &mut E,
) -> io::Result<u8>
    ensures { FolderAnswered (W.sink writer.old) (W.sink writer.new) (E.sink errors.old)
        (E.sink errors.new) S.remaining options.now format
        (option_map (λ f. f.sources) before.entry)
        sources result }
{
    match sources {
        Ok(Some(sources)) => audit_open(rt, options, format, before, sources, writer, errors),
        Ok(None) => Ok(2),
        Err(cause) => unread(rt, name, &cause),
    }
}

// Says that a dump's sections are never comma-separated values.
fn tell_no_commas<R: Eprint>(rt: &R) -> io::Result<u8>
    ensures { EndsWith 2 result }
{
    eprintln!(rt; "error: --csv is for the files of a directory")?;
    Ok(2)
}

// Audits the tables in a dump that is open.
fn audit_sections<
    R: Eprint + AllocGlobal + Threads + Sync,
    B: Read + Drop + Send,
    S: Read + Drop,
    W: Output,
    E: Outlet,
>(
    rt: &R,
    options: &Options,
    before: Option<Vec<TableSource<B>>>,
    source: S,
    writer: &mut W,
    errors: &mut E,
) -> io::Result<u8>
    ensures { Tells (DumpAudited B.remaining options.now (option_map (λ v. v.items) before)
        (S.remaining source) (W.sink writer.old) (W.sink writer.new))
        audit_status (audit_note None) (E.sink errors.old) (E.sink errors.new) result }
{
    let answer = run_dump(rt, rt.alloc(), options, before, source, writer);
    tell(rt, None, &answer, writer, errors)
}

// Audits the tables in a dump that is open beside the files of an earlier folder of that name.
fn audit_dump_beside<
    R: Eprint + AllocGlobal + Threads + Sync,
    B: Read + Drop + Send,
    S: Read + Drop,
    W: Output,
    E: Outlet,
>(
    rt: &R,
    options: &Options,
    name: &str,
    earlier: io::Result<Option<Vec<TableSource<B>>>>,
    source: S,
    writer: &mut W,
    errors: &mut E,
) -> io::Result<u8>
    ensures { BehindEarlier (W.sink writer.old) (W.sink writer.new) (E.sink errors.old)
        (E.sink errors.new) (Some earlier)
        (λ earlier. Tells (DumpAudited B.remaining options.now earlier (S.remaining source)
        (W.sink writer.old) (W.sink writer.new)) audit_status
        (audit_note None) (E.sink errors.old) (E.sink errors.new) result) result }
{
    match earlier {
        Ok(Some(before)) => audit_sections(rt, options, Some(before), source, writer, errors),
        Ok(None) => Ok(2),
        Err(cause) => unread(rt, name, &cause),
    }
}

// Audits the tables in a dump that is open, where the earlier files are open too.
fn audit_behind<
    R: Eprint + AllocGlobal + Threads + Sync,
    B: Read + Drop + Send,
    S: Read + Drop,
    W: Output,
    E: Outlet,
>(
    rt: &R,
    options: &Options,
    before: Option<BeforeFolder<'_, B>>,
    source: S,
    writer: &mut W,
    errors: &mut E,
) -> io::Result<u8>
    ensures { BehindEarlier (W.sink writer.old) (W.sink writer.new) (E.sink errors.old)
        (E.sink errors.new) (option_map (λ f. f.sources) before.entry)
        (λ earlier. Tells (DumpAudited B.remaining options.now earlier (S.remaining source)
        (W.sink writer.old) (W.sink writer.new)) audit_status
        (audit_note None) (E.sink errors.old) (E.sink errors.new) result) result }
{
    match before {
        Some(folder) => {
            let BeforeFolder {
                name,
                sources: earlier,
            } = folder;
            audit_dump_beside(rt, options, name, earlier, source, writer, errors)
        }
        None => audit_sections::<R, B, S, W, E>(rt, options, None, source, writer, errors),
    }
}

// Audits the tables in the dump of that name, whose sections are never comma-separated values. The
// files of an earlier folder have tabs then.
fn audit_dump<
    R: Eprint + AllocGlobal + Threads + Sync,
    B: Read + Drop + Send,
    S: Read + Drop,
    W: Output,
    E: Outlet,
>(
    rt: &R,
    options: &Options,
    format: Format,
    before: Option<BeforeFolder<'_, B>>,
    name: &str,
    source: io::Result<S>,
    writer: &mut W,
    errors: &mut E,
) -> io::Result<u8>
    ensures { DumpAnswered (W.sink writer.old) (W.sink writer.new) (E.sink errors.old)
        (E.sink errors.new) B.remaining S.remaining format options.now
        (option_map (λ f. f.sources) before.entry) source result }
{
    let open = match source {
        Ok(open) => open,
        Err(cause) => return unread(rt, name, &cause),
    };
    match format {
        Format::Commas => tell_no_commas(rt),
        Format::Tabs => audit_behind(rt, options, before, open, writer, errors),
    }
}

/// Audits the tables in the folder or the dump of that name: those that `open_audited` has opened.
/// Where an earlier folder is given, rows are compared with its.
pub fn answer_audit<
    R: Eprint + AllocGlobal + Threads + Sync,
    F: Read + Drop + Send,
    D: Read + Drop,
    W: Output,
    E: Outlet,
>(
    rt: &R,
    said: &AuditOptions,
    before: Option<BeforeFolder<'_, F>>,
    name: &str,
    files: Audited<F, D>,
    writer: &mut W,
    errors: &mut E,
) -> io::Result<u8>
    ensures { AuditAnswered (W.sink writer.old) (W.sink writer.new) (E.sink errors.old)
        (E.sink errors.new) F.remaining D.remaining said.now
        (option_map (λ f. f.sources) before.entry)
        files result }
{
    let options = &audit_options(said);
    let format = field_format(said.separator);
    match files {
        Audited::Folder(sources) => {
            audit_folder(rt, options, format, before, name, sources, writer, errors)
        }
        Audited::Dump(source) => {
            audit_dump(rt, options, format, before, name, source, writer, errors)
        }
    }
}
