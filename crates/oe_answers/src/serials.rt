//! Files of replies: whether they are serial, and what differs between tables. Status 0 is that of
//! what is serial and the same, 1 that of what is not, 2 that of what can't be judged, and 3 that
//! of a fault.
ghost use Rattle.std.specs.Prelude.{◌≡◌};
ghost use Rattle.oe_answers.specs.Endings.{EndsWith, Told};
ghost use Rattle.oe_answers.specs.Notes.{serial_note, serial_from_note};
ghost use Rattle.oe_answers.specs.Notes.{comparison_note, comparison_from_note};
ghost use Rattle.oe_answers.specs.Opened.{Decided, DecidedFrom, Compared, ComparedFrom};
ghost use Rattle.oe_answers.specs.Opened.{SerialAnswered};
ghost use Rattle.oe_answers.specs.Said.{row_format};
ghost use Rattle.oe_answers.specs.Statuses.{serial_status, serial_from_status};
ghost use Rattle.oe_answers.specs.Statuses.{comparison_fault_status, comparison_status};
ghost use Rattle.oe_answers.specs.Statuses.{comparison_from_status};

use crate::endings::{Aim, Output, fail, unread};
use crate::formats::row_format;
use crate::nine::{closed_status, no_population, stopped};
use crate::notes::{tell_comparison, tell_verdict};
use oe_command_line::Separator;
use oe_comparison::{ComparisonFault, Verdict as ComparisonVerdict, run_comparison};
use oe_file_loading::{Sources, TableFile};
use oe_file_serial::{Origin, SerialFault, Verdict, run_serial};
use oe_file_tables::Format;
use oe_from::{FromFault, run_comparison_from, run_serial_from};
use oe_io::ports::Outlet;
use oe_machine::Machine;
use std::io::Read;
use std::rt::Files;
use std::time::Clock;
use std::{fs, io};

// Names the fault of a file of replies.
fn fault_of<R: Eprint, W: Output>(rt: &R, fault: SerialFault, writer: &W) -> io::Result<u8>
    ensures { EndsWith 3 result }
{
    match fault {
        SerialFault::Short(shortage) => fail(rt, Aim::Judges, shortage),
        SerialFault::Write => fail(rt, Aim::Judges, writer.fault()),
    }
}

// Tells what a file of replies came to.
fn tell<R: Eprint, W: Output, E: Outlet>(
    rt: &R,
    answer: &Result<Verdict<'_>, SerialFault>,
    writer: &W,
    errors: &mut E,
) -> io::Result<u8>
    ensures told { Told (E.sink errors.old) (E.sink errors.new) (serial_note answer.now) }
    ensures status { EndsWith (serial_status answer.now) result }
{
    match answer {
        Ok(verdict) => {
            tell_verdict(verdict, errors);
            Ok(oe_file_serial::status(verdict))
        }
        Err(fault) => fault_of(rt, *fault, writer),
    }
}

// Tells what it came to from the population in nine files.
fn tell_from<R: Clock + Eprint, F: Read + Drop, W: Output, E: Outlet>(
    rt: &R,
    answer: &Result<Verdict<'_>, FromFault<SerialFault>>,
    from: &Sources<TableFile<'_, '_, R, F>>,
    writer: &W,
    errors: &mut E,
) -> io::Result<u8>
    ensures told { Told (E.sink errors.old) (E.sink errors.new) (serial_from_note answer.now) }
    ensures status { EndsWith (serial_from_status answer.now) result }
{
    match answer {
        Ok(verdict) => {
            tell_verdict(verdict, errors);
            Ok(oe_file_serial::status(verdict))
        }
        Err(FromFault::NoPopulation(error)) => no_population(rt, Aim::Judges, from, error, errors),
        Err(FromFault::Fault(fault)) => fault_of(rt, *fault, writer),
    }
}

// Names the fault of a comparison.
fn comparison_fault_of<R: Clock + Eprint, F: Read + Drop, W: Output>(
    rt: &R,
    fault: ComparisonFault,
    sources: &Sources<TableFile<'_, '_, R, F>>,
    writer: &W,
) -> io::Result<u8>
    ensures { EndsWith (comparison_fault_status fault) result }
{
    match fault {
        ComparisonFault::Short(shortage) => fail(rt, Aim::Judges, shortage),
        ComparisonFault::Stopped(stop) => stopped(rt, Aim::Judges, sources, stop),
        ComparisonFault::Write => fail(rt, Aim::Judges, writer.fault()),
    }
}

// Tells what a file of replies and nine files came to.
fn tell_compared<R: Clock + Eprint, F: Read + Drop, W: Output, E: Outlet>(
    rt: &R,
    answer: &Result<ComparisonVerdict<'_>, ComparisonFault>,
    sources: &Sources<TableFile<'_, '_, R, F>>,
    writer: &W,
    errors: &mut E,
) -> io::Result<u8>
    ensures told { Told (E.sink errors.old) (E.sink errors.new) (comparison_note answer.now) }
    ensures status { EndsWith (comparison_status answer.now) result }
{
    match answer {
        Ok(verdict) => {
            tell_comparison(verdict, errors);
            Ok(oe_comparison::status(verdict))
        }
        Err(fault) => comparison_fault_of(rt, *fault, sources, writer),
    }
}

// Tells what they came to from the population in nine other files.
fn tell_compared_from<'p, 'r, R: Clock + Eprint, F: Read + Drop, W: Output, E: Outlet>(
    rt: &R,
    answer: &Result<ComparisonVerdict<'_>, FromFault<ComparisonFault>>,
    from: &Sources<TableFile<'p, 'r, R, F>>,
    sources: &Sources<TableFile<'p, 'r, R, F>>,
    writer: &W,
    errors: &mut E,
) -> io::Result<u8>
    ensures told { Told (E.sink errors.old) (E.sink errors.new) (comparison_from_note answer.now) }
    ensures status { EndsWith (comparison_from_status answer.now) result }
{
    match answer {
        Ok(verdict) => {
            tell_comparison(verdict, errors);
            Ok(oe_comparison::status(verdict))
        }
        Err(FromFault::NoPopulation(error)) => no_population(rt, Aim::Judges, from, error, errors),
        Err(FromFault::Fault(fault)) => comparison_fault_of(rt, *fault, sources, writer),
    }
}

// Decides from the population of the file's scale.
fn decide<M: Machine, R: Eprint + AllocGlobal, W: Output, E: Outlet>(
    rt: &R,
    replies: &[u8],
    writer: &mut W,
    errors: &mut E,
) -> io::Result<u8>
    ensures { Decided (W.sink writer.old) (W.sink writer.new) (E.sink errors.old)
        (E.sink errors.new) replies.now result }
{
    let answer = run_serial::<M, W>(rt.alloc(), replies, Origin::Population, writer);
    tell(rt, &answer, writer, errors)
}

// Decides from the population in nine files.
fn decide_from<M: Machine, R: Clock + Eprint + AllocGlobal, F: Read + Drop, W: Output, E: Outlet>(
    rt: &R,
    format: Format,
    from: &mut Sources<TableFile<'_, '_, R, F>>,
    replies: &[u8],
    writer: &mut W,
    errors: &mut E,
) -> io::Result<u8>
    ensures { DecidedFrom (W.sink writer.old) (W.sink writer.new) (E.sink errors.old)
        (E.sink errors.new) format from.old replies.now result }
{
    match closed_status(rt, Aim::Judges, from) {
        Ok(None) => {}
        Ok(Some(status)) => return Ok(status),
        Err(error) => return Err(error),
    }
    let answer = run_serial_from::<M, _, _>(rt.alloc(), format, from, replies, writer);
    tell_from(rt, &answer, from, writer, errors)
}

// Decides, and compares the tables at the end with nine files.
fn compare<M: Machine, R: Clock + Eprint + AllocGlobal, F: Read + Drop, W: Output, E: Outlet>(
    rt: &R,
    format: Format,
    replies: &[u8],
    sources: &mut Sources<TableFile<'_, '_, R, F>>,
    writer: &mut W,
    errors: &mut E,
) -> io::Result<u8>
    ensures { Compared (W.sink writer.old) (W.sink writer.new) (E.sink errors.old)
        (E.sink errors.new) format sources.old replies.now result }
{
    match closed_status(rt, Aim::Judges, sources) {
        Ok(None) => {}
        Ok(Some(status)) => return Ok(status),
        Err(error) => return Err(error),
    }
    let origin = Origin::Population;
    let answer = run_comparison::<M, TableFile<'_, '_, R, F>, W>(
        rt.alloc(),
        format,
        replies,
        origin,
        sources,
        writer,
    );
    tell_compared(rt, &answer, sources, writer, errors)
}

// Decides from the population in nine files, and compares with nine others.
fn compare_from<
    'p,
    'r,
    M: Machine,
    R: Clock + Eprint + AllocGlobal,
    F: Read + Drop,
    W: Output,
    E: Outlet,
>(
    rt: &R,
    format: Format,
    from: &mut Sources<TableFile<'p, 'r, R, F>>,
    replies: &[u8],
    sources: &mut Sources<TableFile<'p, 'r, R, F>>,
    writer: &mut W,
    errors: &mut E,
) -> io::Result<u8>
    ensures { ComparedFrom (W.sink writer.old) (W.sink writer.new) (E.sink errors.old)
        (E.sink errors.new) format from.old sources.old replies.now result }
{
    match closed_status(rt, Aim::Judges, from) {
        Ok(None) => {}
        Ok(Some(status)) => return Ok(status),
        Err(error) => return Err(error),
    }
    match closed_status(rt, Aim::Judges, sources) {
        Ok(None) => {}
        Ok(Some(status)) => return Ok(status),
        Err(error) => return Err(error),
    }
    let answer = run_comparison_from::<M, _, _>(rt.alloc(), format, from, replies, sources, writer);
    tell_compared_from(rt, &answer, from, sources, writer, errors)
}

/// A file of replies: its name, and its bytes where it could be read.
#[derive(Drop)]
pub struct Replies<'a> {
    pub name: &'a str,
    pub bytes: io::Result<Vec<u8>>,
}

impl<'a> Replies<'a> {
    /// Reads the file of that name.
    pub fn read<R: Files + AllocGlobal>(rt: &R, name: &'a str) -> Self
        ensures { result.name ≡ name.entry }
    {
        Replies {
            name,
            bytes: fs::read(rt, name),
        }
    }
}

/// Tells whether replies are serial, from the population in nine files where there are such, and
/// what differs between the tables at the end and nine others, where there are such.
pub fn serial<
    'p,
    'r,
    M: Machine,
    R: Clock + Eprint + AllocGlobal,
    F: Read + Drop,
    W: Output,
    E: Outlet,
>(
    rt: &R,
    separator: Separator,
    replies: &Replies<'_>,
    from: &mut Option<Sources<TableFile<'p, 'r, R, F>>>,
    tables: &mut Option<Sources<TableFile<'p, 'r, R, F>>>,
    writer: &mut W,
    errors: &mut E,
) -> io::Result<u8>
    ensures { SerialAnswered (W.sink writer.old) (W.sink writer.new) (E.sink errors.old)
        (E.sink errors.new) (row_format separator) from.old tables.old replies.now.bytes result }
{
    let format = row_format(separator);
    let bytes = match &replies.bytes {
        Ok(bytes) => bytes.as_slice(),
        Err(cause) => return unread(rt, replies.name, cause),
    };
    match from {
        None => match tables {
            None => decide::<M, _, _, _>(rt, bytes, writer, errors),
            Some(sources) => compare::<M, _, _, _, _>(rt, format, bytes, sources, writer, errors),
        },
        Some(first) => match tables {
            None => decide_from::<M, _, _, _, _>(rt, format, first, bytes, writer, errors),
            Some(sources) => compare_from::<M, _, _, _, _>(
                rt, format, first, bytes, sources, writer, errors,
            ),
        },
    }
}
