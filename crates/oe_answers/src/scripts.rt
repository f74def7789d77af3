//! Scripts: they are answered to their ends, with status 0 whatever the answers, or 1 after a
//! fault; also where the script's file is not open.
ghost use Rattle.std.specs.Prelude.{◌≡◌, false};
ghost use Rattle.oe_explain.specs.Explaining.{Said};
ghost use Rattle.oe_answers.specs.Endings.{EndsWith, Told};
ghost use Rattle.oe_answers.specs.Notes.{script_from_note};
ghost use Rattle.oe_answers.specs.Opened.{ScriptAnswered, ScriptExplained, OpenedAnswered};
ghost use Rattle.oe_answers.specs.Statuses.{script_status, script_from_status};

use crate::endings::{Aim, Output, fail};
use crate::nine::{closed_status, no_population};
use oe_explain::{Explainer, explain_script};
use oe_file_loading::{Sources, TableFile};
use oe_file_tables::Format;
use oe_from::{FromFault, OpenedFault, run_script_from};
use oe_io::ports::{Intake, Outlet};
use oe_io::standard::Standard;
use oe_machine::Machine;
use oe_rows::Layout;
use oe_script::script::run_script;
use oe_script::session::ScriptFault;
use oe_values::ExtentCount;
use std::io::Read;
use std::rt::Files;
use std::time::Clock;
use std::{fs, io};

/// Opens the file of a script.
pub fn open_script<R: Files>(rt: &R, name: &str) -> io::Result<Standard<R::File>> {
    Ok(Standard(fs::open(rt, name)?))
}

// Says why the file of a script can't be opened.
fn unopened<R: Eprint>(rt: &R, name: &str, cause: &io::Error) -> io::Result<u8>
    ensures { EndsWith 1 result }
{
    eprintln!(rt; "error: {name} can't be opened: {cause}")?;
    Ok(1)
}

// Names the fault of a script.
fn tell<R: Eprint, W: Output>(
    rt: &R,
    answer: &Result<(), ScriptFault>,
    writer: &W,
) -> io::Result<u8>
    ensures { EndsWith (script_status answer.now) result }
{
    match answer {
        Ok(()) => Ok(0),
        Err(ScriptFault::Write) => fail(rt, Aim::Answers, writer.fault()),
        Err(ScriptFault::Read) => fail(rt, Aim::Answers, ScriptFault::Read),
    }
}

/// Answers the script of that name.
pub fn script<M: Machine, R: Eprint + AllocGlobal, I: Intake, W: Output>(
    rt: &R,
    name: &str,
    input: &mut io::Result<I>,
    writer: &mut W,
) -> io::Result<u8>
    ensures { ScriptAnswered (W.sink writer.old) (W.sink writer.new) I.source input.old input.new
        result }
{
    match input {
        Ok(reader) => {
            let answer = run_script::<M, I, W>(rt.alloc(), reader, writer);
            tell(rt, &answer, writer)
        }
        Err(cause) => unopened(rt, name, cause),
    }
}

/// Answers the script of that name, and says on the explainer's output why lines are bad.
pub fn explain<M: Machine, R: Eprint + AllocGlobal, I: Intake, W: Output, E: Outlet>(
    rt: &R,
    name: &str,
    input: &mut io::Result<I>,
    writer: &mut W,
    explainer: &mut Explainer<E>,
) -> io::Result<u8>
    requires { explainer.old.has_failed ≡ false }
    ensures { ScriptExplained (W.sink writer.old) (W.sink writer.new)
        (Said explainer.new.has_failed (E.sink explainer.old.to) (E.sink explainer.new.to))
        (explainer.new ≡ explainer.old) I.source input.old input.new result }
{
    match input {
        Ok(reader) => {
            let answer = explain_script::<M, I, W, E>(rt.alloc(), reader, writer, explainer);
            tell(rt, &answer, writer)
        }
        Err(cause) => unopened(rt, name, cause),
    }
}

// Says why a script that begins opened was not answered whole.
fn tell_from<R: Clock + Eprint, F: Read + Drop, W: Output, E: Outlet>(
    rt: &R,
    answer: &Result<(), FromFault<OpenedFault>>,
    from: &Sources<TableFile<'_, '_, R, F>>,
    writer: &W,
    errors: &mut E,
) -> io::Result<u8>
    ensures told { Told (E.sink errors.old) (E.sink errors.new) (script_from_note answer.now) }
    ensures status { EndsWith (script_from_status answer.now) result }
{
    match answer {
        Ok(()) => Ok(0),
        Err(FromFault::NoPopulation(error)) => {
            no_population(rt, Aim::Answers, from, error, errors)
        }
        Err(FromFault::Fault(OpenedFault::Script(ScriptFault::Write))) => {
            fail(rt, Aim::Answers, writer.fault())
        }
        Err(FromFault::Fault(fault)) => fail(rt, Aim::Answers, *fault),
    }
}

/// Answers the script of that name, which begins opened, on the population in nine files, with such
/// an undo ring.
pub fn opened_script<
    M: Machine,
    R: Clock + Eprint + AllocGlobal,
    F: Read + Drop,
    I: Intake,
    W: Output,
    E: Outlet,
>(
    rt: &R,
    from: &mut Sources<TableFile<'_, '_, R, F>>,
    extents: ExtentCount,
    layout: Layout,
    name: &str,
    input: &mut io::Result<I>,
    writer: &mut W,
    errors: &mut E,
) -> io::Result<u8>
    ensures { OpenedAnswered (W.sink writer.old) (W.sink writer.new) (E.sink errors.old)
        (E.sink errors.new) I.source extents layout from.old input.old input.new result }
{
    let reader = match input {
        Ok(reader) => reader,
        Err(cause) => return unopened(rt, name, cause),
    };
    match closed_status(rt, Aim::Answers, from) {
        Ok(None) => {}
        Ok(Some(status)) => return Ok(status),
        Err(error) => return Err(error),
    }
    let format = Format::Dump;
    let answer = run_script_from::<M, _, _, _>(
        rt.alloc(),
        format,
        from,
        extents,
        layout,
        reader,
        writer,
    );
    tell_from(rt, &answer, from, writer, errors)
}
