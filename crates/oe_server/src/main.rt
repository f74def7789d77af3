//! An order-entry server that answers scripts and makes them, decides on files of replies, audits
//! files of tables and runs drives.
//!
//! This file is trusted: it has no contract. It opens what the command line names, and hands it to
//! `oe_answers` and `oe_drive_answer`, whose contracts say what is answered, with which status. Here
//! alone the machine of all commands is chosen: it is a `Core`.
use oe_answers::{
    Audited, Progress, Replies, answer_audit, answer_following, answer_load, explain, open_audited,
    open_before, open_script, opened_script, refuse, script, serial, tell_usage,
};
use oe_command_line::{AuditOptions, LoadOptions, Separator, Task, job};
use oe_core::Core;
use oe_core::crossing::core_crosses;
use oe_drive_answer::files::{Written, unmade};
use oe_drive_answer::progress::Shown;
use oe_drive_answer::{answer_drive, answer_drive_to};
use oe_explain::Explainer;
use oe_file_loading::{Pace, open_named, open_tables};
use oe_io::standard::{Printed, Standard};
use oe_numbers::{DriveNumbers, FollowingNumbers};
use oe_rows::Layout;
use oe_values::ExtentCount;
use std::env::Env;
use std::fs::File;
use std::io::{Input, IsTerminal, Stderr};
use std::process::ExitCode;
use std::rt::Files;
use std::sync::Wait;
use std::thread::Threads;
use std::time::Clock;
use std::{env, io};

fn main(rt: HostRuntime) -> io::Result<ExitCode> {
    let status = match words(&rt) {
        Ok(words) => match job(rt.alloc(), words.as_slice()) {
            Ok(task) => answer(&rt, &rt.stderr(), &task)?,
            Err(error) => tell_usage(&rt, &error)?,
        },
        Err(error) => refuse(&rt, &error)?,
    };
    Ok(ExitCode::from(status))
}

/// Gives the words of the command line, the program's name first.
fn words<R: Env + AllocGlobal>(rt: &R) -> io::Result<Vec<String>> {
    Ok(env::args(rt)?.collect(rt.alloc())?)
}

/// Answers what a command line asks for.
fn answer<
    R: Threads
        + Wait
        + Files<File = File>
        + Clock
        + Input
        + Print
        + Eprint
        + AllocGlobal
        + Clone
        + Drop
        + Sync,
>(rt: &R, errors: &Stderr, task: &Task<'_>) -> io::Result<u8> {
    let out = &mut Printed::new(rt);
    let explainer = &mut Explainer::new(Printed::new(errors));
    match task {
        Task::Script => script::<Core, _, _, _>(rt, "-", &mut Ok(Standard(rt.reader())), out),
        Task::File(name) => script::<Core, _, _, _>(rt, name, &mut open_script(rt, name), out),
        Task::Explain(None) => {
            let input = &mut Ok(Standard(rt.reader()));
            explain::<Core, _, _, _, _>(rt, "-", input, out, explainer)
        }
        Task::Explain(Some(name)) => {
            let input = &mut open_script(rt, name);
            explain::<Core, _, _, _, _>(rt, name, input, out, explainer)
        }
        Task::Opened {
            directory,
            extents,
            layout,
            file,
        } => answer_from(rt, errors, directory, *extents, *layout, *file),
        Task::Serial {
            file,
            from,
            tables,
            separator,
        } => decide(rt, errors, file, *from, *tables, *separator),
        Task::Audit {
            source,
            before,
            options,
        } => audit(rt, errors, source, *before, options),
        Task::Load { numbers, options } => answer_load::<Core, _, _>(rt, numbers, options, out),
        Task::Following {
            directory,
            numbers,
            options,
        } => follow(rt, errors, directory, numbers, options),
        Task::Drive {
            numbers,
            commits,
            is_busy,
        } => drive(rt, errors, numbers, *commits, *is_busy),
    }
}

/// Makes the file to which a drive's commits go, where one is named, and runs the drive.
fn drive<R: Threads + Wait + Files<File = File> + Clock + Print + Eprint + AllocGlobal + Sync>(
    rt: &R,
    errors: &Stderr,
    numbers: &DriveNumbers,
    commits: Option<&str>,
    is_busy: bool,
) -> io::Result<u8> {
    let shown = Shown {
        progress: errors.is_terminal(),
        busy: is_busy,
    };
    core_crosses();
    let out = &mut Printed::new(rt);
    let Some(name) = commits else {
        return answer_drive::<Core, _, _>(rt, numbers, shown, out);
    };
    match File::create(rt, name) {
        Ok(file) => {
            let file = &mut Written::new(file);
            answer_drive_to::<Core, _, _, _>(rt, numbers, shown, file, out)
        }
        Err(cause) => unmade(rt, name, &cause),
    }
}

/// Opens the tables in a directory, and writes a load on them.
fn follow<R: Files + Clock + Print + Eprint + AllocGlobal>(
    rt: &R,
    errors: &Stderr,
    directory: &str,
    numbers: &FollowingNumbers,
    options: &LoadOptions,
) -> io::Result<u8> {
    let pace = Pace::begin(rt, errors.is_terminal())?;
    let from = &mut open_tables(rt, directory, &pace);
    let (out, notes) = (&mut Printed::new(rt), &mut Printed::new(errors));
    answer_following::<Core, _, _, _, _>(rt, from, numbers, options, out, notes)
}

/// Opens the tables in a directory and a script, and answers it from them.
fn answer_from<R: Files + Clock + Input + Print + Eprint + AllocGlobal>(
    rt: &R,
    errors: &Stderr,
    directory: &str,
    extents: ExtentCount,
    layout: Layout,
    file: Option<&str>,
) -> io::Result<u8> {
    let pace = Pace::begin(rt, errors.is_terminal())?;
    let from = &mut open_tables(rt, directory, &pace);
    let (out, notes) = (&mut Printed::new(rt), &mut Printed::new(errors));
    let Some(name) = file else {
        let input = &mut Ok(Standard(rt.reader()));
        return opened_script::<Core, _, _, _, _, _>(
            rt, from, extents, layout, "-", input, out, notes,
        );
    };
    let input = &mut open_script(rt, name);
    opened_script::<Core, _, _, _, _, _>(rt, from, extents, layout, name, input, out, notes)
}

/// Opens a file of replies, and the tables in the directories that stand beside it, and decides.
fn decide<R: Files + Clock + Print + Eprint + AllocGlobal>(
    rt: &R,
    errors: &Stderr,
    name: &str,
    from: Option<&str>,
    tables: Option<&str>,
    separator: Separator,
) -> io::Result<u8> {
    let pace = Pace::begin(rt, errors.is_terminal())?;
    let mut from = open_named(rt, from, &pace);
    let mut tables = open_named(rt, tables, &pace);
    let replies = &Replies::read(rt, name);
    let (out, notes) = (&mut Printed::new(rt), &mut Printed::new(errors));
    serial::<Core, _, _, _, _>(rt, separator, replies, &mut from, &mut tables, out, notes)
}

/// Opens what an audit reads, and the earlier directory where one is named, and audits.
fn audit<
    R: Threads
        + Files<File = File>
        + Input
        + Print
        + Eprint
        + AllocGlobal
        + Clock
        + Clone
        + Drop
        + Sync,
>(
    rt: &R,
    errors: &Stderr,
    name: &str,
    before: Option<&str>,
    options: &AuditOptions,
) -> io::Result<u8> {
    let progress = &Progress::begin(rt, errors.is_terminal())?;
    let before = open_before(rt, before, progress);
    let (out, notes) = (&mut Printed::new(rt), &mut Printed::new(errors));
    if name == "-" {
        let input = Audited::Dump(Ok(progress.watch(rt.reader(), 0)));
        return answer_audit(rt, options, before, name, input, out, notes);
    }
    let files = open_audited(rt, name, progress);
    answer_audit(rt, options, before, name, files, out, notes)
}
