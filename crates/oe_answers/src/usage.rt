//! Command lines that can't be had, that ask for nothing that can be done, or that ask for help.
ghost use Rattle.std.specs.Prelude.{◌≡◌, ◌≢◌, ◌≤◌, ◌⊎◌, IfOk};
ghost use Rattle.std.specs.IoError.{error_kind};
ghost use Rattle.std.specs.declared.io.ErrorKind.TheVariants as io_kind;
ghost use Rattle.clap.specs.Values.{kind_of};
ghost use Rattle.clap.specs.declared.error.kind.ErrorKind.TheVariants as kind;
ghost use Rattle.oe_answers.specs.Endings.{EndsWith};

use crate::endings::{Aim, fail};
use clap::Error;
use clap::error::ErrorKind;
use oe_explain::write_forms;
use oe_io::faults::SystemFault;
use oe_io::standard::Printed;
use std::io;

/// Says why the words of a command line could not be had.
pub fn refuse<R: Eprint>(rt: &R, error: &io::Error) -> io::Result<u8>
    ensures no_memory { error_kind error.now ≡ io_kind.OutOfMemory → EndsWith 1 result }
    ensures other { error_kind error.now ≢ io_kind.OutOfMemory → EndsWith 2 result }
{
    if error.kind() == io::ErrorKind::OutOfMemory {
        return fail(rt, Aim::Answers, SystemFault::NoMemory);
    }
    eprintln!(rt; "error: the command line is not UTF-8")?;
    Ok(2)
}

// Tells which forms the lines of a script have.
fn tell_forms<R: Print + Eprint>(rt: &R) -> io::Result<u8>
    ensures { IfOk result (λ status. status ≤ 1) }
{
    let mut out = Printed::new(rt);
    match write_forms(&mut out) {
        Ok(()) => Ok(0),
        Err(_) => fail(rt, Aim::Answers, out.fault()),
    }
}

// Tells the help, and behind it the forms of lines; or the version.
fn tell_help<R: Print + Eprint>(rt: &R, error: &Error) -> io::Result<u8>
    ensures { IfOk result (λ status. status ≤ 1) }
{
    match error.print(rt) {
        Ok(()) => match error.kind() {
            ErrorKind::DisplayHelp => tell_forms(rt),
            _ => Ok(0),
        },
        Err(error) => fail(rt, Aim::Answers, SystemFault::of_write(&error)),
    }
}

/// Says why a command line is refused, or gives the help or the version that it asks for.
pub fn tell_usage<R: Print + Eprint>(rt: &R, error: &Error) -> io::Result<u8>
    ensures no_memory { kind_of error.now ≡ kind.OutOfMemory → EndsWith 1 result }
    ensures help { (kind_of error.now ≡ kind.DisplayHelp)
        ⊎ (kind_of error.now ≡ kind.DisplayVersion) → IfOk result (λ status. status ≤ 1) }
    ensures refused { kind_of error.now ≢ kind.OutOfMemory → kind_of error.now ≢ kind.DisplayHelp
        → kind_of error.now ≢ kind.DisplayVersion → EndsWith 2 result }
{
    match error.kind() {
        ErrorKind::OutOfMemory => fail(rt, Aim::Answers, SystemFault::NoMemory),
        ErrorKind::DisplayHelp | ErrorKind::DisplayVersion => tell_help(rt, error),
        _ => {
            let _told = error.print(rt);
            Ok(2)
        }
    }
}
