//! The file to which a drive's commits go, for `main` alone.
//!
//! The outlet is trusted: clauses see no byte of what the system writes, so that nothing says
//! whether it hands them on.
ghost use Rattle.std.specs.Prelude.{None};
ghost use Rattle.oe_answers.specs.Endings.{EndsWith};

use oe_answers::{Aim, Output, fail};
use oe_io::faults::SystemFault;
use oe_io::ports::{Failed, Outlet};
use std::io;
use std::io::Write;

/// A file that is open to be written.
#[derive(Drop)]
pub struct Written<F> {
    file: F,
    fault: SystemFault,
}

impl<F: Write> Written<F> {
    /// Makes an output of a file to which nothing was written.
    pub fn new(file: F) -> Written<F> {
        Written {
            file,
            fault: SystemFault::Write,
        }
    }
}

impl<F: Write> Outlet for Written<F> {
    ghost sink = { λ _. None };

    fn write(&mut self, bytes: &[u8]) -> Result<usize, Failed> {
        match self.file.write_all(bytes) {
            Ok(()) => Ok(bytes.len()),
            Err(error) => {
                self.fault = SystemFault::of_write(&error);
                Err(Failed)
            }
        }
    }
}

impl<F: Write> Output for Written<F> {
    fn fault(&self) -> SystemFault {
        self.fault
    }
}

/// Says why a file can't be made, and gives the status then. No drive is begun.
pub fn unmade<R: Eprint>(rt: &R, name: &str, cause: &io::Error) -> io::Result<u8>
    ensures { EndsWith 1 result }
{
    if cause.kind() == io::ErrorKind::OutOfMemory {
        return fail(rt, Aim::Answers, SystemFault::NoMemory);
    }
    eprintln!(rt; "error: {name} can't be made: {cause}")?;
    Ok(1)
}
