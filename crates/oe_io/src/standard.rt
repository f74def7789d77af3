//! A reader of the system and the standard output, for `main` alone.
//!
//! This file is trusted. Clauses see no byte of what the system reads and prints, so that nothing
//! says whether these calls hand the system's bytes on: whoever relies on the program reads them.
ghost use Rattle.std.specs.Prelude.{None};

use crate::faults::SystemFault;
use crate::ports::{Failed, Intake, Outlet};
use std::io::Read;

/// A reader of the system.
#[derive(Drop)]
pub struct Standard<T>(pub T);

impl<T: Read> Intake for Standard<T> {
    ghost source = { λ _. None };

    fn read(&mut self, buf: &mut [u8]) -> Result<usize, Failed> {
        self.0.read(buf).map_err(|_| Failed)
    }
}

/// The standard output of a runtime.
#[derive(Drop)]
pub struct Printed<'a, P: Print> {
    to: &'a P,
    fault: SystemFault,
}

impl<'a, P: Print> Printed<'a, P> {
    /// Makes an output that is not known to be closed.
    pub fn new(to: &'a P) -> Printed<'a, P> {
        Printed {
            to,
            fault: SystemFault::Write,
        }
    }

    /// Names why the last write that failed did.
    pub fn fault(&self) -> SystemFault {
        self.fault
    }
}

impl<'a, P: Print> Outlet for Printed<'a, P> {
    ghost sink = { λ _. None };

    fn write(&mut self, bytes: &[u8]) -> Result<usize, Failed> {
        match self.to.write_all(bytes) {
            Ok(()) => Ok(bytes.len()),
            Err(error) => {
                self.fault = SystemFault::of_write(&error);
                Err(Failed)
            }
        }
    }
}
