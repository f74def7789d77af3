//! How a command ends: with a status, and after a fault with a line on standard error that names
//! it. No clause sees that line.
ghost use Rattle.std.specs.Prelude.{◌≡◌};
ghost use Rattle.oe_answers.specs.Endings.{fault_status, EndsUnread, EndsWith};

use oe_io::faults::SystemFault;
use oe_io::ports::Outlet;
use oe_io::standard::Printed;
use std::fmt::Display;
use std::io;
use std::io::ErrorKind;

/// What a command does, which decides the status of its faults.
#[derive(Clone, Copy)]
pub enum Aim {
    /// It answers: a fault's status is 1.
    Answers,
    /// It judges: 1 is the status of what fails, and a fault's is 3.
    Judges,
}

impl Aim {
    // Gives the status of a fault.
    fn fault_status(self) -> u8
        ensures { result ≡ fault_status self }
    {
        match self {
            Aim::Answers => 1,
            Aim::Judges => 3,
        }
    }
}

/// An output that names why its last write failed.
pub trait Output: Outlet {
    fn fault(&self) -> SystemFault;
}

impl<P: Print> Output for Printed<'_, P> {
    fn fault(&self) -> SystemFault {
        self.fault()
    }
}

/// Names a fault, and gives its status.
///
/// An error is one of standard error.
pub fn fail<R: Eprint, F: Display + Drop>(rt: &R, aim: Aim, fault: F) -> io::Result<u8>
    ensures { EndsWith (fault_status aim) result }
{
    eprintln!(rt; "fault: {fault}")?;
    Ok(aim.fault_status())
}

/// Says why a file that is to be judged can't be read, and gives the status then.
pub(crate) fn unread<R: Eprint>(rt: &R, name: &str, cause: &io::Error) -> io::Result<u8>
    ensures { EndsUnread cause.now result }
{
    if cause.kind() == ErrorKind::OutOfMemory {
        return fail(rt, Aim::Judges, SystemFault::NoMemory);
    }
    eprintln!(rt; "error: {name} can't be read: {cause}")?;
    Ok(2)
}
