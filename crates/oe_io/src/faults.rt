//! What the system refuses a program, with its texts for a person.
ghost use Rattle.std.specs.Prelude.{◌≡◌, ◌≢◌};
ghost use Rattle.std.specs.IoError.{error_kind};
ghost use Rattle.std.specs.declared.io.ErrorKind.TheVariants.{BrokenPipe};

use std::io;
use std::io::ErrorKind;
use thiserror::Error;

/// What the system refuses a program.
#[derive(Clone, Copy, Debug, Error)]
pub enum SystemFault {
    /// It gives no memory.
    #[error("no memory")]
    NoMemory,
    /// It takes no output: a device has failed, or is full.
    #[error("write")]
    Write,
    /// It takes no output, as nobody reads it any more.
    #[error("output closed")]
    OutputClosed,
}

impl SystemFault {
    /// Names why a write failed.
    pub fn of_write(error: &io::Error) -> SystemFault
        ensures closed { error_kind error.now ≡ BrokenPipe → result ≡ SystemFault.OutputClosed }
        ensures other { error_kind error.now ≢ BrokenPipe → result ≡ SystemFault.Write }
    {
        if error.kind() == ErrorKind::BrokenPipe {
            SystemFault::OutputClosed
        } else {
            SystemFault::Write
        }
    }
}
