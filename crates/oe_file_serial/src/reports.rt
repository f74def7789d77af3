//! What is told of a file: a line on the output where it is decided, and an exit status.
ghost use Rattle.std.specs.Prelude.{◌≡◌, ◌≤◌, ◌++◌, [], length};
ghost use Rattle.oe_io.specs.Ports.{Streams};
ghost use Rattle.oe_file_serial.specs.Verdicts.{verdict_text, status_of, IsShort, IsOrigin, SerialRan};

use crate::origins::Origin;
use crate::texts::{differs_line, serial_line};
use crate::verdicts::{Shortage, Verdict, decide};
use arrayvec::ArrayVec;
use oe_io::output::flush;
use oe_io::ports::{Failed, Outlet};
use oe_machine::Machine;
use oe_reply_words::other_line;
use oe_texts::{LONGEST, Pending};
use std::alloc::Global;
use thiserror::Error;

/// Why a file is not told of whole.
#[derive(Clone, Copy, Debug, Error)]
pub enum SerialFault {
    /// Nothing was decided, and nothing was written.
    #[error(transparent)]
    Short(Shortage),
    /// A write failed. A beginning of the line was written.
    #[error("write")]
    Write,
}

/// Gives the exit status of a verdict: 0 where all agree, 1 where a line disagrees, and 2 where
/// lines have no form.
pub fn status(verdict: &Verdict) -> u8
    ensures { result ≡ status_of verdict.now }
{
    match verdict {
        Verdict::Serial(_) => 0,
        Verdict::Differs(_, _, _) => 1,
        Verdict::Unreadable(_) => 2,
    }
}

// Writes the lines of a verdict; none where nothing is decided.
fn tell(out: &mut Pending, verdict: &Verdict, ours: &[u8])
    requires empty { out.old.items ≡ [] }
    requires short { IsShort verdict.now }
    requires ours { length ours.now ≤ LONGEST }
    ensures { out.new.items ≡ verdict_text verdict.now ours.now }
{
    match verdict {
        Verdict::Serial(count) => serial_line(out, *count),
        Verdict::Differs(number, theirs, last) => {
            differs_line(out, *number, theirs, ours);
            other_line(out, *number, theirs, ours, *last);
        }
        Verdict::Unreadable(_) => {}
    }
}

/// Writes the lines of a verdict; nothing where lines have no form.
///
/// `Failed` where a write fails: a beginning of the line is written then.
pub fn write_verdict<W: Outlet>(
    verdict: &Verdict,
    ours: &[u8],
    writer: &mut W,
) -> Result<(), Failed>
    requires short { IsShort verdict.now }
    requires ours { length ours.now ≤ LONGEST }
    ensures { Streams (W.sink writer.old) [] (W.sink writer.new) []
        (verdict_text verdict.now ours.now) result }
{
    let mut out = Pending::new();
    tell(&mut out, verdict, ours);
    flush(&mut out, writer)
}

/// Decides whether a file's lines tell the replies that its transactions and queries have, one at a
/// time in this order, and writes the verdict. Nothing is written where lines have no form: they
/// are part of the verdict then.
pub fn run_serial<'a, M: Machine, W: Outlet>(
    alloc: Global,
    input: &'a [u8],
    origin: Origin,
    writer: &mut W,
) -> Result<Verdict<'a>, SerialFault>
    requires { IsOrigin origin }
    ensures { SerialRan origin input.now (W.sink writer.old) (W.sink writer.new) result }
{
    let mut ours: ArrayVec<u8, LONGEST> = ArrayVec::new();
    let verdict = match decide::<M>(alloc, input, origin, &mut ours) {
        Ok(decision) => decision.verdict(),
        Err(shortage) => return Err(SerialFault::Short(shortage)),
    };
    match write_verdict(&verdict, ours.as_slice(), writer) {
        Ok(()) => Ok(verdict),
        Err(_) => Err(SerialFault::Write),
    }
}
