//! A script's run from its first byte to its last: lines are found in what the reader gives,
//! answered in turn, and written at the latest before the next read.
ghost use Rattle.std.specs.Prelude.{None, Some};
ghost use Rattle.oe_admission.specs.Programs.{IsLive};
ghost use Rattle.oe_script.specs.Hearing.{HearsEach};
ghost use Rattle.oe_script.specs.Session.{ScriptHeard, ScriptRan};

use crate::listeners::{Listener, Quiet};
use crate::session::{ScriptFault, Session};
use oe_io::ports::{Intake, Outlet};
use oe_machine::Machine;
use std::alloc::Global;

/// Answers a script, line by line, to its end.
///
/// What waits is written before each read. A fault comes only where one call of the reader or of
/// the writer failed in this run, which it names, or the input has 2^64 - 1 bytes or more. After
/// one of the reader each whole line that was read is answered, and no more is written; after one
/// of the writer what was written is a beginning of an output of all that was read. Want of memory
/// inside a step is that line's answer, and the run goes on.
pub fn run_script<M: Machine, R: Intake, W: Outlet>(
    alloc: Global,
    reader: &mut R,
    writer: &mut W,
) -> Result<(), ScriptFault>
    ensures { ScriptRan None (R.source reader.old) (R.source reader.new)
        (W.sink writer.old) (W.sink writer.new) result }
{
    let mut quiet = Quiet {};
    hear_script::<M, R, W, Quiet>(alloc, reader, writer, &mut quiet)
}

/// Answers a script as `run_script` does, whatever the listener does, and lets the listener hear of
/// each line that is answered `BadLine`, in order, each once.
///
/// The listener hears of a line when its answer is given, and of a last line without its end when
/// all answers are written. After a fault of the reader it has heard of the whole lines that were
/// read; after one of the writer of those before a line whose answer could not be written.
pub fn hear_script<M: Machine, R: Intake, W: Outlet, H: Listener>(
    alloc: Global,
    reader: &mut R,
    writer: &mut W,
    listener: &mut H,
) -> Result<(), ScriptFault>
    ensures ran { ScriptRan None (R.source reader.old) (R.source reader.new)
        (W.sink writer.old) (W.sink writer.new) result }
    ensures heard { ScriptHeard None (λ told. HearsEach H.hears listener.old told listener.new)
        (R.source reader.old) (R.source reader.new)
        (W.sink writer.old) (W.sink writer.new) result }
{
    let mut session = Session::<M>::new();
    let ran = session.run(alloc, reader, writer, listener);
    session.close();
    ran
}

/// Answers a script that begins opened, on that machine, as `run_script` does: `open` is then none of
/// the forms. The machine is given up at the end.
pub fn run_opened_script<M: Machine, R: Intake, W: Outlet>(
    alloc: Global,
    core: M,
    reader: &mut R,
    writer: &mut W,
) -> Result<(), ScriptFault>
    requires { IsLive (Some (M.world core)) }
    ensures { ScriptRan (Some (M.world core)) (R.source reader.old) (R.source reader.new)
        (W.sink writer.old) (W.sink writer.new) result }
{
    let mut quiet = Quiet {};
    let mut session = Session::on(core);
    let ran = session.run(alloc, reader, writer, &mut quiet);
    session.close();
    ran
}
