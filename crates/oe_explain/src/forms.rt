//! The forms of lines, for a person who asks for them.
ghost use Rattle.std.specs.Prelude.{[]};
ghost use Rattle.oe_io.specs.Ports.{Streams};
ghost use Rattle.oe_reasons.specs.Shapes.{forms_text};

use arrayvec::ArrayVec;
use oe_io::output::flush;
use oe_io::ports::{Failed, Outlet};
use oe_reasons::list_forms;
use oe_texts::Pending;

/// Writes each form that a line may have, and what may stand in each of its columns. Where a write
/// fails, a beginning of that is written.
pub fn write_forms<W: Outlet>(to: &mut W) -> Result<(), Failed>
    ensures { Streams (W.sink to.old) [] (W.sink to.new) [] forms_text result }
{
    let mut out: Pending = ArrayVec::new();
    list_forms(&mut out);
    flush(&mut out, to)
}
