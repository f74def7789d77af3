//! What is told of the lines of a file that have no form: a line for each, on an output.
ghost use Rattle.std.specs.Prelude.{◌≡◌, []};
ghost use Rattle.std.specs.List.{flat_map};
ghost use Rattle.oe_io.specs.Ports.{Streams};
ghost use Rattle.oe_file_serial.specs.BadTexts.{bad_line_text, bad_lines_text, more_text};

use crate::lines::BadLines;
use crate::reasons::{BadLine, bad_line};
use oe_io::output::flush;
use oe_io::ports::{Failed, Outlet};
use oe_texts::{Pending, decimal, text};

// Writes why a line has no form. Nothing waits before or afterwards.
fn write_bad_line<W: Outlet>(bad: &BadLine, to: &mut W) -> Result<(), Failed>
    ensures { Streams (W.sink to.old) [] (W.sink to.new) [] (bad_line_text bad.now) result }
{
    let mut out = Pending::new();
    bad_line(&mut out, bad);
    flush(&mut out, to)
}

// Writes why lines have no form.
fn write_first<W: Outlet>(first: &[BadLine], to: &mut W) -> Result<(), Failed>
    ensures { Streams (W.sink to.old) [] (W.sink to.new) [] (flat_map bad_line_text first.now)
        result }
{
    for bad in first {
        if let Err(e) = write_bad_line(bad, to) {
            return Err(e);
        }
    }
    Ok(())
}

// Appends how many more lines there are, where there are more.
fn put_more(out: &mut Pending, count: u128)
    requires { out.old.items ≡ [] }
    ensures { out.new.items ≡ more_text count }
{
    if count > 0 {
        decimal(out, count);
        text(out, b" more\n");
    }
}

/// Writes a line for each of the lines that are kept, which tells why it has no form, and how many
/// there are besides.
///
/// `Failed` where a write fails: a beginning of the lines is written then.
pub fn write_bad_lines<W: Outlet>(bad: &BadLines, to: &mut W) -> Result<(), Failed>
    ensures { Streams (W.sink to.old) [] (W.sink to.new) [] (bad_lines_text bad.now) result }
{
    let first = bad.first.as_slice();
    if let Err(e) = write_first(first, to) {
        return Err(e);
    }
    let mut out = Pending::new();
    put_more(&mut out, bad.count.saturating_sub(first.len() as u128));
    flush(&mut out, to)
}
