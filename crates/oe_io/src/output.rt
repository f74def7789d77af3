//! Output that waits in a buffer of fixed size until it is written whole. Where a write fails, what
//! waited is not written again.
ghost use Rattle.std.specs.Prelude.{◌≡◌, ◌<◌, ◌≤◌, ◌+◌, ◌++◌, ℕ, [], length, codes, MatchResult, IfOk};
ghost use Rattle.arrayvec.specs.ArrayVec.{array_vec_len};
ghost use Rattle.oe_io.specs.Ports.{Streams, Cut};
ghost use Rattle.oe_io.specs.Lines.{bad_line};

use crate::ports::{Failed, Outlet};
use oe_texts::{LONGEST, Pending, SIZE, decimal, has_room, text};

/// Writes all of the bytes.
pub fn write_all<W: Outlet>(to: &mut W, bytes: &[u8]) -> Result<(), Failed>
    ensures { Streams (W.sink to.old) [] (W.sink to.new) [] bytes.now result }
{
    let mut at = 0;
    while at < bytes.len() {
        match to.write(&bytes[at..]) {
            Ok(n) => at += n,
            Err(e) => return Err(e),
        }
    }
    Ok(())
}

/// Writes what waits.
pub fn flush<W: Outlet>(out: &mut Pending, to: &mut W) -> Result<(), Failed>
    ensures stream { Streams (W.sink to.old) out.old.items (W.sink to.new) out.new.items [] result }
    ensures empty { out.new.items ≡ [] }
{
    let written = write_all(to, out.as_slice());
    out.clear();
    written
}

/// Writes what waits where the longest line has no room behind it.
pub fn make_room<W: Outlet>(out: &mut Pending, to: &mut W) -> Result<(), Failed>
    ensures stream { Streams (W.sink to.old) out.old.items (W.sink to.new) out.new.items [] result }
    ensures room { array_vec_len out.new + LONGEST ≤ SIZE }
{
    if has_room(out) {
        return Ok(());
    }
    flush(out, to)
}

/// Appends the line `error 1 BadLine <number>`.
pub fn bad(out: &mut Pending, number: u128)
    requires { array_vec_len out.old + LONGEST ≤ SIZE }
    ensures { out.new.items ≡ out.old.items ++ bad_line number }
{
    text(out, b"error 1 BadLine ");
    decimal(out, number);
    text(out, b"\n");
}

/// Appends a `BadLine`, and writes what waits first where there is no room behind it.
pub fn put_bad<W: Outlet>(out: &mut Pending, to: &mut W, number: u128) -> Result<(), Failed>
    ensures { Streams (W.sink to.old) out.old.items (W.sink to.new) out.new.items
        (bad_line number) result }
{
    if let Err(e) = make_room(out, to) {
        return Err(e);
    }
    bad(out, number);
    Ok(())
}
