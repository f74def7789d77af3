//! The line that tells a verdict.
ghost use Rattle.std.specs.Prelude.{◌≡◌, ◌≤◌, ◌+◌, ◌++◌, length};
ghost use Rattle.arrayvec.specs.ArrayVec.{array_vec_len};
ghost use Rattle.oe_file_serial.specs.Worlds.{commit_front};
ghost use Rattle.oe_file_serial.specs.Verdicts.{serial_line, differs_line};

use oe_texts::{Pending, SIZE, decimal, text};
use oe_values::Moment;

/// Writes `commit <moment> `.
pub(crate) fn commit_front(out: &mut Pending, moment: Moment)
    requires { array_vec_len out.old + 60 ≤ SIZE }
    ensures { out.new.items ≡ out.old.items ++ commit_front moment }
{
    text(out, b"commit ");
    decimal(out, u128::from(moment.get()));
    text(out, b" ");
}

/// Writes `serial <count>`.
pub(crate) fn serial_line(out: &mut Pending, count: u128)
    requires { array_vec_len out.old + 100 ≤ SIZE }
    ensures { out.new.items ≡ out.old.items ++ serial_line count }
{
    text(out, b"serial ");
    decimal(out, count);
    text(out, b"\n");
}

/// Writes `line <number>: "<theirs>", in this order "<ours>"`.
pub(crate) fn differs_line(out: &mut Pending, number: u128, theirs: &[u8], ours: &[u8])
    requires { array_vec_len out.old + length theirs.now + length ours.now + 100 ≤ SIZE }
    ensures items { out.new.items ≡ out.old.items ++ differs_line number theirs.now ours.now }
    ensures len { array_vec_len out.new
        ≤ array_vec_len out.old + length theirs.now + length ours.now + 100 }
{
    text(out, b"line ");
    decimal(out, number);
    text(out, b": \"");
    text(out, theirs);
    text(out, b"\", in this order \"");
    text(out, ours);
    text(out, b"\"\n");
}
