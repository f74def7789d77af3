//! The line that tells what tables lack of a load.
ghost use Rattle.std.specs.Prelude.{◌≡◌, ◌≤◌, ◌+◌, ◌++◌, []};
ghost use Rattle.arrayvec.specs.ArrayVec.{array_vec_len};
ghost use Rattle.oe_model.specs.Population.{last_name};
ghost use Rattle.oe_io.specs.Ports.{Streams};
ghost use Rattle.oe_from.specs.Gaps.{name_text, gap_text, gap_line};

use crate::scales::{Gap, NameNumber};
use oe_io::output::flush;
use oe_io::ports::{Failed, Outlet};
use oe_rows::{DistrictKey, Key};
use oe_terms::names::name_of;
use oe_texts::{Pending, SIZE, keys, text};

// Appends the last name of a number.
fn put_name(out: &mut Pending, number: NameNumber)
    requires { array_vec_len out.old + 16 ≤ SIZE }
    ensures items { out.new.items ≡ out.old.items ++ last_name number }
    ensures len { array_vec_len out.new ≤ array_vec_len out.old + 16 }
{
    let name = name_of(number.get());
    text(out, name.as_str().as_bytes());
}

// Appends that no customer of a district has the last name of a number.
fn put_absent(out: &mut Pending, district: &DistrictKey, number: NameNumber)
    requires { array_vec_len out.old + 100 ≤ SIZE }
    ensures items { out.new.items ≡ out.old.items ++ name_text district.now number }
    ensures len { array_vec_len out.new ≤ array_vec_len out.old + 100 }
{
    keys::row(out, &Key::District(*district));
    text(out, b": no customer ");
    put_name(out, number);
}

// Appends what is lacking.
fn put_gap(out: &mut Pending, gap: &Gap)
    requires { array_vec_len out.old + 200 ≤ SIZE }
    ensures items { out.new.items ≡ out.old.items ++ gap_text gap.now }
    ensures len { array_vec_len out.new ≤ array_vec_len out.old + 200 }
{
    match gap {
        Gap::Row(key) => {
            text(out, b"no ");
            keys::row(out, key);
        }
        Gap::Name(district, number) => {
            put_absent(out, district, *number);
        }
    }
}

/// Writes the line that tells what tables lack of a load.
///
/// `Failed` where a write fails: a beginning of the line is written then.
pub fn write_gap<W: Outlet>(gap: &Gap, to: &mut W) -> Result<(), Failed>
    ensures { Streams (W.sink to.old) [] (W.sink to.new) [] (gap_line gap.now) result }
{
    let mut out = Pending::new();
    text(&mut out, b"no load: ");
    put_gap(&mut out, gap);
    text(&mut out, b"\n");
    flush(&mut out, to)
}
