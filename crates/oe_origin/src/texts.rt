//! The line that tells what a folder lacks of a population.
ghost use Rattle.std.specs.Prelude.{◌≡◌, ◌≤◌, ◌+◌, ◌++◌, []};
ghost use Rattle.arrayvec.specs.ArrayVec.{array_vec_len};
ghost use Rattle.oe_io.specs.Ports.{Streams};
ghost use Rattle.oe_origin.specs.Texts.{lack_text, lack_line};

use crate::lacks::Lack;
use oe_io::output::flush;
use oe_io::ports::{Failed, Outlet};
use oe_rows::Key;
use oe_texts::columns::small;
use oe_texts::{Pending, SIZE, keys, text};

// Appends what is lacking.
fn put_lack(out: &mut Pending, lack: &Lack)
    requires { array_vec_len out.old + 200 ≤ SIZE }
    ensures items { out.new.items ≡ out.old.items ++ lack_text lack.now }
    ensures len { array_vec_len out.new ≤ array_vec_len out.old + 200 }
{
    match lack {
        Lack::Row(apart) => {
            keys::row(out, &apart.key);
            text(out, b": no ");
            keys::row(out, &apart.missing);
        }
        Lack::Condition(condition, key) => {
            text(out, b"condition ");
            small(out, u32::from(condition.number()));
            text(out, b" fails ");
            keys::columns(out, key, b' ');
        }
        Lack::Stock(key) => {
            text(out, b"no ");
            keys::row(out, &Key::Stock(*key));
        }
    }
}

/// Writes the line that tells what is lacking.
///
/// `Failed` where a write fails: a beginning of the line is written then.
pub fn write_lack<W: Outlet>(lack: &Lack, to: &mut W) -> Result<(), Failed>
    ensures { Streams (W.sink to.old) [] (W.sink to.new) [] (lack_line lack.now) result }
{
    let mut out = Pending::new();
    text(&mut out, b"no population: ");
    put_lack(&mut out, lack);
    text(&mut out, b"\n");
    flush(&mut out, to)
}
