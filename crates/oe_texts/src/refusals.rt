//! The texts of refusals: a number and a name, and what was refused.
ghost use Rattle.std.specs.Prelude.{◌≡◌, ◌≤◌, ◌+◌, ◌++◌};
ghost use Rattle.arrayvec.specs.ArrayVec.{array_vec_len};
ghost use Rattle.oe_texts.specs.Refusal.{refusal_text, error_text};

use crate::columns::{number, small, small_then};
use crate::keys::{name, row};
use crate::pending::{Pending, SIZE, text};
use oe_requests::Refusal;

/// Appends a refusal's name, and what it tells.
fn told(out: &mut Pending, refusal: &Refusal)
    requires { array_vec_len out.old + 70 ≤ SIZE }
    ensures items { out.new.items ≡ out.old.items ++ refusal_text refusal.now }
    ensures len { array_vec_len out.new ≤ array_vec_len out.old + 70 }
{
    match refusal {
        Refusal::NoSuchRow(key) => {
            text(out, b"NoSuchRow ");
            row(out, key);
        }
        Refusal::RowExists(key) => {
            text(out, b"RowExists ");
            row(out, key);
        }
        Refusal::Overflow(column) => {
            text(out, b"Overflow ");
            text(out, column.name().as_bytes());
        }
        Refusal::Reference(key) => {
            text(out, b"Reference ");
            row(out, key);
        }
        Refusal::KeyColumn => text(out, b"KeyColumn"),
        Refusal::Busy(lock, terminal) => {
            text(out, b"Busy ");
            name(out, lock);
            out.push(b' ');
            small(out, terminal.get());
        }
        Refusal::UndoFull => text(out, b"UndoFull"),
        Refusal::NoMemory => text(out, b"NoMemory"),
        Refusal::NotOpen => text(out, b"NotOpen"),
        Refusal::AlreadyOpen => text(out, b"AlreadyOpen"),
        Refusal::InvalidItem => text(out, b"Item number is not valid"),
        Refusal::NoCustomer => text(out, b"NoCustomer"),
        Refusal::TooOld(horizon) => {
            text(out, b"TooOld ");
            number(out, horizon.get());
        }
        Refusal::Future(newest) => {
            text(out, b"Future ");
            number(out, newest.get());
        }
        Refusal::NotQuiet(terminals) => {
            text(out, b"NotQuiet ");
            small(out, terminals.get());
        }
        Refusal::NotPinned(word) => {
            text(out, b"NotPinned ");
            number(out, *word);
        }
    }
}

/// Appends `error <number> <text>`.
pub(crate) fn error(out: &mut Pending, refusal: &Refusal)
    requires { array_vec_len out.old + 90 ≤ SIZE }
    ensures items { out.new.items ≡ out.old.items ++ error_text refusal.now }
    ensures len { array_vec_len out.new ≤ array_vec_len out.old + 90 }
{
    text(out, b"error ");
    small_then(out, u32::from(refusal.number()), b' ');
    told(out, refusal);
}
