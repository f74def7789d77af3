//! What a column of a form holds, in words.
ghost use Rattle.std.specs.Prelude.{◌≡◌, ◌≤◌, ◌+◌, ◌++◌, length, codes, decimal};
ghost use Rattle.arrayvec.specs.ArrayVec.{array_vec_len};
ghost use Rattle.oe_comparison.specs.Forms.{range_text, bytes_text, amounts_text, form_text};

use oe_file_rows::Form;
use oe_texts::columns::{money, number, small};
use oe_texts::{Pending, SIZE, text};

/// Appends a range of numbers.
fn range(out: &mut Pending, low: u32, high: u32)
    requires { array_vec_len out.old + 40 ≤ SIZE }
    ensures items { out.new.items ≡ out.old.items ++ range_text low high }
    ensures len { array_vec_len out.new ≤ array_vec_len out.old + 40 }
{
    text(out, b"number from ");
    small(out, low);
    text(out, b" to ");
    small(out, high);
}

/// Appends how many bytes a text has.
fn bytes(out: &mut Pending, least: usize, most: usize)
    requires { array_vec_len out.old + 80 ≤ SIZE }
    ensures items { out.new.items ≡ out.old.items ++ bytes_text least most }
    ensures len { array_vec_len out.new ≤ array_vec_len out.old + 80 }
{
    text(out, b"text of ");
    if least < most {
        number(out, least as u64);
        text(out, b" to ");
    }
    number(out, most as u64);
    text(out, b" printable bytes");
}

/// Appends a range of amounts.
fn amounts(out: &mut Pending, most: u64)
    requires { array_vec_len out.old + 50 ≤ SIZE }
    ensures items { out.new.items ≡ out.old.items ++ amounts_text most }
    ensures len { array_vec_len out.new ≤ array_vec_len out.old + 50 }
{
    text(out, b"amount from 0.00 to ");
    money(out, most);
}

/// Appends what a column of this form holds.
pub(crate) fn form(out: &mut Pending, form: Form)
    requires { array_vec_len out.old + 100 ≤ SIZE }
    ensures items { out.new.items ≡ out.old.items ++ form_text form }
    ensures len { array_vec_len out.new ≤ array_vec_len out.old + 100 }
{
    match form {
        Form::Number(low, high) => range(out, low, high),
        Form::NullableNumber(low, high) => {
            range(out, low, high);
            text(out, b", and not null");
        }
        Form::Text(least, most) => bytes(out, least, most),
        Form::Money(most) => amounts(out, most),
        Form::Balance => text(out, b"amount"),
        Form::Rate => text(out, b"rate from 0.0000 to 0.9999"),
        Form::Credit => text(out, b"credit, GC or BC"),
        Form::Flag => text(out, b"flag, 1 or 0"),
        Form::Stamp => text(out, b"date and time"),
        Form::NullableStamp => text(out, b"date and time, and not null"),
    }
}
