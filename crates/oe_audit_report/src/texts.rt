//! Figures, keys and strings as text.
ghost use Rattle.std.specs.Prelude.{◌≡◌, ◌≤◌, ◌<◌, ◌+◌, ◌*◌, ◌++◌, length, decimal};
ghost use Rattle.std.specs.List.{flat_map};
ghost use Rattle.arrayvec.specs.ArrayVec.{array_vec_len};
ghost use Rattle.oe_rows.specs.Credit.{money_text};
ghost use Rattle.oe_audit_report.specs.Texts.{figure_text, size_text, number_text, comma_list, hex_digit, json_bytes, string_text};

use oe_texts::columns::number;
use oe_texts::{Pending, SIZE, decimal, text};

/// Appends an amount of money with two decimals.
fn money(out: &mut Pending, cents: u128)
    requires { array_vec_len out.old + 42 ≤ SIZE }
    ensures items { out.new.items ≡ out.old.items ++ money_text cents }
    ensures len { array_vec_len out.new ≤ array_vec_len out.old + 42 }
{
    decimal(out, cents / 100);
    out.push(b'.');
    out.push(b'0' + (cents % 100 / 10) as u8);
    out.push(b'0' + (cents % 100 % 10) as u8);
}

/// Appends a figure without its sign.
fn size(out: &mut Pending, is_money: bool, size: u128)
    requires { array_vec_len out.old + 42 ≤ SIZE }
    ensures items { out.new.items ≡ out.old.items ++ size_text is_money size }
    ensures len { array_vec_len out.new ≤ array_vec_len out.old + 42 }
{
    if is_money {
        money(out, size);
    } else {
        decimal(out, size);
    }
}

/// Appends a figure, with a minus sign where it is negative.
pub(crate) fn figure(out: &mut Pending, is_money: bool, figure: i128)
    requires { array_vec_len out.old + 43 ≤ SIZE }
    ensures items { out.new.items ≡ out.old.items ++ figure_text is_money figure }
    ensures len { array_vec_len out.new ≤ array_vec_len out.old + 43 }
{
    if figure < 0 {
        out.push(b'-');
    }
    size(out, is_money, figure.unsigned_abs());
}

/// Appends the numbers of a key, each behind a byte.
pub(crate) fn numbers(out: &mut Pending, before: u8, key: &[u32])
    requires most { length key.now ≤ 4 }
    requires room { array_vec_len out.old + 84 ≤ SIZE }
    ensures items { out.new.items ≡ out.old.items ++ flat_map (number_text before) key.now }
    ensures len { array_vec_len out.new ≤ array_vec_len out.old + 84 }
{
    for part in key {
        out.push(before);
        number(out, u64::from(*part));
    }
}

/// Appends the numbers of a key, with a comma between two of them.
pub(crate) fn listed(out: &mut Pending, key: &[u32])
    requires most { length key.now ≤ 4 }
    requires room { array_vec_len out.old + 104 ≤ SIZE }
    ensures items { out.new.items ≡ out.old.items ++ comma_list decimal key.now }
    ensures len { array_vec_len out.new ≤ array_vec_len out.old + 104 }
{
    if let Some((first, others)) = key.split_first() {
        number(out, u64::from(*first));
        numbers(out, b',', others);
    }
}

/// Gives a hexadecimal digit.
fn hex_digit(n: u8) -> u8
    requires { n < 16 }
    ensures { result ≡ hex_digit n }
{
    if n < 10 { b'0' + n } else { b'a' - 10 + n }
}

/// Appends a byte of a JSON string.
fn escaped(out: &mut Pending, byte: u8)
    requires { array_vec_len out.old + 6 ≤ SIZE }
    ensures items { out.new.items ≡ out.old.items ++ json_bytes byte }
    ensures len { array_vec_len out.new ≤ array_vec_len out.old + 6 }
{
    if byte < 32 {
        text(out, b"\\u00");
        out.push(hex_digit(byte / 16));
        out.push(hex_digit(byte % 16));
        return;
    }
    if byte == b'"' || byte == b'\\' {
        out.push(b'\\');
    }
    out.push(byte);
}

/// Appends a JSON string (RFC 8259).
pub(crate) fn string(out: &mut Pending, bytes: &[u8])
    requires most { length bytes.now ≤ 30 }
    requires room { array_vec_len out.old + 182 ≤ SIZE }
    ensures items { out.new.items ≡ out.old.items ++ string_text bytes.now }
    ensures len { array_vec_len out.new ≤ array_vec_len out.old + 182 }
{
    out.push(b'"');
    for byte in bytes {
        escaped(out, *byte);
    }
    out.push(b'"');
}
