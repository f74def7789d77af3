//! Columns: numbers, money, rates and stamps, also with the byte that ends them.
ghost use Rattle.std.specs.Prelude.{◌≡◌, ◌≤◌, ◌<◌, ◌+◌, ◌++◌, ◌∷◌, [], length, decimal};
ghost use Rattle.arrayvec.specs.ArrayVec.{array_vec_len};
ghost use Rattle.oe_values.specs.Stamp.{two_digits};
ghost use Rattle.oe_rows.specs.Credit.{money_text};
ghost use Rattle.oe_texts.specs.Column.{balance_text, rate_text, credit_text, flag_text, nullable};
ghost use Rattle.oe_texts.specs.Stamp.{stamp_text};

use crate::pending::{Pending, SIZE, text};
use oe_rows::Credit;
use oe_values::{Balance, Carrier, Rate, Stamp};

/// Appends two digits.
#[inline]
fn two(out: &mut Pending, n: u8)
    requires room { array_vec_len out.old + 2 ≤ SIZE }
    requires small { n < 100 }
    ensures items { out.new.items ≡ out.old.items ++ two_digits n }
    ensures len { array_vec_len out.new ≡ array_vec_len out.old + 2 }
{
    out.push(b'0' + n / 10);
    out.push(b'0' + n % 10);
}

/// Appends a number below 100.
#[inline]
fn below_hundred(out: &mut Pending, n: u8)
    requires room { array_vec_len out.old + length (decimal n) ≤ SIZE }
    requires small { n < 100 }
    ensures items { out.new.items ≡ out.old.items ++ decimal n }
    ensures len { array_vec_len out.new ≡ array_vec_len out.old + length (decimal n) }
{
    if n < 10 {
        out.push(b'0' + n);
    } else {
        two(out, n);
    }
}

/// Appends a number, two digits at a time from the left; up to four digits are written straight.
fn digits(out: &mut Pending, n: u64)
    requires { array_vec_len out.old + length (decimal n) ≤ SIZE }
    ensures items { out.new.items ≡ out.old.items ++ decimal n }
    ensures len { array_vec_len out.new ≡ array_vec_len out.old + length (decimal n) }
{
    if n < 100 {
        below_hundred(out, n as u8);
    } else if n < 10_000 {
        below_hundred(out, (n / 100) as u8);
        two(out, (n % 100) as u8);
    } else {
        digits(out, n / 100);
        two(out, (n % 100) as u8);
    }
}

/// Appends a number.
#[tactic(auto, using(crate::proofs::DigitFacts::length_of_u64))]
pub fn number(out: &mut Pending, n: u64)
    requires { array_vec_len out.old + 20 ≤ SIZE }
    ensures items { out.new.items ≡ out.old.items ++ decimal n }
    ensures len { array_vec_len out.new ≤ array_vec_len out.old + 20 }
{
    digits(out, n);
}

/// Appends a number of a column.
#[tactic(auto, using(crate::proofs::DigitFacts::length_of_u32))]
pub fn small(out: &mut Pending, n: u32)
    requires { array_vec_len out.old + 10 ≤ SIZE }
    ensures items { out.new.items ≡ out.old.items ++ decimal n }
    ensures len { array_vec_len out.new ≤ array_vec_len out.old + 10 }
{
    digits(out, u64::from(n));
}

/// Appends money with two decimals.
pub fn money(out: &mut Pending, cents: u64)
    requires { array_vec_len out.old + 23 ≤ SIZE }
    ensures items { out.new.items ≡ out.old.items ++ money_text cents }
    ensures len { array_vec_len out.new ≤ array_vec_len out.old + 23 }
{
    number(out, cents / 100);
    out.push(b'.');
    two(out, (cents % 100) as u8);
}

/// Appends money with two decimals, and a minus sign where it is negative.
pub fn balance(out: &mut Pending, balance: Balance)
    requires { array_vec_len out.old + 24 ≤ SIZE }
    ensures items { out.new.items ≡ out.old.items ++ balance_text balance }
    ensures len { array_vec_len out.new ≤ array_vec_len out.old + 24 }
{
    let cents = balance.cents();
    if cents < 0 {
        out.push(b'-');
    }
    money(out, cents.unsigned_abs());
}

/// Appends a rate with four decimals.
pub(crate) fn rate(out: &mut Pending, rate: Rate)
    requires { array_vec_len out.old + 6 ≤ SIZE }
    ensures items { out.new.items ≡ out.old.items ++ rate_text rate }
    ensures len { array_vec_len out.new ≡ array_vec_len out.old + 6 }
{
    let rate = rate.get();
    text(out, b"0.");
    two(out, (rate / 100) as u8);
    two(out, (rate % 100) as u8);
}

/// Appends a stamp as `YYYY-MM-DDTHH:MM:SS`.
pub(crate) fn stamp(out: &mut Pending, stamp: Stamp)
    requires { array_vec_len out.old + 19 ≤ SIZE }
    ensures items { out.new.items ≡ out.old.items ++ stamp_text stamp }
    ensures len { array_vec_len out.new ≡ array_vec_len out.old + 19 }
{
    text(out, &stamp.bytes());
}

/// Appends a stamp, or `-` for a null.
pub fn nullable_stamp(out: &mut Pending, date: Option<Stamp>)
    requires { array_vec_len out.old + 19 ≤ SIZE }
    ensures items { out.new.items ≡ out.old.items ++ nullable stamp_text date }
    ensures len { array_vec_len out.new ≤ array_vec_len out.old + 19 }
{
    match date {
        Some(date) => stamp(out, date),
        None => text(out, b"-"),
    }
}

/// Appends a carrier, or `-` for a null.
pub fn nullable_carrier(out: &mut Pending, carrier: Option<Carrier>)
    requires { array_vec_len out.old + 10 ≤ SIZE }
    ensures items { out.new.items ≡ out.old.items ++ nullable decimal carrier }
    ensures len { array_vec_len out.new ≤ array_vec_len out.old + 10 }
{
    match carrier {
        Some(carrier) => small(out, carrier.get()),
        None => out.push(b'-'),
    }
}

/// Appends `GC` or `BC`.
pub(crate) fn credit(out: &mut Pending, credit: Credit)
    requires { array_vec_len out.old + 2 ≤ SIZE }
    ensures items { out.new.items ≡ out.old.items ++ credit_text credit }
    ensures len { array_vec_len out.new ≡ array_vec_len out.old + 2 }
{
    match credit {
        Credit::Good => text(out, b"GC"),
        Credit::Bad => text(out, b"BC"),
    }
}

/// Appends `1` or `0`, and the byte after it.
pub(crate) fn flag_then(out: &mut Pending, flag: bool, end: u8)
    requires { array_vec_len out.old + 2 ≤ SIZE }
    ensures items { out.new.items ≡ out.old.items ++ (flag_text flag ++ end ∷ []) }
    ensures len { array_vec_len out.new ≡ array_vec_len out.old + 2 }
{
    out.push(if flag { b'1' } else { b'0' });
    out.push(end);
}

/// Appends a number and the byte after it.
pub(crate) fn small_then(out: &mut Pending, n: u32, end: u8)
    requires { array_vec_len out.old + 11 ≤ SIZE }
    ensures items { out.new.items ≡ out.old.items ++ (decimal n ++ end ∷ []) }
    ensures len { array_vec_len out.new ≤ array_vec_len out.old + 11 }
{
    small(out, n);
    out.push(end);
}

/// Appends a text and the byte after it.
pub(crate) fn text_then(out: &mut Pending, column: &str, end: u8)
    requires { array_vec_len out.old + length column.now + 1 ≤ SIZE }
    ensures items { out.new.items ≡ out.old.items ++ (column.now ++ end ∷ []) }
    ensures len { array_vec_len out.new ≡ array_vec_len out.old + length column.now + 1 }
{
    text(out, column.as_bytes());
    out.push(end);
}

/// Appends money and the byte after it.
pub(crate) fn money_then(out: &mut Pending, cents: u64, end: u8)
    requires { array_vec_len out.old + 24 ≤ SIZE }
    ensures items { out.new.items ≡ out.old.items ++ (money_text cents ++ end ∷ []) }
    ensures len { array_vec_len out.new ≤ array_vec_len out.old + 24 }
{
    money(out, cents);
    out.push(end);
}

/// Appends a balance and the byte after it.
pub(crate) fn balance_then(out: &mut Pending, cents: Balance, end: u8)
    requires { array_vec_len out.old + 25 ≤ SIZE }
    ensures items { out.new.items ≡ out.old.items ++ (balance_text cents ++ end ∷ []) }
    ensures len { array_vec_len out.new ≤ array_vec_len out.old + 25 }
{
    balance(out, cents);
    out.push(end);
}

/// Appends a rate and the byte after it.
pub(crate) fn rate_then(out: &mut Pending, column: Rate, end: u8)
    requires { array_vec_len out.old + 7 ≤ SIZE }
    ensures items { out.new.items ≡ out.old.items ++ (rate_text column ++ end ∷ []) }
    ensures len { array_vec_len out.new ≡ array_vec_len out.old + 7 }
{
    rate(out, column);
    out.push(end);
}

/// Appends a stamp and the byte after it.
pub(crate) fn stamp_then(out: &mut Pending, column: Stamp, end: u8)
    requires { array_vec_len out.old + 20 ≤ SIZE }
    ensures items { out.new.items ≡ out.old.items ++ (stamp_text column ++ end ∷ []) }
    ensures len { array_vec_len out.new ≡ array_vec_len out.old + 20 }
{
    stamp(out, column);
    out.push(end);
}

/// Appends a credit and the byte after it.
pub(crate) fn credit_then(out: &mut Pending, column: Credit, end: u8)
    requires { array_vec_len out.old + 3 ≤ SIZE }
    ensures items { out.new.items ≡ out.old.items ++ (credit_text column ++ end ∷ []) }
    ensures len { array_vec_len out.new ≡ array_vec_len out.old + 3 }
{
    credit(out, column);
    out.push(end);
}

/// Appends a stamp or `-`, and the byte after it.
pub(crate) fn nullable_stamp_then(out: &mut Pending, column: Option<Stamp>, end: u8)
    requires { array_vec_len out.old + 20 ≤ SIZE }
    ensures items { out.new.items ≡ out.old.items ++ (nullable stamp_text column ++ end ∷ []) }
    ensures len { array_vec_len out.new ≤ array_vec_len out.old + 20 }
{
    nullable_stamp(out, column);
    out.push(end);
}

/// Appends a carrier or `-`, and the byte after it.
pub(crate) fn nullable_carrier_then(out: &mut Pending, column: Option<Carrier>, end: u8)
    requires { array_vec_len out.old + 11 ≤ SIZE }
    ensures items { out.new.items ≡ out.old.items ++ (nullable decimal column ++ end ∷ []) }
    ensures len { array_vec_len out.new ≤ array_vec_len out.old + 11 }
{
    nullable_carrier(out, column);
    out.push(end);
}
