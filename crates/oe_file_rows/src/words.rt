//! The texts of columns, each read whole.
ghost use Rattle.std.specs.Prelude.{◌≡◌, ◌==◌, ◌<◌, ◌*◌, ◌+◌, ◌^◌, IfSome, length};
ghost use Rattle.std.specs.List.{list_all};
ghost use Rattle.oe_decode.specs.ColumnFronts.{text_within};
ghost use Rattle.oe_lines.specs.Words.{stamp_of, within};
ghost use Rattle.oe_file_rows.specs.Word.{is_word, number_of, number_within, cents_of, money_of, debt_cents, credit_cents, balance_of, rate_of, credit_of, flag_of, is_no_fraction, parted_of, stamp_at, is_null};

use oe_rows::Credit;
use oe_values::fronts::{after, decimal, pair};
use oe_values::{Amount, Balance, Number, Rate, Stamp, Text};

/// Tells whether two texts are one.
#[tactic(auto, unfolding(crate::specs::Word::is_word))]
fn is_word(text: &[u8], word: &[u8]) -> bool
    ensures { result ≡ is_word text.now word.now }
{
    text == word
}

/// Reads a number without a leading zero.
#[inline]
#[tactic(auto, unfolding(crate::specs::Word::number_of))]
fn digits(field: &[u8]) -> Option<u64>
    ensures { result ≡ number_of field.now }
{
    let (n, rest) = decimal(field)?;
    if rest.is_empty() { Some(n) } else { None }
}

/// Makes a number of the range of its type.
#[inline]
pub(crate) fn ranged<const LOW: u32, const HIGH: u32>(n: u64) -> Option<Number<LOW, HIGH>>
    ensures { result ≡ within LOW HIGH n }
{
    Number::new(u32::try_from(n).ok()?)
}

/// Reads a number without a leading zero, in the range of its type.
#[inline]
pub(crate) fn number<const LOW: u32, const HIGH: u32>(field: &[u8]) -> Option<Number<LOW, HIGH>>
    ensures { result ≡ number_within LOW HIGH field.now }
{
    let n = digits(field)?;
    ranged(n)
}

/// Reads money in two decimals, as cents.
#[inline]
#[tactic(auto, unfolding(crate::specs::Word::cents_of))]
fn cents(field: &[u8]) -> Option<u64>
    ensures value { result ≡ cents_of field.now }
    ensures small { IfSome result (λ n. n < 10 ^ 18) }
{
    let (whole, rest) = decimal(field)?;
    let (cents, rest) = pair(after(rest, b".")?)?;
    if rest.is_empty() {
        Some(whole * 100 + u64::from(cents))
    } else {
        None
    }
}

/// Reads money in two decimals, in the range of its type.
#[inline]
pub(crate) fn money<const MOST: u64>(field: &[u8]) -> Option<Amount<MOST>>
    ensures { result ≡ money_of MOST field.now }
{
    let cents = cents(field)?;
    Amount::new(cents)
}

/// Makes a balance that is not negative.
#[inline]
fn owned(cents: u64) -> Option<Balance>
    requires { cents < 10 ^ 18 }
    ensures { result ≡ credit_cents cents }
{
    Balance::new(cents as i64)
}

/// Makes a balance that is negative.
#[inline]
fn owed(cents: u64) -> Option<Balance>
    requires { cents < 10 ^ 18 }
    ensures { result ≡ debt_cents cents }
{
    if cents == 0 {
        return None;
    }
    Balance::new(-(cents as i64))
}

/// Reads a balance.
#[inline]
#[tactic(auto, unfolding(crate::specs::Word::balance_of))]
pub(crate) fn balance(field: &[u8]) -> Option<Balance>
    ensures { result ≡ balance_of field.now }
{
    match after(field, b"-") {
        Some(rest) => owed(cents(rest)?),
        None => owned(cents(field)?),
    }
}

/// Reads a rate below 1 in four decimals.
#[inline]
#[tactic(auto, unfolding(crate::specs::Word::rate_of))]
pub(crate) fn rate(field: &[u8]) -> Option<Rate>
    ensures { result ≡ rate_of field.now }
{
    let (high, rest) = pair(after(field, b"0.")?)?;
    let (low, rest) = pair(rest)?;
    if rest.is_empty() {
        Number::new(u32::from(high) * 100 + u32::from(low))
    } else {
        None
    }
}

/// Reads a text, of a length in the range of its type.
#[inline]
pub(crate) fn text<const LEAST: usize, const MOST: usize>(field: &[u8]) -> Option<Text<LEAST, MOST>>
    ensures { result ≡ text_within LEAST MOST field.now }
{
    Text::read_bytes(field)
}

/// Reads a credit.
#[inline]
#[tactic(auto, unfolding(crate::specs::Word::credit_of))]
pub(crate) fn credit(field: &[u8]) -> Option<Credit>
    ensures { result ≡ credit_of field.now }
{
    if is_word(field, b"GC") {
        Some(Credit::Good)
    } else if is_word(field, b"BC") {
        Some(Credit::Bad)
    } else {
        None
    }
}

/// Reads `1` or `0`.
#[inline]
#[tactic(auto, unfolding(crate::specs::Word::flag_of))]
pub(crate) fn flag(field: &[u8]) -> Option<bool>
    ensures { result ≡ flag_of field.now }
{
    if is_word(field, b"1") {
        Some(true)
    } else if is_word(field, b"0") {
        Some(false)
    } else {
        None
    }
}

/// Tells whether the text has zeros alone.
#[inline]
fn is_zeros(text: &[u8]) -> bool
    ensures { result ≡ list_all (λ d. d == 48) text.now }
{
    text.iter().all(|&b| b == b'0')
}

/// Tells whether the text is empty, or a point and one or more zeros.
#[inline]
fn is_no_fraction(text: &[u8]) -> bool
    ensures { result ≡ is_no_fraction text.now }
{
    let [point, first, zeros @ ..] = text else {
        return text.is_empty();
    };
    *point == b'.' && *first == b'0' && is_zeros(zeros)
}

/// Reads a stamp with T between date and time.
#[inline]
fn stamp_text(text: &[u8]) -> Option<Stamp>
    ensures { result ≡ stamp_of text.now }
{
    Stamp::read_bytes(text)
}

/// Reads a stamp of 19 bytes, with T or a blank between date and time.
#[inline]
#[tactic(auto, unfolding(crate::specs::Word::parted_of))]
fn parted(text: &[u8]) -> Option<Stamp>
    requires { length text.now ≡ 19 }
    ensures { result ≡ parted_of text.now }
{
    if text[10] != b' ' {
        return stamp_text(text);
    }
    let mut with_mark = [0u8; 19];
    with_mark.copy_from_slice(text);
    with_mark[10] = b'T';
    stamp_text(&with_mark)
}

/// Reads a stamp, and perhaps a fraction of zeros behind it.
#[inline]
#[tactic(auto, unfolding(crate::specs::Word::stamp_at))]
pub(crate) fn stamp(field: &[u8]) -> Option<Stamp>
    ensures { result ≡ stamp_at field.now }
{
    if field.len() < 19 {
        return None;
    }
    let (front, fraction) = field.split_at(19);
    if is_no_fraction(fraction) {
        parted(front)
    } else {
        None
    }
}

/// Tells whether the text stands for null.
#[inline]
#[tactic(auto, unfolding(crate::specs::Word::is_null))]
pub(crate) fn is_null(field: &[u8]) -> bool
    ensures { result ≡ is_null field.now }
{
    is_word(field, b"-") || is_word(field, b"\\N")
}
