//! Numbers and amounts of money, as databases print them.
//!
//! Digits may begin with zeros. A point with decimals may stand behind them: a whole number's are
//! zeros, an amount's are zeros from the third on. A sign is a minus, where one may stand. A number
//! that is too large is no value, and nothing else can fail.
ghost use Rattle.std.specs.Prelude.{◌≡◌, ◌≤◌, ◌<◌, ◌+◌, ◌-◌, ◌*◌, ◌^◌, ◌==◌, IfSome, codes};
ghost use Rattle.std.specs.List.{list_all};
ghost use Rattle.std.specs.Option.{option_map};
ghost use Rattle.oe_fields.specs.Spelling.{digits_from, more_of, begins_with_digit, decimals_of, whole_of, hundredths_of, two_decimals_of, cents_of, within_most, sign_of, signed_of, number_of, quantity_of, amount_of};

use crate::words::is_word;

/// The greatest amount and the greatest quantity, either side of 0: 10^15.
const MOST: u64 = 1_000_000_000_000_000;

/// Below this number one digit more makes no number above 64 bits.
const SAFE: u64 = 1_844_674_407_370_955_100;

/// Gives the number behind one digit more, where 64 bits hold it.
#[inline]
#[tactic(auto, unfolding(crate::specs::Spelling::more_of), using(crate::proofs::DigitFacts::more_small))]
fn more(n: u64, digit: u8) -> Option<u64>
    requires { 48 ≤ digit }
    ensures { result ≡ more_of n digit }
{
    if n < SAFE {
        return Some(n * 10 + u64::from(digit - b'0'));
    }
    n.checked_mul(10)?.checked_add(u64::from(digit - b'0'))
}

/// Gives the number that the digits at the front spell behind those of `start`, and what follows
/// them.
#[inline]
fn digits_from(start: u64, text: &[u8]) -> Option<(u64, &[u8])>
    ensures { option_map (λ p. (p.0, p.1.now)) result ≡ digits_from start text.now }
{
    let mut n = start;
    for (i, b) in text.iter().enumerate() {
        if *b < b'0' || *b > b'9' {
            return Some((n, &text[i..]));
        }
        match more(n, *b) {
            Some(next) => n = next,
            None => return None,
        }
    }
    Some((n, &text[text.len()..]))
}

/// Gives the number that the digits at the front spell, and what follows them.
#[inline]
#[tactic(auto, using(crate::proofs::DigitFacts::whole_is))]
pub(crate) fn whole(text: &[u8]) -> Option<(u64, &[u8])>
    ensures { option_map (λ p. (p.0, p.1.now)) result ≡ whole_of text.now }
{
    digits_from(0, text)
}

/// Gives the decimals, where nothing but a point and decimals is left.
#[inline]
fn decimals(rest: &[u8]) -> Option<&[u8]>
    ensures { option_map (λ d. d.now) result ≡ decimals_of rest.now }
{
    let [point, decimals @ ..] = rest else {
        return Some(rest);
    };
    if *point == b'.' { Some(decimals) } else { None }
}

/// Tells whether the text has zeros alone.
#[inline]
fn are_zeros(text: &[u8]) -> bool
    ensures { result ≡ list_all (λ d. d == 48) text.now }
{
    text.iter().all(|&b| b == b'0')
}

/// Reads the hundredths that decimals spell.
#[inline]
fn hundredths(decimals: &[u8]) -> Option<u64>
    ensures value { result ≡ hundredths_of decimals.now }
    ensures small { IfSome result (λ h. h < 100) }
{
    match decimals {
        [] => Some(0),
        [tens] if tens.is_ascii_digit() => Some(u64::from(*tens - b'0') * 10),
        [tens, ones, rest @ ..]
            if tens.is_ascii_digit() && ones.is_ascii_digit() && are_zeros(rest) => {
            Some(u64::from(*tens - b'0') * 10 + u64::from(*ones - b'0'))
        }
        _ => None,
    }
}

/// Reads a point and two decimals at the front: gives their hundredths, and what follows them.
#[inline]
pub(crate) fn two_decimals(text: &[u8]) -> Option<(u64, &[u8])>
    ensures value { option_map (λ p. (p.0, p.1.now)) result ≡ two_decimals_of text.now }
    ensures small { IfSome result (λ p. p.0 < 100) }
{
    match text {
        [point, tens, ones, rest @ ..]
            if *point == b'.' && tens.is_ascii_digit() && ones.is_ascii_digit() => {
            Some((u64::from(*tens - b'0') * 10 + u64::from(*ones - b'0'), rest))
        }
        _ => None,
    }
}

/// Tells whether a text begins with a digit.
#[inline]
fn begins_with_digit(text: &[u8]) -> bool
    ensures { result ≡ begins_with_digit text.now }
{
    match text {
        [first, ..] => first.is_ascii_digit(),
        [] => false,
    }
}

/// Reads a whole number without a sign, of up to 64 bits.
#[inline]
#[tactic(auto, unfolding(crate::specs::Spelling::number_of))]
pub fn number(field: &[u8]) -> Option<u64>
    ensures { result ≡ number_of field.now }
{
    if !begins_with_digit(field) {
        return None;
    }
    let (n, rest) = whole(field)?;
    let decimals = decimals(rest)?;
    if are_zeros(decimals) { Some(n) } else { None }
}

/// Gives a whole and hundredths in hundredths, up to 10^15.
#[inline]
pub(crate) fn within_most(whole: u64, hundredths: u64) -> Option<u64>
    requires { hundredths < 100 }
    ensures value { result ≡ within_most (whole * 100 + hundredths) }
    ensures small { IfSome result (λ n. n ≤ 10 ^ 15) }
{
    if whole > MOST / 100 {
        return None;
    }
    let n = whole * 100 + hundredths;
    if n <= MOST { Some(n) } else { None }
}

/// Reads an amount without a sign, in cents.
#[inline]
#[tactic(auto, unfolding(crate::specs::Spelling::cents_of))]
fn cents(field: &[u8]) -> Option<u64>
    ensures value { result ≡ cents_of field.now }
    ensures small { IfSome result (λ n. n ≤ 10 ^ 15) }
{
    if field.is_empty() || is_word(field, b".") {
        return None;
    }
    let (n, rest) = whole(field)?;
    let decimals = decimals(rest)?;
    let hundredths = hundredths(decimals)?;
    within_most(n, hundredths)
}

/// Parts a minus sign from what follows it.
#[inline]
fn sign(field: &[u8]) -> (bool, &[u8])
    ensures { (result.0, result.1.now) ≡ sign_of field.now }
{
    match field {
        [b'-', rest @ ..] => (true, rest),
        _ => (false, field),
    }
}

/// Gives a number its sign.
#[inline]
pub(crate) fn signed(minus: bool, n: u64) -> i64
    requires { n ≤ 10 ^ 15 }
    ensures { result ≡ signed_of minus n }
{
    let n = n as i64;
    if minus { -n } else { n }
}

/// Reads a whole number that may have a minus sign, within 10^15 either side.
#[inline]
#[tactic(auto, unfolding(crate::specs::Spelling::quantity_of))]
pub fn quantity(field: &[u8]) -> Option<i64>
    ensures { result ≡ quantity_of field.now }
{
    let (minus, rest) = sign(field);
    let n = number(rest)?;
    if n <= MOST {
        Some(signed(minus, n))
    } else {
        None
    }
}

/// Reads an amount of money that may have a minus sign, in cents, within 10^15 either side.
#[inline]
#[tactic(auto, unfolding(crate::specs::Spelling::amount_of))]
pub fn amount(field: &[u8]) -> Option<i64>
    ensures { result ≡ amount_of field.now }
{
    let (minus, rest) = sign(field);
    let n = cents(rest)?;
    Some(signed(minus, n))
}
