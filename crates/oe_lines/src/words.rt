//! Words of a line, each with what follows it: numbers, money, stamps and names.
ghost use Rattle.std.specs.Prelude.{◌≡◌, ◌==◌, position};
ghost use Rattle.std.specs.Option.{option_map};
ghost use Rattle.oe_lines.specs.Words.{is_word, within, number_of, number_then, number_before, last_number, amount_before, stamp_of, stamp_before, last_name_of, first_name_of, name_before};

use oe_values::fronts::{after, decimal, pair};
use oe_values::texts::{FirstName, LastName};
use oe_values::{Number, Stamp, Text};

/// Tells whether two texts are one.
#[tactic(auto, unfolding(crate::specs::Words::is_word))]
pub(crate) fn is_word(text: &[u8], word: &[u8]) -> bool
    ensures { result ≡ is_word text.now word.now }
{
    text == word
}

/// Gives `n` as a number, where it is in the range of its type.
#[inline]
fn in_range<const LOW: u32, const HIGH: u32>(n: u64) -> Option<Number<LOW, HIGH>>
    ensures { result ≡ within LOW HIGH n }
{
    Number::new(u32::try_from(n).ok()?)
}

/// Reads a number without a leading zero, in the range of its type, and what follows it.
#[inline]
#[tactic(auto, unfolding(crate::specs::Words::number_of))]
pub(crate) fn number<const LOW: u32, const HIGH: u32>(
    text: &[u8],
) -> Option<(Number<LOW, HIGH>, &[u8])>
    ensures { option_map (λ p. (p.0, p.1.now)) result ≡ number_of LOW HIGH text.now }
{
    let (n, rest) = decimal(text)?;
    let number = in_range(n)?;
    Some((number, rest))
}

/// Reads such a number before that byte, and what follows the byte.
#[inline]
#[tactic(auto, unfolding(crate::specs::Words::number_then))]
pub(crate) fn number_then<const LOW: u32, const HIGH: u32>(
    text: &[u8],
    mark: u8,
) -> Option<(Number<LOW, HIGH>, &[u8])>
    ensures { option_map (λ p. (p.0, p.1.now)) result ≡ number_then mark LOW HIGH text.now }
{
    let Some((number, rest)) = number(text) else {
        return None;
    };
    Some((number, after(rest, &[mark])?))
}

/// Reads such a number before a space, and what follows the space.
#[inline]
pub(crate) fn number_before<const LOW: u32, const HIGH: u32>(
    text: &[u8],
) -> Option<(Number<LOW, HIGH>, &[u8])>
    ensures { option_map (λ p. (p.0, p.1.now)) result ≡ number_before LOW HIGH text.now }
{
    number_then(text, b' ')
}

/// Reads such a number at the line's end.
#[inline]
#[tactic(auto, unfolding(crate::specs::Words::last_number))]
pub(crate) fn last_number<const LOW: u32, const HIGH: u32>(text: &[u8]) -> Option<Number<LOW, HIGH>>
    ensures { result ≡ last_number LOW HIGH text.now }
{
    let Some((number, rest)) = number(text) else {
        return None;
    };
    if rest.is_empty() { Some(number) } else { None }
}

/// Reads money with two decimals before a space, in cents in the range of its type, and what
/// follows the space.
#[inline]
#[tactic(auto, unfolding(crate::specs::Words::amount_before))]
pub(crate) fn amount_before<const LOW: u32, const HIGH: u32>(
    text: &[u8],
) -> Option<(Number<LOW, HIGH>, &[u8])>
    ensures { option_map (λ p. (p.0, p.1.now)) result ≡ amount_before LOW HIGH text.now }
{
    let (whole, rest) = decimal(text)?;
    let (cents, rest) = pair(after(rest, b".")?)?;
    let amount = in_range(whole * 100 + u64::from(cents))?;
    Some((amount, after(rest, b" ")?))
}

/// Reads a stamp at the line's end.
#[inline(always)]
pub(crate) fn stamp(text: &[u8]) -> Option<Stamp>
    ensures { result ≡ stamp_of text.now }
{
    if text.len() != 19 {
        return None;
    }
    Stamp::read_bytes(text)
}

/// Reads a stamp before a space, and what follows the space.
#[inline]
#[tactic(auto, unfolding(crate::specs::Words::stamp_before))]
pub(crate) fn stamp_before(text: &[u8]) -> Option<(Stamp, &[u8])>
    ensures { option_map (λ p. (p.0, p.1.now)) result ≡ stamp_before text.now }
{
    if text.len() < 19 {
        return None;
    }
    let (front, rest) = text.split_at(19);
    let stamp = stamp(front)?;
    Some((stamp, after(rest, b" ")?))
}

/// Reads a last name of 1 to 16 letters from A to Z.
pub(crate) fn last_name(text: &[u8]) -> Option<LastName>
    ensures { result ≡ last_name_of text.now }
{
    let Some(word) = Text::<1, 16>::read_bytes(text) else {
        return None;
    };
    LastName::read(word.as_str())
}

/// Reads a first name of 1 to 16 letters from A to Z or digits.
pub(crate) fn first_name(text: &[u8]) -> Option<FirstName>
    ensures { result ≡ first_name_of text.now }
{
    let Some(word) = Text::<1, 16>::read_bytes(text) else {
        return None;
    };
    FirstName::read(word.as_str())
}

/// Tells where the first space stands.
fn first_space(text: &[u8]) -> Option<usize>
    ensures { result ≡ position (λ b. b == 32) text.now }
{
    text.iter().position(|b| *b == b' ')
}

/// Reads a last name before a space, and what follows the space.
#[tactic(auto, unfolding(crate::specs::Words::name_before))]
pub(crate) fn name_before(text: &[u8]) -> Option<(LastName, &[u8])>
    ensures { option_map (λ p. (p.0, p.1.now)) result ≡ name_before text.now }
{
    let length = first_space(text)?;
    let (word, rest) = text.split_at(length);
    let Some(name) = last_name(word) else {
        return None;
    };
    Some((name, after(rest, b" ")?))
}
