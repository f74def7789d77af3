//! The bytes of a text, which lie in the value itself, with their number in two bytes.
//!
//! Zeros stand behind the bytes of a text, none of which is a zero. By the invariant two bytes keep
//! their number; of a text of 65,535 bytes or more, which no column has, 65,535 stands there, and
//! the first zero is looked for. Nothing can fail, and nothing takes memory.
ghost use Rattle.std.specs.Prelude.{◌≡◌, ◌≤◌, ◌==◌, ◌++◌, length, take, drop};
ghost use Rattle.std.specs.List.{All, position};
ghost use Rattle.oe_values.specs.Held.{zeros_from, in_two_bytes};
ghost use Rattle.oe_values.specs.Text.{IsPrintable};

use std::marker::Model;

/// At most `MOST` bytes.
#[derive(Drop)]
pub(crate) struct Held<const MOST: usize> {
    length: u16,
    bytes: [u8; MOST],
}

impl<const MOST: usize> Model for Held<MOST> {
    ghost use Rattle.std.specs.Prelude.{◌≡◌, ℕ, List, take};
    ghost use Rattle.oe_values.specs.Held.{zeros_from, in_two_bytes};

    ghost Value = { List ℕ };

    ghost view = { λ h. take (zeros_from h.bytes) h.bytes };

    ghost invariant = { λ h. h.length ≡ in_two_bytes (zeros_from h.bytes) };
}

/// Gives a number in two bytes: 65,535 where it is no less.
#[inline]
fn in_two_bytes(number: usize) -> u16
    ensures { result ≡ in_two_bytes number }
{
    if number >= 65_535 {
        return u16::MAX;
    }
    number as u16
}

/// Writes bytes over the first ones of others.
#[inline]
pub(crate) fn put(held: &mut [u8], bytes: &[u8])
    requires { length bytes.now ≤ length held.old }
    ensures { held.new ≡ bytes.now ++ drop (length bytes.now) held.old }
{
    held[..bytes.len()].copy_from_slice(bytes);
}

/// Writes bytes over the first ones of a whole, and behind them the front of others, as much as
/// there is room for. Tells where they end.
pub(crate) fn join(whole: &mut [u8], first: &[u8], rest: &[u8]) -> usize
    requires { length first.now ≤ length whole.old }
    ensures joined { take result whole.new ≡ take (length whole.old) (first.now ++ rest.now) }
    ensures within { result ≤ length whole.new }
{
    let start = first.len();
    let kept = rest.len().min(whole.len() - start);
    put(whole, first);
    whole[start..start + kept].copy_from_slice(&rest[..kept]);
    start + kept
}

/// Writes three parts, one behind another, over the first bytes of others. Tells where they end.
#[inline]
fn put_parts(held: &mut [u8], first: &[u8], between: &[u8], last: &[u8]) -> usize
    requires { length (first.now ++ between.now ++ last.now) ≤ length held.old }
    ensures end { result ≡ length (first.now ++ between.now ++ last.now) }
    ensures after { held.new ≡ (first.now ++ between.now ++ last.now) ++ drop result held.old }
{
    let middle = first.len();
    let behind = middle + between.len();
    let end = behind + last.len();
    // From the last part on, so that no zeros are written a second time.
    let (front, back) = held.split_at_mut(behind);
    put(back, last);
    let (start, rest) = front.split_at_mut(middle);
    put(rest, between);
    put(start, first);
    end
}

/// Tells where the first zero stands.
fn first_zero(bytes: &[u8]) -> Option<usize>
    ensures { result ≡ position (λ b. b == 0) bytes.now }
{
    bytes.iter().position(|byte| *byte == 0)
}

/// Tells where the zeros begin, by looking for the first.
#[inline(never)]
pub(crate) fn zeros_from(bytes: &[u8]) -> usize
    ensures { result ≡ zeros_from bytes.now }
{
    match first_zero(bytes) {
        Some(at) => at,
        None => bytes.len(),
    }
}

/// Tells where the zeros begin, by the number in two bytes.
#[inline(never)]
fn end_of(length: u16, bytes: &[u8]) -> usize
    requires { length ≡ in_two_bytes (zeros_from bytes.now) }
    ensures { result ≡ zeros_from bytes.now }
{
    if length == u16::MAX {
        return zeros_from(bytes);
    }
    length as usize
}

impl<const MOST: usize> Held<MOST> {
    /// Holds these bytes, which fit and are printable.
    #[inline]
    pub(crate) fn of(bytes: &[u8]) -> Self
        requires fits { length bytes.now ≤ MOST }
        requires printable { All IsPrintable bytes.now }
        ensures { result ≡ bytes.now }
    {
        let mut held = [0; MOST];
        put(&mut held, bytes);
        Held {
            length: in_two_bytes(bytes.len()),
            bytes: held,
        }
    }

    /// Holds three parts, one behind another, which fit and are printable.
    #[inline]
    pub(crate) fn of_parts(first: &[u8], between: &[u8], last: &[u8]) -> Self
        requires fits { length (first.now ++ between.now ++ last.now) ≤ MOST }
        requires printable { All IsPrintable (first.now ++ between.now ++ last.now) }
        ensures { result ≡ first.now ++ between.now ++ last.now }
    {
        let mut held = [0; MOST];
        let end = put_parts(&mut held, first, between, last);
        Held {
            length: in_two_bytes(end),
            bytes: held,
        }
    }

    /// Gives the bytes.
    #[inline(always)]
    #[tactic(auto, using(crate::proofs::HeldFacts::few_within))]
    pub(crate) fn as_slice(&self) -> &[u8]
        ensures { result.now ≡ self.now }
    {
        // No column is so long that its number has no room in two bytes.
        if MOST < 65_535 {
            return &self.bytes[..self.length as usize];
        }
        let end = end_of(self.length, &self.bytes);
        &self.bytes[..end]
    }

    /// Gives the bytes, where there are `MOST`.
    #[inline(always)]
    #[tactic(auto, using(crate::proofs::HeldFacts::all_held))]
    pub(crate) fn whole(&self) -> &[u8]
        requires { length self.now ≡ MOST }
        ensures { result.now ≡ self.now }
    {
        let all: &[u8] = &self.bytes;
        all
    }

    /// Copies the value, and takes no memory.
    #[inline]
    pub(crate) fn copied(&self) -> Self
        ensures { result ≡ self.now }
    {
        Held {
            length: self.length,
            bytes: self.bytes,
        }
    }
}
