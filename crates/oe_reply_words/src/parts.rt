//! Parts of texts between marks. Nothing here takes memory or can fail.
ghost use Rattle.std.specs.Prelude.{◌≡◌, ◌≤◌, ◌<◌, ◌+◌, ◌∷◌, length, None, IfSome, MatchOption, option_map, decimal};
ghost use Rattle.oe_reply_words.specs.Parts.{IsWithout, IsParted, is_same, parts_of, parts_behind, first_word, word_at};

use itoa::Buffer;
use memchr::memchr;

/// Parts bytes where a byte stands first: what is before it, and what is behind it.
pub fn parted_at(bytes: &[u8], mark: u8) -> Option<(&[u8], &[u8])>
    ensures { MatchOption result (IsWithout mark bytes.now)
        (λ p. IsParted mark bytes.now p.0.now p.1.now) }
{
    match memchr(mark, bytes) {
        Some(at) => Some((&bytes[..at], &bytes[at + 1..])),
        None => None,
    }
}

/// Tells whether two texts are one.
#[tactic(auto, unfolding(crate::specs::Parts::is_same))]
pub(crate) fn is_same(one: &[u8], other: &[u8]) -> bool
    ensures { result ≡ is_same one.now other.now }
{
    one == other
}

/// The first part of a text, and what is behind its mark, where there is one.
#[derive(Clone, Copy)]
pub(crate) struct Cut<'a> {
    pub(crate) part: &'a [u8],
    pub(crate) rest: Option<&'a [u8]>,
}

/// Cuts the first part off.
pub(crate) fn next_part<'a>(bytes: &'a [u8], mark: u8) -> Cut<'a>
    ensures parts { parts_of mark bytes.now
        ≡ result.part.now ∷ parts_behind mark (option_map (λ t. t.now) result.rest) }
    ensures shorter { IfSome result.rest (λ t. length t.now < length bytes.now) }
    ensures short { length result.part.now ≤ length bytes.now }
{
    match parted_at(bytes, mark) {
        Some((part, rest)) => Cut {
            part,
            rest: Some(rest),
        },
        None => Cut {
            part: bytes,
            rest: None,
        },
    }
}

/// Gives the first part of what is left, or nothing where nothing is.
pub(crate) fn first_of<'a>(rest: Option<&'a [u8]>, mark: u8) -> &'a [u8]
    ensures value { result.now ≡
        first_word (parts_behind mark (option_map (λ t. t.now) rest.entry)) }
    ensures short { IfSome rest.entry (λ t. length result.now ≤ length t.now) }
    ensures none { rest.entry ≡ None → length result.now ≡ 0 }
{
    match rest {
        Some(rest) => next_part(rest, mark).part,
        None => b"",
    }
}

/// Gives the part at a place from 0, or nothing where there is none.
pub(crate) fn part_at(bytes: &[u8], mark: u8, place: usize) -> &[u8]
    ensures { result.now ≡ word_at mark place bytes.now }
{
    let mut left = bytes;
    let mut behind = place;
    loop {
        let cut = next_part(left, mark);
        if behind == 0 {
            return cut.part;
        }
        let Some(rest) = cut.rest else {
            return b"";
        };
        left = rest;
        behind -= 1;
    }
}

/// Tells whether a word is that number in decimal.
pub(crate) fn is_number(word: &[u8], number: u32) -> bool
    ensures { result ≡ is_same word.now (decimal number) }
{
    let mut buffer = Buffer::new();
    is_same(word, buffer.format(number).as_bytes())
}
