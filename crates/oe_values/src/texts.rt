//! Texts of printable ASCII.
//!
//! A text lies in the value itself and is seen as its bytes, 32 to 126 each. By the invariants of
//! the types its length is in the range, and a name of a request has letters (and digits) alone.
//! `read` gives `None` exactly for other bytes. Nothing else can fail, and nothing takes memory.
ghost use Rattle.std.specs.Prelude.{◌≡◌, ◌↔◌, ◌≤◌, List, ℕ, length, IsTrue, IsSome, IfSome, nat_eq, take, ◌++◌};
ghost use Rattle.std.specs.List.{All};
ghost use Rattle.std.specs.Cmp.{partial_equiv_from_equiv};
ghost use Rattle.std.specs.Cmp.Lexicographic.{pointwise, nat_list_eq_equiv};
ghost use Rattle.std.specs.Cmp.Rules.{hashing};
ghost use Rattle.std.specs.Hash as fed;
ghost use Rattle.std.proofs.Common.{rules};
ghost use Rattle.oe_values.specs.Text.{IsText, IsPrintable, IsCapital, IsCapitalOrDigit, IsLastName, IsFirstName};

use crate::held::{Held, join, put, zeros_from};
use std::hash::{Hash, Hasher};
use std::marker::Model;
use std::str;

/// A text of `LEAST` to `MOST` printable ASCII bytes, which lie in the value itself.
#[derive(Drop)]
pub struct Text<const LEAST: usize, const MOST: usize> {
    held: Held<MOST>,
}

impl<const LEAST: usize, const MOST: usize> Model for Text<LEAST, MOST> {
    ghost Value = { List ℕ };

    ghost view = { λ t. t.held };

    ghost invariant = { λ t. IsText LEAST MOST t.held };
}

/// Tells whether every byte is printable ASCII.
fn is_printable(bytes: &[u8]) -> bool
    ensures { IsTrue result ↔ All IsPrintable bytes.now }
{
    bytes.iter().all(|&b| b >= 32 && b <= 126)
}

/// Gives printable bytes as a text, which is not tested.
#[inline]
fn ascii(bytes: &[u8]) -> &str
    requires { All IsPrintable bytes.now }
    ensures { result.now ≡ bytes.now }
{
    unsafe { str::from_utf8_unchecked(bytes) }
}

impl<const LEAST: usize, const MOST: usize> Text<LEAST, MOST> {
    /// Gives the text, where its bytes are printable and its length fits.
    pub fn read(text: &str) -> Option<Self>
        ensures variant { IsSome result ↔ IsText LEAST MOST text.now }
        ensures value { IfSome result (λ t. t ≡ text.now) }
    {
        Text::read_bytes(text.as_bytes())
    }

    /// Gives the text of these bytes, where they are printable and their number fits.
    pub fn read_bytes(bytes: &[u8]) -> Option<Self>
        ensures variant { IsSome result ↔ IsText LEAST MOST bytes.now }
        ensures value { IfSome result (λ t. t ≡ bytes.now) }
    {
        if bytes.len() < LEAST || bytes.len() > MOST || !is_printable(bytes) {
            return None;
        }
        Some(Text::of_printable(bytes))
    }

    /// Gives the text of these bytes, which are known to be printable and to fit: nothing is
    /// tested.
    #[inline]
    pub fn of_printable(bytes: &[u8]) -> Self
        requires { IsText LEAST MOST bytes.now }
        ensures { result ≡ bytes.now }
    {
        Text {
            held: Held::of(bytes),
        }
    }

    /// Gives a text, these bytes and another text, one behind another, which are known to be
    /// printable and to fit: nothing is tested.
    #[inline]
    pub fn joined<const FIRST: usize, const LAST: usize>(
        first: &Text<LEAST, FIRST>,
        between: &[u8],
        last: &Text<LEAST, LAST>,
    ) -> Self
        requires { IsText LEAST MOST (first.now ++ between.now ++ last.now) }
        ensures { result ≡ first.now ++ between.now ++ last.now }
    {
        let held = Held::of_parts(first.held.as_slice(), between, last.held.as_slice());
        Text { held }
    }

    /// Gives the text.
    #[inline(always)]
    pub fn as_str(&self) -> &str
        ensures value { result.now ≡ self.now }
        ensures fits { IsText LEAST MOST self.now }
    {
        // So that the compiler knows how long a fixed text is.
        if LEAST == MOST {
            return ascii(self.held.whole());
        }
        ascii(self.held.as_slice())
    }

    /// Puts this text before `rest`, and discards what passes `MOST` bytes.
    pub fn before<const REST: usize>(&self, rest: &Text<LEAST, REST>) -> Text<LEAST, REST>
        requires { MOST ≤ REST }
        ensures { result ≡ take REST (self.now ++ rest.now) }
    {
        let mut whole = [0; REST];
        let end = join(&mut whole, self.held.as_slice(), rest.held.as_slice());
        Text::of_printable(&whole[..end])
    }

    /// Copies the value, and takes no memory.
    pub fn copied(&self) -> Self
        ensures { result ≡ self.now }
    {
        Text {
            held: self.held.copied(),
        }
    }
}

impl<const LEAST: usize, const MOST: usize> PartialEq for Text<LEAST, MOST> {
    ghost eq = { λ s t. pointwise nat_eq s t };

    ghost laws = { partial_equiv_from_equiv nat_list_eq_equiv };

    fn eq(&self, other: &Self) -> bool {
        self.as_str() == other.as_str()
    }
}

impl<const LEAST: usize, const MOST: usize> Eq for Text<LEAST, MOST> {
    ghost laws = { nat_list_eq_equiv };
}

impl<const LEAST: usize, const MOST: usize> Text<LEAST, MOST> {
    /// Gives the same text, of any length up to `MOST`.
    pub fn of_any_length(&self) -> Text<0, MOST>
        ensures { result ≡ self.now }
    {
        let held = self.held.copied();
        Text { held }
    }
}

/// A text of at most 16 printable ASCII bytes, which is copied as a number is: C_LAST in the name
/// of a lock. No byte but zeros stands behind it, so that equal texts are the same value.
#[derive(Clone, Copy)]
pub struct ShortText {
    bytes: [u8; 16],
}

impl Model for ShortText {
    ghost use Rattle.std.specs.Prelude.{◌≡◌, ℕ, List, take};
    ghost use Rattle.std.proofs.Common.{sym};
    ghost use Rattle.oe_values.specs.Held.{zeros_from, with_zeros};
    ghost use Rattle.oe_values.specs.Text.{IsText};

    ghost Value = { List ℕ };

    ghost view = { λ t. take (zeros_from t.bytes) t.bytes };

    ghost invariant = { λ t. IsText 0 16 (take (zeros_from t.bytes) t.bytes)
        × (t.bytes ≡ with_zeros 16 (take (zeros_from t.bytes) t.bytes)) };

    ghost inverse = { λ t. record { bytes = with_zeros 16 t } };

    ghost inverse_ok = { λ t kept i. record { bytes = sym kept.1 i } };
}

impl ShortText {
    /// Gives the same text, to be copied.
    pub fn of(text: &Text<0, 16>) -> Self
        ensures { result ≡ text.now }
    {
        let mut bytes = [0; 16];
        put(&mut bytes, text.as_str().as_bytes());
        ShortText { bytes }
    }

    /// Gives the text.
    pub fn as_str(&self) -> &str
        ensures value { result.now ≡ self.now }
        ensures fits { IsText 0 16 self.now }
    {
        let end = zeros_from(&self.bytes);
        let bytes = &self.bytes[..end];
        ascii(bytes)
    }
}

impl PartialEq for ShortText {
    ghost eq = { λ s t. pointwise nat_eq s t };

    ghost laws = { partial_equiv_from_equiv nat_list_eq_equiv };

    // In no caller, so that names of locks without a text are compared where they are looked for.
    #[inline(never)]
    fn eq(&self, other: &Self) -> bool {
        let other = other.as_str();
        self.as_str() == other
    }
}

impl Eq for ShortText {
    ghost laws = { nat_list_eq_equiv };
}

impl Hash for ShortText {
    ghost hash_input = { fed.str };

    ghost respects_eq = { Prim.search (hashing, rules) };

    #[inline(never)]
    fn hash<H: Hasher>(&self, state: &mut H) {
        self.as_str().hash(state);
    }
}

/// Tells whether every byte is a letter from A to Z.
fn is_capitals(bytes: &[u8]) -> bool
    ensures { IsTrue result ↔ All IsCapital bytes.now }
{
    bytes.iter().all(|&b| b >= b'A' && b <= b'Z')
}

/// Tells whether every byte is a letter from A to Z or a digit.
fn is_capitals_or_digits(bytes: &[u8]) -> bool
    ensures { IsTrue result ↔ All IsCapitalOrDigit bytes.now }
{
    bytes
        .iter()
        .all(|&b| (b >= b'A' && b <= b'Z') || (b >= b'0' && b <= b'9'))
}

/// A last name as a request gives it: 1 to 16 letters from A to Z (clause 4.3.2.3).
#[derive(Drop)]
pub struct LastName {
    capitals: Text<1, 16>,
}

impl Model for LastName {
    ghost Value = { List ℕ };

    ghost view = { λ n. n.capitals };

    ghost invariant = { λ n. IsLastName n.capitals };
}

impl LastName {
    /// Gives the name, where it is one.
    pub fn read(text: &str) -> Option<Self>
        ensures variant { IsSome result ↔ IsLastName text.now }
        ensures value { IfSome result (λ n. n ≡ text.now) }
    {
        let name = Text::read(text)?;
        if !is_capitals(name.as_str().as_bytes()) {
            return None;
        }
        Some(LastName { capitals: name })
    }

    /// Gives the name.
    #[inline]
    pub fn as_str(&self) -> &str
        ensures value { result.now ≡ self.now }
        ensures fits { IsLastName self.now }
    {
        self.capitals.as_str()
    }

    /// Gives the name as C_LAST has it.
    pub fn as_text(&self) -> Text<0, 16>
        ensures { result ≡ self.now }
    {
        self.capitals.of_any_length()
    }

    /// Copies the value, and takes no memory.
    pub fn copied(&self) -> Self
        ensures { result ≡ self.now }
    {
        LastName {
            capitals: self.capitals.copied(),
        }
    }
}

/// A first name as a request gives it: 1 to 16 letters from A to Z or digits.
#[derive(Drop)]
pub struct FirstName {
    name: Text<1, 16>,
}

impl Model for FirstName {
    ghost Value = { List ℕ };

    ghost view = { λ n. n.name };

    ghost invariant = { λ n. IsFirstName n.name };
}

impl FirstName {
    /// Gives the name, where it is one.
    pub fn read(text: &str) -> Option<Self>
        ensures variant { IsSome result ↔ IsFirstName text.now }
        ensures value { IfSome result (λ n. n ≡ text.now) }
    {
        let name = Text::read(text)?;
        if !is_capitals_or_digits(name.as_str().as_bytes()) {
            return None;
        }
        Some(FirstName { name })
    }

    /// Gives the name.
    #[inline]
    pub fn as_str(&self) -> &str
        ensures value { result.now ≡ self.now }
        ensures fits { IsFirstName self.now }
    {
        self.name.as_str()
    }

    /// Gives the name as C_FIRST has it.
    pub fn as_text(&self) -> Text<0, 16>
        ensures { result ≡ self.now }
    {
        self.name.of_any_length()
    }

    /// Copies the value, and takes no memory.
    pub fn copied(&self) -> Self
        ensures { result ≡ self.now }
    {
        FirstName {
            name: self.name.copied(),
        }
    }
}

impl PartialEq for LastName {
    ghost eq = { λ s t. pointwise nat_eq s t };

    ghost laws = { partial_equiv_from_equiv nat_list_eq_equiv };

    fn eq(&self, other: &Self) -> bool {
        self.capitals == other.capitals
    }
}

impl Eq for LastName {
    ghost laws = { nat_list_eq_equiv };
}

impl PartialEq for FirstName {
    ghost eq = { λ s t. pointwise nat_eq s t };

    ghost laws = { partial_equiv_from_equiv nat_list_eq_equiv };

    fn eq(&self, other: &Self) -> bool {
        self.name == other.name
    }
}

impl Eq for FirstName {
    ghost laws = { nat_list_eq_equiv };
}
