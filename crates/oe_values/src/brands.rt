//! The texts of items and of stocks. Each says with itself whether `ORIGINAL` stands in it: by the
//! invariant that follows the text, which is looked through once, where the value is made. Nothing
//! takes memory, and nothing can fail.
ghost use Rattle.std.specs.Prelude.{◌≡◌, ◌<◌, nat_eq, codes, length, drop};
ghost use Rattle.std.specs.Cmp.{partial_equiv_from_equiv};
ghost use Rattle.std.specs.Cmp.Lexicographic.{pointwise, nat_list_eq_equiv};
ghost use Rattle.oe_values.specs.Text.{IsText, begins_with, occurs_in};

use crate::texts::Text;
use std::marker::Model;

/// A text of up to 50 printable ASCII bytes, as I_DATA and S_DATA are (clause 1.3.1).
#[derive(Drop)]
pub struct BrandText {
    text: Text<0, 50>,
    // Whether `ORIGINAL` stands in it.
    is_original: bool,
}

impl Model for BrandText {
    ghost use Rattle.std.specs.Prelude.{ℕ, List, ◌≡◌, codes};
    ghost use Rattle.oe_values.specs.Text.{occurs_in};

    ghost Value = { List ℕ };

    ghost view = { λ b. b.text };

    ghost invariant = { λ b. b.is_original ≡ occurs_in (codes "ORIGINAL") b.text };
}

/// Tells whether a text begins with `ORIGINAL`.
#[inline(always)]
fn begins_original(text: &[u8]) -> bool
    ensures { result ≡ begins_with (codes "ORIGINAL") text.now }
{
    matches!(text, [b'O', b'R', b'I', b'G', b'I', b'N', b'A', b'L', ..])
}

/// Tells whether `ORIGINAL` stands at an offset of a text. Most offsets differ in the first letter.
#[inline(always)]
fn stands_at(text: &[u8], start: usize) -> bool
    requires { start < length text.now }
    ensures { result ≡ begins_with (codes "ORIGINAL") (drop start text.now) }
{
    text[start] == b'O' && begins_original(&text[start..])
}

/// Tells whether a text has `ORIGINAL` in it.
fn has_original(text: &str) -> bool
    ensures { result ≡ occurs_in (codes "ORIGINAL") text.now }
{
    let bytes = text.as_bytes();
    for start in 0..bytes.len() {
        if stands_at(bytes, start) {
            return true;
        }
    }
    false
}

impl BrandText {
    /// Makes the value of a text.
    pub fn of(text: Text<0, 50>) -> Self
        ensures { result ≡ text }
    {
        let is_original = has_original(text.as_str());
        BrandText { text, is_original }
    }

    /// Gives the text.
    #[inline(always)]
    pub fn as_text(&self) -> &Text<0, 50>
        ensures { result.now ≡ self.now }
    {
        &self.text
    }

    /// Gives the text as a string.
    #[inline]
    pub fn as_str(&self) -> &str
        ensures value { result.now ≡ self.now }
        ensures fits { IsText 0 50 self.now }
    {
        self.text.as_str()
    }

    /// Tells whether `ORIGINAL` stands in the text (clause 2.4.2.2).
    #[inline(always)]
    pub fn is_original(&self) -> bool
        ensures { result ≡ occurs_in (codes "ORIGINAL") self.now }
    {
        self.is_original
    }

    /// Copies the value, and takes no memory.
    pub fn copied(&self) -> Self
        ensures { result ≡ self.now }
    {
        BrandText {
            text: self.text.copied(),
            is_original: self.is_original,
        }
    }
}

impl PartialEq for BrandText {
    ghost eq = { λ s t. pointwise nat_eq s t };

    ghost laws = { partial_equiv_from_equiv nat_list_eq_equiv };

    fn eq(&self, other: &Self) -> bool {
        self.text == other.text
    }
}

impl Eq for BrandText {
    ghost laws = { nat_list_eq_equiv };
}
