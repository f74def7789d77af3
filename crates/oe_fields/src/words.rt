//! Nulls and flags.
ghost use Rattle.std.specs.Prelude.{◌≡◌};
ghost use Rattle.oe_fields.specs.Spelling.{is_word, is_null, flag_of};

/// Tells whether two texts are one.
#[inline]
#[tactic(auto, unfolding(crate::specs::Spelling::is_word))]
pub(crate) fn is_word(text: &[u8], word: &[u8]) -> bool
    ensures { result ≡ is_word text.now word.now }
{
    text == word
}

/// Tells whether a field stands for null: it is empty, `-`, `\N` or `NULL`.
#[inline]
#[tactic(auto, unfolding(crate::specs::Spelling::is_null))]
pub fn is_null(field: &[u8]) -> bool
    ensures { result ≡ is_null field.now }
{
    field.is_empty() || is_word(field, b"-") || is_word(field, b"\\N") || is_word(field, b"NULL")
}

/// Reads a flag: `1`, `t` or `true` for yes, and `0`, `f` or `false` for no.
#[inline]
#[tactic(auto, unfolding(crate::specs::Spelling::flag_of))]
pub fn flag(field: &[u8]) -> Option<bool>
    ensures { result ≡ flag_of field.now }
{
    if is_word(field, b"1") || is_word(field, b"t") || is_word(field, b"true") {
        Some(true)
    } else if is_word(field, b"0") || is_word(field, b"f") || is_word(field, b"false") {
        Some(false)
    } else {
        None
    }
}
