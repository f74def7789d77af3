//! The text of a line, and what it says where it is no row.
ghost use Rattle.std.specs.Prelude.{◌≡◌, false, None};
ghost use Rattle.std.specs.Option.{option_map};
ghost use Rattle.oe_sources.specs.Text.{is_word, after_of, before_of, without_mark, without_return, text_of, is_end, counted_by, count_of};

use oe_fields::number;

/// Tells whether two texts are one.
#[inline]
#[tactic(auto, unfolding(crate::specs::Text::is_word))]
pub(crate) fn is_word(text: &[u8], word: &[u8]) -> bool
    ensures { result ≡ is_word text.now word.now }
{
    text == word
}

/// Gives what follows `front`, where the text begins with it.
#[inline]
#[tactic(auto, unfolding(crate::specs::Text::after_of))]
pub(crate) fn after<'a>(text: &'a [u8], front: &[u8]) -> Option<&'a [u8]>
    ensures { option_map (λ rest. rest.now) result ≡ after_of front.now text.now }
{
    if text.len() < front.len() {
        return None;
    }
    let (head, rest) = text.split_at(front.len());
    if is_word(head, front) {
        Some(rest)
    } else {
        None
    }
}

/// Gives what stands before `end`, where the text ends with it.
#[inline]
#[tactic(auto, unfolding(crate::specs::Text::before_of))]
pub(crate) fn before<'a>(text: &'a [u8], end: &[u8]) -> Option<&'a [u8]>
    ensures { option_map (λ rest. rest.now) result ≡ before_of end.now text.now }
{
    if text.len() < end.len() {
        return None;
    }
    let (rest, tail) = text.split_at(text.len() - end.len());
    if is_word(tail, end) { Some(rest) } else { None }
}

/// Gives a line without the byte order mark before it.
fn without_mark(line: &[u8]) -> &[u8]
    ensures { result.now ≡ without_mark line.now }
{
    match after(line, b"\xEF\xBB\xBF") {
        Some(rest) => rest,
        None => line,
    }
}

/// Gives a line without the carriage return at its end.
#[inline]
fn without_return(line: &[u8]) -> &[u8]
    ensures { result.now ≡ without_return line.now }
{
    if line.is_empty() || line[line.len() - 1] != b'\r' {
        return line;
    }
    &line[..line.len() - 1]
}

/// Gives the text of a line: without a carriage return at its end, and the first one without a byte
/// order mark.
#[inline]
#[tactic(auto, unfolding(crate::specs::Text::text_of))]
pub(crate) fn text_of(is_first: bool, line: &[u8]) -> &[u8]
    ensures { result.now ≡ text_of is_first line.now }
{
    if is_first {
        return without_return(without_mark(line));
    }
    without_return(line)
}

/// Tells whether a text ends the rows: `\.`.
#[inline]
#[tactic(auto, unfolding(crate::specs::Text::is_end))]
pub(crate) fn is_end(text: &[u8]) -> bool
    ensures { result ≡ is_end text.now }
{
    is_word(text, b"\\.")
}

/// Gives the number between these two texts.
fn counted_by(front: &[u8], end: &[u8], text: &[u8]) -> Option<u64>
    ensures { result ≡ counted_by front.now end.now text.now }
{
    let rest = after(text, front)?;
    let rest = before(rest, end)?;
    number(rest)
}

/// Tells whether a text may say how many rows there are, by its first byte.
#[inline]
fn may_count(text: &[u8]) -> bool
    ensures { result ≡ false → count_of text.now ≡ None }
{
    match text {
        [first, ..] => *first == b'r' || *first == b'(',
        [] => false,
    }
}

/// Reads how many rows there are: `rows N`, `(N rows)` or `(1 row)`.
#[inline]
pub(crate) fn said_count(text: &[u8]) -> Option<u64>
    ensures { result ≡ count_of text.now }
{
    if may_count(text) {
        return counted(text);
    }
    None
}

// Reads it where there may be one.
#[inline(never)]
#[tactic(auto, unfolding(crate::specs::Text::count_of))]
fn counted(text: &[u8]) -> Option<u64>
    ensures { result ≡ count_of text.now }
{
    if let Some(n) = counted_by(b"rows ", b"", text) {
        return Some(n);
    }
    if let Some(n) = counted_by(b"(", b" rows)", text) {
        return Some(n);
    }
    counted_by(b"(", b" row)", text)
}
