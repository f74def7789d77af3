//! The words of a line, which single blanks part.
ghost use Rattle.std.specs.Prelude.{Some, ◌≡◌, ◌≤◌, ◌+◌, length, position, option_map, IfSome, ◌==◌};
ghost use Rattle.oe_reasons.specs.Columns.{behind, first_word, text_from, word_at, words_in};

/// Tells where the first blank stands.
fn first_blank(text: &[u8]) -> Option<usize>
    ensures { result ≡ position (λ b. b == 32) text.now }
{
    text.iter().position(|b| *b == b' ')
}

/// Gives the bytes before the first blank.
pub(crate) fn first_word(line: &[u8]) -> &[u8]
    ensures value { result.now ≡ first_word line.now }
    ensures short { length result.now ≤ length line.now }
{
    match first_blank(line) {
        Some(length) => line.split_at(length).0,
        None => line,
    }
}

/// Gives what stands behind the first blank.
fn behind(line: &[u8]) -> Option<&[u8]>
    ensures value { option_map (λ r. r.now) result ≡ behind line.now }
    ensures short { IfSome result (λ r. length r.now ≤ length line.now) }
{
    match first_blank(line) {
        Some(length) => Some(&line[length + 1..]),
        None => None,
    }
}

/// Gives what stands behind that many blanks.
fn text_from(line: &[u8], place: usize) -> Option<&[u8]>
    ensures value { option_map (λ r. r.now) result ≡ text_from line.now place }
    ensures short { IfSome result (λ r. length r.now ≤ length line.now) }
{
    let mut rest = line;
    for _ in 0..place {
        let Some(next) = behind(rest) else {
            return None;
        };
        rest = next;
    }
    Some(rest)
}

/// Gives a line's word at a place from 0 on.
pub(crate) fn word_at(line: &[u8], place: usize) -> Option<&[u8]>
    ensures value { option_map (λ r. r.now) result ≡ word_at line.now place }
    ensures short { IfSome result (λ r. length r.now ≤ length line.now) }
{
    match text_from(line, place) {
        Some(rest) => Some(first_word(rest)),
        None => None,
    }
}

/// Counts the words of a line; an empty line has one.
pub(crate) fn words_in(line: &[u8]) -> usize
    ensures { result ≡ words_in line.now }
{
    line.iter().filter(|b| **b == b' ').count() + 1
}
