//! Why lines of a file have no form, by the reasons that a script's lines have. Nothing here takes
//! memory.
ghost use Rattle.std.specs.Prelude.{◌≡◌, ◌≤◌, ◌++◌, ◌+◌, ◌⊎◌, length, take};
ghost use Rattle.arrayvec.specs.ArrayVec.{array_vec_len};
ghost use Rattle.oe_file_serial.specs.declared.reasons.Behind.TheVariants as behind;
ghost use Rattle.oe_file_serial.specs.Files.{IsOpening, IsReadWhy, IsWordsWhy, IsWhy, front_text, is_open_behind};
ghost use Rattle.oe_file_serial.specs.BadTexts.{why_text, bad_line_text};

use crate::lines::{LINE, is_terminal, told};
use crate::origins::Opening;
use arrayvec::ArrayVec;
use oe_reasons::{Reason, tell, why};
use oe_reply_words::parted_at;
use oe_texts::{Pending, SIZE, decimal, text};

/// What words of a line are read behind.
#[derive(Clone, Copy)]
pub enum Behind {
    /// Nothing: they are the line.
    Nothing,
    /// `begin`.
    Begin,
    /// `next`: they are a terminal's number.
    Next,
    /// `read now`.
    ReadNow,
}

/// Why a line has no form.
#[derive(Clone, Copy, Default)]
pub enum Why<'a> {
    /// It has more than 1,024 bytes.
    Long,
    /// Nothing parts a request from its reply.
    NoReply,
    /// The reason is true of these words behind those.
    Of(Behind, &'a [u8], Reason),
    /// These words behind those ask for something else.
    NoRequest(Behind, &'a [u8]),
    /// It opens no undo ring.
    NoRing,
    /// It is the last, and has no end.
    #[default]
    Unended,
}

/// A line that has no form, by its number.
#[derive(Clone, Copy, Default)]
pub struct BadLine<'a> {
    pub number: u128,
    pub why: Why<'a>,
}

// Words behind others.
type Read = ArrayVec<u8, 1_033>;

// Gives what words are read behind.
fn front(behind: Behind) -> &'static [u8]
    ensures value { result.now ≡ front_text behind }
    ensures short { length result.now ≤ 9 }
{
    match behind {
        Behind::Nothing => b"",
        Behind::Begin => b"begin ",
        Behind::Next => b"next ",
        Behind::ReadNow => b"read now ",
    }
}

// Tells whether something is open where words are read.
fn is_open(behind: Behind) -> bool
    ensures { result ≡ is_open_behind behind }
{
    !matches!(behind, Behind::Nothing)
}

// Puts words behind others.
fn read(behind: Behind, words: &[u8]) -> Read
    requires { length words.now ≤ 1_024 }
    ensures items { result.items ≡ front_text behind ++ words.now }
    ensures len { array_vec_len result ≤ 1_033 }
{
    let mut line: Read = ArrayVec::new();
    line.try_extend_from_slice(front(behind)).unwrap();
    line.try_extend_from_slice(words).unwrap();
    line
}

// Gives the reason why words ask for nothing, read behind others.
fn why_read<'a>(behind: Behind, words: &'a [u8]) -> Why<'a>
    requires { length words.now ≤ 1_024 }
    ensures { IsReadWhy behind words.now result }
{
    let line = read(behind, words);
    match why(line.as_slice(), is_open(behind)) {
        Some(reason) => Why::Of(behind, words, reason),
        None => Why::NoRequest(behind, words),
    }
}

/// Gives the reason why the first line opens nothing of a kind.
pub(crate) fn why_opening<'a>(line: &'a [u8], opening: Opening) -> Why<'a>
    requires { IsOpening opening line.now → ⊥ }
    ensures { IsWhy line.now result }
{
    if line.len() > LINE {
        return Why::Long;
    }
    match opening {
        Opening::OfScale => why_read(Behind::Nothing, line),
        Opening::OfRing => Why::NoRing,
    }
}

// Tells whether words are those of a query, behind its terminal.
fn are_of_query(words: &[u8]) -> bool {
    words.starts_with(b"status") || words.starts_with(b"level")
}

// Gives the reason why words ask for no query.
fn why_query<'a>(word: &'a [u8], rest: &'a [u8]) -> Why<'a>
    requires word { length word.now ≤ 1_024 }
    requires rest { length rest.now ≤ 1_024 }
    ensures { IsReadWhy behind.Next word.now result ⊎ IsReadWhy behind.ReadNow rest.now result }
{
    if is_terminal(word) {
        return why_read(Behind::ReadNow, rest);
    }
    why_read(Behind::Next, word)
}

// Gives the reason why words ask for nothing.
fn why_words<'a>(words: &'a [u8]) -> Why<'a>
    requires { length words.now ≤ 1_024 }
    ensures { IsWordsWhy words.now result }
{
    if let Some((word, rest)) = parted_at(words, b' ') {
        if are_of_query(rest) {
            return why_query(word, rest);
        }
    }
    why_read(Behind::Begin, words)
}

/// Gives the reason why a line behind the first tells of no reply.
pub(crate) fn why_line<'a>(line: &'a [u8]) -> Why<'a>
    ensures { IsWhy line.now result }
{
    if line.len() > LINE {
        return Why::Long;
    }
    match told(line) {
        Some((words, _)) => why_words(words),
        None => Why::NoReply,
    }
}

// Gives at most the first 1,024 bytes.
fn first(words: &[u8]) -> &[u8]
    ensures value { result.now ≡ take 1_024 words.now }
    ensures short { length result.now ≤ 1_024 }
{
    if words.len() <= LINE {
        return words;
    }
    &words[..LINE]
}

// Appends why a line has no form.
fn tell_why(out: &mut Pending, why: &Why)
    requires { array_vec_len out.old + 2_200 ≤ SIZE }
    ensures items { out.new.items ≡ out.old.items ++ why_text why.now }
    ensures len { array_vec_len out.new ≤ array_vec_len out.old + 2_200 }
{
    match why {
        Why::Long => text(out, b"it has more than 1024 bytes"),
        Why::NoReply => text(out, b"no \" => \" between a request and its reply"),
        Why::Of(behind, words, reason) => {
            let line = read(*behind, first(words));
            tell(out, line.as_slice(), reason);
        }
        Why::NoRequest(_, _) => text(out, b"neither a request nor a query"),
        Why::NoRing => text(out, b"not of the form open EXTENTS or open EXTENTS LAYOUT"),
        Why::Unended => text(out, b"no newline at the end"),
    }
}

/// Appends the line that tells why a line has no form.
pub(crate) fn bad_line(out: &mut Pending, bad: &BadLine)
    requires { array_vec_len out.old + 2_300 ≤ SIZE }
    ensures { out.new.items ≡ out.old.items ++ bad_line_text bad.now }
{
    text(out, b"line ");
    decimal(out, bad.number);
    text(out, b": ");
    tell_why(out, &bad.why);
    text(out, b"\n");
}
