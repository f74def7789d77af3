//! How a file writes its rows.
ghost use Rattle.std.specs.Prelude.{◌≡◌, slice_index};
ghost use Rattle.oe_file_tables.specs.Format.{is_returned, text_in, is_letter, is_heading, heads, null_place};

use oe_rows::Table;
use oe_values::fronts::after;

/// How a file writes its rows.
#[derive(Clone, Copy)]
pub enum Format {
    /// As a dump prints them: a tab between two columns, and a line feed behind each row.
    Dump,
    /// As comma-separated values (RFC 4180). The first line may be a heading, a line may end in a
    /// carriage return and a line feed, and an empty field is a null where its column may be null.
    Csv,
}

/// Tells whether a line ends in a carriage return.
pub(crate) fn ends_in_return(line: &[u8]) -> bool
    ensures { result ≡ is_returned line.now }
{
    match line.last() {
        Some(last) => *last == b'\r',
        None => false,
    }
}

/// Gives the text of a line.
pub(crate) fn text_in(format: Format, line: &[u8]) -> &[u8]
    ensures { result.now ≡ text_in format line.now }
{
    match format {
        Format::Dump => line,
        Format::Csv => {
            if ends_in_return(line) {
                return &line[..line.len() - 1];
            }
            line
        }
    }
}

/// Tells whether a byte is a letter.
fn is_letter(byte: u8) -> bool
    ensures { result ≡ is_letter byte }
{
    (byte >= b'A' && byte <= b'Z') || (byte >= b'a' && byte <= b'z')
}

/// Tells whether a text begins with a letter.
fn begins_with_letter(text: &[u8]) -> bool
    ensures { result ≡ is_letter (slice_index text.now 0) }
{
    match text.first() {
        Some(first) => is_letter(*first),
        None => false,
    }
}

/// Tells whether the first field of a line begins with a letter, which may stand in quotes.
fn is_heading(text: &[u8]) -> bool
    ensures { result ≡ is_heading text.now }
{
    match after(text, b"\"") {
        Some(rest) => begins_with_letter(rest),
        None => begins_with_letter(text),
    }
}

/// Tells whether the text of the line of that number is a heading.
pub(crate) fn heads(format: Format, number: u64, text: &[u8]) -> bool
    ensures { result ≡ heads format number text.now }
{
    match format {
        Format::Dump => false,
        Format::Csv => number == 1 && is_heading(text),
    }
}

/// Gives how many columns of a table stand before the one that may be null, where one may be.
pub(crate) fn null_place(table: Table) -> Option<usize>
    ensures { result ≡ null_place table }
{
    match table {
        Table::Order => Some(5),
        Table::OrderLine => Some(6),
        _ => None,
    }
}
