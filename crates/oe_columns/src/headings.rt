//! The places of the columns that a fact needs: by their names in a heading, or by the order of a
//! dump.
//!
//! A name may stand in quotes, behind blanks, and in any case. Other names are passed over. A
//! column that is not named or named twice is an error, and so is a first line that is no heading
//! and has not as many fields as a dump's.
ghost use Rattle.std.specs.Prelude.{◌≡◌, ◌≤◌, length, if◌then◌else◌};
ghost use Rattle.oe_columns.specs.Headings.{behind_blanks, is_quoted, bare, is_name, again, column_place, one_place, heading_places, is_heading, layout_of};
ghost use Rattle.oe_fields.specs.Parting.{fields_of};

use crate::columns::{MOST_COLUMNS, dump_places, fact_columns};
use arrayvec::ArrayVec;
use oe_facts::Table;
use oe_fields::{Fields, Format, count_fields};
use std::marker::Model;

/// Where a heading names a column.
#[derive(Clone, Copy)]
pub enum Named {
    /// Nowhere.
    Missing,
    /// At this place alone.
    Once(usize),
    /// At more than one place.
    Twice,
}

/// Why the places of the columns are not known. A column's number counts the columns that a fact
/// needs.
#[derive(Clone, Copy)]
pub enum LayoutFault {
    /// The heading does not name this column.
    Missing(usize),
    /// The heading names this column twice.
    Twice(usize),
    /// There is no heading, and the first line has this number of fields, as no dump has.
    Fields(usize),
}

/// The places of the columns that a fact needs, in the table's order.
#[derive(Drop)]
pub struct Places {
    at: ArrayVec<usize, MOST_COLUMNS>,
}

impl Model for Places {
    ghost use Rattle.std.specs.Prelude.{ℕ, List};

    ghost Value = { List ℕ };

    ghost view = { λ p. p.at.items };
}

impl Places {
    /// Gives the places.
    #[inline]
    pub fn as_slice(&self) -> &[usize]
        ensures { result.now ≡ self.now }
    {
        self.at.as_slice()
    }

    /// Takes the places of a dump.
    fn of_dump(places: &[usize]) -> Places
        requires { length places.now ≤ 9 }
        ensures { result ≡ places.now }
    {
        let mut at = ArrayVec::new();
        for place in places {
            at.push(*place);
        }
        Places { at }
    }
}

/// Gives what follows the blanks at the front.
fn behind_blanks(text: &[u8]) -> &[u8]
    ensures { result.now ≡ behind_blanks text.now }
{
    for (i, b) in text.iter().enumerate() {
        if *b != b' ' {
            return &text[i..];
        }
    }
    &text[text.len()..]
}

/// Tells whether a text begins and ends with the same quote.
fn is_quoted(text: &[u8]) -> bool
    ensures { result ≡ is_quoted text.now }
{
    text.len() >= 2 && (text[0] == b'"' || text[0] == b'`') && text[text.len() - 1] == text[0]
}

/// Gives a name without the blanks before it and the quotes that it stands in.
#[tactic(auto, unfolding(crate::specs::Headings::bare))]
pub fn bare(text: &[u8]) -> &[u8]
    ensures { result.now ≡ bare text.now }
{
    let text = behind_blanks(text);
    if is_quoted(text) {
        &text[1..text.len() - 1]
    } else {
        text
    }
}

/// Tells whether a text is that name, in any case.
fn is_name(name: &str, text: &[u8]) -> bool
    ensures { result ≡ is_name name.now text.now }
{
    bare(text).eq_ignore_ascii_case(name.as_bytes())
}

/// Gives where a column is named, behind one place more that names it.
fn again(seen: Named, place: usize) -> Named
    ensures { result ≡ again seen place }
{
    match seen {
        Named::Missing => Named::Once(place),
        Named::Once(_) | Named::Twice => Named::Twice,
    }
}

/// Gives where a column is named, behind one field more.
fn look_at(name: &str, seen: Named, place: usize, text: &[u8]) -> Named
    ensures { result ≡ (if is_name name.now text.now then again seen place else seen) }
{
    if is_name(name, text) {
        again(seen, place)
    } else {
        seen
    }
}

/// Finds where a heading names a column.
pub(crate) fn find_name(name: &str, format: Format, line: &[u8]) -> Named
    ensures { result ≡ column_place name.now (fields_of format line.now) }
{
    let mut fields = Fields::new(format, line);
    let mut seen = Named::Missing;
    loop {
        let place = fields.place();
        match fields.next() {
            Some(text) => seen = look_at(name, seen, place, text),
            None => return seen,
        }
    }
}

/// Gives the one place of a column.
pub(crate) fn placed(column: usize, named: Named) -> Result<usize, LayoutFault>
    ensures { result ≡ one_place column named }
{
    match named {
        Named::Missing => Err(LayoutFault::Missing(column)),
        Named::Once(place) => Ok(place),
        Named::Twice => Err(LayoutFault::Twice(column)),
    }
}

/// Finds the places of the columns in a heading.
pub fn heading_places(table: Table, format: Format, line: &[u8]) -> Result<Places, LayoutFault>
    ensures { result ≡ heading_places table (fields_of format line.now) }
{
    let mut at = ArrayVec::new();
    for (column, wanted) in fact_columns(table).iter().enumerate() {
        match placed(column, find_name(wanted.name, format, line)) {
            Ok(place) => at.push(place),
            Err(fault) => return Err(fault),
        }
    }
    Ok(Places { at })
}

/// Tells whether a line is a heading: its first field begins with a letter.
pub fn is_heading(format: Format, line: &[u8]) -> bool
    ensures { result ≡ is_heading (fields_of format line.now) }
{
    let mut fields = Fields::new(format, line);
    match fields.next() {
        Some(text) => match bare(text) {
            [first, ..] => first.is_ascii_alphabetic(),
            [] => false,
        },
        None => false,
    }
}

/// Finds the places of the columns by a file's first line, a heading or a row.
#[tactic(auto, unfolding(crate::specs::Headings::layout_of))]
pub fn layout(table: Table, format: Format, line: &[u8]) -> Result<Places, LayoutFault>
    ensures { result ≡ layout_of table (fields_of format line.now) }
{
    if is_heading(format, line) {
        return heading_places(table, format, line);
    }
    let fields = count_fields(format, line);
    match dump_places(table, fields) {
        Some(places) => Ok(Places::of_dump(places)),
        None => Err(LayoutFault::Fields(fields)),
    }
}
