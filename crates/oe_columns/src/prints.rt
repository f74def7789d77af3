//! The print of a row: 64 bits of the columns that no transaction changes.
//!
//! Each byte multiplies the print by an odd number and is added, and so is 256 behind each field;
//! what passes 64 bits is lost. Two rows whose columns differ in one byte alone have two prints;
//! that others have one is as likely as that two random numbers of 64 bits are one.
//!
//! Of a number, zeros before it and those that end its decimals do not count: one export writes
//! `0.10` and another `.1000`. A field that is not there counts as an empty one. Nothing can fail.
ghost use Rattle.std.specs.Prelude.{◌≡◌, map};
ghost use Rattle.std.specs.List.{fold};
ghost use Rattle.std.specs.Option.{option_copied};
ghost use Rattle.oe_columns.specs.Constants.{constants_of};
ghost use Rattle.oe_columns.specs.Prints.{print_with, behind_zeros, are_zeros, before_zeros, decimal_parts, number_mixed, field_mixed, column_mixed, row_mixed, print_of};
ghost use Rattle.oe_columns.specs.declared.prints.TheConstants.{START};
ghost use Rattle.oe_fields.specs.Parting.{fields_of};

use crate::constants::{Constants, Form, constant_columns};
use crate::rows::Row;
use oe_facts::{Fact, Table};
use oe_fields::Format;

/// What is read of a row: its fact, and the print of the columns that no transaction changes, where
/// that is wanted and the table has such columns.
#[derive(Clone, Copy)]
pub struct RowFact {
    pub fact: Fact,
    pub print: Option<u64>,
}

/// The print of no column.
pub const START: u64 = 14_695_981_039_346_656_037;

/// Goes on with a number up to 256.
#[inline]
#[tactic(auto, unfolding(crate::specs::Prints::print_with))]
fn mixed(print: u64, symbol: u64) -> u64
    ensures { result ≡ print_with print symbol }
{
    print
        .wrapping_mul(6_364_136_223_846_793_005)
        .wrapping_add(symbol)
}

/// Goes on with the bytes of a text.
#[inline]
fn text_mixed(start: u64, text: &[u8]) -> u64
    ensures { result ≡ fold print_with start text.now }
{
    let mut print = start;
    for byte in text {
        print = mixed(print, u64::from(*byte));
    }
    print
}

/// Gives what follows the zeros at the front.
fn behind_zeros(text: &[u8]) -> &[u8]
    ensures { result.now ≡ behind_zeros text.now }
{
    for (i, b) in text.iter().enumerate() {
        if *b != b'0' {
            return &text[i..];
        }
    }
    &text[text.len()..]
}

/// Tells whether the text has zeros alone.
fn are_zeros(text: &[u8]) -> bool
    ensures { result ≡ are_zeros text.now }
{
    text.iter().all(|&b| b == b'0')
}

/// Gives what stands before the zeros at the end.
fn before_zeros(text: &[u8]) -> &[u8]
    ensures { result.now ≡ before_zeros text.now }
{
    for i in 0..text.len() {
        if are_zeros(&text[i..]) {
            return &text[..i];
        }
    }
    text
}

/// Parts a number at its point: what stands before it, and the decimals behind it.
fn parted(text: &[u8]) -> (&[u8], &[u8])
    ensures { (result.0.now, result.1.now) ≡ decimal_parts text.now }
{
    for (i, b) in text.iter().enumerate() {
        if *b == b'.' {
            return (&text[..i], &text[i + 1..]);
        }
    }
    (text, &text[text.len()..])
}

/// Goes on with a number.
fn number_mixed(start: u64, text: &[u8]) -> u64
    ensures { result ≡ number_mixed start text.now }
{
    if text.is_empty() {
        return start;
    }
    let (whole, decimals) = parted(text);
    let print = mixed(text_mixed(start, behind_zeros(whole)), 46);
    text_mixed(print, before_zeros(decimals))
}

/// Goes on with a field.
fn field_mixed(form: Form, start: u64, text: &[u8]) -> u64
    ensures { result ≡ field_mixed form start text.now }
{
    match form {
        Form::Text => text_mixed(start, text),
        Form::Number => number_mixed(start, text),
    }
}

/// Goes on with the field of a column, and its end.
fn column_mixed(form: Form, start: u64, field: Option<&[u8]>) -> u64
    ensures { result ≡ column_mixed form start (option_copied field.entry) }
{
    match field {
        Some(text) => mixed(field_mixed(form, start, text), 256),
        None => mixed(start, 256),
    }
}

/// Makes the print of a row whose columns stand at these places.
#[tactic(auto, using(crate::proofs::PrintFacts::print_more, crate::proofs::PrintFacts::print_all))]
fn row_print(table: Table, row: &mut Row<'_>) -> u64
    ensures { result ≡ row_mixed (constants_of table) 0 row.old START }
{
    let mut print = START;
    for (column, wanted) in constant_columns(table).iter().enumerate() {
        print = column_mixed(wanted.form, print, row.field(column));
    }
    print
}

/// Makes the print of a line whose columns stand at these places.
#[inline(never)]
fn line_print(table: Table, format: Format, line: &[u8], places: &[usize]) -> u64
    ensures { result ≡ row_mixed (constants_of table) 0
        (record { places = places.now; fields = fields_of format line.now }) START }
{
    let mut row = Row::new(format, line, places);
    row_print(table, &mut row)
}

/// Makes the print of a row, where the places of its columns are known.
#[inline]
pub fn print(table: Table, format: Format, line: &[u8], constants: &Constants) -> Option<u64>
    ensures { result
        ≡ print_of table (record { places = constants.now; fields = fields_of format line.now }) }
{
    let places = constants.as_slice();
    if places.is_empty() {
        return None;
    }
    Some(line_print(table, format, line, places))
}
