//! The likely cause where all lines of a table's file are wrong in one way, by the faults that are
//! kept. A first line that does not tell where the columns stand is the file's only fault, since
//! the lines behind it are passed over. Nothing can fail.
ghost use Rattle.std.specs.Prelude.{◌≡◌, ◌≤◌, length};
ghost use Rattle.oe_file_audit.specs.Causes.{has, is_layout, is_missing, is_misfit, is_utf16, has_commas, names_none, are_shifted, cause_of, cause_name};

use oe_columns::LayoutFault;
use oe_fields::Format;
use oe_sources::{SourceFault, Wrong};

/// The likely cause of all faults of a file.
#[derive(Clone, Copy)]
pub enum Cause {
    /// The file is in UTF-16.
    Utf16,
    /// Its fields stand between commas, and were read with tabs.
    Commas,
    /// Its first line was taken for a heading, and names no column.
    Heading,
    /// Its columns stand in another order.
    Order,
}

/// Tells whether a byte stands in a text.
fn has(byte: u8, text: &[u8]) -> bool
    ensures { result ≡ has byte text.now }
{
    text.contains(&byte)
}

/// Tells whether the first line does not tell where the columns stand.
fn is_layout(wrong: &Wrong) -> bool
    ensures { result ≡ is_layout wrong.now }
{
    match wrong {
        Wrong::Layout(_) => true,
        _ => false,
    }
}

/// Tells whether a heading lacks a column.
fn is_missing(wrong: &Wrong) -> bool
    ensures { result ≡ is_missing wrong.now }
{
    match wrong {
        Wrong::Layout(LayoutFault::Missing(_)) => true,
        _ => false,
    }
}

/// Gives the column whose field does not spell what it has to.
fn is_misfit(column: usize, wrong: &Wrong) -> bool
    ensures { result ≡ is_misfit column wrong.now }
{
    match wrong {
        Wrong::Misfit(misfit) => misfit.column == column,
        _ => false,
    }
}

/// Tells whether a file is in UTF-16, by its first fault.
fn is_utf16(first: &SourceFault) -> bool
    ensures { result ≡ is_utf16 first.now }
{
    has(0, first.text.as_slice())
}

/// Tells whether fields stand between commas that were read with tabs, by the first fault.
fn has_commas(format: Format, first: &SourceFault) -> bool
    ensures { result ≡ has_commas format first.now }
{
    let text = first.text.as_slice();
    match format {
        Format::Tabs => is_layout(&first.wrong) && has(b',', text) && !has(b'\t', text),
        Format::Commas => false,
    }
}

/// Tells whether a heading names no column, by the first fault.
fn names_none(first: &SourceFault) -> bool
    ensures { result ≡ names_none first.now }
{
    is_missing(&first.wrong) && !has(b'_', first.text.as_slice())
}

/// Tells whether columns stand in another order, by the faults.
fn are_shifted(faults: &[SourceFault]) -> bool
    ensures { result ≡ are_shifted faults.now }
{
    let [first, second, third, ..] = faults else {
        return false;
    };
    let Wrong::Misfit(misfit) = &first.wrong else {
        return false;
    };
    let follow = first.line == 1 && second.line == 2 && third.line == 3;
    follow && is_misfit(misfit.column, &second.wrong) && is_misfit(misfit.column, &third.wrong)
}

/// Gives the likely cause of a table file's faults, by the first of them.
pub fn cause_of(format: Format, faults: &[SourceFault]) -> Option<Cause>
    ensures { result ≡ cause_of format faults.now }
{
    let [first, ..] = faults else {
        return None;
    };
    if is_utf16(first) {
        return Some(Cause::Utf16);
    }
    if has_commas(format, first) {
        return Some(Cause::Commas);
    }
    if names_none(first) {
        return Some(Cause::Heading);
    }
    if are_shifted(faults) {
        return Some(Cause::Order);
    }
    None
}

/// Gives the words of a cause.
pub(crate) fn cause_name(cause: Cause) -> &'static str
    ensures value { result.now ≡ cause_name cause }
    ensures most { length result.now ≤ 40 }
{
    match cause {
        Cause::Utf16 => "UTF-16",
        Cause::Commas => "commas: --csv?",
        Cause::Heading => "a heading that names no column",
        Cause::Order => "columns in another order?",
    }
}
