//! What is wrong with a word, and which form a line has to be of.
ghost use Rattle.std.specs.Prelude.{◌≡◌, ℕ, IfSome, is_some, true, Some, slice_get};
ghost use Rattle.oe_lines.specs.Words.{stamp_of, last_name_of, first_name_of};
ghost use Rattle.oe_reasons.specs.Columns.{amount_in, begun_of, columns_of, fault_of, form_of, is_table};
ghost use Rattle.oe_reasons.specs.Columns.{line_fault, line_in, number_fault, number_in, out_of_range, query_of};
ghost use Rattle.oe_reasons.specs.Columns.{IsMiscounted, IsWrong};
ghost use Rattle.oe_reasons.specs.declared.forms.Column.TheVariants as column;
ghost use Rattle.oe_reasons.specs.declared.forms.Form.{Form};

use crate::forms::{Column, Form};
use crate::verbs::{Kind, Verb, is_word, read_kind};
use crate::words::{word_at, words_in};
use oe_rows::TABLES;
use oe_values::fronts::{after, decimal, pair};
use oe_values::texts::{FirstName, LastName};
use oe_values::{Stamp, Text};

/// What is wrong with a word.
#[derive(Clone, Copy)]
pub enum WordFault {
    /// It does not spell what stands there.
    Misspelt,
    /// Its number is below the least.
    Below,
    /// Its number is above the greatest.
    Above,
}

/// A word that is wrong, with its place from 0 on.
#[derive(Clone, Copy)]
pub struct WrongWord {
    pub place: usize,
    pub column: Column,
    pub fault: WordFault,
}

/// Gives the number of at most 15 digits that a word is.
#[tactic(auto, unfolding(crate::specs::Columns::number_in))]
fn number(word: &[u8]) -> Option<u64>
    ensures { result ≡ number_in word.now }
{
    let (number, rest) = decimal(word)?;
    if rest.is_empty() { Some(number) } else { None }
}

/// Gives the cents of an amount with two decimals that a word is.
#[tactic(auto, unfolding(crate::specs::Columns::amount_in))]
fn amount(word: &[u8]) -> Option<u64>
    ensures { result ≡ amount_in word.now }
{
    let (whole, rest) = decimal(word)?;
    let (cents, rest) = pair(after(rest, b".")?)?;
    if rest.is_empty() {
        Some(whole * 100 + u64::from(cents))
    } else {
        None
    }
}

/// Gives the supply warehouse, the item and the quantity that an order's line is.
#[tactic(auto, unfolding(crate::specs::Columns::line_in))]
fn line(word: &[u8]) -> Option<(u64, u64, u64)>
    ensures { result ≡ line_in word.now }
{
    let (supply, rest) = decimal(word)?;
    let (item, rest) = decimal(after(rest, b":")?)?;
    let (quantity, rest) = decimal(after(rest, b":")?)?;
    if rest.is_empty() {
        Some((supply, item, quantity))
    } else {
        None
    }
}

/// Gives the stamp that a word is.
fn stamp(word: &[u8]) -> Option<Stamp>
    ensures { result ≡ stamp_of word.now }
{
    if word.len() != 19 {
        return None;
    }
    Stamp::read_bytes(word)
}

/// Gives the last name that a word is.
fn last_name(word: &[u8]) -> Option<LastName>
    ensures { result ≡ last_name_of word.now }
{
    let Some(name) = Text::<1, 16>::read_bytes(word) else {
        return None;
    };
    LastName::read(name.as_str())
}

/// Gives the first name that a word is.
fn first_name(word: &[u8]) -> Option<FirstName>
    ensures { result ≡ first_name_of word.now }
{
    let Some(name) = Text::<1, 16>::read_bytes(word) else {
        return None;
    };
    FirstName::read(name.as_str())
}

/// Tells whether a word is a stamp.
fn is_stamp(word: &[u8]) -> bool
    ensures { result ≡ is_some (stamp_of word.now) }
{
    stamp(word).is_some()
}

/// Tells whether a word is a last name.
fn is_last_name(word: &[u8]) -> bool
    ensures { result ≡ is_some (last_name_of word.now) }
{
    last_name(word).is_some()
}

/// Tells whether a word is a first name.
fn is_first_name(word: &[u8]) -> bool
    ensures { result ≡ is_some (first_name_of word.now) }
{
    first_name(word).is_some()
}

/// Tells whether a word is a table's name.
#[tactic(auto, unfolding(crate::specs::Columns::is_table))]
fn is_table(word: &[u8]) -> bool
    ensures { result ≡ is_table word.now }
{
    TABLES
        .iter()
        .any(|table| is_word(word, table.name().as_bytes()))
}

/// Gives what is wrong with a number of a column.
fn out_of_range(column: Column, number: u64) -> Option<(Column, WordFault)>
    ensures { result ≡ out_of_range column number }
{
    if number < column.least() {
        Some((column, WordFault::Below))
    } else if column.greatest() < number {
        Some((column, WordFault::Above))
    } else {
        None
    }
}

/// Gives what is wrong with a number of a column, where it is one.
fn number_fault(column: Column, number: Option<u64>) -> Option<(Column, WordFault)>
    ensures { result ≡ number_fault column number }
{
    match number {
        Some(number) => out_of_range(column, number),
        None => Some((column, WordFault::Misspelt)),
    }
}

/// Gives what is wrong with an order's line.
fn line_fault(line: Option<(u64, u64, u64)>) -> Option<(Column, WordFault)>
    ensures { result ≡ line_fault line }
{
    let Some((supply, item, quantity)) = line else {
        return Some((Column::OrderLine, WordFault::Misspelt));
    };
    out_of_range(Column::Supply, supply)
        .or(out_of_range(Column::Item, item))
        .or(out_of_range(Column::Quantity, quantity))
}

/// Gives what is wrong with a stamp.
fn stamp_fault(word: &[u8]) -> Option<(Column, WordFault)>
    ensures { result ≡ fault_of column.Stamp word.now }
{
    if is_stamp(word) {
        None
    } else {
        Some((Column::Stamp, WordFault::Misspelt))
    }
}

/// Gives what is wrong with a customer by number or by last name.
fn buyer_fault(word: &[u8]) -> Option<(Column, WordFault)>
    ensures { result ≡ fault_of column.Buyer word.now }
{
    if is_last_name(word) {
        return None;
    }
    let number = number(word);
    if number.is_some() {
        number_fault(Column::Customer, number)
    } else {
        Some((Column::Buyer, WordFault::Misspelt))
    }
}

/// Gives what is wrong with a last name.
fn last_name_fault(word: &[u8]) -> Option<(Column, WordFault)>
    ensures { result ≡ fault_of column.LastName word.now }
{
    if is_last_name(word) {
        None
    } else {
        Some((Column::LastName, WordFault::Misspelt))
    }
}

/// Gives what is wrong with a first name.
fn first_name_fault(word: &[u8]) -> Option<(Column, WordFault)>
    ensures { result ≡ fault_of column.FirstName word.now }
{
    if is_first_name(word) {
        None
    } else {
        Some((Column::FirstName, WordFault::Misspelt))
    }
}

/// Gives what is wrong with a moment.
fn moment_fault(word: &[u8]) -> Option<(Column, WordFault)>
    ensures { result ≡ fault_of column.Moment word.now }
{
    if is_word(word, b"now") {
        None
    } else {
        number_fault(Column::Moment, number(word))
    }
}

/// Gives what is wrong with a table's name.
fn table_fault(word: &[u8]) -> Option<(Column, WordFault)>
    ensures { result ≡ fault_of column.Table word.now }
{
    if is_table(word) {
        None
    } else {
        Some((Column::Table, WordFault::Misspelt))
    }
}

/// Gives what is wrong with a word where a column stands, and with which part of it.
fn fault_in(column: Column, word: &[u8]) -> Option<(Column, WordFault)>
    ensures { result ≡ fault_of column word.now }
{
    match column {
        Column::Verb(_) | Column::Kind(_) => None,
        Column::Table => table_fault(word),
        Column::Stamp => stamp_fault(word),
        Column::LastName => last_name_fault(word),
        Column::FirstName => first_name_fault(word),
        Column::OrderLine => line_fault(line(word)),
        Column::Buyer => buyer_fault(word),
        Column::Moment => moment_fault(word),
        Column::Amount => number_fault(Column::Amount, amount(word)),
        _ => number_fault(column, number(word)),
    }
}

/// Gives the column at a place of a form.
fn column_at(form: Form, place: usize) -> Option<Column>
    ensures { result ≡ slice_get (columns_of form) place }
{
    form.columns().get(place).copied()
}

/// Gives the word at a place of a form, where it is wrong.
fn wrong_at(line: &[u8], form: Form, place: usize) -> Option<WrongWord>
    ensures { IfSome result (IsWrong line.now form) }
{
    let column = column_at(form, place)?;
    let word = word_at(line, place)?;
    let (column, fault) = fault_in(column, word)?;
    Some(WrongWord {
        place,
        column,
        fault,
    })
}

/// Gives the first word of a line that is wrong in a form.
pub fn wrong_word(line: &[u8], form: Form) -> Option<WrongWord>
    ensures { IfSome result (IsWrong line.now form) }
{
    for place in 1..22usize {
        if let Some(wrong) = wrong_at(line, form, place) {
            return Some(wrong);
        }
    }
    None
}

/// Tells whether a line has too few words for a form, or too many.
pub fn is_miscounted(line: &[u8], form: Form) -> bool
    ensures { result ≡ true → IsMiscounted line.now form }
{
    let words = words_in(line);
    words < form.least_words() || form.most_words() < words
}

/// Gives the form that a line with a verb has to be of.
pub fn read_form(line: &[u8], verb: Verb) -> Option<Form>
    ensures { result ≡ form_of verb line.now }
{
    match verb {
        Verb::Open => Some(Form::Opening),
        Verb::Begin => begun(read_kind(word_at(line, 2)?)?, word_at(line, 6).is_some()),
        Verb::Read => query(read_kind(word_at(line, 2)?)?),
        Verb::Next => Some(Form::Next),
        Verb::Run => Some(Form::Run),
        Verb::Save => Some(Form::Save),
        Verb::Back => Some(Form::Back),
        Verb::Rollback => Some(Form::Rollback),
        Verb::Audit => Some(Form::Audit),
        Verb::Purge => Some(Form::Purge),
        Verb::Rewind => Some(Form::Rewind),
        Verb::Dump => Some(Form::Dump),
        Verb::Waits => Some(Form::Waits),
        Verb::Locks => Some(Form::Locks),
    }
}

/// Gives the form of a transaction of a kind, by whether a seventh word stands in the line.
fn begun(kind: Kind, is_long: bool) -> Option<Form>
    ensures { result ≡ begun_of kind is_long }
{
    match kind {
        Kind::Payment => Some(Form::Payment),
        Kind::NewOrder => Some(Form::NewOrder),
        Kind::Delivery => {
            if is_long {
                Some(Form::Delivery)
            } else {
                Some(Form::Deliveries)
            }
        }
        Kind::Rename => Some(Form::Rename),
        Kind::Status | Kind::Level => None,
    }
}

/// Gives the form of a query of a kind.
fn query(kind: Kind) -> Option<Form>
    ensures { result ≡ query_of kind }
{
    match kind {
        Kind::Status => Some(Form::Status),
        Kind::Level => Some(Form::Level),
        Kind::Payment | Kind::NewOrder | Kind::Delivery | Kind::Rename => None,
    }
}
