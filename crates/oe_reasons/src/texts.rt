//! The texts of reasons.
ghost use Rattle.std.specs.Prelude.{◌≡◌, ◌≤◌, ◌+◌, ◌++◌, length, codes, decimal};
ghost use Rattle.arrayvec.specs.ArrayVec.{array_vec_len};
ghost use Rattle.oe_reasons.specs.Columns.{word_at};
ghost use Rattle.oe_reasons.specs.Texts.{column_name, count_text, counted_text, fault_text, guess_text};
ghost use Rattle.oe_reasons.specs.Texts.{miscounted_text, misspelt_text, reason_text, word_text, wrong_text};

use crate::faults::{WordFault, WrongWord};
use crate::forms::{Column, Form, forms_of};
use crate::reasons::Reason;
use crate::shapes::{either, greatest, least, shape};
use crate::verbs::Verb;
use crate::words::{first_word, word_at, words_in};
use oe_texts::columns::number;
use oe_texts::{Pending, SIZE, text};

/// Gives a column's name.
fn column_name(column: Column) -> &'static [u8]
    ensures value { result.now ≡ column_name column }
    ensures short { length result.now ≤ 30 }
{
    match column {
        Column::Verb(_) | Column::Kind(_) => b"word",
        Column::Warehouses => b"warehouses",
        Column::Customers => b"customers",
        Column::Items => b"items",
        Column::Extents => b"extents",
        Column::Layout => b"layout",
        Column::Terminal => b"terminal",
        Column::Warehouse => b"warehouse",
        Column::District => b"district",
        Column::CustomerWarehouse => b"customer warehouse",
        Column::CustomerDistrict => b"customer district",
        Column::Customer => b"customer",
        Column::Supply => b"the supply warehouse in",
        Column::Item => b"the item in",
        Column::Quantity => b"the quantity in",
        Column::Amount => b"amount",
        Column::Carrier => b"carrier",
        Column::Threshold => b"threshold",
        Column::Condition => b"condition",
        Column::Moment => b"moment",
        Column::Buyer => b"customer",
        Column::LastName => b"last name",
        Column::FirstName => b"first name",
        Column::Stamp => b"stamp",
        Column::OrderLine => b"order line",
        Column::Table => b"table",
    }
}

/// Gives what a word of a column is not.
fn misspelt(column: Column) -> &'static [u8]
    ensures value { result.now ≡ misspelt_text column }
    ensures short { length result.now ≤ 100 }
{
    match column {
        Column::Amount => b" is no amount of digits, a point and two decimals",
        Column::Moment => b" is neither now nor a number of at most 15 digits without a leading 0",
        Column::Buyer =>
            b" is neither a number without a leading 0 nor a last name of 1 to 16 letters A to Z",
        Column::LastName => b" is not 1 to 16 letters A to Z",
        Column::FirstName => b" is not 1 to 16 letters A to Z and digits",
        Column::Stamp => b" is no YYYY-MM-DDTHH:MM:SS of the years 1900 to 2100",
        Column::OrderLine => b" is not of the form supply:item:quantity",
        Column::Table =>
            b" is none of warehouse, district, customer, history, neworder, order, orderline, item \
or stock",
        _ => b" is no number of at most 15 digits without a leading 0",
    }
}

/// Appends the verb that was perhaps meant.
fn guess(out: &mut Pending, near: Option<Verb>)
    requires { array_vec_len out.old + 30 ≤ SIZE }
    ensures items { out.new.items ≡ out.old.items ++ guess_text near }
    ensures len { array_vec_len out.new ≤ array_vec_len out.old + 30 }
{
    match near {
        Some(verb) => {
            text(out, b"; did you mean \"");
            text(out, verb.word());
            text(out, b"\"?");
        }
        None => {}
    }
}

/// Appends a line's word at a place, where there is one.
fn word(out: &mut Pending, line: &[u8], place: usize)
    requires { array_vec_len out.old + length line.now ≤ SIZE }
    ensures items { out.new.items ≡ out.old.items ++ word_text (word_at line.now place) }
    ensures len { array_vec_len out.new ≤ array_vec_len out.old + length line.now }
{
    match word_at(line, place) {
        Some(word) => text(out, word),
        None => {}
    }
}

/// Appends what is wrong with a word of a column.
fn tell_fault(out: &mut Pending, column: Column, fault: WordFault)
    requires { array_vec_len out.old + 110 ≤ SIZE }
    ensures items { out.new.items ≡ out.old.items ++ fault_text column fault }
    ensures len { array_vec_len out.new ≤ array_vec_len out.old + 110 }
{
    match fault {
        WordFault::Misspelt => text(out, misspelt(column)),
        WordFault::Below => {
            text(out, b" is below ");
            least(out, column);
        }
        WordFault::Above => {
            text(out, b" is above ");
            greatest(out, column);
        }
    }
}

/// Appends that a word is wrong.
fn wrong(out: &mut Pending, line: &[u8], wrong: &WrongWord)
    requires { array_vec_len out.old + length line.now + 150 ≤ SIZE }
    ensures items { out.new.items ≡ out.old.items ++ wrong_text line.now wrong.now }
    ensures len { array_vec_len out.new ≤ array_vec_len out.old + length line.now + 150 }
{
    text(out, column_name(wrong.column));
    text(out, b" ");
    word(out, line, wrong.place);
    tell_fault(out, wrong.column, wrong.fault);
}

/// Appends how many words there are.
fn counted(out: &mut Pending, words: usize)
    requires { array_vec_len out.old + 30 ≤ SIZE }
    ensures items { out.new.items ≡ out.old.items ++ counted_text words }
    ensures len { array_vec_len out.new ≤ array_vec_len out.old + 30 }
{
    number(out, words as u64);
    if words == 1 {
        text(out, b" word");
    } else {
        text(out, b" words");
    }
}

/// Appends how many words a form has.
fn count(out: &mut Pending, form: Form)
    requires { array_vec_len out.old + 44 ≤ SIZE }
    ensures items { out.new.items ≡ out.old.items ++ count_text form }
    ensures len { array_vec_len out.new ≤ array_vec_len out.old + 44 }
{
    match form {
        Form::NewOrder | Form::Opening => {
            number(out, form.least_words() as u64);
            text(out, b" to ");
            number(out, form.most_words() as u64);
        }
        _ => number(out, form.least_words() as u64),
    }
}

/// Appends that a line has too few words, or too many.
fn miscounted(out: &mut Pending, line: &[u8], form: Form)
    requires { array_vec_len out.old + 310 ≤ SIZE }
    ensures items { out.new.items ≡ out.old.items ++ miscounted_text line.now form }
    ensures len { array_vec_len out.new ≤ array_vec_len out.old + 310 }
{
    text(out, b"it has ");
    counted(out, words_in(line));
    text(out, b", not ");
    count(out, form);
    text(out, b":");
    shape(out, form);
}

/// Appends which byte, counted from 1, is no printable one.
fn unprintable(out: &mut Pending, place: usize)
    requires { array_vec_len out.old + 70 ≤ SIZE }
    ensures items { out.new.items ≡ out.old.items
        ++ (codes "byte " ++ decimal place ++ codes " is no printable ASCII character") }
    ensures len { array_vec_len out.new ≤ array_vec_len out.old + 70 }
{
    text(out, b"byte ");
    number(out, place as u64);
    text(out, b" is no printable ASCII character");
}

/// Appends the text of the reason why a line is not taken. A word of the line that it names stands
/// there as it is; the line's bytes are then printable.
pub fn tell(out: &mut Pending, line: &[u8], reason: &Reason)
    requires room { array_vec_len out.old + length line.now + 1_120 ≤ SIZE }
    ensures items { out.new.items ≡ out.old.items ++ reason_text line.now reason.now }
    ensures len { array_vec_len out.new ≤ array_vec_len out.old + length line.now + 1_120 }
{
    match reason {
        Reason::Long => text(out, b"it has more than 1024 bytes"),
        Reason::CarriageReturn => text(out, b"it ends in CR LF; a line ends in LF alone"),
        Reason::Unprintable(place) => unprintable(out, *place),
        Reason::LastBlank => text(out, b"it ends in a blank"),
        Reason::NoWord => text(out, b"it is empty, or begins with a blank"),
        Reason::NoAudit => text(out, b"condition 11 has no audit"),
        Reason::AlreadyOpen => text(out, b"something is open already"),
        Reason::NotOpen => text(out, b"nothing is open yet"),
        Reason::NoVerb(near) => {
            text(out, b"no form begins with \"");
            text(out, first_word(line));
            text(out, b"\"");
            guess(out, *near);
        }
        Reason::Miscounted(form) => miscounted(out, line, *form),
        Reason::Wrong(word) => wrong(out, line, word),
        Reason::NotSo(verb) => {
            text(out, b"it is not of the form");
            either(out, forms_of(*verb));
        }
    }
}
