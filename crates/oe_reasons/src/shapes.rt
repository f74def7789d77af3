//! The table of forms as a person reads it: each form, and the range of each column.
ghost use Rattle.std.specs.Prelude.{◌≡◌, ◌≤◌, ◌+◌, ◌*◌, ◌++◌, length};
ghost use Rattle.std.specs.List.{flat_map};
ghost use Rattle.arrayvec.specs.ArrayVec.{array_vec_len};
ghost use Rattle.oe_reasons.specs.Shapes.{bounds_text, either_text, form_line, form_text, forms_text};
ghost use Rattle.oe_reasons.specs.Shapes.{greatest_text, least_text, lines_text, more_text, or_text, name_with_blanks};
ghost use Rattle.oe_reasons.specs.Shapes.{range_line, range_text, shown_columns, shown_word, spaced_word};

use crate::forms::{Column, FORMS, Form};
use oe_texts::columns::{money, number};
use oe_texts::{Pending, SIZE, text};

/// The columns whose ranges the list has.
const RANGED: [Column; 25] = [
    Column::Warehouses,
    Column::Customers,
    Column::Items,
    Column::Extents,
    Column::Layout,
    Column::Terminal,
    Column::Warehouse,
    Column::District,
    Column::CustomerWarehouse,
    Column::CustomerDistrict,
    Column::Buyer,
    Column::Amount,
    Column::Stamp,
    Column::Customer,
    Column::OrderLine,
    Column::Supply,
    Column::Item,
    Column::Quantity,
    Column::Carrier,
    Column::LastName,
    Column::FirstName,
    Column::Moment,
    Column::Threshold,
    Column::Condition,
    Column::Table,
];

/// As many blanks as a name and the blanks behind it.
const BLANKS: &[u8; 22] = b"                      ";

/// Gives what stands for a word of a form: an own word, or the column's name in capitals.
fn shown_word(column: Column) -> &'static [u8]
    ensures value { result.now ≡ shown_word column }
    ensures short { length result.now ≤ 20 }
{
    match column {
        Column::Verb(verb) => verb.word(),
        Column::Kind(kind) => kind.word(),
        Column::Warehouses => b"WAREHOUSES",
        Column::Customers => b"CUSTOMERS",
        Column::Items => b"ITEMS",
        Column::Extents => b"EXTENTS",
        Column::Layout => b"LAYOUT",
        Column::Terminal => b"TERMINAL",
        Column::Warehouse => b"WAREHOUSE",
        Column::District => b"DISTRICT",
        Column::CustomerWarehouse => b"CUSTOMER_WAREHOUSE",
        Column::CustomerDistrict => b"CUSTOMER_DISTRICT",
        Column::Customer => b"CUSTOMER_NUMBER",
        Column::Supply => b"SUPPLY",
        Column::Item => b"ITEM",
        Column::Quantity => b"QUANTITY",
        Column::Amount => b"AMOUNT",
        Column::Carrier => b"CARRIER",
        Column::Threshold => b"THRESHOLD",
        Column::Condition => b"CONDITION",
        Column::Moment => b"MOMENT",
        Column::Buyer => b"CUSTOMER",
        Column::LastName => b"LAST_NAME",
        Column::FirstName => b"FIRST_NAME",
        Column::Stamp => b"STAMP",
        Column::OrderLine => b"SUPPLY:ITEM:QUANTITY",
        Column::Table => b"TABLE",
    }
}

/// Gives the columns that the list shows of a form; the last may come again.
fn shown_columns(form: Form) -> &'static [Column]
    ensures value { result.now ≡ shown_columns form }
    ensures few { length result.now ≤ 10 }
{
    match form {
        Form::NewOrder => form.columns().split_at(8).0,
        _ => form.columns(),
    }
}

/// Appends what stands for a word of a form, and a blank before it.
fn spaced_word(out: &mut Pending, column: Column)
    requires { array_vec_len out.old + 21 ≤ SIZE }
    ensures items { out.new.items ≡ out.old.items ++ spaced_word column }
    ensures len { array_vec_len out.new ≤ array_vec_len out.old + 21 }
{
    text(out, b" ");
    text(out, shown_word(column));
}

/// Appends what stands for words of a form.
fn spaced_words(out: &mut Pending, columns: &[Column])
    requires few { length columns.now ≤ 10 }
    requires room { array_vec_len out.old + 21 * length columns.now ≤ SIZE }
    ensures items { out.new.items ≡ out.old.items ++ flat_map spaced_word columns.now }
    ensures len { array_vec_len out.new ≤ array_vec_len out.old + 21 * length columns.now }
{
    for column in columns {
        spaced_word(out, *column);
    }
}

/// Appends ` ..` where the last word of a form may come again.
fn more(out: &mut Pending, form: Form)
    requires { array_vec_len out.old + 3 ≤ SIZE }
    ensures items { out.new.items ≡ out.old.items ++ more_text form }
    ensures len { array_vec_len out.new ≤ array_vec_len out.old + 3 }
{
    match form {
        Form::NewOrder => text(out, b" .."),
        _ => {}
    }
}

/// Appends a form, with a blank before each word.
pub(crate) fn shape(out: &mut Pending, form: Form)
    requires { array_vec_len out.old + 213 ≤ SIZE }
    ensures items { out.new.items ≡ out.old.items ++ form_text form }
    ensures len { array_vec_len out.new ≤ array_vec_len out.old + 213 }
{
    spaced_words(out, shown_columns(form));
    more(out, form);
}

/// Appends one more of several forms.
fn alternative(out: &mut Pending, form: Form)
    requires { array_vec_len out.old + 216 ≤ SIZE }
    ensures items { out.new.items ≡ out.old.items ++ or_text form }
    ensures len { array_vec_len out.new ≤ array_vec_len out.old + 216 }
{
    text(out, b" or");
    shape(out, form);
}

/// Appends more of several forms.
fn alternatives(out: &mut Pending, forms: &[Form])
    requires few { length forms.now ≤ 4 }
    requires room { array_vec_len out.old + 216 * length forms.now ≤ SIZE }
    ensures items { out.new.items ≡ out.old.items ++ flat_map or_text forms.now }
    ensures len { array_vec_len out.new ≤ array_vec_len out.old + 216 * length forms.now }
{
    for form in forms {
        alternative(out, *form);
    }
}

/// Appends forms, with `or` between each two.
pub(crate) fn either(out: &mut Pending, forms: &[Form])
    requires few { length forms.now ≤ 5 }
    requires room { array_vec_len out.old + 1_077 ≤ SIZE }
    ensures items { out.new.items ≡ out.old.items ++ either_text forms.now }
    ensures len { array_vec_len out.new ≤ array_vec_len out.old + 1_077 }
{
    if let Some((first, others)) = forms.split_first() {
        shape(out, *first);
        alternatives(out, others);
    }
}

/// Appends the least number of a column.
pub(crate) fn least(out: &mut Pending, column: Column)
    requires { array_vec_len out.old + 23 ≤ SIZE }
    ensures items { out.new.items ≡ out.old.items ++ least_text column }
    ensures len { array_vec_len out.new ≤ array_vec_len out.old + 23 }
{
    match column {
        Column::Amount => money(out, column.least()),
        _ => number(out, column.least()),
    }
}

/// Appends the greatest number of a column.
pub(crate) fn greatest(out: &mut Pending, column: Column)
    requires { array_vec_len out.old + 23 ≤ SIZE }
    ensures items { out.new.items ≡ out.old.items ++ greatest_text column }
    ensures len { array_vec_len out.new ≤ array_vec_len out.old + 23 }
{
    match column {
        Column::Amount => money(out, column.greatest()),
        _ => number(out, column.greatest()),
    }
}

/// Appends the least and the greatest number of a column.
fn bounds(out: &mut Pending, column: Column)
    requires { array_vec_len out.old + 50 ≤ SIZE }
    ensures items { out.new.items ≡ out.old.items ++ bounds_text column }
    ensures len { array_vec_len out.new ≤ array_vec_len out.old + 50 }
{
    least(out, column);
    text(out, b" to ");
    greatest(out, column);
}

/// Appends how many lines an order has.
fn lines(out: &mut Pending)
    requires { array_vec_len out.old + 44 ≤ SIZE }
    ensures items { out.new.items ≡ out.old.items ++ lines_text }
    ensures len { array_vec_len out.new ≤ array_vec_len out.old + 44 }
{
    number(out, (Form::NewOrder.least_words() - 7) as u64);
    text(out, b" to ");
    number(out, (Form::NewOrder.most_words() - 7) as u64);
}

/// Appends what a word of a column may be.
fn range(out: &mut Pending, column: Column)
    requires { array_vec_len out.old + 95 ≤ SIZE }
    ensures items { out.new.items ≡ out.old.items ++ range_text column }
    ensures len { array_vec_len out.new ≤ array_vec_len out.old + 95 }
{
    match column {
        Column::Buyer => {
            bounds(out, Column::Customer);
            text(out, b", or a last name of 1 to 16 letters A to Z");
        }
        Column::LastName => text(out, b"1 to 16 letters A to Z"),
        Column::FirstName => text(out, b"1 to 16 letters A to Z and digits"),
        Column::Stamp => text(out, b"YYYY-MM-DDTHH:MM:SS of the years 1900 to 2100"),
        Column::OrderLine => {
            lines(out);
            text(out, b" of these");
        }
        Column::Moment => {
            text(out, b"now, or ");
            bounds(out, Column::Moment);
        }
        Column::Condition => {
            bounds(out, Column::Condition);
            text(out, b", but not 11");
        }
        Column::Table => text(
            out,
            b"warehouse, district, customer, history, neworder, order, orderline, item or stock",
        ),
        _ => bounds(out, column),
    }
}

/// Appends a name and the blanks that make it 22 bytes.
fn padded(out: &mut Pending, name: &[u8])
    requires short { length name.now ≤ 22 }
    requires room { array_vec_len out.old + 22 ≤ SIZE }
    ensures items { out.new.items ≡ out.old.items ++ name_with_blanks name.now }
    ensures len { array_vec_len out.new ≤ array_vec_len out.old + 22 }
{
    let blanks: &[u8] = BLANKS;
    text(out, name);
    text(out, &blanks[name.len()..]);
}

/// Appends the line of a form.
#[tactic(auto, unfolding(crate::specs::Shapes::form_line))]
fn form_line(out: &mut Pending, form: Form)
    requires { array_vec_len out.old + 215 ≤ SIZE }
    ensures items { out.new.items ≡ out.old.items ++ form_line form }
    ensures len { array_vec_len out.new ≤ array_vec_len out.old + 215 }
{
    text(out, b" ");
    shape(out, form);
    text(out, b"\n");
}

/// Appends the lines of forms.
fn form_lines(out: &mut Pending, forms: &[Form])
    requires few { length forms.now ≤ 19 }
    requires room { array_vec_len out.old + 215 * length forms.now ≤ SIZE }
    ensures items { out.new.items ≡ out.old.items ++ flat_map form_line forms.now }
    ensures len { array_vec_len out.new ≤ array_vec_len out.old + 215 * length forms.now }
{
    for form in forms {
        form_line(out, *form);
    }
}

/// Appends the line of a column.
#[tactic(auto, unfolding(crate::specs::Shapes::range_line))]
fn range_line(out: &mut Pending, column: Column)
    requires { array_vec_len out.old + 120 ≤ SIZE }
    ensures items { out.new.items ≡ out.old.items ++ range_line column }
    ensures len { array_vec_len out.new ≤ array_vec_len out.old + 120 }
{
    text(out, b"  ");
    padded(out, shown_word(column));
    range(out, column);
    text(out, b"\n");
}

/// Appends the lines of columns.
fn range_lines(out: &mut Pending, columns: &[Column])
    requires few { length columns.now ≤ 25 }
    requires room { array_vec_len out.old + 120 * length columns.now ≤ SIZE }
    ensures items { out.new.items ≡ out.old.items ++ flat_map range_line columns.now }
    ensures len { array_vec_len out.new ≤ array_vec_len out.old + 120 * length columns.now }
{
    for column in columns {
        range_line(out, *column);
    }
}

/// Appends the forms of lines, and what may stand in each of their columns.
#[tactic(auto, unfolding(crate::specs::Shapes::forms_text))]
pub fn list_forms(out: &mut Pending)
    requires { array_vec_len out.old + 7_200 ≤ SIZE }
    ensures { out.new.items ≡ out.old.items ++ forms_text }
{
    text(
        out,
        b"\nThe forms of a script's lines, with their columns in capitals:\n\n",
    );
    form_lines(out, &FORMS);
    text(out, b"\nWhat each column holds:\n\n");
    range_lines(out, &RANGED);
}
