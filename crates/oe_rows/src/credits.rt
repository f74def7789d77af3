//! The total of an order, rounded to cents, and the data of customers with bad credit.
ghost use Rattle.std.specs.Prelude.{◌≡◌, ◌+◌, ◌*◌, ◌≤◌, ◌∷◌, ◌++◌, [], length, decimal};
ghost use Rattle.std.specs.List.{All};
ghost use Rattle.arrayvec.specs.ArrayString.{array_string_len};
ghost use Rattle.oe_rows.specs.Credit.{order_total, money_text, credit_entry, bad_credit_data};
ghost use Rattle.oe_values.specs.Text.{IsPrintable};

use crate::keys::{CustomerKey, DistrictKey};
use arrayvec::ArrayString;
use itoa::Buffer;
use oe_values::numbers::{Cents, LineAmount, PaymentAmount, Rate};
use oe_values::texts::Text;

/// Whom a payment is by, and where it is made.
#[derive(Clone, Copy)]
pub struct CreditIds {
    pub customer: CustomerKey,
    pub district: DistrictKey,
}

/// Gives the total of an order of at most 15 lines (clause 2.4.2.2): the sum of the lines' amounts,
/// less the customer's discount, with the taxes of the warehouse and the district, to the nearest
/// cent, where a half rounds up.
pub fn total(
    amounts: &[LineAmount],
    discount: Rate,
    warehouse_tax: Rate,
    district_tax: Rate,
) -> Cents
    requires { length amounts.now ≤ 15 }
    ensures { result ≡ order_total amounts.now discount warehouse_tax district_tax }
{
    let mut sum = 0u64;
    for amount in amounts {
        sum += amount.cents();
    }
    let kept = u64::from(10_000 - discount.get());
    let taxed = u64::from(10_000 + warehouse_tax.get() + district_tax.get());
    Cents::new((sum * kept * taxed + 50_000_000) / 100_000_000)
}

/// Appends a number in decimal digits.
fn push_number(text: &mut ArrayString<90>, number: u32)
    requires { array_string_len text.old + 10 ≤ 90 }
    ensures bytes { text.new.bytes ≡ text.old.bytes ++ decimal number }
    ensures len { array_string_len text.new ≤ array_string_len text.old + 10 }
{
    text.push_str(Buffer::new().format(number));
}

/// Appends a number and a blank.
fn push_column(text: &mut ArrayString<90>, number: u32)
    requires { array_string_len text.old + 11 ≤ 90 }
    ensures bytes { text.new.bytes ≡ text.old.bytes ++ (decimal number ++ 32 ∷ []) }
    ensures len { array_string_len text.new ≤ array_string_len text.old + 11 }
{
    push_number(text, number);
    text.push_str(" ");
}

/// Appends an amount of money with two decimals.
fn push_money(text: &mut ArrayString<90>, cents: u32)
    requires { array_string_len text.old + 31 ≤ 90 }
    ensures bytes { text.new.bytes ≡ text.old.bytes ++ money_text cents }
    ensures len { array_string_len text.new ≤ array_string_len text.old + 31 }
{
    push_number(text, cents / 100);
    text.push_str(".");
    push_number(text, cents % 100 / 10);
    push_number(text, cents % 10);
}

/// Gives what a payment puts before the data of a customer with bad credit, as bytes.
fn spelled_entry(ids: CreditIds, amount: PaymentAmount) -> ArrayString<90>
    ensures value { result.bytes ≡ credit_entry ids amount }
    ensures printable { All IsPrintable result.bytes }
{
    let mut text = ArrayString::new();
    push_column(&mut text, ids.customer.customer.get());
    push_column(&mut text, ids.customer.district.get());
    push_column(&mut text, ids.customer.warehouse.get());
    push_column(&mut text, ids.district.district.get());
    push_column(&mut text, ids.district.warehouse.get());
    push_money(&mut text, amount.get());
    text.push_str("|");
    text
}

/// Gives what a payment puts before the data of a customer with bad credit (clause 2.5.2.2): `C_ID
/// C_D_ID C_W_ID D_ID W_ID H_AMOUNT|`.
pub fn credit_entry(ids: CreditIds, amount: PaymentAmount) -> Text<0, 90>
    ensures { result ≡ credit_entry ids amount }
{
    let spelled = spelled_entry(ids, amount);
    match Text::read(spelled.as_str()) {
        Some(entry) => entry,
        None => unreachable!(),
    }
}

/// Gives the data of a customer with bad credit after a payment (clause 2.5.2.2): `C_ID C_D_ID
/// C_W_ID D_ID W_ID H_AMOUNT|` goes in at the left, and what passes 500 bytes is discarded on the
/// right.
pub fn bad_credit_data(old: &Text<0, 500>, ids: CreditIds, amount: PaymentAmount) -> Text<0, 500>
    ensures { result ≡ bad_credit_data old.now ids amount }
{
    credit_entry(ids, amount).before(old)
}
