//! The row that the first word which differs tells of. Nothing here takes memory or can fail.
ghost use Rattle.std.specs.Prelude.{◌≡◌};
ghost use Rattle.oe_reply_words.specs.Others.{seen_of};
ghost use Rattle.oe_reply_words.specs.Told.{within, number_of, payer_number, payer, stock_at, row_of_order, row_of_word, row_of, row_told};

use crate::others::{Other, other_part};
use crate::parts::part_at;
use crate::rows::changes;
use oe_requests::{CustomerChoice, NewOrderRequest, PaymentRequest, Request};
use oe_rows::{CustomerKey, Key, StockKey};
use oe_values::fronts::decimal;
use oe_values::{CustomerNumber, Number};

// Makes a number of the range of its type.
fn ranged<const LOW: u32, const HIGH: u32>(number: u64) -> Option<Number<LOW, HIGH>>
    ensures { result ≡ within LOW HIGH number }
{
    Number::new(u32::try_from(number).ok()?)
}

// Reads the number that a word is.
#[tactic(auto, unfolding(crate::specs::Told::number_of))]
fn number_of(word: &[u8]) -> Option<u64>
    ensures { result ≡ number_of word.now }
{
    let (number, rest) = decimal(word)?;
    if rest.is_empty() { Some(number) } else { None }
}

// Gives the number of a payment's customer: where a last name chose it, the reply names it.
fn payer_number(choice: &CustomerChoice, reply: &[u8]) -> Option<CustomerNumber>
    ensures { result ≡ payer_number choice.now reply.now }
{
    match choice {
        CustomerChoice::Number(number) => Some(*number),
        CustomerChoice::LastName(_) => {
            let number = number_of(part_at(reply, b' ', 1))?;
            ranged(number)
        }
    }
}

// Gives the customer of a payment.
fn payer(payment: &PaymentRequest, reply: &[u8]) -> Option<Key>
    ensures { result ≡ payer payment.now reply.now }
{
    let customer = payer_number(&payment.customer, reply)?;
    Some(Key::Customer(CustomerKey {
        warehouse: payment.customer_district.warehouse,
        district: payment.customer_district.district,
        customer,
    }))
}

// Gives the stock that a line of an order takes from, by the line's place from 0.
fn stock_at(order: &NewOrderRequest, place: usize) -> Option<Key>
    ensures { result ≡ stock_at order.now place }
{
    let line = order.lines.as_slice().get(place)?;
    let item = ranged(u64::from(line.item.get()))?;
    Some(Key::Stock(StockKey {
        warehouse: line.supply,
        item,
    }))
}

// Gives the row that a word of an order's reply tells of: the district has the order's number, and
// a stock what is left of an item.
fn row_of_order(order: &NewOrderRequest, other: &Other) -> Option<Key>
    ensures { result ≡ row_of_order order.now (seen_of other.now) }
{
    if other.place == 1 {
        return Some(Key::District(order.district));
    }
    if other.place < 5 {
        return None;
    }
    if other_part(other.theirs, other.ours, b':').place != 1 {
        return None;
    }
    stock_at(order, other.place - 5)
}

// Gives the row that a word of a reply tells of, where it is not the first.
fn row_of(request: &Request, reply: &[u8], other: &Other) -> Option<Key>
    ensures { result ≡ row_of request.now reply.now (seen_of other.now) }
{
    if other.place == 0 {
        return None;
    }
    match request {
        Request::NewOrder(order) => row_of_order(order, other),
        Request::Payment(payment) => payer(payment, reply),
        _ => None,
    }
}

/// Gives the row that the first word which differs tells of, where the transaction changed it: a
/// district by an order's number, a stock by what is left of an item, a customer by a payment. Other
/// words and replies tell of none.
pub fn row_told(request: &Request, theirs: &[u8], ours: &[u8]) -> Option<Key>
    ensures { result ≡ row_told request.now theirs.now ours.now }
{
    let other = other_part(theirs, ours, b' ');
    let row = row_of(request, ours, &other)?;
    if changes(request, ours, &row) {
        Some(row)
    } else {
        None
    }
}
