//! Order-Status (clause 2.6): a customer's newest order and its lines, of now or of a moment.
ghost use Rattle.std.specs.Prelude.{◌≡◌, IfOk, IfErr};
ghost use Rattle.oe_theory.specs.Machine.{Here, Missing};
ghost use Rattle.oe_requests.specs.declared.replies.QueryReply.TheVariants as told;
ghost use Rattle.oe_model.specs.Queries.{status_of, last_order, order_status};
ghost use Rattle.oe_enquiry.specs.Reply.{customer_asked};

use oe_requests::{CustomerChoice, OrderStatus, Refusal, StatusQuery, StatusReply};
use oe_rows::{CustomerKey, DistrictKey};
use oe_rows_of::RowsOf;
use oe_values::CustomerNumber;

/// Gives C_ID of the customer that is meant, as far as names tell: a number is not looked up
/// (clause 2.6.2.2).
fn meant<R: RowsOf>(
    then: &R,
    district: &DistrictKey,
    choice: &CustomerChoice,
) -> Option<CustomerNumber>
    requires { R.Stand then.now }
    ensures { result ≡ customer_asked district.now choice.now (R.rows_of then.now).customers }
{
    match choice {
        CustomerChoice::Number(number) => Some(*number),
        CustomerChoice::LastName(last) => then.customer_named(district, &last.as_text()),
    }
}

/// Answers the newest order that a customer had, if there was any, with its lines by OL_NUMBER.
fn newest_order<R: RowsOf>(then: &R, customer: CustomerKey) -> Option<OrderStatus>
    requires { R.Stand then.now }
    ensures { result
        ≡ status_of (R.rows_of then.now).order_lines
        (last_order customer (R.rows_of then.now).orders) }
{
    let (key, order) = match then.last_order(customer) {
        Some(last) => last,
        None => return None,
    };
    let number = key.order;
    let lines = then.lines(key);
    Some(OrderStatus {
        number,
        entry: order.entry,
        carrier: order.carrier,
        lines,
    })
}

/// Gives what Order-Status answers of now or of a moment: the customer's C_ID and C_BALANCE, and
/// the customer's newest order with its lines (clauses 2.6.2.2 and 2.6.3). `NoCustomer` if nobody
/// had the number or the last name.
#[tactic(auto, using(crate::proofs::AnswerFacts::status_told, crate::proofs::AnswerFacts::nobody, crate::proofs::AnswerFacts::no_row))]
pub fn order_status<R: RowsOf>(then: &R, query: &StatusQuery) -> Result<StatusReply, Refusal>
    requires { R.Stand then.now }
    ensures reply { IfOk result
        (λ y. order_status query.now (R.rows_of then.now) ≡ Here (told.Status y)) }
    ensures refusal { IfErr result
        (λ e. order_status query.now (R.rows_of then.now) ≡ Missing e) }
{
    let Some(number) = meant(then, &query.district, &query.customer) else {
        return Err(Refusal::NoCustomer);
    };
    let key = query.district.customer(number);
    let Some(balance) = then.balance(&key) else {
        return Err(Refusal::NoCustomer);
    };
    let order = newest_order(then, key);
    Ok(StatusReply {
        customer: number,
        balance,
        order,
    })
}
