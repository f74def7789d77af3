//! The fifth and sixth consistency conditions, of orders, and the seventh, of their lines.
ghost use Rattle.std.specs.Prelude.{◌≡◌, ◌==◌};
ghost use Rattle.oe_model.specs.Audits.{Seventh, passes_5, passes_7};
ghost use Rattle.oe_model.specs.FurtherConditions.{lines_of_order};
ghost use Rattle.oe_store.specs.Places.{rows};
ghost use Rattle.oe_rows_of.specs.Then.{ArePassed};
ghost use Rattle.oe_audit.specs.Walks.{order_condition, passes_order};
ghost use Rattle.oe_audit.specs.Verdict.{IsVerdict};

use crate::districts::{has_more, takes};
use oe_requests::Verdict;
use oe_rows::{Key, Order, OrderKey, OrderLine, OrderLineKey};
use oe_rows_of::RowsOf;

/// The conditions that are asked of each order.
pub(crate) enum OrderCondition {
    Fifth,
    Sixth,
}

/// Tells whether O_CARRIER_ID is null exactly where the order has a NEW-ORDER row (clause 3.3.2.5).
pub(crate) fn passes_fifth<R: RowsOf>(then: &R, key: &OrderKey, order: &Order) -> bool
    ensures { result ≡ passes_5 (R.rows_of then.now) key.now order.now }
{
    let waits = then.has_new_order(&key.new_order_key());
    match order.carrier {
        None => waits,
        Some(_) => !waits,
    }
}

/// Tells whether O_OL_CNT is the number of the order's ORDER-LINE rows (clause 3.3.2.6).
pub(crate) fn passes_sixth<R: RowsOf>(then: &R, key: &OrderKey, line_count: u32) -> bool
    requires { ArePassed (R.rows_of then.now) (rows (R.tables_of then.now)) }
    ensures { result
        ≡ (line_count == lines_of_order (R.rows_of then.now) key.now) }
{
    let mut lines = then.tables().order_lines_of(*key);
    let enough = takes(&mut lines, then, line_count);
    if !enough {
        return false;
    }
    let has_more = has_more(&mut lines, then);
    !has_more
}

/// Tells whether an order with this row passes a condition.
fn passes<R: RowsOf>(condition: &OrderCondition, then: &R, key: &OrderKey, order: &Order) -> bool
    requires { ArePassed (R.rows_of then.now) (rows (R.tables_of then.now)) }
    ensures { result
        ≡ passes_order condition.now (R.rows_of then.now) key.now order.now }
{
    match condition {
        OrderCondition::Fifth => passes_fifth(then, key, order),
        OrderCondition::Sixth => passes_sixth(then, key, order.line_count.get()),
    }
}

/// Gives the verdict of a condition of orders (clauses 3.3.2.5 and 3.3.2.6).
pub(crate) fn of_orders<R: RowsOf>(condition: &OrderCondition, then: &R) -> Verdict
    requires { ArePassed (R.rows_of then.now) (rows (R.tables_of then.now)) }
    ensures { IsVerdict (order_condition condition.now) (R.rows_of then.now) result }
{
    for (key, row) in then.tables().orders() {
        match then.order(key, row) {
            Some(order) => {
                if !passes(condition, then, key, &order) {
                    return Verdict::Fails(Key::Order(*key));
                }
            }
            None => {}
        }
    }
    Verdict::Holds
}

/// Tells whether OL_DELIVERY_D is null exactly where the order's O_CARRIER_ID is (clause 3.3.2.7).
pub(crate) fn passes_seventh<R: RowsOf>(then: &R, key: &OrderLineKey, line: &OrderLine) -> bool
    ensures { result ≡ passes_7 (R.rows_of then.now) key.now line.now }
{
    match then.order_at(&key.order_key()) {
        Some(order) => match line.delivery {
            None => order.carrier.is_none(),
            Some(_) => order.carrier.is_some(),
        },
        None => true,
    }
}

/// Gives the verdict of the seventh condition (clause 3.3.2.7).
pub(crate) fn seventh<R: RowsOf>(then: &R) -> Verdict
    requires { ArePassed (R.rows_of then.now) (rows (R.tables_of then.now)) }
    ensures { IsVerdict Seventh (R.rows_of then.now) result }
{
    for (key, row) in then.tables().order_lines() {
        match then.order_line(key, row) {
            Some(line) => {
                if !passes_seventh(then, key, &line) {
                    return Verdict::Fails(Key::OrderLine(*key));
                }
            }
            None => {}
        }
    }
    Verdict::Holds
}
