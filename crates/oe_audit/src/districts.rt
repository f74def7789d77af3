//! Consistency conditions 2 to 4 (clauses 3.3.2.2 to 3.3.2.4) at a district, in the tables or in a
//! version. A walk of its orders and lines gathers what they compare, and takes no memory.
ghost use Rattle.std.specs.Prelude.{◌≡◌, ◌≤◌, ◌+◌, ◌↔◌, ◌==◌, IsTrue};
ghost use Rattle.oe_model.specs.Audits.{greatest, some_and, none_or, order_numbers, new_order_numbers};
ghost use Rattle.oe_store.specs.Places.{rows};
ghost use Rattle.oe_rows_of.specs.Then.{ArePassed};
ghost use Rattle.oe_audit.specs.Walks.{lines_stood, greater_of};
ghost use Rattle.oe_audit.specs.Tests.{is_numbered, are_counted, follows, lines_agree};

use oe_rows::{DistrictKey, OrderLine, OrderLineKey};
use oe_rows_of::RowsOf;
use oe_table::shelf_walks::Rows;
use oe_values::OrderNumber;

/// Gives the greater of a number and the one before it, where there is one.
fn greater(before: Option<u32>, number: u32) -> u32
    ensures { result ≡ greater_of before number }
{
    match before {
        Some(before) => before.max(number),
        None => number,
    }
}

/// Gives the greatest O_ID of a district.
pub(crate) fn last_order<R: RowsOf>(then: &R, key: &DistrictKey) -> Option<u32>
    requires { ArePassed (R.rows_of then.now) (rows (R.tables_of then.now)) }
    ensures { result ≡ greatest (order_numbers key.now (R.rows_of then.now).orders) }
{
    let mut last = None;
    for (order, row) in then.tables().orders_of(*key) {
        let placed = then.order(order, row);
        if placed.is_some() {
            last = Some(greater(last, order.order.get()));
        }
    }
    last
}

/// Gives the greatest NO_O_ID of a district.
pub(crate) fn last_new_order<R: RowsOf>(then: &R, key: &DistrictKey) -> Option<u32>
    requires { ArePassed (R.rows_of then.now) (rows (R.tables_of then.now)) }
    ensures { result
        ≡ greatest (new_order_numbers key.now (R.rows_of then.now).new_orders) }
{
    let mut last = None;
    for (order, _) in then.tables().orders_of(*key) {
        let waits = then.has_new_order(&order.new_order_key());
        if waits {
            last = Some(greater(last, order.order.get()));
        }
    }
    last
}

/// Tells whether there is such a number, and it is the last.
fn is_last(number: Option<u32>, last: u32) -> bool
    ensures { result ≡ some_and number (λ n. n == last) }
{
    match number {
        Some(number) => number == last,
        None => false,
    }
}

/// Tells whether there is no such number, or it is the last.
fn is_last_or_none(number: Option<u32>, last: u32) -> bool
    ensures { result ≡ none_or number (λ n. n == last) }
{
    match number {
        Some(number) => number == last,
        None => true,
    }
}

/// Tells whether D_NEXT_O_ID - 1 is the greatest O_ID, and the greatest NO_O_ID where there is one
/// (clause 3.3.2.2).
pub(crate) fn passes_second<R: RowsOf>(then: &R, key: &DistrictKey, next_order: OrderNumber) -> bool
    requires { ArePassed (R.rows_of then.now) (rows (R.tables_of then.now)) }
    ensures { result ≡ is_numbered (R.rows_of then.now) key.now next_order }
{
    let next = next_order.get();
    let last = next - 1;
    let order = last_order(then, key);
    if !is_last(order, last) {
        return false;
    }
    let new_order = last_new_order(then, key);
    is_last_or_none(new_order, last)
}

/// Tells whether a number is one more than the one before it, where there is one.
fn follows_number(before: Option<u32>, number: u32) -> bool
    requires { 1 ≤ number }
    ensures { result ≡ follows before number }
{
    match before {
        Some(last) => last == number - 1,
        None => true,
    }
}

/// Tells whether the greatest NO_O_ID less the least, and 1, is the number of NEW-ORDER rows
/// (clause 3.3.2.3): in their order each has the number after the one before.
pub(crate) fn passes_third<R: RowsOf>(then: &R, key: &DistrictKey) -> bool
    requires { ArePassed (R.rows_of then.now) (rows (R.tables_of then.now)) }
    ensures { result ≡ are_counted (R.rows_of then.now) key.now }
{
    let mut before = None;
    for (order, _) in then.tables().orders_of(*key) {
        let is_new = then.has_new_order(&order.new_order_key());
        if is_new {
            let number = order.order.get();
            if !follows_number(before, number) {
                return false;
            }
            before = Some(number);
        }
    }
    true
}

/// Takes rows off the front of a walk until `count` of them stood then, and answers whether there
/// were `count`.
pub(crate) fn takes<R: RowsOf>(
    lines: &mut Rows<'_, OrderLineKey, OrderLine>,
    then: &R,
    count: u32,
) -> bool
    ensures enough { IsTrue result
        ↔ (count ≤ lines_stood (R.are_now then.now) (R.rows_of then.now) lines.old) }
    ensures taken { IsTrue result →
        lines_stood (R.are_now then.now) (R.rows_of then.now) lines.new + count
        ≡ lines_stood (R.are_now then.now) (R.rows_of then.now) lines.old }
{
    let mut wanted = count;
    while wanted > 0 {
        let Some((key, _)) = lines.next() else {
            return false;
        };
        let stood = then.has_order_line(key);
        if stood {
            wanted -= 1;
        }
    }
    true
}

/// Tells whether a walk has a row yet that stood then.
pub(crate) fn has_more<R: RowsOf>(lines: &mut Rows<'_, OrderLineKey, OrderLine>, then: &R) -> bool
    ensures { IsTrue result
        ↔ (1 ≤ lines_stood (R.are_now then.now) (R.rows_of then.now) lines.old) }
{
    takes(lines, then, 1)
}

/// Tells whether the sum of O_OL_CNT is the number of ORDER-LINE rows (clause 3.3.2.4): the orders
/// take their numbers of rows off the walk of the lines, and none is left.
pub(crate) fn passes_fourth<R: RowsOf>(then: &R, key: &DistrictKey) -> bool
    requires { ArePassed (R.rows_of then.now) (rows (R.tables_of then.now)) }
    ensures { result ≡ lines_agree (R.rows_of then.now) key.now }
{
    let mut lines = then.tables().order_lines_of_district(*key);
    for (order, row) in then.tables().orders_of(*key) {
        match then.order(order, row) {
            Some(placed) => {
                let enough = takes(&mut lines, then, placed.line_count.get());
                if !enough {
                    return false;
                }
            }
            None => {}
        }
    }
    let has_more = has_more(&mut lines, then);
    !has_more
}
