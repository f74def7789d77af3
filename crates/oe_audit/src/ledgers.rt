//! The sums of a district's customers: what was delivered to each, and what each has paid.
//!
//! A ledger has one sum for each C_ID, 3,000 in all, which lie in the value: it takes no memory. By
//! `IsLedger` it has the sums of the district that it names. The sums of another district replace
//! them; nothing can fail.
ghost use Rattle.std.specs.Prelude.{◌≡◌, ℕ, ◌≤◌, ◌==◌, ◌&&◌, cond, IsTrue, Some};
ghost use Rattle.std.specs.Ordering.{eq_by_cmp};
ghost use Rattle.oe_rows.specs.Key.{customer_cmp};
ghost use Rattle.oe_model.specs.Keys.{customer_in};
ghost use Rattle.oe_store.specs.Places.{rows};
ghost use Rattle.oe_rows_of.specs.Then.{row_then, has_row_then, ArePassed};
ghost use Rattle.oe_audit.specs.Ledgers.{sum_for, HaveGrown, IsPayment, line_adds, line_then_adds, payment_adds, AreDelivered, ArePaid, IsLedger};

use oe_rows::{CustomerKey, DistrictKey, History, HistoryKey, OrderLine, OrderLineKey};
use oe_rows_of::RowsOf;
use oe_values::CustomerNumber;
use std::cmp::Ordering;

/// The sums of the customers of one district, or of none yet.
#[derive(Drop)]
pub struct Ledger {
    pub(crate) district: Option<DistrictKey>,
    pub(crate) delivered: [u64; 3_000],
    pub(crate) paid: [u64; 3_000],
}

/// Gives a sum of 0 for each C_ID.
fn zeros() -> [u64; 3_000]
    ensures { (c : ℕ) → 1 ≤ c → c ≤ 3_000 → sum_for result c ≡ 0 }
{
    [0; 3_000]
}

/// Adds an amount to the sum of a customer, as far as it can grow.
fn add(sums: &mut [u64; 3_000], customer: CustomerNumber, amount: u64)
    ensures { HaveGrown (λ c. cond (customer == c) amount 0) sums.old sums.new }
{
    let at = customer.get() as usize - 1;
    let sum = sums[at];
    sums[at] = sum.saturating_add(amount);
}

/// Adds OL_AMOUNT of a line that stood then, where it has a delivery date, to the sum of its
/// order's customer.
fn add_line<R: RowsOf>(then: &R, key: &OrderLineKey, line: &OrderLine, sums: &mut [u64; 3_000])
    ensures { HaveGrown (line_adds (R.rows_of then.now) key.now line.now)
        sums.old sums.new }
{
    let amount = line.amount.cents();
    if line.delivery.is_none() {
        return;
    }
    match then.order_at(&key.order_key()) {
        Some(order) => add(sums, order.customer, amount),
        None => {}
    }
}

/// Adds what the ORDER-LINE row that a key has then adds, where it has this one now.
fn add_line_then<R: RowsOf>(then: &R, key: &OrderLineKey, row: &OrderLine, sums: &mut [u64; 3_000])
    ensures { HaveGrown (line_then_adds (R.rows_of then.now) key.now
        (row_then (R.are_now then.now) (R.rows_of then.now).order_lines key.now row.now))
        sums.old sums.new }
{
    match then.order_line(key, row) {
        Some(line) => add_line(then, key, &line, sums),
        None => {}
    }
}

/// Gives the sums of OL_AMOUNT with a delivery date, by the O_C_ID of the district's orders.
fn delivered_sums<R: RowsOf>(then: &R, district: &DistrictKey) -> [u64; 3_000]
    requires { ArePassed (R.rows_of then.now) (rows (R.tables_of then.now)) }
    ensures { AreDelivered (R.rows_of then.now) district.now result }
{
    let mut sums = zeros();
    for (key, row) in then.tables().order_lines_of_district(*district) {
        add_line_then(then, key, row, &mut sums);
    }
    sums
}

/// Tells whether a HISTORY row stood then, and is of a payment of a customer of the district.
fn counts<R: RowsOf>(then: &R, district: &DistrictKey, key: &HistoryKey, row: &History) -> bool
    ensures { result ≡ (eq_by_cmp customer_cmp row.now.customer
        (customer_in district.now row.now.customer.customer)
        && has_row_then (R.are_now then.now) (R.rows_of then.now).histories key.now) }
{
    let own = district.customer(row.customer.customer);
    row.customer.cmp(&own) == Ordering::Equal && then.has_history(key)
}

/// Adds H_AMOUNT of a HISTORY row that counts to the sum of the customer who paid.
fn add_payment<R: RowsOf>(
    then: &R,
    district: &DistrictKey,
    key: &HistoryKey,
    row: &History,
    sums: &mut [u64; 3_000],
)
    ensures sums { HaveGrown (payment_adds (R.are_now then.now) (R.rows_of then.now).histories
        district.now (key.now, row.now)) sums.old sums.new }
    ensures ranges { IsPayment key.now row.now }
{
    let _terminal = key.terminal.get();
    let _number = key.number.get();
    let _ordinal = key.ordinal.get();
    let amount = row.amount.cents();
    if !counts(then, district, key, row) {
        return;
    }
    add(sums, row.customer.customer, amount);
}

/// Gives the sums of H_AMOUNT, by the H_C_ID of the district's customers.
fn paid_sums<R: RowsOf>(then: &R, district: &DistrictKey) -> [u64; 3_000]
    requires { ArePassed (R.rows_of then.now) (rows (R.tables_of then.now)) }
    ensures { ArePaid (R.rows_of then.now) district.now result }
{
    let mut sums = zeros();
    for (key, row) in then.tables().histories() {
        add_payment(then, district, key, row, &mut sums);
    }
    sums
}

impl Ledger {
    /// Gives the ledger of no district.
    pub(crate) fn new<R: RowsOf>(then: &R) -> Self
        ensures { IsLedger (R.rows_of then.now) result }
    {
        Ledger {
            district: None,
            delivered: zeros(),
            paid: zeros(),
        }
    }

    /// Tells whether the sums are the district's.
    fn is_of(&self, district: &DistrictKey) -> bool
        ensures { IsTrue result → self.now.district ≡ Some district.now }
    {
        match &self.district {
            Some(own) => own == district,
            None => false,
        }
    }

    /// Takes the sums of a district, unless they are there.
    pub(crate) fn turn_to<R: RowsOf>(&mut self, then: &R, district: &DistrictKey)
        requires passed { ArePassed (R.rows_of then.now) (rows (R.tables_of then.now)) }
        requires ledger { IsLedger (R.rows_of then.now) self.old }
        ensures ledger { IsLedger (R.rows_of then.now) self.new }
        ensures district { self.new.district ≡ Some district.now }
    {
        if self.is_of(district) {
            return;
        }
        self.take_sums(then, district);
    }

    /// Takes the sums of a district. It has room of its own for them, which a call that finds them
    /// there does not pay for.
    #[inline(never)]
    fn take_sums<R: RowsOf>(&mut self, then: &R, district: &DistrictKey)
        requires { ArePassed (R.rows_of then.now) (rows (R.tables_of then.now)) }
        ensures ledger { IsLedger (R.rows_of then.now) self.new }
        ensures district { self.new.district ≡ Some district.now }
    {
        self.delivered = delivered_sums(then, district);
        self.paid = paid_sums(then, district);
        self.district = Some(*district);
    }
}
