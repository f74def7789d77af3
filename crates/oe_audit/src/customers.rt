//! Consistency conditions 10 and 12 (clauses 3.3.2.10 and 3.3.2.12) at the customers of a district,
//! against the ledgers of what was delivered and paid.
ghost use Rattle.std.specs.Prelude.{◌≡◌, ◌≤◌, IsTrue, Some};
ghost use Rattle.oe_store.specs.Places.{rows};
ghost use Rattle.oe_rows_of.specs.Then.{row_then, ArePassed};
ghost use Rattle.oe_audit.specs.Ledgers.{sum_for, customer_condition, passes_then, agrees, IsAccount, IsLedger};
ghost use Rattle.oe_audit.specs.Verdict.{IsVerdict};

use crate::ledgers::Ledger;
use oe_requests::Verdict;
use oe_rows::{Account, Customer, CustomerKey, Key};
use oe_rows_of::RowsOf;
use oe_values::CustomerNumber;

/// The conditions that are asked of each customer.
pub(crate) enum CustomerCondition {
    Tenth,
    Twelfth,
}

/// Tells whether an account agrees with what was delivered to the customer and with what the
/// customer has paid (clauses 3.3.2.10 and 3.3.2.12).
fn agrees(condition: &CustomerCondition, account: &Account, delivered: u64, paid: u64) -> bool
    ensures value { result ≡ agrees condition.now account.now delivered paid }
    ensures ranges { IsAccount account.now }
{
    let balance = i128::from(account.balance.cents());
    let ytd_payment = account.ytd_payment.cents();
    match condition {
        CustomerCondition::Tenth => balance + i128::from(paid) == i128::from(delivered),
        CustomerCondition::Twelfth => balance + i128::from(ytd_payment) == i128::from(delivered),
    }
}

/// Tells whether an account agrees with the ledger's sums of its customer.
fn agrees_with(
    condition: &CustomerCondition,
    ledger: &Ledger,
    customer: CustomerNumber,
    account: &Account,
) -> bool
    ensures value { result ≡ agrees condition.now account.now
        (sum_for ledger.now.delivered customer) (sum_for ledger.now.paid customer) }
    ensures ranges { IsAccount account.now }
    ensures low { 1 ≤ customer }
    ensures high { customer ≤ 3_000 }
{
    let at = customer.get() as usize - 1;
    agrees(condition, account, ledger.delivered[at], ledger.paid[at])
}

/// Tells whether the CUSTOMER row that a key has then, where it has this one now, passes a
/// condition.
pub(crate) fn passes<R: RowsOf>(
    condition: &CustomerCondition,
    then: &R,
    key: &CustomerKey,
    row: &Customer,
    ledger: &mut Ledger,
) -> bool
    requires passed { ArePassed (R.rows_of then.now) (rows (R.tables_of then.now)) }
    requires ledger { IsLedger (R.rows_of then.now) ledger.old }
    ensures ledger { IsLedger (R.rows_of then.now) ledger.new }
    ensures value { result ≡ passes_then condition.now (R.rows_of then.now) key.now
        (row_then (R.are_now then.now) (R.rows_of then.now).customers key.now row.now) }
{
    ledger.turn_to(then, &key.district_key());
    match then.account(key, row) {
        Some(account) => agrees_with(condition, ledger, key.customer, &account),
        None => true,
    }
}

/// Gives the verdict of a condition of customers (clauses 3.3.2.10 and 3.3.2.12).
pub(crate) fn of_customers<R: RowsOf>(condition: &CustomerCondition, then: &R) -> Verdict
    requires { ArePassed (R.rows_of then.now) (rows (R.tables_of then.now)) }
    ensures { IsVerdict (customer_condition condition.now) (R.rows_of then.now) result }
{
    let mut ledger = Ledger::new(then);
    for (key, row) in then.tables().customers() {
        if !passes(condition, then, key, row, &mut ledger) {
            return Verdict::Fails(Key::Customer(*key));
        }
    }
    Verdict::Holds
}
