//! The rows after the delivery of an order (clause 2.7.4.2).
ghost use Rattle.std.specs.Prelude.{◌≡◌, ◌↔◌, ◌+ℤ◌, pos, IsTrue, IsSome, IfSome};
ghost use Rattle.oe_formulas.specs.Checks.{row_in_ranges, row_with};
ghost use Rattle.oe_model.specs.Delivery.{delivered_to, delivered_out};
ghost use Rattle.oe_model.specs.Payment.{is_balance};

use oe_requests::Column;
use oe_rows::{Account, Customer};
use oe_values::{Balance, Cents, Count};

/// Gives C_BALANCE after it has risen by a sum, where it stays in its range.
fn balance_after(balance: Balance, sum: Cents) -> Option<Balance>
    ensures variant { IsTrue (is_balance (balance +ℤ pos sum)) ↔ IsSome result }
    ensures value { IfSome result (λ b. b ≡ balance +ℤ pos sum) }
{
    if sum.cents() > 1_999_999_999_998 {
        return None;
    }
    Balance::new(balance.cents() + sum.cents() as i64)
}

/// Gives a customer's account after the delivery: C_BALANCE rises by the sum of the order's
/// OL_AMOUNTs, C_DELIVERY_CNT by 1. Else the first of these columns that would leave its range.
pub fn account_after_delivery(row: &Customer, sum: Cents) -> Result<Account, Column>
    ensures { row_with (λ a. record row.now { account = a }) result
        ≡ row_in_ranges delivered_out (delivered_to sum row.now) }
{
    let Some(balance) = balance_after(row.account.balance, sum) else {
        return Err(Column::Balance);
    };
    let Some(delivery_count) = Count::new(row.account.delivery_count.get() + 1) else {
        return Err(Column::DeliveryCount);
    };
    Ok(Account {
        balance,
        delivery_count,
        ..row.account
    })
}
