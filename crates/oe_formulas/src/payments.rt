//! The rows after a payment (clause 2.5.2.2), and the columns that it sets.
ghost use Rattle.std.specs.Prelude.{◌≡◌, ℕ};
ghost use Rattle.oe_rows.specs.Credit.{credit_entry};
ghost use Rattle.oe_formulas.specs.Checks.{row_in_ranges, row_with, with_warehouse_ytd, with_district_ytd, paid_with, credit_ids};
ghost use Rattle.oe_model.specs.Payment.{paid_warehouse, paid_warehouse_out, paid_district, paid_district_out, paid_customer, paid_customer_out, history_data, history_row, history_key};

use oe_requests::{Column, PaymentRequest};
use oe_rows::{
    Account, Credit, CreditIds, Customer, District, History, HistoryKey, Warehouse,
    bad_credit_data, credit_entry,
};
use oe_values::{
    Balance, Count, CustomerNumber, HistoryOrdinal, HistoryTerminal, LineAmount, Terminal, Text,
    TransactionNumber, YearToDate,
};

/// Gives W_YTD after a payment: it rises by the amount. Else W_YTD, which would leave its range.
pub fn warehouse_ytd_after(row: &Warehouse, request: &PaymentRequest) -> Result<YearToDate, Column>
    ensures { row_with (with_warehouse_ytd row.now) result
        ≡ row_in_ranges paid_warehouse_out (paid_warehouse request.now row.now) }
{
    match YearToDate::new(row.ytd.cents() + u64::from(request.amount.get())) {
        Some(ytd) => Ok(ytd),
        None => Err(Column::WarehouseYtd),
    }
}

/// Gives D_YTD after a payment: it rises by the amount. Else D_YTD, which would leave its range.
pub fn district_ytd_after(row: &District, request: &PaymentRequest) -> Result<YearToDate, Column>
    ensures { row_with (with_district_ytd row.now) result
        ≡ row_in_ranges paid_district_out (paid_district request.now row.now) }
{
    match YearToDate::new(row.ytd.cents() + u64::from(request.amount.get())) {
        Some(ytd) => Ok(ytd),
        None => Err(Column::DistrictYtd),
    }
}

/// Gives the keys that a payment by the customer with that number puts before the data of a bad
/// credit.
fn credit_ids(number: CustomerNumber, request: &PaymentRequest) -> CreditIds
    ensures { result ≡ credit_ids number request.now }
{
    CreditIds {
        customer: request.customer_district.customer(number),
        district: request.district,
    }
}

/// Gives what a payment by the customer with that number puts before the data of a bad credit.
pub fn bad_credit_entry(number: CustomerNumber, request: &PaymentRequest) -> Text<0, 90>
    ensures { result ≡ credit_entry (credit_ids number request.now) request.now.amount }
{
    credit_entry(credit_ids(number, request), request.amount)
}

/// Gives a customer's account after a payment: C_BALANCE falls and C_YTD_PAYMENT rises by the
/// amount, C_PAYMENT_CNT rises by 1. Else the first of these columns that would leave its range.
pub fn account_after(row: &Customer, request: &PaymentRequest) -> Result<Account, Column>
    ensures { (c : ℕ) → row_with (paid_with c request.now row.now) result
        ≡ row_in_ranges paid_customer_out (paid_customer c request.now row.now) }
{
    let amount = request.amount.get();
    let Some(balance) = Balance::new(row.account.balance.cents() - i64::from(amount)) else {
        return Err(Column::Balance);
    };
    let Some(ytd_payment) = YearToDate::new(row.account.ytd_payment.cents() + u64::from(amount))
    else {
        return Err(Column::YtdPayment);
    };
    let Some(payment_count) = Count::new(row.account.payment_count.get() + 1) else {
        return Err(Column::PaymentCount);
    };
    Ok(Account {
        balance,
        ytd_payment,
        payment_count,
        ..row.account
    })
}

/// Gives H_DATA of a payment: W_NAME, four spaces, D_NAME.
pub fn history_data(warehouse: &Text<0, 10>, district: &Text<0, 10>) -> Text<0, 24>
    ensures { result ≡ history_data warehouse.now district.now }
{
    // These reads tell that both are texts.
    let _warehouse = warehouse.as_str();
    let _district = district.as_str();
    Text::joined(warehouse, b"    ", district)
}

/// Gives the HISTORY row of a payment by the customer with that number.
pub fn history_row(
    number: CustomerNumber,
    joined: &Text<0, 24>,
    request: &PaymentRequest,
) -> History
    ensures { result ≡ history_row request.now number joined.now }
{
    let amount = match LineAmount::new(u64::from(request.amount.get())) {
        Some(amount) => amount,
        None => unreachable!(),
    };
    History {
        customer: request.customer_district.customer(number),
        district: request.district,
        date: request.stamp,
        amount,
        data: joined.copied(),
    }
}

/// Gives the key of that row, in the terminal's transaction of that number.
pub fn history_key(terminal: Terminal, number: TransactionNumber) -> HistoryKey
    ensures { result ≡ history_key terminal number }
{
    HistoryKey {
        terminal: HistoryTerminal::new(terminal.get()).unwrap(),
        number,
        ordinal: HistoryOrdinal::new(1).unwrap(),
    }
}
