//! Customers.
ghost use Rattle.std.specs.Prelude.{◌≡◌};
ghost use Rattle.oe_rows.specs.declared.keys.Key.TheVariants as kind;
ghost use Rattle.oe_file_rows.specs.Line.{read_as, row_as, columns, group_columns, ReadsRow};
ghost use Rattle.oe_file_rows.specs.Rows.{key_values, name_values, account_values, customer_key_forms, name_forms, account_forms, customer_forms, customer_values};

use crate::columns::FourDecimals;
use crate::fields::Fields;
use crate::forms::LineFault;
use crate::warehouses::address;
use oe_rows::{Account, Customer, CustomerKey, CustomerName};

/// Reads C_W_ID, C_D_ID and C_ID.
fn customer_key(fields: &mut Fields<'_>) -> Result<CustomerKey, LineFault>
    ensures { read_as (λ k. key_values (kind.Customer k)) fields.new result
        ≡ columns customer_key_forms fields.old }
{
    let warehouse = fields.column()?;
    let district = fields.column()?;
    let customer = fields.column()?;
    Ok(CustomerKey {
        warehouse,
        district,
        customer,
    })
}

/// Reads C_FIRST, C_MIDDLE and C_LAST.
fn customer_name(fields: &mut Fields<'_>) -> Result<CustomerName, LineFault>
    ensures { read_as name_values fields.new result ≡ columns name_forms fields.old }
{
    let first = fields.column()?;
    let middle = fields.column()?;
    let last = fields.column()?;
    Ok(CustomerName {
        first,
        middle,
        last,
    })
}

/// Reads C_CREDIT_LIM, C_DISCOUNT, C_BALANCE, C_YTD_PAYMENT, C_PAYMENT_CNT and C_DELIVERY_CNT.
fn account(fields: &mut Fields<'_>) -> Result<Account, LineFault>
    ensures { read_as account_values fields.new result ≡ columns account_forms fields.old }
{
    let credit_limit = fields.column()?;
    let FourDecimals(discount) = fields.column()?;
    let balance = fields.column()?;
    let ytd_payment = fields.column()?;
    let payment_count = fields.column()?;
    let delivery_count = fields.column()?;
    Ok(Account {
        credit_limit,
        discount,
        balance,
        ytd_payment,
        payment_count,
        delivery_count,
    })
}

/// Reads all columns of a CUSTOMER row.
fn customer(fields: &mut Fields<'_>) -> Result<(CustomerKey, Customer), LineFault>
    ensures { row_as customer_values result ≡ group_columns customer_forms fields.old }
{
    let key = customer_key(fields)?;
    let name = customer_name(fields)?;
    let address = address(fields)?;
    let phone = fields.column()?;
    let since = fields.column()?;
    let credit = fields.column()?;
    let account = account(fields)?;
    let data = fields.column()?;
    fields.end()?;
    let row = Customer {
        name,
        address,
        phone,
        since,
        credit,
        account,
        data,
    };
    Ok((key, row))
}

/// Reads the CUSTOMER row that the line spells, and its key. The line stands without its end.
pub fn read_customer(line: &[u8]) -> Result<(CustomerKey, Customer), LineFault>
    ensures { ReadsRow 0 customer_forms customer_values line.now result }
{
    customer(&mut Fields::of(line, 0))
}
