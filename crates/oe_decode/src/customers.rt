//! Customers read from the front of bytes, exactly where a customer's image stands there.
ghost use Rattle.std.specs.Prelude.{◌≡◌};
ghost use Rattle.std.specs.Option.{option_map};
ghost use Rattle.std.proofs.Common.{rules};
ghost use Rattle.oe_rows.specs.Customer.{IsCustomerName, IsAccount, IsCustomer};
ghost use Rattle.oe_decode.specs.RowFronts.{customer_at};

use crate::decode::{Decode, Row};
use crate::fronts::Ranged;
use oe_rows::customers::{Account, Credit, Customer, CustomerName};
use oe_rows::warehouses::Address;
use oe_values::numbers::{Balance, YearToDate};
use oe_values::stamps::Stamp;
use oe_values::texts::Text;

impl Row for CustomerName {
    type Columns = (Text<0, 16>, (Text<2, 2>, Text<0, 16>));

    ghost of = { λ c. record { first = c.0; middle = c.1.0; last = c.1.1 } };

    ghost parts = { λ r. (r.first, (r.middle, r.last)) };

    ghost ranges = { IsCustomerName };

    ghost is_row = { Prim.search rules };

    fn of_columns(columns: Self::Columns) -> Self {
        let (first, (middle, last)) = columns;
        CustomerName {
            first,
            middle,
            last,
        }
    }
}

impl Row for Account {
    type Columns = (
        YearToDate,
        (
            Ranged<2, 0, 9_999>,
            (
                Balance,
                (YearToDate, (Ranged<2, 0, 9_999>, Ranged<2, 0, 9_999>)),
            ),
        ),
    );

    ghost of = { λ c. record {
      credit_limit = c.0;
      discount = c.1.0;
      balance = c.1.1.0;
      ytd_payment = c.1.1.1.0;
      payment_count = c.1.1.1.1.0;
      delivery_count = c.1.1.1.1.1;
    } };

    ghost parts = { λ r. (
      r.credit_limit,
      (
        r.discount,
        (
          r.balance,
          (
            r.ytd_payment,
            (r.payment_count, r.delivery_count),
          ),
        ),
      ),
    ) };

    ghost ranges = { IsAccount };

    ghost is_row = { Prim.search rules };

    fn of_columns(columns: Self::Columns) -> Self {
        let (credit_limit, (discount, (balance, (ytd_payment, (payment_count, delivery_count))))) =
            columns;
        Account {
            credit_limit,
            discount: discount.get(),
            balance,
            ytd_payment,
            payment_count: payment_count.get(),
            delivery_count: delivery_count.get(),
        }
    }
}

impl Row for Customer {
    type Columns = (
        (CustomerName, (Address, (Text<16, 16>, Stamp))),
        (Credit, (Account, Text<0, 500>)),
    );

    ghost of = { λ c. record {
      name = c.0.0;
      address = c.0.1.0;
      phone = c.0.1.1.0;
      since = c.0.1.1.1;
      credit = c.1.0;
      account = c.1.1.0;
      «data» = c.1.1.1;
    } };

    ghost parts = { λ r.
        ((r.name, (r.address, (r.phone, r.since))), (r.credit, (r.account, r.data))) };

    ghost ranges = { IsCustomer };

    ghost is_row = { Prim.search rules };

    fn of_columns(columns: Self::Columns) -> Self {
        let ((name, (address, (phone, since))), (credit, (account, data))) = columns;
        Customer {
            name,
            address,
            phone,
            since,
            credit,
            account,
            data,
        }
    }
}

/// Reads the CUSTOMER row at the front of the bytes, and those behind it.
#[tactic(auto, unfolding(crate::specs::RowFronts::customer_at, crate::specs::RowFronts::customer_name_at, crate::specs::RowFronts::address_at, crate::specs::RowFronts::account_at))]
pub fn read_customer(bytes: &[u8]) -> Option<(Customer, &[u8])>
    ensures { option_map (λ x. (x.0, x.1.now)) result ≡ customer_at bytes.now }
{
    Customer::decode(bytes)
}
