//! The columns that an update changed, found from the row before and the row after. No call takes
//! memory, and none can fail.
ghost use Rattle.std.specs.Prelude.{◌≡◌};
ghost use Rattle.std.specs.Option.{option_eq};
ghost use Rattle.std.specs.Ordering.{int_eq};
ghost use Rattle.oe_rows.specs.Before.{where_changed, text_before, number_before, texts_before, is_credit, is_flag};
ghost use Rattle.oe_rows.specs.Before.{address_before, warehouse_before, district_before, customer_name_before, account_before};
ghost use Rattle.oe_rows.specs.Before.{customer_before, order_before, order_line_before, stock_before};
ghost use Rattle.std.specs.Prelude.{nat_eq};

use crate::before::{
    AccountBefore, AddressBefore, CustomerBefore, CustomerNameBefore, DistrictBefore, OrderBefore,
    OrderLineBefore, StockBefore, WarehouseBefore,
};
use crate::customers::{Account, Credit, Customer, CustomerName};
use crate::districts::District;
use crate::items::Stock;
use crate::orders::{Order, OrderLine};
use crate::warehouses::{Address, Warehouse};
use oe_values::numbers::{Amount, Balance, Carrier, Number};
use oe_values::stamps::Stamp;
use oe_values::texts::Text;

/// Gives the text before, where it is another one than after.
fn text_before<const LEAST: usize, const MOST: usize>(
    before: &Text<LEAST, MOST>,
    after: &Text<LEAST, MOST>,
) -> Option<Text<LEAST, MOST>>
    ensures { result ≡ text_before before.now after.now }
{
    if before == after {
        None
    } else {
        Some(before.copied())
    }
}

/// Gives the number before, where it is another one than after.
#[inline(always)]
pub fn number_before<const LOW: u32, const HIGH: u32>(
    before: Number<LOW, HIGH>,
    after: Number<LOW, HIGH>,
) -> Option<Number<LOW, HIGH>>
    ensures { result ≡ number_before before.entry after.entry }
{
    if before == after { None } else { Some(before) }
}

/// Gives the amount before, where it is another one than after.
#[inline(always)]
pub fn amount_before<const MOST: u64>(
    before: Amount<MOST>,
    after: Amount<MOST>,
) -> Option<Amount<MOST>>
    ensures { result ≡ number_before before.entry after.entry }
{
    if before == after { None } else { Some(before) }
}

/// Gives the balance before, where it is another one than after.
#[inline(always)]
fn balance_before(before: Balance, after: Balance) -> Option<Balance>
    ensures { result ≡ where_changed int_eq before after }
{
    if before == after { None } else { Some(before) }
}

/// Gives the time before, where it is another one than after.
#[inline(always)]
fn stamp_before(before: Stamp, after: Stamp) -> Option<Stamp>
    ensures { result ≡ number_before before after }
{
    if before == after { None } else { Some(before) }
}

/// Gives the date of delivery before, where it is another one than after.
#[inline(always)]
fn delivery_before(before: Option<Stamp>, after: Option<Stamp>) -> Option<Option<Stamp>>
    ensures { result ≡ where_changed (option_eq nat_eq) before after }
{
    if before == after { None } else { Some(before) }
}

/// Gives the carrier before, where it is another one than after.
#[inline(always)]
fn carrier_before(before: Option<Carrier>, after: Option<Carrier>) -> Option<Option<Carrier>>
    ensures { result ≡ where_changed (option_eq nat_eq) before after }
{
    if before == after { None } else { Some(before) }
}

/// Gives the credit before, where it is another one than after.
#[inline(always)]
fn credit_before(before: Credit, after: Credit) -> Option<Credit>
    ensures { result ≡ where_changed is_credit before after }
{
    match (before, after) {
        (Credit::Good, Credit::Bad) => Some(Credit::Good),
        (Credit::Bad, Credit::Good) => Some(Credit::Bad),
        _ => None,
    }
}

/// Gives the flag before, where it is another one than after.
#[inline(always)]
fn flag_before(before: bool, after: bool) -> Option<bool>
    ensures { result ≡ where_changed is_flag before after }
{
    match (before, after) {
        (true, false) => Some(true),
        (false, true) => Some(false),
        _ => None,
    }
}

/// Gives those of ten texts that are others after.
fn ten_before(before: &[Text<24, 24>; 10], after: &[Text<24, 24>; 10]) -> [Option<Text<24, 24>>; 10]
    ensures { result ≡ texts_before before.now after.now }
{
    [
        text_before(&before[0], &after[0]),
        text_before(&before[1], &after[1]),
        text_before(&before[2], &after[2]),
        text_before(&before[3], &after[3]),
        text_before(&before[4], &after[4]),
        text_before(&before[5], &after[5]),
        text_before(&before[6], &after[6]),
        text_before(&before[7], &after[7]),
        text_before(&before[8], &after[8]),
        text_before(&before[9], &after[9]),
    ]
}

impl AddressBefore {
    /// Gives the columns of an address that are others after.
    pub fn of(before: &Address, after: &Address) -> Self
        ensures { result ≡ address_before before.now after.now }
    {
        AddressBefore {
            street_1: text_before(&before.street_1, &after.street_1),
            street_2: text_before(&before.street_2, &after.street_2),
            city: text_before(&before.city, &after.city),
            state: text_before(&before.state, &after.state),
            zip: text_before(&before.zip, &after.zip),
        }
    }
}

impl WarehouseBefore {
    /// Gives the columns of a WAREHOUSE row that are others after.
    pub fn of(before: &Warehouse, after: &Warehouse) -> Self
        ensures { result ≡ warehouse_before before.now after.now }
    {
        WarehouseBefore {
            name: text_before(&before.name, &after.name),
            address: AddressBefore::of(&before.address, &after.address),
            tax: number_before(before.tax, after.tax),
            ytd: amount_before(before.ytd, after.ytd),
        }
    }
}

impl DistrictBefore {
    /// Gives the columns of a DISTRICT row that are others after.
    pub fn of(before: &District, after: &District) -> Self
        ensures { result ≡ district_before before.now after.now }
    {
        DistrictBefore {
            name: text_before(&before.name, &after.name),
            address: AddressBefore::of(&before.address, &after.address),
            tax: number_before(before.tax, after.tax),
            ytd: amount_before(before.ytd, after.ytd),
            next_order: number_before(before.next_order, after.next_order),
        }
    }
}

impl CustomerNameBefore {
    /// Gives the columns of a customer's name that are others after.
    pub fn of(before: &CustomerName, after: &CustomerName) -> Self
        ensures { result ≡ customer_name_before before.now after.now }
    {
        CustomerNameBefore {
            first: text_before(&before.first, &after.first),
            middle: text_before(&before.middle, &after.middle),
            last: text_before(&before.last, &after.last),
        }
    }
}

impl AccountBefore {
    /// Gives the columns of a customer's money and counts that are others after.
    pub fn of(before: &Account, after: &Account) -> Self
        ensures { result ≡ account_before before.now after.now }
    {
        AccountBefore {
            credit_limit: amount_before(before.credit_limit, after.credit_limit),
            discount: number_before(before.discount, after.discount),
            balance: balance_before(before.balance, after.balance),
            ytd_payment: amount_before(before.ytd_payment, after.ytd_payment),
            payment_count: number_before(before.payment_count, after.payment_count),
            delivery_count: number_before(before.delivery_count, after.delivery_count),
        }
    }
}

impl CustomerBefore {
    /// Gives the columns of a CUSTOMER row that are others after.
    pub fn of(before: &Customer, after: &Customer) -> Self
        ensures { result ≡ customer_before before.now after.now }
    {
        CustomerBefore {
            name: CustomerNameBefore::of(&before.name, &after.name),
            address: AddressBefore::of(&before.address, &after.address),
            phone: text_before(&before.phone, &after.phone),
            since: stamp_before(before.since, after.since),
            credit: credit_before(before.credit, after.credit),
            account: AccountBefore::of(&before.account, &after.account),
            data: text_before(&before.data, &after.data),
        }
    }
}

impl OrderBefore {
    /// Gives the columns of an ORDER row that are others after.
    pub fn of(before: &Order, after: &Order) -> Self
        ensures { result ≡ order_before before.now after.now }
    {
        OrderBefore {
            customer: number_before(before.customer, after.customer),
            entry: stamp_before(before.entry, after.entry),
            carrier: carrier_before(before.carrier, after.carrier),
            line_count: number_before(before.line_count, after.line_count),
            all_local: flag_before(before.all_local, after.all_local),
        }
    }
}

impl OrderLineBefore {
    /// Gives the columns of an ORDER-LINE row that are others after.
    pub fn of(before: &OrderLine, after: &OrderLine) -> Self
        ensures { result ≡ order_line_before before.now after.now }
    {
        OrderLineBefore {
            item: number_before(before.item, after.item),
            supply: number_before(before.supply, after.supply),
            delivery: delivery_before(before.delivery, after.delivery),
            quantity: number_before(before.quantity, after.quantity),
            amount: amount_before(before.amount, after.amount),
            dist_info: text_before(&before.dist_info, &after.dist_info),
        }
    }
}

impl StockBefore {
    /// Gives the columns of a STOCK row that are others after.
    pub fn of(before: &Stock, after: &Stock) -> Self
        ensures { result ≡ stock_before before.now after.now }
    {
        StockBefore {
            quantity: number_before(before.quantity, after.quantity),
            dist_info: ten_before(&before.dist_info, &after.dist_info),
            ytd: number_before(before.ytd, after.ytd),
            order_count: number_before(before.order_count, after.order_count),
            remote_count: number_before(before.remote_count, after.remote_count),
            data: text_before(before.data.as_text(), after.data.as_text()),
        }
    }
}
