//! The rows of dumped tables, one a line: the columns of clause 1.3.1 parted by one tab byte, the
//! key's columns first.
ghost use Rattle.std.specs.Prelude.{◌≡◌, ◌≤◌, ◌+◌, ◌++◌, length};
ghost use Rattle.arrayvec.specs.ArrayVec.{array_vec_len};
ghost use Rattle.oe_texts.specs.Column.{line_of, with_tabs};
ghost use Rattle.oe_texts.specs.Dump.{address_columns, name_columns, account_columns, standing_columns, supply_columns, count_columns, warehouse_columns, district_columns, customer_columns, reference_columns, history_columns, new_order_columns, order_columns, order_line_columns, item_columns, stock_columns, count_line};

use crate::columns::{
    balance_then, credit_then, flag_then, money_then, nullable_carrier_then, nullable_stamp_then,
    number, rate_then, small_then, stamp_then, text_then,
};
use crate::keys::{columns, tabbed};
use crate::pending::{LONGEST, Pending, SIZE, text};
use oe_rows::{
    Account, Address, Customer, CustomerKey, CustomerName, District, DistrictKey, History,
    HistoryKey, Item, ItemKey, Key, NewOrderKey, Order, OrderKey, OrderLine, OrderLineKey, Stock,
    StockKey, Warehouse, WarehouseKey,
};
use oe_values::Text;

/// Appends the five columns of an address.
fn address(out: &mut Pending, address: &Address)
    requires { array_vec_len out.old + 76 ≤ SIZE }
    ensures items { out.new.items ≡ out.old.items ++ with_tabs (address_columns address.now) }
    ensures len { array_vec_len out.new ≤ array_vec_len out.old + 76 }
{
    text_then(out, address.street_1.as_str(), b'\t');
    text_then(out, address.street_2.as_str(), b'\t');
    text_then(out, address.city.as_str(), b'\t');
    text_then(out, address.state.as_str(), b'\t');
    text_then(out, address.zip.as_str(), b'\t');
}

/// Appends a WAREHOUSE row.
pub fn warehouse_row(out: &mut Pending, key: WarehouseKey, row: &Warehouse)
    requires { array_vec_len out.old + LONGEST ≤ SIZE }
    ensures items { out.new.items ≡ out.old.items ++ line_of (warehouse_columns key row.now) }
    ensures len { array_vec_len out.new ≤ array_vec_len out.old + LONGEST }
{
    tabbed(out, &Key::Warehouse(key));
    text_then(out, row.name.as_str(), b'\t');
    address(out, &row.address);
    rate_then(out, row.tax, b'\t');
    money_then(out, row.ytd.cents(), b'\n');
}

/// Appends a DISTRICT row.
pub fn district_row(out: &mut Pending, key: DistrictKey, row: &District)
    requires { array_vec_len out.old + LONGEST ≤ SIZE }
    ensures items { out.new.items ≡ out.old.items ++ line_of (district_columns key row.now) }
    ensures len { array_vec_len out.new ≤ array_vec_len out.old + LONGEST }
{
    tabbed(out, &Key::District(key));
    text_then(out, row.name.as_str(), b'\t');
    address(out, &row.address);
    rate_then(out, row.tax, b'\t');
    money_then(out, row.ytd.cents(), b'\t');
    small_then(out, row.next_order.get(), b'\n');
}

/// Appends C_FIRST, C_MIDDLE and C_LAST.
fn customer_name(out: &mut Pending, name: &CustomerName)
    requires { array_vec_len out.old + 37 ≤ SIZE }
    ensures items { out.new.items ≡ out.old.items ++ with_tabs (name_columns name.now) }
    ensures len { array_vec_len out.new ≤ array_vec_len out.old + 37 }
{
    text_then(out, name.first.as_str(), b'\t');
    text_then(out, name.middle.as_str(), b'\t');
    text_then(out, name.last.as_str(), b'\t');
}

/// Appends the money and the counts of a customer.
fn account(out: &mut Pending, account: Account)
    requires { array_vec_len out.old + 102 ≤ SIZE }
    ensures items { out.new.items ≡ out.old.items ++ with_tabs (account_columns account) }
    ensures len { array_vec_len out.new ≤ array_vec_len out.old + 102 }
{
    money_then(out, account.credit_limit.cents(), b'\t');
    rate_then(out, account.discount, b'\t');
    balance_then(out, account.balance, b'\t');
    money_then(out, account.ytd_payment.cents(), b'\t');
    small_then(out, account.payment_count.get(), b'\t');
    small_then(out, account.delivery_count.get(), b'\t');
}

/// Appends C_PHONE, C_SINCE and C_CREDIT.
fn standing(out: &mut Pending, row: &Customer)
    requires { array_vec_len out.old + 40 ≤ SIZE }
    ensures items { out.new.items ≡ out.old.items ++ with_tabs (standing_columns row.now) }
    ensures len { array_vec_len out.new ≤ array_vec_len out.old + 40 }
{
    text_then(out, row.phone.as_str(), b'\t');
    stamp_then(out, row.since, b'\t');
    credit_then(out, row.credit, b'\t');
}

/// Appends a CUSTOMER row.
pub fn customer_row(out: &mut Pending, key: CustomerKey, row: &Customer)
    requires { array_vec_len out.old + LONGEST ≤ SIZE }
    ensures items { out.new.items ≡ out.old.items ++ line_of (customer_columns key row.now) }
    ensures len { array_vec_len out.new ≤ array_vec_len out.old + LONGEST }
{
    tabbed(out, &Key::Customer(key));
    customer_name(out, &row.name);
    address(out, &row.address);
    standing(out, row);
    account(out, row.account);
    text_then(out, row.data.as_str(), b'\n');
}

/// Appends H_C_ID, H_C_D_ID, H_C_W_ID, H_D_ID and H_W_ID.
fn references(out: &mut Pending, customer: CustomerKey, district: DistrictKey)
    requires { array_vec_len out.old + 55 ≤ SIZE }
    ensures items { out.new.items
        ≡ out.old.items ++ with_tabs (reference_columns customer district) }
    ensures len { array_vec_len out.new ≤ array_vec_len out.old + 55 }
{
    small_then(out, customer.customer.get(), b'\t');
    small_then(out, customer.district.get(), b'\t');
    small_then(out, customer.warehouse.get(), b'\t');
    small_then(out, district.district.get(), b'\t');
    small_then(out, district.warehouse.get(), b'\t');
}

/// Appends a HISTORY row.
pub fn history_row(out: &mut Pending, key: HistoryKey, row: &History)
    requires { array_vec_len out.old + LONGEST ≤ SIZE }
    ensures items { out.new.items ≡ out.old.items ++ line_of (history_columns key row.now) }
    ensures len { array_vec_len out.new ≤ array_vec_len out.old + LONGEST }
{
    tabbed(out, &Key::History(key));
    references(out, row.customer, row.district);
    stamp_then(out, row.date, b'\t');
    money_then(out, row.amount.cents(), b'\t');
    text_then(out, row.data.as_str(), b'\n');
}

/// Appends a NEW-ORDER row, which has no column but its key's.
pub fn new_order_row(out: &mut Pending, key: NewOrderKey)
    requires { array_vec_len out.old + LONGEST ≤ SIZE }
    ensures items { out.new.items ≡ out.old.items ++ line_of (new_order_columns key) }
    ensures len { array_vec_len out.new ≤ array_vec_len out.old + LONGEST }
{
    columns(out, &Key::NewOrder(key), b'\t');
    out.push(b'\n');
}

/// Appends an ORDER row.
pub fn order_row(out: &mut Pending, key: OrderKey, row: &Order)
    requires { array_vec_len out.old + LONGEST ≤ SIZE }
    ensures items { out.new.items ≡ out.old.items ++ line_of (order_columns key row.now) }
    ensures len { array_vec_len out.new ≤ array_vec_len out.old + LONGEST }
{
    tabbed(out, &Key::Order(key));
    small_then(out, row.customer.get(), b'\t');
    stamp_then(out, row.entry, b'\t');
    nullable_carrier_then(out, row.carrier, b'\t');
    small_then(out, row.line_count.get(), b'\t');
    flag_then(out, row.all_local, b'\n');
}

/// Appends OL_I_ID, OL_SUPPLY_W_ID and OL_DELIVERY_D.
fn supply(out: &mut Pending, row: &OrderLine)
    requires { array_vec_len out.old + 42 ≤ SIZE }
    ensures items { out.new.items ≡ out.old.items ++ with_tabs (supply_columns row.now) }
    ensures len { array_vec_len out.new ≤ array_vec_len out.old + 42 }
{
    small_then(out, row.item.get(), b'\t');
    small_then(out, row.supply.get(), b'\t');
    nullable_stamp_then(out, row.delivery, b'\t');
}

/// Appends an ORDER-LINE row.
pub fn order_line_row(out: &mut Pending, key: OrderLineKey, row: &OrderLine)
    requires { array_vec_len out.old + LONGEST ≤ SIZE }
    ensures items { out.new.items ≡ out.old.items ++ line_of (order_line_columns key row.now) }
    ensures len { array_vec_len out.new ≤ array_vec_len out.old + LONGEST }
{
    tabbed(out, &Key::OrderLine(key));
    supply(out, row);
    small_then(out, row.quantity.get(), b'\t');
    money_then(out, row.amount.cents(), b'\t');
    text_then(out, row.dist_info.as_str(), b'\n');
}

/// Appends an ITEM row.
pub fn item_row(out: &mut Pending, key: ItemKey, row: &Item)
    requires { array_vec_len out.old + LONGEST ≤ SIZE }
    ensures items { out.new.items ≡ out.old.items ++ line_of (item_columns key row.now) }
    ensures len { array_vec_len out.new ≤ array_vec_len out.old + LONGEST }
{
    tabbed(out, &Key::Item(key));
    small_then(out, row.image.get(), b'\t');
    text_then(out, row.name.as_str(), b'\t');
    money_then(out, row.price.cents(), b'\t');
    text_then(out, row.data.as_str(), b'\n');
}

/// Appends S_DIST_01 to S_DIST_10.
fn dist_infos(out: &mut Pending, infos: &[Text<24, 24>])
    requires ten { length infos.now ≤ 10 }
    requires room { array_vec_len out.old + 250 ≤ SIZE }
    ensures items { out.new.items ≡ out.old.items ++ with_tabs infos.now }
    ensures len { array_vec_len out.new ≤ array_vec_len out.old + 250 }
{
    for info in infos {
        text_then(out, info.as_str(), b'\t');
    }
}

/// Appends S_YTD, S_ORDER_CNT and S_REMOTE_CNT.
fn counts(out: &mut Pending, row: &Stock)
    requires { array_vec_len out.old + 33 ≤ SIZE }
    ensures items { out.new.items ≡ out.old.items ++ with_tabs (count_columns row.now) }
    ensures len { array_vec_len out.new ≤ array_vec_len out.old + 33 }
{
    small_then(out, row.ytd.get(), b'\t');
    small_then(out, row.order_count.get(), b'\t');
    small_then(out, row.remote_count.get(), b'\t');
}

/// Appends a STOCK row.
pub fn stock_row(out: &mut Pending, key: StockKey, row: &Stock)
    requires { array_vec_len out.old + LONGEST ≤ SIZE }
    ensures items { out.new.items ≡ out.old.items ++ line_of (stock_columns key row.now) }
    ensures len { array_vec_len out.new ≤ array_vec_len out.old + LONGEST }
{
    tabbed(out, &Key::Stock(key));
    small_then(out, row.quantity.get(), b'\t');
    dist_infos(out, &row.dist_info);
    counts(out, row);
    text_then(out, row.data.as_str(), b'\n');
}

/// Appends the line after a table's rows: `rows <count>`.
pub fn rows(out: &mut Pending, count: u64)
    requires { array_vec_len out.old + LONGEST ≤ SIZE }
    ensures items { out.new.items ≡ out.old.items ++ count_line count }
    ensures len { array_vec_len out.new ≤ array_vec_len out.old + LONGEST }
{
    text(out, b"rows ");
    number(out, count);
    out.push(b'\n');
}
