//! The columns that an update changed, read from the front of bytes, exactly where their image
//! stands there, with its mask.
ghost use Rattle.std.specs.Prelude.{◌≡◌, ◌≤◌, ◌<◌, ◌+◌, ◌^◌};
ghost use Rattle.std.specs.Option.{option_map};
ghost use Rattle.oe_decode.specs.BeforeFronts.{digits, address_columns_at, name_columns_at, account_columns_at, ten_columns_at};
ghost use Rattle.oe_decode.specs.BeforeFronts.{warehouse_columns_at, district_columns_at, customer_columns_at};
ghost use Rattle.oe_decode.specs.BeforeFronts.{order_columns_at, order_line_columns_at, stock_columns_at};
ghost use Rattle.oe_decode.specs.BeforeFronts.{warehouse_before_at, district_before_at, customer_before_at};
ghost use Rattle.oe_decode.specs.BeforeFronts.{order_before_at, order_line_before_at, stock_before_at};

use crate::masks::{is_there, read_kept, read_kept_carrier, read_kept_ranged, read_mask};
use oe_rows::before::{
    AccountBefore, AddressBefore, CustomerBefore, CustomerNameBefore, DistrictBefore, OrderBefore,
    OrderLineBefore, StockBefore, WarehouseBefore,
};
use oe_values::texts::Text;

/// Reads an address's columns, of which the mask of `count` columns tells from `from` on.
#[inline]
#[tactic(auto, unfolding(crate::specs::BeforeFronts::address_columns_at))]
fn read_address_columns(
    bytes: &[u8],
    mask: u32,
    count: u32,
    from: u32,
) -> Option<(AddressBefore, &[u8])>
    requires few { count ≤ 24 }
    requires within { from + 5 ≤ count }
    requires small { mask < 2 ^ count }
    ensures { option_map (λ x. (x.0, x.1.now)) result
        ≡ address_columns_at (digits count mask) from bytes.now }
{
    let Some((street_1, rest)) = read_kept(bytes, is_there(mask, count, from)) else {
        return None;
    };
    let Some((street_2, rest)) = read_kept(rest, is_there(mask, count, from + 1)) else {
        return None;
    };
    let Some((city, rest)) = read_kept(rest, is_there(mask, count, from + 2)) else {
        return None;
    };
    let Some((state, rest)) = read_kept(rest, is_there(mask, count, from + 3)) else {
        return None;
    };
    let Some((zip, rest)) = read_kept(rest, is_there(mask, count, from + 4)) else {
        return None;
    };
    let address = AddressBefore {
        street_1,
        street_2,
        city,
        state,
        zip,
    };
    Some((address, rest))
}

/// Reads a name's columns, of which the mask of `count` columns tells from `from` on.
#[inline]
#[tactic(auto, unfolding(crate::specs::BeforeFronts::name_columns_at))]
fn read_name_columns(
    bytes: &[u8],
    mask: u32,
    count: u32,
    from: u32,
) -> Option<(CustomerNameBefore, &[u8])>
    requires few { count ≤ 24 }
    requires within { from + 3 ≤ count }
    requires small { mask < 2 ^ count }
    ensures { option_map (λ x. (x.0, x.1.now)) result
        ≡ name_columns_at (digits count mask) from bytes.now }
{
    let Some((first, rest)) = read_kept(bytes, is_there(mask, count, from)) else {
        return None;
    };
    let Some((middle, rest)) = read_kept(rest, is_there(mask, count, from + 1)) else {
        return None;
    };
    let Some((last, rest)) = read_kept(rest, is_there(mask, count, from + 2)) else {
        return None;
    };
    let name = CustomerNameBefore {
        first,
        middle,
        last,
    };
    Some((name, rest))
}

/// Reads an account's columns, of which the mask of `count` columns tells from `from` on.
#[inline]
#[tactic(auto, unfolding(crate::specs::BeforeFronts::account_columns_at))]
fn read_account_columns(
    bytes: &[u8],
    mask: u32,
    count: u32,
    from: u32,
) -> Option<(AccountBefore, &[u8])>
    requires few { count ≤ 24 }
    requires within { from + 6 ≤ count }
    requires small { mask < 2 ^ count }
    ensures { option_map (λ x. (x.0, x.1.now)) result
        ≡ account_columns_at (digits count mask) from bytes.now }
{
    let Some((credit_limit, rest)) = read_kept(bytes, is_there(mask, count, from)) else {
        return None;
    };
    let Some((discount, rest)) = read_kept_ranged(rest, is_there(mask, count, from + 1), 2) else {
        return None;
    };
    let Some((balance, rest)) = read_kept(rest, is_there(mask, count, from + 2)) else {
        return None;
    };
    let Some((ytd_payment, rest)) = read_kept(rest, is_there(mask, count, from + 3)) else {
        return None;
    };
    let Some((payment_count, rest)) = read_kept_ranged(rest, is_there(mask, count, from + 4), 2)
    else {
        return None;
    };
    let Some((delivery_count, rest)) = read_kept_ranged(rest, is_there(mask, count, from + 5), 2)
    else {
        return None;
    };
    let account = AccountBefore {
        credit_limit,
        discount,
        balance,
        ytd_payment,
        payment_count,
        delivery_count,
    };
    Some((account, rest))
}

/// Reads S_DIST_01 to S_DIST_10, of which the mask of `count` columns tells from `from` on.
#[inline]
#[tactic(auto, unfolding(crate::specs::BeforeFronts::ten_columns_at))]
fn read_ten_columns(
    bytes: &[u8],
    mask: u32,
    count: u32,
    from: u32,
) -> Option<([Option<Text<24, 24>>; 10], &[u8])>
    requires few { count ≤ 24 }
    requires within { from + 10 ≤ count }
    requires small { mask < 2 ^ count }
    ensures { option_map (λ x. (x.0, x.1.now)) result
        ≡ ten_columns_at (digits count mask) from bytes.now }
{
    let Some((d0, rest)) = read_kept(bytes, is_there(mask, count, from)) else {
        return None;
    };
    let Some((d1, rest)) = read_kept(rest, is_there(mask, count, from + 1)) else {
        return None;
    };
    let Some((d2, rest)) = read_kept(rest, is_there(mask, count, from + 2)) else {
        return None;
    };
    let Some((d3, rest)) = read_kept(rest, is_there(mask, count, from + 3)) else {
        return None;
    };
    let Some((d4, rest)) = read_kept(rest, is_there(mask, count, from + 4)) else {
        return None;
    };
    let Some((d5, rest)) = read_kept(rest, is_there(mask, count, from + 5)) else {
        return None;
    };
    let Some((d6, rest)) = read_kept(rest, is_there(mask, count, from + 6)) else {
        return None;
    };
    let Some((d7, rest)) = read_kept(rest, is_there(mask, count, from + 7)) else {
        return None;
    };
    let Some((d8, rest)) = read_kept(rest, is_there(mask, count, from + 8)) else {
        return None;
    };
    let Some((d9, rest)) = read_kept(rest, is_there(mask, count, from + 9)) else {
        return None;
    };
    Some(([d0, d1, d2, d3, d4, d5, d6, d7, d8, d9], rest))
}

/// Reads the columns of a WAREHOUSE row that the mask says are there.
#[tactic(auto, unfolding(crate::specs::BeforeFronts::warehouse_columns_at))]
fn read_warehouse_columns(bytes: &[u8], mask: u32) -> Option<(WarehouseBefore, &[u8])>
    requires { mask < 2 ^ 8 }
    ensures { option_map (λ x. (x.0, x.1.now)) result
        ≡ warehouse_columns_at (digits 8 mask) bytes.now }
{
    let Some((name, rest)) = read_kept(bytes, is_there(mask, 8, 0)) else {
        return None;
    };
    let Some((address, rest)) = read_address_columns(rest, mask, 8, 1) else {
        return None;
    };
    let Some((tax, rest)) = read_kept_ranged(rest, is_there(mask, 8, 6), 2) else {
        return None;
    };
    let Some((ytd, rest)) = read_kept(rest, is_there(mask, 8, 7)) else {
        return None;
    };
    let warehouse = WarehouseBefore {
        name,
        address,
        tax,
        ytd,
    };
    Some((warehouse, rest))
}

/// Reads the changed columns of a WAREHOUSE row, behind their mask, at the front of the bytes, and
/// those behind them.
pub fn read_warehouse_before(bytes: &[u8]) -> Option<(WarehouseBefore, &[u8])>
    ensures { option_map (λ x. (x.0, x.1.now)) result ≡ warehouse_before_at bytes.now }
{
    let Some((mask, rest)) = read_mask(bytes, 1, 8) else {
        return None;
    };
    read_warehouse_columns(rest, mask)
}

/// Reads the columns of a DISTRICT row that the mask says are there.
#[tactic(auto, unfolding(crate::specs::BeforeFronts::district_columns_at))]
fn read_district_columns(bytes: &[u8], mask: u32) -> Option<(DistrictBefore, &[u8])>
    requires { mask < 2 ^ 9 }
    ensures { option_map (λ x. (x.0, x.1.now)) result
        ≡ district_columns_at (digits 9 mask) bytes.now }
{
    let Some((name, rest)) = read_kept(bytes, is_there(mask, 9, 0)) else {
        return None;
    };
    let Some((address, rest)) = read_address_columns(rest, mask, 9, 1) else {
        return None;
    };
    let Some((tax, rest)) = read_kept_ranged(rest, is_there(mask, 9, 6), 2) else {
        return None;
    };
    let Some((ytd, rest)) = read_kept(rest, is_there(mask, 9, 7)) else {
        return None;
    };
    let Some((next_order, rest)) = read_kept_ranged(rest, is_there(mask, 9, 8), 4) else {
        return None;
    };
    let district = DistrictBefore {
        name,
        address,
        tax,
        ytd,
        next_order,
    };
    Some((district, rest))
}

/// Reads the changed columns of a DISTRICT row, behind their mask, at the front of the bytes, and
/// those behind them.
pub fn read_district_before(bytes: &[u8]) -> Option<(DistrictBefore, &[u8])>
    ensures { option_map (λ x. (x.0, x.1.now)) result ≡ district_before_at bytes.now }
{
    let Some((mask, rest)) = read_mask(bytes, 2, 9) else {
        return None;
    };
    read_district_columns(rest, mask)
}

/// Reads the columns of a CUSTOMER row that the mask says are there.
#[tactic(auto, unfolding(crate::specs::BeforeFronts::customer_columns_at))]
fn read_customer_columns(bytes: &[u8], mask: u32) -> Option<(CustomerBefore, &[u8])>
    requires { mask < 2 ^ 18 }
    ensures { option_map (λ x. (x.0, x.1.now)) result
        ≡ customer_columns_at (digits 18 mask) bytes.now }
{
    let Some((name, rest)) = read_name_columns(bytes, mask, 18, 0) else {
        return None;
    };
    let Some((address, rest)) = read_address_columns(rest, mask, 18, 3) else {
        return None;
    };
    let Some((phone, rest)) = read_kept(rest, is_there(mask, 18, 8)) else {
        return None;
    };
    let Some((since, rest)) = read_kept(rest, is_there(mask, 18, 9)) else {
        return None;
    };
    let Some((credit, rest)) = read_kept(rest, is_there(mask, 18, 10)) else {
        return None;
    };
    let Some((account, rest)) = read_account_columns(rest, mask, 18, 11) else {
        return None;
    };
    let Some((data, rest)) = read_kept(rest, is_there(mask, 18, 17)) else {
        return None;
    };
    let customer = CustomerBefore {
        name,
        address,
        phone,
        since,
        credit,
        account,
        data,
    };
    Some((customer, rest))
}

/// Reads the changed columns of a CUSTOMER row, behind their mask, at the front of the bytes, and
/// those behind them.
pub fn read_customer_before(bytes: &[u8]) -> Option<(CustomerBefore, &[u8])>
    ensures { option_map (λ x. (x.0, x.1.now)) result ≡ customer_before_at bytes.now }
{
    let Some((mask, rest)) = read_mask(bytes, 3, 18) else {
        return None;
    };
    read_customer_columns(rest, mask)
}

/// Reads the columns of an ORDER row that the mask says are there.
#[tactic(auto, unfolding(crate::specs::BeforeFronts::order_columns_at))]
fn read_order_columns(bytes: &[u8], mask: u32) -> Option<(OrderBefore, &[u8])>
    requires { mask < 2 ^ 5 }
    ensures { option_map (λ x. (x.0, x.1.now)) result ≡ order_columns_at (digits 5 mask) bytes.now }
{
    let Some((customer, rest)) = read_kept_ranged(bytes, is_there(mask, 5, 0), 2) else {
        return None;
    };
    let Some((entry, rest)) = read_kept(rest, is_there(mask, 5, 1)) else {
        return None;
    };
    let Some((carrier, rest)) = read_kept_carrier(rest, is_there(mask, 5, 2)) else {
        return None;
    };
    let Some((line_count, rest)) = read_kept_ranged(rest, is_there(mask, 5, 3), 1) else {
        return None;
    };
    let Some((all_local, rest)) = read_kept(rest, is_there(mask, 5, 4)) else {
        return None;
    };
    let order = OrderBefore {
        customer,
        entry,
        carrier,
        line_count,
        all_local,
    };
    Some((order, rest))
}

/// Reads the changed columns of an ORDER row, behind their mask, at the front of the bytes, and
/// those behind them.
pub fn read_order_before(bytes: &[u8]) -> Option<(OrderBefore, &[u8])>
    ensures { option_map (λ x. (x.0, x.1.now)) result ≡ order_before_at bytes.now }
{
    let Some((mask, rest)) = read_mask(bytes, 1, 5) else {
        return None;
    };
    read_order_columns(rest, mask)
}

/// Reads the columns of an ORDER-LINE row that the mask says are there.
#[tactic(auto, unfolding(crate::specs::BeforeFronts::order_line_columns_at))]
fn read_order_line_columns(bytes: &[u8], mask: u32) -> Option<(OrderLineBefore, &[u8])>
    requires { mask < 2 ^ 6 }
    ensures { option_map (λ x. (x.0, x.1.now)) result
        ≡ order_line_columns_at (digits 6 mask) bytes.now }
{
    let Some((item, rest)) = read_kept_ranged(bytes, is_there(mask, 6, 0), 4) else {
        return None;
    };
    let Some((supply, rest)) = read_kept_ranged(rest, is_there(mask, 6, 1), 2) else {
        return None;
    };
    let Some((delivery, rest)) = read_kept(rest, is_there(mask, 6, 2)) else {
        return None;
    };
    let Some((quantity, rest)) = read_kept_ranged(rest, is_there(mask, 6, 3), 1) else {
        return None;
    };
    let Some((amount, rest)) = read_kept(rest, is_there(mask, 6, 4)) else {
        return None;
    };
    let Some((dist_info, rest)) = read_kept(rest, is_there(mask, 6, 5)) else {
        return None;
    };
    let line = OrderLineBefore {
        item,
        supply,
        delivery,
        quantity,
        amount,
        dist_info,
    };
    Some((line, rest))
}

/// Reads the changed columns of an ORDER-LINE row, behind their mask, at the front of the bytes,
/// and those behind them.
pub fn read_order_line_before(bytes: &[u8]) -> Option<(OrderLineBefore, &[u8])>
    ensures { option_map (λ x. (x.0, x.1.now)) result ≡ order_line_before_at bytes.now }
{
    let Some((mask, rest)) = read_mask(bytes, 1, 6) else {
        return None;
    };
    read_order_line_columns(rest, mask)
}

/// Reads the columns of a STOCK row that the mask says are there.
#[tactic(auto, unfolding(crate::specs::BeforeFronts::stock_columns_at))]
fn read_stock_columns(bytes: &[u8], mask: u32) -> Option<(StockBefore, &[u8])>
    requires { mask < 2 ^ 15 }
    ensures { option_map (λ x. (x.0, x.1.now)) result
        ≡ stock_columns_at (digits 15 mask) bytes.now }
{
    let Some((quantity, rest)) = read_kept_ranged(bytes, is_there(mask, 15, 0), 2) else {
        return None;
    };
    let Some(ten) = read_ten_columns(rest, mask, 15, 1) else {
        return None;
    };
    let dist_info = ten.0;
    let rest = ten.1;
    let Some((ytd, rest)) = read_kept_ranged(rest, is_there(mask, 15, 11), 4) else {
        return None;
    };
    let Some((order_count, rest)) = read_kept_ranged(rest, is_there(mask, 15, 12), 2) else {
        return None;
    };
    let Some((remote_count, rest)) = read_kept_ranged(rest, is_there(mask, 15, 13), 2) else {
        return None;
    };
    let Some((data, rest)) = read_kept(rest, is_there(mask, 15, 14)) else {
        return None;
    };
    let stock = StockBefore {
        quantity,
        dist_info,
        ytd,
        order_count,
        remote_count,
        data,
    };
    Some((stock, rest))
}

/// Reads the changed columns of a STOCK row, behind their mask, at the front of the bytes, and
/// those behind them.
pub fn read_stock_before(bytes: &[u8]) -> Option<(StockBefore, &[u8])>
    ensures { option_map (λ x. (x.0, x.1.now)) result ≡ stock_before_at bytes.now }
{
    let Some((mask, rest)) = read_mask(bytes, 2, 15) else {
        return None;
    };
    read_stock_columns(rest, mask)
}
