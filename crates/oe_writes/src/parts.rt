//! The parts of rows that writes change, as they stand before (clauses 2.4.2, 2.5.2 and 2.7.4): a
//! column is compared only where the write sets it. No call takes memory, and none can fail.
ghost use Rattle.std.specs.Prelude.{◌≡◌, ◌++◌, Some, option_map, take};
ghost use Rattle.oe_rows.specs.Before.{text_before, warehouse_before, district_before};
ghost use Rattle.oe_rows.specs.Before.{customer_before, order_before, order_line_before, stock_before};
ghost use Rattle.oe_rows.specs.Credit.{with_entry};
ghost use Rattle.oe_rows.specs.Item.{with_counters};
ghost use Rattle.oe_model.specs.Rename.{with_names};
ghost use Rattle.oe_image.specs.Parts.{warehouse_part, district_part, customer_part};
ghost use Rattle.oe_image.specs.Parts.{customer_name_part, order_part, order_line_part, stock_part};

use oe_image::parts::{
    CustomerNamePart, CustomerPart, DistrictPart, OrderLinePart, OrderPart, StockPart,
    WarehousePart,
};
use oe_rows::columns_before::{amount_before, number_before};
use oe_rows::customers::{Account, Customer};
use oe_rows::districts::District;
use oe_rows::items::{Stock, StockCounters};
use oe_rows::orders::{Order, OrderLine};
use oe_rows::warehouses::Warehouse;
use oe_values::numbers::{Carrier, OrderNumber, YearToDate};
use oe_values::stamps::Stamp;
use oe_values::texts::Text;

/// Lends C_DATA, where an entry before it makes it another one (clause 2.5.2.2).
#[inline(always)]
fn data_before<'a>(data: &'a Text<0, 500>, entry: &Text<0, 90>) -> Option<&'a Text<0, 500>>
    ensures { option_map (λ t. t.now) result
        ≡ text_before data.now (take 500 (entry.now ++ data.now)) }
{
    let after = entry.before(data);
    if *data == after { None } else { Some(data) }
}

/// Gives W_YTD, where it is set to another value.
#[inline(always)]
pub(crate) fn of_warehouse_ytd(row: &Warehouse, ytd: YearToDate) -> WarehousePart
    ensures { warehouse_part result ≡ warehouse_before row.now (record row.now { ytd = ytd }) }
{
    WarehousePart {
        ytd: amount_before(row.ytd, ytd),
    }
}

/// Gives D_YTD, where it is set to another value.
#[inline(always)]
pub(crate) fn of_district_ytd(row: &District, ytd: YearToDate) -> DistrictPart
    ensures { district_part result ≡ district_before row.now (record row.now { ytd = ytd }) }
{
    DistrictPart {
        ytd: amount_before(row.ytd, ytd),
        next_order: None,
    }
}

/// Gives D_NEXT_O_ID, where it is set to another value.
#[inline(always)]
pub(crate) fn of_next_order(row: &District, next_order: OrderNumber) -> DistrictPart
    ensures { district_part result
        ≡ district_before row.now (record row.now { next_order = next_order }) }
{
    DistrictPart {
        ytd: None,
        next_order: number_before(row.next_order, next_order),
    }
}

/// Lends a customer's money and counts, before they are set and after.
#[inline(always)]
pub(crate) fn of_account<'a>(row: &'a Customer, account: &'a Account) -> CustomerPart<'a>
    ensures { customer_part result
        ≡ customer_before row.now (record row.now { account = account.now }) }
{
    CustomerPart {
        before: &row.account,
        after: account,
        data: None,
    }
}

/// Lends a customer's money and counts, before they are set and after, and C_DATA, where an entry
/// before it makes it another one.
#[inline(always)]
pub(crate) fn of_bad_credit<'a>(
    row: &'a Customer,
    account: &'a Account,
    entry: &Text<0, 90>,
) -> CustomerPart<'a>
    ensures { customer_part result
        ≡ customer_before row.now (with_entry account.now entry.now row.now) }
{
    CustomerPart {
        before: &row.account,
        after: account,
        data: data_before(&row.data, entry),
    }
}

/// Lends C_LAST and C_FIRST, each where it is set to another value.
pub(crate) fn of_names<'a>(
    row: &'a Customer,
    last: &Text<0, 16>,
    first: &Text<0, 16>,
) -> CustomerNamePart<'a>
    ensures { customer_name_part result
        ≡ customer_before row.now (with_names last.now first.now row.now) }
{
    CustomerNamePart {
        first: name_before(&row.name.first, first),
        last: name_before(&row.name.last, last),
    }
}

/// Lends a name, where it is set to another one.
fn name_before<'a>(before: &'a Text<0, 16>, after: &Text<0, 16>) -> Option<&'a Text<0, 16>>
    ensures { option_map (λ t. t.now) result ≡ text_before before.now after.now }
{
    if *before == *after {
        None
    } else {
        Some(before)
    }
}

/// Gives O_CARRIER_ID, where it is set to another value.
#[inline(always)]
pub(crate) fn of_carrier(row: &Order, carrier: Carrier) -> OrderPart
    ensures { order_part result ≡ order_before row.now (record row.now { carrier = Some carrier }) }
{
    if row.carrier == Some(carrier) {
        return OrderPart { carrier: None };
    }
    OrderPart {
        carrier: Some(row.carrier),
    }
}

/// Gives OL_DELIVERY_D, where it is set to another value.
#[inline(always)]
pub(crate) fn of_delivery(row: &OrderLine, stamp: Stamp) -> OrderLinePart
    ensures { order_line_part result
        ≡ order_line_before row.now (record row.now { delivery = Some stamp }) }
{
    if row.delivery == Some(stamp) {
        return OrderLinePart { delivery: None };
    }
    OrderLinePart {
        delivery: Some(row.delivery),
    }
}

/// Gives S_QUANTITY, S_YTD, S_ORDER_CNT and S_REMOTE_CNT, each where it is set to another value.
#[inline(always)]
pub(crate) fn of_counters(row: &Stock, counters: &StockCounters) -> StockPart
    ensures { stock_part result ≡ stock_before row.now (with_counters counters.now row.now) }
{
    // For the proof: there are ten columns S_DIST_01 to S_DIST_10.
    let _figures = row.figures();
    StockPart {
        quantity: number_before(row.quantity, counters.quantity),
        ytd: number_before(row.ytd, counters.ytd),
        order_count: number_before(row.order_count, counters.order_count),
        remote_count: number_before(row.remote_count, counters.remote_count),
    }
}
