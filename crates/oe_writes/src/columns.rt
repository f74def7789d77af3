//! The records of writes that have the columns which an update changes, lent from where they lie.
ghost use Rattle.std.specs.Prelude.{◌≡◌, Some, None, option_map};
ghost use Rattle.oe_rows.specs.declared.layouts.Layout.TheVariants.{ChangedColumns};
ghost use Rattle.oe_layout.specs.Records.{record_of_lent};
ghost use Rattle.oe_change.specs.declared.writes.Write.TheVariants as writes;
ghost use Rattle.oe_store.specs.Places.{rows};
ghost use Rattle.oe_writes.specs.Records.{record_of_write};

use crate::parts;
use oe_layout::LentRecord;
use oe_rows::customers::Account;
use oe_rows::items::StockCounters;
use oe_rows::{CustomerKey, DistrictKey, OrderKey, OrderLineKey, StockKey, WarehouseKey};
use oe_store::Tables;
use oe_values::{Carrier, OrderNumber, Stamp, Text, YearToDate};

/// Gives the record of a W_YTD that is set, if the warehouse is there.
#[inline(always)]
pub(crate) fn warehouse_ytd<'a>(
    tables: &'a Tables,
    key: &WarehouseKey,
    ytd: YearToDate,
) -> Option<LentRecord<'a>>
    ensures { option_map record_of_lent result
        ≡ record_of_write ChangedColumns (writes.WarehouseYtd key.now ytd) (rows tables.now) }
{
    match tables.warehouse(*key) {
        Some(row) => {
            let part = parts::of_warehouse_ytd(row, ytd);
            Some(LentRecord::ChangedWarehouse(*key, part))
        }
        None => None,
    }
}

/// Gives the record of a D_YTD that is set, if the district is there.
#[inline(always)]
pub(crate) fn district_ytd<'a>(
    tables: &'a Tables,
    key: &DistrictKey,
    ytd: YearToDate,
) -> Option<LentRecord<'a>>
    ensures { option_map record_of_lent result
        ≡ record_of_write ChangedColumns (writes.DistrictYtd key.now ytd) (rows tables.now) }
{
    match tables.district(*key) {
        Some(row) => {
            let part = parts::of_district_ytd(row, ytd);
            Some(LentRecord::ChangedDistrict(*key, part))
        }
        None => None,
    }
}

/// Gives the record of a D_NEXT_O_ID that is set, if the district is there.
#[inline(always)]
pub(crate) fn next_order<'a>(
    tables: &'a Tables,
    key: &DistrictKey,
    order: OrderNumber,
) -> Option<LentRecord<'a>>
    ensures { option_map record_of_lent result
        ≡ record_of_write ChangedColumns (writes.NextOrder key.now order) (rows tables.now) }
{
    match tables.district(*key) {
        Some(row) => {
            let part = parts::of_next_order(row, order);
            Some(LentRecord::ChangedDistrict(*key, part))
        }
        None => None,
    }
}

/// Gives the record of a customer's account that is set, if the customer is there.
#[inline(always)]
pub(crate) fn customer_account<'a>(
    tables: &'a Tables,
    key: &CustomerKey,
    account: &'a Account,
) -> Option<LentRecord<'a>>
    ensures { option_map record_of_lent result
        ≡ record_of_write ChangedColumns (writes.CustomerAccount key.now account.now)
        (rows tables.now) }
{
    match tables.customer(*key) {
        Some(row) => {
            let part = parts::of_account(row, account);
            Some(LentRecord::ChangedCustomer(*key, part))
        }
        None => None,
    }
}

/// Gives the record of an account and of an entry before C_DATA, if the customer is there.
#[inline(always)]
pub(crate) fn bad_credit<'a>(
    tables: &'a Tables,
    key: &CustomerKey,
    account: &'a Account,
    entry: &Text<0, 90>,
) -> Option<LentRecord<'a>>
    ensures { option_map record_of_lent result
        ≡ record_of_write ChangedColumns (writes.BadCredit key.now account.now entry.now)
        (rows tables.now) }
{
    match tables.customer(*key) {
        Some(row) => {
            let part = parts::of_bad_credit(row, account, entry);
            Some(LentRecord::ChangedCustomer(*key, part))
        }
        None => None,
    }
}

/// Gives the record of a customer's names that are set, if the customer is there.
#[inline(never)]
pub(crate) fn customer_names<'a>(
    tables: &'a Tables,
    key: &CustomerKey,
    last: &Text<0, 16>,
    first: &Text<0, 16>,
) -> Option<LentRecord<'a>>
    ensures { option_map record_of_lent result
        ≡ record_of_write ChangedColumns (writes.CustomerNames key.now last.now first.now)
        (rows tables.now) }
{
    match tables.customer(*key) {
        Some(row) => {
            let part = parts::of_names(row, last, first);
            Some(LentRecord::RenamedCustomer(*key, part))
        }
        None => None,
    }
}

/// Gives the record of a stock's counters that are set, if the stock is there.
#[inline(always)]
pub(crate) fn stock_counters<'a>(
    tables: &'a Tables,
    key: &StockKey,
    counters: &StockCounters,
) -> Option<LentRecord<'a>>
    ensures { option_map record_of_lent result
        ≡ record_of_write ChangedColumns (writes.StockCounters key.now counters.now)
        (rows tables.now) }
{
    match tables.stock(*key) {
        Some(row) => {
            let part = parts::of_counters(row, counters);
            Some(LentRecord::ChangedStock(*key, part))
        }
        None => None,
    }
}

/// Gives the record of an O_CARRIER_ID that is set, if the order is there.
#[inline(always)]
pub(crate) fn carrier<'a>(
    tables: &'a Tables,
    key: &OrderKey,
    carrier: Carrier,
) -> Option<LentRecord<'a>>
    ensures { option_map record_of_lent result
        ≡ record_of_write ChangedColumns (writes.Carrier key.now carrier) (rows tables.now) }
{
    match tables.order(*key) {
        Some(row) => {
            let part = parts::of_carrier(row, carrier);
            Some(LentRecord::ChangedOrder(*key, part))
        }
        None => None,
    }
}

/// Gives the record of an OL_DELIVERY_D that is set, if the line is there.
#[inline(always)]
pub(crate) fn delivery_date<'a>(
    tables: &'a Tables,
    key: &OrderLineKey,
    stamp: Stamp,
) -> Option<LentRecord<'a>>
    ensures { option_map record_of_lent result
        ≡ record_of_write ChangedColumns (writes.DeliveryDate key.now stamp) (rows tables.now) }
{
    match tables.order_line(*key) {
        Some(row) => {
            let part = parts::of_delivery(row, stamp);
            Some(LentRecord::ChangedOrderLine(*key, part))
        }
        None => None,
    }
}
