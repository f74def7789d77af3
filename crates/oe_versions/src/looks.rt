//! The rows of a moment, as audits and queries ask for them: each call is the version's own.
ghost use Rattle.std.specs.Prelude.{false};
ghost use Rattle.oe_versions.specs.Versions as versions;

use crate::moments::Version;
use oe_requests::StatusLines;
use oe_rows::{
    Account, Customer, CustomerKey, District, DistrictKey, HistoryKey, NewOrderKey, Order,
    OrderKey, OrderLine, OrderLineKey, StockKey, Warehouse, WarehouseKey,
};
use oe_rows_of::RowsOf;
use oe_store::Tables;
use oe_values::{Balance, Count, CustomerNumber, ItemNumber, OrderNumber, Text, YearToDate};

impl<'a> RowsOf for Version<'a> {
    ghost rows_of = { versions.rows_of };

    ghost tables_of = { λ v. v.tables };

    ghost are_now = { λ v. false };

    ghost Stand = { λ v. versions.Stand v.tables v.log };

    #[inline(always)]
    fn tables(&self) -> &Tables {
        Version::tables(self)
    }

    #[inline(always)]
    fn is_settled(&self) -> bool {
        Version::is_settled(self)
    }

    fn are_passed(&self) {}

    #[inline(always)]
    fn warehouse_ytd(&self, key: &WarehouseKey, _row: &Warehouse) -> Option<YearToDate> {
        Version::warehouse_ytd(self, key)
    }

    #[inline(always)]
    fn district_ytd(&self, key: &DistrictKey, _row: &District) -> Option<YearToDate> {
        Version::district_ytd(self, key)
    }

    #[inline(always)]
    fn next_order(&self, key: &DistrictKey, _row: &District) -> Option<OrderNumber> {
        Version::next_order(self, key)
    }

    #[inline(always)]
    fn next_order_at(&self, key: &DistrictKey) -> Option<OrderNumber> {
        Version::next_order(self, key)
    }

    #[inline(always)]
    fn account(&self, key: &CustomerKey, _row: &Customer) -> Option<Account> {
        Version::customer_account(self, key)
    }

    #[inline(always)]
    fn balance(&self, key: &CustomerKey) -> Option<Balance> {
        Version::balance(self, key)
    }

    #[inline(always)]
    fn has_history(&self, key: &HistoryKey) -> bool {
        Version::has_history(self, key)
    }

    #[inline(always)]
    fn has_new_order(&self, key: &NewOrderKey) -> bool {
        Version::has_new_order(self, key)
    }

    #[inline(always)]
    fn order(&self, key: &OrderKey, _row: &Order) -> Option<Order> {
        Version::order(self, key)
    }

    #[inline(always)]
    fn order_at(&self, key: &OrderKey) -> Option<Order> {
        Version::order(self, key)
    }

    #[inline(always)]
    fn order_line(&self, key: &OrderLineKey, _row: &OrderLine) -> Option<OrderLine> {
        Version::order_line(self, key)
    }

    #[inline(always)]
    fn has_order_line(&self, key: &OrderLineKey) -> bool {
        Version::order_line(self, key).is_some()
    }

    #[inline(always)]
    fn item_at(&self, key: &OrderLineKey, line: &OrderLine) -> Option<ItemNumber> {
        Version::item_at(self, key, line)
    }

    #[inline(always)]
    fn stock_quantity(&self, key: &StockKey, now: Option<Count>) -> Option<Count> {
        Version::stock_quantity(self, key, now)
    }

    #[inline(always)]
    fn customer_named(&self, district: &DistrictKey, last: &Text<0, 16>) -> Option<CustomerNumber> {
        Version::customer_named(self, district, last)
    }

    #[inline(always)]
    fn last_order(&self, customer: CustomerKey) -> Option<(OrderKey, Order)> {
        Version::last_order(self, customer)
    }

    #[inline(always)]
    fn lines(&self, order: OrderKey) -> StatusLines {
        Version::lines(self, order)
    }

    ghost same = { λ v. tt };
}
