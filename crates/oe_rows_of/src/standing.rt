//! The rows as they stand. A row at hand is the key's, and no table is searched for it.
ghost use Rattle.std.specs.Prelude.{true, refl};
ghost use Rattle.oe_store.specs.Places as places;

use crate::lines::told;
use crate::rows::RowsOf;
use oe_requests::StatusLines;
use oe_rows::{
    Account, Customer, CustomerKey, District, DistrictKey, HistoryKey, NewOrderKey, Order,
    OrderKey, OrderLine, OrderLineKey, StockKey, Warehouse, WarehouseKey,
};
use oe_store::Tables;
use oe_values::{Balance, Count, CustomerNumber, ItemNumber, OrderNumber, Text, YearToDate};

impl RowsOf for Tables {
    ghost rows_of = { places.rows };

    ghost tables_of = { λ t. t };

    ghost are_now = { λ t. true };

    ghost Stand = { λ t. Unit {0} };

    #[inline(always)]
    fn tables(&self) -> &Tables {
        self
    }

    #[inline(always)]
    fn is_settled(&self) -> bool {
        true
    }

    #[inline(always)]
    fn are_passed(&self) {
        self.schema_holds();
    }

    #[inline(always)]
    fn warehouse_ytd(&self, _key: &WarehouseKey, row: &Warehouse) -> Option<YearToDate> {
        Some(row.ytd)
    }

    #[inline(always)]
    fn district_ytd(&self, _key: &DistrictKey, row: &District) -> Option<YearToDate> {
        Some(row.ytd)
    }

    #[inline(always)]
    fn next_order(&self, _key: &DistrictKey, row: &District) -> Option<OrderNumber> {
        Some(row.next_order)
    }

    fn next_order_at(&self, key: &DistrictKey) -> Option<OrderNumber> {
        Some(self.district(*key)?.next_order)
    }

    #[inline(always)]
    fn account(&self, _key: &CustomerKey, row: &Customer) -> Option<Account> {
        Some(row.account)
    }

    fn balance(&self, key: &CustomerKey) -> Option<Balance> {
        Some(self.customer(*key)?.account.balance)
    }

    #[inline(always)]
    fn has_history(&self, _key: &HistoryKey) -> bool {
        true
    }

    fn has_new_order(&self, key: &NewOrderKey) -> bool {
        self.new_order(*key).is_some()
    }

    #[inline(always)]
    fn order(&self, _key: &OrderKey, row: &Order) -> Option<Order> {
        Some(*row)
    }

    fn order_at(&self, key: &OrderKey) -> Option<Order> {
        Some(*Tables::order(self, *key)?)
    }

    #[inline(always)]
    fn order_line(&self, _key: &OrderLineKey, row: &OrderLine) -> Option<OrderLine> {
        Some(row.copied())
    }

    #[inline(always)]
    fn has_order_line(&self, _key: &OrderLineKey) -> bool {
        true
    }

    #[inline(always)]
    fn item_at(&self, _key: &OrderLineKey, line: &OrderLine) -> Option<ItemNumber> {
        Some(line.item)
    }

    #[inline(always)]
    fn stock_quantity(&self, _key: &StockKey, now: Option<Count>) -> Option<Count> {
        now
    }

    fn customer_named(&self, district: &DistrictKey, last: &Text<0, 16>) -> Option<CustomerNumber> {
        self.middle(district, last)
    }

    #[tactic(auto, using(crate::proofs::LastOrderFacts::none_last, crate::proofs::LastOrderFacts::last_found, crate::proofs::LastOrderFacts::last_absent))]
    fn last_order(&self, customer: CustomerKey) -> Option<(OrderKey, Order)> {
        let Some(number) = Tables::last_order(self, &customer) else {
            return None;
        };
        let key = customer.district_key().order(number);
        match self.order_at(&key) {
            Some(order) => Some((key, order)),
            None => None,
        }
    }

    fn lines(&self, order: OrderKey) -> StatusLines {
        let mut lines = StatusLines::new();
        for (key, row) in self.order_lines_of(order) {
            let _number = key.number.get();
            lines.push(told(row));
        }
        lines
    }

    ghost same = { λ t. refl };
}
