//! Walks over the tables in the keys' order, whole or of one parent's rows. They take no memory.
ghost use Rattle.std.specs.Prelude.{◌≡◌, ◌+◌, ◌<◌, ◌≤◌, ◌⊎◌, suc};
ghost use Rattle.std.specs.FinMap.{entries};
ghost use Rattle.oe_model.specs.Keys.{warehouse_of_district, district_of_customer, district_of_new_order, district_of_order, order_of_line};
ghost use Rattle.oe_model.specs.Queries.{recent_lines};
ghost use Rattle.oe_rows.specs.Key.{warehouse_cmp, district_cmp, order_cmp};
ghost use Rattle.oe_store.specs.Places.{rows, entries_of};

use crate::tables::Tables;
use oe_rows::{
    Customer, CustomerKey, District, DistrictKey, History, HistoryKey, Item, ItemKey, NewOrder,
    NewOrderKey, Order, OrderKey, OrderLine, OrderLineKey, Stock, StockKey, Warehouse,
    WarehouseKey,
};
use oe_table::shelf_walks::Rows;
use oe_values::{Number, OrderNumber};

/// Gives the least number of a range.
fn least<const LOW: u32, const HIGH: u32>() -> Number<LOW, HIGH>
    requires { LOW ≤ HIGH }
    ensures { result ≡ LOW }
{
    match Number::new(LOW) {
        Some(number) => number,
        None => unreachable!(),
    }
}

/// Gives the greatest number of a range.
fn greatest<const LOW: u32, const HIGH: u32>() -> Number<LOW, HIGH>
    requires { LOW ≤ HIGH }
    ensures { result ≡ HIGH }
{
    match Number::new(HIGH) {
        Some(number) => number,
        None => unreachable!(),
    }
}

/// Gives the first of the last 20 orders before one.
fn first_recent(next: OrderNumber) -> OrderNumber
    ensures least { (result ≡ 1) ⊎ (result + 20 ≡ next) }
    ensures span { next ≤ result + 20 }
{
    let next = next.get();
    let first = if next <= 20 { 1 } else { next - 20 };
    match OrderNumber::new(first) {
        Some(number) => number,
        None => unreachable!(),
    }
}

/// Gives the order before one that is not the first.
fn order_before(next: OrderNumber) -> OrderNumber
    requires { 1 < next }
    ensures { suc result ≡ next }
{
    match OrderNumber::new(next.get() - 1) {
        Some(number) => number,
        None => unreachable!(),
    }
}

impl Tables {
    /// Gives the WAREHOUSE rows with their keys, in the keys' order.
    pub fn warehouses(&self) -> Rows<'_, WarehouseKey, Warehouse>
        ensures { result ≡ entries (rows self.now).warehouses }
    {
        self.warehouses.iter()
    }

    /// Gives the DISTRICT rows with their keys, in the keys' order.
    pub fn districts(&self) -> Rows<'_, DistrictKey, District>
        ensures { result ≡ entries (rows self.now).districts }
    {
        self.districts.iter()
    }

    /// Gives the CUSTOMER rows with their keys, in the keys' order.
    pub fn customers(&self) -> Rows<'_, CustomerKey, Customer>
        ensures { result ≡ entries (rows self.now).customers }
    {
        self.customers.iter()
    }

    /// Gives the HISTORY rows with their keys, in the keys' order.
    pub fn histories(&self) -> Rows<'_, HistoryKey, History>
        ensures { result ≡ entries (rows self.now).histories }
    {
        self.histories.iter()
    }

    /// Gives the NEW-ORDER rows with their keys, in the keys' order.
    pub fn new_orders(&self) -> Rows<'_, NewOrderKey, NewOrder>
        ensures { result ≡ entries (rows self.now).new_orders }
    {
        self.new_orders.iter()
    }

    /// Gives the ORDER rows with their keys, in the keys' order.
    pub fn orders(&self) -> Rows<'_, OrderKey, Order>
        ensures { result ≡ entries (rows self.now).orders }
    {
        self.orders.iter()
    }

    /// Gives the ORDER-LINE rows with their keys, in the keys' order.
    pub fn order_lines(&self) -> Rows<'_, OrderLineKey, OrderLine>
        ensures { result ≡ entries (rows self.now).order_lines }
    {
        self.order_lines.iter()
    }

    /// Gives the ITEM rows with their keys, in the keys' order.
    pub fn items(&self) -> Rows<'_, ItemKey, Item>
        ensures { result ≡ entries (rows self.now).items }
    {
        self.items.iter()
    }

    /// Gives the STOCK rows with their keys, in the keys' order.
    pub fn stocks(&self) -> Rows<'_, StockKey, Stock>
        ensures { result ≡ entries (rows self.now).stocks }
    {
        self.stocks.iter()
    }

    /// Gives the DISTRICT rows of a warehouse, in the keys' order.
    pub fn districts_of(&self, warehouse: WarehouseKey) -> Rows<'_, DistrictKey, District>
        ensures { result ≡ entries_of warehouse_cmp warehouse_of_district warehouse
            (rows self.now).districts }
    {
        let first = DistrictKey {
            warehouse: warehouse.warehouse,
            district: least(),
        };
        let last = DistrictKey {
            district: greatest(),
            ..first
        };
        self.districts.range_inclusive(first, last)
    }

    /// Gives the CUSTOMER rows of a district, in the keys' order.
    pub fn customers_of(&self, district: DistrictKey) -> Rows<'_, CustomerKey, Customer>
        ensures { result ≡ entries_of district_cmp district_of_customer district
            (rows self.now).customers }
    {
        let first = CustomerKey {
            warehouse: district.warehouse,
            district: district.district,
            customer: least(),
        };
        let last = CustomerKey {
            customer: greatest(),
            ..first
        };
        self.customers.range_inclusive(first, last)
    }

    /// Gives the ORDER rows of a district, in the keys' order.
    pub fn orders_of(&self, district: DistrictKey) -> Rows<'_, OrderKey, Order>
        ensures { result ≡ entries_of district_cmp district_of_order district
            (rows self.now).orders }
    {
        let first = OrderKey {
            warehouse: district.warehouse,
            district: district.district,
            order: least(),
        };
        let last = OrderKey {
            order: greatest(),
            ..first
        };
        self.orders.range_inclusive(first, last)
    }

    /// Gives the NEW-ORDER rows of a district, in the keys' order.
    pub fn new_orders_of(&self, district: DistrictKey) -> Rows<'_, NewOrderKey, NewOrder>
        ensures { result ≡ entries_of district_cmp district_of_new_order district
            (rows self.now).new_orders }
    {
        let first = NewOrderKey {
            warehouse: district.warehouse,
            district: district.district,
            order: least(),
        };
        let last = NewOrderKey {
            order: greatest(),
            ..first
        };
        self.new_orders.range_inclusive(first, last)
    }

    /// Gives the ORDER-LINE rows of an order, in the keys' order.
    pub fn order_lines_of(&self, order: OrderKey) -> Rows<'_, OrderLineKey, OrderLine>
        ensures { result ≡ entries_of order_cmp order_of_line order (rows self.now).order_lines }
    {
        let first = OrderLineKey {
            warehouse: order.warehouse,
            district: order.district,
            order: order.order,
            number: least(),
        };
        let last = OrderLineKey {
            number: greatest(),
            ..first
        };
        self.order_lines.range_inclusive(first, last)
    }

    /// Gives the ORDER-LINE rows of a district's last 20 orders before one, in the keys' order.
    pub fn recent_lines(
        &self,
        district: DistrictKey,
        next: OrderNumber,
    ) -> Rows<'_, OrderLineKey, OrderLine>
        requires { 1 < next }
        ensures { result ≡ recent_lines district next (rows self.now).order_lines }
    {
        let from = OrderLineKey {
            warehouse: district.warehouse,
            district: district.district,
            order: first_recent(next),
            number: least(),
        };
        let to = OrderLineKey {
            order: order_before(next),
            number: greatest(),
            ..from
        };
        self.order_lines.range_inclusive(from, to)
    }

    /// Gives the ORDER-LINE rows of a district, in the keys' order.
    pub fn order_lines_of_district(
        &self,
        district: DistrictKey,
    ) -> Rows<'_, OrderLineKey, OrderLine>
        ensures { result ≡ entries_of district_cmp
            (λ k. district_of_order (order_of_line k)) district (rows self.now).order_lines }
    {
        let lowest = OrderLineKey {
            warehouse: district.warehouse,
            district: district.district,
            order: least(),
            number: least(),
        };
        let highest = OrderLineKey {
            order: greatest(),
            number: greatest(),
            ..lowest
        };
        self.order_lines.range_inclusive(lowest, highest)
    }
}
