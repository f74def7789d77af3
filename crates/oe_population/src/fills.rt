//! The tables of the population, filled key after key in their order; each public function fills
//! one table, or is refused memory.
ghost use Rattle.std.specs.Prelude.{◌≡◌, ◌≤◌, ◌<◌, ◌+◌, ◌*◌, ◌/◌, ◌%◌, OnOk, IfOk};
ghost use Rattle.std.specs.FinMap.{empty};
ghost use Rattle.oe_rows.specs.Key.{warehouse_cmp, district_cmp, customer_cmp, history_cmp, new_order_cmp, order_cmp, order_line_cmp, item_cmp, stock_cmp};
ghost use Rattle.oe_table.specs.Table.{rows_of};
ghost use Rattle.oe_model.specs.Population.{warehouse_of, district_of, customer_of, history_of, counted_customer, order_of, line_of, item_of, stock_of, has_warehouse, has_district, has_customer, has_history, has_new_order, has_order, has_line, has_item, has_stock, is_delivered};
ghost use Rattle.oe_population.specs.Fill.{IsFree, Fills};
ghost use Rattle.oe_population.specs.Group.{no_columns, is_new_order, customers_in, histories_in, new_orders_in, orders_in, lines_in, lines_under, stocks_in};

use crate::formulas::{
    customer_row, district_row, history_key_of, history_row, item_row, last_delivered_order,
    line_count, line_row, order_row, stock_row, warehouse_row,
};
use oe_index::{Customers, Orders};
use oe_rows::{
    CustomerKey, District, DistrictKey, History, HistoryKey, Item, ItemKey, NewOrder, NewOrderKey,
    Order, OrderKey, OrderLine, OrderLineKey, Scale, Stock, StockKey, Warehouse, WarehouseKey,
};
use oe_table::shelves::Shelves;
use oe_values::known::number;
use oe_values::{CustomerNumber, NoMemory, WarehouseNumber};
use std::alloc::Global;

/// How many lines an order has at most. Memory for as many is taken, so that the first orders
/// behind the population want none.
const MOST_LINES: usize = 15;

/// Makes the warehouses.
pub(crate) fn warehouses(
    alloc: Global,
    scale: &Scale,
) -> Result<Shelves<WarehouseKey, Warehouse>, NoMemory>
    ensures { IfOk result
        (λ t. Fills (has_warehouse scale.now) (λ k. warehouse_of scale.now k.warehouse) empty
        (rows_of warehouse_cmp t)) }
{
    let mut table = Shelves::new(alloc);
    for before in 0..scale.warehouses.get() {
        let key = WarehouseKey {
            warehouse: number(before + 1),
        };
        table.put_new(key, warehouse_row(scale, key.warehouse))?;
    }
    Ok(table)
}

/// Gives the district of an ordinal from 0 on, where districts stand in the order of their keys.
fn district_at(ordinal: u32) -> DistrictKey
    requires { ordinal < 160 }
    ensures { result ≡ record { warehouse = ordinal / 10 + 1; district = ordinal % 10 + 1 } }
{
    DistrictKey {
        warehouse: number(ordinal / 10 + 1),
        district: number(ordinal % 10 + 1),
    }
}

/// Makes the districts, ten of each warehouse.
pub(crate) fn districts(
    alloc: Global,
    scale: &Scale,
) -> Result<Shelves<DistrictKey, District>, NoMemory>
    ensures { IfOk result
        (λ t. Fills (has_district scale.now) (λ k. district_of scale.now k.district) empty
        (rows_of district_cmp t)) }
{
    let mut table = Shelves::new(alloc);
    for ordinal in 0..10 * scale.warehouses.get() {
        let key = district_at(ordinal);
        table.put_new(key, district_row(scale, key.district))?;
    }
    Ok(table)
}

/// Puts the customers of a district.
fn fill_customers(
    table: &mut Customers,
    scale: &Scale,
    district: DistrictKey,
) -> Result<(), NoMemory>
    requires { IsFree (customers_in district scale.now) (rows_of customer_cmp table.old.places) }
    ensures { OnOk result
        (Fills (customers_in district scale.now) (λ k. customer_of k.customer)
        (rows_of customer_cmp table.old.places) (rows_of customer_cmp table.new.places)) }
{
    let first = CustomerKey {
        warehouse: district.warehouse,
        district: district.district,
        customer: number(1),
    };
    table.reserve(&first, scale.customers.get() as usize)?;
    for before in 0..scale.customers.get() {
        let key = CustomerKey {
            customer: number(before + 1),
            ..first
        };
        table.put_new(key, customer_row(key.customer))?;
    }
    Ok(())
}

/// Makes the customers of all districts.
pub(crate) fn customers(alloc: Global, scale: &Scale) -> Result<Customers, NoMemory>
    ensures { IfOk result
        (λ t. Fills (has_customer scale.now) (λ k. customer_of k.customer) empty
        (rows_of customer_cmp t.places)) }
{
    let mut table = Customers::new(alloc);
    for ordinal in 0..10 * scale.warehouses.get() {
        fill_customers(&mut table, scale, district_at(ordinal))?;
    }
    Ok(table)
}

/// Puts the histories of a district's customers.
fn fill_histories(
    table: &mut Shelves<HistoryKey, History>,
    scale: &Scale,
    district: DistrictKey,
) -> Result<(), NoMemory>
    requires { IsFree (histories_in district scale.now) (rows_of history_cmp table.old) }
    ensures { OnOk result
        (Fills (histories_in district scale.now)
        (λ k. history_of (counted_customer scale.now k.number)) (rows_of history_cmp table.old)
        (rows_of history_cmp table.new)) }
{
    for before in 0..scale.customers.get() {
        let customer = CustomerKey {
            warehouse: district.warehouse,
            district: district.district,
            customer: number(before + 1),
        };
        let key = history_key_of(scale, &customer);
        table.put_new(key, history_row(customer))?;
    }
    Ok(())
}

/// Makes a history of each customer.
pub(crate) fn histories(
    alloc: Global,
    scale: &Scale,
) -> Result<Shelves<HistoryKey, History>, NoMemory>
    ensures { IfOk result
        (λ t. Fills (has_history scale.now)
        (λ k. history_of (counted_customer scale.now k.number)) empty (rows_of history_cmp t)) }
{
    let mut table = Shelves::new(alloc);
    for ordinal in 0..10 * scale.warehouses.get() {
        fill_histories(&mut table, scale, district_at(ordinal))?;
    }
    Ok(table)
}

/// Puts a NEW-ORDER row, where the order is not delivered.
fn put_undelivered(
    table: &mut Shelves<NewOrderKey, NewOrder>,
    scale: &Scale,
    key: NewOrderKey,
) -> Result<(), NoMemory>
    requires { IsFree (is_new_order scale.now key) (rows_of new_order_cmp table.old) }
    ensures { OnOk result
        (Fills (is_new_order scale.now key) (λ k. no_columns) (rows_of new_order_cmp table.old)
        (rows_of new_order_cmp table.new)) }
{
    if key.order.get() <= last_delivered_order(scale) {
        return Ok(());
    }
    table.put_new(key, NewOrder)
}

/// Puts the NEW-ORDER rows of a district.
fn fill_new_orders(
    table: &mut Shelves<NewOrderKey, NewOrder>,
    scale: &Scale,
    district: DistrictKey,
) -> Result<(), NoMemory>
    requires { IsFree (new_orders_in district scale.now) (rows_of new_order_cmp table.old) }
    ensures { OnOk result
        (Fills (new_orders_in district scale.now) (λ k. no_columns)
        (rows_of new_order_cmp table.old) (rows_of new_order_cmp table.new)) }
{
    for before in 0..scale.customers.get() {
        let key = NewOrderKey {
            warehouse: district.warehouse,
            district: district.district,
            order: number(before + 1),
        };
        put_undelivered(table, scale, key)?;
    }
    Ok(())
}

/// Makes the orders that are not delivered.
pub(crate) fn new_orders(
    alloc: Global,
    scale: &Scale,
) -> Result<Shelves<NewOrderKey, NewOrder>, NoMemory>
    ensures { IfOk result
        (λ t. Fills (has_new_order scale.now) (λ k. no_columns) empty (rows_of new_order_cmp t)) }
{
    let mut table = Shelves::new(alloc);
    for ordinal in 0..10 * scale.warehouses.get() {
        fill_new_orders(&mut table, scale, district_at(ordinal))?;
    }
    Ok(table)
}

/// Puts the orders of a district.
fn fill_orders(table: &mut Orders, scale: &Scale, district: DistrictKey) -> Result<(), NoMemory>
    requires { IsFree (orders_in district scale.now) (rows_of order_cmp table.old.places) }
    ensures { OnOk result
        (Fills (orders_in district scale.now) (λ k. order_of scale.now k.order)
        (rows_of order_cmp table.old.places) (rows_of order_cmp table.new.places)) }
{
    for before in 0..scale.customers.get() {
        let customer: CustomerNumber = number(before + 1);
        let key = OrderKey {
            warehouse: district.warehouse,
            district: district.district,
            order: number(before + 1),
        };
        let row = order_row(scale, customer);
        let _carrier = row.carrier;
        table.put_new(key, row)?;
    }
    Ok(())
}

/// Makes as many orders of each district as it has customers.
pub(crate) fn orders(alloc: Global, scale: &Scale) -> Result<Orders, NoMemory>
    ensures { IfOk result
        (λ t. Fills (has_order scale.now) (λ k. order_of scale.now k.order) empty
        (rows_of order_cmp t.places)) }
{
    let mut table = Orders::new(alloc);
    for ordinal in 0..10 * scale.warehouses.get() {
        fill_orders(&mut table, scale, district_at(ordinal))?;
    }
    Ok(table)
}

/// Puts the lines of an order.
fn fill_order_lines(
    table: &mut Shelves<OrderLineKey, OrderLine>,
    scale: &Scale,
    order: OrderKey,
) -> Result<(), NoMemory>
    requires { IsFree (lines_under order) (rows_of order_line_cmp table.old) }
    ensures { OnOk result
        (Fills (lines_under order) (line_of scale.now) (rows_of order_line_cmp table.old)
        (rows_of order_line_cmp table.new)) }
{
    for before in 0..line_count(order.order.get()).get() {
        let key = OrderLineKey {
            warehouse: order.warehouse,
            district: order.district,
            order: order.order,
            number: number(before + 1),
        };
        table.put_new(key, line_row(scale, &key))?;
    }
    Ok(())
}

/// Puts the lines of a district's orders.
fn fill_lines(
    table: &mut Shelves<OrderLineKey, OrderLine>,
    scale: &Scale,
    district: DistrictKey,
) -> Result<(), NoMemory>
    requires { IsFree (lines_in district scale.now) (rows_of order_line_cmp table.old) }
    ensures { OnOk result
        (Fills (lines_in district scale.now) (line_of scale.now) (rows_of order_line_cmp table.old)
        (rows_of order_line_cmp table.new)) }
{
    let first = OrderLineKey {
        warehouse: district.warehouse,
        district: district.district,
        order: number(1),
        number: number(1),
    };
    table.reserve(&first, MOST_LINES * scale.customers.get() as usize)?;
    for before in 0..scale.customers.get() {
        let order = OrderKey {
            warehouse: district.warehouse,
            district: district.district,
            order: number(before + 1),
        };
        fill_order_lines(table, scale, order)?;
    }
    Ok(())
}

/// Makes the lines of all orders.
pub(crate) fn order_lines(
    alloc: Global,
    scale: &Scale,
) -> Result<Shelves<OrderLineKey, OrderLine>, NoMemory>
    ensures { IfOk result
        (λ t. Fills (has_line scale.now) (line_of scale.now) empty (rows_of order_line_cmp t)) }
{
    let mut table = Shelves::new(alloc);
    for ordinal in 0..10 * scale.warehouses.get() {
        fill_lines(&mut table, scale, district_at(ordinal))?;
    }
    Ok(table)
}

/// Makes the items.
pub(crate) fn items(alloc: Global, scale: &Scale) -> Result<Shelves<ItemKey, Item>, NoMemory>
    ensures { IfOk result
        (λ t. Fills (has_item scale.now) (λ k. item_of k.item) empty (rows_of item_cmp t)) }
{
    let mut table = Shelves::new(alloc);
    for before in 0..scale.items.get() {
        let key = ItemKey {
            item: number(before + 1),
        };
        table.put_new(key, item_row(key.item))?;
    }
    Ok(table)
}

/// Puts the stocks of a warehouse.
fn fill_stocks(
    table: &mut Shelves<StockKey, Stock>,
    scale: &Scale,
    warehouse: WarehouseNumber,
) -> Result<(), NoMemory>
    requires { IsFree (stocks_in warehouse scale.now) (rows_of stock_cmp table.old) }
    ensures { OnOk result
        (Fills (stocks_in warehouse scale.now) (λ k. stock_of k.warehouse k.item)
        (rows_of stock_cmp table.old) (rows_of stock_cmp table.new)) }
{
    for before in 0..scale.items.get() {
        let key = StockKey {
            warehouse,
            item: number(before + 1),
        };
        table.put_new(key, stock_row(&key))?;
    }
    Ok(())
}

/// Makes a stock of each item in each warehouse.
pub(crate) fn stocks(alloc: Global, scale: &Scale) -> Result<Shelves<StockKey, Stock>, NoMemory>
    ensures { IfOk result
        (λ t. Fills (has_stock scale.now) (λ k. stock_of k.warehouse k.item) empty
        (rows_of stock_cmp t)) }
{
    let mut table = Shelves::new(alloc);
    for before in 0..scale.warehouses.get() {
        fill_stocks(&mut table, scale, number(before + 1))?;
    }
    Ok(table)
}
