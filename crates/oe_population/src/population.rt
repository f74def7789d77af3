//! The population by formula (clause 4.3.3.1, with values of this project's own where that draws
//! them at random).
//!
//! The tables are filled three by three, so that no function has more than two behind it where
//! memory is refused. What is there then is dropped by name: a scope that ends would drop it part
//! by part.
ghost use Rattle.std.specs.Prelude.{IfOk};
ghost use Rattle.std.specs.FinMap.{empty};
ghost use Rattle.oe_rows.specs.Key.{warehouse_cmp, district_cmp, customer_cmp, history_cmp, new_order_cmp, order_cmp, order_line_cmp, item_cmp, stock_cmp};
ghost use Rattle.oe_table.specs.Table.{rows_of};
ghost use Rattle.oe_model.specs.Population.{IsPopulated, warehouse_of, district_of, customer_of, history_of, counted_customer, order_of, line_of, item_of, stock_of, has_warehouse, has_district, has_customer, has_history, has_new_order, has_order, has_line, has_item, has_stock};
ghost use Rattle.oe_population.specs.Fill.{Fills};
ghost use Rattle.oe_population.specs.Group.{no_columns};
ghost use Rattle.oe_store.specs.Places.{rows};

use crate::fills;
use oe_index::{Customers, Orders};
use oe_rows::{
    District, DistrictKey, History, HistoryKey, Item, ItemKey, NewOrder, NewOrderKey, OrderLine,
    OrderLineKey, Scale, Stock, StockKey, Warehouse, WarehouseKey,
};
use oe_store::{NineTables, Tables};
use oe_table::shelves::Shelves;
use oe_values::NoMemory;
use std::alloc::Global;

// Warehouses, their districts, and the customers of these.
#[derive(Drop)]
struct Homes {
    warehouses: Shelves<WarehouseKey, Warehouse>,
    districts: Shelves<DistrictKey, District>,
    customers: Customers,
}

// What customers have done.
#[derive(Drop)]
struct Deeds {
    histories: Shelves<HistoryKey, History>,
    new_orders: Shelves<NewOrderKey, NewOrder>,
    orders: Orders,
}

// What was ordered, and what can be.
#[derive(Drop)]
struct Goods {
    order_lines: Shelves<OrderLineKey, OrderLine>,
    items: Shelves<ItemKey, Item>,
    stocks: Shelves<StockKey, Stock>,
}

fn fill_homes(alloc: Global, scale: &Scale) -> Result<Homes, NoMemory>
    ensures warehouses { IfOk result
        (λ t. Fills (has_warehouse scale.now) (λ k. warehouse_of scale.now k.warehouse) empty
        (rows_of warehouse_cmp t.warehouses)) }
    ensures districts { IfOk result
        (λ t. Fills (has_district scale.now) (λ k. district_of scale.now k.district) empty
        (rows_of district_cmp t.districts)) }
    ensures customers { IfOk result
        (λ t. Fills (has_customer scale.now) (λ k. customer_of k.customer) empty
        (rows_of customer_cmp t.customers.places)) }
{
    let warehouses = fills::warehouses(alloc, scale)?;
    let Ok(districts) = fills::districts(alloc, scale) else {
        drop(warehouses);
        return Err(NoMemory);
    };
    let Ok(customers) = fills::customers(alloc, scale) else {
        drop(warehouses);
        drop(districts);
        return Err(NoMemory);
    };
    Ok(Homes {
        warehouses,
        districts,
        customers,
    })
}

fn fill_deeds(alloc: Global, scale: &Scale) -> Result<Deeds, NoMemory>
    ensures histories { IfOk result
        (λ t. Fills (has_history scale.now)
        (λ k. history_of (counted_customer scale.now k.number)) empty
        (rows_of history_cmp t.histories)) }
    ensures new_orders { IfOk result
        (λ t. Fills (has_new_order scale.now) (λ k. no_columns) empty
        (rows_of new_order_cmp t.new_orders)) }
    ensures orders { IfOk result
        (λ t. Fills (has_order scale.now) (λ k. order_of scale.now k.order) empty
        (rows_of order_cmp t.orders.places)) }
{
    let histories = fills::histories(alloc, scale)?;
    let Ok(new_orders) = fills::new_orders(alloc, scale) else {
        drop(histories);
        return Err(NoMemory);
    };
    let Ok(orders) = fills::orders(alloc, scale) else {
        drop(histories);
        drop(new_orders);
        return Err(NoMemory);
    };
    Ok(Deeds {
        histories,
        new_orders,
        orders,
    })
}

fn fill_goods(alloc: Global, scale: &Scale) -> Result<Goods, NoMemory>
    ensures order_lines { IfOk result
        (λ t. Fills (has_line scale.now) (line_of scale.now) empty
        (rows_of order_line_cmp t.order_lines)) }
    ensures items { IfOk result
        (λ t. Fills (has_item scale.now) (λ k. item_of k.item) empty (rows_of item_cmp t.items)) }
    ensures stocks { IfOk result
        (λ t. Fills (has_stock scale.now) (λ k. stock_of k.warehouse k.item) empty
        (rows_of stock_cmp t.stocks)) }
{
    let order_lines = fills::order_lines(alloc, scale)?;
    let Ok(items) = fills::items(alloc, scale) else {
        drop(order_lines);
        return Err(NoMemory);
    };
    let Ok(stocks) = fills::stocks(alloc, scale) else {
        drop(order_lines);
        drop(items);
        return Err(NoMemory);
    };
    Ok(Goods {
        order_lines,
        items,
        stocks,
    })
}

/// Makes the tables with the population of a scale. Memory is the only refusal.
pub fn populate(alloc: Global, scale: Scale) -> Result<Tables, NoMemory>
    ensures { IfOk result (λ t. IsPopulated scale (rows t)) }
{
    let _warehouses = scale.warehouses.get();
    let _customers = scale.customers.get();
    let _items = scale.items.get();
    let first = fill_homes(alloc, &scale)?;
    let Ok(second) = fill_deeds(alloc, &scale) else {
        drop(first);
        return Err(NoMemory);
    };
    let Ok(third) = fill_goods(alloc, &scale) else {
        drop(first);
        drop(second);
        return Err(NoMemory);
    };
    Ok(Tables::of(NineTables {
        warehouses: first.warehouses,
        districts: first.districts,
        customers: first.customers,
        histories: second.histories,
        new_orders: second.new_orders,
        orders: second.orders,
        order_lines: third.order_lines,
        items: third.items,
        stocks: third.stocks,
    }))
}
