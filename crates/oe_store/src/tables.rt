//! The nine tables (clause 1.2.1).
//!
//! `NineTables` keeps any rows. `Tables` keeps rows that meet the schema, by its invariant: each
//! reference leads to a row (clause 1.3). So there is no call that sets a row of `Tables` without
//! looking at what refers to it. Only an insert and another C_LAST take memory.
ghost use Rattle.std.specs.Prelude.{◌≡◌, ◌↔◌, IsTrue, true, []};
ghost use Rattle.std.specs.Option.{option_copied};
ghost use Rattle.std.specs.FinMap.{get, empty};
ghost use Rattle.oe_store.specs.Numbered.{AreNumbered};
ghost use Rattle.oe_store.specs.Places.{rows, HasPlace, IsSound};
ghost use Rattle.oe_model.specs.Meets.{Meets};

use oe_index::{Customers, Orders};
use oe_rows::{
    Customer, CustomerKey, District, DistrictKey, History, HistoryKey, Item, ItemKey, Key,
    NewOrder, NewOrderKey, Order, OrderKey, OrderLine, OrderLineKey, Stock, StockKey, Warehouse,
    WarehouseKey,
};
use oe_table::shelves::Shelves;
use std::alloc::Global;
use std::marker::Model;

/// Nine tables of any rows, one by one.
#[derive(Drop)]
pub struct NineTables {
    pub warehouses: Shelves<WarehouseKey, Warehouse>,
    pub districts: Shelves<DistrictKey, District>,
    pub customers: Customers,
    pub histories: Shelves<HistoryKey, History>,
    pub new_orders: Shelves<NewOrderKey, NewOrder>,
    pub orders: Orders,
    pub order_lines: Shelves<OrderLineKey, OrderLine>,
    pub items: Shelves<ItemKey, Item>,
    pub stocks: Shelves<StockKey, Stock>,
}

impl Model for NineTables {
    ghost use Rattle.oe_store.specs.Places.{Places};

    ghost Value = { Places };

    ghost view = { λ t. record {
      warehouses = t.warehouses;
      districts = t.districts;
      customers = t.customers.places;
      histories = t.histories;
      new_orders = t.new_orders;
      orders = t.orders.places;
      order_lines = t.order_lines;
      items = t.items;
      stocks = t.stocks;
      names = record { lists = t.customers.lists; is_listed = t.customers.is_listed };
    } };
}

/// The nine tables, whose rows meet the schema (clauses 1.3 and 1.4): each reference finds its row,
/// each warehouse has ten districts, and each column is in its range. A key that lost its row keeps
/// its place until that is given up, so putting a row back takes no memory.
///
/// The customers are found by last name too, and the orders by customer.
#[derive(Drop)]
pub struct Tables {
    pub(crate) warehouses: Shelves<WarehouseKey, Warehouse>,
    pub(crate) districts: Shelves<DistrictKey, District>,
    pub(crate) customers: Customers,
    pub(crate) histories: Shelves<HistoryKey, History>,
    pub(crate) new_orders: Shelves<NewOrderKey, NewOrder>,
    pub(crate) orders: Orders,
    pub(crate) order_lines: Shelves<OrderLineKey, OrderLine>,
    pub(crate) items: Shelves<ItemKey, Item>,
    pub(crate) stocks: Shelves<StockKey, Stock>,
}

impl Model for Tables {
    ghost use Rattle.oe_store.specs.Places.{Places, rows, IsSound};

    ghost Value = { Places };

    ghost view = { λ t. record {
      warehouses = t.warehouses;
      districts = t.districts;
      customers = t.customers.places;
      histories = t.histories;
      new_orders = t.new_orders;
      orders = t.orders.places;
      order_lines = t.order_lines;
      items = t.items;
      stocks = t.stocks;
      names = record { lists = t.customers.lists; is_listed = t.customers.is_listed };
    } };

    ghost invariant = { λ t. IsSound
        (rows (record {
          warehouses = t.warehouses;
          districts = t.districts;
          customers = t.customers.places;
          histories = t.histories;
          new_orders = t.new_orders;
          orders = t.orders.places;
          order_lines = t.order_lines;
          items = t.items;
          stocks = t.stocks;
          names = record { lists = t.customers.lists; is_listed = t.customers.is_listed };
        })) };
}

impl Tables {
    ghost use Rattle.oe_store.specs.Places.{no_rows};

    /// Lets go of the tables. A crate above that let them go out of scope would prove the drop of
    /// each of their parts again.
    pub fn discard(self) {
        drop(self);
    }

    /// Makes tables without a row.
    pub fn new(alloc: Global) -> Self
        ensures rows { rows result ≡ no_rows }
        ensures names { result.names ≡ record { lists = []; is_listed = true } }
    {
        Tables {
            warehouses: Shelves::new(alloc),
            districts: Shelves::new(alloc),
            customers: Customers::new(alloc),
            histories: Shelves::new(alloc),
            new_orders: Shelves::new(alloc),
            orders: Orders::new(alloc),
            order_lines: Shelves::new(alloc),
            items: Shelves::new(alloc),
            stocks: Shelves::new(alloc),
        }
    }

    /// Makes one value of nine tables whose rows meet the schema.
    pub fn of(nine: NineTables) -> Self
        requires { IsSound (rows nine) }
        ensures { result ≡ nine }
    {
        Tables {
            warehouses: nine.warehouses,
            districts: nine.districts,
            customers: nine.customers,
            histories: nine.histories,
            new_orders: nine.new_orders,
            orders: nine.orders,
            order_lines: nine.order_lines,
            items: nine.items,
            stocks: nine.stocks,
        }
    }

    /// Gives the WAREHOUSE row of a key, if it has one.
    #[inline(always)]
    pub fn warehouse(&self, key: WarehouseKey) -> Option<&Warehouse>
        ensures { option_copied result ≡ get (rows self.now).warehouses key }
    {
        self.warehouses.get(&key)
    }

    /// Gives the DISTRICT row of a key, if it has one.
    #[inline(always)]
    pub fn district(&self, key: DistrictKey) -> Option<&District>
        ensures { option_copied result ≡ get (rows self.now).districts key }
    {
        self.districts.get(&key)
    }

    /// Gives the CUSTOMER row of a key, if it has one.
    #[inline(always)]
    pub fn customer(&self, key: CustomerKey) -> Option<&Customer>
        ensures { option_copied result ≡ get (rows self.now).customers key }
    {
        self.customers.get(&key)
    }

    /// Gives the HISTORY row of a key, if it has one.
    pub fn history(&self, key: HistoryKey) -> Option<&History>
        ensures { option_copied result ≡ get (rows self.now).histories key }
    {
        self.histories.get(&key)
    }

    /// Tells whether a HISTORY key has a place, with a row or blanked.
    pub fn history_has_place(&self, key: &HistoryKey) -> bool
        ensures { IsTrue result ↔ HasPlace self.now (Key.History key.now) }
    {
        self.histories.has_place(key)
    }

    /// Gives the NEW-ORDER row of a key, if it has one.
    pub fn new_order(&self, key: NewOrderKey) -> Option<&NewOrder>
        ensures { option_copied result ≡ get (rows self.now).new_orders key }
    {
        self.new_orders.get(&key)
    }

    /// Gives the ORDER row of a key, if it has one.
    pub fn order(&self, key: OrderKey) -> Option<&Order>
        ensures { option_copied result ≡ get (rows self.now).orders key }
    {
        self.orders.get(&key)
    }

    /// Gives the ORDER-LINE row of a key, if it has one.
    pub fn order_line(&self, key: OrderLineKey) -> Option<&OrderLine>
        ensures { option_copied result ≡ get (rows self.now).order_lines key }
    {
        self.order_lines.get(&key)
    }

    /// Gives the ITEM row of a key, if it has one.
    pub fn item(&self, key: ItemKey) -> Option<&Item>
        ensures { option_copied result ≡ get (rows self.now).items key }
    {
        self.items.get(&key)
    }

    /// Gives the STOCK row of a key, if it has one.
    pub fn stock(&self, key: StockKey) -> Option<&Stock>
        ensures { option_copied result ≡ get (rows self.now).stocks key }
    {
        self.stocks.get(&key)
    }

    /// States that the rows meet the schema (clauses 1.3 and 1.4). It does nothing: it is for
    /// proofs above, which see the rows alone.
    pub fn schema_holds(&self)
        ensures { Meets (rows self.now) }
    {
        let _known = &self.warehouses;
    }

    /// States that the numbers in the keys of rows are in their ranges (clause 1.3.1). It does
    /// nothing, as `schema_holds`.
    pub fn numbers_hold(&self)
        ensures { AreNumbered (rows self.now) }
    {
        let _known = &self.warehouses;
    }
}
