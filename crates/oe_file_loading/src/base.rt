//! The tables that orders refer to. By the invariant each warehouse has its ten districts, and each
//! reference of a row finds its row (clauses 1.3 and 1.4).
ghost use Rattle.std.specs.Prelude.{◌≡◌, ◌∷◌, []};
ghost use Rattle.std.specs.FinMap.{insert};
ghost use Rattle.oe_rows.specs.declared.keys.Key.TheVariants as kind;
ghost use Rattle.oe_model.specs.Keys.{district_of_customer, warehouse_of_stock, item_of_stock};
ghost use Rattle.oe_store.specs.Places.{rows};
ghost use Rattle.oe_file_loading.specs.Base.{OnlyHomes, base_rows};
ghost use Rattle.oe_file_loading.specs.Homes.{AreHomes, home_rows};

use crate::homes::Homes;
use crate::places::Placing;
use oe_index::{Customers, Orders};
use oe_rows::{
    Customer, CustomerKey, District, DistrictKey, Item, ItemKey, Key, Stock, StockKey, Warehouse,
    WarehouseKey,
};
use oe_store::{NineTables, Tables};
use oe_table::shelves::Shelves;
use oe_values::NoMemory;
use std::alloc::Global;
use std::marker::Model;

/// Warehouses with their districts, customers, items and stocks.
#[derive(Drop)]
pub(crate) struct Base {
    warehouses: Shelves<WarehouseKey, Warehouse>,
    districts: Shelves<DistrictKey, District>,
    customers: Customers,
    items: Shelves<ItemKey, Item>,
    stocks: Shelves<StockKey, Stock>,
}

impl Model for Base {
    ghost use Rattle.oe_file_loading.specs.Base.{BasePlaces, IsBase};

    ghost Value = { BasePlaces };

    ghost view = { λ b. record {
      warehouses = b.warehouses;
      districts = b.districts;
      customers = b.customers.places;
      items = b.items;
      stocks = b.stocks;
    } };

    ghost invariant = { λ b. IsBase (record {
      warehouses = b.warehouses;
      districts = b.districts;
      customers = b.customers.places;
      items = b.items;
      stocks = b.stocks;
    }) };
}

impl Base {
    /// Makes tables without a row.
    pub(crate) fn new(alloc: Global) -> Self
        ensures { OnlyHomes (base_rows result) }
    {
        let homes = Homes {
            warehouses: Shelves::new(alloc),
            districts: Shelves::new(alloc),
        };
        Base::of(alloc, homes)
    }

    /// Makes tables with these warehouses and districts, and no other row.
    pub(crate) fn of(alloc: Global, homes: Homes) -> Self
        requires { AreHomes (home_rows homes).warehouses (home_rows homes).districts }
        ensures { base_rows result ≡ home_rows homes }
    {
        Base {
            warehouses: homes.warehouses,
            districts: homes.districts,
            customers: Customers::new(alloc),
            items: Shelves::new(alloc),
            stocks: Shelves::new(alloc),
        }
    }

    /// Makes nine tables: these five, and four without a row.
    pub(crate) fn into_tables(self, alloc: Global) -> Tables
        ensures { rows result ≡ base_rows self }
    {
        Tables::of(NineTables {
            warehouses: self.warehouses,
            districts: self.districts,
            customers: self.customers,
            histories: Shelves::new(alloc),
            new_orders: Shelves::new(alloc),
            orders: Orders::new(alloc),
            order_lines: Shelves::new(alloc),
            items: self.items,
            stocks: self.stocks,
        })
    }
}

impl Placing<CustomerKey, Customer> for Base {
    ghost rows_in = { base_rows };

    ghost refers = { λ k x. kind.District (district_of_customer k) ∷ [] };

    ghost with_row = { λ k x r. record r { customers = insert r.customers k x } };

    fn missing(&self, key: &CustomerKey, row: &Customer) -> Option<Key> {
        let _any_row = row;
        let district = key.district_key();
        if self.districts.get(&district).is_none() {
            return Some(Key::District(district));
        }
        None
    }

    fn put(&mut self, key: CustomerKey, row: Customer) -> Result<(), NoMemory> {
        let _number = key.customer.get();
        self.customers.put_new(key, row)
    }
}

impl Placing<ItemKey, Item> for Base {
    ghost rows_in = { base_rows };

    ghost refers = { λ k x. [] };

    ghost with_row = { λ k x r. record r { items = insert r.items k x } };

    fn missing(&self, key: &ItemKey, row: &Item) -> Option<Key> {
        let _any_key = key;
        let _any_row = row;
        None
    }

    fn put(&mut self, key: ItemKey, row: Item) -> Result<(), NoMemory> {
        self.items.put_new(key, row)
    }
}

impl Placing<StockKey, Stock> for Base {
    ghost rows_in = { base_rows };

    ghost refers = { λ k x.
        kind.Warehouse (warehouse_of_stock k) ∷ kind.Item (item_of_stock k) ∷ [] };

    ghost with_row = { λ k x r. record r { stocks = insert r.stocks k x } };

    fn missing(&self, key: &StockKey, row: &Stock) -> Option<Key> {
        let _any_row = row;
        let warehouse = key.warehouse_key();
        if self.warehouses.get(&warehouse).is_none() {
            return Some(Key::Warehouse(warehouse));
        }
        let item = key.item_key();
        if self.items.get(&item).is_none() {
            return Some(Key::Item(item));
        }
        None
    }

    fn put(&mut self, key: StockKey, row: Stock) -> Result<(), NoMemory> {
        self.stocks.put_new(key, row)
    }
}
