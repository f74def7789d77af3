//! Walks over the keys of a table that have a place, those that were blanked too.
//!
//! A `KeyWalk` keeps the `PlaceWalk` of its table. Nothing can fail, and nothing takes memory.
ghost use Rattle.std.specs.Prelude.{◌≡◌};
ghost use Rattle.std.specs.Iterator.{YieldsFirstBy, item_count};
ghost use Rattle.oe_rows.specs.declared.keys.Key.{Key};
ghost use Rattle.oe_store.specs.KeyWalk.{placed_keys};
ghost use Rattle.oe_store.specs.KeysLeft.{keys_left};

use crate::tables::Tables;
use oe_rows::{
    Customer, CustomerKey, District, DistrictKey, History, HistoryKey, Item, ItemKey, Key,
    NewOrder, NewOrderKey, Order, OrderKey, OrderLine, OrderLineKey, Stock, StockKey, Table,
    Warehouse, WarehouseKey,
};
use oe_table::shelf_walks::Candidates;
use std::marker::Model;

/// The walk over the places of one table.
#[derive(Drop)]
pub(crate) enum PlaceWalk<'a> {
    Warehouses(Candidates<'a, WarehouseKey, Warehouse>),
    Districts(Candidates<'a, DistrictKey, District>),
    Customers(Candidates<'a, CustomerKey, Customer>),
    Histories(Candidates<'a, HistoryKey, History>),
    NewOrders(Candidates<'a, NewOrderKey, NewOrder>),
    Orders(Candidates<'a, OrderKey, Order>),
    OrderLines(Candidates<'a, OrderLineKey, OrderLine>),
    Items(Candidates<'a, ItemKey, Item>),
    Stocks(Candidates<'a, StockKey, Stock>),
}

/// The keys of one table that have a place, in their order.
#[derive(Drop)]
pub struct KeyWalk<'a> {
    walk: PlaceWalk<'a>,
}

impl<'a> Model for KeyWalk<'a> {
    ghost use Rattle.std.specs.Prelude.{List};
    ghost use Rattle.oe_rows.specs.declared.keys.Key.{Key};

    ghost Value = { List Key };

    ghost use Rattle.oe_store.specs.KeysLeft.{keys_left};

    ghost view = { λ w. keys_left w.walk };
}

// The next key of a walk, if it has one.
#[inline]
fn next_key(walk: &mut PlaceWalk<'_>) -> Option<Key>
    ensures { YieldsFirstBy (λ (k : Key). k) keys_left walk.old result walk.new }
{
    match walk {
        PlaceWalk::Warehouses(places) => match places.next() {
            Some((key, _row)) => Some(Key::Warehouse(*key)),
            None => None,
        },
        PlaceWalk::Districts(places) => match places.next() {
            Some((key, _row)) => Some(Key::District(*key)),
            None => None,
        },
        PlaceWalk::Customers(places) => match places.next() {
            Some((key, _row)) => Some(Key::Customer(*key)),
            None => None,
        },
        PlaceWalk::Histories(places) => match places.next() {
            Some((key, _row)) => Some(Key::History(*key)),
            None => None,
        },
        PlaceWalk::NewOrders(places) => match places.next() {
            Some((key, _row)) => Some(Key::NewOrder(*key)),
            None => None,
        },
        PlaceWalk::Orders(places) => match places.next() {
            Some((key, _row)) => Some(Key::Order(*key)),
            None => None,
        },
        PlaceWalk::OrderLines(places) => match places.next() {
            Some((key, _row)) => Some(Key::OrderLine(*key)),
            None => None,
        },
        PlaceWalk::Items(places) => match places.next() {
            Some((key, _row)) => Some(Key::Item(*key)),
            None => None,
        },
        PlaceWalk::Stocks(places) => match places.next() {
            Some((key, _row)) => Some(Key::Stock(*key)),
            None => None,
        },
    }
}

impl<'a> Iterator for KeyWalk<'a> {
    type Item = Key;

    ghost next_gives = { YieldsFirstBy (λ (k : Key). k) (λ it. it) };

    ghost remaining = { item_count (λ it. it) };

    fn next(&mut self) -> Option<Key> {
        match next_key(&mut self.walk) {
            Some(key) => Some(key),
            None => None,
        }
    }
}

impl Tables {
    /// Gives the keys of a table that have a place, in their order, those that were blanked too. It
    /// takes no memory.
    pub fn keys(&self, table: Table) -> KeyWalk<'_>
        ensures { result ≡ placed_keys table self.now }
    {
        let walk = match table {
            Table::Warehouse => PlaceWalk::Warehouses(self.warehouses.places()),
            Table::District => PlaceWalk::Districts(self.districts.places()),
            Table::Customer => PlaceWalk::Customers(self.customers.places()),
            Table::History => PlaceWalk::Histories(self.histories.places()),
            Table::NewOrder => PlaceWalk::NewOrders(self.new_orders.places()),
            Table::Order => PlaceWalk::Orders(self.orders.places()),
            Table::OrderLine => PlaceWalk::OrderLines(self.order_lines.places()),
            Table::Item => PlaceWalk::Items(self.items.places()),
            Table::Stock => PlaceWalk::Stocks(self.stocks.places()),
        };
        KeyWalk { walk }
    }
}
