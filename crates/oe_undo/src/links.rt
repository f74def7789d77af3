//! Links by key.
//!
//! A key of HISTORY has its place in a table of keys, and one of the other tables by its numbers,
//! so that a place takes no memory that is touched before the key has its first record. Only
//! `add_place` and `insert` take memory, for a key without a place; where that is refused the links
//! are as before.
ghost use Rattle.std.specs.Prelude.{◌≡◌, Some, None, IsSome, OnOk, OnErr, cond};
ghost use Rattle.std.specs.Ordering.{eq_by_cmp};
ghost use Rattle.std.specs.FinMap.{get};
ghost use Rattle.oe_rows.specs.Key.{history_cmp};
ghost use Rattle.oe_rows.specs.declared.keys.Key.TheVariants.{History};
ghost use Rattle.oe_table.specs.Table.{rows_of, left_of};
ghost use Rattle.oe_undo.specs.Tables.{link_in, is_not_above};
ghost use Rattle.oe_undo.specs.Links.{place_of, links_of, HasPlace, no_links, comes_with, SetsLink, GivesPlaces, InsertsLink, GivesUpLink};

use crate::numbers::NumberedKey;
use crate::places::Places;
use crate::tables::{insert, link_in, place_in, reach, set};
use oe_extent::Address;
use oe_log::SegmentOwner;
use oe_rows::{HistoryKey, Key};
use oe_table::shelves::Shelves;
use oe_values::NoMemory;
use std::alloc::Global;
use std::marker::Model;

/// Where a key's newest record lies, and which transaction's it is. Whether that is open, or at
/// which moment it committed, is the log's to know, so that no commit changes a link.
#[derive(Clone, Copy, PartialEq, Eq)]
pub struct OwnedLink {
    pub address: Address,
    pub owner: SegmentOwner,
}

/// The links of keys, each in a place of its own.
#[derive(Drop)]
pub struct Links {
    warehouses: Places<OwnedLink>,
    districts: Places<OwnedLink>,
    customers: Places<OwnedLink>,
    histories: Shelves<HistoryKey, Option<OwnedLink>>,
    new_orders: Places<OwnedLink>,
    orders: Places<OwnedLink>,
    order_lines: Places<OwnedLink>,
    items: Places<OwnedLink>,
    stocks: Places<OwnedLink>,
}

impl Model for Links {
    ghost use Rattle.oe_rows.specs.Key.{history_cmp};
    ghost use Rattle.oe_table.specs.Table.{rows_of};
    ghost use Rattle.std.specs.Coded.{codes};
    ghost use Rattle.std.specs.FinMap.{code as map_code};
    ghost use Rattle.oe_undo.specs.Links.{LinkMaps};

    ghost Value = { LinkMaps };

    ghost coded = { Prim.hlevel (codes, map_code) };

    ghost view = { λ l. record {
      warehouses = l.warehouses;
      districts = l.districts;
      customers = l.customers;
      histories = rows_of history_cmp l.histories;
      new_orders = l.new_orders;
      orders = l.orders;
      order_lines = l.order_lines;
      items = l.items;
      stocks = l.stocks;
    } };
}

// The link in the place of a HISTORY row's key, if there is one.
#[inline(always)]
fn history_link(
    links: &Shelves<HistoryKey, Option<OwnedLink>>,
    key: &HistoryKey,
) -> Option<OwnedLink>
    ensures { result ≡ link_in (get (rows_of history_cmp links.now) key.now) }
{
    match links.get(key) {
        Some(link) => *link,
        None => None,
    }
}

// Gives a HISTORY row's key without a place an empty one.
fn reach_history(
    links: &mut Shelves<HistoryKey, Option<OwnedLink>>,
    key: &HistoryKey,
) -> Result<(), NoMemory>
    ensures given { OnOk result ((k : HistoryKey) → get (rows_of history_cmp links.new) k
        ≡ cond (eq_by_cmp history_cmp key.now k)
        (Some (link_in (get (rows_of history_cmp links.old) k)))
        (get (rows_of history_cmp links.old) k)) }
    ensures own { OnOk result (IsSome (get (rows_of history_cmp links.new) key.now)) }
    ensures no_place { OnErr result (get (rows_of history_cmp links.old) key.now ≡ None) }
    ensures err { OnErr result (links.new ≡ links.old) }
{
    if links.get(key).is_some() {
        return Ok(());
    }
    links.put_new(*key, None)
}

// Sets the link in the place of a HISTORY row's key.
#[inline(always)]
fn set_history(
    links: &mut Shelves<HistoryKey, Option<OwnedLink>>,
    key: &HistoryKey,
    link: Option<OwnedLink>,
)
    requires { IsSome (get (rows_of history_cmp links.old) key.now) }
    ensures { (k : HistoryKey) → get (rows_of history_cmp links.new) k
        ≡ cond (eq_by_cmp history_cmp key.now k) (Some link)
        (get (rows_of history_cmp links.old) k) }
{
    let place = links.row_mut(key).unwrap();
    *place = link;
}

// Gives up the place of a HISTORY row's key where it is empty.
fn give_up_empty(links: &mut Shelves<HistoryKey, Option<OwnedLink>>, key: &HistoryKey)
    ensures { (k : HistoryKey) → get (rows_of history_cmp links.new) k
        ≡ cond (eq_by_cmp history_cmp key.now k) (left_of (get (rows_of history_cmp links.old) k))
        (get (rows_of history_cmp links.old) k) }
{
    if matches!(links.get(key), Some(None)) {
        let _empty = links.blank(key);
        links.give_up(key);
    }
}

// Whether the second key is of the first one's shelf, and not above it.
fn is_not_above<K: NumberedKey>(own: &K, key: &K) -> bool
    ensures { result ≡ is_not_above (K.shelf_of own.now) (K.number_of own.now)
        (K.shelf_of key.now) (K.number_of key.now) }
{
    own.shelf() == key.shelf() && key.number() <= own.number()
}

/// Tells whether the second key gets a place where the first does: it is that key, or one before it
/// on its shelf.
pub fn comes_with(own: &Key, key: &Key) -> bool
    ensures { result ≡ comes_with own.now key.now }
{
    match (own, key) {
        (Key::Warehouse(own), Key::Warehouse(key)) => is_not_above(own, key),
        (Key::District(own), Key::District(key)) => is_not_above(own, key),
        (Key::Customer(own), Key::Customer(key)) => is_not_above(own, key),
        (Key::History(own), Key::History(key)) => own.cmp(key).is_eq(),
        (Key::NewOrder(own), Key::NewOrder(key)) => is_not_above(own, key),
        (Key::Order(own), Key::Order(key)) => is_not_above(own, key),
        (Key::OrderLine(own), Key::OrderLine(key)) => is_not_above(own, key),
        (Key::Item(own), Key::Item(key)) => is_not_above(own, key),
        (Key::Stock(own), Key::Stock(key)) => is_not_above(own, key),
        _ => false,
    }
}

impl Links {
    ghost use Rattle.std.specs.Borrow.{sem};
    ghost use Rattle.std.specs.Option.{option_copied_mut};
    ghost use Rattle.oe_undo.specs.LinksLend.{lends_link};

    /// Makes links without a place, and takes no memory.
    pub fn new(alloc: Global) -> Links
        ensures { result ≡ no_links }
    {
        Links {
            warehouses: Places::new(alloc),
            districts: Places::new(alloc),
            customers: Places::new(alloc),
            histories: Shelves::new(alloc),
            new_orders: Places::new(alloc),
            orders: Places::new(alloc),
            order_lines: Places::new(alloc),
            items: Places::new(alloc),
            stocks: Places::new(alloc),
        }
    }

    /// Gives the link of a key, if it has one.
    pub fn link(&self, key: &Key) -> Option<OwnedLink>
        ensures { result ≡ links_of self.now key.now }
    {
        match key {
            Key::Warehouse(key) => link_in(&self.warehouses, key),
            Key::District(key) => link_in(&self.districts, key),
            Key::Customer(key) => link_in(&self.customers, key),
            Key::History(key) => history_link(&self.histories, key),
            Key::NewOrder(key) => link_in(&self.new_orders, key),
            Key::Order(key) => link_in(&self.orders, key),
            Key::OrderLine(key) => link_in(&self.order_lines, key),
            Key::Item(key) => link_in(&self.items, key),
            Key::Stock(key) => link_in(&self.stocks, key),
        }
    }

    /// Gives a key without a place an empty one, and those that come with it; `NoMemory` where
    /// memory for them was refused. A key that has a place keeps it.
    pub fn add_place(&mut self, key: &Key) -> Result<(), NoMemory>
        ensures given { OnOk result (GivesPlaces self.old self.new key.now) }
        ensures own { OnOk result (HasPlace self.new key.now) }
        ensures no_place { OnErr result (place_of self.old key.now ≡ None) }
        ensures err { OnErr result (self.new ≡ self.old) }
    {
        match key {
            Key::Warehouse(key) => reach(&mut self.warehouses, key),
            Key::District(key) => reach(&mut self.districts, key),
            Key::Customer(key) => reach(&mut self.customers, key),
            Key::History(key) => reach_history(&mut self.histories, key),
            Key::NewOrder(key) => reach(&mut self.new_orders, key),
            Key::Order(key) => reach(&mut self.orders, key),
            Key::OrderLine(key) => reach(&mut self.order_lines, key),
            Key::Item(key) => reach(&mut self.items, key),
            Key::Stock(key) => reach(&mut self.stocks, key),
        }
    }

    /// Gives the place of a key that has one, with the key's link in it, to be set there. It takes
    /// no memory.
    #[inline(always)]
    pub fn place_mut(&mut self, key: &Key) -> Option<&mut Option<OwnedLink>>
        ensures* writes_back { sem 𝓛 (lends_link self.entry key.now result) }
        ensures place { option_copied_mut result ≡ place_of self.old key.now }
    {
        match key {
            Key::Warehouse(key) => place_in(&mut self.warehouses, key),
            Key::District(key) => place_in(&mut self.districts, key),
            Key::Customer(key) => place_in(&mut self.customers, key),
            Key::History(key) => self.histories.row_mut(key),
            Key::NewOrder(key) => place_in(&mut self.new_orders, key),
            Key::Order(key) => place_in(&mut self.orders, key),
            Key::OrderLine(key) => place_in(&mut self.order_lines, key),
            Key::Item(key) => place_in(&mut self.items, key),
            Key::Stock(key) => place_in(&mut self.stocks, key),
        }
    }

    /// Gives up the place of a HISTORY key's link where it is empty: places of all other keys lie
    /// by their numbers, and stay. It takes no memory.
    pub fn give_up_history(&mut self, key: &HistoryKey)
        ensures { GivesUpLink self.old self.new (History key.now) }
    {
        give_up_empty(&mut self.histories, key);
    }

    /// Gives a key without a place one with its link, and those that come with it; `NoMemory` where
    /// memory for them was refused.
    pub fn insert(&mut self, key: &Key, link: OwnedLink) -> Result<(), NoMemory>
        requires { place_of self.old key.now ≡ None }
        ensures inserted { OnOk result (InsertsLink self.old self.new key.now (Some link)) }
        ensures err { OnErr result (self.new ≡ self.old) }
    {
        match key {
            Key::Warehouse(key) => insert(&mut self.warehouses, key, link),
            Key::District(key) => insert(&mut self.districts, key, link),
            Key::Customer(key) => insert(&mut self.customers, key, link),
            Key::History(key) => self.histories.put_new(*key, Some(link)),
            Key::NewOrder(key) => insert(&mut self.new_orders, key, link),
            Key::Order(key) => insert(&mut self.orders, key, link),
            Key::OrderLine(key) => insert(&mut self.order_lines, key, link),
            Key::Item(key) => insert(&mut self.items, key, link),
            Key::Stock(key) => insert(&mut self.stocks, key, link),
        }
    }

    /// Sets the link of a key that has a place, or leaves the place empty. It takes no memory.
    pub(crate) fn set(&mut self, key: &Key, link: Option<OwnedLink>)
        requires { HasPlace self.old key.now }
        ensures { SetsLink self.old self.new key.now link }
    {
        match key {
            Key::Warehouse(key) => set(&mut self.warehouses, key, link),
            Key::District(key) => set(&mut self.districts, key, link),
            Key::Customer(key) => set(&mut self.customers, key, link),
            Key::History(key) => set_history(&mut self.histories, key, link),
            Key::NewOrder(key) => set(&mut self.new_orders, key, link),
            Key::Order(key) => set(&mut self.orders, key, link),
            Key::OrderLine(key) => set(&mut self.order_lines, key, link),
            Key::Item(key) => set(&mut self.items, key, link),
            Key::Stock(key) => set(&mut self.stocks, key, link),
        }
    }
}
