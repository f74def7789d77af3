//! The orders, which are found by customer too.
//!
//! Beside the rows each order's key is listed under a number of its customer, so that a walk over a
//! customer's orders meets few others. By the invariant each row's key is in the list of its
//! customer, unless the lists were given up: they are where a row takes the place of another
//! customer's, a customer is put back, or a blanked place is filled for a customer under whom there
//! is no memory to list it. Walks then go over all rows that they are given. A key that was blanked
//! stays listed, so that an order of the same customer fills its place again without memory; one
//! that is removed is off its list. Only `put_new` takes memory, for a key's place and for its
//! customer's list, where it has none or is not in that list; it is refused only for a key without
//! a place, and the rows are then as before. Each call tells which keys are listed after it, and
//! whether the lists stand.
ghost use Rattle.std.specs.Prelude.{◌≡◌, ◌↔◌, true, Some, None, Ok, OnOk, OnErr, IsSome, IsTrue, []};
ghost use Rattle.std.specs.Option.{option_copied};
ghost use Rattle.std.specs.FinMap.{entries};
ghost use Rattle.std.specs.FinMap as map;
ghost use Rattle.std.specs.BTreeMap.Range.{IsLeBy, entries_between};
ghost use Rattle.std.specs.declared.ops.Bound.TheVariants.{Included};
ghost use Rattle.oe_rows.specs.Before.{with_order};
ghost use Rattle.oe_rows.specs.Key.{order_cmp};
ghost use Rattle.oe_rows.specs.declared.orders.Order.{Order};
ghost use Rattle.oe_model.specs.Keys.{customer_of_order};
ghost use Rattle.oe_model.specs.Queries.{orders_of};
ghost use Rattle.oe_table.specs.Table.{place, rows_of, GivesUpBlanked, IsBlanked, LosesPlace, SetsPlace, RewritesRow};
ghost use Rattle.oe_index.specs.Listed.{IsListed, ListsAtMost, KeepsLists, Unlists};
ghost use Rattle.oe_index.specs.Numbers.{list_of_owner};
ghost use Rattle.oe_index.specs.Own.{own_of, is_owner};

use crate::flags::are_both;
use crate::lists::Lists;
use crate::numbers::owner_number;
use crate::walks::Found;
use oe_rows::{CustomerKey, Order, OrderBefore, OrderKey};
use oe_table::shelf_walks::{Candidates, Rows};
use oe_table::shelves::Shelves;
use oe_values::{Carrier, CustomerNumber, NoMemory};
use std::alloc::Global;
use std::marker::Model;

/// The ORDER rows by their keys, seen as a table of shelves, as the list of its places, with the
/// lists of keys, and whether these stand.
#[derive(Drop)]
pub struct Orders {
    rows: Shelves<OrderKey, Order>,
    lists: Lists<OrderKey>,
    is_listed: bool,
}

impl Model for Orders {
    ghost use Rattle.oe_rows.specs.Key.{order_cmp};
    ghost use Rattle.oe_rows.specs.declared.keys.OrderKey.{OrderKey};
    ghost use Rattle.oe_rows.specs.declared.orders.Order.{Order};
    ghost use Rattle.oe_table.specs.Table.{rows_of};
    ghost use Rattle.oe_index.specs.Listed.{Indexed, AreListed};
    ghost use Rattle.oe_index.specs.Numbers.{list_of_owner};

    ghost Value = { Indexed OrderKey Order };

    ghost view = { λ t. record { places = t.rows; lists = t.lists; is_listed = t.is_listed } };

    ghost invariant = { λ t.
        AreListed order_cmp list_of_owner t.is_listed t.lists (rows_of order_cmp t.rows) };
}

// Lists an order under its customer. A key that is listed there already takes no memory, and
// nothing is given up. Where there is no memory for another key, that is refused, or if it was
// blanked the lists are given up, since its place has to be filled.
fn list(
    lists: &mut Lists<OrderKey>,
    is_listed: &mut bool,
    rows: &Shelves<OrderKey, Order>,
    key: &OrderKey,
    row: &Order,
) -> Result<(), NoMemory>
    ensures lists { ListsAtMost order_cmp lists.old lists.new
        (list_of_owner key.now row.now) key.now }
    ensures listed { OnOk result (is_listed.new ≡ true
        → IsListed order_cmp lists.new (list_of_owner key.now row.now) key.now) }
    ensures same { IsListed order_cmp lists.old (list_of_owner key.now row.now) key.now
        → (is_listed.new ≡ is_listed.old) × (result ≡ Ok tt) }
    ensures given_up { ¬ IsBlanked order_cmp rows.now key.now → is_listed.new ≡ is_listed.old }
    ensures only_less { is_listed.new ≡ true → is_listed.old ≡ true }
    ensures stand { IsListed order_cmp lists.new (list_of_owner key.now row.now) key.now
        → is_listed.new ≡ is_listed.old }
    ensures refused { OnErr result (¬ IsBlanked order_cmp rows.now key.now) }
{
    let owner = key.district_key().customer(row.customer);
    let Err(refusal) = lists.add(owner_number(&owner), *key) else {
        return Ok(());
    };
    if !rows.is_blanked(key) {
        return Err(refusal);
    }
    *is_listed = false;
    Ok(())
}

// Takes an order off its customer's list.
fn unlist(lists: &mut Lists<OrderKey>, key: &OrderKey, row: &Order)
    ensures { Unlists order_cmp lists.old lists.new (list_of_owner key.now row.now) key.now }
{
    let owner = key.district_key().customer(row.customer);
    lists.remove(owner_number(&owner), key);
}

impl Orders {
    /// Makes a table without a place, which takes no memory.
    pub fn new(alloc: Global) -> Self
        ensures places { result.places ≡ [] }
        ensures rows { rows_of order_cmp result.places ≡ map.empty }
        ensures lists { result.lists ≡ [] }
        ensures listed { result.is_listed ≡ true }
    {
        Orders {
            rows: Shelves::new(alloc),
            // A customer orders again.
            lists: Lists::new(alloc, false),
            is_listed: true,
        }
    }

    /// Gives the row at a key; a blanked key and one without a place have none.
    pub fn get(&self, key: &OrderKey) -> Option<&Order>
        ensures { option_copied result ≡ map.get (rows_of order_cmp self.now.places) key.now }
    {
        self.rows.get(key)
    }

    /// Puts a row at a key that has none. `NoMemory` comes only for a key without a place, where
    /// there was none for the place or for the customer's list; the rows are then as before. The
    /// lists stand on exactly where the order is listed under its customer. A blanked key that is
    /// listed there takes no memory.
    pub fn put_new(&mut self, key: OrderKey, row: Order) -> Result<(), NoMemory>
        requires { map.get (rows_of order_cmp self.old.places) key ≡ None }
        ensures ok { OnOk result
            (SetsPlace order_cmp self.old.places self.new.places key (Some row)) }
        ensures rows { OnOk result
            (rows_of order_cmp self.new.places
            ≡ map.insert (rows_of order_cmp self.old.places) key row) }
        ensures lists { ListsAtMost order_cmp self.old.lists self.new.lists
            (list_of_owner key row) key }
        ensures stand { OnOk result (IsTrue self.new.is_listed ↔ (IsTrue self.old.is_listed
            × IsListed order_cmp self.new.lists (list_of_owner key row) key)) }
        ensures err { OnErr result (self.new.places ≡ self.old.places) }
        ensures err_stand { OnErr result (self.new.is_listed ≡ self.old.is_listed) }
        ensures no_place { OnErr result (place order_cmp self.old.places key ≡ None) }
    {
        if let Err(refusal) = list(&mut self.lists, &mut self.is_listed, &self.rows, &key, &row) {
            return Err(refusal);
        }
        let _carrier = row.carrier;
        self.rows.put_new(key, row)
    }

    /// Puts another row in the place of the one at a key that has a row, and answers that one.
    /// Where it is another customer's, all lists are given up.
    pub fn swap(&mut self, key: &OrderKey, row: Order) -> Order
        requires { IsSome (map.get (rows_of order_cmp self.old.places) key.now) }
        ensures before { map.get (rows_of order_cmp self.old.places) key.now ≡ Some result }
        ensures places { SetsPlace order_cmp self.old.places self.new.places key.now (Some row) }
        ensures rows { rows_of order_cmp self.new.places
            ≡ map.insert (rows_of order_cmp self.old.places) key.now row }
        ensures lists { self.new.lists ≡ self.old.lists }
        ensures stand { IsTrue self.new.is_listed ↔ (IsTrue self.old.is_listed
            × IsTrue (is_owner row.customer
            (map.get (rows_of order_cmp self.old.places) key.now))) }
    {
        let stays = self.has_owner(key, row.customer);
        self.is_listed = are_both(self.is_listed, stays);
        let _carrier = row.carrier;
        self.rows.swap(key, row)
    }

    // Whether the order of a key is the customer's of that number.
    fn has_owner(&self, key: &OrderKey, customer: CustomerNumber) -> bool
        ensures { result ≡ is_owner customer (map.get (rows_of order_cmp self.now.places) key.now) }
    {
        match self.get(key) {
            Some(row) => row.customer == customer,
            None => false,
        }
    }

    /// Sets the carrier of the row at a key that has a row.
    pub fn set_carrier(&mut self, key: &OrderKey, carrier: Carrier)
        requires { IsSome (map.get (rows_of order_cmp self.old.places) key.now) }
        ensures row { (o : Order) → map.get (rows_of order_cmp self.old.places) key.now ≡ Some o
            → RewritesRow order_cmp self.old.places self.new.places key.now
            (record o { carrier = Some carrier }) }
        ensures lists { KeepsLists self.old self.new }
    {
        let order = self.rows.row_mut(key).unwrap();
        order.carrier = Some(carrier);
    }

    /// Puts columns before an update back on the row at a key that has a row. Where O_C_ID is among
    /// them, all lists are given up.
    pub fn put_back(&mut self, key: &OrderKey, columns: OrderBefore)
        requires { IsSome (map.get (rows_of order_cmp self.old.places) key.now) }
        ensures row { (o : Order) → map.get (rows_of order_cmp self.old.places) key.now ≡ Some o
            → RewritesRow order_cmp self.old.places self.new.places key.now (with_order columns o) }
        ensures lists { self.new.lists ≡ self.old.lists }
        ensures stand { IsTrue self.new.is_listed ↔ (IsTrue self.old.is_listed
            × (columns.customer ≡ None)) }
    {
        let same_owner = columns.customer.is_none();
        self.is_listed = are_both(self.is_listed, same_owner);
        let order = self.rows.row_mut(key).unwrap();
        columns.put_on(order);
    }

    /// Takes the row at a key that has one. The key keeps its place, blanked, and stays listed.
    pub fn blank(&mut self, key: &OrderKey) -> Order
        requires { IsSome (map.get (rows_of order_cmp self.old.places) key.now) }
        ensures before { map.get (rows_of order_cmp self.old.places) key.now ≡ Some result }
        ensures places { SetsPlace order_cmp self.old.places self.new.places key.now None }
        ensures rows { rows_of order_cmp self.new.places
            ≡ map.remove (rows_of order_cmp self.old.places) key.now }
        ensures lists { KeepsLists self.old self.new }
    {
        self.rows.blank(key)
    }

    /// Takes the row at a key that has one, and the key's place. The key is off its customer's
    /// list: no walk meets it again.
    pub fn remove(&mut self, key: &OrderKey) -> Order
        requires { IsSome (map.get (rows_of order_cmp self.old.places) key.now) }
        ensures before { map.get (rows_of order_cmp self.old.places) key.now ≡ Some result }
        ensures places { LosesPlace order_cmp self.old.places self.new.places key.now }
        ensures rows { rows_of order_cmp self.new.places
            ≡ map.remove (rows_of order_cmp self.old.places) key.now }
        ensures lists { Unlists order_cmp self.old.lists self.new.lists
            (list_of_owner key.now result) key.now }
        ensures stand { self.new.is_listed ≡ self.old.is_listed }
    {
        let row = self.rows.remove(key);
        unlist(&mut self.lists, key, &row);
        row
    }

    /// Gives up the places of all blanked keys, which stay listed. It takes no memory.
    pub fn sweep(&mut self)
        ensures places { GivesUpBlanked order_cmp self.old.places self.new.places }
        ensures rows { rows_of order_cmp self.new.places ≡ rows_of order_cmp self.old.places }
        ensures lists { KeepsLists self.old self.new }
    {
        self.rows.sweep();
    }

    /// Gives the rows with their keys, in the keys' order.
    pub fn iter(&self) -> Rows<'_, OrderKey, Order>
        ensures { result ≡ entries (rows_of order_cmp self.now.places) }
    {
        self.rows.iter()
    }

    /// Gives the keys that have a place, in their order, each with its row or, where it was
    /// blanked, `None`.
    pub fn places(&self) -> Candidates<'_, OrderKey, Order>
        ensures { result ≡ self.now.places }
    {
        self.rows.places()
    }

    /// Gives the rows whose keys lie from `from` up to `to`, both included, in the keys' order.
    pub fn range_inclusive(&self, from: OrderKey, to: OrderKey) -> Rows<'_, OrderKey, Order>
        requires { IsLeBy order_cmp from to }
        ensures { result
            ≡ entries_between order_cmp (Included from) (Included to)
            (entries (rows_of order_cmp self.now.places)) }
    {
        self.rows.range_inclusive(from, to)
    }

    /// Gives a walk that meets a customer's orders in their keys' order, and others. Where the
    /// lists were given up it is the other walk, which has to meet them too.
    pub fn of_customer<'a>(
        &'a self,
        customer: &CustomerKey,
        others: Rows<'a, OrderKey, Order>,
    ) -> Found<'a, OrderKey, Order>
        requires { own_of customer.now others
            ≡ orders_of customer.now (rows_of order_cmp self.now.places) }
        ensures { own_of customer.entry.now result
            ≡ orders_of customer.entry.now (rows_of order_cmp self.entry.now.places) }
    {
        let number = owner_number(customer);
        Found {
            rows: &self.rows,
            listed: self.lists.under(number),
            others,
            is_listed: self.is_listed,
        }
    }
}
