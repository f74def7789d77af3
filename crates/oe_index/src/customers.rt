//! The customers, which are found by last name too.
//!
//! Beside the rows each customer's key is listed under a number of district and last name, so that
//! a walk over customers of one name meets few others. By the invariant each row's key is in the
//! list of its last name, unless the lists were given up; walks then go over all rows that they are
//! given. `set_names` and `replace` list a customer under another last name before they write it,
//! and leave it in the list of the name before, until `forget_name` takes it off there: so `swap`
//! and `put_back`, which may not take memory, find it listed where they put that name back. Where
//! they put one under which it is not listed, they give the lists up. Only `put_new`, and
//! `set_names` and `replace` for another last name, take memory; where that is refused the rows are
//! as before. Each call tells which keys are listed after it, and whether the lists stand.
ghost use Rattle.std.specs.Prelude.{◌≡◌, ◌↔◌, true, Some, None, OnOk, OnErr, IfOk, IfSome, IsSome, IsTrue, []};
ghost use Rattle.std.specs.Option.{option_copied};
ghost use Rattle.std.specs.FinMap.{entries};
ghost use Rattle.std.specs.FinMap as map;
ghost use Rattle.std.specs.BTreeMap.Range.{IsLeBy, entries_between};
ghost use Rattle.std.specs.declared.ops.Bound.TheVariants.{Included};
ghost use Rattle.oe_rows.specs.Key.{customer_cmp};
ghost use Rattle.oe_rows.specs.Before.{with_customer};
ghost use Rattle.oe_rows.specs.Credit.{with_entry};
ghost use Rattle.oe_rows.specs.declared.customers.Customer.{Customer};
ghost use Rattle.oe_model.specs.Choice.{namesakes};
ghost use Rattle.oe_model.specs.Keys.{district_of_customer};
ghost use Rattle.oe_model.specs.Rename.{with_names};
ghost use Rattle.oe_table.specs.Table.{rows_of, GivesUpBlanked, SetsPlace, RewritesRow};
ghost use Rattle.oe_index.specs.Listed.{IsListed, ListsAtMost, KeepsLists, HasOtherName};
ghost use Rattle.oe_index.specs.Numbers.{list_number, list_of_name, ForgetsName};
ghost use Rattle.oe_index.specs.Own.{named_of};

use crate::flags::are_both;
use crate::lists::Lists;
use crate::names::{is_own_list, is_under, is_under_before, list, list_renamed};
use crate::numbers::list_number;
use crate::walks::Found;
use oe_rows::{Account, Customer, CustomerBefore, CustomerKey, DistrictKey};
use oe_table::shelf_walks::{Candidates, Rows};
use oe_table::shelves::Shelves;
use oe_values::{NoMemory, Text};
use std::alloc::Global;
use std::marker::Model;

/// The CUSTOMER rows by their keys, seen as a table of shelves, as the list of its places, with the
/// lists of keys, and whether these stand.
#[derive(Drop)]
pub struct Customers {
    rows: Shelves<CustomerKey, Customer>,
    lists: Lists<CustomerKey>,
    is_listed: bool,
}

impl Model for Customers {
    ghost use Rattle.oe_rows.specs.Key.{customer_cmp};
    ghost use Rattle.oe_rows.specs.declared.keys.CustomerKey.{CustomerKey};
    ghost use Rattle.oe_rows.specs.declared.customers.Customer.{Customer};
    ghost use Rattle.oe_table.specs.Table.{rows_of};
    ghost use Rattle.oe_index.specs.Listed.{Indexed, AreListed};
    ghost use Rattle.oe_index.specs.Numbers.{list_of_name};

    ghost Value = { Indexed CustomerKey Customer };

    ghost view = { λ t. record { places = t.rows; lists = t.lists; is_listed = t.is_listed } };

    ghost invariant = { λ t.
        AreListed customer_cmp list_of_name t.is_listed t.lists (rows_of customer_cmp t.rows) };
}

impl Customers {
    /// Makes a table without a place, which takes no memory.
    pub fn new(alloc: Global) -> Self
        ensures places { result.places ≡ [] }
        ensures rows { rows_of customer_cmp result.places ≡ map.empty }
        ensures lists { result.lists ≡ [] }
        ensures listed { result.is_listed ≡ true }
    {
        Customers {
            rows: Shelves::new(alloc),
            lists: Lists::new(alloc, true),
            is_listed: true,
        }
    }

    /// Gives the row at a key.
    pub fn get(&self, key: &CustomerKey) -> Option<&Customer>
        ensures { option_copied result ≡ map.get (rows_of customer_cmp self.now.places) key.now }
    {
        self.rows.get(key)
    }

    /// Takes memory for so many customers more in the district of a key. It changes nothing, also
    /// where memory is refused.
    pub fn reserve(&mut self, key: &CustomerKey, more: usize) -> Result<(), NoMemory>
        ensures { self.new ≡ self.old }
    {
        self.rows.reserve(key, more)
    }

    /// Puts a row at a key that has none, and lists the customer under its C_LAST. `NoMemory` comes
    /// where there was none for the key's place or for its list; the rows are then as before, and
    /// the row is dropped.
    pub fn put_new(&mut self, key: CustomerKey, row: Customer) -> Result<(), NoMemory>
        requires { map.get (rows_of customer_cmp self.old.places) key ≡ None }
        ensures ok { OnOk result
            (SetsPlace customer_cmp self.old.places self.new.places key (Some row)) }
        ensures rows { OnOk result
            (rows_of customer_cmp self.new.places
            ≡ map.insert (rows_of customer_cmp self.old.places) key row) }
        ensures lists { ListsAtMost customer_cmp self.old.lists self.new.lists
            (list_of_name key row) key }
        ensures listed { OnOk result
            (IsListed customer_cmp self.new.lists (list_of_name key row) key) }
        ensures stand { self.new.is_listed ≡ self.old.is_listed }
        ensures err { OnErr result (self.new.places ≡ self.old.places) }
    {
        if let Err(refusal) = list(&mut self.lists, &key, &row.name.last) {
            return Err(refusal);
        }
        self.rows.put_new(key, row)
    }

    /// Puts another row in the place of the one at a key that has a row, and answers that one. It
    /// takes no memory: where the customer is not listed under the new C_LAST, all lists are given
    /// up.
    pub fn swap(&mut self, key: &CustomerKey, row: Customer) -> Customer
        requires { IsSome (map.get (rows_of customer_cmp self.old.places) key.now) }
        ensures before { map.get (rows_of customer_cmp self.old.places) key.now ≡ Some result }
        ensures places { SetsPlace customer_cmp self.old.places self.new.places key.now (Some row) }
        ensures rows { rows_of customer_cmp self.new.places
            ≡ map.insert (rows_of customer_cmp self.old.places) key.now row }
        ensures lists { self.new.lists ≡ self.old.lists }
        ensures stand { IsTrue self.new.is_listed ↔ (IsTrue self.old.is_listed
            × IsListed customer_cmp self.old.lists (list_of_name key.now row) key.now) }
    {
        let stays = is_under(&self.lists, &self.rows, key, &row.name.last);
        self.is_listed = are_both(self.is_listed, stays);
        self.rows.swap(key, row)
    }

    /// Puts another row in the place of the one at a key that has a row, and answers that one.
    /// `NoMemory` comes only where its C_LAST is another and there was none for that one's list;
    /// the table is then as before, and the row is dropped.
    pub fn replace(&mut self, key: &CustomerKey, row: Customer) -> Result<Customer, NoMemory>
        requires { IsSome (map.get (rows_of customer_cmp self.old.places) key.now) }
        ensures before { IfOk result
            (λ c. map.get (rows_of customer_cmp self.old.places) key.now ≡ Some c) }
        ensures places { OnOk result
            (SetsPlace customer_cmp self.old.places self.new.places key.now (Some row)) }
        ensures rows { OnOk result (rows_of customer_cmp self.new.places
            ≡ map.insert (rows_of customer_cmp self.old.places) key.now row) }
        ensures lists { ListsAtMost customer_cmp self.old.lists self.new.lists
            (list_of_name key.now row) key.now }
        ensures listed { OnOk result (IsTrue self.new.is_listed
            → IsListed customer_cmp self.new.lists (list_of_name key.now row) key.now) }
        ensures stand { self.new.is_listed ≡ self.old.is_listed }
        ensures err { OnErr result (self.new ≡ self.old) }
        ensures renamed { OnErr result
            (HasOtherName row.name.last (map.get (rows_of customer_cmp self.old.places) key.now)) }
    {
        if let Err(refusal) = list_renamed(&mut self.lists, &self.rows, key, &row.name.last) {
            return Err(refusal);
        }
        Ok(self.rows.swap(key, row))
    }

    /// Sets C_LAST and C_FIRST of the row at a key that has a row. `NoMemory` comes only where
    /// C_LAST is another and there was none for its list; the table is then as before.
    pub fn set_names(
        &mut self,
        key: &CustomerKey,
        last: &Text<0, 16>,
        first: &Text<0, 16>,
    ) -> Result<(), NoMemory>
        requires { IsSome (map.get (rows_of customer_cmp self.old.places) key.now) }
        ensures ok { OnOk result
            ((c : Customer) → map.get (rows_of customer_cmp self.old.places) key.now ≡ Some c
            → RewritesRow customer_cmp self.old.places self.new.places key.now
            (with_names last.now first.now c)) }
        ensures lists { ListsAtMost customer_cmp self.old.lists self.new.lists
            (list_number (district_of_customer key.now) last.now) key.now }
        ensures listed { OnOk result (IsTrue self.new.is_listed
            → IsListed customer_cmp self.new.lists
            (list_number (district_of_customer key.now) last.now) key.now) }
        ensures stand { self.new.is_listed ≡ self.old.is_listed }
        ensures err { OnErr result (self.new ≡ self.old) }
        ensures renamed { OnErr result
            (HasOtherName last.now (map.get (rows_of customer_cmp self.old.places) key.now)) }
    {
        if let Err(refusal) = list_renamed(&mut self.lists, &self.rows, key, last) {
            return Err(refusal);
        }
        let customer = self.rows.row_mut(key).unwrap();
        customer.name.last = last.copied();
        customer.name.first = first.copied();
        Ok(())
    }

    /// Takes a customer off the list of a C_LAST that nobody finds it by any more. Where its own
    /// C_LAST has the same list, it stays listed there.
    pub fn forget_name(&mut self, key: &CustomerKey, last: &Text<0, 16>)
        ensures places { self.new.places ≡ self.old.places }
        ensures lists { ForgetsName (rows_of customer_cmp self.old.places)
            self.old.lists self.new.lists
            (list_number (district_of_customer key.now) last.now) key.now }
        ensures stand { self.new.is_listed ≡ self.old.is_listed }
    {
        let number = list_number(&key.district_key(), last);
        if is_own_list(&self.rows, key, number) {
            return;
        }
        self.lists.remove(number, key);
    }

    /// Sets the account of the row at a key that has a row.
    pub fn set_account(&mut self, key: &CustomerKey, account: &Account)
        requires { IsSome (map.get (rows_of customer_cmp self.old.places) key.now) }
        ensures row { (c : Customer)
            → map.get (rows_of customer_cmp self.old.places) key.now ≡ Some c
            → RewritesRow customer_cmp self.old.places self.new.places key.now
            (record c { account = account.now }) }
        ensures lists { KeepsLists self.old self.new }
    {
        let customer = self.rows.row_mut(key).unwrap();
        customer.account = *account;
    }

    /// Sets the account of the row at a key that has a row, and puts an entry before C_DATA, where
    /// what passes 500 bytes is discarded (clause 2.5.2.2).
    pub fn set_bad_credit(&mut self, key: &CustomerKey, account: &Account, entry: &Text<0, 90>)
        requires { IsSome (map.get (rows_of customer_cmp self.old.places) key.now) }
        ensures row { (c : Customer)
            → map.get (rows_of customer_cmp self.old.places) key.now ≡ Some c
            → RewritesRow customer_cmp self.old.places self.new.places key.now
            (with_entry account.now entry.now c) }
        ensures lists { KeepsLists self.old self.new }
    {
        let debtor = self.rows.row_mut(key).unwrap();
        debtor.account = *account;
        debtor.data = entry.before(&debtor.data);
    }

    /// Puts columns before an update back on the row at a key that has a row. It takes no memory:
    /// where C_LAST is among them and the customer is not listed under it, all lists are given up.
    pub fn put_back(&mut self, key: &CustomerKey, columns: CustomerBefore)
        requires { IsSome (map.get (rows_of customer_cmp self.old.places) key.now) }
        ensures row { (c : Customer)
            → map.get (rows_of customer_cmp self.old.places) key.now ≡ Some c
            → RewritesRow customer_cmp self.old.places self.new.places key.now
            (with_customer columns c) }
        ensures lists { self.new.lists ≡ self.old.lists }
        ensures stand { IsTrue self.new.is_listed ↔ (IsTrue self.old.is_listed
            × IfSome columns.name.last (λ last. IsListed customer_cmp self.old.lists
            (list_number (district_of_customer key.now) last) key.now)) }
    {
        let stays = is_under_before(&self.lists, key, &columns.name.last);
        self.is_listed = are_both(self.is_listed, stays);
        let customer = self.rows.row_mut(key).unwrap();
        columns.put_on(customer);
    }

    /// Gives up the places of all blanked keys, which stay listed. It takes no memory.
    pub fn sweep(&mut self)
        ensures places { GivesUpBlanked customer_cmp self.old.places self.new.places }
        ensures rows { rows_of customer_cmp self.new.places ≡ rows_of customer_cmp self.old.places }
        ensures lists { KeepsLists self.old self.new }
    {
        self.rows.sweep();
    }

    /// Gives the rows with their keys, in the keys' order.
    pub fn iter(&self) -> Rows<'_, CustomerKey, Customer>
        ensures { result ≡ entries (rows_of customer_cmp self.now.places) }
    {
        self.rows.iter()
    }

    /// Gives the keys that have a place, in their order, each with its row or, where it was
    /// blanked, `None`.
    pub fn places(&self) -> Candidates<'_, CustomerKey, Customer>
        ensures { result ≡ self.now.places }
    {
        self.rows.places()
    }

    /// Gives the rows whose keys lie from `from` up to `to`, both included, in the keys' order.
    pub fn range_inclusive(
        &self,
        from: CustomerKey,
        to: CustomerKey,
    ) -> Rows<'_, CustomerKey, Customer>
        requires { IsLeBy customer_cmp from to }
        ensures { result
            ≡ entries_between customer_cmp (Included from) (Included to)
            (entries (rows_of customer_cmp self.now.places)) }
    {
        self.rows.range_inclusive(from, to)
    }

    /// Tells whether the lists stand, so that a walk over namesakes is not the other walk. It is a
    /// hint, on which no answer rests.
    pub fn is_listed(&self) -> bool
        ensures { result ≡ self.now.is_listed }
    {
        self.is_listed
    }

    /// Gives a walk that meets the customers of a district with that C_LAST in their keys' order,
    /// and others (clause 2.5.2.2). Where the lists were given up it is the other walk, which has
    /// to meet them too.
    pub fn namesakes<'a>(
        &'a self,
        district: &DistrictKey,
        last: &Text<0, 16>,
        others: Rows<'a, CustomerKey, Customer>,
    ) -> Found<'a, CustomerKey, Customer>
        requires { named_of district.now last.now others
            ≡ namesakes district.now last.now (rows_of customer_cmp self.now.places) }
        ensures { named_of district.entry.now last.entry.now result
            ≡ namesakes district.entry.now last.entry.now
            (rows_of customer_cmp self.entry.now.places) }
    {
        let number = list_number(district, last);
        Found {
            rows: &self.rows,
            listed: self.lists.under(number),
            others,
            is_listed: self.is_listed,
        }
    }
}
