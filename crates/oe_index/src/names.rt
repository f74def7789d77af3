//! Customers in the lists of their last names, and whether one is in such a list.
//!
//! Only `list` and `list_renamed` take memory; where that is refused the lists are as
//! before.
ghost use Rattle.std.specs.Prelude.{◌≡◌, ◌↔◌, ◌⊎◌, false, OnOk, OnErr, IfSome, IsTrue};
ghost use Rattle.std.specs.FinMap as map;
ghost use Rattle.oe_rows.specs.Key.{customer_cmp};
ghost use Rattle.oe_table.specs.Table.{rows_of};
ghost use Rattle.oe_model.specs.Keys.{district_of_customer};
ghost use Rattle.oe_index.specs.Listed.{IsListed, ListsAtMost, is_name};
ghost use Rattle.oe_index.specs.Numbers.{list_number, is_list_of};

use crate::lists::Lists;
use crate::numbers::list_number;
use oe_rows::{Customer, CustomerKey};
use oe_table::shelves::Shelves;
use oe_values::{NoMemory, Text};
use std::cmp::Ordering;

/// Lists a customer under the district and C_LAST.
pub(crate) fn list(
    lists: &mut Lists<CustomerKey>,
    key: &CustomerKey,
    last: &Text<0, 16>,
) -> Result<(), NoMemory>
    ensures lists { ListsAtMost customer_cmp lists.old lists.new
        (list_number (district_of_customer key.now) last.now) key.now }
    ensures listed { OnOk result (IsListed customer_cmp lists.new
        (list_number (district_of_customer key.now) last.now) key.now) }
    ensures err { OnErr result (lists.new ≡ lists.old) }
{
    let number = list_number(&key.district_key(), last);
    lists.add(number, *key)
}

// Whether the customer of a key has that C_LAST.
fn has_name(rows: &Shelves<CustomerKey, Customer>, key: &CustomerKey, last: &Text<0, 16>) -> bool
    ensures { result ≡ is_name last.now (map.get (rows_of customer_cmp rows.now) key.now) }
{
    match rows.get(key) {
        Some(row) => row.name.last.as_str().cmp(last.as_str()) == Ordering::Equal,
        None => false,
    }
}

/// Lists a customer under a C_LAST where it has another one. Under its own it is listed.
pub(crate) fn list_renamed(
    lists: &mut Lists<CustomerKey>,
    rows: &Shelves<CustomerKey, Customer>,
    key: &CustomerKey,
    last: &Text<0, 16>,
) -> Result<(), NoMemory>
    ensures lists { ListsAtMost customer_cmp lists.old lists.new
        (list_number (district_of_customer key.now) last.now) key.now }
    ensures listed { OnOk result
        (is_name last.now (map.get (rows_of customer_cmp rows.now) key.now) ≡ false
        → IsListed customer_cmp lists.new
        (list_number (district_of_customer key.now) last.now) key.now) }
    ensures other { OnErr result
        (is_name last.now (map.get (rows_of customer_cmp rows.now) key.now) ≡ false) }
    ensures err { OnErr result (lists.new ≡ lists.old) }
{
    if has_name(rows, key, last) {
        return Ok(());
    }
    list(lists, key, last)
}

/// Tells whether a customer has that C_LAST, or is listed under it.
pub(crate) fn is_under(
    lists: &Lists<CustomerKey>,
    rows: &Shelves<CustomerKey, Customer>,
    key: &CustomerKey,
    last: &Text<0, 16>,
) -> bool
    ensures { IsTrue result
        ↔ (IsTrue (is_name last.now (map.get (rows_of customer_cmp rows.now) key.now))
        ⊎ IsListed customer_cmp lists.now
        (list_number (district_of_customer key.now) last.now) key.now) }
{
    if has_name(rows, key, last) {
        return true;
    }
    lists.has(list_number(&key.district_key(), last), key)
}

/// Tells whether a customer is listed under the C_LAST that is put back, if one is.
pub(crate) fn is_under_before(
    lists: &Lists<CustomerKey>,
    key: &CustomerKey,
    before: &Option<Text<0, 16>>,
) -> bool
    ensures { IsTrue result
        ↔ IfSome before.now (λ last. IsListed customer_cmp lists.now
        (list_number (district_of_customer key.now) last) key.now) }
{
    match before {
        Some(last) => lists.has(list_number(&key.district_key(), last), key),
        None => true,
    }
}

/// Tells whether the list of a number is that of the customer's own C_LAST.
pub(crate) fn is_own_list(
    rows: &Shelves<CustomerKey, Customer>,
    key: &CustomerKey,
    number: usize,
) -> bool
    ensures { result
        ≡ is_list_of number key.now (map.get (rows_of customer_cmp rows.now) key.now) }
{
    match rows.get(key) {
        Some(row) => list_number(&key.district_key(), &row.name.last) == number,
        None => false,
    }
}
