//! The scale of tables: from how many warehouses, customers of each district and items a load on
//! them draws, so that it asks for rows that are there.
ghost use Rattle.std.specs.Prelude.{◌≡◌, ◌≤◌, ◌<◌, ◌+◌, ℕ, IsSome, MatchOption, MatchResult};
ghost use Rattle.std.specs.Prelude.{None, true, false};
ghost use Rattle.oe_model.specs.Keys.{customer_in};
ghost use Rattle.oe_rows.specs.declared.keys.Key.TheVariants as key;
ghost use Rattle.oe_store.specs.Places.{rows};
ghost use Rattle.oe_from.specs.Scales.{warehouse_row, customer_row, item_row, has_name};
ghost use Rattle.oe_from.specs.Scales.{HasWarehouses, HasItems, HasCustomers, HaveCustomers};
ghost use Rattle.oe_from.specs.Scales.{HasNames, AreNamed, AllNamed};
ghost use Rattle.oe_from.specs.Scales.{HasScale, LacksFor};

use oe_rows::{CustomerKey, DistrictKey, ItemKey, Key, Scale, WarehouseKey};
use oe_store::Tables;
use oe_terms::names::name_of;
use oe_values::{CustomerNumber, ItemNumber, Number, WarehouseNumber};

/// The number of a last name (clause 4.3.2.3), from 0 to 999.
pub type NameNumber = Number<0, 999>;

/// What tables lack of a load.
#[derive(Clone, Copy)]
pub enum Gap {
    /// This row is not there; the rows of its table before it are.
    Row(Key),
    /// No customer of the district has the last name of that number.
    Name(DistrictKey, NameNumber),
}

/// Counts the warehouses from 1 on, up to the first that is not there.
fn warehouses(tables: &Tables) -> u32
    ensures all { (n : ℕ) → 1 ≤ n → n ≤ result → IsSome (warehouse_row (rows tables.now) n) }
    ensures next { result < 16 → warehouse_row (rows tables.now) (result + 1) ≡ None }
    ensures most { result ≤ 16 }
{
    for before in 0..16u32 {
        let key = WarehouseKey {
            warehouse: Number::new(before + 1).unwrap(),
        };
        if tables.warehouse(key).is_none() {
            return before;
        }
    }
    16
}

/// Counts the items from 1 on, up to the first that is not there.
fn items(tables: &Tables) -> u32
    ensures all { (n : ℕ) → 1 ≤ n → n ≤ result → IsSome (item_row (rows tables.now) n) }
    ensures next { result < 100_000 → item_row (rows tables.now) (result + 1) ≡ None }
    ensures most { result ≤ 100_000 }
{
    for before in 0..100_000u32 {
        let key = ItemKey {
            item: Number::new(before + 1).unwrap(),
        };
        if tables.item(key).is_none() {
            return before;
        }
    }
    100_000
}

/// Counts the customers of a district from 1 on, up to the first that is not there, and no more
/// than `most`.
fn customers(tables: &Tables, district: &DistrictKey, most: u32) -> u32
    requires { most ≤ 3_000 }
    ensures all { (n : ℕ) → 1 ≤ n → n ≤ result →
        IsSome (customer_row (rows tables.now) district.now n) }
    ensures next { result < most →
        customer_row (rows tables.now) district.now (result + 1) ≡ None }
    ensures most { result ≤ most }
{
    for before in 0..most {
        let key = CustomerKey {
            warehouse: district.warehouse,
            district: district.district,
            customer: Number::new(before + 1).unwrap(),
        };
        if tables.customer(key).is_none() {
            return before;
        }
    }
    most
}

/// Counts the customers that each of a warehouse's ten districts has, and no more than `most`; or
/// finds a district without customers.
fn fewest_of(tables: &Tables, warehouse: &WarehouseKey, most: u32) -> Result<u32, Gap>
    requires { (1 ≤ most) × (most ≤ 3_000) }
    ensures { MatchResult result (HasCustomers (rows tables.now) warehouse.now most)
        (LacksFor (rows tables.now)) }
{
    let mut least = most;
    for before in 0..10u32 {
        let district = DistrictKey {
            warehouse: warehouse.warehouse,
            district: Number::new(before + 1).unwrap(),
        };
        least = customers(tables, &district, least);
        if least == 0 {
            return Err(Gap::Row(first_customer(&district)));
        }
    }
    Ok(least)
}

/// Gives the key of a district's first customer.
fn first_customer(district: &DistrictKey) -> Key
    ensures { result ≡ key.Customer (customer_in district.now 1) }
{
    Key::Customer(CustomerKey {
        warehouse: district.warehouse,
        district: district.district,
        customer: Number::new(1).unwrap(),
    })
}

/// Finds the first last name that customers up to a number have by the formulas (clause 4.3.2.3),
/// and that no customer of the district has.
fn unnamed(tables: &Tables, district: &DistrictKey, customers: u32) -> Option<NameNumber>
    ensures { MatchOption result (HasNames (rows tables.now) district.now customers)
        (λ n. (n < customers) × (n < 1_000) × (has_name (rows tables.now) district.now n → ⊥)) }
{
    for number in 0..customers.min(1_000) {
        if tables
            .middle(district, &name_of(number).as_text())
            .is_none()
        {
            return Number::new(number);
        }
    }
    None
}

/// Tells whether a warehouse is there behind the first that is not.
fn has_more_warehouses(tables: &Tables, count: u32) -> bool
    requires { count ≤ 16 }
    ensures none { result ≡ false → (n : ℕ) → count < n → n ≤ 16 →
        warehouse_row (rows tables.now) n ≡ None }
    ensures some { result ≡ true → (n : ℕ) × (count < n) × (n ≤ 16)
        × IsSome (warehouse_row (rows tables.now) n) }
{
    for before in count..16 {
        let key = WarehouseKey {
            warehouse: Number::new(before + 1).unwrap(),
        };
        if tables.warehouse(key).is_some() {
            return true;
        }
    }
    false
}

/// Tells whether an item is there behind the first that is not.
fn has_more_items(tables: &Tables, count: u32) -> bool
    requires { count ≤ 100_000 }
    ensures none { result ≡ false → (n : ℕ) → count < n → n ≤ 100_000 →
        item_row (rows tables.now) n ≡ None }
    ensures some { result ≡ true → (n : ℕ) × (count < n) × (n ≤ 100_000)
        × IsSome (item_row (rows tables.now) n) }
{
    for before in count..100_000 {
        let key = ItemKey {
            item: Number::new(before + 1).unwrap(),
        };
        if tables.item(key).is_some() {
            return true;
        }
    }
    false
}

/// Gives the number of warehouses, where their numbers have no gap.
fn all_warehouses(tables: &Tables) -> Result<WarehouseNumber, Gap>
    ensures { MatchResult result (HasWarehouses (rows tables.now)) (LacksFor (rows tables.now)) }
{
    let count = warehouses(tables);
    if count == 0 || has_more_warehouses(tables, count) {
        return Err(Gap::Row(Key::Warehouse(WarehouseKey {
            warehouse: Number::new(count + 1).unwrap(),
        })));
    }
    Ok(Number::new(count).unwrap())
}

/// Gives the number of items, where their numbers have no gap.
fn all_items(tables: &Tables) -> Result<ItemNumber, Gap>
    ensures { MatchResult result (HasItems (rows tables.now)) (LacksFor (rows tables.now)) }
{
    let count = items(tables);
    if count == 0 || has_more_items(tables, count) {
        return Err(Gap::Row(Key::Item(ItemKey {
            item: Number::new(count + 1).unwrap(),
        })));
    }
    Ok(Number::new(count).unwrap())
}

/// Gives the number of customers that each district of warehouses has.
fn all_customers(tables: &Tables, warehouses: WarehouseNumber) -> Result<CustomerNumber, Gap>
    ensures { MatchResult result (HaveCustomers (rows tables.now) warehouses)
        (LacksFor (rows tables.now)) }
{
    let mut least = 3_000;
    for before in 0..warehouses.get() {
        let key = WarehouseKey {
            warehouse: Number::new(before + 1).unwrap(),
        };
        match fewest_of(tables, &key, least) {
            Ok(fewest) => least = fewest,
            Err(gap) => return Err(gap),
        }
    }
    Ok(Number::new(least).unwrap())
}

/// Finds the first district of a warehouse, and the first last name, that no customer there has.
fn unnamed_of(tables: &Tables, warehouse: &WarehouseKey, customers: u32) -> Option<Gap>
    ensures { MatchOption result (AreNamed (rows tables.now) warehouse.now customers)
        (LacksFor (rows tables.now)) }
{
    for before in 0..10u32 {
        let district = DistrictKey {
            warehouse: warehouse.warehouse,
            district: Number::new(before + 1).unwrap(),
        };
        if let Some(number) = unnamed(tables, &district, customers) {
            return Some(Gap::Name(district, number));
        }
    }
    None
}

/// Finds the first last name that no customer of some district has.
fn all_named(tables: &Tables, scale: &Scale) -> Option<Gap>
    ensures { MatchOption result (AllNamed (rows tables.now) scale.now)
        (LacksFor (rows tables.now)) }
{
    for before in 0..scale.warehouses.get() {
        let key = WarehouseKey {
            warehouse: Number::new(before + 1).unwrap(),
        };
        if let Some(gap) = unnamed_of(tables, &key, scale.customers.get()) {
            return Some(gap);
        }
    }
    None
}

/// Finds the scale of tables; or else something that they lack of a load.
pub fn scale_of(tables: &Tables) -> Result<Scale, Gap>
    ensures { MatchResult result (HasScale (rows tables.now)) (LacksFor (rows tables.now)) }
{
    let warehouses = match all_warehouses(tables) {
        Ok(warehouses) => warehouses,
        Err(gap) => return Err(gap),
    };
    let items = match all_items(tables) {
        Ok(items) => items,
        Err(gap) => return Err(gap),
    };
    let customers = match all_customers(tables, warehouses) {
        Ok(customers) => customers,
        Err(gap) => return Err(gap),
    };
    let scale = Scale {
        warehouses,
        customers,
        items,
    };
    match all_named(tables, &scale) {
        Some(gap) => Err(gap),
        None => Ok(scale),
    }
}
