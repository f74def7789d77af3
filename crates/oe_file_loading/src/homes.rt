//! Warehouses that have ten districts, and these (clauses 1.2.1 and 1.3).
ghost use Rattle.std.specs.Prelude.{◌≡◌, ◌∷◌, [], OnOk};
ghost use Rattle.std.specs.FinMap.{insert};
ghost use Rattle.oe_rows.specs.Key.{warehouse_cmp, district_cmp};
ghost use Rattle.oe_rows.specs.declared.keys.Key.TheVariants as kind;
ghost use Rattle.oe_table.specs.Table.{rows_of};
ghost use Rattle.oe_model.specs.Keys.{warehouse_of_district};
ghost use Rattle.oe_file_loading.specs.Homes.{home_rows, districts_from, PutsDistrict};
ghost use Rattle.oe_file_loading.specs.Placing.{missing_of};

use crate::places::Placing;
use oe_rows::{District, DistrictKey, Key, Warehouse, WarehouseKey};
use oe_table::shelves::Shelves;
use oe_values::{DistrictNumber, NoMemory};

/// Warehouses and districts.
#[derive(Drop)]
pub(crate) struct Homes {
    pub(crate) warehouses: Shelves<WarehouseKey, Warehouse>,
    pub(crate) districts: Shelves<DistrictKey, District>,
}

/// Puts a district, where its key has no row.
pub(crate) fn put_district(
    districts: &mut Shelves<DistrictKey, District>,
    key: DistrictKey,
    row: District,
) -> Result<(), NoMemory>
    ensures { OnOk result (PutsDistrict (rows_of district_cmp districts.old)
        (rows_of district_cmp districts.new) key row) }
{
    let _number = key.district.get();
    if districts.get(&key).is_some() {
        return Ok(());
    }
    districts.put_new(key, row)
}

/// Gives the first of a warehouse's ten districts that has no row.
fn first_lacking(homes: &Homes, key: WarehouseKey) -> Option<Key>
    ensures { result ≡ missing_of (districts_from key 1 10) (home_rows homes.now) }
{
    for number in 1..11u32 {
        let Some(district) = DistrictNumber::new(number) else {
            unreachable!();
        };
        let own = DistrictKey {
            warehouse: key.warehouse,
            district,
        };
        if homes.districts.get(&own).is_none() {
            return Some(Key::District(own));
        }
    }
    None
}

impl Placing<WarehouseKey, Warehouse> for Homes {
    ghost rows_in = { home_rows };

    ghost refers = { λ k x. districts_from k 1 10 };

    ghost with_row = { λ k x r. record r { warehouses = insert r.warehouses k x } };

    fn missing(&self, key: &WarehouseKey, row: &Warehouse) -> Option<Key> {
        let _any_row = row;
        first_lacking(self, *key)
    }

    fn put(&mut self, key: WarehouseKey, row: Warehouse) -> Result<(), NoMemory> {
        self.warehouses.put_new(key, row)
    }
}

impl Placing<DistrictKey, District> for Homes {
    ghost rows_in = { home_rows };

    ghost refers = { λ k x. kind.Warehouse (warehouse_of_district k) ∷ [] };

    ghost with_row = { λ k x r. record r { districts = insert r.districts k x } };

    fn missing(&self, key: &DistrictKey, row: &District) -> Option<Key> {
        let _any_row = row;
        let warehouse = key.warehouse_key();
        if self.warehouses.get(&warehouse).is_none() {
            return Some(Key::Warehouse(warehouse));
        }
        None
    }

    fn put(&mut self, key: DistrictKey, row: District) -> Result<(), NoMemory> {
        self.districts.put_new(key, row)
    }
}
