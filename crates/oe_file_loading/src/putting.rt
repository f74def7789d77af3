//! Rows are put into tables, one after another, each behind the rows that it refers to.
ghost use Rattle.std.specs.Prelude.{◌≡◌, ◌++◌, ◌∷◌, [], map, IfOk, OnOk};
ghost use Rattle.std.specs.List.Sorted.{IsStrictlySortedBy};
ghost use Rattle.oe_rows.specs.Key.{warehouse_cmp, district_cmp};
ghost use Rattle.oe_table.specs.Table.{rows_of};
ghost use Rattle.oe_file_loading.specs.Base.{OnlyHomes, base_rows};
ghost use Rattle.oe_file_loading.specs.Homes.{AreDistricts};
ghost use Rattle.oe_file_loading.specs.Loaded.{HomesPut};
ghost use Rattle.oe_file_loading.specs.Placing.{HasRow, IsKeyOf, OnlyAdds, OnlyOf, Puts, PutsOne};

use crate::base::Base;
use crate::homes::{Homes, put_district};
use crate::loading::Apart;
use crate::places::Placing;
use oe_file_tables::{Batches, Numbered, RowLine};
use oe_rows::{District, DistrictKey, Warehouse, WarehouseKey};
use oe_table::shelves::Shelves;
use oe_values::{NoMemory, TableKey};
use std::alloc::Global;

/// Appends a value.
fn append<T: Drop>(values: &mut Vec<T>, value: T) -> Result<(), NoMemory>
    ensures { OnOk result (values.new.items ≡ values.old.items ++ value ∷ []) }
{
    match values.push(value) {
        Ok(()) => Ok(()),
        Err(_) => Err(NoMemory),
    }
}

/// Puts a row where the rows that it refers to are there, and else sets it apart.
fn put_row<K: TableKey + Copy + Drop, R: RowLine<K> + Drop, T: Placing<K, R>>(
    key: K,
    row: R,
    into: &mut T,
    apart: &mut Vec<Apart>,
) -> Result<(), NoMemory>
    requires { HasRow (T.rows_in into.old) (R.key_of key) → ⊥ }
    ensures put { OnOk result (PutsOne R.key_of T.refers T.with_row key row (T.rows_in into.old)
        (T.rows_in into.new) apart.old.items apart.new.items) }
    ensures only { OnOk result (OnlyAdds R.key_of key (T.rows_in into.old) (T.rows_in into.new)) }
{
    if let Some(missing) = into.missing(&key, &row) {
        let parted = Apart {
            key: R::key(&key),
            missing,
        };
        return append(apart, parted);
    }
    into.put(key, row)
}

/// Puts the rows of a file, whose keys ascend and have no row. A row that refers to a row that is
/// not there is set apart.
pub(crate) fn put_rows<K: TableKey + Copy + Drop, R: RowLine<K> + Drop, T: Placing<K, R>>(
    file_rows: Batches<K, R>,
    into: &mut T,
    apart: &mut Vec<Apart>,
) -> Result<(), NoMemory>
    requires ascending { IsStrictlySortedBy K.cmp (map (λ n. n.key) file_rows) }
    requires new { (k : K) → IsKeyOf file_rows k → HasRow (T.rows_in into.old) (R.key_of k)
        → ⊥ }
    ensures put { OnOk result (Puts R.key_of T.refers T.with_row file_rows
        (T.rows_in into.old) (T.rows_in into.new) apart.old.items apart.new.items) }
    ensures only { OnOk result (OnlyOf R.key_of file_rows (T.rows_in into.old)
        (T.rows_in into.new)) }
{
    for numbered in file_rows.into_vecs().into_iter().flatten() {
        let Numbered { line: _, key, row } = numbered;
        if let Err(refusal) = put_row(key, row, into, apart) {
            return Err(refusal);
        }
    }
    Ok(())
}

/// Makes a table of all districts of the lines.
fn all_districts(
    alloc: Global,
    district_rows: &Batches<DistrictKey, District>,
) -> Result<Shelves<DistrictKey, District>, NoMemory>
    ensures { IfOk result (λ t. AreDistricts district_rows.now (rows_of district_cmp t)) }
{
    let mut table = Shelves::new(alloc);
    for numbered in district_rows.iter() {
        if let Err(refusal) = put_district(&mut table, numbered.key, numbered.row.copied()) {
            return Err(refusal);
        }
    }
    Ok(table)
}

/// Keeps the warehouses that have ten districts, and these. The others are set apart.
pub(crate) fn keep_homes(
    alloc: Global,
    warehouse_rows: Batches<WarehouseKey, Warehouse>,
    district_rows: Batches<DistrictKey, District>,
    apart: &mut Vec<Apart>,
) -> Result<Base, NoMemory>
    requires warehouses { IsStrictlySortedBy warehouse_cmp (map (λ n. n.key) warehouse_rows) }
    requires districts { IsStrictlySortedBy district_cmp (map (λ n. n.key) district_rows) }
    ensures put { IfOk result (λ b. HomesPut warehouse_rows district_rows (base_rows b)
        apart.old.items apart.new.items) }
    ensures only { IfOk result (λ b. OnlyHomes (base_rows b)) }
{
    let mut found = Homes {
        warehouses: Shelves::new(alloc),
        districts: all_districts(alloc, &district_rows)?,
    };
    put_rows(warehouse_rows, &mut found, apart)?;
    let Homes {
        warehouses,
        districts: _,
    } = found;
    let mut kept = Homes {
        warehouses,
        districts: Shelves::new(alloc),
    };
    put_rows(district_rows, &mut kept, apart)?;
    Ok(Base::of(alloc, kept))
}
