//! Addresses, warehouses and districts.
ghost use Rattle.std.specs.Prelude.{◌≡◌};
ghost use Rattle.oe_rows.specs.declared.keys.Key.TheVariants as kind;
ghost use Rattle.oe_file_rows.specs.Line.{read_as, row_as, columns, group_columns, ReadsRow};
ghost use Rattle.oe_file_rows.specs.Rows.{key_values, address_values, warehouse_key_forms, district_key_forms, address_forms, warehouse_forms, warehouse_values, district_forms, district_values};

use crate::columns::FourDecimals;
use crate::fields::Fields;
use crate::forms::LineFault;
use oe_rows::{Address, District, DistrictKey, Warehouse, WarehouseKey};

/// Reads the five columns of an address.
pub(crate) fn address(fields: &mut Fields<'_>) -> Result<Address, LineFault>
    ensures { read_as address_values fields.new result ≡ columns address_forms fields.old }
{
    let street_1 = fields.column()?;
    let street_2 = fields.column()?;
    let city = fields.column()?;
    let state = fields.column()?;
    let zip = fields.column()?;
    Ok(Address {
        street_1,
        street_2,
        city,
        state,
        zip,
    })
}

/// Reads D_W_ID and D_ID.
fn district_key(fields: &mut Fields<'_>) -> Result<DistrictKey, LineFault>
    ensures { read_as (λ k. key_values (kind.District k)) fields.new result
        ≡ columns district_key_forms fields.old }
{
    let warehouse = fields.column()?;
    let district = fields.column()?;
    Ok(DistrictKey {
        warehouse,
        district,
    })
}

/// Reads W_ID.
fn warehouse_key(fields: &mut Fields<'_>) -> Result<WarehouseKey, LineFault>
    ensures { read_as (λ k. key_values (kind.Warehouse k)) fields.new result
        ≡ columns warehouse_key_forms fields.old }
{
    let warehouse = fields.column()?;
    Ok(WarehouseKey { warehouse })
}

/// Reads all columns of a WAREHOUSE row.
fn warehouse(fields: &mut Fields<'_>) -> Result<(WarehouseKey, Warehouse), LineFault>
    ensures { row_as warehouse_values result ≡ group_columns warehouse_forms fields.old }
{
    let key = warehouse_key(fields)?;
    let name = fields.column()?;
    let address = address(fields)?;
    let FourDecimals(tax) = fields.column()?;
    let ytd = fields.column()?;
    fields.end()?;
    let row = Warehouse {
        name,
        address,
        tax,
        ytd,
    };
    Ok((key, row))
}

/// Reads all columns of a DISTRICT row.
fn district(fields: &mut Fields<'_>) -> Result<(DistrictKey, District), LineFault>
    ensures { row_as district_values result ≡ group_columns district_forms fields.old }
{
    let key = district_key(fields)?;
    let name = fields.column()?;
    let address = address(fields)?;
    let FourDecimals(tax) = fields.column()?;
    let ytd = fields.column()?;
    let next_order = fields.column()?;
    fields.end()?;
    let row = District {
        name,
        address,
        tax,
        ytd,
        next_order,
    };
    Ok((key, row))
}

/// Reads the WAREHOUSE row that the line spells, and its key. The line stands without its end.
pub fn read_warehouse(line: &[u8]) -> Result<(WarehouseKey, Warehouse), LineFault>
    ensures { ReadsRow 0 warehouse_forms warehouse_values line.now result }
{
    warehouse(&mut Fields::of(line, 0))
}

/// Reads the DISTRICT row that the line spells, and its key. The line stands without its end.
pub fn read_district(line: &[u8]) -> Result<(DistrictKey, District), LineFault>
    ensures { ReadsRow 0 district_forms district_values line.now result }
{
    district(&mut Fields::of(line, 0))
}
