//! Addresses, warehouses and districts read from the front of bytes, exactly where their images
//! stand there.
ghost use Rattle.std.specs.Prelude.{◌≡◌};
ghost use Rattle.std.specs.Option.{option_map};
ghost use Rattle.std.proofs.Common.{rules};
ghost use Rattle.oe_rows.specs.Warehouse.{IsAddress, IsWarehouse};
ghost use Rattle.oe_rows.specs.District.{IsDistrict};
ghost use Rattle.oe_decode.specs.RowFronts.{warehouse_at, district_at};

use crate::decode::{Decode, Row};
use crate::fronts::Ranged;
use oe_rows::districts::District;
use oe_rows::warehouses::{Address, Warehouse};
use oe_values::numbers::YearToDate;
use oe_values::texts::Text;

impl Row for Address {
    type Columns = (
        Text<0, 20>,
        (Text<0, 20>, (Text<0, 20>, (Text<2, 2>, Text<9, 9>))),
    );

    ghost of = { λ c. record {
      street_1 = c.0;
      street_2 = c.1.0;
      city = c.1.1.0;
      state = c.1.1.1.0;
      zip = c.1.1.1.1;
    } };

    ghost parts = { λ r. (r.street_1, (r.street_2, (r.city, (r.state, r.zip)))) };

    ghost ranges = { IsAddress };

    ghost is_row = { Prim.search rules };

    fn of_columns(columns: Self::Columns) -> Self {
        let (street_1, (street_2, (city, (state, zip)))) = columns;
        Address {
            street_1,
            street_2,
            city,
            state,
            zip,
        }
    }
}

impl Row for Warehouse {
    type Columns = (Text<0, 10>, (Address, (Ranged<2, 0, 9_999>, YearToDate)));

    ghost of = { λ c. record { name = c.0; address = c.1.0; tax = c.1.1.0; ytd = c.1.1.1 } };

    ghost parts = { λ r. (r.name, (r.address, (r.tax, r.ytd))) };

    ghost ranges = { IsWarehouse };

    ghost is_row = { Prim.search rules };

    fn of_columns(columns: Self::Columns) -> Self {
        let (name, (address, (tax, ytd))) = columns;
        Warehouse {
            name,
            address,
            tax: tax.get(),
            ytd,
        }
    }
}

impl Row for District {
    type Columns = (
        Text<0, 10>,
        (
            Address,
            (Ranged<2, 0, 9_999>, (YearToDate, Ranged<4, 1, 10_000_000>)),
        ),
    );

    ghost of = { λ c. record {
      name = c.0;
      address = c.1.0;
      tax = c.1.1.0;
      ytd = c.1.1.1.0;
      next_order = c.1.1.1.1;
    } };

    ghost parts = { λ r. (r.name, (r.address, (r.tax, (r.ytd, r.next_order)))) };

    ghost ranges = { IsDistrict };

    ghost is_row = { Prim.search rules };

    fn of_columns(columns: Self::Columns) -> Self {
        let (name, (address, (tax, (ytd, next_order)))) = columns;
        District {
            name,
            address,
            tax: tax.get(),
            ytd,
            next_order: next_order.get(),
        }
    }
}

/// Reads the WAREHOUSE row at the front of the bytes, and those behind it.
#[tactic(auto, unfolding(crate::specs::RowFronts::warehouse_at, crate::specs::RowFronts::address_at))]
pub fn read_warehouse(bytes: &[u8]) -> Option<(Warehouse, &[u8])>
    ensures { option_map (λ x. (x.0, x.1.now)) result ≡ warehouse_at bytes.now }
{
    Warehouse::decode(bytes)
}

/// Reads the DISTRICT row at the front of the bytes, and those behind it.
#[tactic(auto, unfolding(crate::specs::RowFronts::district_at, crate::specs::RowFronts::address_at))]
pub fn read_district(bytes: &[u8]) -> Option<(District, &[u8])>
    ensures { option_map (λ x. (x.0, x.1.now)) result ≡ district_at bytes.now }
{
    District::decode(bytes)
}
