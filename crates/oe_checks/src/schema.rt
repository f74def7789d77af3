//! How many rows there are (clause 1.2.1).
ghost use Rattle.std.specs.Prelude.{◌≡◌, IfOk, List, pos, cond, nat_eq};
ghost use Rattle.std.specs.Option.{option_map};
ghost use Rattle.oe_tally.specs.Walks.{AreAll};
ghost use Rattle.std.specs.Ordering.{nat_cmp};
ghost use Rattle.oe_facts.specs.declared.facts.WarehouseFact.{WarehouseFact};
ghost use Rattle.oe_facts.specs.declared.facts.DistrictFact.{DistrictFact};
ghost use Rattle.oe_facts.specs.declared.facts.OrderFact.{OrderFact};
ghost use Rattle.oe_ledgers.specs.Keys.{district_cmp, same_district};
ghost use Rattle.oe_ledgers.specs.Keeping.{KeepsWarehouses};
ghost use Rattle.oe_ledgers.specs.Settling.{AreSettledWarehouses};
ghost use Rattle.oe_ledgers.specs.Keeping.{KeepsDistricts};
ghost use Rattle.oe_ledgers.specs.Settling.{AreSettledDistricts};
ghost use Rattle.oe_ledgers.specs.Keeping.{KeepsOrders};
ghost use Rattle.oe_ledgers.specs.Settling.{AreSettledOrders};
ghost use Rattle.oe_ledgers.specs.Figures.{AreFew, AreAmounts, AreNumbers};
ghost use Rattle.oe_checks.specs.Comparing.{against, single};
ghost use Rattle.oe_checks.specs.Schema.{ten_districts};
ghost use Rattle.oe_checks.specs.Schema.{orders_without_gap};

use crate::figures::{Apart, differing};
use oe_facts::keys::DistrictId;
use oe_ledgers::districts::Districts;
use oe_ledgers::orders::{DistrictOrders, Orders};
use oe_ledgers::takings::Takings;
use oe_ledgers::warehouses::{WarehouseSums, Warehouses};
use oe_tally::checks::{Check, findings};
use oe_tally::count::Count;
use oe_tally::tally::Tally;
use std::alloc::{AllocError, Global};

struct TenDistricts;

impl Check<WarehouseSums, Takings> for TenDistricts {
    ghost use Rattle.std.specs.Prelude.{refl};

    type Wrong = Apart;

    ghost judged = { λ _ row sum. against (option_map (λ s. pos 10) row)
        (option_map (λ s. pos s.rows) sum) };

    ghost nothing = { λ _. refl };

    fn judge(&self, row: Option<WarehouseSums>, sum: Option<Takings>) -> Option<Apart>
        ensures { result ≡ against (option_map (λ s. pos 10) row)
            (option_map (λ s. pos s.rows) sum) }
    {
        let Some(row) = row else {
            return None;
        };
        let second = match sum {
            Some(sum) => sum.rows as i128,
            None => 0,
        };
        let first = 10;
        differing(first, second)
    }
}

/// Gives each W_ID that has not ten DISTRICT rows, with ten and their number (clause 1.2.1).
pub fn ten_districts(
    alloc: Global,
    warehouses: &Warehouses,
    districts: &Districts,
) -> Result<Vec<(u32, Apart)>, AllocError>
    requires warehouses { AreSettledWarehouses warehouses.now }
    requires districts { AreSettledDistricts districts.now }
    ensures { (of_warehouses : List WarehouseFact) (of_districts : List DistrictFact)
        → KeepsWarehouses of_warehouses warehouses.now
        → KeepsDistricts of_districts districts.now
        → AreFew of_districts
        → IfOk result (λ found. AreAll nat_cmp nat_eq
        (ten_districts of_warehouses of_districts) found.items) }
{
    let sums = &districts.by_warehouse;
    findings(alloc, &TenDistricts, &warehouses.by_warehouse, sums)
}

struct OrdersWithoutGap;

impl Check<DistrictOrders, Count> for OrdersWithoutGap {
    ghost use Rattle.std.specs.Prelude.{refl};

    type Wrong = Apart;

    ghost judged = { λ _ row sum. single (option_map (λ s. pos s.greatest) row)
        (option_map (λ s. pos s.rows) row) };

    ghost nothing = { λ _. refl };

    fn judge(&self, row: Option<DistrictOrders>, _sum: Option<Count>) -> Option<Apart>
        ensures { result ≡ single (option_map (λ s. pos s.greatest) row)
            (option_map (λ s. pos s.rows) row) }
    {
        let Some(row) = row else {
            return None;
        };
        differing(row.greatest as i128, row.rows as i128)
    }
}

/// Gives each district whose greatest O_ID is not the number of its ORDER rows, with both. Where
/// keys stand once and the two are one, its orders are 1, 2, 3 and so on (clause 2.4.2.2).
pub fn orders_without_gap(
    alloc: Global,
    orders: &Orders,
) -> Result<Vec<(DistrictId, Apart)>, AllocError>
    requires { AreSettledOrders orders.now }
    ensures { (of_orders : List OrderFact)
        → KeepsOrders of_orders orders.now
        → AreFew of_orders
        → IfOk result (λ found. AreAll district_cmp same_district
        (orders_without_gap of_orders) found.items) }
{
    let nothing: Tally<DistrictId, Count> = Tally::new(alloc);
    findings(alloc, &OrdersWithoutGap, &orders.by_district, &nothing)
}
