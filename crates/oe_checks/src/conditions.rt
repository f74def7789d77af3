//! The consistency conditions of clause 3.3.2, of the rows as they are.
ghost use Rattle.std.specs.Prelude.{◌≡◌, IfOk, List, pos, cond, nat_eq};
ghost use Rattle.std.specs.Option.{option_map};
ghost use Rattle.oe_tally.specs.Walks.{AreAll};
ghost use Rattle.std.specs.Ordering.{nat_cmp};
ghost use Rattle.oe_facts.specs.declared.facts.WarehouseFact.{WarehouseFact};
ghost use Rattle.oe_facts.specs.declared.facts.DistrictFact.{DistrictFact};
ghost use Rattle.oe_facts.specs.declared.facts.OrderFact.{OrderFact};
ghost use Rattle.oe_facts.specs.declared.facts.NewOrderFact.{NewOrderFact};
ghost use Rattle.oe_facts.specs.declared.facts.OrderLineFact.{OrderLineFact};
ghost use Rattle.oe_facts.specs.declared.facts.HistoryFact.{HistoryFact};
ghost use Rattle.oe_ledgers.specs.Keys.{district_cmp, order_cmp, same_district, same_order};
ghost use Rattle.oe_ledgers.specs.Keeping.{KeepsWarehouses};
ghost use Rattle.oe_ledgers.specs.Settling.{AreSettledWarehouses};
ghost use Rattle.oe_ledgers.specs.Keeping.{KeepsDistricts};
ghost use Rattle.oe_ledgers.specs.Settling.{AreSettledDistricts};
ghost use Rattle.oe_ledgers.specs.Keeping.{KeepsOrders};
ghost use Rattle.oe_ledgers.specs.Settling.{AreSettledOrders};
ghost use Rattle.oe_ledgers.specs.Keeping.{KeepsNewOrders};
ghost use Rattle.oe_ledgers.specs.Settling.{AreSettledNewOrders};
ghost use Rattle.oe_ledgers.specs.Keeping.{KeepsOrderLines};
ghost use Rattle.oe_ledgers.specs.Settling.{AreSettledOrderLines};
ghost use Rattle.oe_ledgers.specs.Keeping.{KeepsHistories};
ghost use Rattle.oe_ledgers.specs.Settling.{AreSettledHistories};
ghost use Rattle.oe_ledgers.specs.Figures.{AreFew, AreAmounts, AreNumbers};
ghost use Rattle.oe_checks.specs.Comparing.{against, all_or_none, even, next, next_if_any, span};
ghost use Rattle.oe_checks.specs.Conditions.{condition_1};
ghost use Rattle.oe_checks.specs.Conditions.{condition_2_of_orders};
ghost use Rattle.oe_checks.specs.Conditions.{condition_2_of_new_orders};
ghost use Rattle.oe_checks.specs.Conditions.{condition_3};
ghost use Rattle.oe_checks.specs.Conditions.{condition_4};
ghost use Rattle.oe_checks.specs.Conditions.{condition_5};
ghost use Rattle.oe_checks.specs.Conditions.{condition_6};
ghost use Rattle.oe_checks.specs.Conditions.{condition_7};
ghost use Rattle.oe_checks.specs.Conditions.{condition_8};
ghost use Rattle.oe_checks.specs.Conditions.{condition_9};

use crate::figures::{Apart, differing};
use oe_facts::keys::{DistrictId, OrderId};
use oe_ledgers::districts::{DistrictSums, Districts};
use oe_ledgers::histories::Histories;
use oe_ledgers::new_orders::{NewOrderSums, NewOrders};
use oe_ledgers::order_lines::{LineSums, OrderLines};
use oe_ledgers::orders::{DistrictOrders, OrderSums, Orders};
use oe_ledgers::takings::Takings;
use oe_ledgers::warehouses::{WarehouseSums, Warehouses};
use oe_tally::checks::{Check, findings};
use oe_tally::count::Count;
use oe_tally::tally::Tally;
use std::alloc::{AllocError, Global};

struct Condition1;

impl Check<WarehouseSums, Takings> for Condition1 {
    ghost use Rattle.std.specs.Prelude.{refl};

    type Wrong = Apart;

    ghost judged = { λ _ row sum. against (option_map (λ s. s.ytd) row)
        (option_map (λ s. s.amount) sum) };

    ghost nothing = { λ _. refl };

    fn judge(&self, row: Option<WarehouseSums>, sum: Option<Takings>) -> Option<Apart>
        ensures { result ≡ against (option_map (λ s. s.ytd) row)
            (option_map (λ s. s.amount) sum) }
    {
        let Some(row) = row else {
            return None;
        };
        let second = match sum {
            Some(sum) => sum.amount,
            None => 0,
        };
        let first = row.ytd as i128;
        differing(first, second)
    }
}

/// Gives each W_ID whose W_YTD is not the sum of D_YTD, with both (clause 3.3.2.1).
pub fn condition_1(
    alloc: Global,
    warehouses: &Warehouses,
    districts: &Districts,
) -> Result<Vec<(u32, Apart)>, AllocError>
    requires warehouses { AreSettledWarehouses warehouses.now }
    requires districts { AreSettledDistricts districts.now }
    ensures { (of_warehouses : List WarehouseFact) (of_districts : List DistrictFact)
        → KeepsWarehouses of_warehouses warehouses.now
        → KeepsDistricts of_districts districts.now
        → AreFew of_districts
        → AreAmounts (λ (f : DistrictFact). f.ytd) of_districts
        → IfOk result (λ found. AreAll nat_cmp nat_eq
        (condition_1 of_warehouses of_districts) found.items) }
{
    let sums = &districts.by_warehouse;
    findings(alloc, &Condition1, &warehouses.by_warehouse, sums)
}

struct Condition2OfOrders;

impl Check<DistrictSums, DistrictOrders> for Condition2OfOrders {
    ghost use Rattle.std.specs.Prelude.{refl};

    type Wrong = Apart;

    ghost judged = { λ _ row sum. next (option_map (λ s. pos s.next_order) row)
        (option_map (λ s. pos s.greatest) sum) };

    ghost nothing = { λ _. refl };

    fn judge(&self, row: Option<DistrictSums>, sum: Option<DistrictOrders>) -> Option<Apart>
        ensures { result ≡ next (option_map (λ s. pos s.next_order) row)
            (option_map (λ s. pos s.greatest) sum) }
    {
        let Some(row) = row else {
            return None;
        };
        let second = match sum {
            Some(sum) => sum.greatest as i128 + 1,
            None => 0,
        };
        differing(row.next_order as i128, second)
    }
}

/// Gives each district whose D_NEXT_O_ID is not the greatest O_ID and 1, 0 where it has no ORDER
/// row, with both (clause 3.3.2.2).
pub fn condition_2_of_orders(
    alloc: Global,
    districts: &Districts,
    orders: &Orders,
) -> Result<Vec<(DistrictId, Apart)>, AllocError>
    requires districts { AreSettledDistricts districts.now }
    requires orders { AreSettledOrders orders.now }
    ensures { (of_districts : List DistrictFact) (of_orders : List OrderFact)
        → KeepsDistricts of_districts districts.now
        → KeepsOrders of_orders orders.now
        → IfOk result (λ found. AreAll district_cmp same_district
        (condition_2_of_orders of_districts of_orders) found.items) }
{
    let sums = &orders.by_district;
    findings(alloc, &Condition2OfOrders, &districts.by_district, sums)
}

struct Condition2OfNewOrders;

impl Check<DistrictSums, NewOrderSums> for Condition2OfNewOrders {
    ghost use Rattle.std.specs.Prelude.{refl};

    type Wrong = Apart;

    ghost judged = { λ _ row sum. next_if_any (option_map (λ s. pos s.next_order) row)
        (option_map (λ s. pos s.greatest) sum) };

    ghost nothing = { λ _. refl };

    fn judge(&self, row: Option<DistrictSums>, sum: Option<NewOrderSums>) -> Option<Apart>
        ensures { result ≡ next_if_any (option_map (λ s. pos s.next_order) row)
            (option_map (λ s. pos s.greatest) sum) }
    {
        let Some(row) = row else {
            return None;
        };
        let Some(sum) = sum else {
            return None;
        };
        differing(row.next_order as i128, sum.greatest as i128 + 1)
    }
}

/// Gives each district whose D_NEXT_O_ID is not the greatest NO_O_ID and 1, where it has a NEW-
/// ORDER row, with both (clause 3.3.2.2).
pub fn condition_2_of_new_orders(
    alloc: Global,
    districts: &Districts,
    new_orders: &NewOrders,
) -> Result<Vec<(DistrictId, Apart)>, AllocError>
    requires districts { AreSettledDistricts districts.now }
    requires new_orders { AreSettledNewOrders new_orders.now }
    ensures { (of_districts : List DistrictFact) (of_new_orders : List NewOrderFact)
        → KeepsDistricts of_districts districts.now
        → KeepsNewOrders of_new_orders new_orders.now
        → IfOk result (λ found. AreAll district_cmp same_district
        (condition_2_of_new_orders of_districts of_new_orders) found.items) }
{
    let sums = &new_orders.by_district;
    findings(alloc, &Condition2OfNewOrders, &districts.by_district, sums)
}

struct Condition3;

impl Check<NewOrderSums, Count> for Condition3 {
    ghost use Rattle.std.specs.Prelude.{refl};

    type Wrong = Apart;

    ghost judged = { λ _ row sum. span (option_map (λ s. pos s.greatest) row)
        (option_map (λ s. pos s.least) row)
        (option_map (λ s. pos s.rows) row) };

    ghost nothing = { λ _. refl };

    fn judge(&self, row: Option<NewOrderSums>, _sum: Option<Count>) -> Option<Apart>
        ensures { result ≡ span (option_map (λ s. pos s.greatest) row)
            (option_map (λ s. pos s.least) row)
            (option_map (λ s. pos s.rows) row) }
    {
        let Some(row) = row else {
            return None;
        };
        let span = (row.greatest as i128) - (row.least as i128) + 1;
        differing(span, row.rows as i128)
    }
}

/// Gives each district whose greatest NO_O_ID less the least, and 1, is not the number of its NEW-
/// ORDER rows, with both (clause 3.3.2.3).
pub fn condition_3(
    alloc: Global,
    new_orders: &NewOrders,
) -> Result<Vec<(DistrictId, Apart)>, AllocError>
    requires { AreSettledNewOrders new_orders.now }
    ensures { (of_new_orders : List NewOrderFact)
        → KeepsNewOrders of_new_orders new_orders.now
        → AreFew of_new_orders
        → IfOk result (λ found. AreAll district_cmp same_district
        (condition_3 of_new_orders) found.items) }
{
    let nothing: Tally<DistrictId, Count> = Tally::new(alloc);
    findings(alloc, &Condition3, &new_orders.by_district, &nothing)
}

struct Condition4;

impl Check<DistrictOrders, Count> for Condition4 {
    ghost use Rattle.std.specs.Prelude.{refl};

    type Wrong = Apart;

    ghost judged = { λ _ row sum. even (option_map (λ s. pos s.lines) row)
        (option_map (λ s. pos s.rows) sum) };

    ghost nothing = { λ _. refl };

    fn judge(&self, row: Option<DistrictOrders>, sum: Option<Count>) -> Option<Apart>
        ensures { result ≡ even (option_map (λ s. pos s.lines) row)
            (option_map (λ s. pos s.rows) sum) }
    {
        let first = match row {
            Some(row) => row.lines as i128,
            None => 0,
        };
        let second = match sum {
            Some(sum) => sum.rows as i128,
            None => 0,
        };
        differing(first, second)
    }
}

/// Gives each district whose sum of O_OL_CNT is not the number of its ORDER-LINE rows, with both
/// (clause 3.3.2.4).
pub fn condition_4(
    alloc: Global,
    orders: &Orders,
    lines: &OrderLines,
) -> Result<Vec<(DistrictId, Apart)>, AllocError>
    requires orders { AreSettledOrders orders.now }
    requires lines { AreSettledOrderLines lines.now }
    ensures { (of_orders : List OrderFact) (of_lines : List OrderLineFact)
        → KeepsOrders of_orders orders.now
        → AreFew of_orders
        → AreNumbers (λ (f : OrderFact). f.line_count) of_orders
        → KeepsOrderLines of_lines lines.now
        → AreFew of_lines
        → IfOk result (λ found. AreAll district_cmp same_district
        (condition_4 of_orders of_lines) found.items) }
{
    findings(alloc, &Condition4, &orders.by_district, &lines.by_district)
}

struct Condition5;

impl Check<OrderSums, Count> for Condition5 {
    ghost use Rattle.std.specs.Prelude.{refl};

    type Wrong = Apart;

    ghost judged = { λ _ row sum. against (option_map (λ s. pos (cond s.is_delivered 0 1)) row)
        (option_map (λ s. pos 1) sum) };

    ghost nothing = { λ _. refl };

    fn judge(&self, row: Option<OrderSums>, sum: Option<Count>) -> Option<Apart>
        ensures { result ≡ against (option_map (λ s. pos (cond s.is_delivered 0 1)) row)
            (option_map (λ s. pos 1) sum) }
    {
        let Some(row) = row else {
            return None;
        };
        let second = match sum {
            Some(sum) => 1,
            None => 0,
        };
        let first = if row.is_delivered { 0 } else { 1 };
        differing(first, second)
    }
}

/// Gives each order that has no O_CARRIER_ID and no NEW-ORDER row, or both: 1 where it has no
/// O_CARRIER_ID, and 1 where it has a NEW-ORDER row, else 0 (clause 3.3.2.5).
pub fn condition_5(
    alloc: Global,
    orders: &Orders,
    new_orders: &NewOrders,
) -> Result<Vec<(OrderId, Apart)>, AllocError>
    requires orders { AreSettledOrders orders.now }
    requires new_orders { AreSettledNewOrders new_orders.now }
    ensures { (of_orders : List OrderFact) (of_new_orders : List NewOrderFact)
        → KeepsOrders of_orders orders.now
        → KeepsNewOrders of_new_orders new_orders.now
        → IfOk result (λ found. AreAll order_cmp same_order
        (condition_5 of_orders of_new_orders) found.items) }
{
    findings(alloc, &Condition5, &orders.by_order, &new_orders.by_order)
}

struct Condition6;

impl Check<OrderSums, LineSums> for Condition6 {
    ghost use Rattle.std.specs.Prelude.{refl};

    type Wrong = Apart;

    ghost judged = { λ _ row sum. against (option_map (λ s. pos s.line_count) row)
        (option_map (λ s. pos s.rows) sum) };

    ghost nothing = { λ _. refl };

    fn judge(&self, row: Option<OrderSums>, sum: Option<LineSums>) -> Option<Apart>
        ensures { result ≡ against (option_map (λ s. pos s.line_count) row)
            (option_map (λ s. pos s.rows) sum) }
    {
        let Some(row) = row else {
            return None;
        };
        let second = match sum {
            Some(sum) => sum.rows as i128,
            None => 0,
        };
        let first = row.line_count as i128;
        differing(first, second)
    }
}

/// Gives each order whose O_OL_CNT is not the number of its ORDER-LINE rows, with both (clause
/// 3.3.2.6).
pub fn condition_6(
    alloc: Global,
    orders: &Orders,
    lines: &OrderLines,
) -> Result<Vec<(OrderId, Apart)>, AllocError>
    requires orders { AreSettledOrders orders.now }
    requires lines { AreSettledOrderLines lines.now }
    ensures { (of_orders : List OrderFact) (of_lines : List OrderLineFact)
        → KeepsOrders of_orders orders.now
        → KeepsOrderLines of_lines lines.now
        → AreFew of_lines
        → IfOk result (λ found. AreAll order_cmp same_order
        (condition_6 of_orders of_lines) found.items) }
{
    findings(alloc, &Condition6, &orders.by_order, &lines.by_order)
}

struct Condition7;

impl Check<OrderSums, LineSums> for Condition7 {
    ghost use Rattle.std.specs.Prelude.{refl};

    type Wrong = Apart;

    ghost judged = { λ _ row sum. all_or_none (option_map (λ s. pos (cond s.is_delivered 1 0)) row)
        (option_map (λ s. pos s.rows) sum)
        (option_map (λ s. pos s.delivered) sum) };

    ghost nothing = { λ _. refl };

    fn judge(&self, row: Option<OrderSums>, sum: Option<LineSums>) -> Option<Apart>
        ensures { result ≡ all_or_none (option_map (λ s. pos (cond s.is_delivered 1 0)) row)
            (option_map (λ s. pos s.rows) sum)
            (option_map (λ s. pos s.delivered) sum) }
    {
        let Some(row) = row else {
            return None;
        };
        let Some(sum) = sum else {
            return None;
        };
        let wanted = if row.is_delivered {
            sum.rows as i128
        } else {
            0
        };
        differing(wanted, sum.delivered as i128)
    }
}

/// Gives each order of which lines have an OL_DELIVERY_D though it has no O_CARRIER_ID, or lack it
/// though it has one: how many should have it, and how many have it (clause 3.3.2.7).
pub fn condition_7(
    alloc: Global,
    orders: &Orders,
    lines: &OrderLines,
) -> Result<Vec<(OrderId, Apart)>, AllocError>
    requires orders { AreSettledOrders orders.now }
    requires lines { AreSettledOrderLines lines.now }
    ensures { (of_orders : List OrderFact) (of_lines : List OrderLineFact)
        → KeepsOrders of_orders orders.now
        → KeepsOrderLines of_lines lines.now
        → AreFew of_lines
        → IfOk result (λ found. AreAll order_cmp same_order
        (condition_7 of_orders of_lines) found.items) }
{
    findings(alloc, &Condition7, &orders.by_order, &lines.by_order)
}

struct Condition8;

impl Check<WarehouseSums, Takings> for Condition8 {
    ghost use Rattle.std.specs.Prelude.{refl};

    type Wrong = Apart;

    ghost judged = { λ _ row sum. against (option_map (λ s. s.ytd) row)
        (option_map (λ s. s.amount) sum) };

    ghost nothing = { λ _. refl };

    fn judge(&self, row: Option<WarehouseSums>, sum: Option<Takings>) -> Option<Apart>
        ensures { result ≡ against (option_map (λ s. s.ytd) row)
            (option_map (λ s. s.amount) sum) }
    {
        let Some(row) = row else {
            return None;
        };
        let second = match sum {
            Some(sum) => sum.amount,
            None => 0,
        };
        let first = row.ytd as i128;
        differing(first, second)
    }
}

/// Gives each W_ID whose W_YTD is not the sum of H_AMOUNT, with both (clause 3.3.2.8).
pub fn condition_8(
    alloc: Global,
    warehouses: &Warehouses,
    histories: &Histories,
) -> Result<Vec<(u32, Apart)>, AllocError>
    requires warehouses { AreSettledWarehouses warehouses.now }
    requires histories { AreSettledHistories histories.now }
    ensures { (of_warehouses : List WarehouseFact) (of_histories : List HistoryFact)
        → KeepsWarehouses of_warehouses warehouses.now
        → KeepsHistories of_histories histories.now
        → AreFew of_histories
        → AreAmounts (λ (f : HistoryFact). f.amount) of_histories
        → IfOk result (λ found. AreAll nat_cmp nat_eq
        (condition_8 of_warehouses of_histories) found.items) }
{
    let sums = &histories.by_warehouse;
    findings(alloc, &Condition8, &warehouses.by_warehouse, sums)
}

struct Condition9;

impl Check<DistrictSums, Takings> for Condition9 {
    ghost use Rattle.std.specs.Prelude.{refl};

    type Wrong = Apart;

    ghost judged = { λ _ row sum. against (option_map (λ s. s.ytd) row)
        (option_map (λ s. s.amount) sum) };

    ghost nothing = { λ _. refl };

    fn judge(&self, row: Option<DistrictSums>, sum: Option<Takings>) -> Option<Apart>
        ensures { result ≡ against (option_map (λ s. s.ytd) row)
            (option_map (λ s. s.amount) sum) }
    {
        let Some(row) = row else {
            return None;
        };
        let second = match sum {
            Some(sum) => sum.amount,
            None => 0,
        };
        let first = row.ytd as i128;
        differing(first, second)
    }
}

/// Gives each district whose D_YTD is not the sum of H_AMOUNT, with both (clause 3.3.2.9).
pub fn condition_9(
    alloc: Global,
    districts: &Districts,
    histories: &Histories,
) -> Result<Vec<(DistrictId, Apart)>, AllocError>
    requires districts { AreSettledDistricts districts.now }
    requires histories { AreSettledHistories histories.now }
    ensures { (of_districts : List DistrictFact) (of_histories : List HistoryFact)
        → KeepsDistricts of_districts districts.now
        → KeepsHistories of_histories histories.now
        → AreFew of_histories
        → AreAmounts (λ (f : HistoryFact). f.amount) of_histories
        → IfOk result (λ found. AreAll district_cmp same_district
        (condition_9 of_districts of_histories) found.items) }
{
    let sums = &histories.by_district;
    findings(alloc, &Condition9, &districts.by_district, sums)
}
