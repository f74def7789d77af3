//! Keys that stand more than once (clause 1.3.1).
ghost use Rattle.std.specs.Prelude.{◌≡◌, IfOk, List, pos, cond, nat_eq};
ghost use Rattle.std.specs.Option.{option_map};
ghost use Rattle.oe_tally.specs.Walks.{AreAll};
ghost use Rattle.std.specs.Ordering.{nat_cmp};
ghost use Rattle.oe_facts.specs.declared.facts.WarehouseFact.{WarehouseFact};
ghost use Rattle.oe_facts.specs.declared.facts.DistrictFact.{DistrictFact};
ghost use Rattle.oe_facts.specs.declared.facts.CustomerFact.{CustomerFact};
ghost use Rattle.oe_facts.specs.declared.facts.NewOrderFact.{NewOrderFact};
ghost use Rattle.oe_facts.specs.declared.facts.OrderFact.{OrderFact};
ghost use Rattle.oe_facts.specs.declared.facts.ItemFact.{ItemFact};
ghost use Rattle.oe_facts.specs.declared.facts.StockFact.{StockFact};
ghost use Rattle.oe_ledgers.specs.Keys.{customer_cmp, district_cmp, order_cmp, same_customer, same_district, same_order, same_stock, stock_cmp};
ghost use Rattle.oe_ledgers.specs.Keeping.{KeepsWarehouses};
ghost use Rattle.oe_ledgers.specs.Settling.{AreSettledWarehouses};
ghost use Rattle.oe_ledgers.specs.Keeping.{KeepsDistricts};
ghost use Rattle.oe_ledgers.specs.Settling.{AreSettledDistricts};
ghost use Rattle.oe_ledgers.specs.Keeping.{KeepsCustomers};
ghost use Rattle.oe_ledgers.specs.Settling.{AreSettledCustomers};
ghost use Rattle.oe_ledgers.specs.Keeping.{KeepsNewOrders};
ghost use Rattle.oe_ledgers.specs.Settling.{AreSettledNewOrders};
ghost use Rattle.oe_ledgers.specs.Keeping.{KeepsOrders};
ghost use Rattle.oe_ledgers.specs.Settling.{AreSettledOrders};
ghost use Rattle.oe_ledgers.specs.Keeping.{KeepsItems};
ghost use Rattle.oe_ledgers.specs.Settling.{AreSettledItems};
ghost use Rattle.oe_ledgers.specs.Keeping.{KeepsStocks};
ghost use Rattle.oe_ledgers.specs.Settling.{AreSettledStocks};
ghost use Rattle.oe_ledgers.specs.Figures.{AreFew, AreAmounts, AreNumbers};
ghost use Rattle.oe_checks.specs.Comparing.{repeats_apart};
ghost use Rattle.oe_checks.specs.Keys.{warehouses_once};
ghost use Rattle.oe_checks.specs.Keys.{districts_once};
ghost use Rattle.oe_checks.specs.Keys.{customers_once};
ghost use Rattle.oe_checks.specs.Keys.{new_orders_once};
ghost use Rattle.oe_checks.specs.Keys.{orders_once};
ghost use Rattle.oe_checks.specs.Keys.{items_once};
ghost use Rattle.oe_checks.specs.Keys.{stocks_once};

use crate::figures::Apart;
use oe_facts::keys::{CustomerId, DistrictId, OrderId, StockId};
use oe_ledgers::customers::{CustomerSums, Customers};
use oe_ledgers::districts::{DistrictSums, Districts};
use oe_ledgers::items::Items;
use oe_ledgers::new_orders::NewOrders;
use oe_ledgers::orders::{OrderSums, Orders};
use oe_ledgers::stocks::{StockSums, Stocks};
use oe_ledgers::warehouses::{WarehouseSums, Warehouses};
use oe_tally::checks::{Check, findings};
use oe_tally::count::Count;
use oe_tally::tally::Tally;
use std::alloc::{AllocError, Global};

struct WarehousesOnce;

impl Check<WarehouseSums, Count> for WarehousesOnce {
    ghost use Rattle.std.specs.Prelude.{refl};

    type Wrong = Apart;

    ghost judged = { λ _ row sum. repeats_apart (option_map (λ s. pos s.rows) row) };

    ghost nothing = { λ _. refl };

    fn judge(&self, row: Option<WarehouseSums>, _sum: Option<Count>) -> Option<Apart>
        ensures { result ≡ repeats_apart (option_map (λ s. pos s.rows) row) }
    {
        let Some(row) = row else {
            return None;
        };
        if row.rows <= 1 {
            return None;
        }
        Some(Apart {
            first: row.rows as i128,
            second: 1,
        })
    }
}

/// Gives each W_ID of more than one WAREHOUSE row, with their number and 1 (clause 1.3.1).
pub fn warehouses_once(
    alloc: Global,
    warehouses: &Warehouses,
) -> Result<Vec<(u32, Apart)>, AllocError>
    requires { AreSettledWarehouses warehouses.now }
    ensures { (of_warehouses : List WarehouseFact)
        → KeepsWarehouses of_warehouses warehouses.now
        → AreFew of_warehouses
        → IfOk result (λ found. AreAll nat_cmp nat_eq
        (warehouses_once of_warehouses) found.items) }
{
    let nothing: Tally<u32, Count> = Tally::new(alloc);
    findings(alloc, &WarehousesOnce, &warehouses.by_warehouse, &nothing)
}

struct DistrictsOnce;

impl Check<DistrictSums, Count> for DistrictsOnce {
    ghost use Rattle.std.specs.Prelude.{refl};

    type Wrong = Apart;

    ghost judged = { λ _ row sum. repeats_apart (option_map (λ s. pos s.rows) row) };

    ghost nothing = { λ _. refl };

    fn judge(&self, row: Option<DistrictSums>, _sum: Option<Count>) -> Option<Apart>
        ensures { result ≡ repeats_apart (option_map (λ s. pos s.rows) row) }
    {
        let Some(row) = row else {
            return None;
        };
        if row.rows <= 1 {
            return None;
        }
        Some(Apart {
            first: row.rows as i128,
            second: 1,
        })
    }
}

/// Gives each key of more than one DISTRICT row, with their number and 1 (clause 1.3.1).
pub fn districts_once(
    alloc: Global,
    districts: &Districts,
) -> Result<Vec<(DistrictId, Apart)>, AllocError>
    requires { AreSettledDistricts districts.now }
    ensures { (of_districts : List DistrictFact)
        → KeepsDistricts of_districts districts.now
        → AreFew of_districts
        → IfOk result (λ found. AreAll district_cmp same_district
        (districts_once of_districts) found.items) }
{
    let nothing: Tally<DistrictId, Count> = Tally::new(alloc);
    findings(alloc, &DistrictsOnce, &districts.by_district, &nothing)
}

struct CustomersOnce;

impl Check<CustomerSums, Count> for CustomersOnce {
    ghost use Rattle.std.specs.Prelude.{refl};

    type Wrong = Apart;

    ghost judged = { λ _ row sum. repeats_apart (option_map (λ s. pos s.rows) row) };

    ghost nothing = { λ _. refl };

    fn judge(&self, row: Option<CustomerSums>, _sum: Option<Count>) -> Option<Apart>
        ensures { result ≡ repeats_apart (option_map (λ s. pos s.rows) row) }
    {
        let Some(row) = row else {
            return None;
        };
        if row.rows <= 1 {
            return None;
        }
        Some(Apart {
            first: row.rows as i128,
            second: 1,
        })
    }
}

/// Gives each key of more than one CUSTOMER row, with their number and 1 (clause 1.3.1).
pub fn customers_once(
    alloc: Global,
    customers: &Customers,
) -> Result<Vec<(CustomerId, Apart)>, AllocError>
    requires { AreSettledCustomers customers.now }
    ensures { (of_customers : List CustomerFact)
        → KeepsCustomers of_customers customers.now
        → AreFew of_customers
        → IfOk result (λ found. AreAll customer_cmp same_customer
        (customers_once of_customers) found.items) }
{
    let nothing: Tally<CustomerId, Count> = Tally::new(alloc);
    findings(alloc, &CustomersOnce, &customers.by_customer, &nothing)
}

struct NewOrdersOnce;

impl Check<Count, Count> for NewOrdersOnce {
    ghost use Rattle.std.specs.Prelude.{refl};

    type Wrong = Apart;

    ghost judged = { λ _ row sum. repeats_apart (option_map (λ s. pos s.rows) row) };

    ghost nothing = { λ _. refl };

    fn judge(&self, row: Option<Count>, _sum: Option<Count>) -> Option<Apart>
        ensures { result ≡ repeats_apart (option_map (λ s. pos s.rows) row) }
    {
        let Some(row) = row else {
            return None;
        };
        if row.rows <= 1 {
            return None;
        }
        Some(Apart {
            first: row.rows as i128,
            second: 1,
        })
    }
}

/// Gives each key of more than one NEW-ORDER row, with their number and 1 (clause 1.3.1).
pub fn new_orders_once(
    alloc: Global,
    new_orders: &NewOrders,
) -> Result<Vec<(OrderId, Apart)>, AllocError>
    requires { AreSettledNewOrders new_orders.now }
    ensures { (of_new_orders : List NewOrderFact)
        → KeepsNewOrders of_new_orders new_orders.now
        → AreFew of_new_orders
        → IfOk result (λ found. AreAll order_cmp same_order
        (new_orders_once of_new_orders) found.items) }
{
    let nothing: Tally<OrderId, Count> = Tally::new(alloc);
    findings(alloc, &NewOrdersOnce, &new_orders.by_order, &nothing)
}

struct OrdersOnce;

impl Check<OrderSums, Count> for OrdersOnce {
    ghost use Rattle.std.specs.Prelude.{refl};

    type Wrong = Apart;

    ghost judged = { λ _ row sum. repeats_apart (option_map (λ s. pos s.rows) row) };

    ghost nothing = { λ _. refl };

    fn judge(&self, row: Option<OrderSums>, _sum: Option<Count>) -> Option<Apart>
        ensures { result ≡ repeats_apart (option_map (λ s. pos s.rows) row) }
    {
        let Some(row) = row else {
            return None;
        };
        if row.rows <= 1 {
            return None;
        }
        Some(Apart {
            first: row.rows as i128,
            second: 1,
        })
    }
}

/// Gives each key of more than one ORDER row, with their number and 1 (clause 1.3.1).
pub fn orders_once(alloc: Global, orders: &Orders) -> Result<Vec<(OrderId, Apart)>, AllocError>
    requires { AreSettledOrders orders.now }
    ensures { (of_orders : List OrderFact)
        → KeepsOrders of_orders orders.now
        → AreFew of_orders
        → IfOk result (λ found. AreAll order_cmp same_order (orders_once of_orders) found.items) }
{
    let nothing: Tally<OrderId, Count> = Tally::new(alloc);
    findings(alloc, &OrdersOnce, &orders.by_order, &nothing)
}

struct ItemsOnce;

impl Check<Count, Count> for ItemsOnce {
    ghost use Rattle.std.specs.Prelude.{refl};

    type Wrong = Apart;

    ghost judged = { λ _ row sum. repeats_apart (option_map (λ s. pos s.rows) row) };

    ghost nothing = { λ _. refl };

    fn judge(&self, row: Option<Count>, _sum: Option<Count>) -> Option<Apart>
        ensures { result ≡ repeats_apart (option_map (λ s. pos s.rows) row) }
    {
        let Some(row) = row else {
            return None;
        };
        if row.rows <= 1 {
            return None;
        }
        Some(Apart {
            first: row.rows as i128,
            second: 1,
        })
    }
}

/// Gives each key of more than one ITEM row, with their number and 1 (clause 1.3.1).
pub fn items_once(alloc: Global, items: &Items) -> Result<Vec<(u32, Apart)>, AllocError>
    requires { AreSettledItems items.now }
    ensures { (of_items : List ItemFact)
        → KeepsItems of_items items.now
        → AreFew of_items
        → IfOk result (λ found. AreAll nat_cmp nat_eq (items_once of_items) found.items) }
{
    let nothing: Tally<u32, Count> = Tally::new(alloc);
    findings(alloc, &ItemsOnce, &items.by_item, &nothing)
}

struct StocksOnce;

impl Check<StockSums, Count> for StocksOnce {
    ghost use Rattle.std.specs.Prelude.{refl};

    type Wrong = Apart;

    ghost judged = { λ _ row sum. repeats_apart (option_map (λ s. pos s.rows) row) };

    ghost nothing = { λ _. refl };

    fn judge(&self, row: Option<StockSums>, _sum: Option<Count>) -> Option<Apart>
        ensures { result ≡ repeats_apart (option_map (λ s. pos s.rows) row) }
    {
        let Some(row) = row else {
            return None;
        };
        if row.rows <= 1 {
            return None;
        }
        Some(Apart {
            first: row.rows as i128,
            second: 1,
        })
    }
}

/// Gives each key of more than one STOCK row, with their number and 1 (clause 1.3.1).
pub fn stocks_once(alloc: Global, stocks: &Stocks) -> Result<Vec<(StockId, Apart)>, AllocError>
    requires { AreSettledStocks stocks.now }
    ensures { (of_stocks : List StockFact)
        → KeepsStocks of_stocks stocks.now
        → AreFew of_stocks
        → IfOk result (λ found. AreAll stock_cmp same_stock (stocks_once of_stocks) found.items) }
{
    let nothing: Tally<StockId, Count> = Tally::new(alloc);
    findings(alloc, &StocksOnce, &stocks.by_stock, &nothing)
}
