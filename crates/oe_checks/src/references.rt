//! Rows that refer to no row (clauses 1.3 and 1.4).
ghost use Rattle.std.specs.Prelude.{◌≡◌, IfOk, List, pos, cond, nat_eq};
ghost use Rattle.std.specs.Option.{option_map};
ghost use Rattle.oe_tally.specs.Walks.{AreAll};
ghost use Rattle.std.specs.Ordering.{nat_cmp};
ghost use Rattle.oe_facts.specs.declared.facts.DistrictFact.{DistrictFact};
ghost use Rattle.oe_facts.specs.declared.facts.WarehouseFact.{WarehouseFact};
ghost use Rattle.oe_facts.specs.declared.facts.CustomerFact.{CustomerFact};
ghost use Rattle.oe_facts.specs.declared.facts.HistoryFact.{HistoryFact};
ghost use Rattle.oe_facts.specs.declared.facts.NewOrderFact.{NewOrderFact};
ghost use Rattle.oe_facts.specs.declared.facts.OrderFact.{OrderFact};
ghost use Rattle.oe_facts.specs.declared.facts.OrderLineFact.{OrderLineFact};
ghost use Rattle.oe_facts.specs.declared.facts.StockFact.{StockFact};
ghost use Rattle.oe_facts.specs.declared.facts.ItemFact.{ItemFact};
ghost use Rattle.oe_ledgers.specs.Keys.{customer_cmp, district_cmp, order_cmp, same_customer, same_district, same_order, same_stock, stock_cmp};
ghost use Rattle.oe_ledgers.specs.Keeping.{KeepsDistricts};
ghost use Rattle.oe_ledgers.specs.Settling.{AreSettledDistricts};
ghost use Rattle.oe_ledgers.specs.Keeping.{KeepsWarehouses};
ghost use Rattle.oe_ledgers.specs.Settling.{AreSettledWarehouses};
ghost use Rattle.oe_ledgers.specs.Keeping.{KeepsCustomers};
ghost use Rattle.oe_ledgers.specs.Settling.{AreSettledCustomers};
ghost use Rattle.oe_ledgers.specs.Keeping.{KeepsHistories};
ghost use Rattle.oe_ledgers.specs.Settling.{AreSettledHistories};
ghost use Rattle.oe_ledgers.specs.Keeping.{KeepsNewOrders};
ghost use Rattle.oe_ledgers.specs.Settling.{AreSettledNewOrders};
ghost use Rattle.oe_ledgers.specs.Keeping.{KeepsOrders};
ghost use Rattle.oe_ledgers.specs.Settling.{AreSettledOrders};
ghost use Rattle.oe_ledgers.specs.Keeping.{KeepsOrderLines};
ghost use Rattle.oe_ledgers.specs.Settling.{AreSettledOrderLines};
ghost use Rattle.oe_ledgers.specs.Keeping.{KeepsStocks};
ghost use Rattle.oe_ledgers.specs.Settling.{AreSettledStocks};
ghost use Rattle.oe_ledgers.specs.Keeping.{KeepsItems};
ghost use Rattle.oe_ledgers.specs.Settling.{AreSettledItems};
ghost use Rattle.oe_ledgers.specs.Figures.{AreFew, AreAmounts, AreNumbers};
ghost use Rattle.oe_checks.specs.Comparing.{orphans_apart};
ghost use Rattle.oe_checks.specs.References.{districts_refer};
ghost use Rattle.oe_checks.specs.References.{customers_refer};
ghost use Rattle.oe_checks.specs.References.{histories_refer_to_customers};
ghost use Rattle.oe_checks.specs.References.{histories_refer_to_districts};
ghost use Rattle.oe_checks.specs.References.{new_orders_refer};
ghost use Rattle.oe_checks.specs.References.{orders_refer};
ghost use Rattle.oe_checks.specs.References.{lines_refer_to_orders};
ghost use Rattle.oe_checks.specs.References.{lines_refer_to_stocks};
ghost use Rattle.oe_checks.specs.References.{stocks_refer_to_warehouses};
ghost use Rattle.oe_checks.specs.References.{stocks_refer_to_items};

use crate::figures::Apart;
use oe_facts::keys::{CustomerId, DistrictId, OrderId, StockId};
use oe_ledgers::customers::{CustomerSums, Customers};
use oe_ledgers::districts::{DistrictSums, Districts};
use oe_ledgers::histories::Histories;
use oe_ledgers::items::Items;
use oe_ledgers::new_orders::NewOrders;
use oe_ledgers::order_lines::{LineSums, OrderLines, SupplySums};
use oe_ledgers::orders::{CustomerOrders, OrderSums, Orders};
use oe_ledgers::stocks::{StockSums, Stocks};
use oe_ledgers::takings::Takings;
use oe_ledgers::warehouses::{WarehouseSums, Warehouses};
use oe_tally::checks::{Check, findings};
use oe_tally::count::Count;
use std::alloc::{AllocError, Global};

struct DistrictsRefer;

impl Check<Takings, WarehouseSums> for DistrictsRefer {
    ghost use Rattle.std.specs.Prelude.{refl};

    type Wrong = Apart;

    ghost judged = { λ _ row sum. orphans_apart (option_map (λ s. pos s.rows) row)
        (option_map (λ s. pos s.rows) sum) };

    ghost nothing = { λ _. refl };

    fn judge(&self, row: Option<Takings>, sum: Option<WarehouseSums>) -> Option<Apart>
        ensures { result ≡ orphans_apart (option_map (λ s. pos s.rows) row)
            (option_map (λ s. pos s.rows) sum) }
    {
        let Some(row) = row else {
            return None;
        };
        if sum.is_some() {
            return None;
        }
        Some(Apart {
            first: row.rows as i128,
            second: 0,
        })
    }
}

/// Gives each D_W_ID that is no W_ID, with the number of its DISTRICT rows and 0 (clause 1.4).
pub fn districts_refer(
    alloc: Global,
    districts: &Districts,
    warehouses: &Warehouses,
) -> Result<Vec<(u32, Apart)>, AllocError>
    requires districts { AreSettledDistricts districts.now }
    requires warehouses { AreSettledWarehouses warehouses.now }
    ensures { (of_districts : List DistrictFact) (of_warehouses : List WarehouseFact)
        → KeepsDistricts of_districts districts.now
        → AreFew of_districts
        → KeepsWarehouses of_warehouses warehouses.now
        → AreFew of_warehouses
        → IfOk result (λ found. AreAll nat_cmp nat_eq
        (districts_refer of_districts of_warehouses) found.items) }
{
    let sums = &warehouses.by_warehouse;
    findings(alloc, &DistrictsRefer, &districts.by_warehouse, sums)
}

struct CustomersRefer;

impl Check<Count, DistrictSums> for CustomersRefer {
    ghost use Rattle.std.specs.Prelude.{refl};

    type Wrong = Apart;

    ghost judged = { λ _ row sum. orphans_apart (option_map (λ s. pos s.rows) row)
        (option_map (λ s. pos s.rows) sum) };

    ghost nothing = { λ _. refl };

    fn judge(&self, row: Option<Count>, sum: Option<DistrictSums>) -> Option<Apart>
        ensures { result ≡ orphans_apart (option_map (λ s. pos s.rows) row)
            (option_map (λ s. pos s.rows) sum) }
    {
        let Some(row) = row else {
            return None;
        };
        if sum.is_some() {
            return None;
        }
        Some(Apart {
            first: row.rows as i128,
            second: 0,
        })
    }
}

/// Gives each (C_W_ID, C_D_ID) that is no district, with the number of its CUSTOMER rows and 0.
pub fn customers_refer(
    alloc: Global,
    customers: &Customers,
    districts: &Districts,
) -> Result<Vec<(DistrictId, Apart)>, AllocError>
    requires customers { AreSettledCustomers customers.now }
    requires districts { AreSettledDistricts districts.now }
    ensures { (of_customers : List CustomerFact) (of_districts : List DistrictFact)
        → KeepsCustomers of_customers customers.now
        → AreFew of_customers
        → KeepsDistricts of_districts districts.now
        → AreFew of_districts
        → IfOk result (λ found. AreAll district_cmp same_district
        (customers_refer of_customers of_districts) found.items) }
{
    let sums = &districts.by_district;
    findings(alloc, &CustomersRefer, &customers.by_district, sums)
}

struct HistoriesReferToCustomers;

impl Check<Takings, CustomerSums> for HistoriesReferToCustomers {
    ghost use Rattle.std.specs.Prelude.{refl};

    type Wrong = Apart;

    ghost judged = { λ _ row sum. orphans_apart (option_map (λ s. pos s.rows) row)
        (option_map (λ s. pos s.rows) sum) };

    ghost nothing = { λ _. refl };

    fn judge(&self, row: Option<Takings>, sum: Option<CustomerSums>) -> Option<Apart>
        ensures { result ≡ orphans_apart (option_map (λ s. pos s.rows) row)
            (option_map (λ s. pos s.rows) sum) }
    {
        let Some(row) = row else {
            return None;
        };
        if sum.is_some() {
            return None;
        }
        Some(Apart {
            first: row.rows as i128,
            second: 0,
        })
    }
}

/// Gives each (H_C_W_ID, H_C_D_ID, H_C_ID) that is no customer, with the number of its HISTORY rows
/// and 0.
pub fn histories_refer_to_customers(
    alloc: Global,
    histories: &Histories,
    customers: &Customers,
) -> Result<Vec<(CustomerId, Apart)>, AllocError>
    requires histories { AreSettledHistories histories.now }
    requires customers { AreSettledCustomers customers.now }
    ensures { (of_histories : List HistoryFact) (of_customers : List CustomerFact)
        → KeepsHistories of_histories histories.now
        → AreFew of_histories
        → KeepsCustomers of_customers customers.now
        → AreFew of_customers
        → IfOk result (λ found. AreAll customer_cmp same_customer
        (histories_refer_to_customers of_histories of_customers) found.items) }
{
    let sums = &customers.by_customer;
    let rows = &histories.by_customer;
    findings(alloc, &HistoriesReferToCustomers, rows, sums)
}

struct HistoriesReferToDistricts;

impl Check<Takings, DistrictSums> for HistoriesReferToDistricts {
    ghost use Rattle.std.specs.Prelude.{refl};

    type Wrong = Apart;

    ghost judged = { λ _ row sum. orphans_apart (option_map (λ s. pos s.rows) row)
        (option_map (λ s. pos s.rows) sum) };

    ghost nothing = { λ _. refl };

    fn judge(&self, row: Option<Takings>, sum: Option<DistrictSums>) -> Option<Apart>
        ensures { result ≡ orphans_apart (option_map (λ s. pos s.rows) row)
            (option_map (λ s. pos s.rows) sum) }
    {
        let Some(row) = row else {
            return None;
        };
        if sum.is_some() {
            return None;
        }
        Some(Apart {
            first: row.rows as i128,
            second: 0,
        })
    }
}

/// Gives each (H_W_ID, H_D_ID) that is no district, with the number of its HISTORY rows and 0.
pub fn histories_refer_to_districts(
    alloc: Global,
    histories: &Histories,
    districts: &Districts,
) -> Result<Vec<(DistrictId, Apart)>, AllocError>
    requires histories { AreSettledHistories histories.now }
    requires districts { AreSettledDistricts districts.now }
    ensures { (of_histories : List HistoryFact) (of_districts : List DistrictFact)
        → KeepsHistories of_histories histories.now
        → AreFew of_histories
        → KeepsDistricts of_districts districts.now
        → AreFew of_districts
        → IfOk result (λ found. AreAll district_cmp same_district
        (histories_refer_to_districts of_histories of_districts) found.items) }
{
    let sums = &districts.by_district;
    let rows = &histories.by_district;
    findings(alloc, &HistoriesReferToDistricts, rows, sums)
}

struct NewOrdersRefer;

impl Check<Count, OrderSums> for NewOrdersRefer {
    ghost use Rattle.std.specs.Prelude.{refl};

    type Wrong = Apart;

    ghost judged = { λ _ row sum. orphans_apart (option_map (λ s. pos s.rows) row)
        (option_map (λ s. pos s.rows) sum) };

    ghost nothing = { λ _. refl };

    fn judge(&self, row: Option<Count>, sum: Option<OrderSums>) -> Option<Apart>
        ensures { result ≡ orphans_apart (option_map (λ s. pos s.rows) row)
            (option_map (λ s. pos s.rows) sum) }
    {
        let Some(row) = row else {
            return None;
        };
        if sum.is_some() {
            return None;
        }
        Some(Apart {
            first: row.rows as i128,
            second: 0,
        })
    }
}

/// Gives each NEW-ORDER key that is no order, with the number of its rows and 0.
pub fn new_orders_refer(
    alloc: Global,
    new_orders: &NewOrders,
    orders: &Orders,
) -> Result<Vec<(OrderId, Apart)>, AllocError>
    requires new_orders { AreSettledNewOrders new_orders.now }
    requires orders { AreSettledOrders orders.now }
    ensures { (of_new_orders : List NewOrderFact) (of_orders : List OrderFact)
        → KeepsNewOrders of_new_orders new_orders.now
        → AreFew of_new_orders
        → KeepsOrders of_orders orders.now
        → AreFew of_orders
        → IfOk result (λ found. AreAll order_cmp same_order
        (new_orders_refer of_new_orders of_orders) found.items) }
{
    let sums = &orders.by_order;
    findings(alloc, &NewOrdersRefer, &new_orders.by_order, sums)
}

struct OrdersRefer;

impl Check<CustomerOrders, CustomerSums> for OrdersRefer {
    ghost use Rattle.std.specs.Prelude.{refl};

    type Wrong = Apart;

    ghost judged = { λ _ row sum. orphans_apart (option_map (λ s. pos s.rows) row)
        (option_map (λ s. pos s.rows) sum) };

    ghost nothing = { λ _. refl };

    fn judge(&self, row: Option<CustomerOrders>, sum: Option<CustomerSums>) -> Option<Apart>
        ensures { result ≡ orphans_apart (option_map (λ s. pos s.rows) row)
            (option_map (λ s. pos s.rows) sum) }
    {
        let Some(row) = row else {
            return None;
        };
        if sum.is_some() {
            return None;
        }
        Some(Apart {
            first: row.rows as i128,
            second: 0,
        })
    }
}

/// Gives each (O_W_ID, O_D_ID, O_C_ID) that is no customer, with the number of its ORDER rows and
/// 0.
pub fn orders_refer(
    alloc: Global,
    orders: &Orders,
    customers: &Customers,
) -> Result<Vec<(CustomerId, Apart)>, AllocError>
    requires orders { AreSettledOrders orders.now }
    requires customers { AreSettledCustomers customers.now }
    ensures { (of_orders : List OrderFact) (of_customers : List CustomerFact)
        → KeepsOrders of_orders orders.now
        → AreFew of_orders
        → KeepsCustomers of_customers customers.now
        → AreFew of_customers
        → IfOk result (λ found. AreAll customer_cmp same_customer
        (orders_refer of_orders of_customers) found.items) }
{
    let sums = &customers.by_customer;
    findings(alloc, &OrdersRefer, &orders.by_customer, sums)
}

struct LinesReferToOrders;

impl Check<LineSums, OrderSums> for LinesReferToOrders {
    ghost use Rattle.std.specs.Prelude.{refl};

    type Wrong = Apart;

    ghost judged = { λ _ row sum. orphans_apart (option_map (λ s. pos s.rows) row)
        (option_map (λ s. pos s.rows) sum) };

    ghost nothing = { λ _. refl };

    fn judge(&self, row: Option<LineSums>, sum: Option<OrderSums>) -> Option<Apart>
        ensures { result ≡ orphans_apart (option_map (λ s. pos s.rows) row)
            (option_map (λ s. pos s.rows) sum) }
    {
        let Some(row) = row else {
            return None;
        };
        if sum.is_some() {
            return None;
        }
        Some(Apart {
            first: row.rows as i128,
            second: 0,
        })
    }
}

/// Gives each (OL_W_ID, OL_D_ID, OL_O_ID) that is no order, with the number of its ORDER-LINE rows
/// and 0.
pub fn lines_refer_to_orders(
    alloc: Global,
    lines: &OrderLines,
    orders: &Orders,
) -> Result<Vec<(OrderId, Apart)>, AllocError>
    requires lines { AreSettledOrderLines lines.now }
    requires orders { AreSettledOrders orders.now }
    ensures { (of_lines : List OrderLineFact) (of_orders : List OrderFact)
        → KeepsOrderLines of_lines lines.now
        → AreFew of_lines
        → KeepsOrders of_orders orders.now
        → AreFew of_orders
        → IfOk result (λ found. AreAll order_cmp same_order
        (lines_refer_to_orders of_lines of_orders) found.items) }
{
    let sums = &orders.by_order;
    findings(alloc, &LinesReferToOrders, &lines.by_order, sums)
}

struct LinesReferToStocks;

impl Check<SupplySums, StockSums> for LinesReferToStocks {
    ghost use Rattle.std.specs.Prelude.{refl};

    type Wrong = Apart;

    ghost judged = { λ _ row sum. orphans_apart (option_map (λ s. pos s.rows) row)
        (option_map (λ s. pos s.rows) sum) };

    ghost nothing = { λ _. refl };

    fn judge(&self, row: Option<SupplySums>, sum: Option<StockSums>) -> Option<Apart>
        ensures { result ≡ orphans_apart (option_map (λ s. pos s.rows) row)
            (option_map (λ s. pos s.rows) sum) }
    {
        let Some(row) = row else {
            return None;
        };
        if sum.is_some() {
            return None;
        }
        Some(Apart {
            first: row.rows as i128,
            second: 0,
        })
    }
}

/// Gives each (OL_SUPPLY_W_ID, OL_I_ID) that is no STOCK row, with the number of its ORDER-LINE
/// rows and 0.
pub fn lines_refer_to_stocks(
    alloc: Global,
    lines: &OrderLines,
    stocks: &Stocks,
) -> Result<Vec<(StockId, Apart)>, AllocError>
    requires lines { AreSettledOrderLines lines.now }
    requires stocks { AreSettledStocks stocks.now }
    ensures { (of_lines : List OrderLineFact) (of_stocks : List StockFact)
        → KeepsOrderLines of_lines lines.now
        → AreFew of_lines
        → KeepsStocks of_stocks stocks.now
        → AreFew of_stocks
        → IfOk result (λ found. AreAll stock_cmp same_stock
        (lines_refer_to_stocks of_lines of_stocks) found.items) }
{
    let sums = &stocks.by_stock;
    findings(alloc, &LinesReferToStocks, &lines.by_stock, sums)
}

struct StocksReferToWarehouses;

impl Check<Count, WarehouseSums> for StocksReferToWarehouses {
    ghost use Rattle.std.specs.Prelude.{refl};

    type Wrong = Apart;

    ghost judged = { λ _ row sum. orphans_apart (option_map (λ s. pos s.rows) row)
        (option_map (λ s. pos s.rows) sum) };

    ghost nothing = { λ _. refl };

    fn judge(&self, row: Option<Count>, sum: Option<WarehouseSums>) -> Option<Apart>
        ensures { result ≡ orphans_apart (option_map (λ s. pos s.rows) row)
            (option_map (λ s. pos s.rows) sum) }
    {
        let Some(row) = row else {
            return None;
        };
        if sum.is_some() {
            return None;
        }
        Some(Apart {
            first: row.rows as i128,
            second: 0,
        })
    }
}

/// Gives each S_W_ID that is no W_ID, with the number of its STOCK rows and 0.
pub fn stocks_refer_to_warehouses(
    alloc: Global,
    stocks: &Stocks,
    warehouses: &Warehouses,
) -> Result<Vec<(u32, Apart)>, AllocError>
    requires stocks { AreSettledStocks stocks.now }
    requires warehouses { AreSettledWarehouses warehouses.now }
    ensures { (of_stocks : List StockFact) (of_warehouses : List WarehouseFact)
        → KeepsStocks of_stocks stocks.now
        → AreFew of_stocks
        → KeepsWarehouses of_warehouses warehouses.now
        → AreFew of_warehouses
        → IfOk result (λ found. AreAll nat_cmp nat_eq
        (stocks_refer_to_warehouses of_stocks of_warehouses) found.items) }
{
    let sums = &warehouses.by_warehouse;
    findings(alloc, &StocksReferToWarehouses, &stocks.by_warehouse, sums)
}

struct StocksReferToItems;

impl Check<Count, Count> for StocksReferToItems {
    ghost use Rattle.std.specs.Prelude.{refl};

    type Wrong = Apart;

    ghost judged = { λ _ row sum. orphans_apart (option_map (λ s. pos s.rows) row)
        (option_map (λ s. pos s.rows) sum) };

    ghost nothing = { λ _. refl };

    fn judge(&self, row: Option<Count>, sum: Option<Count>) -> Option<Apart>
        ensures { result ≡ orphans_apart (option_map (λ s. pos s.rows) row)
            (option_map (λ s. pos s.rows) sum) }
    {
        let Some(row) = row else {
            return None;
        };
        if sum.is_some() {
            return None;
        }
        Some(Apart {
            first: row.rows as i128,
            second: 0,
        })
    }
}

/// Gives each S_I_ID that is no I_ID, with the number of its STOCK rows and 0.
pub fn stocks_refer_to_items(
    alloc: Global,
    stocks: &Stocks,
    items: &Items,
) -> Result<Vec<(u32, Apart)>, AllocError>
    requires stocks { AreSettledStocks stocks.now }
    requires items { AreSettledItems items.now }
    ensures { (of_stocks : List StockFact) (of_items : List ItemFact)
        → KeepsStocks of_stocks stocks.now
        → AreFew of_stocks
        → KeepsItems of_items items.now
        → AreFew of_items
        → IfOk result (λ found. AreAll nat_cmp nat_eq
        (stocks_refer_to_items of_stocks of_items) found.items) }
{
    findings(alloc, &StocksReferToItems, &stocks.by_item, &items.by_item)
}
