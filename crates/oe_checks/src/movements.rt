//! What New-Order, Payment and Delivery keep beside the consistency conditions.
ghost use Rattle.std.specs.Prelude.{◌≡◌, IfOk, List, pos, cond};
ghost use Rattle.std.specs.Option.{option_map};
ghost use Rattle.oe_tally.specs.Walks.{AreAll};
ghost use Rattle.oe_facts.specs.declared.facts.StockFact.{StockFact};
ghost use Rattle.oe_facts.specs.declared.facts.OrderLineFact.{OrderLineFact};
ghost use Rattle.oe_facts.specs.declared.facts.CustomerFact.{CustomerFact};
ghost use Rattle.oe_facts.specs.declared.facts.HistoryFact.{HistoryFact};
ghost use Rattle.oe_facts.specs.declared.facts.OrderFact.{OrderFact};
ghost use Rattle.oe_ledgers.specs.Keys.{customer_cmp, order_cmp, same_customer, same_order, same_stock, stock_cmp};
ghost use Rattle.oe_ledgers.specs.Keeping.{KeepsStocks};
ghost use Rattle.oe_ledgers.specs.Settling.{AreSettledStocks};
ghost use Rattle.oe_ledgers.specs.Keeping.{KeepsOrderLines};
ghost use Rattle.oe_ledgers.specs.Settling.{AreSettledOrderLines};
ghost use Rattle.oe_ledgers.specs.Keeping.{KeepsCustomers};
ghost use Rattle.oe_ledgers.specs.Settling.{AreSettledCustomers};
ghost use Rattle.oe_ledgers.specs.Keeping.{KeepsHistories};
ghost use Rattle.oe_ledgers.specs.Settling.{AreSettledHistories};
ghost use Rattle.oe_ledgers.specs.Keeping.{KeepsOrders};
ghost use Rattle.oe_ledgers.specs.Settling.{AreSettledOrders};
ghost use Rattle.oe_ledgers.specs.Figures.{AreFew, AreAmounts, AreNumbers};
ghost use Rattle.oe_checks.specs.Comparing.{against, any_against, outside};
ghost use Rattle.oe_checks.specs.Movements.{stock_ytd};
ghost use Rattle.oe_checks.specs.Movements.{stock_orders};
ghost use Rattle.oe_checks.specs.Movements.{stock_remote};
ghost use Rattle.oe_checks.specs.Movements.{payment_count};
ghost use Rattle.oe_checks.specs.Movements.{delivery_count};
ghost use Rattle.oe_checks.specs.Movements.{all_local};
ghost use Rattle.oe_checks.specs.Movements.{stock_quantity};

use crate::figures::{Apart, differing};
use oe_facts::keys::{CustomerId, OrderId, StockId};
use oe_ledgers::customers::{CustomerSums, Customers};
use oe_ledgers::histories::Histories;
use oe_ledgers::order_lines::{LineSums, OrderLines, SupplySums};
use oe_ledgers::orders::{CustomerOrders, OrderSums, Orders};
use oe_ledgers::stocks::{StockSums, Stocks};
use oe_ledgers::takings::Takings;
use oe_tally::checks::{Check, findings};
use oe_tally::count::Count;
use oe_tally::tally::Tally;
use std::alloc::{AllocError, Global};

struct StockYtd;

impl Check<StockSums, SupplySums> for StockYtd {
    ghost use Rattle.std.specs.Prelude.{refl};

    type Wrong = Apart;

    ghost judged = { λ _ row sum. against (option_map (λ s. pos s.ytd) row)
        (option_map (λ s. pos s.quantity) sum) };

    ghost nothing = { λ _. refl };

    fn judge(&self, row: Option<StockSums>, sum: Option<SupplySums>) -> Option<Apart>
        ensures { result ≡ against (option_map (λ s. pos s.ytd) row)
            (option_map (λ s. pos s.quantity) sum) }
    {
        let Some(row) = row else {
            return None;
        };
        let second = match sum {
            Some(sum) => sum.quantity as i128,
            None => 0,
        };
        let first = row.ytd as i128;
        differing(first, second)
    }
}

/// Gives each STOCK row whose S_YTD is not the sum of OL_QUANTITY that it supplied to orders which
/// the population did not have, with both (clauses 2.4.2.2, 4.3.3.1).
pub fn stock_ytd(
    alloc: Global,
    stocks: &Stocks,
    lines: &OrderLines,
) -> Result<Vec<(StockId, Apart)>, AllocError>
    requires stocks { AreSettledStocks stocks.now }
    requires lines { AreSettledOrderLines lines.now }
    ensures { (of_stocks : List StockFact) (of_lines : List OrderLineFact)
        → KeepsStocks of_stocks stocks.now
        → KeepsOrderLines of_lines lines.now
        → AreFew of_lines
        → AreNumbers (λ (f : OrderLineFact). f.quantity) of_lines
        → IfOk result (λ found. AreAll stock_cmp same_stock
        (stock_ytd lines.now.initial of_stocks of_lines) found.items) }
{
    findings(alloc, &StockYtd, &stocks.by_stock, &lines.by_stock)
}

struct StockOrders;

impl Check<StockSums, SupplySums> for StockOrders {
    ghost use Rattle.std.specs.Prelude.{refl};

    type Wrong = Apart;

    ghost judged = { λ _ row sum. against (option_map (λ s. pos s.orders) row)
        (option_map (λ s. pos s.orders) sum) };

    ghost nothing = { λ _. refl };

    fn judge(&self, row: Option<StockSums>, sum: Option<SupplySums>) -> Option<Apart>
        ensures { result ≡ against (option_map (λ s. pos s.orders) row)
            (option_map (λ s. pos s.orders) sum) }
    {
        let Some(row) = row else {
            return None;
        };
        let second = match sum {
            Some(sum) => sum.orders as i128,
            None => 0,
        };
        let first = row.orders as i128;
        differing(first, second)
    }
}

/// Gives each STOCK row whose S_ORDER_CNT is not the number of lines that it supplied to orders
/// which the population did not have, with both (clauses 2.4.2.2, 4.3.3.1).
pub fn stock_orders(
    alloc: Global,
    stocks: &Stocks,
    lines: &OrderLines,
) -> Result<Vec<(StockId, Apart)>, AllocError>
    requires stocks { AreSettledStocks stocks.now }
    requires lines { AreSettledOrderLines lines.now }
    ensures { (of_stocks : List StockFact) (of_lines : List OrderLineFact)
        → KeepsStocks of_stocks stocks.now
        → KeepsOrderLines of_lines lines.now
        → AreFew of_lines
        → IfOk result (λ found. AreAll stock_cmp same_stock
        (stock_orders lines.now.initial of_stocks of_lines) found.items) }
{
    findings(alloc, &StockOrders, &stocks.by_stock, &lines.by_stock)
}

struct StockRemote;

impl Check<StockSums, SupplySums> for StockRemote {
    ghost use Rattle.std.specs.Prelude.{refl};

    type Wrong = Apart;

    ghost judged = { λ _ row sum. against (option_map (λ s. pos s.remotes) row)
        (option_map (λ s. pos s.remotes) sum) };

    ghost nothing = { λ _. refl };

    fn judge(&self, row: Option<StockSums>, sum: Option<SupplySums>) -> Option<Apart>
        ensures { result ≡ against (option_map (λ s. pos s.remotes) row)
            (option_map (λ s. pos s.remotes) sum) }
    {
        let Some(row) = row else {
            return None;
        };
        let second = match sum {
            Some(sum) => sum.remotes as i128,
            None => 0,
        };
        let first = row.remotes as i128;
        differing(first, second)
    }
}

/// Gives each STOCK row whose S_REMOTE_CNT is not the number of these lines of another warehouse's
/// order, with both (clauses 2.4.2.2, 4.3.3.1).
pub fn stock_remote(
    alloc: Global,
    stocks: &Stocks,
    lines: &OrderLines,
) -> Result<Vec<(StockId, Apart)>, AllocError>
    requires stocks { AreSettledStocks stocks.now }
    requires lines { AreSettledOrderLines lines.now }
    ensures { (of_stocks : List StockFact) (of_lines : List OrderLineFact)
        → KeepsStocks of_stocks stocks.now
        → KeepsOrderLines of_lines lines.now
        → AreFew of_lines
        → IfOk result (λ found. AreAll stock_cmp same_stock
        (stock_remote lines.now.initial of_stocks of_lines) found.items) }
{
    findings(alloc, &StockRemote, &stocks.by_stock, &lines.by_stock)
}

struct PaymentCount;

impl Check<CustomerSums, Takings> for PaymentCount {
    ghost use Rattle.std.specs.Prelude.{refl};

    type Wrong = Apart;

    ghost judged = { λ _ row sum. against (option_map (λ s. pos s.payments) row)
        (option_map (λ s. pos s.rows) sum) };

    ghost nothing = { λ _. refl };

    fn judge(&self, row: Option<CustomerSums>, sum: Option<Takings>) -> Option<Apart>
        ensures { result ≡ against (option_map (λ s. pos s.payments) row)
            (option_map (λ s. pos s.rows) sum) }
    {
        let Some(row) = row else {
            return None;
        };
        let second = match sum {
            Some(sum) => sum.rows as i128,
            None => 0,
        };
        let first = row.payments as i128;
        differing(first, second)
    }
}

/// Gives each customer whose C_PAYMENT_CNT is not the number of its HISTORY rows, with both
/// (clauses 2.5.2.2, 4.3.3.1).
pub fn payment_count(
    alloc: Global,
    customers: &Customers,
    histories: &Histories,
) -> Result<Vec<(CustomerId, Apart)>, AllocError>
    requires customers { AreSettledCustomers customers.now }
    requires histories { AreSettledHistories histories.now }
    ensures { (of_customers : List CustomerFact) (of_histories : List HistoryFact)
        → KeepsCustomers of_customers customers.now
        → KeepsHistories of_histories histories.now
        → AreFew of_histories
        → IfOk result (λ found. AreAll customer_cmp same_customer
        (payment_count of_customers of_histories) found.items) }
{
    let sums = &histories.by_customer;
    findings(alloc, &PaymentCount, &customers.by_customer, sums)
}

struct DeliveryCount;

impl Check<CustomerSums, CustomerOrders> for DeliveryCount {
    ghost use Rattle.std.specs.Prelude.{refl};

    type Wrong = Apart;

    ghost judged = { λ _ row sum. against (option_map (λ s. pos s.deliveries) row)
        (option_map (λ s. pos s.deliveries) sum) };

    ghost nothing = { λ _. refl };

    fn judge(&self, row: Option<CustomerSums>, sum: Option<CustomerOrders>) -> Option<Apart>
        ensures { result ≡ against (option_map (λ s. pos s.deliveries) row)
            (option_map (λ s. pos s.deliveries) sum) }
    {
        let Some(row) = row else {
            return None;
        };
        let second = match sum {
            Some(sum) => sum.deliveries as i128,
            None => 0,
        };
        let first = row.deliveries as i128;
        differing(first, second)
    }
}

/// Gives each customer whose C_DELIVERY_CNT is not the number of its delivered orders that the
/// population had not delivered, with both (clauses 2.7.4.2, 4.3.3.1).
pub fn delivery_count(
    alloc: Global,
    customers: &Customers,
    orders: &Orders,
) -> Result<Vec<(CustomerId, Apart)>, AllocError>
    requires customers { AreSettledCustomers customers.now }
    requires orders { AreSettledOrders orders.now }
    ensures { (of_customers : List CustomerFact) (of_orders : List OrderFact)
        → KeepsCustomers of_customers customers.now
        → KeepsOrders of_orders orders.now
        → AreFew of_orders
        → IfOk result (λ found. AreAll customer_cmp same_customer
        (delivery_count orders.now.initial of_customers of_orders) found.items) }
{
    let sums = &orders.by_customer;
    findings(alloc, &DeliveryCount, &customers.by_customer, sums)
}

struct AllLocal;

impl Check<OrderSums, LineSums> for AllLocal {
    ghost use Rattle.std.specs.Prelude.{refl};

    type Wrong = Apart;

    ghost judged = { λ _ row sum. any_against (option_map (λ s. pos (cond s.is_all_local 0 1)) row)
        (option_map (λ s. pos s.remotes) sum) };

    ghost nothing = { λ _. refl };

    fn judge(&self, row: Option<OrderSums>, sum: Option<LineSums>) -> Option<Apart>
        ensures { result ≡ any_against (option_map (λ s. pos (cond s.is_all_local 0 1)) row)
            (option_map (λ s. pos s.remotes) sum) }
    {
        let Some(row) = row else {
            return None;
        };
        let second = match sum {
            Some(sum) => if sum.remotes > 0 { 1 } else { 0 },
            None => 0,
        };
        let first = if row.is_all_local { 0 } else { 1 };
        differing(first, second)
    }
}

/// Gives each order whose O_ALL_LOCAL is 1 though another warehouse supplies a line, or 0 though
/// none does: 1 where O_ALL_LOCAL is 0, and 1 where another warehouse supplies a line, else 0
/// (clause 2.4.2.2).
pub fn all_local(
    alloc: Global,
    orders: &Orders,
    lines: &OrderLines,
) -> Result<Vec<(OrderId, Apart)>, AllocError>
    requires orders { AreSettledOrders orders.now }
    requires lines { AreSettledOrderLines lines.now }
    ensures { (of_orders : List OrderFact) (of_lines : List OrderLineFact)
        → KeepsOrders of_orders orders.now
        → KeepsOrderLines of_lines lines.now
        → AreFew of_lines
        → IfOk result (λ found. AreAll order_cmp same_order
        (all_local of_orders of_lines) found.items) }
{
    findings(alloc, &AllLocal, &orders.by_order, &lines.by_order)
}

struct QuantityRange;

impl Check<StockSums, Count> for QuantityRange {
    ghost use Rattle.std.specs.Prelude.{refl};

    type Wrong = Apart;

    ghost judged = { λ _ row sum. outside (option_map (λ s. s.quantity) row) };

    ghost nothing = { λ _. refl };

    fn judge(&self, row: Option<StockSums>, _sum: Option<Count>) -> Option<Apart>
        ensures { result ≡ outside (option_map (λ s. s.quantity) row) }
    {
        let Some(row) = row else {
            return None;
        };
        if row.quantity < 10 {
            return Some(Apart {
                first: row.quantity as i128,
                second: 10,
            });
        }
        if row.quantity > 100 {
            return Some(Apart {
                first: row.quantity as i128,
                second: 100,
            });
        }
        None
    }
}

/// Gives each STOCK row whose S_QUANTITY is not 10 to 100, with the bound that it passes (clauses
/// 2.4.2.2, 4.3.3.1).
pub fn stock_quantity(alloc: Global, stocks: &Stocks) -> Result<Vec<(StockId, Apart)>, AllocError>
    requires { AreSettledStocks stocks.now }
    ensures { (of_stocks : List StockFact)
        → KeepsStocks of_stocks stocks.now
        → IfOk result (λ found. AreAll stock_cmp same_stock
        (stock_quantity of_stocks) found.items) }
{
    let nothing: Tally<StockId, Count> = Tally::new(alloc);
    findings(alloc, &QuantityRange, &stocks.by_stock, &nothing)
}
