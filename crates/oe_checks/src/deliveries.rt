//! What was delivered to each customer: the sum of OL_AMOUNT of its orders' delivered lines.
ghost use Rattle.std.specs.Prelude.{◌≡◌, IfOk, List};
ghost use Rattle.oe_tally.specs.Tallies.{IsSettled};
ghost use Rattle.oe_tally.specs.Walks.{AreAll, wrong_at};
ghost use Rattle.oe_facts.specs.declared.facts.OrderFact.{OrderFact};
ghost use Rattle.oe_facts.specs.declared.facts.OrderLineFact.{OrderLineFact};
ghost use Rattle.oe_ledgers.specs.Keys.{same_customer, customer_cmp, same_order, order_cmp};
ghost use Rattle.oe_ledgers.specs.Sums.{orders_joined, lines_joined, takings_joined};
ghost use Rattle.oe_ledgers.specs.Keeping.{Keeps, KeepsOrders, KeepsOrderLines};
ghost use Rattle.oe_ledgers.specs.Settling.{AreSettledOrders, AreSettledOrderLines};
ghost use Rattle.oe_ledgers.specs.Figures.{AreFew, AreAmounts};
ghost use Rattle.oe_checks.specs.Deliveries.{delivery, delivery_takings, delivery_entry};
ghost use Rattle.oe_checks.specs.Deliveries.{HasDeliveries};

use oe_facts::keys::{CustomerId, OrderId};
use oe_ledgers::order_lines::{LineSums, OrderLines};
use oe_ledgers::orders::{OrderSums, Orders};
use oe_ledgers::takings::Takings;
use oe_tally::checks::{Check, findings};
use oe_tally::tally::Tally;
use std::alloc::{AllocError, Global};

/// What was delivered of an order, in cents, and its O_C_ID.
#[derive(Clone, Copy)]
pub struct Delivery {
    pub amount: i128,
    pub customer: u32,
}

struct Delivered;

impl Check<OrderSums, LineSums> for Delivered {
    ghost use Rattle.std.specs.Prelude.{refl};

    type Wrong = Delivery;

    ghost judged = { λ _ row sum. delivery row sum };

    ghost nothing = { λ _. refl };

    fn judge(&self, row: Option<OrderSums>, sum: Option<LineSums>) -> Option<Delivery>
        ensures { result ≡ delivery row sum }
    {
        let Some(order) = row else {
            return None;
        };
        let Some(lines) = sum else {
            return None;
        };
        Some(Delivery {
            amount: lines.amount,
            customer: order.customer,
        })
    }
}

// Gives each order that has lines, with its delivery.
fn deliveries_by_order(
    alloc: Global,
    orders: &Orders,
    lines: &OrderLines,
) -> Result<Vec<(OrderId, Delivery)>, AllocError>
    requires orders { AreSettledOrders orders.now }
    requires lines { AreSettledOrderLines lines.now }
    ensures { IfOk result (λ found. AreAll order_cmp same_order
        (wrong_at same_order orders_joined lines_joined delivery orders.now.by_order
        lines.now.by_order) found.items) }
{
    findings(alloc, &Delivered, &orders.by_order, &lines.by_order)
}

// Gives what a delivery brings.
fn takings(delivery: &Delivery) -> Takings
    ensures { result ≡ delivery_takings delivery.now }
{
    Takings {
        amount: delivery.amount,
        rows: 1,
    }
}

// Gives a settled tally of deliveries by customer.
fn tally_of(
    alloc: Global,
    deliveries: &[(OrderId, Delivery)],
) -> Result<Tally<CustomerId, Takings>, AllocError>
    ensures kept { IfOk result (Keeps same_customer takings_joined delivery_entry deliveries.now) }
    ensures settled { IfOk result (IsSettled customer_cmp) }
{
    let mut tally = Tally::new(alloc);
    for entry in deliveries {
        let customer = CustomerId {
            warehouse: entry.0.warehouse,
            district: entry.0.district,
            customer: entry.1.customer,
        };
        if let Err(refused) = tally.add(customer, takings(&entry.1)) {
            return Err(refused);
        }
    }
    tally.settle();
    Ok(tally)
}

/// Gives what was delivered to each customer, settled.
pub fn deliveries(
    alloc: Global,
    orders: &Orders,
    lines: &OrderLines,
) -> Result<Tally<CustomerId, Takings>, AllocError>
    requires orders { AreSettledOrders orders.now }
    requires lines { AreSettledOrderLines lines.now }
    ensures settled { IfOk result (IsSettled customer_cmp) }
    ensures sums { (of_orders : List OrderFact) (of_lines : List OrderLineFact)
        → KeepsOrders of_orders orders.now
        → KeepsOrderLines of_lines lines.now
        → AreFew of_lines
        → AreAmounts (λ (f : OrderLineFact). f.amount) of_lines
        → IfOk result (HasDeliveries of_orders of_lines) }
{
    let by_order = match deliveries_by_order(alloc, orders, lines) {
        Ok(by_order) => by_order,
        Err(refused) => return Err(refused),
    };
    tally_of(alloc, &by_order)
}
