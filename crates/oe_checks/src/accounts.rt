//! What the customers' accounts come to (clauses 3.3.2.10 and 3.3.2.12).
ghost use Rattle.std.specs.Prelude.{◌≡◌, ◌+ℤ◌, IfOk, List};
ghost use Rattle.std.specs.Option.{option_map};
ghost use Rattle.oe_tally.specs.Tallies.{total, SameTotals, IsSettled};
ghost use Rattle.oe_tally.specs.Walks.{AreAll, wrong_at};
ghost use Rattle.oe_facts.specs.declared.facts.CustomerFact.{CustomerFact};
ghost use Rattle.oe_facts.specs.declared.facts.HistoryFact.{HistoryFact};
ghost use Rattle.oe_facts.specs.declared.facts.OrderFact.{OrderFact};
ghost use Rattle.oe_facts.specs.declared.facts.OrderLineFact.{OrderLineFact};
ghost use Rattle.oe_facts.specs.declared.keys.CustomerId.{CustomerId};
ghost use Rattle.oe_ledgers.specs.Keys.{same_customer, customer_cmp};
ghost use Rattle.oe_ledgers.specs.Sums.{takings_joined};
ghost use Rattle.oe_ledgers.specs.Keeping.{KeepsCustomers, KeepsHistories};
ghost use Rattle.oe_ledgers.specs.Settling.{AreSettledCustomers, AreSettledHistories};
ghost use Rattle.oe_ledgers.specs.Figures.{AreFew, AreAmounts};
ghost use Rattle.oe_checks.specs.Comparing.{against};
ghost use Rattle.oe_checks.specs.Deliveries.{HasDeliveries};
ghost use Rattle.oe_checks.specs.Accounts.{figure_sum, net, wrapped_less, condition_10, condition_12};

use crate::figures::{Apart, differing};
use oe_facts::keys::CustomerId;
use oe_ledgers::customers::{CustomerSums, Customers};
use oe_ledgers::histories::Histories;
use oe_ledgers::takings::Takings;
use oe_tally::checks::{Check, findings};
use oe_tally::tally::Tally;
use std::alloc::{AllocError, Global};

// Gives a difference, which wraps.
fn difference(more: i128, less: i128) -> i128
    ensures { result ≡ wrapped_less more less }
{
    more.wrapping_sub(less)
}

struct Net;

impl Check<Takings, Takings> for Net {
    ghost use Rattle.std.specs.Prelude.{refl};

    type Wrong = Takings;

    ghost judged = { λ _ row sum. net row sum };

    ghost nothing = { λ _. refl };

    fn judge(&self, row: Option<Takings>, sum: Option<Takings>) -> Option<Takings>
        ensures { result ≡ net row sum }
    {
        let Some(less) = sum else {
            return row;
        };
        let Some(more) = row else {
            return Some(Takings {
                amount: difference(0, less.amount),
                rows: less.rows,
            });
        };
        Some(Takings {
            amount: difference(more.amount, less.amount),
            rows: more.rows,
        })
    }
}

// Gives each customer with what was delivered to it less what it paid.
fn nets(
    alloc: Global,
    delivered: &Tally<CustomerId, Takings>,
    histories: &Histories,
) -> Result<Vec<(CustomerId, Takings)>, AllocError>
    requires delivered { IsSettled customer_cmp delivered.now }
    requires histories { AreSettledHistories histories.now }
    ensures { IfOk result (λ found. AreAll customer_cmp same_customer
        (wrong_at same_customer takings_joined takings_joined net delivered.now
        histories.now.by_customer) found.items) }
{
    findings(alloc, &Net, delivered, &histories.by_customer)
}

// Gives a settled tally of what was delivered to each customer less what it paid.
fn balances(
    alloc: Global,
    delivered: &Tally<CustomerId, Takings>,
    histories: &Histories,
) -> Result<Tally<CustomerId, Takings>, AllocError>
    requires delivered { IsSettled customer_cmp delivered.now }
    requires histories { AreSettledHistories histories.now }
    ensures sums { IfOk result (λ tally. (c : CustomerId)
        → total same_customer takings_joined tally c
        ≡ net (total same_customer takings_joined delivered.now c)
        (total same_customer takings_joined histories.now.by_customer c)) }
    ensures settled { IfOk result (IsSettled customer_cmp) }
{
    let entries = match nets(alloc, delivered, histories) {
        Ok(entries) => entries,
        Err(refused) => return Err(refused),
    };
    Tally::of(alloc, &entries)
}

struct Condition10;

impl Check<CustomerSums, Takings> for Condition10 {
    ghost use Rattle.std.specs.Prelude.{refl};

    type Wrong = Apart;

    ghost judged = { λ _ row sum. against (option_map (λ s. s.balance) row)
        (option_map (λ s. s.amount) sum) };

    ghost nothing = { λ _. refl };

    fn judge(&self, row: Option<CustomerSums>, sum: Option<Takings>) -> Option<Apart>
        ensures { result ≡ against (option_map (λ s. s.balance) row)
            (option_map (λ s. s.amount) sum) }
    {
        let Some(row) = row else {
            return None;
        };
        let second = match sum {
            Some(sum) => sum.amount,
            None => 0,
        };
        differing(row.balance as i128, second)
    }
}

/// Gives each customer whose C_BALANCE is not the sum of delivered OL_AMOUNT less the sum of
/// H_AMOUNT, with both (clause 3.3.2.10). `delivered` has what was delivered to each.
pub fn condition_10(
    alloc: Global,
    customers: &Customers,
    delivered: &Tally<CustomerId, Takings>,
    histories: &Histories,
) -> Result<Vec<(CustomerId, Apart)>, AllocError>
    requires customers { AreSettledCustomers customers.now }
    requires delivered { IsSettled customer_cmp delivered.now }
    requires histories { AreSettledHistories histories.now }
    ensures { (of_customers : List CustomerFact) (of_orders : List OrderFact)
        (of_lines : List OrderLineFact) (of_histories : List HistoryFact)
        → KeepsCustomers of_customers customers.now
        → HasDeliveries of_orders of_lines delivered.now
        → AreFew of_lines
        → AreAmounts (λ (f : OrderLineFact). f.amount) of_lines
        → KeepsHistories of_histories histories.now
        → AreFew of_histories
        → AreAmounts (λ (f : HistoryFact). f.amount) of_histories
        → IfOk result (λ found. AreAll customer_cmp same_customer
        (condition_10 of_customers of_orders of_lines of_histories) found.items) }
{
    let sums = match balances(alloc, delivered, histories) {
        Ok(sums) => sums,
        Err(refused) => return Err(refused),
    };
    findings(alloc, &Condition10, &customers.by_customer, &sums)
}

// Gives C_BALANCE and C_YTD_PAYMENT together.
fn account(row: &CustomerSums) -> i128
    ensures { result ≡ row.now.balance +ℤ row.now.ytd_payment }
{
    row.balance as i128 + row.ytd_payment as i128
}

struct Condition12;

impl Check<CustomerSums, Takings> for Condition12 {
    ghost use Rattle.std.specs.Prelude.{refl};

    type Wrong = Apart;

    ghost judged = { λ _ row sum. against (figure_sum (option_map (λ s. s.balance) row)
        (option_map (λ s. s.ytd_payment) row)) (option_map (λ s. s.amount) sum) };

    ghost nothing = { λ _. refl };

    fn judge(&self, row: Option<CustomerSums>, sum: Option<Takings>) -> Option<Apart>
        ensures { result ≡ against (figure_sum (option_map (λ s. s.balance) row)
            (option_map (λ s. s.ytd_payment) row)) (option_map (λ s. s.amount) sum) }
    {
        let Some(row) = row else {
            return None;
        };
        let second = match sum {
            Some(sum) => sum.amount,
            None => 0,
        };
        differing(account(&row), second)
    }
}

/// Gives each customer whose C_BALANCE and C_YTD_PAYMENT together are not the sum of delivered
/// OL_AMOUNT, with both (clause 3.3.2.12). `delivered` has what was delivered to each.
pub fn condition_12(
    alloc: Global,
    customers: &Customers,
    delivered: &Tally<CustomerId, Takings>,
) -> Result<Vec<(CustomerId, Apart)>, AllocError>
    requires customers { AreSettledCustomers customers.now }
    requires delivered { IsSettled customer_cmp delivered.now }
    ensures { (of_customers : List CustomerFact) (of_orders : List OrderFact)
        (of_lines : List OrderLineFact)
        → KeepsCustomers of_customers customers.now
        → HasDeliveries of_orders of_lines delivered.now
        → IfOk result (λ found. AreAll customer_cmp same_customer
        (condition_12 of_customers of_orders of_lines) found.items) }
{
    findings(alloc, &Condition12, &customers.by_customer, delivered)
}
