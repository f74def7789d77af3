//! Rows that a transaction chooses by more than their key: the oldest order that is not delivered,
//! a customer by last name, and a customer's last order. None takes memory.
ghost use Rattle.std.specs.Prelude.{◌≡◌, ◌==◌, ◌≤◌, ◌&&◌, ◌+◌, ◌/◌, option_map, count_by, length};
ghost use Rattle.std.specs.Ordering.{eq_by_cmp, nat_cmp};
ghost use Rattle.std.specs.Cmp.Lexicographic.{slice_cmp};
ghost use Rattle.oe_rows.specs.Key.{district_cmp, customer_cmp};
ghost use Rattle.oe_model.specs.Keys.{district_of_customer, customer_of_order};
ghost use Rattle.oe_model.specs.Choice.{namesakes, comes_before, middle};
ghost use Rattle.oe_model.specs.Delivery.{oldest};
ghost use Rattle.oe_model.specs.Queries.{orders_of, last_order};
ghost use Rattle.oe_index.specs.Own.{named_of, own_of};
ghost use Rattle.oe_store.specs.Places.{rows};

use crate::tables::Tables;
use oe_index::Found;
use oe_rows::{Customer, CustomerKey, CustomerName, DistrictKey, Order, OrderKey};
use oe_values::{CustomerNumber, OrderNumber, Text};
use std::cmp::Ordering;

/// Tells whether a customer of that key and name is of the district and has the last name.
fn is_named(
    key: &CustomerKey,
    name: &CustomerName,
    district: &DistrictKey,
    last: &Text<0, 16>,
) -> bool
    ensures { result ≡
        (eq_by_cmp district_cmp (district_of_customer key.now) district.now && eq_by_cmp
        (slice_cmp nat_cmp) name.now.last last.now) }
{
    key.district_key().cmp(district) == Ordering::Equal
        && name.last.as_str().cmp(last.as_str()) == Ordering::Equal
}

/// Tells whether a customer comes before another, by C_FIRST, and if that ties by C_ID.
pub fn is_before(
    first: &Text<0, 16>,
    customer: CustomerNumber,
    own_first: &Text<0, 16>,
    own: CustomerNumber,
) -> bool
    ensures { result ≡ comes_before (first.now, customer) (own_first.now, own) }
{
    first
        .as_str()
        .cmp(own_first.as_str())
        .then(customer.cmp(&own))
        == Ordering::Less
}

/// Tells whether the order is the customer's.
fn is_own(key: &OrderKey, order: &Order, customer: &CustomerKey) -> bool
    ensures { result ≡ eq_by_cmp customer_cmp (customer_of_order key.now order.now) customer.now }
{
    let owner = key.district_key().customer(order.customer);
    owner.cmp(customer) == Ordering::Equal
}

/// How many customers of a last name there are, and how many of them come before one.
#[derive(Drop)]
struct Standing {
    count: u32,
    before: u32,
}

impl Tables {
    /// Gives a walk that meets a customer's orders in their keys' order, and few others.
    pub fn orders_of_customer(&self, customer: &CustomerKey) -> Found<'_, OrderKey, Order>
        ensures { own_of customer.now result ≡ orders_of customer.now (rows self.now).orders }
    {
        let others = self.orders_of(customer.district_key());
        self.orders.of_customer(customer, others)
    }

    /// Gives a walk that meets the customers of a district with that C_LAST in their keys' order,
    /// and few others.
    fn namesakes_of(
        &self,
        district: &DistrictKey,
        last: &Text<0, 16>,
    ) -> Found<'_, CustomerKey, Customer>
        ensures { named_of district.now last.now result
            ≡ namesakes district.now last.now (rows self.now).customers }
    {
        if self.customers.is_listed() {
            // Any walk that has them all will do, since the list is met.
            let unmet = self.customers.iter();
            return self.customers.namesakes(district, last, unmet);
        }
        let others = self.customers_of(*district);
        self.customers.namesakes(district, last, others)
    }

    /// Gives the least NO_O_ID of a district's orders that are not delivered (clause 2.7.4.2).
    pub fn oldest(&self, district: &DistrictKey) -> Option<OrderNumber>
        ensures { result ≡ oldest district.now (rows self.now).new_orders }
    {
        let mut waiting = self.new_orders_of(*district);
        let (key, _) = waiting.next()?;
        Some(key.order)
    }

    /// Tells how one stands among the customers of a district with that C_LAST.
    fn standing(
        &self,
        district: &DistrictKey,
        last: &Text<0, 16>,
        first: &Text<0, 16>,
        own: CustomerNumber,
    ) -> Standing
        ensures count { result.count ≡ length
            (namesakes district.now last.now (rows self.now).customers) }
        ensures before { result.before ≡ count_by (λ y. comes_before y (first.now, own))
            (namesakes district.now last.now (rows self.now).customers) }
        ensures few { (result.count ≤ 3_000) × (result.before ≤ 3_000) }
    {
        let _known = &self.customers;
        let mut count = 0u32;
        let mut before = 0u32;
        for (key, customer) in self.namesakes_of(district, last) {
            if is_named(key, &customer.name, district, last) {
                count += 1;
                if is_before(&customer.name.first, key.customer, first, own) {
                    before += 1;
                }
            }
        }
        Standing { count, before }
    }

    /// Tells whether that one is in the middle of them, rounded up.
    fn is_middle(
        &self,
        district: &DistrictKey,
        last: &Text<0, 16>,
        first: &Text<0, 16>,
        own: CustomerNumber,
    ) -> bool
        ensures { result ≡
            (count_by (λ y. comes_before y (first.now, own))
            (namesakes district.now last.now (rows self.now).customers) + 1 ==
            (length (namesakes district.now last.now (rows self.now).customers) + 1) / 2) }
    {
        let standing = self.standing(district, last, first, own);
        standing.before + 1 == (standing.count + 1) / 2
    }

    /// Gives C_ID of the customer of a district and last name in position n / 2, rounded up, of n,
    /// by C_FIRST and where that ties by C_ID (clauses 2.5.2.2 and 2.6.2.2).
    pub fn middle(&self, district: &DistrictKey, last: &Text<0, 16>) -> Option<CustomerNumber>
        ensures { result ≡ middle (namesakes district.now last.now (rows self.now).customers) }
    {
        for (key, customer) in self.namesakes_of(district, last) {
            if is_named(key, &customer.name, district, last)
                && self.is_middle(district, last, &customer.name.first, key.customer)
            {
                return Some(key.customer);
            }
        }
        None
    }

    /// Gives O_ID of a customer's last order, which is the greatest (clause 2.6.2.2).
    pub fn last_order(&self, customer: &CustomerKey) -> Option<OrderNumber>
        ensures { result ≡ option_map (λ e. e.0.order)
            (last_order customer.now (rows self.now).orders) }
    {
        let mut last = None;
        for (key, order) in self.orders_of_customer(customer) {
            if is_own(key, order, customer) {
                last = Some(key.order);
            }
        }
        last
    }
}
