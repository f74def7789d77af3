//! The last order of a customer as it stood at a moment: the last of the orders listed for the
//! customer, or where that came later, the last of them that stood.
ghost use Rattle.std.specs.Prelude.{◌≡◌};
ghost use Rattle.std.specs.Ordering.{eq_by_cmp};
ghost use Rattle.oe_rows.specs.Key.{customer_cmp};
ghost use Rattle.oe_model.specs.Keys.{customer_of_order};
ghost use Rattle.oe_model.specs.Queries.{last_order};
ghost use Rattle.oe_versions.specs.Versions.{rows_of, Stand};

use crate::moments::Version;
use oe_rows::{CustomerKey, Order, OrderKey};
use std::cmp::Ordering;

/// Tells whether the order is the customer's.
fn is_own(key: &OrderKey, order: &Order, customer: &CustomerKey) -> bool
    ensures { result
        ≡ eq_by_cmp customer_cmp (customer_of_order key.now order.now) customer.now }
{
    let owner = key.district_key().customer(order.customer);
    owner.cmp(customer) == Ordering::Equal
}

impl<'a> Version<'a> {
    /// Gives the order with the largest O_ID that a customer had, with its key, if there was any,
    /// by reading each of the customer's orders.
    #[inline(never)]
    fn last_read(&self, customer: CustomerKey) -> Option<(OrderKey, Order)>
        requires { Stand self.now.tables self.now.log }
        ensures { result ≡ last_order customer (rows_of self.now).orders }
    {
        let mut last = None;
        for (key, row) in self.tables().orders_of_customer(&customer) {
            if is_own(key, row, &customer) {
                match self.order(key) {
                    Some(order) => last = Some((*key, order)),
                    None => {}
                }
            }
        }
        last
    }

    /// Gives the order with the largest O_ID that a customer had, with its key, if there was any
    /// (clause 2.6.2.2).
    ///
    /// Orders stay, so it is mostly the customer's last one that stands; where that came after the
    /// moment, each of the customer's orders is read.
    #[tactic(auto, using(crate::proofs::LastFacts::never_ordered, crate::proofs::LastFacts::stood_last))]
    pub fn last_order(&self, customer: CustomerKey) -> Option<(OrderKey, Order)>
        requires { Stand self.now.tables self.now.log }
        ensures { result ≡ last_order customer (rows_of self.now).orders }
    {
        let Some(number) = self.tables().last_order(&customer) else {
            return None;
        };
        let key = customer.district_key().order(number);
        match self.order(&key) {
            Some(order) => Some((key, order)),
            None => self.last_read(customer),
        }
    }
}
