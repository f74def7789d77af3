//! The customer that a last name meant at a moment, by first name and number as the standard counts
//! (clause 2.5.2.2). Nothing takes memory.
ghost use Rattle.std.specs.Prelude.{◌≡◌, IsTrue, Some, None, cond};
ghost use Rattle.std.specs.Ordering.{eq_by_cmp, nat_cmp};
ghost use Rattle.std.specs.Cmp.Lexicographic.{slice_cmp};
ghost use Rattle.std.specs.FinMap.{get};
ghost use Rattle.oe_model.specs.Choice.{namesakes, middle};
ghost use Rattle.oe_model.specs.Locks.{first_if_named};
ghost use Rattle.oe_store.specs.Places.{rows};
ghost use Rattle.oe_versions.specs.Versions.{rows_of, Stand};

use crate::moments::Version;
use oe_rows::{CustomerKey, CustomerName, DistrictKey, Key, Row};
use oe_values::{CustomerNumber, Text};
use std::cmp::Ordering;

/// Gives C_FIRST of a name with that C_LAST.
pub(crate) fn first_of(name: &CustomerName, last: &Text<0, 16>) -> Option<Text<0, 16>>
    ensures { result ≡ cond (eq_by_cmp (slice_cmp nat_cmp) name.now.last last.now)
        (Some name.now.first) None }
{
    if name.last.as_str().cmp(last.as_str()) == Ordering::Equal {
        return Some(name.first.copied());
    }
    None
}

/// Tells whether both are none, or the same text.
fn is_same(one: &Option<Text<0, 16>>, other: &Option<Text<0, 16>>) -> bool
    ensures { IsTrue result → one.now ≡ other.now }
{
    match one {
        Some(one) => match other {
            Some(other) => one == other,
            None => false,
        },
        None => other.is_none(),
    }
}

impl<'a> Version<'a> {
    /// Gives C_FIRST of a customer that had that C_LAST, by the row with its records put back.
    #[inline(never)]
    pub(crate) fn first_before(&self, key: &CustomerKey, last: &Text<0, 16>) -> Option<Text<0, 16>>
        ensures { result
            ≡ first_if_named last.now (get (rows_of self.now).customers key.now) }
    {
        match self.row(&Key::Customer(*key)) {
            Some(Row::Customer(row)) => first_of(&row.name, last),
            _ => None,
        }
    }

    /// Gives C_FIRST of a customer that has that C_LAST now.
    fn first_now(&self, key: &CustomerKey, last: &Text<0, 16>) -> Option<Text<0, 16>>
        ensures { result
            ≡ first_if_named last.now (get (rows self.now.tables).customers key.now) }
    {
        match self.tables().customer(*key) {
            Some(row) => first_of(&row.name, last),
            None => None,
        }
    }

    /// Tells whether a customer's key had that C_LAST with the same C_FIRST as now, or had not and
    /// has not that C_LAST. Where it has no later record, neither its row nor a record is read.
    #[tactic(auto, using(crate::proofs::NameFacts::name_stands))]
    fn keeps_name(&self, key: &CustomerKey, last: &Text<0, 16>) -> bool
        ensures { IsTrue result
            → first_if_named last.now (get (rows_of self.now).customers key.now)
            ≡ first_if_named last.now (get (rows self.now.tables).customers key.now) }
    {
        if self.stands(&Key::Customer(*key)) {
            return true;
        }
        is_same(&self.first_before(key, last), &self.first_now(key, last))
    }

    /// Tells whether a district's customers of a last name are those that there were, by each
    /// key's link, and no row of a key without a later record.
    fn keeps_names(&self, district: &DistrictKey, last: &Text<0, 16>) -> bool
        requires { Stand self.now.tables self.now.log }
        ensures { IsTrue result
            → namesakes district.now last.now (rows_of self.now).customers
            ≡ namesakes district.now last.now (rows self.now.tables).customers }
    {
        self.tables().numbers_hold();
        for number in 1..3_001u32 {
            let Some(customer) = CustomerNumber::new(number) else {
                unreachable!();
            };
            if !self.keeps_name(&district.customer(customer), last) {
                return false;
            }
        }
        true
    }

    /// Gives C_ID of the customer of a district and last name in position n / 2, rounded up, of the
    /// n that there were, by C_FIRST and where that ties by C_ID (clauses 2.5.2.2 and 2.6.2.2).
    ///
    /// A name rarely changes, so it is mostly the customer whom the name means now. Where that is
    /// not known, each of the district's customers is asked; where somebody has been given or has
    /// lost the name since, it walks over them.
    pub fn customer_named(
        &self,
        district: &DistrictKey,
        last: &Text<0, 16>,
    ) -> Option<CustomerNumber>
        requires { Stand self.now.tables self.now.log }
        ensures { result
            ≡ middle (namesakes district.now last.now (rows_of self.now).customers) }
    {
        if self.names_stand || self.keeps_names(district, last) {
            return self.tables().middle(district, last);
        }
        self.middle_before(district, last)
    }
}
