//! The customers of a district and last name as they stood at a moment. Rows of customers stay, so
//! each of them stands now; a walk over these takes each one's name of the moment.
ghost use Rattle.std.specs.Prelude.{◌≡◌, ◌==◌, ◌≤◌, ◌+◌, ◌/◌, Some, count_by, length};
ghost use Rattle.std.specs.FinMap.{get};
ghost use Rattle.oe_model.specs.Choice.{namesakes, comes_before, middle};
ghost use Rattle.oe_model.specs.Locks.{first_if_named};
ghost use Rattle.oe_store.specs.Places.{rows};
ghost use Rattle.oe_versions.specs.Versions.{rows_of, Stand};

use crate::moments::Version;
use crate::names::first_of;
use oe_rows::{Customer, CustomerKey, DistrictKey, Key};
use oe_store::choices::is_before;
use oe_values::{CustomerNumber, Text};

/// How many customers of a last name there were, and how many of them came before one.
#[derive(Drop)]
struct Standing {
    count: u32,
    before: u32,
}

impl<'a> Version<'a> {
    /// Gives C_FIRST of a customer that had that C_LAST. `row` stands at the key.
    #[tactic(auto, using(crate::proofs::NameFacts::first_stands))]
    fn first_at(&self, key: &CustomerKey, row: &Customer, last: &Text<0, 16>) -> Option<Text<0, 16>>
        requires { get (rows self.now.tables).customers key.now ≡ Some row.now }
        ensures { result
            ≡ first_if_named last.now (get (rows_of self.now).customers key.now) }
    {
        if self.stands(&Key::Customer(*key)) {
            return first_of(&row.name, last);
        }
        self.first_before(key, last)
    }

    /// Tells how one stood among the customers of a district with that C_LAST.
    fn standing(
        &self,
        district: &DistrictKey,
        last: &Text<0, 16>,
        first: &Text<0, 16>,
        own: CustomerNumber,
    ) -> Standing
        requires { Stand self.now.tables self.now.log }
        ensures count { result.count ≡ length
            (namesakes district.now last.now (rows_of self.now).customers) }
        ensures before { result.before ≡ count_by (λ y. comes_before y (first.now, own))
            (namesakes district.now last.now (rows_of self.now).customers) }
        ensures few { (result.count ≤ 3_000) × (result.before ≤ 3_000) }
    {
        let mut count = 0u32;
        let mut before = 0u32;
        for (key, row) in self.tables().customers_of(*district) {
            let _number = key.customer.get();
            let found = self.first_at(key, row, last);
            if let Some(name) = found {
                count += 1;
                if is_before(&name, key.customer, first, own) {
                    before += 1;
                }
            }
        }
        Standing { count, before }
    }

    /// Tells whether that one was in the middle of them, rounded up.
    fn is_middle(
        &self,
        district: &DistrictKey,
        last: &Text<0, 16>,
        first: &Text<0, 16>,
        own: CustomerNumber,
    ) -> bool
        requires { Stand self.now.tables self.now.log }
        ensures { result ≡
            (count_by (λ y. comes_before y (first.now, own))
            (namesakes district.now last.now (rows_of self.now).customers) + 1 ==
            (length (namesakes district.now last.now (rows_of self.now).customers) + 1) / 2) }
    {
        let standing = self.standing(district, last, first, own);
        standing.before + 1 == (standing.count + 1) / 2
    }

    /// Gives C_ID of the customer in the middle, by the names of the moment, in one walk and a walk
    /// more for each of them up to that one.
    #[inline(never)]
    pub(crate) fn middle_before(
        &self,
        district: &DistrictKey,
        last: &Text<0, 16>,
    ) -> Option<CustomerNumber>
        requires { Stand self.now.tables self.now.log }
        ensures { result
            ≡ middle (namesakes district.now last.now (rows_of self.now).customers) }
    {
        for (key, row) in self.tables().customers_of(*district) {
            let found = self.first_at(key, row, last);
            if let Some(name) = found {
                if self.is_middle(district, last, &name, key.customer) {
                    return Some(key.customer);
                }
            }
        }
        None
    }
}
