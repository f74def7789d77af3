//! That an audit's checks over facts are the conditions of the model: on the facts of any rows, in
//! any order, a check finds nothing exactly where its condition holds. Each public function has an
//! empty body and carries one law.
#![tactic(auto)]

ghost use Rattle.oe_fact_laws.specs.FactLaws.{Schema_is_checked, Conditions_are_checked, Movements_are_checked, Lists_are_findings, Orders_have_no_gap};

/// The checks of references and of stocks find nothing exactly where each reference finds its row,
/// and each warehouse has a STOCK row for each item; the checks of keys find nothing.
pub fn schema_is_checked()
    ensures { Schema_is_checked }
{}

/// The checks of conditions 1 to 10 and 12 find nothing exactly where the conditions hold.
pub fn conditions_are_checked()
    ensures { Conditions_are_checked }
{}

/// The checks of the seven movements find nothing exactly where these hold.
pub fn movements_are_checked()
    ensures { Movements_are_checked }
{}

/// The list that a check of `oe_checks` gives is empty exactly where the check finds nothing.
pub fn lists_are_findings()
    ensures { Lists_are_findings }
{}

/// Where ORDER keys stand once, and the greatest O_ID of a district is the number of its ORDER
/// rows, its orders are numbered from 1 on without a gap.
pub fn orders_have_no_gap()
    ensures { Orders_have_no_gap }
{}
