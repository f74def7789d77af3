//! What the types of a request say: that its numbers and its name are in their ranges. All are
//! laws, and do nothing.
ghost use Rattle.oe_lines.specs.Grammar.{IsQuery};
ghost use Rattle.oe_terms.specs.Plans.{IsKnown};
ghost use Rattle.oe_load.specs.Loads.{HasWords};

use oe_admission::{choice_holds, district_holds, ranges_hold};
use oe_requests::Query;
use oe_terms::Asked;

fn query_holds(query: &Query)
    ensures { IsQuery query.now }
{
    match query {
        Query::Status(query) => {
            district_holds(&query.district);
            choice_holds(&query.customer);
        }
        Query::Level(query) => {
            district_holds(&query.district);
            let _threshold = query.threshold.get();
        }
    }
}

/// Says that what a terminal asks for is in its ranges.
pub(crate) fn asked_holds(asked: &Asked)
    requires { IsKnown asked.now }
    ensures { HasWords asked.now }
{
    match asked {
        Asked::Transaction(request) => ranges_hold(request),
        Asked::Query(query) => query_holds(query),
    }
}
