//! Consistency condition 1 (clause 3.3.2.1) at a warehouse, in the tables or in a version.
ghost use Rattle.std.specs.Prelude.{◌≡◌};
ghost use Rattle.oe_store.specs.Places.{rows};
ghost use Rattle.oe_rows_of.specs.Then.{ArePassed};
ghost use Rattle.oe_audit.specs.Tests.{is_summed};

use oe_rows::WarehouseKey;
use oe_rows_of::RowsOf;
use oe_values::YearToDate;

/// Tells whether W_YTD is the sum of the D_YTD of the warehouse's districts (clause 3.3.2.1).
///
/// What the districts took is taken away from W_YTD, so that no sum leaves its range.
pub(crate) fn passes_first<R: RowsOf>(then: &R, key: &WarehouseKey, ytd: YearToDate) -> bool
    requires { ArePassed (R.rows_of then.now) (rows (R.tables_of then.now)) }
    ensures { result ≡ is_summed (R.rows_of then.now) key.now ytd }
{
    let mut rest = ytd.cents();
    for (district, row) in then.tables().districts_of(*key) {
        match then.district_ytd(district, row) {
            Some(taken) => {
                let Some(less) = rest.checked_sub(taken.cents()) else {
                    return false;
                };
                rest = less;
            }
            None => {}
        }
    }
    rest == 0
}
