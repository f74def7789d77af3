//! The verdicts of the consistency conditions (clauses 3.3.2.1 to 3.3.2.10 and 3.3.2.12), of the
//! rows as they stand or stood at a moment.
ghost use Rattle.std.specs.Prelude.{◌≡◌};
ghost use Rattle.oe_model.specs.Audits.{First};
ghost use Rattle.oe_store.specs.Places.{rows};
ghost use Rattle.oe_rows_of.specs.Then.{ArePassed};
ghost use Rattle.oe_audit.specs.Walks.{model_condition, passes};
ghost use Rattle.oe_audit.specs.Verdict.{IsVerdict, IsAudited};

use crate::customers::{CustomerCondition, of_customers};
use crate::districts::{passes_fourth, passes_second, passes_third};
use crate::orders::{OrderCondition, of_orders, seventh};
use crate::payments::{eighth, ninth};
use crate::warehouses::passes_first;
use oe_requests::{Condition, Verdict};
use oe_rows::{DistrictKey, Key};
use oe_rows_of::RowsOf;
use oe_store::Tables;
use oe_values::OrderNumber;

/// The conditions that are asked of each district.
pub(crate) enum DistrictCondition {
    Second,
    Third,
    Fourth,
}

/// Gives the verdict of the first condition (clause 3.3.2.1).
fn first<R: RowsOf>(then: &R) -> Verdict
    requires { ArePassed (R.rows_of then.now) (rows (R.tables_of then.now)) }
    ensures { IsVerdict First (R.rows_of then.now) result }
{
    for (key, row) in then.tables().warehouses() {
        match then.warehouse_ytd(key, row) {
            Some(ytd) => {
                if !passes_first(then, key, ytd) {
                    return Verdict::Fails(Key::Warehouse(*key));
                }
            }
            None => {}
        }
    }
    Verdict::Holds
}

/// Tells whether a district with this D_NEXT_O_ID passes a condition.
fn passes<R: RowsOf>(
    condition: &DistrictCondition,
    then: &R,
    key: &DistrictKey,
    next_order: OrderNumber,
) -> bool
    requires { ArePassed (R.rows_of then.now) (rows (R.tables_of then.now)) }
    ensures { result ≡ passes condition.now (R.rows_of then.now) key.now next_order }
{
    match condition {
        DistrictCondition::Second => passes_second(then, key, next_order),
        DistrictCondition::Third => passes_third(then, key),
        DistrictCondition::Fourth => passes_fourth(then, key),
    }
}

/// Gives the verdict of a condition of districts (clauses 3.3.2.2 to 3.3.2.4).
fn of_districts<R: RowsOf>(condition: &DistrictCondition, then: &R) -> Verdict
    requires { ArePassed (R.rows_of then.now) (rows (R.tables_of then.now)) }
    ensures { IsVerdict (model_condition condition.now) (R.rows_of then.now) result }
{
    for (key, row) in then.tables().districts() {
        match then.next_order(key, row) {
            Some(next_order) => {
                if !passes(condition, then, key, next_order) {
                    return Verdict::Fails(Key::District(*key));
                }
            }
            None => {}
        }
    }
    Verdict::Holds
}

/// Gives the verdict of a condition, found row by row.
fn found<R: RowsOf>(number: Condition, then: &R) -> Verdict
    requires { ArePassed (R.rows_of then.now) (rows (R.tables_of then.now)) }
    ensures { IsAudited number (R.rows_of then.now) result }
{
    match number {
        Condition::First => first(then),
        Condition::Second => of_districts(&DistrictCondition::Second, then),
        Condition::Third => of_districts(&DistrictCondition::Third, then),
        Condition::Fourth => of_districts(&DistrictCondition::Fourth, then),
        Condition::Fifth => of_orders(&OrderCondition::Fifth, then),
        Condition::Sixth => of_orders(&OrderCondition::Sixth, then),
        Condition::Seventh => seventh(then),
        Condition::Eighth => eighth(then),
        Condition::Ninth => ninth(then),
        Condition::Tenth => of_customers(&CustomerCondition::Tenth, then),
        Condition::Twelfth => of_customers(&CustomerCondition::Twelfth, then),
    }
}

/// Gives the verdict of a consistency condition: that it holds, or the first row, in key order, at
/// which it fails. That is a WAREHOUSE row for conditions 1 and 8, a DISTRICT row for 2, 3, 4 and
/// 9, an ORDER row for 5 and 6, an ORDER-LINE row for 7, and a CUSTOMER row for 10 and 12; a
/// district without an order fails the second.
///
/// Each audit walks the rows that it concerns once, but HISTORY rows once for each warehouse or
/// district. It takes no memory.
pub fn condition(number: Condition, tables: &Tables) -> Verdict
    ensures { IsAudited number (rows tables.now) result }
{
    tables.schema_holds();
    found(number, tables)
}

/// Gives the verdict of a consistency condition on the rows of now or of a moment. Of a moment it
/// is what `condition` would have given when that was the newest, whatever has been open or
/// committed since: that it held, or the first row, in key order, at which it failed. Nothing is
/// asked of the rows but that a walk of today's passes each of them, so that only a look at them
/// tells the verdict.
///
/// It takes no memory. It walks the rows that it concerns once, and goes for each along its key's
/// records that are open or of commits after the moment. If nothing is open and no commit is later,
/// it is `condition`.
pub fn condition_at<R: RowsOf>(number: Condition, then: &R) -> Verdict
    requires { ArePassed (R.rows_of then.now) (rows (R.tables_of then.now)) }
    ensures { IsAudited number (R.rows_of then.now) result }
{
    if then.is_settled() {
        return condition(number, then.tables());
    }
    found(number, then)
}
