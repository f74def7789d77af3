//! The eighth and ninth consistency conditions: what was paid in a warehouse, and in a district.
//!
//! HISTORY has no order by place, so each warehouse and each district is a walk of its own over all
//! of its rows.
ghost use Rattle.std.specs.Prelude.{◌≡◌, ◌==◌, ◌&&◌};
ghost use Rattle.oe_model.specs.Audits.{Eighth, Ninth};
ghost use Rattle.oe_store.specs.Places.{rows};
ghost use Rattle.oe_rows_of.specs.Then.{has_row_then, ArePassed};
ghost use Rattle.oe_audit.specs.Payments.{is_in, paid_in, amount_in};
ghost use Rattle.oe_audit.specs.Verdict.{IsVerdict};

use oe_requests::Verdict;
use oe_rows::{DistrictKey, History, HistoryKey, Key, WarehouseKey};
use oe_rows_of::RowsOf;
use oe_values::YearToDate;
use std::cmp::Ordering;

/// Where a payment is made: a warehouse, or a district.
#[derive(Drop)]
pub(crate) enum Place {
    Warehouse(WarehouseKey),
    District(DistrictKey),
}

/// Tells whether a payment in the district is one in the place.
fn is_in(place: &Place, district: &DistrictKey) -> bool
    ensures { result ≡ is_in place.now district.now }
{
    match place {
        Place::Warehouse(own) => district.warehouse_key().cmp(own) == Ordering::Equal,
        Place::District(own) => district.cmp(own) == Ordering::Equal,
    }
}

/// Tells whether a HISTORY row stood then, and is of a payment in the place.
fn counts<R: RowsOf>(then: &R, place: &Place, key: &HistoryKey, row: &History) -> bool
    ensures { result ≡ (is_in place.now row.now.district
        && has_row_then (R.are_now then.now) (R.rows_of then.now).histories key.now) }
{
    is_in(place, &row.district) && then.has_history(key)
}

/// Gives H_AMOUNT of a HISTORY row that counts, and 0 of another.
fn amount_in<R: RowsOf>(then: &R, place: &Place, key: &HistoryKey, row: &History) -> u64
    ensures { result ≡ amount_in place.now (R.are_now then.now) (R.rows_of then.now).histories
        (key.now, row.now) }
{
    if !counts(then, place, key, row) {
        return 0;
    }
    row.amount.cents()
}

/// Tells whether this is the sum of H_AMOUNT of the payments in the place (clauses 3.3.2.8 and
/// 3.3.2.9).
///
/// What was paid is taken away from the sum, so that no sum leaves its range.
fn passes_paid<R: RowsOf>(then: &R, place: &Place, ytd: YearToDate) -> bool
    requires { ArePassed (R.rows_of then.now) (rows (R.tables_of then.now)) }
    ensures { result ≡ (ytd == paid_in (R.rows_of then.now) place.now) }
{
    let mut rest = ytd.cents();
    for (key, row) in then.tables().histories() {
        let amount = amount_in(then, place, key, row);
        let Some(less) = rest.checked_sub(amount) else {
            return false;
        };
        rest = less;
    }
    rest == 0
}

/// Gives the verdict of the eighth condition (clause 3.3.2.8).
pub(crate) fn eighth<R: RowsOf>(then: &R) -> Verdict
    requires { ArePassed (R.rows_of then.now) (rows (R.tables_of then.now)) }
    ensures { IsVerdict Eighth (R.rows_of then.now) result }
{
    for (key, row) in then.tables().warehouses() {
        match then.warehouse_ytd(key, row) {
            Some(ytd) => {
                if !passes_paid(then, &Place::Warehouse(*key), ytd) {
                    return Verdict::Fails(Key::Warehouse(*key));
                }
            }
            None => {}
        }
    }
    Verdict::Holds
}

/// Gives the verdict of the ninth condition (clause 3.3.2.9).
pub(crate) fn ninth<R: RowsOf>(then: &R) -> Verdict
    requires { ArePassed (R.rows_of then.now) (rows (R.tables_of then.now)) }
    ensures { IsVerdict Ninth (R.rows_of then.now) result }
{
    for (key, row) in then.tables().districts() {
        match then.district_ytd(key, row) {
            Some(ytd) => {
                if !passes_paid(then, &Place::District(*key), ytd) {
                    return Verdict::Fails(Key::District(*key));
                }
            }
            None => {}
        }
    }
    Verdict::Holds
}
