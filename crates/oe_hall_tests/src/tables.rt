//! Tables that are compared.

use oe_report::are_same;
use oe_store::Tables;

/// Tells whether tables have the same rows, and lets go of the tables.
pub(crate) fn is_same(left: Tables, right: Tables) -> bool {
    let same = are_same(&left, &right);
    left.discard();
    right.discard();
    same
}
