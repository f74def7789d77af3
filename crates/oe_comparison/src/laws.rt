//! What the definitions of differences amount to. The functions have empty bodies and carry laws.
ghost use Rattle.oe_comparison.specs.Counts.{Differences_are_counted};
ghost use Rattle.oe_comparison.specs.Often.{Histories_are_counted};
ghost use Rattle.oe_comparison.specs.Laws.{Rows_are_told_apart, Differences_are_first};

use oe_values::TableKey;

/// Two rows whose columns are in their ranges are the same row where no column differs: so a table
/// has the rows of its file where the report has no line about it.
pub fn rows_are_told_apart()
    ensures { Rows_are_told_apart }
{}

/// The walk finds no difference exactly where all rows of a table are the file's, and else the
/// first row that differs.
pub fn differences_are_first<K: TableKey>()
    ensures { Differences_are_first K.cmp }
{}

/// The walk finds as many differences as there are keys at which a file and a table differ, where the
/// keys of both ascend: so a report that names one row, and says that `N` more differ, speaks of
/// exactly `N + 1` keys.
pub fn differences_are_counted<K: TableKey>()
    ensures { Differences_are_counted K.cmp }
{}

/// Of HISTORY rows, which have no key in the standard, the walk finds one exactly as often as it
/// stands more often in the file, or in this order.
pub fn histories_are_counted()
    ensures { Histories_are_counted }
{}
