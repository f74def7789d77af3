//! How many lines the replies have to hold. The function does nothing: it carries the laws.
ghost use Rattle.oe_model.specs.Rows.{Rows};
ghost use Rattle.oe_store.specs.Places.{rows};
ghost use Rattle.oe_rows_of.specs.Then.{ArePassed};
ghost use Rattle.oe_enquiry.specs.Few.{Orders_are_short, Recent_are_few, Levels_are_small};

use oe_store::Tables;

/// States that in any rows which a walk of the tables passes, as those of each moment, an order has
/// at most 15 lines, and a district's last 20 orders have at most 300, since the numbers in the
/// keys of rows are in their ranges (clause 1.3.1); so Stock-Level counts at most 300 items.
pub fn lines_are_few(tables: &Tables)
    ensures orders { (past : Rows) → ArePassed past (rows tables.now) → Orders_are_short past }
    ensures recent { (past : Rows) → ArePassed past (rows tables.now) → Recent_are_few past }
    ensures levels { (past : Rows) → ArePassed past (rows tables.now) → Levels_are_small past }
{
    tables.numbers_hold();
}
