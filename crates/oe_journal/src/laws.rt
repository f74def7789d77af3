//! What the definitions of this crate promise. The function has an empty body and carries one law.
ghost use Rattle.oe_journal.specs.Identity.{Write_then_take_back_is_identity};

/// What `write` has made in any tables that meet the schema, `take_back` of one record takes back:
/// the rows of the nine tables, each key's link and the log are as before, and so is what customers
/// and orders are found by.
pub fn write_then_take_back_is_identity()
    ensures { Write_then_take_back_is_identity }
{}
