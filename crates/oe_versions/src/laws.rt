//! What of a row never changes, and what holds at each moment. Each function has an empty body and
//! carries one law.
ghost use Rattle.oe_versions.specs.Lasting.{Rows_last, Versions_meet};

/// What a row keeps at all moments: it stays where it was inserted, but for one of NEW-ORDER, and
/// one of HISTORY stays as it is; an order has its customer.
pub fn rows_last()
    ensures { Rows_last }
{}

/// The schema holds of the version of each moment (clauses 1.3 and 1.4).
pub fn versions_meet()
    ensures { Versions_meet }
{}
