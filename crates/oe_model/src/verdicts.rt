//! Laws of audits: the tests that verdicts are computed by are the standard's conditions, both
//! ways.
ghost use Rattle.oe_model.specs.Verdicts.{Tests_are_conditions, Verdicts_are_exact};

/// Each audit's test of a row is its condition at that row.
pub fn tests_are_conditions()
    ensures { Tests_are_conditions }
{}

/// An audit's verdict is that its condition holds, or the first row in key order at which it fails,
/// exactly.
pub fn verdicts_are_exact()
    ensures { Verdicts_are_exact }
{}
