//! What the segments are in the theory's words. Each function has an empty body and carries one
//! law.
ghost use Rattle.oe_log.specs.Laws.{Calls_are_steps, Full_as_the_machine};

/// What each call makes of the segments is what the theory's steps make of the undo records, the
/// commits and their counts.
pub fn calls_are_steps()
    ensures { Calls_are_steps }
{}

/// The ring has no room for a record exactly where the theory says so of the machine whose records
/// lie in extents.
pub fn full_as_the_machine()
    ensures { Full_as_the_machine }
{}
