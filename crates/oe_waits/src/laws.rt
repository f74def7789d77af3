//! What the definitions of this crate promise. Each public function has an empty body and carries
//! one law.
ghost use Rattle.oe_waits.specs.Waits.{Someone_goes_on, Waiting_is_busy, Waits_are_chains};

/// A terminal waits exactly where its next Advance may be answered `Busy`.
pub fn waiting_is_busy()
    ensures { Waiting_is_busy }
{}

/// One terminal waits for another, at once or through others, exactly where a chain of waits leads
/// from the one to the other.
pub fn waits_are_chains()
    ensures { Waits_are_chains }
{}

/// Where something is open and there is no cycle of waits, some open transaction's next stage is
/// not `Busy`.
pub fn someone_goes_on()
    ensures { Someone_goes_on }
{}
