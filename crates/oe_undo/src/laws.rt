//! What keeps chains, and what a key without records is known by. Each function has an empty body
//! and carries one law.
ghost use Rattle.oe_undo.specs.Laws.{Calls_keep_chains, Ends_without_records, Moments_begin_at_one};

/// Each call of a log keeps the chains, where the links of keys are set so.
pub fn calls_keep_chains()
    ensures { Calls_keep_chains }
{}

/// A key whose link ends at the horizon has no record left, and no other key has none.
pub fn ends_without_records()
    ensures { Ends_without_records }
{}

/// A link with moment 0 is none, and no key's link has that moment: commits begin at moment 1.
pub fn moments_begin_at_one()
    ensures { Moments_begin_at_one }
{}
