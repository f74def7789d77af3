//! A reading finds again what a write left. The function has an empty body and carries the law.
ghost use Rattle.oe_extent.specs.Laws.{Written_is_read};

/// The text of a write stands from its offset on, and a reading there finds its number or its run
/// again.
pub fn written_is_read()
    ensures { Written_is_read }
{}
