//! What the definitions of this crate promise. The function has an empty body and carries the law.
ghost use Rattle.oe_layout.specs.Laws.{Lengths_are_sums};

/// The images of keys, rows and records are as long as their columns say, a sum of widths and of
/// the lengths of texts.
pub fn lengths_are_sums()
    ensures { Lengths_are_sums }
{}
