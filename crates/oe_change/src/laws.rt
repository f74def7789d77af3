//! What the definitions of this crate promise. Each function has an empty body and carries one law.
ghost use Rattle.oe_change.specs.Laws.{Apply_then_undo_is_identity, What_was_applied_can_be_undone, Changes_are_told_apart, Records_are_told_apart};

/// A change and its undo leave every table as it was, for any tables; where other rows changed in
/// between, those stay.
pub fn apply_then_undo_is_identity()
    ensures { Apply_then_undo_is_identity }
{}

/// What `apply` answers may be given to `undo`, at once and later.
pub fn what_was_applied_can_be_undone()
    ensures { What_was_applied_can_be_undone }
{}

/// Two changes that stand for one change of the model are equal.
pub fn changes_are_told_apart()
    ensures { Changes_are_told_apart }
{}

/// Two undo records that stand for one of the model are equal.
pub fn records_are_told_apart()
    ensures { Records_are_told_apart }
{}
