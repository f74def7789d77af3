//! Consistency conditions 5 to 10 and 12 (clauses 3.3.2.5 to 3.3.2.10 and 3.3.2.12), kept by whole
//! transactions. Each public function has an empty body and carries one law.
#![tactic(auto)]

ghost use Rattle.oe_consistency.specs.Consistency.{Further_conditions_are_kept, More_holds_from_base, Population_has_more};

/// Each whole effect, of a payment, of an order, of a delivery of one district or of ten, and of a
/// rename, keeps the seven conditions.
pub fn further_conditions_are_kept()
    ensures { Further_conditions_are_kept }
{}

/// Where the seven conditions hold of the base of a world, they hold of the version of each moment.
pub fn more_holds_from_base()
    ensures { More_holds_from_base }
{}

/// The seven conditions hold of the population by formula, at each scale.
pub fn population_has_more()
    ensures { Population_has_more }
{}
