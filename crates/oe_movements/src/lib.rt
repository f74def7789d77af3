//! What New-Order, Payment and Delivery keep beside the consistency conditions: counters of stock
//! and of customers, O_ALL_LOCAL and S_QUANTITY. Each public function has an empty body and carries
//! one law.
#![tactic(auto)]

ghost use Rattle.oe_movements.specs.Kept.{Movements_are_kept, Movements_hold_from_base, Population_has_movements};

/// Each whole effect, of a payment, of an order, of a delivery of one district or of ten, and of a
/// rename, keeps the seven movements.
pub fn movements_are_kept()
    ensures { Movements_are_kept }
{}

/// Where the seven movements hold of the base of a world, they hold of the version of each moment.
pub fn movements_hold_from_base()
    ensures { Movements_hold_from_base }
{}

/// The seven movements hold of the population by formula, at each scale.
pub fn population_has_movements()
    ensures { Population_has_movements }
{}
