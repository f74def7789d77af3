//! What tells the values of one shop from those of another.
ghost use Rattle.oe_hall.specs.Naming.{TheNames, nameless};

use std::marker::Brand;

/// Names a shop: its words, its history, its three ledgers, the layout of its undo records, and the
/// world from which it opened. The hall, the front and the desks of one shop are of one type, and
/// the hall, the front and the desks of another shop are of another type.
pub trait Naming {
    ghost names: { TheNames };
}

impl Naming for Brand {
    ghost names = { nameless };
}
