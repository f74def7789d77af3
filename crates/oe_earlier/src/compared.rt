//! What is kept of earlier rows, and of those that are compared with them.
ghost use Rattle.oe_earlier.specs.Traces.{Traced};
ghost use Rattle.oe_earlier.specs.Keeping.{KeepsTraces, KeepsCompared, AreSettledCompared};

use crate::traces::Traces;

/// What is kept of earlier rows and of those now, in the order of their keys.
#[derive(Drop)]
pub struct Compared {
    pub before: Traces,
    pub current: Traces,
}

impl Compared {
    /// Puts what is kept of both in the order of their keys.
    pub fn of(before: Traces, current: Traces) -> Compared
        ensures keeps { (b n : Traced) → KeepsTraces b before → KeepsTraces n current
            → KeepsCompared b n result }
        ensures settled { AreSettledCompared result }
    {
        let mut before = before;
        let mut current = current;
        before.settle();
        current.settle();
        Compared { before, current }
    }
}
