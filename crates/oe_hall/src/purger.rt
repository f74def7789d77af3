//! Who purges. Its calls stand in the history under number 0, which is no terminal's.
ghost use Rattle.std.specs.Prelude.{◌≡◌};
ghost use Rattle.oe_hall.specs.Histories.{HasHappened};
ghost use Rattle.oe_hall.specs.Desks.{APurge};

use crate::naming::Naming;
use crate::shop::{Front, enter};
use oe_history::Caller;
use oe_machine::Machine;
use oe_values::Moment;
use std::marker::{Model, PhantomData};
use std::sync::Wait;

/// The purger of a shop.
#[derive(Drop)]
pub struct Purger<J: Naming> {
    pub(crate) caller: Caller,
    pub(crate) of: PhantomData<J>,
}

impl<J: Naming> Model for Purger<J> {
    ghost use Rattle.std.specs.Prelude.{◌≡◌};
    ghost use Rattle.oe_history.specs.Calls.{TheCaller};
    ghost use Rattle.oe_hall.specs.Histories.{HasHappened};

    ghost Value = { TheCaller };

    ghost view = { λ p. p.caller };

    ghost invariant = { λ p. (p.caller.table ≡ J.names.history) × (p.caller.by ≡ 0)
        × HasHappened J.names.opened p.caller.seen };
}

impl<J: Naming> Purger<J> {
    /// Purges up to a moment, no further than the newest and each pin, and gives the horizon.
    pub fn purge<M: Machine, W: Wait>(
        &mut self,
        rt: &W,
        front: &Front<J, M>,
        moment: Moment,
    ) -> Moment
        ensures turn { APurge M.world front.now self.old moment result self.new }
        ensures run { HasHappened J.names.opened self.new.seen }
    {
        enter(rt, &front.hall).purge(&mut self.caller, moment)
    }
}
