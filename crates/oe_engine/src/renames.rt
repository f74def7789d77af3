//! Since when customers have had the names that they have, so that a read of a later moment finds
//! them as now. Who ends after a rename moves that moment to the newest. Nothing takes memory or
//! can fail.
ghost use Rattle.std.specs.Prelude.{◌≡◌, ◌↔◌, ℕ, IsTrue, false};
ghost use Rattle.oe_locks.specs.Terminals.{has};
ghost use Rattle.oe_writes.specs.Kinds.{is_rename};
ghost use Rattle.oe_engine.specs.Renames.{Notes, Forgets, HasStood};

use oe_locks::TerminalSet;
use oe_values::{Moment, Terminal};
use oe_writes::OneWrite;

/// The terminals whose open transactions may have renamed a customer, and a moment after which no
/// commit has.
#[derive(Clone, Copy)]
pub struct Renames {
    pub open: TerminalSet,
    pub since: Moment,
}

impl Renames {
    /// Gives what there is where nothing is open, and the newest moment is this one.
    pub fn none(moment: Moment) -> Self
        ensures open { (t : ℕ) → has result.open t ≡ false }
        ensures since { result.since ≡ moment }
    {
        Renames {
            open: TerminalSet::empty(),
            since: moment,
        }
    }

    /// Gives what there is once a terminal's transaction has made a write, or has tried to.
    #[inline(always)]
    pub fn noted<W: OneWrite>(self, terminal: Terminal, write: &W) -> Self
        ensures { Notes (W.write write.now) terminal self result }
    {
        if !write.is_rename() {
            return self;
        }
        Renames {
            open: self.open.with(terminal),
            since: self.since,
        }
    }

    /// Gives what there is once a terminal's transaction has ended, and the newest moment is this.
    #[inline(always)]
    pub fn ended(self, terminal: Terminal, newest: Moment) -> Self
        ensures { Forgets terminal newest self result }
    {
        if !self.open.has(terminal) {
            return self;
        }
        Renames {
            open: self.open.without(terminal),
            since: newest,
        }
    }

    /// Tells whether customers had the names at a moment that they have now.
    pub fn stand(&self, moment: Moment) -> bool
        ensures { IsTrue result ↔ HasStood self.now moment }
    {
        self.open.least().is_none() && self.since <= moment
    }
}
