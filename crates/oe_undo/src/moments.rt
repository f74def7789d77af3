//! The moments at which each terminal's kept commits were made, the newest first, by which a
//! record's owner is dated. Room for the next commit is taken as its transaction begins.
ghost use Rattle.std.specs.Prelude.{◌≡◌, ◌+◌, ◌-◌, ◌≤◌, ◌∷◌, [], length, take, drop, slice_get, IfOk, OnOk};
ghost use Rattle.oe_undo.specs.Owners.{AreIdle};

use oe_values::numbers::TERMINALS;
use oe_values::{Moment, NoMemory, PerTerminal};
use std::alloc::Global;
use std::collections::VecDeque;
use std::marker::Model;

/// The moments of a terminal's commits that are kept, the newest first, and for how many more there
/// is room.
#[derive(Drop)]
pub(crate) struct TerminalMoments {
    newest_first: VecDeque<Moment>,
}

impl Model for TerminalMoments {
    ghost use Rattle.std.specs.Prelude.{◌-◌};
    ghost use Rattle.std.specs.VecDeque.{deque_len, deque_capacity};
    ghost use Rattle.oe_undo.specs.Owners.{MomentList};

    ghost Value = { MomentList };

    ghost view = { λ m. record {
      moments = m.newest_first.items;
      room = deque_capacity m.newest_first - deque_len m.newest_first;
    } };
}

impl TerminalMoments {
    /// Makes an empty list.
    fn new(alloc: Global) -> Self
        ensures { result.moments ≡ [] }
    {
        TerminalMoments {
            newest_first: VecDeque::new(alloc),
        }
    }

    /// Takes the memory for one more; `NoMemory` where that was refused.
    pub(crate) fn reserve(&mut self) -> Result<(), NoMemory>
        ensures moments { self.new.moments ≡ self.old.moments }
        ensures room { OnOk result (1 ≤ self.new.room) }
    {
        match self.newest_first.reserve(1) {
            Ok(()) => Ok(()),
            Err(_refused) => Err(NoMemory),
        }
    }

    /// Adds the newest commit's moment. It takes no memory.
    pub(crate) fn commit(&mut self, moment: Moment)
        requires { 1 ≤ self.old.room }
        ensures { self.new.moments ≡ moment ∷ self.old.moments }
    {
        self.newest_first.push_front_reserved(moment);
    }

    /// Takes off the newest commit's moment, whose room is free again.
    pub(crate) fn take_back(&mut self)
        ensures moments { self.new.moments ≡ drop 1 self.old.moments }
        ensures room { self.new.room + length self.new.moments
            ≡ self.old.room + length self.old.moments }
    {
        let _newest = self.newest_first.pop_front();
    }

    /// Takes off the oldest commit's moment.
    pub(crate) fn forget_oldest(&mut self)
        ensures moments { self.new.moments
            ≡ take (length self.old.moments - 1) self.old.moments }
        ensures room { self.old.room ≤ self.new.room }
    {
        let _oldest = self.newest_first.pop_back();
    }

    /// Answers the moment of the commit with `later` later ones; none where that commit is not
    /// kept.
    #[inline(always)]
    pub(crate) fn at(&self, later: usize) -> Option<Moment>
        ensures { result ≡ slice_get self.now.moments later }
    {
        match self.newest_first.get(later) {
            Some(moment) => Some(*moment),
            None => None,
        }
    }
}

/// Makes the terminals before anything was committed; `NoMemory` where memory was refused.
pub(crate) fn idle_moments(alloc: Global) -> Result<PerTerminal<TerminalMoments>, NoMemory>
    ensures { IfOk result AreIdle }
{
    let Ok(mut terminals) = Vec::with_capacity(alloc, TERMINALS as usize + 1) else {
        return Err(NoMemory);
    };
    for _ in 0..TERMINALS + 1 {
        terminals.push_reserved(TerminalMoments::new(alloc));
    }
    Ok(PerTerminal::of(terminals))
}
