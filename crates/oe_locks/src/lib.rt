//! A lock manager that never waits. A terminal has at most one transaction, so the holders of a
//! name are terminals. Two of them conflict on a name where at least one of their modes is
//! exclusive.
//!
//! Each terminal has a map from the names that it holds to their modes, in the order in which it
//! took them, and nothing else says who holds what. Memory is wanted only for a name that a
//! terminal does not hold yet. Who is in the way is looked for in the maps of those others that
//! hold something and may hold a name with this one's mark.
#![tactic(auto)]

ghost use Rattle.std.specs.Prelude.{◌≡◌, ◌≢◌, [], ℕ, MatchOption, OnOk, OnErr, IfOk, IfErr, IsSome, Some, None, true};
ghost use Rattle.oe_requests.specs.declared.refusals.Refusal.TheVariants.{NoMemory};
ghost use Rattle.oe_locks.specs.Held.{go_together, mode_held, names_of, IsIdle, IsFreeFor, IsInTheWay, IsFirstAmong, Takes, GivesBack, HoldsNothing, OthersKeep, IsCause, IsBelow};
ghost use Rattle.oe_locks.specs.Terminals.{has};
ghost use Rattle.oe_locks.specs.Listed.{given_back_names, taken_names, AreOnce, IsListed, OthersKeepNames};

mod asks;
mod hashes;
mod held;
mod marks;
mod sets;

pub use asks::Lock;
use held::Held;
use marks::{Holders, mark_of};
use oe_requests::Refusal;
use oe_rows::{Mode, Name};
use oe_values::{PerTerminal, TERMINALS, Terminal};
pub use sets::TerminalSet;
use std::alloc::{AllocError, Global};
use std::marker::Model;

/// Which terminals hold which names, each in a mode: shared or exclusive.
#[derive(Drop)]
pub struct Locks {
    // What each terminal holds, in the order in which it took the names.
    held: PerTerminal<Held>,
    // The terminals that may hold a name. No other one does.
    busy: TerminalSet,
    // By mark, the terminals that may hold a name with that mark. No other one does. Those that
    // held names while nobody else did are left in.
    holders: Holders,
}

impl Model for Locks {
    ghost use Rattle.oe_locks.specs.Held.{Holdings, AreBusy};
    ghost use Rattle.oe_locks.specs.Marks.{AreNoted};

    ghost Value = { Holdings };

    ghost view = { λ s. s.held };

    ghost invariant = { λ s. AreBusy s.busy s.held × AreNoted s.holders s.held };
}

impl Locks {
    /// Makes the maps of all terminals, with no name held. Memory is the only error.
    pub fn new(alloc: Global) -> Result<Self, AllocError>
        ensures { IfOk result IsIdle }
    {
        let mut held = Vec::with_capacity(alloc, TERMINALS as usize + 1)?;
        for _ in 0..TERMINALS + 1 {
            held.push(Held::new(alloc))?;
        }
        Ok(Locks {
            held: PerTerminal::of(held),
            busy: TerminalSet::empty(),
            holders: Holders::new(alloc)?,
        })
    }

    /// Lets go of the locks. A crate above that let them go out of scope would prove the drop of
    /// each of their parts again.
    pub fn discard(self) {
        drop(self);
    }

    /// Gives the mode in which the terminal holds the name, or `None` where it does not hold it.
    #[inline]
    pub fn holds(&self, name: &Name, terminal: Terminal) -> Option<Mode>
        ensures { result ≡ mode_held self.now terminal name.now }
    {
        self.held.at(terminal).mode(name)
    }

    // Gives the least of those terminals that holds the name in a mode that conflicts.
    #[inline(never)]
    fn least_in_the_way(&self, name: &Name, others: TerminalSet, mode: Mode) -> Option<Terminal>
        ensures { MatchOption result
            ((u : ℕ) → has others u ≡ true → go_together mode (mode_held self.now u name.now)
            ≡ true)
            (IsFirstAmong self.now others name.now mode) }
    {
        let mut left = others;
        while let Some(other) = left.least() {
            left = left.without(other);
            if self.held.at(other).conflicts(name, mode) {
                return Some(other);
            }
        }
        None
    }

    /// Gives the least other terminal that holds the name in a mode that conflicts. Takes no
    /// memory.
    #[inline(always)]
    pub fn in_the_way(&self, name: &Name, terminal: Terminal, mode: Mode) -> Option<Terminal>
        ensures { MatchOption result
            (IsFreeFor self.now terminal name.now mode)
            (IsInTheWay self.now terminal name.now mode) }
    {
        let others = self.busy.without(terminal);
        others.least()?;
        let asked = others.both(self.holders.of(mark_of(name)));
        self.least_in_the_way(name, asked, mode)
    }

    /// Lends the names that the terminal holds, in the order in which it took them.
    pub fn names(&self, terminal: Terminal) -> &[Name]
        ensures exact { result.now ≡ names_of self.now terminal }
        ensures listed { IsListed self.now terminal result.now }
        ensures once { AreOnce result.now }
    {
        self.held.at(terminal).names()
    }

    /// Takes the name for the terminal, or raises the mode in which the terminal holds it, where
    /// nobody is in the way, and answers the mode in which the terminal held it before, or `None`
    /// where it did not hold it. A mode is never lowered. A new name goes behind those that the
    /// terminal holds, and one that it holds keeps its place.
    ///
    /// `Busy` names the least other terminal that holds the name in a mode that conflicts.
    /// `NoMemory` comes only where nobody does, and the terminal does not hold the name yet in any
    /// mode. After an error nothing has changed.
    #[inline(always)]
    pub fn acquire(
        &mut self,
        name: Name,
        terminal: Terminal,
        mode: Mode,
    ) -> Result<Option<Mode>, Refusal>
        ensures before { IfOk result (λ was. was ≡ mode_held self.old terminal name) }
        ensures free { OnOk result (IsFreeFor self.old terminal name mode) }
        ensures own { OnOk result (Takes self.old self.new terminal name mode) }
        ensures others { OnOk result (OthersKeep self.old self.new terminal) }
        ensures order { OnOk result (names_of self.new terminal
            ≡ taken_names (names_of self.old terminal) name) }
        ensures others_order { OnOk result (OthersKeepNames self.old self.new terminal) }
        ensures cause { IfErr result (IsCause self.old terminal name mode) }
        ensures err { OnErr result (self.new ≡ self.old) }
    {
        if let Some(holder) = self.in_the_way(&name, terminal, mode) {
            return Err(Refusal::Busy(name, holder));
        }
        self.busy = self.busy.with(terminal);
        self.holders.note(mark_of(&name), terminal);
        let Ok(was) = self.held.at_mut(terminal).take(&name, mode) else {
            return Err(Refusal::NoMemory);
        };
        Ok(was)
    }

    /// Lowers the mode in which the terminal holds the name, or with `None` lets go of the name.
    /// Takes no memory.
    pub fn give_back(&mut self, name: Name, terminal: Terminal, mode: Option<Mode>)
        requires { IsBelow mode (mode_held self.old terminal name) }
        ensures own { GivesBack self.old self.new terminal name mode }
        ensures others { OthersKeep self.old self.new terminal }
        ensures order { names_of self.new terminal
            ≡ given_back_names (names_of self.old terminal) name mode }
        ensures others_order { OthersKeepNames self.old self.new terminal }
    {
        self.held.at_mut(terminal).give_back(&name, mode);
    }

    /// Lets go of all names of the terminal. Takes no memory, and keeps their room for next names.
    /// What it costs grows with the names that the terminal holds.
    pub fn release_all(&mut self, terminal: Terminal)
        ensures own { HoldsNothing self.new terminal }
        ensures others { OthersKeep self.old self.new terminal }
        ensures order { names_of self.new terminal ≡ [] }
        ensures others_order { OthersKeepNames self.old self.new terminal }
    {
        self.held.at_mut(terminal).clear();
        self.busy = self.busy.without(terminal);
        self.forget(terminal);
    }

    // Takes a terminal that holds nothing out of the sets, unless nobody holds anything.
    #[inline(always)]
    fn forget(&mut self, terminal: Terminal)
        requires { HoldsNothing self.old terminal }
        ensures { self.new ≡ self.old }
    {
        if self.busy.least().is_some() {
            self.holders.forget(terminal);
        }
    }
}
