//! Sets of terminals, a bit for each, so that they are copied and take no memory.
ghost use Rattle.std.specs.Prelude.{◌≡◌, ◌==◌, ◌&&◌, ℕ, true, false, MatchOption, if◌then◌else◌};
ghost use Rattle.oe_locks.specs.Terminals.{has, IsLeast};

use oe_values::Terminal;
use std::marker::Model;

/// A set of terminals: a bit for each, from the first terminal on.
#[derive(Clone, Copy)]
pub struct TerminalSet {
    bits: u64,
}

impl Model for TerminalSet {
    ghost use Rattle.std.specs.Prelude.{ℕ};

    ghost Value = { ℕ };

    ghost view = { λ s. s.bits };

    ghost inverse = { λ n. record { bits = n } };
}

impl TerminalSet {
    /// Gives the set of no terminal.
    #[inline(always)]
    pub fn empty() -> TerminalSet
        ensures { (u : ℕ) → has result u ≡ false }
    {
        TerminalSet { bits: 0 }
    }

    /// Tells whether the terminal is in the set.
    #[inline(always)]
    pub fn has(&self, terminal: Terminal) -> bool
        ensures { result ≡ has self.now terminal }
    {
        self.bits >> (terminal.get() - 1) & 1 == 1
    }

    /// Gives the set with the terminal.
    #[inline(always)]
    pub fn with(&self, terminal: Terminal) -> TerminalSet
        ensures { (u : ℕ) → has result u ≡ (if u == terminal then true else has self.now u) }
    {
        TerminalSet {
            bits: self.bits | 1 << (terminal.get() - 1),
        }
    }

    /// Gives the set without the terminal.
    #[inline(always)]
    pub fn without(&self, terminal: Terminal) -> TerminalSet
        ensures { (u : ℕ) → has result u ≡ (if u == terminal then false else has self.now u) }
    {
        TerminalSet {
            bits: self.bits & !(1 << (terminal.get() - 1)),
        }
    }

    /// Gives the terminals that are in both sets.
    #[inline(always)]
    pub fn both(&self, other: TerminalSet) -> TerminalSet
        ensures { (u : ℕ) → has result u ≡ (has self.now u && has other u) }
    {
        TerminalSet {
            bits: self.bits & other.bits,
        }
    }

    /// Gives the least terminal of the set, if it has any.
    #[inline(always)]
    pub fn least(&self) -> Option<Terminal>
        ensures { MatchOption result ((u : ℕ) → has self.now u ≡ false) (IsLeast self.now) }
    {
        if self.bits == 0 {
            return None;
        }
        Terminal::new(self.bits.trailing_zeros() + 1)
    }
}
