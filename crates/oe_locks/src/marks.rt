//! Who may hold a name. Each name has one of 64 marks, by a number of its key, and for each mark a
//! set has the terminals that may hold a name with that mark. So most names ask no other terminal.
//!
//! By the invariant there is a set for each mark. Only `new` takes memory, and may be refused it.
ghost use Rattle.std.specs.Prelude.{◌≡◌, ◌<◌, ◌==◌, ◌&&◌, ℕ, true, false, IfOk, if◌then◌else◌};
ghost use Rattle.oe_locks.specs.Marks.{mark, may_hold};
ghost use Rattle.oe_locks.specs.Terminals.{has};

use crate::sets::TerminalSet;
use oe_rows::Name;
use oe_values::Terminal;
use std::alloc::{AllocError, Global};
use std::marker::Model;

/// How many marks there are.
const MARKS: u32 = 64;

/// By mark, the terminals that may hold a name with that mark.
#[derive(Drop)]
pub(crate) struct Holders {
    sets: Vec<TerminalSet>,
}

impl Model for Holders {
    ghost use Rattle.std.specs.Prelude.{◌≡◌, ℕ, List, length};

    ghost Value = { List ℕ };

    ghost view = { λ h. h.sets.items };

    ghost invariant = { λ h. length h.sets.items ≡ 64 };
}

/// Gives a name's mark, which is below 64, by a number of its key.
#[inline(always)]
#[tactic(auto, unfolding(crate::specs::Marks::mark))]
pub(crate) fn mark_of(name: &Name) -> u32
    ensures value { result ≡ mark name.now }
    ensures below { result < 64 }
{
    let number = match name {
        Name::Stock(key) => key.item.get(),
        Name::Customer(key) => key.customer.get(),
        Name::Order(key) => key.order.get(),
        Name::Warehouse(key) => key.warehouse.get(),
        Name::District(key) => 16 + key.district.get() + key.warehouse.get(),
        Name::Queue(key) => 32 + key.district.get() + key.warehouse.get(),
        Name::Names(key, _) => 48 + key.district.get() + key.warehouse.get(),
    };
    number % MARKS
}

impl Holders {
    /// Makes the sets, without a terminal. Memory is the only error.
    pub(crate) fn new(alloc: Global) -> Result<Self, AllocError>
        ensures { IfOk result (λ h. (k u : ℕ) → may_hold h k u ≡ false) }
    {
        Ok(Holders {
            sets: vec![in alloc; TerminalSet::empty(); MARKS as usize]?,
        })
    }

    /// Gives the terminals that may hold a name with that mark.
    #[inline(always)]
    pub(crate) fn of(&self, mark: u32) -> TerminalSet
        requires { mark < 64 }
        ensures { (u : ℕ) → has result u ≡ may_hold self.now mark u }
    {
        self.sets[mark as usize]
    }

    /// Notes that the terminal may hold a name with that mark.
    #[inline(always)]
    pub(crate) fn note(&mut self, mark: u32, terminal: Terminal)
        requires { mark < 64 }
        ensures { (k u : ℕ) → may_hold self.new k u
            ≡ (if (k == mark) && (u == terminal) then true else may_hold self.old k u) }
    {
        let place = mark as usize;
        self.sets[place] = self.sets[place].with(terminal);
    }

    /// Takes the terminal out of all sets.
    #[inline(never)]
    pub(crate) fn forget(&mut self, terminal: Terminal)
        ensures { (k u : ℕ) → may_hold self.new k u
            ≡ (if u == terminal then false else may_hold self.old k u) }
    {
        for place in 0..self.sets.len() {
            self.sets[place] = self.sets[place].without(terminal);
        }
    }
}
