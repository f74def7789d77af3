//! What is kept for each terminal, by its number. Only `empty_slots` takes memory, and may be
//! refused it.
ghost use Rattle.std.specs.Prelude.{◌≡◌, ◌≤◌, suc, None, IfOk, length, replicate, vec_len, slice_index_or};
ghost use Rattle.std.specs.Borrow.{sem};
ghost use Rattle.oe_values.specs.declared.numbers.TheConstants.{TERMINALS};

use crate::numbers::{TERMINALS, Terminal};
use std::alloc::{AllocError, Global};
use std::marker::Model;

/// One element for each number from 0, which is nobody's, to 64, the last terminal's.
#[derive(Drop)]
pub struct PerTerminal<T> {
    items: Vec<T>,
}

impl<T> Model for PerTerminal<T> {
    ghost use Rattle.std.specs.Prelude.{◌≡◌, List, suc, vec_len};
    ghost use Rattle.oe_values.specs.declared.numbers.TheConstants.{TERMINALS};

    ghost Value = { List T };

    ghost view = { λ p. p.items.items };

    ghost invariant = { λ p. vec_len p.items ≡ suc TERMINALS };
}

impl<T> PerTerminal<T> {
    ghost use Rattle.oe_values.specs.TerminalsLend.{lends_at};

    /// Keeps these 65 elements.
    #[inline(always)]
    pub fn of(items: Vec<T>) -> Self
        requires { vec_len items ≡ suc TERMINALS }
        ensures { result ≡ items.items }
    {
        PerTerminal { items }
    }

    /// Gives the elements back, nobody's first.
    #[inline(always)]
    pub fn into_items(self) -> Vec<T>
        ensures items { result.items ≡ self }
        ensures size { vec_len result ≡ suc TERMINALS }
    {
        self.items
    }

    /// Lends a terminal's element.
    #[inline(always)]
    pub fn at(&self, terminal: Terminal) -> &T
        ensures value { result.now ≡ slice_index_or self.now terminal result.now }
        ensures size { length self.now ≡ suc TERMINALS }
        ensures low { 1 ≤ terminal }
        ensures high { terminal ≤ TERMINALS }
    {
        &self.items[terminal.get() as usize]
    }

    /// Lends a terminal's element, to be changed there.
    #[inline(always)]
    pub fn at_mut(&mut self, terminal: Terminal) -> &mut T
        ensures* writes_back { sem 𝓛 (lends_at T.row self.entry terminal result) }
        ensures value { result.now ≡ slice_index_or self.old terminal result.now }
        ensures size { length self.old ≡ suc TERMINALS }
        ensures low { 1 ≤ terminal }
        ensures high { terminal ≤ TERMINALS }
    {
        &mut self.items[terminal.get() as usize]
    }
}

/// Makes an empty slot for each number from 0 to 64, whatever is to stand there; an error where
/// memory is refused.
pub fn empty_slots<T>(alloc: Global) -> Result<PerTerminal<Option<T>>, AllocError>
    ensures { IfOk result (λ p. p ≡ replicate (suc TERMINALS) None) }
{
    let mut slots = Vec::with_capacity(alloc, TERMINALS as usize + 1)?;
    for _ in 0..TERMINALS + 1 {
        slots.push(None).unwrap();
    }
    Ok(PerTerminal::of(slots))
}
