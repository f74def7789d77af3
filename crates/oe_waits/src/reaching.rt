//! The terminals to which chains of waits lead, ahead or back.
//!
//! A set of terminals is an array with a place for each number from 0, which is nobody's, to 64. A
//! terminal that is found is done once all to which it leads at once are found too.
ghost use Rattle.std.specs.Prelude.{◌≡◌, ◌≤◌, ◌&&◌, ◌||◌, ℕ, length, true, false};
ghost use Rattle.std.specs.Option.{MatchOption};
ghost use Rattle.oe_waits.specs.Reaching.{is_in, leads, leads_through};
ghost use Rattle.oe_waits.specs.Waits.{waits_through};

use crate::waiting::{terminal_after, waits_for};
use oe_machine::Machine;
use oe_values::{TERMINALS, Terminal};

/// Which way a wait is followed: to whom a terminal waits for, or to who waits for it.
#[derive(Clone, Copy)]
pub(crate) enum Way {
    Ahead,
    Back,
}

/// Tells whether a wait leads from one terminal to another.
fn leads<M: Machine>(core: &M, way: Way, from: Terminal, to: Terminal) -> bool
    ensures { result ≡ leads (M.world core.now) way from to }
{
    match way {
        Way::Ahead => waits_for(core, from, to),
        Way::Back => waits_for(core, to, from),
    }
}

/// Adds the terminals to which a wait leads from one.
fn add_next<M: Machine>(core: &M, way: Way, from: Terminal, found: &mut [bool; 65])
    ensures { (u : ℕ) → 1 ≤ u → u ≤ 64 → is_in found.new u
        ≡ (is_in found.old u || leads (M.world core.now) way from u) }
{
    for before in 0..TERMINALS {
        let to = terminal_after(before);
        if leads(core, way, from, to) {
            found[before as usize + 1] = true;
        }
    }
}

/// Gives the first terminal that is found and not done.
fn undone(found: &[bool; 65], done: &[bool; 65]) -> Option<Terminal>
    ensures { MatchOption result
        ((u : ℕ) → 1 ≤ u → u ≤ 64 → is_in found.now u ≡ true → is_in done.now u ≡ true)
        (λ u. (is_in found.now u ≡ true) × (is_in done.now u ≡ false)) }
{
    for before in 0..TERMINALS {
        let at = before as usize + 1;
        if found[at] && !done[at] {
            return Some(terminal_after(before));
        }
    }
    None
}

/// Gives the empty set.
fn none() -> [bool; 65]
    ensures none { (u : ℕ) → is_in result u ≡ false }
    ensures places { length result ≡ 65 }
{
    [false; 65]
}

/// Tells whether a terminal is in both sets.
pub(crate) fn is_in_both(ahead: &[bool; 65], back: &[bool; 65], terminal: Terminal) -> bool
    ensures { result ≡ (is_in ahead.now terminal && is_in back.now terminal) }
{
    let at = terminal.get() as usize;
    ahead[at] && back[at]
}

/// Finds the terminals to which waits lead from one, at once or through others.
pub(crate) fn reached<M: Machine>(core: &M, way: Way, from: Terminal) -> [bool; 65]
    ensures { (u : ℕ) → 1 ≤ u → u ≤ 64 →
        is_in result u ≡ leads_through (M.world core.now) way from u }
{
    core.is_reached();
    let mut found = none();
    let mut done = none();
    add_next(core, way, from, &mut found);
    while let Some(next) = undone(&found, &done) {
        done[next.get() as usize] = true;
        add_next(core, way, next, &mut found);
    }
    found
}

/// Tells whether a terminal is in a set.
fn is_in(set: &[bool; 65], terminal: Terminal) -> bool
    ensures { result ≡ is_in set.now terminal }
{
    set[terminal.get() as usize]
}

/// Tells whether a terminal waits for itself, through others.
pub fn waits_for_itself<M: Machine>(core: &M, terminal: Terminal) -> bool
    ensures { result ≡ waits_through (M.world core.now) terminal terminal }
{
    let _number = terminal.get();
    let ahead = reached(core, Way::Ahead, terminal);
    is_in(&ahead, terminal)
}
