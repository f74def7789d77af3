//! Whose turn it is: a function of what is open, of what was served, of whom the answers `Busy`
//! have named, and of a number that is drawn.
ghost use Rattle.std.specs.Prelude.{◌≡◌, ◌≤◌, ◌<◌, ◌+◌};
ghost use Rattle.oe_theory.specs.World.{set};
ghost use Rattle.oe_terms.specs.Draws.{random};
ghost use Rattle.oe_load.specs.Flats.{first_behind};
ghost use Rattle.oe_load.specs.Picks.{holders_of, holder_of, end_of_waits, is_in_cycle, is_left, is_able, first_open, named_by, named_in, none_named, pick_of, terminal_of};
ghost use Rattle.oe_load.specs.Turns.{counts_of};

use crate::served::{Served, served_of};
use crate::turns::Turn;
use oe_busy::Happening;
use oe_machine::Machine;
use oe_terms::Plan;
use oe_terms::draws::random;
use oe_values::{TERMINALS, Terminal};
use oe_waits::waits_for;
use rand_pcg::Lcg64Xsh32;

/// Whom each terminal's last answer named, where that was `Busy`; with a place for each number from
/// 0, which is nobody's, to 64.
pub(crate) type Holders = [Option<Terminal>; 65];

/// What is to be done next.
#[derive(Clone, Copy)]
pub(crate) enum Pick {
    /// The terminal takes its turn.
    Turn(Terminal),
    /// The terminal's transaction is in a cycle of waits, and is rolled back.
    GiveWay(Terminal),
}

/// Gives the terminal whose turn that is.
pub(crate) fn terminal_of(pick: &Pick) -> Terminal
    ensures { result ≡ terminal_of pick.now }
{
    match pick {
        Pick::Turn(terminal) => *terminal,
        Pick::GiveWay(terminal) => *terminal,
    }
}

/// Gives the terminal that an answer names, where that is `Busy`.
fn named_by(happening: &Happening) -> Option<Terminal>
    ensures { result ≡ named_by happening.now }
{
    match happening {
        Happening::Waits(_, _, holder) => Some(*holder),
        _ => None,
    }
}

/// Gives the same of a turn.
pub(crate) fn named_in(turn: &Turn) -> Option<Terminal>
    ensures { result ≡ named_in turn.now }
{
    match turn {
        Ok(happening) => named_by(happening),
        Err(_) => None,
    }
}

/// Names nobody yet.
#[tactic(auto, using(crate::proofs::PickFacts::nobody_is))]
pub(crate) fn none_named() -> Holders
    ensures { holders_of result ≡ none_named }
{
    [None; 65]
}

/// Gives the terminal behind those that came before.
pub(crate) fn terminal_after(before: u32) -> Terminal
    requires { before < 64 }
    ensures { result ≡ before + 1 }
{
    Terminal::new(before + 1).unwrap()
}

/// Tells whether a terminal has a transaction open, or requests that were not asked for.
fn is_left<M: Machine>(plan: &Plan, core: &M, served: &Served, terminal: Terminal) -> bool
    ensures { result ≡ is_left plan.now (M.world core.now) (counts_of served.now) terminal }
{
    core.is_open(terminal) || served_of(served, terminal) < plan.numbers.requests.get()
}

/// Gives the terminal that one was answered `Busy` for, where it still holds what is asked for.
fn holder_of<M: Machine>(core: &M, holders: &Holders, terminal: Terminal) -> Option<Terminal>
    ensures { result ≡ holder_of (M.world core.now) (holders_of holders.now) terminal }
{
    let Some(holder) = holders[terminal.get() as usize] else {
        return None;
    };
    if waits_for(core, terminal, holder) {
        return Some(holder);
    }
    None
}

/// Follows the waits from a terminal: gives the terminal itself where they come back to it, and
/// else where they have led after 64 waits, which is in a cycle, or where they have ended.
fn followed<M: Machine>(core: &M, holders: &Holders, terminal: Terminal) -> Terminal
    ensures { result ≡ end_of_waits (M.world core.now) (holders_of holders.now) terminal }
{
    let mut at = terminal;
    for _ in 0..TERMINALS {
        match holder_of(core, holders, at) {
            Some(holder) => at = holder,
            None => return at,
        }
        if at == terminal {
            return at;
        }
    }
    at
}

/// Tells whether a terminal has something left, and does not wait.
fn is_able<M: Machine>(
    plan: &Plan,
    core: &M,
    served: &Served,
    holders: &Holders,
    terminal: Terminal,
) -> bool
    ensures { result ≡ is_able plan.now (M.world core.now) (counts_of served.now)
        (holders_of holders.now) terminal }
{
    is_left(plan, core, served, terminal) && holder_of(core, holders, terminal).is_none()
}

/// Finds a terminal that has something left and does not wait, from a drawn one on, round.
fn able<M: Machine>(
    plan: &Plan,
    core: &M,
    served: &Served,
    holders: &Holders,
    drawn: u32,
) -> Option<Terminal>
    requires { (1 ≤ drawn) × (drawn ≤ 63) }
    ensures { result ≡ first_behind plan.now (is_able plan.now (M.world core.now)
        (counts_of served.now) (holders_of holders.now)) drawn 0 plan.now.numbers.terminals }
{
    let count = plan.numbers.terminals.get();
    for before in 0..count {
        let terminal = terminal_after((drawn - 1 + before) % count);
        if is_able(plan, core, served, holders, terminal) {
            return Some(terminal);
        }
    }
    None
}

/// Finds the first terminal that has a transaction open.
fn first_open<M: Machine>(core: &M) -> Option<Terminal>
    ensures { result ≡ first_open (M.world core.now) }
{
    for before in 0..TERMINALS {
        let terminal = terminal_after(before);
        if core.is_open(terminal) {
            return Some(terminal);
        }
    }
    None
}

/// Tells whether a terminal waits for itself, through others.
fn is_in_cycle<M: Machine>(core: &M, holders: &Holders, terminal: Terminal) -> bool
    ensures { result ≡ is_in_cycle (M.world core.now) (holders_of holders.now) terminal }
{
    holder_of(core, holders, terminal).is_some() && followed(core, holders, terminal) == terminal
}

/// Draws whose turn it is. A terminal that was answered `Busy` waits until its lock is free; where
/// it is in a cycle, or nobody can go on, one that is in a cycle gives way.
pub(crate) fn picked<M: Machine>(
    plan: &Plan,
    core: &M,
    served: &Served,
    holders: &Holders,
    words: &mut Lcg64Xsh32,
) -> Pick
    ensures pick { result ≡ pick_of plan.now (M.world core.now) (counts_of served.now)
        (holders_of holders.now) (random 1 plan.now.numbers.terminals words.old).0 }
    ensures words { words.new ≡ (random 1 plan.now.numbers.terminals words.old).1 }
{
    let drawn = random(words, 1, plan.numbers.terminals.get());
    let terminal = terminal_after(drawn - 1);
    if is_in_cycle(core, holders, terminal) {
        return Pick::GiveWay(terminal);
    }
    if let Some(able) = able(plan, core, served, holders, drawn) {
        return Pick::Turn(able);
    }
    match first_open(core) {
        Some(open) => Pick::GiveWay(followed(core, holders, open)),
        None => Pick::Turn(terminal),
    }
}

/// Notes whom a terminal's answer names, where that is `Busy`.
#[tactic(auto, using(crate::proofs::PickFacts::noted))]
pub(crate) fn note(holders: &mut Holders, terminal: Terminal, holder: Option<Terminal>)
    ensures { holders_of holders.new ≡ set terminal holder (holders_of holders.old) }
{
    holders[terminal.get() as usize] = holder;
}
