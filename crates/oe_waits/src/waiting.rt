//! Which terminal waits for which.
ghost use Rattle.std.specs.Prelude.{◌≡◌, ◌<◌, ◌+◌, not, option_map};
ghost use Rattle.oe_theory.specs.World.{go_together};
ghost use Rattle.oe_model.specs.Locks.{mode_of};
ghost use Rattle.oe_waits.specs.Waits.{waits, waits_for};

use oe_machine::Machine;
use oe_rows::Mode;
use oe_values::{TERMINALS, Terminal};

/// Tells whether a mode that is asked for conflicts with the mode in which another holds the name.
fn conflicts(asked: Mode, held: Option<Mode>) -> bool
    ensures { result ≡ not (go_together (mode_of asked) (option_map mode_of held)) }
{
    match held {
        None => false,
        Some(Mode::Shared) => matches!(asked, Mode::Exclusive),
        Some(Mode::Exclusive) => true,
    }
}

/// Tells whether a terminal waits for another one: its transaction's next stage asks for a name
/// that the other's transaction holds in a mode that conflicts.
pub fn waits_for<M: Machine>(core: &M, terminal: Terminal, other: Terminal) -> bool
    ensures { result ≡ waits_for (M.world core.now) terminal other }
{
    if terminal == other {
        return false;
    }
    match core.wanted(terminal) {
        Some(lock) => conflicts(lock.mode, core.held(other, &lock.name)),
        None => false,
    }
}

/// Gives the terminal behind those that came before.
pub(crate) fn terminal_after(before: u32) -> Terminal
    requires { before < 64 }
    ensures { result ≡ before + 1 }
{
    Terminal::new(before + 1).unwrap()
}

/// Tells whether a terminal waits for any other.
pub fn waits<M: Machine>(core: &M, terminal: Terminal) -> bool
    ensures { result ≡ waits (M.world core.now) terminal }
{
    for before in 0..TERMINALS {
        let other = terminal_after(before);
        if waits_for(core, terminal, other) {
            return true;
        }
    }
    false
}
