//! How many requests of each terminal were served: an array with a place for each number from 0,
//! which is nobody's, to 64.
ghost use Rattle.std.specs.Prelude.{◌≡◌, ◌<◌, true};
ghost use Rattle.oe_theory.specs.World.{bump};
ghost use Rattle.oe_load.specs.Loads.{AreServed, none_served};
ghost use Rattle.oe_load.specs.Turns.{counts_of};

use oe_terms::Plan;
use oe_values::Terminal;

/// Counts by terminal.
pub(crate) type Served = [u32; 65];

/// Counts none.
#[tactic(auto, using(crate::proofs::ServedFacts::none))]
pub(crate) fn none_served() -> Served
    ensures { counts_of result ≡ none_served }
{
    [0; 65]
}

/// Gives the count of a terminal.
pub(crate) fn served_of(served: &Served, terminal: Terminal) -> u32
    ensures { result ≡ counts_of served.now terminal }
{
    served[terminal.get() as usize]
}

/// Counts one more of a terminal.
#[tactic(auto, using(crate::proofs::ServedFacts::one_more))]
pub(crate) fn serve(served: &mut Served, terminal: Terminal)
    requires { counts_of served.old terminal < 1_000_000_000 }
    ensures { counts_of served.new ≡ bump terminal (counts_of served.old) }
{
    let at = terminal.get() as usize;
    served[at] += 1;
}

/// Tells whether all requests of all terminals were served.
pub(crate) fn are_served(plan: &Plan, served: &Served) -> bool
    ensures { result ≡ true → AreServed plan.now (counts_of served.now) }
{
    for before in 0..plan.numbers.terminals.get() {
        if served[before as usize + 1] != plan.numbers.requests.get() {
            return false;
        }
    }
    true
}
