//! The requests of a load alone, for another engine.
ghost use Rattle.std.specs.Prelude.{◌≡◌, ◌≤◌, ◌+◌, ◌++◌};
ghost use Rattle.arrayvec.specs.ArrayVec.{array_vec_len};
ghost use Rattle.oe_numbers.specs.declared.forms.Form.TheVariants.{Flat};
ghost use Rattle.oe_load.specs.Loads.{HasWords, opening_text};
ghost use Rattle.oe_load.specs.Flats.{flat_text, left_behind};
ghost use Rattle.oe_load.specs.Turns.{counts_of, Sends, Turns};
ghost use Rattle.oe_load.specs.Ends.{Wrote};
ghost use Rattle.oe_load.specs.declared.origins.Origin.{Origin};

use crate::loads::{Ending, requests_in};
use crate::ranges::asked_holds;
use crate::served::{Served, are_served, none_served, serve, served_of};
use crate::turns::Shortage;
use oe_io::output::make_room;
use oe_io::ports::{Failed, Outlet};
use oe_lines::{query, request};
use oe_terms::draws::random;
use oe_terms::{Asked, Plan, words};
use oe_texts::{LONGEST, Pending, SIZE, small};
use oe_values::{Number, Terminal};
use rand_pcg::Lcg64Xsh32;

/// Appends a terminal and the words of what it asks for.
fn flat_line(out: &mut Pending, terminal: Terminal, asked: &Asked)
    requires room { array_vec_len out.old + LONGEST ≤ SIZE }
    requires form { HasWords asked.now }
    ensures { out.new.items ≡ out.old.items ++ flat_text terminal asked.now }
{
    small(out, terminal.get());
    out.push(b' ');
    match asked {
        Asked::Transaction(asked) => request(out, asked),
        Asked::Query(asked) => query(out, asked),
    }
    out.push(b'\n');
}

/// Finds a terminal that has requests left, from a drawn one on, round.
fn left(plan: &Plan, served: &Served, drawn: u32) -> Option<Terminal>
    requires { (1 ≤ drawn) × (drawn ≤ 63) }
    ensures { result ≡ left_behind plan.now (counts_of served.now) drawn 0
        plan.now.numbers.terminals }
{
    let count = plan.numbers.terminals.get();
    for before in 0..count {
        let terminal = Terminal::new((drawn - 1 + before) % count + 1).unwrap();
        if served_of(served, terminal) < plan.numbers.requests.get() {
            return Some(terminal);
        }
    }
    None
}

/// Tells a terminal's next request.
fn send(
    plan: &Plan,
    served: &mut Served,
    terminal: Terminal,
    out: &mut Pending,
) -> Result<(), Shortage>
    requires { array_vec_len out.old + LONGEST ≤ SIZE }
    ensures { Sends plan.now (counts_of served.old) terminal out.old.items result
        (counts_of served.new) out.new.items }
{
    let is_left = served_of(served, terminal) < plan.numbers.requests.get();
    if terminal.get() > plan.numbers.terminals.get() || !is_left {
        return Err(Shortage::NoEnd);
    }
    let r = Number::new(plan.first.get() + served_of(served, terminal)).unwrap();
    let asked = plan.asked(terminal, r);
    asked_holds(&asked);
    flat_line(out, terminal, &asked);
    serve(served, terminal);
    Ok(())
}

/// Tells the next request of a terminal that is drawn.
fn sent(
    plan: &Plan,
    served: &mut Served,
    words: &mut Lcg64Xsh32,
    out: &mut Pending,
) -> Result<(), Shortage>
    requires { array_vec_len out.old + LONGEST ≤ SIZE }
    ensures { Turns plan.now (counts_of served.old) words.old out.old.items result
        (counts_of served.new) words.new out.new.items }
{
    match left(plan, served, random(words, 1, plan.numbers.terminals.get())) {
        Some(terminal) => send(plan, served, terminal, out),
        None => Err(Shortage::NoEnd),
    }
}

/// Writes the requests of a plan; its opening waits.
pub(crate) fn flat<W: Outlet>(plan: &Plan, out: &mut Pending, to: &mut W) -> Result<Ending, Failed>
    ensures { (o : Origin) → out.old.items ≡ opening_text plan.now o Flat →
        Wrote plan.now o Flat (W.sink to.old) (W.sink to.new) out.new.items result }
{
    let mut served = none_served();
    let mut words = words(plan.numbers.seed, Terminal::new(64).unwrap());
    for _ in 0..requests_in(plan) + 1 {
        if are_served(plan, &served) {
            return Ok(Ending::Served);
        }
        if let Err(e) = make_room(out, to) {
            return Err(e);
        }
        if let Err(shortage) = sent(plan, &mut served, &mut words, out) {
            return Ok(Ending::Short(shortage));
        }
    }
    Ok(Ending::Short(Shortage::NoEnd))
}
