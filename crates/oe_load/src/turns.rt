//! Turns of a load. Each carries one step out in a core of its own, and tells the line that asks
//! for it.
ghost use Rattle.std.specs.Prelude.{◌≡◌, ◌≤◌, ◌<◌, ◌+◌, ℕ, option_map};
ghost use Rattle.arrayvec.specs.ArrayVec.{array_vec_len};
ghost use Rattle.oe_theory.specs.World.{World};
ghost use Rattle.oe_theory.specs.Next.{Next, Aborted, Advance, Committed, Undo_full};
ghost use Rattle.oe_requests.specs.declared.refusals.Refusal.TheVariants.{InvalidItem};
ghost use Rattle.oe_requests.specs.declared.replies.Reply.{Reply};
ghost use Rattle.oe_requests.specs.declared.steps.Step.TheVariants as step;
ghost use Rattle.oe_model.specs.System.{system};
ghost use Rattle.oe_locks.specs.Holds.{hold_of};
ghost use Rattle.oe_machine.specs.Asks.{wanted_by};
ghost use Rattle.oe_machine.specs.Steps.{refusal_in};
ghost use Rattle.oe_lines.specs.declared.commands.Command.TheVariants as command;
ghost use Rattle.oe_lines.specs.declared.commands.MomentChoice.TheVariants as moment;
ghost use Rattle.oe_lines.specs.Grammar.{IsQuery};
ghost use Rattle.oe_terms.specs.declared.plans.Asked.TheVariants as asked;
ghost use Rattle.oe_load.specs.Happens.{wanted_in_cycle, IsBreaking, IsPassing};
ghost use Rattle.oe_load.specs.declared.picks.Pick.{Pick};
ghost use Rattle.oe_load.specs.declared.picks.Pick.TheVariants as pick;
ghost use Rattle.oe_load.specs.Loads.{IsNext};
ghost use Rattle.oe_load.specs.Scripts.{Does};
ghost use Rattle.oe_load.specs.Turns.{counts_of, AsksNext, Turned};

use crate::picks::Pick;
use crate::ranges::asked_holds;
use crate::served::{Served, serve, served_of};
use oe_admission::ranges_hold;
use oe_busy::Happening;
use oe_lines::{begin_line, next_line, purge_line, read_line, rollback_line};
use oe_locks::Lock;
use oe_machine::{Advanced, Machine};
use oe_numbers::Items;
use oe_requests::{Answer, Query, Refusal, Request};
use oe_terms::{Asked, Plan};
use oe_texts::{LONGEST, Pending, SIZE};
use oe_values::{Number, Terminal};
use oe_waits::waits_for_itself;
use std::fmt;
use std::fmt::{Debug, Display, Formatter, Write};
use thiserror::Error;

/// Why a load stops before its end.
#[derive(Clone, Copy, Error)]
pub enum Shortage {
    /// Memory was refused.
    #[error("no memory")]
    NoMemory,
    /// A transaction alone has filled the undo ring.
    #[error("no undo extents")]
    UndoFull,
    /// A request was refused otherwise.
    #[error("a request is refused")]
    Refused(Refusal),
    /// Too many turns were taken.
    #[error("the load has no end")]
    NoEnd,
}

// Its text stands for it, since a refusal has no `Debug`.
impl Debug for Shortage {
    fn fmt<W: Write>(&self, f: &mut Formatter<W>) -> fmt::Result {
        Display::fmt(self, f)
    }
}

/// What came of a turn: what happened at the line that was told. After an error none was told.
pub(crate) type Turn = Result<Happening, Shortage>;

/// Names what a refusal stops a load for.
fn shortage_of(refusal: &Refusal) -> Shortage {
    match refusal {
        Refusal::NoMemory => Shortage::NoMemory,
        Refusal::UndoFull => Shortage::UndoFull,
        other => Shortage::Refused(*other),
    }
}

/// Gives the lock that a terminal asks for that waits for itself through others.
fn wanted_in_cycle<M: Machine>(core: &M, terminal: Terminal) -> Option<Lock>
    ensures { option_map hold_of result ≡ wanted_in_cycle (M.world core.now) terminal }
{
    if waits_for_itself(core, terminal) {
        return core.wanted(terminal);
    }
    None
}

/// Tells what happens where a terminal's stage is carried out that asks for a lock, or for none.
fn passed(terminal: Terminal, asked: &Option<Lock>) -> Happening
    ensures { IsPassing terminal (option_map hold_of asked.now) result }
{
    match asked {
        Some(lock) => Happening::Took(terminal, lock.name, lock.mode),
        None => Happening::Went(terminal),
    }
}

/// Tells what happens where a terminal is rolled back that waited for a lock in a cycle, or not.
fn broken(terminal: Terminal, asked: &Option<Lock>) -> Happening
    ensures { IsBreaking terminal (option_map hold_of asked.now) result }
{
    match asked {
        Some(lock) => Happening::Broke(terminal, lock.name),
        None => Happening::GaveWay(terminal),
    }
}

/// Begins a terminal's next request.
fn begin<M: Machine>(
    plan: &Plan,
    core: &mut M,
    served: &Served,
    terminal: Terminal,
    request: &Request,
    out: &mut Pending,
) -> Turn
    requires room { array_vec_len out.old + LONGEST ≤ SIZE }
    requires next { IsNext plan.now (counts_of served.now) terminal
        (asked.Transaction request.now) }
    ensures { AsksNext plan.now (M.world core.old) (counts_of served.now) terminal out.old.items
        result (M.world core.new) (counts_of served.now) out.new.items }
{
    ranges_hold(request);
    match core.begin(terminal, request) {
        Ok(()) => {
            let _number = terminal.get();
            begin_line(out, terminal, request);
            Ok(Happening::Begun)
        }
        Err(refusal) => Err(shortage_of(&refusal)),
    }
}

/// Answers a terminal's next request, which is a query.
fn read<M: Machine>(
    plan: &Plan,
    core: &M,
    served: &mut Served,
    terminal: Terminal,
    query: &Query,
    out: &mut Pending,
) -> Turn
    requires room { array_vec_len out.old + LONGEST ≤ SIZE }
    requires next { IsNext plan.now (counts_of served.old) terminal (asked.Query query.now) }
    requires left { counts_of served.old terminal < 1_000_000_000 }
    requires form { IsQuery query.now }
    ensures { AsksNext plan.now (M.world core.now) (counts_of served.old) terminal out.old.items
        result (M.world core.now) (counts_of served.new) out.new.items }
{
    match core.read(core.newest(), query) {
        Answer::Replied(_) => {
            serve(served, terminal);
            read_line(out, query);
            Ok(Happening::Done)
        }
        Answer::Refused(refusal) => Err(shortage_of(&refusal)),
        _ => Err(Shortage::NoEnd),
    }
}

/// Rolls a terminal's transaction back, in a turn that does so.
fn give_way<M: Machine>(
    plan: &Plan,
    core: &mut M,
    served: &Served,
    terminal: Terminal,
    out: &mut Pending,
) -> Turn
    requires { array_vec_len out.old + LONGEST ≤ SIZE }
    ensures { (k : Pick) → Does plan.now (M.world core.old) (counts_of served.now) k
        (command.Rollback terminal) (counts_of served.now) →
        Turned plan.now (M.world core.old) (counts_of served.now) k out.old.items result
        (M.world core.new) (counts_of served.now) out.new.items }
{
    let asked = wanted_in_cycle(core, terminal);
    match core.rollback(terminal) {
        Answer::RolledBack => {
            let _number = terminal.get();
            rollback_line(out, terminal);
            Ok(broken(terminal, &asked))
        }
        Answer::Refused(refusal) => Err(shortage_of(&refusal)),
        _ => Err(Shortage::NoEnd),
    }
}

/// Lets go of the commits so far, in a turn that does so.
fn purge<M: Machine>(plan: &Plan, core: &mut M, served: &Served, out: &mut Pending) -> Turn
    requires { array_vec_len out.old + LONGEST ≤ SIZE }
    ensures { (k : Pick) → Does plan.now (M.world core.old) (counts_of served.now) k
        (command.Purge moment.Now) (counts_of served.now) →
        Turned plan.now (M.world core.old) (counts_of served.now) k out.old.items result
        (M.world core.new) (counts_of served.now) out.new.items }
{
    match core.purge(core.newest()) {
        Answer::Purged(_) => {
            purge_line(out);
            Ok(Happening::Done)
        }
        Answer::Refused(refusal) => Err(shortage_of(&refusal)),
        _ => Err(Shortage::NoEnd),
    }
}

/// Makes room where the ring is full: lets go of commits, or else rolls the terminal's transaction
/// back, where others are open that may end.
fn make_way<M: Machine>(
    plan: &Plan,
    core: &mut M,
    served: &Served,
    terminal: Terminal,
    out: &mut Pending,
) -> Turn
    requires { array_vec_len out.old + LONGEST ≤ SIZE }
    ensures { Next system (M.world core.old) (Advance terminal) Undo_full (M.world core.old) →
        Turned plan.now (M.world core.old) (counts_of served.now) (pick.Turn terminal)
        out.old.items result (M.world core.new) (counts_of served.now) out.new.items }
{
    if core.horizon() < core.newest() {
        return purge(plan, core, served, out);
    }
    if core.open_count() > 1 {
        return give_way(plan, core, served, terminal, out);
    }
    Err(Shortage::UndoFull)
}

/// Tells what comes of an advance that is refused.
fn refused<M: Machine>(
    plan: &Plan,
    core: &mut M,
    served: &mut Served,
    terminal: Terminal,
    asked: &Option<Lock>,
    refusal: &Refusal,
    out: &mut Pending,
) -> Turn
    requires room { array_vec_len out.old + LONGEST ≤ SIZE }
    requires left { counts_of served.old terminal < 1_000_000_000 }
    ensures { (before : World system) →
        Next system before (Advance terminal) (refusal_in (step.Advance terminal) refusal.now)
        (M.world core.old) →
        option_map hold_of asked.now ≡ wanted_by before terminal →
        Turned plan.now before (counts_of served.old) (pick.Turn terminal) out.old.items result
        (M.world core.new) (counts_of served.new) out.new.items }
{
    match refusal {
        Refusal::Busy(name, holder) => {
            let _number = terminal.get();
            next_line(out, terminal);
            Ok(Happening::Waits(terminal, *name, *holder))
        }
        Refusal::UndoFull => make_way(plan, core, served, terminal, out),
        Refusal::InvalidItem => rolled_back(plan, core, served, terminal, asked, out),
        other => Err(shortage_of(other)),
    }
}

/// Tells an advance at which an order was rolled back for its unused item (clause 2.4.2.3). That
/// serves the request, where the plan has such orders.
fn rolled_back<M: Machine>(
    plan: &Plan,
    core: &M,
    served: &mut Served,
    terminal: Terminal,
    asked: &Option<Lock>,
    out: &mut Pending,
) -> Turn
    requires room { array_vec_len out.old + LONGEST ≤ SIZE }
    requires left { counts_of served.old terminal < 1_000_000_000 }
    ensures { (before : World system) →
        Next system before (Advance terminal) (Aborted InvalidItem) (M.world core.now) →
        option_map hold_of asked.now ≡ wanted_by before terminal →
        Turned plan.now before (counts_of served.old) (pick.Turn terminal) out.old.items result
        (M.world core.now) (counts_of served.new) out.new.items }
{
    match plan.items {
        Items::Used => Err(Shortage::Refused(Refusal::InvalidItem)),
        Items::AsDrawn => {
            let _number = terminal.get();
            serve(served, terminal);
            next_line(out, terminal);
            Ok(passed(terminal, asked))
        }
    }
}

/// Tells an advance that has committed.
fn committed<M: Machine>(
    plan: &Plan,
    core: &M,
    served: &mut Served,
    terminal: Terminal,
    asked: &Option<Lock>,
    out: &mut Pending,
) -> Turn
    requires room { array_vec_len out.old + LONGEST ≤ SIZE }
    requires left { counts_of served.old terminal < 1_000_000_000 }
    ensures { (before : World system) (m : ℕ) (y : Reply) →
        Next system before (Advance terminal) (Committed m y) (M.world core.now) →
        option_map hold_of asked.now ≡ wanted_by before terminal →
        Turned plan.now before (counts_of served.old) (pick.Turn terminal) out.old.items result
        (M.world core.now) (counts_of served.new) out.new.items }
{
    let _number = terminal.get();
    serve(served, terminal);
    next_line(out, terminal);
    Ok(passed(terminal, asked))
}

/// Advances a terminal's transaction.
fn advance<M: Machine>(
    plan: &Plan,
    core: &mut M,
    served: &mut Served,
    terminal: Terminal,
    out: &mut Pending,
) -> Turn
    requires room { array_vec_len out.old + LONGEST ≤ SIZE }
    requires left { counts_of served.old terminal < 1_000_000_000 }
    ensures { Turned plan.now (M.world core.old) (counts_of served.old) (pick.Turn terminal)
        out.old.items result (M.world core.new) (counts_of served.new) out.new.items }
{
    let _number = terminal.get();
    let asked = core.wanted(terminal);
    match core.advance(terminal) {
        Advanced::More => {
            next_line(out, terminal);
            Ok(passed(terminal, &asked))
        }
        Advanced::Committed(_) => committed(plan, core, served, terminal, &asked, out),
        Advanced::Kept(refusal) => refused(plan, core, served, terminal, &asked, &refusal, out),
        Advanced::RolledBack(refusal) => {
            refused(plan, core, served, terminal, &asked, &refusal, out)
        }
    }
}

/// Asks for a terminal's next request.
pub(crate) fn ask<M: Machine>(
    plan: &Plan,
    core: &mut M,
    served: &mut Served,
    terminal: Terminal,
    out: &mut Pending,
) -> Turn
    requires room { array_vec_len out.old + LONGEST ≤ SIZE }
    requires high { terminal ≤ plan.now.numbers.terminals }
    requires left { counts_of served.old terminal < plan.now.numbers.requests }
    requires few { counts_of served.old terminal < 1_000_000_000 }
    ensures { AsksNext plan.now (M.world core.old) (counts_of served.old) terminal out.old.items
        result (M.world core.new) (counts_of served.new) out.new.items }
{
    let _number = terminal.get();
    let r = Number::new(plan.first.get() + served_of(served, terminal)).unwrap();
    let asked = plan.asked(terminal, r);
    asked_holds(&asked);
    match asked {
        Asked::Transaction(request) => begin(plan, core, served, terminal, &request, out),
        Asked::Query(query) => read(plan, core, served, terminal, &query, out),
    }
}

/// Takes a terminal's turn: its transaction advances, or its next request is asked for.
fn take_turn<M: Machine>(
    plan: &Plan,
    core: &mut M,
    served: &mut Served,
    terminal: Terminal,
    out: &mut Pending,
) -> Turn
    requires { array_vec_len out.old + LONGEST ≤ SIZE }
    ensures { Turned plan.now (M.world core.old) (counts_of served.old) (pick.Turn terminal)
        out.old.items result (M.world core.new) (counts_of served.new) out.new.items }
{
    let is_left = served_of(served, terminal) < plan.numbers.requests.get();
    if terminal.get() > plan.numbers.terminals.get() || !is_left {
        return Err(Shortage::NoEnd);
    }
    if core.is_open(terminal) {
        return advance(plan, core, served, terminal, out);
    }
    ask(plan, core, served, terminal, out)
}

/// Carries out what was picked.
pub(crate) fn carried_out<M: Machine>(
    plan: &Plan,
    core: &mut M,
    served: &mut Served,
    pick: &Pick,
    out: &mut Pending,
) -> Turn
    requires { array_vec_len out.old + LONGEST ≤ SIZE }
    ensures { Turned plan.now (M.world core.old) (counts_of served.old) pick.now out.old.items
        result (M.world core.new) (counts_of served.new) out.new.items }
{
    match pick {
        Pick::GiveWay(terminal) => give_way(plan, core, served, *terminal, out),
        Pick::Turn(terminal) => take_turn(plan, core, served, *terminal, out),
    }
}
