//! The script of a load, from its opening to its end.
ghost use Rattle.std.specs.Prelude.{◌≡◌, ◌≤◌, ◌<◌, ◌+◌, [], Option, true, IfOk};
ghost use Rattle.arrayvec.specs.ArrayVec.{array_vec_len};
ghost use Rattle.oe_numbers.specs.declared.forms.Form.{Form};
ghost use Rattle.oe_numbers.specs.declared.forms.Form.TheVariants.{Script};
ghost use Rattle.oe_model.specs.Population.{IsScale};
ghost use Rattle.oe_load.specs.Loads.{opening_text, IsOrigin, IsDone};
ghost use Rattle.oe_load.specs.declared.origins.Origin.{Origin};
ghost use Rattle.oe_load.specs.declared.origins.Origin.TheVariants as origin;
ghost use Rattle.oe_model.specs.Conditions.{IsPopulation};
ghost use Rattle.oe_store.specs.Places.{rows};
ghost use Rattle.oe_load.specs.Picks.{holders_of, none_named};
ghost use Rattle.oe_load.specs.Scripts.{first_state, IsScript};
ghost use Rattle.oe_load.specs.Turns.{begun_after, counts_of, state_of, Took};
ghost use Rattle.oe_terms.specs.Draws.{words_of};
ghost use Rattle.oe_io.specs.Ports.{Sink};
ghost use Rattle.oe_terms.specs.declared.plans.Plan.{Plan};
ghost use Rattle.oe_load.specs.Ends.{Wrote, LoadRan};

use crate::flats::flat;
use crate::origins::{Origin, open};
use crate::picks::{Holders, named_in, none_named, note, picked, terminal_after, terminal_of};
use crate::served::{Served, are_served, none_served, served_of};
use crate::turns::{Shortage, Turn, ask, carried_out};
use crate::watches::busy;
use oe_busy::Happening;
use oe_io::output::{flush, make_room};
use oe_io::ports::{Failed, Outlet};
use oe_machine::Machine;
use oe_numbers::Form;
use oe_population::populate;
use oe_rows::{Layout, Scale};
use oe_store::Tables;
use oe_terms::{Plan, words};
use oe_texts::{LONGEST, Pending, SIZE};
use oe_values::{NoMemory, Terminal};
use rand_pcg::Lcg64Xsh32;
use std::alloc::Global;
use thiserror::Error;

/// No load takes more turns for each of its requests. Most take some twenty.
pub(crate) const TURNS: u64 = 2_000;

/// Why a load is not told whole.
#[derive(Clone, Copy, Debug, Error)]
pub enum LoadFault {
    /// The load stops there. What was written is a load up to there.
    #[error(transparent)]
    Short(Shortage),
    /// A write failed. A beginning of a load was written.
    #[error("write")]
    Write,
}

/// How the turns have ended.
#[derive(Clone, Copy)]
pub(crate) enum Ending {
    /// All requests were served.
    Served,
    /// Something was wanting.
    Short(Shortage),
}

/// How many of the first terminals have begun, or have no transaction; whose turn is drawn by which
/// words then, and who was answered `Busy`.
#[derive(Drop)]
pub(crate) struct Drawing {
    begun: u32,
    words: Lcg64Xsh32,
    holders: Holders,
}

/// Counts the requests of all terminals.
pub(crate) fn requests_in(plan: &Plan) -> u64
    ensures { result ≤ 63_000_000_000 }
{
    u64::from(plan.numbers.terminals.get()) * u64::from(plan.numbers.requests.get())
}

/// Begins to draw: no terminal has begun.
pub(crate) fn first_drawing(plan: &Plan) -> Drawing
    ensures begun { result.begun ≡ 0 }
    ensures words { result.words ≡ words_of plan.now.numbers.seed 64 }
    ensures holders { holders_of result.holders ≡ none_named }
{
    let words = words(plan.numbers.seed, Terminal::new(64).unwrap());
    Drawing {
        begun: 0,
        words,
        holders: none_named(),
    }
}

/// Counts the terminals that have begun, after the next one's request was asked for.
fn begun_after(plan: &Plan, begun: u32, served: &Served, happening: &Happening) -> u32
    requires { begun < 63 }
    ensures { result ≡ begun_after plan.now begun (counts_of served.now) happening.now }
{
    match happening {
        Happening::Begun => begun + 1,
        Happening::Done => {
            if served_of(served, terminal_after(begun)) == plan.numbers.requests.get() {
                begun + 1
            } else {
                begun
            }
        }
        _ => begun,
    }
}

/// Takes an early turn: the first terminal that has not begun asks for its next request. Where that
/// is a query, and its last, it has no transaction.
fn early<M: Machine>(
    plan: &Plan,
    core: &mut M,
    served: &mut Served,
    drawing: &mut Drawing,
    out: &mut Pending,
) -> Turn
    requires room { array_vec_len out.old + LONGEST ≤ SIZE }
    requires few { drawing.old.begun < plan.now.numbers.terminals }
    ensures { Took plan.now (state_of (M.world core.old) (counts_of served.old) drawing.old)
        out.old.items result
        (state_of (M.world core.new) (counts_of served.new) drawing.new) out.new.items }
{
    let _terminals = plan.numbers.terminals.get();
    let requests = plan.numbers.requests.get();
    let terminal = terminal_after(drawing.begun);
    if served_of(served, terminal) >= requests {
        return Err(Shortage::NoEnd);
    }
    match ask(plan, core, served, terminal, out) {
        Ok(happening) => {
            drawing.begun = begun_after(plan, drawing.begun, served, &happening);
            Ok(happening)
        }
        Err(shortage) => Err(shortage),
    }
}

/// Takes the turn that is picked.
fn late<M: Machine>(
    plan: &Plan,
    core: &mut M,
    served: &mut Served,
    drawing: &mut Drawing,
    out: &mut Pending,
) -> Turn
    requires room { array_vec_len out.old + LONGEST ≤ SIZE }
    requires all { plan.now.numbers.terminals ≤ drawing.old.begun }
    ensures { Took plan.now (state_of (M.world core.old) (counts_of served.old) drawing.old)
        out.old.items result
        (state_of (M.world core.new) (counts_of served.new) drawing.new) out.new.items }
{
    let pick = picked(plan, core, served, &drawing.holders, &mut drawing.words);
    let turn = carried_out(plan, core, served, &pick, out);
    note(&mut drawing.holders, terminal_of(&pick), named_in(&turn));
    turn
}

/// Takes a turn: the terminals begin, one after another; then turns are drawn.
pub(crate) fn taken<M: Machine>(
    plan: &Plan,
    core: &mut M,
    served: &mut Served,
    drawing: &mut Drawing,
    out: &mut Pending,
) -> Turn
    requires { array_vec_len out.old + LONGEST ≤ SIZE }
    ensures { Took plan.now (state_of (M.world core.old) (counts_of served.old) drawing.old)
        out.old.items result
        (state_of (M.world core.new) (counts_of served.new) drawing.new) out.new.items }
{
    if drawing.begun < plan.numbers.terminals.get() {
        return early(plan, core, served, drawing, out);
    }
    late(plan, core, served, drawing, out)
}

/// Tells whether all requests were served, and nothing is open.
pub(crate) fn is_done<M: Machine>(plan: &Plan, core: &M, served: &Served) -> bool
    ensures { result ≡ true → IsDone plan.now (M.world core.now) (counts_of served.now) }
{
    core.open_count() == 0 && are_served(plan, served)
}

/// Takes turns until all requests are served.
fn told<W: Outlet, M: Machine>(
    plan: &Plan,
    core: &mut M,
    out: &mut Pending,
    to: &mut W,
) -> Result<Ending, Failed>
    ensures { (o : Origin) → IsScript plan.now o [] (first_state plan.now (M.world core.old)) →
        out.old.items ≡ opening_text plan.now o Script →
        Wrote plan.now o Script (W.sink to.old) (W.sink to.new) out.new.items result }
{
    let mut served = none_served();
    let mut drawing = first_drawing(plan);
    for _ in 0..requests_in(plan) * TURNS {
        if is_done(plan, core, &served) {
            return Ok(Ending::Served);
        }
        if let Err(e) = make_room(out, to) {
            return Err(e);
        }
        if let Err(shortage) = taken(plan, core, &mut served, &mut drawing, out) {
            return Ok(Ending::Short(shortage));
        }
    }
    Ok(Ending::Short(Shortage::NoEnd))
}

/// The numbers of a scale are in their ranges: a law.
fn scale_holds(scale: &Scale)
    ensures { IsScale scale.now }
{
    let _warehouses = scale.warehouses.get();
    let _customers = scale.customers.get();
    let _items = scale.items.get();
}

/// Opens a machine on what a load begins on.
pub(crate) fn opened<M: Machine>(alloc: Global, plan: &Plan, origin: Origin) -> Result<M, NoMemory>
    requires { IsOrigin origin }
    ensures { IfOk result (λ c. IsScript plan.now origin [] (first_state plan.now (M.world c))) }
{
    match origin {
        Origin::Population => populated::<M>(alloc, plan),
        Origin::Tables(tables) => opened_on::<M>(alloc, plan, tables),
    }
}

/// Opens a machine on the population of a plan.
fn populated<M: Machine>(alloc: Global, plan: &Plan) -> Result<M, NoMemory>
    ensures { IfOk result (λ c. IsScript plan.now origin.Population []
        (first_state plan.now (M.world c))) }
{
    scale_holds(&plan.numbers.scale);
    match populate(alloc, plan.numbers.scale) {
        Ok(tables) => M::open(alloc, tables, plan.numbers.extents, Layout::WholeRows),
        Err(e) => Err(e),
    }
}

/// Opens a machine on tables.
fn opened_on<M: Machine>(alloc: Global, plan: &Plan, tables: Tables) -> Result<M, NoMemory>
    requires { IsPopulation (rows tables) }
    ensures { IfOk result (λ c. IsScript plan.now (origin.Tables tables) []
        (first_state plan.now (M.world c))) }
{
    M::open(alloc, tables, plan.numbers.extents, Layout::WholeRows)
}

/// Writes the script of a plan; its opening waits.
fn script<M: Machine, W: Outlet>(
    alloc: Global,
    plan: &Plan,
    origin: Origin,
    out: &mut Pending,
    to: &mut W,
) -> Result<Ending, Failed>
    requires origin { IsOrigin origin }
    requires opening { out.old.items ≡ opening_text plan.now origin Script }
    ensures { Wrote plan.now origin Script (W.sink to.old) (W.sink to.new) out.new.items result }
{
    let Ok(mut core) = opened::<M>(alloc, plan, origin) else {
        out.clear();
        return Ok(Ending::Short(Shortage::NoMemory));
    };
    let ending = told(plan, &mut core, out, to);
    core.discard();
    ending
}

/// Writes a plan's requests alone, its script, or a table of what was in the script's way; the
/// opening waits.
fn written<M: Machine, W: Outlet>(
    alloc: Global,
    plan: &Plan,
    origin: Origin,
    form: Form,
    out: &mut Pending,
    to: &mut W,
) -> Result<Ending, Failed>
    requires origin { IsOrigin origin }
    requires opening { out.old.items ≡ opening_text plan.now origin form }
    ensures { Wrote plan.now origin form (W.sink to.old) (W.sink to.new) out.new.items result }
{
    match form {
        Form::Script => script::<M, W>(alloc, plan, origin, out, to),
        Form::Busy => Ok(busy::<M>(alloc, plan, origin, out)),
        Form::Flat => {
            origin.discard();
            flat(plan, out, to)
        }
    }
}

/// Writes what waits, and names how a load has ended.
fn closed<W: Outlet>(
    ending: Result<Ending, Failed>,
    out: &mut Pending,
    to: &mut W,
) -> Result<(), LoadFault>
    ensures { (p : Plan) (o : Origin) (form : Form) (start : Option Sink) →
        Wrote p o form start (W.sink to.old) out.old.items ending →
        LoadRan p o form start (W.sink to.new) result }
{
    let Ok(ending) = ending else {
        return Err(LoadFault::Write);
    };
    if let Err(_) = flush(out, to) {
        return Err(LoadFault::Write);
    }
    match ending {
        Ending::Served => Ok(()),
        Ending::Short(shortage) => Err(LoadFault::Short(shortage)),
    }
}

/// Writes a load: the terminals of a plan ask for their requests, in an order that is drawn too.
///
/// The script opens a population, and its lines are answered without an error but `Busy`, and,
/// where unused items are asked for as they are drawn, but `InvalidItem`, which ends such an order.
/// At its end nothing is open, and each terminal has had its requests answered, in their order. It
/// begins with the first transaction of each terminal, before any of them goes on. A
/// terminal that is answered `Busy` goes on once its lock is free, or is rolled back and begins
/// again where terminals wait for one another. Where extents run out, commits are purged. Whose
/// turn each line is, is a function of the seed.
///
/// On tables that are there the script has no opening, since a script begins opened on them.
///
/// In the form `Flat` it is the opening and the requests alone, each behind its terminal; on tables
/// that are there the opening says the extents alone.
///
/// In the form `Busy` it is a table of what happened at the lines of such a script: how often locks
/// of each kind were taken, in the way, and waited for by a transaction that was rolled back; the
/// names most often in the way; and the longest wait. Where it stops short the table is of the
/// lines so far.
///
/// `Short`: memory was refused, one transaction filled the ring, a column's range was left, or too
/// many turns were taken; what was written is a load that stops there, or nothing. So it is where a
/// request of the plan's scale names a row that the tables lack. `Write`: a write failed, and a
/// beginning of that was written.
pub fn run_load<M: Machine, W: Outlet>(
    alloc: Global,
    plan: &Plan,
    origin: Origin,
    form: Form,
    writer: &mut W,
) -> Result<(), LoadFault>
    requires { IsOrigin origin }
    ensures { LoadRan plan.now origin form (W.sink writer.old) (W.sink writer.new) result }
{
    let mut out = Pending::new();
    open(&mut out, plan, &origin, form);
    let ending = written::<M, W>(alloc, plan, origin, form, &mut out, writer);
    closed(ending, &mut out, writer)
}
