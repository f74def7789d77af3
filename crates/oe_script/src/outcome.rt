//! What a line comes to: the step that it asks for is taken, and the text of its answer appended.
ghost use Rattle.std.specs.Prelude.{◌≡◌, ◌≤◌, ◌+◌, ◌++◌, ℕ, List, length, Option, Some, None, IfOk, IsSome};
ghost use Rattle.arrayvec.specs.ArrayVec.{array_vec_len};
ghost use Rattle.oe_theory.specs.Theorems.{world_at_opening};
ghost use Rattle.oe_model.specs.Rows.{Rows};
ghost use Rattle.oe_lines.specs.Rings.{layout_of};
ghost use Rattle.oe_model.specs.Population.{IsPopulated};
ghost use Rattle.oe_model.specs.System.{system};
ghost use Rattle.oe_lines.specs.Grammar.{Says, HasForm};
ghost use Rattle.oe_lines.specs.declared.commands.Command.TheVariants as asks;
ghost use Rattle.oe_requests.specs.declared.replies.Reply.{Reply};
ghost use Rattle.oe_requests.specs.declared.answers.Answer.{Answer};
ghost use Rattle.oe_requests.specs.declared.steps.Step.TheVariants as step;
ghost use Rattle.oe_texts.specs.Answer.{answer_line};
ghost use Rattle.oe_io.specs.Ports.{Streams};
ghost use Rattle.oe_script.specs.Script.{LineAnswer, RunsIn, moment_in, shown_text};
ghost use Rattle.oe_script.specs.Session.{state_of};
ghost use Rattle.oe_admission.specs.Programs.{IsLive};
ghost use Rattle.oe_script.specs.Hearing.{Takes};
ghost use Rattle.oe_script.specs.Outcome.{IsAnswer, Tells, TellsRun, Sorts};

use oe_dumps::dump;
use oe_io::output::{bad, make_room};
use oe_io::ports::{Failed, Outlet};
use oe_lines::commands::RingChoice;
use oe_lines::{Command, Display, MomentChoice, command, payment_to_begin, terminal_to_run};
use oe_machine::{Advanced, Machine};
use oe_population::populate;
use oe_requests::{Answer, Condition, Query, Refusal, Request};
use oe_rows::Scale;
use oe_texts::{LONGEST, Pending, SIZE, answer, audited, begun, committed, more, opened, refused};
use oe_values::{Moment, NoMemory, Terminal};
use oe_waits::{show_locks, show_waits};
use std::alloc::Global;

/// Answers a line, which stands without its end and has this number, and tells whether it is a
/// command here; where it is none, it is answered `BadLine`. What waits is written first where the
/// longest line has no room behind it; where that failed, no step was taken.
pub fn answer_line<W: Outlet, M: Machine>(
    core: &mut Option<M>,
    alloc: Global,
    line: &[u8],
    number: u128,
    out: &mut Pending,
    to: &mut W,
) -> Result<bool, Failed>
    requires short { length line.now ≤ 1_024 }
    requires live { IsLive (state_of M.world core.old) }
    ensures { Sorts (state_of M.world core.old) number line.now (state_of M.world core.new)
        (W.sink to.old) out.old.items (W.sink to.new) out.new.items result }
{
    if let Err(e) = make_room(out, to) {
        return Err(e);
    }
    take_line(core, alloc, line, number, out, to)
}

// Takes a line where there is room.
#[inline(always)]
fn take_line<W: Outlet, M: Machine>(
    core: &mut Option<M>,
    alloc: Global,
    line: &[u8],
    number: u128,
    out: &mut Pending,
    to: &mut W,
) -> Result<bool, Failed>
    requires room { array_vec_len out.old + LONGEST ≤ SIZE }
    requires short { length line.now ≤ 1_024 }
    requires live { IsLive (state_of M.world core.old) }
    ensures { Sorts (state_of M.world core.old) number line.now (state_of M.world core.new)
        (W.sink to.old) out.old.items (W.sink to.new) out.new.items result }
{
    match core {
        None => Ok(first_line(core, alloc, line, number, out)),
        Some(core) => run_or_later(core, line, number, out, to),
    }
}

/// Answers a line before something is open.
#[inline(never)]
fn first_line<M: Machine>(
    core: &mut Option<M>,
    alloc: Global,
    line: &[u8],
    number: u128,
    out: &mut Pending,
) -> bool
    requires room { array_vec_len out.old + LONGEST ≤ SIZE }
    requires short { length line.now ≤ 1_024 }
    requires none { core.old ≡ None }
    ensures { (text : List ℕ) × LineAnswer None number line.now text (state_of M.world core.new)
        × (out.new.items ≡ out.old.items ++ text) × Takes result None line.now }
{
    match command(line) {
        Some(asked) => first(core, alloc, &asked, number, out),
        None => {
            bad(out, number);
            false
        }
    }
}

/// Answers a line where something is open. A run has the terminal alone, since a command is long.
fn run_or_later<W: Outlet, M: Machine>(
    core: &mut M,
    line: &[u8],
    number: u128,
    out: &mut Pending,
    to: &mut W,
) -> Result<bool, Failed>
    requires room { array_vec_len out.old + LONGEST ≤ SIZE }
    requires short { length line.now ≤ 1_024 }
    requires live { IsLive (Some (M.world core.old)) }
    ensures { Sorts (Some (M.world core.old)) number line.now (Some (M.world core.new))
        (W.sink to.old) out.old.items (W.sink to.new) out.new.items result }
{
    if let Some(terminal) = terminal_to_run(line) {
        tell_run(core, terminal, out);
        return Ok(true);
    }
    begin_or_later(core, line, number, out, to)
}

/// Answers a line that runs nothing. Of a payment no more is written than it has.
fn begin_or_later<W: Outlet, M: Machine>(
    core: &mut M,
    line: &[u8],
    number: u128,
    out: &mut Pending,
    to: &mut W,
) -> Result<bool, Failed>
    requires room { array_vec_len out.old + LONGEST ≤ SIZE }
    requires short { length line.now ≤ 1_024 }
    requires live { IsLive (Some (M.world core.old)) }
    ensures { Sorts (Some (M.world core.old)) number line.now (Some (M.world core.new))
        (W.sink to.old) out.old.items (W.sink to.new) out.new.items result }
{
    if let Some(asked) = payment_to_begin(line) {
        let request = Request::Payment(asked.1);
        tell_begin(core, asked.0, &request, out);
        return Ok(true);
    }
    later_line(core, line, number, out, to)
}

/// Answers any line.
#[inline(never)]
fn later_line<W: Outlet, M: Machine>(
    core: &mut M,
    line: &[u8],
    number: u128,
    out: &mut Pending,
    to: &mut W,
) -> Result<bool, Failed>
    requires room { array_vec_len out.old + LONGEST ≤ SIZE }
    requires short { length line.now ≤ 1_024 }
    requires live { IsLive (Some (M.world core.old)) }
    ensures { Sorts (Some (M.world core.old)) number line.now (Some (M.world core.new))
        (W.sink to.old) out.old.items (W.sink to.new) out.new.items result }
{
    let Some(asked) = command(line) else {
        bad(out, number);
        return Ok(false);
    };
    later(core, &asked, number, out, to)
}

/// Answers what a line asks for.
fn first<M: Machine>(
    core: &mut Option<M>,
    alloc: Global,
    asked: &Command,
    number: u128,
    out: &mut Pending,
) -> bool
    requires room { array_vec_len out.old + LONGEST ≤ SIZE }
    requires none { core.old ≡ None }
    requires form { HasForm asked.now }
    ensures { (line : List ℕ) → length line ≤ 1_024 → Says line asked.now →
        (text : List ℕ) × LineAnswer None number line text (state_of M.world core.new)
        × (out.new.items ≡ out.old.items ++ text) × Takes result None line }
{
    match asked {
        Command::Open(scale, ring) => match populated(alloc, *scale, *ring) {
            Ok(made) => {
                let old = core.replace(made);
                let None = old else { unreachable!() };
                opened(out);
                true
            }
            Err(_) => {
                refused(out, &Refusal::NoMemory);
                true
            }
        },
        _ => {
            bad(out, number);
            false
        }
    }
}

/// Opens a machine with the population of a scale.
fn populated<M: Machine>(alloc: Global, scale: Scale, ring: RingChoice) -> Result<M, NoMemory>
    requires { HasForm (asks.Open scale ring) }
    ensures { IfOk result (λ c.
        (r : Rows) × IsPopulated scale r
        × (M.world c ≡ world_at_opening system r ring.extents (layout_of ring))) }
{
    match populate(alloc, scale) {
        Ok(tables) => M::open(alloc, tables, ring.extents, ring.layout_or_whole_rows()),
        Err(e) => Err(e),
    }
}

/// Answers what a line asks for.
fn later<W: Outlet, M: Machine>(
    core: &mut M,
    asked: &Command,
    number: u128,
    out: &mut Pending,
    to: &mut W,
) -> Result<bool, Failed>
    requires room { array_vec_len out.old + LONGEST ≤ SIZE }
    requires form { HasForm asked.now }
    requires live { IsLive (Some (M.world core.old)) }
    ensures { (line : List ℕ) → length line ≤ 1_024 → Says line asked.now →
        Sorts (Some (M.world core.old)) number line (Some (M.world core.new))
        (W.sink to.old) out.old.items (W.sink to.new) out.new.items result }
{
    match asked {
        Command::Show(shown) => match show(core, *shown, out, to) {
            Ok(()) => Ok(true),
            Err(e) => Err(e),
        },
        Command::Open(_, _) => {
            bad(out, number);
            Ok(false)
        }
        Command::Begin(terminal, request) => {
            tell_begin(core, *terminal, request, out);
            Ok(true)
        }
        Command::Next(terminal) => {
            tell_next(core, *terminal, out);
            Ok(true)
        }
        Command::Run(terminal) => {
            tell_run(core, *terminal, out);
            Ok(true)
        }
        Command::Save(terminal) => {
            answer(out, &core.save(*terminal));
            Ok(true)
        }
        Command::Back(terminal) => {
            answer(out, &core.back(*terminal));
            Ok(true)
        }
        Command::Rollback(terminal) => {
            answer(out, &core.rollback(*terminal));
            Ok(true)
        }
        Command::Audit(condition, moment) => {
            tell_audit(core, *condition, *moment, out);
            Ok(true)
        }
        Command::Read(moment, query) => {
            tell_read(core, *moment, query, out);
            Ok(true)
        }
        Command::Purge(moment) => {
            tell_purge(core, *moment, out);
            Ok(true)
        }
        Command::Rewind(moment) => {
            tell_rewind(core, *moment, out);
            Ok(true)
        }
    }
}

/// Shows a core's table, who waits for whom, or who holds what.
fn show<W: Outlet, M: Machine>(
    core: &M,
    shown: Display,
    out: &mut Pending,
    to: &mut W,
) -> Result<(), Failed>
    ensures { Streams (W.sink to.old) out.old.items (W.sink to.new) out.new.items
        (shown_text shown (M.world core.now)) result }
{
    match shown {
        Display::Rows(table) => dump(core.tables(), table, out, to),
        Display::Waits => show_waits(core, out, to),
        Display::Locks => show_locks(core, out, to),
    }
}

/// Begins a transaction.
fn tell_begin<M: Machine>(core: &mut M, terminal: Terminal, request: &Request, out: &mut Pending)
    requires { array_vec_len out.old + LONGEST ≤ SIZE }
    ensures { Tells (M.world core.old) (step.Begin terminal request.now) (M.world core.new)
        out.old.items out.new.items }
{
    match core.begin(terminal, request) {
        Ok(()) => begun(out),
        Err(refusal) => refused(out, &refusal),
    }
}

/// Takes one row.
fn tell_next<M: Machine>(core: &mut M, terminal: Terminal, out: &mut Pending)
    requires { array_vec_len out.old + LONGEST ≤ SIZE }
    ensures { Tells (M.world core.old) (step.Advance terminal) (M.world core.new)
        out.old.items out.new.items }
{
    let ended = core.advance(terminal);
    tell_advanced(core, terminal, &ended, out);
}

/// Runs stages until one does not answer `more`, and writes only that answer.
fn tell_run<M: Machine>(core: &mut M, terminal: Terminal, out: &mut Pending)
    requires room { array_vec_len out.old + LONGEST ≤ SIZE }
    requires live { IsLive (Some (M.world core.old)) }
    ensures { TellsRun (M.world core.old) terminal (M.world core.new)
        out.old.items out.new.items }
{
    let ended = run(core, terminal);
    tell_advanced(core, terminal, &ended, out);
}

/// Advances up to the first answer that is not `more`.
fn run<M: Machine>(core: &mut M, terminal: Terminal) -> Advanced
    requires { IsLive (Some (M.world core.old)) }
    ensures { (n : ℕ) × (x : Answer) × IsAnswer (M.last core.new terminal) result x
        × RunsIn n (M.world core.old) terminal x (M.world core.new) }
{
    loop {
        match core.advance(terminal) {
            Advanced::More => {}
            ended => return ended,
        }
    }
}

/// Appends the answer of a terminal's advance that ended so. The core lends the reply of a commit.
#[inline(always)]
fn tell_advanced<M: Machine>(core: &M, terminal: Terminal, ended: &Advanced, out: &mut Pending)
    requires room { array_vec_len out.old + LONGEST ≤ SIZE }
    requires answer { (x : Answer) × IsAnswer (M.last core.now terminal) ended.now x }
    ensures { (x : Answer) → IsAnswer (M.last core.now terminal) ended.now x
        → out.new.items ≡ out.old.items ++ answer_line x }
{
    match ended {
        Advanced::More => more(out),
        Advanced::Committed(moment) => tell_commit(core, terminal, *moment, out),
        Advanced::Kept(refusal) | Advanced::RolledBack(refusal) => refused(out, refusal),
    }
}

/// Appends the answer of the commit at a moment which a terminal's last transaction made.
#[inline]
fn tell_commit<M: Machine>(core: &M, terminal: Terminal, moment: Moment, out: &mut Pending)
    requires room { array_vec_len out.old + LONGEST ≤ SIZE }
    requires reply { IsSome (M.last core.now terminal) }
    ensures { (y : Reply) → M.last core.now terminal ≡ Some y
        → out.new.items ≡ out.old.items ++ answer_line (Answer.Committed moment y) }
{
    match &core.last_reply(terminal) {
        Some(reply) => committed(out, moment, reply),
        None => unreachable!(),
    }
}

/// Audits the moment that is asked for.
#[inline(never)]
fn tell_audit<M: Machine>(
    core: &mut M,
    condition: Condition,
    moment: MomentChoice,
    out: &mut Pending,
)
    requires { array_vec_len out.old + LONGEST ≤ SIZE }
    ensures { Tells (M.world core.old)
        (step.Audit condition (moment_in (M.world core.old) moment))
        (M.world core.new) out.old.items out.new.items }
{
    let moment = moment_of(core, moment);
    match core.audit(condition, moment) {
        Answer::Audited(verdict) => audited(out, condition, &verdict),
        given => answer(out, &given),
    }
}

/// Answers a query of the moment that is asked for.
#[inline(never)]
fn tell_read<M: Machine>(core: &mut M, moment: MomentChoice, query: &Query, out: &mut Pending)
    requires { array_vec_len out.old + LONGEST ≤ SIZE }
    ensures { Tells (M.world core.old)
        (step.Read (moment_in (M.world core.old) moment) query.now)
        (M.world core.new) out.old.items out.new.items }
{
    let moment = moment_of(core, moment);
    answer(out, &core.read(moment, query));
}

/// Lets go of what is older than the moment that is asked for.
fn tell_purge<M: Machine>(core: &mut M, moment: MomentChoice, out: &mut Pending)
    requires { array_vec_len out.old + LONGEST ≤ SIZE }
    ensures { Tells (M.world core.old) (step.Purge (moment_in (M.world core.old) moment))
        (M.world core.new) out.old.items out.new.items }
{
    let moment = moment_of(core, moment);
    answer(out, &core.purge(moment));
}

/// Takes the tables back to the moment that is asked for.
fn tell_rewind<M: Machine>(core: &mut M, moment: MomentChoice, out: &mut Pending)
    requires { array_vec_len out.old + LONGEST ≤ SIZE }
    ensures { Tells (M.world core.old) (step.Rewind (moment_in (M.world core.old) moment))
        (M.world core.new) out.old.items out.new.items }
{
    let moment = moment_of(core, moment);
    answer(out, &core.rewind(moment));
}

/// Gives the moment that is asked for.
fn moment_of<M: Machine>(core: &M, choice: MomentChoice) -> Moment
    ensures { result ≡ moment_in (M.world core.now) choice }
{
    match choice {
        MomentChoice::Now => core.newest(),
        MomentChoice::At(moment) => moment,
    }
}
