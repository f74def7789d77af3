//! The calls of a machine.
ghost use Rattle.std.specs.Prelude.{◌≡◌, ◌↔◌, ℕ, Option, IfOk, option_map, is_some};
ghost use Rattle.oe_theory.specs.World.{World, newest, horizon, tables, latest};
ghost use Rattle.oe_theory.specs.Next.{Next, IsQuiet, count_open};
ghost use Rattle.oe_theory.specs.Theorems.{IsReached, world_at_opening};
ghost use Rattle.oe_rows.specs.declared.locks.Name.{Name};
ghost use Rattle.oe_requests.specs.declared.replies.Reply.{Reply};
ghost use Rattle.oe_requests.specs.Reply.{told_reply};
ghost use Rattle.oe_model.specs.Locks.{mode_of};
ghost use Rattle.oe_model.specs.Conditions.{IsPopulation};
ghost use Rattle.oe_model.specs.System.{system, terminal_limit};
ghost use Rattle.oe_store.specs.Places.{rows};
ghost use Rattle.oe_locks.specs.Listed.{stands, AreOnce};
ghost use Rattle.oe_locks.specs.Holds.{hold_of};
ghost use Rattle.oe_machine.specs.Steps.{step_in, answer_in, Carries, begin_answer, Advances};
ghost use Rattle.oe_machine.specs.Replies.{RepliesBegun, RepliesAfter, RepliesWithout, RepliesStepped};
ghost use Rattle.oe_machine.specs.Asks.{held_by, wanted_by};

use crate::advances::Advanced;
use oe_locks::Lock;
use oe_requests::{Answer, Condition, Query, Refusal, ReplyRef, Request, Step};
use oe_rows::{Layout, Mode, Name};
use oe_store::Tables;
use oe_values::{ExtentCount, Moment, NoMemory, Terminal};
use std::alloc::Global;

/// A machine on which transactions overlap. Each step is the model's, or is refused with its cause.
pub trait Machine {
    /// The world that it stands for.
    ghost world: { Self → World system };

    /// The reply of a terminal's last transaction, if it committed.
    ghost last: { Self → ℕ → Option Reply };

    /// Opens a machine on a population, with that number of undo extents and records of that layout.
    ///
    /// `NoMemory`: memory was refused.
    fn open(
        alloc: Global,
        tables: Tables,
        extents: ExtentCount,
        layout: Layout,
    ) -> Result<Self, NoMemory>
        requires { IsPopulation (rows tables) }
        ensures { IfOk result (λ c. world c
            ≡ world_at_opening system (rows tables) extents layout) };

    /// Lends the tables as they are, open work included.
    fn tables(&self) -> &Tables
        ensures { rows result.now ≡ tables system (world self.now) };

    /// States that steps have led to where the machine stands.
    fn is_reached(&self)
        ensures { IsReached system (world self.now) };

    /// Gives the allocator of what the machine takes.
    fn allocator(&self) -> Global;

    /// Gives the newest moment: the number of all commits so far.
    fn newest(&self) -> Moment
        ensures { result ≡ newest system (world self.now) };

    /// Gives the oldest moment that can be read.
    fn horizon(&self) -> Moment
        ensures { result ≡ horizon system (world self.now) };

    /// Counts the terminals that have a transaction open.
    fn open_count(&self) -> u32
        ensures count { result ≡ count_open system (world self.now).active terminal_limit }
        ensures quiet { (result ≡ 0) ↔ IsQuiet system (world self.now) };

    /// Tells whether a terminal has a transaction open.
    fn is_open(&self, terminal: Terminal) -> bool
        ensures { result ≡ is_some ((world self.now).active terminal) };

    /// Gives the lock that the next stage of a terminal's transaction asks for; none if the stage
    /// asks for none or stops before it, or the terminal has no transaction open.
    fn wanted(&self, terminal: Terminal) -> Option<Lock>
        ensures { option_map hold_of result ≡ wanted_by (world self.now) terminal };

    /// Gives the mode in which a terminal's transaction holds a name; none if it does not hold the
    /// name, or the terminal has no transaction open.
    fn held(&self, terminal: Terminal, name: &Name) -> Option<Mode>
        ensures { option_map mode_of result ≡ held_by (world self.now) terminal name.now };

    /// Lends the names that a terminal's transaction holds, each once; none if the terminal has no
    /// transaction open.
    fn names(&self, terminal: Terminal) -> &[Name]
        ensures held { (q : Name) → stands result.now q
            ≡ is_some (held_by (world self.now) terminal q) }
        ensures once { AreOnce result.now };

    /// Lends the reply of a terminal's last transaction if it committed; none if it is open, was
    /// rolled back, or there was none.
    fn last_reply(&self, terminal: Terminal) -> Option<ReplyRef<'_>>
        ensures { option_map told_reply result ≡ last self.now terminal };

    /// Begins the terminal's transaction.
    ///
    /// `NoSuchRow`: the first warehouse of the request that isn't there. `AlreadyOpen`: the
    /// terminal has a transaction open. `Overflow` of H_NUMBER: it has had 4,294,967,295.
    /// `NoMemory`. The first of these is named, and nothing has changed.
    fn begin(&mut self, terminal: Terminal, request: &Request) -> Result<(), Refusal>
        ensures carries { Carries (world self.old) (Step.Begin terminal request.now)
            (begin_answer result) (world self.new) }
        ensures replies { RepliesBegun terminal result (last self.old)
            (last self.new) };

    /// Carries out one stage of the terminal's transaction; if none is left, the transaction
    /// commits.
    ///
    /// `NotOpen`, `Busy`, `UndoFull` and `NoMemory` have changed nothing. After another refusal the
    /// transaction is rolled back. The reply of a commit is the terminal's `last_reply`.
    fn advance(&mut self, terminal: Terminal) -> Advanced
        ensures advances { Advances (world self.old) terminal result (world self.new)
            (last self.new terminal) }
        ensures replies { RepliesAfter terminal result (last self.old)
            (last self.new) };

    /// Moves the mark of the terminal's transaction to where it stands.
    ///
    /// `NotOpen`: it has none. Nothing has changed then.
    fn save(&mut self, terminal: Terminal) -> Answer
        ensures carries { Carries (world self.old) (Step.Save terminal) result
            (world self.new) }
        ensures replies { last self.new ≡ last self.old };

    /// Takes the terminal's transaction back to its mark; it keeps its locks.
    ///
    /// `NotOpen`: it has none. Nothing has changed then.
    fn back(&mut self, terminal: Terminal) -> Answer
        ensures carries { Carries (world self.old) (Step.Back terminal) result
            (world self.new) }
        ensures replies { last self.new ≡ last self.old };

    /// Rolls the terminal's transaction back, and forgets what it carried out.
    ///
    /// `NotOpen`: it has none. Nothing has changed then.
    fn rollback(&mut self, terminal: Terminal) -> Answer
        ensures carries { Carries (world self.old) (Step.Rollback terminal) result
            (world self.new) }
        ensures replies { RepliesWithout terminal result (last self.old)
            (last self.new) };

    /// Gives the verdict on a condition, of a moment, whatever is open.
    ///
    /// `TooOld` with the horizon, `Future` with the newest moment: the moment is not between the
    /// two.
    fn audit(&self, condition: Condition, moment: Moment) -> Answer
        ensures { Carries (world self.now) (Step.Audit condition moment) result
            (world self.now) };

    /// Answers a query of that moment, whatever is open.
    ///
    /// `NoSuchRow`: its warehouse isn't there. `TooOld`, `Future`: the moment is before the
    /// horizon, or after the newest, which is named. `NoCustomer`: nobody has the number or the
    /// last name. The first of these is named.
    fn read(&self, moment: Moment, query: &Query) -> Answer
        ensures { Carries (world self.now) (Step.Read moment query.now) result
            (world self.now) };

    /// Forgets the commits up to a moment, which becomes the oldest that can be read, whatever is
    /// open.
    ///
    /// `TooOld` with the horizon, `Future` with the newest moment: the moment is not between the
    /// two.
    fn purge(&mut self, moment: Moment) -> Answer
        ensures carries { Carries (world self.old) (Step.Purge moment) result
            (world self.new) }
        ensures replies { last self.new ≡ last self.old };

    /// Undoes the commits after a moment, which becomes the newest, while no transaction is open.
    ///
    /// `NotQuiet` with the number of open transactions. `TooOld` with the horizon, `Future` with
    /// the newest moment: the moment is not between the two. The first of these is named.
    fn rewind(&mut self, moment: Moment) -> Answer
        ensures carries { Carries (world self.old) (Step.Rewind moment) result
            (world self.new) }
        ensures replies { last self.new ≡ last self.old };

    /// Rolls back what is open, and gives the tables: the newest version.
    fn close(self) -> Tables
        ensures { rows result ≡ latest system (world self) };

    /// Rolls back what is open, and lets go of the tables.
    fn discard(self);

    /// Carries out one step, and answers it.
    ///
    /// A refusal has changed nothing, except an Advance's that is none of `Busy`, `UndoFull`,
    /// `NoMemory` and `NotOpen`: it has rolled its transaction back.
    // In its callers, so that an answer is not copied from layer to layer.
    #[inline(always)]
    final fn step(&mut self, step: Step) -> Answer
        ensures serves { Next system (world self.old) (step_in step) (answer_in step result)
            (world self.new) }
        ensures replies { RepliesStepped step result (last self.old) (last self.new) }
        ensures reached { IsReached system (world self.new) }
    {
        match step {
            Step::Begin(terminal, request) => self.answer_begin(terminal, &request),
            Step::Advance(terminal) => self.answer_advance(terminal),
            Step::Save(terminal) => self.save(terminal),
            Step::Back(terminal) => self.back(terminal),
            Step::Rollback(terminal) => self.rollback(terminal),
            Step::Audit(condition, moment) => self.audit(condition, moment),
            Step::Read(moment, query) => self.read(moment, &query),
            Step::Purge(moment) => self.purge(moment),
            Step::Rewind(moment) => self.rewind(moment),
        }
    }

    /// Carries out a Begin, and answers it.
    final fn answer_begin(&mut self, terminal: Terminal, request: &Request) -> Answer
        ensures carries { Carries (world self.old) (Step.Begin terminal request.now) result
            (world self.new) }
        ensures replies { RepliesStepped (Step.Begin terminal request.now) result
            (last self.old) (last self.new) }
    {
        match self.begin(terminal, request) {
            Ok(()) => Answer::Begun,
            Err(refusal) => Answer::Refused(refusal),
        }
    }

    /// Carries out an Advance, and answers it, with the reply.
    final fn answer_advance(&mut self, terminal: Terminal) -> Answer
        ensures carries { Carries (world self.old) (Step.Advance terminal) result
            (world self.new) }
        ensures replies { RepliesStepped (Step.Advance terminal) result (last self.old)
            (last self.new) }
    {
        match self.advance(terminal) {
            Advanced::More => Answer::More,
            Advanced::Committed(moment) => match self.last_reply(terminal) {
                Some(reply) => Answer::Committed(moment, reply.copied()),
                None => unreachable!(),
            },
            Advanced::Kept(refusal) => Answer::Refused(refusal),
            Advanced::RolledBack(refusal) => Answer::Refused(refusal),
        }
    }
}
