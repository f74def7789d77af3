//! A core, with the history that has led to it.
//!
//! By its invariant the history is a run of the machine from the world with which the shop opened
//! to where the core stands. Each call is one step of the core, and its entry is the newest of the
//! history; its caller has then seen all of it.
ghost use Rattle.std.specs.Prelude.{◌≡◌, ◌≤◌, ℕ, []};
ghost use Rattle.oe_theory.specs.World.{newest, horizon};
ghost use Rattle.oe_theory.specs.Next.{IsQuiet};
ghost use Rattle.oe_model.specs.System.{system};
ghost use Rattle.oe_machine.specs.Steps.{Carries, Advances, begin_answer};
ghost use Rattle.oe_history.specs.Views.{entry, calls_by};
ghost use Rattle.oe_history.specs.Calls.{TheHistory, Extends, Knows, with_entry};
ghost use Rattle.oe_hall.specs.Histories.{IsHistory, HasHappened, is_open};
ghost use Rattle.oe_hall.specs.Turns.{TheRecord, BeginMoves, BeginLeaves, HasMoved, AdvanceLeaves, LeavesReply, AdvanceCall, advance_answer, EndMoves, EndLeaves, EndCall, end_answer, read_answer, IsYoung, HasPurged};

use crate::calls;
use crate::naming::Naming;
use oe_history::{Caller, History};
use oe_machine::{Advanced, Machine};
use oe_requests::{Answer, Query, QueryReply, Refusal, Reply, Request, Step};
use oe_values::{Moment, Terminal};
use std::marker::{Brand, Model, PhantomData};

/// A core with its history. It can't be dropped, since the core can't.
pub struct Recorded<J: Naming, M: Machine> {
    core: M,
    history: History,
    of: PhantomData<J>,
}

impl<J: Naming, M: Machine> Model for Recorded<J, M> {
    ghost use Rattle.std.specs.Prelude.{◌≡◌};
    ghost use Rattle.oe_theory.specs.Next.{IsQuiet};
    ghost use Rattle.oe_model.specs.System.{system};
    ghost use Rattle.oe_hall.specs.Histories.{IsHistory};
    ghost use Rattle.oe_hall.specs.Turns.{TheRecord};

    ghost Value = { TheRecord M };

    ghost view = { λ r. record { core = r.core; history = r.history } };

    ghost invariant = { λ r. (r.history.table ≡ J.names.history)
        × IsQuiet system J.names.opened
        × IsHistory J.names.opened r.history.log (M.world r.core) };
}

impl<J: Naming, M: Machine> Recorded<J, M> {
    /// Makes a record of a core that has just opened, and of a history with no entry.
    pub(crate) fn new(core: M, history: History) -> Recorded<J, M>
        requires table { history.table ≡ J.names.history }
        requires none { history.log ≡ [] }
        requires opened { M.world core ≡ J.names.opened }
        requires quiet { IsQuiet system J.names.opened }
        ensures { result ≡ record { core = core; history = history } }
    {
        Recorded {
            core,
            history,
            of: PhantomData,
        }
    }

    /// Gives the newest moment.
    pub(crate) fn newest(&self) -> Moment
        ensures { result ≡ newest system (M.world self.now.core) }
    {
        let _history = &self.history;
        self.core.newest()
    }

    /// Begins the caller's transaction.
    pub(crate) fn begin(
        &mut self,
        caller: &mut Caller,
        terminal: Terminal,
        request: &Request,
    ) -> Result<(), Refusal>
        requires here { caller.old.table ≡ J.names.history }
        requires own { caller.old.by ≡ terminal }
        ensures step { Carries (M.world self.old.core) (Step.Begin terminal request.now)
            (begin_answer result) (M.world self.new.core) }
        ensures counts { BeginMoves result (M.world self.old.core) (M.world self.new.core) }
        ensures written { self.new.history ≡ with_entry
            (entry terminal (Step.Begin terminal request.now) (begin_answer result))
            self.old.history }
        ensures called { Extends caller.old
            (entry terminal (Step.Begin terminal request.now) (begin_answer result)) caller.new }
        ensures here { (caller.new.table ≡ caller.old.table) × (caller.new.by ≡ caller.old.by) }
        ensures run { HasHappened J.names.opened caller.new.seen }
        ensures open { BeginLeaves result (is_open caller.old.mine) (is_open caller.new.mine) }
    {
        let begun = calls::begin(&mut self.core, terminal, request);
        self.history
            .write::<Brand, Request, Result<(), Refusal>>(caller, request, &begun);
        begun
    }

    /// Carries out the next stage of the caller's transaction.
    #[inline]
    pub(crate) fn advance(
        &mut self,
        caller: &mut Caller,
        terminal: Terminal,
        reply: &mut Option<Reply>,
    ) -> Advanced
        requires here { caller.old.table ≡ J.names.history }
        requires own { caller.old.by ≡ terminal }
        ensures step { Advances (M.world self.old.core) terminal result
            (M.world self.new.core) reply.new }
        ensures reply { LeavesReply result reply.old reply.new }
        ensures counts { HasMoved result (M.world self.old.core) (M.world self.new.core) }
        ensures written { self.new.history ≡ with_entry
            (entry terminal (Step.Advance terminal) (advance_answer result reply.new))
            self.old.history }
        ensures called { AdvanceCall caller.old terminal result reply.new caller.new }
        ensures here { (caller.new.table ≡ caller.old.table) × (caller.new.by ≡ caller.old.by) }
        ensures run { HasHappened J.names.opened caller.new.seen }
        ensures open { AdvanceLeaves result (is_open caller.old.mine) (is_open caller.new.mine) }
    {
        let advanced = calls::advance(&mut self.core, terminal, reply);
        self.history
            .write::<Brand, Option<Reply>, Advanced>(caller, &*reply, &advanced);
        advanced
    }

    /// Rolls the caller's transaction back.
    pub(crate) fn end(&mut self, caller: &mut Caller, terminal: Terminal) -> Result<(), Refusal>
        requires here { caller.old.table ≡ J.names.history }
        requires own { caller.old.by ≡ terminal }
        ensures step { Carries (M.world self.old.core) (Step.Rollback terminal)
            (end_answer result) (M.world self.new.core) }
        ensures counts { EndMoves result (M.world self.old.core) (M.world self.new.core) }
        ensures written { self.new.history ≡ with_entry
            (entry terminal (Step.Rollback terminal) (end_answer result)) self.old.history }
        ensures called { EndCall caller.old terminal result caller.new }
        ensures here { (caller.new.table ≡ caller.old.table) × (caller.new.by ≡ caller.old.by) }
        ensures run { HasHappened J.names.opened caller.new.seen }
        ensures open { EndLeaves result (is_open caller.old.mine) (is_open caller.new.mine) }
    {
        let ended = calls::end(&mut self.core, terminal);
        self.history
            .write::<Brand, Terminal, Result<(), Refusal>>(caller, &terminal, &ended);
        ended
    }

    /// Answers a query of a moment from the horizon on.
    pub(crate) fn read(
        &mut self,
        caller: &mut Caller,
        moment: Moment,
        query: &Query,
    ) -> Result<QueryReply, Refusal>
        requires here { caller.old.table ≡ J.names.history }
        requires kept { horizon system (M.world self.old.core) ≤ moment }
        ensures step { Carries (M.world self.old.core) (Step.Read moment query.now)
            (read_answer result) (M.world self.new.core) }
        ensures same { self.new.core ≡ self.old.core }
        ensures young { IsYoung result }
        ensures written { self.new.history ≡ with_entry
            (entry caller.old.by (Step.Read moment query.now) (read_answer result))
            self.old.history }
        ensures called { Extends caller.old
            (entry caller.old.by (Step.Read moment query.now) (read_answer result)) caller.new }
        ensures here { (caller.new.table ≡ caller.old.table) × (caller.new.by ≡ caller.old.by) }
        ensures run { HasHappened J.names.opened caller.new.seen }
    {
        let read = calls::read(&self.core, moment, query);
        self.history
            .write::<Brand, (Moment, &Query), Result<QueryReply, Refusal>>(
                caller,
                &(moment, query),
                &read,
            );
        read
    }

    /// Makes a moment between the horizon and the newest the horizon.
    pub(crate) fn purge(&mut self, caller: &mut Caller, moment: Moment)
        requires here { caller.old.table ≡ J.names.history }
        requires own { caller.old.by ≡ 0 }
        requires old { horizon system (M.world self.old.core) ≤ moment }
        requires new { moment ≤ newest system (M.world self.old.core) }
        ensures step { Carries (M.world self.old.core) (Step.Purge moment)
            (Answer.Purged moment) (M.world self.new.core) }
        ensures counts { HasPurged moment (M.world self.old.core) (M.world self.new.core) }
        ensures written { self.new.history ≡ with_entry
            (entry caller.old.by (Step.Purge moment) (Answer.Purged moment)) self.old.history }
        ensures called { Extends caller.old
            (entry caller.old.by (Step.Purge moment) (Answer.Purged moment)) caller.new }
        ensures seen { self.new.history.log ≡ caller.new.seen }
        ensures here { (caller.new.table ≡ caller.old.table) × (caller.new.by ≡ caller.old.by) }
        ensures run { HasHappened J.names.opened caller.new.seen }
    {
        calls::purge(&mut self.core, moment);
        self.history
            .write::<Brand, Moment, Moment>(caller, &moment, &moment);
    }

    /// Shows that a caller's calls are the entries of its number. This is a law, and changes
    /// nothing.
    pub(crate) fn look(&mut self, caller: &mut Caller)
        requires here { caller.old.table ≡ J.names.history }
        ensures same { (self.new ≡ self.old) × (caller.new ≡ caller.old) }
        ensures told { Knows self.old.history.log caller.old }
    {
        self.history.look(caller);
    }

    /// Gives the core, and the history that has led to it, in which no number stands that was not
    /// dealt.
    pub(crate) fn into_parts(self) -> (M, History)
        ensures same { (result.0 ≡ self.core) × (result.1 ≡ self.history) }
        ensures run { IsHistory J.names.opened result.1.log (M.world result.0) }
        ensures others { (by : ℕ) → self.history.dealt ≤ by → calls_by by result.1.log ≡ [] }
    {
        let Recorded {
            core,
            mut history,
            of: _,
        } = self;
        history.count();
        (core, history)
    }
}
