//! The locked value: a core with its history, what was told in all, and the keeper of the pins.
//!
//! By its invariant the newest moment counts the commits, what was begun is what was committed, was
//! rolled back and is open, the keeper's horizon is the world's, and undo records have the layout
//! that the shop's names say. Each call is one step of the machine, and one entry of the history,
//! or neither, as its clause says. What the keeper found and claimed stands in its notes. Nothing
//! here takes memory of its own.
ghost use Rattle.std.specs.Prelude.{◌≡◌, ℕ, ◌<◌, ◌≤◌, ◌^◌, [], min};
ghost use Rattle.std.specs.Arc.{arc_value};
ghost use Rattle.oe_theory.specs.World.{newest, horizon};
ghost use Rattle.oe_model.specs.System.{system};
ghost use Rattle.oe_history.specs.Views.{calls_by};
ghost use Rattle.oe_history.specs.Calls.{Knows};
ghost use Rattle.oe_moments.specs.Rule.{at_start};
ghost use Rattle.oe_moments.specs.Pins.{AreOfDesks};
ghost use Rattle.oe_hall.specs.Counts.{none, AreTotals};
ghost use Rattle.oe_hall.specs.Histories.{IsHistory, HasHappened, is_open};
ghost use Rattle.oe_hall.specs.Turns.{IsHall, BeginCall, AdvanceCall, EndCall, ReadCall, PurgeCall, BeginLeaves, AdvanceLeaves, EndLeaves, open_count, BeginTurn, AdvanceTurn, LeavesReply, EndTurn, ReadTurn, PurgeTurn, begin_told, tally_after, end_told, IsYoung};

use crate::counts::{Told, Totals};
use crate::naming::Naming;
use crate::records::Recorded;
use oe_history::{Caller, History};
use oe_machine::{Advanced, Machine};
use oe_moments::{KeeperSeat, Moments, Pin};
use oe_requests::{Query, QueryReply, Refusal, Reply, Request};
use oe_values::{Moment, Terminal};
use std::marker::Model;
use std::sync::Arc;

/// The hall of a shop. It can't be dropped, since the core can't.
pub struct Hall<J: Naming, M: Machine> {
    recorded: Recorded<J, M>,
    totals: Totals<J>,
    moments: Arc<Moments>,
    keeper: KeeperSeat,
}

impl<J: Naming, M: Machine> Model for Hall<J, M> {
    ghost use Rattle.std.specs.Prelude.{◌≡◌};
    ghost use Rattle.std.specs.Arc.{arc_value};
    ghost use Rattle.oe_theory.specs.World.{horizon};
    ghost use Rattle.oe_model.specs.System.{system};
    ghost use Rattle.oe_moments.specs.Pins.{AreOfDesks};
    ghost use Rattle.oe_hall.specs.Turns.{TheHall, AreCounts};

    ghost Value = { TheHall M };

    ghost view = { λ h. record {
      core = h.recorded.core;
      history = h.recorded.history;
      counts = h.totals;
      keeper = h.keeper.notes;
      words = arc_value h.moments;
    } };

    ghost invariant = { λ h. AreCounts h.totals (M.world h.recorded.core)
        × (h.keeper.words ≡ arc_value h.moments)
        × (h.keeper.notes.horizon ≡ horizon system (M.world h.recorded.core))
        × AreOfDesks (arc_value h.moments) 64 × (arc_value h.moments ≡ J.names.words)
        × ((M.world h.recorded.core).layout ≡ J.names.layout)
        × (h.recorded.history.dealt ≡ 65) };
}

impl<J: Naming, M: Machine> Hall<J, M> {
    /// Makes a hall of a core that has begun nothing, and of words that nothing is told of.
    pub(crate) fn new(
        recorded: Recorded<J, M>,
        totals: Totals<J>,
        moments: Arc<Moments>,
        keeper: KeeperSeat,
    ) -> Hall<J, M>
        requires newest { newest system (M.world recorded.core) ≡ 0 }
        requires quiet { open_count (M.world recorded.core) ≡ 0 }
        requires horizon { horizon system (M.world recorded.core) ≡ 0 }
        requires dealt { recorded.history.dealt ≡ 65 }
        requires totals { totals ≡ none }
        requires keeper { keeper ≡ record { words = arc_value moments; notes = at_start } }
        requires words { AreOfDesks (arc_value moments) 64 }
        requires naming { arc_value moments ≡ J.names.words }
        requires layout { (M.world recorded.core).layout ≡ J.names.layout }
        ensures { result ≡ record {
          core = recorded.core;
          history = recorded.history;
          counts = none;
          keeper = at_start;
          words = arc_value moments;
        } }
    {
        Hall {
            recorded,
            totals,
            moments,
            keeper,
        }
    }

    /// Begins the terminal's transaction. A refusal has changed nothing.
    pub fn begin(
        &mut self,
        told: &mut Told<J>,
        caller: &mut Caller,
        terminal: Terminal,
        request: &Request,
    ) -> Result<(), Refusal>
        requires part { 0 < told.old.parts }
        requires here { caller.old.table ≡ J.names.history }
        requires own { caller.old.by ≡ terminal }
        ensures hall { IsHall M.world self.old × IsHall M.world self.new }
        ensures turn { BeginTurn M.world self.old terminal request.now result self.new }
        ensures told { told.new ≡ begin_told result told.old }
        ensures called { BeginCall caller.old terminal request.now result caller.new }
        ensures here { (caller.new.table ≡ caller.old.table) × (caller.new.by ≡ caller.old.by) }
        ensures run { HasHappened J.names.opened caller.new.seen }
        ensures open { BeginLeaves result (is_open caller.old.mine) (is_open caller.new.mine) }
    {
        if let Err(refusal) = self.recorded.begin(caller, terminal, request) {
            return Err(refusal);
        }
        self.totals.add_begun(told);
        Ok(())
    }

    /// Carries out the next stage of the terminal's transaction, which commits after the last.
    /// `reply` is then that commit's, and stays as it is otherwise.
    #[inline]
    pub fn advance(
        &mut self,
        told: &mut Told<J>,
        caller: &mut Caller,
        terminal: Terminal,
        reply: &mut Option<Reply>,
    ) -> Advanced
        requires part { 0 < told.old.parts }
        requires here { caller.old.table ≡ J.names.history }
        requires own { caller.old.by ≡ terminal }
        ensures hall { IsHall M.world self.old × IsHall M.world self.new }
        ensures turn { AdvanceTurn M.world self.old terminal result reply.new self.new }
        ensures reply { LeavesReply result reply.old reply.new }
        ensures told { told.new ≡ tally_after result told.old }
        ensures called { AdvanceCall caller.old terminal result reply.new caller.new }
        ensures here { (caller.new.table ≡ caller.old.table) × (caller.new.by ≡ caller.old.by) }
        ensures run { HasHappened J.names.opened caller.new.seen }
        ensures open { AdvanceLeaves result (is_open caller.old.mine) (is_open caller.new.mine) }
    {
        let ended = self.recorded.advance(caller, terminal, reply);
        match &ended {
            Advanced::More | Advanced::Kept(_) => {}
            Advanced::Committed(_) => self.totals.add_committed(told),
            Advanced::RolledBack(_) => self.totals.add_rolled_back(told),
        }
        ended
    }

    /// Rolls the terminal's transaction back. `NotOpen` where it has none; nothing has changed
    /// then.
    pub fn end(
        &mut self,
        told: &mut Told<J>,
        caller: &mut Caller,
        terminal: Terminal,
    ) -> Result<(), Refusal>
        requires part { 0 < told.old.parts }
        requires here { caller.old.table ≡ J.names.history }
        requires own { caller.old.by ≡ terminal }
        ensures hall { IsHall M.world self.old × IsHall M.world self.new }
        ensures turn { EndTurn M.world self.old terminal result self.new }
        ensures told { told.new ≡ end_told result told.old }
        ensures called { EndCall caller.old terminal result caller.new }
        ensures here { (caller.new.table ≡ caller.old.table) × (caller.new.by ≡ caller.old.by) }
        ensures run { HasHappened J.names.opened caller.new.seen }
        ensures open { EndLeaves result (is_open caller.old.mine) (is_open caller.new.mine) }
    {
        if let Err(refusal) = self.recorded.end(caller, terminal) {
            return Err(refusal);
        }
        self.totals.add_rolled_back(told);
        Ok(())
    }

    /// Looks at the word of a pin's desk, and answers a query of the moment that the pin holds: never
    /// `TooOld`. `NotPinned` with the word that was found, where it is another.
    pub fn read(
        &mut self,
        caller: &mut Caller,
        pin: &Pin,
        query: &Query,
    ) -> Result<QueryReply, Refusal>
        requires here { caller.old.table ≡ J.names.history }
        requires run { HasHappened J.names.opened caller.old.seen }
        ensures hall { IsHall M.world self.old × IsHall M.world self.new }
        ensures turn { ReadTurn M.world self.old caller.old.by pin.now query.now result self.new }
        ensures young { IsYoung result }
        ensures called { ReadCall M.world J.names.words caller.old caller.old.by pin.now query.now result
            caller.new }
        ensures here { (caller.new.table ≡ caller.old.table) × (caller.new.by ≡ caller.old.by) }
        ensures run { HasHappened J.names.opened caller.new.seen }
    {
        let moments = &*self.moments;
        // The call tells the prover the range of a terminal: there is a word for its desk.
        let _terminal = pin.terminal().get();
        if let Err(other) = moments.find(&mut self.keeper, pin) {
            return Err(Refusal::NotPinned(other.word));
        }
        self.recorded.read(caller, pin.moment(), query)
    }

    /// Has the keeper claim a moment, and no more than the newest, and purges as far as the pins
    /// allow. Gives the horizon.
    pub fn purge(&mut self, caller: &mut Caller, moment: Moment) -> Moment
        requires here { caller.old.table ≡ J.names.history }
        requires own { caller.old.by ≡ 0 }
        ensures hall { IsHall M.world self.old × IsHall M.world self.new }
        ensures turn { PurgeTurn M.world self.old moment result self.new }
        ensures words { self.old.words ≡ J.names.words }
        ensures called { PurgeCall caller.old result caller.new }
        ensures seen { self.new.history.log ≡ caller.new.seen }
        ensures here { (caller.new.table ≡ caller.old.table) × (caller.new.by ≡ caller.old.by) }
        ensures run { HasHappened J.names.opened caller.new.seen }
    {
        let wanted = earlier(moment, self.recorded.newest());
        let moments = &*self.moments;
        let reached = moments.purge(&mut self.keeper, wanted);
        self.recorded.purge(caller, reached);
        reached
    }

    /// Shows that what was told, where all of it is in one hand, is what the hall counts. This is a
    /// law, and changes nothing.
    pub(crate) fn audit(&mut self, all: &mut Told<J>)
        requires whole { all.old.parts ≡ 65 }
        ensures same { (self.new ≡ self.old) × (all.new ≡ all.old) }
        ensures hall { IsHall M.world self.old }
        ensures told { AreTotals all.old self.old.counts }
    {
        self.totals.audit(all);
    }

    /// Shows that a caller's calls are the entries of its number. This is a law, and changes
    /// nothing.
    pub(crate) fn look(&mut self, caller: &mut Caller)
        requires here { caller.old.table ≡ J.names.history }
        ensures same { (self.new ≡ self.old) × (caller.new ≡ caller.old) }
        ensures told { Knows self.old.history.log caller.old }
    {
        self.recorded.look(caller);
    }

    /// Gives the core and its history, as the hall leaves them.
    pub(crate) fn into_parts(self) -> (M, History)
        ensures hall { IsHall M.world self }
        ensures same { (result.0 ≡ self.core) × (result.1 ≡ self.history) }
        ensures layout { (M.world result.0).layout ≡ J.names.layout }
        ensures run { IsHistory J.names.opened result.1.log (M.world result.0) }
        ensures others { (by : ℕ) → 65 ≤ by → calls_by by result.1.log ≡ [] }
    {
        let Hall {
            recorded,
            totals: _,
            moments: _,
            keeper: _,
        } = self;
        recorded.into_parts()
    }
}

// Gives the earlier moment.
fn earlier(one: Moment, other: Moment) -> Moment
    ensures { result ≡ min one other }
{
    Moment::new(one.get().min(other.get())).unwrap()
}
