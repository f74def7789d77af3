//! The core: an engine, and in a slot for each terminal its open transaction's request, program and
//! mark. By its invariant it stands for a world that steps of the machine led to; each public call
//! is one such step, or is refused with its cause and changes nothing. Memory may be refused to
//! `open` and `begin`, and to an advance.
ghost use Rattle.std.specs.Prelude.{◌≡◌, ◌↔◌, IfOk, IfSome, IsSome, None, is_some, suc, option_map};
ghost use Rattle.oe_theory.specs.World.{horizon, latest, newest, tables, total};
ghost use Rattle.oe_theory.specs.Next.{IsQuiet, count_open};
ghost use Rattle.oe_theory.specs.Theorems.{world_at_opening, IsReached};
ghost use Rattle.oe_rows.specs.declared.locks.Name.{Name};
ghost use Rattle.oe_requests.specs.Reply.{told_reply};
ghost use Rattle.oe_locks.specs.Held.{names_of};
ghost use Rattle.oe_locks.specs.Listed.{stands, AreOnce};
ghost use Rattle.oe_model.specs.Locks.{mode_of};
ghost use Rattle.oe_model.specs.Conditions.{IsPopulation};
ghost use Rattle.oe_model.specs.System.{system, terminal_limit};
ghost use Rattle.oe_store.specs.Places.{rows};
ghost use Rattle.oe_engine.specs.View.{view_of, IsOpen};
ghost use Rattle.oe_engine.specs.Calls.{after_commit, after_rollback};
ghost use Rattle.oe_locks.specs.Holds.{hold_of};
ghost use Rattle.oe_engine.specs.Programs.{reply_at};
ghost use Rattle.oe_machine.specs.Steps.{Carries, begin_answer, Advances};
ghost use Rattle.oe_machine.specs.Asks.{held_by, wanted_by};
ghost use Rattle.oe_machine.specs.Replies.{RepliesBegun, RepliesAfter, RepliesWithout};
ghost use Rattle.oe_core.specs.Core.{world_of, last_reply, keeps_open, IsEndable, IsEnded};

use crate::slots::{begin_work, empty_places, end_work, open_tx, put_tx, take_tx};
use crate::works::Work;
use oe_admission::{ranges_hold, rejection};
use oe_engine::{Engine, Progress, Tx};
use oe_locks::Lock;
use oe_machine::Advanced;
use oe_requests::{Answer, Condition, Query, Refusal, ReplyRef, Request, Step};
use oe_rows::{Layout, Mode, Name};
use oe_store::Tables;
use oe_values::{ExtentCount, Moment, NoMemory, PerTerminal, Terminal};
use std::alloc::Global;
use std::marker::Model;

/// A core. It can't be dropped: `close` ends it.
pub struct Core {
    engine: Engine,
    // What a transaction carried out lies in its slot until the next begins.
    txs: PerTerminal<Option<Tx>>,
    works: PerTerminal<Option<Work>>,
    alloc: Global,
}

impl Model for Core {
    ghost use Rattle.std.specs.Coded.{codes};
    ghost use Rattle.std.specs.FinMap.{code as map_code};
    ghost use Rattle.oe_core.specs.Core.{CoreState, IsOrderly};

    ghost Value = { CoreState };

    ghost coded = { Prim.hlevel (codes, map_code) };

    ghost view = { λ c. record { engine = c.engine; txs = c.txs; works = c.works } };

    ghost invariant = { λ c. IsOrderly
        (record { engine = c.engine; txs = c.txs; works = c.works }) };
}

impl Core {
    /// Opens a core on a population, with that number of undo extents and records of that layout.
    /// `NoMemory` where memory was refused.
    pub fn open(
        alloc: Global,
        tables: Tables,
        extents: ExtentCount,
        layout: Layout,
    ) -> Result<Core, NoMemory>
        requires { IsPopulation (rows tables) }
        ensures { IfOk result (λ c. world_of c
            ≡ world_at_opening system (rows tables) extents layout) }
    {
        let engine = Engine::open(alloc, tables, extents, layout, 0)?;
        let Ok((works, txs)) = empty_places(alloc) else {
            engine.close().discard();
            return Err(NoMemory);
        };
        Ok(Core {
            engine,
            txs,
            works,
            alloc,
        })
    }

    /// Gives the tables as they stand, open work included.
    pub fn tables(&self) -> &Tables
        ensures { rows result.now ≡ tables system (world_of self.now) }
    {
        self.engine.tables()
    }

    /// Gives the newest moment: the number of all commits so far.
    pub fn newest(&self) -> Moment
        ensures { result ≡ newest system (world_of self.now) }
    {
        self.engine.newest()
    }

    /// Tells the oldest moment that can be read.
    pub fn horizon(&self) -> Moment
        ensures { result ≡ horizon system (world_of self.now) }
    {
        self.engine.horizon()
    }

    /// Counts the terminals that have a transaction open.
    pub fn open_count(&self) -> u32
        ensures count { result ≡ count_open system (world_of self.now).active terminal_limit }
        ensures quiet { (result ≡ 0) ↔ IsQuiet system (world_of self.now) }
    {
        self.engine.open_count()
    }

    /// Tells whether a terminal has a transaction open.
    pub fn is_open(&self, terminal: Terminal) -> bool
        ensures { result ≡ is_some ((world_of self.now).active terminal) }
    {
        self.txs.at(terminal).is_some()
    }

    /// Gives the lock that the next stage of a terminal's transaction asks for; none where it asks
    /// for none or stops before it, and where the terminal has no transaction open.
    pub fn wanted(&self, terminal: Terminal) -> Option<Lock>
        ensures { option_map hold_of result ≡ wanted_by (world_of self.now) terminal }
    {
        let Some(_open) = self.txs.at(terminal) else {
            return None;
        };
        match self.works.at(terminal) {
            Some(work) => work.wanted(self.engine.tables()),
            None => None,
        }
    }

    /// Gives the mode in which a terminal's transaction holds a name; none where it does not hold
    /// it, and where the terminal has no transaction open.
    pub fn held(&self, terminal: Terminal, name: &Name) -> Option<Mode>
        ensures { option_map mode_of result ≡ held_by (world_of self.now) terminal name.now }
    {
        match self.txs.at(terminal) {
            Some(tx) => self.engine.held(tx, name),
            None => None,
        }
    }

    /// Lends the names that a terminal's transaction holds, each once, in the order in which it took
    /// them; none where the terminal has no transaction open.
    pub fn names(&self, terminal: Terminal) -> &[Name]
        ensures order { result.now ≡ names_of self.now.engine.locks terminal }
        ensures held { (q : Name) → stands result.now q
            ≡ is_some (held_by (world_of self.now) terminal q) }
        ensures once { AreOnce result.now }
    {
        self.engine.names(terminal)
    }

    /// Gives the reply of a terminal's last transaction, where that has committed; none where it is
    /// open, was rolled back, or there was none. It is lent where it lies, in the terminal's slot.
    #[inline]
    pub fn last_reply(&self, terminal: Terminal) -> Option<ReplyRef<'_>>
        ensures { option_map told_reply result ≡ last_reply self.now terminal }
    {
        if let Some(_open) = self.txs.at(terminal) {
            return None;
        }
        match self.works.at(terminal) {
            Some(work) => work.reply(),
            None => None,
        }
    }

    /// Steps have led to where the core stands.
    pub fn is_reached(&self)
        ensures { IsReached system (world_of self.now) }
    {
        let _known = &self.engine;
    }

    /// Rolls back what is open, and gives the tables: the newest version.
    pub fn close(self) -> Tables
        ensures { rows result ≡ latest system (world_of self) }
    {
        let Core {
            mut engine,
            txs,
            works: _,
            alloc: _,
        } = self;
        let mut txs = txs.into_items();
        while let Some(tx) = txs.pop() {
            end(&mut engine, tx);
        }
        txs.destroy_empty();
        engine.close()
    }

    /// Rolls back what is open, and lets go of the tables.
    // Whoever drops tables proves it of each of their parts: here once, and not in each crate
    // above.
    pub fn discard(self) {
        self.close().discard();
    }

    /// Gives the allocator of what the core takes.
    pub fn allocator(&self) -> Global {
        self.alloc
    }

    /// Gives the verdict on a condition, of a moment, whatever is open.
    ///
    /// `TooOld` with the horizon, `Future` with the newest moment: the moment is not between the
    /// two.
    #[inline(never)]
    pub fn audit(&self, condition: Condition, moment: Moment) -> Answer
        ensures { Carries (world_of self.now) (Step.Audit condition moment) result
            (world_of self.now) }
    {
        match self.engine.version(moment) {
            Ok(version) => Answer::Audited(oe_audit::condition_at(condition, &version)),
            Err(cause) => Answer::Refused(cause),
        }
    }

    /// Answers a query of that moment, whatever is open.
    ///
    /// `NoSuchRow`: its warehouse isn't there. `TooOld`, `Future`: the moment is before the
    /// horizon, or after the newest, which is named. `NoCustomer`: nobody has the number or the
    /// last name. The first of these is named.
    #[inline(never)]
    pub fn read(&self, moment: Moment, query: &Query) -> Answer
        ensures { Carries (world_of self.now) (Step.Read moment query.now) result
            (world_of self.now) }
    {
        if let Some(cause) = oe_enquiry::rejection(self.engine.tables(), query) {
            return Answer::Refused(cause);
        }
        match self.engine.version(moment) {
            Ok(version) => match oe_enquiry::answer(&version, query) {
                Ok(reply) => Answer::Replied(reply),
                Err(cause) => Answer::Refused(cause),
            },
            Err(cause) => Answer::Refused(cause),
        }
    }

    /// Begins the terminal's transaction.
    ///
    /// `NoSuchRow`: the first warehouse of the request that isn't there. `AlreadyOpen`: the
    /// terminal has a transaction open. `Overflow` of H_NUMBER: it has had 4,294,967,295.
    /// `NoMemory`. The first of these is named, and nothing has changed.
    #[inline(never)]
    pub fn begin(&mut self, terminal: Terminal, request: &Request) -> Result<(), Refusal>
        ensures carries { Carries (world_of self.old) (Step.Begin terminal request.now)
            (begin_answer result) (world_of self.new) }
        ensures replies { RepliesBegun terminal result (last_reply self.old)
            (last_reply self.new) }
    {
        if let Some(refusal) = rejection(self.engine.tables(), request) {
            return Err(refusal);
        }
        ranges_hold(request);
        self.engine.touch(request);
        match self.engine.begin(terminal) {
            Ok(tx) => {
                put_tx(&mut self.txs, terminal, tx);
                begin_work(&mut self.works, terminal, request);
                Ok(())
            }
            Err(refusal) => Err(refusal),
        }
    }

    /// Moves the mark of the terminal's transaction to where it stands.
    ///
    /// `NotOpen`: it has none. Nothing has changed then.
    #[inline(never)]
    pub fn save(&mut self, terminal: Terminal) -> Answer
        ensures carries { Carries (world_of self.old) (Step.Save terminal) result
            (world_of self.new) }
        ensures replies { last_reply self.new ≡ last_reply self.old }
    {
        let Some(tx) = self.txs.at(terminal) else {
            return Answer::Refused(Refusal::NotOpen);
        };
        let Some(work) = self.works.at_mut(terminal) else {
            unreachable!()
        };
        work.save(self.engine.savepoint(tx));
        Answer::Saved
    }

    /// Takes the terminal's transaction back to its mark; it keeps its locks.
    ///
    /// `NotOpen`: it has none. Nothing has changed then.
    #[inline(never)]
    pub fn back(&mut self, terminal: Terminal) -> Answer
        ensures carries { Carries (world_of self.old) (Step.Back terminal) result
            (world_of self.new) }
        ensures replies { last_reply self.new ≡ last_reply self.old }
    {
        let Some(tx) = self.txs.at(terminal) else {
            return Answer::Refused(Refusal::NotOpen);
        };
        let Some(work) = self.works.at_mut(terminal) else {
            unreachable!()
        };
        self.engine.rollback_to(tx, work.mark_records());
        work.back();
        Answer::Back
    }

    /// Rolls the terminal's transaction back, and forgets what it carried out.
    ///
    /// `NotOpen`: it has none. Nothing has changed then.
    #[inline(never)]
    pub fn rollback(&mut self, terminal: Terminal) -> Answer
        ensures carries { Carries (world_of self.old) (Step.Rollback terminal) result
            (world_of self.new) }
        ensures replies { RepliesWithout terminal result (last_reply self.old)
            (last_reply self.new) }
    {
        let Some(tx) = take_tx(&mut self.txs, terminal) else {
            return Answer::Refused(Refusal::NotOpen);
        };
        roll_back(&mut self.engine, tx);
        end_work(&mut self.works, terminal);
        Answer::RolledBack
    }

    /// Carries out one stage of the terminal's transaction; where none is left the transaction
    /// commits.
    ///
    /// `NotOpen`, `Busy`, `UndoFull` and `NoMemory` have changed nothing. After another refusal the
    /// transaction is rolled back. The reply of a commit is the terminal's `last_reply`.
    #[inline(always)]
    pub fn advance(&mut self, terminal: Terminal) -> Advanced
        ensures advances { Advances (world_of self.old) terminal result (world_of self.new)
            (last_reply self.new terminal) }
        ensures replies { RepliesAfter terminal result (last_reply self.old)
            (last_reply self.new) }
    {
        let Some(tx) = self.txs.at(terminal) else {
            return Advanced::Kept(Refusal::NotOpen);
        };
        let Some(work) = self.works.at_mut(terminal) else {
            unreachable!()
        };
        match work.next(&mut self.engine, tx) {
            Progress::More => Advanced::More,
            Progress::Ready => {
                let open = open_tx(&mut self.txs, terminal);
                Advanced::Committed(commit(&mut self.engine, open, work))
            }
            Progress::Refused(refusal) => {
                if keeps_open(&refusal) {
                    return Advanced::Kept(refusal);
                }
                let open = open_tx(&mut self.txs, terminal);
                roll_back(&mut self.engine, open);
                end_work(&mut self.works, terminal);
                Advanced::RolledBack(refusal)
            }
        }
    }

    /// Forgets the commits up to a moment, which becomes the oldest that can be read, whatever is
    /// open.
    ///
    /// `TooOld` with the horizon, `Future` with the newest moment: the moment is not between the
    /// two.
    #[inline(never)]
    pub fn purge(&mut self, moment: Moment) -> Answer
        ensures carries { Carries (world_of self.old) (Step.Purge moment) result
            (world_of self.new) }
        ensures replies { last_reply self.new ≡ last_reply self.old }
    {
        if let Err(cause) = self.engine.purge(moment) {
            return Answer::Refused(cause);
        }
        Answer::Purged(moment)
    }

    /// Undoes the commits after a moment, which becomes the newest, while no transaction is open.
    ///
    /// `NotQuiet` with the number of open transactions. `TooOld` with the horizon, `Future` with
    /// the newest moment: the moment is not between the two. The first of these is named.
    #[inline(never)]
    pub fn rewind(&mut self, moment: Moment) -> Answer
        ensures carries { Carries (world_of self.old) (Step.Rewind moment) result
            (world_of self.new) }
        ensures replies { last_reply self.new ≡ last_reply self.old }
    {
        if let Err(cause) = self.engine.rewind(moment) {
            return Answer::Refused(cause);
        }
        Answer::Rewound(moment)
    }
}

/// Whether a row's refusal leaves its transaction open where it stands.
fn keeps_open(refusal: &Refusal) -> bool
    ensures { result ≡ keeps_open refusal.now }
{
    matches!(
        refusal,
        Refusal::Busy(_, _) | Refusal::UndoFull | Refusal::NoMemory
    )
}

/// Commits a transaction of the engine whose program is at its end, and answers its moment.
#[inline]
fn commit(engine: &mut Engine, tx: Tx, work: &Work) -> Moment
    requires open { IsOpen engine.old tx }
    requires ready { IsSome (reply_at work.now.position) }
    ensures moment { result ≡ suc (total terminal_limit (view_of engine.old).counts) }
    ensures committed { IfSome (reply_at work.now.position) (λ y. view_of engine.new
        ≡ after_commit tx.terminal work.now.request y (view_of engine.old)) }
    ensures name { engine.new.name ≡ engine.old.name }
{
    let Some((request, reply)) = work.ended() else {
        unreachable!()
    };
    match engine.commit(tx, request, reply) {
        Ok(moment) => moment,
        Err(_) => unreachable!(),
    }
}

/// Spends a transaction of the engine: all that it has changed is forgotten.
#[inline(never)]
fn roll_back(engine: &mut Engine, tx: Tx)
    requires { IsOpen engine.old tx }
    ensures rolled_back { view_of engine.new ≡ after_rollback tx.terminal (view_of engine.old) }
    ensures name { engine.new.name ≡ engine.old.name }
{
    match engine.rollback(tx) {
        Ok(()) => {}
        Err(_) => unreachable!(),
    }
}

/// Rolls back the transaction of a slot, where there is one.
fn end(engine: &mut Engine, slot: Option<Tx>)
    requires { IsEndable engine.old slot }
    ensures { IsEnded engine.old slot engine.new }
{
    if let Some(tx) = slot {
        roll_back(engine, tx);
    }
}
