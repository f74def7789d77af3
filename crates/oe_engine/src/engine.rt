//! The engine: tables, undo log and locks as one, and what names a transaction of it. By its
//! invariant each key with a place in the tables has one for its link, and open work can be put
//! back in any order of terminals. Programs in crates above use it through the calls of this
//! crate's other files.
ghost use Rattle.std.specs.Prelude.{◌≡◌, ◌≤◌, ◌<◌, ◌-◌, ◌↔◌, ◌⊎◌, ℕ, IsTrue, suc, true, false, [], length, Option, None, Some, is_some, option_map, IfOk, IfErr, OnOk, OnErr};
ghost use Rattle.oe_theory.specs.Machine.{Take};
ghost use Rattle.oe_theory.specs.World.{total};
ghost use Rattle.oe_theory.specs.Store.{Slot, count_slots};
ghost use Rattle.oe_model.specs.Locks.{mode_of};
ghost use Rattle.oe_model.specs.Requests.{number_rejection};
ghost use Rattle.oe_model.specs.System.{system, terminal_limit};
ghost use Rattle.oe_store.specs.Places.{rows};
ghost use Rattle.oe_journal.specs.GoesBack.{CanUnwind};
ghost use Rattle.oe_journal.specs.Named.{AreExact};
ghost use Rattle.oe_locks.specs.Held as locks;
ghost use Rattle.oe_engine.specs.View.{view_of, opened_view, IsOpen};
ghost use Rattle.oe_engine.specs.Covered.{IsUnused, IsSafe};
ghost use Rattle.oe_writes.specs.Asks.{ask_of};
ghost use Rattle.oe_engine.specs.Calls.{IsFree, IsBusy, IsBelow, after_begin, CantBegin, with_lock, put_mode, LockRefused, back_at, after_commit, after_rollback};

use crate::opening::beside;
use crate::renames::Renames;
use oe_locks::{Lock, Locks};
use oe_log::Segment;
use oe_requests::{Column, Refusal, Reply, Request};
use oe_rows::{Layout, Mode, Name};
use oe_store::Tables;
use oe_undo::Undo;
use oe_values::{ExtentCount, Moment, NoMemory, Terminal, TransactionNumber};
use std::alloc::Global;
use std::marker::Model;
use std::snapshot::Snapshot;

/// Tables, undo records and locks of all terminals' transactions.
#[derive(Drop)]
pub struct Engine {
    pub(crate) tables: Tables,
    pub(crate) undo: Undo,
    pub(crate) locks: Locks,
    // Since when customers have had their names.
    pub(crate) renames: Renames,
    name: u32,
    // What touches gave: it has no meaning, and keeps their reads from being left out.
    pub(crate) touched: u32,
    alloc: Global,
}

impl Model for Engine {
    ghost use Rattle.std.specs.Coded.{codes};
    ghost use Rattle.std.specs.FinMap.{code as map_code};
    ghost use Rattle.oe_engine.specs.View.{EngineState};
    ghost use Rattle.oe_engine.specs.Kept.{IsOrderly};

    ghost Value = { EngineState };

    ghost coded = { Prim.hlevel (codes, map_code) };

    ghost view = { λ e. record {
      tables = e.tables;
      undo = e.undo.log;
      links = e.undo.links;
      locks = e.locks;
      renames = e.renames;
      name = e.name;
    } };

    ghost invariant = { λ e. IsOrderly e.tables e.undo e.locks e.renames };
}

/// An open transaction of an engine. It can't be dropped: `commit` or `rollback` spends it.
pub struct Tx {
    engine: u32,
    terminal: Terminal,
}

impl Model for Tx {
    ghost use Rattle.oe_engine.specs.View.{Handle};

    ghost Value = { Handle };

    ghost view = { λ x. record { engine = x.engine; terminal = x.terminal } };
}

/// A savepoint in a transaction: how many records it had made.
#[derive(Clone, Copy, PartialEq, Eq)]
pub struct Savepoint {
    records: usize,
}

impl Model for Savepoint {
    ghost Value = { ℕ };

    ghost view = { λ m. m.records };

    ghost inverse = { λ n. record { records = n } };
}

impl Savepoint {
    /// Gives the beginning of a transaction.
    pub fn start() -> Self
        ensures { result ≡ 0 }
    {
        Savepoint { records: 0 }
    }
}

impl Tx {
    /// Gives the terminal whose transaction this is.
    #[inline(always)]
    pub fn terminal(&self) -> Terminal
        ensures { result ≡ self.now.terminal }
    {
        self.terminal
    }
}

// Whether one mode is below another, where none is below shared, and shared below exclusive.
fn is_below(mode: Option<Mode>, held: Option<Mode>) -> bool
    ensures { IsTrue result ↔ locks.IsBelow mode held }
{
    match (mode, held) {
        (None, Some(_)) | (Some(Mode::Shared), Some(Mode::Exclusive)) => true,
        _ => false,
    }
}

impl Engine {
    /// Opens an engine on tables where nothing has begun or committed, with undo records of that
    /// layout; its name tells its transactions from other engines'. A key without a row has no
    /// place any more, and each key of the tables that are changed gets a place for its link.
    /// `NoMemory` where memory was refused.
    pub fn open(
        alloc: Global,
        mut tables: Tables,
        extents: ExtentCount,
        layout: Layout,
        name: u32,
    ) -> Result<Engine, NoMemory>
        ensures view { IfOk result
            (λ e. view_of e ≡ opened_view (rows tables) extents layout) }
        ensures name { IfOk result (λ e. e.name ≡ name) }
    {
        tables.sweep();
        let Ok((undo, locks)) = beside(alloc, &tables, extents, layout) else {
            tables.discard();
            return Err(NoMemory);
        };
        tables.schema_holds();
        let renames = Renames::none(undo.segments().newest());
        Ok(Engine {
            tables,
            undo,
            locks,
            renames,
            name,
            touched: 0,
            alloc,
        })
    }

    /// Gives the allocator that the engine was made with.
    pub fn allocator(&self) -> Global {
        self.alloc
    }

    /// Gives the tables as they stand, open work included.
    #[tactic(auto, unfolding(crate::specs::View::view_of, crate::specs::View::view_from))]
    pub fn tables(&self) -> &Tables
        ensures { rows result.now ≡ (view_of self.now).rows }
    {
        &self.tables
    }

    /// Gives the undo log: the records of open transactions and of commits, with each key's link to
    /// its newest.
    pub fn undo(&self) -> &Undo
        ensures log { result.now.log ≡ self.now.undo }
        ensures links { result.now.links ≡ self.now.links }
    {
        &self.undo
    }

    /// Gives the newest moment: the number of all commits so far.
    #[tactic(auto, unfolding(crate::specs::View::view_of, crate::specs::View::view_from))]
    pub fn newest(&self) -> Moment
        ensures { result ≡ total terminal_limit (view_of self.now).counts }
    {
        self.undo.segments().newest()
    }

    /// Gives the oldest moment that can be read.
    #[tactic(auto, unfolding(crate::specs::View::view_of, crate::specs::View::view_from))]
    pub fn horizon(&self) -> Moment
        ensures { result ≡ total terminal_limit (view_of self.now).counts - length
            (view_of self.now).seals }
    {
        self.undo.segments().horizon()
    }

    /// Tells how many transactions are open.
    #[tactic(auto, unfolding(crate::specs::View::view_of, crate::specs::View::view_from))]
    pub fn open_count(&self) -> u32
        ensures { (slots : ℕ → Option (Slot system))
            → ((t : ℕ) → is_some (slots t) ≡ (view_of self.now).is_open t)
            → result ≡ count_slots system slots terminal_limit }
    {
        self.undo.segments().open_count()
    }

    /// Begins a transaction of a terminal. It takes all memory that its commit will need.
    ///
    /// `AlreadyOpen`: the terminal has one open. `Overflow` of H_NUMBER: its number would be past
    /// 4,294,967,295. `NoMemory`: memory was refused. The first of these is named, and nothing has
    /// changed then.
    pub fn begin(&mut self, terminal: Terminal) -> Result<Tx, Refusal>
        ensures handle { IfOk result
            (λ x. x ≡ record { engine = self.old.name; terminal = terminal }) }
        ensures closed { OnOk result ((view_of self.old).is_open terminal ≡ false) }
        ensures counted { OnOk result
            (number_rejection (suc ((view_of self.old).counts terminal)) ≡ None) }
        ensures records { OnOk result ((view_of self.old).undo.active terminal ≡ []) }
        ensures begun { OnOk result (view_of self.new ≡ after_begin terminal (view_of self.old)) }
        ensures name { self.new.name ≡ self.old.name }
        ensures idle { (view_of self.old).is_open terminal ≡ false
            → (view_of self.old).held terminal ≡ (λ _. None) }
        ensures cause { IfErr result (CantBegin (view_of self.old) terminal) }
        ensures err { OnErr result (self.new ≡ self.old) }
    {
        let _number = terminal.get();
        if self.undo.segments().is_open(terminal) {
            return Err(Refusal::AlreadyOpen);
        }
        if self.undo.segments().count(terminal) == u32::MAX {
            return Err(Refusal::Overflow(Column::HistoryNumber));
        }
        let Ok(_) = self.undo.open_segment(terminal) else {
            return Err(Refusal::NoMemory);
        };
        Ok(Tx {
            engine: self.name,
            terminal,
        })
    }

    /// Gives the number of an open transaction: 1 plus the commits of its terminal.
    #[tactic(auto, unfolding(crate::specs::View::view_of, crate::specs::View::view_from))]
    #[inline]
    pub fn number(&self, tx: &Tx) -> TransactionNumber
        requires { IsOpen self.now tx.now }
        ensures { result ≡ suc ((view_of self.now).counts tx.now.terminal) }
    {
        self.undo.segments().number(tx.terminal)
    }

    /// Tells whether a lock is free for an open transaction: `Busy` names the least terminal that
    /// is in its way. It takes no memory.
    pub fn is_free(&self, tx: &Tx, lock: Lock) -> Result<(), Refusal>
        requires { IsOpen self.now tx.now }
        ensures free { OnOk result
            (IsFree (view_of self.now) tx.now.terminal (ask_of (Option.Some lock))) }
        ensures busy { IfErr result (IsBusy (view_of self.now) tx.now.terminal lock) }
    {
        match self.locks.in_the_way(&lock.name, tx.terminal, lock.mode) {
            Some(holder) => Err(Refusal::Busy(lock.name, holder)),
            None => Ok(()),
        }
    }

    /// States what holds at all times: what an open transaction has changed it alone may change,
    /// and all open work can be put back, in any order of transactions. The keys with places are
    /// exactly those that have a row, and those that a record names.
    #[tactic(auto, unfolding(crate::specs::View::view_of))]
    #[inline(always)]
    pub fn is_safe(&self)
        ensures safe { IsSafe (view_of self.now) }
        ensures unwinds { (t : ℕ) → CanUnwind ((view_of self.now).undo.active t)
            (view_of self.now).rows }
        ensures exact { AreExact self.now.tables (view_of self.now).undo }
    {
        let _known = &self.tables;
    }

    /// Tells whether a transaction is open in this engine.
    #[tactic(auto, unfolding(crate::specs::View::view_of, crate::specs::View::view_from))]
    #[inline]
    pub fn is_open(&self, tx: &Tx) -> bool
        ensures { IsTrue result ↔ IsOpen self.now tx.now }
    {
        tx.engine == self.name && self.undo.segments().is_open(tx.terminal)
    }
}

impl Engine {
    // Takes a lock, or raises the mode in which its name is held, and answers the mode before.
    // Tables and undo log stay as they are.
    #[inline(always)]
    pub(crate) fn take(&mut self, terminal: Terminal, lock: Lock) -> Result<Option<Mode>, Refusal>
        requires { (view_of self.old).is_open terminal ≡ true }
        ensures before { IfOk result
            (λ was. option_map mode_of was ≡ (view_of self.old).held terminal lock.name) }
        ensures free { OnOk result
            (IsFree (view_of self.old) terminal (Take lock.name (mode_of lock.mode))) }
        ensures locked { OnOk result
            (view_of self.new ≡ with_lock terminal lock.name (mode_of lock.mode)
            (view_of self.old)) }
        ensures tables { self.new.tables ≡ self.old.tables }
        ensures undo { self.new.undo ≡ self.old.undo }
        ensures links { self.new.links ≡ self.old.links }
        ensures name { self.new.name ≡ self.old.name }
        ensures cause { IfErr result
            (LockRefused (view_of self.old) terminal lock.name (mode_of lock.mode)) }
        ensures err { OnErr result (self.new ≡ self.old) }
    {
        self.locks.acquire(lock.name, terminal, lock.mode)
    }

    // Puts a name back into a mode in which it was held, or lets go of it, where the transaction
    // has changed nothing under it.
    #[inline(never)]
    pub(crate) fn restore(&mut self, terminal: Terminal, name: Name, mode: Option<Mode>)
        requires open { (view_of self.old).is_open terminal ≡ true }
        requires below { (option_map mode_of mode ≡ (view_of self.old).held terminal name)
            ⊎ IsBelow (option_map mode_of mode) ((view_of self.old).held terminal name) }
        requires unused { IsBelow (option_map mode_of mode) ((view_of self.old).held terminal name)
            → IsUnused name ((view_of self.old).undo.active terminal) (view_of self.old).rows }
        ensures put { view_of self.new
            ≡ put_mode terminal name (option_map mode_of mode) (view_of self.old) }
        ensures name { self.new.name ≡ self.old.name }
    {
        if is_below(mode, self.locks.holds(&name, terminal)) {
            self.locks.give_back(name, terminal, mode);
        }
    }

    /// Gives the savepoint where the transaction stands; the beginning for one that is not open in
    /// this engine.
    #[tactic(auto, unfolding(crate::specs::View::view_of, crate::specs::View::view_from))]
    pub fn savepoint(&self, tx: &Tx) -> Savepoint
        ensures open { IsOpen self.now tx.now
            → result ≡ length ((view_of self.now).undo.active tx.now.terminal) }
        ensures foreign { (IsOpen self.now tx.now → ⊥) → result ≡ 0 }
    {
        if !self.is_open(tx) {
            return Savepoint::start();
        }
        Savepoint {
            records: self.undo.segments().mark(Segment::of(tx.terminal)),
        }
    }

    /// Takes a transaction back to a savepoint of its own: what it has changed since then is
    /// forgotten, its locks are kept. It takes no memory and can't fail.
    pub fn rollback_to(&mut self, tx: &Tx, savepoint: Savepoint)
        requires open { IsOpen self.old tx.now }
        requires savepoint { savepoint ≤ length ((view_of self.old).undo.active tx.now.terminal) }
        ensures back { view_of self.new ≡ back_at tx.now.terminal savepoint (view_of self.old) }
        ensures name { self.new.name ≡ self.old.name }
    {
        let segment = Segment::of(tx.terminal);
        let count = self.undo.segments().mark(segment) - savepoint.records;
        oe_journal::take_back(&mut self.tables, &mut self.undo, segment, count);
    }

    /// Commits a transaction with its request and reply, keeps no byte of either, and answers the
    /// moment of the commit. It takes no memory. A transaction that is not open in this engine is
    /// handed back, and nothing has changed.
    pub fn commit(
        &mut self,
        tx: Tx,
        request: Snapshot<Request>,
        reply: Snapshot<Reply>,
    ) -> Result<Moment, Tx>
        ensures open { OnOk result (IsOpen self.old tx) }
        ensures moment { IfOk result
            (λ m. m ≡ suc (total terminal_limit (view_of self.old).counts)) }
        ensures committed { OnOk result
            (view_of self.new
            ≡ after_commit tx.terminal request.value reply.value (view_of self.old)) }
        ensures name { self.new.name ≡ self.old.name }
        ensures foreign { OnErr result (IsOpen self.old tx → ⊥) }
        ensures back { IfErr result (λ x. x ≡ tx) }
        ensures err { OnErr result (self.new ≡ self.old) }
    {
        if !self.is_open(&tx) {
            return Err(tx);
        }
        let Tx {
            engine: _,
            terminal,
        } = tx;
        let _number = terminal.get();
        let segment = Segment::of(terminal);
        let moment = self.undo.seal(segment, request, reply);
        self.locks.release_all(segment.terminal());
        self.renames = self.renames.ended(terminal, moment);
        Ok(moment)
    }

    /// Rolls a transaction back: all that it has changed is forgotten. It takes no memory. A
    /// transaction that is not open in this engine is handed back, and nothing has changed.
    pub fn rollback(&mut self, tx: Tx) -> Result<(), Tx>
        ensures open { OnOk result (IsOpen self.old tx) }
        ensures rolled_back { OnOk result
            (view_of self.new ≡ after_rollback tx.terminal (view_of self.old)) }
        ensures name { self.new.name ≡ self.old.name }
        ensures foreign { OnErr result (IsOpen self.old tx → ⊥) }
        ensures back { IfErr result (λ x. x ≡ tx) }
        ensures err { OnErr result (self.new ≡ self.old) }
    {
        if !self.is_open(&tx) {
            return Err(tx);
        }
        let Tx {
            engine: _,
            terminal,
        } = tx;
        let _number = terminal.get();
        let segment = Segment::of(terminal);
        let count = self.undo.segments().mark(segment);
        oe_journal::take_back(&mut self.tables, &mut self.undo, segment, count);
        self.undo.drop_segment(segment);
        self.locks.release_all(terminal);
        let newest = self.undo.segments().newest();
        self.renames = self.renames.ended(terminal, newest);
        Ok(())
    }

    /// Gives the tables, where no transaction is open.
    #[tactic(auto, unfolding(crate::specs::View::view_of, crate::specs::View::view_from))]
    pub fn close(self) -> Tables
        requires { (t : ℕ) → (view_of self).is_open t ≡ false }
        ensures { rows result ≡ (view_of self).rows }
    {
        let Engine {
            tables,
            undo,
            locks,
            renames: _,
            name: _,
            touched: _,
            alloc: _,
        } = self;
        undo.discard();
        locks.discard();
        tables
    }
}
