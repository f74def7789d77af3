//! What transactions write to rows, each with its lock and its undo record.
ghost use Rattle.std.specs.Prelude.{◌≡◌, ◌⊎◌, suc, true, option_map, IfOk, IfErr, OnOk, OnErr};
ghost use Rattle.std.specs.Option.{IsSomeAnd, ForSome};
ghost use Rattle.oe_theory.specs.Machine.{Plain, Take};
ghost use Rattle.oe_theory.specs.Next.{held_after};
ghost use Rattle.oe_model.specs.Locks.{mode_of, governs};
ghost use Rattle.oe_model.specs.System.{system};
ghost use Rattle.oe_change.specs.Writes.{key_written};
ghost use Rattle.oe_engine.specs.View.{view_of, IsOpen};
ghost use Rattle.oe_engine.specs.Covered.{IsOwn, IsUnused};
ghost use Rattle.oe_engine.specs.Calls.{IsFree, IsBelow, LockRefused, with_ask, ask_put_back};
ghost use Rattle.oe_writes.specs.Asks.{ask_of, ask_of_write};
ghost use Rattle.oe_engine.specs.Writes.{HoldsBeside, MayWrite, Writes};

use crate::engine::{Engine, Tx};
use oe_locks::Lock;
use oe_log::Segment;
use oe_requests::Refusal;
use oe_rows::Mode;
use oe_values::Terminal;
use oe_writes::OneWrite;

impl Engine {
    // Takes the lock that is asked for, and answers the mode in which its name was held before.
    // Where none is asked for, nothing changes.
    #[inline(always)]
    fn take_asked(
        &mut self,
        terminal: Terminal,
        lock: &Option<Lock>,
    ) -> Result<Option<Mode>, Refusal>
        requires { (view_of self.old).is_open terminal ≡ true }
        ensures before { IfOk result
            (λ was. ForSome lock.now
            (λ l. option_map mode_of was ≡ (view_of self.old).held terminal l.name)) }
        ensures free { OnOk result (IsFree (view_of self.old) terminal (ask_of lock.now)) }
        ensures locked { OnOk result
            (view_of self.new ≡ with_ask terminal (ask_of lock.now) (view_of self.old)) }
        ensures tables { self.new.tables ≡ self.old.tables }
        ensures name { self.new.name ≡ self.old.name }
        ensures cause { IfErr result
            (λ e. IsSomeAnd lock.now
            (λ l. LockRefused (view_of self.old) terminal l.name (mode_of l.mode) e)) }
        ensures err { OnErr result (self.new ≡ self.old) }
    {
        match lock {
            None => Ok(None),
            Some(lock) => self.take(terminal, *lock),
        }
    }

    // Puts the name of a lock that was asked for back into the mode in which it was held before.
    // Where none was asked for, nothing changes.
    #[inline(always)]
    fn restore_asked(&mut self, terminal: Terminal, lock: &Option<Lock>, before: Option<Mode>)
        requires open { (view_of self.old).is_open terminal ≡ true }
        requires below { ForSome lock.now
            (λ l. (option_map mode_of before ≡ (view_of self.old).held terminal l.name)
            ⊎ IsBelow (option_map mode_of before) ((view_of self.old).held terminal l.name)) }
        requires unused { ForSome lock.now
            (λ l. IsBelow (option_map mode_of before) ((view_of self.old).held terminal l.name)
            → IsUnused l.name ((view_of self.old).undo.active terminal) (view_of self.old).rows) }
        ensures put { view_of self.new
            ≡ ask_put_back terminal lock.now (option_map mode_of before) (view_of self.old) }
        ensures name { self.new.name ≡ self.old.name }
    {
        if let Some(lock) = lock {
            self.restore(terminal, lock.name, before);
        }
    }

    // Takes the lock that is asked for and writes to a row, with its undo record. Where the write
    // is refused, the name is held as it was. Where it was held before, memory is wanted for a
    // place in the tables alone.
    #[inline(always)]
    fn put<W: OneWrite>(&mut self, tx: &Tx, lock: &Option<Lock>, write: &W) -> Result<(), Refusal>
        requires open { IsOpen self.old tx.now }
        requires covered { MayWrite (view_of self.old).rows
            (held_after system (ask_of lock.now) ((view_of self.old).held tx.now.terminal))
            tx.now.terminal (suc ((view_of self.old).counts tx.now.terminal)) (W.write write.now) }
        ensures writes { Writes self.old tx.now (ask_of lock.now) (W.write write.now)
            result self.new }
        ensures name { self.new.name ≡ self.old.name }
    {
        self.is_safe();
        let terminal = tx.terminal();
        let before = match self.take_asked(terminal, lock) {
            Ok(before) => before,
            Err(refusal) => return Err(refusal),
        };
        let segment = Segment::of(terminal);
        self.renames = self.renames.noted(terminal, write);
        if let Err(refusal) = oe_journal::write(&mut self.tables, &mut self.undo, segment, write) {
            self.restore_asked(terminal, lock, before);
            return Err(refusal);
        }
        Ok(())
    }

    /// Writes to one row in its place for a transaction, with its undo record. Where the row lies
    /// under a name, that is taken for the transaction alone, if it does not hold it so: an order's
    /// for its lines, a queue's for its NEW-ORDER rows, none for a HISTORY row. A HISTORY row is
    /// the transaction's own, and the order's name of a new NEW-ORDER row it holds already.
    ///
    /// `NotOpen`: the transaction is not one of this engine. `Busy`: the least terminal that holds
    /// the name in a mode that conflicts. `NoSuchRow`: the row to be changed or deleted is absent.
    /// `UndoFull`: the record fits neither the rest of the transaction's last extent nor a free
    /// one. `NoMemory`: memory was refused for a name that was not held, or for an insert that the
    /// tables accept, at a key without a place, or for another C_LAST. Else the tables don't accept
    /// the insert. After an error nothing has changed: a lock that was gained is given back, and a
    /// mode that rose has fallen again.
    // In its callers, each of which makes one kind of write: so that no other is asked for there.
    #[inline(always)]
    pub fn change<W: OneWrite>(&mut self, tx: &Tx, write: &W) -> Result<(), Refusal>
        requires own { IsOpen self.old tx.now
            → IsOwn tx.now.terminal (suc ((view_of self.old).counts tx.now.terminal))
            (governs (key_written (W.write write.now))) }
        requires beside { IsOpen self.old tx.now
            → HoldsBeside (view_of self.old).rows ((view_of self.old).held tx.now.terminal)
            (W.write write.now) }
        ensures writes { Writes self.old tx.now (ask_of_write (W.write write.now))
            (W.write write.now) result self.new }
        ensures name { self.new.name ≡ self.old.name }
    {
        if !self.is_open(tx) {
            return Err(Refusal::NotOpen);
        }
        let lock = write.lock();
        self.put(tx, &lock, write)
    }

    /// Writes to one row in its place for a transaction that alone may change it, with its undo
    /// record, and takes no lock: the transaction holds the row's name alone, or the row is its
    /// own.
    ///
    /// Refused as `change`, but never `Busy`. After an error nothing has changed.
    #[inline(always)]
    pub(crate) fn change_held<W: OneWrite>(&mut self, tx: &Tx, write: &W) -> Result<(), Refusal>
        requires covered { IsOpen self.old tx.now
            → MayWrite (view_of self.old).rows ((view_of self.old).held tx.now.terminal)
            tx.now.terminal
            (suc ((view_of self.old).counts tx.now.terminal)) (W.write write.now) }
        ensures writes { Writes self.old tx.now Plain (W.write write.now) result self.new }
        ensures name { self.new.name ≡ self.old.name }
    {
        if !self.is_open(tx) {
            return Err(Refusal::NotOpen);
        }
        self.put(tx, &None, write)
    }

    /// Writes to one row in its place for a transaction that holds the row's name alone, with its
    /// undo record, and takes another lock, beside which the write is covered: a customer's new
    /// names go under the name of who has that C_LAST.
    ///
    /// Refused as `change`, where the lock is this one: after an error nothing has changed.
    pub fn change_under<W: OneWrite>(
        &mut self,
        tx: &Tx,
        lock: &Lock,
        write: &W,
    ) -> Result<(), Refusal>
        requires covered { IsOpen self.old tx.now
            → MayWrite (view_of self.old).rows
            (held_after system (Take lock.now.name (mode_of lock.now.mode))
            ((view_of self.old).held tx.now.terminal)) tx.now.terminal
            (suc ((view_of self.old).counts tx.now.terminal)) (W.write write.now) }
        ensures writes { Writes self.old tx.now (Take lock.now.name (mode_of lock.now.mode))
            (W.write write.now) result self.new }
        ensures name { self.new.name ≡ self.old.name }
    {
        if !self.is_open(tx) {
            return Err(Refusal::NotOpen);
        }
        self.put(tx, &Some(*lock), write)
    }
}
