//! A stage of a program of any kind, carried out on an engine or refused by it.
ghost use Rattle.std.specs.Prelude.{◌≡◌, true, suc, Some, None, IfErr, OnOk, OnErr};
ghost use Rattle.oe_theory.specs.Machine.{Plain, Take};
ghost use Rattle.oe_theory.specs.Next.{held_after};
ghost use Rattle.oe_model.specs.Changes as model;
ghost use Rattle.oe_model.specs.Locks.{mode_of, governs};
ghost use Rattle.oe_model.specs.System.{system};
ghost use Rattle.oe_change.specs.Writes.{key_written};
ghost use Rattle.oe_engine.specs.View.{view_of, IsOpen};
ghost use Rattle.oe_engine.specs.Covered.{IsOwn, Owns};
ghost use Rattle.oe_engine.specs.Calls.{IsFree, with_lock, StageRefused};
ghost use Rattle.oe_writes.specs.Asks.{ask_of_write};
ghost use Rattle.oe_engine.specs.Writes.{change_written, HoldsBeside, MayWrite, Writes};
ghost use Rattle.oe_engine.specs.Stages.{is_failure, IsFailure, FailsBeside, Does};

use crate::engine::{Engine, Tx};
use oe_locks::Lock;
use oe_requests::Refusal;
use oe_writes::OneWrite;

/// Gives the refusal of a stage that asks for a lock and then fails: who is in the way of the lock,
/// or what it fails with.
pub fn failed(engine: &Engine, tx: &Tx, lock: Lock, refusal: Refusal) -> Refusal
    requires open { IsOpen engine.now tx.now }
    requires failure { is_failure refusal ≡ true }
    ensures fails { IsFailure engine.now tx.now lock refusal result }
    ensures cause { FailsBeside (view_of engine.now) tx.now.terminal lock refusal result }
{
    match engine.is_free(tx, lock) {
        Ok(()) => refusal,
        Err(busy) => busy,
    }
}

/// Carries out a stage that takes a lock and changes nothing. After an error the engine stands for
/// what it stood for before.
pub fn hold(engine: &mut Engine, tx: &Tx, lock: Lock) -> Result<(), Refusal>
    ensures does { Does engine.old tx.now
        (Take lock.name (mode_of lock.mode)) None result engine.new }
    ensures open { OnOk result (IsOpen engine.old tx.now) }
    ensures free { OnOk result
        (IsFree (view_of engine.old) tx.now.terminal (Take lock.name (mode_of lock.mode))) }
    ensures locked { OnOk result
        (view_of engine.new
        ≡ with_lock tx.now.terminal lock.name (mode_of lock.mode) (view_of engine.old)) }
    ensures cause { IfErr result
        (StageRefused engine.old tx.now (Take lock.name (mode_of lock.mode)) None) }
    ensures name { engine.new.name ≡ engine.old.name }
    ensures err { OnErr result (view_of engine.new ≡ view_of engine.old) }
{
    engine.lock(tx, lock.name, lock.mode)
}

/// Carries out a stage that writes to a row in its place, and takes that row's name alone. After an
/// error the engine stands for what it stood for before.
#[inline(always)]
pub fn put<W: OneWrite>(engine: &mut Engine, tx: &Tx, write: &W) -> Result<(), Refusal>
    requires own { IsOpen engine.old tx.now
        → IsOwn tx.now.terminal (suc ((view_of engine.old).counts tx.now.terminal))
        (governs (key_written (W.write write.now))) }
    requires beside { IsOpen engine.old tx.now
        → HoldsBeside (view_of engine.old).rows ((view_of engine.old).held tx.now.terminal)
        (W.write write.now) }
    ensures writes { Writes engine.old tx.now (ask_of_write (W.write write.now))
        (W.write write.now) result engine.new }
    ensures does { (c : model.Change)
        → change_written (W.write write.now) (view_of engine.old) ≡ Some c
        → Does engine.old tx.now (ask_of_write (W.write write.now)) (Some c) result engine.new }
    ensures name { engine.new.name ≡ engine.old.name }
    ensures err { OnErr result (view_of engine.new ≡ view_of engine.old) }
{
    engine.change(tx, write)
}

/// Carries out a stage that asks for no lock, and writes to a row in its place that its transaction
/// alone may change: it holds the row's name alone, or the row is its own. After an error the
/// engine stands for what it stood for before.
#[inline(always)]
pub fn put_held<W: OneWrite>(engine: &mut Engine, tx: &Tx, write: &W) -> Result<(), Refusal>
    requires held { IsOpen engine.old tx.now
        → Owns ((view_of engine.old).held tx.now.terminal) tx.now.terminal
        (suc ((view_of engine.old).counts tx.now.terminal))
        (governs (key_written (W.write write.now))) }
    requires beside { IsOpen engine.old tx.now
        → HoldsBeside (view_of engine.old).rows ((view_of engine.old).held tx.now.terminal)
        (W.write write.now) }
    ensures writes { Writes engine.old tx.now Plain (W.write write.now) result engine.new }
    ensures does { (c : model.Change)
        → change_written (W.write write.now) (view_of engine.old) ≡ Some c
        → Does engine.old tx.now Plain (Some c) result engine.new }
    ensures name { engine.new.name ≡ engine.old.name }
    ensures err { OnErr result (view_of engine.new ≡ view_of engine.old) }
{
    engine.change_held(tx, write)
}

/// Carries out a stage that takes a lock and writes to a row in its place, whose name the
/// transaction holds alone. After an error the engine stands for what it stood for before.
pub fn put_under<W: OneWrite>(
    engine: &mut Engine,
    tx: &Tx,
    lock: &Lock,
    write: &W,
) -> Result<(), Refusal>
    requires covered { IsOpen engine.old tx.now
        → MayWrite (view_of engine.old).rows
        (held_after system (Take lock.now.name (mode_of lock.now.mode))
        ((view_of engine.old).held tx.now.terminal)) tx.now.terminal
        (suc ((view_of engine.old).counts tx.now.terminal)) (W.write write.now) }
    ensures writes { Writes engine.old tx.now (Take lock.now.name (mode_of lock.now.mode))
        (W.write write.now) result engine.new }
    ensures does { (c : model.Change)
        → change_written (W.write write.now) (view_of engine.old) ≡ Some c
        → Does engine.old tx.now (Take lock.now.name (mode_of lock.now.mode)) (Some c)
        result engine.new }
    ensures name { engine.new.name ≡ engine.old.name }
    ensures err { OnErr result (view_of engine.new ≡ view_of engine.old) }
{
    engine.change_under(tx, lock, write)
}
