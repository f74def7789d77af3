//! Names and rows of a transaction, one at a time.
ghost use Rattle.std.specs.Prelude.{◌≡◌, ◌<◌, Option, None, Some, [], false, is_some, option_map, IfErr, OnOk, OnErr};
ghost use Rattle.oe_theory.specs.Machine.{Take};
ghost use Rattle.oe_model.specs.Locks.{mode_of, governs};
ghost use Rattle.oe_model.specs.Rows.{row_at};
ghost use Rattle.oe_store.specs.Places.{rows};
ghost use Rattle.oe_rows.specs.declared.locks.Name.{Name};
ghost use Rattle.oe_locks.specs.Held.{names_of};
ghost use Rattle.oe_locks.specs.Listed.{stands, AreOnce};
ghost use Rattle.oe_engine.specs.View.{view_of, IsOpen};
ghost use Rattle.oe_engine.specs.Covered.{IsUnused};
ghost use Rattle.oe_engine.specs.Calls.{IsFree, IsBelow, MayRead, with_lock, put_mode, StageRefused};

use crate::engine::{Engine, Tx};
use oe_locks::Lock;
use oe_requests::Refusal;
use oe_rows::{Key, Mode, Name, Row};
use oe_store::copies::row_of;
use oe_values::Terminal;

impl Engine {
    /// Takes a name for a transaction, or raises the mode in which it holds it. A mode is never
    /// lowered.
    ///
    /// `NotOpen`: the transaction is not one of this engine. `Busy`: the least terminal that holds
    /// the name in a mode that conflicts. `NoMemory`: memory was refused for a name that was not
    /// held. After an error nothing has changed.
    pub fn lock(&mut self, tx: &Tx, name: Name, mode: Mode) -> Result<(), Refusal>
        ensures open { OnOk result (IsOpen self.old tx.now) }
        ensures free { OnOk result
            (IsFree (view_of self.old) tx.now.terminal (Take name (mode_of mode))) }
        ensures locked { OnOk result
            (view_of self.new ≡ with_lock tx.now.terminal name (mode_of mode) (view_of self.old)) }
        ensures name { self.new.name ≡ self.old.name }
        ensures cause { IfErr result
            (StageRefused self.old tx.now (Take name (mode_of mode)) None) }
        ensures err { OnErr result (view_of self.new ≡ view_of self.old) }
    {
        if !self.is_open(tx) {
            return Err(Refusal::NotOpen);
        }
        match self.take(tx.terminal(), Lock { name, mode }) {
            Ok(_) => Ok(()),
            Err(refusal) => Err(refusal),
        }
    }

    /// Gives the mode in which a transaction holds a name; none where it does not hold it, or is
    /// not open in this engine.
    #[tactic(auto, unfolding(crate::specs::View::view_of, crate::specs::View::view_from))]
    pub fn held(&self, tx: &Tx, name: &Name) -> Option<Mode>
        ensures open { IsOpen self.now tx.now
            → option_map mode_of result ≡ (view_of self.now).held tx.now.terminal name.now }
        ensures foreign { (IsOpen self.now tx.now → ⊥) → result ≡ None }
    {
        if !self.is_open(tx) {
            return None;
        }
        self.locks.holds(name, tx.terminal())
    }

    /// Lends the names that a terminal holds, each once, in the order in which it took them; none
    /// where the terminal has no transaction open.
    #[tactic(auto, unfolding(crate::specs::View::view_of, crate::specs::View::view_from))]
    pub fn names(&self, terminal: Terminal) -> &[Name]
        ensures order { result.now ≡ names_of self.now.locks terminal }
        ensures held { (q : Name) → stands result.now q
            ≡ is_some ((view_of self.now).held terminal q) }
        ensures once { AreOnce result.now }
        ensures idle { (view_of self.now).is_open terminal ≡ false → result.now ≡ [] }
    {
        self.locks.names(terminal)
    }

    /// Gives a copy of the row of a key, if it has one, for an open transaction that holds the
    /// row's name, if the row lies under one. It takes no memory.
    #[tactic(auto, unfolding(crate::specs::View::view_of, crate::specs::View::view_from))]
    pub fn read(&self, tx: &Tx, key: Key) -> Option<Row>
        requires open { IsOpen self.now tx.now }
        requires held { MayRead (view_of self.now) tx.now.terminal (governs key) }
        ensures { result ≡ row_at (view_of self.now).rows key }
    {
        row_of(&self.tables, &key)
    }

    /// Lowers the mode in which an open transaction holds a name, or with `None` lets go of the
    /// name. None of its changes is of a row under that name, nor of who has that last name. It
    /// takes no memory.
    pub fn give_back(&mut self, tx: &Tx, name: Name, mode: Option<Mode>)
        requires open { IsOpen self.old tx.now }
        requires below { IsBelow (option_map mode_of mode)
            ((view_of self.old).held tx.now.terminal name) }
        requires unused { IsUnused name ((view_of self.old).undo.active tx.now.terminal)
            (view_of self.old).rows }
        ensures put { view_of self.new
            ≡ put_mode tx.now.terminal name (option_map mode_of mode) (view_of self.old) }
        ensures name { self.new.name ≡ self.old.name }
    {
        self.restore(tx.terminal(), name, mode);
    }
}
