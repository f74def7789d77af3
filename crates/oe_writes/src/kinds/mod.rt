//! Writes to one row, each kind a type of its own, so that nothing of it is asked for at run time:
//! neither its row and lock, nor how it is recorded and made. Nothing is kept here; only `set`
//! takes memory, and may be refused it.
ghost use Rattle.std.specs.Prelude.{◌≡◌, false, IsSome, option_map, IfErr, OnOk, OnErr};
ghost use Rattle.oe_rows.specs.declared.layouts.Layout.{Layout};
ghost use Rattle.oe_change.specs.declared.writes.Write.{Write};
ghost use Rattle.oe_change.specs.Writes.{key_written, change_of};
ghost use Rattle.oe_layout.specs.Records.{record_of_lent};
ghost use Rattle.oe_store.specs.Places.{rows, HasPlace};
ghost use Rattle.oe_writes.specs.Asks.{ask_of};
ghost use Rattle.oe_writes.specs.Records.{record_of_write};
ghost use Rattle.oe_writes.specs.Made.{IsMade, RefusesWrite};
ghost use Rattle.oe_writes.specs.Kinds.{is_rename, IsPlain};
ghost use Rattle.oe_writes.specs.Asks.{ask_of_write};

pub mod inserts;
pub mod updates;

use crate::locks::lock_of;
use oe_layout::LentRecord;
use oe_locks::Lock;
use oe_requests::Refusal;
use oe_rows::{Key, Layout};
use oe_store::Tables;

/// A write to one row, of a kind that its type says.
pub trait OneWrite {
    ghost write: { Self → Write };

    /// Gives the key of the row that it changes.
    fn key(&self) -> Key
        ensures { result ≡ key_written (write self.now) };

    /// Tells whether it gives a customer other names.
    fn is_rename(&self) -> bool
        ensures { result ≡ is_rename (write self.now) };

    /// Gives its record to rows as they stand, in a layout; none exactly where the row to be
    /// updated is absent. Its row is lent from where it lies, or the columns that an update
    /// changes.
    fn lend<'a>(&'a self, tables: &'a Tables, layout: Layout) -> Option<LentRecord<'a>>
        ensures { option_map record_of_lent result
            ≡ record_of_write layout (write self.now) (rows tables.now) };

    /// Sets its columns in their row's place, or inserts or deletes its row; refused as `write`.
    fn set(&self, tables: &mut Tables) -> Result<(), Refusal>
        requires { IsSome (change_of (write self.now) (rows tables.old)) }
        ensures made { OnOk result (IsMade (write self.now) tables.old tables.new) }
        ensures refused { IfErr result (RefusesWrite (write self.now) tables.old) }
        ensures unchanged { OnErr result (tables.new ≡ tables.old) };

    /// Says why it is refused where its key has no place, and memory for one was refused.
    fn unplaced(&self, tables: &Tables) -> Refusal
        requires there { IsSome (change_of (write self.now) (rows tables.now)) }
        requires unplaced { HasPlace tables.now (key_written (write self.now)) → ⊥ }
        ensures { RefusesWrite (write self.now) tables.now result };

    /// Gives the lock under which its row is written; none for a HISTORY row.
    #[inline(always)]
    final fn lock(&self) -> Option<Lock>
        ensures { ask_of result ≡ ask_of_write (write self.now) }
    {
        lock_of(self.key())
    }
}

/// A write to a row that is there, an update or the delete, which leaves customers their names.
pub trait PlainWrite {
    ghost plain: { Self → Write };

    /// Gives the key of the row that it changes.
    fn key(&self) -> Key
        ensures { result ≡ key_written (plain self.now) };

    /// Gives its record, as `OneWrite` does.
    fn lend<'a>(&'a self, tables: &'a Tables, layout: Layout) -> Option<LentRecord<'a>>
        ensures { option_map record_of_lent result
            ≡ record_of_write layout (plain self.now) (rows tables.now) };

    /// Sets its columns, or deletes its row, as `OneWrite` does.
    fn set(&self, tables: &mut Tables) -> Result<(), Refusal>
        requires { IsSome (change_of (plain self.now) (rows tables.old)) }
        ensures made { OnOk result (IsMade (plain self.now) tables.old tables.new) }
        ensures refused { IfErr result (RefusesWrite (plain self.now) tables.old) }
        ensures unchanged { OnErr result (tables.new ≡ tables.old) };

    ghost is_plain: { (w : Self) → IsPlain (plain w) };
}

impl<P: PlainWrite> OneWrite for P {
    ghost write = { λ w. P.plain w };

    #[inline(always)]
    fn key(&self) -> Key {
        PlainWrite::key(self)
    }

    #[inline(always)]
    fn is_rename(&self) -> bool {
        false
    }

    #[inline(always)]
    fn lend<'a>(&'a self, tables: &'a Tables, layout: Layout) -> Option<LentRecord<'a>> {
        PlainWrite::lend(self, tables, layout)
    }

    #[inline(always)]
    fn set(&self, tables: &mut Tables) -> Result<(), Refusal> {
        PlainWrite::set(self, tables)
    }

    #[inline(always)]
    fn unplaced(&self, _tables: &Tables) -> Refusal {
        Refusal::NoSuchRow(PlainWrite::key(self))
    }
}
