//! The undo log of an engine that is opened. Each key that has a place in a table that is changed
//! has one for its link, so that no later change of its row takes memory for that.
ghost use Rattle.std.specs.Prelude.{◌≡◌, IfOk, OnOk};
ghost use Rattle.oe_log.specs.Log.{no_segments};
ghost use Rattle.oe_journal.specs.Linked.{AreLinked};
ghost use Rattle.oe_undo.specs.Links.{KeepsPlaces};
ghost use Rattle.oe_locks.specs.Held.{IsIdle};
ghost use Rattle.oe_engine.specs.Opened.{IsLinked, HasWaiting, IsCovered};

use oe_locks::Locks;
use oe_rows::{Key, Layout, Table};
use oe_store::Tables;
use oe_undo::{Undo, comes_with};
use oe_values::{ExtentCount, NoMemory};
use std::alloc::Global;

// The tables that are changed: all but ITEM.
const CHANGED: [Table; 8] = [
    Table::Warehouse,
    Table::District,
    Table::Customer,
    Table::History,
    Table::NewOrder,
    Table::Order,
    Table::OrderLine,
    Table::Stock,
];

// Gives a key that waits a place for its link, unless it gets one with the key that comes next.
fn link_before(undo: &mut Undo, waiting: &Option<Key>, next: &Key) -> Result<(), NoMemory>
    ensures log { undo.new.log ≡ undo.old.log }
    ensures covered { OnOk result (IsCovered undo.new.links waiting.now next.now) }
    ensures kept { KeepsPlaces undo.old.links undo.new.links }
{
    let Some(key) = waiting else {
        return Ok(());
    };
    if comes_with(next, key) {
        return Ok(());
    }
    undo.add_place(key)
}

// Gives a key that waits a place for its link.
fn link_last(undo: &mut Undo, waiting: &Option<Key>) -> Result<(), NoMemory>
    ensures log { undo.new.log ≡ undo.old.log }
    ensures given { OnOk result (HasWaiting undo.new.links waiting.now) }
    ensures kept { KeepsPlaces undo.old.links undo.new.links }
{
    match waiting {
        Some(key) => undo.add_place(key),
        None => Ok(()),
    }
}

// Gives each key that has a place in a table one for its link. A key waits until the next is known:
// where it gets its place with that, memory is asked for once.
fn link_table(tables: &Tables, undo: &mut Undo, table: Table) -> Result<(), NoMemory>
    ensures log { undo.new.log ≡ undo.old.log }
    ensures linked { OnOk result (IsLinked tables.now undo.new.links table) }
    ensures kept { KeepsPlaces undo.old.links undo.new.links }
{
    let mut waiting = None;
    for key in tables.keys(table) {
        link_before(undo, &waiting, &key)?;
        waiting = Some(key);
    }
    link_last(undo, &waiting)
}

// Gives each key that has a place in a table that is changed one for its link.
fn link_all(tables: &Tables, undo: &mut Undo) -> Result<(), NoMemory>
    ensures log { undo.new.log ≡ undo.old.log }
    ensures linked { OnOk result (AreLinked tables.now undo.new.links) }
{
    for table in CHANGED {
        link_table(tables, undo, table)?;
    }
    Ok(())
}

// An undo log in which nothing has begun, beside tables: each key that has a place in one that is
// changed has one for its link.
fn linked_undo(
    alloc: Global,
    tables: &Tables,
    extents: ExtentCount,
    layout: Layout,
) -> Result<Undo, NoMemory>
    ensures log { IfOk result (λ u. u.log ≡ no_segments extents layout) }
    ensures linked { IfOk result (λ u. AreLinked tables.now u.links) }
{
    let Ok(mut undo) = Undo::new(alloc, extents, layout) else {
        return Err(NoMemory);
    };
    if let Err(refusal) = link_all(tables, &mut undo) {
        undo.discard();
        return Err(refusal);
    }
    Ok(undo)
}

/// Gives what an engine has beside its tables, where nothing has begun: its undo log, and locks
/// that nobody holds. `NoMemory` where memory was refused; then the locks alone are there to be
/// dropped.
pub(crate) fn beside(
    alloc: Global,
    tables: &Tables,
    extents: ExtentCount,
    layout: Layout,
) -> Result<(Undo, Locks), NoMemory>
    ensures log { IfOk result (λ p. p.0.log ≡ no_segments extents layout) }
    ensures linked { IfOk result (λ p. AreLinked tables.now p.0.links) }
    ensures locks { IfOk result (λ p. IsIdle p.1) }
{
    let Ok(locks) = Locks::new(alloc) else {
        return Err(NoMemory);
    };
    match linked_undo(alloc, tables, extents, layout) {
        Ok(undo) => Ok((undo, locks)),
        Err(refusal) => {
            locks.discard();
            Err(refusal)
        }
    }
}
