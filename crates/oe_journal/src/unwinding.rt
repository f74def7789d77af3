//! Undoing the changes of the newest records of an open segment.
//!
//! A key that loses its row keeps its place as long as a record names it, so putting the row back
//! takes no memory. With its last record the key's place goes, and a HISTORY key's place for a
//! link. Nothing can fail.
ghost use Rattle.std.specs.Prelude.{◌≡◌, ◌≤◌, length, take, drop, IsSome};
ghost use Rattle.oe_model.specs.Changes.{put_back, record_key};
ghost use Rattle.oe_layout.specs.Records.{record_of_own};
ghost use Rattle.oe_store.specs.Places.{rows};
ghost use Rattle.oe_change.specs.PutBack.{CanPutBack, PutsNameBack};
ghost use Rattle.oe_log.specs.Log.{active_at, records_at, with_records};
ghost use Rattle.oe_log.specs.Stands.{undo_of};
ghost use Rattle.oe_journal.specs.ExactNames.{HasExactNames, HasExactNamesWith, KeepsExactNames};
ghost use Rattle.oe_journal.specs.GoesBack.{CanUnwind, HavePlaces};
ghost use Rattle.oe_journal.specs.Identity.{LeadBack};
ghost use Rattle.oe_journal.specs.Linked.{SameLinks, StayLinked, GivesUpOwn};
ghost use Rattle.oe_journal.specs.Named.{PutsBack};
ghost use Rattle.oe_journal.specs.Unwinds.{TakesBack};

use crate::forgetting::{forget_lost, name_lost};
use crate::names::is_unnamed;
use oe_layout::OwnRecord;
use oe_log::Segment;
use oe_store::Tables;
use oe_undo::Undo;

/// Undoes the changes of the `count` newest records of an open segment, and drops these records.
/// Their keys lead again where they led before each of them was made. An inserted row's key keeps
/// its place where a record still names it, and else has none any more. It takes no memory.
pub fn take_back(tables: &mut Tables, undo: &mut Undo, segment: Segment, count: usize)
    requires open { IsSome (active_at undo.old.log segment) }
    requires enough { count ≤ length (records_at undo.old.log segment) }
    requires places { HavePlaces tables.old ((undo_of undo.old.log).active segment) }
    requires unwinds { CanUnwind (take count ((undo_of undo.old.log).active segment))
        (rows tables.old) }
    ensures back { TakesBack tables.old undo.old.log segment count tables.new undo.new.log }
    ensures log { undo.new.log
        ≡ with_records undo.old.log segment (drop count (records_at undo.old.log segment)) }
    ensures links { StayLinked tables.old tables.new undo.old.links undo.new.links }
    ensures seen { LeadBack undo.old undo.new segment count }
    ensures exact { KeepsExactNames tables.old tables.new undo.old.log undo.new.log }
{
    for _ in 0..count {
        // For the proof: a key that has a record has a link, and a place for it.
        undo.is_chained();
        let Some(newest) = undo.take_newest(segment) else {
            unreachable!()
        };
        put_back(tables, undo, newest);
    }
}

/// Undoes the change of a record that was taken off. A customer who loses a last name so leaves its
/// list, once nothing has it any more.
fn put_back(tables: &mut Tables, undo: &mut Undo, newest: OwnRecord)
    requires { CanPutBack tables.old (record_of_own newest) }
    ensures rows { rows tables.new ≡ put_back (record_of_own newest) (rows tables.old) }
    ensures places { PutsBack (record_of_own newest) (record_key (record_of_own newest))
        tables.old tables.new undo.old.log }
    ensures log { undo.new.log ≡ undo.old.log }
    ensures links { StayLinked tables.old tables.new undo.old.links undo.new.links }
    ensures seen { SameLinks undo.old undo.new }
    ensures exact { HasExactNamesWith tables.old (record_of_own newest) (undo_of undo.old.log)
        → HasExactNames tables.new (undo_of undo.new.log) }
{
    // For the proof: the log keeps no more commits than were made.
    undo.is_chained();
    let lost = name_lost(tables, &newest);
    undo_change(tables, undo, newest);
    forget_lost(tables, undo, &lost);
}

/// Undoes the change of a record that was taken off, and no more.
fn undo_change(tables: &mut Tables, undo: &mut Undo, newest: OwnRecord)
    requires { CanPutBack tables.old (record_of_own newest) }
    ensures rows { rows tables.new ≡ put_back (record_of_own newest) (rows tables.old) }
    ensures places { PutsBack (record_of_own newest) (record_key (record_of_own newest))
        tables.old tables.new undo.old.log }
    ensures log { undo.new.log ≡ undo.old.log }
    ensures links { StayLinked tables.old tables.new undo.old.links undo.new.links }
    ensures seen { SameLinks undo.old undo.new }
    ensures names { PutsNameBack (record_of_own newest) tables.old tables.new }
{
    if !is_unnamed(undo, &newest.key()) {
        oe_change::undo(tables, newest);
        return;
    }
    give_up_link(undo, &newest);
    oe_change::undo_and_give_up(tables, newest);
}

/// Gives up the empty place of an inserted HISTORY row's link.
fn give_up_link(undo: &mut Undo, newest: &OwnRecord)
    ensures log { undo.new.log ≡ undo.old.log }
    ensures links { GivesUpOwn (record_of_own newest.now) undo.old.links undo.new.links }
{
    if let OwnRecord::InsertedHistory(key) = newest {
        undo.give_up_history(key);
    }
}
