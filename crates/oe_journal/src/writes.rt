//! What a transaction writes to one row, with its record.
ghost use Rattle.std.specs.Prelude.{◌≡◌, Some, IsSome, IfErr, OnOk, OnErr};
ghost use Rattle.oe_change.specs.Writes.{key_written, change_of};
ghost use Rattle.oe_store.specs.Places.{rows};
ghost use Rattle.oe_log.specs.Log.{active_at};
ghost use Rattle.oe_undo.specs.Chains.{IsAlone};
ghost use Rattle.oe_undo.specs.Links.{GivesAtMost};
ghost use Rattle.oe_journal.specs.ExactNames.{KeepsExactNames};
ghost use Rattle.oe_journal.specs.Linked.{AreLinked, SameLinks, StayLinked};
ghost use Rattle.oe_layout.specs.Records.{record_of_lent};
ghost use Rattle.oe_writes.specs.Records.{record_of_write};
ghost use Rattle.oe_journal.specs.Recorded.{HasRoomFor, HasWritten, HasRecorded, CantWrite, IsNotPushed};

use oe_layout::{LinkedRecord, Previous};
use oe_log::Segment;
use oe_requests::Refusal;
use oe_rows::Key;
use oe_store::Tables;
use oe_undo::{CantPush, Undo};
use oe_writes::OneWrite;

/// Writes to one row in its place, with its record in an open segment, or says why not. The record
/// goes first, straight from where the row lies.
///
/// `NoSuchRow`: the row to be updated is absent. `UndoFull`: its record fits neither the rest of
/// the segment's newest extent nor a free one. Else, where the tables refuse the change,
/// `RowExists`: the key of an insert is there; `Reference`: what the new row refers to is absent
/// (clauses 1.3 and 1.4); `NoSuchRow`: the row to be deleted is absent; `NoMemory`: the tables
/// accept the insert, but its key takes a new place there and one for its link, and memory for one
/// of them was refused. The first of these is named. Nothing has changed then, but that the key,
/// and those that come with it, may have empty places for their links where they had none.
#[inline(always)]
pub fn write<W: OneWrite>(
    tables: &mut Tables,
    undo: &mut Undo,
    segment: Segment,
    write: &W,
) -> Result<(), Refusal>
    requires open { IsSome (active_at undo.old.log segment) }
    requires alone { IsAlone undo.old.log segment (key_written (W.write write.now)) }
    requires linked { AreLinked tables.old undo.old.links }
    ensures there { OnOk result (IsSome (change_of (W.write write.now) (rows tables.old))) }
    ensures written { OnOk result
        (HasRecorded (W.write write.now) tables.old tables.new undo.old undo.new segment) }
    ensures room { OnOk result
        (HasRoomFor (W.write write.now) (rows tables.old) undo.old.log segment) }
    ensures linked { AreLinked tables.new undo.new.links }
    ensures exact { KeepsExactNames tables.old tables.new undo.old.log undo.new.log }
    ensures cause { IfErr result (CantWrite (W.write write.now) tables.old undo.old.log segment) }
    ensures err { OnErr result (tables.new ≡ tables.old) }
    ensures err_undo { OnErr result (undo.new.log ≡ undo.old.log) }
    ensures err_links { OnErr result (SameLinks undo.old undo.new) }
    ensures err_places { OnErr result
        (GivesAtMost undo.old.links undo.new.links (key_written (W.write write.now))) }
{
    if let Err(why) = push(tables, undo, segment, write) {
        return Err(told(tables, undo, segment, write, why));
    }
    match write.set(tables) {
        Ok(()) => Ok(()),
        Err(refusal) => {
            undo.pop(segment);
            // For the proof: the log keeps no more commits than were made.
            undo.is_chained();
            give_up_unplaced(tables, undo, &write.key());
            Err(refusal)
        }
    }
}

/// Why the record of a write was not pushed. It is told as a refusal only where it is, since a
/// refusal has many bytes.
#[derive(Clone, Copy)]
enum NotPushed {
    /// The row to be updated is absent.
    Absent,
    /// The record fits neither the rest of the segment's newest extent nor a free one.
    Full,
    /// It fits, and memory was refused for the place of its key's link.
    Unplaced,
}

/// Gives the refusal of a write whose record was not pushed.
#[inline(always)]
fn told<W: OneWrite>(
    tables: &Tables,
    undo: &Undo,
    segment: Segment,
    write: &W,
    why: NotPushed,
) -> Refusal
    requires { IsNotPushed (W.write write.now) tables.now undo.now.log segment why }
    ensures { CantWrite (W.write write.now) tables.now undo.now.log segment result }
{
    let _segment = segment.terminal();
    let _log = undo.segments();
    match why {
        NotPushed::Absent => Refusal::NoSuchRow(write.key()),
        NotPushed::Full => Refusal::UndoFull,
        NotPushed::Unplaced => write.unplaced(tables),
    }
}

/// Gives up the empty place for the link of a HISTORY key that has no place in its table.
#[inline(always)]
fn give_up_unplaced(tables: &Tables, undo: &mut Undo, key: &Key)
    ensures log { undo.new.log ≡ undo.old.log }
    ensures links { StayLinked tables.now tables.now undo.old.links undo.new.links }
    ensures seen { SameLinks undo.old undo.new }
{
    let Key::History(key) = key else {
        return;
    };
    if !tables.history_has_place(key) {
        undo.give_up_history(key);
    }
}

/// Appends the record of a write to rows as they stand to an open segment, in the log's layout,
/// with its key's link; refused as `write`, where the row to be updated is absent, the record has
/// no room, or memory was refused for the place of its key's link. Nothing has changed then.
#[inline(always)]
fn push<W: OneWrite>(
    tables: &Tables,
    undo: &mut Undo,
    segment: Segment,
    write: &W,
) -> Result<(), NotPushed>
    requires open { IsSome (active_at undo.old.log segment) }
    requires alone { IsAlone undo.old.log segment (key_written (W.write write.now)) }
    requires linked { AreLinked tables.now undo.old.links }
    ensures pushed { OnOk result
        (HasWritten (W.write write.now) (rows tables.now) undo.old undo.new segment) }
    ensures room { OnOk result
        (HasRoomFor (W.write write.now) (rows tables.now) undo.old.log segment) }
    ensures cause { IfErr result (IsNotPushed (W.write write.now) tables.now undo.old.log segment) }
    ensures err { OnErr result (undo.new ≡ undo.old) }
{
    let Some(record) = write.lend(tables, undo.segments().layout()) else {
        return Err(NotPushed::Absent);
    };
    let mut lent = LinkedRecord {
        previous: Previous::Nothing,
        record,
    };
    match undo.push(segment, &mut lent) {
        Ok(()) => Ok(()),
        Err(CantPush::Full) => Err(NotPushed::Full),
        Err(CantPush::NoMemory) => Err(NotPushed::Unplaced),
    }
}
