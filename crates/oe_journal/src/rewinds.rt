//! A rewind: the records of the newest commits are put back, the newest first, while nothing is
//! open. It takes no memory, and refused it changes nothing.
ghost use Rattle.std.specs.Prelude.{◌≡◌, ◌-◌, ◌<◌, ◌≤◌, ℕ, Option, None, length, take, IfErr, OnOk, OnErr};
ghost use Rattle.oe_theory.specs.Undo.{unwind_commits};
ghost use Rattle.oe_theory.specs.Store.{Slot, after_rewind};
ghost use Rattle.oe_model.specs.System.{system};
ghost use Rattle.oe_store.specs.Places.{rows};
ghost use Rattle.oe_log.specs.Log.{active_at, open_total};
ghost use Rattle.oe_log.specs.Moments.{store_with, newest, IsKeptMoment};
ghost use Rattle.oe_log.specs.Stands.{undo_of};
ghost use Rattle.oe_journal.specs.ExactNames.{KeepsExactNames};
ghost use Rattle.oe_journal.specs.GoesBack.{CanUnwindAll, AllHavePlaces};
ghost use Rattle.oe_journal.specs.Linked.{StayLinked};
ghost use Rattle.oe_journal.specs.Named.{GivesUpUnnamed};
ghost use Rattle.oe_journal.specs.Rewinds.{without_newest, CantRewind};

use crate::unwinding::take_back;
use oe_requests::Refusal;
use oe_store::Tables;
use oe_undo::Undo;
use oe_values::{Moment, TerminalCount};

/// Undoes the commits after a moment, which becomes the newest: their records are put back, the
/// newest first, and their terminals no longer count them. A key without a row that no record names
/// any more has no place any more. It takes no memory. For each rename that it undoes it reads the
/// kept records of that customer, to see whether one of them still has the name.
///
/// `NotQuiet` with the number of open transactions. `TooOld` with the horizon, `Future` with the
/// newest moment: the moment is not between the two. The first of these is named, and nothing has
/// changed then.
#[tactic(auto, using(crate::proofs::RewindFacts::none_open))]
pub fn rewind(tables: &mut Tables, undo: &mut Undo, moment: Moment) -> Result<(), Refusal>
    requires places { AllHavePlaces tables.old (undo_of undo.old.log).history }
    requires unwinds { open_total undo.old.log ≡ 0
        → CanUnwindAll (undo_of undo.old.log).history (rows tables.old) }
    ensures quiet { OnOk result (open_total undo.old.log ≡ 0) }
    ensures kept { OnOk result (IsKeptMoment undo.old.log moment) }
    ensures log { OnOk result
        (undo.new.log ≡ without_newest (newest undo.old.log - moment) undo.old.log) }
    ensures rewound { OnOk result
        ((slots : ℕ → Option (Slot system))
        → store_with (rows tables.new) undo.new.log slots
        ≡ after_rewind system moment (store_with (rows tables.old) undo.old.log slots)) }
    ensures places { GivesUpUnnamed tables.old tables.new
        (undo_of undo.old.log) (undo_of undo.new.log) }
    ensures links { StayLinked tables.old tables.new undo.old.links undo.new.links }
    ensures exact { KeepsExactNames tables.old tables.new undo.old.log undo.new.log }
    ensures cause { IfErr result (CantRewind undo.old.log moment) }
    ensures err { OnErr result (undo.new ≡ undo.old) }
    ensures err_tables { OnErr result (tables.new ≡ tables.old) }
{
    if let Some(open) = TerminalCount::new(undo.segments().open_count()) {
        return Err(Refusal::NotQuiet(open));
    }
    match undo.segments().commits_after(moment) {
        Ok(later) => {
            take_newest(tables, undo, later);
            Ok(())
        }
        Err(refusal) => Err(refusal),
    }
}

/// Undoes the `count` newest commits.
fn take_newest(tables: &mut Tables, undo: &mut Undo, count: usize)
    requires quiet { (t : ℕ) → active_at undo.old.log t ≡ None }
    requires enough { count ≤ length undo.old.log.committed }
    requires places { AllHavePlaces tables.old (undo_of undo.old.log).history }
    requires unwinds { CanUnwindAll (undo_of undo.old.log).history (rows tables.old) }
    ensures rows { rows tables.new
        ≡ unwind_commits system (take count (undo_of undo.old.log).history) (rows tables.old) }
    ensures log { undo.new.log ≡ without_newest count undo.old.log }
    ensures places { GivesUpUnnamed tables.old tables.new
        (undo_of undo.old.log) (undo_of undo.new.log) }
    ensures links { StayLinked tables.old tables.new undo.old.links undo.new.links }
    ensures exact { KeepsExactNames tables.old tables.new undo.old.log undo.new.log }
{
    for _ in 0..count {
        undo_newest(tables, undo);
    }
}

/// Undoes the newest commit.
fn undo_newest(tables: &mut Tables, undo: &mut Undo)
    requires quiet { (t : ℕ) → active_at undo.old.log t ≡ None }
    requires some { 0 < length undo.old.log.committed }
    requires places { AllHavePlaces tables.old (undo_of undo.old.log).history }
    requires unwinds { CanUnwindAll (undo_of undo.old.log).history (rows tables.old) }
    ensures rows { rows tables.new
        ≡ unwind_commits system (take 1 (undo_of undo.old.log).history) (rows tables.old) }
    ensures log { undo.new.log ≡ without_newest 1 undo.old.log }
    ensures places { GivesUpUnnamed tables.old tables.new
        (undo_of undo.old.log) (undo_of undo.new.log) }
    ensures links { StayLinked tables.old tables.new undo.old.links undo.new.links }
    ensures exact { KeepsExactNames tables.old tables.new undo.old.log undo.new.log }
{
    // For the proof: the segment is of one of the log's terminals.
    undo.segments().terminals_are();
    let Some(segment) = undo.reopen_newest() else {
        unreachable!()
    };
    let _terminal = segment.terminal().get();
    let count = undo.segments().mark(segment);
    take_back(tables, undo, segment, count);
    undo.drop_segment(segment);
}
