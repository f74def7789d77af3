//! A purge: the log drops its oldest commits, and the tables give up the places of NEW-ORDER keys
//! that these deleted and that nothing names any more. Where one of them renamed a customer, the
//! customer is also taken off the list of the last name before, once nothing has it any more: for
//! that the customer's later records are read. Else the cost grows with the commits that go alone.
ghost use Rattle.std.specs.Prelude.{◌≡◌, ◌-◌, ◌<◌, ◌≤◌, ◌↔◌, [], ℕ, Option, length, drop, get_or, IsTrue, IfErr, OnOk, OnErr};
ghost use Rattle.std.specs.Option.{IsSomeAnd};
ghost use Rattle.oe_theory.specs.Store.{Slot, after_purge};
ghost use Rattle.oe_model.specs.Rows.{Rows};
ghost use Rattle.oe_model.specs.System.{system};
ghost use Rattle.oe_store.specs.Places.{rows};
ghost use Rattle.oe_store.specs.Names.{SameNames};
ghost use Rattle.oe_log.specs.Log.{with_newest, committed_records};
ghost use Rattle.oe_log.specs.Stands.{undo_of, model_records, rename_in};
ghost use Rattle.oe_log.specs.Moments.{store_with, newest, IsKeptMoment, IsUnkept};
ghost use Rattle.oe_undo.specs.Chains.{IsEnd};
ghost use Rattle.oe_undo.specs.Held.{horizon};
ghost use Rattle.oe_undo.specs.Undo.{link_seen};
ghost use Rattle.oe_journal.specs.ExactNames.{LoseByRenames, KeepsExactNames};
ghost use Rattle.oe_journal.specs.Forgetting.{LosesName, LosesNameIn, HaveNamesChanged, ForgetsNames};
ghost use Rattle.oe_journal.specs.GivesUp.{IsDeleted, GivesUpThose, GivesUpDeleted};

use crate::forgetting::forget_name;
use crate::names::has_ended;
use oe_requests::Refusal;
use oe_rows::{Key, NewOrderKey};
use oe_store::Tables;
use oe_undo::Undo;
use oe_undo::laws::{calls_keep_chains, ends_without_records};
use oe_values::Moment;

/// Gives up the segments of the commits up to a moment, which becomes the horizon, and the places
/// of the NEW-ORDER keys that these commits deleted, that have no row and no record left. Rows,
/// counts of commits and open segments stay as they are, and so do all later versions. It takes no
/// memory. Lists of last names are looked at only where `may_forget` says that a commit may have
/// renamed a customer: then alone it reads records of segments that are kept, the customer's.
///
/// `TooOld` with the horizon, `Future` with the newest moment: the moment is not between the two.
/// Nothing has changed then.
pub fn purge(
    tables: &mut Tables,
    undo: &mut Undo,
    moment: Moment,
    may_forget: bool,
) -> Result<(), Refusal>
    ensures kept { OnOk result (IsKeptMoment undo.old.log moment) }
    ensures log { OnOk result
        (undo.new.log ≡ with_newest (newest undo.old.log - moment) undo.old.log) }
    ensures purged { OnOk result
        ((r : Rows) (slots : ℕ → Option (Slot system))
        → store_with r undo.new.log slots
        ≡ after_purge system moment (store_with r undo.old.log slots)) }
    ensures rows { rows tables.new ≡ rows tables.old }
    ensures places { OnOk result (GivesUpDeleted tables.old tables.new
        (drop (newest undo.old.log - moment) (undo_of undo.old.log).history) undo.new.log) }
    ensures names { OnOk result (ForgetsNames tables.old tables.new (λ n k. IsTrue may_forget
        × LosesNameIn undo.old.log moment
        (drop (newest undo.old.log - moment) (undo_of undo.old.log).history) n k)) }
    ensures exact { OnOk result (LoseByRenames undo.old.log moment (rows tables.old) may_forget
        (drop (newest undo.old.log - moment) (undo_of undo.old.log).history)
        → KeepsExactNames tables.old tables.new undo.old.log undo.new.log) }
    ensures links { undo.new.links ≡ undo.old.links }
    ensures cause { IfErr result (IsUnkept undo.old.log moment) }
    ensures err { OnErr result ((tables.new ≡ tables.old) × (undo.new ≡ undo.old)) }
{
    match undo.segments().commits_after(moment) {
        Ok(later) => {
            let count = undo.segments().kept() - later;
            // For the proof: the newest moment is the number of all terminals' commits, and the log
            // has a state of each terminal.
            undo.is_chained();
            let _newest = undo.segments().newest();
            forget_names(tables, undo, moment, count, may_forget);
            forget_oldest(tables, undo, moment, count);
            Ok(())
        }
        Err(refusal) => Err(refusal),
    }
}

/// Takes the customers whom the `count` oldest commits renamed off the lists of their last names
/// before, where it may; the last of these commits made `moment`.
fn forget_names(tables: &mut Tables, undo: &Undo, moment: Moment, count: usize, may_forget: bool)
    requires count { count ≤ length undo.now.log.committed }
    requires moment { horizon undo.now.log ≤ moment }
    ensures others { HaveNamesChanged tables.old tables.new }
    ensures names { ForgetsNames tables.old tables.new (λ n k. IsTrue may_forget
        × LosesNameIn undo.now.log moment (drop (length undo.now.log.committed - count)
        (undo_of undo.now.log).history) n k) }
{
    if !may_forget {
        return;
    }
    let kept = undo.segments().kept();
    for earlier in 0..count {
        forget_renamed(tables, undo, kept - 1 - earlier, moment);
    }
}

/// Takes the customer whom a commit renamed off the list of the last name before, as far as nothing
/// after the moment has a name of that list. The commit is given by the number of later ones.
fn forget_renamed(tables: &mut Tables, undo: &Undo, later: usize, moment: Moment)
    requires later { later < length undo.now.log.committed }
    requires moment { horizon undo.now.log ≤ moment }
    ensures others { HaveNamesChanged tables.old tables.new }
    ensures names { ForgetsNames tables.old tables.new (λ n k. IsSomeAnd
        (rename_in (model_records (get_or (committed_records undo.now.log) later [])))
        (λ x. LosesName undo.now.log moment x n k)) }
{
    if let Some((key, last)) = undo.segments().renamed(later) {
        forget_name(tables, undo, &key, &last, moment);
    }
}

/// Drops the segments of the `count` oldest commits, the last of which made `moment`, and gives up
/// the places of what they deleted.
fn forget_oldest(tables: &mut Tables, undo: &mut Undo, moment: Moment, count: usize)
    requires kept { count ≤ length undo.old.log.committed }
    requires last { moment
        ≡ newest undo.old.log - (length undo.old.log.committed - count) }
    ensures log { undo.new.log
        ≡ with_newest (length undo.old.log.committed - count) undo.old.log }
    ensures rows { rows tables.new ≡ rows tables.old }
    ensures places { GivesUpDeleted tables.old tables.new
        (drop (length undo.old.log.committed - count) (undo_of undo.old.log).history)
        undo.new.log }
    ensures names { SameNames tables.old tables.new }
    ensures links { undo.new.links ≡ undo.old.links }
{
    calls_keep_chains();
    ends_without_records();
    for _ in 0..count {
        // For the proof: a link that ends at the moment has no record that the purge leaves.
        undo.is_chained();
        let oldest = undo.segments().kept() - 1;
        give_up_deleted(tables, undo, oldest, moment);
        let _owner = undo.drop_oldest();
    }
}

/// Gives up the places of the NEW-ORDER keys that a commit deleted, that have no row, and whose
/// links end at the moment. The commit is given by the number of later ones.
fn give_up_deleted(tables: &mut Tables, undo: &Undo, later: usize, moment: Moment)
    requires { later < length undo.now.log.committed }
    ensures rows { rows tables.new ≡ rows tables.old }
    ensures places { GivesUpThose tables.old tables.new
        (λ k. IsDeleted k (model_records (get_or (committed_records undo.now.log) later []))
        × IsEnd moment (link_seen undo.now k)) }
    ensures names { SameNames tables.old tables.new }
{
    for key in undo.segments().deleted(later) {
        give_up_key(tables, undo, key, moment);
    }
}

/// Gives up the place of a NEW-ORDER key, if it has no row, and if its link ends at the moment.
fn give_up_key(tables: &mut Tables, undo: &Undo, key: NewOrderKey, moment: Moment)
    ensures rows { rows tables.new ≡ rows tables.old }
    ensures places { GivesUpThose tables.old tables.new
        (λ k. (k ≡ Key.NewOrder key) × IsEnd moment (link_seen undo.now k)) }
    ensures names { SameNames tables.old tables.new }
{
    if new_order_has_ended(undo, &key, moment) {
        tables.give_up_new_order(key);
    }
}

/// Tells whether a NEW-ORDER key's link leads to no record of an open transaction, nor of a commit
/// after the moment.
fn new_order_has_ended(undo: &Undo, key: &NewOrderKey, moment: Moment) -> bool
    ensures { IsTrue result ↔ IsEnd moment (link_seen undo.now (Key.NewOrder key.now)) }
{
    has_ended(undo, &Key::NewOrder(*key), moment)
}
