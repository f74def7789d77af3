// A small bank over the laws of worlds: what is proved of every run of its terminals' steps.
#![tactic(auto)]

ghost use Rattle.oe_theory.specs.Theorems.{Opening_is_reached, Run_is_reached, Abort_is_its_own, Changes_are_accepted, Open_is_known, Nothing_is_recorded, World_has_records, Used_is_of_records, Extents_suffice, Rollback_leaves_no_trace, Commit_is_whole, Abort_has_no_effect, History_is_serial, Quiet_tables, Rewind_restores, Purge_leaves_later, Versions_are_good, Undo_forgets, Undo_goes_back, Holds_of_versions, Tests_hold_from_base, Records_follow, Tables_follow, Base_is_unwound, Version_is_unwound, Row_is_unwound, Full_is_full, Want_stands_for, Each_is_answered, Answers_are_determined, Scripts_are_answered};
ghost use Rattle.oe_theory.specs.RecordTheorems.{Row_without_record, Records_are_apart, Each_goes_back, Lengths_are_free};
ghost use Rattle.oe_theory.specs.StepTheorems.{Steps_are_counted, Endings_are_whole};
ghost use Rattle.oe_theory.specs.StoreTheorems.{World_is_stored, Store_follows, Opening_stands, Steps_of_the_store, Facts_of_the_store};
ghost use Rattle.std.specs.Prelude.{ℕ};
ghost use Rattle.oe_theory_example.specs.Bank.{bank};
ghost use Rattle.oe_theory_example.specs.Conditions.{HasMoney};

/// What a transaction can lock.
#[derive(Clone, Copy, PartialEq, Eq)]
pub enum Name {
    OfAccount(u64),
    OfQueue(u64),
    OfOwner(u64),
}

/// A run without a transaction that was rolled back is a run between the same worlds.
pub fn rollback_leaves_no_trace()
    ensures { Rollback_leaves_no_trace bank }
{}

/// What was changed step by step is, at the commit, the whole effect on the newest version.
pub fn commit_is_whole()
    ensures { Commit_is_whole bank }
{}

/// Where a step is refused and rolls its transaction back, the request has no whole effect on the
/// newest version.
pub fn abort_has_no_effect()
    ensures { Abort_has_no_effect bank }
{}

/// The same transactions, run one at a time, make the same commits, each on the version before it,
/// with its reply.
pub fn history_is_serial()
    ensures { History_is_serial bank }
{}

/// With nothing open the tables are the newest version.
pub fn quiet_tables()
    ensures { Quiet_tables bank }
{}

/// A rewind gives the version of its moment, and leaves those before it.
pub fn rewind_restores()
    ensures { Rewind_restores bank }
{}

/// A purge leaves the tables, and every version from its moment on.
pub fn purge_leaves_later()
    ensures { Purge_leaves_later bank }
{}

/// In every version each slip is of a transaction that has committed by then.
pub fn versions_are_good()
    ensures { Versions_are_good bank }
{}

/// To undo an open transaction's records in place is to forget it, whatever others have done since.
pub fn undo_forgets()
    ensures { Undo_forgets bank }
{}

/// To undo an open transaction's records since its mark in place is to be back at the mark,
/// whatever others have done since.
pub fn undo_goes_back()
    ensures { Undo_goes_back bank }
{}

/// Every version has the money of the opening.
pub fn money_is_kept()
    ensures { (money : ℕ) → Holds_of_versions bank (HasMoney money) }
{}

/// The stored records follow each step, and the lengths in the world are theirs.
pub fn records_follow()
    ensures { Records_follow bank }
{}

/// The tables after a step are what its change or its records make of them in place.
pub fn tables_follow()
    ensures { Tables_follow bank }
{}

/// A world is a function of what is stored of it.
pub fn world_is_stored()
    ensures { World_is_stored bank }
{}

/// Each step of the world is one of the store.
pub fn store_follows()
    ensures { Store_follows bank }
{}

/// A store just opened on good tables stands for the world just opened.
pub fn opening_stands()
    ensures { Opening_stands bank }
{}

/// Each step, with each of its answers, is one change of the store, under conditions on the store
/// alone.
pub fn steps_of_the_store()
    ensures { Steps_of_the_store bank }
{}

/// What a store shows of its world, what holds of it, and what closing leaves.
pub fn facts_of_the_store()
    ensures { Facts_of_the_store bank }
{}

/// The tables with all records put back are the base.
pub fn base_is_unwound()
    ensures { Base_is_unwound bank }
{}

/// The tables with the records of open work and of the commits after a moment put back are its
/// version.
pub fn version_is_unwound()
    ensures { Version_is_unwound bank }
{}

/// A row with the records of its key put back is the version's row.
pub fn row_is_unwound()
    ensures { Row_is_unwound bank }
{}

/// A full ring is answered where the record fits nowhere.
pub fn full_is_full()
    ensures { Full_is_full bank }
{}

/// A want of memory changes nothing, and stands for an acceptance or for a refusal that yields.
pub fn want_stands_for()
    ensures { Want_stands_for bank }
{}

/// Each step has an answer other than a want of memory.
pub fn each_is_answered()
    ensures { Each_is_answered bank }
{}

/// But for a want of memory, a world and a script determine the answers and the next world.
pub fn answers_are_determined()
    ensures { Answers_are_determined bank }
{}

/// Good tables are a base to begin from.
pub fn opening_is_reached()
    ensures { Opening_is_reached bank }
{}

/// Each run goes on from a world that was reached.
pub fn run_is_reached()
    ensures { Run_is_reached bank }
{}

/// A refusal that rolls back is the one to which the program alone comes on the newest version, and
/// one that it may end with.
pub fn abort_is_its_own()
    ensures { Abort_is_its_own bank }
{}

/// The tables accept each change of a row as they stand, beside others' open work.
pub fn changes_are_accepted()
    ensures { Changes_are_accepted bank }
{}

/// What an open transaction asks for is not rejected on the newest version.
pub fn open_is_known()
    ensures { Open_is_known bank }
{}

/// A world that was just opened has no records.
pub fn nothing_is_recorded()
    ensures { Nothing_is_recorded bank }
{}

/// Each world has records of its transactions.
pub fn world_has_records()
    ensures { World_has_records bank }
{}

/// What is used of the ring is what the records fill.
pub fn used_is_of_records()
    ensures { Used_is_of_records bank }
{}

/// No more extents are used than there are.
pub fn extents_suffice()
    ensures { Extents_suffice bank }
{}

/// A key without a record has in each version the row that it has now.
pub fn row_without_record()
    ensures { Row_without_record bank }
{}

/// The records of one key lie in at most one open transaction.
pub fn records_are_apart()
    ensures { Records_are_apart bank }
{}

/// Put back in turn, each record finds the row that its change left.
pub fn each_goes_back()
    ensures { Each_goes_back bank (λ r. Unit {0}) }
{}

/// A test that whole effects keep holds of each version where it holds of the base.
pub fn tests_hold_from_base()
    ensures { Tests_hold_from_base bank }
{}

/// Without a want of memory a script's answers, and the world that it leaves, are a function of the
/// world and the script.
pub fn scripts_are_answered()
    ensures { Scripts_are_answered bank }
{}

/// How each step changes the number of open transactions, the newest moment and the horizon.
pub fn steps_are_counted()
    ensures { Steps_are_counted bank }
{}

/// A row that ends its transaction commits its whole effect, or rolls it back where there is none.
pub fn endings_are_whole()
    ensures { Endings_are_whole bank }
{}

/// The local laws are met with records of any lengths.
pub fn lengths_are_free()
    ensures { Lengths_are_free bank }
{}
