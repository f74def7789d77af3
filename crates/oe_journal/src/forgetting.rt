//! Customers who are taken off the lists of last names that they have lost.
//!
//! A customer stays on the list of a name as long as its row or one of its records has the name, so
//! that putting it back takes no memory: with the last of them it is taken off. Nothing takes
//! memory or can fail.
ghost use Rattle.std.specs.Prelude.{◌≡◌, ◌≤◌};
ghost use Rattle.std.specs.Option.{IsSomeAnd};
ghost use Rattle.std.specs.FinMap.{get};
ghost use Rattle.oe_index.specs.Numbers.{name_number};
ghost use Rattle.oe_layout.specs.Records.{record_of_own};
ghost use Rattle.oe_store.specs.Places.{rows};
ghost use Rattle.oe_undo.specs.Held.{all_held, of_key, horizon};
ghost use Rattle.oe_undo.specs.Restored.{later_of};
ghost use Rattle.oe_journal.specs.Forgetting.{tells_name, one_tells, other_last, name_lost, LosesName, HaveNamesChanged, ForgetsNames};

use oe_index::name_number;
use oe_layout::OwnRecord;
use oe_log::Ticks;
use oe_rows::{CustomerKey, Key};
use oe_store::Tables;
use oe_undo::Undo;
use oe_values::{Moment, Text};

/// Takes a customer off the list of a C_LAST, where neither its row nor a record of it has a name
/// of that list: a record of an open transaction, or of a commit after the moment.
pub(crate) fn forget_name(
    tables: &mut Tables,
    undo: &Undo,
    key: &CustomerKey,
    last: &Text<0, 16>,
    moment: Moment,
)
    requires { horizon undo.now.log ≤ moment }
    ensures others { HaveNamesChanged tables.old tables.new }
    ensures names { ForgetsNames tables.old tables.new
        (LosesName undo.now.log moment (key.now, last.now)) }
{
    if !had_later(undo, key, last, moment) {
        tables.forget_name(key, last);
    }
}

/// Gives the customer and the C_LAST that a record's undo takes away; none where it takes none.
pub(crate) fn name_lost(tables: &Tables, record: &OwnRecord) -> Option<(CustomerKey, Text<0, 16>)>
    ensures { result ≡ name_lost (rows tables.now) (record_of_own record.now) }
{
    match &record.last_before() {
        Some((key, before)) => other_last(tables, key, before),
        None => None,
    }
}

/// Gives a customer's key with its C_LAST; none where there is no such customer, or the C_LAST is
/// this one.
fn other_last(
    tables: &Tables,
    key: &CustomerKey,
    before: &Text<0, 16>,
) -> Option<(CustomerKey, Text<0, 16>)>
    ensures { result
        ≡ other_last key.now before.now (get (rows tables.now).customers key.now) }
{
    match tables.customer(*key) {
        Some(row) if row.name.last != *before => Some((*key, row.name.last.copied())),
        _ => None,
    }
}

/// Takes a customer who has lost a C_LAST off its list, where neither its row nor a record of it
/// has a name of that list.
pub(crate) fn forget_lost(
    tables: &mut Tables,
    undo: &Undo,
    lost: &Option<(CustomerKey, Text<0, 16>)>,
)
    ensures others { HaveNamesChanged tables.old tables.new }
    ensures names { ForgetsNames tables.old tables.new (λ n k. IsSomeAnd lost.now
        (λ x. LosesName undo.now.log (horizon undo.now.log) x n k)) }
{
    if let Some((key, last)) = lost {
        forget_name(tables, undo, key, last, undo.segments().horizon());
    }
}

/// Tells whether an open transaction, or a commit after the moment, took a C_LAST of that list from
/// a customer or left it.
fn had_later(undo: &Undo, key: &CustomerKey, last: &Text<0, 16>, moment: Moment) -> bool
    requires { horizon undo.now.log ≤ moment }
    ensures { result ≡ one_tells (name_number last.now)
        (later_of moment (of_key (Key.Customer key.now) (all_held undo.now.log))) }
{
    undo.is_chained();
    let mut ticks = Ticks::new();
    let _known = ticks.records();
    let mut link = undo.link(&Key::Customer(*key));
    while let Some(newer) = link {
        if !newer.holder.is_later(moment) {
            return false;
        }
        let (previous, record) = undo.read_record(&newer, &mut ticks);
        if has_name(&record.read(), last) {
            return true;
        }
        link = newer.holder.link_from(previous);
    }
    false
}

/// Tells whether a record has a C_LAST of that list before its change.
fn has_name(record: &OwnRecord, last: &Text<0, 16>) -> bool
    ensures { result ≡ tells_name (name_number last.now) (record_of_own record.now) }
{
    match record.last_before() {
        Some((_, before)) => name_number(&before) == name_number(last),
        None => false,
    }
}
