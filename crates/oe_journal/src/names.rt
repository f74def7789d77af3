//! Whether records name a key. A key that no record names, and that has no row, has no use for a
//! place.
ghost use Rattle.std.specs.Prelude.{◌↔◌, IsTrue};
ghost use Rattle.oe_undo.specs.Chains.{IsForgotten, IsEnd};
ghost use Rattle.oe_undo.specs.Undo.{link_seen};
ghost use Rattle.oe_journal.specs.GivesUp.{HasNoRecord};

use oe_rows::Key;
use oe_undo::laws::ends_without_records;
use oe_undo::{Holder, Undo};
use oe_values::Moment;

/// Tells whether the log has no record of a key, open or committed.
pub(crate) fn is_unnamed(undo: &Undo, key: &Key) -> bool
    ensures { IsTrue result ↔ HasNoRecord undo.now.log key.now }
{
    ends_without_records();
    undo.is_chained();
    has_ended(undo, key, undo.segments().horizon())
}

/// Tells whether a key's link leads to no record of an open transaction, nor of a commit after the
/// moment.
pub(crate) fn has_ended(undo: &Undo, key: &Key, moment: Moment) -> bool
    ensures { IsTrue result ↔ IsEnd moment (link_seen undo.now key.now) }
{
    match undo.link(key) {
        None => true,
        Some(link) => is_forgotten(&link.holder, moment),
    }
}

/// Tells whether a holder's commit is given up by a purge to the moment.
fn is_forgotten(holder: &Holder, moment: Moment) -> bool
    ensures { IsTrue result ↔ IsForgotten moment holder.now }
{
    match holder {
        Holder::Open(_) => false,
        Holder::At(made) => *made <= moment,
    }
}
