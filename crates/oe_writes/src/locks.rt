//! The lock under which a row is written.
ghost use Rattle.std.specs.Prelude.{◌≡◌};
ghost use Rattle.oe_model.specs.Locks.{governs};
ghost use Rattle.oe_writes.specs.Asks.{ask_of, ask_to_write};

use oe_locks::Lock;
use oe_rows::{Key, Name};

/// Gives the lock under which a row is written, by its key; none for a HISTORY row, nor for an ITEM
/// row, which is never written.
#[inline(always)]
pub(crate) fn lock_of(key: Key) -> Option<Lock>
    ensures { ask_of result ≡ ask_to_write (governs key) }
{
    match key {
        Key::Warehouse(key) => Some(Lock::exclusive(Name::Warehouse(key))),
        Key::District(key) => Some(Lock::exclusive(Name::District(key))),
        Key::Customer(key) => Some(Lock::exclusive(Name::Customer(key))),
        Key::NewOrder(key) => { Some(Lock::exclusive(Name::Queue(key.order_key().district_key()))) }
        Key::Order(key) => Some(Lock::exclusive(Name::Order(key))),
        Key::OrderLine(key) => Some(Lock::exclusive(Name::Order(key.order_key()))),
        Key::Stock(key) => Some(Lock::exclusive(Name::Stock(key))),
        Key::History(_) | Key::Item(_) => None,
    }
}
