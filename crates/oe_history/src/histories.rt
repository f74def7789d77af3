//! The history, which its keeper writes, and the callers.
//!
//! By the invariants the keeper knows all entries; what a caller has seen is a beginning of the
//! history, and its own calls are the entries of its number.
ghost use Rattle.std.specs.Prelude.{◌≡◌, ℕ, suc, ◌<◌, ◌≤◌, [], ◌∷◌, ◌++◌, IfOk};
ghost use Rattle.atomic_table.specs.Seated.{TableId};
ghost use Rattle.oe_history.specs.Views.{calls_by, keeper, caller, first_view, IsCaller};
ghost use Rattle.oe_history.specs.Calls.{TheHistory, TheCaller, Extends, Knows, with_call, with_entry};

use crate::views::{Appends, Comes, Deals, Goes, Looks, OneHistory, Told, View};
use atomic_table::{Badge, Seat, Table};
use std::alloc::{AllocError, Global};
use std::marker::Model;
use std::mem;

/// A history, with its keeper.
#[derive(Drop)]
pub struct History {
    table: Table<u8, View, u64, OneHistory, Global>,
    chair: Seat<u8, View>,
}

impl Model for History {
    ghost use Rattle.std.specs.Prelude.{◌≡◌, ◌<◌, []};
    ghost use Rattle.oe_history.specs.Views.{keeper};
    ghost use Rattle.oe_history.specs.Calls.{TheHistory};

    ghost Value = { TheHistory };

    ghost view = { λ h. record {
      table = h.table.shared.table_id;
      log = h.chair.me.0.log;
      dealt = h.chair.me.0.dealt;
    } };

    ghost invariant = { λ h. (0 < h.table.shared.table_id.words)
        × (h.chair.table_id ≡ h.table.shared.table_id)
        × (h.chair.me ≡ (keeper h.chair.me.0.log h.chair.me.0.dealt, [])) };
}

/// A caller of the steps of a history.
#[derive(Drop)]
pub struct Caller {
    badge: Badge<View>,
}

impl Model for Caller {
    ghost use Rattle.std.specs.Prelude.{◌≡◌, [], ◌∷◌};
    ghost use Rattle.oe_history.specs.Views.{caller, calls_by, first_view};
    ghost use Rattle.oe_history.specs.Calls.{TheCaller};

    ghost Value = { TheCaller };

    ghost view = { λ c. record {
      table = c.badge.table_id;
      by = (first_view c.badge.views).by;
      seen = (first_view c.badge.views).seen;
      mine = (first_view c.badge.views).mine;
    } };

    ghost invariant = { λ c. (c.badge.views ≡ caller (first_view c.badge.views).by
        (first_view c.badge.views).seen (first_view c.badge.views).mine ∷ [])
        × (calls_by (first_view c.badge.views).by (first_view c.badge.views).seen
        ≡ (first_view c.badge.views).mine) };
}

impl History {
    /// Opens a history with no entry. Memory is the only refusal.
    pub fn new(alloc: Global) -> Result<History, AllocError>
        ensures { IfOk result (λ h. (h.log ≡ []) × (h.dealt ≡ 0)) }
    {
        let (table, chair) = Table::of_words(alloc, &[0u64], &0u64)?;
        Ok(History { table, chair })
    }

    /// Gives the next caller, whose number is how many there were.
    pub fn deal(&mut self) -> Caller
        ensures caller { result ≡ record {
          table = self.old.table;
          by = self.old.dealt;
          seen = [];
          mine = [];
        } }
        ensures dealt { self.new ≡ record {
          table = self.old.table;
          log = self.old.log;
          dealt = suc self.old.dealt;
        } }
    {
        let table = &self.table;
        let shared = &table.shared;
        let chair = shared.split_seat::<Deals>(&mut self.chair);
        Caller {
            badge: chair.into_badge(),
        }
    }

    /// Writes an entry of a caller's, which its call picks. What was asked and answered is there for
    /// the pick.
    pub fn write<T: Told, A, B>(&mut self, caller: &mut Caller, asked: &A, answer: &B)
        requires here { caller.old.table ≡ self.old.table }
        requires own { T.entry.by ≡ caller.old.by }
        ensures log { self.new ≡ with_entry T.entry self.old }
        ensures mine { caller.new ≡ with_call T.entry self.old.log caller.old }
        ensures stands { Extends caller.old T.entry caller.new }
        ensures told { Knows self.old.log caller.old }
    {
        let _asked = asked;
        let _answer = answer;
        write::<T>(&self.table, &mut self.chair, &mut caller.badge);
    }

    /// Shows that a caller's own calls are the entries of its number. This changes nothing: it is a
    /// law.
    pub fn look(&mut self, caller: &mut Caller)
        requires here { caller.old.table ≡ self.old.table }
        ensures same { (self.new ≡ self.old) × (caller.new ≡ caller.old) }
        ensures told { Knows self.old.log caller.old }
    {
        look(&self.table, &mut self.chair, &mut caller.badge);
    }

    /// Shows that no number that was not dealt has an entry. This changes nothing: it is a law.
    pub fn count(&mut self)
        ensures same { self.new ≡ self.old }
        ensures others { (by : ℕ) → self.old.dealt ≤ by → calls_by by self.old.log ≡ [] }
    {
        count(&self.table, &mut self.chair);
    }
}

// The keeper writes an entry of the caller that has the badge, and knows what it had seen.
fn write<T: Told>(
    table: &Table<u8, View, u64, OneHistory, Global>,
    chair: &mut Seat<u8, View>,
    badge: &mut Badge<View>,
)
    requires own { T.entry.by ≡ (first_view badge.old.views).by }
    requires words { 0 < table.now.shared.table_id.words }
    requires here { (chair.old.table_id ≡ table.now.shared.table_id)
        × (badge.old.table_id ≡ table.now.shared.table_id) }
    requires keeper { chair.old.me ≡ (keeper chair.old.me.0.log chair.old.me.0.dealt, []) }
    requires caller { badge.old.views ≡ caller (first_view badge.old.views).by
        (first_view badge.old.views).seen (first_view badge.old.views).mine ∷ [] }
    ensures here { (chair.new.table_id ≡ chair.old.table_id)
        × (badge.new.table_id ≡ badge.old.table_id) }
    ensures keeper { chair.new.me
        ≡ (keeper (chair.old.me.0.log ++ T.entry ∷ []) chair.old.me.0.dealt, []) }
    ensures caller { badge.new.views
        ≡ caller (first_view badge.old.views).by (chair.old.me.0.log ++ T.entry ∷ [])
        ((first_view badge.old.views).mine ++ T.entry ∷ []) ∷ [] }
    ensures known { IsCaller chair.old.me.0.log chair.old.me.0.dealt
        (caller (first_view badge.old.views).by (first_view badge.old.views).seen
        (first_view badge.old.views).mine) }
{
    let shared = &table.shared;
    let guest: Seat<u8, View> = mem::replace(badge, Badge::blank()).into_seat();
    shared.join_seat::<Comes>(chair, guest);
    shared.load::<Appends<T>>(chair, 0);
    let guest = shared.split_seat::<Goes>(chair);
    *badge = guest.into_badge();
}

// The keeper compares what the caller that has the badge knows.
fn look(
    table: &Table<u8, View, u64, OneHistory, Global>,
    chair: &mut Seat<u8, View>,
    badge: &mut Badge<View>,
)
    requires words { 0 < table.now.shared.table_id.words }
    requires here { (chair.old.table_id ≡ table.now.shared.table_id)
        × (badge.old.table_id ≡ table.now.shared.table_id) }
    requires keeper { chair.old.me ≡ (keeper chair.old.me.0.log chair.old.me.0.dealt, []) }
    requires caller { badge.old.views ≡ caller (first_view badge.old.views).by
        (first_view badge.old.views).seen (first_view badge.old.views).mine ∷ [] }
    ensures here { (chair.new.table_id ≡ chair.old.table_id)
        × (badge.new.table_id ≡ badge.old.table_id) }
    ensures same { (chair.new.me ≡ chair.old.me) × (badge.new.views ≡ badge.old.views) }
    ensures known { IsCaller chair.old.me.0.log chair.old.me.0.dealt
        (caller (first_view badge.old.views).by (first_view badge.old.views).seen
        (first_view badge.old.views).mine) }
{
    let shared = &table.shared;
    let guest: Seat<u8, View> = mem::replace(badge, Badge::blank()).into_seat();
    shared.join_seat::<Comes>(chair, guest);
    shared.load::<Looks>(chair, 0);
    let guest = shared.split_seat::<Goes>(chair);
    *badge = guest.into_badge();
}

// The keeper knows that no other than the callers has an entry.
fn count(table: &Table<u8, View, u64, OneHistory, Global>, chair: &mut Seat<u8, View>)
    requires words { 0 < table.now.shared.table_id.words }
    requires here { chair.old.table_id ≡ table.now.shared.table_id }
    requires keeper { chair.old.me ≡ (keeper chair.old.me.0.log chair.old.me.0.dealt, []) }
    ensures same { (chair.new.me ≡ chair.old.me) × (chair.new.table_id ≡ chair.old.table_id) }
    ensures others { (by : ℕ) → chair.old.me.0.dealt ≤ by
        → calls_by by chair.old.me.0.log ≡ [] }
{
    let shared = &table.shared;
    shared.load::<Looks>(chair, 0);
}
