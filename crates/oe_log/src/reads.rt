//! Terminals and records as they are read: whose they are, and the records by their addresses or
//! one after another.
ghost use Rattle.std.specs.Prelude.{◌≡◌, ◌<◌, ◌≤◌, ◌+◌, ◌↔◌, ℕ, suc, false, [], length, get_or, take, slice_get, option_map, Option, is_some, IsTrue, IsSome, IfSome};
ghost use Rattle.oe_log.specs.Records.{HasAddress, IsRecordAt};
ghost use Rattle.oe_model.specs.System.{system, terminal_limit};
ghost use Rattle.oe_theory.specs.Store.{Slot, count_slots};
ghost use Rattle.oe_log.specs.Log.{count_at, active_at, records_at, open_total, commits_of, committed_records, owner_of};
ghost use Rattle.oe_log.specs.Stands.{model_records, deleted_keys, rename_in, DeletesNothing};
ghost use Rattle.oe_log.specs.Ticks.{ticks_with};

use crate::heads::SegmentOwner;
use crate::log::Log;
use crate::ticks::Ticks;
use crate::walks::{Deleted, Records};
use oe_extent::Address;
use oe_layout::{Previous, StoredRecord, linked_record};
use oe_rows::{CustomerKey, Layout};
use oe_values::Text;
use oe_values::numbers::{TERMINALS, Terminal, TransactionNumber};

impl Log {
    /// Tells how many extents there are.
    pub fn extents(&self) -> usize
        ensures { result ≡ self.now.extents }
    {
        self.ring.extents()
    }

    /// Tells the layout of records for which the log was made.
    pub fn layout(&self) -> Layout
        ensures { result ≡ self.now.layout }
    {
        self.layout
    }

    /// States that the log has a state of each terminal, and one of nobody. It does nothing: it is
    /// for proofs above, which see no invariant.
    pub fn terminals_are(&self)
        ensures { length self.now.terminals ≡ suc TERMINALS }
    {
        let _known = &self.terminals;
    }

    /// Tells how many transactions of a terminal have committed and were not rewound.
    pub fn count(&self, terminal: Terminal) -> u32
        ensures { result ≡ count_at self.now terminal }
    {
        self.terminals.at(terminal).count
    }

    /// Gives the number of the transaction that a terminal has open or begins next.
    pub fn number(&self, terminal: Terminal) -> TransactionNumber
        requires { count_at self.now terminal < 4_294_967_295 }
        ensures { result ≡ count_at self.now terminal + 1 }
    {
        TransactionNumber::new(self.count(terminal) + 1).unwrap()
    }

    /// Tells whether a terminal has a segment open.
    pub fn is_open(&self, terminal: Terminal) -> bool
        ensures { IsTrue result ↔ IsSome (active_at self.now terminal) }
    {
        self.terminals.at(terminal).active.is_some()
    }

    /// Tells how many terminals have a segment open.
    pub fn open_count(&self) -> u32
        ensures value { result ≡ open_total self.now }
        ensures slots { (slots : ℕ → Option (Slot system))
            → ((t : ℕ) → is_some (slots t) ≡ is_some (active_at self.now t))
            → result ≡ count_slots system slots terminal_limit }
        ensures most { result ≤ TERMINALS }
    {
        self.open_count as u32
    }

    /// Answers whose a commit was, by the number of later ones; none exactly where that commit is
    /// not kept. Its number is its terminal's count less the terminal's later commits, and 1 at
    /// least.
    pub fn committed(&self, later: usize) -> Option<SegmentOwner>
        ensures commit { result ≡ option_map owner_of (slice_get self.now.committed later) }
        ensures number { IfSome result
            (λ n. n.number + commits_of n.terminal (take later self.now.committed)
            ≡ count_at self.now n.terminal) }
        ensures first { IfSome result (λ n. 1 ≤ n.number) }
    {
        match self.commits.get(later) {
            Some(head) => Some(head.owner()),
            None => None,
        }
    }

    /// Tells whether a commit may have deleted a NEW-ORDER row, by the number of later ones. One
    /// that has recorded no delete has not, so that its records need not be looked at.
    fn may_delete(&self, later: usize) -> bool
        ensures { result ≡ false
            → DeletesNothing (model_records (get_or (committed_records self.now) later [])) }
    {
        match self.commits.get(later) {
            Some(head) => head.may_delete(),
            None => false,
        }
    }

    /// Gives the record at that address of a terminal's open segment, where it lies, with what
    /// leads to the previous one of its row. It ticks once. No row is read, and no memory is taken.
    pub fn linked_at(
        &self,
        terminal: Terminal,
        address: Address,
        ticks: &mut Ticks,
    ) -> (Previous, StoredRecord<'_>)
        requires { HasAddress (records_at self.now terminal) address }
        ensures record { IsRecordAt (records_at self.now terminal) address
            (result.0, result.1) }
        ensures ticks { ticks.new ≡ ticks_with ticks.old 1 }
    {
        ticks.tick();
        let slot = terminal.get() as usize;
        linked_record(self.ring.at(slot, address))
    }

    /// Gives the record at that address of a commit's segment, where it lies, with what leads to
    /// the previous one of its row. The commit is given by the number of later ones. It ticks once.
    /// No row is read, and no memory is taken.
    pub fn committed_linked_at(
        &self,
        later: usize,
        address: Address,
        ticks: &mut Ticks,
    ) -> (Previous, StoredRecord<'_>)
        requires commit { later < length self.now.committed }
        requires some { HasAddress (get_or (committed_records self.now) later []) address }
        ensures record { IsRecordAt (get_or (committed_records self.now) later []) address
            (result.0, result.1) }
        ensures ticks { ticks.new ≡ ticks_with ticks.old 1 }
    {
        ticks.tick();
        linked_record(self.ring.committed_at(later, address))
    }

    /// Gives the keys of the NEW-ORDER rows that a commit deleted, the newest delete first. The
    /// commit is given by the number of later ones. Its records are not looked at where its head
    /// says that it deleted nothing. It takes no memory.
    pub fn deleted(&self, later: usize) -> Deleted<'_>
        requires { later < length self.now.committed }
        ensures { result
            ≡ deleted_keys (model_records (get_or (committed_records self.now) later [])) }
    {
        let has_any = self.may_delete(later);
        let records = self.committed_records(later);
        Deleted { records, has_any }
    }

    /// Gives the customer whom a commit renamed, with its C_LAST before; none where it renamed
    /// nobody. The commit is given by the number of later ones. A rename has one record: no record
    /// of another commit is read, and none is lent. It takes no memory.
    pub fn renamed(&self, later: usize) -> Option<(CustomerKey, Text<0, 16>)>
        requires { later < length self.now.committed }
        ensures { result ≡ rename_in (model_records
            (get_or (committed_records self.now) later [])) }
    {
        let mut records = self.committed_records(later);
        let Some(record) = records.next() else {
            return None;
        };
        if records.next().is_some() {
            return None;
        }
        record.read().last_before()
    }

    // Gives the records of a commit's segment, the newest first, where they lie. Nobody above walks
    // them: a read goes along its key's records, and each that it is lent ticks.
    fn committed_records(&self, later: usize) -> Records<'_>
        requires { later < length self.now.committed }
        ensures { result ≡ model_records (get_or (committed_records self.now) later []) }
    {
        let strings = self.ring.committed_strings(later);
        Records { strings }
    }
}
