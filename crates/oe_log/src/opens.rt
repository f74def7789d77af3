//! Open segments: opened for a terminal, filled with records, marked, cut back, and dropped. Only
//! `open_segment` takes memory, and `push` alone is refused for want of an extent.
ghost use Rattle.std.specs.Prelude.{◌≡◌, ◌<◌, ◌↔◌, suc, false, [], length, option_map, None, IsSome, IsErr, IfOk, OnOk, OnErr};
ghost use Rattle.oe_model.specs.Lengths.{record_length};
ghost use Rattle.oe_layout.specs.Records.{record_of_own, record_of_lent, IsOfLayout};
ghost use Rattle.oe_layout.specs.Stored.{deleted_new_order};
ghost use Rattle.oe_log.specs.Records.{log_entry, newest_of};
ghost use Rattle.oe_log.specs.Ticks.{ticks_with};
ghost use Rattle.oe_log.specs.Log.{count_at, active_at, records_at, with_segment, with_record, without_newest, without_segment, IsFull, IsFresh};

use crate::heads::SegmentOwner;
use crate::log::{Log, Segment};
use crate::ticks::Ticks;
use oe_extent::{Address, Full};
use oe_layout::{LentRecord, LinkedRecord, OwnRecord, Previous, linked_record};
use oe_values::NoMemory;
use oe_values::numbers::{Terminal, TransactionNumber};

/// Tells whether records may be of deleted rows after one more, by whether they may before.
fn may_delete(before: bool, record: &LentRecord<'_>) -> bool
    ensures before { result ≡ false → before ≡ false }
    ensures record { result ≡ false → deleted_new_order (record_of_lent record.now) ≡ None }
{
    match record {
        LentRecord::DeletedNewOrder(_) => true,
        _ => before,
    }
}

impl Log {
    /// Opens a segment without records for a terminal that has none open and fewer than
    /// 4,294,967,295 commits, and takes all memory that its commit will need; `NoMemory` where that
    /// was refused.
    pub fn open_segment(&mut self, terminal: Terminal) -> Result<Segment, NoMemory>
        requires closed { active_at self.old terminal ≡ None }
        requires counted { count_at self.old terminal < 4_294_967_295 }
        ensures opened { OnOk result (self.new ≡ with_segment self.old terminal) }
        ensures segment { IfOk result (λ s. s ≡ terminal) }
        ensures err { OnErr result (self.new ≡ self.old) }
    {
        let count = self.terminals.at(terminal).count;
        let needed = self.open_count + 1;
        if self.ring.reserve(needed).is_err() {
            return Err(NoMemory);
        }
        if self.commits.reserve(needed).is_err() {
            return Err(NoMemory);
        }
        let number = TransactionNumber::new(count + 1).unwrap();
        let state = self.terminals.at_mut(terminal);
        state.active = Some(SegmentOwner { terminal, number });
        state.deletes = false;
        self.open_count = needed;
        Ok(Segment::of(terminal))
    }

    /// Gives up an open segment whose records were all taken off.
    pub fn drop_segment(&mut self, segment: Segment)
        requires open { IsSome (active_at self.old segment) }
        requires empty { records_at self.old segment ≡ [] }
        ensures { self.new ≡ without_segment self.old segment }
    {
        let state = self.terminals.at_mut(segment.terminal());
        state.active = None;
        self.open_count -= 1;
    }

    /// Appends a record to an open segment, and answers its address, where no other record is. The
    /// row before an update is written from where it lies. `Full` exactly where the record fits
    /// neither the rest of the segment's newest extent nor a free one. The record is of the log's
    /// layout. It takes no memory.
    #[inline(always)]
    pub fn push(&mut self, segment: Segment, lent: &LinkedRecord<'_>) -> Result<Address, Full>
        requires open { IsSome (active_at self.old segment) }
        requires layout { IsOfLayout self.old.layout (record_of_lent lent.now.record) }
        ensures pushed { IfOk result (λ a. self.new
            ≡ with_record self.old segment (log_entry a lent.now.previous
            (record_of_lent lent.now.record))) }
        ensures same { OnErr result (self.new ≡ self.old) }
        ensures full { IsErr result ↔ IsFull self.old segment
            (record_length (record_of_lent lent.now.record)) }
        ensures fresh { IfOk result (IsFresh self.old) }
    {
        let terminal = segment.terminal();
        let slot = terminal.get() as usize;
        lent.ranges();
        let _length = lent.length();
        let pushed = self.ring.push(slot, lent);
        let Ok(address) = pushed else {
            return Err(Full);
        };
        let _extents = self.ring.extents();
        let state = self.terminals.at_mut(terminal);
        state.deletes = may_delete(state.deletes, &lent.record);
        state.len += 1;
        Ok(address)
    }

    /// Tells whose an open segment is: its terminal's next transaction.
    pub fn owner(&self, segment: Segment) -> SegmentOwner
        requires { IsSome (active_at self.now segment) }
        ensures { result
            ≡ record { terminal = segment; number = suc (count_at self.now segment) } }
    {
        match self.terminals.at(segment.terminal()).active {
            Some(owner) => owner,
            None => unreachable!(),
        }
    }

    /// Gives a mark in an open segment: the number of its records.
    pub fn mark(&self, segment: Segment) -> usize
        requires { IsSome (active_at self.now segment) }
        ensures { result ≡ length (records_at self.now segment) }
    {
        self.terminals.at(segment.terminal()).len
    }

    /// Gives the newest record of an open segment, with what leads to the previous one of its row;
    /// none exactly where it has none. It ticks once.
    pub fn newest_record(
        &self,
        segment: Segment,
        ticks: &mut Ticks,
    ) -> Option<(Previous, OwnRecord)>
        requires { IsSome (active_at self.now segment) }
        ensures record { option_map (λ x. (x.0, record_of_own x.1)) result
            ≡ newest_of (records_at self.now segment) }
        ensures ticks { ticks.new ≡ ticks_with ticks.old 1 }
    {
        ticks.tick();
        let terminal = segment.terminal();
        let slot = terminal.get() as usize;
        if self.terminals.at(terminal).len == 0 {
            return None;
        }
        let (previous, record) = linked_record(self.ring.newest(slot));
        Some((previous, record.read()))
    }

    /// Takes the newest record of an open segment off, where it has one. An extent without records
    /// is free again.
    pub fn pop(&mut self, segment: Segment)
        requires { IsSome (active_at self.old segment) }
        ensures { self.new ≡ without_newest self.old segment }
    {
        let terminal = segment.terminal();
        let slot = terminal.get() as usize;
        let len = self.terminals.at(terminal).len;
        if len > 0 {
            self.ring.pop(slot);
            self.terminals.at_mut(terminal).len = len - 1;
        }
    }
}
