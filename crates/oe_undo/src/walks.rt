//! Walks along a key's records, the newest first. A record is read at its address in its holder's
//! segment, and tells where the next one lies. No table is read, and nothing takes memory.
ghost use Rattle.std.specs.Prelude.{◌≡◌, ◌≤◌};
ghost use Rattle.oe_log.specs.Records.{HasAddress, IsRecordAt};
ghost use Rattle.oe_undo.specs.Held.{all_held, of_key, horizon, count_later};
ghost use Rattle.oe_undo.specs.Restored.{later_of, has_later, row_before};
ghost use Rattle.oe_undo.specs.Walks.{records_by};
ghost use Rattle.oe_log.specs.Ticks.{ticks_with};

use crate::holders::{Holder, Link};
use crate::undo::Undo;
use oe_layout::{Previous, StoredRecord};
use oe_log::Ticks;
use oe_rows::{Key, Row};
use oe_values::Moment;

impl Undo {
    /// Gives the record where a link leads, as it lies in its holder's segment, with what leads to
    /// the previous one of its key. It ticks once. No row is read, and no memory is taken.
    pub fn read_record(&self, link: &Link, ticks: &mut Ticks) -> (Previous, StoredRecord<'_>)
        requires { HasAddress (records_by self.now.log link.now.holder) link.now.address }
        ensures record { IsRecordAt (records_by self.now.log link.now.holder) link.now.address
            (result.0, result.1) }
        ensures ticks { ticks.new ≡ ticks_with ticks.old 1 }
    {
        match &link.holder {
            Holder::Open(terminal) => self.segments.linked_at(*terminal, link.address, ticks),
            Holder::At(made) => {
                let newest = self.segments.newest();
                let later = newest.get().saturating_sub(made.get());
                self.segments
                    .committed_linked_at(later as usize, link.address, ticks)
            }
        }
    }

    /// Tells whether a key has a record that is open or of a later commit than a moment that is
    /// kept. It looks at the key's link alone, and reads no record.
    pub fn has_later(&self, key: &Key, moment: Moment) -> bool
        requires { horizon self.now.log ≤ moment }
        ensures { result ≡ has_later moment (of_key key.now (all_held self.now.log)) }
    {
        self.is_chained();
        match self.link(key) {
            Some(link) => link.holder.is_later(moment),
            None => false,
        }
    }

    /// Gives the row that a key had at a moment that is kept, by the row `now` that stands: what
    /// the key's records that are open or of a later commit leave of it, each put back, the newest
    /// first. It reads these records from the key's link on, ticks once for each, and reads no
    /// other.
    pub fn row_at(
        &self,
        key: &Key,
        moment: Moment,
        now: Option<Row>,
        ticks: &mut Ticks,
    ) -> Option<Row>
        requires { horizon self.now.log ≤ moment }
        ensures row { result
            ≡ row_before (later_of moment (of_key key.now (all_held self.now.log))) now }
        ensures ticks { ticks.new
            ≡ ticks_with ticks.old (count_later moment (of_key key.now (all_held self.now.log))) }
    {
        self.is_chained();
        let _known = ticks.records();
        let mut link = self.link(key);
        let mut row = now;
        while let Some(newer) = link {
            if !newer.holder.is_later(moment) {
                return row;
            }
            let (previous, record) = self.read_record(&newer, ticks);
            row = record.read().restore(row);
            link = newer.holder.link_from(previous);
        }
        row
    }
}
