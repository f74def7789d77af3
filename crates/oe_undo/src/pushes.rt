//! Records pushed and taken off, each with its key's link: the record is written with the link that
//! stands, then the link leads to it. A refused push changes nothing.
ghost use Rattle.std.specs.Prelude.{◌≡◌, true, option_map, IfSome, IfErr, OnOk, OnErr};
ghost use Rattle.std.specs.Borrow.{sem};
ghost use Rattle.std.specs.Io.BufRead.{Rests};
ghost use Rattle.oe_layout.specs.Records.{record_of_own};
ghost use Rattle.oe_layout.specs.declared.links.Previous.TheVariants.{Nothing};
ghost use Rattle.oe_log.specs.Records.{newest_of};
ghost use Rattle.oe_log.specs.Log.{records_at, without_newest};
ghost use Rattle.oe_undo.specs.Chains.{previous_of};
ghost use Rattle.oe_undo.specs.Held.{is_later};
ghost use Rattle.oe_undo.specs.Undo.{lent_record, IsOpen, IsAloneAtRow, HasLayout, LeadsBack, HasRoom, HasNoPlace};
ghost use Rattle.oe_undo.specs.Undo.{HasPushed, IsUnpushed, GivesBack};

use crate::holders::{Link, previous_of};
use crate::links::OwnedLink;
use crate::undo::{Undo, followed_in};
use oe_layout::{LinkedRecord, OwnRecord, Previous};
use oe_log::{Segment, Ticks};

/// Why a record was not pushed.
#[derive(Clone, Copy)]
pub enum CantPush {
    /// The record fits neither the rest of its segment's newest extent nor a free one.
    Full,
    /// The record fits, and memory was refused for the place of its key's link.
    NoMemory,
}

// Lends the value behind a `&mut`. To read it without a call is more than the borrow checker's
// proof can do here.
#[inline(always)]
fn shared<T>(lent: &mut T) -> &T
    ensures* stays { sem 𝓛 (Rests T.row lent.entry (λ v. v ≡ lent.entry.now)) }
    ensures value { result.now ≡ lent.old }
{
    lent
}

// Sets what leads to a record's previous one, by its key's link.
#[inline(always)]
fn lead_from(lent: &mut LinkedRecord<'_>, link: Option<Link>)
    requires { IfSome link (λ l. is_later 0 l.holder ≡ true) }
    ensures previous { lent.new.previous ≡ previous_of link }
    ensures record { lent.new.record ≡ lent.old.record }
{
    lent.previous = previous_of(link);
}

impl Undo {
    /// Appends a record to an open segment, and has its key's link lead to it. What leads to the
    /// previous record of its row is written into it first: its key's link as it was. No other open
    /// transaction has a record of the key, and no other record is at its address. The record is of
    /// the log's layout. The row before an update is written from where it lies. A key that has a
    /// place for its link takes no memory.
    ///
    /// `Full` exactly where the record fits neither the rest of the segment's newest extent nor a
    /// free one. `NoMemory`: the record fits, its key has no place for a link, and memory for that
    /// was refused. The log and the links are as before then.
    #[inline(always)]
    pub fn push(&mut self, segment: Segment, lent: &mut LinkedRecord<'_>) -> Result<(), CantPush>
        requires open { IsOpen self.old segment }
        requires alone { IsAloneAtRow self.old segment (lent_record lent.old) }
        requires layout { HasLayout self.old (lent_record lent.old) }
        ensures linked { LeadsBack self.old segment lent.new.previous (lent_record lent.old) }
        ensures record { lent.new.record ≡ lent.old.record }
        ensures pushed { OnOk result
            (HasPushed self.old self.new segment lent.new.previous (lent_record lent.old)) }
        ensures room { OnOk result (HasRoom self.old segment (lent_record lent.old)) }
        ensures cause { IfErr result (IsUnpushed self.old segment (lent_record lent.old)) }
        ensures err { OnErr result (self.new ≡ self.old) }
    {
        self.is_chained();
        let owner = self.segments.owner(segment);
        let key = shared(lent).record.key();
        let Some(place) = self.links.place_mut(&key) else {
            return self.push_new(segment, lent);
        };
        lead_from(lent, followed_in(&self.segments, &self.moments, *place));
        let linked = shared(lent);
        let Ok(address) = self.segments.push(segment, linked) else {
            return Err(CantPush::Full);
        };
        *place = Some(OwnedLink { address, owner });
        Ok(())
    }

    // Pushes a record of a key that has no place for a link, and so no record.
    #[inline(never)]
    fn push_new(&mut self, segment: Segment, lent: &mut LinkedRecord<'_>) -> Result<(), CantPush>
        requires open { IsOpen self.old segment }
        requires no_place { HasNoPlace self.old (lent_record lent.old) }
        requires layout { HasLayout self.old (lent_record lent.old) }
        ensures linked { lent.new.previous ≡ Nothing }
        ensures record { lent.new.record ≡ lent.old.record }
        ensures pushed { OnOk result
            (HasPushed self.old self.new segment Nothing (lent_record lent.old)) }
        ensures room { OnOk result (HasRoom self.old segment (lent_record lent.old)) }
        ensures cause { IfErr result (IsUnpushed self.old segment (lent_record lent.old)) }
        ensures err { OnErr result (self.new ≡ self.old) }
    {
        self.is_chained();
        let owner = self.segments.owner(segment);
        lead_from(lent, None);
        let key = shared(lent).record.key();
        let linked = shared(lent);
        let Ok(address) = self.segments.push(segment, linked) else {
            return Err(CantPush::Full);
        };
        let link = OwnedLink { address, owner };
        match self.links.insert(&key, link) {
            Ok(()) => Ok(()),
            Err(_refused) => {
                self.segments.pop(segment);
                Err(CantPush::NoMemory)
            }
        }
    }

    /// Takes the newest record of an open segment off, where it has one, and gives the record's key
    /// its previous link back. It takes no memory.
    #[inline(never)]
    pub fn pop(&mut self, segment: Segment)
        requires { IsOpen self.old segment }
        ensures log { self.new.log ≡ without_newest self.old.log segment }
        ensures links { GivesBack self.old self.new segment (records_at self.old.log segment) }
    {
        let _taken = self.take_newest(segment);
    }

    /// Gives the newest record of an open segment, which is taken off as by `pop`; none exactly
    /// where it has none.
    pub fn take_newest(&mut self, segment: Segment) -> Option<OwnRecord>
        requires { IsOpen self.old segment }
        ensures newest { option_map record_of_own result
            ≡ option_map (λ x. x.1) (newest_of (records_at self.old.log segment)) }
        ensures log { self.new.log ≡ without_newest self.old.log segment }
        ensures links { GivesBack self.old self.new segment (records_at self.old.log segment) }
    {
        self.is_chained();
        let mut ticks = Ticks::new();
        let Some((previous, before)) = self.segments.newest_record(segment, &mut ticks) else {
            return None;
        };
        let link = self.owned(segment, previous);
        self.segments.pop(segment);
        self.links.set(&before.key(), link);
        Some(before)
    }
}
