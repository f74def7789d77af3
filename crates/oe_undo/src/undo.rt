//! The undo log beside the links: the newest record of each key is found by the key's link, and
//! each record leads to the one before it. By its invariant links and records agree.
ghost use Rattle.std.specs.Prelude.{◌≡◌, ◌<◌, [], None, IfSome, IfOk, OnOk, OnErr};
ghost use Rattle.oe_rows.specs.declared.keys.Key.{Key};
ghost use Rattle.oe_rows.specs.declared.keys.Key.TheVariants.{History};
ghost use Rattle.oe_log.specs.Log.{count_at, active_at, records_at, no_segments, with_segment, without_segment};
ghost use Rattle.oe_undo.specs.declared.holders.Holder.TheVariants.{Open};
ghost use Rattle.oe_undo.specs.Held.{horizon};
ghost use Rattle.oe_undo.specs.Chains.{link_from, AreChained};
ghost use Rattle.oe_undo.specs.Laws.{IsWhole};
ghost use Rattle.oe_undo.specs.Links.{place_of, HasPlace, no_links, GivesPlaces, GivesUpLink};
ghost use Rattle.oe_undo.specs.Owners.{link_by_now, holder_of, AreMoments, IsMade, IsOwner};
ghost use Rattle.oe_undo.specs.Undo.{link_seen, link_above, IsOpen};

use crate::holders::{Holder, Link};
use crate::links::{Links, OwnedLink};
use crate::moments::{TerminalMoments, idle_moments};
use oe_layout::Previous;
use oe_log::{Log, Segment, SegmentOwner};
use oe_rows::{HistoryKey, Key, Layout};
use oe_values::{ExtentCount, NoMemory, PerTerminal, Terminal};
use std::alloc::Global;
use std::marker::Model;

/// The segments of undo records, with the link of each key to its newest record.
///
/// A link keeps the transaction of its record, and what became of that is looked up, so that no
/// commit changes a link. By the invariant each key's link, looked up so, leads along all records
/// of the key, from the newest on. All memory for records is taken by `new`, that for a segment's
/// later commit by `open_segment`, and that for a key's link by `add_place`, or by `push` where the
/// key has no place.
#[derive(Drop)]
pub struct Undo {
    pub(crate) segments: Log,
    pub(crate) links: Links,
    pub(crate) moments: PerTerminal<TerminalMoments>,
}

impl Model for Undo {
    ghost use Rattle.std.specs.Coded.{codes};
    ghost use Rattle.std.specs.FinMap.{code as map_code};
    ghost use Rattle.oe_undo.specs.Undo.{UndoState};
    ghost use Rattle.oe_undo.specs.Owners.{IsLinked};
    ghost use Rattle.oe_undo.specs.Links.{links_of};

    ghost Value = { UndoState };

    ghost coded = { Prim.hlevel (codes, map_code) };

    ghost view = { λ u. record { log = u.segments; links = u.links } };

    ghost invariant = { λ u. IsLinked u.segments (links_of u.links) u.moments };
}

/// Tells what became of a transaction that has committed or is open; none where its commit was
/// given up.
#[inline(always)]
fn holder_in(
    segments: &Log,
    moments: &PerTerminal<TerminalMoments>,
    owner: &SegmentOwner,
) -> Option<Holder>
    requires { AreMoments segments.now moments.now }
    ensures { result ≡ holder_of segments.now owner.now }
{
    let terminal = owner.terminal;
    let count = segments.count(terminal);
    let number = owner.number.get();
    if count < number {
        return Some(Holder::Open(terminal));
    }
    match moments.at(terminal).at((count - number) as usize) {
        Some(moment) => Some(Holder::At(moment)),
        None => None,
    }
}

/// Gives a key's link, if it has one, with what became of its transaction by now.
#[inline(always)]
pub(crate) fn followed_in(
    segments: &Log,
    moments: &PerTerminal<TerminalMoments>,
    link: Option<OwnedLink>,
) -> Option<Link>
    requires { AreMoments segments.now moments.now }
    ensures { result ≡ link_by_now segments.now link }
{
    let link = link?;
    let holder = holder_in(segments, moments, &link.owner)?;
    Some(Link {
        address: link.address,
        holder,
    })
}

impl Undo {
    /// Makes a log without a segment, a commit or a link, on a ring of `extents` extents, for
    /// records of a layout; `NoMemory` where memory was refused.
    pub fn new(alloc: Global, extents: ExtentCount, layout: Layout) -> Result<Undo, NoMemory>
        ensures log { IfOk result (λ u. u.log ≡ no_segments extents layout) }
        ensures links { IfOk result (λ u. u.links ≡ no_links) }
    {
        let segments = Log::new(alloc, extents, layout)?;
        let Ok(moments) = idle_moments(alloc) else {
            drop(segments);
            return Err(NoMemory);
        };
        Ok(Undo {
            segments,
            links: Links::new(alloc),
            moments,
        })
    }

    /// Lets go of the log. A crate above that let it go out of scope would prove the drop of each
    /// of its parts again.
    pub fn discard(self) {
        drop(self);
    }

    /// Gives the segments alone.
    #[inline(always)]
    pub fn segments(&self) -> &Log
        ensures { result.now ≡ self.now.log }
    {
        &self.segments
    }

    /// Gives the link of a key to its newest record, if it has a record.
    #[inline(always)]
    pub fn link(&self, key: &Key) -> Option<Link>
        ensures { result ≡ link_seen self.now key.now }
    {
        followed_in(&self.segments, &self.moments, self.links.link(key))
    }

    /// Reads the place of a key's link early, as `Tables::touch_stock` does rows. What it gives has
    /// no meaning.
    #[inline]
    pub fn touch(&self, key: &Key) -> u32 {
        match self.links.link(key) {
            Some(link) => link.address.offset.get(),
            None => 0,
        }
    }

    /// States that each key's link leads along the key's records. It does nothing: it is for proofs
    /// above, which see no invariant.
    #[inline(always)]
    pub fn is_chained(&self)
        ensures whole { IsWhole self.now.log }
        ensures chained { AreChained self.now.log (link_seen self.now) }
    {
        self.segments.terminals_are();
        let _horizon = self.segments.horizon();
    }

    /// Gives a key without a place for its link an empty one, and those that come with it;
    /// `NoMemory` where memory for them was refused. A key that has one keeps it.
    pub fn add_place(&mut self, key: &Key) -> Result<(), NoMemory>
        ensures log { self.new.log ≡ self.old.log }
        ensures given { OnOk result (GivesPlaces self.old.links self.new.links key.now) }
        ensures own { OnOk result (HasPlace self.new.links key.now) }
        ensures no_place { OnErr result (place_of self.old.links key.now ≡ None) }
        ensures err { OnErr result (self.new ≡ self.old) }
    {
        self.links.add_place(key)
    }

    /// Gives up the place of a HISTORY key's link where it is empty: places of all other keys lie
    /// by their numbers, and stay. It takes no memory.
    pub fn give_up_history(&mut self, key: &HistoryKey)
        ensures log { self.new.log ≡ self.old.log }
        ensures links { GivesUpLink self.old.links self.new.links (History key.now) }
        ensures seen { (k : Key) → link_seen self.new k ≡ link_seen self.old k }
    {
        self.links.give_up_history(key)
    }

    /// Opens a segment without records for a terminal that has none open and fewer than
    /// 4,294,967,295 commits, and takes all memory that its commit will need; `NoMemory` where that
    /// was refused.
    pub fn open_segment(&mut self, terminal: Terminal) -> Result<Segment, NoMemory>
        requires closed { active_at self.old.log terminal ≡ None }
        requires counted { count_at self.old.log terminal < 4_294_967_295 }
        ensures opened { OnOk result (self.new.log ≡ with_segment self.old.log terminal) }
        ensures segment { IfOk result (λ s. s ≡ terminal) }
        ensures links { self.new.links ≡ self.old.links }
        ensures err { OnErr result (self.new ≡ self.old) }
    {
        self.moments.at_mut(terminal).reserve()?;
        self.segments.open_segment(terminal)
    }

    /// Gives up an open segment whose records were all taken off.
    pub fn drop_segment(&mut self, segment: Segment)
        requires open { IsOpen self.old segment }
        requires empty { records_at self.old.log segment ≡ [] }
        ensures log { self.new.log ≡ without_segment self.old.log segment }
        ensures links { self.new.links ≡ self.old.links }
    {
        self.segments.drop_segment(segment)
    }

    /// Gives the link to where a previous one leads, which a record of an open segment has; none
    /// where its commit was given up.
    pub(crate) fn owned(&self, segment: Segment, previous: Previous) -> Option<OwnedLink>
        requires open { IsOpen self.now segment }
        requires made { IsMade self.now.log (link_from (Open segment) previous) }
        ensures followed { link_by_now self.now.log result
            ≡ link_above (horizon self.now.log) (link_from (Open segment) previous) }
        ensures owner { IfSome result (λ l. IsOwner self.now.log l.owner) }
    {
        self.is_chained();
        match previous {
            Previous::Nothing => None,
            Previous::Own(address) => Some(OwnedLink {
                address,
                owner: self.segments.owner(segment),
            }),
            Previous::Committed(address, moment) => {
                let later = self.segments.newest().get().saturating_sub(moment.get());
                let owner = self.segments.committed(later as usize)?;
                Some(OwnedLink { address, owner })
            }
        }
    }
}
