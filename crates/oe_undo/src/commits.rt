//! Commits: their moments, and their segments given up or opened again. No link changes.
ghost use Rattle.std.specs.Prelude.{◌≡◌, ◌+◌, ◌-◌, ℕ, length, slice_get, option_map, None};
ghost use Rattle.oe_log.specs.Log.{active_at, total_count, owner_of, after_seal, with_newest, with_reopening};
ghost use Rattle.oe_undo.specs.Undo.{IsOpen};

use crate::undo::Undo;
use oe_log::{Segment, SegmentOwner};
use oe_requests::replies::Reply;
use oe_requests::requests::Request;
use oe_values::Moment;
use std::snapshot::Snapshot;

impl Undo {
    /// Seals an open segment, which the newest commit has from then on, and answers the commit's
    /// moment. Links to its records lead to that commit then. It takes no memory, and keeps no byte
    /// of request and reply.
    pub fn seal(
        &mut self,
        segment: Segment,
        request: Snapshot<Request>,
        reply: Snapshot<Reply>,
    ) -> Moment
        requires { IsOpen self.old segment }
        ensures sealed { self.new.log
            ≡ after_seal self.old.log segment request.value reply.value }
        ensures moment { result ≡ total_count self.old.log + 1 }
        ensures links { self.new.links ≡ self.old.links }
    {
        self.is_chained();
        let moment = self.segments.seal(segment, request, reply);
        self.moments.at_mut(segment.terminal()).commit(moment);
        moment
    }

    /// Gives up the segment of the oldest commit that is kept, and answers whose it was; none
    /// exactly where none is. Its terminal counts it still, and a link to one of its records leads
    /// nowhere. It takes no memory.
    pub fn drop_oldest(&mut self) -> Option<SegmentOwner>
        ensures oldest { result
            ≡ option_map owner_of
            (slice_get self.old.log.committed (length self.old.log.committed - 1)) }
        ensures dropped { self.new.log
            ≡ with_newest (length self.old.log.committed - 1) self.old.log }
        ensures links { self.new.links ≡ self.old.links }
    {
        self.is_chained();
        let Some(owner) = self.segments.drop_oldest() else {
            return None;
        };
        self.moments.at_mut(owner.terminal).forget_oldest();
        Some(owner)
    }

    /// Opens the segment of the newest commit again, where no segment is open, and answers it; none
    /// exactly where no commit is kept. Its terminal no longer counts it, the moment before it is
    /// the newest, and the links to its records are its terminal's. It takes no memory.
    pub fn reopen_newest(&mut self) -> Option<Segment>
        requires { (t : ℕ) → active_at self.old.log t ≡ None }
        ensures segment { result
            ≡ option_map (λ c. c.terminal) (slice_get self.old.log.committed 0) }
        ensures reopened { self.new.log ≡ with_reopening self.old.log self.old.log.committed }
        ensures links { self.new.links ≡ self.old.links }
    {
        self.is_chained();
        let Some(owner) = self.segments.committed(0) else {
            return None;
        };
        let segment = self.segments.reopen_newest();
        self.moments.at_mut(owner.terminal).take_back();
        segment
    }
}
