//! Commits: how an open segment becomes a commit's, and how commits' segments are given up, or
//! opened again.
ghost use Rattle.std.specs.Prelude.{◌≡◌, ◌+◌, ◌-◌, ℕ, length, slice_get, option_map, None, IsSome};
ghost use Rattle.oe_log.specs.Log.{active_at, total_count, owner_of, after_seal, with_newest, with_reopening};
ghost use Rattle.oe_log.specs.Moments.{newest, horizon};

use crate::heads::{CommitHead, SegmentOwner};
use crate::log::{Log, Segment};
use oe_requests::replies::Reply;
use oe_requests::requests::Request;
use oe_values::numbers::Moment;
use std::snapshot::Snapshot;

impl Log {
    /// The newest moment: the number of all commits so far.
    pub fn newest(&self) -> Moment
        ensures value { result ≡ total_count self.now }
        ensures moment { result ≡ newest self.now }
    {
        self.newest
    }

    /// Gives the oldest moment that can be read: as many commits ago as segments of commits are
    /// kept.
    pub fn horizon(&self) -> Moment
        ensures value { result + length self.now.committed ≡ total_count self.now }
        ensures moment { result ≡ horizon self.now }
    {
        let kept = self.commits.len() as u64;
        Moment::new(self.newest.get() - kept).unwrap()
    }

    /// Seals an open segment, which the newest commit has from then on, and answers the commit's
    /// moment. It takes no memory, and keeps no byte of request and reply.
    pub fn seal(
        &mut self,
        segment: Segment,
        request: Snapshot<Request>,
        reply: Snapshot<Reply>,
    ) -> Moment
        requires { IsSome (active_at self.old segment) }
        ensures sealed { self.new ≡ after_seal self.old segment request.value reply.value }
        ensures moment { result ≡ total_count self.old + 1 }
    {
        let terminal = segment.terminal();
        let slot = terminal.get() as usize;
        let moment = Moment::new(self.newest.get() + 1).unwrap();
        let state = self.terminals.at_mut(terminal);
        let Some(owner) = state.active.take() else {
            unreachable!()
        };
        state.count += 1;
        let deletes = state.deletes;
        let len = std::mem::replace(&mut state.len, 0);
        self.commits.push_front_reserved(CommitHead {
            owner,
            deletes,
            len,
            request,
            reply,
        });
        self.ring.seal(slot);
        self.open_count -= 1;
        self.newest = moment;
        moment
    }

    /// Gives up the segment of the oldest commit that is kept, and answers whose it was; none
    /// exactly where none is. Its terminal counts it still. The extents of its records are free
    /// again. It takes no memory.
    pub fn drop_oldest(&mut self) -> Option<SegmentOwner>
        ensures oldest { result
            ≡ option_map owner_of
            (slice_get self.old.committed (length self.old.committed - 1)) }
        ensures dropped { self.new ≡ with_newest (length self.old.committed - 1) self.old }
    {
        self.ring.drop_oldest();
        match self.commits.pop_back() {
            Some(head) => Some(head.owner()),
            None => None,
        }
    }

    /// Opens the segment of the newest commit again, where no segment is open, and answers it; none
    /// exactly where no commit is kept. Its terminal no longer counts it, and the moment before it
    /// is the newest. It takes no memory.
    pub fn reopen_newest(&mut self) -> Option<Segment>
        requires { (t : ℕ) → active_at self.old t ≡ None }
        ensures segment { result
            ≡ option_map (λ c. c.terminal) (slice_get self.old.committed 0) }
        ensures reopened { self.new ≡ with_reopening self.old self.old.committed }
    {
        let Some(head) = self.commits.pop_front() else {
            return None;
        };
        let owner = head.owner();
        let terminal = owner.terminal;
        let slot = terminal.get() as usize;
        let state = self.terminals.at_mut(terminal);
        state.count -= 1;
        state.active = Some(owner);
        state.deletes = head.may_delete();
        state.len = head.len();
        self.ring.reopen_newest(slot);
        self.open_count += 1;
        self.newest = Moment::new(self.newest.get() - 1).unwrap();
        Some(Segment::of(terminal))
    }
}
