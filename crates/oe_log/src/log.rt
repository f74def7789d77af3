//! The undo log: the segments of undo records of one transaction each.
//!
//! Records lie in the ring as byte strings: each terminal's open transaction has its slot, and a
//! commit its place. Heads stand beside them: whose a segment is, and how many records it has. By
//! the invariant each string is a record's of the log's layout, heads and strings are as many, and
//! the ring and the list of commits have room for the commit of each open segment. `new` and `open_segment` may be
//! refused memory, `push` is refused where the ring is full, and no other call is refused.
ghost use Rattle.std.specs.Prelude.{◌≡◌, ℕ, replicate, IfOk};
ghost use Rattle.oe_log.specs.Log.{no_segments};
ghost use Rattle.oe_log.specs.Kept.{idle_heads};

use crate::heads::{CommitHead, TerminalHead};
use oe_extent::Ring;
use oe_rows::Layout;
use oe_values::numbers::{Moment, Number, TERMINALS, Terminal};
use oe_values::{ExtentCount, NoMemory, PerTerminal};
use std::alloc::Global;
use std::collections::VecDeque;
use std::marker::Model;

/// A terminal's open segment, which clauses see as the terminal's number.
#[derive(Clone, Copy)]
pub struct Segment {
    terminal: Terminal,
}

impl Model for Segment {
    ghost Value = { ℕ };

    ghost view = { λ s. s.terminal };

    ghost inverse = { λ t. record { terminal = t } };
}

impl Segment {
    /// Gives this terminal's segment.
    pub fn of(terminal: Terminal) -> Self
        ensures { result ≡ terminal }
    {
        Segment { terminal }
    }

    /// Gives the terminal that has it open.
    pub fn terminal(self) -> Terminal
        ensures { result ≡ self }
    {
        self.terminal
    }
}

/// The segments of undo records: each terminal's open one, and the commits', the newest first; and
/// the terminals' counts of commits. Moment `newest` less k is the moment before the k newest
/// commits.
///
/// All memory for records is taken by `new`, and that for a segment's later commit by
/// `open_segment`; no other call takes any. A push is refused exactly where the ring of extents has
/// no room for the record. A commit's segment stays until it is the oldest and is given up, for a
/// purge, or the newest and is opened again, for a rewind.
#[derive(Drop)]
pub struct Log {
    // The records. Its slots are the terminals' numbers; 0 is nobody's.
    pub(crate) ring: Ring,
    pub(crate) terminals: PerTerminal<TerminalHead>,
    // The newest first, each beside its records in the ring. It has room for the commit of each
    // open segment.
    pub(crate) commits: VecDeque<CommitHead>,
    pub(crate) open_count: usize,
    pub(crate) newest: Moment,
    pub(crate) layout: Layout,
}

impl Model for Log {
    ghost use Rattle.std.specs.VecDeque.{deque_capacity};
    ghost use Rattle.oe_log.specs.Log.{SegmentLog};
    ghost use Rattle.oe_log.specs.Kept.{log_from, IsLog};

    ghost Value = { SegmentLog };

    ghost view = { λ s. log_from s.layout s.terminals s.commits.items s.ring };

    ghost invariant = { λ s. IsLog s.layout s.terminals s.commits.items
        (deque_capacity s.commits) s.ring s.open_count s.newest };
}

/// Makes the terminals before anything was committed.
fn idle_heads(alloc: Global) -> Result<PerTerminal<TerminalHead>, NoMemory>
    ensures { IfOk result (λ heads. heads ≡ idle_heads) }
{
    let Ok(mut terminals) = Vec::with_capacity(alloc, TERMINALS as usize + 1) else {
        return Err(NoMemory);
    };
    for _ in 0..TERMINALS + 1 {
        terminals.push_reserved(TerminalHead {
            count: 0,
            active: None,
            deletes: false,
            len: 0,
        });
    }
    Ok(PerTerminal::of(terminals))
}

impl Log {
    /// Makes a log without a segment or a commit, on a ring of `extents` extents, for records of a
    /// layout; `NoMemory` where memory was refused.
    pub fn new(alloc: Global, extents: ExtentCount, layout: Layout) -> Result<Log, NoMemory>
        ensures { IfOk result (λ s. s ≡ no_segments extents layout) }
    {
        let _known = extents.get();
        let Some(newest) = Moment::new(0) else {
            unreachable!()
        };
        let Ok(ring) = Ring::new(alloc, extents, TERMINALS as usize + 1) else {
            return Err(NoMemory);
        };
        let terminals = idle_heads(alloc)?;
        Ok(Log {
            ring,
            terminals,
            commits: VecDeque::new(alloc),
            open_count: 0,
            newest,
            layout,
        })
    }
}
