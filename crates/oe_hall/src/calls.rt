//! The core's calls, each one step of the machine, with what the step counts: the newest moment,
//! the open transactions, and the horizon. Undo records keep their layout. A refusal is the step's
//! own answer.
ghost use Rattle.std.specs.Prelude.{◌≡◌, ◌≤◌};
ghost use Rattle.oe_theory.specs.World.{newest, horizon};
ghost use Rattle.oe_model.specs.System.{system};
ghost use Rattle.oe_machine.specs.Steps.{Carries, Advances, begin_answer};
ghost use Rattle.oe_hall.specs.Turns.{end_answer, read_answer, IsYoung, HasMoved, LeavesReply, BeginMoves, EndMoves, HasPurged};

use crate::replies::keep_last;
use oe_machine::{Advanced, Machine};
use oe_requests::{Answer, Query, QueryReply, Refusal, Reply, Request, Step};
use oe_values::{Moment, Terminal};

/// Begins the terminal's transaction. A refusal has changed nothing.
#[tactic(auto, using(crate::proofs::TurnFacts::after_begin, crate::proofs::TurnFacts::after_refused_begin))]
pub fn begin<M: Machine>(core: &mut M, terminal: Terminal, request: &Request) -> Result<(), Refusal>
    ensures step { Carries (M.world core.old) (Step.Begin terminal request.now)
        (begin_answer result) (M.world core.new) }
    ensures counts { BeginMoves result (M.world core.old) (M.world core.new) }
{
    core.is_reached();
    core.begin(terminal, request)
}

/// Carries out the next stage of the terminal's transaction, which commits after the last. `reply`
/// is then that commit's, and stays as it is otherwise.
#[tactic(auto, using(crate::proofs::TurnFacts::after_more, crate::proofs::TurnFacts::after_commit, crate::proofs::TurnFacts::after_kept, crate::proofs::TurnFacts::after_ended))]
pub fn advance<M: Machine>(core: &mut M, terminal: Terminal, reply: &mut Option<Reply>) -> Advanced
    ensures step { Advances (M.world core.old) terminal result (M.world core.new) reply.new }
    ensures reply { LeavesReply result reply.old reply.new }
    ensures counts { HasMoved result (M.world core.old) (M.world core.new) }
{
    core.is_reached();
    match core.advance(terminal) {
        Advanced::Committed(moment) => {
            keep_last(core, terminal, reply);
            Advanced::Committed(moment)
        }
        other => other,
    }
}

/// Rolls the terminal's transaction back. `NotOpen` where it has none; nothing has changed then.
#[tactic(auto, using(crate::proofs::TurnFacts::after_rollback, crate::proofs::TurnFacts::after_refused_rollback, crate::proofs::TurnFacts::fits))]
pub fn end<M: Machine>(core: &mut M, terminal: Terminal) -> Result<(), Refusal>
    ensures step { Carries (M.world core.old) (Step.Rollback terminal)
        (end_answer result) (M.world core.new) }
    ensures counts { EndMoves result (M.world core.old) (M.world core.new) }
{
    core.is_reached();
    match core.rollback(terminal) {
        Answer::RolledBack => Ok(()),
        Answer::Refused(refusal) => Err(refusal),
        _ => unreachable!(),
    }
}

/// Answers a query of a moment from the horizon on. A refusal is never `TooOld`.
#[tactic(auto, using(crate::proofs::TurnFacts::fits, crate::proofs::TurnFacts::is_not_too_old))]
pub fn read<M: Machine>(core: &M, moment: Moment, query: &Query) -> Result<QueryReply, Refusal>
    requires { horizon system (M.world core.now) ≤ moment }
    ensures step { Carries (M.world core.now) (Step.Read moment query.now)
        (read_answer result) (M.world core.now) }
    ensures young { IsYoung result }
{
    match core.read(moment, query) {
        Answer::Replied(reply) => Ok(reply),
        Answer::Refused(refusal) => Err(refusal),
        _ => unreachable!(),
    }
}

/// Makes a moment between the horizon and the newest the horizon.
#[tactic(auto, using(crate::proofs::TurnFacts::after_purge, crate::proofs::TurnFacts::purge_is_not_refused, crate::proofs::TurnFacts::fits))]
pub fn purge<M: Machine>(core: &mut M, moment: Moment)
    requires old { horizon system (M.world core.old) ≤ moment }
    requires new { moment ≤ newest system (M.world core.old) }
    ensures step { Carries (M.world core.old) (Step.Purge moment) (Answer.Purged moment)
        (M.world core.new) }
    ensures counts { HasPurged moment (M.world core.old) (M.world core.new) }
{
    core.is_reached();
    let Answer::Purged(_) = core.purge(moment) else {
        unreachable!()
    };
}
