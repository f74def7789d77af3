//! Who plays a script: the desks of a shop, and a core.

use crate::asks::{Place, query, request};
use crate::desks::{asked, moment, purged};
use crate::moves::{Act, Hands, Move, Said, Told};
use oe_core::Core;
use oe_hall::{Desk, Front, Naming, Purger};
use oe_machine::Machine;
use oe_requests::{Answer, Refusal, Step};
use oe_values::Terminal;
use std::process::Abort;
use std::sync::Wait;

// Says which step a terminal asks a core for; none where only desks can be asked. A query is read
// at that moment, and that moment is purged up to.
fn step_of(
    rt: &impl Abort,
    terminal: Terminal,
    at: &Place,
    act: Act,
    commits: u64,
) -> Option<Step> {
    match act {
        Act::Begin(ask) => Some(Step::Begin(terminal, request(rt, at, ask))),
        Act::Advance | Act::CarryOut => Some(Step::Advance(terminal)),
        Act::End => Some(Step::Rollback(terminal)),
        Act::Read(look) => Some(Step::Read(moment(rt, commits), query(rt, at, look))),
        Act::Purge(_) => Some(Step::Purge(moment(rt, commits))),
        Act::Tell(_) | Act::Newest | Act::Pin | Act::Unpin => None,
    }
}

// Tells whether a core answers a step as a desk did.
fn is_alike(rt: &impl Abort, core: &mut Core, step: Step, said: &Said) -> bool {
    let Some(told) = &said.answer else {
        return false;
    };
    let answer = core.step(step);
    if answer == Answer::Refused(Refusal::NoMemory) {
        panic!(rt; "no memory");
    }
    answer == *told
}

// Compares what a desk told of the move at a place with what it should tell, and with what a core
// answers. Gives the place of the move that is next: the same where a transaction goes on.
fn compared(
    rt: &impl Abort,
    core: &mut Core,
    terminal: Terminal,
    at: &Place,
    place: usize,
    next: &Move,
    said: &Said,
) -> usize {
    let Move(number, holder, act, wanted) = *next;
    let told = said.told;
    if told == Told::Kept(9) || told == Told::Refused(9) {
        panic!(rt; "no memory");
    }
    if number == holder {
        if let Some(step) = step_of(rt, terminal, at, act, said.commits) {
            assert!(rt; is_alike(rt, core, step, said), "a core at move {place}");
        }
    }
    if matches!(act, Act::CarryOut) && told == Told::More {
        return place;
    }
    assert!(rt; told == wanted, "a desk at move {place}");
    place.saturating_add(1)
}

/// Carries out the moves of a script, in order: each is told what it should be told, and a core
/// answers alike.
pub(crate) fn play<J: Naming, M: Machine, H: Wait + Abort>(
    rt: &H,
    front: &Front<J, M>,
    desks: &mut [Desk<J>],
    purger: &mut Purger<J>,
    core: &mut Core,
    hands: &mut Hands,
    at: &Place,
    moves: &[Move],
) {
    let mut place = 0usize;
    for _ in rt.forever() {
        let Some(next) = moves.get(place) else {
            return;
        };
        let Some(desk) = desks.get_mut(next.0) else {
            panic!(rt; "no such desk")
        };
        let terminal = desk.terminal();
        let hand = hands.hand(next.1);
        let said = match next.2 {
            Act::Purge(newest) => purged(rt, front, purger, newest),
            act => asked(rt, front, desk, hand, at, act),
        };
        place = compared(rt, core, terminal, at, place, next, &said);
    }
    unreachable!()
}
