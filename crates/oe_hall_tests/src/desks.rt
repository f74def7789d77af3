//! What a desk tells of a move.

use crate::asks::{Place, query, request};
use crate::moves::{Act, Hand, Said, Told, alone, answered, answered_at, put, refused, taken};
use oe_hall::{Desk, Front, Naming, Purger, Turn};
use oe_machine::Machine;
use oe_requests::{Answer, Query, Request};
use oe_values::Moment;
use std::process::Abort;
use std::sync::Wait;

/// Makes a moment of a number of commits.
pub(crate) fn moment(rt: &impl Abort, commits: u64) -> Moment {
    Moment::new(commits).expect(rt, "a moment")
}

// Says that a transaction has committed, with the reply that the desk keeps.
fn committed<J: Naming>(rt: &impl Abort, desk: &Desk<J>, made: Moment) -> Said {
    let Some(reply) = desk.reply() else {
        panic!(rt; "no reply is kept")
    };
    answered(
        Told::Moment(made.get()),
        Answer::Committed(made, reply.copied()),
    )
}

// Advances what the hand holds.
fn advanced<J: Naming, M: Machine, H: Wait + Abort>(
    rt: &H,
    front: &Front<J, M>,
    desk: &mut Desk<J>,
    hand: &mut Hand,
) -> Said {
    let open = taken(rt, &mut hand.open);
    match desk.advance(rt, front, open) {
        Turn::More(open) => {
            put(rt, &mut hand.open, open);
            answered(Told::More, Answer::More)
        }
        Turn::Kept(open, refusal) => {
            put(rt, &mut hand.open, open);
            answered(Told::Kept(refusal.number()), Answer::Refused(refusal))
        }
        Turn::Committed(made) => committed(rt, desk, made),
        Turn::RolledBack(refusal) => answered(
            Told::RolledBack(refusal.number()),
            Answer::Refused(refusal),
        ),
    }
}

// Begins a transaction, which the hand then holds.
fn begun<J: Naming, M: Machine, H: Wait + Abort>(
    rt: &H,
    front: &Front<J, M>,
    desk: &mut Desk<J>,
    hand: &mut Hand,
    request: &Request,
) -> Said {
    match desk.begin(rt, front, request) {
        Ok(open) => {
            put(rt, &mut hand.open, open);
            answered(Told::Done, Answer::Begun)
        }
        Err(refusal) => answered(Told::Refused(refusal.number()), Answer::Refused(refusal)),
    }
}

// Rolls back what the hand holds.
fn ended<J: Naming, M: Machine, H: Wait + Abort>(
    rt: &H,
    front: &Front<J, M>,
    desk: &mut Desk<J>,
    hand: &mut Hand,
) -> Said {
    let open = taken(rt, &mut hand.open);
    match desk.end(rt, front, open) {
        Ok(()) => answered(Told::Done, Answer::RolledBack),
        Err((refusal, open)) => {
            put(rt, &mut hand.open, open);
            answered(Told::Refused(refusal.number()), Answer::Refused(refusal))
        }
    }
}

// Pins the newest moment; the hand then holds the pin.
fn pinned<J: Naming, M: Machine>(
    rt: &impl Abort,
    front: &Front<J, M>,
    desk: &mut Desk<J>,
    hand: &mut Hand,
) -> Told {
    if desk.is_pinned() {
        panic!(rt; "a pin is out");
    }
    match desk.pin(front) {
        Ok(pin) => {
            let moment = pin.moment().get();
            put(rt, &mut hand.pin, pin);
            Told::Moment(moment)
        }
        Err(old) => Told::TooOld(old.claim.get()),
    }
}

// Ends the pin that the hand holds.
fn unpinned<J: Naming, M: Machine>(
    rt: &impl Abort,
    front: &Front<J, M>,
    desk: &mut Desk<J>,
    hand: &mut Hand,
) -> Told {
    let pin = taken(rt, &mut hand.pin);
    match desk.unpin(front, pin) {
        Ok(()) => Told::Done,
        Err((other, pin)) => {
            put(rt, &mut hand.pin, pin);
            Told::NotPinned(other.word)
        }
    }
}

// Reads under the pin that the hand holds.
fn read<J: Naming, M: Machine, H: Wait + Abort>(
    rt: &H,
    front: &Front<J, M>,
    desk: &mut Desk<J>,
    hand: &Hand,
    query: &Query,
) -> Said {
    let Some(pin) = &hand.pin else {
        panic!(rt; "a hand is empty")
    };
    match desk.read(rt, front, pin, query) {
        Ok(reply) => answered_at(Told::Done, Answer::Replied(reply), pin.moment().get()),
        Err(refusal) => alone(refused(&refusal)),
    }
}

/// Asks the purger.
pub(crate) fn purged<J: Naming, M: Machine, H: Wait + Abort>(
    rt: &H,
    front: &Front<J, M>,
    purger: &mut Purger<J>,
    newest: u64,
) -> Said {
    let reached = purger.purge(rt, front, moment(rt, newest));
    let commits = reached.get();
    answered_at(Told::Moment(commits), Answer::Purged(reached), commits)
}

/// Asks a desk, with what a hand holds. It does not purge.
pub(crate) fn asked<J: Naming, M: Machine, H: Wait + Abort>(
    rt: &H,
    front: &Front<J, M>,
    desk: &mut Desk<J>,
    hand: &mut Hand,
    at: &Place,
    act: Act,
) -> Said {
    match act {
        Act::Begin(ask) => begun(rt, front, desk, hand, &request(rt, at, ask)),
        Act::Advance | Act::CarryOut => advanced(rt, front, desk, hand),
        Act::End => ended(rt, front, desk, hand),
        Act::Tell(commits) => {
            desk.told(front, moment(rt, commits));
            alone(Told::Done)
        }
        Act::Newest => alone(Told::Moment(desk.newest(front).get())),
        Act::Pin => alone(pinned(rt, front, desk, hand)),
        Act::Read(look) => read(rt, front, desk, hand, &query(rt, at, look)),
        Act::Unpin => alone(unpinned(rt, front, desk, hand)),
        Act::Purge(_) => panic!(rt; "a desk does not purge"),
    }
}
