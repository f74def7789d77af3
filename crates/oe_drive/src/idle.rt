//! A desk between two errands.
//!
//! By its invariant all that an idle desk was told to begin has ended, and it has no pin out. So a
//! thread hands its desk back with that fact, and a shop whose desks are idle can be closed. A call
//! may wait for the hall's lock; none takes memory.
ghost use Rattle.std.specs.Prelude.{◌≡◌, ◌+◌, ◌<◌, ◌≤◌, ◌++◌, ◌∷◌, [], true, false};
ghost use Rattle.oe_moments.specs.Pins.{is_pinned};
ghost use Rattle.oe_hall.specs.Counts.{tally_of, tally_with_rollback};
ghost use Rattle.oe_hall.specs.Histories.{is_open};
ghost use Rattle.oe_hall.specs.Desks.{TheDesk, IsOwn, with_told, with_calls, most_begun};
ghost use Rattle.oe_drive.specs.Errands.{HasCalled, IsTransaction, IsRead, IsEnded, is_busy, most_busy, rollback};

use crate::deeds::{Cause, Deeds};
use crate::gates::{Calls, Gate};
use oe_hall::{Desk, Front, Naming, Open, Turn};
use oe_machine::Machine;
use oe_requests::{Query, Refusal, Request};
use oe_values::Moment;
use std::marker::Model;
use std::sync::Wait;
use std::thread;

/// How often a transaction is answered `Busy` before it is given up.
pub const MOST_BUSY: u32 = 100;

/// How often a thread yields at most between two tries of a stage. It yields once behind the first
/// answer `Busy` of a transaction, and twice as often behind each next one: 100 tries with one
/// yield each take some 50 microseconds, and a delivery of ten districts holds its locks for
/// longer. With more yields 63 terminals at one warehouse take several times as long: who waits in
/// a cycle waits until it gives up, and all others behind it.
const MOST_YIELDS: u32 = 4;

/// A desk whose transactions have ended, and that has no pin out.
#[derive(Drop)]
pub struct Idle<J: Naming> {
    desk: Desk<J>,
}

impl<J: Naming> Model for Idle<J> {
    ghost Value = { TheDesk };

    ghost view = { λ i. i.desk };

    ghost invariant = { λ i.
        (i.desk.told.begun ≡ i.desk.told.committed + i.desk.told.rolled_back)
        × (is_pinned i.desk.seat.notes.pin ≡ false) };
}

impl<J: Naming> Idle<J> {
    /// Makes an idle desk of one that was told nothing.
    pub fn new(desk: Desk<J>) -> Idle<J>
        requires told { desk.told ≡ tally_of 1 }
        requires free { is_pinned desk.seat.notes.pin ≡ false }
        ensures { result ≡ desk }
    {
        Idle { desk }
    }

    /// Gives the desk, whose transactions have ended.
    pub fn into_desk(self) -> Desk<J>
        ensures same { result ≡ self }
        ensures ended { self.told.begun ≡ self.told.committed + self.told.rolled_back }
    {
        let Idle { desk } = self;
        desk
    }

    /// Carries a transaction out, and tells its commit. It is given up after 100 answers `Busy`, or
    /// one refusal of another cause.
    pub fn carry_out<M: Machine, W: Wait, G: Gate>(
        &mut self,
        rt: &W,
        front: &Front<J, M>,
        request: &Request,
        calls: &mut Calls<'_, G>,
        deeds: &mut Deeds,
    )
        ensures called { self.old.told.begun < most_begun → HasCalled self.old.calls.mine
            self.new.calls.mine (IsTransaction self.old.seat.terminal request.now) }
        ensures begun { self.new.told.begun ≤ self.old.told.begun + 1 }
        ensures terminal { (self.new.seat.terminal ≡ self.old.seat.terminal)
            × (self.new.calls.by ≡ self.old.calls.by) }
    {
        if let Some(moment) = carry_one_out(rt, front, &mut self.desk, request, calls, deeds) {
            self.desk.told(front, moment);
            keep(&self.desk, moment, request, deeds);
        }
    }

    /// Reads a query at the newest moment that the desk can pin.
    pub fn read<M: Machine, W: Wait, G: Gate>(
        &mut self,
        rt: &W,
        front: &Front<J, M>,
        query: &Query,
        calls: &mut Calls<'_, G>,
        deeds: &mut Deeds,
    )
        ensures called { HasCalled self.old.calls.mine self.new.calls.mine
            (IsRead self.old.seat.terminal query.now) }
        ensures begun { self.new.told ≡ self.old.told }
        ensures terminal { (self.new.seat.terminal ≡ self.old.seat.terminal)
            × (self.new.calls.by ≡ self.old.calls.by) }
    {
        for _ in rt.forever() {
            match self.desk.pin(front) {
                Ok(pin) => {
                    calls.before();
                    let _read = self.desk.read(rt, front, &pin, query);
                    calls.after();
                    match self.desk.unpin(front, pin) {
                        Ok(()) => {}
                        Err(_) => unreachable!(),
                    }
                    deeds.reads = deeds.reads.saturating_add(1);
                    return;
                }
                Err(old) => self.desk.told(front, old.claim),
            }
        }
        unreachable!()
    }
}

// Keeps a commit, where commits are asked for. Its reply is the desk's.
fn keep<J: Naming>(desk: &Desk<J>, moment: Moment, request: &Request, deeds: &mut Deeds) {
    if let Some(reply) = desk.reply() {
        deeds.commits.note(moment, desk.terminal(), request, reply);
    }
}

// Lets others go on.
fn pause(yields: u32) {
    for _ in 0..yields {
        thread::yield_now();
    }
}

// Tells whether a refusal says that another holds the lock.
fn is_busy(refusal: &Refusal) -> bool
    ensures { result ≡ is_busy refusal.now }
{
    matches!(refusal, Refusal::Busy(_, _))
}

// Tells why a transaction is given up that an advance left open. Memory is the cause that is left.
fn cause_of(refusal: &Refusal) -> Cause {
    match refusal {
        Refusal::Busy(_, _) => Cause::Busy,
        Refusal::UndoFull => Cause::Full,
        _ => Cause::NoMemory,
    }
}

// Carries a transaction out, and gives the moment that it made, if it committed.
fn carry_one_out<J: Naming, M: Machine, W: Wait, G: Gate>(
    rt: &W,
    front: &Front<J, M>,
    desk: &mut Desk<J>,
    request: &Request,
    calls: &mut Calls<'_, G>,
    deeds: &mut Deeds,
) -> Option<Moment>
    requires { desk.old.told.begun ≡ desk.old.told.committed + desk.old.told.rolled_back }
    ensures ended { desk.new.told.begun ≡ desk.new.told.committed + desk.new.told.rolled_back }
    ensures seat { (desk.new.seat ≡ desk.old.seat) × (desk.new.calls.by ≡ desk.old.calls.by) }
    ensures begun { desk.new.told.begun ≤ desk.old.told.begun + 1 }
    ensures called { desk.old.told.begun < most_begun → HasCalled desk.old.calls.mine
        desk.new.calls.mine (IsTransaction desk.old.seat.terminal request.now) }
{
    calls.before();
    let begun = desk.begin(rt, front, request);
    calls.after();
    let work = match begun {
        Ok(work) => work,
        Err(_refusal) => {
            deeds.note(Cause::Refused);
            return None;
        }
    };
    advance_to_end(rt, front, desk, work, calls, deeds)
}

// Advances a transaction to its end, or gives it up.
fn advance_to_end<J: Naming, M: Machine, W: Wait, G: Gate>(
    rt: &W,
    front: &Front<J, M>,
    desk: &mut Desk<J>,
    work: Open,
    calls: &mut Calls<'_, G>,
    deeds: &mut Deeds,
) -> Option<Moment>
    requires told { desk.old.told.begun
        ≡ desk.old.told.committed + desk.old.told.rolled_back + 1 }
    requires open { is_open desk.old.calls.mine ≡ true }
    requires own { IsOwn desk.old.seat work }
    ensures ended { desk.new.told.begun ≡ desk.new.told.committed + desk.new.told.rolled_back }
    ensures seat { (desk.new.seat ≡ desk.old.seat) × (desk.new.calls.by ≡ desk.old.calls.by) }
    ensures begun { desk.new.told.begun ≡ desk.old.told.begun }
    ensures called { HasCalled desk.old.calls.mine desk.new.calls.mine
        (IsEnded desk.old.seat.terminal most_busy) }
{
    let mut left = MOST_BUSY;
    let mut row = 0u32;
    let mut yields = 1u32;
    let mut work = work;
    for _ in rt.forever() {
        calls.before();
        let turn = desk.advance(rt, front, work);
        calls.after();
        match turn {
            Turn::More(next) => {
                work = next;
                row = 0;
            }
            Turn::Kept(next, refusal) => {
                let busy = is_busy(&refusal);
                if busy {
                    row = row.saturating_add(1);
                    deeds.note_busy(&refusal, row);
                }
                if left <= 1 || !busy {
                    deeds.note(cause_of(&refusal));
                    give_up(rt, front, desk, next, calls);
                    return None;
                }
                left -= 1;
                work = next;
                pause(yields);
                yields = yields.saturating_mul(2).min(MOST_YIELDS);
            }
            Turn::Committed(moment) => return Some(moment),
            Turn::RolledBack(_) => return None,
        }
    }
    unreachable!()
}

// Ends a transaction of this desk's, which is open by what the desk called.
fn give_up<J: Naming, M: Machine, W: Wait, G: Gate>(
    rt: &W,
    front: &Front<J, M>,
    desk: &mut Desk<J>,
    work: Open,
    calls: &mut Calls<'_, G>,
)
    requires open { is_open desk.old.calls.mine ≡ true }
    requires own { IsOwn desk.old.seat work }
    ensures desk { desk.new ≡ with_calls desk.new.calls
        (with_told (tally_with_rollback desk.old.told) desk.old) }
    ensures called { desk.new.calls.mine
        ≡ desk.old.calls.mine ++ rollback desk.old.seat.terminal ∷ [] }
    ensures by { desk.new.calls.by ≡ desk.old.calls.by }
{
    calls.before();
    let ended = desk.end(rt, front, work);
    calls.after();
    match ended {
        Ok(()) => {}
        Err(_) => unreachable!(),
    }
}
