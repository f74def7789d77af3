//! Where terminals and the worker sit: a desk, and an end of the delivery queue.
//!
//! By its invariant a station has an idle desk, whose calls are those of the errands that were
//! carried out there. A thread takes a station and gives it back.
ghost use Rattle.std.specs.Prelude.{◌≡◌, ◌+◌, ◌<◌, ◌≤◌, [], length, IsTrue, false};
ghost use Rattle.oe_moments.specs.Pins.{is_pinned};
ghost use Rattle.oe_hall.specs.Counts.{tally_of};
ghost use Rattle.oe_hall.specs.Desks.{TheDesk, most_begun};
ghost use Rattle.oe_drive.specs.Errands.{HasCalled, IsCarriedOut};
ghost use Rattle.oe_drive.specs.Stations.{TheStation, IsOnPlan, IsWhole, KeepsPlan};

use crate::deeds::Deeds;
use crate::gates::{Calls, Gate};
use crate::idle::Idle;
use oe_hall::{Desk, Front, Naming};
use oe_machine::Machine;
use oe_queue::{Message, Sender, Taker};
use oe_requests::{DeliveriesRequest, Errand, Request};
use oe_values::Terminal;
use std::marker::Model;
use std::sync::Wait;
use std::sync::atomic::{AtomicBool, Ordering};

/// How many transactions a desk begins at most.
const MOST_ERRANDS: usize = usize::MAX / 64;

/// What a terminal is to do, in order.
#[derive(Drop)]
pub struct Plan {
    pub errands: Vec<Errand>,
}

/// A terminal's station, which counts the errands that it has carried out. Its sender is gone once
/// it has finished.
#[derive(Drop)]
pub(crate) struct Station<J: Naming> {
    idle: Idle<J>,
    terminal: Terminal,
    sender: Option<Sender>,
    plan: Plan,
    carried: usize,
    deeds: Deeds,
}

impl<J: Naming> Model for Station<J> {
    ghost Value = { TheStation };

    ghost view = { λ s. record {
      desk = s.idle;
      errands = s.plan.errands.items;
      carried = s.carried;
    } };

    ghost invariant = { λ s. (s.carried ≤ length s.plan.errands.items)
        × (s.idle.told.begun ≤ s.carried) × (s.idle.calls.by ≡ s.idle.seat.terminal)
        × IsOnPlan (record {
          desk = s.idle;
          errands = s.plan.errands.items;
          carried = s.carried;
        }) };
}

/// The worker's station.
#[derive(Drop)]
pub(crate) struct Bench<J: Naming> {
    idle: Idle<J>,
    terminal: Terminal,
    taker: Taker,
    terminals: u32,
    deeds: Deeds,
}

impl<J: Naming> Model for Bench<J> {
    ghost Value = { TheDesk };

    ghost view = { λ b. b.idle };

    ghost invariant = { λ b. Unit {0} };
}

// Makes the one request for all ten districts of a warehouse.
fn of_warehouse(deliveries: &DeliveriesRequest) -> Request
    ensures { result ≡ Request.Deliveries deliveries.now }
{
    Request::Deliveries(*deliveries)
}

// Carries out an errand.
fn carry_out<J: Naming, M: Machine, W: Wait, G: Gate>(
    rt: &W,
    front: &Front<J, M>,
    idle: &mut Idle<J>,
    sender: &mut Option<Sender>,
    errand: &Errand,
    calls: &mut Calls<'_, G>,
    deeds: &mut Deeds,
)
    ensures called { idle.old.told.begun < most_begun → HasCalled idle.old.calls.mine
        idle.new.calls.mine (IsCarriedOut idle.old.seat.terminal errand.now) }
    ensures begun { idle.new.told.begun ≤ idle.old.told.begun + 1 }
    ensures terminal { (idle.new.seat.terminal ≡ idle.old.seat.terminal)
        × (idle.new.calls.by ≡ idle.old.calls.by) }
{
    deeds.errands = deeds.errands.saturating_add(1);
    match errand {
        Errand::Begin(request) => idle.carry_out(rt, front, request, calls, deeds),
        Errand::Read(query) => idle.read(rt, front, query, calls, deeds),
        Errand::Deliver(deliveries) => submit(rt, sender, deliveries, deeds),
    }
}

// Leaves a delivery in the queue.
fn submit<W: Wait>(
    rt: &W,
    sender: &mut Option<Sender>,
    deliveries: &DeliveriesRequest,
    deeds: &mut Deeds,
) {
    let Some(sender) = sender else {
        return;
    };
    if sender.submit(rt, *deliveries).is_ok() {
        deeds.deliveries = deeds.deliveries.saturating_add(1);
    }
}

impl<J: Naming> Station<J> {
    /// Makes the station of a desk that was told nothing and has called nothing, with its sender,
    /// its plan, and what is done there.
    pub(crate) fn new(desk: Desk<J>, sender: Sender, plan: Plan, deeds: Deeds) -> Station<J>
        requires told { desk.told ≡ tally_of 1 }
        requires free { is_pinned desk.seat.notes.pin ≡ false }
        requires silent { desk.calls.mine ≡ [] }
        requires caller { desk.calls.by ≡ desk.seat.terminal }
        ensures { result ≡ record { desk = desk; errands = plan.errands.items; carried = 0 } }
    {
        Station {
            terminal: sender.terminal(),
            idle: Idle::new(desk),
            sender: Some(sender),
            plan,
            carried: 0,
            deeds,
        }
    }

    // Carries out the next errand of the plan, and counts it.
    #[tactic(auto, using(crate::proofs::StationFacts::stays_on_plan))]
    fn carry_next<M: Machine, W: Wait, G: Gate>(
        &mut self,
        rt: &W,
        front: &Front<J, M>,
        calls: &mut Calls<'_, G>,
    )
        requires { self.old.carried < length self.old.errands }
        ensures plan { KeepsPlan self.old self.new }
        ensures carried { self.new.carried ≡ self.old.carried + 1 }
    {
        let errand = &self.plan.errands[self.carried];
        carry_out(
            rt,
            front,
            &mut self.idle,
            &mut self.sender,
            errand,
            calls,
            &mut self.deeds,
        );
        self.carried += 1;
    }

    /// Carries out the plan, unless a stop is asked for, submits the end mark, and gives the station
    /// back.
    pub(crate) fn run<M: Machine, W: Wait, G: Gate>(
        self,
        rt: &W,
        front: &Front<J, M>,
        gate: &G,
        stop: &AtomicBool,
    ) -> Station<J>
        ensures { KeepsPlan self result }
    {
        let mut station = self;
        let mut calls = Calls::new(gate, station.terminal);
        while station.carried < station.plan.errands.len() {
            if stop.load(Ordering::SeqCst) {
                break;
            }
            station.carry_next(rt, front, &mut calls);
            calls.done();
        }
        if let Some(sender) = station.sender.take() {
            let _finished = sender.finish(rt);
        }
        station
    }

    /// Tells whether the whole plan was carried out. A desk begins no more than so many
    /// transactions, and no memory holds a plan of more errands.
    #[tactic(auto, using(crate::proofs::StationFacts::is_whole))]
    pub(crate) fn is_whole(&self) -> bool
        ensures { IsTrue result → IsWhole self.now }
    {
        self.carried == self.plan.errands.len() && self.carried <= MOST_ERRANDS
    }

    /// Gives the desk, whose transactions have ended, and what was done there. The desk's calls are
    /// those of its plan's first errands.
    pub(crate) fn into_parts(self) -> (Desk<J>, Deeds)
        ensures desk { result.0 ≡ self.desk }
        ensures ended { self.desk.told.begun
            ≡ self.desk.told.committed + self.desk.told.rolled_back }
        ensures called { (self.carried ≤ length self.errands) × IsOnPlan self }
    {
        let Station {
            idle,
            terminal: _,
            sender: _,
            plan: _,
            carried: _,
            deeds,
        } = self;
        (idle.into_desk(), deeds)
    }
}

impl<J: Naming> Bench<J> {
    /// Makes the station of a desk that was told nothing, with the taker of that number of senders.
    pub(crate) fn new(desk: Desk<J>, taker: Taker, terminals: u32, deeds: Deeds) -> Bench<J>
        requires told { desk.told ≡ tally_of 1 }
        requires free { is_pinned desk.seat.notes.pin ≡ false }
        ensures { result ≡ desk }
    {
        Bench {
            terminal: desk.terminal(),
            idle: Idle::new(desk),
            taker,
            terminals,
            deeds,
        }
    }

    /// Carries out what is taken, until the end mark of each terminal was.
    pub(crate) fn run<M: Machine, W: Wait, G: Gate>(
        &mut self,
        rt: &W,
        front: &Front<J, M>,
        gate: &G,
    ) {
        let mut calls = Calls::new(gate, self.terminal);
        let mut left = self.terminals;
        for _ in rt.forever() {
            if left == 0 {
                return;
            }
            let Some(message) = self.taker.take(rt) else {
                return;
            };
            match &message {
                Message::Delivery(_, deliveries) => {
                    self.deliver(rt, front, deliveries, &mut calls);
                }
                Message::End(_) => left -= 1,
            }
        }
    }

    // Delivers the oldest order of each of a warehouse's ten districts, as one transaction (clause
    // 2.7.4).
    fn deliver<M: Machine, W: Wait, G: Gate>(
        &mut self,
        rt: &W,
        front: &Front<J, M>,
        deliveries: &DeliveriesRequest,
        calls: &mut Calls<'_, G>,
    ) {
        let request = of_warehouse(deliveries);
        self.idle
            .carry_out(rt, front, &request, calls, &mut self.deeds);
    }

    /// Gives the desk, whose transactions have ended, and what was done there.
    pub(crate) fn into_parts(self) -> (Desk<J>, Deeds)
        ensures desk { result.0 ≡ self }
        ensures ended { self.told.begun ≡ self.told.committed + self.told.rolled_back }
    {
        let Bench {
            idle,
            terminal: _,
            taker: _,
            terminals: _,
            deeds,
        } = self;
        (idle.into_desk(), deeds)
    }
}
