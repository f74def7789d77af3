//! The program of a delivery of all ten districts (clause 2.7): one stage at each call, of the
//! district at hand.
ghost use Rattle.std.specs.Prelude.{◌≡◌, [], option_map};
ghost use Rattle.std.specs.Option.{option_copied};
ghost use Rattle.oe_requests.specs.declared.requests.Request.{Request};
ghost use Rattle.oe_requests.specs.declared.requests.DeliveriesRequest.{DeliveriesRequest};
ghost use Rattle.oe_requests.specs.declared.replies.Reply.{Reply};
ghost use Rattle.oe_model.specs.Positions.{DeliveryQueue};
ghost use Rattle.oe_theory.specs.Machine as theory;
ghost use Rattle.oe_model.specs.Rows.{Rows};
ghost use Rattle.oe_model.specs.System.{ask, marks};
ghost use Rattle.oe_engine.specs.View.{IsOpen};
ghost use Rattle.oe_locks.specs.Holds.{hold_of, lock_asked};
ghost use Rattle.oe_engine.specs.Programs.{Progresses, reply_at};
ghost use Rattle.oe_delivery.specs.Deliveries.{place_of, next_district, HoldsNames};

use crate::programs::Program;
use oe_engine::{Engine, Progress, Tx};
use oe_locks::Lock;
use oe_requests::{DeliveriesRequest, DeliveryRequest, DistrictDeliveries, Refusal};
use oe_rows::DistrictKey;
use oe_values::DistrictNumber;
use std::marker::Model;

/// Where a delivery of ten districts stands: what it did in the districts that are done, and where
/// the one after them stands. Whoever carries the program out keeps its request. The program has a
/// fixed size.
///
/// By its invariant the district at hand is not at its end: a stage that ends it goes on to the
/// next one.
#[derive(Drop)]
pub struct Deliveries {
    done: DistrictDeliveries,
    program: Program,
}

impl Model for Deliveries {
    ghost use Rattle.std.specs.Prelude.{◌≡◌, None};
    ghost use Rattle.oe_engine.specs.Programs.{district_reply};
    ghost use Rattle.oe_delivery.specs.Program.{position_of};
    ghost use Rattle.oe_delivery.specs.Deliveries.{Course};

    ghost Value = { Course };

    ghost view = { λ d. record { done = d.done; district = position_of d.program } };

    ghost invariant = { λ d. district_reply (position_of d.program) ≡ None };
}

impl Deliveries {
    /// Makes a program at the first stage of district 1.
    pub fn new() -> Self
        ensures { result ≡ record { done = []; district = DeliveryQueue } }
    {
        Deliveries {
            done: DistrictDeliveries::new(),
            program: Program::new(),
        }
    }

    /// Copies the value, and takes no memory.
    pub fn copied(&self) -> Self
        ensures { result ≡ self.now }
    {
        Deliveries {
            done: self.done.copied(),
            program: self.program.copied(),
        }
    }

    /// Tells whether it stands before the first stage of a district, which moves the transaction's
    /// mark there.
    pub fn is_at_mark(&self) -> bool
        ensures { (q : DeliveriesRequest) → result ≡ marks (place_of q self.now) }
    {
        self.done.as_slice().len() < 10 && matches!(self.program, Program::Queue)
    }

    /// Gives the reply, once all ten districts are done; none before that.
    pub fn reply(&self) -> Option<&DistrictDeliveries>
        ensures { (q : DeliveriesRequest) →
            option_map Reply.Deliveries (option_copied result) ≡ reply_at (place_of q self.now) }
    {
        if self.done.as_slice().len() < 10 {
            return None;
        }
        Some(&self.done)
    }

    // What is asked of the district at hand; none where each is done.
    fn at_hand(&self, request: &DeliveriesRequest) -> Option<DeliveryRequest>
        ensures { result ≡ next_district request.now self.now }
    {
        let number = DistrictNumber::new(self.done.as_slice().len() as u32 + 1)?;
        Some(DeliveryRequest {
            district: DistrictKey {
                warehouse: request.warehouse.warehouse,
                district: number,
            },
            carrier: request.carrier,
            stamp: request.stamp,
        })
    }

    /// Gives the lock that the next stage asks for; none where it asks for none.
    pub fn wanted(&self, request: &DeliveriesRequest) -> Option<Lock>
        ensures { (x : theory.Tx Request) (r : Rows) → option_map hold_of result
            ≡ lock_asked (ask x (place_of request.now self.now) r) }
    {
        let district = self.at_hand(request)?;
        self.program.wanted(&district)
    }

    /// Carries out one stage of the district at hand: its lock and its one change. The names that
    /// its stages before have taken are held.
    ///
    /// A district in which no order waits has one stage, which takes the name of its queue; the
    /// stage at the customer goes on to the next district. It refuses as a district's delivery
    /// does, in the same order. A refused stage leaves the program, the tables and the locks as
    /// they were. Each stage gets the same request.
    pub fn next(&mut self, request: &DeliveriesRequest, engine: &mut Engine, tx: &Tx) -> Progress
        requires { IsOpen engine.old tx.now
            → HoldsNames request.now tx.now engine.old self.old }
        ensures { Progresses (Request.Deliveries request.now) tx.now
            engine.old (place_of request.now self.old)
            result engine.new (place_of request.now self.new) }
    {
        if !engine.is_open(tx) {
            return Progress::Refused(Refusal::NotOpen);
        }
        let Some(district) = self.at_hand(request) else {
            return Progress::Ready;
        };
        match self.program.next(&district, engine, tx) {
            Progress::More => {
                if let Some(delivery) = self.program.reply() {
                    self.done.push(delivery);
                    self.program = Program::new();
                }
                Progress::More
            }
            Progress::Ready => unreachable!(),
            Progress::Refused(refusal) => Progress::Refused(refusal),
        }
    }
}
