//! The program of a district's delivery: one stage at each call, by its position.
ghost use Rattle.std.specs.Prelude.{◌≡◌, None, option_map};
ghost use Rattle.std.specs.Option.{MatchOption};
ghost use Rattle.oe_theory.specs.Machine as theory;
ghost use Rattle.oe_rows.specs.declared.locks.Name.TheVariants as name;
ghost use Rattle.oe_model.specs.Keys.{customer_in};
ghost use Rattle.oe_model.specs.Locks.{hold};
ghost use Rattle.oe_model.specs.Rows.{Rows};
ghost use Rattle.oe_model.specs.Delivery.{delivery_ask};
ghost use Rattle.oe_requests.specs.declared.requests.Request.{Request};
ghost use Rattle.oe_model.specs.Positions.{InDelivery};
ghost use Rattle.oe_engine.specs.View.{IsOpen};
ghost use Rattle.oe_locks.specs.Holds.{hold_of, lock_asked};
ghost use Rattle.oe_engine.specs.Programs.{Progresses, district_reply};
ghost use Rattle.oe_delivery.specs.Program.{position_of, HasLine, HasNoLine};
ghost use Rattle.oe_delivery.specs.Stages.{Advances, HoldsTaken};

use crate::remainders::Remainder;
use crate::stages::{credit_customer, date_line, set_carrier, take_oldest};
use oe_engine::{Engine, Progress, Tx};
use oe_locks::Lock;
use oe_requests::{DeliveredOrder, DeliveryRequest, DistrictDelivery, Refusal};
use oe_rows::{DistrictKey, Name};
use oe_values::{LineNumber, OrderNumber};

/// Where the delivery of a district stands: the stage that it comes to next, with what the stages
/// before have read. Whoever carries the program out keeps its request. The program has a fixed
/// size, and any value of it is a position of any request.
#[derive(Drop)]
pub enum Program {
    Queue,
    /// No order waits in the district.
    Nothing,
    /// With O_ID.
    Order(OrderNumber),
    /// Before the next line, or the customer where all lines are dated.
    Lines(Remainder),
    /// With the reply.
    End(DeliveredOrder),
}

/// Gives the lock of the customer whose order is delivered in a district.
fn customer_lock(district: &DistrictKey, remainder: &Remainder) -> Lock
    ensures { hold_of result
        ≡ hold (name.Customer (customer_in district.now remainder.now.customer)) theory.Exclusive }
{
    Lock::exclusive(Name::Customer(district.customer(remainder.customer())))
}

impl Program {
    /// Makes a program at its first stage.
    pub fn new() -> Self
        ensures { result ≡ Program.Queue }
    {
        Self::Queue
    }

    /// Copies the value, and takes no memory.
    pub fn copied(&self) -> Self
        ensures { result ≡ self.now }
    {
        match self {
            Program::Queue => Program::Queue,
            Program::Nothing => Program::Nothing,
            Program::Order(order) => Program::Order(*order),
            Program::Lines(remainder) => Program::Lines(remainder.copied()),
            Program::End(reply) => Program::End(*reply),
        }
    }

    /// Gives the reply, once all stages are done; none before that.
    pub fn reply(&self) -> Option<DistrictDelivery>
        ensures { result ≡ district_reply (position_of self.now) }
    {
        match self {
            Program::Nothing => Some(DistrictDelivery::Skipped),
            Program::End(reply) => Some(DistrictDelivery::Delivered(*reply)),
            _ => None,
        }
    }

    /// Gives the lock that the next stage asks for; none where it asks for none.
    pub fn wanted(&self, request: &DeliveryRequest) -> Option<Lock>
        ensures { (r : Rows) → option_map hold_of result
            ≡ lock_asked (delivery_ask request.now (position_of self.now) r) }
    {
        let district = request.district;
        match self {
            Program::Queue => Some(Lock::exclusive(Name::Queue(district))),
            Program::Order(order) => Some(Lock::exclusive(Name::Order(district.order(*order)))),
            Program::Lines(remainder) => match remainder.next_number() {
                Some(_) => None,
                None => Some(customer_lock(&district, remainder)),
            },
            Program::Nothing | Program::End(_) => None,
        }
    }

    // OL_NUMBER of the line whose stage is next; none at another stage.
    fn next_number(&self) -> Option<LineNumber>
        ensures { MatchOption result (HasNoLine self.now) (HasLine self.now) }
    {
        match self {
            Program::Lines(remainder) => remainder.next_number(),
            _ => None,
        }
    }

    // The stage of the next line, which has that number.
    fn date(
        &mut self,
        number: LineNumber,
        request: &DeliveryRequest,
        engine: &mut Engine,
        tx: &Tx,
    ) -> Progress
        requires line { HasLine self.old number }
        requires open { IsOpen engine.old tx.now }
        requires held { HoldsTaken request.now tx.now engine.old (position_of self.old) }
        ensures { Advances request.now tx.now engine.old (position_of self.old)
            result engine.new (position_of self.new) }
    {
        let Program::Lines(remainder) = self else {
            unreachable!();
        };
        date_line(request, remainder, number, engine, tx)
    }

    // Carries out one stage of no line, which writes the program after it in its place. It stands
    // apart, since a line's stage is carried out more often.
    #[inline(never)]
    fn next_of_order(&mut self, request: &DeliveryRequest, engine: &mut Engine, tx: &Tx) -> Progress
        requires line { HasNoLine self.old }
        requires underway { district_reply (position_of self.old) ≡ None }
        requires open { IsOpen engine.old tx.now }
        ensures { Progresses (Request.Delivery request.now) tx.now
            engine.old (InDelivery request.now (position_of self.old))
            result engine.new (InDelivery request.now (position_of self.new)) }
    {
        match self {
            Program::Queue => take_oldest(request, self, engine, tx),
            Program::Order(order) => {
                let order = *order;
                set_carrier(request, order, self, engine, tx)
            }
            Program::Lines(remainder) => {
                let reply = remainder.delivered();
                credit_customer(request, &reply, self, engine, tx)
            }
            Program::Nothing | Program::End(_) => unreachable!(),
        }
    }

    /// Carries out one stage of the delivery: its lock and its one change. The names that the
    /// stages before have taken are held: the order's for its lines.
    ///
    /// A district in which no order waits has two stages: the first takes the name of its queue,
    /// the second is ready. The order of refusals is `Busy`, `Overflow`, `UndoFull` where the
    /// change's record has no room, and `NoMemory` where memory was refused for a new name. A
    /// refused stage leaves the program, the tables and the locks as they were. Each stage of a
    /// delivery gets the same request.
    pub fn next(&mut self, request: &DeliveryRequest, engine: &mut Engine, tx: &Tx) -> Progress
        requires { IsOpen engine.old tx.now
            → HoldsTaken request.now tx.now engine.old (position_of self.old) }
        ensures { Progresses (Request.Delivery request.now) tx.now
            engine.old (InDelivery request.now (position_of self.old))
            result engine.new (InDelivery request.now (position_of self.new)) }
    {
        if !engine.is_open(tx) {
            return Progress::Refused(Refusal::NotOpen);
        }
        if self.reply().is_some() {
            return Progress::Ready;
        }
        if let Some(number) = self.next_number() {
            return self.date(number, request, engine, tx);
        }
        self.next_of_order(request, engine, tx)
    }
}
