//! The program of a payment (clause 2.5): one stage at each call, by its position, under the lock
//! that governs the stage's row.
ghost use Rattle.std.specs.Prelude.{◌≡◌, ℕ, List, option_map};
ghost use Rattle.std.specs.Option.{option_copied};
ghost use Rattle.oe_requests.specs.declared.requests.Request.{Request};
ghost use Rattle.oe_requests.specs.declared.replies.Reply.{Reply};
ghost use Rattle.oe_model.specs.Positions.{InPayment, PaymentCustomer, PaymentWarehouse};
ghost use Rattle.oe_model.specs.Payment.{names_lock, payment_ask};
ghost use Rattle.oe_store.specs.Places.{rows};
ghost use Rattle.oe_locks.specs.Holds.{hold_of, lock_asked};
ghost use Rattle.oe_engine.specs.Programs.{Progresses, payment_reply};

use crate::positions::{Position, Stage};
use crate::stages::carry_out;
use oe_engine::{Engine, Progress, Tx};
use oe_locks::Lock;
use oe_requests::{CustomerChoice, PaymentReply, PaymentRequest, Refusal};
use oe_rows::Name;
use oe_store::Tables;
use oe_values::{CustomerNumber, ShortText};
use std::marker::Model;

/// Where a payment stands: the stage that it comes to next, with what the stages before have read.
/// Whoever carries the program out keeps its request. The program has a fixed size.
#[derive(Drop)]
pub struct Program {
    position: Position,
}

impl Model for Program {
    ghost use Rattle.oe_model.specs.Positions.{PaymentPosition};
    ghost use Rattle.oe_payment.specs.Program.{position_in};

    ghost Value = { PaymentPosition };

    ghost view = { λ p. position_in p.position };
}

/// Gives the lock of who has the last name that a request gives; none where it gives a number.
fn names_lock(request: &PaymentRequest) -> Option<Lock>
    ensures { option_map hold_of result
        ≡ lock_asked (names_lock request.now.customer_district request.now.customer) }
{
    match &request.customer {
        CustomerChoice::Number(_) => None,
        CustomerChoice::LastName(last) => Some(Lock::shared(Name::Names(
            request.customer_district,
            ShortText::of(&last.as_text()),
        ))),
    }
}

/// Gives the lock of the customer who pays; none where there is none.
fn customer_lock(request: &PaymentRequest, number: CustomerNumber, tables: &Tables) -> Option<Lock>
    ensures { (w d : List ℕ) → option_map hold_of result
        ≡ lock_asked (payment_ask request.now (PaymentCustomer w d number) (rows tables.now)) }
{
    let key = &request.customer_district.customer(number);
    match tables.customer(*key) {
        Some(_) => Some(Lock::exclusive(Name::Customer(*key))),
        None => None,
    }
}

impl Program {
    /// Makes a program at its first stage.
    pub fn new() -> Self
        ensures { result ≡ PaymentWarehouse }
    {
        Program {
            position: Position::first(),
        }
    }

    /// Goes back to its first stage.
    #[inline]
    pub fn restart(&mut self)
        ensures { self.new ≡ PaymentWarehouse }
    {
        self.position.stage = Stage::Warehouse;
    }

    /// Copies the value, and takes no memory.
    pub fn copied(&self) -> Self
        ensures { result ≡ self.now }
    {
        Program {
            position: self.position.copied(),
        }
    }

    /// Gives the reply, once all stages are done; none before that.
    #[inline]
    pub fn reply(&self) -> Option<&PaymentReply>
        ensures { option_map Reply.Payment (option_copied result) ≡ payment_reply self.now }
    {
        match self.position.stage {
            Stage::End => Some(&self.position.reply),
            _ => None,
        }
    }

    /// Gives the lock that the next stage asks for; none where it asks for none, or stops before
    /// it: there is no such customer.
    pub fn wanted(&self, request: &PaymentRequest, tables: &Tables) -> Option<Lock>
        ensures { option_map hold_of result
            ≡ lock_asked (payment_ask request.now self.now (rows tables.now)) }
    {
        let district = &request.district;
        match self.position.stage {
            Stage::Warehouse => Some(Lock::exclusive(Name::Warehouse(district.warehouse_key()))),
            Stage::District => Some(Lock::exclusive(Name::District(*district))),
            Stage::Names => names_lock(request),
            Stage::Customer => customer_lock(request, self.position.reply.customer, tables),
            Stage::History | Stage::End => None,
        }
    }

    /// Carries out one stage of the payment: its lock and its one change. The order of refusals is
    /// `NoCustomer`, `Busy`, `Overflow`, `UndoFull` where the change's record has no room, and
    /// `NoMemory` where memory was refused for a new name or the inserted row; where the customer
    /// is looked up by name, `NoCustomer` comes behind `Busy`. A refused stage
    /// leaves the program, the tables and the locks as they were. Each stage of a payment takes the
    /// same request.
    #[inline(always)]
    pub fn next(&mut self, request: &PaymentRequest, engine: &mut Engine, tx: &Tx) -> Progress
        ensures { Progresses (Request.Payment request.now) tx.now
            engine.old (InPayment request.now self.old)
            result engine.new (InPayment request.now self.new) }
    {
        if !engine.is_open(tx) {
            return Progress::Refused(Refusal::NotOpen);
        }
        carry_out(request, &mut self.position, engine, tx)
    }
}
