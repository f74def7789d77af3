//! What an open transaction carries out: its request, where its program stands, and its mark.
//!
//! Program and mark are of the request's kind by type, so that each position is one of the
//! request's own program. What an earlier transaction left is written over where it lies. Nothing
//! takes memory, and nothing can fail.
ghost use Rattle.std.specs.Prelude.{◌≡◌, option_map, length, IfSome};
ghost use Rattle.oe_requests.specs.declared.requests.Request.{Request};
ghost use Rattle.oe_requests.specs.Reply.{told_reply};
ghost use Rattle.oe_engine.specs.View.{IsOpen, view_of};
ghost use Rattle.oe_theory.specs.Machine as theory;
ghost use Rattle.oe_model.specs.System.{ask};
ghost use Rattle.oe_store.specs.Places.{rows};
ghost use Rattle.oe_locks.specs.Holds.{hold_of, lock_asked};
ghost use Rattle.oe_engine.specs.Programs.{Progresses, reply_at};
ghost use Rattle.oe_delivery.specs.Deliveries.{place_of, HoldsNames};
ghost use Rattle.oe_core.specs.Works.{work_at_begin, state_of, HoldsTaken, Recalls, Leaves};

use oe_engine::{Engine, Progress, Savepoint, Tx};
use oe_locks::Lock;
use oe_requests::{
    DeliveriesRequest, DeliveryRequest, NewOrderRequest, PaymentRequest, RenameRequest, Reply,
    ReplyRef, Request,
};
use oe_store::Tables;
use std::marker::Model;
use std::snapshot::Snapshot;

/// A request with its program and its mark, which is where the program stood.
#[derive(Drop)]
pub(crate) enum Task {
    Payment {
        request: PaymentRequest,
        program: oe_payment::Program,
        mark: oe_payment::Program,
    },
    NewOrder {
        request: NewOrderRequest,
        program: oe_neworder::Program,
        mark: oe_neworder::Program,
    },
    Delivery {
        request: DeliveryRequest,
        program: oe_delivery::Program,
        mark: oe_delivery::Program,
    },
    Deliveries {
        request: DeliveriesRequest,
        program: oe_delivery::Deliveries,
        mark: oe_delivery::Deliveries,
    },
    Rename {
        request: RenameRequest,
        program: oe_rename::Program,
        mark: oe_rename::Program,
    },
}

/// What an open transaction carries out. Clauses see it as its request, the positions of its
/// program and of its mark, and the number of records that it had made at the mark.
#[derive(Drop)]
pub struct Work {
    task: Task,
    mark_records: Savepoint,
}

impl Model for Work {
    ghost use Rattle.oe_core.specs.Works.{WorkState, state_of};

    ghost Value = { WorkState };

    ghost view = { λ w. state_of w.task w.mark_records };
}

impl Task {
    /// Gives the task of a request whose transaction has just begun.
    fn new(request: &Request) -> Self
        ensures { state_of result 0 ≡ work_at_begin request.now }
    {
        match request {
            Request::Payment(payment) => Task::Payment {
                request: payment.copied(),
                program: oe_payment::Program::new(),
                mark: oe_payment::Program::new(),
            },
            Request::NewOrder(order) => Task::NewOrder {
                request: order.copied(),
                program: oe_neworder::Program::new(),
                mark: oe_neworder::Program::new(),
            },
            Request::Delivery(delivery) => Task::Delivery {
                request: *delivery,
                program: oe_delivery::Program::new(),
                mark: oe_delivery::Program::new(),
            },
            Request::Deliveries(deliveries) => Task::Deliveries {
                request: *deliveries,
                program: oe_delivery::Deliveries::new(),
                mark: oe_delivery::Deliveries::new(),
            },
            Request::Rename(rename) => Task::Rename {
                request: rename.copied(),
                program: oe_rename::Program::new(),
                mark: oe_rename::Program::new(),
            },
        }
    }
}

impl Work {
    /// Begins the work of a transaction of this request.
    pub fn new(request: &Request) -> Self
        ensures { result ≡ work_at_begin request.now }
    {
        Work {
            task: Task::new(request),
            mark_records: Savepoint::start(),
        }
    }

    /// Becomes the work of a transaction of this request, which has just begun.
    #[inline]
    pub fn start(&mut self, request: &Request)
        ensures { self.new ≡ work_at_begin request.now }
    {
        match &mut self.task {
            Task::Payment {
                request: paid,
                program,
                mark,
            } => match request {
                Request::Payment(payment) => {
                    *paid = payment.copied();
                    program.restart();
                    mark.restart();
                    self.mark_records = Savepoint::start();
                }
                _ => self.start_other(request),
            },
            Task::NewOrder {
                request: ordered,
                program,
                mark,
            } => match request {
                Request::NewOrder(order) => {
                    *ordered = order.copied();
                    *program = oe_neworder::Program::new();
                    *mark = oe_neworder::Program::new();
                    self.mark_records = Savepoint::start();
                }
                _ => self.start_other(request),
            },
            _ => self.start_other(request),
        }
    }

    // Starts where no payment follows a payment, and no order an order. It has room for the whole,
    // which these do without.
    #[inline(never)]
    fn start_other(&mut self, request: &Request)
        ensures { self.new ≡ work_at_begin request.now }
    {
        *self = Work::new(request);
    }

    /// Tells how many records the transaction had made at the mark.
    pub fn mark_records(&self) -> Savepoint
        ensures { result ≡ self.now.mark_records }
    {
        self.mark_records
    }

    /// Moves the mark to where the program stands, with that number of records.
    pub fn save(&mut self, records: Savepoint)
        ensures { self.new
            ≡ record self.old { mark = self.old.position; mark_records = records } }
    {
        self.mark_records = records;
        match &mut self.task {
            Task::Payment { program, mark, .. } => *mark = program.copied(),
            Task::NewOrder { program, mark, .. } => *mark = program.copied(),
            Task::Delivery { program, mark, .. } => *mark = program.copied(),
            Task::Deliveries { program, mark, .. } => *mark = program.copied(),
            Task::Rename { program, mark, .. } => *mark = program.copied(),
        }
    }

    /// Takes the program back to the mark.
    pub fn back(&mut self)
        ensures { self.new ≡ record self.old { position = self.old.mark } }
    {
        match &mut self.task {
            Task::Payment { program, mark, .. } => *program = mark.copied(),
            Task::NewOrder { program, mark, .. } => *program = mark.copied(),
            Task::Delivery { program, mark, .. } => *program = mark.copied(),
            Task::Deliveries { program, mark, .. } => *program = mark.copied(),
            Task::Rename { program, mark, .. } => *program = mark.copied(),
        }
    }

    /// Gives the reply, once the program is at its end; none before that. It is lent where it lies.
    #[inline]
    pub fn reply(&self) -> Option<ReplyRef<'_>>
        ensures { option_map told_reply result ≡ reply_at self.now.position }
    {
        match &self.task {
            Task::Payment { program, .. } => match program.reply() {
                Some(reply) => Some(ReplyRef::Payment(reply)),
                None => None,
            },
            Task::NewOrder {
                request,
                program,
                ..
            } => program.reply(request),
            Task::Delivery { program, .. } => match program.reply() {
                Some(reply) => Some(ReplyRef::Delivery(reply)),
                None => None,
            },
            Task::Deliveries { program, .. } => match program.reply() {
                Some(reply) => Some(ReplyRef::Deliveries(reply)),
                None => None,
            },
            Task::Rename {
                request: rename,
                program,
                ..
            } => program.reply(rename),
        }
    }

    /// Gives what a commit keeps once the program is at its end, request and reply without a byte;
    /// none before.
    #[inline]
    pub fn ended(&self) -> Option<(Snapshot<Request>, Snapshot<Reply>)>
        ensures request { IfSome result (λ s. s.0.value ≡ self.now.request) }
        ensures reply { option_map (λ s. s.1.value) result ≡ reply_at self.now.position }
    {
        match &self.task {
            Task::Payment {
                request,
                program,
                ..
            } => {
                let reply = Reply::Payment(program.reply()?.copied());
                let request = Request::Payment(request.copied());
                Some((Snapshot::of(&request), Snapshot::of(&reply)))
            }
            _ => self.ended_other(),
        }
    }

    // Gives request and reply of any task. It has room for a whole reply, which a payment's end
    // does without.
    #[inline(never)]
    fn ended_other(&self) -> Option<(Snapshot<Request>, Snapshot<Reply>)>
        ensures request { IfSome result (λ s. s.0.value ≡ self.now.request) }
        ensures reply { option_map (λ s. s.1.value) result ≡ reply_at self.now.position }
    {
        let Some(lent) = self.reply() else {
            return None;
        };
        let reply = lent.copied();
        let request = match &self.task {
            Task::Payment { request, .. } => Request::Payment(request.copied()),
            Task::NewOrder { request, .. } => Request::NewOrder(request.copied()),
            Task::Delivery { request, .. } => Request::Delivery(*request),
            Task::Deliveries { request, .. } => Request::Deliveries(*request),
            Task::Rename { request, .. } => Request::Rename(request.copied()),
        };
        Some((Snapshot::of(&request), Snapshot::of(&reply)))
    }

    /// Gives the lock that the next stage of the program asks for; none where it asks for none, or
    /// stops before it.
    pub fn wanted(&self, tables: &Tables) -> Option<Lock>
        ensures { (x : theory.Tx Request) → option_map hold_of result
            ≡ lock_asked (ask x self.now.position (rows tables.now)) }
    {
        match &self.task {
            Task::Payment {
                request,
                program,
                ..
            } => program.wanted(request, tables),
            Task::NewOrder {
                request,
                program,
                ..
            } => program.wanted(request, tables),
            Task::Delivery {
                request,
                program,
                ..
            } => program.wanted(request),
            Task::Deliveries {
                request,
                program,
                ..
            } => program.wanted(request),
            Task::Rename {
                request,
                program,
                ..
            } => program.wanted(request, tables),
        }
    }

    /// Carries out one stage of the program: its lock and its change. Where the stage moves the
    /// mark, the mark is then where the program stood. `Refused` leaves all as it was.
    #[inline(always)]
    pub fn next(&mut self, engine: &mut Engine, tx: &Tx) -> Progress
        requires held { IsOpen engine.old tx.now
            → HoldsTaken engine.old tx.now self.old.request self.old.position }
        requires recalls { IsOpen engine.old tx.now
            → Recalls engine.old self.old.position }
        ensures progresses { Progresses self.old.request tx.now engine.old self.old.position
            result engine.new self.new.position }
        ensures left { Leaves (length ((view_of engine.old).undo.active tx.now.terminal))
            self.old result self.new }
    {
        match &mut self.task {
            Task::Payment {
                request: payment,
                program,
                ..
            } => program.next(payment, engine, tx),
            Task::NewOrder {
                request: order,
                program,
                ..
            } => program.next(order, engine, tx),
            Task::Delivery {
                request: delivery,
                program,
                ..
            } => program.next(delivery, engine, tx),
            Task::Deliveries {
                request: deliveries,
                program,
                mark,
            } => next_of_ten(
                deliveries,
                program,
                mark,
                &mut self.mark_records,
                engine,
                tx,
            ),
            Task::Rename {
                request: rename,
                program,
                ..
            } => program.next(rename, engine, tx),
        }
    }
}

// One stage of a delivery of ten districts, which moves the mark before the first stage of each
// district.
fn next_of_ten(
    request: &DeliveriesRequest,
    program: &mut oe_delivery::Deliveries,
    mark: &mut oe_delivery::Deliveries,
    mark_records: &mut Savepoint,
    engine: &mut Engine,
    tx: &Tx,
) -> Progress
    requires held { IsOpen engine.old tx.now
        → HoldsNames request.now tx.now engine.old program.old }
    ensures progresses { Progresses (Request.Deliveries request.now) tx.now
        engine.old (place_of request.now program.old)
        result engine.new (place_of request.now program.new) }
    ensures left { Leaves (length ((view_of engine.old).undo.active tx.now.terminal))
        (state_of (Task.Deliveries request.now program.old mark.old) mark_records.old)
        result (state_of (Task.Deliveries request.now program.new mark.new) mark_records.new) }
{
    if !program.is_at_mark() {
        return program.next(request, engine, tx);
    }
    let district = program.copied();
    let records = engine.savepoint(tx);
    match program.next(request, engine, tx) {
        Progress::More => {
            *mark = district;
            *mark_records = records;
            Progress::More
        }
        Progress::Ready => Progress::Ready,
        Progress::Refused(refusal) => Progress::Refused(refusal),
    }
}
