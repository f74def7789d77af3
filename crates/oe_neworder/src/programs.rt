//! The program of a new order (clause 2.4): one stage at each call, by its position, under the lock
//! that governs the stage's row.
ghost use Rattle.std.specs.Prelude.{◌≡◌, ℕ, option_map};
ghost use Rattle.oe_requests.specs.declared.requests.Request.{Request};
ghost use Rattle.oe_requests.specs.Reply.{told_reply};
ghost use Rattle.oe_model.specs.Positions.{InNewOrder, NewOrderCustomer};
ghost use Rattle.oe_engine.specs.View.{IsOpen};
ghost use Rattle.oe_model.specs.NewOrder.{new_order_ask};
ghost use Rattle.oe_store.specs.Places.{rows};
ghost use Rattle.oe_locks.specs.Holds.{hold_of, lock_asked};
ghost use Rattle.oe_engine.specs.Programs.{Progresses, new_order_reply};
ghost use Rattle.oe_neworder.specs.Program.{position_of, IsBeforeLines};
ghost use Rattle.oe_neworder.specs.Stages.{HoldsTaken};

use crate::fillings::Filling;
use crate::stages::{insert_new_order, insert_order, read_customer, read_warehouse, take_number};
use oe_engine::{Engine, Progress, Tx};
use oe_formulas::orders::Seen;
use oe_locks::Lock;
use oe_requests::{NewOrderRequest, Refusal, ReplyRef};
use oe_rows::Name;
use oe_store::Tables;
use oe_values::{OrderNumber, Rate};

/// Where a New-Order stands: the stage that it comes to next, with what the stages before have
/// read. Whoever carries the program out keeps its request. The program has a fixed size, and any
/// value of it is a position of any request.
#[derive(Drop)]
pub enum Program {
    Warehouse,
    /// With W_TAX.
    District(Rate),
    /// With O_ID, W_TAX and D_TAX.
    Customer(OrderNumber, Rate, Rate),
    Order(Seen),
    Queue(Seen),
    Lines(Filling),
}

/// Gives the lock of the customer who orders; none where the customer is absent.
fn customer_lock(request: &NewOrderRequest, tables: &Tables) -> Option<Lock>
    ensures { (o w d : ℕ) → option_map hold_of result
        ≡ lock_asked (new_order_ask request.now (NewOrderCustomer o w d) (rows tables.now)) }
{
    let key = &request.district.customer(request.customer);
    match tables.customer(*key) {
        Some(_) => Some(Lock::shared(Name::Customer(*key))),
        None => None,
    }
}

impl Program {
    /// Makes a program at its first stage.
    pub fn new() -> Self
        ensures { result ≡ Program.Warehouse }
    {
        Self::Warehouse
    }

    /// Copies the value, and takes no memory.
    pub fn copied(&self) -> Self
        ensures { result ≡ self.now }
    {
        match self {
            Program::Warehouse => Program::Warehouse,
            Program::District(tax) => Program::District(*tax),
            Program::Customer(order, warehouse, district) => {
                Program::Customer(*order, *warehouse, *district)
            }
            Program::Order(seen) => Program::Order(seen.copied()),
            Program::Queue(seen) => Program::Queue(seen.copied()),
            Program::Lines(filling) => Program::Lines(filling.copied()),
        }
    }

    /// Gives the reply, once all stages of the request are done; none before that. It is lent where
    /// it lies.
    pub fn reply(&self, request: &NewOrderRequest) -> Option<ReplyRef<'_>>
        ensures { option_map told_reply result
            ≡ new_order_reply (position_of request.now self.now) }
    {
        match self {
            Program::Lines(filling) => filling.reply(request),
            _ => None,
        }
    }

    /// Gives the lock that the next stage asks for; none where it asks for none, or stops before
    /// it: the customer is absent, or an item unused.
    pub fn wanted(&self, request: &NewOrderRequest, tables: &Tables) -> Option<Lock>
        ensures { option_map hold_of result
            ≡ lock_asked (new_order_ask request.now (position_of request.now self.now)
            (rows tables.now)) }
    {
        let district = &request.district;
        match self {
            Program::Warehouse => Some(Lock::shared(Name::Warehouse(district.warehouse_key()))),
            Program::District(_) => Some(Lock::exclusive(Name::District(*district))),
            Program::Customer(_, _, _) => customer_lock(request, tables),
            Program::Order(seen) => Some(Lock::exclusive(Name::Order(district.order(seen.order)))),
            Program::Queue(_) => Some(Lock::exclusive(Name::Queue(*district))),
            Program::Lines(filling) => filling.wanted(request, tables),
        }
    }

    // Carries out one stage before the lines, which writes the program after it in its place. It
    // stands apart, since a line's stage is carried out ten times as often. What was seen is copied
    // before its stage writes over it.
    #[inline(never)]
    fn next_before_lines(
        &mut self,
        request: &NewOrderRequest,
        engine: &mut Engine,
        tx: &Tx,
    ) -> Progress
        requires position { IsBeforeLines self.old }
        requires open { IsOpen engine.old tx.now }
        requires held { HoldsTaken request.now tx.now engine.old
            (position_of request.now self.old) }
        ensures { Progresses (Request.NewOrder request.now) tx.now
            engine.old (InNewOrder request.now (position_of request.now self.old)) result
            engine.new (InNewOrder request.now (position_of request.now self.new)) }
    {
        match self {
            Program::Warehouse => read_warehouse(request, self, engine, tx),
            Program::District(tax) => {
                let tax = *tax;
                take_number(request, tax, self, engine, tx)
            }
            Program::Customer(order, warehouse, district) => {
                let order = *order;
                let warehouse = *warehouse;
                let district = *district;
                read_customer(request, order, warehouse, district, self, engine, tx)
            }
            Program::Order(seen) => {
                let seen = seen.copied();
                insert_order(request, seen, self, engine, tx)
            }
            Program::Queue(seen) => {
                let seen = seen.copied();
                insert_new_order(request, seen, self, engine, tx)
            }
            Program::Lines(_) => unreachable!(),
        }
    }

    /// Carries out one stage of the order: its lock and its one change. The names that the stages
    /// before have taken are held: the order's for its NEW-ORDER row and its lines.
    ///
    /// The order of refusals is `NoCustomer` or `InvalidItem`, which stop before the lock, `Busy`,
    /// `Overflow`, `UndoFull` where the change's record has no room, and `NoMemory` where memory
    /// was refused for a new name or an inserted row. A refused stage leaves the program, the
    /// tables and the locks as they were. Each stage of an order takes the same request.
    pub fn next(&mut self, request: &NewOrderRequest, engine: &mut Engine, tx: &Tx) -> Progress
        requires { IsOpen engine.old tx.now →
            HoldsTaken request.now tx.now engine.old (position_of request.now self.old) }
        ensures { Progresses (Request.NewOrder request.now) tx.now
            engine.old (InNewOrder request.now (position_of request.now self.old)) result
            engine.new (InNewOrder request.now (position_of request.now self.new)) }
    {
        if !engine.is_open(tx) {
            return Progress::Refused(Refusal::NotOpen);
        }
        if let Program::Lines(filling) = self {
            return filling.next(request, engine, tx);
        }
        self.next_before_lines(request, engine, tx)
    }
}
