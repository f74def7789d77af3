//! The lines of an order, two stages a line.
//!
//! A `Filling` keeps the replies of the lines that are done, and a `Filled` line between its two
//! stages. A stage that the engine refuses leaves both as they were.
ghost use Rattle.std.specs.Prelude.{◌≡◌, ◌+◌, ◌<◌, length, slice_get, Some, None, IsSome, OnErr, option_map};
ghost use Rattle.oe_theory.specs.Machine.{Plain};
ghost use Rattle.oe_theory.specs.Machine as theory;
ghost use Rattle.oe_rows.specs.declared.locks.Name.TheVariants as name;
ghost use Rattle.oe_requests.specs.Reply.{told_reply};
ghost use Rattle.oe_model.specs.Keys.{order_in, line_in};
ghost use Rattle.oe_model.specs.Changes.{InsertOrderLine};
ghost use Rattle.oe_engine.specs.View.{view_of, IsOpen};
ghost use Rattle.oe_model.specs.Locks.{hold};
ghost use Rattle.oe_model.specs.NewOrder.{item_at, new_order_ask, stock_of};
ghost use Rattle.oe_store.specs.Places.{rows};
ghost use Rattle.oe_locks.specs.Holds.{hold_of, lock_asked};
ghost use Rattle.oe_engine.specs.Programs.{new_order_reply};
ghost use Rattle.oe_engine.specs.Stages.{Does};
ghost use Rattle.oe_neworder.specs.Program.{line_position};
ghost use Rattle.oe_neworder.specs.Stages.{Advances, HoldsTaken, Fills};

use crate::looks::{Supply, supply_of};
use oe_engine::stages::{failed, put, put_held};
use oe_engine::{Engine, Progress, Tx};
use oe_formulas::orders::{Seen, stock_key};
use oe_locks::Lock;
use oe_requests::{LineReplies, LineReply, NewOrderRequest, Refusal, ReplyRef, RequestLine};
use oe_rows::{Mode, Name, OrderLine};
use oe_store::Tables;
use oe_values::{LineNumber, OrderNumber};
use oe_writes::kinds::{inserts, updates};

/// A line whose stock has been taken: its OL_NUMBER, its ORDER-LINE row, which is still to be
/// inserted, and its reply.
#[derive(Drop)]
pub struct Filled {
    pub number: LineNumber,
    pub row: OrderLine,
    pub reply: LineReply,
}

/// The lines of an order while they are filled: the replies of those that are done, and the next
/// one, once its stock has been taken. The lines themselves lie in the request.
#[derive(Drop)]
pub struct Filling {
    pub seen: Seen,
    pub done: LineReplies,
    pub filled: Option<Filled>,
}

impl Filled {
    /// Copies the value, and takes no memory.
    pub fn copied(&self) -> Self
        ensures { result ≡ self.now }
    {
        Filled {
            number: self.number,
            row: self.row.copied(),
            reply: self.reply,
        }
    }
}

impl Filling {
    /// Copies the value, and takes no memory.
    pub fn copied(&self) -> Self
        ensures { result ≡ self.now }
    {
        let filled = match &self.filled {
            Some(filled) => Some(filled.copied()),
            None => None,
        };
        Filling {
            seen: self.seen.copied(),
            done: self.done.copied(),
            filled,
        }
    }
}

/// Takes the stock's name alone, and sets its counters; before that, `InvalidItem` stops an order
/// of an unused item. The line is filled in its place before the counters are set, so that its row
/// is written once; where the stage is refused, it is taken back.
fn fill(
    request: &NewOrderRequest,
    line: &RequestLine,
    number: LineNumber,
    place: &mut Option<Filled>,
    engine: &mut Engine,
    tx: &Tx,
) -> Progress
    requires open { IsOpen engine.old tx.now }
    requires none { place.old ≡ None }
    ensures { Fills request.now tx.now engine.old line.now number result engine.new place.new }
{
    match supply_of(request, line, number, engine.tables()) {
        Supply::Unused => Progress::Refused(Refusal::InvalidItem),
        Supply::Fails(key, refusal) => {
            let lock = Lock {
                name: Name::Stock(key),
                mode: Mode::Exclusive,
            };
            Progress::Refused(failed(engine, tx, lock, refusal))
        }
        Supply::Fills(key, counters, filled) => {
            *place = Some(filled);
            let write = updates::StockCounts {
                stock: key,
                counters,
            };
            match put(engine, tx, &write) {
                Ok(()) => Progress::More,
                Err(refusal) => {
                    *place = None;
                    Progress::Refused(refusal)
                }
            }
        }
    }
}

/// Inserts the ORDER-LINE row under its order's name, which is held.
fn insert(
    request: &NewOrderRequest,
    order: OrderNumber,
    filled: &Filled,
    engine: &mut Engine,
    tx: &Tx,
) -> Result<(), Refusal>
    requires { IsOpen engine.old tx.now →
        (view_of engine.old).held tx.now.terminal (name.Order (order_in request.now.district order))
        ≡ Some theory.Exclusive }
    ensures does { Does engine.old tx.now Plain (Some (InsertOrderLine
        (line_in (order_in request.now.district order) filled.now.number) filled.now.row))
        result engine.new }
    ensures name { engine.new.name ≡ engine.old.name }
    ensures err { OnErr result (view_of engine.new ≡ view_of engine.old) }
{
    let key = request.district.order(order).line(filled.number);
    let write = inserts::InsertOrderLine {
        line: key,
        row: filled.row.copied(),
    };
    put_held(engine, tx, &write)
}

/// Gives the lock of a line's stock; none where the item is unused.
fn stock_lock(line: &RequestLine, tables: &Tables) -> Option<Lock>
    ensures { option_map hold_of result ≡ option_map
        (λ x. hold (name.Stock (stock_of line.now)) theory.Exclusive)
        (item_at line.now.item (rows tables.now).items) }
{
    let Some(key) = stock_key(*line) else {
        return None;
    };
    let key = &key;
    match tables.item(key.item_key()) {
        Some(_) => Some(Lock::exclusive(Name::Stock(*key))),
        None => None,
    }
}

/// Gives the number of the line after those that are done.
fn number_after(done: &LineReplies) -> LineNumber
    requires { length done.now < 15 }
    ensures { result ≡ length done.now + 1 }
{
    LineNumber::new(done.as_slice().len() as u32 + 1).unwrap()
}

impl Filling {
    // The first line that is not done.
    fn next_line(&self, request: &NewOrderRequest) -> Option<RequestLine>
        ensures value { result ≡ slice_get request.now.lines (length self.now.done) }
        ensures room { IsSome result → length self.now.done < 15 }
    {
        match request.lines.as_slice().get(self.done.as_slice().len()) {
            Some(line) => Some(*line),
            None => None,
        }
    }

    // The STOCK row of the next line, after which it is filled.
    fn fill_next(
        &mut self,
        line: &RequestLine,
        request: &NewOrderRequest,
        engine: &mut Engine,
        tx: &Tx,
    ) -> Progress
        requires open { IsOpen engine.old tx.now }
        requires next { slice_get request.now.lines (length self.old.done) ≡ Some line.now }
        requires none { self.old.filled ≡ None }
        requires room { length self.old.done < 15 }
        ensures { Advances request.now tx.now engine.old (line_position request.now self.old)
            result engine.new (line_position request.now self.new) }
    {
        let number = number_after(&self.done);
        fill(request, line, number, &mut self.filled, engine, tx)
    }

    // The ORDER-LINE row of the line that is filled, after which the line is done.
    fn end_next(
        &mut self,
        line: &RequestLine,
        request: &NewOrderRequest,
        engine: &mut Engine,
        tx: &Tx,
    ) -> Progress
        requires open { IsOpen engine.old tx.now }
        requires next { slice_get request.now.lines (length self.old.done) ≡ Some line.now }
        requires some { IsSome self.old.filled }
        requires room { length self.old.done < 15 }
        requires held { HoldsTaken request.now tx.now engine.old
            (line_position request.now self.old) }
        ensures { Advances request.now tx.now engine.old (line_position request.now self.old)
            result engine.new (line_position request.now self.new) }
    {
        let Some(filled) = &self.filled else {
            unreachable!();
        };
        match insert(request, self.seen.order, filled, engine, tx) {
            Ok(()) => {
                let reply = filled.reply;
                self.done.push(reply);
                self.filled = None;
                Progress::More
            }
            Err(refusal) => Progress::Refused(refusal),
        }
    }

    /// Gives the lock that the next stage asks for: the next line's stock, unless that is taken;
    /// none where no line is left, or the item is unused.
    pub(crate) fn wanted(&self, request: &NewOrderRequest, tables: &Tables) -> Option<Lock>
        ensures { option_map hold_of result
            ≡ lock_asked (new_order_ask request.now (line_position request.now self.now)
            (rows tables.now)) }
    {
        let Some(line) = self.next_line(request) else {
            return None;
        };
        match &self.filled {
            Some(_) => None,
            None => stock_lock(&line, tables),
        }
    }

    /// Carries out one stage of the lines, of STOCK or of ORDER-LINE; ready after the last.
    pub fn next(&mut self, request: &NewOrderRequest, engine: &mut Engine, tx: &Tx) -> Progress
        requires open { IsOpen engine.old tx.now }
        requires held { HoldsTaken request.now tx.now engine.old
            (line_position request.now self.old) }
        ensures { Advances request.now tx.now engine.old (line_position request.now self.old)
            result engine.new (line_position request.now self.new) }
    {
        let Some(line) = self.next_line(request) else {
            return Progress::Ready;
        };
        if self.filled.is_none() {
            self.fill_next(&line, request, engine, tx)
        } else {
            self.end_next(&line, request, engine, tx)
        }
    }

    /// Gives the reply, once all lines of the request are done; none before that. It is lent where
    /// it lies.
    pub fn reply(&self, request: &NewOrderRequest) -> Option<ReplyRef<'_>>
        ensures { option_map told_reply result
            ≡ new_order_reply (line_position request.now self.now) }
    {
        match self.next_line(request) {
            Some(_) => None,
            None => Some(self.seen.reply(&self.done)),
        }
    }
}
