//! The program of a rename: one stage at each call, by its position.
ghost use Rattle.std.specs.Prelude.{◌≡◌, ◌↔◌, IsTrue, option_map};
ghost use Rattle.oe_rows.specs.declared.locks.Name.TheVariants as name;
ghost use Rattle.oe_model.specs.Keys.{district_of_customer};
ghost use Rattle.oe_requests.specs.Reply.{told_reply};
ghost use Rattle.oe_requests.specs.declared.requests.Request.{Request};
ghost use Rattle.oe_model.specs.Positions.{InRename};
ghost use Rattle.oe_model.specs.Rename.{rename_ask};
ghost use Rattle.oe_store.specs.Places.{rows};
ghost use Rattle.oe_engine.specs.View.{IsOpen};
ghost use Rattle.oe_locks.specs.Holds.{hold_of, lock_asked};
ghost use Rattle.oe_engine.specs.Programs.{Progresses, renamed_reply};
ghost use Rattle.oe_rename.specs.Program.{position_of, HasEnded, HoldsTaken, Recalls, Steps};

use crate::stages::{set_names, take_customer, take_old_name};
use oe_engine::{Engine, Progress, Tx};
use oe_locks::Lock;
use oe_requests::{Refusal, RenameRequest, ReplyRef};
use oe_rows::Name;
use oe_store::Tables;
use oe_values::ShortText;

/// Where a rename stands: the stage that it comes to next, with the C_LAST that the customer had.
/// Whoever carries the program out keeps its request. The program has a fixed size, and any value
/// of it is a position of any request.
#[derive(Drop)]
pub enum Program {
    Customer,
    /// Before the name of who has the old C_LAST.
    OldName(ShortText),
    /// Before the name of who has the new C_LAST.
    NewName(ShortText),
    End(ShortText),
}

/// Gives the name of who has the new C_LAST.
pub(crate) fn new_name(request: &RenameRequest) -> Name
    ensures { result ≡ name.Names (district_of_customer request.now.customer) request.now.last }
{
    Name::Names(
        request.customer.district_key(),
        ShortText::of(&request.last.as_text()),
    )
}

impl Program {
    /// Makes a program at its first stage.
    pub fn new() -> Self
        ensures { result ≡ Program.Customer }
    {
        Self::Customer
    }

    /// Copies the value, and takes no memory.
    pub fn copied(&self) -> Self
        ensures { result ≡ self.now }
    {
        match self {
            Program::Customer => Program::Customer,
            Program::OldName(last) => Program::OldName(*last),
            Program::NewName(last) => Program::NewName(*last),
            Program::End(last) => Program::End(*last),
        }
    }

    /// Gives the reply, once all stages are done, lent from where the request lies; none before
    /// that.
    pub fn reply<'a>(&self, request: &'a RenameRequest) -> Option<ReplyRef<'a>>
        ensures { option_map told_reply result
            ≡ renamed_reply request.now (position_of self.now) }
    {
        match self {
            Program::End(_) => Some(ReplyRef::Rename {
                customer: request.customer.customer,
                last: &request.last,
                first: &request.first,
            }),
            _ => None,
        }
    }

    /// Gives the lock that the next stage asks for; none where it asks for none, or stops before
    /// it: there is no such customer.
    pub fn wanted(&self, request: &RenameRequest, tables: &Tables) -> Option<Lock>
        ensures { option_map hold_of result
            ≡ lock_asked (rename_ask request.now (position_of self.now) (rows tables.now)) }
    {
        let key = &request.customer;
        match self {
            Program::Customer => match tables.customer(*key) {
                Some(_) => Some(Lock::exclusive(Name::Customer(*key))),
                None => None,
            },
            Program::OldName(last) => {
                Some(Lock::exclusive(Name::Names(key.district_key(), *last)))
            }
            Program::NewName(_) => Some(Lock::exclusive(new_name(request))),
            Program::End(_) => None,
        }
    }

    // Tells whether all stages are done.
    fn has_ended(&self) -> bool
        ensures { IsTrue result ↔ HasEnded self.now }
    {
        match self {
            Program::End(_) => true,
            _ => false,
        }
    }

    // A stage before the end.
    fn stage(
        &self,
        request: &RenameRequest,
        engine: &mut Engine,
        tx: &Tx,
    ) -> Result<Program, Refusal>
        requires underway { HasEnded self.now → ⊥ }
        requires open { IsOpen engine.old tx.now }
        requires held { HoldsTaken request.now tx.now engine.old (position_of self.now) }
        requires recalls { Recalls request.now engine.old (position_of self.now) }
        ensures { Steps request.now tx.now engine.old (position_of self.now) result engine.new }
    {
        match self {
            Program::Customer => take_customer(request, engine, tx),
            Program::OldName(last) => take_old_name(request, *last, engine, tx),
            Program::NewName(last) => set_names(request, *last, engine, tx),
            Program::End(_) => unreachable!(),
        }
    }

    /// Carries out one stage of the rename: its lock and its one change. The names that the stages
    /// before have taken are held, and the old last name is still the customer's.
    ///
    /// `NotOpen`: the transaction is not one of this engine. `NoCustomer`: there is no such
    /// customer. `Busy`: another holds the stage's name. `UndoFull`: the record of the change has
    /// no room. `NoMemory`: memory was refused for a name that was not held, or to find the
    /// customer by the new C_LAST. A refused stage leaves the program, the tables and the locks as
    /// they were. Each stage of a rename takes the same request.
    pub fn next(&mut self, request: &RenameRequest, engine: &mut Engine, tx: &Tx) -> Progress
        requires held { IsOpen engine.old tx.now
            → HoldsTaken request.now tx.now engine.old (position_of self.old) }
        requires recalls { IsOpen engine.old tx.now
            → Recalls request.now engine.old (position_of self.old) }
        ensures { Progresses (Request.Rename request.now) tx.now
            engine.old (InRename request.now (position_of self.old))
            result engine.new (InRename request.now (position_of self.new)) }
    {
        if !engine.is_open(tx) {
            return Progress::Refused(Refusal::NotOpen);
        }
        if self.has_ended() {
            return Progress::Ready;
        }
        match self.stage(request, engine, tx) {
            Ok(program) => {
                *self = program;
                Progress::More
            }
            Err(refusal) => Progress::Refused(refusal),
        }
    }
}
