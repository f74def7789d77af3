//! The stages of a rename, each done on an engine or refused by it.
ghost use Rattle.std.specs.Prelude.{◌≡◌};
ghost use Rattle.oe_model.specs.Positions.{RenameCustomer, RenameOld, RenameNew};
ghost use Rattle.oe_engine.specs.View.{IsOpen};
ghost use Rattle.oe_rename.specs.Program.{HoldsTaken, Recalls, Steps};

use crate::programs::{Program, new_name};
use oe_engine::stages::{hold, put_under};
use oe_engine::{Engine, Tx};
use oe_locks::Lock;
use oe_requests::{Refusal, RenameRequest};
use oe_rows::Name;
use oe_values::ShortText;
use oe_writes::kinds::updates::CustomerNames;

/// Takes the customer's name alone, and reads C_LAST. `NoCustomer` where the customer is absent.
pub fn take_customer(
    request: &RenameRequest,
    engine: &mut Engine,
    tx: &Tx,
) -> Result<Program, Refusal>
    requires { IsOpen engine.old tx.now }
    ensures { Steps request.now tx.now engine.old RenameCustomer result engine.new }
{
    let key = &request.customer;
    let Some(row) = engine.tables().customer(*key) else {
        return Err(Refusal::NoCustomer);
    };
    let last = ShortText::of(&row.name.last);
    match hold(engine, tx, Lock::exclusive(Name::Customer(*key))) {
        Ok(()) => Ok(Program::OldName(last)),
        Err(refusal) => Err(refusal),
    }
}

/// Takes the name of who has the customer's C_LAST alone.
pub fn take_old_name(
    request: &RenameRequest,
    last: ShortText,
    engine: &mut Engine,
    tx: &Tx,
) -> Result<Program, Refusal>
    requires { IsOpen engine.old tx.now }
    ensures { Steps request.now tx.now engine.old (RenameOld last) result engine.new }
{
    let lock = Lock::exclusive(Name::Names(request.customer.district_key(), last));
    match hold(engine, tx, lock) {
        Ok(()) => Ok(Program::NewName(last)),
        Err(refusal) => Err(refusal),
    }
}

/// Takes the name of who has the new C_LAST alone, and sets C_LAST and C_FIRST.
pub fn set_names(
    request: &RenameRequest,
    last: ShortText,
    engine: &mut Engine,
    tx: &Tx,
) -> Result<Program, Refusal>
    requires open { IsOpen engine.old tx.now }
    requires held { HoldsTaken request.now tx.now engine.old (RenameNew last) }
    requires recalls { Recalls request.now engine.old (RenameNew last) }
    ensures { Steps request.now tx.now engine.old (RenameNew last) result engine.new }
{
    let key = &request.customer;
    let lock = &Lock::exclusive(new_name(request));
    let write = CustomerNames {
        customer: *key,
        last: request.last.as_text(),
        first: request.first.as_text(),
    };
    match put_under(engine, tx, lock, &write) {
        Ok(()) => Ok(Program::End(last)),
        Err(refusal) => Err(refusal),
    }
}
