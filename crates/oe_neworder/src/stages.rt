//! The stages of a New-Order before its lines, each done on an engine or refused by it. A stage that
//! is done writes the program after it in its place; a refused one leaves it.
ghost use Rattle.std.specs.Prelude.{◌≡◌, IsSome};
ghost use Rattle.oe_rows.specs.declared.locks.Name.TheVariants as name;
ghost use Rattle.oe_model.specs.Keys.{order_in};
ghost use Rattle.oe_model.specs.Positions.{NewOrderWarehouse, NewOrderDistrict, NewOrderCustomer, NewOrderOrder, NewOrderQueue};
ghost use Rattle.oe_formulas.specs.Orders.{seen_by};
ghost use Rattle.oe_engine.specs.View.{view_of, IsOpen};
ghost use Rattle.oe_neworder.specs.Stages.{Steps};

use crate::fillings::Filling;
use crate::looks::{next_number, seen, warehouse_tax};
use crate::programs::Program;
use oe_engine::stages::{failed, hold, put};
use oe_engine::{Engine, Progress, Tx};
use oe_formulas::orders::{Seen, order_row};
use oe_locks::Lock;
use oe_requests::{LineReplies, NewOrderRequest, Refusal};
use oe_rows::{Mode, Name};
use oe_values::{OrderNumber, Rate};
use oe_writes::kinds::{inserts, updates};

/// Takes the warehouse's name beside others.
pub fn read_warehouse(
    request: &NewOrderRequest,
    program: &mut Program,
    engine: &mut Engine,
    tx: &Tx,
) -> Progress
    requires { IsOpen engine.old tx.now }
    ensures { Steps request.now tx.now engine.old NewOrderWarehouse program.old
        result engine.new program.new }
{
    let lock = Lock {
        name: Name::Warehouse(request.district.warehouse_key()),
        mode: Mode::Shared,
    };
    match warehouse_tax(request, engine.tables()) {
        Err(refusal) => Progress::Refused(failed(engine, tx, lock, refusal)),
        Ok(tax) => match hold(engine, tx, lock) {
            Ok(()) => {
                *program = Program::District(tax);
                Progress::More
            }
            Err(refusal) => Progress::Refused(refusal),
        },
    }
}

/// Takes the district's name alone, and adds 1 to D_NEXT_O_ID.
pub fn take_number(
    request: &NewOrderRequest,
    tax: Rate,
    program: &mut Program,
    engine: &mut Engine,
    tx: &Tx,
) -> Progress
    requires { IsOpen engine.old tx.now }
    ensures { Steps request.now tx.now engine.old (NewOrderDistrict tax) program.old
        result engine.new program.new }
{
    let lock = Lock {
        name: Name::District(request.district),
        mode: Mode::Exclusive,
    };
    match next_number(request, engine.tables()) {
        Err(refusal) => Progress::Refused(failed(engine, tx, lock, refusal)),
        Ok(numbered) => {
            let write = updates::NextOrder {
                district: request.district,
                order: numbered.next,
            };
            match put(engine, tx, &write) {
                Ok(()) => {
                    *program = Program::Customer(numbered.order, tax, numbered.tax);
                    Progress::More
                }
                Err(refusal) => Progress::Refused(refusal),
            }
        }
    }
}

/// Takes the customer's name beside others; before that, `NoCustomer` stops an order of an absent
/// one.
pub fn read_customer(
    request: &NewOrderRequest,
    order: OrderNumber,
    warehouse_tax: Rate,
    district_tax: Rate,
    program: &mut Program,
    engine: &mut Engine,
    tx: &Tx,
) -> Progress
    requires { IsOpen engine.old tx.now }
    ensures { Steps request.now tx.now engine.old
        (NewOrderCustomer order warehouse_tax district_tax) program.old
        result engine.new program.new }
{
    let Some(seen) = seen(request, order, warehouse_tax, district_tax, engine.tables()) else {
        return Progress::Refused(Refusal::NoCustomer);
    };
    let lock = Lock {
        name: Name::Customer(request.district.customer(request.customer)),
        mode: Mode::Shared,
    };
    match hold(engine, tx, lock) {
        Ok(()) => {
            *program = Program::Order(seen);
            Progress::More
        }
        Err(refusal) => Progress::Refused(refusal),
    }
}

/// Takes the order's name alone, and inserts its row.
pub fn insert_order(
    request: &NewOrderRequest,
    seen: Seen,
    program: &mut Program,
    engine: &mut Engine,
    tx: &Tx,
) -> Progress
    ensures { Steps request.now tx.now engine.old
        (NewOrderOrder (seen_by seen)) program.old result engine.new program.new }
{
    let write = inserts::InsertOrder {
        order: request.district.order(seen.order),
        row: order_row(request),
    };
    match put(engine, tx, &write) {
        Ok(()) => {
            *program = Program::Queue(seen);
            Progress::More
        }
        Err(refusal) => Progress::Refused(refusal),
    }
}

/// Takes the name of the district's queue alone, and inserts the NEW-ORDER row.
pub fn insert_new_order(
    request: &NewOrderRequest,
    seen: Seen,
    program: &mut Program,
    engine: &mut Engine,
    tx: &Tx,
) -> Progress
    requires { IsOpen engine.old tx.now → IsSome ((view_of engine.old).held tx.now.terminal
        (name.Order (order_in request.now.district seen.order))) }
    ensures { Steps request.now tx.now engine.old
        (NewOrderQueue (seen_by seen)) program.old result engine.new program.new }
{
    let write = inserts::InsertNewOrder {
        order: request.district.new_order(seen.order),
    };
    match put(engine, tx, &write) {
        Ok(()) => {
            *program = Program::Lines(Filling {
                seen,
                done: LineReplies::new(),
                filled: None,
            });
            Progress::More
        }
        Err(refusal) => Progress::Refused(refusal),
    }
}
