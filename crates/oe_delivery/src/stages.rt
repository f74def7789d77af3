//! The stages of a delivery (clause 2.7.4.2), each done on an engine or refused by it. A stage beside
//! the lines that is done writes the program after it in its place; a refused one leaves it.
ghost use Rattle.std.specs.Prelude.{◌≡◌, ◌∷◌, drop};
ghost use Rattle.oe_model.specs.Positions.{DeliveryQueue, DeliveryOrder};
ghost use Rattle.oe_engine.specs.View.{IsOpen};
ghost use Rattle.oe_delivery.specs.Program.{customer_position, line_position};
ghost use Rattle.oe_delivery.specs.Stages.{Advances, HoldsTaken, Steps};

use crate::looks::remainder_of;
use crate::programs::Program;
use crate::remainders::Remainder;
use oe_engine::stages::{failed, hold, put, put_held};
use oe_engine::{Engine, Progress, Tx};
use oe_formulas::deliveries::account_after_delivery;
use oe_locks::Lock;
use oe_requests::{DeliveredOrder, DeliveryRequest, Refusal};
use oe_rows::{Key, Mode, Name};
use oe_values::{LineNumber, OrderNumber};
use oe_writes::kinds::inserts::DeleteNewOrder;
use oe_writes::kinds::updates::{CustomerAccount, DeliveryDate, OrderCarrier};

/// Takes the name of the district's queue alone, and deletes the NEW-ORDER row of the oldest order,
/// if one waits.
pub fn take_oldest(
    request: &DeliveryRequest,
    program: &mut Program,
    engine: &mut Engine,
    tx: &Tx,
) -> Progress
    requires { IsOpen engine.old tx.now }
    ensures { Steps request.now tx.now engine.old DeliveryQueue program.old
        result engine.new program.new }
{
    let Some(order) = engine.tables().oldest(&request.district) else {
        let lock = Lock {
            name: Name::Queue(request.district),
            mode: Mode::Exclusive,
        };
        return match hold(engine, tx, lock) {
            Ok(()) => {
                *program = Program::Nothing;
                Progress::More
            }
            Err(refusal) => Progress::Refused(refusal),
        };
    };
    let write = DeleteNewOrder {
        order: request.district.new_order(order),
    };
    match put(engine, tx, &write) {
        Ok(()) => {
            *program = Program::Order(order);
            Progress::More
        }
        Err(refusal) => Progress::Refused(refusal),
    }
}

/// Takes the order's name alone, and sets O_CARRIER_ID. `NoSuchRow` where the order is absent.
pub fn set_carrier(
    request: &DeliveryRequest,
    order: OrderNumber,
    program: &mut Program,
    engine: &mut Engine,
    tx: &Tx,
) -> Progress
    requires { IsOpen engine.old tx.now }
    ensures { Steps request.now tx.now engine.old (DeliveryOrder order) program.old
        result engine.new program.new }
{
    let key = &request.district.order(order);
    let Some(remainder) = remainder_of(key, engine.tables()) else {
        let lock = Lock {
            name: Name::Order(*key),
            mode: Mode::Exclusive,
        };
        let refusal = failed(engine, tx, lock, Refusal::NoSuchRow(Key::Order(*key)));
        return Progress::Refused(refusal);
    };
    let write = OrderCarrier {
        order: *key,
        carrier: request.carrier,
    };
    match put(engine, tx, &write) {
        Ok(()) => {
            *program = Program::Lines(remainder);
            Progress::More
        }
        Err(refusal) => Progress::Refused(refusal),
    }
}

/// Sets OL_DELIVERY_D of the first line to come, under the order's name, which is held. `NoSuchRow`
/// where the line is absent.
pub fn date_line(
    request: &DeliveryRequest,
    remainder: &mut Remainder,
    number: LineNumber,
    engine: &mut Engine,
    tx: &Tx,
) -> Progress
    requires open { IsOpen engine.old tx.now }
    requires next { remainder.old.numbers ≡ number ∷ drop 1 remainder.old.numbers }
    requires held { HoldsTaken request.now tx.now engine.old (line_position remainder.old) }
    ensures { Advances request.now tx.now engine.old (line_position remainder.old)
        result engine.new (line_position remainder.new) }
{
    let key = &request.district.order(remainder.order()).line(number);
    let Some(row) = engine.tables().order_line(*key) else {
        return Progress::Refused(Refusal::NoSuchRow(Key::OrderLine(*key)));
    };
    let amount = row.amount;
    let write = DeliveryDate {
        line: *key,
        stamp: request.stamp,
    };
    match put_held(engine, tx, &write) {
        Ok(()) => {
            remainder.pass(amount);
            Progress::More
        }
        Err(refusal) => Progress::Refused(refusal),
    }
}

/// Takes the customer's name alone, and adds the sum of the OL_AMOUNTs to C_BALANCE, and 1 to
/// C_DELIVERY_CNT, once all lines of the order are dated. `NoSuchRow` where the customer is absent,
/// `Overflow` of the first of these columns that would leave its range.
pub fn credit_customer(
    request: &DeliveryRequest,
    delivered: &DeliveredOrder,
    program: &mut Program,
    engine: &mut Engine,
    tx: &Tx,
) -> Progress
    requires { IsOpen engine.old tx.now }
    ensures { Steps request.now tx.now engine.old (customer_position delivered.now) program.old
        result engine.new program.new }
{
    let key = &request.district.customer(delivered.customer);
    let lock = Lock {
        name: Name::Customer(*key),
        mode: Mode::Exclusive,
    };
    let Some(row) = engine.tables().customer(*key) else {
        let refusal = failed(engine, tx, lock, Refusal::NoSuchRow(Key::Customer(*key)));
        return Progress::Refused(refusal);
    };
    match account_after_delivery(row, delivered.sum) {
        Err(column) => { Progress::Refused(failed(engine, tx, lock, Refusal::Overflow(column))) }
        Ok(account) => {
            let write = CustomerAccount {
                customer: *key,
                account,
            };
            match put(engine, tx, &write) {
                Ok(()) => {
                    *program = Program::End(*delivered);
                    Progress::More
                }
                Err(refusal) => Progress::Refused(refusal),
            }
        }
    }
}
