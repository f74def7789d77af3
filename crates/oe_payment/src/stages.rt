//! The stages of a payment (clause 2.5.2.2): each takes its lock and writes, and keeps what the
//! payment reads there.
ghost use Rattle.std.specs.Prelude.{◌≡◌, suc, true, List, ℕ};
ghost use Rattle.oe_rows.specs.declared.keys.Key.TheVariants as row_key;
ghost use Rattle.oe_rows.specs.Credit.{credit_entry};
ghost use Rattle.oe_rows.specs.declared.locks.Name.TheVariants as name_of;
ghost use Rattle.oe_requests.specs.declared.requests.Request.{Request};
ghost use Rattle.oe_requests.specs.declared.refusals.Refusal.TheVariants.{Overflow};
ghost use Rattle.oe_model.specs.Changes.{Change};
ghost use Rattle.oe_model.specs.Keys.{customer_in};
ghost use Rattle.oe_model.specs.Locks.{governs};
ghost use Rattle.oe_model.specs.Payment.{behind_district, history_data, paid_reply};
ghost use Rattle.oe_model.specs.Positions.{PaymentPosition, PaymentWarehouse, PaymentDistrict, PaymentNames, PaymentCustomer, PaymentHistory, PaymentEnd, InPayment};
ghost use Rattle.oe_formulas.specs.Checks.{credit_ids};
ghost use Rattle.oe_change.specs.declared.writes.Write.TheVariants as write_of;
ghost use Rattle.oe_change.specs.Writes.{key_written};
ghost use Rattle.oe_engine.specs.View.{view_of, IsOpen};
ghost use Rattle.oe_engine.specs.Covered.{IsOwn};
ghost use Rattle.oe_engine.specs.Writes.{HoldsBeside};
ghost use Rattle.oe_engine.specs.Programs.{Progresses};
ghost use Rattle.oe_payment.specs.Program.{position_in, stage_behind, number_given};
ghost use Rattle.oe_payment.specs.Stages.{is_failure, failed_by, FailsUnder, Does, stage_after, IsStage};

use crate::positions::{Position, Stage};
use oe_engine::stages::{failed, hold};
use oe_engine::{Engine, Progress, Tx};
use oe_formulas::payments::{
    account_after, bad_credit_entry, district_ytd_after, history_data, history_key, history_row,
    warehouse_ytd_after,
};
use oe_locks::Lock;
use oe_requests::{Column, CustomerChoice, PaymentReply, PaymentRequest, Refusal};
use oe_rows::{Account, Credit, Customer, CustomerKey, DistrictKey, Key, Mode, Name, WarehouseKey};
use oe_values::{CustomerNumber, ShortText, Text};
use oe_writes::OneWrite;
use oe_writes::kinds::inserts::InsertHistory;
use oe_writes::kinds::updates::{BadCredit, CustomerAccount, DistrictYtd, WarehouseYtd};

// Why a stage fails: for its own reason, or since another holds the name that it asks for.
#[inline(never)]
fn failure(engine: &Engine, tx: &Tx, name: Name, refusal: &Refusal) -> Refusal
    requires open { IsOpen engine.now tx.now }
    requires failure { is_failure refusal.now ≡ true }
    ensures { FailsUnder tx.now engine.now name refusal.now result }
{
    let lock = Lock {
        name,
        mode: Mode::Exclusive,
    };
    match engine.is_free(tx, lock) {
        Ok(()) => *refusal,
        Err(busy) => busy,
    }
}

// Why the stage of the warehouse fails: that column would leave its range, or, where none is given,
// there is no such row. It stands apart, as do the two after it, so that a stage which is done has
// no room to clear for names and refusals.
#[inline(never)]
fn warehouse_fails(engine: &Engine, tx: &Tx, key: &WarehouseKey, column: Option<Column>) -> Refusal
    requires { IsOpen engine.now tx.now }
    ensures { FailsUnder tx.now engine.now (name_of.Warehouse key.now)
        (failed_by (row_key.Warehouse key.now) column) result }
{
    let cause = match column {
        Some(column) => Refusal::Overflow(column),
        None => Refusal::NoSuchRow(Key::Warehouse(*key)),
    };
    failure(engine, tx, Name::Warehouse(*key), &cause)
}

// The same of the district's stage.
#[inline(never)]
fn district_fails(engine: &Engine, tx: &Tx, key: &DistrictKey, column: Option<Column>) -> Refusal
    requires { IsOpen engine.now tx.now }
    ensures { FailsUnder tx.now engine.now (name_of.District key.now)
        (failed_by (row_key.District key.now) column) result }
{
    let cause = match column {
        Some(column) => Refusal::Overflow(column),
        None => Refusal::NoSuchRow(Key::District(*key)),
    };
    failure(engine, tx, Name::District(*key), &cause)
}

// The same of the customer's stage, where there is a row.
#[inline(never)]
fn customer_fails(engine: &Engine, tx: &Tx, key: &CustomerKey, column: Column) -> Refusal
    requires { IsOpen engine.now tx.now }
    ensures { FailsUnder tx.now engine.now (name_of.Customer key.now) (Overflow column) result }
{
    failure(engine, tx, Name::Customer(*key), &Refusal::Overflow(column))
}

// Writes a row, after which the payment comes to the next stage.
#[inline(always)]
fn go<W: OneWrite>(
    engine: &mut Engine,
    tx: &Tx,
    write: &W,
    stage: &mut Stage,
    next: Stage,
) -> Progress
    requires open { IsOpen engine.old tx.now }
    requires own { IsOwn tx.now.terminal (suc ((view_of engine.old).counts tx.now.terminal))
        (governs (key_written (W.write write.now))) }
    requires beside { HoldsBeside (view_of engine.old).rows
        ((view_of engine.old).held tx.now.terminal) (W.write write.now) }
    ensures does { (q : PaymentRequest) (p p' : PaymentPosition) (c : Change)
        → IsStage q tx.now engine.old p (W.write write.now) c p'
        → Does q tx.now engine.old p result engine.new p' }
    ensures stage { stage.new ≡ stage_after next result stage.old }
{
    match engine.change(tx, write) {
        Ok(()) => {
            *stage = next;
            Progress::More
        }
        Err(refusal) => Progress::Refused(refusal),
    }
}

// W_YTD rises by the amount, and W_NAME is kept.
#[inline(always)]
fn pay_warehouse(
    request: &PaymentRequest,
    stage: &mut Stage,
    warehouse: &mut Text<0, 10>,
    engine: &mut Engine,
    tx: &Tx,
) -> Progress
    requires { IsOpen engine.old tx.now }
    ensures does { Does request.now tx.now engine.old PaymentWarehouse
        result engine.new (PaymentDistrict warehouse.new) }
    ensures stage { stage.new ≡ stage_after Stage.District result stage.old }
{
    let key = &request.district.warehouse_key();
    let Some(row) = engine.tables().warehouse(*key) else {
        return Progress::Refused(warehouse_fails(engine, tx, key, None));
    };
    let ytd = match warehouse_ytd_after(row, request) {
        Ok(ytd) => ytd,
        Err(column) => {
            return Progress::Refused(warehouse_fails(engine, tx, key, Some(column)));
        }
    };
    let name = row.name.copied();
    let write = WarehouseYtd {
        warehouse: *key,
        ytd,
    };
    let done = go(engine, tx, &write, stage, Stage::District);
    *warehouse = name;
    done
}

// The stage behind the district's: a payment by number goes on with its customer.
#[inline(always)]
fn stage_behind(choice: &CustomerChoice) -> Stage
    ensures { result ≡ stage_behind choice.now }
{
    match choice {
        CustomerChoice::Number(_) => Stage::Customer,
        CustomerChoice::LastName(_) => Stage::Names,
    }
}

// The C_ID that is given; where a last name is, the one before.
#[inline(always)]
fn number_given(choice: &CustomerChoice, before: CustomerNumber) -> CustomerNumber
    ensures { result ≡ number_given choice.now before }
{
    match choice {
        CustomerChoice::Number(number) => *number,
        CustomerChoice::LastName(_) => before,
    }
}

// D_YTD rises by the amount, and D_NAME is kept.
#[inline(always)]
fn pay_district(
    request: &PaymentRequest,
    stage: &mut Stage,
    district: &mut Text<0, 10>,
    engine: &mut Engine,
    tx: &Tx,
) -> Progress
    requires { IsOpen engine.old tx.now }
    ensures does { (w : List ℕ)
        → Does request.now tx.now engine.old (PaymentDistrict w)
        result engine.new (behind_district request.now.customer w district.new) }
    ensures stage { stage.new
        ≡ stage_after (stage_behind request.now.customer) result stage.old }
{
    let key = &request.district;
    let Some(row) = engine.tables().district(*key) else {
        return Progress::Refused(district_fails(engine, tx, key, None));
    };
    let ytd = match district_ytd_after(row, request) {
        Ok(ytd) => ytd,
        Err(column) => {
            return Progress::Refused(district_fails(engine, tx, key, Some(column)));
        }
    };
    let name = row.name.copied();
    let write = DistrictYtd {
        district: *key,
        ytd,
    };
    let done = go(engine, tx, &write, stage, stage_behind(&request.customer));
    *district = name;
    done
}

// Who has the last name is held beside others from here on, and the customer in the middle is
// found, so that `Busy` comes before `NoCustomer`.
#[inline(always)]
fn find_customer(
    request: &PaymentRequest,
    stage: &mut Stage,
    number: &mut CustomerNumber,
    engine: &mut Engine,
    tx: &Tx,
) -> Progress
    requires { IsOpen engine.old tx.now }
    ensures does { (warehouse district : List ℕ)
        → Does request.now tx.now engine.old (PaymentNames warehouse district)
        result engine.new (PaymentCustomer warehouse district number.new) }
    ensures stage { stage.new ≡ stage_after Stage.Customer result stage.old }
{
    let last = match &request.customer {
        CustomerChoice::Number(_) => return Progress::Refused(Refusal::NoCustomer),
        CustomerChoice::LastName(last) => last.as_text(),
    };
    let district = &request.customer_district;
    let lock = Lock::shared(Name::Names(*district, ShortText::of(&last)));
    let Some(found) = engine.tables().middle(district, &last) else {
        return Progress::Refused(failed(engine, tx, lock, Refusal::NoCustomer));
    };
    match hold(engine, tx, lock) {
        Ok(()) => {
            *number = found;
            *stage = Stage::Customer;
            Progress::More
        }
        Err(why) => Progress::Refused(why),
    }
}

// What is answered of the customer with that number before the payment, and the account after it.
#[inline(always)]
fn keep_reply(reply: &mut PaymentReply, number: CustomerNumber, row: &Customer, account: &Account)
    ensures { reply.new ≡ paid_reply number (record row.now { account = account.now }) }
{
    reply.customer = number;
    reply.last = row.name.last.copied();
    reply.credit = row.credit;
    reply.balance = account.balance;
}

// Writes the account of a customer of bad credit, and the entry in front of C_DATA. It stands apart
// as one customer in ten has bad credit.
#[inline(never)]
fn pay_bad_credit(
    request: &PaymentRequest,
    number: CustomerNumber,
    account: &Account,
    stage: &mut Stage,
    engine: &mut Engine,
    tx: &Tx,
) -> Progress
    requires open { IsOpen engine.old tx.now }
    ensures does { (p p' : PaymentPosition) (c : Change)
        → IsStage request.now tx.now engine.old p
        (write_of.BadCredit (customer_in request.now.customer_district number) account.now
        (credit_entry (credit_ids number request.now) request.now.amount)) c p'
        → Does request.now tx.now engine.old p result engine.new p' }
    ensures stage { stage.new ≡ stage_after Stage.History result stage.old }
{
    let write = BadCredit {
        customer: request.customer_district.customer(number),
        account: *account,
        entry: bad_credit_entry(number, request),
    };
    go(engine, tx, &write, stage, Stage::History)
}

// C_BALANCE falls and C_YTD_PAYMENT rises by the amount, C_PAYMENT_CNT rises by 1, and a bad
// credit's C_DATA begins with the payment. The customer is looked up before its name is taken, so
// that `NoCustomer` comes before `Busy`.
#[inline(always)]
fn pay_customer(
    request: &PaymentRequest,
    stage: &mut Stage,
    reply: &mut PaymentReply,
    engine: &mut Engine,
    tx: &Tx,
) -> Progress
    requires { IsOpen engine.old tx.now }
    ensures does { (warehouse district : List ℕ)
        → Does request.now tx.now engine.old
        (PaymentCustomer warehouse district reply.old.customer)
        result engine.new (PaymentHistory (history_data warehouse district) reply.new) }
    ensures stage { stage.new ≡ stage_after Stage.History result stage.old }
    ensures customer { reply.new.customer ≡ reply.old.customer }
{
    let number = reply.customer;
    let key = &request.customer_district.customer(number);
    let Some(row) = engine.tables().customer(*key) else {
        return Progress::Refused(Refusal::NoCustomer);
    };
    let account = match account_after(row, request) {
        Ok(account) => account,
        Err(column) => return Progress::Refused(customer_fails(engine, tx, key, column)),
    };
    keep_reply(reply, number, row, &account);
    match row.credit {
        Credit::Good => {
            let write = CustomerAccount {
                customer: *key,
                account,
            };
            go(engine, tx, &write, stage, Stage::History)
        }
        Credit::Bad => pay_bad_credit(request, number, &account, stage, engine, tx),
    }
}

// The payment's HISTORY row.
#[inline(always)]
fn note(request: &PaymentRequest, position: &mut Position, engine: &mut Engine, tx: &Tx) -> Progress
    requires { IsOpen engine.old tx.now }
    ensures does { Does request.now tx.now engine.old (PaymentHistory
        (history_data position.old.warehouse position.old.district) position.old.reply)
        result engine.new (PaymentEnd position.old.reply) }
    ensures stage { position.new
        ≡ record position.old { stage = stage_after Stage.End result position.old.stage } }
{
    let key = history_key(tx.terminal(), engine.number(tx));
    let joined = history_data(&position.warehouse, &position.district);
    let row = history_row(position.reply.customer, &joined, request);
    let write = InsertHistory { history: key, row };
    go(engine, tx, &write, &mut position.stage, Stage::End)
}

/// Carries out the stage at a position, after which the payment stands at the one after it; at the
/// end it is ready. A refused stage leaves the payment where it stood, and the engine standing for
/// what it did.
#[inline(always)]
pub fn carry_out(
    request: &PaymentRequest,
    position: &mut Position,
    engine: &mut Engine,
    tx: &Tx,
) -> Progress
    requires { IsOpen engine.old tx.now }
    ensures { Progresses (Request.Payment request.now) tx.now
        engine.old (InPayment request.now (position_in position.old))
        result engine.new (InPayment request.now (position_in position.new)) }
{
    match position.stage {
        Stage::Warehouse => {
            let name = &mut position.warehouse;
            pay_warehouse(request, &mut position.stage, name, engine, tx)
        }
        Stage::District => {
            let name = &mut position.district;
            let done = pay_district(request, &mut position.stage, name, engine, tx);
            let customer = number_given(&request.customer, position.reply.customer);
            position.reply.customer = customer;
            done
        }
        Stage::Names => {
            let number = &mut position.reply.customer;
            find_customer(request, &mut position.stage, number, engine, tx)
        }
        Stage::Customer => {
            let reply = &mut position.reply;
            pay_customer(request, &mut position.stage, reply, engine, tx)
        }
        Stage::History => note(request, position, engine, tx),
        Stage::End => Progress::Ready,
    }
}
