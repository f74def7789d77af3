//! The lines of answers and of refusals that no script gets, with each kind of key.
use crate::made::{district_key, stock_key};
use oe_requests::{
    Answer, DeliveredOrder, DistrictDelivery, QueryReply, Refusal, RenameReply, Reply, StatusReply,
};
use oe_rows::{HistoryKey, Key, Name};
use oe_texts::{Pending, answer, has_room, refused};
use oe_values::{Balance, Cents, FirstName, LastName, Lines, Moment, Number};

/// Makes the reply to deliveries of the second and the tenth district, of ten, where nothing waits
/// in the others.
fn ten_deliveries() -> Option<Reply> {
    let delivered = DistrictDelivery::Delivered(DeliveredOrder {
        order: Number::new(8)?,
        customer: Number::new(9)?,
        sum: Cents::new(12_922),
    });
    let mut ten = [DistrictDelivery::Skipped; 10];
    ten[1] = delivered;
    ten[9] = delivered;
    Some(Reply::Deliveries(Lines::read(&ten)?))
}

fn renaming() -> Option<Reply> {
    Some(Reply::Rename(RenameReply {
        customer: Number::new(10)?,
        last: LastName::read("BARBAROUGHT")?,
        first: FirstName::read("A1")?,
    }))
}

fn no_order() -> Option<QueryReply> {
    Some(QueryReply::Status(StatusReply {
        customer: Number::new(6)?,
        balance: Balance::new(0)?,
        order: None,
    }))
}

/// Appends the line of an answer, where it has room.
fn tell(out: &mut Pending, given: &Answer) {
    if has_room(out) {
        answer(out, given);
    }
}

/// Appends the line of a commit.
fn tell_commit(out: &mut Pending, moment: u64, reply: Option<Reply>) -> Option<()> {
    tell(out, &Answer::Committed(Moment::new(moment)?, reply?));
    Some(())
}

/// Appends four answers, the last at a moment that no script comes to.
fn tell_answers(out: &mut Pending) -> Option<()> {
    tell_commit(out, 4, ten_deliveries())?;
    tell_commit(out, 5, renaming())?;
    tell(out, &Answer::Replied(no_order()?));
    tell(out, &Answer::Purged(Moment::new(999_999_999_999)?));
    Some(())
}

const ANSWERS: &[u8] =
    b"commit 4 deliveries 1:skipped 2:8:9:129.22 3:skipped 4:skipped 5:skipped 6:skipped 7:skipped 8:skipped 9:skipped 10:8:9:129.22\ncommit 5 rename 10 BARBAROUGHT A1\nstatus 6 0.00 no order\npurged 999999999999\n";

#[test]
fn answers_that_no_script_gets(rt: HostRuntime) {
    let mut out = Pending::new();
    let are_told = tell_answers(&mut out).is_some();
    assert!(rt; are_told && out.as_slice() == ANSWERS);
}

/// Makes refusals that name keys, one of each kind but a warehouse's, and three others.
fn refusals() -> Option<[Refusal; 11]> {
    let history = HistoryKey {
        terminal: Number::new(64)?,
        number: Number::new(4_294_967_295)?,
        ordinal: Number::new(1)?,
    };
    let stock = stock_key(16, 20)?;
    let terminal = Number::new(64)?;
    let district = district_key(16, 3)?;
    let customer = district.customer(Number::new(3_000)?);
    let order = district.order(Number::new(8)?);
    let line = order.line(Number::new(15)?);
    Some([
        Refusal::NoSuchRow(Key::District(district)),
        Refusal::NoSuchRow(Key::Customer(customer)),
        Refusal::RowExists(Key::History(history)),
        Refusal::RowExists(Key::NewOrder(order.new_order_key())),
        Refusal::RowExists(Key::OrderLine(line)),
        Refusal::Reference(Key::Order(order)),
        Refusal::Reference(Key::Item(stock.item_key())),
        Refusal::Reference(Key::Stock(stock)),
        Refusal::KeyColumn,
        Refusal::Busy(Name::Order(order), terminal),
        Refusal::NotPinned(8),
    ])
}

/// Appends the line of each refusal that has room.
fn tell_refusals(out: &mut Pending, refusals: &[Refusal]) {
    for refusal in refusals {
        if has_room(out) {
            refused(out, refusal);
        }
    }
}

const REFUSALS: &[u8] =
    b"error 2 NoSuchRow district 16 3\nerror 2 NoSuchRow customer 16 3 3000\nerror 3 RowExists history 64 4294967295 1\nerror 3 RowExists neworder 16 3 8\nerror 3 RowExists orderline 16 3 8 15\nerror 5 Reference order 16 3 8\nerror 5 Reference item 20\nerror 5 Reference stock 16 20\nerror 6 KeyColumn\nerror 7 Busy Order(16,3,8) 64\nerror 17 NotPinned 8\n";

#[test]
fn refusals_that_no_script_gets(rt: HostRuntime) {
    let Some(refusals) = refusals() else {
        panic!(rt; "a number out of its range");
    };
    let mut out = Pending::new();
    tell_refusals(&mut out, &refusals);
    assert!(rt; out.as_slice() == REFUSALS);
}
