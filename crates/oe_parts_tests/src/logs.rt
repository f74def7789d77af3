//! A log of two extents that is filled, and filled again around its end: at which addresses records
//! come to stand.
use crate::made::{queue_entry, warehouse};
use crate::opened::request;
use oe_layout::{LentRecord, LinkedRecord, Previous};
use oe_log::{Log, Segment};
use oe_requests::{DistrictDelivery, Reply};
use oe_rows::Layout;
use oe_values::numbers::{Number, Terminal};
use std::snapshot::Snapshot;

/// Where a record stands: its extent's number, and its offset there. None where it was refused,
/// since the log is full.
type Place = Option<[u32; 2]>;

/// Opens a segment of a terminal that has none open.
fn begin(log: &mut Log, terminal: Terminal) -> Option<()> {
    if log.is_open(terminal) || log.count(terminal) > 100 {
        return None;
    }
    if log.open_segment(terminal).is_err() {
        return None;
    }
    Some(())
}

/// Pushes a record of the log's layout, where the terminal has a segment open, and answers its
/// place.
fn push(log: &mut Log, terminal: Terminal, record: &LinkedRecord<'_>) -> Place {
    if !log.is_open(terminal) || !record.record.is_of(log.layout()) {
        return None;
    }
    match log.push(Segment::of(terminal), record) {
        Ok(address) => Some([address.extent.get(), address.offset.get()]),
        Err(_) => None,
    }
}

/// Pushes a record a number of times, and answers where the last one stands.
fn push_times(log: &mut Log, terminal: Terminal, record: &LinkedRecord<'_>, times: u32) -> Place {
    let mut last = None;
    for _ in 0..times {
        last = push(log, terminal, record);
    }
    last
}

/// Pushes 23 updates of the warehouse and 92 deletes, which of 4,096 bytes leave 25, into which one
/// delete more fits exactly. Then the first terminal's extent is full, and the second's has room.
fn filled(log: &mut Log, first: Terminal, second: Terminal) -> Option<[Place; 6]> {
    begin(log, first)?;
    begin(log, second)?;
    let (key, row) = warehouse(100_000)?;
    let update = LinkedRecord {
        previous: Previous::Nothing,
        record: LentRecord::UpdatedWarehouse(key, &row),
    };
    let delete = LinkedRecord {
        previous: Previous::Nothing,
        record: LentRecord::DeletedNewOrder(queue_entry()?),
    };
    Some([
        push_times(log, first, &update, 23),
        push_times(log, first, &delete, 92),
        push(log, first, &delete),
        push(log, second, &delete),
        push(log, first, &delete),
        push(log, second, &delete),
    ])
}

/// Commits a terminal's segment, and opens another.
fn seal(log: &mut Log, terminal: Terminal) -> Option<()> {
    if !log.is_open(terminal) {
        return None;
    }
    let request = request()?;
    let reply = Reply::Delivery(DistrictDelivery::Skipped);
    let _moment = log.seal(
        Segment::of(terminal),
        Snapshot::of(&request),
        Snapshot::of(&reply),
    );
    begin(log, terminal)
}

/// Commits both. The first terminal's commit is given up, so that its extent alone is free; then
/// the second's.
fn filled_again(log: &mut Log, first: Terminal, second: Terminal) -> Option<[Place; 5]> {
    let delete = LinkedRecord {
        previous: Previous::Nothing,
        record: LentRecord::DeletedNewOrder(queue_entry()?),
    };
    seal(log, first)?;
    seal(log, second)?;
    let full = push(log, first, &delete);
    let _first = log.drop_oldest();
    let around = push(log, second, &delete);
    let behind = push(log, second, &delete);
    let none_free = push(log, first, &delete);
    let _second = log.drop_oldest();
    Some([full, around, behind, none_free, push(log, first, &delete)])
}

#[test]
fn records_fill_extents_and_go_around(rt: HostRuntime) {
    let extents = Number::new(2).expect(&rt, "extents");
    let Ok(mut log) = Log::new(rt.alloc(), extents, Layout::WholeRows) else {
        panic!(rt; "no log")
    };
    let first = Terminal::new(1).expect(&rt, "a terminal");
    let second = Terminal::new(64).expect(&rt, "a terminal");
    let at = filled(&mut log, first, second);
    let again = filled_again(&mut log, first, second);
    drop(log);
    let is_full = [
        Some([0, 1_694]),
        Some([0, 4_046]),
        Some([0, 4_071]),
        Some([1, 0]),
        None,
        Some([1, 25]),
    ];
    let is_around = [None, Some([0, 0]), Some([0, 25]), None, Some([1, 0])];
    assert!(rt; at == Some(is_full));
    assert!(rt; again == Some(is_around));
}
