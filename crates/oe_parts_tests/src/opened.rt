//! An undo log with segments that are opened, pushed to and committed. `None` where a call was
//! refused.
ghost use Rattle.std.specs.Prelude.{IfSome, IsSome};
ghost use Rattle.oe_rows.specs.declared.keys.Key.{Key};
ghost use Rattle.oe_log.specs.Log.{active_at};
ghost use Rattle.oe_undo.specs.Chains.{IsAlone};

use oe_layout::{LentRecord, LinkedRecord, Previous};
use oe_log::Segment;
use oe_requests::{DeliveryRequest, DistrictDelivery, Reply, Request};
use oe_rows::{DistrictKey, Layout, Order, OrderKey};
use oe_undo::Undo;
use oe_values::{ExtentCount, Moment, Number, Stamp, Terminal};
use std::alloc::Global;
use std::snapshot::Snapshot;

/// Makes an undo log on a ring of `extents` extents.
pub(crate) fn undo(alloc: Global, extents: u32) -> Option<Undo> {
    Undo::new(alloc, ExtentCount::new(extents)?, Layout::WholeRows).ok()
}

/// Makes the request of a delivery in district (4, 7).
pub(crate) fn request() -> Option<Request> {
    let district = DistrictKey {
        warehouse: Number::new(4)?,
        district: Number::new(7)?,
    };
    Some(Request::Delivery(DeliveryRequest {
        district,
        carrier: Number::new(9)?,
        stamp: Stamp::from_seconds(3_155_673_601)?,
    }))
}

/// Opens a segment of a terminal that has none open.
pub(crate) fn begin(undo: &mut Undo, terminal: Terminal) -> Option<()> {
    let segments = undo.segments();
    if segments.is_open(terminal) || segments.count(terminal) > 100 {
        return None;
    }
    if undo.open_segment(terminal).is_err() {
        return None;
    }
    Some(())
}

/// Gives a terminal's segment, where it alone has one open.
pub(crate) fn only_segment(undo: &Undo, terminal: Terminal) -> Option<Segment>
    ensures open { IfSome result (λ s. IsSome (active_at undo.now.log s)) }
    ensures alone { IfSome result (λ s. (k : Key) → IsAlone undo.now.log s k) }
{
    let segments = undo.segments();
    if !segments.is_open(terminal) {
        return None;
    }
    if segments.open_count() != 1 {
        return None;
    }
    Some(Segment::of(terminal))
}

/// Pushes an update of an order by a terminal that alone has a segment open, and tells what it was
/// pushed with as what leads to the order's previous record.
pub(crate) fn push_order(
    undo: &mut Undo,
    terminal: Terminal,
    key: &OrderKey,
    row: &Order,
) -> Option<Previous> {
    let segment = only_segment(undo, terminal)?;
    let mut lent = LinkedRecord {
        previous: Previous::Nothing,
        record: LentRecord::UpdatedOrder(*key, row),
    };
    if !lent.record.is_of(undo.segments().layout()) {
        return None;
    }
    undo.push(segment, &mut lent).ok()?;
    Some(lent.previous)
}

fn seal(undo: &mut Undo, terminal: Terminal, request: &Request, reply: &Reply) -> Option<Moment> {
    if !undo.segments().is_open(terminal) {
        return None;
    }
    Some(undo.seal(
        Segment::of(terminal),
        Snapshot::of(request),
        Snapshot::of(reply),
    ))
}

/// Commits what a terminal has open, and answers the moment.
pub(crate) fn commit(undo: &mut Undo, terminal: Terminal) -> Option<Moment> {
    let request = request()?;
    let reply = Reply::Delivery(DistrictDelivery::Skipped);
    seal(undo, terminal, &request, &reply)
}
