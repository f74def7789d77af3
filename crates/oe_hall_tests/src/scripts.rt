//! The scripts: each move says which desk is asked, whose hand holds what it is asked with, what it
//! is asked for, and what it is told.

use crate::asks::{Ask, Look, Place};
use crate::moves::{Act, Move, Told};
use crate::shows::Show;
use oe_rows::Layout;

/// Where the scripts are, and another place, whose orders are supplied from elsewhere, and whose undo
/// records have the other layout.
pub(crate) const PLACES: [Place; 2] = [
    Place {
        warehouse: 1,
        district: 1,
        customer: 1,
        supply: 1,
        quantity: 1,
        layout: Layout::WholeRows,
    },
    Place {
        warehouse: 2,
        district: 7,
        customer: 4,
        supply: 1,
        quantity: 8,
        layout: Layout::ChangedColumns,
    },
];

/// A delivery holds up another of its district, which delivers the order once it was rolled back.
const DELIVERIES: [Move; 8] = [
    Move(0, 0, Act::Begin(Ask::Delivery(3)), Told::Done),
    Move(0, 0, Act::Advance, Told::More),
    Move(1, 1, Act::Begin(Ask::Delivery(4)), Told::Done),
    Move(1, 1, Act::Advance, Told::Kept(7)),
    Move(0, 0, Act::End, Told::Done),
    Move(1, 1, Act::CarryOut, Told::Moment(1)),
    Move(1, 1, Act::Tell(1), Told::Done),
    Move(2, 2, Act::Purge(1), Told::Moment(1)),
];

/// The same of deliveries in ten districts.
const TEN_DELIVERIES: [Move; 8] = [
    Move(1, 1, Act::Begin(Ask::Deliveries(5)), Told::Done),
    Move(1, 1, Act::Advance, Told::More),
    Move(2, 2, Act::Begin(Ask::Deliveries(6)), Told::Done),
    Move(2, 2, Act::Advance, Told::Kept(7)),
    Move(1, 1, Act::End, Told::Done),
    Move(2, 2, Act::CarryOut, Told::Moment(1)),
    Move(2, 2, Act::Tell(1), Told::Done),
    Move(0, 0, Act::Purge(1), Told::Moment(1)),
];

/// An order of an unused item is rolled back. Another commits, a third of its district is open, with
/// its ORDER row there, and the customer of both is read at the moments before and after the second.
const ORDERS: [Move; 20] = [
    Move(0, 0, Act::Pin, Told::Moment(0)),
    Move(2, 2, Act::Begin(Ask::Unused), Told::Done),
    Move(2, 2, Act::CarryOut, Told::RolledBack(12)),
    Move(2, 2, Act::Begin(Ask::Order(0)), Told::Done),
    Move(2, 2, Act::CarryOut, Told::Moment(1)),
    Move(2, 2, Act::Tell(1), Told::Done),
    Move(1, 1, Act::Newest, Told::Moment(1)),
    Move(1, 1, Act::Begin(Ask::Order(0)), Told::Done),
    Move(1, 1, Act::Advance, Told::More),
    Move(1, 1, Act::Advance, Told::More),
    Move(1, 1, Act::Advance, Told::More),
    Move(1, 1, Act::Advance, Told::More),
    Move(1, 1, Act::Pin, Told::Moment(1)),
    Move(0, 0, Act::Read(Look::Status), Told::Done),
    Move(1, 1, Act::Read(Look::Status), Told::Done),
    Move(0, 0, Act::Read(Look::Level), Told::Done),
    Move(0, 0, Act::Unpin, Told::Done),
    Move(1, 1, Act::Unpin, Told::Done),
    Move(0, 0, Act::Purge(1), Told::Moment(1)),
    Move(1, 1, Act::End, Told::Done),
];

/// Orders in three districts, where the undo ring has two extents: the third goes on once the first
/// was rolled back.
const FULL_RING: [Move; 14] = [
    Move(0, 0, Act::Begin(Ask::Order(0)), Told::Done),
    Move(1, 1, Act::Begin(Ask::Order(1)), Told::Done),
    Move(2, 2, Act::Begin(Ask::Order(2)), Told::Done),
    Move(0, 0, Act::Advance, Told::More),
    Move(0, 0, Act::Advance, Told::More),
    Move(1, 1, Act::Advance, Told::More),
    Move(1, 1, Act::Advance, Told::More),
    Move(2, 2, Act::Advance, Told::More),
    Move(2, 2, Act::Advance, Told::Kept(8)),
    Move(0, 0, Act::End, Told::Done),
    Move(2, 2, Act::Advance, Told::More),
    Move(0, 0, Act::Purge(0), Told::Moment(0)),
    Move(1, 1, Act::End, Told::Done),
    Move(2, 2, Act::End, Told::Done),
];

/// A payment holds up another in its warehouse, and both commit. A desk that told no moment, and
/// loaded none before, pins the newest.
const PAYMENTS: [Move; 12] = [
    Move(2, 2, Act::Begin(Ask::Payment(0)), Told::Done),
    Move(2, 2, Act::Advance, Told::More),
    Move(1, 1, Act::Begin(Ask::Payment(2)), Told::Done),
    Move(1, 1, Act::Advance, Told::Kept(7)),
    Move(2, 2, Act::CarryOut, Told::Moment(1)),
    Move(2, 2, Act::Tell(1), Told::Done),
    Move(1, 1, Act::CarryOut, Told::Moment(2)),
    Move(1, 1, Act::Tell(2), Told::Done),
    Move(0, 0, Act::Pin, Told::Moment(2)),
    Move(0, 0, Act::Read(Look::Status), Told::Done),
    Move(0, 0, Act::Unpin, Told::Done),
    Move(0, 0, Act::Purge(2), Told::Moment(2)),
];

/// The worked scripts, each with a purge at the newest moment and no pin out.
pub(crate) const WORKED: [Show; 5] = [
    Show {
        extents: 64,
        terminals: [1, 2, 3],
        moves: &DELIVERIES,
        open: 0,
        rest: &[],
        begun: 2,
        committed: 1,
        rolled_back: 1,
    },
    Show {
        extents: 64,
        terminals: [62, 61, 60],
        moves: &TEN_DELIVERIES,
        open: 0,
        rest: &[],
        begun: 2,
        committed: 1,
        rolled_back: 1,
    },
    Show {
        extents: 64,
        terminals: [61, 5, 63],
        moves: &ORDERS,
        open: 0,
        rest: &[],
        begun: 3,
        committed: 1,
        rolled_back: 2,
    },
    Show {
        extents: 2,
        terminals: [64, 9, 8],
        moves: &FULL_RING,
        open: 0,
        rest: &[],
        begun: 3,
        committed: 0,
        rolled_back: 3,
    },
    Show {
        extents: 64,
        terminals: [10, 33, 32],
        moves: &PAYMENTS,
        open: 0,
        rest: &[],
        begun: 2,
        committed: 2,
        rolled_back: 0,
    },
];

const HANDED_OVER: [Move; 27] = [
    Move(0, 0, Act::Pin, Told::Moment(0)),
    Move(0, 0, Act::Begin(Ask::Payment(0)), Told::Done),
    Move(0, 0, Act::Advance, Told::More),
    Move(0, 0, Act::Advance, Told::More),
    Move(1, 1, Act::Begin(Ask::PaymentAway), Told::Done),
    Move(1, 1, Act::CarryOut, Told::Moment(1)),
    Move(1, 1, Act::Tell(1), Told::Done),
    Move(1, 1, Act::Begin(Ask::PaymentAway), Told::Done),
    Move(1, 1, Act::Pin, Told::Moment(1)),
    Move(1, 0, Act::Advance, Told::Kept(10)),
    Move(1, 0, Act::End, Told::Refused(10)),
    Move(1, 0, Act::Read(Look::Level), Told::NotPinned(4)),
    Move(1, 0, Act::Unpin, Told::NotPinned(4)),
    Move(0, 1, Act::Advance, Told::Kept(10)),
    Move(0, 1, Act::End, Told::Refused(10)),
    Move(0, 1, Act::Read(Look::Level), Told::NotPinned(2)),
    Move(0, 1, Act::Unpin, Told::NotPinned(2)),
    Move(2, 0, Act::Advance, Told::Kept(10)),
    Move(2, 0, Act::Unpin, Told::NotPinned(0)),
    Move(0, 0, Act::CarryOut, Told::Moment(2)),
    Move(0, 0, Act::Tell(2), Told::Done),
    Move(1, 1, Act::End, Told::Done),
    Move(0, 0, Act::Read(Look::Status), Told::Done),
    Move(1, 1, Act::Read(Look::Status), Told::Done),
    Move(0, 0, Act::Unpin, Told::Done),
    Move(1, 1, Act::Unpin, Told::Done),
    Move(0, 0, Act::Purge(2), Told::Moment(2)),
];

/// Two desks hand each other what is theirs, with pins of moments 0 and 1; a core knows nothing of
/// it.
pub(crate) const STRANGERS: Show = Show {
    extents: 64,
    terminals: [1, 2, 4],
    moves: &HANDED_OVER,
    open: 0,
    rest: &[],
    begun: 3,
    committed: 2,
    rolled_back: 1,
};

const LEFT_HOME: [Move; 2] = [
    Move(2, 2, Act::Begin(Ask::Payment(0)), Told::Done),
    Move(2, 2, Act::Pin, Told::Moment(0)),
];

const CAME_HOME: [Move; 4] = [
    Move(2, 2, Act::Advance, Told::More),
    Move(2, 2, Act::End, Told::Done),
    Move(2, 2, Act::Read(Look::Level), Told::Done),
    Move(2, 2, Act::Unpin, Told::Done),
];

/// What terminal 63 holds goes to another shop, and ends at its own.
pub(crate) const HOME: Show = Show {
    extents: 64,
    terminals: [1, 2, 63],
    moves: &LEFT_HOME,
    open: 1,
    rest: &CAME_HOME,
    begun: 1,
    committed: 0,
    rolled_back: 1,
};

const FROM_HOME: [Move; 10] = [
    Move(0, 0, Act::Begin(Ask::Payment(0)), Told::Done),
    Move(0, 0, Act::Pin, Told::Moment(0)),
    Move(0, 2, Act::Advance, Told::Kept(10)),
    Move(0, 2, Act::End, Told::Refused(10)),
    Move(0, 2, Act::Read(Look::Level), Told::NotPinned(2)),
    Move(0, 2, Act::Unpin, Told::NotPinned(2)),
    Move(0, 0, Act::Advance, Told::More),
    Move(0, 0, Act::End, Told::Done),
    Move(0, 0, Act::Read(Look::Level), Told::Done),
    Move(0, 0, Act::Unpin, Told::Done),
];

/// The desk of terminal 63 in the other shop has a pin of the same moment. Its shop counts what its
/// own desk did, and nothing else.
pub(crate) const AWAY: Show = Show {
    extents: 64,
    terminals: [63, 62, 61],
    moves: &FROM_HOME,
    open: 0,
    rest: &[],
    begun: 1,
    committed: 0,
    rolled_back: 1,
};

const PURGED: [Move; 28] = [
    Move(0, 0, Act::Begin(Ask::Payment(0)), Told::Done),
    Move(0, 0, Act::CarryOut, Told::Moment(1)),
    Move(0, 0, Act::Begin(Ask::Payment(0)), Told::Done),
    Move(0, 0, Act::CarryOut, Told::Moment(2)),
    Move(0, 0, Act::Begin(Ask::Payment(0)), Told::Done),
    Move(0, 0, Act::CarryOut, Told::Moment(3)),
    Move(0, 0, Act::Tell(3), Told::Done),
    Move(1, 1, Act::Begin(Ask::PaymentAway), Told::Done),
    Move(1, 1, Act::CarryOut, Told::Moment(4)),
    Move(1, 1, Act::Begin(Ask::PaymentAway), Told::Done),
    Move(1, 1, Act::CarryOut, Told::Moment(5)),
    Move(0, 0, Act::Pin, Told::Moment(3)),
    Move(2, 2, Act::Purge(5), Told::Moment(3)),
    Move(0, 0, Act::Read(Look::Level), Told::Done),
    Move(2, 2, Act::Purge(5), Told::Moment(3)),
    Move(0, 0, Act::Read(Look::Status), Told::Done),
    Move(0, 0, Act::Unpin, Told::Done),
    Move(2, 2, Act::Purge(5), Told::Moment(5)),
    Move(1, 1, Act::Newest, Told::Moment(3)),
    Move(1, 1, Act::Pin, Told::TooOld(5)),
    Move(2, 2, Act::Purge(4), Told::Moment(5)),
    Move(1, 1, Act::Tell(5), Told::Done),
    Move(1, 1, Act::Pin, Told::Moment(5)),
    Move(1, 1, Act::Read(Look::Level), Told::Done),
    Move(2, 2, Act::Purge(5), Told::Moment(5)),
    Move(1, 1, Act::Read(Look::Status), Told::Done),
    Move(1, 1, Act::Unpin, Told::Done),
    Move(0, 0, Act::Newest, Told::Moment(5)),
];

/// Five payments, of which three are told, and purges at 5 beside a pin of 3, behind it, and beside
/// a pin at the horizon. A desk that knows of no later moment than 3 can't pin behind the purge.
pub(crate) const PURGES: Show = Show {
    extents: 64,
    terminals: [1, 64, 30],
    moves: &PURGED,
    open: 0,
    rest: &[],
    begun: 5,
    committed: 5,
    rolled_back: 0,
};

const WAITED: [Move; 11] = [
    Move(0, 0, Act::Begin(Ask::Payment(0)), Told::Done),
    Move(1, 1, Act::Begin(Ask::Payment(0)), Told::Done),
    Move(0, 0, Act::Advance, Told::More),
    Move(0, 0, Act::Advance, Told::More),
    Move(1, 1, Act::Advance, Told::Kept(7)),
    Move(0, 0, Act::End, Told::Done),
    Move(1, 1, Act::Advance, Told::More),
    Move(1, 1, Act::Advance, Told::More),
    Move(1, 1, Act::Advance, Told::More),
    Move(1, 1, Act::Advance, Told::More),
    Move(1, 1, Act::Advance, Told::Moment(1)),
];

/// Two payments in one warehouse: the second is kept until the first has ended.
pub(crate) const WAITS: Show = Show {
    extents: 4_096,
    terminals: [1, 2, 3],
    moves: &WAITED,
    open: 0,
    rest: &[],
    begun: 2,
    committed: 1,
    rolled_back: 1,
};

const BEGUN: [Move; 1] = [Move(0, 0, Act::Begin(Ask::Payment(0)), Told::Done)];

const ROLLED_BACK: [Move; 1] = [Move(0, 0, Act::End, Told::Done)];

/// A payment is open when the shop is asked to close.
pub(crate) const STAYS_OPEN: Show = Show {
    extents: 4_096,
    terminals: [1, 2, 3],
    moves: &BEGUN,
    open: 1,
    rest: &ROLLED_BACK,
    begun: 1,
    committed: 0,
    rolled_back: 1,
};

const ORDERED: [Move; 2] = [
    Move(2, 2, Act::Begin(Ask::Order(2)), Told::Done),
    Move(2, 2, Act::CarryOut, Told::Moment(1)),
];

/// An order at the desk of terminal 64.
pub(crate) const AN_ORDER: Show = Show {
    extents: 64,
    terminals: [1, 2, 64],
    moves: &ORDERED,
    open: 0,
    rest: &[],
    begun: 1,
    committed: 1,
    rolled_back: 0,
};
