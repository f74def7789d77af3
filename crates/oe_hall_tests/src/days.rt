//! A day in a shop, as the head of `oe_hall` tells it: one terminal orders, and another reads beside
//! a purge what was before.
ghost use Rattle.std.specs.Prelude.{◌≡◌, ◌≢◌, ℕ, length, Some, None};
ghost use Rattle.oe_theory.specs.Theorems.{world_at_opening};
ghost use Rattle.oe_model.specs.Conditions.{IsPopulation};
ghost use Rattle.oe_model.specs.System.{system};
ghost use Rattle.oe_store.specs.Places.{rows};
ghost use Rattle.oe_hall.specs.Naming.{names_at_opening};

use crate::asks::{Ask, Look, query, request};
use crate::scripts::PLACES;
use crate::shows::{desk, extents, opened, populated, seats};
use oe_core::Core;
use oe_hall::{Closed, Desk, Front, Naming, Purger, Seats, Shop, Turn};
use oe_machine::Machine;
use oe_moments::Pin;
use oe_requests::{Query, QueryReply, Refusal, Request};
use oe_store::Tables;
use oe_values::{ExtentCount, Moment};
use std::alloc::Global;
use std::marker::Brand;
use std::process::Abort;
use std::sync::Wait;

// What a day showed: the horizon of a purge beside a pin, whether the read at the pin found the
// moment's state, the horizon of a purge behind it, and how many transactions were told.
#[derive(Clone, Copy)]
struct Seen {
    beside: u64,
    found: bool,
    behind: u64,
    begun: u64,
}

// Carries a request out, and gives the moment that it made.
fn carried_out<J: Naming, M: Machine, H: Wait + Abort>(
    rt: &H,
    front: &Front<J, M>,
    desk: &mut Desk<J>,
    request: &Request,
) -> Moment {
    let Ok(begun) = desk.begin(rt, front, request) else {
        panic!(rt; "a begin is refused")
    };
    let mut open = begun;
    for _ in rt.forever() {
        match desk.advance(rt, front, open) {
            Turn::More(next) => open = next,
            Turn::Kept(next, _) => open = next,
            Turn::Committed(moment) => return moment,
            Turn::RolledBack(_) => panic!(rt; "it is rolled back"),
        }
    }
    unreachable!()
}

fn pinned<J: Naming, M: Machine>(rt: &impl Abort, front: &Front<J, M>, desk: &mut Desk<J>) -> Pin {
    if desk.is_pinned() {
        panic!(rt; "a pin is out")
    }
    match desk.pin(front) {
        Ok(pin) => pin,
        Err(_) => panic!(rt; "the newest moment is purged"),
    }
}

fn unpinned<J: Naming, M: Machine>(
    rt: &impl Abort,
    front: &Front<J, M>,
    desk: &mut Desk<J>,
    pin: Pin,
) {
    match desk.unpin(front, pin) {
        Ok(()) => {}
        Err(_) => panic!(rt; "the pin is another desk's"),
    }
}

// Two terminals' day, until the shop is closed.
fn day<J: Naming, M: Machine, H: Wait + Abort>(
    rt: &H,
    alloc: Global,
    mut shop: Shop<J, M>,
    mut purger: Purger<J>,
    order: &Request,
    status: &Query,
) -> Seen
    requires { shop.given ≡ 0 }
{
    let mut teller = desk(rt, &mut shop, 1);
    let mut clerk = desk(rt, &mut shop, 2);
    let Ok(mut desks) = Vec::with_capacity(alloc, 2) else {
        panic!(rt; "no memory")
    };
    let pin = pinned(rt, shop.front(), &mut clerk);
    let made = carried_out(rt, shop.front(), &mut teller, order);
    let beside = purger.purge(rt, shop.front(), made).get();
    let found = clerk.read(rt, shop.front(), &pin, status).is_ok();
    unpinned(rt, shop.front(), &mut clerk, pin);
    let behind = purger.purge(rt, shop.front(), made).get();
    desks.push_reserved(teller);
    desks.push_reserved(clerk);
    match shop.close(desks, purger) {
        Ok(closed) => {
            let Closed {
                core,
                counted,
                history: _,
            } = closed;
            core.discard();
            Seen {
                beside,
                found,
                behind,
                begun: counted.begun,
            }
        }
        Err(_) => panic!(rt; "a transaction is open"),
    }
}

// Opens a shop for a day.
fn opened_for<J: Naming, M: Machine, H: Wait + Abort>(
    rt: &H,
    alloc: Global,
    tables: Tables,
    seats: Seats,
    extents: ExtentCount,
) -> Seen
    requires population { IsPopulation (rows tables) }
    requires names { names_at_opening seats.names
        (world_at_opening system (rows tables) extents seats.names.layout) ≡ J.names }
{
    let at = &PLACES[0];
    let (shop, purger) = opened::<J, M>(rt, alloc, tables, seats, extents);
    let order = request(rt, at, Ask::Order(0));
    let status = query(rt, at, Look::Status);
    day(rt, alloc, shop, purger, &order, &status)
}

#[test]
fn a_day_in_a_shop(rt: HostRuntime) {
    let extents = extents(&rt, 64);
    let seats = seats(&rt, rt.alloc(), 7, PLACES[0].layout);
    let tables = populated(&rt, rt.alloc());
    let seen = opened_for::<Brand, Core, HostRuntime>(&rt, rt.alloc(), tables, seats, extents);
    assert!(rt; seen.beside == 0 && seen.behind == 1 && seen.found && seen.begun == 1);
}
