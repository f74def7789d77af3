//! Drives in which each terminal carries out one request, or leaves a delivery to the worker.
ghost use Rattle.std.specs.Prelude.{◌≡◌};
ghost use Rattle.oe_theory.specs.Theorems.{world_at_opening};
ghost use Rattle.oe_model.specs.Conditions.{IsPopulation};
ghost use Rattle.oe_model.specs.System.{system};
ghost use Rattle.oe_store.specs.Places.{rows};
ghost use Rattle.oe_hall.specs.Naming.{names_at_opening};

use crate::asks::{Ask, request};
use crate::scripts::PLACES;
use crate::shows::{extents as extents_of, opened, populated, seats};
use oe_core::Core;
use oe_core::crossing::core_crosses;
use oe_drive::{Ajar, Deeds, Driven, Gate, Plan, drive};
use oe_hall::{Counted, Naming, Seats};
use oe_machine::Machine;
use oe_requests::{Errand, Request};
use oe_store::Tables;
use oe_values::ExtentCount;
use std::alloc::Global;
use std::marker::Brand;
use std::process::Abort;
use std::sync::Wait;
use std::thread::Threads;

// Makes a plan of one request, which is left in the queue where it is the delivery of a warehouse.
fn plan(rt: &impl Abort, alloc: Global, ask: Ask) -> Plan {
    let mut errands = Vec::new(alloc);
    let errand = match request(rt, &PLACES[0], ask) {
        Request::Deliveries(deliveries) => Errand::Deliver(deliveries),
        other => Errand::Begin(other),
    };
    if errands.push(errand).is_err() {
        panic!(rt; "no memory");
    }
    Plan { errands }
}

// Makes a plan of each request.
fn plans(rt: &impl Abort, alloc: Global, asks: &[Ask]) -> Vec<Plan> {
    let mut plans = Vec::new(alloc);
    for ask in asks {
        if plans.push(plan(rt, alloc, *ask)).is_err() {
            panic!(rt; "no memory");
        }
    }
    plans
}

// Drives terminals in a shop.
fn driven<
    J: Naming + Send + Sync,
    M: Machine + Send,
    H: Threads + Wait + Abort + Sync,
    G: Gate + Sync,
>(
    rt: &H,
    alloc: Global,
    gate: &G,
    tables: Tables,
    seats: Seats,
    extents: ExtentCount,
    asks: &[Ask],
) -> Driven<M>
    requires population { IsPopulation (rows tables) }
    requires names { names_at_opening seats.names
        (world_at_opening system (rows tables) extents seats.names.layout) ≡ J.names }
{
    let (shop, purger) = opened::<J, M>(rt, alloc, tables, seats, extents);
    let plans = plans(rt, alloc, asks);
    if plans.len() < 1 || plans.len() > 63 {
        panic!(rt; "no terminal, or too many");
    }
    match drive(rt, alloc, gate, shop, purger, plans) {
        Ok(driven) => driven,
        Err(_) => panic!(rt; "no memory"),
    }
}

/// Drives a terminal for each request, in a shop over a machine of that type.
pub(crate) fn driven_on<M: Machine + Send, H: Threads + Wait + Abort + Sync, G: Gate + Sync>(
    rt: &H,
    alloc: Global,
    gate: &G,
    extents: u32,
    asks: &[Ask],
) -> Driven<M> {
    let extents = extents_of(rt, extents);
    let seats = seats(rt, alloc, 7, PLACES[0].layout);
    let tables = populated(rt, alloc);
    driven::<Brand, M, H, G>(rt, alloc, gate, tables, seats, extents, asks)
}

/// Drives a terminal for each request, and counts what they did.
pub(crate) fn driven_at<H: Threads + Wait + Abort + Sync, G: Gate + Sync>(
    rt: &H,
    alloc: Global,
    gate: &G,
    extents: u32,
    asks: &[Ask],
) -> (Counted, Deeds) {
    core_crosses();
    let Driven {
        core,
        history: _,
        counted,
        deeds,
    } = driven_on::<Core, H, G>(rt, alloc, gate, extents, asks);
    core.discard();
    (counted, deeds)
}

// Both terminals leave a delivery in the queue, and only the worker begins a transaction.
#[test]
fn the_worker_carries_out_what_is_queued(rt: HostRuntime) {
    let asks = [Ask::Deliveries(3), Ask::Deliveries(7)];
    let (counted, deeds) = driven_at(&rt, rt.alloc(), &Ajar, 4_096, &asks);
    assert!(rt; deeds.deliveries == 2 && counted.begun == 2 && counted.committed == 2);
}
