//! Drives in which terminal 1 gives its transaction up, while the others hold what it wants.

use crate::asks::Ask;
use crate::drives::driven_at;
use oe_drive::{Deeds, Gate};
use oe_values::Terminal;
use std::alloc::Global;
use std::process::Abort;
use std::sync::Wait;
use std::sync::atomic::{AtomicBool, AtomicU64, Ordering};
use std::thread;
use std::thread::Threads;

/// How often a terminal asks whether it may go on. A drive in which one never may ends all the same.
const TURNS: u32 = 20_000_000;

/// Holds terminal 1's first call until the others have come to a call, and them there until its
/// errand is done. It keeps the number of terminal 1's last call.
#[derive(Drop)]
struct HoldingGate {
    others: u64,
    held_call: u64,
    arrived: AtomicU64,
    last_call: AtomicU64,
    is_done: AtomicBool,
}

impl HoldingGate {
    fn new(others: u64, held_call: u64) -> HoldingGate {
        HoldingGate {
            others,
            held_call,
            arrived: AtomicU64::new(0),
            last_call: AtomicU64::new(0),
            is_done: AtomicBool::new(false),
        }
    }

    fn wait_for_others(&self) {
        for _ in 0..TURNS {
            if self.arrived.load(Ordering::SeqCst) == self.others {
                return;
            }
            thread::yield_now();
        }
    }

    fn wait_for_first(&self) {
        for _ in 0..TURNS {
            if self.is_done.load(Ordering::SeqCst) {
                return;
            }
            thread::yield_now();
        }
    }
}

impl Gate for HoldingGate {
    fn before(&self, terminal: Terminal, call: u64) {
        if terminal.get() == 1 {
            if call == 1 {
                self.wait_for_others();
            }
        } else if call == self.held_call {
            self.arrived.fetch_add(1, Ordering::SeqCst);
            self.wait_for_first();
        }
    }

    fn after(&self, terminal: Terminal, call: u64) {
        if terminal.get() == 1 {
            self.last_call.store(call, Ordering::SeqCst);
        }
    }

    fn done(&self, terminal: Terminal) {
        if terminal.get() == 1 {
            self.is_done.store(true, Ordering::SeqCst);
        }
    }
}

// Drives a terminal for each request: how many calls the first made, and what all did.
fn given_up<H: Threads + Wait + Abort + Sync>(
    rt: &H,
    alloc: Global,
    extents: u32,
    gate: &HoldingGate,
    asks: &[Ask],
) -> (u64, Deeds) {
    let (_counted, deeds) = driven_at(rt, alloc, gate, extents, asks);
    (gate.last_call.load(Ordering::SeqCst), deeds)
}

// Terminal 2 holds the warehouse between two stages of its payment.
#[test]
fn busy_for_the_hundredth_time_a_payment_is_given_up(rt: HostRuntime) {
    let gate = HoldingGate::new(1, 3);
    let asks = [Ask::Payment(0), Ask::Payment(0)];
    let (calls, deeds) = given_up(&rt, rt.alloc(), 64, &gate, &asks);
    assert!(rt; calls == 1 + 100 + 1, "{calls} calls");
    assert!(rt; deeds.busy == 100 && deeds.given_up_busy == 1 && deeds.given_up() == 1);
}

// Terminals 2 and 3 have an extent each, and there are two.
#[test]
fn an_order_is_given_up_once_the_ring_is_full(rt: HostRuntime) {
    let gate = HoldingGate::new(2, 4);
    let asks = [Ask::Order(2), Ask::Order(0), Ask::Order(1)];
    let (calls, deeds) = given_up(&rt, rt.alloc(), 2, &gate, &asks);
    assert!(rt; calls == 1 + 2 + 1, "{calls} calls");
    assert!(rt; deeds.given_up_full == 1);
}
