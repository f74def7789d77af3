//! Drives of two terminals: one waits at the gate until the other was answered.

use crate::asks::Ask;
use crate::drives::driven_at;
use oe_drive::Gate;
use oe_values::Terminal;
use std::alloc::Global;
use std::process::Abort;
use std::sync::Wait;
use std::sync::atomic::{AtomicBool, Ordering};
use std::thread;
use std::thread::Threads;

/// Holds one terminal's first call until the other's was answered, for a million turns at most.
#[derive(Drop)]
struct HeldGate {
    held: u32,
    other: u32,
    is_answered: AtomicBool,
    has_waited: AtomicBool,
}

impl Gate for HeldGate {
    fn before(&self, terminal: Terminal, call: u64) {
        if terminal.get() != self.held || call != 1 {
            return;
        }
        for _ in 0..1_000_000u32 {
            if self.is_answered.load(Ordering::SeqCst) {
                self.has_waited.store(true, Ordering::SeqCst);
                return;
            }
            thread::yield_now();
        }
    }

    fn after(&self, terminal: Terminal, call: u64) {
        if terminal.get() == self.other && call == 1 {
            self.is_answered.store(true, Ordering::SeqCst);
        }
    }
}

// Drives both terminals, and tells whether both committed, the held one behind the other.
fn is_driven<H: Threads + Wait + Abort + Sync>(
    rt: &H,
    alloc: Global,
    held: u32,
    other: u32,
) -> bool {
    let gate = HeldGate {
        held,
        other,
        is_answered: AtomicBool::new(false),
        has_waited: AtomicBool::new(false),
    };
    let asks = [Ask::Payment(0), Ask::PaymentAway];
    let (counted, _deeds) = driven_at(rt, alloc, &gate, 4_096, &asks);
    counted.committed == 2 && gate.has_waited.load(Ordering::SeqCst)
}

#[test]
fn first_call_waits_for_second(rt: HostRuntime) {
    assert!(rt; is_driven(&rt, rt.alloc(), 1, 2));
}

#[test]
fn second_call_waits_for_first(rt: HostRuntime) {
    assert!(rt; is_driven(&rt, rt.alloc(), 2, 1));
}
