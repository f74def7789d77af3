//! Shops over a machine that counts: desks and drives answer as over a core, and the counts are
//! those of the calls that came to the hall.

use crate::asks::Ask;
use crate::drives::{driven_at, driven_on};
use crate::scripts;
use crate::shows::shown_alone;
use oe_core::Core;
use oe_core::crossing::core_crosses;
use oe_counted::crossing::counted_crosses;
use oe_counted::{Counted, Counts};
use oe_drive::{Driven, Gate};
use oe_machine::Machine;
use oe_values::Terminal;
use std::alloc::Global;
use std::process::Abort;
use std::sync::Wait;
use std::sync::atomic::{AtomicU64, Ordering};
use std::thread::Threads;

/// Counts the calls of all desks.
#[derive(Drop)]
struct CountingGate {
    calls: AtomicU64,
}

impl CountingGate {
    fn new() -> CountingGate {
        CountingGate {
            calls: AtomicU64::new(0),
        }
    }
}

impl Gate for CountingGate {
    fn before(&self, _terminal: Terminal, _call: u64) {}

    fn after(&self, _terminal: Terminal, _call: u64) {
        self.calls.fetch_add(1, Ordering::SeqCst);
    }
}

/// Two payments in different warehouses, and a delivery that the worker carries out: no transaction
/// waits for another.
const ASKS: [Ask; 3] = [Ask::Payment(0), Ask::PaymentAway, Ask::Deliveries(3)];

/// What a drive over a machine that counts came to.
#[derive(Clone, Copy)]
struct Tallied {
    begun: u64,
    committed: u64,
    given_up: u64,
    calls: u64,
    counts: Counts,
}

// Drives over a machine that counts.
fn counted_drive<H: Threads + Wait + Abort + Sync>(rt: &H, alloc: Global) -> Tallied {
    let gate = CountingGate::new();
    core_crosses();
    counted_crosses::<Core>();
    let Driven {
        core,
        history: _,
        counted,
        deeds,
    } = driven_on::<Counted<Core>, H, CountingGate>(rt, alloc, &gate, 64, &ASKS);
    let counts = *core.counts();
    core.discard();
    Tallied {
        begun: counted.begun,
        committed: counted.committed,
        given_up: deeds.given_up(),
        calls: gate.calls.load(Ordering::SeqCst),
        counts,
    }
}

// Tells whether the counts are those of a drive's calls: each call of its desks is one, and nothing
// else is asked for.
fn are_of_calls(tallied: &Tallied) -> bool {
    let counts = tallied.counts;
    let asked = counts.begins.saturating_add(counts.advances);
    counts.begins == tallied.begun
        && counts.rollbacks == tallied.given_up
        && asked.saturating_add(counts.rollbacks) == tallied.calls
        && counts.saves == 0
        && counts.backs == 0
        && counts.purges == 0
        && counts.rewinds == 0
}

#[test]
fn a_drive_over_a_machine_that_counts(rt: HostRuntime) {
    let tallied = counted_drive(&rt, rt.alloc());
    let (plain, _deeds) = driven_at(&rt, rt.alloc(), &CountingGate::new(), 64, &ASKS);
    assert!(rt; tallied.begun == plain.begun && tallied.committed == plain.committed);
    assert!(rt; tallied.committed == 3 && are_of_calls(&tallied));
}

#[test]
fn desks_over_a_machine_that_counts_answer_as_core(rt: HostRuntime) {
    let place = &scripts::PLACES[0];
    shown_alone::<Counted<Core>, HostRuntime>(&rt, rt.alloc(), &scripts::PURGES, place);
}
