//! What a person is told of a drive: before it, while it goes on, and at its end. No clause sees a
//! clock or standard error.

use oe_deeds::BusyCounts;
use oe_drive::{Deeds, Gate, MOST_BUSY, Ran, may_overfill};
use oe_numbers::DriveNumbers;
use oe_values::Terminal;
use std::io;
use std::sync::atomic::{AtomicU64, Ordering};
use std::time::{Clock, Duration, Instant};

/// What a person is told of a drive besides how it went: how far it is, and which locks were in the
/// way.
#[derive(Clone, Copy)]
pub struct Shown {
    pub progress: bool,
    pub busy: bool,
}

/// Tells a person how far a drive is, once a second from its second second on.
#[derive(Drop)]
pub struct Progress<'r, R> {
    rt: &'r R,
    begun: Instant,
    shown: Shown,
    keeps_commits: bool,
    requests: u32,
    done: AtomicU64,
    second_told: AtomicU64,
}

impl<'r, R: Clock + Eprint> Progress<'r, R> {
    /// Begins to count the requests of a drive. It says nothing where it is not shown.
    pub fn begin(
        rt: &'r R,
        numbers: &DriveNumbers,
        shown: Shown,
        keeps_commits: bool,
    ) -> io::Result<Self> {
        Ok(Progress {
            rt,
            begun: Instant::now(rt)?,
            shown,
            keeps_commits,
            requests: numbers.terminals.get() * numbers.requests.get(),
            done: AtomicU64::new(0),
            second_told: AtomicU64::new(0),
        })
    }

    /// Tells for how long the drive has gone on; nothing where the clock fails.
    pub fn took(&self) -> Option<Duration> {
        match self.begun.elapsed(self.rt) {
            Ok(took) => Some(took),
            Err(_) => None,
        }
    }

    /// Tells how the drive went, which has ended, and which locks were in the way where that is
    /// asked for.
    pub fn end(&self, numbers: &DriveNumbers, ran: &Ran, took: Option<Duration>) {
        if let Some(took) = took {
            let _told = tell_drive(self.rt, numbers, ran, took);
        }
        if self.shown.busy {
            let _told = tell_busy(self.rt, &ran.deeds);
        }
    }
}

impl<R: Clock + Eprint> Gate for Progress<'_, R> {
    fn before(&self, _terminal: Terminal, _call: u64) {}

    fn after(&self, _terminal: Terminal, _call: u64) {}

    fn done(&self, _terminal: Terminal) {
        let before = self.done.fetch_add(1, Ordering::SeqCst);
        if !self.shown.progress {
            return;
        }
        let Ok(took) = self.begun.elapsed(self.rt) else {
            return;
        };
        let second = took.as_secs();
        if second < 2 || self.second_told.fetch_max(second, Ordering::SeqCst) >= second {
            return;
        }
        let done = before.saturating_add(1);
        let _told = eprintln!(self.rt; "{done} of {} requests", self.requests);
    }

    fn keeps_commits(&self) -> bool {
        self.keeps_commits
    }
}

/// Says before a drive that its transactions may have no room in its extents.
pub fn tell_room<R: Eprint>(rt: &R, numbers: &DriveNumbers) -> io::Result<()> {
    let Some(found) = may_overfill(numbers) else {
        return Ok(());
    };
    let extents = numbers.extents.get();
    eprintln!(rt;
        "{extents} extents keep some {} transaction{}, and {} are asked",
        found.kept,
        ending(found.kept),
        found.asked
    )
}

/// Gives the ending of a word that `count` stands before.
fn ending(count: u32) -> &'static str {
    if count == 1 { "" } else { "s" }
}

/// Tells a person how a drive went.
fn tell_drive<R: Eprint>(
    rt: &R,
    numbers: &DriveNumbers,
    ran: &Ran,
    took: Duration,
) -> io::Result<()> {
    let terminals = numbers.terminals.get();
    let requests = terminals * numbers.requests.get();
    let seconds = took.as_secs();
    let hundredths = took.subsec_millis() / 10;
    let counted = &ran.counted;
    let deeds = &ran.deeds;
    eprintln!(rt;
        "{terminals} terminal{}, {requests} request{} in {seconds}.{hundredths:02} s: {} committed, {} rolled back, {} of them given up; {} times busy, {} reads, {} deliveries",
        ending(terminals),
        ending(requests),
        counted.committed,
        counted.rolled_back,
        deeds.given_up(),
        deeds.busy,
        deeds.reads,
        deeds.deliveries
    )?;
    tell_causes(rt, numbers.extents.get(), deeds)
}

/// Tells a person why terminals let go of transactions.
fn tell_causes<R: Eprint>(rt: &R, extents: u32, deeds: &Deeds) -> io::Result<()> {
    if deeds.given_up_full > 0 {
        eprintln!(rt;
            "{} given up: all {extents} extents are in use",
            deeds.given_up_full
        )?;
    }
    if deeds.given_up_busy > 0 {
        eprintln!(rt; "{} given up: busy {MOST_BUSY} times", deeds.given_up_busy)?;
    }
    if deeds.given_up_no_memory > 0 {
        eprintln!(rt; "{} given up: no memory", deeds.given_up_no_memory)?;
    }
    if deeds.refused > 0 {
        eprintln!(rt; "{} refused at their begin", deeds.refused)?;
    }
    Ok(())
}

/// Tells a person how often locks were in the way, by kind of name, the longest row of answers
/// `Busy`, and how many transactions were given up, by cause.
fn tell_busy<R: Eprint>(rt: &R, deeds: &Deeds) -> io::Result<()> {
    tell_kinds(rt, &deeds.busy_for)?;
    eprintln!(rt; "longest row {}", deeds.longest_row)?;
    eprintln!(rt;
        "given up Busy {} UndoFull {} NoMemory {}",
        deeds.given_up_busy, deeds.given_up_full, deeds.given_up_no_memory
    )
}

/// Tells a person how often each kind of name was in the way.
fn tell_kinds<R: Eprint>(rt: &R, counts: &BusyCounts) -> io::Result<()> {
    eprintln!(rt; "Warehouse Busy {}", counts.warehouses)?;
    eprintln!(rt; "District Busy {}", counts.districts)?;
    eprintln!(rt; "Customer Busy {}", counts.customers)?;
    eprintln!(rt; "Order Busy {}", counts.orders)?;
    eprintln!(rt; "Queue Busy {}", counts.queues)?;
    eprintln!(rt; "Stock Busy {}", counts.stocks)?;
    eprintln!(rt; "Names Busy {}", counts.names)
}
