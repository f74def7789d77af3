//! How far the files are read, for a person who waits. No clause sees a clock or standard error.

use oe_rows::Table;
use std::io;
use std::sync::atomic::{AtomicU64, Ordering};
use std::time::{Clock, Instant};

/// Tells a person how far the files are read, once a second from the second second on.
#[derive(Drop)]
pub struct Pace<'r, R> {
    rt: &'r R,
    begun: Instant,
    is_shown: bool,
    second_told: AtomicU64,
}

impl<'r, R: Clock + Eprint> Pace<'r, R> {
    /// Begins to count seconds. It says nothing where it is not shown.
    pub fn begin(rt: &'r R, is_shown: bool) -> io::Result<Self> {
        Ok(Pace {
            rt,
            begun: Instant::now(rt)?,
            is_shown,
            second_told: AtomicU64::new(0),
        })
    }

    /// Tells how many bytes of a table's file are read, where a second has begun.
    pub(crate) fn tell(&self, table: Table, bytes: u64) {
        if !self.is_shown {
            return;
        }
        let Ok(took) = self.begun.elapsed(self.rt) else {
            return;
        };
        let second = took.as_secs();
        if second < 1 || self.second_told.fetch_max(second, Ordering::SeqCst) >= second {
            return;
        }
        let _told = eprintln!(self.rt; "{}: {} MB read", table.name(), bytes / 1_000_000);
    }
}
