//! How far the sources of an audit are read, for a person who waits: one line on standard error, at
//! most four times a second, that is written over and goes at the end of each source. No clause
//! sees a clock or standard error, and no word of a report depends on either.

ghost use Rattle.std.specs.Prelude.{◌≡◌};

use std::io;
use std::io::Read;
use std::sync::atomic::{AtomicU64, Ordering};
use std::time::{Clock, Instant};

/// What the sources of an audit have given so far.
#[derive(Drop)]
pub struct Progress<'r, R> {
    rt: &'r R,
    begun: Instant,
    is_shown: bool,
    // The bytes that all sources have, as far as that is known.
    all: AtomicU64,
    bytes: AtomicU64,
    rows: AtomicU64,
    quarter_told: AtomicU64,
}

impl<'r, R: Clock + Eprint> Progress<'r, R> {
    /// Begins to count. Nothing is shown where standard error is no terminal.
    pub fn begin(rt: &'r R, is_shown: bool) -> io::Result<Self> {
        Ok(Progress {
            rt,
            begun: Instant::now(rt)?,
            is_shown,
            all: AtomicU64::new(0),
            bytes: AtomicU64::new(0),
            rows: AtomicU64::new(0),
            quarter_told: AtomicU64::new(0),
        })
    }

    /// Makes a source count what it gives. It has `bytes` bytes, or 0 where that is not known.
    pub fn watch<'p, S>(&'p self, source: S, bytes: u64) -> Watched<'p, 'r, R, S>
        ensures { result.source ≡ source }
    {
        let _before = self.all.fetch_add(bytes, Ordering::SeqCst);
        Watched {
            source,
            progress: self,
        }
    }

    // Counts what was read, and tells it where a quarter of a second has begun.
    fn add(&self, piece: &[u8]) {
        if !self.is_shown {
            return;
        }
        let more = piece.len() as u64;
        let lines = count_lines(piece);
        let bytes = self
            .bytes
            .fetch_add(more, Ordering::SeqCst)
            .saturating_add(more);
        let rows = self
            .rows
            .fetch_add(lines, Ordering::SeqCst)
            .saturating_add(lines);
        let Ok(took) = self.begun.elapsed(self.rt) else {
            return;
        };
        let quarters = took.as_secs().saturating_mul(4);
        let quarter = quarters.saturating_add(u64::from(took.subsec_millis() / 250));
        if quarter < 2 || self.quarter_told.fetch_max(quarter, Ordering::SeqCst) >= quarter {
            return;
        }
        let all = self.all.load(Ordering::SeqCst);
        let _told = if bytes < all {
            eprint!(self.rt;
                "\r\x1b[K{rows} rows, {} MB, {} MB left",
                bytes / 1_000_000,
                (all - bytes) / 1_000_000
            )
        } else {
            eprint!(self.rt; "\r\x1b[K{rows} rows, {} MB", bytes / 1_000_000)
        };
    }

    // Takes the line away, where there may be one.
    fn clear(&self) {
        if self.is_shown && self.quarter_told.load(Ordering::SeqCst) > 0 {
            let _cleared = eprint!(self.rt; "\r\x1b[K");
        }
    }
}

// Counts the line ends of a piece.
fn count_lines(piece: &[u8]) -> u64 {
    let mut lines = 0u64;
    for byte in piece {
        if *byte == b'\n' {
            lines = lines.saturating_add(1);
        }
    }
    lines
}

/// A source that counts what it gives. It has what its source has.
#[derive(Drop)]
pub struct Watched<'p, 'r, R, S> {
    source: S,
    progress: &'p Progress<'r, R>,
}

impl<R: Clock + Eprint, S: Read> Read for Watched<'_, '_, R, S> {
    ghost remaining = { λ w. S.remaining w.source };

    fn read(&mut self, buf: &mut [u8]) -> io::Result<usize> {
        match self.source.read(buf) {
            Ok(0) => {
                self.progress.clear();
                Ok(0)
            }
            Ok(count) => {
                self.progress.add(&buf[..count]);
                Ok(count)
            }
            Err(cause) => {
                self.progress.clear();
                Err(cause)
            }
        }
    }
}
