//! Runs of bytes whose length lies in a range that is known where they are written. A short one is
//! copied by moves of 1 to 16 bytes, since a call of the C library costs more than the copy.
ghost use Rattle.std.specs.Prelude.{◌≡◌, ◌≤◌, ◌+◌, length, take, drop};
ghost use Rattle.oe_extent.specs.Images.{Writes};

use crate::runs::write_run;

/// The longest run that is copied by moves, in bytes: two of the widest.
const SHORT: usize = 32;

/// Gives the `CHUNK` bytes from an index on.
#[inline(always)]
fn chunk_at<const CHUNK: usize>(run: &[u8], at: usize) -> [u8; CHUNK]
    requires { at + CHUNK ≤ length run.now }
    ensures { result ≡ take CHUNK (drop at run.now) }
{
    *run[at..].first_chunk::<CHUNK>().unwrap()
}

/// Writes the first and the last `CHUNK` bytes of a run, which are all of it, and overlap where it
/// is shorter than two chunks.
#[inline(always)]
fn write_ends<const CHUNK: usize>(bytes: &mut [u8], start: usize, run: &[u8]) -> usize
    requires least { CHUNK ≤ length run.now }
    requires most { length run.now ≤ CHUNK + CHUNK }
    requires room { start + length run.now ≤ length bytes.old }
    ensures { Writes bytes.old start run.now bytes.new result }
{
    let front: [u8; CHUNK] = chunk_at(run, 0);
    let _middle = write_run(bytes, start, &front);
    let last = run.len() - CHUNK;
    let back: [u8; CHUNK] = chunk_at(run, last);
    write_run(bytes, start + last, &back)
}

/// Writes a run of at most 32 bytes by the widest two moves that it fills.
#[inline(always)]
fn write_short_run(bytes: &mut [u8], start: usize, run: &[u8]) -> usize
    requires short { length run.now ≤ 32 }
    requires room { start + length run.now ≤ length bytes.old }
    ensures { Writes bytes.old start run.now bytes.new result }
{
    if run.len() >= 16 {
        write_ends::<16>(bytes, start, run)
    } else if run.len() >= 8 {
        write_ends::<8>(bytes, start, run)
    } else if run.len() >= 4 {
        write_ends::<4>(bytes, start, run)
    } else if run.len() >= 2 {
        write_ends::<2>(bytes, start, run)
    } else if run.len() == 1 {
        write_ends::<1>(bytes, start, run)
    } else {
        write_ends::<0>(bytes, start, run)
    }
}

/// Writes a run of `LEAST` to `MOST` bytes from offset `start` on, and answers the offset behind
/// it. Where `MOST` is at most 32, it is copied by moves.
#[inline(always)]
pub fn write_bounded_run<const LEAST: usize, const MOST: usize>(
    bytes: &mut [u8],
    start: usize,
    run: &[u8],
) -> usize
    requires least { LEAST ≤ length run.now }
    requires most { length run.now ≤ MOST }
    requires room { start + length run.now ≤ length bytes.old }
    ensures { Writes bytes.old start run.now bytes.new result }
{
    if LEAST == MOST {
        write_run(bytes, start, &chunk_at::<MOST>(run, 0))
    } else if MOST <= SHORT {
        write_short_run(bytes, start, run)
    } else {
        write_run(bytes, start, run)
    }
}
