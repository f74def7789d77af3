//! Lines end in byte 10; the last may lack its end. A line that lies whole in a piece is handed on
//! from there; of any other its beginning is held. A line may not be taken, and a read may fail:
//! then nothing is promised of what took the lines.
ghost use Rattle.std.specs.Prelude.{◌≡◌, ◌<◌, ◌≤◌, ◌++◌, ◌∷◌, [], ℕ, List, length, Some, OnOk};
ghost use Rattle.oe_filelines.specs.Lines.{Holds, Standing, Finished, LinesRead};

use crate::held::HeldLine;
use memchr::memchr;
use std::alloc::AllocError;
use std::io;
use std::io::Read;
use thiserror::Error;

/// A line's bytes before its end are at most as many.
pub const LINE: usize = 65_536;

/// So many bytes are read at once.
pub const PIECE: usize = 65_536;

/// Why a source was not read to its end.
#[derive(Clone, Copy, Debug, Error)]
pub enum Stop {
    /// A read failed, for this cause.
    #[error("can't be read: {0}")]
    Read(io::Error),
    /// There was no memory.
    #[error("no memory")]
    NoMemory,
}

/// What takes lines of at most `LONGEST` bytes, one after another.
pub trait LineTaker<const LONGEST: usize> {
    /// Why a line was not taken.
    type Error;

    /// From the first state these lines were taken, and it stands so now.
    ghost taken: { Self → List (List ℕ) → Self → Type 0 };

    /// Takes the next line, without its end.
    fn take_line(&mut self, line: &[u8]) -> Result<(), Self::Error>
        requires { length line.now ≤ LONGEST }
        ensures { OnOk result ((start : Self) (lines : List (List ℕ)) →
            taken start lines self.old → taken start (lines ++ line.now ∷ []) self.new) };

    /// Takes the next line, which has too many bytes.
    fn take_long(&mut self) -> Result<(), Self::Error>
        ensures { OnOk result ((start : Self) (lines : List (List ℕ)) (line : List ℕ) →
            LONGEST < length line → taken start lines self.old →
            taken start (lines ++ line ∷ []) self.new) };
}

impl<const LONGEST: usize> HeldLine<LONGEST> {
    // Ends the line.
    #[inline(never)]
    fn end<T: LineTaker<LONGEST>>(&mut self, taker: &mut T) -> Result<(), T::Error>
        ensures taken { OnOk result ((line : List ℕ) → Holds LONGEST self.old line →
            (start : T) (lines : List (List ℕ)) → T.taken start lines taker.old →
            T.taken start (lines ++ line ∷ []) taker.new) }
        ensures held { self.new ≡ Some [] }
    {
        let Some(line) = self.text() else {
            self.clear();
            return taker.take_long();
        };
        let taken = taker.take_line(line);
        self.clear();
        taken
    }

    // Ends the line with these last bytes, which may be too many where none are held.
    #[inline(never)]
    fn end_with<T: LineTaker<LONGEST>>(
        &mut self,
        last: &[u8],
        taker: &mut T,
    ) -> Result<(), T::Error>
        ensures taken { OnOk result ((line : List ℕ) → Holds LONGEST self.old line →
            (start : T) (lines : List (List ℕ)) → T.taken start lines taker.old →
            T.taken start (lines ++ (line ++ last.now) ∷ []) taker.new) }
        ensures held { self.new ≡ Some [] }
    {
        self.keep(last);
        self.end(taker)
    }

    // Ends the line with these last bytes.
    #[inline]
    fn end_line<T: LineTaker<LONGEST>>(
        &mut self,
        last: &[u8],
        taker: &mut T,
    ) -> Result<(), T::Error>
        ensures taken { OnOk result ((line : List ℕ) → Holds LONGEST self.old line →
            (start : T) (lines : List (List ℕ)) → T.taken start lines taker.old →
            T.taken start (lines ++ (line ++ last.now) ∷ []) taker.new) }
        ensures held { self.new ≡ Some [] }
    {
        if self.is_begun() || LONGEST < last.len() {
            return self.end_with(last, taker);
        }
        taker.take_line(last)
    }

    /// Takes the next bytes of a source: each line that ends in them is handed on, and the
    /// beginning of the next is held.
    pub fn feed<T: LineTaker<LONGEST>>(
        &mut self,
        piece: &[u8],
        taker: &mut T,
    ) -> Result<(), T::Error>
        ensures { OnOk result ((start : T) (input : List ℕ) →
            Standing LONGEST (T.taken start) input self.old taker.old →
            Standing LONGEST (T.taken start) (input ++ piece.now) self.new taker.new) }
    {
        let mut rest = piece;
        while let Some(n) = memchr(b'\n', rest) {
            if let Err(error) = self.end_line(&rest[..n], taker) {
                return Err(error);
            }
            rest = &rest[n + 1..];
        }
        self.keep(rest);
        Ok(())
    }

    /// Takes the end of a source: a last line that lacks its end is handed on.
    pub fn finish<T: LineTaker<LONGEST>>(&mut self, taker: &mut T) -> Result<(), T::Error>
        ensures { OnOk result ((start : T) (input : List ℕ) →
            Standing LONGEST (T.taken start) input self.old taker.old →
            Finished (T.taken start) input taker.new) }
    {
        if self.is_begun() {
            return self.end(taker);
        }
        Ok(())
    }
}

// Reads the source to its end.
fn run<S: Read, T: LineTaker<LINE, Error = AllocError>>(
    held: &mut HeldLine<LINE>,
    source: &mut S,
    taker: &mut T,
) -> Result<(), Stop>
    requires held { held.old ≡ Some [] }
    requires begins { T.taken taker.old [] taker.old }
    ensures { OnOk result (LinesRead (T.taken taker.old) (S.remaining source.old)
        (S.remaining source.new) taker.new) }
{
    let mut buf = [0u8; PIECE];
    for _ in 0..u64::MAX {
        match source.read(&mut buf) {
            Err(cause) => return Err(Stop::Read(cause)),
            Ok(0) => {
                return match held.finish(taker) {
                    Ok(()) => Ok(()),
                    Err(_) => Err(Stop::NoMemory),
                };
            }
            Ok(n) => {
                if let Err(_) = held.feed(&buf[..n], taker) {
                    return Err(Stop::NoMemory);
                }
            }
        }
    }
    Err(Stop::Read(io::Error::from(io::ErrorKind::Other)))
}

/// Reads a source to its end, and hands each line on.
///
/// Nothing is promised of `taker` where a read fails or there is no memory.
pub fn read_lines<S: Read, T: LineTaker<LINE, Error = AllocError>>(
    source: &mut S,
    taker: &mut T,
) -> Result<(), Stop>
    requires { T.taken taker.old [] taker.old }
    ensures { OnOk result (LinesRead (T.taken taker.old) (S.remaining source.old)
        (S.remaining source.new) taker.new) }
{
    let mut held = HeldLine::new();
    run(&mut held, source, taker)
}
