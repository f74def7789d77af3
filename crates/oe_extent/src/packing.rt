//! The bytes of one extent, packed with strings from byte 0 on. By its invariant they are exactly
//! the images of its strings, and no string leaves the extent; a string that does not fit is
//! refused.
ghost use Rattle.std.specs.Prelude.{◌≡◌, ◌<◌, ◌≤◌, ◌+◌, [], ◌∷◌, length, drop, IfOk};
ghost use Rattle.oe_extent.specs.declared.sizes.TheConstants.{EXTENT_BYTES, LENGTH_BYTES};
ghost use Rattle.oe_extent.specs.Strings.{last_length, bytes_of_strings, IsFramed, HasOffset, IsStringFrom};

use crate::images::Written;
use crate::sizes::{EXTENT_BYTES, LENGTH_BYTES};
use crate::walks::ExtentStrings;
use byteorder::{BigEndian, ByteOrder};
use oe_values::numbers::Number;
use std::alloc::{AllocError, Global};
use std::marker::Model;

/// How many bytes a line of the processor's caches has.
const LINE: usize = 64;

/// How many lines of an extent are touched: about as many as a payment fills.
const TOUCHED_LINES: usize = 12;

/// Byte strings packed from byte 0 of an extent on, which clauses see as their list, the newest
/// first. Each string is framed: its length stands in its first two bytes and in its last two. No
/// call but `new` takes memory.
#[derive(Drop)]
pub(crate) struct PackedStrings {
    // As many as an extent has, from the start.
    bytes: Vec<u8>,
    // How many bytes from the front on the strings fill, and how many strings these are.
    fill: usize,
    count: usize,
}

impl Model for PackedStrings {
    ghost use Rattle.std.specs.Prelude.{ℕ, List, take};
    ghost use Rattle.oe_extent.specs.Strings.{last_strings, IsPacked};

    ghost Value = { List (List ℕ) };

    ghost view = { λ p. last_strings p.count (take p.fill p.bytes.items) };

    ghost invariant = { λ p. IsPacked p.count p.fill p.bytes.items };
}

/// Gives the number in the last two of some bytes.
#[inline]
#[tactic(auto, using(crate::proofs::PackedFacts::last_is))]
pub(crate) fn last_size(bytes: &[u8]) -> usize
    requires { LENGTH_BYTES ≤ length bytes.now }
    ensures { result ≡ last_length bytes.now }
{
    BigEndian::read_u16(&bytes[bytes.len() - LENGTH_BYTES..]) as usize
}

impl PackedStrings {
    /// Takes memory for an extent's bytes, without strings; an error where memory is refused.
    pub(crate) fn new(alloc: Global) -> Result<Self, AllocError>
        ensures { IfOk result (λ p. p ≡ []) }
    {
        let mut bytes = Vec::with_capacity(alloc, EXTENT_BYTES)?;
        bytes.resize(EXTENT_BYTES, 0)?;
        Ok(PackedStrings {
            bytes,
            fill: 0,
            count: 0,
        })
    }

    /// Touches the first lines that strings were in: reads a byte of each, and answers them joined,
    /// which means nothing.
    ///
    /// It is for speed alone. Reads wait for memory together, and writes one behind the other; so
    /// where the lines were read first, strings are written without waiting.
    #[inline(always)]
    pub(crate) fn touch(&self) -> u8 {
        let mut joined = 0;
        for line in 0..TOUCHED_LINES {
            joined ^= self.bytes[LINE * line];
        }
        joined
    }

    /// Tells how many bytes are left behind the strings: 0 to 4,096.
    #[inline(always)]
    pub(crate) fn rest(&self) -> usize
        ensures { result + length (bytes_of_strings self.now) ≡ EXTENT_BYTES }
    {
        EXTENT_BYTES - self.fill
    }

    /// Tells how many strings there are.
    #[inline(always)]
    pub(crate) fn len(&self) -> usize
        ensures { result ≡ length self.now }
    {
        self.count
    }

    /// Appends a string, which is written where it is to stand, and answers the offset of its first
    /// byte.
    #[inline(always)]
    pub(crate) fn push<S: Written>(&mut self, string: &S) -> Number<0, 4_095>
        requires framed { IsFramed (S.image string.now) }
        requires room { length (bytes_of_strings self.old) + length (S.image string.now)
            ≤ EXTENT_BYTES }
        ensures pushed { self.new ≡ S.image string.now ∷ self.old }
        ensures offset { result ≡ length (bytes_of_strings self.old) }
    {
        let offset = Number::new(self.fill as u32).unwrap();
        self.fill = string.write(&mut self.bytes, self.fill);
        self.count += 1;
        offset
    }

    /// Gives the newest string, where it stands.
    #[inline]
    pub(crate) fn newest(&self) -> &[u8]
        requires { 0 < length self.now }
        ensures { self.now ≡ result.now ∷ drop 1 self.now }
    {
        let size = last_size(&self.bytes[..self.fill]);
        &self.bytes[self.fill - size..self.fill]
    }

    /// Gives its strings, the newest first, where they stand.
    pub(crate) fn strings(&self) -> ExtentStrings<'_>
        ensures { result ≡ self.now }
    {
        ExtentStrings {
            bytes: &self.bytes[..self.fill],
            count: self.count,
        }
    }

    /// Takes the newest string off.
    #[inline]
    pub(crate) fn pop(&mut self)
        requires { 0 < length self.old }
        ensures { self.new ≡ drop 1 self.old }
    {
        self.fill -= last_size(&self.bytes[..self.fill]);
        self.count -= 1;
    }

    /// Gives up all strings.
    pub(crate) fn clear(&mut self)
        ensures { self.new ≡ [] }
    {
        self.fill = 0;
        self.count = 0;
    }

    /// Gives the string that begins at that offset, where it stands.
    #[inline]
    pub(crate) fn at(&self, offset: usize) -> &[u8]
        requires { HasOffset self.now offset }
        ensures { IsStringFrom self.now offset result.now }
    {
        let size = BigEndian::read_u16(&self.bytes[offset..]) as usize;
        &self.bytes[offset..offset + size]
    }
}
