//! How names are hashed: a multiplication for each number of a name's key.
//!
//! The hash has no secret. A terminal's map has the names of one transaction, some thirty at most,
//! so names that were picked to collide cost little.
ghost use Rattle.std.specs.Prelude.{◌≡◌, length};
ghost use Rattle.std.specs.Int.{w32, w64, from_le_bytes};
ghost use Rattle.oe_locks.specs.Hashes.{hash_with, joined_bytes};

use std::hash::{BuildHasher, Hasher};

const MULTIPLIER: u64 = 0x9e37_79b9_7f4a_7c15;

/// Makes a hasher of names.
#[derive(Clone, Copy)]
pub struct NameHashes {}

/// A hasher of names.
#[derive(Clone, Copy)]
pub struct NameHasher {
    state: u64,
}

impl BuildHasher for NameHashes {
    type Hasher = NameHasher;

    ghost build_hasher = { λ _. record { state = 0 } };

    #[inline(always)]
    fn build_hasher(&self) -> NameHasher {
        NameHasher { state: 0 }
    }
}

// Gives the state that a number has joined.
#[inline(always)]
fn joined(state: u64, number: u64) -> u64
    ensures { result ≡ hash_with state number }
{
    (state ^ number).wrapping_mul(MULTIPLIER)
}

// Gives four bytes as a number, the lowest first.
#[inline(always)]
fn short_number(bytes: &[u8]) -> u64
    requires { length bytes.now ≡ 4 }
    ensures { result ≡ from_le_bytes w32 bytes.now }
{
    u32::from_le_bytes([bytes[0], bytes[1], bytes[2], bytes[3]]) as u64
}

// Gives eight bytes as a number, the lowest first.
#[inline(always)]
fn long_number(bytes: &[u8]) -> u64
    requires { length bytes.now ≡ 8 }
    ensures { result ≡ from_le_bytes w64 bytes.now }
{
    u64::from_le_bytes([
        bytes[0], bytes[1], bytes[2], bytes[3], bytes[4], bytes[5], bytes[6], bytes[7],
    ])
}

impl Hasher for NameHasher {
    ghost write = { λ h bytes. record { state = joined_bytes h.state bytes } };

    ghost finish = { λ h. h.state };

    #[inline(always)]
    fn finish(&self) -> u64 {
        self.state
    }

    // A name's kind comes as eight bytes, and each number of its key as four. Letters are joined
    // one by one.
    #[inline(always)]
    fn write(&mut self, bytes: &[u8]) {
        if bytes.len() == 4 {
            self.state = joined(self.state, short_number(bytes));
            return;
        }
        if bytes.len() == 8 {
            self.state = joined(self.state, long_number(bytes));
            return;
        }
        for b in bytes {
            self.state = joined(self.state, *b as u64);
        }
    }
}
