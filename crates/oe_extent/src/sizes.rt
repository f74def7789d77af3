//! The sizes of an extent and of a string's frame, in bytes.

/// How many bytes an extent has.
pub const EXTENT_BYTES: usize = 4_096;

/// How many bytes a string's length has at either end of the string.
pub const LENGTH_BYTES: usize = 2;

/// How many bytes a string's frame has: its length, twice.
pub const FRAME_BYTES: usize = 2 * LENGTH_BYTES;
