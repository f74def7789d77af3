//! Byte strings: written at an offset and read from the front, packed in extents, and kept in a
//! ring of extents.
//!
//! Numbers and runs of bytes are written into a buffer that is there (`bounded`, `numbers`,
//! `runs`), and read from the front of bytes; what has one image is `Written`. Framed strings are
//! packed in extents of 4,096 bytes (`packing`, `walks`), which are linked to lists (`extents`) or
//! lie free in a pool (`pools`). The `Ring` keeps such a list for each slot and each commit, and
//! sees them as strings with addresses; by its invariant each extent is free or in one list. Only
//! what makes a ring and what makes room for commits takes memory, and may be refused it. A push is
//! refused where the ring is full.
#![tactic(auto)]

pub mod bounded;
mod extents;
pub mod images;
pub mod laws;
pub mod numbers;
mod packing;
mod pools;
pub mod ring;
pub mod runs;
pub mod sizes;
mod walks;

pub use extents::Address;
pub use images::Written;
pub use ring::{Full, Ring};
pub use sizes::{EXTENT_BYTES, FRAME_BYTES, LENGTH_BYTES};
pub use walks::Strings;
