//! The parts of a record's bytes: how many each has, and where it begins. The length comes first,
//! and once more at the end.
use oe_extent::LENGTH_BYTES;

/// How many bytes the kind has: one for what was done, and one for the table.
pub const KIND_BYTES: usize = 2;

/// How many bytes the link to the previous record has: two for its extent, two for the offset in
/// it, and eight for the moment.
pub const LINK_BYTES: usize = 12;

/// Where the kind begins.
pub const KIND_START: usize = LENGTH_BYTES;

/// Where the link begins.
pub const LINK_START: usize = KIND_START + KIND_BYTES;

/// Where the contents begin: the key, and behind it the row before, or the columns that changed.
pub const CONTENTS_START: usize = LINK_START + LINK_BYTES;

/// How many bytes stand before the contents and behind them.
pub const OTHER_BYTES: usize = CONTENTS_START + LENGTH_BYTES;

/// The most bytes that contents have: a customer's key, the mask, and all columns.
pub const MOST_CONTENTS: usize = 691;

/// The most bytes that a record has: 709.
pub const MOST_BYTES: usize = MOST_CONTENTS + OTHER_BYTES;
