//! How many rows there were.
ghost use Rattle.std.specs.Prelude.{◌≡◌};

use crate::join::Join;

/// A number of rows, which stays at 2^32 - 1 where it would be greater.
#[derive(Clone, Copy, Debug, PartialEq, Eq)]
pub struct Count {
    pub rows: u32,
}

impl Count {
    /// Gives the count of one row.
    pub fn one() -> Self
        ensures { result.rows ≡ 1 }
    {
        Count { rows: 1 }
    }
}

impl Join for Count {
    ghost use Rattle.oe_tally.specs.Counting.{counts_joined};
    ghost use Rattle.oe_tally.specs.CountingLaws.{counts_associative, counts_commutative};

    ghost joined = { counts_joined };

    ghost associative = { counts_associative };

    ghost commutative = { counts_commutative };

    fn join(self, other: Self) -> Self {
        Count {
            rows: self.rows.saturating_add(other.rows),
        }
    }
}
