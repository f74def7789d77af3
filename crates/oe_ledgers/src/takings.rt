//! Money that came in.
ghost use Rattle.std.specs.Prelude.{◌≡◌};
ghost use Rattle.oe_ledgers.specs.Keeping.{takings_of};

use oe_facts::facts::{DistrictFact, HistoryFact};
use oe_tally::join::Join;

/// How many rows there were, at most 2^32 - 1, and the sum of an amount of theirs in cents. The
/// amount wraps, so the sum is right where it fits, whatever sums the joining went through.
#[derive(Clone, Copy)]
pub struct Takings {
    pub amount: i128,
    pub rows: u32,
}

impl Join for Takings {
    ghost use Rattle.oe_ledgers.specs.Sums.{takings_joined};
    ghost use Rattle.oe_ledgers.specs.SumLaws.{takings_associative, takings_commutative};

    ghost joined = { takings_joined };

    ghost associative = { takings_associative };

    ghost commutative = { takings_commutative };

    fn join(self, other: Self) -> Self {
        Takings {
            amount: self.amount.wrapping_add(other.amount),
            rows: self.rows.saturating_add(other.rows),
        }
    }
}

impl Takings {
    /// Gives what one DISTRICT row brings: its D_YTD.
    pub fn of_district(fact: &DistrictFact) -> Self
        ensures { result ≡ takings_of fact.now.ytd }
    {
        Takings {
            amount: fact.ytd as i128,
            rows: 1,
        }
    }

    /// Gives what one HISTORY row brings: its H_AMOUNT.
    pub fn of_history(fact: &HistoryFact) -> Self
        ensures { result ≡ takings_of fact.now.amount }
    {
        Takings {
            amount: fact.amount as i128,
            rows: 1,
        }
    }
}
