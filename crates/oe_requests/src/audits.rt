//! Audits of the consistency conditions: which one is asked for, and what is found. Both are plain
//! values, and nothing can fail.
ghost use Rattle.std.specs.Prelude.{◌≡◌};
ghost use Rattle.oe_requests.specs.Condition.{condition_number};

use oe_rows::Key;

/// The consistency conditions of clauses 3.3.2.1 to 3.3.2.10 and 3.3.2.12.
#[derive(Clone, Copy, PartialEq, Eq)]
pub enum Condition {
    First,
    Second,
    Third,
    Fourth,
    Fifth,
    Sixth,
    Seventh,
    Eighth,
    Ninth,
    Tenth,
    Twelfth,
}

impl Condition {
    /// Gives the condition's number, from 1 to 10 or 12: the last number of its clause.
    pub fn number(self) -> u8
        ensures { result ≡ condition_number self }
    {
        match self {
            Condition::First => 1,
            Condition::Second => 2,
            Condition::Third => 3,
            Condition::Fourth => 4,
            Condition::Fifth => 5,
            Condition::Sixth => 6,
            Condition::Seventh => 7,
            Condition::Eighth => 8,
            Condition::Ninth => 9,
            Condition::Tenth => 10,
            Condition::Twelfth => 12,
        }
    }
}

/// What an audit finds: that the condition holds, or the first row, in key order, at which it
/// fails.
#[derive(Clone, Copy, PartialEq, Eq)]
pub enum Verdict {
    Holds,
    Fails(Key),
}
