//! The two figures of a check that differ.
ghost use Rattle.std.specs.Prelude.{◌≡◌};
ghost use Rattle.oe_checks.specs.Comparing.{unless_equal};

/// Two figures that a check wants to be one, and that are not: what a row has, or what is asked of
/// it; and what other rows have to it. Money is in cents.
#[derive(Clone, Copy, Debug, PartialEq, Eq)]
pub struct Apart {
    pub first: i128,
    pub second: i128,
}

/// Gives two figures, where they are not one.
pub fn differing(first: i128, second: i128) -> Option<Apart>
    ensures { result ≡ unless_equal first second }
{
    if first == second {
        return None;
    }
    Some(Apart { first, second })
}
