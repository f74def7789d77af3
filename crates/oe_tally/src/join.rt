//! Values that can be added together in any order.
ghost use Rattle.std.specs.Prelude.{◌≡◌};

/// A value that joins with others in any order, as sums, the greatest and the least do.
///
/// Its laws are of every number, also of those that no value has. A key without a value has no
/// entry, so `None` is the sum of nothing.
pub trait Join: Copy {
    ghost joined: { Self → Self → Self };

    /// Gives both values together.
    fn join(self, other: Self) -> Self
        ensures { result ≡ joined self other };

    ghost associative: { (a b c : Self) → joined (joined a b) c ≡ joined a (joined b c) };

    ghost commutative: { (a b : Self) → joined a b ≡ joined b a };
}
