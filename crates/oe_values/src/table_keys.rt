//! The keys of a table.
//!
//! A key's order tells any two keys apart (`exact`). A shelved key lies on the shelf that its
//! numbers name, and all keys of a lower shelf are less (`ascends`). Nothing can fail.
ghost use Rattle.std.specs.Prelude.{◌≡◌, ◌<◌, ℕ};
ghost use Rattle.std.specs.FinMap.{IsAntisymmetric, nat_cmp-IsAntisymmetric};
ghost use Rattle.std.specs.declared.cmp.Ordering.TheVariants.{Less};

/// A key of a table: of an ordered type whose order tells any two keys apart, as a derived one
/// does.
pub trait TableKey: Ord {
    ghost exact: { IsAntisymmetric Self.cmp };
}

/// A key that has its place by its numbers: it lies on a shelf, and a key of a lower shelf is less.
pub trait ShelvedKey: TableKey {
    ghost shelf_of: { Self → ℕ };

    /// Gives the shelf that the key lies on. A table keeps a few words for each shelf up to its
    /// last key's.
    fn shelf(&self) -> usize
        ensures number { result ≡ shelf_of self.now }
        ensures few { result < 1024 };

    /// Tells where to look on the shelf: how far two keys lie apart there, if each number between
    /// them has a key. It is a hint, on which no answer of a table rests.
    fn place(&self) -> usize;

    ghost ascends: { (j k : Self) → shelf_of j < shelf_of k → Self.cmp j k ≡ Less };
}

impl TableKey for u8 {
    ghost exact = { nat_cmp-IsAntisymmetric };
}

impl TableKey for u16 {
    ghost exact = { nat_cmp-IsAntisymmetric };
}

impl TableKey for u32 {
    ghost exact = { nat_cmp-IsAntisymmetric };
}

impl TableKey for u64 {
    ghost exact = { nat_cmp-IsAntisymmetric };
}
