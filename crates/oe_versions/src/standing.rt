//! Which rows of a version still stand: those of keys without a record that is put back on the way
//! to the moment. The key's link tells it: no record is read, and nothing takes memory.
ghost use Rattle.std.specs.Prelude.{◌≡◌, IsTrue};
ghost use Rattle.oe_model.specs.Rows.{row_at};
ghost use Rattle.oe_store.specs.Places.{rows};
ghost use Rattle.oe_versions.specs.Versions.{rows_of};

use crate::moments::Version;
use oe_rows::Key;

impl<'a> Version<'a> {
    /// Tells whether a key has no record that is open or of a commit after the moment.
    // Apart, so that where nothing is to be put back its callers make no key.
    #[inline(never)]
    #[tactic(auto, using(crate::proofs::FoundFacts::is_kept, crate::proofs::FoundFacts::unchanged))]
    fn is_unchanged(&self, key: &Key) -> bool
        ensures { IsTrue result
            → row_at (rows_of self.now) key.now ≡ row_at (rows self.now.tables) key.now }
    {
        self.undo.is_chained();
        !self.undo.has_later(key, self.moment)
    }

    /// Tells whether a key's row of the moment stands, as each does where nothing is open and no
    /// commit is later.
    #[inline(always)]
    pub(crate) fn stands(&self, key: &Key) -> bool
        ensures { IsTrue result
            → row_at (rows_of self.now) key.now ≡ row_at (rows self.now.tables) key.now }
    {
        self.is_settled || self.is_unchanged(key)
    }
}
