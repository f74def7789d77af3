//! Checks: what is wrong with the sums of two tallies, key by key.
//!
//! A check looks at the two sums of a key, of which either may be missing, and tells what is wrong.
//! `findings` asks it of each key, in one walk over both tallies.
ghost use Rattle.std.specs.Prelude.{◌≡◌, Option, None, IfOk};
ghost use Rattle.oe_tally.specs.Tallies.{IsSettled};
ghost use Rattle.oe_tally.specs.Walks.{wrong_at, AreAll};

use crate::join::Join;
use crate::pairs::Pairs;
use crate::tally::Tally;
use std::alloc::{AllocError, Global};

/// What is asked of the two sums of a key.
pub trait Check<A, B> {
    /// What a check says of a key with which something is wrong.
    type Wrong: Copy;

    ghost judged: { Self → Option A → Option B → Option Self.Wrong };

    /// Tells what is wrong with the sums.
    fn judge(&self, left: Option<A>, right: Option<B>) -> Option<Self::Wrong>
        ensures { result ≡ judged self.now left right };

    ghost nothing: { (c : Self) → judged c None None ≡ None };
}

/// Gives all keys with which something is wrong, in their order, each with what is wrong.
pub fn findings<K: Ord + Copy, A: Join, B: Join, C: Check<A, B>>(
    alloc: Global,
    check: &C,
    left: &Tally<K, A>,
    right: &Tally<K, B>,
) -> Result<Vec<(K, C::Wrong)>, AllocError>
    requires left { IsSettled K.cmp left.now }
    requires right { IsSettled K.cmp right.now }
    ensures { IfOk result (λ found. AreAll K.cmp K.eq
        (wrong_at K.eq A.joined B.joined (C.judged check.now) left.now right.now) found.items) }
{
    let mut pairs = Pairs::of(left.entries(), right.entries());
    let mut found = Vec::new(alloc);
    while let Some(pair) = pairs.next() {
        if let Some(wrong) = check.judge(pair.left, pair.right) {
            if let Err(_refused) = found.push((pair.key, wrong)) {
                return Err(AllocError);
            }
        }
    }
    Ok(found)
}
