//! A walk over two settled tallies side by side, in the order of their keys.
ghost use Rattle.std.specs.Prelude.{◌≡◌, ◌<◌, [], OnSome};
ghost use Rattle.oe_tally.specs.Walks.{GivesFirst, left_of};

use crate::join::Join;
use std::cmp::Ordering;
use std::marker::Model;

/// A key with its sum in each of two tallies.
#[derive(Clone, Copy)]
pub struct Pair<K, A, B> {
    pub key: K,
    pub left: Option<A>,
    pub right: Option<B>,
}

/// What is left of a walk.
#[derive(Drop)]
pub struct Pairs<'a, K, A, B> {
    left: &'a [(K, A)],
    right: &'a [(K, B)],
}

impl<'a, K, A, B> Model for Pairs<'a, K, A, B> {
    ghost use Rattle.std.specs.Prelude.{List};

    ghost Value = { List (K × A) × List (K × B) };

    ghost view = { λ p. (p.left.now, p.right.now) };
}

impl<'a, K: Ord + Copy, A: Join, B: Join> Pairs<'a, K, A, B> {
    /// Begins a walk over the entries of two tallies.
    pub fn of(left: &'a [(K, A)], right: &'a [(K, B)]) -> Self
        ensures { result ≡ (left.now, right.now) }
    {
        Pairs { left, right }
    }

    /// Gives the least key that is left, with its sum on each side, and takes its entries out.
    pub fn next(&mut self) -> Option<Pair<K, A, B>>
        ensures first { GivesFirst K.cmp self.old self.new result }
        ensures fewer { OnSome result (left_of self.new < left_of self.old) }
    {
        let Some((first, left)) = self.left.split_first() else {
            return self.next_right();
        };
        let Some((second, right)) = self.right.split_first() else {
            self.left = left;
            return Some(Pair {
                key: first.0,
                left: Some(first.1),
                right: None,
            });
        };
        match first.0.cmp(&second.0) {
            Ordering::Less => {
                self.left = left;
                Some(Pair {
                    key: first.0,
                    left: Some(first.1),
                    right: None,
                })
            }
            Ordering::Equal => {
                self.left = left;
                self.right = right;
                Some(Pair {
                    key: first.0,
                    left: Some(first.1),
                    right: Some(second.1),
                })
            }
            Ordering::Greater => {
                self.right = right;
                Some(Pair {
                    key: second.0,
                    left: None,
                    right: Some(second.1),
                })
            }
        }
    }

    // The same where nothing is left on the left.
    fn next_right(&mut self) -> Option<Pair<K, A, B>>
        requires { self.old.0 ≡ [] }
        ensures first { GivesFirst K.cmp self.old self.new result }
        ensures fewer { OnSome result (left_of self.new < left_of self.old) }
    {
        let Some((second, right)) = self.right.split_first() else {
            return None;
        };
        self.right = right;
        Some(Pair {
            key: second.0,
            left: None,
            right: Some(second.1),
        })
    }
}

#[cfg(test)]
mod tests {
    use crate::count::Count;
    use crate::pairs::{Pair, Pairs};
    use crate::tally::Tally;
    use std::alloc::AllocError;

    fn is_pair(
        found: Option<Pair<u8, Count, Count>>,
        key: u8,
        left: Option<u32>,
        right: Option<u32>,
    ) -> bool {
        let Some(pair) = found else {
            return false;
        };
        pair.key == key
            && pair.left.map(|count| count.rows) == left
            && pair.right.map(|count| count.rows) == right
    }

    #[test]
    fn walks_side_by_side(rt: HostRuntime) -> Result<(), AllocError> {
        let rows = |rows: u32| Count { rows };
        let left = Tally::of(rt.alloc(), &[(3u8, rows(1)), (1, rows(2)), (5, rows(4))])?;
        let right = Tally::of(rt.alloc(), &[(5u8, rows(4)), (2, rows(2)), (1, rows(3))])?;
        let mut pairs = Pairs::of(left.entries(), right.entries());
        assert!(rt; is_pair(pairs.next(), 1, Some(2), Some(3)));
        assert!(rt; is_pair(pairs.next(), 2, None, Some(2)));
        assert!(rt; is_pair(pairs.next(), 3, Some(1), None));
        assert!(rt; is_pair(pairs.next(), 5, Some(4), Some(4)));
        assert!(rt; pairs.next().is_none());
        Ok(())
    }
}
