//! A walk over all rows of one number, as customers of a last name or orders of a customer, and
//! others. It takes no memory.
//!
//! It is seen as the list of what is left of it. Nothing can fail.
ghost use Rattle.std.specs.Prelude.{List, cond};
ghost use Rattle.std.specs.Iterator.{YieldsFirstBy, item_count};
ghost use Rattle.oe_table.specs.Table.{rows_of};
ghost use Rattle.oe_index.specs.Listed.{rows_at_keys};

use crate::key_lists::KeyWalk;
use oe_table::shelf_walks::Rows;
use oe_table::shelves::Shelves;
use oe_values::ShelvedKey;
use std::marker::Model;

/// Rows with their keys, in the keys' order: a list's rows, or where lists were given up the rows
/// of another walk.
#[derive(Drop)]
pub struct Found<'a, K: ShelvedKey, R> {
    pub(crate) rows: &'a Shelves<K, R>,
    pub(crate) listed: KeyWalk<'a, K>,
    pub(crate) others: Rows<'a, K, R>,
    pub(crate) is_listed: bool,
}

impl<'a, K: ShelvedKey, R> Model for Found<'a, K, R> {
    ghost Value = { List (K × R) };

    ghost view = { λ w. cond w.is_listed
        (rows_at_keys K.cmp (rows_of K.cmp w.rows.now) w.listed) w.others };
}

impl<'a, K: ShelvedKey, R> Iterator for Found<'a, K, R> {
    type Item = (&'a K, &'a R);

    ghost next_gives = { YieldsFirstBy (λ p. (p.0.now, p.1.now)) (λ it. it) };

    ghost remaining = { item_count (λ it. it) };

    fn next(&mut self) -> Option<(&'a K, &'a R)> {
        if !self.is_listed {
            return self.others.next();
        }
        while let Some(key) = self.listed.next() {
            if let Some(row) = self.rows.get(key) {
                return Some((key, row));
            }
        }
        None
    }
}
