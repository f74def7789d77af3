//! Walks over the records of a segment, the newest first.
//!
//! `Records` goes over strings of the ring; by its invariant each is a record's. `Deleted` lends no
//! record, but the keys that records say were deleted. No call takes memory, and nothing can fail.
ghost use Rattle.std.specs.Iterator.{YieldsFirst, item_count};

use oe_extent::Strings;
use oe_layout::StoredRecord;
use oe_rows::NewOrderKey;
use std::marker::Model;

/// The records of a segment that are left, the newest first, where they lie.
#[derive(Drop)]
pub(crate) struct Records<'a> {
    pub(crate) strings: Strings<'a>,
}

impl<'a> Model for Records<'a> {
    ghost use Rattle.std.specs.Prelude.{List, map};
    ghost use Rattle.std.specs.List.{AllByRecursion};
    ghost use Rattle.oe_model.specs.Changes.{Record};
    ghost use Rattle.oe_layout.specs.Stored.{record_in_bytes, IsStoredRecord};

    ghost Value = { List Record };

    ghost view = { λ r. map record_in_bytes r.strings };

    ghost invariant = { λ r. AllByRecursion IsStoredRecord r.strings };
}

impl<'a> Iterator for Records<'a> {
    type Item = StoredRecord<'a>;

    ghost next_gives = { YieldsFirst (λ r. r) };

    ghost remaining = { item_count (λ r. r) };

    fn next(&mut self) -> Option<StoredRecord<'a>> {
        match self.strings.next() {
            Some(bytes) => Some(StoredRecord::of(bytes)),
            None => None,
        }
    }
}

/// The keys of the NEW-ORDER rows that a commit deleted and that are left, the newest delete first.
#[derive(Drop)]
pub struct Deleted<'a> {
    pub(crate) records: Records<'a>,
    // Else the head says that the commit deleted nothing, and no record is looked at.
    pub(crate) has_any: bool,
}

impl<'a> Model for Deleted<'a> {
    ghost use Rattle.std.specs.Prelude.{List, [], cond};
    ghost use Rattle.oe_rows.specs.declared.keys.NewOrderKey.{NewOrderKey};
    ghost use Rattle.oe_log.specs.Stands.{deleted_keys};

    ghost Value = { List NewOrderKey };

    ghost view = { λ d. cond d.has_any (deleted_keys d.records) [] };
}

impl<'a> Iterator for Deleted<'a> {
    type Item = NewOrderKey;

    ghost next_gives = { YieldsFirst (λ d. d) };

    ghost remaining = { item_count (λ d. d) };

    fn next(&mut self) -> Option<NewOrderKey> {
        if !self.has_any {
            return None;
        }
        while let Some(record) = self.records.next() {
            if let Some(key) = record.deleted_new_order() {
                return Some(key);
            }
        }
        None
    }
}
