//! Walks over strings, the newest first, where they lie.
//!
//! A walk over one extent keeps the front of its bytes that older strings fill, and how many these
//! are; by its invariant they are framed, so that the last two bytes tell where the newest begins.
//! A walk over a list of extents has the walk over one extent, and the extents before that. No call
//! takes memory, and nothing can fail.
ghost use Rattle.std.specs.Prelude.{◌≡◌, []};
ghost use Rattle.std.specs.Iterator.{YieldsFirstRef, item_count};
ghost use Rattle.oe_extent.specs.Extents.{all_strings};

use crate::extents::{Extent, ExtentList};
use crate::packing::last_size;
use std::marker::Model;

/// The strings of one extent that are left, the newest first.
#[derive(Drop)]
pub(crate) struct ExtentStrings<'a> {
    pub(crate) bytes: &'a [u8],
    pub(crate) count: usize,
}

impl<'a> Model for ExtentStrings<'a> {
    ghost use Rattle.std.specs.Prelude.{ℕ, List};
    ghost use Rattle.oe_extent.specs.Strings.{last_strings, AreStrings};

    ghost Value = { List (List ℕ) };

    ghost view = { λ s. last_strings s.count s.bytes.now };

    ghost invariant = { λ s. AreStrings s.count s.bytes.now };
}

impl<'a> ExtentStrings<'a> {
    /// Makes a walk over no strings.
    fn none() -> Self
        ensures { result ≡ [] }
    {
        ExtentStrings {
            bytes: &[],
            count: 0,
        }
    }

    /// Takes the newest string off, where there is one.
    fn take_newest(&mut self) -> Option<&'a [u8]>
        ensures { YieldsFirstRef (λ s. s) self.old result self.new }
    {
        if self.count == 0 {
            return None;
        }
        let start = self.bytes.len() - last_size(self.bytes);
        let newest = &self.bytes[start..];
        self.bytes = &self.bytes[..start];
        self.count -= 1;
        Some(newest)
    }
}

/// The strings of a list of extents that are left, the newest first.
#[derive(Drop)]
pub struct Strings<'a> {
    newest: ExtentStrings<'a>,
    older: &'a Option<Box<Extent>>,
}

impl<'a> Model for Strings<'a> {
    ghost use Rattle.std.specs.Prelude.{ℕ, List, ◌++◌};
    ghost use Rattle.oe_extent.specs.Extents.{contents_of, all_strings};

    ghost Value = { List (List ℕ) };

    ghost view = { λ s. s.newest ++ all_strings (contents_of s.older.now) };
}

impl<'a> Iterator for Strings<'a> {
    type Item = &'a [u8];

    ghost next_gives = { YieldsFirstRef (λ s. s) };

    ghost remaining = { item_count (λ s. s) };

    fn next(&mut self) -> Option<&'a [u8]> {
        loop {
            if let Some(string) = self.newest.take_newest() {
                return Some(string);
            }
            let Some(extent) = self.older else {
                return None;
            };
            self.newest = extent.strings.strings();
            self.older = &extent.older;
        }
    }
}

impl ExtentList {
    /// Gives all its strings, the newest first, where they stand.
    pub(crate) fn strings(&self) -> Strings<'_>
        ensures { result ≡ all_strings self.now }
    {
        Strings {
            newest: ExtentStrings::none(),
            older: &self.newest,
        }
    }
}
