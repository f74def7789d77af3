//! Lists of extents, and the strings that they hold.
//!
//! A list owns its extents, which are linked from the newest to the oldest: so no two lists have an
//! extent in common, and a change of one leaves all others as they are. Only the newest extent gets
//! strings, behind those that are there, as long as it has room. No call but the making of an extent
//! takes memory, and no other can be refused it.
ghost use Rattle.std.specs.Prelude.{◌≡◌, ◌<◌, ◌≤◌, ◌+◌, [], ◌∷◌, length, drop, IfOk, IfSome, IfNone};
ghost use Rattle.oe_extent.specs.declared.sizes.TheConstants.{EXTENT_BYTES};
ghost use Rattle.oe_extent.specs.Strings.{IsFramed, HasOffset, IsStringFrom};
ghost use Rattle.oe_extent.specs.Extents.{number_of, numbers_of, strings_at, contents_in, newest_strings, rest_of, end_of, first_string, with_string, without_newest, IsEmptyExtent, LosesString, LosesExtent};

use crate::images::Written;
use crate::packing::PackedStrings;
use oe_values::numbers::Number;
use std::alloc::{AllocError, Global};
use std::marker::Model;

/// Where a string stands: the number of its extent, and the offset of its first byte there.
#[derive(Clone, Copy, PartialEq, Eq)]
pub struct Address {
    pub extent: Number<0, 4_095>,
    pub offset: Number<0, 4_095>,
}

/// An extent with its number among all, and the one before it in its list.
#[derive(Drop)]
pub(crate) struct Extent {
    number: Number<0, 4_095>,
    pub(crate) strings: PackedStrings,
    pub(crate) older: Option<Box<Extent>>,
}

/// Extents and their strings, which clauses see as their numbers and strings, the newest first.
#[derive(Drop)]
pub(crate) struct ExtentList {
    pub(crate) newest: Option<Box<Extent>>,
}

impl Model for ExtentList {
    ghost use Rattle.std.specs.Prelude.{List};
    ghost use Rattle.oe_extent.specs.Extents.{Contents, contents_of};

    ghost Value = { List Contents };

    ghost view = { λ s. contents_of s.newest };
}

impl Extent {
    /// Makes an extent of that number, without strings; an error where memory is refused.
    pub(crate) fn new(alloc: Global, number: Number<0, 4_095>) -> Result<Box<Extent>, AllocError>
        ensures { IfOk result (λ e. number_of e.value ≡ number) }
    {
        Ok(Box::new(
            alloc,
            Extent {
                number,
                strings: PackedStrings::new(alloc)?,
                older: None,
            },
        )?)
    }

    /// Gives its number.
    #[inline]
    pub(crate) fn number(&self) -> Number<0, 4_095>
        ensures { result ≡ number_of self.now }
    {
        self.number
    }

    /// Gives the string at that offset of the extent with that number, which is this one or one
    /// before it.
    fn at(&self, address: Address) -> &[u8]
        requires { HasOffset (strings_at address.extent (contents_in self.now)) address.offset }
        ensures { IsStringFrom (strings_at address.extent (contents_in self.now)) address.offset
            result.now }
    {
        if self.number == address.extent {
            return self.strings.at(address.offset.get() as usize);
        }
        match &self.older {
            Some(older) => older.at(address),
            None => unreachable!(),
        }
    }

    /// Gives the extent without strings and without one before it.
    pub(crate) fn cleared(mut self: Box<Extent>) -> Box<Extent>
        ensures empty { IsEmptyExtent result.value }
        ensures number { number_of result.value ≡ number_of self.value }
    {
        self.strings.clear();
        self.older = None;
        self
    }
}

impl ExtentList {
    /// Makes a list without extents.
    #[inline]
    pub(crate) fn new() -> Self
        ensures { result ≡ [] }
    {
        ExtentList { newest: None }
    }

    /// Appends a string to the newest extent, and answers its address; none exactly where the rest
    /// of that is too short, or where there is no extent.
    #[inline(always)]
    pub(crate) fn push<S: Written>(&mut self, string: &S) -> Option<Address>
        requires framed { IsFramed (S.image string.now) }
        ensures rest { IfSome result (λ _. length (S.image string.now) ≤ rest_of self.old) }
        ensures pushed { IfSome result (λ _. self.new ≡ with_string (S.image string.now) self.old) }
        ensures address { IfSome result (λ a. a ≡ end_of self.old) }
        ensures none { IfNone result (rest_of self.old < length (S.image string.now)) }
        ensures same { IfNone result (self.new ≡ self.old) }
    {
        match &mut self.newest {
            Some(extent) => {
                if string.size() > extent.strings.rest() {
                    return None;
                }
                let number = extent.number;
                let offset = extent.strings.push(string);
                Some(Address {
                    extent: number,
                    offset,
                })
            }
            None => None,
        }
    }

    /// Appends a string to another extent, which becomes the newest, and answers its address.
    #[inline(never)]
    #[tactic(auto, unfolding(crate::specs::Strings::bytes_of_strings))]
    pub(crate) fn push_new<S: Written>(&mut self, extent: Box<Extent>, string: &S) -> Address
        requires fresh { IsEmptyExtent extent.value }
        requires framed { IsFramed (S.image string.now) }
        requires small { length (S.image string.now) ≤ EXTENT_BYTES }
        ensures pushed { self.new
            ≡ first_string (number_of extent.value) (S.image string.now) ∷ self.old }
        ensures address { result ≡ record { extent = number_of extent.value; offset = 0 } }
    {
        let mut extent = extent;
        let number = extent.number;
        let front = extent.strings.push(string);
        extent.older = self.newest.take();
        self.newest = Some(extent);
        Address {
            extent: number,
            offset: front,
        }
    }

    /// Gives the string at that address, where it stands.
    #[inline]
    pub(crate) fn at(&self, address: Address) -> &[u8]
        requires { HasOffset (strings_at address.extent self.now) address.offset }
        ensures { IsStringFrom (strings_at address.extent self.now) address.offset result.now }
    {
        match &self.newest {
            Some(extent) => extent.at(address),
            None => unreachable!(),
        }
    }

    /// Gives the newest string, where it stands.
    #[inline]
    pub(crate) fn newest(&self) -> &[u8]
        requires { 0 < length (newest_strings self.now) }
        ensures { newest_strings self.now ≡ result.now ∷ drop 1 (newest_strings self.now) }
    {
        match &self.newest {
            Some(extent) => extent.strings.newest(),
            None => unreachable!(),
        }
    }

    /// Takes the newest string off, and answers its extent where it was the only one there.
    pub(crate) fn pop(&mut self) -> Option<Box<Extent>>
        requires { 0 < length (newest_strings self.old) }
        ensures left { IfNone result (LosesString self.old self.new) }
        ensures emptied { IfSome result (λ e. LosesExtent self.old self.new (number_of e.value)) }
        ensures only { IfSome result (λ _. length (newest_strings self.old) ≡ 1) }
    {
        match &mut self.newest {
            Some(extent) => {
                if extent.strings.len() > 1 {
                    extent.strings.pop();
                    return None;
                }
            }
            None => unreachable!(),
        }
        self.take_newest()
    }

    /// Takes the newest extent off, with all its strings, where there is one.
    pub(crate) fn take_newest(&mut self) -> Option<Box<Extent>>
        ensures taken { IfSome result (λ e. LosesExtent self.old self.new (number_of e.value)) }
        ensures none { IfNone result (self.old ≡ []) }
        ensures rest { IfNone result (self.new ≡ []) }
    {
        let mut extent = self.newest.take()?;
        self.newest = extent.older.take();
        Some(extent)
    }
}
