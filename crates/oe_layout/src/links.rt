//! What leads from a record to the previous one of its row.
ghost use Rattle.std.specs.Prelude.{◌≡◌, ◌≤◌, ◌↔◌, IsSome, IfSome};
ghost use Rattle.std.specs.Int.{IsInRange};
ghost use Rattle.std.specs.Option.{option_map};
ghost use Rattle.oe_layout.specs.declared.parts.TheConstants.{LINK_BYTES};
ghost use Rattle.oe_layout.specs.Links.{link_numbers, previous_image, at_address, nothing_at, previous_of, previous_at};

use crate::parts::LINK_BYTES;
use oe_extent::Address;
use oe_extent::numbers::read_number;
use oe_image::Imaged;
use oe_values::numbers::{Moment, Number};
use std::marker::Model;

/// The moment that a commit made, from 1 to 999,999,999,999: moment 0 is before the first commit.
#[derive(Clone, Copy, PartialEq, Eq)]
pub struct CommitMoment {
    commits: u64,
}

impl Model for CommitMoment {
    ghost use Rattle.std.specs.Prelude.{ℕ};
    ghost use Rattle.std.specs.Int.{IsInRange};

    ghost Value = { ℕ };

    ghost view = { λ m. m.commits };

    ghost invariant = { λ m. IsInRange 1 999_999_999_999 m.commits };

    ghost inverse = { λ n. record { commits = n } };
}

impl CommitMoment {
    /// Makes the moment that the commit of this number made, where it is in the range.
    #[inline]
    pub fn new(commits: u64) -> Option<Self>
        ensures variant { IsSome result ↔ IsInRange 1 999_999_999_999 commits }
        ensures value { IfSome result (λ m. m ≡ commits) }
    {
        if commits == 0 || commits > 999_999_999_999 {
            return None;
        }
        Some(CommitMoment { commits })
    }

    /// Makes it of a moment, which is not the first.
    #[inline]
    pub fn of(moment: Moment) -> Self
        requires { 1 ≤ moment }
        ensures { result ≡ moment }
    {
        CommitMoment {
            commits: moment.get(),
        }
    }

    /// Gives the number of commits up to it.
    #[inline]
    pub fn get(self) -> u64
        ensures value { result ≡ self }
        ensures range { IsInRange 1 999_999_999_999 result }
    {
        self.commits
    }

    /// Gives the moment.
    #[inline]
    pub fn moment(self) -> Moment
        ensures { result ≡ self }
    {
        Moment::new(self.commits).unwrap()
    }
}

/// The previous record of the same row.
#[derive(Clone, Copy, PartialEq, Eq)]
pub enum Previous {
    /// There is none.
    Nothing,
    /// Of the same transaction.
    Own(Address),
    /// Of a transaction whose commit made that moment.
    Committed(Address, CommitMoment),
}

impl Previous {
    /// Gives the link as three numbers: extent, offset and moment.
    #[inline]
    fn numbers(&self) -> (u16, (u16, u64))
        ensures { result ≡ link_numbers self.now }
    {
        match self {
            Previous::Nothing => (65_535, (65_535, 0)),
            Previous::Own(address) => {
                let extent = address.extent.get() as u16;
                (extent, (address.offset.get() as u16, u64::MAX))
            }
            Previous::Committed(address, moment) => {
                let extent = address.extent.get() as u16;
                (extent, (address.offset.get() as u16, moment.get()))
            }
        }
    }
}

impl Imaged for Previous {
    ghost most = { LINK_BYTES };

    ghost image = { λ p. previous_image p };

    #[inline]
    fn length(&self) -> usize {
        let _numbers = self.numbers();
        LINK_BYTES
    }

    #[inline]
    fn write(&self, bytes: &mut [u8], start: usize) -> usize {
        self.numbers().write(bytes, start)
    }
}

/// Gives what these numbers stand for behind an address.
#[inline]
fn at_address(address: Address, moment: u64) -> Option<Previous>
    ensures { result ≡ at_address address moment }
{
    if moment == u64::MAX {
        return Some(Previous::Own(address));
    }
    match CommitMoment::new(moment) {
        Some(moment) => Some(Previous::Committed(address, moment)),
        None => None,
    }
}

/// Gives what these numbers stand for, if anything.
#[inline]
fn previous_of(extent: u64, offset: u64, moment: u64) -> Option<Previous>
    ensures { result ≡ previous_of (extent, (offset, moment)) }
{
    if extent == 65_535 {
        return if offset == 65_535 && moment == 0 {
            Some(Previous::Nothing)
        } else {
            None
        };
    }
    if extent > 4_095 || offset > 4_095 {
        return None;
    }
    let extent = Number::new(extent as u32)?;
    let offset = Number::new(offset as u32)?;
    at_address(Address { extent, offset }, moment)
}

/// Reads the link to the previous record at the front of the bytes, and answers the bytes behind it
/// too.
#[tactic(auto, unfolding(crate::specs::Links::previous_at))]
pub(crate) fn read_previous(bytes: &[u8]) -> Option<(Previous, &[u8])>
    ensures { option_map (λ x. (x.0, x.1.now)) result ≡ previous_at bytes.now }
{
    let Some((extent, rest)) = read_number(bytes, 2) else {
        return None;
    };
    let Some((offset, rest)) = read_number(rest, 2) else {
        return None;
    };
    let Some((moment, rest)) = read_number(rest, 8) else {
        return None;
    };
    let Some(previous) = previous_of(extent, offset, moment) else {
        return None;
    };
    Some((previous, rest))
}
