//! Links as they are followed: where a key's newest record lies, and whose it is by now. An
//! `OwnedLink` is kept of each. Nothing here takes memory or can fail.
ghost use Rattle.std.specs.Prelude.{◌≡◌, true, IfSome};
ghost use Rattle.oe_undo.specs.Chains.{link_from, previous_by, previous_of};
ghost use Rattle.oe_undo.specs.Held.{is_later};

use oe_extent::Address;
use oe_layout::{CommitMoment, Previous};
use oe_values::{Moment, Terminal};

/// Whose a record is.
#[derive(Clone, Copy, PartialEq, Eq)]
pub enum Holder {
    /// That terminal's open transaction's.
    Open(Terminal),
    /// Of the commit that made that moment.
    At(Moment),
}

/// Where a key's newest record lies, and whose it is.
#[derive(Clone, Copy, PartialEq, Eq)]
pub struct Link {
    pub address: Address,
    pub holder: Holder,
}

impl Holder {
    /// Tells whether a record of this holder is put back on the way to the moment: it is open, or
    /// of a later commit.
    pub fn is_later(&self, moment: Moment) -> bool
        ensures { result ≡ is_later moment self.now }
    {
        match self {
            Holder::Open(_) => true,
            Holder::At(made) => moment < *made,
        }
    }

    /// Gives the link that a previous one is in a record of this holder.
    pub fn link_from(self, previous: Previous) -> Option<Link>
        ensures { result ≡ link_from self previous }
    {
        match previous {
            Previous::Nothing => None,
            Previous::Own(address) => Some(Link {
                address,
                holder: self,
            }),
            Previous::Committed(address, moment) => Some(Link {
                address,
                holder: Holder::At(moment.moment()),
            }),
        }
    }
}

impl Link {
    /// Gives what a record has as previous, where its key has this link. No link has moment 0.
    fn previous(&self) -> Previous
        requires { is_later 0 self.now.holder ≡ true }
        ensures { result ≡ previous_by self.now.holder self.now.address }
    {
        let address = self.address;
        match &self.holder {
            Holder::Open(_) => Previous::Own(address),
            Holder::At(moment) => { Previous::Committed(address, CommitMoment::of(*moment)) }
        }
    }
}

/// Gives what a record has as previous, where the key has a link or none.
pub(crate) fn previous_of(link: Option<Link>) -> Previous
    requires { IfSome link (λ l. is_later 0 l.holder ≡ true) }
    ensures { result ≡ previous_of link }
{
    match link {
        None => Previous::Nothing,
        Some(link) => link.previous(),
    }
}
