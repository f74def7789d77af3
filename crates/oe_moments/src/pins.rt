//! A desk's pin, and why there is none.
//!
//! A `Pin` can't be dropped: it ends in `Moments::unpin`, at the desk whose it is. Nothing here can
//! fail.
ghost use Rattle.std.specs.Prelude.{◌≡◌};
ghost use Rattle.oe_moments.specs.Pins.{ThePin};

use oe_values::{Moment, Terminal};
use std::marker::Model;

/// A desk's hold on a moment.
pub struct Pin {
    shop: u32,
    terminal: Terminal,
    moment: Moment,
}

impl Model for Pin {
    ghost Value = { ThePin };

    ghost view = { λ p. record { shop = p.shop; terminal = p.terminal; moment = p.moment } };

    ghost invariant = { λ p. Unit {0} };
}

/// What keeps a desk from pinning the newest moment that it knows: the keeper has claimed a later
/// one.
#[derive(Clone, Copy)]
pub struct TooOld {
    pub claim: Moment,
}

/// The pin is none of the desk's, whose pin word is this one.
#[derive(Clone, Copy)]
pub struct NotPinned {
    pub word: u64,
}

impl Pin {
    /// Makes the pin of a moment, which its desk has made sure.
    pub(crate) fn new(shop: u32, terminal: Terminal, moment: Moment) -> Pin
        ensures { result ≡ record { shop = shop; terminal = terminal; moment = moment } }
    {
        Pin {
            shop,
            terminal,
            moment,
        }
    }

    /// Spends the pin, whose desk holds it no more.
    pub(crate) fn spend(self) {
        let Pin {
            shop: _,
            terminal: _,
            moment: _,
        } = self;
    }

    /// Gives the name of the shop where it holds.
    pub fn shop(&self) -> u32
        ensures { result ≡ self.now.shop }
    {
        self.shop
    }

    /// Gives the terminal whose desk holds it.
    pub fn terminal(&self) -> Terminal
        ensures { result ≡ self.now.terminal }
    {
        self.terminal
    }

    /// Gives the moment that it holds.
    pub fn moment(&self) -> Moment
        ensures { result ≡ self.now.moment }
    {
        self.moment
    }
}
