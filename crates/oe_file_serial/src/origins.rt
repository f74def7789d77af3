//! What the first transaction of a file begins from.
ghost use Rattle.std.specs.Prelude.{◌≡◌};
ghost use Rattle.oe_file_serial.specs.Verdicts.{opening_of};

use oe_store::Tables;

/// What the first line of a file opens.
#[derive(Clone, Copy)]
pub enum Opening {
    /// The population of a scale, with an undo ring.
    OfScale,
    /// An undo ring alone.
    OfRing,
}

/// The tables that the first transaction of a file finds.
pub enum Origin {
    /// The population of the scale that the first line opens.
    Population,
    /// These.
    Tables(Tables),
}

impl Origin {
    /// Tells what the first line opens.
    pub(crate) fn opening(&self) -> Opening
        ensures { result ≡ opening_of self.now }
    {
        match self {
            Origin::Population => Opening::OfScale,
            Origin::Tables(_) => Opening::OfRing,
        }
    }

    /// Lets go of the tables.
    pub(crate) fn discard(self) {
        match self {
            Origin::Population => {}
            Origin::Tables(tables) => tables.discard(),
        }
    }
}
