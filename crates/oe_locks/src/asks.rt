//! What is asked for before a row is read or written: its name, alone or beside others.
ghost use Rattle.std.specs.Prelude.{◌≡◌};
ghost use Rattle.oe_rows.specs.declared.locks.Mode.{Mode};

use oe_rows::{Mode, Name};

/// A lock that a stage asks for before its work.
#[derive(Clone, Copy)]
pub struct Lock {
    pub name: Name,
    pub mode: Mode,
}

impl Lock {
    /// Makes a lock of the name alone.
    #[inline(always)]
    pub fn exclusive(name: Name) -> Self
        ensures { result ≡ record { name = name; mode = Mode.Exclusive } }
    {
        Lock {
            name,
            mode: Mode::Exclusive,
        }
    }

    /// Makes a lock of the name beside others.
    pub fn shared(name: Name) -> Self
        ensures { result ≡ record { name = name; mode = Mode.Shared } }
    {
        Lock {
            name,
            mode: Mode::Shared,
        }
    }
}
