//! The rule of the words, and what each step makes of what its seat's holder knows. All of it is
//! for proofs: no value of these types is made.
ghost use Rattle.oe_moments.specs.Rule.{Kept, sees_newest, tells, announces, looks, makes_sure, clears, reads_purged, claims, scans, settles, finds, dealt_on, next_desk, keeper_out, first_keeper, dealer_first};

use crate::notes::Notes;
use atomic_table::{Play, Split, TableRule};

/// The rule, for a number of desks.
pub struct PinRule;

impl TableRule<u8, Notes, u64> for PinRule {
    ghost holds = { Kept };

    ghost first = { λ _. dealer_first };
}

/// A desk loads the newest moment.
pub struct SeesNewest;

impl Play<u8, Notes> for SeesNewest {
    ghost then = { sees_newest };
}

/// A desk raises the newest moment.
pub struct Tells;

impl Play<u8, Notes> for Tells {
    ghost then = { tells };
}

/// A desk stores the announcement of a pin.
pub struct Announces;

impl Play<u8, Notes> for Announces {
    ghost then = { announces };
}

/// A desk loads what the keeper claims.
pub struct Looks;

impl Play<u8, Notes> for Looks {
    ghost then = { looks };
}

/// A desk stores that its pin is sure.
pub struct MakesSure;

impl Play<u8, Notes> for MakesSure {
    ghost then = { makes_sure };
}

/// A desk stores that it has no pin.
pub struct Clears;

impl Play<u8, Notes> for Clears {
    ghost then = { clears };
}

/// A desk loads the moment up to which the keeper has purged.
pub struct ReadsPurged;

impl Play<u8, Notes> for ReadsPurged {
    ghost then = { reads_purged };
}

/// The keeper raises what it claims.
pub struct Claims;

impl Play<u8, Notes> for Claims {
    ghost then = { claims };
}

/// The keeper loads a desk's pin, in a scan.
pub struct Scans;

impl Play<u8, Notes> for Scans {
    ghost then = { scans };
}

/// The keeper stores the moment up to which it purges.
pub struct Settles;

impl Play<u8, Notes> for Settles {
    ghost then = { settles };
}

/// The keeper loads a desk's pin, for a read.
pub struct Finds;

impl Play<u8, Notes> for Finds {
    ghost then = { finds };
}

/// The next desk gets its seat.
pub struct DealsDesk;

impl Split<Notes> for DealsDesk {
    ghost left = { dealt_on };

    ghost right = { next_desk };
}

/// The keeper gets its seat.
pub struct DealsKeeper;

impl Split<Notes> for DealsKeeper {
    ghost left = { keeper_out };

    ghost right = { first_keeper };
}
