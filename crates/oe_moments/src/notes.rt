//! What the holder of a seat knows of the words: what a desk saw and told, how far its pin has
//! come, and how far the keeper's scan has.
use oe_values::Moment;

/// How far a desk's pin has come.
#[derive(Clone, Copy)]
pub enum PinState {
    /// There is none.
    Free,
    /// The desk announced a pin of the moment.
    Announced(Moment),
    /// It has since looked at what the keeper claims.
    Looked(Moment),
    /// The pin holds: the keeper purges nothing that a read of the moment needs.
    Sure(Moment),
}

/// What a desk knows: its number from 0, the newest moment that it has seen or told, the claim that
/// it looked at last, and its pin. `turned` turns over with each load of the newest moment, so that
/// a clause can say that there was one.
#[derive(Clone, Copy)]
pub struct DeskNotes {
    pub number: u64,
    pub seen: Moment,
    pub claim: Moment,
    pub pin: PinState,
    pub turned: bool,
}

/// What the keeper found where it looked for a pin last: the number of the desk, and its word.
/// `turned` turns over with each look, so that a clause can say that there was one.
#[derive(Clone, Copy)]
pub struct Found {
    pub desk: u64,
    pub word: u64,
    pub turned: bool,
}

/// What the keeper knows: whether it scans, how many desks' pins it has passed since its last
/// claim, what it claimed, the least of that and of those pins, its horizon, and what it found.
/// `turned` turns over with each claim.
#[derive(Clone, Copy)]
pub struct KeeperNotes {
    pub scanning: bool,
    pub passed: u64,
    pub claim: Moment,
    pub least: Moment,
    pub horizon: Moment,
    pub turned: bool,
    pub found: Found,
}

/// What the dealer knows: how many desks have a seat, and whether the keeper has one.
#[derive(Clone, Copy)]
pub struct DealerNotes {
    pub dealt: u64,
    pub keeper: bool,
}

/// What the holder of a seat knows. It is for proofs: no value of it is made.
pub enum Notes {
    Gone,
    Dealer(DealerNotes),
    Desk(DeskNotes),
    Keeper(KeeperNotes),
}
