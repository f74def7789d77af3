//! The words, and the seats by which a desk, the keeper and the dealer use them.
//!
//! Each call takes its caller's seat, and says what the holder knows after it. By the invariants a
//! seat's notes are what the rule of the words keeps for it, and there is a word for each desk that
//! has a seat. Only `open` takes memory, and may be refused it. No call waits.
ghost use Rattle.std.specs.Prelude.{◌≡◌, ◌≢◌, ◌↔◌, ℕ, ◌+◌, ◌-◌, ◌<◌, ◌≤◌, max, true, false, IfOk, IfErr, OnOk, OnErr, IsTrue};
ghost use Rattle.atomic_table.specs.Seated.{TableId};
ghost use Rattle.oe_moments.specs.Rule.{notes_after_sight, turn, with_pin, notes_after_look, pin_after_look, after_claim, least_with, after_desk, after_purge, saw_pin, fresh, at_start, no_pin, announced_word, sure_word, pin_word};
ghost use Rattle.oe_moments.specs.Pins.{TheSeat, TheKeeper, TheDealer, AreOfDesks, HaveDesk, with_notes, with_watch, with_deal, is_pinned, is_sure, Holds};
ghost use Rattle.oe_moments.specs.declared.notes.PinState.TheVariants.{Free, Announced, Looked, Sure};
ghost use Rattle.oe_moments.specs.declared.notes.Notes.TheVariants.{Dealer, Desk, Keeper};

use crate::notes::{DealerNotes, DeskNotes, Found, KeeperNotes, Notes, PinState};
use crate::pins::{NotPinned, Pin, TooOld};
use crate::rules::{
    Announces, Claims, Clears, DealsDesk, DealsKeeper, Finds, Looks, MakesSure, PinRule,
    ReadsPurged, Scans, SeesNewest, Settles, Tells,
};
use atomic_table::{Seat, Table};
use oe_values::{Moment, Terminal, TerminalCount};
use std::alloc::{AllocError, Global};
use std::marker::Model;

// The words by their numbers: the newest moment, what the keeper claims, the moment up to which it
// has purged, and from `PINS` on a pin for each desk.
const NEWEST: usize = 0;

const CLAIM: usize = 1;

const PURGED: usize = 2;

const PINS: usize = 3;

// The word of a desk that has no pin.
const NONE: u64 = 0;

/// The words: the newest moment, what the keeper claims, the moment up to which it has purged, and
/// a pin for each desk.
#[derive(Drop)]
pub struct Moments {
    table: Table<u8, Notes, u64, PinRule, Global>,
    desks: u64,
}

impl Model for Moments {
    ghost Value = { TableId };

    ghost view = { λ m. m.table.shared.table_id };

    ghost invariant = { λ m. AreOfDesks m.table.shared.table_id m.table.shared.key
        × (m.desks ≡ m.table.shared.key) × (m.desks ≤ 64) };
}

/// The seat of the dealer, who gives the others theirs.
#[derive(Drop)]
pub struct DealerSeat {
    chair: Seat<u8, Notes>,
    knows: DealerNotes,
    shop: u32,
}

impl Model for DealerSeat {
    ghost Value = { TheDealer };

    ghost view = { λ s. record { words = s.chair.table_id; shop = s.shop; notes = s.knows } };

    ghost invariant = { λ s. s.chair.me.0 ≡ Dealer s.knows };
}

/// A desk's seat.
#[derive(Drop)]
pub struct DeskSeat {
    chair: Seat<u8, Notes>,
    knows: DeskNotes,
    shop: u32,
    terminal: Terminal,
}

impl Model for DeskSeat {
    ghost Value = { TheSeat };

    ghost view = { λ s. record {
      words = s.chair.table_id;
      shop = s.shop;
      terminal = s.terminal;
      notes = s.knows;
    } };

    ghost invariant = { λ s. (s.chair.me.0 ≡ Desk s.knows)
        × HaveDesk s.chair.table_id s.knows.number × (s.knows.number + 1 ≡ s.terminal) };
}

/// The seat of the keeper, who purges.
#[derive(Drop)]
pub struct KeeperSeat {
    chair: Seat<u8, Notes>,
    knows: KeeperNotes,
}

impl Model for KeeperSeat {
    ghost Value = { TheKeeper };

    ghost view = { λ s. record { words = s.chair.table_id; notes = s.knows } };

    ghost invariant = { λ s. s.chair.me.0 ≡ Keeper s.knows };
}

impl DeskSeat {
    /// Tells what the desk knows, and that it is the desk of its terminal.
    pub fn notes(&self) -> DeskNotes
        ensures notes { result ≡ self.now.notes }
        ensures terminal { result.number + 1 ≡ self.now.terminal }
        ensures word { HaveDesk self.now.words result.number }
    {
        // A read of a field tells the prover what the seat's invariant says.
        let _terminal = self.terminal;
        self.knows
    }

    /// Gives the terminal whose seat it is.
    pub fn terminal(&self) -> Terminal
        ensures { result ≡ self.now.terminal }
    {
        self.terminal
    }

    /// Gives the shop's name.
    pub fn shop(&self) -> u32
        ensures { result ≡ self.now.shop }
    {
        self.shop
    }

    /// Tells whether the desk has a pin out.
    pub fn is_pinned(&self) -> bool
        ensures { result ≡ is_pinned self.now.notes.pin }
    {
        match self.knows.pin {
            PinState::Free => false,
            PinState::Announced(_) | PinState::Looked(_) | PinState::Sure(_) => true,
        }
    }

    /// Tells whether a pin is the desk's, and sure.
    pub fn holds(&self, pin: &Pin) -> bool
        ensures { IsTrue result ↔ Holds self.now pin.now }
    {
        let PinState::Sure(moment) = self.knows.pin else {
            return false;
        };
        moment.get() == pin.moment().get()
            && self.terminal.get() == pin.terminal().get()
            && self.shop == pin.shop()
    }

    /// Gives the pin word of the desk.
    pub fn word(&self) -> u64
        ensures { result ≡ pin_word self.now.notes.pin }
    {
        match self.knows.pin {
            PinState::Free => NONE,
            PinState::Announced(moment) | PinState::Looked(moment) => announced(moment),
            PinState::Sure(moment) => sure(moment),
        }
    }
}

impl Moments {
    /// Makes the words of a shop with that number of desks, and the dealer's seat. Memory is the
    /// only refusal.
    pub fn open(
        alloc: Global,
        shop: u32,
        desks: TerminalCount,
    ) -> Result<(Moments, DealerSeat), AllocError>
        ensures words { IfOk result (λ r. AreOfDesks r.0 desks) }
        ensures dealer { IfOk result (λ r. r.1 ≡ record {
          words = r.0;
          shop = shop;
          notes = record { dealt = 0; keeper = false };
        }) }
    {
        let desks = desks.get() as u64;
        let zeros = vec![in alloc; NONE; desks as usize + PINS]?;
        let (table, chair) = Table::of_words(alloc, zeros.as_slice(), &desks)?;
        let knows = DealerNotes {
            dealt: 0,
            keeper: false,
        };
        Ok((Moments { table, desks }, DealerSeat { chair, knows, shop }))
    }

    /// Gives the next desk its seat: the first is terminal 1's.
    pub fn deal(&self, dealer: &mut DealerSeat) -> DeskSeat
        requires words { dealer.old.words ≡ self.now }
        requires more { HaveDesk self.now dealer.old.notes.dealt }
        ensures dealer { dealer.new ≡ with_deal (record {
          dealt = dealer.old.notes.dealt + 1;
          keeper = dealer.old.notes.keeper;
        }) dealer.old }
        ensures seat { result ≡ record {
          words = self.now;
          shop = dealer.old.shop;
          terminal = dealer.old.notes.dealt + 1;
          notes = fresh dealer.old.notes.dealt;
        } }
    {
        let shared = &self.table.shared;
        let number = dealer.knows.dealt;
        let chair = shared.split_seat::<DealsDesk>(&mut dealer.chair);
        dealer.knows.dealt = number + 1;
        let start = Moment::new(0).unwrap();
        DeskSeat {
            chair,
            knows: DeskNotes {
                number,
                seen: start,
                claim: start,
                pin: PinState::Free,
                turned: false,
            },
            shop: dealer.shop,
            terminal: Terminal::new(number as u32 + 1).unwrap(),
        }
    }

    /// Gives the keeper its seat.
    pub fn deal_keeper(&self, dealer: &mut DealerSeat) -> KeeperSeat
        requires words { dealer.old.words ≡ self.now }
        requires first { dealer.old.notes.keeper ≡ false }
        ensures dealer { dealer.new ≡ with_deal (record {
          dealt = dealer.old.notes.dealt;
          keeper = true;
        }) dealer.old }
        ensures seat { result ≡ record { words = self.now; notes = at_start } }
    {
        let shared = &self.table.shared;
        // A read of a field tells the prover what the seat's invariant says.
        let _keeper = dealer.knows.keeper;
        let chair = shared.split_seat::<DealsKeeper>(&mut dealer.chair);
        dealer.knows.keeper = true;
        let start = Moment::new(0).unwrap();
        KeeperSeat {
            chair,
            knows: KeeperNotes {
                scanning: false,
                passed: 0,
                claim: start,
                least: start,
                horizon: start,
                turned: false,
                found: Found {
                    desk: 0,
                    word: NONE,
                    turned: false,
                },
            },
        }
    }

    /// Loads the newest moment, which is at least each that this desk saw or told.
    pub fn newest(&self, seat: &mut DeskSeat) -> Moment
        requires { seat.old.words ≡ self.now }
        ensures seat { seat.new ≡ with_notes (notes_after_sight result seat.old.notes) seat.old }
        ensures rises { seat.old.notes.seen ≤ result }
    {
        let shared = &self.table.shared;
        let found = shared.load::<SeesNewest>(&mut seat.chair, NEWEST);
        let newest = Moment::new(found).unwrap();
        seat.knows.seen = newest;
        seat.knows.turned = !seat.knows.turned;
        newest
    }

    /// Tells a moment: from then on this desk sees no earlier one as the newest.
    pub fn told(&self, seat: &mut DeskSeat, moment: Moment)
        requires { seat.old.words ≡ self.now }
        ensures seat { seat.new ≡ with_notes
            (notes_after_sight seat.new.notes.seen seat.old.notes) seat.old }
        ensures rises { seat.old.notes.seen ≤ seat.new.notes.seen }
        ensures told { moment ≤ seat.new.notes.seen }
    {
        let shared = &self.table.shared;
        let found = shared.fetch_max::<Tells>(&mut seat.chair, NEWEST, moment.get());
        seat.knows.seen = Moment::new(found.max(moment.get())).unwrap();
        seat.knows.turned = !seat.knows.turned;
    }

    /// Announces a pin of the newest moment, which it loads. A sure pin has to be ended first.
    pub fn announce(&self, seat: &mut DeskSeat) -> Moment
        requires words { seat.old.words ≡ self.now }
        requires unsure { is_sure seat.old.notes.pin ≡ false }
        ensures seat { seat.new ≡
            with_notes (with_pin (Announced result)
            (notes_after_sight result seat.old.notes)) seat.old }
        ensures rises { seat.old.notes.seen ≤ result }
    {
        let newest = self.newest(seat);
        let shared = &self.table.shared;
        let word = seat.knows.number as usize + PINS;
        shared.store::<Announces>(&mut seat.chair, word, announced(newest));
        seat.knows.pin = PinState::Announced(newest);
        newest
    }

    /// Looks at the moment that the keeper claims.
    pub fn look(&self, seat: &mut DeskSeat) -> Moment
        requires { seat.old.words ≡ self.now }
        ensures seat { seat.new ≡ with_notes (notes_after_look result seat.old.notes) seat.old }
    {
        let shared = &self.table.shared;
        let found = shared.load::<Looks>(&mut seat.chair, CLAIM);
        let claim = Moment::new(found).unwrap();
        seat.knows.claim = claim;
        seat.knows.pin = after_look(&seat.knows.pin);
        claim
    }

    /// Makes the pin of a moment sure, since the claim that the desk looked at is not above it.
    pub fn sure(&self, seat: &mut DeskSeat, moment: Moment) -> Pin
        requires words { seat.old.words ≡ self.now }
        requires looked { seat.old.notes.pin ≡ Looked moment }
        requires claim { seat.old.notes.claim ≤ moment }
        ensures seat { seat.new ≡ with_notes (with_pin (Sure moment) seat.old.notes) seat.old }
        ensures pin { result ≡ record {
          shop = seat.old.shop;
          terminal = seat.old.terminal;
          moment = moment;
        } }
    {
        let shared = &self.table.shared;
        let word = seat.knows.number as usize + PINS;
        shared.store::<MakesSure>(&mut seat.chair, word, sure(moment));
        seat.knows.pin = PinState::Sure(moment);
        Pin::new(seat.shop, seat.terminal, moment)
    }

    /// Withdraws the desk's pin, which is announced at most. A sure one ends in `unpin`.
    pub fn clear(&self, seat: &mut DeskSeat)
        requires words { seat.old.words ≡ self.now }
        requires unsure { is_sure seat.old.notes.pin ≡ false }
        ensures { seat.new ≡ with_notes (with_pin Free seat.old.notes) seat.old }
    {
        self.withdraw(seat);
    }

    // Takes the desk's pin away, however far it has come.
    fn withdraw(&self, seat: &mut DeskSeat)
        requires { seat.old.words ≡ self.now }
        ensures free { seat.new ≡ with_notes (with_pin Free seat.old.notes) seat.old }
    {
        let shared = &self.table.shared;
        let word = seat.knows.number as usize + PINS;
        shared.store::<Clears>(&mut seat.chair, word, NONE);
        seat.knows.pin = PinState::Free;
    }

    /// Pins the newest moment, which it loads. `TooOld` with the keeper's claim, where that is above
    /// it.
    #[tactic(auto, using(crate::proofs::StepFacts::free_is_unsure))]
    pub fn pin(&self, seat: &mut DeskSeat) -> Result<Pin, TooOld>
        requires words { seat.old.words ≡ self.now }
        requires free { is_pinned seat.old.notes.pin ≡ false }
        ensures seat { seat.new ≡ with_notes seat.new.notes seat.old }
        ensures looked { seat.new.notes.turned ≡ turn seat.old.notes.turned }
        ensures number { seat.new.notes.number ≡ seat.old.notes.number }
        ensures rises { seat.old.notes.seen ≤ seat.new.notes.seen }
        ensures ok { IfOk result (λ p. Holds seat.new p × (p.moment ≡ seat.new.notes.seen)
            × (seat.new.notes.claim ≤ p.moment)) }
        ensures err { IfErr result (λ e. (seat.new.notes.pin ≡ Free)
            × (e.claim ≡ seat.new.notes.claim) × (seat.new.notes.seen < e.claim)) }
    {
        let newest = self.announce(seat);
        let claim = self.look(seat);
        if claim.get() > newest.get() {
            self.clear(seat);
            return Err(TooOld { claim });
        }
        Ok(self.sure(seat, newest))
    }

    /// Ends a pin of this desk. Any other is handed back with `NotPinned` and this desk's pin word,
    /// and nothing has changed.
    pub fn unpin(&self, seat: &mut DeskSeat, pin: Pin) -> Result<(), (NotPinned, Pin)>
        requires { seat.old.words ≡ self.now }
        ensures ok { OnOk result (seat.new ≡ with_notes (with_pin Free seat.old.notes) seat.old) }
        ensures own { OnOk result (Holds seat.old pin) }
        ensures err { IfErr result (λ e. (e.0.word ≡ pin_word seat.old.notes.pin)
            × (e.1 ≡ pin) × (seat.new ≡ seat.old)) }
        ensures other { OnErr result (Holds seat.old pin → ⊥) }
    {
        if !seat.holds(&pin) {
            return Err((NotPinned { word: seat.word() }, pin));
        }
        pin.spend();
        self.withdraw(seat);
        Ok(())
    }

    /// Loads the moment up to which the keeper has purged. Under a sure pin of this desk it is not
    /// above the pin's.
    pub fn purged(&self, seat: &mut DeskSeat) -> Moment
        requires { seat.old.words ≡ self.now }
        ensures same { seat.new ≡ seat.old }
        ensures sure { (n : ℕ) → seat.old.notes.pin ≡ Sure n → result ≤ n }
    {
        let shared = &self.table.shared;
        // A read of a field tells the prover what the seat's invariant says.
        let _number = seat.knows.number;
        let found = shared.load::<ReadsPurged>(&mut seat.chair, PURGED);
        Moment::new(found).unwrap()
    }

    /// Claims a moment, up to which the keeper would purge, and begins a scan.
    pub fn claim(&self, keeper: &mut KeeperSeat, moment: Moment)
        requires { keeper.old.words ≡ self.now }
        ensures { keeper.new ≡ with_watch (after_claim moment keeper.old.notes) keeper.old }
    {
        let shared = &self.table.shared;
        shared.fetch_max::<Claims>(&mut keeper.chair, CLAIM, moment.get());
        keeper.knows.scanning = true;
        keeper.knows.passed = 0;
        keeper.knows.claim = moment;
        keeper.knows.least = moment;
        keeper.knows.turned = !keeper.knows.turned;
    }

    /// Passes the next desk's pin, and gives its word.
    pub fn scan(&self, keeper: &mut KeeperSeat) -> u64
        requires words { keeper.old.words ≡ self.now }
        requires scanning { keeper.old.notes.scanning ≡ true }
        requires more { HaveDesk self.now keeper.old.notes.passed }
        ensures { keeper.new ≡ with_watch (after_desk result keeper.old.notes) keeper.old }
    {
        let shared = &self.table.shared;
        let word = keeper.knows.passed as usize + PINS;
        let found = shared.load::<Scans>(&mut keeper.chair, word);
        keeper.knows.passed += 1;
        keeper.knows.least = lower(keeper.knows.least, found);
        found
    }

    /// Purges up to the least moment of a scan of all desks, or no further than before, and gives
    /// the horizon.
    pub fn settle(&self, keeper: &mut KeeperSeat) -> Moment
        requires words { keeper.old.words ≡ self.now }
        requires scanning { keeper.old.notes.scanning ≡ true }
        requires all { AreOfDesks self.now keeper.old.notes.passed }
        ensures keeper { keeper.new ≡ with_watch (after_purge keeper.old.notes) keeper.old }
        ensures horizon { result ≡ keeper.new.notes.horizon }
    {
        let shared = &self.table.shared;
        let horizon = later(keeper.knows.horizon, keeper.knows.least);
        shared.store::<Settles>(&mut keeper.chair, PURGED, horizon.get());
        keeper.knows.scanning = false;
        keeper.knows.horizon = horizon;
        horizon
    }

    /// Claims a moment, scans each desk's pin, and settles: the horizon is then the later of the
    /// old one and the least of the moment and of those pins.
    pub fn purge(&self, keeper: &mut KeeperSeat, moment: Moment) -> Moment
        requires { keeper.old.words ≡ self.now }
        ensures keeper { keeper.new ≡ with_watch keeper.new.notes keeper.old }
        ensures claimed { (keeper.new.notes.claim ≡ moment)
            × (keeper.new.notes.turned ≡ turn keeper.old.notes.turned) }
        ensures all { AreOfDesks self.now keeper.new.notes.passed }
        ensures horizon { (result ≡ max keeper.old.notes.horizon keeper.new.notes.least)
            × (keeper.new.notes.horizon ≡ result) }
        ensures rises { keeper.old.notes.horizon ≤ result }
        ensures bound { result ≤ max keeper.old.notes.horizon moment }
        ensures ended { (keeper.new.notes.scanning ≡ false)
            × (keeper.new.notes.found ≡ keeper.old.notes.found) }
    {
        self.claim(keeper, moment);
        for _desk in 0..self.desks {
            self.scan(keeper);
        }
        self.settle(keeper)
    }

    /// Looks at the word of a pin's desk. Where the pin is found, the horizon is not above its
    /// moment. `NotPinned` with the word that was found, where it is another.
    pub fn find(&self, keeper: &mut KeeperSeat, pin: &Pin) -> Result<(), NotPinned>
        requires words { keeper.old.words ≡ self.now }
        requires desk { HaveDesk self.now (pin.now.terminal - 1) }
        ensures found { keeper.new ≡ with_watch (saw_pin (pin.now.terminal - 1)
            keeper.new.notes.found.word keeper.old.notes) keeper.old }
        ensures ok { OnOk result (keeper.new.notes.found.word ≡ sure_word pin.now.moment) }
        ensures young { OnOk result (keeper.old.notes.horizon ≤ pin.now.moment) }
        ensures err { IfErr result (λ e. (e.word ≡ keeper.new.notes.found.word)
            × (e.word ≢ sure_word pin.now.moment)) }
    {
        let shared = &self.table.shared;
        let desk = (pin.terminal().get() - 1) as u64;
        let found = shared.load::<Finds>(&mut keeper.chair, desk as usize + PINS);
        keeper.knows.found = Found {
            desk,
            word: found,
            turned: !keeper.knows.found.turned,
        };
        if found != sure(pin.moment()) {
            return Err(NotPinned { word: found });
        }
        Ok(())
    }
}

// Gives the word of a pin that is announced.
fn announced(moment: Moment) -> u64
    ensures { result ≡ announced_word moment }
{
    2 * moment.get() + 1
}

// Gives the word of a pin that is sure.
fn sure(moment: Moment) -> u64
    ensures { result ≡ sure_word moment }
{
    2 * moment.get() + 2
}

// Gives the pin after a look at the claim.
fn after_look(pin: &PinState) -> PinState
    ensures { result ≡ pin_after_look pin.now }
{
    match pin {
        PinState::Announced(moment) => PinState::Looked(*moment),
        PinState::Free | PinState::Looked(_) | PinState::Sure(_) => *pin,
    }
}

// Lowers the least moment of a scan to the one that a pin word holds.
fn lower(least: Moment, found: u64) -> Moment
    ensures { result ≡ least_with least found }
{
    if found == NONE {
        return least;
    }
    Moment::new(least.get().min((found - 1) / 2)).unwrap()
}

// Gives the later moment.
fn later(one: Moment, other: Moment) -> Moment
    ensures { result ≡ max one other }
{
    Moment::new(one.get().max(other.get())).unwrap()
}
