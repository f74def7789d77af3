//! The shop, which gives each terminal a desk, and the desks, which threads own.
//!
//! Each call of a desk that asks the core is one turn of the hall's lock; it may wait for it, and
//! stands in the one history with its answer, under the terminal's number. What a desk knows of
//! moments and pins stands in its seat, and those calls never wait. By the invariants a desk has
//! one part of each ledger with what it was told, the shop has the others with nothing told, and
//! the places that no desk has are as they were dealt. An `Open`, like a `Pin`, can't be dropped:
//! the desk that began it ends it.
ghost use Rattle.std.specs.Prelude.{◌≡◌, ◌≢◌, ◌↔◌, ℕ, suc, ◌+◌, ◌-◌, ◌<◌, ◌≤◌, length, [], vec_capacity, slice_get, slice_set, sum_by, IfOk, IfErr, OnOk, OnErr, Some, None, IsTrue, false};
ghost use Rattle.std.specs.Arc.{arc_value};
ghost use Rattle.std.specs.Option.{option_copied};
ghost use Rattle.atomic_table.specs.Seated.{TableId};
ghost use Rattle.oe_theory.specs.World.{newest, horizon};
ghost use Rattle.oe_theory.specs.Next.{IsQuiet};
ghost use Rattle.oe_theory.specs.Theorems.{world_at_opening};
ghost use Rattle.oe_model.specs.Conditions.{IsPopulation};
ghost use Rattle.oe_model.specs.System.{system};
ghost use Rattle.oe_store.specs.Places.{rows};
ghost use Rattle.oe_moments.specs.Rule.{notes_after_sight, turn, with_pin, at_start, pin_word};
ghost use Rattle.oe_moments.specs.Pins.{AreOfDesks, with_notes, is_pinned, Holds};
ghost use Rattle.oe_moments.specs.declared.notes.PinState.TheVariants.{Free};
ghost use Rattle.oe_history.specs.Views.{calls_by};
ghost use Rattle.oe_history.specs.Calls.{TheHistory, TheCaller, Knows};
ghost use Rattle.oe_hall.specs.Naming.{names_at_opening};
ghost use Rattle.oe_hall.specs.Counts.{tally_of, tally, with_one_more, AreTotals};
ghost use Rattle.oe_hall.specs.Histories.{IsHistory, HasHappened, is_open};
ghost use Rattle.oe_hall.specs.Turns.{TheHall, IsHall, open_count, begin_told, tally_after, end_told, LeavesReply, IsYoung, BeginLeaves, AdvanceLeaves, EndLeaves};
ghost use Rattle.oe_hall.specs.Seats.{ThePlace, TheRoom, IsHere, AreHere, HasCalled, HaveCalled, silent, fresh_seat, fresh_place, AreFresh, waiting};
ghost use Rattle.oe_hall.specs.Desks.{TheDesk, TheShop, TheSeats, AreSums, AreOpen, begun_by, committed_by, rolled_back_by, with_told, with_reply, with_seat, with_calls, seat_for, IsOwn, Keeps, KeepsOnErr, begins, advances, ends, IsBalanced, ABegin, AnAdvance, AnEnd, ARead, AreKnown, IsNobodys, HasRoomToCount};

use crate::counts::{Counted, Told, UnopenedLedgers, open_ledgers};
use crate::hall::Hall;
use crate::naming::Naming;
use crate::purger::Purger;
use crate::records::Recorded;
use oe_history::{Caller, History};
use oe_machine::{Advanced, Machine};
use oe_moments::{DealerSeat, DeskSeat, KeeperSeat, Moments, NotPinned, Pin, TooOld};
use oe_requests::{Column, Query, QueryReply, Refusal, Reply, Request};
use oe_rows::Layout;
use oe_store::Tables;
use oe_values::{ExtentCount, Moment, NoMemory, Number, Terminal};
use std::alloc::{AllocError, Global};
use std::hint;
use std::marker::{Model, PhantomData};
use std::sync::{Arc, Mutex, MutexGuard, Wait};

/// A transaction that a desk began.
pub struct Open {
    shop: u32,
    terminal: Terminal,
}

/// What an advance answers at a desk.
pub enum Turn {
    /// The transaction is open, and has a stage left.
    More(Open),
    /// Nothing has changed.
    Kept(Open, Refusal),
    /// The transaction committed and made that moment. The desk lends its reply.
    Committed(Moment),
    /// The transaction is rolled back.
    RolledBack(Refusal),
}

/// What a shop lends to its desks: the locked hall, and the words.
pub struct Front<J: Naming, M: Machine> {
    pub(crate) hall: Mutex<Hall<J, M>>,
    moments: Arc<Moments>,
}

impl<J: Naming, M: Machine> Model for Front<J, M> {
    ghost Value = { TableId };

    ghost view = { λ f. arc_value f.moments };

    ghost invariant = { λ f. AreOfDesks (arc_value f.moments) 64
        × (arc_value f.moments ≡ J.names.words) };
}

/// The place of a terminal: its desk's seat, and the caller of its steps.
#[derive(Drop)]
pub struct Place {
    seat: DeskSeat,
    caller: Caller,
}

impl Model for Place {
    ghost Value = { ThePlace };

    ghost view = { λ p. record { seat = p.seat; calls = p.caller } };

    ghost invariant = { λ p. Unit {0} };
}

/// The words of a shop, the keeper's seat, its history with the purger, a place for each terminal,
/// its blank ledgers, and the layout of its undo records.
#[derive(Drop)]
pub struct Seats {
    moments: Arc<Moments>,
    other: Arc<Moments>,
    keeper: KeeperSeat,
    history: History,
    purger: Caller,
    desks: Vec<Option<Place>>,
    unopened: UnopenedLedgers,
    layout: Layout,
    shop: u32,
}

impl Model for Seats {
    ghost Value = { TheSeats };

    ghost view = { λ s. record {
      names = record {
        words = arc_value s.moments;
        history = s.history.table;
        begun = s.unopened.begun.name;
        committed = s.unopened.committed.name;
        rolled_back = s.unopened.rolled_back.name;
        layout = s.layout;
      };
      shop = s.shop;
    } };

    ghost invariant = { λ s. AreOfDesks (arc_value s.moments) 64
        × (arc_value s.other ≡ arc_value s.moments)
        × (s.keeper ≡ record { words = arc_value s.moments; notes = at_start })
        × (length s.desks.items ≡ 64) × (waiting s.desks.items ≡ 64)
        × AreFresh (record {
          words = arc_value s.moments;
          history = s.history.table;
          name = s.shop;
        }) s.desks.items
        × (s.history.log ≡ []) × (s.history.dealt ≡ 65) × (s.purger ≡ silent s.history.table 0) };
}

/// A shop: what it lends, and what gives the desks.
pub struct Shop<J: Naming, M: Machine> {
    front: Front<J, M>,
    seats: Vec<Option<Place>>,
    rest: Told<J>,
    given: u64,
    name: u32,
}

impl<J: Naming, M: Machine> Model for Shop<J, M> {
    ghost Value = { TheShop };

    ghost view = { λ s. record {
      room = record { words = s.front; history = J.names.history; name = s.name };
      given = s.given;
      seats = s.seats.items;
    } };

    ghost invariant = { λ s. AreOfDesks s.front 64 × (length s.seats.items ≡ 64)
        × AreFresh (record { words = s.front; history = J.names.history; name = s.name })
        s.seats.items
        × (s.rest.parts + s.given ≡ 65)
        × (waiting s.seats.items + s.given ≡ 64) × (s.rest ≡ tally_of s.rest.parts)
        × (s.front ≡ J.names.words) };
}

/// A terminal's desk.
#[derive(Drop)]
pub struct Desk<J: Naming> {
    seat: DeskSeat,
    caller: Caller,
    told: Told<J>,
    begun: u64,
    committed: u64,
    rolled_back: u64,
    reply: Option<Reply>,
}

impl<J: Naming> Model for Desk<J> {
    ghost Value = { TheDesk };

    ghost view = { λ d. record {
      seat = d.seat;
      calls = d.caller;
      told = d.told;
      reply = d.reply;
    } };

    ghost invariant = { λ d. (d.seat.words ≡ J.names.words) × (d.told ≡ record {
      parts = 1;
      begun = d.begun;
      committed = d.committed;
      rolled_back = d.rolled_back;
    }) × (d.caller.table ≡ J.names.history) × (d.caller.by ≡ d.seat.terminal)
        × HasHappened J.names.opened d.caller.seen
        × IsBalanced d.told (is_open d.caller.mine) };
}

/// What a closed shop leaves: its core, how much its desks were told in sum, and the history, which
/// contracts see. It can't be dropped, since the core can't.
pub struct Closed<M: Machine> {
    pub core: M,
    pub counted: Counted,
    pub history: History,
}

/// Why a shop can't be closed: its desks were told that many more begins than ends. It comes back
/// with its desks and its purger.
pub struct NotQuiet<J: Naming, M: Machine> {
    pub open: u64,
    pub shop: Shop<J, M>,
    pub desks: Vec<Desk<J>>,
    pub purger: Purger<J>,
}

/// How many transactions a desk begins at most: so the counts of 64 desks have a sum.
const MOST_BEGUN: u64 = u64::MAX / 64;

/// How often a turn asks for the lock again before it sleeps: behind 4 pauses of the processor, 8,
/// and so on to 1,024. A turn is shorter than a sleep; but where more threads run than there are
/// processors, who spins takes the time that the holder needs to give the lock back.
const TRIES: u32 = 9;

/// How many pauses come before the first such try.
const FIRST_PAUSES: u32 = 4;

// Lets some turns of others pass. Who has the hall's rows in its cache does some tens of turns in
// the longest pause, and the rows change hands less often.
fn pause(pauses: u32) {
    for _ in 0..pauses {
        hint::spin_loop();
    }
}

// Enters the hall, once nobody else is in it.
#[inline]
pub(crate) fn enter<'h, J: Naming, M: Machine, W: Wait>(
    rt: &W,
    hall: &'h Mutex<Hall<J, M>>,
) -> MutexGuard<'h, Hall<J, M>> {
    match hall.try_lock() {
        Some(guard) => guard,
        None => enter_later(rt, hall),
    }
}

// Enters the hall, in which somebody was.
#[inline(never)]
fn enter_later<'h, J: Naming, M: Machine, W: Wait>(
    rt: &W,
    hall: &'h Mutex<Hall<J, M>>,
) -> MutexGuard<'h, Hall<J, M>> {
    let mut pauses = FIRST_PAUSES;
    for _ in 0..TRIES {
        pause(pauses);
        if let Some(guard) = hall.try_lock() {
            return guard;
        }
        pauses = pauses.saturating_mul(2);
    }
    hall.lock(rt)
}

// Deals each terminal's place.
#[tactic(auto, using(crate::proofs::SeatFacts::fresh_snoc, crate::proofs::SeatFacts::waiting_snoc, crate::proofs::SeatFacts::fresh_none))]
fn deal_all(
    moments: &Moments,
    dealer: &mut DealerSeat,
    history: &mut History,
    places: &mut Vec<Option<Place>>,
)
    requires words { (dealer.old.words ≡ moments.now) × AreOfDesks moments.now 64 }
    requires first { dealer.old.notes.dealt ≡ 0 }
    requires second { history.old.dealt ≡ 1 }
    requires room { (places.old.items ≡ []) × (64 ≤ vec_capacity places.old) }
    ensures count { (length places.new.items ≡ 64) × (waiting places.new.items ≡ 64) }
    ensures fresh { AreFresh (record {
      words = moments.now;
      history = history.old.table;
      name = dealer.old.shop;
    }) places.new.items }
    ensures history { history.new ≡ record {
      table = history.old.table;
      log = history.old.log;
      dealt = 65;
    } }
{
    for _k in 0..64u64 {
        let seat = moments.deal(dealer);
        let caller = history.deal();
        places.push_reserved(Some(Place { seat, caller }));
    }
}

// Takes what stands in a slot.
fn take_seat(seats: &mut Vec<Option<Place>>, slot: usize) -> Option<Place>
    requires { slot < length seats.old.items }
    ensures value { slice_get seats.old.items slot ≡ Some result }
    ensures after { seats.new.items ≡ slice_set seats.old.items slot None }
{
    seats[slot].take()
}

impl Seats {
    /// Makes the words, the history and the ledgers of a shop of that name and layout, and deals
    /// all places. Memory is the only refusal.
    pub fn new(alloc: Global, shop: u32, layout: Layout) -> Result<Seats, AllocError>
        ensures { IfOk result (λ s. (s.shop ≡ shop) × (s.names.layout ≡ layout)) }
    {
        let desks = Number::new(64).unwrap();
        let (moments, mut dealer) = Moments::open(alloc, shop, desks)?;
        let keeper = moments.deal_keeper(&mut dealer);
        let moments = Arc::new(alloc, moments)?;
        let other = Arc::try_clone(&moments)?;
        let mut history = History::new(alloc)?;
        let purger = history.deal();
        let mut desks = Vec::with_capacity(alloc, 64)?;
        deal_all(&moments, &mut dealer, &mut history, &mut desks);
        Ok(Seats {
            moments,
            other,
            keeper,
            history,
            purger,
            desks,
            unopened: UnopenedLedgers::new(),
            layout,
            shop,
        })
    }

    // Gives the layout of the shop's undo records.
    fn layout(&self) -> Layout
        ensures { result ≡ self.now.names.layout }
    {
        self.layout
    }
}

impl<J: Naming, M: Machine> Shop<J, M> {
    /// Opens a shop on a population, with that number of undo extents, and gives its purger. Memory
    /// is the only refusal; seats have theirs.
    pub fn open(
        alloc: Global,
        tables: Tables,
        extents: ExtentCount,
        seats: Seats,
    ) -> Result<(Shop<J, M>, Purger<J>), NoMemory>
        requires population { IsPopulation (rows tables) }
        requires names { names_at_opening seats.names
            (world_at_opening system (rows tables) extents seats.names.layout) ≡ J.names }
        ensures new { IfOk result (λ s. (s.0.room.name ≡ seats.shop) × (s.0.given ≡ 0)) }
        ensures free { IfOk result (λ s. (t : ℕ) → seat_for s.0 t ≢ Some None) }
        ensures purger { IfOk result (λ s. s.1 ≡ silent J.names.history 0) }
    {
        let layout = seats.layout();
        let core = M::open(alloc, tables, extents, layout)?;
        Ok(Shop::over(core, seats))
    }

    // Opens a shop on a core that has begun nothing.
    fn over(core: M, seats: Seats) -> (Shop<J, M>, Purger<J>)
        requires newest { newest system (M.world core) ≡ 0 }
        requires quiet { open_count (M.world core) ≡ 0 }
        requires horizon { horizon system (M.world core) ≡ 0 }
        requires names { names_at_opening seats.names (M.world core) ≡ J.names }
        requires layout { (M.world core).layout ≡ J.names.layout }
        requires none { IsQuiet system (M.world core) }
        ensures new { (result.0.room.name ≡ seats.shop) × (result.0.given ≡ 0) }
        ensures free { (t : ℕ) → seat_for result.0 t ≢ Some None }
        ensures purger { result.1 ≡ silent J.names.history 0 }
    {
        let Seats {
            moments,
            other,
            keeper,
            history,
            purger,
            desks,
            unopened,
            layout: _,
            shop,
        } = seats;
        let (totals, rest) = open_ledgers::<J>(unopened);
        let recorded = Recorded::new(core, history);
        let hall = Hall::new(recorded, totals, other, keeper);
        let shop = Shop {
            front: Front {
                hall: Mutex::new(hall),
                moments,
            },
            seats: desks,
            rest,
            given: 0,
            name: shop,
        };
        let purger = Purger {
            caller: purger,
            of: PhantomData,
        };
        (shop, purger)
    }

    /// Gives a terminal its desk. `AlreadyOpen` where it has one, and nothing has changed then.
    #[tactic(auto, using(crate::proofs::SeatFacts::fresh_set, crate::proofs::SeatFacts::waiting_set, crate::proofs::SeatFacts::set_idle, crate::proofs::SeatFacts::get_set))]
    pub fn desk(&mut self, terminal: Terminal) -> Result<Desk<J>, Refusal>
        ensures ok { IfOk result (λ d.
            d ≡ record {
              seat = fresh_seat self.old.room.words self.old.room.name (terminal - 1);
              calls = silent self.old.room.history (suc (terminal - 1));
              told = tally_of 1;
              reply = None;
            }) }
        ensures given { OnOk result ((self.new.given ≡ self.old.given + 1)
            × (self.new.room ≡ self.old.room)
            × (self.new.seats ≡ slice_set self.old.seats (terminal - 1) None)) }
        ensures err { IfErr result (λ e. e ≡ Refusal.AlreadyOpen) }
        ensures same { OnErr result ((self.new ≡ self.old)
            × (seat_for self.old terminal ≡ Some None)) }
    {
        let slot = terminal.get() as usize - 1;
        let given = self.given;
        let Some(place) = take_seat(&mut self.seats, slot) else {
            return Err(Refusal::AlreadyOpen);
        };
        let Place { seat, caller } = place;
        let told = self.rest.split_one();
        self.given = given + 1;
        Ok(Desk {
            seat,
            caller,
            told,
            begun: 0,
            committed: 0,
            rolled_back: 0,
            reply: None,
        })
    }

    /// Lends what the calls of its desks take.
    pub fn front(&self) -> &Front<J, M>
        ensures { result.now ≡ self.now.room.words }
    {
        let _name = self.name;
        &self.front
    }

    /// Closes the shop, where all that its desks began has ended: gives the core, how much each
    /// desk was told in sum, and the history. `NotQuiet` where a transaction is open; shop, desks
    /// and purger come back.
    ///
    /// The history leads from the world with which the shop opened to the core's. Each desk's calls
    /// stand there as the desk was told them, in its order, and so do the purger's, and no others.
    pub fn close(
        self,
        mut desks: Vec<Desk<J>>,
        purger: Purger<J>,
    ) -> Result<Closed<M>, NotQuiet<J, M>>
        requires all { length desks.items ≡ self.given }
        ensures run { IfOk result (λ r.
            IsHistory J.names.opened r.history.log (M.world r.core)) }
        ensures told { IfOk result (λ r. AreKnown r.history.log desks.items
            × Knows r.history.log purger) }
        ensures purges { IfOk result (λ r. calls_by 0 r.history.log ≡ purger.mine) }
        ensures others { IfOk result (λ r.
            (by : ℕ) → IsNobodys self.seats by → calls_by by r.history.log ≡ []) }
        ensures sums { IfOk result (λ r. AreSums desks.items r.counted) }
        ensures ended { IfOk result (λ r.
            r.counted.begun ≡ r.counted.committed + r.counted.rolled_back) }
        ensures quiet { IfOk result (λ r. open_count (M.world r.core) ≡ 0) }
        ensures newest { IfOk result (λ r.
            newest system (M.world r.core) ≡ r.counted.committed) }
        ensures layout { IfOk result (λ r. (M.world r.core).layout ≡ J.names.layout) }
        ensures back { IfErr result (λ e. (e.shop ≡ self) × (e.desks.items ≡ desks.items)
            × (e.purger ≡ purger)) }
        ensures open { IfErr result (λ e. (1 ≤ e.open) × AreOpen desks.items e.open) }
    {
        let Shop {
            front,
            mut seats,
            mut rest,
            given,
            name,
        } = self;
        let mut purger = purger;
        let Front { hall, moments } = front;
        let mut hall = hall.into_inner();
        let counted = audit_list(&mut hall, &mut rest, &mut desks, Counted::none());
        hall.look(&mut purger.caller);
        look_at_list(&mut hall, &mut seats);
        let open = counted.begun - counted.committed - counted.rolled_back;
        if open == 0 {
            let (core, history) = hall.into_parts();
            return Ok(Closed {
                core,
                counted,
                history,
            });
        }
        let shop = Shop {
            front: Front {
                hall: Mutex::new(hall),
                moments,
            },
            seats,
            rest,
            given,
            name,
        };
        Err(NotQuiet {
            open,
            shop,
            desks,
            purger,
        })
    }
}

// Looks at what the places of a list have called.
fn look_at_list<J: Naming, M: Machine>(hall: &mut Hall<J, M>, places: &mut Vec<Option<Place>>)
    requires here { AreHere J.names.history places.old.items }
    ensures same { (hall.new ≡ hall.old) × (places.new.items ≡ places.old.items) }
    ensures told { HaveCalled hall.old.history.log places.old.items }
{
    look_at_places(hall, places.as_mut_slice());
}

// Looks at what the places have called.
fn look_at_places<J: Naming, M: Machine>(hall: &mut Hall<J, M>, places: &mut [Option<Place>])
    requires here { AreHere J.names.history places.old }
    ensures same { (hall.new ≡ hall.old) × (places.new ≡ places.old) }
    ensures told { HaveCalled hall.old.history.log places.old }
{
    let Some((first, others)) = places.split_first_mut() else {
        return;
    };
    look_at_place(hall, first);
    look_at_places(hall, others);
}

// Looks at what a place has called, if it is there.
fn look_at_place<J: Naming, M: Machine>(hall: &mut Hall<J, M>, place: &mut Option<Place>)
    requires here { IsHere J.names.history place.old }
    ensures same { (hall.new ≡ hall.old) × (place.new ≡ place.old) }
    ensures told { HasCalled hall.old.history.log place.old }
{
    if let Some(place) = place {
        hall.look(&mut place.caller);
    }
}

// Counts what the desks of a list were told, and what one hand was told before.
fn audit_list<J: Naming, M: Machine>(
    hall: &mut Hall<J, M>,
    all: &mut Told<J>,
    desks: &mut Vec<Desk<J>>,
    before: Counted,
) -> Counted
    requires parts { all.old.parts + length desks.old.items ≡ 65 }
    requires some { 0 < all.old.parts }
    requires before { all.old ≡ tally all.old.parts before }
    requires room { HasRoomToCount before (length desks.old.items) }
    ensures same { (hall.new ≡ hall.old) × (all.new ≡ all.old) }
    ensures desks { desks.new.items ≡ desks.old.items }
    ensures hall { IsHall M.world hall.old }
    ensures counts { AreTotals (tally 1 result) hall.old.counts }
    ensures known { AreKnown hall.old.history.log desks.old.items }
    ensures told { (result.begun ≡ before.begun + sum_by begun_by desks.old.items)
        × (result.committed ≡ before.committed + sum_by committed_by desks.old.items)
        × (result.rolled_back ≡ before.rolled_back + sum_by rolled_back_by desks.old.items) }
{
    audit_desks(hall, all, desks.as_mut_slice(), before)
}

// Counts what the desks were told: lends it to one hand, and looks at the totals.
#[cycle(audit)]
fn audit_desks<J: Naming, M: Machine>(
    hall: &mut Hall<J, M>,
    all: &mut Told<J>,
    desks: &mut [Desk<J>],
    before: Counted,
) -> Counted
    requires parts { all.old.parts + length desks.old ≡ 65 }
    requires some { 0 < all.old.parts }
    requires before { all.old ≡ tally all.old.parts before }
    requires room { HasRoomToCount before (length desks.old) }
    ensures same { (hall.new ≡ hall.old) × (all.new ≡ all.old) × (desks.new ≡ desks.old) }
    ensures hall { IsHall M.world hall.old }
    ensures counts { AreTotals (tally 1 result) hall.old.counts }
    ensures known { AreKnown hall.old.history.log desks.old }
    ensures told { (result.begun ≡ before.begun + sum_by begun_by desks.old)
        × (result.committed ≡ before.committed + sum_by committed_by desks.old)
        × (result.rolled_back ≡ before.rolled_back + sum_by rolled_back_by desks.old) }
{
    let Some((first, others)) = desks.split_first_mut() else {
        hall.audit(all);
        return before;
    };
    audit_first(hall, all, first, others, before)
}

#[cycle(audit)]
fn audit_first<J: Naming, M: Machine>(
    hall: &mut Hall<J, M>,
    all: &mut Told<J>,
    first: &mut Desk<J>,
    others: &mut [Desk<J>],
    before: Counted,
) -> Counted
    requires parts { all.old.parts + length others.old + 1 ≡ 65 }
    requires some { 0 < all.old.parts }
    requires before { all.old ≡ tally all.old.parts before }
    requires room { HasRoomToCount before (length others.old + 1) }
    ensures same { (hall.new ≡ hall.old) × (all.new ≡ all.old) × (first.new ≡ first.old)
        × (others.new ≡ others.old) }
    ensures hall { IsHall M.world hall.old }
    ensures counts { AreTotals (tally 1 result) hall.old.counts }
    ensures known { Knows hall.old.history.log first.old.calls
        × AreKnown hall.old.history.log others.old }
    ensures told { (result.begun
        ≡ before.begun + (begun_by first.old + sum_by begun_by others.old))
        × (result.committed
        ≡ before.committed + (committed_by first.old + sum_by committed_by others.old))
        × (result.rolled_back
        ≡ before.rolled_back + (rolled_back_by first.old + sum_by rolled_back_by others.old)) }
{
    let told = Counted {
        begun: first.begun,
        committed: first.committed,
        rolled_back: first.rolled_back,
    };
    hall.look(&mut first.caller);
    first.told.give(all, told);
    let counted = audit_desks(hall, all, others, before.with(&told));
    all.give(&mut first.told, told);
    counted
}

impl<J: Naming> Desk<J> {
    /// Gives the terminal whose desk it is.
    pub fn terminal(&self) -> Terminal
        ensures { result ≡ self.now.seat.terminal }
    {
        self.seat.terminal()
    }

    /// Begins a transaction. `AlreadyOpen` where the terminal has one open. `Overflow` of H_NUMBER
    /// also where the desk has begun 2^58 - 1. A refusal has changed nothing.
    pub fn begin<M: Machine, W: Wait>(
        &mut self,
        rt: &W,
        front: &Front<J, M>,
        request: &Request,
    ) -> Result<Open, Refusal>
        ensures turn { ABegin self.old request.now result self.new }
        ensures run { HasHappened J.names.opened self.new.calls.seen }
        ensures left { BeginLeaves (begins result) (is_open self.old.calls.mine)
            (is_open self.new.calls.mine) }
        ensures told { self.new ≡ with_calls self.new.calls
            (with_told (begin_told (begins result) self.old.told) self.old) }
        ensures open { IfOk result (λ o. (o.shop ≡ self.old.seat.shop)
            × (o.terminal ≡ self.old.seat.terminal)) }
    {
        if self.begun == MOST_BEGUN {
            return Err(Refusal::Overflow(Column::HistoryNumber));
        }
        let terminal = self.seat.terminal();
        let mut hall = enter(rt, &front.hall);
        match hall.begin(&mut self.told, &mut self.caller, terminal, request) {
            Ok(()) => {
                self.begun += 1;
                Ok(Open {
                    shop: self.seat.shop(),
                    terminal,
                })
            }
            Err(refusal) => Err(refusal),
        }
    }

    /// Carries out the next stage of a transaction that the desk began, which commits after the
    /// last: its reply is the desk's `reply` until the next commit. `NotOpen` of any other.
    #[inline]
    pub fn advance<M: Machine, W: Wait>(&mut self, rt: &W, front: &Front<J, M>, work: Open) -> Turn
        ensures turn { AnAdvance self.old work result self.new }
        ensures kept { Keeps work result }
        ensures run { HasHappened J.names.opened self.new.calls.seen }
        ensures left { IsOwn self.old.seat work → AdvanceLeaves (advances result)
            (is_open self.old.calls.mine) (is_open self.new.calls.mine) }
        ensures reply { LeavesReply (advances result) self.old.reply self.new.reply }
        ensures told { self.new ≡ with_calls self.new.calls
            (with_told (tally_after (advances result) self.old.told)
            (with_reply self.new.reply self.old)) }
    {
        if !began(&self.seat, &work) {
            return Turn::Kept(work, Refusal::NotOpen);
        }
        let terminal = self.seat.terminal();
        let mut hall = enter(rt, &front.hall);
        match hall.advance(&mut self.told, &mut self.caller, terminal, &mut self.reply) {
            Advanced::More => Turn::More(work),
            Advanced::Kept(refusal) => Turn::Kept(work, refusal),
            Advanced::Committed(moment) => {
                self.committed += 1;
                work.spend();
                Turn::Committed(moment)
            }
            Advanced::RolledBack(refusal) => {
                self.rolled_back += 1;
                work.spend();
                Turn::RolledBack(refusal)
            }
        }
    }

    /// Lends the reply of the desk's newest commit; none before its first.
    pub fn reply(&self) -> Option<&Reply>
        ensures { option_copied result ≡ self.now.reply }
    {
        self.reply.as_ref()
    }

    /// Rolls a transaction back that the desk began: it is never refused where the desk's calls left
    /// one open. `NotOpen` of any other, which comes back.
    pub fn end<M: Machine, W: Wait>(
        &mut self,
        rt: &W,
        front: &Front<J, M>,
        transaction: Open,
    ) -> Result<(), (Refusal, Open)>
        ensures turn { AnEnd self.old transaction result self.new }
        ensures kept { KeepsOnErr transaction result }
        ensures run { HasHappened J.names.opened self.new.calls.seen }
        ensures left { IsOwn self.old.seat transaction → EndLeaves (ends result)
            (is_open self.old.calls.mine) (is_open self.new.calls.mine) }
        ensures told { self.new ≡ with_calls self.new.calls
            (with_told (end_told (ends result) self.old.told) self.old) }
    {
        if !began(&self.seat, &transaction) {
            return Err((Refusal::NotOpen, transaction));
        }
        let terminal = self.seat.terminal();
        let mut hall = enter(rt, &front.hall);
        match hall.end(&mut self.told, &mut self.caller, terminal) {
            Ok(()) => {
                self.rolled_back += 1;
                transaction.spend();
                Ok(())
            }
            Err(refusal) => Err((refusal, transaction)),
        }
    }

    /// Answers a query of the moment that the desk's pin holds: never `TooOld`. `NotPinned` with
    /// the desk's pin word, where the pin is another desk's.
    pub fn read<M: Machine, W: Wait>(
        &mut self,
        rt: &W,
        front: &Front<J, M>,
        pin: &Pin,
        query: &Query,
    ) -> Result<QueryReply, Refusal>
        ensures turn { ARead M.world self.old pin.now query.now result self.new }
        ensures run { HasHappened J.names.opened self.new.calls.seen }
        ensures desk { self.new ≡ with_calls self.new.calls self.old }
        ensures young { IsYoung result }
    {
        if !self.seat.holds(pin) {
            return Err(Refusal::NotPinned(self.seat.word()));
        }
        enter(rt, &front.hall).read(&mut self.caller, pin, query)
    }

    /// Loads the newest moment, which is at least each that this desk saw or told.
    pub fn newest<M: Machine>(&mut self, front: &Front<J, M>) -> Moment
        ensures desk { self.new ≡
            with_seat (with_notes (notes_after_sight result self.old.seat.notes) self.old.seat)
            self.old }
        ensures rises { self.old.seat.notes.seen ≤ result }
    {
        let moments = &*front.moments;
        moments.newest(&mut self.seat)
    }

    /// Tells a moment: from then on this desk sees no earlier one as the newest.
    pub fn told<M: Machine>(&mut self, front: &Front<J, M>, moment: Moment)
        ensures desk { self.new ≡ with_seat (with_notes
            (notes_after_sight self.new.seat.notes.seen self.old.seat.notes) self.old.seat)
            self.old }
        ensures rises { self.old.seat.notes.seen ≤ self.new.seat.notes.seen }
        ensures told { moment ≤ self.new.seat.notes.seen }
    {
        let moments = &*front.moments;
        moments.told(&mut self.seat, moment);
    }

    /// Tells whether the desk has a pin out.
    pub fn is_pinned(&self) -> bool
        ensures { result ≡ is_pinned self.now.seat.notes.pin }
    {
        self.seat.is_pinned()
    }

    /// Pins the newest moment, which it loads. `TooOld` with the keeper's claim, where that is above
    /// it.
    pub fn pin<M: Machine>(&mut self, front: &Front<J, M>) -> Result<Pin, TooOld>
        requires { is_pinned self.old.seat.notes.pin ≡ false }
        ensures desk { self.new ≡
            with_seat (with_notes self.new.seat.notes self.old.seat) self.old }
        ensures looked { self.new.seat.notes.turned ≡ turn self.old.seat.notes.turned }
        ensures rises { self.old.seat.notes.seen ≤ self.new.seat.notes.seen }
        ensures ok { IfOk result (λ p. Holds self.new.seat p
            × (p.moment ≡ self.new.seat.notes.seen)) }
        ensures err { IfErr result (λ e. (self.new.seat.notes.pin ≡ Free)
            × (e.claim ≡ self.new.seat.notes.claim) × (self.new.seat.notes.seen < e.claim)) }
    {
        let moments = &*front.moments;
        moments.pin(&mut self.seat)
    }

    /// Ends a pin of this desk. Any other is handed back with this desk's pin word, and nothing has
    /// changed.
    pub fn unpin<M: Machine>(
        &mut self,
        front: &Front<J, M>,
        pin: Pin,
    ) -> Result<(), (NotPinned, Pin)>
        ensures ok { OnOk result (self.new ≡ with_seat
            (with_notes (with_pin Free self.old.seat.notes) self.old.seat) self.old) }
        ensures own { OnOk result (Holds self.old.seat pin) }
        ensures err { IfErr result (λ e. (e.0.word ≡ pin_word self.old.seat.notes.pin)
            × (e.1 ≡ pin) × (self.new ≡ self.old)) }
        ensures other { OnErr result (Holds self.old.seat pin → ⊥) }
    {
        let moments = &*front.moments;
        moments.unpin(&mut self.seat, pin)
    }
}

// Tells whether the desk with a seat began a transaction.
fn began(seat: &DeskSeat, work: &Open) -> bool
    ensures { IsTrue result ↔ IsOwn seat.now work.now }
{
    work.shop == seat.shop() && work.terminal.get() == seat.terminal().get()
}

impl Open {
    // Spends a transaction that has ended.
    fn spend(self) {
        let Open {
            shop: _,
            terminal: _,
        } = self;
    }
}
