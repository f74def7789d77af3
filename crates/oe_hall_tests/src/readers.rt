//! Desks that pay and read in threads of their own, beside a third thread that purges.
ghost use Rattle.std.specs.Prelude.{◌≡◌};
ghost use Rattle.oe_theory.specs.Theorems.{world_at_opening};
ghost use Rattle.oe_model.specs.Conditions.{IsPopulation};
ghost use Rattle.oe_model.specs.System.{system};
ghost use Rattle.oe_store.specs.Places.{rows};
ghost use Rattle.oe_hall.specs.Naming.{names_at_opening};

use crate::asks::{Ask, Look, Place};
use crate::desks::{asked, moment};
use crate::moves::{Act, Hand, Told};
use crate::scripts::PLACES;
use crate::shows::{extents, populated, seated, seats};
use oe_core::Core;
use oe_core::crossing::core_crosses;
use oe_hall::crossing::front_crosses;
use oe_hall::{Closed, Desk, Front, Naming, Purger, Seats};
use oe_machine::Machine;
use oe_requests::{Answer, Condition, Step, Verdict};
use oe_store::Tables;
use oe_values::ExtentCount;
use std::alloc::Global;
use std::marker::Brand;
use std::process::Abort;
use std::sync::Wait;
use std::thread;
use std::thread::Threads;

/// A reader: what it does next, the moment that it told last, and how often it has read.
#[derive(Drop)]
struct Reader {
    next: Act,
    made: u64,
    reads: u32,
}

impl Reader {
    /// Hears what was told. The reader pays, tells the moment that it made, and reads at a pin that
    /// is no earlier. It pins again after a claim that was past it. None where anything else was
    /// told.
    fn hear(&mut self, told: Told) -> Option<()> {
        self.next = match told {
            Told::More => Act::Advance,
            Told::TooOld(claim) => self.tell(claim),
            Told::Moment(moment) => match self.next {
                Act::Advance => self.tell(moment),
                Act::Pin if self.made <= moment => Act::Read(Look::Level),
                _ => return None,
            },
            Told::Done => match self.next {
                Act::Begin(_) => Act::Advance,
                Act::Tell(_) => Act::Pin,
                Act::Read(_) => Act::Unpin,
                _ => {
                    self.reads = self.reads.saturating_add(1);
                    Act::Begin(Ask::Payment(0))
                }
            },
            _ => return None,
        };
        Some(())
    }

    fn tell(&mut self, moment: u64) -> Act {
        self.made = moment;
        Act::Tell(moment)
    }
}

// Pays a hundred times at a place, and reads after each payment.
fn pay_and_read<J: Naming, M: Machine, H: Wait + Abort>(
    rt: &H,
    front: &Front<J, M>,
    desk: &mut Desk<J>,
    at: &Place,
) {
    let mut hand = Hand::empty();
    let mut reader = Reader {
        next: Act::Begin(Ask::Payment(0)),
        made: 0,
        reads: 0,
    };
    for _ in rt.forever() {
        if reader.reads == 100 {
            break;
        }
        let said = asked(rt, front, desk, &mut hand, at, reader.next);
        assert!(rt;
            reader.hear(said.told).is_some(),
            "a reader, {}",
            reader.reads
        );
    }
    hand.put_down(rt);
}

// Purges two hundred times, as far as the pins let it.
fn purge<J: Naming, M: Machine, H: Wait + Abort>(
    rt: &H,
    front: &Front<J, M>,
    purger: &mut Purger<J>,
) {
    for _ in 0..200u32 {
        let _reached = purger.purge(rt, front, moment(rt, 999_999_999_999));
        thread::yield_now();
    }
}

// Runs two readers and the purger at once, each in a thread of its own.
fn all_at_once<J: Naming + Send + Sync, M: Machine + Send, H: Threads + Wait + Abort + Sync>(
    rt: &H,
    front: &Front<J, M>,
    desks: &mut [Desk<J>],
    purger: &mut Purger<J>,
) -> bool {
    let Some((first, others)) = desks.split_first_mut() else {
        return false;
    };
    let Some((second, _idle)) = others.split_first_mut() else {
        return false;
    };
    thread::scope(thread::scope_env(), rt, move |scope| {
        front_crosses::<J, M>();
        let work = move || purge(rt, front, purger);
        if scope.spawn(work).is_err() {
            return false;
        }
        let near = move || pay_and_read(rt, front, first, &PLACES[0]);
        if scope.spawn(near).is_err() {
            return false;
        }
        let far = move || pay_and_read(rt, front, second, &PLACES[1]);
        scope.spawn(far).is_ok()
    })
}

// Counts the conditions that hold at the newest moment.
fn count_held<M: Machine>(core: &mut M) -> u32 {
    let mut held = 0u32;
    for condition in [
        Condition::First,
        Condition::Second,
        Condition::Third,
        Condition::Fourth,
        Condition::Fifth,
        Condition::Sixth,
        Condition::Seventh,
        Condition::Eighth,
        Condition::Ninth,
        Condition::Tenth,
        Condition::Twelfth,
    ] {
        let newest = core.newest();
        if core.step(Step::Audit(condition, newest)) == Answer::Audited(Verdict::Holds) {
            held = held.saturating_add(1);
        }
    }
    held
}

// Runs two desks and a purger: how many commits they were told, and how many conditions hold in the
// end.
fn day<J: Naming + Send + Sync, M: Machine + Send, H: Threads + Wait + Abort + Sync>(
    rt: &H,
    alloc: Global,
    tables: Tables,
    seats: Seats,
    extents: ExtentCount,
) -> (u64, u32)
    requires population { IsPopulation (rows tables) }
    requires names { names_at_opening seats.names
        (world_at_opening system (rows tables) extents seats.names.layout) ≡ J.names }
{
    let (shop, mut desks, mut purger) = seated::<J, M>(
        rt,
        alloc,
        tables,
        seats,
        extents,
        [1, 2, 3],
    );
    let is_run = all_at_once(rt, shop.front(), desks.as_mut_slice(), &mut purger);
    assert!(rt; is_run);
    match shop.close(desks, purger) {
        Ok(closed) => {
            let Closed {
                mut core,
                counted,
                history: _,
            } = closed;
            let held = count_held(&mut core);
            core.discard();
            (counted.committed, held)
        }
        Err(_) => panic!(rt; "a transaction is open"),
    }
}

#[test]
fn purger_beside_readers(rt: HostRuntime) {
    let extents = extents(&rt, 4_096);
    let seats = seats(&rt, rt.alloc(), 7, PLACES[0].layout);
    let tables = populated(&rt, rt.alloc());
    core_crosses();
    let told = day::<Brand, Core, HostRuntime>(&rt, rt.alloc(), tables, seats, extents);
    assert!(rt; told == (200, 11));
}
