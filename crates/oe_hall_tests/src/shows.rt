//! Small shops, and scripts that their desks and a core play alike.
ghost use Rattle.std.specs.Prelude.{◌≡◌, ◌≢◌, ◌+◌, ℕ, length, [], None, Some};
ghost use Rattle.oe_theory.specs.Theorems.{world_at_opening};
ghost use Rattle.oe_hall.specs.Desks.{seat_for};
ghost use Rattle.oe_hall.specs.Naming.{names_at_opening};
ghost use Rattle.oe_model.specs.Conditions.{IsPopulation};
ghost use Rattle.oe_model.specs.System.{system};
ghost use Rattle.oe_store.specs.Places.{rows};

use crate::asks::Place;
use crate::moves::{Hands, Move};
use crate::plays::play;
use crate::scripts;
use crate::tables::is_same;
use oe_core::Core;
use oe_hall::{Closed, Counted, Desk, Naming, NotQuiet, Purger, Seats, Shop};
use oe_machine::Machine;
use oe_model::populations::population_is_one;
use oe_population::populate;
use oe_rows::{Layout, Scale};
use oe_store::Tables;
use oe_values::{ExtentCount, Number, Terminal};
use std::alloc::Global;
use std::marker::Brand;
use std::process::Abort;
use std::sync::Wait;

/// A script that three desks of a shop play, and what they count in the end.
#[derive(Clone, Copy)]
pub(crate) struct Show {
    /// How many extents the undo ring has.
    pub(crate) extents: u32,
    /// Whose the desks are.
    pub(crate) terminals: [u32; 3],
    pub(crate) moves: &'static [Move],
    /// How many transactions are open then: so many keep the shop from being closed.
    pub(crate) open: u64,
    /// How it goes on where any is.
    pub(crate) rest: &'static [Move],
    pub(crate) begun: u64,
    pub(crate) committed: u64,
    pub(crate) rolled_back: u64,
}

/// A population of two warehouses with ten customers in each district, and twenty items.
pub(crate) fn populated(rt: &impl Abort, alloc: Global) -> Tables
    ensures { IsPopulation (rows result) }
{
    let scale = Scale {
        warehouses: Number::new(2).unwrap(),
        customers: Number::new(10).unwrap(),
        items: Number::new(20).unwrap(),
    };
    let _warehouses = scale.warehouses.get();
    let _customers = scale.customers.get();
    let _items = scale.items.get();
    population_is_one();
    match populate(alloc, scale) {
        Ok(tables) => tables,
        Err(_) => panic!(rt; "no memory"),
    }
}

// Opens a core on that population.
fn core_on(rt: &impl Abort, alloc: Global, extents: u32, layout: Layout) -> Core {
    let extents = Number::new(extents).expect(rt, "extents");
    match Core::open(alloc, populated(rt, alloc), extents, layout) {
        Ok(core) => core,
        Err(_) => panic!(rt; "no memory"),
    }
}

/// Gives that number of extents.
pub(crate) fn extents(rt: &impl Abort, number: u32) -> ExtentCount {
    Number::new(number).expect(rt, "extents")
}

/// Opens a shop on a population.
pub(crate) fn opened<J: Naming, M: Machine>(
    rt: &impl Abort,
    alloc: Global,
    tables: Tables,
    seats: Seats,
    extents: ExtentCount,
) -> (Shop<J, M>, Purger<J>)
    requires population { IsPopulation (rows tables) }
    requires names { names_at_opening seats.names
        (world_at_opening system (rows tables) extents seats.names.layout) ≡ J.names }
    ensures new { result.0.given ≡ 0 }
    ensures free { (t : ℕ) → seat_for result.0 t ≢ Some None }
    ensures silent { result.1.mine ≡ [] }
{
    match Shop::open(alloc, tables, extents, seats) {
        Ok(shop) => shop,
        Err(_) => panic!(rt; "no memory"),
    }
}

/// Makes the words and seats of a shop of that name, whose undo records have that layout.
pub(crate) fn seats(rt: &impl Abort, alloc: Global, shop: u32, layout: Layout) -> Seats {
    match Seats::new(alloc, shop, layout) {
        Ok(seats) => seats,
        Err(_) => panic!(rt; "no memory"),
    }
}

/// Gives a terminal its desk.
pub(crate) fn desk<J: Naming, M: Machine>(
    rt: &impl Abort,
    shop: &mut Shop<J, M>,
    number: u32,
) -> Desk<J>
    ensures { shop.new.given ≡ shop.old.given + 1 }
{
    let terminal = Terminal::new(number).expect(rt, "a terminal");
    match shop.desk(terminal) {
        Ok(desk) => desk,
        Err(_) => panic!(rt; "the desk was given"),
    }
}

/// Opens a shop with the desks of three terminals.
pub(crate) fn seated<J: Naming, M: Machine>(
    rt: &impl Abort,
    alloc: Global,
    tables: Tables,
    seats: Seats,
    extents: ExtentCount,
    terminals: [u32; 3],
) -> (Shop<J, M>, Vec<Desk<J>>, Purger<J>)
    requires population { IsPopulation (rows tables) }
    requires names { names_at_opening seats.names
        (world_at_opening system (rows tables) extents seats.names.layout) ≡ J.names }
    ensures { length result.1.items ≡ result.0.given }
{
    let (mut shop, purger) = opened::<J, M>(rt, alloc, tables, seats, extents);
    let Ok(mut desks) = Vec::with_capacity(alloc, 3) else {
        panic!(rt; "no memory")
    };
    desks.push_reserved(desk(rt, &mut shop, terminals[0]));
    desks.push_reserved(desk(rt, &mut shop, terminals[1]));
    desks.push_reserved(desk(rt, &mut shop, terminals[2]));
    (shop, desks, purger)
}

// Closes a shop whose transactions have ended: it counts what the show says, and leaves the tables
// that the core has.
fn ended<J: Naming, M: Machine>(
    rt: &impl Abort,
    shop: Shop<J, M>,
    desks: Vec<Desk<J>>,
    purger: Purger<J>,
    core: Core,
    show: &Show,
)
    requires given { length desks.items ≡ shop.given }
{
    match shop.close(desks, purger) {
        Ok(closed) => {
            let Closed {
                core: left,
                counted,
                history: _,
            } = closed;
            assert!(rt; is_counted(&counted, show), "the counts");
            assert!(rt; is_same(left.close(), core.close()), "the tables");
        }
        Err(_) => panic!(rt; "a transaction is open"),
    }
}

fn is_counted(counted: &Counted, show: &Show) -> bool {
    counted.begun == show.begun
        && counted.committed == show.committed
        && counted.rolled_back == show.rolled_back
}

// Asks a shop to close beside that many open transactions, where there are any: it comes back.
fn still_open<J: Naming, M: Machine>(
    rt: &impl Abort,
    shop: Shop<J, M>,
    desks: Vec<Desk<J>>,
    purger: Purger<J>,
    open: u64,
) -> (Shop<J, M>, Vec<Desk<J>>, Purger<J>)
    requires { length desks.items ≡ shop.given }
    ensures { length result.1.items ≡ result.0.given }
{
    if open == 0 {
        return (shop, desks, purger);
    }
    match shop.close(desks, purger) {
        Ok(_) => panic!(rt; "a shop was closed beside an open transaction"),
        Err(back) => {
            assert!(rt; back.open == open, "how many are open");
            let NotQuiet {
                open: _,
                shop,
                desks,
                purger,
            } = back;
            (shop, desks, purger)
        }
    }
}

// Plays a show by the desks of a shop.
fn played<J: Naming, M: Machine, H: Wait + Abort>(
    rt: &H,
    alloc: Global,
    tables: Tables,
    seats: Seats,
    extents: ExtentCount,
    show: &Show,
    at: &Place,
    hands: &mut Hands,
)
    requires population { IsPopulation (rows tables) }
    requires names { names_at_opening seats.names
        (world_at_opening system (rows tables) extents seats.names.layout) ≡ J.names }
{
    let seated = seated::<J, M>(rt, alloc, tables, seats, extents, show.terminals);
    let (shop, mut desks, mut purger) = seated;
    let mut core = core_on(rt, alloc, show.extents, at.layout);
    play(
        rt,
        shop.front(),
        desks.as_mut_slice(),
        &mut purger,
        &mut core,
        hands,
        at,
        show.moves,
    );
    let (shop, mut desks, mut purger) = still_open(rt, shop, desks, purger, show.open);
    play(
        rt,
        shop.front(),
        desks.as_mut_slice(),
        &mut purger,
        &mut core,
        hands,
        at,
        show.rest,
    );
    ended(rt, shop, desks, purger, core, show);
}

/// Shows a script in a shop of that name.
pub(crate) fn shown<M: Machine, H: Wait + Abort>(
    rt: &H,
    alloc: Global,
    name: u32,
    show: &Show,
    at: &Place,
    hands: &mut Hands,
) {
    let extents = extents(rt, show.extents);
    let seats = seats(rt, alloc, name, at.layout);
    let tables = populated(rt, alloc);
    played::<Brand, M, H>(rt, alloc, tables, seats, extents, show, at, hands);
}

// Plays a show by the desks of a shop, and another one in another shop in between, which is handed
// what they hold.
fn two_shops<J: Naming, M: Machine, H: Wait + Abort>(
    rt: &H,
    alloc: Global,
    tables: Tables,
    seats: Seats,
    extents: ExtentCount,
    shows: (&Show, &Show),
    at: &Place,
)
    requires population { IsPopulation (rows tables) }
    requires names { names_at_opening seats.names
        (world_at_opening system (rows tables) extents seats.names.layout) ≡ J.names }
{
    let (show, other) = shows;
    let seated = seated::<J, M>(rt, alloc, tables, seats, extents, show.terminals);
    let (shop, mut desks, mut purger) = seated;
    let mut core = core_on(rt, alloc, show.extents, at.layout);
    let mut hands = Hands::empty();
    play(
        rt,
        shop.front(),
        desks.as_mut_slice(),
        &mut purger,
        &mut core,
        &mut hands,
        at,
        show.moves,
    );
    shown::<M, H>(rt, alloc, 8, other, at, &mut hands);
    play(
        rt,
        shop.front(),
        desks.as_mut_slice(),
        &mut purger,
        &mut core,
        &mut hands,
        at,
        show.rest,
    );
    hands.put_down(rt);
    ended(rt, shop, desks, purger, core, show);
}

/// Shows a script alone, in a shop over a machine of that type.
pub(crate) fn shown_alone<M: Machine, H: Wait + Abort>(
    rt: &H,
    alloc: Global,
    show: &Show,
    at: &Place,
) {
    let mut hands = Hands::empty();
    shown::<M, H>(rt, alloc, 7, show, at, &mut hands);
    hands.put_down(rt);
}

#[test]
fn desks_answer_as_core(rt: HostRuntime) {
    for show in scripts::WORKED {
        for place in scripts::PLACES {
            shown_alone::<Core, HostRuntime>(&rt, rt.alloc(), &show, &place);
        }
    }
}

#[test]
fn what_is_another_desks_comes_back(rt: HostRuntime) {
    for place in scripts::PLACES {
        shown_alone::<Core, HostRuntime>(&rt, rt.alloc(), &scripts::STRANGERS, &place);
    }
}

#[test]
fn what_is_another_shops_comes_back(rt: HostRuntime) {
    let at = &scripts::PLACES[0];
    let shows = (&scripts::HOME, &scripts::AWAY);
    let extents = extents(&rt, scripts::HOME.extents);
    let seats = seats(&rt, rt.alloc(), 7, at.layout);
    let tables = populated(&rt, rt.alloc());
    two_shops::<Brand, Core, HostRuntime>(&rt, rt.alloc(), tables, seats, extents, shows, at);
}

#[test]
fn a_pin_holds_the_horizon_until_it_ends(rt: HostRuntime) {
    shown_alone::<Core, HostRuntime>(&rt, rt.alloc(), &scripts::PURGES, &scripts::PLACES[0]);
}

#[test]
fn a_desk_waits_for_a_lock_that_another_gives_back(rt: HostRuntime) {
    shown_alone::<Core, HostRuntime>(&rt, rt.alloc(), &scripts::WAITS, &scripts::PLACES[0]);
}

#[test]
fn a_shop_is_closed_once_all_has_ended(rt: HostRuntime) {
    shown_alone::<Core, HostRuntime>(&rt, rt.alloc(), &scripts::STAYS_OPEN, &scripts::PLACES[0]);
}

/// Opens, begins, advances and commits, all of it at the first try where memory is ample. Under
/// `rt try --test --fail-alloc` one growth is refused, and then this ends with the panic
/// `no memory`, or is as with ample memory: nothing else is refused.
#[test]
fn memory_is_taken_or_refused(rt: HostRuntime) {
    shown_alone::<Core, HostRuntime>(&rt, rt.alloc(), &scripts::AN_ORDER, &scripts::PLACES[1]);
}
