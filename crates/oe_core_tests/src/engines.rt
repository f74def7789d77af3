//! The engine's calls that no program makes, by a transaction that changes nothing, in district 4
//! of warehouse 2; and a transaction of another engine, which comes back.
use crate::made::{district_key, payment, populated};
use oe_engine::{Engine, Savepoint, Tx};
use oe_requests::{DistrictDelivery, Refusal, Reply, Request};
use oe_rows::{DistrictKey, Key, Layout, Mode, Name, Row};
use oe_values::{ExtentCount, LastName, ShortText, Terminal};
use std::alloc::Global;
use std::process::Abort;
use std::snapshot::Snapshot;

/// Takes a name for a transaction, and answers the mode in which it then holds it.
fn taken(engine: &mut Engine, tx: &Tx, name: &Name, mode: Mode) -> Option<Mode> {
    if engine.lock(tx, *name, mode).is_err() {
        return None;
    }
    engine.held(tx, name)
}

/// Gives D_NEXT_O_ID of a row.
fn next_of(row: &Option<Row>) -> u32 {
    match row {
        Some(Row::District(district)) => district.next_order.get(),
        _ => 0,
    }
}

/// Finds, for a transaction that holds the names of a district, of its queue and of who has a last
/// name, the oldest order that waits there, the customer in the middle of those of that name, and
/// D_NEXT_O_ID.
fn found(engine: &Engine, tx: &Tx, district: &DistrictKey, last: &LastName) -> Option<[u32; 3]> {
    if !engine.is_open(tx)
        || engine.held(tx, &Name::Queue(*district)).is_none()
        || engine.held(tx, &Name::District(*district)).is_none()
        || engine
            .held(tx, &Name::Names(*district, ShortText::of(&last.as_text())))
            .is_none()
    {
        return None;
    }
    let oldest = engine.oldest(tx, district)?.get();
    let customer = engine.middle(tx, district, last)?.customer.get();
    let row = engine.read(tx, Key::District(*district));
    Some([oldest, customer, next_of(&row)])
}

/// Tells whether a transaction that has changed nothing holds a name no more once it has given it
/// back.
fn is_given_back(engine: &mut Engine, tx: &Tx, name: &Name) -> bool {
    if !engine.is_open(tx) || engine.savepoint(tx) != Savepoint::start() {
        return false;
    }
    let Some(_mode) = engine.held(tx, name) else {
        return false;
    };
    engine.give_back(tx, *name, None);
    engine.held(tx, name).is_none()
}

/// Tells whether all calls answer as they should: of ten orders the last three wait, and customer 7
/// has that name.
fn are_answered(engine: &mut Engine, tx: &Tx) -> Option<bool> {
    let district = &district_key(2, 4)?;
    let last = &LastName::read("BARBARANTI")?;
    let queue = &Name::Queue(*district);
    let row = &Name::District(*district);
    let names = &Name::Names(*district, ShortText::of(&last.as_text()));
    Some(
        taken(engine, tx, queue, Mode::Shared) == Some(Mode::Shared)
            && taken(engine, tx, row, Mode::Exclusive) == Some(Mode::Exclusive)
            && taken(engine, tx, names, Mode::Shared) == Some(Mode::Shared)
            && found(engine, tx, district, last) == Some([8, 7, 11])
            && is_given_back(engine, tx, queue),
    )
}

/// Opens an engine of that name with two extents, and records of that layout, on a population.
pub(crate) fn engine_on(rt: &impl Abort, alloc: Global, name: u32, layout: Layout) -> Engine {
    engine_with(rt, alloc, 2, name, layout)
}

/// Opens an engine of that name with that number of extents, and records of that layout, on a
/// population.
pub(crate) fn engine_with(
    rt: &impl Abort,
    alloc: Global,
    extents: u32,
    name: u32,
    layout: Layout,
) -> Engine {
    let extents = ExtentCount::new(extents).expect(rt, "extents");
    let Some(tables) = populated(alloc, 10, 20) else {
        panic!(rt; "no population")
    };
    match Engine::open(alloc, tables, extents, layout, name) {
        Ok(engine) => engine,
        Err(_) => panic!(rt; "no memory"),
    }
}

/// Tells whether they do in a transaction of this terminal.
fn are_answered_at(rt: &impl Abort, engine: &mut Engine, terminal: Terminal) -> bool {
    let Ok(tx) = engine.begin(terminal) else {
        return false;
    };
    let are_right = are_answered(engine, &tx) == Some(true);
    match engine.rollback(tx) {
        Ok(()) => are_right,
        Err(_) => panic!(rt; "not open"),
    }
}

/// Lets go of an engine in which nothing is open, as a rewind tells that takes nothing back.
pub(crate) fn leave(rt: &impl Abort, mut engine: Engine) {
    let newest = engine.newest();
    match engine.rewind(newest) {
        Ok(()) => engine.close().discard(),
        Err(_) => panic!(rt; "not quiet"),
    }
}

#[test]
fn an_engine_is_asked(rt: HostRuntime) {
    let terminal = Terminal::new(17).expect(&rt, "a terminal");
    let mut engine = engine_on(&rt, rt.alloc(), 5, Layout::ChangedColumns);
    let are_right = are_answered_at(&rt, &mut engine, terminal);
    leave(&rt, engine);
    assert!(rt; are_right);
}

/// Tries to commit another engine's transaction and to roll it back, and answers what comes back.
fn back_from(rt: &impl Abort, engine: &mut Engine, tx: Tx, request: &Request) -> Tx {
    let reply = Reply::Delivery(DistrictDelivery::Skipped);
    let Err(tx) = engine.commit(tx, Snapshot::of(request), Snapshot::of(&reply)) else {
        panic!(rt; "committed")
    };
    match engine.rollback(tx) {
        Ok(()) => panic!(rt; "rolled back"),
        Err(tx) => tx,
    }
}

pub(crate) fn end(rt: &impl Abort, engine: &mut Engine, tx: Tx) {
    match engine.rollback(tx) {
        Ok(()) => {}
        Err(_) => panic!(rt; "not open"),
    }
}

pub(crate) fn begun(rt: &impl Abort, engine: &mut Engine, terminal: Terminal) -> Tx {
    match engine.begin(terminal) {
        Ok(tx) => tx,
        Err(_) => panic!(rt; "not begun"),
    }
}

/// Begins a transaction of one terminal in each of two engines. The one comes to the other engine,
/// which refuses it a lock as not open, and back, and each is ended at home.
fn stray(
    rt: &impl Abort,
    home: &mut Engine,
    abroad: &mut Engine,
    terminal: Terminal,
    name: &Name,
) -> Option<Refusal> {
    let Some(request) = payment(6, 4_321) else {
        return None;
    };
    let own = begun(rt, home, terminal);
    let foreign = begun(rt, abroad, terminal);
    let refusal = home.lock(&foreign, *name, Mode::Shared).err();
    let foreign = back_from(rt, home, foreign, &request);
    end(rt, abroad, foreign);
    end(rt, home, own);
    refusal
}

#[test]
fn a_foreign_transaction_comes_back(rt: HostRuntime) {
    let terminal = Terminal::new(17).expect(&rt, "a terminal");
    let name = Name::Queue(district_key(2, 4).expect(&rt, "a district"));
    let mut home = engine_on(&rt, rt.alloc(), 5, Layout::ChangedColumns);
    let mut abroad = engine_on(&rt, rt.alloc(), 6, Layout::WholeRows);
    let refusal = stray(&rt, &mut home, &mut abroad, terminal, &name);
    leave(&rt, home);
    leave(&rt, abroad);
    assert!(rt; refusal == Some(Refusal::NotOpen));
}

/// What two terminals see of a warehouse's name that both hold shared, once the first asks for it
/// exclusive: what that is refused with, and in which modes both hold it then; and in which mode
/// the first holds another warehouse's name, which it alone held shared, once it asks so.
type Rises = (Option<Refusal>, [Option<Mode>; 2], Option<Mode>);

/// Has the first transaction ask for both names.
fn rises(engine: &mut Engine, first: &Tx, second: &Tx) -> Option<Rises> {
    let shared = &Name::Warehouse(district_key(1, 4)?.warehouse_key());
    let alone = &Name::Warehouse(district_key(2, 4)?.warehouse_key());
    taken(engine, first, shared, Mode::Shared)?;
    taken(engine, second, shared, Mode::Shared)?;
    taken(engine, first, alone, Mode::Shared)?;
    let refusal = engine.lock(first, *shared, Mode::Exclusive).err();
    let modes = [engine.held(first, shared), engine.held(second, shared)];
    Some((refusal, modes, taken(engine, first, alone, Mode::Exclusive)))
}

#[test]
fn a_mode_rises_where_nobody_else_holds_the_name(rt: HostRuntime) {
    let warehouse = district_key(1, 4).expect(&rt, "a district").warehouse_key();
    let second_terminal = Terminal::new(2).expect(&rt, "a terminal");
    let mut engine = engine_on(&rt, rt.alloc(), 5, Layout::WholeRows);
    let first = begun(&rt, &mut engine, Terminal::new(1).expect(&rt, "a terminal"));
    let second = begun(&rt, &mut engine, second_terminal);
    let found = rises(&mut engine, &first, &second);
    end(&rt, &mut engine, first);
    end(&rt, &mut engine, second);
    leave(&rt, engine);
    let busy = Refusal::Busy(Name::Warehouse(warehouse), second_terminal);
    let both = [Some(Mode::Shared), Some(Mode::Shared)];
    assert!(rt; found == Some((Some(busy), both, Some(Mode::Exclusive))));
}
