//! The first calls of a library, as the head of its crate quotes them: of tables, a core, and a
//! script's session.

use crate::made::{district_key, payment, populated};
use crate::sessions::{Nowhere, core_on};
use oe_core::Core;
use oe_machine::Advanced;
use oe_requests::{Answer, Request};
use oe_rows::DistrictKey;
use oe_script::listeners::Quiet;
use oe_script::session::Session;
use oe_store::Tables;
use oe_values::{LastName, Terminal, YearToDate};
use std::alloc::Global;

/// Tells whether of ten orders the last three wait, customer 7 alone has that name, and a column is
/// set in its row.
fn tables_answer(tables: &mut Tables, district: &DistrictKey, last: &LastName) -> Option<bool> {
    let oldest = tables.oldest(district)?.get();
    let customer = tables.middle(district, &last.as_text())?.get();
    let warehouse = district.warehouse_key();
    let before = tables.warehouse(warehouse)?.ytd.cents();
    tables.set_warehouse_ytd(&warehouse, YearToDate::new(before + 1)?);
    let after = tables.warehouse(warehouse)?.ytd.cents();
    Some((oldest, customer) == (8, 7) && after == before + 1)
}

/// Tells whether a payment takes one of its five stages, and is rolled back.
fn core_goes_back(core: &mut Core, terminal: Terminal, request: &Request) -> bool {
    if core.begin(terminal, request).is_err() {
        return false;
    }
    let is_under_way = matches!(core.advance(terminal), Advanced::More);
    let open = core.open_count();
    let is_gone = matches!(core.rollback(terminal), Answer::RolledBack);
    is_under_way && open == 1 && is_gone
}

/// Tells whether four lines are answered, each on a line of its own.
fn session_answers(alloc: Global) -> bool {
    let mut session = Session::<Core>::new();
    let lines =
        b"open 2 10 20 64\nbegin 5 payment 2 7 1 3 9 250.00 2001-01-01T00:00:00\nnext 5\nrollback 5\n";
    let is_written = session
        .feed(alloc, lines, &mut Nowhere {}, &mut Quiet {})
        .is_ok();
    let are_answers = session.out.as_slice() == b"opened\nbegun\nmore\nrolled back\n".as_slice();
    session.close();
    is_written && are_answers
}

/// Asks and sets a population of ten customers a district.
fn are_found(alloc: Global) -> Option<bool> {
    let district = district_key(2, 4)?;
    let last = LastName::read("BARBARANTI")?;
    let mut tables = populated(alloc, 10, 20)?;
    let are_found = tables_answer(&mut tables, &district, &last);
    tables.discard();
    are_found
}

#[test]
fn first_calls_are_answered(rt: HostRuntime) {
    assert!(rt; are_found(rt.alloc()) == Some(true));
    assert!(rt; session_answers(rt.alloc()));
    let terminal = Terminal::new(5).expect(&rt, "a terminal");
    let Some(request) = payment(9, 25_000) else {
        panic!(rt; "no payment")
    };
    let Some(tables) = populated(rt.alloc(), 10, 20) else {
        panic!(rt; "no population")
    };
    let mut core = core_on(&rt, rt.alloc(), tables);
    let goes_back = core_goes_back(&mut core, terminal, &request);
    core.discard();
    assert!(rt; goes_back);
}
