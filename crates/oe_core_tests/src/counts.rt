//! A script on a machine that counts: it is answered as on a core, and the counts are those of its
//! lines.

use crate::sessions::Nowhere;
use oe_core::Core;
use oe_counted::{Counted, Counts};
use oe_machine::Machine;
use oe_script::listeners::Quiet;
use oe_script::session::Session;
use std::alloc::Global;

/// A script with each kind of step, of which some are refused. A payment has five stages, its commit
/// among them.
const LINES: &[u8] = b"open 2 10 20 64
begin 5 payment 2 7 1 3 9 250.00 2001-01-01T00:00:00
begin 5 delivery 1 1 3 2001-01-01T00:00:00
next 5
save 5
next 5
back 5
run 5
next 5
begin 6 delivery 1 1 3 2001-01-01T00:00:00
next 6
back 6
rollback 6
rollback 6
audit 2 1
read 1 level 2 7 15
purge 1
purge 7
rewind 1
";

/// What it asks for, refused or not: of the begins one is answered `AlreadyOpen`, and of the advances
/// one comes after the commit.
const ASKED: Counts = Counts {
    begins: 3,
    advances: 8,
    saves: 1,
    backs: 2,
    rollbacks: 2,
    purges: 2,
    rewinds: 1,
};

// Answers the script on a new machine of that type.
fn answered<M: Machine>(alloc: Global) -> Session<M> {
    let mut session = Session::<M>::new();
    let _fed = session.feed(alloc, LINES, &mut Nowhere {}, &mut Quiet {});
    session
}

// Copies the counts of a session's machine, if it is open.
fn counts_of(session: &Session<Counted<Core>>) -> Option<Counts> {
    match &session.core {
        Some(core) => Some(*core.counts()),
        None => None,
    }
}

#[test]
fn a_script_on_a_machine_that_counts(rt: HostRuntime) {
    let plain = answered::<Core>(rt.alloc());
    let counted = answered::<Counted<Core>>(rt.alloc());
    let is_same = plain.out.as_slice() == counted.out.as_slice();
    let counts = counts_of(&counted);
    plain.close();
    counted.close();
    assert!(rt; is_same);
    assert!(rt; counts == Some(ASKED));
}
