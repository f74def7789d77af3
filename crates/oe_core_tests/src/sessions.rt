//! Sessions on tables that no script opens, whose lines are said all at once, and sums of dumps.
ghost use Rattle.std.specs.Prelude.{None};
ghost use Rattle.oe_core.specs.Core.{world_of};
ghost use Rattle.oe_script.specs.Session.{state_of};
ghost use Rattle.oe_admission.specs.Programs.{IsLive};

use crate::made::populated;
use crate::planted::{Planted, plant_all};
use arrayvec::ArrayVec;
use oe_audit::is_population;
use oe_core::Core;
use oe_dumps::dump;
use oe_io::output::flush;
use oe_io::ports::{Failed, Outlet};
use oe_rows::{Layout, TABLES};
use oe_script::listeners::Quiet;
use oe_script::session::Session;
use oe_store::Tables;
use oe_values::ExtentCount;
use std::alloc::Global;
use std::process::Abort;

/// Takes all that is written, and keeps nothing.
#[derive(Drop)]
pub struct Nowhere {}

impl Outlet for Nowhere {
    ghost sink = { λ _. None };

    fn write(&mut self, bytes: &[u8]) -> Result<usize, Failed> {
        Ok(bytes.len())
    }
}

/// A sum of all that is written, which takes no memory.
#[derive(Drop)]
pub struct Sum {
    sum: u64,
}

impl Outlet for Sum {
    ghost sink = { λ _. None };

    fn write(&mut self, bytes: &[u8]) -> Result<usize, Failed> {
        for byte in bytes {
            self.sum = (self.sum ^ u64::from(*byte)).wrapping_mul(1_099_511_628_211);
        }
        Ok(bytes.len())
    }
}

/// Sums all dumps.
pub(crate) fn sum_of(tables: &Tables) -> u64 {
    let mut sum = Sum { sum: 1 };
    let mut out = ArrayVec::new();
    for table in TABLES {
        if dump(tables, table, &mut out, &mut sum).is_err() {
            return 0;
        }
    }
    if flush(&mut out, &mut sum).is_err() {
        return 0;
    }
    sum.sum
}

/// Opens a core on these tables, which are a population, with 64 undo extents.
pub(crate) fn core_on(rt: &impl Abort, alloc: Global, tables: Tables) -> Core
    ensures { IsLive (state_of world_of (Some result)) }
{
    let extents = ExtentCount::new(64).expect(rt, "extents");
    if !is_population(&tables) {
        panic!(rt; "no population");
    }
    match Core::open(alloc, tables, extents, Layout::WholeRows) {
        Ok(core) => core,
        Err(_) => panic!(rt; "no memory"),
    }
}

/// Opens a session on a population of ten customers a district and 20 items, in which these rows
/// are changed.
pub(crate) fn session_on(rt: &impl Abort, alloc: Global, planted: &[Planted]) -> Session<Core>
    ensures { IsLive (state_of world_of result.core) }
{
    let Some(mut tables) = populated(alloc, 10, 20) else {
        panic!(rt; "no population")
    };
    let are_made = plant_all(&mut tables, planted).is_some();
    assert!(rt; are_made);
    Session::on(core_on(rt, alloc, tables))
}

/// Lines, and their answers.
pub(crate) struct Said {
    pub lines: &'static [u8],
    pub answers: &'static [u8],
}

/// Tells whether the lines are answered so.
pub(crate) fn is_answered(
    session: &mut Session<Core>,
    alloc: Global,
    lines: &[u8],
    answers: &[u8],
) -> bool
    requires { IsLive (state_of world_of session.old.core) }
    ensures { IsLive (state_of world_of session.new.core) }
{
    session.count = 0;
    session.out.clear();
    let mut nowhere = Nowhere {};
    if session
        .feed(alloc, lines, &mut nowhere, &mut Quiet {})
        .is_err()
    {
        return false;
    }
    session.out.as_slice() == answers
}

/// Carries out that many stages of terminal 3's transaction, and tells whether each is answered
/// `more`.
fn goes_on(session: &mut Session<Core>, alloc: Global, stages: u32) -> bool
    requires { IsLive (state_of world_of session.old.core) }
    ensures { IsLive (state_of world_of session.new.core) }
{
    for _ in 0..stages {
        if !is_answered(session, alloc, b"next 3\n", b"more\n") {
            return false;
        }
    }
    true
}

/// Sums the dumps of what is open in a session.
fn standing(session: &Session<Core>) -> u64 {
    match &session.core {
        Some(core) => sum_of(core.tables()),
        None => 0,
    }
}

/// Begins a transaction of terminal 3, carries out that many stages, and says what comes then.
/// Answers the sums of the dumps once it had begun and at the end; `None` where an answer is
/// another.
pub(crate) fn sums(
    session: &mut Session<Core>,
    alloc: Global,
    begin: &Said,
    stages: u32,
    then: &Said,
) -> Option<(u64, u64)>
    requires { IsLive (state_of world_of session.old.core) }
    ensures { IsLive (state_of world_of session.new.core) }
{
    if !is_answered(session, alloc, begin.lines, begin.answers) {
        return None;
    }
    let before = standing(session);
    if !goes_on(session, alloc, stages) || !is_answered(session, alloc, then.lines, then.answers) {
        return None;
    }
    Some((before, standing(session)))
}
