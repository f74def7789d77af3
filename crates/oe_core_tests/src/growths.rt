//! A population, a core and a list of steps, each asked for again where it was refused memory: what
//! was refused has changed nothing, and goes on. With ample memory nothing is refused:
//! `scripts/refuse-memory` refuses each growth in turn.

use crate::made::{district_key, payment, populated};
use crate::sessions::sum_of;
use oe_audit::is_population;
use oe_core::Core;
use oe_machine::Machine;
use oe_requests::{
    Answer, Condition, CustomerChoice, NewOrderRequest, PaymentRequest, Refusal, Request,
    RequestLine, RequestLines, Step,
};
use oe_rows::Layout;
use oe_runs::run;
use oe_values::{ExtentCount, Moment, Number, Stamp, Terminal};
use std::alloc::Global;
use std::process::Abort;

/// How many customers a district of a population has, and how many items there are.
type Size = (u32, u32);

/// Opens a core on a population. `None` where memory was refused.
fn opened_once(rt: &impl Abort, alloc: Global, size: Size) -> Option<Core> {
    let extents = ExtentCount::new(64).expect(rt, "extents");
    let tables = populated(alloc, size.0, size.1)?;
    if !is_population(&tables) {
        panic!(rt; "no population");
    }
    Core::open(alloc, tables, extents, Layout::ChangedColumns).ok()
}

/// Opens one, and again where memory was refused.
fn opened(rt: &impl Abort, alloc: Global, size: Size) -> Core {
    if let Some(core) = opened_once(rt, alloc, size) {
        return core;
    }
    match opened_once(rt, alloc, size) {
        Some(core) => core,
        None => panic!(rt; "no core"),
    }
}

/// Tells what a core shows: the sum of its dumps, its newest moment, and how many transactions are
/// open.
fn shown(core: &Core) -> [u64; 3] {
    let sum = sum_of(core.tables());
    [sum, core.newest().get(), u64::from(core.open_count())]
}

/// Runs these steps, and again where memory was refused. `None` where the refused run has changed
/// what the core shows, or the second is refused too.
fn run_at_last(core: &mut Core, steps: &[Step]) -> Option<Vec<Answer>> {
    let before = shown(core);
    if let Ok(answers) = run(core, steps) {
        return Some(answers);
    }
    if shown(core) != before {
        return None;
    }
    run(core, steps).ok()
}

fn is_no_memory(answer: &Answer) -> bool {
    match answer {
        Answer::Refused(refusal) => *refusal == Refusal::NoMemory,
        _ => false,
    }
}

/// Carries out a step, and again where it was refused memory, and tells whether it is then answered
/// so.
fn is_stepped(core: &mut Core, step: &Step, answer: &Answer) -> bool {
    let first = core.step(step.copied());
    if !is_no_memory(&first) {
        return first == *answer;
    }
    core.step(step.copied()) == *answer
}

/// Carries out the steps one after another, and tells whether they are answered as the run was.
/// From a step of the run on that was refused memory, its answers are those of other stages.
fn are_stepped(core: &mut Core, steps: &[Step], answers: &[Answer]) -> bool {
    let mut rest = answers;
    let mut is_refused = false;
    for step in steps {
        let Some((answer, behind)) = rest.split_first() else {
            return false;
        };
        is_refused = is_refused || is_no_memory(answer);
        if !is_stepped(core, step, answer) && !is_refused {
            return false;
        }
        rest = behind;
    }
    rest.is_empty()
}

/// Tells whether a run of these steps is answered as the same steps one after another on another
/// core.
fn runs_as_steps(running: &mut Core, stepping: &mut Core, steps: &[Step]) -> bool {
    let Some(answers) = run_at_last(running, steps) else {
        return false;
    };
    are_stepped(stepping, steps, answers.as_slice())
}

/// Tells the same of a payment that goes back to its mark, beside a rewind and an audit, and is
/// purged. A rollback behind it finds nothing open.
fn payment_runs_as_steps(
    running: &mut Core,
    stepping: &mut Core,
    terminal: Terminal,
    payment: Request,
    moments: (Moment, Moment),
) -> bool {
    let steps = [
        Step::Begin(terminal, payment),
        Step::Advance(terminal),
        Step::Save(terminal),
        Step::Advance(terminal),
        Step::Rewind(moments.0),
        Step::Back(terminal),
        Step::Advance(terminal),
        Step::Advance(terminal),
        Step::Advance(terminal),
        Step::Advance(terminal),
        Step::Audit(Condition::Second, moments.1),
        Step::Purge(moments.1),
        Step::Rollback(terminal),
    ];
    runs_as_steps(running, stepping, &steps)
}

#[test]
fn a_refused_run_has_taken_no_step(rt: HostRuntime) {
    let terminal = Terminal::new(9).expect(&rt, "a terminal");
    let before = Moment::new(0).expect(&rt, "a moment");
    let behind = Moment::new(1).expect(&rt, "a moment");
    let Some(payment) = payment(3, 12_345) else {
        panic!(rt; "no payment")
    };
    let mut running = opened(&rt, rt.alloc(), (4, 7));
    let mut stepping = opened(&rt, rt.alloc(), (4, 7));
    let moments = (before, behind);
    let are_alike = payment_runs_as_steps(&mut running, &mut stepping, terminal, payment, moments);
    let newest = stepping.newest().get();
    running.discard();
    stepping.discard();
    assert!(rt; are_alike && newest == 1);
}

fn line(item: u32) -> Option<RequestLine> {
    Some(RequestLine {
        supply: Number::new(1)?,
        item: Number::new(item)?,
        quantity: Number::new(1)?,
    })
}

/// Makes an order of one of each of items 1 to 5 in district 1 of warehouse 1.
fn order() -> Option<Request> {
    let lines = [line(1)?, line(2)?, line(3)?, line(4)?, line(5)?];
    Some(Request::NewOrder(NewOrderRequest {
        district: district_key(1, 1)?,
        customer: Number::new(1)?,
        stamp: Stamp::from_seconds(3_187_296_000)?,
        lines: RequestLines::read(&lines)?,
    }))
}

/// Makes a payment of 250.00 in district 1 of warehouse 2.
fn payment_away() -> Option<Request> {
    Some(Request::Payment(PaymentRequest {
        district: district_key(2, 1)?,
        customer_district: district_key(2, 1)?,
        customer: CustomerChoice::Number(Number::new(1)?),
        amount: Number::new(25_000)?,
        stamp: Stamp::from_seconds(3_187_296_000)?,
    }))
}

/// Has a terminal advance that many times.
fn advance(steps: &mut Vec<Step>, terminal: Terminal, times: u32) -> Option<()> {
    for _ in 0..times {
        steps.push(Step::Advance(terminal)).ok()?;
    }
    Some(())
}

/// Makes the list of steps of an order that goes back to its mark beside a payment: it is marked
/// behind nine of its sixteen stages, and goes four further.
fn overlap(alloc: Global) -> Option<Vec<Step>> {
    let (first, second) = (Terminal::new(1)?, Terminal::new(2)?);
    let mut steps = Vec::new(alloc);
    steps.push(Step::Begin(first, order()?)).ok()?;
    advance(&mut steps, first, 9)?;
    steps.push(Step::Save(first)).ok()?;
    advance(&mut steps, first, 4)?;
    steps.push(Step::Begin(second, payment_away()?)).ok()?;
    advance(&mut steps, second, 5)?;
    steps.push(Step::Back(first)).ok()?;
    advance(&mut steps, first, 7)?;
    Some(steps)
}

#[test]
fn a_run_of_overlapping_steps_answers_as_they_do(rt: HostRuntime) {
    let Some(steps) = overlap(rt.alloc()) else {
        panic!(rt; "no steps")
    };
    let mut running = opened(&rt, rt.alloc(), (10, 20));
    let mut stepping = opened(&rt, rt.alloc(), (10, 20));
    let are_alike = runs_as_steps(&mut running, &mut stepping, steps.as_slice());
    let are_left = [shown(&running), shown(&stepping)];
    running.discard();
    stepping.discard();
    assert!(rt; are_alike && are_left[0] == are_left[1] && are_left[0][1..] == [2, 0]);
}
