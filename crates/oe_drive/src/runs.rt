//! The whole run.
ghost use Rattle.std.specs.Prelude.{◌≡◌, ◌+◌, ◌≤◌, IfOk, map, vec_len};
ghost use Rattle.oe_drive.specs.Plans.{errands_in, plans_of};
ghost use Rattle.oe_drive.specs.Runs.{DriveRan, IsLeft};

use crate::deeds::Deeds;
use crate::driving::Driven;
use crate::endings::ended;
use crate::gates::Gate;
use crate::openings::{driven, populated};
use crate::planning::plans;
use crate::stations::Plan;
use oe_hall::{Counted, Seats};
use oe_io::output::flush;
use oe_io::ports::Outlet;
use oe_machine::Machine;
use oe_numbers::DriveNumbers;
use oe_report::{report, status};
use oe_rows::Layout;
use oe_texts::Pending;
use oe_values::NoMemory;
use std::alloc::Global;
use std::marker::Brand;
use std::sync::Wait;
use std::thread::Threads;
use thiserror::Error;

/// Why a drive ends without its lines.
#[derive(Clone, Copy, PartialEq, Eq, Debug, Error)]
pub enum DriveFault {
    /// Memory or a thread was refused. Nothing was written.
    #[error("no memory")]
    NoMemory,
    /// A write failed. A beginning of the lines was written.
    #[error("write")]
    Write,
}

/// How a drive ended: its exit status, what its desks were told, and what its terminals did.
#[derive(Drop)]
pub struct Ran {
    pub status: u8,
    pub counted: Counted,
    pub deeds: Deeds,
}

/// The name of the one shop of a drive.
const SHOP: u32 = 0;

// Runs the plans in a shop of its own on a new population, which is named here. Its undo records
// keep changed columns: so more transactions have room.
fn driven_here<M: Machine + Send, H: Threads + Wait + Sync, G: Gate + Sync>(
    rt: &H,
    alloc: Global,
    gate: &G,
    numbers: &DriveNumbers,
    plans: Vec<Plan>,
) -> Result<Driven<M>, NoMemory>
    requires plans { (1 ≤ vec_len plans) × (vec_len plans ≤ 63) }
    requires drawn { map errands_in plans.items ≡ plans_of numbers.now }
    ensures ended { IfOk result (λ d.
        d.counted.begun ≡ d.counted.committed + d.counted.rolled_back) }
    ensures left { IfOk result (λ d.
        IsLeft numbers.now (M.world d.core) d.counted.committed) }
{
    let Ok(seats) = Seats::new(alloc, SHOP, Layout::ChangedColumns) else {
        return Err(NoMemory);
    };
    let Ok(tables) = populated(alloc, numbers) else {
        return Err(NoMemory);
    };
    driven::<Brand, M, H, G>(rt, alloc, gate, numbers, plans, tables, seats)
}

/// Opens a shop on a new population, runs all terminals and the worker, audits conditions 1 to 4,
/// rewinds to moment 0, compares with a new population, and writes the two lines. The type of the
/// machine is the first parameter.
///
/// The status is 0 where the conditions hold and the population is restored, else 1. `NoMemory`
/// where memory or a thread is refused, and nothing is written then; `Write` where a write fails.
pub fn run_drive<M: Machine + Send, H: Threads + Wait + Sync, G: Gate + Sync, W: Outlet>(
    rt: &H,
    alloc: Global,
    gate: &G,
    numbers: &DriveNumbers,
    writer: &mut W,
) -> Result<Ran, DriveFault>
    ensures lines { DriveRan numbers.now (W.sink writer.old) (W.sink writer.new) result }
    ensures ended { IfOk result (λ r.
        r.counted.begun ≡ r.counted.committed + r.counted.rolled_back) }
{
    let _terminals = numbers.terminals.get();
    let Ok(plans) = plans(alloc, numbers) else {
        return Err(DriveFault::NoMemory);
    };
    let driven = match driven_here::<M, H, G>(rt, alloc, gate, numbers, plans) {
        Ok(driven) => driven,
        Err(_) => return Err(DriveFault::NoMemory),
    };
    let Driven {
        core,
        history: _,
        counted,
        deeds,
    } = driven;
    let Ok(ending) = ended(alloc, numbers, core) else {
        return Err(DriveFault::NoMemory);
    };
    let mut out = Pending::new();
    report(&mut out, ending.failing, ending.is_restored);
    match flush(&mut out, writer) {
        Err(_) => Err(DriveFault::Write),
        Ok(()) => Ok(Ran {
            status: status(ending.failing, ending.is_restored),
            counted,
            deeds,
        }),
    }
}
