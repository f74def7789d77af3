//! What a drive left: its verdict, and whether a rewind to moment 0 gives the population back.
ghost use Rattle.std.specs.Prelude.{◌≡◌, IfOk, None};
ghost use Rattle.oe_theory.specs.World.{tables};
ghost use Rattle.oe_model.specs.System.{system};
ghost use Rattle.oe_hall.specs.Turns.{open_count};
ghost use Rattle.oe_report.specs.Verdicts.{IsFirstFailing};
ghost use Rattle.oe_store.specs.Places.{rows};
ghost use Rattle.oe_drive.specs.Runs.{IsDriven, IsRewoundToBase, IsEndOfDrive};

use oe_machine::Machine;
use oe_model::conditions_hold;
use oe_numbers::DriveNumbers;
use oe_population::populate;
use oe_report::{are_same, first_failing};
use oe_requests::Condition;
use oe_store::Tables;
use oe_values::{Moment, NoMemory};
use std::alloc::Global;

/// What a drive left.
#[derive(Clone, Copy)]
pub struct Ending {
    pub failing: Option<Condition>,
    pub is_restored: bool,
}

// Rewinds a core to moment 0, and gives its tables. They stay where the rewind is refused.
fn rewound<M: Machine>(core: M) -> Tables
    ensures { IsRewoundToBase (M.world core) (rows result) }
{
    let mut core = core;
    let start = Moment::new(0).unwrap();
    let _rewound = core.rewind(start);
    core.close()
}

// Finds the first of conditions 1 to 4 that fails in a core in which nothing is open: none does.
fn failing_in<M: Machine>(core: &M) -> Option<Condition>
    requires { open_count (M.world core.now) ≡ 0 }
    ensures first { IsFirstFailing (tables system (M.world core.now)) result }
    ensures none { result ≡ None }
{
    core.is_reached();
    let _open = core.open_count();
    conditions_hold();
    first_failing(core.tables())
}

/// Audits the core, rewinds it to moment 0, and compares it with a new population of the scale.
/// Memory for that is the only refusal. What it finds is known before, and looked for all the same.
pub(crate) fn ended<M: Machine>(
    alloc: Global,
    numbers: &DriveNumbers,
    core: M,
) -> Result<Ending, NoMemory>
    requires quiet { open_count (M.world core) ≡ 0 }
    requires driven { IsDriven numbers.now (M.world core) }
    ensures { IfOk result (λ e. IsEndOfDrive numbers.now.scale (M.world core) e) }
{
    let failing = failing_in(&core);
    let Ok(fresh) = populate(alloc, numbers.scale) else {
        core.discard();
        return Err(NoMemory);
    };
    let left = rewound(core);
    let is_restored = are_same(&left, &fresh);
    left.discard();
    fresh.discard();
    Ok(Ending {
        failing,
        is_restored,
    })
}
