//! Runs of steps: a list answered one step after another, or refused before its first. The contract
//! of `run` carries what follows for any list, and for any population.
ghost use Rattle.std.specs.Prelude.{◌≡◌, IfOk, OnErr};
ghost use Rattle.oe_runs.specs.Run.{Served, Ran};

use oe_machine::Machine;
use oe_requests::{Answer, Step};
use oe_values::NoMemory;

/// Carries out the steps one after another, and gives their answers.
///
/// `NoMemory`: memory was refused for the answers; no step was carried out then.
pub fn run<M: Machine>(core: &mut M, steps: &[Step]) -> Result<Vec<Answer>, NoMemory>
    ensures served { IfOk result
        (λ ys. Served (M.world core.old) steps.now ys.items (M.world core.new)) }
    ensures ran { IfOk result
        (λ ys. Ran (M.world core.old) steps.now ys.items (M.world core.new)) }
    ensures err { OnErr result (core.new ≡ core.old) }
{
    core.is_reached();
    let Ok(mut answers) = Vec::with_capacity(core.allocator(), steps.len()) else {
        return Err(NoMemory);
    };
    for step in steps {
        answers.push(core.step(step.copied())).unwrap();
    }
    Ok(answers)
}
