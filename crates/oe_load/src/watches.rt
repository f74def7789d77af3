//! The table of what was in the way of a script, which nobody reads.
ghost use Rattle.std.specs.Prelude.{◌≡◌, [], Option, Ok};
ghost use Rattle.oe_numbers.specs.declared.forms.Form.TheVariants as load_form;
ghost use Rattle.oe_io.specs.Ports.{Sink};
ghost use Rattle.oe_busy.specs.Tables.{AreCounted};
ghost use Rattle.oe_load.specs.Ends.{Watches, Wrote};
ghost use Rattle.oe_load.specs.Loads.{IsOrigin};
ghost use Rattle.oe_load.specs.Scripts.{first_state, IsWatched};
ghost use Rattle.oe_load.specs.declared.origins.Origin.{Origin};

use crate::loads::{Ending, TURNS, first_drawing, is_done, opened, requests_in, taken};
use crate::origins::Origin;
use crate::served::none_served;
use crate::turns::Shortage;
use oe_busy::{Busyness, Uncounted};
use oe_machine::Machine;
use oe_terms::Plan;
use oe_texts::Pending;
use std::alloc::Global;

/// Names what a load stops for where what happened is not counted.
fn uncounted(cause: &Uncounted) -> Shortage {
    match cause {
        Uncounted::NoMemory => Shortage::NoMemory,
        Uncounted::TooMany => Shortage::NoEnd,
    }
}

/// Takes turns until all requests are served, and counts what happens. After an error the counts
/// are no table's.
fn watched<M: Machine>(
    plan: &Plan,
    core: &mut M,
    busyness: &mut Busyness,
    out: &mut Pending,
) -> Result<Ending, Shortage>
    ensures { (o : Origin) → IsWatched plan.now o [] (first_state plan.now (M.world core.old)) →
        AreCounted busyness.old [] → Watches plan.now o busyness.new result }
{
    let mut served = none_served();
    let mut drawing = first_drawing(plan);
    for _ in 0..requests_in(plan) * TURNS {
        if is_done(plan, core, &served) {
            return Ok(Ending::Served);
        }
        out.clear();
        let happening = match taken(plan, core, &mut served, &mut drawing, out) {
            Ok(happening) => happening,
            Err(shortage) => return Ok(Ending::Short(shortage)),
        };
        if let Err(cause) = busyness.note(&happening) {
            return Err(uncounted(&cause));
        }
    }
    Ok(Ending::Short(Shortage::NoEnd))
}

/// Gives the counts of a load as a table that waits.
pub(crate) fn busy<M: Machine>(
    alloc: Global,
    plan: &Plan,
    origin: Origin,
    out: &mut Pending,
) -> Ending
    requires origin { IsOrigin origin }
    requires empty { out.old.items ≡ [] }
    ensures { (start : Option Sink) →
        Wrote plan.now origin load_form.Busy start start out.new.items (Ok result) }
{
    let Ok(mut core) = opened::<M>(alloc, plan, origin) else {
        return Ending::Short(Shortage::NoMemory);
    };
    let mut busyness = Busyness::new(alloc);
    let answer = watched(plan, &mut core, &mut busyness, out);
    core.discard();
    out.clear();
    match answer {
        Ok(ending) => {
            busyness.tell(out);
            ending
        }
        Err(shortage) => Ending::Short(shortage),
    }
}
