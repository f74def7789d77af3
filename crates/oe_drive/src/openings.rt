//! A new shop, and a drive in it.
ghost use Rattle.std.specs.Prelude.{◌≡◌, ◌+◌, ◌≤◌, [], IfOk, map, vec_len};
ghost use Rattle.oe_theory.specs.World.{newest};
ghost use Rattle.oe_theory.specs.Theorems.{world_at_opening};
ghost use Rattle.oe_model.specs.Conditions.{IsPopulation};
ghost use Rattle.oe_model.specs.Population.{IsPopulated};
ghost use Rattle.oe_model.specs.System.{system};
ghost use Rattle.oe_store.specs.Places.{rows};
ghost use Rattle.oe_history.specs.Views.{calls_by};
ghost use Rattle.oe_hall.specs.Histories.{IsHistory};
ghost use Rattle.oe_hall.specs.Naming.{names_at_opening};
ghost use Rattle.oe_hall.specs.Turns.{open_count};
ghost use Rattle.oe_drive.specs.Plans.{errands_in, ArePlansCarriedOut};

use crate::driving::{Driven, drive};
use crate::gates::Gate;
use crate::stations::Plan;
use oe_hall::{Naming, Seats, Shop};
use oe_machine::Machine;
use oe_model::populations::population_is_one;
use oe_numbers::DriveNumbers;
use oe_population::populate;
use oe_store::Tables;
use oe_values::NoMemory;
use std::alloc::Global;
use std::sync::Wait;
use std::thread::Threads;

/// Makes the population of a drive.
pub(crate) fn populated(alloc: Global, numbers: &DriveNumbers) -> Result<Tables, NoMemory>
    ensures { IfOk result (λ t. IsPopulated numbers.now.scale (rows t) × IsPopulation (rows t)) }
{
    population_is_one();
    let _warehouses = numbers.scale.warehouses.get();
    let _customers = numbers.scale.customers.get();
    let _items = numbers.scale.items.get();
    let Ok(tables) = populate(alloc, numbers.scale) else {
        return Err(NoMemory);
    };
    Ok(tables)
}

/// Runs the plans in a shop on a population. `NoMemory` where memory or a thread is refused.
pub(crate) fn driven<
    J: Naming + Send + Sync,
    M: Machine + Send,
    H: Threads + Wait + Sync,
    G: Gate + Sync,
>(
    rt: &H,
    alloc: Global,
    gate: &G,
    numbers: &DriveNumbers,
    plans: Vec<Plan>,
    tables: Tables,
    seats: Seats,
) -> Result<Driven<M>, NoMemory>
    requires plans { (1 ≤ vec_len plans) × (vec_len plans ≤ 63) }
    requires population { IsPopulation (rows tables) }
    requires names { names_at_opening seats.names
        (world_at_opening system (rows tables) numbers.now.extents seats.names.layout) ≡ J.names }
    ensures ended { IfOk result (λ d.
        d.counted.begun ≡ d.counted.committed + d.counted.rolled_back) }
    ensures quiet { IfOk result (λ d. open_count (M.world d.core) ≡ 0) }
    ensures newest { IfOk result (λ d. newest system (M.world d.core) ≡ d.counted.committed) }
    ensures layout { IfOk result (λ d. (M.world d.core).layout ≡ seats.names.layout) }
    ensures run { IfOk result (λ d. IsHistory
        (world_at_opening system (rows tables) numbers.now.extents seats.names.layout)
        d.history.log (M.world d.core)) }
    ensures unpurged { IfOk result (λ d. calls_by 0 d.history.log ≡ []) }
    ensures carried { IfOk result (λ d.
        ArePlansCarriedOut d.history.log (map errands_in plans.items)) }
{
    let (shop, purger) = Shop::open(alloc, tables, numbers.extents, seats)?;
    drive::<J, M, H, G>(rt, alloc, gate, shop, purger, plans)
}
