//! Loads that begin on the tables of a folder.
ghost use Rattle.oe_file_loading.specs.Loading.{nine_of};
ghost use Rattle.std.specs.Prelude.{◌≡◌};
ghost use Rattle.oe_from.specs.Loads.{LoadFromRan, plan_of};

use crate::scales::{Gap, scale_of};
use crate::serials::FromFault;
use oe_file_loading::Sources;
use oe_file_tables::Format;
use oe_io::ports::{Intake, Outlet};
use oe_load::{LoadFault, Origin, run_load};
use oe_machine::Machine;
use oe_numbers::{FollowingNumbers, Form, Items, Kinds, LoadNumbers, Ordinal};
use oe_origin::load_population;
use oe_rows::Scale;
use oe_terms::Plan;
use std::alloc::Global;

/// Why a load on a folder's population is not told whole.
#[derive(Clone, Copy)]
pub enum FollowingFault {
    /// The tables have no scale: a load would ask for what is not there. Nothing was written.
    NoScale(Gap),
    /// As `run_load` has it.
    Load(LoadFault),
}

/// What a load on tables asks for, but for its scale, which the tables have.
#[derive(Clone, Copy)]
pub struct Following {
    pub numbers: FollowingNumbers,
    pub first: Ordinal,
    pub kinds: Kinds,
    pub items: Items,
}

impl Following {
    /// Gives the plan of that scale.
    fn plan(&self, scale: Scale) -> Plan
        ensures { result ≡ plan_of self.now scale }
    {
        Plan {
            numbers: LoadNumbers {
                scale,
                extents: self.numbers.extents,
                terminals: self.numbers.terminals,
                requests: self.numbers.requests,
                seed: self.numbers.seed,
            },
            first: self.first,
            kinds: self.kinds,
            items: self.items,
        }
    }
}

/// Writes a load that begins on the population in nine files of a format, and draws from its scale.
///
/// `NoPopulation` as `load_population` has it. `NoScale`: the numbers of its warehouses or items
/// have a gap, or a district lacks a customer or a last name. Other faults are those of `run_load`.
pub fn run_load_from<M: Machine, S: Intake, W: Outlet>(
    alloc: Global,
    format: Format,
    from: &mut Sources<S>,
    following: &Following,
    form: Form,
    writer: &mut W,
) -> Result<(), FromFault<FollowingFault>>
    ensures { LoadFromRan format (nine_of S.source from.old) (nine_of S.source from.new)
        following.now form (W.sink writer.old) (W.sink writer.new) result }
{
    let tables = match load_population(alloc, format, from) {
        Ok(tables) => tables,
        Err(error) => return Err(FromFault::NoPopulation(error)),
    };
    let scale = match scale_of(&tables) {
        Ok(scale) => scale,
        Err(gap) => {
            tables.discard();
            return Err(FromFault::Fault(FollowingFault::NoScale(gap)));
        }
    };
    let plan = &following.plan(scale);
    match run_load::<M, W>(alloc, plan, Origin::Tables(tables), form, writer) {
        Ok(()) => Ok(()),
        Err(fault) => Err(FromFault::Fault(FollowingFault::Load(fault))),
    }
}
