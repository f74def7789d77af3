//! Scripts that begin opened, on the population of a folder.
ghost use Rattle.oe_file_loading.specs.Loading.{nine_of};
ghost use Rattle.oe_model.specs.Conditions.{IsPopulation};
ghost use Rattle.oe_store.specs.Places.{rows};
ghost use Rattle.oe_from.specs.Scripts.{OpenedRan, ScriptFromRan};

use crate::serials::FromFault;
use oe_file_loading::Sources;
use oe_file_tables::Format;
use oe_io::ports::{Intake, Outlet};
use oe_machine::Machine;
use oe_origin::load_population;
use oe_rows::Layout;
use oe_script::script::run_opened_script;
use oe_script::session::ScriptFault;
use oe_store::Tables;
use oe_values::ExtentCount;
use std::alloc::Global;
use thiserror::Error;

/// Why a script that begins opened could not be answered whole.
#[derive(Clone, Copy, Debug, Error)]
pub enum OpenedFault {
    /// There was no memory for its core. Nothing was read, and nothing was written.
    #[error("no memory")]
    NoMemory,
    /// A read or a write failed.
    #[error(transparent)]
    Script(ScriptFault),
}

// Answers a script on tables that are a population, with such an undo ring.
fn run_on<M: Machine, R: Intake, W: Outlet>(
    alloc: Global,
    tables: Tables,
    extents: ExtentCount,
    layout: Layout,
    reader: &mut R,
    writer: &mut W,
) -> Result<(), OpenedFault>
    requires { IsPopulation (rows tables) }
    ensures { OpenedRan (rows tables) extents layout (R.source reader.old) (R.source reader.new)
        (W.sink writer.old) (W.sink writer.new) result }
{
    let core = match M::open(alloc, tables, extents, layout) {
        Ok(core) => core,
        Err(_) => return Err(OpenedFault::NoMemory),
    };
    match run_opened_script(alloc, core, reader, writer) {
        Ok(()) => Ok(()),
        Err(fault) => Err(OpenedFault::Script(fault)),
    }
}

/// Answers a script that begins opened, on the population in nine files of a format, with such an
/// undo ring: `open` is then none of the forms.
///
/// `NoPopulation` as `load_population` has it; other faults are those of `run_script`, or a want of
/// memory before anything is read.
pub fn run_script_from<M: Machine, S: Intake, R: Intake, W: Outlet>(
    alloc: Global,
    format: Format,
    from: &mut Sources<S>,
    extents: ExtentCount,
    layout: Layout,
    reader: &mut R,
    writer: &mut W,
) -> Result<(), FromFault<OpenedFault>>
    ensures { ScriptFromRan format (nine_of S.source from.old) (nine_of S.source from.new)
        extents layout (R.source reader.old) (R.source reader.new)
        (W.sink writer.old) (W.sink writer.new) result }
{
    let tables = match load_population(alloc, format, from) {
        Ok(tables) => tables,
        Err(error) => return Err(FromFault::NoPopulation(error)),
    };
    match run_on::<M, R, W>(alloc, tables, extents, layout, reader, writer) {
        Ok(()) => Ok(()),
        Err(fault) => Err(FromFault::Fault(fault)),
    }
}
