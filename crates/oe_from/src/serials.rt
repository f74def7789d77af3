//! Files of replies, decided from the population of a folder.
ghost use Rattle.oe_file_loading.specs.Loading.{nine_of};
ghost use Rattle.oe_from.specs.Serials.{ComparisonFromRan, SerialFromRan};

use oe_comparison::{ComparisonFault, Verdict as ComparisonVerdict, run_comparison};
use oe_file_loading::Sources;
use oe_file_serial::{Origin, SerialFault, Verdict, run_serial};
use oe_file_tables::Format;
use oe_io::ports::{Intake, Outlet};
use oe_machine::Machine;
use oe_origin::{NoPopulation, load_population};
use std::alloc::Global;

/// Why a command that begins with the population of a folder does not end well.
#[derive(Drop)]
pub enum FromFault<F> {
    /// The folder's files are no population. Nothing was decided, and nothing was written.
    NoPopulation(NoPopulation),
    /// The command had this fault, on the population.
    Fault(F),
}

/// Decides whether a file's lines tell the replies that its transactions and queries have, one at a
/// time in this order from the population in nine files of a format, and writes the verdict.
///
/// `NoPopulation` as `load_population` has it; other faults and the verdict are those of
/// `run_serial`.
pub fn run_serial_from<'a, M: Machine, S: Intake, W: Outlet>(
    alloc: Global,
    format: Format,
    from: &mut Sources<S>,
    input: &'a [u8],
    writer: &mut W,
) -> Result<Verdict<'a>, FromFault<SerialFault>>
    ensures { SerialFromRan format (nine_of S.source from.old) (nine_of S.source from.new)
        input.now (W.sink writer.old) (W.sink writer.new) result }
{
    let tables = match load_population(alloc, format, from) {
        Ok(tables) => tables,
        Err(error) => return Err(FromFault::NoPopulation(error)),
    };
    match run_serial::<M, W>(alloc, input, Origin::Tables(tables), writer) {
        Ok(verdict) => Ok(verdict),
        Err(fault) => Err(FromFault::Fault(fault)),
    }
}

/// Decides so, and compares the tables that a serial file's transactions leave with nine other
/// files of the format.
///
/// `NoPopulation` as `load_population` has it; other faults and the verdict are those of
/// `run_comparison`.
pub fn run_comparison_from<'a, M: Machine, S: Intake, W: Outlet>(
    alloc: Global,
    format: Format,
    from: &mut Sources<S>,
    input: &'a [u8],
    sources: &mut Sources<S>,
    writer: &mut W,
) -> Result<ComparisonVerdict<'a>, FromFault<ComparisonFault>>
    ensures { ComparisonFromRan format (nine_of S.source from.old) (nine_of S.source from.new)
        input.now (nine_of S.source sources.old) (nine_of S.source sources.new)
        (W.sink writer.old) (W.sink writer.new) result }
{
    let tables = match load_population(alloc, format, from) {
        Ok(tables) => tables,
        Err(error) => return Err(FromFault::NoPopulation(error)),
    };
    match run_comparison::<M, S, W>(
        alloc,
        format,
        input,
        Origin::Tables(tables),
        sources,
        writer,
    ) {
        Ok(verdict) => Ok(verdict),
        Err(fault) => Err(FromFault::Fault(fault)),
    }
}
