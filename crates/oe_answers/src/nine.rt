//! Notes for a person on nine files that are not open, no rows, or no population; and the status
//! then.
ghost use Rattle.std.specs.Prelude.{IfOk};
ghost use Rattle.oe_answers.specs.Endings.{EndsWith, Told};
ghost use Rattle.oe_answers.specs.Notes.{no_population_note};
ghost use Rattle.oe_answers.specs.Opened.{IsClosed};
ghost use Rattle.oe_answers.specs.Statuses.{stop_status, no_population_status};

use crate::endings::{Aim, fail};
use oe_comparison::write_faults;
use oe_file_loading::{LoadError, Openness, Sources, TableFile, tell_closed, tell_unread};
use oe_file_tables::Stop;
use oe_io::faults::SystemFault;
use oe_io::ports::Outlet;
use oe_origin::{NoPopulation, write_lack};
use std::io;

/// Says which of nine files can't be opened, and gives the status then.
pub(crate) fn closed_status<R: Eprint, F>(
    rt: &R,
    aim: Aim,
    sources: &Sources<TableFile<'_, '_, R, F>>,
) -> io::Result<Option<u8>>
    ensures { IfOk result (λ status. IsClosed aim sources.now status) }
{
    match tell_closed(rt, sources) {
        Ok(Openness::Open) => Ok(None),
        Ok(Openness::Closed) => Ok(Some(2)),
        Ok(Openness::NoMemory) => match fail(rt, aim, SystemFault::NoMemory) {
            Ok(status) => Ok(Some(status)),
            Err(error) => Err(error),
        },
        Err(error) => Err(error),
    }
}

/// Says why nine files were not read to their ends.
pub(crate) fn stopped<R: Eprint, F>(
    rt: &R,
    aim: Aim,
    sources: &Sources<TableFile<'_, '_, R, F>>,
    stop: Stop,
) -> io::Result<u8>
    ensures { EndsWith (stop_status aim stop) result }
{
    match stop {
        Stop::NoMemory => fail(rt, aim, stop),
        Stop::Read(table) => {
            tell_unread(rt, sources, table)?;
            Ok(2)
        }
    }
}

/// Says why nine files are no population.
#[tactic(auto, using(crate::proofs::NoteFacts::told))]
pub(crate) fn no_population<R: Eprint, F, E: Outlet>(
    rt: &R,
    aim: Aim,
    sources: &Sources<TableFile<'_, '_, R, F>>,
    error: &NoPopulation,
    errors: &mut E,
) -> io::Result<u8>
    ensures told { Told (E.sink errors.old) (E.sink errors.new) (no_population_note error.now) }
    ensures status { EndsWith (no_population_status aim error.now) result }
{
    match error {
        NoPopulation::Lacks(lack) => {
            let _told = write_lack(lack, errors);
            Ok(2)
        }
        NoPopulation::Unloaded(LoadError::Unreadable(faults)) => {
            let _told = write_faults(faults, errors);
            Ok(2)
        }
        NoPopulation::Unloaded(LoadError::Stopped(stop)) => stopped(rt, aim, sources, *stop),
    }
}
