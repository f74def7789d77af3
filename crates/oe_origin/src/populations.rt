//! A population is loaded from nine files: their rows are the tables' rows, and these are such as
//! to begin from. A folder that is no population is refused, with the first thing that it lacks.
ghost use Rattle.std.specs.Prelude.{MatchResult};
ghost use Rattle.oe_file_loading.specs.Loading.{Nine, nine_of};
ghost use Rattle.oe_file_loading.specs.Whole.{AreWhole};
ghost use Rattle.oe_file_tables.specs.declared.formats.Format.{Format};
ghost use Rattle.oe_store.specs.Places.{rows};
ghost use Rattle.oe_origin.specs.Lacks.{AreOfPopulation};
ghost use Rattle.oe_origin.specs.Populations.{IsOpenedOn, IsNoPopulation, LacksOf};

use crate::lacks::{Lack, first_lack};
use oe_file_loading::{LoadError, NotWhole, Sources, load_whole};
use oe_file_tables::Format;
use oe_io::ports::Intake;
use oe_store::Tables;
use std::alloc::Global;

/// Why nine files are no population.
#[derive(Drop)]
pub enum NoPopulation {
    /// They lack something.
    Lacks(Lack),
    /// They are not loaded: a line can't be read, a read failed, or there was no memory.
    Unloaded(LoadError),
}

// Gives tables that are a population; else what they lack.
fn population(tables: Tables) -> Result<Tables, Lack>
    requires { AreOfPopulation (rows tables) }
    ensures { (format : Format) (old new : Nine) → AreWhole format old new (rows tables)
        → MatchResult result (λ t. IsOpenedOn format old new (rows t)) (LacksOf format old new) }
{
    match first_lack(&tables) {
        None => Ok(tables),
        Some(lack) => {
            tables.discard();
            Err(lack)
        }
    }
}

/// Loads a population from nine files of a format. Its rows are exactly those that the files' lines
/// spell; a HISTORY row's key has terminal 0, and its line's number.
///
/// `Lacks` where the files are no population: a row refers to a row that is not there; else the
/// first of conditions 1 to 4 that fails (clause 3.3.2), with the first row at which it does; else
/// the first STOCK row that is not there. `Unloaded` where the files are not loaded, as `load` of
/// `oe_file_loading` has it: so in a file of more than 16 warehouses each line of another is a fault
/// (clause 1.3.1's ranges, and the schema's).
pub fn load_population<S: Intake>(
    alloc: Global,
    format: Format,
    sources: &mut Sources<S>,
) -> Result<Tables, NoPopulation>
    ensures { MatchResult result
        (λ t. IsOpenedOn format (nine_of S.source sources.old) (nine_of S.source sources.new)
        (rows t))
        (IsNoPopulation format (nine_of S.source sources.old) (nine_of S.source sources.new)) }
{
    match load_whole(alloc, format, sources) {
        Ok(tables) => match population(tables) {
            Ok(tables) => Ok(tables),
            Err(lack) => Err(NoPopulation::Lacks(lack)),
        },
        Err(NotWhole::Apart(apart)) => Err(NoPopulation::Lacks(Lack::Row(apart))),
        Err(NotWhole::Unloaded(error)) => Err(NoPopulation::Unloaded(error)),
    }
}
