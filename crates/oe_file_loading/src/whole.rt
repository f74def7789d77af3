//! Nine files whose rows all find the rows that they refer to, as nine tables. Else the call
//! names the first row that does not.
ghost use Rattle.std.specs.Prelude.{MatchResult};
ghost use Rattle.oe_store.specs.Places.{rows};
ghost use Rattle.oe_file_loading.specs.Loading.{Nine, nine_of};
ghost use Rattle.oe_file_loading.specs.Loaded.{IsLoaded};
ghost use Rattle.oe_file_loading.specs.Whole.{AreWhole, LacksRow, IsNotWhole};
ghost use Rattle.oe_file_tables.specs.declared.formats.Format.{Format};

use crate::loading::{Apart, LoadError, Loaded, Sources, load};
use oe_file_tables::Format;
use oe_io::ports::Intake;
use oe_store::Tables;
use std::alloc::Global;

/// Why nine files are no nine tables.
#[derive(Drop)]
pub enum NotWhole {
    /// A row refers to a row that is not there.
    Apart(Apart),
    /// The files are not loaded.
    Unloaded(LoadError),
}

// Gives tables from which no row is set apart; else the first row that is.
fn whole(loaded: Loaded) -> Result<Tables, Apart>
    ensures { (format : Format) (old new : Nine) → IsLoaded format old new loaded
        → MatchResult result (λ t. AreWhole format old new (rows t)) (LacksRow format old new) }
{
    let Loaded {
        tables,
        apart,
        counts: _,
    } = loaded;
    match apart.first() {
        None => Ok(tables),
        Some(first) => {
            tables.discard();
            Err(*first)
        }
    }
}

/// Loads the tables of nine files of a format, whose rows are exactly those that the files' lines
/// spell.
///
/// `Apart` where a row refers to a row that is not there (clauses 1.3 and 1.4): the first such row,
/// table by table as in `load`, with the first row that it lacks. Other errors are those of `load`.
pub fn load_whole<S: Intake>(
    alloc: Global,
    format: Format,
    sources: &mut Sources<S>,
) -> Result<Tables, NotWhole>
    ensures { MatchResult result
        (λ t. AreWhole format (nine_of S.source sources.old) (nine_of S.source sources.new)
        (rows t))
        (IsNotWhole format (nine_of S.source sources.old) (nine_of S.source sources.new)) }
{
    match load(alloc, format, sources) {
        Ok(loaded) => match whole(loaded) {
            Ok(tables) => Ok(tables),
            Err(apart) => Err(NotWhole::Apart(apart)),
        },
        Err(error) => Err(NotWhole::Unloaded(error)),
    }
}
