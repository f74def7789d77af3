//! The rows of earlier files, which are read first: what is kept of them to compare rows with.
ghost use Rattle.std.specs.Prelude.{◌≡◌, List, IfOk, IfErr, None};
ghost use Rattle.std.specs.Option.{option_map};
ghost use Rattle.oe_columns.specs.declared.prints.RowFact.{RowFact};
ghost use Rattle.oe_earlier.specs.Keeping.{KeepsTraces};
ghost use Rattle.oe_file_audit.specs.Reading.{prints_of};
ghost use Rattle.oe_file_audit.specs.Earlier.{any_fault, wanted_by, IsEarlier, EarlierBy, EarlierIsRead, StopsBefore};

use crate::reading::{Spelled, TableSource, Unread, read_tables};
use oe_books::Asked;
use oe_columns::Wanted;
use oe_earlier::Traces;
use oe_fields::Format;
use oe_sources::Faults;
use std::alloc::Global;
use std::io::Read;
use std::thread::Threads;

/// What is kept of earlier rows, and whether there are any to compare rows with.
#[derive(Drop)]
pub struct Earlier {
    pub(crate) asked: Asked,
    pub(crate) traces: Traces,
}

/// What earlier sources come to.
#[derive(Drop)]
pub enum EarlierRead {
    /// Each line was read.
    Sound(Earlier),
    /// Lines can't be read.
    Faulty(Vec<Faults>),
}

impl Earlier {
    // There are no earlier rows.
    fn none(alloc: Global) -> Earlier
        ensures { IsEarlier None result }
    {
        Earlier {
            asked: Asked::Rows,
            traces: Traces::new(alloc),
        }
    }

    // Gives what is read of the rows that are compared.
    pub(crate) fn wanted(&self) -> Wanted
        ensures { result ≡ wanted_by self.now.asked }
    {
        match self.asked {
            Asked::Rows => Wanted::Facts,
            Asked::Earlier => Wanted::Prints,
        }
    }
}

// Tells whether a line of a source can't be read.
pub(crate) fn any_fault(faults: &[Faults]) -> bool
    ensures { result ≡ any_fault faults.now }
{
    for told in faults {
        if !told.kept().is_empty() {
            return true;
        }
    }
    false
}

// Gives up the books of earlier rows, and keeps what is compared.
fn kept(spelled: Spelled) -> EarlierRead
    ensures { (rows : List RowFact) → KeepsTraces (prints_of rows) spelled.entered.traces
        → EarlierBy rows spelled.faults.items result }
{
    let Spelled { entered, faults } = spelled;
    if any_fault(&faults) {
        drop(entered);
        return EarlierRead::Faulty(faults);
    }
    EarlierRead::Sound(Earlier {
        asked: Asked::Earlier,
        traces: entered.into_traces(),
    })
}

/// Reads the sources of earlier rows, where they are given.
pub(crate) fn read_earlier<R: Threads + Sync, S: Read + Drop + Send>(
    rt: &R,
    alloc: Global,
    format: Format,
    before: Option<Vec<TableSource<S>>>,
) -> Result<EarlierRead, Unread>
    ensures read { IfOk result (EarlierIsRead S.remaining format
        (option_map (λ v. v.items) before)) }
    ensures unread { IfErr result (StopsBefore (option_map (λ v. v.items) before)) }
{
    let Some(sources) = before else {
        return Ok(EarlierRead::Sound(Earlier::none(alloc)));
    };
    match read_tables(rt, alloc, Some(0), Wanted::Prints, format, sources) {
        Ok(spelled) => Ok(kept(spelled)),
        Err(unread) => Err(unread),
    }
}
