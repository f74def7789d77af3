//! Each fact that sources spell is entered in the books; and its print, where prints are wanted, in
//! what is kept to compare rows with earlier ones.
//!
//! A table's file that may be read by itself has a thread of its own, and books that are put behind
//! the others. Those of CUSTOMER, ORDER and ORDER-LINE are read one after another beside it: the
//! CUSTOMER rows before the first order tell how many orders the population had.
ghost use Rattle.std.specs.Thread.{IsSend, IsSync};
ghost use Rattle.std.specs.Prelude.{◌≡◌, ◌++◌, ◌∷◌, ◌⊎◌, ◌&&◌, not, [], ℕ, List, Option, Some, None, Err, IfOk, IfErr, IfSome, OnOk};
ghost use Rattle.oe_file_audit.specs.declared.reading.TableSource.{TableSource};
ghost use Rattle.oe_earlier.specs.Traces.{Traced};
ghost use Rattle.oe_earlier.specs.Keeping.{KeepsTraces};
ghost use Rattle.oe_books.specs.Facts.{stands_apart};
ghost use Rattle.oe_file_audit.specs.Reading.{Holds, HoldsBoth, with_print, TablesRead, ReadAlone, PutBehind, IsBehind, has_source, StopsAt, DumpRead};

use oe_books::Books;
use oe_columns::{RowFact, Wanted};
use oe_earlier::Traces;
use oe_facts::Table;
use oe_fields::Format;
use oe_filelines::Stop;
use oe_sources::{Faults, Ledger, Taken, read_dump, read_table};
use std::alloc::{AllocError, Global};
use std::io::Read;
use std::thread::{Threads, join};

/// Books that take the facts of sources, and what is kept of their prints.
#[derive(Drop)]
pub struct Entered {
    pub(crate) books: Books,
    pub(crate) traces: Traces,
}

// Keeps the print of a row, where it has one.
#[inline]
fn keep(traces: &mut Traces, row: &RowFact) -> Result<(), AllocError>
    ensures { OnOk result ((t : Traced) → KeepsTraces t traces.old
        → KeepsTraces (with_print t row.now) traces.new) }
{
    match row.print {
        Some(print) => traces.take(&row.fact, print),
        None => Ok(()),
    }
}

impl Ledger for Entered {
    ghost Begun = { Option ℕ };

    ghost holds = { Holds };

    #[inline]
    fn take(&mut self, row: &RowFact) -> Result<(), AllocError> {
        if let Err(refused) = keep(&mut self.traces, row) {
            return Err(refused);
        }
        self.books.take(&row.fact)
    }
}

/// The rows of a table, which are to be read.
#[derive(Drop)]
pub struct TableSource<S> {
    pub table: Table,
    pub source: S,
}

/// What sources spell, and what is wrong with their lines, source by source.
#[derive(Drop)]
pub struct Spelled {
    pub(crate) entered: Entered,
    pub(crate) faults: Vec<Faults>,
}

impl Entered {
    // Begins without a row.
    fn new(alloc: Global, given: Option<u32>) -> Entered
        ensures { Holds given result [] }
    {
        Entered {
            books: Books::new(alloc, given),
            traces: Traces::new(alloc),
        }
    }

    // Takes in what a source spells of a table that stands apart, in books of its own.
    fn joined(self, other: Entered) -> Option<Entered>
        ensures { IfSome result (HoldsBoth self other) }
    {
        let Entered { books, traces } = other;
        let mut both = self;
        let printed = both.traces.append(traces);
        match both.books.append_apart(books).and(printed) {
            Some(()) => Some(both),
            None => {
                drop(both);
                None
            }
        }
    }

    // Gives up the books, and keeps what is compared with later rows.
    #[inline(never)]
    pub(crate) fn into_traces(self) -> Traces
        ensures { result ≡ self.traces }
    {
        let Entered { books, traces } = self;
        drop(books);
        traces
    }
}

/// Why sources were not read to their ends.
#[derive(Clone, Copy)]
pub struct Unread {
    /// The table that was read, where a source has one.
    pub table: Option<Table>,
    pub stop: Stop,
}

// Adds a source that was read.
fn with_source(faults: Vec<Faults>, taken: Taken<Entered>) -> Option<Spelled>
    ensures { IfSome result (λ spelled. (spelled.entered ≡ taken.ledger)
        × (spelled.faults.items ≡ faults.items ++ taken.faults ∷ [])) }
{
    let Taken {
        ledger,
        faults: told,
    } = taken;
    let mut faults = faults;
    if faults.push(told).is_err() {
        drop(ledger);
        return None;
    }
    Some(Spelled {
        entered: ledger,
        faults,
    })
}

impl Spelled {
    // No source was read.
    fn new(alloc: Global, given: Option<u32>) -> Spelled
        ensures entered { Holds given result.entered [] }
        ensures faults { result.faults.items ≡ [] }
    {
        Spelled {
            entered: Entered::new(alloc, given),
            faults: Vec::new(alloc),
        }
    }
}

// Reads the source of a table, behind those that were read.
fn read_next<S: Read + Drop>(
    alloc: Global,
    wanted: Wanted,
    format: Format,
    source: TableSource<S>,
    so_far: Spelled,
) -> Result<Spelled, Unread>
    ensures read { (given : Option ℕ) (sources : List (TableSource S))
        → TablesRead S.remaining wanted format given sources so_far
        → IfOk result (TablesRead S.remaining wanted format given (sources ++ source ∷ [])) }
    ensures unread { IfErr result (λ unread. unread.table ≡ Some source.table) }
{
    let TableSource { table, source } = source;
    let Spelled { entered, faults } = so_far;
    let stop = match read_table(alloc, table, wanted, format, source, entered) {
        Ok(taken) => match with_source(faults, taken) {
            Some(spelled) => return Ok(spelled),
            None => Stop::NoMemory,
        },
        Err(stop) => stop,
    };
    Err(Unread {
        table: Some(table),
        stop,
    })
}

// Reads the source of a table by itself.
fn read_alone<S: Read + Drop>(
    alloc: Global,
    wanted: Wanted,
    format: Format,
    source: TableSource<S>,
) -> Result<Taken<Entered>, Unread>
    ensures read { IfOk result (ReadAlone S.remaining wanted format source) }
    ensures unread { IfErr result (λ unread. unread.table ≡ Some source.table) }
{
    let TableSource { table, source } = source;
    let entered = Entered::new(alloc, Some(0));
    match read_table(alloc, table, wanted, format, source, entered) {
        Ok(taken) => Ok(taken),
        Err(stop) => Err(Unread {
            table: Some(table),
            stop,
        }),
    }
}

// Takes in what a source spells that was read by itself.
fn with_alone(so_far: Spelled, own: Taken<Entered>) -> Option<Spelled>
    ensures { IfSome result (IsBehind so_far own) }
{
    let Spelled { entered, faults } = so_far;
    let Taken {
        ledger,
        faults: told,
    } = own;
    match entered.joined(ledger) {
        Some(both) => with_source(
            faults,
            Taken {
                ledger: both,
                faults: told,
            },
        ),
        None => None,
    }
}

// Puts what was read by itself of a table behind what was read of sources before it.
fn put_behind(
    table: Table,
    so_far: Result<Spelled, Unread>,
    own: Result<Taken<Entered>, Unread>,
) -> Result<Spelled, Unread>
    requires { IfErr own (λ unread. unread.table ≡ Some table) }
    ensures read { IfOk result (PutBehind so_far own) }
    ensures unread { IfErr result (λ unread. (so_far ≡ Err unread)
        ⊎ (unread.table ≡ Some table)) }
{
    let so_far = match so_far {
        Ok(so_far) => so_far,
        Err(unread) => {
            drop(own);
            return Err(unread);
        }
    };
    let taken = match own {
        Ok(taken) => taken,
        Err(unread) => {
            drop(so_far);
            return Err(unread);
        }
    };
    match with_alone(so_far, taken) {
        Some(both) => Ok(both),
        None => Err(Unread {
            table: Some(table),
            stop: Stop::NoMemory,
        }),
    }
}

// Tells whether rows of a table are entered alike, wherever they come.
fn stands_apart(table: Table) -> bool
    ensures { result ≡ stands_apart table }
{
    match table {
        Table::Customer | Table::Order | Table::OrderLine => false,
        _ => true,
    }
}

// Tells whether a source is of that table.
fn has_source<S>(sources: &[TableSource<S>], table: Table) -> bool
    ensures { result ≡ has_source sources.now table }
{
    sources
        .iter()
        .any(|source| source.table.place() == table.place())
}

// Tells whether the source of a table may be read by itself beside those before it.
fn is_alone<S>(sources: &[TableSource<S>], table: Table) -> bool
    ensures { result ≡ (stands_apart table && not (has_source sources.now table)) }
{
    stands_apart(table) && !has_source(sources, table)
}

/// Reads the sources of tables: what they spell is as if each were read behind those before it.
/// `given` is the number of orders that the population had in each district; else the sources of
/// customers come before those of orders and their lines.
#[cycle(read_tables)]
pub fn read_tables<R: Threads + Sync, S: Read + Drop + Send>(
    rt: &R,
    alloc: Global,
    given: Option<u32>,
    wanted: Wanted,
    format: Format,
    sources: Vec<TableSource<S>>,
) -> Result<Spelled, Unread>
    ensures read { IfOk result (TablesRead S.remaining wanted format given sources.items) }
    ensures unread { IfErr result (StopsAt sources.items) }
{
    let mut sources = sources;
    let Some(source) = sources.pop() else {
        return Ok(Spelled::new(alloc, given));
    };
    let table = source.table;
    if !is_alone(&sources, table) {
        return match read_tables(rt, alloc, given, wanted, format, sources) {
            Ok(so_far) => read_next(alloc, wanted, format, source, so_far),
            Err(unread) => Err(unread),
        };
    }
    let own = move || -> Result<Taken<Entered>, Unread>
        ensures { IfOk result (ReadAlone S.remaining wanted format source)
            × IfErr result (λ unread. unread.table ≡ Some source.table) }
    { read_alone(alloc, wanted, format, source) };
    let before = move || -> Result<Spelled, Unread>
        requires { IsSync R.row × IsSend S.row }
        ensures { IfOk result (TablesRead S.remaining wanted format given sources.items)
            × IfErr result (StopsAt sources.items) }
    { read_tables(rt, alloc, given, wanted, format, sources) };
    let (own, so_far) = join(rt, own, before);
    put_behind(table, so_far, own)
}

/// Reads a dump.
pub fn read_one<S: Read + Drop>(
    alloc: Global,
    given: Option<u32>,
    wanted: Wanted,
    source: S,
) -> Result<Spelled, Unread>
    ensures read { IfOk result (DumpRead wanted given (S.remaining source)) }
    ensures unread { IfErr result (λ unread. unread.table ≡ None) }
{
    let entered = Entered::new(alloc, given);
    let stop = match read_dump(alloc, wanted, source, entered) {
        Ok(taken) => match with_source(Vec::new(alloc), taken) {
            Some(spelled) => return Ok(spelled),
            None => Stop::NoMemory,
        },
        Err(stop) => stop,
    };
    Err(Unread { table: None, stop })
}
