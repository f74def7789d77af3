//! Nine files are opened in a folder, each under its table's name. Those that can't be opened are
//! closed from the beginning, and a line says why.
ghost use Rattle.std.specs.Prelude.{◌≡◌, IfOk, IfSome, is_some, if◌then◌else◌};
ghost use Rattle.std.specs.Path.{path_join, path_buf_bytes};
ghost use Rattle.oe_rows.specs.Key.{table_name};
ghost use Rattle.oe_file_loading.specs.Files.{AreTheirs, IsOneOpen, AreOpen};

use crate::files::{TableFile, reader_of};
use crate::loading::Sources;
use crate::pace::Pace;
use oe_rows::{TABLES, Table};
use std::alloc::{AllocError, Global};
use std::io::ErrorKind;
use std::path::{Path, PathBuf};
use std::rt::Files;
use std::{fs, io};

/// Gives the path of a table's file in a folder.
pub fn path_in(alloc: Global, folder: &str, table: Table) -> Result<PathBuf, AllocError>
    ensures { IfOk result (λ path. path_buf_bytes path ≡ path_join folder.now (table_name table)) }
{
    Path::new(folder).join(alloc, table.name())
}

// Opens the file of a table.
fn open_file<R: Files + AllocGlobal>(rt: &R, folder: &str, table: Table) -> io::Result<R::File> {
    let path = path_in(rt.alloc(), folder, table)?;
    fs::open(rt, path.as_path())
}

// Opens the file of a table, which is closed from the beginning where it can't be opened.
fn open_table<'p, 'r, R: Files + AllocGlobal>(
    rt: &R,
    folder: &str,
    table: Table,
    pace: &'p Pace<'r, R>,
) -> TableFile<'p, 'r, R, R::File>
    ensures { result.table ≡ table }
{
    TableFile::new(table, open_file(rt, folder, table), pace)
}

/// Opens the nine files of a folder. One that can't be opened is closed from the beginning.
pub fn open_tables<'p, 'r, R: Files + AllocGlobal>(
    rt: &R,
    folder: &str,
    pace: &'p Pace<'r, R>,
) -> Sources<TableFile<'p, 'r, R, R::File>>
    ensures { AreTheirs (λ file. file.table) result }
{
    Sources {
        warehouse: open_table(rt, folder, Table::Warehouse, pace),
        district: open_table(rt, folder, Table::District, pace),
        customer: open_table(rt, folder, Table::Customer, pace),
        history: open_table(rt, folder, Table::History, pace),
        new_order: open_table(rt, folder, Table::NewOrder, pace),
        order: open_table(rt, folder, Table::Order, pace),
        order_line: open_table(rt, folder, Table::OrderLine, pace),
        item: open_table(rt, folder, Table::Item, pace),
        stock: open_table(rt, folder, Table::Stock, pace),
    }
}

/// Opens the nine files of a folder, where one is named.
pub fn open_named<'p, 'r, R: Files + AllocGlobal>(
    rt: &R,
    folder: Option<&str>,
    pace: &'p Pace<'r, R>,
) -> Option<Sources<TableFile<'p, 'r, R, R::File>>>
    ensures named { is_some result ≡ is_some folder.entry }
    ensures theirs { IfSome result (AreTheirs (λ file. file.table)) }
{
    match folder {
        Some(folder) => Some(open_tables(rt, folder, pace)),
        None => None,
    }
}

// Says why the file of a table can't be read.
fn tell_cause<R: Eprint>(rt: &R, table: Table, cause: &io::Error) -> io::Result<()> {
    match cause.kind() {
        ErrorKind::NotFound => eprintln!(rt; "{}: no such file", table.name()),
        ErrorKind::IsADirectory => eprintln!(rt; "{}: a folder, and no file", table.name()),
        _ => eprintln!(rt; "{}: can't be read: {cause}", table.name()),
    }
}

/// Whether files are open.
#[derive(Clone, Copy)]
pub enum Openness {
    /// All are.
    Open,
    /// One is not.
    Closed,
    /// There was no memory to open one.
    NoMemory,
}

// Tells whether a file is open, and says why it is not; but for a want of memory.
fn tell_file<R: Eprint>(rt: &R, table: Table, cause: Option<io::Error>) -> io::Result<Openness>
    ensures { IfOk result (λ openness. IsOneOpen cause openness) }
{
    let Some(cause) = cause else {
        return Ok(Openness::Open);
    };
    if cause.kind() == ErrorKind::OutOfMemory {
        return Ok(Openness::NoMemory);
    }
    tell_cause(rt, table, &cause)?;
    Ok(Openness::Closed)
}

// Gives what the last of nine files leaves.
fn ended(all_open: bool) -> Openness
    ensures { result ≡ (if all_open then Openness.Open else Openness.Closed) }
{
    if all_open {
        Openness::Open
    } else {
        Openness::Closed
    }
}

/// Tells whether all nine files are open, and says of each other why it is not, up to one for which
/// there was no memory.
///
/// An error is one of standard error.
pub fn tell_closed<R: Eprint, F>(
    rt: &R,
    sources: &Sources<TableFile<'_, '_, R, F>>,
) -> io::Result<Openness>
    ensures { IfOk result (λ openness. AreOpen (λ x. x.file) sources.now openness) }
{
    let mut all_open = true;
    for table in TABLES {
        match tell_file(rt, table, reader_of(sources, table).cause())? {
            Openness::Open => {}
            Openness::Closed => all_open = false,
            Openness::NoMemory => return Ok(Openness::NoMemory),
        }
    }
    Ok(ended(all_open))
}

/// Says why the file of a table was not read to its end.
pub fn tell_unread<R: Eprint, F>(
    rt: &R,
    sources: &Sources<TableFile<'_, '_, R, F>>,
    table: Table,
) -> io::Result<()> {
    match reader_of(sources, table).cause() {
        Some(cause) => tell_cause(rt, table, &cause),
        None => eprintln!(rt; "{}: can't be read", table.name()),
    }
}
