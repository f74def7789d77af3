//! The files of a folder that have names of tables: each table has to have one; of an earlier
//! folder, each whose rows are compared.
ghost use Rattle.std.specs.Prelude.{◌≡◌, IfOk, IfSome, MatchOption, None, Some};
ghost use Rattle.oe_answers.specs.Folders.{lasting_tables, names_of, only_of, tables, texts_of};
ghost use Rattle.oe_answers.specs.Folders.{AreOf, HasTables};

use crate::progress::{Progress, Watched};
use oe_facts::{TABLES, Table};
use oe_file_audit::{Side, TableSource};
use oe_sources::table_of_file;
use std::path::Path;
use std::rt::Files;
use std::time::Clock;
use std::{fs, io};

/// A file of a folder that has the name of a table.
#[derive(Drop)]
pub struct TableName {
    pub table: Table,
    pub name: String,
}

/// What an audit reads.
#[derive(Drop)]
pub enum Audited<F, D> {
    /// The files of a folder that have names of tables, one for each table. None where a table has
    /// no file, or two, or one that can't be opened: a line on standard error says so of each. An
    /// error where the folder can't be read.
    Folder(io::Result<Option<Vec<TableSource<F>>>>),
    /// A dump of all tables; an error where it can't be read.
    Dump(io::Result<D>),
}

/// The files of the folder of that name, as tables were before.
///
/// They are one for each table whose rows are compared; those of other tables are passed over. None
/// where such a table has no file, or two, or one that can't be opened: a line on standard error
/// says so of each. An error where the folder can't be read.
#[derive(Drop)]
pub struct BeforeFolder<'a, S> {
    pub name: &'a str,
    pub sources: io::Result<Option<Vec<TableSource<S>>>>,
}

/// The tables whose rows are compared with earlier ones.
const LASTING: [Table; 5] = [
    Table::Warehouse,
    Table::District,
    Table::Customer,
    Table::Item,
    Table::Stock,
];

/// Gives what a line writes before a table's name.
pub(crate) fn before_name(side: Side) -> &'static str {
    match side {
        Side::Now => "",
        Side::Before => "before/",
    }
}

// Finds the files of a folder that have names of tables.
fn table_names<R: Files + AllocGlobal + Clone + Drop>(
    rt: &R,
    folder: &str,
) -> io::Result<Vec<TableName>> {
    let mut names = Vec::new(rt.alloc());
    for entry in fs::read_dir(rt, folder)? {
        let entry = entry?;
        if let Some(table) = table_of_file(entry.file_name().as_bytes()) {
            let name = format!(in rt.alloc(); "{}", entry.file_name())?;
            names.push(TableName { table, name })?;
        }
    }
    Ok(names)
}

// Gives the name of a table's only file, or says that it has none or more than one.
fn only_name<'a, R: Eprint>(
    rt: &R,
    side: Side,
    table: Table,
    names: &'a [TableName],
) -> io::Result<Option<&'a str>>
    ensures { IfOk result (λ only. texts_of only ≡ only_of (names_of table names.now)) }
{
    let before = before_name(side);
    let mut only = None;
    for found in names {
        if found.table.name() != table.name() {
            continue;
        }
        if let Some(other) = only {
            eprintln!(rt; "{before}{}: both {other} and {}", table.name(), found.name)?;
            return Ok(None);
        }
        only = Some(found.name.as_str());
    }
    if only.is_none() {
        eprintln!(rt; "{before}{}: no such file", table.name())?;
    }
    Ok(only)
}

// Opens the file of a table, or says why it can't be opened.
fn open_source<'p, 'r, R: Files + Eprint + AllocGlobal + Clock>(
    rt: &R,
    side: Side,
    folder: &str,
    table: Table,
    name: &str,
    progress: &'p Progress<'r, R>,
) -> io::Result<Option<TableSource<Watched<'p, 'r, R, R::File>>>>
    ensures { IfOk result (λ opened. IfSome opened (λ s. s.table ≡ table)) }
{
    let before = before_name(side);
    let path = Path::new(folder).join(rt.alloc(), name)?;
    let mut bytes = 0;
    if let Ok(found) = fs::metadata(rt, path.as_path()) {
        if found.is_dir() {
            eprintln!(rt; "{before}{}: a folder, and no file", table.name())?;
            return Ok(None);
        }
        bytes = found.len();
    }
    match fs::open(rt, path.as_path()) {
        Ok(file) => Ok(Some(TableSource {
            table,
            source: progress.watch(file, bytes),
        })),
        Err(error) => {
            eprintln!(rt; "{before}{}: can't be opened: {error}", table.name())?;
            Ok(None)
        }
    }
}

// Opens the files of these tables of a folder, or says of each other that it is not there.
fn open_sources<'p, 'r, R: Files + Eprint + AllocGlobal + Clock>(
    rt: &R,
    side: Side,
    wanted: &[Table],
    folder: &str,
    names: &[TableName],
    progress: &'p Progress<'r, R>,
) -> io::Result<Option<Vec<TableSource<Watched<'p, 'r, R, R::File>>>>>
    ensures { AreOf wanted.now result }
{
    let mut sources = Vec::new(rt.alloc());
    let mut is_whole = true;
    for table in wanted {
        let source = match only_name(rt, side, *table, names)? {
            Some(name) => open_source(rt, side, folder, *table, name, progress)?,
            None => None,
        };
        match source {
            Some(source) => sources.push(source)?,
            None => is_whole = false,
        }
    }
    if is_whole {
        return Ok(Some(sources));
    }
    Ok(None)
}

// Opens the files of a folder that have names of tables, one for each table.
fn open_folder<'p, 'r, R: Files + Eprint + AllocGlobal + Clock + Clone + Drop>(
    rt: &R,
    folder: &str,
    progress: &'p Progress<'r, R>,
) -> io::Result<Option<Vec<TableSource<Watched<'p, 'r, R, R::File>>>>>
    ensures { AreOf tables result }
{
    match table_names(rt, folder) {
        Ok(names) => open_sources(rt, Side::Now, &TABLES, folder, names.as_slice(), progress),
        Err(error) => Err(error),
    }
}

// Opens the files of an earlier folder that have names of the tables whose rows are compared, one
// for each.
fn open_lasting<'p, 'r, R: Files + Eprint + AllocGlobal + Clock + Clone + Drop>(
    rt: &R,
    folder: &str,
    progress: &'p Progress<'r, R>,
) -> io::Result<Option<Vec<TableSource<Watched<'p, 'r, R, R::File>>>>>
    ensures { AreOf lasting_tables result }
{
    match table_names(rt, folder) {
        Ok(names) => open_sources(
            rt,
            Side::Before,
            &LASTING,
            folder,
            names.as_slice(),
            progress,
        ),
        Err(error) => Err(error),
    }
}

/// Opens the files of an earlier folder, where one is named.
pub fn open_before<'a, 'p, 'r, R: Files + Eprint + AllocGlobal + Clock + Clone + Drop>(
    rt: &R,
    folder: Option<&'a str>,
    progress: &'p Progress<'r, R>,
) -> Option<BeforeFolder<'a, Watched<'p, 'r, R, R::File>>>
    ensures { MatchOption result (folder.entry ≡ None)
        (λ b. (folder.entry ≡ Some b.name) × AreOf lasting_tables b.sources) }
{
    match folder {
        Some(name) => Some(BeforeFolder {
            name,
            sources: open_lasting(rt, name, progress),
        }),
        None => None,
    }
}

// Opens a dump, which has `bytes` bytes.
fn open_dump<'p, 'r, R: Files + Eprint + Clock>(
    rt: &R,
    name: &str,
    bytes: u64,
    progress: &'p Progress<'r, R>,
) -> io::Result<Watched<'p, 'r, R, R::File>> {
    match fs::open(rt, name) {
        Ok(file) => Ok(progress.watch(file, bytes)),
        Err(error) => Err(error),
    }
}

/// Opens what an audit of that name reads: the files of a folder, or a dump.
pub fn open_audited<'p, 'r, R: Files + Eprint + AllocGlobal + Clock + Clone + Drop>(
    rt: &R,
    name: &str,
    progress: &'p Progress<'r, R>,
) -> Audited<Watched<'p, 'r, R, R::File>, Watched<'p, 'r, R, R::File>>
    ensures { HasTables result }
{
    match fs::metadata(rt, name) {
        Ok(found) => {
            if found.is_dir() {
                return Audited::Folder(open_folder(rt, name, progress));
            }
            Audited::Dump(open_dump(rt, name, found.len(), progress))
        }
        Err(error) => Audited::Dump(Err(error)),
    }
}
