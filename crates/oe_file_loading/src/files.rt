//! A table's file: it is read while it is open, and a read that fails closes it for that cause.
ghost use Rattle.std.specs.Prelude.{◌≡◌, ◌≤◌, length, IfOk, None};
ghost use Rattle.oe_io.specs.Ports.{Reads};
ghost use Rattle.oe_file_loading.specs.Files.{HandsOn, reader_of, cause_of};

use crate::loading::Sources;
use crate::pace::Pace;
use oe_io::ports::{Failed, Intake};
use oe_rows::Table;
use std::io;
use std::io::Read;
use std::time::Clock;

/// A table's file, which is open, or closed for the cause that is kept.
#[derive(Drop)]
pub struct TableFile<'p, 'r, R, F> {
    table: Table,
    file: Result<F, io::Error>,
    bytes: u64,
    pace: &'p Pace<'r, R>,
}

impl<'p, 'r, R, F> TableFile<'p, 'r, R, F> {
    /// Makes the file of a table, before its first read.
    pub(crate) fn new(table: Table, file: io::Result<F>, pace: &'p Pace<'r, R>) -> Self
        ensures table { result.table ≡ table }
        ensures file { result.file ≡ file }
        ensures bytes { result.bytes ≡ 0 }
    {
        TableFile {
            table,
            file,
            bytes: 0,
            pace,
        }
    }

    /// Gives why the file is closed.
    pub fn cause(&self) -> Option<io::Error>
        ensures { result ≡ cause_of self.now.file }
    {
        match &self.file {
            Ok(_) => None,
            Err(cause) => Some(*cause),
        }
    }
}

/// Reads of a file that is open, and closes it where the read fails.
fn read_open<F: Read + Drop>(file: &mut io::Result<F>, buf: &mut [u8]) -> Result<usize, Failed>
    ensures bound { IfOk result (λ n. n ≤ length buf.new) }
    ensures bytes { HandsOn F.remaining file.old file.new result buf.new }
{
    match file {
        Ok(open) => match open.read(buf) {
            Ok(count) => Ok(count),
            Err(cause) => {
                *file = Err(cause);
                Err(Failed)
            }
        },
        Err(_) => Err(Failed),
    }
}

impl<R: Clock + Eprint, F: Read + Drop> Intake for TableFile<'_, '_, R, F> {
    ghost source = { λ _. None };

    fn read(&mut self, buf: &mut [u8]) -> Result<usize, Failed>
        ensures bound { IfOk result (λ n. n ≤ length buf.new) }
        ensures bytes { Reads None None result buf.new }
        ensures handed { HandsOn F.remaining self.old.file self.new.file result buf.new }
        ensures table { self.new.table ≡ self.old.table }
    {
        match read_open(&mut self.file, buf) {
            Ok(count) => {
                self.bytes = self.bytes.saturating_add(count as u64);
                self.pace.tell(self.table, self.bytes);
                Ok(count)
            }
            Err(failed) => Err(failed),
        }
    }
}

/// Gives the reader of a table.
pub fn reader_of<S>(sources: &Sources<S>, table: Table) -> &S
    ensures { result.now ≡ reader_of sources.now table }
{
    match table {
        Table::Warehouse => &sources.warehouse,
        Table::District => &sources.district,
        Table::Customer => &sources.customer,
        Table::History => &sources.history,
        Table::NewOrder => &sources.new_order,
        Table::Order => &sources.order,
        Table::OrderLine => &sources.order_line,
        Table::Item => &sources.item,
        Table::Stock => &sources.stock,
    }
}
