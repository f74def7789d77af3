//! Images of rows of any table, and of a row behind its key.
ghost use Rattle.std.specs.Prelude.{◌≡◌, ◌≤◌, ◌+◌, length};
ghost use Rattle.oe_extent.specs.Images.{Writes};
ghost use Rattle.oe_image.specs.Rows.{row_image, image_of};

use crate::columns::Imaged;
use oe_rows::Key;
use oe_rows::rows::Row;

impl Imaged for Row {
    ghost most = { 683 };

    ghost image = { λ r. row_image r };

    fn length(&self) -> usize {
        match self {
            Row::Warehouse(row) => row.length(),
            Row::District(row) => row.length(),
            Row::Customer(row) => row.length(),
            Row::History(row) => row.length(),
            Row::NewOrder(row) => row.length(),
            Row::Order(row) => row.length(),
            Row::OrderLine(row) => row.length(),
            Row::Item(row) => row.length(),
            Row::Stock(row) => row.length(),
        }
    }

    fn write(&self, bytes: &mut [u8], start: usize) -> usize {
        match self {
            Row::Warehouse(row) => row.write(bytes, start),
            Row::District(row) => row.write(bytes, start),
            Row::Customer(row) => row.write(bytes, start),
            Row::History(row) => row.write(bytes, start),
            Row::NewOrder(row) => row.write(bytes, start),
            Row::Order(row) => row.write(bytes, start),
            Row::OrderLine(row) => row.write(bytes, start),
            Row::Item(row) => row.write(bytes, start),
            Row::Stock(row) => row.write(bytes, start),
        }
    }
}

/// Tells how many bytes the image of a row with its key has: at most 691.
pub fn image_length(key: &Key, row: &Row) -> usize
    ensures { result ≡ length (image_of key.now row.now) }
{
    (key, row).length()
}

/// Writes the image of a row with its key from offset `start` on, and answers the offset behind it.
pub fn write_image(key: &Key, row: &Row, bytes: &mut [u8], start: usize) -> usize
    requires { start + length (image_of key.now row.now) ≤ length bytes.old }
    ensures { Writes bytes.old start (image_of key.now row.now) bytes.new result }
{
    (key, row).write(bytes, start)
}
