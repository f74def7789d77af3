//! Rows of any table, and a row with its key, read from the front of bytes.
ghost use Rattle.std.specs.Prelude.{◌≡◌};
ghost use Rattle.std.specs.Option.{option_map};
ghost use Rattle.oe_decode.specs.Fronts.{Reads};
ghost use Rattle.oe_image.specs.Rows.{row_image};
ghost use Rattle.oe_decode.specs.RowFronts.{row_at, IsRowOf, ReadsImage};

use crate::customers::read_customer;
use crate::items::{read_item, read_stock};
use crate::keys::read_key;
use crate::orders::{read_history, read_order, read_order_line};
use crate::warehouses::{read_district, read_warehouse};
use oe_image::image_length;
use oe_rows::orders::NewOrder;
use oe_rows::rows::Row;
use oe_rows::{Key, Table};

/// Reads what stands at the front.
fn front_row(table: Table, bytes: &[u8]) -> Option<(Row, &[u8])>
    ensures { option_map (λ x. (x.0, x.1.now)) result ≡ row_at table bytes.now }
{
    match table {
        Table::Warehouse => match read_warehouse(bytes) {
            Some((row, rest)) => Some((Row::Warehouse(row), rest)),
            None => None,
        },
        Table::District => match read_district(bytes) {
            Some((row, rest)) => Some((Row::District(row), rest)),
            None => None,
        },
        Table::Customer => match read_customer(bytes) {
            Some((row, rest)) => Some((Row::Customer(row), rest)),
            None => None,
        },
        Table::History => match read_history(bytes) {
            Some((row, rest)) => Some((Row::History(row), rest)),
            None => None,
        },
        Table::NewOrder => Some((Row::NewOrder(NewOrder), bytes)),
        Table::Order => match read_order(bytes) {
            Some((row, rest)) => Some((Row::Order(row), rest)),
            None => None,
        },
        Table::OrderLine => match read_order_line(bytes) {
            Some((row, rest)) => Some((Row::OrderLine(row), rest)),
            None => None,
        },
        Table::Item => match read_item(bytes) {
            Some((row, rest)) => Some((Row::Item(row), rest)),
            None => None,
        },
        Table::Stock => match read_stock(bytes) {
            Some((row, rest)) => Some((Row::Stock(row), rest)),
            None => None,
        },
    }
}

/// Reads the row of that table at the front of the bytes, and those behind it; `None` exactly where
/// no front of the bytes is the image of a row of that table.
pub fn read_row(table: Table, bytes: &[u8]) -> Option<(Row, &[u8])>
    ensures { Reads (IsRowOf table) row_image bytes.now (option_map (λ x. (x.0, x.1.now)) result) }
{
    front_row(table, bytes)
}

/// Reads the key and the row of that table at the front of the bytes, and how many bytes their
/// image has; `None` exactly where no front of the bytes is the image of a row of that table with
/// its key.
pub fn read_image(table: Table, bytes: &[u8]) -> Option<(Key, Row, usize)>
    ensures { ReadsImage table bytes.now result }
{
    let Some((key, rest)) = read_key(table, bytes) else {
        return None;
    };
    let Some((row, _)) = read_row(table, rest) else {
        return None;
    };
    let length = image_length(&key, &row);
    Some((key, row, length))
}
