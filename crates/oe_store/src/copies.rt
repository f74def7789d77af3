//! A copy of the row of any key.
ghost use Rattle.std.specs.Prelude.{◌≡◌};
ghost use Rattle.oe_model.specs.Rows.{row_at};
ghost use Rattle.oe_store.specs.Places.{rows};

use crate::tables::Tables;
use oe_rows::{Key, Row};

/// Gives a copy of the row of a key, if it has one. It takes no memory.
pub fn row_of(tables: &Tables, key: &Key) -> Option<Row>
    ensures { result ≡ row_at (rows tables.now) key.now }
{
    match *key {
        Key::Warehouse(key) => Some(Row::Warehouse(tables.warehouse(key)?.copied())),
        Key::District(key) => Some(Row::District(tables.district(key)?.copied())),
        Key::Customer(key) => Some(Row::Customer(tables.customer(key)?.copied())),
        Key::History(key) => Some(Row::History(tables.history(key)?.copied())),
        Key::NewOrder(key) => Some(Row::NewOrder(*tables.new_order(key)?)),
        Key::Order(key) => Some(Row::Order(*tables.order(key)?)),
        Key::OrderLine(key) => Some(Row::OrderLine(tables.order_line(key)?.copied())),
        Key::Item(key) => Some(Row::Item(tables.item(key)?.copied())),
        Key::Stock(key) => Some(Row::Stock(tables.stock(key)?.copied())),
    }
}
