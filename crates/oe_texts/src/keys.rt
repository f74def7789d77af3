//! Keys as their columns parted by one byte, and the names of locks, as answers print them.
ghost use Rattle.std.specs.Prelude.{◌≡◌, ◌≤◌, ◌+◌, ◌∷◌, ◌++◌, [], decimal};
ghost use Rattle.std.specs.List.{join_with_byte};
ghost use Rattle.arrayvec.specs.ArrayVec.{array_vec_len};
ghost use Rattle.oe_rows.specs.Key.{table_of, table_name};
ghost use Rattle.oe_texts.specs.Column.{with_tabs};
ghost use Rattle.oe_texts.specs.Key.{key_texts, key_text, name_text};

use crate::columns::{small, small_then};
use crate::pending::{Pending, SIZE, text};
use oe_rows::{
    CustomerKey, DistrictKey, HistoryKey, ItemKey, Key, Name, NewOrderKey, OrderKey, OrderLineKey,
    StockKey,
};
use oe_values::ShortText;

/// Appends D_W_ID, D_ID.
fn district(out: &mut Pending, key: DistrictKey, between: u8)
    requires { array_vec_len out.old + 21 ≤ SIZE }
    ensures items { out.new.items ≡ out.old.items
        ++ join_with_byte between (key_texts (Key.District key)) }
    ensures len { array_vec_len out.new ≤ array_vec_len out.old + 21 }
{
    small_then(out, key.warehouse.get(), between);
    small(out, key.district.get());
}

/// Appends C_W_ID, C_D_ID, C_ID.
fn customer(out: &mut Pending, key: CustomerKey, between: u8)
    requires { array_vec_len out.old + 32 ≤ SIZE }
    ensures items { out.new.items ≡ out.old.items
        ++ join_with_byte between (key_texts (Key.Customer key)) }
    ensures len { array_vec_len out.new ≤ array_vec_len out.old + 32 }
{
    small_then(out, key.warehouse.get(), between);
    small_then(out, key.district.get(), between);
    small(out, key.customer.get());
}

/// Appends the terminal, the transaction's number, the row's ordinal.
fn history(out: &mut Pending, key: HistoryKey, between: u8)
    requires { array_vec_len out.old + 32 ≤ SIZE }
    ensures items { out.new.items ≡ out.old.items
        ++ join_with_byte between (key_texts (Key.History key)) }
    ensures len { array_vec_len out.new ≤ array_vec_len out.old + 32 }
{
    small_then(out, key.terminal.get(), between);
    small_then(out, key.number.get(), between);
    small(out, key.ordinal.get());
}

/// Appends NO_W_ID, NO_D_ID and NO_O_ID.
fn new_order(out: &mut Pending, key: NewOrderKey, between: u8)
    requires { array_vec_len out.old + 32 ≤ SIZE }
    ensures items { out.new.items ≡ out.old.items
        ++ join_with_byte between (key_texts (Key.NewOrder key)) }
    ensures len { array_vec_len out.new ≤ array_vec_len out.old + 32 }
{
    order(out, key.order_key(), between);
}

/// Appends O_W_ID, O_D_ID, O_ID.
fn order(out: &mut Pending, key: OrderKey, between: u8)
    requires { array_vec_len out.old + 32 ≤ SIZE }
    ensures items { out.new.items ≡ out.old.items
        ++ join_with_byte between (key_texts (Key.Order key)) }
    ensures len { array_vec_len out.new ≤ array_vec_len out.old + 32 }
{
    small_then(out, key.warehouse.get(), between);
    small_then(out, key.district.get(), between);
    small(out, key.order.get());
}

/// Appends OL_W_ID, OL_D_ID, OL_O_ID, OL_NUMBER.
fn order_line(out: &mut Pending, key: OrderLineKey, between: u8)
    requires { array_vec_len out.old + 43 ≤ SIZE }
    ensures items { out.new.items ≡ out.old.items
        ++ join_with_byte between (key_texts (Key.OrderLine key)) }
    ensures len { array_vec_len out.new ≤ array_vec_len out.old + 43 }
{
    small_then(out, key.warehouse.get(), between);
    small_then(out, key.district.get(), between);
    small_then(out, key.order.get(), between);
    small(out, key.number.get());
}

/// Appends S_W_ID, S_I_ID.
fn stock(out: &mut Pending, key: StockKey, between: u8)
    requires { array_vec_len out.old + 21 ≤ SIZE }
    ensures items { out.new.items ≡ out.old.items
        ++ join_with_byte between (key_texts (Key.Stock key)) }
    ensures len { array_vec_len out.new ≤ array_vec_len out.old + 21 }
{
    small_then(out, key.warehouse.get(), between);
    small(out, key.item.get());
}

/// Appends a key's columns, parted by that byte.
pub fn columns(out: &mut Pending, key: &Key, between: u8)
    requires { array_vec_len out.old + 43 ≤ SIZE }
    ensures items { out.new.items ≡ out.old.items ++ join_with_byte between (key_texts key.now) }
    ensures len { array_vec_len out.new ≤ array_vec_len out.old + 43 }
{
    match *key {
        Key::Warehouse(key) => small(out, key.warehouse.get()),
        Key::District(key) => district(out, key, between),
        Key::Customer(key) => customer(out, key, between),
        Key::History(key) => history(out, key, between),
        Key::NewOrder(key) => new_order(out, key, between),
        Key::Order(key) => order(out, key, between),
        Key::OrderLine(key) => order_line(out, key, between),
        Key::Item(key) => small(out, key.item.get()),
        Key::Stock(key) => stock(out, key, between),
    }
}

/// Appends a key's columns, with a tab byte after each.
pub(crate) fn tabbed(out: &mut Pending, key: &Key)
    requires { array_vec_len out.old + 44 ≤ SIZE }
    ensures items { out.new.items ≡ out.old.items ++ with_tabs (key_texts key.now) }
    ensures len { array_vec_len out.new ≤ array_vec_len out.old + 44 }
{
    columns(out, key, b'\t');
    out.push(b'\t');
}

/// Appends the name of a key's table, which has at most 9 letters.
fn table(out: &mut Pending, key: &Key)
    requires { array_vec_len out.old + 9 ≤ SIZE }
    ensures items { out.new.items ≡ out.old.items ++ table_name (table_of key.now) }
    ensures len { array_vec_len out.new ≤ array_vec_len out.old + 9 }
{
    text(out, key.table().name().as_bytes());
}

/// Appends a row by its table and its key.
pub fn row(out: &mut Pending, key: &Key)
    requires { array_vec_len out.old + 53 ≤ SIZE }
    ensures items { out.new.items ≡ out.old.items ++ key_text key.now }
    ensures len { array_vec_len out.new ≤ array_vec_len out.old + 53 }
{
    table(out, key);
    out.push(b' ');
    columns(out, key, b' ');
}

/// Appends D_W_ID, D_ID and C_LAST, parted by commas.
fn last_name(out: &mut Pending, key: DistrictKey, last: &ShortText)
    requires { array_vec_len out.old + 38 ≤ SIZE }
    ensures items { out.new.items ≡ out.old.items
        ++ join_with_byte 44 (decimal key.warehouse ∷ decimal key.district ∷ last.now ∷ []) }
    ensures len { array_vec_len out.new ≤ array_vec_len out.old + 38 }
{
    district(out, key, b',');
    out.push(b',');
    text(out, last.as_str().as_bytes());
}

/// Appends the name of a lock.
pub fn name(out: &mut Pending, name: &Name)
    requires { array_vec_len out.old + 45 ≤ SIZE }
    ensures items { out.new.items ≡ out.old.items ++ name_text name.now }
    ensures len { array_vec_len out.new ≤ array_vec_len out.old + 45 }
{
    match *name {
        Name::Warehouse(key) => {
            text(out, b"Warehouse(");
            small(out, key.warehouse.get());
        }
        Name::District(key) => {
            text(out, b"District(");
            district(out, key, b',');
        }
        Name::Customer(key) => {
            text(out, b"Customer(");
            customer(out, key, b',');
        }
        Name::Order(key) => {
            text(out, b"Order(");
            order(out, key, b',');
        }
        Name::Queue(key) => {
            text(out, b"Queue(");
            district(out, key, b',');
        }
        Name::Stock(key) => {
            text(out, b"Stock(");
            stock(out, key, b',');
        }
        Name::Names(key, last) => {
            text(out, b"Names(");
            last_name(out, key, &last);
        }
    }
    out.push(b')');
}
