//! Dumps of tables, whose rows are written as they are met.
ghost use Rattle.std.specs.Prelude.{◌≡◌, ◌≤◌, ◌+◌, ◌++◌, ℕ, List, length, IfOk};
ghost use Rattle.arrayvec.specs.ArrayVec.{array_vec_len};
ghost use Rattle.oe_store.specs.Places.{rows};
ghost use Rattle.oe_texts.specs.Column.{line_of};
ghost use Rattle.oe_texts.specs.Dump.{count_line};
ghost use Rattle.oe_dumps.specs.Dump.{row_lines, in_64_bits, dump_text};
ghost use Rattle.oe_io.specs.Ports.{Streams};

use oe_io::output::make_room;
use oe_io::ports::{Failed, Outlet};
use oe_rows::{
    Customer, CustomerKey, District, DistrictKey, History, HistoryKey, Item, ItemKey, NewOrder,
    NewOrderKey, Order, OrderKey, OrderLine, OrderLineKey, Stock, StockKey, Table, Warehouse,
    WarehouseKey,
};
use oe_store::Tables;
use oe_table::shelf_walks::Rows;
use oe_texts::{LONGEST, Pending, SIZE};

/// A row that is dumped as one line.
pub trait DumpedRow<K> {
    /// Its columns, the key's first.
    ghost columns: { K → Self → List (List ℕ) };

    /// Appends its line.
    fn line(out: &mut Pending, key: &K, row: &Self)
        requires { array_vec_len out.old + LONGEST ≤ SIZE }
        ensures { out.new.items ≡ out.old.items ++ line_of (columns key.now row.now) };
}

impl DumpedRow<WarehouseKey> for Warehouse {
    ghost use Rattle.oe_texts.specs.Dump.{warehouse_columns};

    ghost columns = { warehouse_columns };

    fn line(out: &mut Pending, key: &WarehouseKey, row: &Warehouse) {
        oe_texts::warehouse_row(out, *key, row);
    }
}

impl DumpedRow<DistrictKey> for District {
    ghost use Rattle.oe_texts.specs.Dump.{district_columns};

    ghost columns = { district_columns };

    fn line(out: &mut Pending, key: &DistrictKey, row: &District) {
        oe_texts::district_row(out, *key, row);
    }
}

impl DumpedRow<CustomerKey> for Customer {
    ghost use Rattle.oe_texts.specs.Dump.{customer_columns};

    ghost columns = { customer_columns };

    fn line(out: &mut Pending, key: &CustomerKey, row: &Customer) {
        oe_texts::customer_row(out, *key, row);
    }
}

impl DumpedRow<HistoryKey> for History {
    ghost use Rattle.oe_texts.specs.Dump.{history_columns};

    ghost columns = { history_columns };

    fn line(out: &mut Pending, key: &HistoryKey, row: &History) {
        oe_texts::history_row(out, *key, row);
    }
}

impl DumpedRow<OrderKey> for Order {
    ghost use Rattle.oe_texts.specs.Dump.{order_columns};

    ghost columns = { order_columns };

    fn line(out: &mut Pending, key: &OrderKey, row: &Order) {
        oe_texts::order_row(out, *key, row);
    }
}

impl DumpedRow<OrderLineKey> for OrderLine {
    ghost use Rattle.oe_texts.specs.Dump.{order_line_columns};

    ghost columns = { order_line_columns };

    fn line(out: &mut Pending, key: &OrderLineKey, row: &OrderLine) {
        oe_texts::order_line_row(out, *key, row);
    }
}

impl DumpedRow<ItemKey> for Item {
    ghost use Rattle.oe_texts.specs.Dump.{item_columns};

    ghost columns = { item_columns };

    fn line(out: &mut Pending, key: &ItemKey, row: &Item) {
        oe_texts::item_row(out, *key, row);
    }
}

impl DumpedRow<StockKey> for Stock {
    ghost use Rattle.oe_texts.specs.Dump.{stock_columns};

    ghost columns = { stock_columns };

    fn line(out: &mut Pending, key: &StockKey, row: &Stock) {
        oe_texts::stock_row(out, *key, row);
    }
}

impl DumpedRow<NewOrderKey> for NewOrder {
    ghost use Rattle.oe_texts.specs.Dump.{new_order_columns};

    ghost columns = { λ k x. new_order_columns k };

    fn line(out: &mut Pending, key: &NewOrderKey, row: &NewOrder) {
        let _no_columns = row;
        oe_texts::new_order_row(out, *key);
    }
}

/// Writes the lines of rows, and answers how many there were.
fn lines<K, R: DumpedRow<K>, W: Outlet>(
    walk: Rows<'_, K, R>,
    out: &mut Pending,
    to: &mut W,
) -> Result<u64, Failed>
    ensures stream { Streams (W.sink to.old) out.old.items (W.sink to.new) out.new.items
        (row_lines R.columns walk.entry) result }
    ensures count { IfOk result (λ n. n ≡ in_64_bits (length walk.entry)) }
{
    let mut count = 0u64;
    for (key, row) in walk {
        if let Err(e) = make_room(out, to) {
            return Err(e);
        }
        R::line(out, key, row);
        count = count.saturating_add(1);
    }
    Ok(count)
}

/// Writes the line of a count.
fn total<W: Outlet>(count: u64, out: &mut Pending, to: &mut W) -> Result<(), Failed>
    ensures { Streams (W.sink to.old) out.old.items (W.sink to.new) out.new.items
        (count_line count) result }
{
    if let Err(e) = make_room(out, to) {
        return Err(e);
    }
    oe_texts::rows(out, count);
    Ok(())
}

/// Writes the lines of rows, and the line with their count.
fn dump_rows<K, R: DumpedRow<K>, W: Outlet>(
    walk: Rows<'_, K, R>,
    out: &mut Pending,
    to: &mut W,
) -> Result<(), Failed>
    ensures { Streams (W.sink to.old) out.old.items (W.sink to.new) out.new.items
        (row_lines R.columns walk.entry ++ count_line (in_64_bits (length walk.entry))) result }
{
    match lines(walk, out, to) {
        Ok(count) => total(count, out, to),
        Err(e) => Err(e),
    }
}

/// Writes the rows of a table in the order of their keys, and their count.
pub fn dump<W: Outlet>(
    tables: &Tables,
    table: Table,
    out: &mut Pending,
    to: &mut W,
) -> Result<(), Failed>
    ensures { Streams (W.sink to.old) out.old.items (W.sink to.new) out.new.items
        (dump_text table (rows tables.now)) result }
{
    match table {
        Table::Warehouse => dump_rows(tables.warehouses(), out, to),
        Table::District => dump_rows(tables.districts(), out, to),
        Table::Customer => dump_rows(tables.customers(), out, to),
        Table::History => dump_rows(tables.histories(), out, to),
        Table::NewOrder => dump_rows(tables.new_orders(), out, to),
        Table::Order => dump_rows(tables.orders(), out, to),
        Table::OrderLine => dump_rows(tables.order_lines(), out, to),
        Table::Item => dump_rows(tables.items(), out, to),
        Table::Stock => dump_rows(tables.stocks(), out, to),
    }
}
