//! Faults of a population, as data: a column with another value, a row more, or a row less.
use crate::made::{district_key, history_key, order_key};
use oe_change::{Change, apply};
use oe_rows::{Layout, OrderKey, OrderLineKey, StockCounters, StockKey};
use oe_store::Tables;
use oe_values::{Balance, Count, LineNumber, Number, StockYtd, YearToDate};

/// A change of one row. Keys are written as their columns, and money in cents.
pub(crate) enum Planted {
    /// W_YTD of a warehouse is another.
    WarehouseYtd(u32, u64),
    /// D_YTD of a district is another.
    DistrictYtd([u32; 2], u64),
    /// D_NEXT_O_ID of a district is another.
    NextOrder([u32; 2], u32),
    /// C_BALANCE, C_YTD_PAYMENT, and C_PAYMENT_CNT with C_DELIVERY_CNT of a customer are others.
    Account([u32; 3], i64, u64, [u32; 2]),
    /// S_YTD, S_ORDER_CNT and S_REMOTE_CNT of a warehouse's item are others.
    Stock([u32; 2], [u32; 3]),
    /// An order waits that did not.
    Waits([u32; 3]),
    /// An order that waited does no more.
    WaitsNoMore([u32; 3]),
    /// A line of an order has O_ENTRY_D as its delivery's date.
    Dated([u32; 3], u32),
    /// A line of an order has no date.
    Undated([u32; 3], u32),
    /// An order has a line like another one, with that number.
    LineAgain([u32; 3], u32, u32),
    /// A district has an order like another one, with that number, and with its lines.
    OrderAgain([u32; 3], u32),
    /// Terminal 9 has a HISTORY row like the population's of that number.
    PaidAgain(u32),
}

fn set_warehouse_ytd(tables: &mut Tables, warehouse: u32, cents: u64) -> Option<()> {
    let ytd = YearToDate::new(cents)?;
    let key = district_key(warehouse, 1)?.warehouse_key();
    if tables.warehouse(key).is_none() {
        return None;
    }
    tables.set_warehouse_ytd(&key, ytd);
    Some(())
}

fn set_district_ytd(tables: &mut Tables, columns: &[u32; 2], cents: u64) -> Option<()> {
    let ytd = YearToDate::new(cents)?;
    let key = district_key(columns[0], columns[1])?;
    if tables.district(key).is_none() {
        return None;
    }
    tables.set_district_ytd(&key, ytd);
    Some(())
}

fn set_next_order(tables: &mut Tables, columns: &[u32; 2], number: u32) -> Option<()> {
    let order = Number::new(number)?;
    let key = district_key(columns[0], columns[1])?;
    if tables.district(key).is_none() {
        return None;
    }
    tables.set_next_order(&key, order);
    Some(())
}

fn set_account(
    tables: &mut Tables,
    columns: &[u32; 3],
    balance: i64,
    paid: u64,
    counts: &[u32; 2],
) -> Option<()> {
    let key = district_key(columns[0], columns[1])?.customer(Number::new(columns[2])?);
    let mut account = tables.customer(key)?.account;
    account.balance = Balance::new(balance)?;
    account.ytd_payment = YearToDate::new(paid)?;
    account.payment_count = Count::new(counts[0])?;
    account.delivery_count = Count::new(counts[1])?;
    tables.set_account(&key, &account);
    Some(())
}

fn set_stock(tables: &mut Tables, columns: &[u32; 2], ends: &[u32; 3]) -> Option<()> {
    let key = StockKey {
        warehouse: Number::new(columns[0])?,
        item: Number::new(columns[1])?,
    };
    let counters = StockCounters {
        quantity: tables.stock(key)?.quantity,
        ytd: StockYtd::new(ends[0])?,
        order_count: Count::new(ends[1])?,
        remote_count: Count::new(ends[2])?,
    };
    tables.set_counters(&key, &counters);
    Some(())
}

/// Makes a change that the tables take.
fn amend(tables: &mut Tables, change: Change) -> Option<()> {
    match apply(tables, Layout::ChangedColumns, change) {
        Ok(before) => {
            drop(before);
            Some(())
        }
        Err(_) => None,
    }
}

fn set_date(tables: &mut Tables, order: OrderKey, line: u32, is_dated: bool) -> Option<()> {
    let key = order.line(Number::new(line)?);
    let entry = tables.order(order)?.entry;
    let mut row = tables.order_line(key)?.copied();
    row.delivery = if is_dated { Some(entry) } else { None };
    amend(tables, Change::UpdateOrderLine(key, row))
}

fn repeat_line(tables: &mut Tables, of: OrderLineKey, to: OrderLineKey) -> Option<()> {
    let row = tables.order_line(of)?.copied();
    amend(tables, Change::InsertOrderLine(to, row))
}

fn repeat_order(tables: &mut Tables, of: OrderKey, to: OrderKey) -> Option<()> {
    let row = tables.order(of)?.copied();
    let count = row.line_count.get();
    amend(tables, Change::InsertOrder(to, row))?;
    for number in 0..count {
        let number = LineNumber::new(number + 1)?;
        repeat_line(tables, of.line(number), to.line(number))?;
    }
    Some(())
}

fn repeat_payment(tables: &mut Tables, number: u32) -> Option<()> {
    let row = tables.history(history_key(0, number)?)?.copied();
    amend(tables, Change::InsertHistory(history_key(9, 1)?, row))
}

/// Makes the changes that concern an order, or a payment of the population.
fn plant_order(tables: &mut Tables, fault: &Planted) -> Option<()> {
    match fault {
        Planted::Waits(columns) => {
            let key = order_key(columns)?.new_order_key();
            amend(tables, Change::InsertNewOrder(key))
        }
        Planted::WaitsNoMore(columns) => {
            let key = order_key(columns)?.new_order_key();
            amend(tables, Change::DeleteNewOrder(key))
        }
        Planted::Dated(columns, line) => set_date(tables, order_key(columns)?, *line, true),
        Planted::Undated(columns, line) => set_date(tables, order_key(columns)?, *line, false),
        Planted::LineAgain(columns, of, to) => {
            let order = order_key(columns)?;
            repeat_line(
                tables,
                order.line(Number::new(*of)?),
                order.line(Number::new(*to)?),
            )
        }
        Planted::OrderAgain(columns, to) => {
            let order = order_key(columns)?;
            repeat_order(tables, order, order.district_key().order(Number::new(*to)?))
        }
        Planted::PaidAgain(number) => repeat_payment(tables, *number),
        _ => None,
    }
}

fn plant(tables: &mut Tables, fault: &Planted) -> Option<()> {
    match fault {
        Planted::WarehouseYtd(warehouse, cents) => set_warehouse_ytd(tables, *warehouse, *cents),
        Planted::DistrictYtd(columns, cents) => set_district_ytd(tables, columns, *cents),
        Planted::NextOrder(columns, number) => set_next_order(tables, columns, *number),
        Planted::Account(columns, balance, paid, counts) => {
            set_account(tables, columns, *balance, *paid, counts)
        }
        Planted::Stock(columns, ends) => set_stock(tables, columns, ends),
        _ => plant_order(tables, fault),
    }
}

/// Makes these changes, one after another.
pub(crate) fn plant_all(tables: &mut Tables, faults: &[Planted]) -> Option<()> {
    for fault in faults {
        plant(tables, fault)?;
    }
    Some(())
}
