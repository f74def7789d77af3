//! The records of an order that sells one item twice, as an engine writes them. Their bytes are
//! worked examples of the two layouts, and not this program's output.
ghost use Rattle.std.specs.Prelude.{◌≡◌, length};

use crate::engines::{begun, end, engine_on, leave};
use crate::made::order_key;
use oe_engine::{Engine, Tx};
use oe_extent::Written;
use oe_image::parts::StockPart;
use oe_layout::{LentRecord, LinkedRecord, OwnRecord, Previous};
use oe_log::Segment;
use oe_rows::{
    Key, Layout, Name, Order, OrderKey, OrderLine, Stock, StockBefore, StockCounters, StockKey,
};
use oe_undo::{Holder, Ticks};
use oe_values::{Amount, Number, Stamp, Terminal, Text};
use oe_writes::kinds::inserts::{InsertNewOrder, InsertOrder, InsertOrderLine};
use oe_writes::kinds::updates::{NextOrder, StockCounts};
use std::process::Abort;

/// What item 1 of warehouse 1 was before the second sale: the record of the first lies at offset
/// 132 of extent 0, and ten were sold.
const SECOND_SALE: &[u8] =
    b"\x01\x38\x02\x09\x00\x00\x00\x84\xff\xff\xff\xff\xff\xff\xff\xff\x00\x01\x00\x00\x00\x01\x00\x0e\x00\x18STOCK-DIST-01-01-0000001\x00\x18STOCK-DIST-01-02-0000001\x00\x18STOCK-DIST-01-03-0000001\x00\x18STOCK-DIST-01-04-0000001\x00\x18STOCK-DIST-01-05-0000001\x00\x18STOCK-DIST-01-06-0000001\x00\x18STOCK-DIST-01-07-0000001\x00\x18STOCK-DIST-01-08-0000001\x00\x18STOCK-DIST-01-09-0000001\x00\x18STOCK-DIST-01-10-0000001\x00\x00\x00\x0a\x00\x01\x00\x00\x00\x10STOCKDATA-000001\x01\x38";

/// What the first sale changed: S_QUANTITY was 24, and S_YTD and S_ORDER_CNT were 0.
const FIRST_SALE: &[u8] =
    b"\x00\x22\x04\x09\xff\xff\xff\xff\x00\x00\x00\x00\x00\x00\x00\x00\x00\x01\x00\x00\x00\x01\x80\x18\x00\x18\x00\x00\x00\x00\x00\x00\x00\x22";

pub(crate) fn stock_key() -> Option<StockKey> {
    Some(StockKey {
        warehouse: Number::new(1)?,
        item: Number::new(1)?,
    })
}

/// Sets S_QUANTITY, S_YTD and S_ORDER_CNT of that stock.
pub(crate) fn sell(engine: &mut Engine, tx: &Tx, counts: [u32; 3]) -> Option<()> {
    let counters = StockCounters {
        quantity: Number::new(counts[0])?,
        ytd: Number::new(counts[1])?,
        order_count: Number::new(counts[2])?,
        remote_count: Number::new(0)?,
    };
    let stock = stock_key()?;
    if engine.change(tx, &StockCounts { stock, counters }).is_err() {
        return None;
    }
    Some(())
}

/// Takes the order's number, and inserts its row, of five lines, and its NEW-ORDER row.
pub(crate) fn enter(engine: &mut Engine, tx: &Tx, order: OrderKey) -> Option<()> {
    let next = NextOrder {
        district: order.district_key(),
        order: Number::new(12)?,
    };
    if engine.change(tx, &next).is_err() {
        return None;
    }
    let row = Order {
        customer: Number::new(1)?,
        entry: Stamp::from_seconds(3_187_296_000)?,
        carrier: None,
        line_count: Number::new(5)?,
        all_local: true,
    };
    if engine.change(tx, &InsertOrder { order, row }).is_err() {
        return None;
    }
    let _mode = engine.held(tx, &Name::Order(order))?;
    let order = order.new_order_key();
    if engine.change(tx, &InsertNewOrder { order }).is_err() {
        return None;
    }
    Some(())
}

/// Inserts the first line of the order: ten of item 1.
fn insert_line(engine: &mut Engine, tx: &Tx, order: OrderKey) -> Option<()> {
    let row = OrderLine {
        item: Number::new(1)?,
        supply: Number::new(1)?,
        delivery: None,
        amount: Amount::new(1_370)?,
        quantity: Number::new(10)?,
        dist_info: Text::read("STOCK-DIST-01-01-0000001")?,
    };
    let line = order.line(Number::new(1)?);
    if engine.change(tx, &InsertOrderLine { line, row }).is_err() {
        return None;
    }
    Some(())
}

/// Makes room for the longest record and more.
fn room() -> [u8; 709]
    ensures { length result ≡ 709 }
{
    [255; 709]
}

/// Tells whether a record has these bytes.
fn is_written(record: &LinkedRecord<'_>, image: &[u8]) -> bool {
    let mut bytes = room();
    if record.size() > 700 {
        return false;
    }
    let end = record.write(&mut bytes, 0);
    &bytes[..end] == image
}

fn is_whole(previous: Previous, key: StockKey, row: &Stock) -> bool {
    let record = LentRecord::UpdatedStock(key, row);
    is_written(&LinkedRecord { previous, record }, SECOND_SALE)
}

fn is_part(previous: Previous, key: StockKey, part: StockPart) -> bool {
    let record = LentRecord::ChangedStock(key, part);
    is_written(&LinkedRecord { previous, record }, FIRST_SALE)
}

/// Gives the columns of stock that sales change.
fn part_of(before: &StockBefore) -> StockPart {
    StockPart {
        quantity: before.quantity,
        ytd: before.ytd,
        order_count: before.order_count,
        remote_count: before.remote_count,
    }
}

/// Tells whether a record is the one of the second sale, or of the first where records have changed
/// columns.
fn is_worked(previous: Previous, record: &OwnRecord) -> bool {
    match record {
        OwnRecord::UpdatedStock(key, row) => is_whole(previous, *key, row),
        OwnRecord::ChangedStock(key, before) => is_part(previous, *key, part_of(before)),
        _ => false,
    }
}

/// Tells whether the newest record of a terminal is.
fn is_newest(engine: &Engine, terminal: Terminal) -> bool {
    let log = engine.undo().segments();
    if !log.is_open(terminal) {
        return false;
    }
    let Some((previous, record)) = log.newest_record(Segment::of(terminal), &mut Ticks::new())
    else {
        return false;
    };
    is_worked(previous, &record)
}

/// Gives the extent and the offset at which the stock's newest record lies, where the terminal has
/// it open.
fn place(engine: &Engine, terminal: Terminal) -> Option<[u32; 2]> {
    let link = engine.undo().link(&Key::Stock(stock_key()?))?;
    if link.holder != Holder::Open(terminal) {
        return None;
    }
    Some([link.address.extent.get(), link.address.offset.get()])
}

/// Sells the item twice in one order. Answers whether the record of the first sale is as worked,
/// and of the second, and where these lie.
fn sold_twice(engine: &mut Engine, tx: &Tx) -> Option<([bool; 2], [[u32; 2]; 2])> {
    let order = order_key(&[1, 1, 11])?;
    let terminal = tx.terminal();
    enter(engine, tx, order)?;
    sell(engine, tx, [14, 10, 1])?;
    let (is_first, first) = (is_newest(engine, terminal), place(engine, terminal)?);
    insert_line(engine, tx, order)?;
    sell(engine, tx, [100, 15, 2])?;
    let (is_second, second) = (is_newest(engine, terminal), place(engine, terminal)?);
    Some(([is_first, is_second], [first, second]))
}

/// Answers the same of a transaction that is rolled back, of an engine with records of that layout.
fn sold_in(rt: &(impl Abort + AllocGlobal), layout: Layout) -> Option<([bool; 2], [[u32; 2]; 2])> {
    let mut engine = engine_on(rt, rt.alloc(), 5, layout);
    let tx = begun(rt, &mut engine, Terminal::new(1).expect(rt, "a terminal"));
    let found = sold_twice(&mut engine, &tx);
    end(rt, &mut engine, tx);
    leave(rt, engine);
    found
}

#[test]
fn an_order_has_the_worked_records(rt: HostRuntime) {
    let whole = Some(([false, true], [[0, 132], [0, 470]]));
    assert!(rt; sold_in(&rt, Layout::WholeRows) == whole);
    let changed = Some(([true, false], [[0, 77], [0, 137]]));
    assert!(rt; sold_in(&rt, Layout::ChangedColumns) == changed);
}
