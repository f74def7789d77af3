//! Worked records, there and back, and bytes that are none. The records of a warehouse, of a queue
//! entry and of a stock are worked examples of the layout, and not this program's output.
ghost use Rattle.std.specs.Prelude.{◌≡◌, length};

use crate::made::{address, committed, order, order_key, queue_entry, stock, stock_key, warehouse};
use oe_extent::Written;
use oe_image::parts::{OrderPart, StockPart, WarehousePart};
use oe_layout::{LentRecord, LinkedRecord, OwnRecord, Previous, read_record};
use oe_rows::Layout;

const WAREHOUSE: &[u8] =
    b"\x00\x4d\x02\x01\xff\xff\xff\xff\x00\x00\x00\x00\x00\x00\x00\x00\x00\x01\x00\x06WARE01\x00\x07STREET1\x00\x07STREET2\x00\x04CITY\x00\x02ST\x00\x09000111111\x00\x64\x00\x00\x00\x00\x00\x01\x86\xa0\x00\x4d";

// The second payment of 1.00 to the warehouse; the record of the first begins the ring, and its
// commit made moment 1.
const SECOND_PAYMENT: &[u8] =
    b"\x00\x4d\x02\x01\x00\x00\x00\x00\x00\x00\x00\x00\x00\x00\x00\x01\x00\x01\x00\x06WARE01\x00\x07STREET1\x00\x07STREET2\x00\x04CITY\x00\x02ST\x00\x09000111111\x00\x64\x00\x00\x00\x00\x00\x01\x87\x04\x00\x4d";

const QUEUE_ENTRY: &[u8] =
    b"\x00\x19\x03\x05\xff\xff\xff\xff\x00\x00\x00\x00\x00\x00\x00\x00\x00\x01\x01\x00\x00\x00\x08\x00\x19";

const ORDER: &[u8] =
    b"\x00\x26\x02\x06\x00\x07\x00\x84\x00\x00\x00\x00\x00\x00\x01\x02\x00\x0c\x03\x00\x01\x02\x03\x06\xf0\x00\x00\x00\x00\xbc\x17\xc2\x00\x00\x0e\x01\x00\x26";

// Stock (3, 41) after a sale of ten; the previous record, of the same transaction, lies in extent 0
// at offset 132.
const STOCK: &[u8] =
    b"\x01\x38\x02\x09\x00\x00\x00\x84\xff\xff\xff\xff\xff\xff\xff\xff\x00\x03\x00\x00\x00\x29\x00\x0e\x00\x18STOCK-DIST-01-01-0000001\x00\x18STOCK-DIST-01-01-0000001\x00\x18STOCK-DIST-01-10-0000001\x00\x18STOCK-DIST-01-01-0000001\x00\x18STOCK-DIST-01-10-0000001\x00\x18STOCK-DIST-01-10-0000001\x00\x18STOCK-DIST-01-01-0000001\x00\x18STOCK-DIST-01-10-0000001\x00\x18STOCK-DIST-01-10-0000001\x00\x18STOCK-DIST-01-10-0000001\x00\x00\x00\x0a\x00\x01\x00\x00\x00\x10STOCKDATA-000001\x01\x38";

// The first record of a payment where records have changed columns: W_YTD was 1,000.00.
const WAREHOUSE_YTD: &[u8] =
    b"\x00\x1d\x04\x01\xff\xff\xff\xff\x00\x00\x00\x00\x00\x00\x00\x00\x00\x01\x01\x00\x00\x00\x00\x00\x01\x86\xa0\x00\x1d";

// The same of stock (3, 41): S_QUANTITY, S_YTD and S_ORDER_CNT were others.
const STOCK_COUNTERS: &[u8] =
    b"\x00\x22\x04\x09\x00\x00\x00\x84\xff\xff\xff\xff\xff\xff\xff\xff\x00\x03\x00\x00\x00\x29\x80\x18\x00\x0e\x00\x00\x00\x0a\x00\x01\x00\x22";

// The record of an order whose carrier is set anew to itself has no column.
const SAME_CARRIER: &[u8] =
    b"\x00\x1a\x04\x06\xff\xff\xff\xff\x00\x00\x00\x00\x00\x00\x00\x00\x00\x0c\x03\x00\x01\x02\x03\x00\x00\x1a";

/// Makes room for the longest record and more.
fn room() -> [u8; 709]
    ensures { length result ≡ 709 }
{
    [255; 709]
}

/// Tells whether these bytes, and none beside them, are written for the record, from offset 3 on.
fn is_written(record: &LinkedRecord<'_>, image: &[u8]) -> bool {
    let mut bytes = room();
    if record.size() > 700 {
        return false;
    }
    let end = record.write(&mut bytes, 3);
    &bytes[3..end] == image && bytes[2] == 255 && bytes[end] == 255
}

/// Tells whether the record of a payment to a warehouse, of a W_YTD of `cents`, is written so.
fn writes_warehouse(previous: Option<Previous>, cents: u64, image: &[u8]) -> Option<bool> {
    let (key, row) = warehouse(cents)?;
    let record = LinkedRecord {
        previous: previous?,
        record: LentRecord::UpdatedWarehouse(key, &row),
    };
    Some(is_written(&record, image))
}

fn writes_queue_entry() -> Option<bool> {
    let record = LinkedRecord {
        previous: Previous::Nothing,
        record: LentRecord::DeletedNewOrder(queue_entry()?),
    };
    Some(is_written(&record, QUEUE_ENTRY))
}

fn writes_stock() -> Option<bool> {
    let key = stock_key(3, 41)?;
    let previous = Previous::Own(address(0, 132)?);
    let row = stock()?;
    let record = LinkedRecord {
        previous,
        record: LentRecord::UpdatedStock(key, &row),
    };
    Some(is_written(&record, STOCK))
}

/// Tells whether the record of a payment to a warehouse is written with its W_YTD alone.
fn writes_warehouse_ytd() -> Option<bool> {
    let (key, row) = warehouse(100_000)?;
    let part = WarehousePart { ytd: Some(row.ytd) };
    let record = LinkedRecord {
        previous: Previous::Nothing,
        record: LentRecord::ChangedWarehouse(key, part),
    };
    Some(is_written(&record, WAREHOUSE_YTD))
}

/// Tells whether the record of a sale of three by the stock's own warehouse is written with the
/// counters that it changes.
fn writes_stock_counters() -> Option<bool> {
    let row = stock()?;
    let part = StockPart {
        quantity: Some(row.quantity),
        ytd: Some(row.ytd),
        order_count: Some(row.order_count),
        remote_count: None,
    };
    let record = LinkedRecord {
        previous: Previous::Own(address(0, 132)?),
        record: LentRecord::ChangedStock(stock_key(3, 41)?, part),
    };
    Some(is_written(&record, STOCK_COUNTERS))
}

/// Tells whether the record of a carrier that stays is written with an empty mask.
fn writes_same_carrier() -> Option<bool> {
    let record = LinkedRecord {
        previous: Previous::Nothing,
        record: LentRecord::ChangedOrder(order_key()?, OrderPart { carrier: None }),
    };
    Some(is_written(&record, SAME_CARRIER))
}

/// Tells whether the order is read with its link: its previous record lies in extent 7 at offset
/// 132 and is of moment 258.
fn reads_order() -> Option<bool> {
    let key = order_key()?;
    let earlier = committed(7, 132, 258)?;
    let row = order(1_776)?;
    let Some((previous, record)) = read_record(Layout::WholeRows, ORDER) else {
        return None;
    };
    let OwnRecord::UpdatedOrder(read_key, read_row) = record else {
        return None;
    };
    Some(previous == earlier && read_key == key && read_row.is_same(&row))
}

#[test]
fn records_are_as_worked(rt: HostRuntime) {
    let first = Some(Previous::Nothing);
    assert!(rt; writes_warehouse(first, 100_000, WAREHOUSE) == Some(true));
    let second = committed(0, 0, 1);
    assert!(rt; writes_warehouse(second, 100_100, SECOND_PAYMENT) == Some(true));
    assert!(rt; writes_queue_entry() == Some(true));
    assert!(rt; writes_stock() == Some(true));
    assert!(rt; reads_order() == Some(true));
    assert!(rt; writes_warehouse_ytd() == Some(true));
    assert!(rt; writes_stock_counters() == Some(true));
    assert!(rt; writes_same_carrier() == Some(true));
}

/// A worked record with its layout, the offset of a byte, and another byte, with which it is none.
const SPOILT: [(Layout, &[u8], usize, u8); 10] = [
    // the first and the second length, the kind, the table, an offset and a moment
    (Layout::WholeRows, WAREHOUSE, 1, 78),
    (Layout::WholeRows, WAREHOUSE, 76, 78),
    (Layout::WholeRows, WAREHOUSE, 2, 1),
    (Layout::WholeRows, WAREHOUSE, 3, 2),
    (Layout::WholeRows, WAREHOUSE, 6, 0),
    (Layout::WholeRows, WAREHOUSE, 15, 1),
    // a null mark, and an extent
    (Layout::WholeRows, ORDER, 33, 2),
    (Layout::WholeRows, ORDER, 4, 16),
    // a spare bit of a mask, and a column more than there is
    (Layout::ChangedColumns, STOCK_COUNTERS, 23, 25),
    (Layout::ChangedColumns, WAREHOUSE_YTD, 18, 3),
];

/// Tells whether bytes are a record, and none where one of them is another.
fn is_spoilt(layout: Layout, image: &[u8], offset: usize, byte: u8) -> bool {
    let mut bytes = room();
    if image.len() > 700 || offset >= image.len() || read_record(layout, image).is_none() {
        return false;
    }
    bytes[..image.len()].copy_from_slice(image);
    bytes[offset] = byte;
    read_record(layout, &bytes[..image.len()]).is_none()
}

#[test]
fn other_bytes_are_no_record(rt: HostRuntime) {
    let mut are_spoilt = true;
    for (layout, image, offset, byte) in SPOILT {
        are_spoilt = are_spoilt && is_spoilt(layout, image, offset, byte);
    }
    assert!(rt; are_spoilt && read_record(Layout::WholeRows, &WAREHOUSE[..76]).is_none());
    assert!(rt; read_record(Layout::WholeRows, QUEUE_ENTRY).is_some());
    assert!(rt; read_record(Layout::ChangedColumns, QUEUE_ENTRY).is_some());
    // A record of the other layout is none.
    assert!(rt; read_record(Layout::WholeRows, WAREHOUSE_YTD).is_none());
    assert!(rt; read_record(Layout::ChangedColumns, WAREHOUSE).is_none());
}
