//! Undo records read from bytes: exactly the bytes that some record is written as are read, and
//! give that record.
ghost use Rattle.std.specs.Prelude.{◌≡◌, ◌==◌, length};
ghost use Rattle.std.specs.Option.{option_map};
ghost use Rattle.oe_layout.specs.RecordFronts.{contents_at, body_at, record_at, ReadsRecord};
ghost use Rattle.oe_layout.specs.declared.kinds.RecordKind.TheVariants as kind;

use crate::kinds::{RecordKind, read_kind};
use crate::links::{Previous, read_previous};
use crate::records::OwnRecord;
use oe_decode::before::{
    read_customer_before, read_district_before, read_order_before, read_order_line_before,
    read_stock_before, read_warehouse_before,
};
use oe_decode::customers::read_customer;
use oe_decode::items::read_stock;
use oe_decode::keys::{
    read_customer_key, read_district_key, read_history_key, read_new_order_key, read_order_key,
    read_order_line_key, read_stock_key, read_warehouse_key,
};
use oe_decode::orders::{read_order, read_order_line};
use oe_decode::warehouses::{read_district, read_warehouse};
use oe_extent::LENGTH_BYTES;
use oe_extent::numbers::read_number;
use oe_rows::layouts::Layout;

/// Reads the key of a record of that kind at the front of the bytes, and the row behind it, or the
/// columns that changed.
fn read_contents(kind: RecordKind, bytes: &[u8]) -> Option<(OwnRecord, &[u8])>
    ensures { option_map (λ x. (x.0, x.1.now)) result ≡ contents_at kind bytes.now }
{
    match kind {
        RecordKind::InsertedHistory => match read_history_key(bytes) {
            Some((key, rest)) => Some((OwnRecord::InsertedHistory(key), rest)),
            None => None,
        },
        RecordKind::InsertedNewOrder => match read_new_order_key(bytes) {
            Some((key, rest)) => Some((OwnRecord::InsertedNewOrder(key), rest)),
            None => None,
        },
        RecordKind::InsertedOrder => match read_order_key(bytes) {
            Some((key, rest)) => Some((OwnRecord::InsertedOrder(key), rest)),
            None => None,
        },
        RecordKind::InsertedOrderLine => match read_order_line_key(bytes) {
            Some((key, rest)) => Some((OwnRecord::InsertedOrderLine(key), rest)),
            None => None,
        },
        RecordKind::UpdatedWarehouse => read_warehouse_update(bytes),
        RecordKind::UpdatedDistrict => read_district_update(bytes),
        RecordKind::UpdatedCustomer => read_customer_update(bytes),
        RecordKind::UpdatedOrder => read_order_update(bytes),
        RecordKind::UpdatedOrderLine => read_order_line_update(bytes),
        RecordKind::UpdatedStock => read_stock_update(bytes),
        RecordKind::DeletedNewOrder => match read_new_order_key(bytes) {
            Some((key, rest)) => Some((OwnRecord::DeletedNewOrder(key), rest)),
            None => None,
        },
        RecordKind::ChangedWarehouse => read_changed_warehouse(bytes),
        RecordKind::ChangedDistrict => read_changed_district(bytes),
        RecordKind::ChangedCustomer => read_changed_customer(bytes),
        RecordKind::ChangedOrder => read_changed_order(bytes),
        RecordKind::ChangedOrderLine => read_changed_order_line(bytes),
        RecordKind::ChangedStock => read_changed_stock(bytes),
    }
}

/// Reads the key of a WAREHOUSE row at the front of the bytes, and the row before its update.
fn read_warehouse_update(bytes: &[u8]) -> Option<(OwnRecord, &[u8])>
    ensures { option_map (λ x. (x.0, x.1.now)) result
        ≡ contents_at kind.UpdatedWarehouse bytes.now }
{
    let Some((key, rest)) = read_warehouse_key(bytes) else {
        return None;
    };
    let Some((row, rest)) = read_warehouse(rest) else {
        return None;
    };
    Some((OwnRecord::UpdatedWarehouse(key, row), rest))
}

/// Reads the key of a DISTRICT row at the front of the bytes, and the row before its update.
fn read_district_update(bytes: &[u8]) -> Option<(OwnRecord, &[u8])>
    ensures { option_map (λ x. (x.0, x.1.now)) result
        ≡ contents_at kind.UpdatedDistrict bytes.now }
{
    let Some((key, rest)) = read_district_key(bytes) else {
        return None;
    };
    let Some((row, rest)) = read_district(rest) else {
        return None;
    };
    Some((OwnRecord::UpdatedDistrict(key, row), rest))
}

/// Reads the key of a CUSTOMER row at the front of the bytes, and the row before its update.
fn read_customer_update(bytes: &[u8]) -> Option<(OwnRecord, &[u8])>
    ensures { option_map (λ x. (x.0, x.1.now)) result
        ≡ contents_at kind.UpdatedCustomer bytes.now }
{
    let Some((key, rest)) = read_customer_key(bytes) else {
        return None;
    };
    let Some((row, rest)) = read_customer(rest) else {
        return None;
    };
    Some((OwnRecord::UpdatedCustomer(key, row), rest))
}

/// Reads the key of an ORDER row at the front of the bytes, and the row before its update.
fn read_order_update(bytes: &[u8]) -> Option<(OwnRecord, &[u8])>
    ensures { option_map (λ x. (x.0, x.1.now)) result ≡ contents_at kind.UpdatedOrder bytes.now }
{
    let Some((key, rest)) = read_order_key(bytes) else {
        return None;
    };
    let Some((row, rest)) = read_order(rest) else {
        return None;
    };
    Some((OwnRecord::UpdatedOrder(key, row), rest))
}

/// Reads the key of an ORDER-LINE row at the front of the bytes, and the row before its update.
fn read_order_line_update(bytes: &[u8]) -> Option<(OwnRecord, &[u8])>
    ensures { option_map (λ x. (x.0, x.1.now)) result
        ≡ contents_at kind.UpdatedOrderLine bytes.now }
{
    let Some((key, rest)) = read_order_line_key(bytes) else {
        return None;
    };
    let Some((row, rest)) = read_order_line(rest) else {
        return None;
    };
    Some((OwnRecord::UpdatedOrderLine(key, row), rest))
}

/// Reads the key of a STOCK row at the front of the bytes, and the row before its update.
fn read_stock_update(bytes: &[u8]) -> Option<(OwnRecord, &[u8])>
    ensures { option_map (λ x. (x.0, x.1.now)) result ≡ contents_at kind.UpdatedStock bytes.now }
{
    let Some((key, rest)) = read_stock_key(bytes) else {
        return None;
    };
    let Some((row, rest)) = read_stock(rest) else {
        return None;
    };
    Some((OwnRecord::UpdatedStock(key, row), rest))
}

/// Reads the key of a WAREHOUSE row at the front of the bytes, and its changed columns.
fn read_changed_warehouse(bytes: &[u8]) -> Option<(OwnRecord, &[u8])>
    ensures { option_map (λ x. (x.0, x.1.now)) result
        ≡ contents_at kind.ChangedWarehouse bytes.now }
{
    let Some((key, rest)) = read_warehouse_key(bytes) else {
        return None;
    };
    let Some((columns, rest)) = read_warehouse_before(rest) else {
        return None;
    };
    Some((OwnRecord::ChangedWarehouse(key, columns), rest))
}

/// Reads the key of a DISTRICT row at the front of the bytes, and its changed columns.
fn read_changed_district(bytes: &[u8]) -> Option<(OwnRecord, &[u8])>
    ensures { option_map (λ x. (x.0, x.1.now)) result
        ≡ contents_at kind.ChangedDistrict bytes.now }
{
    let Some((key, rest)) = read_district_key(bytes) else {
        return None;
    };
    let Some((columns, rest)) = read_district_before(rest) else {
        return None;
    };
    Some((OwnRecord::ChangedDistrict(key, columns), rest))
}

/// Reads the key of a CUSTOMER row at the front of the bytes, and its changed columns.
fn read_changed_customer(bytes: &[u8]) -> Option<(OwnRecord, &[u8])>
    ensures { option_map (λ x. (x.0, x.1.now)) result
        ≡ contents_at kind.ChangedCustomer bytes.now }
{
    let Some((key, rest)) = read_customer_key(bytes) else {
        return None;
    };
    let Some((columns, rest)) = read_customer_before(rest) else {
        return None;
    };
    Some((OwnRecord::ChangedCustomer(key, columns), rest))
}

/// Reads the key of an ORDER row at the front of the bytes, and its changed columns.
fn read_changed_order(bytes: &[u8]) -> Option<(OwnRecord, &[u8])>
    ensures { option_map (λ x. (x.0, x.1.now)) result
        ≡ contents_at kind.ChangedOrder bytes.now }
{
    let Some((key, rest)) = read_order_key(bytes) else {
        return None;
    };
    let Some((columns, rest)) = read_order_before(rest) else {
        return None;
    };
    Some((OwnRecord::ChangedOrder(key, columns), rest))
}

/// Reads the key of an ORDER-LINE row at the front of the bytes, and its changed columns.
fn read_changed_order_line(bytes: &[u8]) -> Option<(OwnRecord, &[u8])>
    ensures { option_map (λ x. (x.0, x.1.now)) result
        ≡ contents_at kind.ChangedOrderLine bytes.now }
{
    let Some((key, rest)) = read_order_line_key(bytes) else {
        return None;
    };
    let Some((columns, rest)) = read_order_line_before(rest) else {
        return None;
    };
    Some((OwnRecord::ChangedOrderLine(key, columns), rest))
}

/// Reads the key of a STOCK row at the front of the bytes, and its changed columns.
fn read_changed_stock(bytes: &[u8]) -> Option<(OwnRecord, &[u8])>
    ensures { option_map (λ x. (x.0, x.1.now)) result
        ≡ contents_at kind.ChangedStock bytes.now }
{
    let Some((key, rest)) = read_stock_key(bytes) else {
        return None;
    };
    let Some((columns, rest)) = read_stock_before(rest) else {
        return None;
    };
    Some((OwnRecord::ChangedStock(key, columns), rest))
}

/// Reads what stands between the two lengths, and answers the bytes behind it too.
#[tactic(auto, unfolding(crate::specs::RecordFronts::body_at))]
fn read_body(bytes: &[u8]) -> Option<((Previous, OwnRecord), &[u8])>
    ensures { option_map (λ x. (x.0, x.1.now)) result ≡ body_at bytes.now }
{
    let Some((kind, rest)) = read_kind(bytes) else {
        return None;
    };
    let Some((previous, rest)) = read_previous(rest) else {
        return None;
    };
    let Some((record, rest)) = read_contents(kind, rest) else {
        return None;
    };
    Some(((previous, record), rest))
}

/// Reads the record, of any layout, where both its lengths are the number of bytes.
#[tactic(auto, unfolding(crate::specs::RecordFronts::record_at))]
pub(crate) fn whole_record(bytes: &[u8]) -> Option<(Previous, OwnRecord)>
    ensures { result ≡ record_at bytes.now }
{
    let size = bytes.len() as u64;
    let Some((first, rest)) = read_number(bytes, LENGTH_BYTES) else {
        return None;
    };
    let Some((record, rest)) = read_body(rest) else {
        return None;
    };
    let Some((last, rest)) = read_number(rest, LENGTH_BYTES) else {
        return None;
    };
    if first == size && last == size && rest.is_empty() {
        Some(record)
    } else {
        None
    }
}

/// Reads the record that the bytes are, with what leads to the previous one of its row; `None`
/// exactly where the bytes are no record's of that layout.
pub fn read_record(layout: Layout, bytes: &[u8]) -> Option<(Previous, OwnRecord)>
    ensures { ReadsRecord layout bytes.now result }
{
    let Some((previous, record)) = whole_record(bytes) else {
        return None;
    };
    if record.kind().is_of(layout) {
        Some((previous, record))
    } else {
        None
    }
}
