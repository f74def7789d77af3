//! Undo records whose rows or columns are lent from where they lie, to be written.
ghost use Rattle.std.specs.Prelude.{◌≡◌, ◌≤◌, ◌+◌, ◌↔◌, length, IsTrue};
ghost use Rattle.oe_extent.specs.Images.{Writes};
ghost use Rattle.oe_extent.specs.Strings.{IsFramed};
ghost use Rattle.oe_layout.specs.declared.parts.TheConstants.{OTHER_BYTES, MOST_CONTENTS, MOST_BYTES};
ghost use Rattle.oe_layout.specs.Kinds.{kind_of};
ghost use Rattle.oe_model.specs.Changes.{record_key};
ghost use Rattle.oe_image.specs.Rows.{stock};
ghost use Rattle.oe_model.specs.Lengths.{record_length, stock_length};
ghost use Rattle.oe_layout.specs.Records.{contents, record_image, record_of_lent, IsOfLayout};

use crate::kinds::RecordKind;
use crate::links::Previous;
use crate::parts::OTHER_BYTES;
use oe_extent::{LENGTH_BYTES, Written};
use oe_image::Imaged;
use oe_image::parts::{
    CustomerNamePart, CustomerPart, DistrictPart, OrderLinePart, OrderPart, StockPart,
    WarehousePart,
};
use oe_rows::customers::Customer;
use oe_rows::districts::District;
use oe_rows::items::Stock;
use oe_rows::orders::{Order, OrderLine};
use oe_rows::warehouses::Warehouse;
use oe_rows::{
    CustomerKey, DistrictKey, HistoryKey, Key, Layout, NewOrderKey, OrderKey, OrderLineKey,
    StockKey, WarehouseKey,
};

/// The undo record of a change, as it is written: its key, with the row before an update where that
/// lies, or the part of the row that the update changes.
#[derive(Drop)]
pub enum LentRecord<'a> {
    InsertedHistory(HistoryKey),
    InsertedNewOrder(NewOrderKey),
    InsertedOrder(OrderKey),
    InsertedOrderLine(OrderLineKey),
    UpdatedWarehouse(WarehouseKey, &'a Warehouse),
    UpdatedDistrict(DistrictKey, &'a District),
    UpdatedCustomer(CustomerKey, &'a Customer),
    UpdatedOrder(OrderKey, &'a Order),
    UpdatedOrderLine(OrderLineKey, &'a OrderLine),
    UpdatedStock(StockKey, &'a Stock),
    DeletedNewOrder(NewOrderKey),
    ChangedWarehouse(WarehouseKey, WarehousePart),
    ChangedDistrict(DistrictKey, DistrictPart),
    ChangedCustomer(CustomerKey, CustomerPart<'a>),
    RenamedCustomer(CustomerKey, CustomerNamePart<'a>),
    ChangedOrder(OrderKey, OrderPart),
    ChangedOrderLine(OrderLineKey, OrderLinePart),
    ChangedStock(StockKey, StockPart),
}

impl<'a> LentRecord<'a> {
    /// Answers what was done, and in which table.
    pub fn kind(&self) -> RecordKind
        ensures { result ≡ kind_of (record_of_lent self.now) }
    {
        match self {
            LentRecord::InsertedHistory(_) => RecordKind::InsertedHistory,
            LentRecord::InsertedNewOrder(_) => RecordKind::InsertedNewOrder,
            LentRecord::InsertedOrder(_) => RecordKind::InsertedOrder,
            LentRecord::InsertedOrderLine(_) => RecordKind::InsertedOrderLine,
            LentRecord::UpdatedWarehouse(_, _) => RecordKind::UpdatedWarehouse,
            LentRecord::UpdatedDistrict(_, _) => RecordKind::UpdatedDistrict,
            LentRecord::UpdatedCustomer(_, _) => RecordKind::UpdatedCustomer,
            LentRecord::UpdatedOrder(_, _) => RecordKind::UpdatedOrder,
            LentRecord::UpdatedOrderLine(_, _) => RecordKind::UpdatedOrderLine,
            LentRecord::UpdatedStock(_, _) => RecordKind::UpdatedStock,
            LentRecord::DeletedNewOrder(_) => RecordKind::DeletedNewOrder,
            LentRecord::ChangedWarehouse(_, _) => RecordKind::ChangedWarehouse,
            LentRecord::ChangedDistrict(_, _) => RecordKind::ChangedDistrict,
            LentRecord::ChangedCustomer(_, _) => RecordKind::ChangedCustomer,
            LentRecord::RenamedCustomer(_, _) => RecordKind::ChangedCustomer,
            LentRecord::ChangedOrder(_, _) => RecordKind::ChangedOrder,
            LentRecord::ChangedOrderLine(_, _) => RecordKind::ChangedOrderLine,
            LentRecord::ChangedStock(_, _) => RecordKind::ChangedStock,
        }
    }

    /// Tells whether it may stand in a log of that layout.
    pub fn is_of(&self, layout: Layout) -> bool
        ensures { IsTrue result ↔ IsOfLayout layout (record_of_lent self.now) }
    {
        self.kind().is_of(layout)
    }

    /// Gives the key of the row that is changed.
    #[inline(always)]
    pub fn key(&self) -> Key
        ensures { result ≡ record_key (record_of_lent self.now) }
    {
        match self {
            LentRecord::InsertedHistory(key) => Key::History(*key),
            LentRecord::InsertedNewOrder(key) => Key::NewOrder(*key),
            LentRecord::InsertedOrder(key) => Key::Order(*key),
            LentRecord::InsertedOrderLine(key) => Key::OrderLine(*key),
            LentRecord::UpdatedWarehouse(key, _) => Key::Warehouse(*key),
            LentRecord::UpdatedDistrict(key, _) => Key::District(*key),
            LentRecord::UpdatedCustomer(key, _) => Key::Customer(*key),
            LentRecord::UpdatedOrder(key, _) => Key::Order(*key),
            LentRecord::UpdatedOrderLine(key, _) => Key::OrderLine(*key),
            LentRecord::UpdatedStock(key, _) => Key::Stock(*key),
            LentRecord::DeletedNewOrder(key) => Key::NewOrder(*key),
            LentRecord::ChangedWarehouse(key, _) => Key::Warehouse(*key),
            LentRecord::ChangedDistrict(key, _) => Key::District(*key),
            LentRecord::ChangedCustomer(key, _) => Key::Customer(*key),
            LentRecord::RenamedCustomer(key, _) => Key::Customer(*key),
            LentRecord::ChangedOrder(key, _) => Key::Order(*key),
            LentRecord::ChangedOrderLine(key, _) => Key::OrderLine(*key),
            LentRecord::ChangedStock(key, _) => Key::Stock(*key),
        }
    }

    /// Tells how many bytes its key has, and what it has of the row before, of the whole record's
    /// length.
    #[inline(always)]
    fn contents_length(&self) -> usize
        ensures sum { result + OTHER_BYTES ≡ record_length (record_of_lent self.now) }
        ensures image { result ≡ length (contents (record_of_lent self.now)) }
        ensures short { result ≤ MOST_CONTENTS }
    {
        match self {
            LentRecord::InsertedHistory(key) => key.length(),
            LentRecord::InsertedNewOrder(key) => key.length(),
            LentRecord::InsertedOrder(key) => key.length(),
            LentRecord::InsertedOrderLine(key) => key.length(),
            LentRecord::UpdatedWarehouse(key, row) => key.length() + row.length(),
            LentRecord::UpdatedDistrict(key, row) => key.length() + row.length(),
            LentRecord::UpdatedCustomer(key, row) => key.length() + row.length(),
            LentRecord::UpdatedOrder(key, row) => key.length() + row.length(),
            LentRecord::UpdatedOrderLine(key, row) => key.length() + row.length(),
            LentRecord::UpdatedStock(key, row) => key.length() + stock_length(row),
            LentRecord::DeletedNewOrder(key) => key.length(),
            LentRecord::ChangedWarehouse(key, part) => key.length() + part.length(),
            LentRecord::ChangedDistrict(key, part) => key.length() + part.length(),
            LentRecord::ChangedCustomer(key, part) => key.length() + part.length(),
            LentRecord::RenamedCustomer(key, part) => key.length() + part.length(),
            LentRecord::ChangedOrder(key, part) => key.length() + part.length(),
            LentRecord::ChangedOrderLine(key, part) => key.length() + part.length(),
            LentRecord::ChangedStock(key, part) => key.length() + part.length(),
        }
    }
}

/// How many bytes a STOCK row has beside those of S_DATA, as each S_DIST column has 24.
const OTHER_STOCK_BYTES: usize = 272;

// Tells how many bytes a STOCK row has.
#[inline(always)]
fn stock_length(row: &Stock) -> usize
    ensures sum { result ≡ stock_length row.now }
    ensures image { result ≡ length (stock row.now) }
    ensures short { result ≤ 322 }
{
    let _figures = row.figures();
    OTHER_STOCK_BYTES + row.data.as_str().len()
}

impl<'a> Imaged for LentRecord<'a> {
    ghost most = { MOST_CONTENTS };

    ghost image = { λ r. contents (record_of_lent r) };

    fn length(&self) -> usize {
        self.contents_length()
    }

    fn write(&self, bytes: &mut [u8], start: usize) -> usize {
        match self {
            LentRecord::InsertedHistory(key) => key.write(bytes, start),
            LentRecord::InsertedNewOrder(key) => key.write(bytes, start),
            LentRecord::InsertedOrder(key) => key.write(bytes, start),
            LentRecord::InsertedOrderLine(key) => key.write(bytes, start),
            LentRecord::UpdatedWarehouse(key, row) => (key, *row).write(bytes, start),
            LentRecord::UpdatedDistrict(key, row) => (key, *row).write(bytes, start),
            LentRecord::UpdatedCustomer(key, row) => (key, *row).write(bytes, start),
            LentRecord::UpdatedOrder(key, row) => (key, *row).write(bytes, start),
            LentRecord::UpdatedOrderLine(key, row) => (key, *row).write(bytes, start),
            LentRecord::UpdatedStock(key, row) => (key, *row).write(bytes, start),
            LentRecord::DeletedNewOrder(key) => key.write(bytes, start),
            LentRecord::ChangedWarehouse(key, part) => (key, part).write(bytes, start),
            LentRecord::ChangedDistrict(key, part) => (key, part).write(bytes, start),
            LentRecord::ChangedCustomer(key, part) => (key, part).write(bytes, start),
            LentRecord::RenamedCustomer(key, part) => (key, part).write(bytes, start),
            LentRecord::ChangedOrder(key, part) => (key, part).write(bytes, start),
            LentRecord::ChangedOrderLine(key, part) => (key, part).write(bytes, start),
            LentRecord::ChangedStock(key, part) => (key, part).write(bytes, start),
        }
    }
}

/// A record with what leads to the previous one of its row.
#[derive(Drop)]
pub struct LinkedRecord<'a> {
    pub previous: Previous,
    pub record: LentRecord<'a>,
}

impl<'a> LinkedRecord<'a> {
    /// Tells how many bytes it has, as its columns say: at most 709. They are a string of the ring.
    #[inline(always)]
    pub fn length(&self) -> usize
        ensures sum { result ≡ record_length (record_of_lent self.now.record) }
        ensures image { result
            ≡ length (record_image self.now.previous (record_of_lent self.now.record)) }
        ensures short { result ≤ MOST_BYTES }
        ensures framed { IsFramed
            (record_image self.now.previous (record_of_lent self.now.record)) }
    {
        self.record.contents_length() + OTHER_BYTES
    }
}

impl<'a> Written for LinkedRecord<'a> {
    ghost image = { λ r. record_image r.previous (record_of_lent r.record) };

    fn size(&self) -> usize {
        self.length()
    }

    fn write(&self, bytes: &mut [u8], start: usize) -> usize {
        // The offsets give the length; what the columns say of it is for the proof alone.
        let _length = self.length();
        let body = (self.record.kind(), (&self.previous, &self.record));
        let end = body.write(bytes, start + LENGTH_BYTES);
        let length = (end + LENGTH_BYTES - start) as u16;
        let _middle = length.write(bytes, start);
        length.write(bytes, end)
    }
}
