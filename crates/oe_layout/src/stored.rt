//! Undo records where they lie as bytes. A part, as its kind or its key, is read without the row.
ghost use Rattle.std.specs.Prelude.{◌≡◌, ◌++◌};
ghost use Rattle.oe_extent.specs.declared.sizes.TheConstants.{LENGTH_BYTES};
ghost use Rattle.oe_extent.specs.Images.{number};
ghost use Rattle.oe_image.specs.Keys.{IsKey};
ghost use Rattle.oe_model.specs.Changes.{record_key};
ghost use Rattle.oe_model.specs.Lengths.{record_length};
ghost use Rattle.oe_layout.specs.Kinds.{kind_of};
ghost use Rattle.oe_layout.specs.Records.{contents, record_of_own};
ghost use Rattle.oe_layout.specs.Stored.{IsStoredRecord, record_in_bytes, IsTold, IsToldLinked, table_changed, deleted_key, deleted_new_order};

use crate::kinds::{RecordKind, read_kind};
use crate::links::{Previous, read_previous};
use crate::parts::{CONTENTS_START, KIND_START, LINK_START};
use crate::reading::whole_record;
use crate::records::OwnRecord;
use oe_decode::keys::read_key;
use oe_rows::{Key, NewOrderKey, Table};
use std::marker::Model;

/// An undo record where it lies in the ring, which clauses see as the model's record. Key and row
/// are read only where they are asked for. No call takes memory.
#[derive(Drop)]
pub struct StoredRecord<'a> {
    bytes: &'a [u8],
}

impl<'a> Model for StoredRecord<'a> {
    ghost use Rattle.oe_model.specs.Changes.{Record};
    ghost use Rattle.oe_layout.specs.Stored.{record_in_bytes, IsStoredRecord};

    ghost Value = { Record };

    ghost view = { λ s. record_in_bytes s.bytes.now };

    ghost invariant = { λ s. IsStoredRecord s.bytes.now };
}

/// Gives the table whose row was changed.
fn table_changed(kind: RecordKind) -> Table
    ensures { result ≡ table_changed kind }
{
    match kind {
        RecordKind::InsertedHistory => Table::History,
        RecordKind::InsertedNewOrder => Table::NewOrder,
        RecordKind::InsertedOrder => Table::Order,
        RecordKind::InsertedOrderLine => Table::OrderLine,
        RecordKind::UpdatedWarehouse => Table::Warehouse,
        RecordKind::UpdatedDistrict => Table::District,
        RecordKind::UpdatedCustomer => Table::Customer,
        RecordKind::UpdatedOrder => Table::Order,
        RecordKind::UpdatedOrderLine => Table::OrderLine,
        RecordKind::UpdatedStock => Table::Stock,
        RecordKind::DeletedNewOrder => Table::NewOrder,
        RecordKind::ChangedWarehouse => Table::Warehouse,
        RecordKind::ChangedDistrict => Table::District,
        RecordKind::ChangedCustomer => Table::Customer,
        RecordKind::ChangedOrder => Table::Order,
        RecordKind::ChangedOrderLine => Table::OrderLine,
        RecordKind::ChangedStock => Table::Stock,
    }
}

/// Gives the key of a queue entry, where a record of that kind is of its delete.
fn deleted_key(kind: RecordKind, key: Key) -> Option<NewOrderKey>
    ensures { result ≡ deleted_key kind key }
{
    match kind {
        RecordKind::DeletedNewOrder => match key {
            Key::NewOrder(key) => Some(key),
            _ => None,
        },
        _ => None,
    }
}

/// Gives the record that these bytes are, where it lies, with what leads to the previous one of its
/// row. Neither key nor row is read, and no memory is taken.
pub fn linked_record(bytes: &[u8]) -> (Previous, StoredRecord<'_>)
    requires { IsStoredRecord bytes.now }
    ensures { IsToldLinked bytes.now (result.0, result.1) }
{
    let Some((previous, _contents)) = read_previous(&bytes[LINK_START..]) else {
        unreachable!()
    };
    (previous, StoredRecord::of(bytes))
}

impl<'a> StoredRecord<'a> {
    /// Gives the record that these bytes are.
    pub fn of(bytes: &'a [u8]) -> Self
        requires { IsStoredRecord bytes.now }
        ensures told { result ≡ record_in_bytes bytes.now }
        ensures record { IsTold bytes.now result }
    {
        StoredRecord { bytes }
    }

    /// Answers what was done, and in which table.
    pub fn kind(&self) -> RecordKind
        ensures { result ≡ kind_of self.now }
    {
        read_kind(&self.bytes[KIND_START..]).unwrap().0
    }

    /// Gives the bytes from its key on, which is in its ranges.
    fn contents(&self) -> &[u8]
        ensures key { IsKey (record_key self.now) }
        ensures bytes { result.now
            ≡ contents self.now ++ number LENGTH_BYTES (record_length self.now) }
    {
        &self.bytes[CONTENTS_START..]
    }

    /// Gives the key of the row that was changed. No row is read.
    pub fn key(&self) -> Key
        ensures { result ≡ record_key self.now }
    {
        let table = table_changed(self.kind());
        let Some((key, _row)) = read_key(table, self.contents()) else {
            unreachable!()
        };
        key
    }

    /// Gives the key of the queue entry that was deleted; none exactly where the record is not of a
    /// delete. No row is read.
    pub fn deleted_new_order(&self) -> Option<NewOrderKey>
        ensures { result ≡ deleted_new_order self.now }
    {
        deleted_key(self.kind(), self.key())
    }

    /// Gives the record with its row, or its columns.
    pub fn read(&self) -> OwnRecord
        ensures { record_of_own result ≡ self.now }
    {
        whole_record(self.bytes).unwrap().1
    }
}
