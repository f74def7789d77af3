//! What a record says was done, inserted, updated or deleted, and in which table. An update has two
//! kinds, of whole rows and of changed columns. Only pairs that a change makes are kinds.
ghost use Rattle.std.specs.Prelude.{◌≡◌};
ghost use Rattle.std.specs.Option.{option_map};
ghost use Rattle.oe_rows.specs.declared.layouts.Layout.TheVariants.{WholeRows, ChangedColumns};
ghost use Rattle.oe_layout.specs.declared.parts.TheConstants.{KIND_BYTES};
ghost use Rattle.oe_layout.specs.Kinds.{kind_numbers, kind_image, is_kind_of, inserted_in};
ghost use Rattle.oe_layout.specs.Kinds.{updated_in, changed_in, kind_of_numbers, kind_at};

use crate::parts::KIND_BYTES;
use oe_extent::numbers::read_number;
use oe_image::Imaged;
use oe_rows::layouts::Layout;

/// What was done, and in which table: one of the changes that the standard's transactions make
/// (clauses 2.4.2, 2.5.2 and 2.7.4).
#[derive(Clone, Copy)]
pub enum RecordKind {
    InsertedHistory,
    InsertedNewOrder,
    InsertedOrder,
    InsertedOrderLine,
    UpdatedWarehouse,
    UpdatedDistrict,
    UpdatedCustomer,
    UpdatedOrder,
    UpdatedOrderLine,
    UpdatedStock,
    DeletedNewOrder,
    ChangedWarehouse,
    ChangedDistrict,
    ChangedCustomer,
    ChangedOrder,
    ChangedOrderLine,
    ChangedStock,
}

impl RecordKind {
    /// Gives the kind as two numbers: 1 to 4 for what was done, and 1 to 9 for the table.
    fn numbers(self) -> (u8, u8)
        ensures { result ≡ kind_numbers self }
    {
        match self {
            RecordKind::InsertedHistory => (1, 4),
            RecordKind::InsertedNewOrder => (1, 5),
            RecordKind::InsertedOrder => (1, 6),
            RecordKind::InsertedOrderLine => (1, 7),
            RecordKind::UpdatedWarehouse => (2, 1),
            RecordKind::UpdatedDistrict => (2, 2),
            RecordKind::UpdatedCustomer => (2, 3),
            RecordKind::UpdatedOrder => (2, 6),
            RecordKind::UpdatedOrderLine => (2, 7),
            RecordKind::UpdatedStock => (2, 9),
            RecordKind::DeletedNewOrder => (3, 5),
            RecordKind::ChangedWarehouse => (4, 1),
            RecordKind::ChangedDistrict => (4, 2),
            RecordKind::ChangedCustomer => (4, 3),
            RecordKind::ChangedOrder => (4, 6),
            RecordKind::ChangedOrderLine => (4, 7),
            RecordKind::ChangedStock => (4, 9),
        }
    }

    /// Tells whether records of that kind are of the layout: `WholeRows` has none with changed
    /// columns, and `ChangedColumns` none with the whole row before an update.
    pub(crate) fn is_of(self, layout: Layout) -> bool
        ensures { result ≡ is_kind_of layout self }
    {
        match layout {
            Layout::WholeRows => self.has_no_columns(),
            Layout::ChangedColumns => self.has_no_row(),
        }
    }

    /// Tells whether records of that kind have no changed columns.
    fn has_no_columns(self) -> bool
        ensures { result ≡ is_kind_of WholeRows self }
    {
        !matches!(
            self,
            RecordKind::ChangedWarehouse
                | RecordKind::ChangedDistrict
                | RecordKind::ChangedCustomer
                | RecordKind::ChangedOrder
                | RecordKind::ChangedOrderLine
                | RecordKind::ChangedStock
        )
    }

    /// Tells whether records of that kind have no whole row before an update.
    fn has_no_row(self) -> bool
        ensures { result ≡ is_kind_of ChangedColumns self }
    {
        !matches!(
            self,
            RecordKind::UpdatedWarehouse
                | RecordKind::UpdatedDistrict
                | RecordKind::UpdatedCustomer
                | RecordKind::UpdatedOrder
                | RecordKind::UpdatedOrderLine
                | RecordKind::UpdatedStock
        )
    }
}

impl Imaged for RecordKind {
    ghost most = { KIND_BYTES };

    ghost image = { λ k. kind_image k };

    #[inline]
    fn length(&self) -> usize {
        let _kind = *self;
        KIND_BYTES
    }

    #[inline]
    fn write(&self, bytes: &mut [u8], start: usize) -> usize {
        self.numbers().write(bytes, start)
    }
}

/// Gives the kind of an insert into that table.
fn inserted_in(table: u64) -> Option<RecordKind>
    ensures { result ≡ inserted_in table }
{
    match table {
        4 => Some(RecordKind::InsertedHistory),
        5 => Some(RecordKind::InsertedNewOrder),
        6 => Some(RecordKind::InsertedOrder),
        7 => Some(RecordKind::InsertedOrderLine),
        _ => None,
    }
}

/// Gives the kind of an update of that table, with the whole row.
fn updated_in(table: u64) -> Option<RecordKind>
    ensures { result ≡ updated_in table }
{
    match table {
        1 => Some(RecordKind::UpdatedWarehouse),
        2 => Some(RecordKind::UpdatedDistrict),
        3 => Some(RecordKind::UpdatedCustomer),
        6 => Some(RecordKind::UpdatedOrder),
        7 => Some(RecordKind::UpdatedOrderLine),
        9 => Some(RecordKind::UpdatedStock),
        _ => None,
    }
}

/// Gives the kind of an update of that table, with the columns that changed.
fn changed_in(table: u64) -> Option<RecordKind>
    ensures { result ≡ changed_in table }
{
    match table {
        1 => Some(RecordKind::ChangedWarehouse),
        2 => Some(RecordKind::ChangedDistrict),
        3 => Some(RecordKind::ChangedCustomer),
        6 => Some(RecordKind::ChangedOrder),
        7 => Some(RecordKind::ChangedOrderLine),
        9 => Some(RecordKind::ChangedStock),
        _ => None,
    }
}

/// Gives what these numbers stand for, if anything.
fn kind_of_numbers(done: u64, table: u64) -> Option<RecordKind>
    ensures { result ≡ kind_of_numbers (done, table) }
{
    match done {
        1 => inserted_in(table),
        2 => updated_in(table),
        3 if table == 5 => Some(RecordKind::DeletedNewOrder),
        4 => changed_in(table),
        _ => None,
    }
}

/// Reads the kind at the front of the bytes, and answers the bytes behind it too.
#[tactic(auto, unfolding(crate::specs::Kinds::kind_at))]
pub(crate) fn read_kind(bytes: &[u8]) -> Option<(RecordKind, &[u8])>
    ensures { option_map (λ x. (x.0, x.1.now)) result ≡ kind_at bytes.now }
{
    let Some((done, rest)) = read_number(bytes, 1) else {
        return None;
    };
    let Some((table, rest)) = read_number(rest, 1) else {
        return None;
    };
    let Some(kind) = kind_of_numbers(done, table) else {
        return None;
    };
    Some((kind, rest))
}
