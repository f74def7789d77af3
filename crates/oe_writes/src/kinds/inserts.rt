//! Rows that are inserted, and the one that is deleted.
ghost use Rattle.oe_rows.specs.declared.layouts.Layout.{Layout};
ghost use Rattle.oe_change.specs.declared.writes.Write.TheVariants as writes;
ghost use Rattle.oe_writes.specs.Kinds.{is_rename};

use crate::inserts::{
    delete_new_order, insert_history, insert_new_order, insert_order, insert_order_line,
};
use crate::kinds::{OneWrite, PlainWrite};
use crate::unplaced::{unplaced_history, unplaced_new_order, unplaced_order, unplaced_order_line};
use oe_layout::LentRecord;
use oe_requests::Refusal;
use oe_rows::{
    History, HistoryKey, Key, Layout, NewOrderKey, Order, OrderKey, OrderLine, OrderLineKey,
};
use oe_store::Tables;

/// Inserts a HISTORY row, under no lock: it is the transaction's own.
#[derive(Drop)]
pub struct InsertHistory {
    pub history: HistoryKey,
    pub row: History,
}

impl OneWrite for InsertHistory {
    ghost write = { λ w. writes.InsertHistory w.history w.row };

    #[inline(always)]
    fn key(&self) -> Key {
        Key::History(self.history)
    }

    #[inline(always)]
    fn is_rename(&self) -> bool {
        false
    }

    #[inline(always)]
    fn lend<'a>(&'a self, _tables: &'a Tables, _layout: Layout) -> Option<LentRecord<'a>> {
        Some(LentRecord::InsertedHistory(self.history))
    }

    #[inline(always)]
    fn set(&self, tables: &mut Tables) -> Result<(), Refusal> {
        insert_history(tables, &self.history, &self.row)
    }

    #[inline(always)]
    fn unplaced(&self, tables: &Tables) -> Refusal {
        unplaced_history(tables, &self.history, &self.row)
    }
}

/// Inserts a NEW-ORDER row.
#[derive(Drop)]
pub struct InsertNewOrder {
    pub order: NewOrderKey,
}

impl OneWrite for InsertNewOrder {
    ghost write = { λ w. writes.InsertNewOrder w.order };

    #[inline(always)]
    fn key(&self) -> Key {
        Key::NewOrder(self.order)
    }

    #[inline(always)]
    fn is_rename(&self) -> bool {
        false
    }

    #[inline(always)]
    fn lend<'a>(&'a self, _tables: &'a Tables, _layout: Layout) -> Option<LentRecord<'a>> {
        Some(LentRecord::InsertedNewOrder(self.order))
    }

    #[inline(always)]
    fn set(&self, tables: &mut Tables) -> Result<(), Refusal> {
        insert_new_order(tables, &self.order)
    }

    #[inline(always)]
    fn unplaced(&self, tables: &Tables) -> Refusal {
        unplaced_new_order(tables, &self.order)
    }
}

/// Inserts an ORDER row.
#[derive(Drop)]
pub struct InsertOrder {
    pub order: OrderKey,
    pub row: Order,
}

impl OneWrite for InsertOrder {
    ghost write = { λ w. writes.InsertOrder w.order w.row };

    #[inline(always)]
    fn key(&self) -> Key {
        Key::Order(self.order)
    }

    #[inline(always)]
    fn is_rename(&self) -> bool {
        false
    }

    #[inline(always)]
    fn lend<'a>(&'a self, _tables: &'a Tables, _layout: Layout) -> Option<LentRecord<'a>> {
        Some(LentRecord::InsertedOrder(self.order))
    }

    #[inline(always)]
    fn set(&self, tables: &mut Tables) -> Result<(), Refusal> {
        insert_order(tables, &self.order, &self.row)
    }

    #[inline(always)]
    fn unplaced(&self, tables: &Tables) -> Refusal {
        unplaced_order(tables, &self.order, &self.row)
    }
}

/// Inserts an ORDER-LINE row.
#[derive(Drop)]
pub struct InsertOrderLine {
    pub line: OrderLineKey,
    pub row: OrderLine,
}

impl OneWrite for InsertOrderLine {
    ghost write = { λ w. writes.InsertOrderLine w.line w.row };

    #[inline(always)]
    fn key(&self) -> Key {
        Key::OrderLine(self.line)
    }

    #[inline(always)]
    fn is_rename(&self) -> bool {
        false
    }

    #[inline(always)]
    fn lend<'a>(&'a self, _tables: &'a Tables, _layout: Layout) -> Option<LentRecord<'a>> {
        Some(LentRecord::InsertedOrderLine(self.line))
    }

    #[inline(always)]
    fn set(&self, tables: &mut Tables) -> Result<(), Refusal> {
        insert_order_line(tables, &self.line, &self.row)
    }

    #[inline(always)]
    fn unplaced(&self, tables: &Tables) -> Refusal {
        unplaced_order_line(tables, &self.line, &self.row)
    }
}

/// Deletes a NEW-ORDER row.
#[derive(Drop)]
pub struct DeleteNewOrder {
    pub order: NewOrderKey,
}

impl PlainWrite for DeleteNewOrder {
    ghost plain = { λ w. writes.DeleteNewOrder w.order };

    #[inline(always)]
    fn key(&self) -> Key {
        Key::NewOrder(self.order)
    }

    #[inline(always)]
    fn lend<'a>(&'a self, _tables: &'a Tables, _layout: Layout) -> Option<LentRecord<'a>> {
        Some(LentRecord::DeletedNewOrder(self.order))
    }

    #[inline(always)]
    fn set(&self, tables: &mut Tables) -> Result<(), Refusal> {
        delete_new_order(tables, &self.order)
    }

    ghost is_plain = { λ w. tt };
}
