//! One change of a row, for callers that use the tables alone. It either stands whole and gives the
//! record that undoes it, or is refused with its cause and changes nothing.
ghost use Rattle.std.specs.Prelude.{◌≡◌, IfOk, IfErr, OnErr};
ghost use Rattle.oe_model.specs.Meets.{Accepts};
ghost use Rattle.oe_change.specs.Changes.{change_of};
ghost use Rattle.oe_store.specs.Places.{rows};
ghost use Rattle.oe_change.specs.Applies.{HasApplied, Refuses, IsFirst};

use crate::changes::Change;
use crate::inserts::{insert_history, insert_new_order, insert_order, insert_order_line};
use crate::updates::{
    delete_new_order, update_customer, update_district, update_order, update_order_line,
    update_stock, update_warehouse,
};
use oe_layout::OwnRecord;
use oe_requests::Refusal;
use oe_rows::Layout;
use oe_store::Tables;

/// Makes a change of one row and answers its undo record in the layout, or says why not.
///
/// `NoSuchRow`: the key of an update or a delete is absent. `RowExists`: the key of an insert is
/// there. `Reference`: what the new row refers to is absent (clauses 1.3 and 1.4). `KeyColumn`: an
/// update changes O_C_ID. `NoMemory`: the tables accept the change, but the key of an insert takes
/// a new place, or an update changes C_LAST, and its memory was refused. A column can't leave its
/// range, since rows are in their ranges by type.
pub fn apply(tables: &mut Tables, layout: Layout, change: Change) -> Result<OwnRecord, Refusal>
    ensures applied { IfOk result (HasApplied layout (change_of change) tables.old tables.new) }

    // A refusal has its cause, and the tables are as before.
    ensures refused { IfErr result (λ e. Refuses (change_of change) tables.old e) }
    ensures first { IfErr result (λ e. IsFirst (change_of change) (rows tables.old) e) }
    ensures unchanged { OnErr result (tables.new ≡ tables.old) }

    // Where the tables accept the change, want of memory is the only refusal.
    ensures only_memory { Accepts (change_of change) (rows tables.old)
        → IfErr result (λ e. e ≡ Refusal.NoMemory) }
{
    match change {
        Change::InsertHistory(key, row) => insert_history(tables, &key, row),
        Change::InsertNewOrder(key) => insert_new_order(tables, &key),
        Change::InsertOrder(key, row) => insert_order(tables, &key, row),
        Change::InsertOrderLine(key, row) => insert_order_line(tables, &key, row),
        Change::UpdateWarehouse(key, row) => update_warehouse(tables, layout, &key, row),
        Change::UpdateDistrict(key, row) => update_district(tables, layout, &key, row),
        Change::UpdateCustomer(key, row) => update_customer(tables, layout, &key, row),
        Change::UpdateOrder(key, row) => update_order(tables, layout, &key, row),
        Change::UpdateOrderLine(key, row) => update_order_line(tables, layout, &key, row),
        Change::UpdateStock(key, row) => update_stock(tables, layout, &key, row),
        Change::DeleteNewOrder(key) => delete_new_order(tables, &key),
    }
}
