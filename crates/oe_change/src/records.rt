//! The undo of changes by their records: applied to the tables that a change left, it gives back
//! all nine tables. It takes no memory and is never refused.
ghost use Rattle.std.specs.Prelude.{◌≡◌};
ghost use Rattle.oe_model.specs.Changes.{put_back};
ghost use Rattle.oe_layout.specs.Records.{record_of_own};
ghost use Rattle.oe_store.specs.Places.{rows, SamePlaces};
ghost use Rattle.oe_change.specs.PutBack.{CanPutBack, LeavesPlaces, PutsNameBack};

use oe_layout::OwnRecord;
use oe_rows::NewOrder;
use oe_store::Tables;

/// Puts the row before a change back: an inserted row goes, the row before an update comes back
/// whole or the columns that changed do, on the row that stands, and a deleted row comes back. It
/// takes no memory and can't fail.
pub fn undo(tables: &mut Tables, before: OwnRecord)
    requires { CanPutBack tables.old (record_of_own before) }
    ensures rows { rows tables.new ≡ put_back (record_of_own before) (rows tables.old) }
    ensures places { SamePlaces tables.old tables.new }
    ensures names { PutsNameBack (record_of_own before) tables.old tables.new }
{
    match before {
        OwnRecord::InsertedHistory(key) => drop(tables.take_back_history(key)),
        OwnRecord::InsertedNewOrder(key) => drop(tables.take_back_new_order(key)),
        OwnRecord::InsertedOrder(key) => drop(tables.take_back_order(key)),
        OwnRecord::InsertedOrderLine(key) => drop(tables.take_back_order_line(key)),
        OwnRecord::UpdatedWarehouse(key, row) => drop(tables.put_back_warehouse(key, row)),
        OwnRecord::UpdatedDistrict(key, row) => drop(tables.put_back_district(key, row)),
        OwnRecord::UpdatedCustomer(key, row) => drop(tables.put_back_customer(key, row)),
        OwnRecord::UpdatedOrder(key, row) => drop(tables.put_back_order(key, row)),
        OwnRecord::UpdatedOrderLine(key, row) => drop(tables.put_back_order_line(key, row)),
        OwnRecord::UpdatedStock(key, row) => drop(tables.put_back_stock(key, row)),
        OwnRecord::DeletedNewOrder(key) => tables.refill_new_order(key, NewOrder),
        OwnRecord::ChangedWarehouse(key, old) => tables.put_back_warehouse_columns(key, old),
        OwnRecord::ChangedDistrict(key, old) => tables.put_back_district_columns(key, old),
        OwnRecord::ChangedCustomer(key, old) => tables.put_back_customer_columns(key, old),
        OwnRecord::ChangedOrder(key, old) => tables.put_back_order_columns(key, old),
        OwnRecord::ChangedOrderLine(key, old) => tables.put_back_order_line_columns(key, old),
        OwnRecord::ChangedStock(key, old) => tables.put_back_stock_columns(key, old),
    }
}

/// Puts the row before a change back as `undo`, where no older change of the key is to be put back:
/// an inserted row goes with its key's place. It takes no memory and can't fail.
pub fn undo_and_give_up(tables: &mut Tables, before: OwnRecord)
    requires { CanPutBack tables.old (record_of_own before) }
    ensures rows { rows tables.new ≡ put_back (record_of_own before) (rows tables.old) }
    ensures places { LeavesPlaces (record_of_own before) tables.old tables.new }
    ensures names { PutsNameBack (record_of_own before) tables.old tables.new }
{
    match before {
        OwnRecord::InsertedHistory(key) => drop(tables.remove_history(key)),
        OwnRecord::InsertedNewOrder(key) => drop(tables.remove_new_order(key)),
        OwnRecord::InsertedOrder(key) => drop(tables.remove_order(key)),
        OwnRecord::InsertedOrderLine(key) => drop(tables.remove_order_line(key)),
        other => undo(tables, other),
    }
}
