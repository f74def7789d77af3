//! The undo records of updates, made in a layout from the row before and the row after. No call
//! takes memory.
ghost use Rattle.std.specs.Prelude.{◌≡◌, Some};
ghost use Rattle.oe_model.specs.Changes.{record_in, UpdateWarehouse, UpdateDistrict, UpdateCustomer, UpdateOrder, UpdateOrderLine, UpdateStock};
ghost use Rattle.oe_layout.specs.Records.{record_of_own};

use oe_layout::OwnRecord;
use oe_rows::{
    Customer, CustomerBefore, CustomerKey, District, DistrictBefore, DistrictKey, Layout, Order,
    OrderBefore, OrderKey, OrderLine, OrderLineBefore, OrderLineKey, Row, Stock, StockBefore,
    StockKey, Warehouse, WarehouseBefore, WarehouseKey,
};

/// Makes the undo record of an update of a WAREHOUSE row.
pub(crate) fn warehouse_record(
    layout: Layout,
    key: &WarehouseKey,
    before: &Warehouse,
    after: &Warehouse,
) -> OwnRecord
    ensures { record_of_own result ≡ record_in layout (UpdateWarehouse key.now after.now)
        (Some (Row.Warehouse before.now)) }
{
    match layout {
        Layout::WholeRows => OwnRecord::UpdatedWarehouse(*key, before.copied()),
        Layout::ChangedColumns => {
            OwnRecord::ChangedWarehouse(*key, WarehouseBefore::of(before, after))
        }
    }
}

/// Makes the undo record of an update of a DISTRICT row.
pub(crate) fn district_record(
    layout: Layout,
    key: &DistrictKey,
    before: &District,
    after: &District,
) -> OwnRecord
    ensures { record_of_own result ≡ record_in layout (UpdateDistrict key.now after.now)
        (Some (Row.District before.now)) }
{
    match layout {
        Layout::WholeRows => OwnRecord::UpdatedDistrict(*key, before.copied()),
        Layout::ChangedColumns => {
            OwnRecord::ChangedDistrict(*key, DistrictBefore::of(before, after))
        }
    }
}

/// Makes the undo record of an update of a CUSTOMER row.
pub(crate) fn customer_record(
    layout: Layout,
    key: &CustomerKey,
    before: &Customer,
    after: &Customer,
) -> OwnRecord
    ensures { record_of_own result ≡ record_in layout (UpdateCustomer key.now after.now)
        (Some (Row.Customer before.now)) }
{
    match layout {
        Layout::WholeRows => OwnRecord::UpdatedCustomer(*key, before.copied()),
        Layout::ChangedColumns => {
            OwnRecord::ChangedCustomer(*key, CustomerBefore::of(before, after))
        }
    }
}

/// Makes the undo record of an update of an ORDER row.
pub(crate) fn order_record(
    layout: Layout,
    key: &OrderKey,
    before: &Order,
    after: &Order,
) -> OwnRecord
    ensures { record_of_own result ≡ record_in layout (UpdateOrder key.now after.now)
        (Some (Row.Order before.now)) }
{
    match layout {
        Layout::WholeRows => OwnRecord::UpdatedOrder(*key, before.copied()),
        Layout::ChangedColumns => { OwnRecord::ChangedOrder(*key, OrderBefore::of(before, after)) }
    }
}

/// Makes the undo record of an update of an ORDER-LINE row.
pub(crate) fn order_line_record(
    layout: Layout,
    key: &OrderLineKey,
    before: &OrderLine,
    after: &OrderLine,
) -> OwnRecord
    ensures { record_of_own result ≡ record_in layout (UpdateOrderLine key.now after.now)
        (Some (Row.OrderLine before.now)) }
{
    match layout {
        Layout::WholeRows => OwnRecord::UpdatedOrderLine(*key, before.copied()),
        Layout::ChangedColumns => {
            OwnRecord::ChangedOrderLine(*key, OrderLineBefore::of(before, after))
        }
    }
}

/// Makes the undo record of an update of a STOCK row.
pub(crate) fn stock_record(
    layout: Layout,
    key: &StockKey,
    before: &Stock,
    after: &Stock,
) -> OwnRecord
    ensures { record_of_own result ≡ record_in layout (UpdateStock key.now after.now)
        (Some (Row.Stock before.now)) }
{
    match layout {
        Layout::WholeRows => OwnRecord::UpdatedStock(*key, before.copied()),
        Layout::ChangedColumns => { OwnRecord::ChangedStock(*key, StockBefore::of(before, after)) }
    }
}
