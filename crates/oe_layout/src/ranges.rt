//! The ranges of a record's columns, which the types keep. The functions change nothing: each tells
//! proofs above, which see no type's range, what holds of its values.
ghost use Rattle.std.specs.Prelude.{◌≡◌, ◌≤◌, ◌<◌, IfSome, option_map};
ghost use Rattle.std.specs.Int.{IsInRange};
ghost use Rattle.oe_values.specs.Number.{IsWithin};
ghost use Rattle.oe_values.specs.Text.{IsText};
ghost use Rattle.oe_values.specs.declared.stamps.TheConstants.{SECONDS};
ghost use Rattle.oe_rows.specs.Warehouse.{IsWarehouse};
ghost use Rattle.oe_rows.specs.District.{IsDistrict};
ghost use Rattle.oe_rows.specs.Customer.{IsCustomer};
ghost use Rattle.oe_rows.specs.Order.{IsOrder, IsOrderLine};
ghost use Rattle.oe_rows.specs.Item.{IsStock};
ghost use Rattle.oe_image.specs.Keys.{IsWarehouseKey, IsHistoryKey, IsNewOrderKey, IsOrderKey, IsOrderLineKey, IsStockKey};
ghost use Rattle.oe_rows.specs.Key.{IsDistrictKey, IsCustomerKey};
ghost use Rattle.oe_image.specs.Parts.{warehouse_part, district_part, customer_part};
ghost use Rattle.oe_image.specs.Parts.{customer_name_part, order_part, order_line_part, stock_part};
ghost use Rattle.oe_decode.specs.BeforeRanges.{IsAccountBefore};
ghost use Rattle.oe_decode.specs.BeforeRanges.{IsWarehouseBefore, IsDistrictBefore};
ghost use Rattle.oe_decode.specs.BeforeRanges.{IsCustomerBefore, IsOrderBefore, IsOrderLineBefore};
ghost use Rattle.oe_decode.specs.BeforeRanges.{IsStockBefore};
ghost use Rattle.oe_layout.specs.Links.{IsAddress, IsPrevious};
ghost use Rattle.oe_layout.specs.Records.{record_of_lent, IsInRanges};

use crate::links::Previous;
use crate::loans::{LentRecord, LinkedRecord};
use oe_extent::Address;
use oe_image::parts::{
    CustomerNamePart, CustomerPart, DistrictPart, OrderLinePart, OrderPart, StockPart,
    WarehousePart,
};
use oe_rows::before::AccountBefore;
use oe_rows::customers::Customer;
use oe_rows::districts::District;
use oe_rows::items::Stock;
use oe_rows::orders::{Order, OrderLine};
use oe_rows::warehouses::Warehouse;
use oe_rows::{
    CustomerKey, DistrictKey, HistoryKey, NewOrderKey, OrderKey, OrderLineKey, StockKey,
    WarehouseKey,
};
use oe_values::numbers::{Amount, Balance, Carrier, Number};
use oe_values::stamps::Stamp;
use oe_values::texts::Text;

fn history_key(key: &HistoryKey)
    ensures { IsHistoryKey key.now }
{
    let _terminal = key.terminal.get();
    let _number = key.number.get();
    let _ordinal = key.ordinal.get();
}

fn new_order_key(key: &NewOrderKey)
    ensures { IsNewOrderKey key.now }
{
    let _warehouse = key.warehouse.get();
    let _district = key.district.get();
    let _order = key.order.get();
}

fn order_key(key: &OrderKey)
    ensures { IsOrderKey key.now }
{
    let _warehouse = key.warehouse.get();
    let _district = key.district.get();
    let _order = key.order.get();
}

fn order_line_key(key: &OrderLineKey)
    ensures { IsOrderLineKey key.now }
{
    let _warehouse = key.warehouse.get();
    let _district = key.district.get();
    let _order = key.order.get();
    let _number = key.number.get();
}

fn warehouse(key: &WarehouseKey, row: &Warehouse)
    ensures key { IsWarehouseKey key.now }
    ensures row { IsWarehouse row.now }
{
    let _warehouse = key.warehouse.get();
    let _figures = row.figures();
}

fn district(key: &DistrictKey, row: &District)
    ensures key { IsDistrictKey key.now }
    ensures row { IsDistrict row.now }
{
    let _columns = key.columns();
    let _figures = row.figures();
}

fn customer(key: &CustomerKey, row: &Customer)
    ensures key { IsCustomerKey key.now }
    ensures row { IsCustomer row.now }
{
    let _columns = key.columns();
    let _texts = row.texts();
}

fn order(key: &OrderKey, row: &Order)
    ensures key { IsOrderKey key.now }
    ensures row { IsOrder row.now }
{
    order_key(key);
    let _figures = row.figures();
}

fn order_line(key: &OrderLineKey, row: &OrderLine)
    ensures key { IsOrderLineKey key.now }
    ensures row { IsOrderLine row.now }
{
    order_line_key(key);
    let _figures = row.figures();
}

fn stock(key: &StockKey, row: &Stock)
    ensures key { IsStockKey key.now }
    ensures row { IsStock row.now }
{
    let _warehouse = key.warehouse.get();
    let _item = key.item.get();
    let _figures = row.figures();
}

fn number<const LOW: u32, const HIGH: u32>(column: &Option<Number<LOW, HIGH>>)
    ensures { IfSome column.now (IsInRange LOW HIGH) }
{
    if let Some(number) = column {
        let _number = number.get();
    }
}

fn count<const LOW: u32, const HIGH: u32>(column: &Option<Number<LOW, HIGH>>)
    ensures { IfSome column.now (λ n. n ≤ HIGH) }
{
    if let Some(number) = column {
        let _number = number.get();
    }
}

fn amount<const MOST: u64>(column: &Option<Amount<MOST>>)
    ensures { IfSome column.now (λ n. n ≤ MOST) }
{
    if let Some(amount) = column {
        let _cents = amount.cents();
    }
}

fn balance(column: &Option<Balance>)
    ensures { IfSome column.now (IsWithin 999_999_999_999) }
{
    if let Some(balance) = column {
        let _cents = balance.cents();
    }
}

fn stamp(column: &Option<Stamp>)
    ensures { IfSome column.now (λ s. s < SECONDS) }
{
    if let Some(stamp) = column {
        let _seconds = stamp.seconds();
    }
}

fn delivery(column: &Option<Option<Stamp>>)
    ensures { IfSome column.now (λ s. IfSome s (λ t. t < SECONDS)) }
{
    if let Some(delivery) = column {
        stamp(delivery);
    }
}

fn carrier(column: &Option<Option<Carrier>>)
    ensures { IfSome column.now (λ c. IfSome c (IsInRange 1 10)) }
{
    if let Some(carrier) = column {
        number(carrier);
    }
}

fn lent_text<const MOST: usize>(column: &Option<&Text<0, MOST>>)
    ensures { IfSome (option_map (λ t. t.now) column.now) (IsText 0 MOST) }
{
    if let Some(text) = column {
        let _text = text.as_str();
    }
}

fn account_columns(columns: &AccountBefore)
    ensures { IsAccountBefore columns.now }
{
    amount(&columns.credit_limit);
    count(&columns.discount);
    balance(&columns.balance);
    amount(&columns.ytd_payment);
    count(&columns.payment_count);
    count(&columns.delivery_count);
}

fn warehouse_part(key: &WarehouseKey, part: &WarehousePart)
    ensures key { IsWarehouseKey key.now }
    ensures part { IsWarehouseBefore (warehouse_part part.now) }
{
    let _warehouse = key.warehouse.get();
    amount(&part.ytd);
}

fn district_part(key: &DistrictKey, part: &DistrictPart)
    ensures key { IsDistrictKey key.now }
    ensures part { IsDistrictBefore (district_part part.now) }
{
    let _columns = key.columns();
    amount(&part.ytd);
    number(&part.next_order);
}

fn customer_part(key: &CustomerKey, part: &CustomerPart<'_>)
    ensures key { IsCustomerKey key.now }
    ensures part { IsCustomerBefore (customer_part part.now) }
{
    let _columns = key.columns();
    account_columns(&AccountBefore::of(part.before, part.after));
    lent_text(&part.data);
}

fn customer_name_part(key: &CustomerKey, part: &CustomerNamePart<'_>)
    ensures key { IsCustomerKey key.now }
    ensures part { IsCustomerBefore (customer_name_part part.now) }
{
    let _columns = key.columns();
    lent_text(&part.first);
    lent_text(&part.last);
}

fn order_part(key: &OrderKey, part: &OrderPart)
    ensures key { IsOrderKey key.now }
    ensures part { IsOrderBefore (order_part part.now) }
{
    order_key(key);
    carrier(&part.carrier);
}

fn order_line_part(key: &OrderLineKey, part: &OrderLinePart)
    ensures key { IsOrderLineKey key.now }
    ensures part { IsOrderLineBefore (order_line_part part.now) }
{
    order_line_key(key);
    delivery(&part.delivery);
}

fn stock_part(key: &StockKey, part: &StockPart)
    ensures key { IsStockKey key.now }
    ensures part { IsStockBefore (stock_part part.now) }
{
    let _warehouse = key.warehouse.get();
    let _item = key.item.get();
    count(&part.quantity);
    count(&part.ytd);
    count(&part.order_count);
    count(&part.remote_count);
}

fn address(address: &Address)
    ensures { IsAddress address.now }
{
    let _extent = address.extent.get();
    let _offset = address.offset.get();
}

impl Previous {
    fn ranges(&self)
        ensures { IsPrevious self.now }
    {
        match self {
            Previous::Nothing => {}
            Previous::Own(place) => address(place),
            Previous::Committed(place, moment) => {
                address(place);
                let _moment = moment.get();
            }
        }
    }
}

impl<'a> LentRecord<'a> {
    fn ranges(&self)
        ensures { IsInRanges (record_of_lent self.now) }
    {
        match self {
            LentRecord::InsertedHistory(key) => history_key(key),
            LentRecord::InsertedNewOrder(key) => new_order_key(key),
            LentRecord::InsertedOrder(key) => order_key(key),
            LentRecord::InsertedOrderLine(key) => order_line_key(key),
            LentRecord::UpdatedWarehouse(key, row) => warehouse(key, row),
            LentRecord::UpdatedDistrict(key, row) => district(key, row),
            LentRecord::UpdatedCustomer(key, row) => customer(key, row),
            LentRecord::UpdatedOrder(key, row) => order(key, row),
            LentRecord::UpdatedOrderLine(key, row) => order_line(key, row),
            LentRecord::UpdatedStock(key, row) => stock(key, row),
            LentRecord::DeletedNewOrder(key) => new_order_key(key),
            LentRecord::ChangedWarehouse(key, part) => warehouse_part(key, part),
            LentRecord::ChangedDistrict(key, part) => district_part(key, part),
            LentRecord::ChangedCustomer(key, part) => customer_part(key, part),
            LentRecord::RenamedCustomer(key, part) => customer_name_part(key, part),
            LentRecord::ChangedOrder(key, part) => order_part(key, part),
            LentRecord::ChangedOrderLine(key, part) => order_line_part(key, part),
            LentRecord::ChangedStock(key, part) => stock_part(key, part),
        }
    }
}

impl<'a> LinkedRecord<'a> {
    /// States that its link, its key and what it has of the row before are in their ranges.
    pub fn ranges(&self)
        ensures link { IsPrevious self.now.previous }
        ensures record { IsInRanges (record_of_lent self.now.record) }
    {
        self.previous.ranges();
        self.record.ranges();
    }
}
