//! Columns before an update, put back on the row where it lies. No call takes memory, and none can
//! fail.
ghost use Rattle.std.specs.Prelude.{◌≡◌};
ghost use Rattle.std.specs.Option.{unwrap_or};
ghost use Rattle.oe_rows.specs.Before.{with_texts, with_address, with_warehouse, with_district, with_customer_name, with_account};
ghost use Rattle.oe_rows.specs.Before.{with_customer, with_order, with_order_line, with_stock};

use crate::before::{
    AccountBefore, AddressBefore, CustomerBefore, CustomerNameBefore, DistrictBefore, OrderBefore,
    OrderLineBefore, StockBefore, WarehouseBefore,
};
use crate::customers::{Account, Customer, CustomerName};
use crate::districts::District;
use crate::items::Stock;
use crate::orders::{Order, OrderLine};
use crate::warehouses::{Address, Warehouse};
use oe_values::BrandText;
use oe_values::texts::Text;

/// Puts a column back that is there.
#[inline(always)]
fn put<T: Copy>(column: &mut T, before: Option<T>)
    ensures { column.new ≡ unwrap_or before column.old }
{
    if let Some(value) = before {
        *column = value;
    }
}

/// Puts a text back that is there.
#[inline(always)]
fn put_text<const LEAST: usize, const MOST: usize>(
    column: &mut Text<LEAST, MOST>,
    before: Option<Text<LEAST, MOST>>,
)
    ensures { column.new ≡ unwrap_or before.entry column.old }
{
    if let Some(text) = before {
        *column = text;
    }
}

/// Puts the text of an item's stock back that is there.
fn put_brand(column: &mut BrandText, before: Option<Text<0, 50>>)
    ensures { column.new ≡ unwrap_or before column.old }
{
    if let Some(text) = before {
        *column = BrandText::of(text);
    }
}

/// Gives the text before where it is there, and else the one that stands.
fn text_back(before: &Option<Text<24, 24>>, now: &Text<24, 24>) -> Text<24, 24>
    ensures { result ≡ unwrap_or before.now now.now }
{
    match before {
        Some(text) => text.copied(),
        None => now.copied(),
    }
}

/// Gives ten texts with those put back that are there.
fn ten_back(before: &[Option<Text<24, 24>>; 10], now: &[Text<24, 24>; 10]) -> [Text<24, 24>; 10]
    ensures { result ≡ with_texts before.now now.now }
{
    [
        text_back(&before[0], &now[0]),
        text_back(&before[1], &now[1]),
        text_back(&before[2], &now[2]),
        text_back(&before[3], &now[3]),
        text_back(&before[4], &now[4]),
        text_back(&before[5], &now[5]),
        text_back(&before[6], &now[6]),
        text_back(&before[7], &now[7]),
        text_back(&before[8], &now[8]),
        text_back(&before[9], &now[9]),
    ]
}

impl AddressBefore {
    /// Puts the columns back that are there.
    pub fn put_on(self, address: &mut Address)
        ensures { address.new ≡ with_address self address.old }
    {
        put_text(&mut address.street_1, self.street_1);
        put_text(&mut address.street_2, self.street_2);
        put_text(&mut address.city, self.city);
        put_text(&mut address.state, self.state);
        put_text(&mut address.zip, self.zip);
    }
}

impl WarehouseBefore {
    /// Puts the columns back that are there.
    pub fn put_on(self, row: &mut Warehouse)
        ensures { row.new ≡ with_warehouse self row.old }
    {
        put_text(&mut row.name, self.name);
        self.address.put_on(&mut row.address);
        put(&mut row.tax, self.tax);
        put(&mut row.ytd, self.ytd);
    }
}

impl DistrictBefore {
    /// Puts the columns back that are there.
    pub fn put_on(self, row: &mut District)
        ensures { row.new ≡ with_district self row.old }
    {
        put_text(&mut row.name, self.name);
        self.address.put_on(&mut row.address);
        put(&mut row.tax, self.tax);
        put(&mut row.ytd, self.ytd);
        put(&mut row.next_order, self.next_order);
    }
}

impl CustomerNameBefore {
    /// Puts the columns back that are there.
    pub fn put_on(self, name: &mut CustomerName)
        ensures { name.new ≡ with_customer_name self name.old }
    {
        put_text(&mut name.first, self.first);
        put_text(&mut name.middle, self.middle);
        put_text(&mut name.last, self.last);
    }
}

impl AccountBefore {
    /// Puts the columns back that are there.
    pub fn put_on(self, account: &mut Account)
        ensures { account.new ≡ with_account self account.old }
    {
        put(&mut account.credit_limit, self.credit_limit);
        put(&mut account.discount, self.discount);
        put(&mut account.balance, self.balance);
        put(&mut account.ytd_payment, self.ytd_payment);
        put(&mut account.payment_count, self.payment_count);
        put(&mut account.delivery_count, self.delivery_count);
    }
}

impl CustomerBefore {
    /// Puts the columns back that are there.
    pub fn put_on(self, row: &mut Customer)
        ensures { row.new ≡ with_customer self row.old }
    {
        self.name.put_on(&mut row.name);
        self.address.put_on(&mut row.address);
        put_text(&mut row.phone, self.phone);
        put(&mut row.since, self.since);
        put(&mut row.credit, self.credit);
        self.account.put_on(&mut row.account);
        put_text(&mut row.data, self.data);
    }
}

impl OrderBefore {
    /// Puts the columns back that are there.
    pub fn put_on(self, row: &mut Order)
        ensures { row.new ≡ with_order self row.old }
    {
        put(&mut row.customer, self.customer);
        put(&mut row.entry, self.entry);
        put(&mut row.carrier, self.carrier);
        put(&mut row.line_count, self.line_count);
        put(&mut row.all_local, self.all_local);
    }
}

impl OrderLineBefore {
    /// Puts the columns back that are there.
    pub fn put_on(self, row: &mut OrderLine)
        ensures { row.new ≡ with_order_line self row.old }
    {
        put(&mut row.item, self.item);
        put(&mut row.supply, self.supply);
        put(&mut row.delivery, self.delivery);
        put(&mut row.quantity, self.quantity);
        put(&mut row.amount, self.amount);
        put_text(&mut row.dist_info, self.dist_info);
    }
}

impl StockBefore {
    /// Puts the columns back that are there.
    pub fn put_on(self, row: &mut Stock)
        ensures { row.new ≡ with_stock self row.old }
    {
        put(&mut row.quantity, self.quantity);
        row.dist_info = ten_back(&self.dist_info, &row.dist_info);
        put(&mut row.ytd, self.ytd);
        put(&mut row.order_count, self.order_count);
        put(&mut row.remote_count, self.remote_count);
        put_brand(&mut row.data, self.data);
    }
}
