//! Keys, rows and addresses, whose values differ. `None` where one could not be made.
use oe_layout::{CommitMoment, Previous};
use oe_rows::{
    Address, DistrictKey, NewOrderKey, Order, OrderKey, Stock, StockKey, Warehouse, WarehouseKey,
};
use oe_values::BrandText;
use oe_values::numbers::{Amount, Number};
use oe_values::stamps::Stamp;
use oe_values::texts::Text;

pub(crate) fn district_key(warehouse: u32, district: u32) -> Option<DistrictKey> {
    Some(DistrictKey {
        warehouse: Number::new(warehouse)?,
        district: Number::new(district)?,
    })
}

fn warehouse_address() -> Option<Address> {
    Some(Address {
        street_1: Text::read("STREET1")?,
        street_2: Text::read("STREET2")?,
        city: Text::read("CITY")?,
        state: Text::read("ST")?,
        zip: Text::read("000111111")?,
    })
}

/// Makes warehouse 1 with `cents` as its year to date: 1,000.00 as it is populated at 10 customers
/// a district. Its record has 77 bytes.
pub(crate) fn warehouse(year_to_date: u64) -> Option<(WarehouseKey, Warehouse)> {
    let key = WarehouseKey {
        warehouse: Number::new(1)?,
    };
    let row = Warehouse {
        name: Text::read("WARE01")?,
        address: warehouse_address()?,
        tax: Number::new(100)?,
        ytd: Amount::new(year_to_date)?,
    };
    Some((key, row))
}

/// NEW-ORDER (1, 1, 8): its record has 25 bytes.
pub(crate) fn queue_entry() -> Option<NewOrderKey> {
    Some(NewOrderKey {
        warehouse: Number::new(1)?,
        district: Number::new(1)?,
        order: Number::new(8)?,
    })
}

/// ORDER (12, 3, 66051).
pub(crate) fn order_key() -> Option<OrderKey> {
    Some(OrderKey {
        warehouse: Number::new(12)?,
        district: Number::new(3)?,
        order: Number::new(66_051)?,
    })
}

/// Makes an order of this customer, not yet delivered: a record with its row has 38 bytes.
pub(crate) fn order(customer: u32) -> Option<Order> {
    Some(Order {
        customer: Number::new(customer)?,
        entry: Stamp::from_seconds(3_155_673_600)?,
        carrier: None,
        line_count: Number::new(14)?,
        all_local: true,
    })
}

/// Makes ten texts of two kinds.
fn ten_texts() -> Option<[Text<24, 24>; 10]> {
    let one = Text::read("STOCK-DIST-01-01-0000001")?;
    let other = Text::read("STOCK-DIST-01-10-0000001")?;
    Some([
        one.copied(),
        one.copied(),
        other.copied(),
        one.copied(),
        other.copied(),
        other.copied(),
        one.copied(),
        other.copied(),
        other.copied(),
        other,
    ])
}

pub(crate) fn stock_key(warehouse: u32, item: u32) -> Option<StockKey> {
    Some(StockKey {
        warehouse: Number::new(warehouse)?,
        item: Number::new(item)?,
    })
}

/// Makes a stock row after a sale of ten.
pub(crate) fn stock() -> Option<Stock> {
    Some(Stock {
        quantity: Number::new(14)?,
        dist_info: ten_texts()?,
        ytd: Number::new(10)?,
        order_count: Number::new(1)?,
        remote_count: Number::new(0)?,
        data: BrandText::of(Text::read("STOCKDATA-000001")?),
    })
}

pub(crate) fn address(extent: u32, offset: u32) -> Option<oe_extent::Address> {
    Some(oe_extent::Address {
        extent: Number::new(extent)?,
        offset: Number::new(offset)?,
    })
}

/// Makes a link to a record of the commit at a moment.
pub(crate) fn committed(extent: u32, offset: u32, moment: u64) -> Option<Previous> {
    Some(Previous::Committed(address(extent, offset)?, CommitMoment::new(moment)?))
}
