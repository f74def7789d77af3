//! Rows that are read early. A transaction that is about to take rows reads a byte of each of their
//! lines of memory first: these reads wait for memory together, and its own one behind the other.
//! What a touch gives has no meaning; whoever keeps it keeps the reads from being left out.
use crate::tables::Tables;
use oe_rows::{Customer, CustomerKey, Item, ItemKey, Layout, Stock, StockKey};
use oe_values::DistrictNumber;

// Reads the first byte of a text.
fn first_byte(text: &str) -> u32 {
    match text.as_bytes().first() {
        Some(byte) => u32::from(*byte),
        None => 0,
    }
}

// Touches an ITEM row.
fn touched_item(item: &Item) -> u32 {
    first_byte(item.name.as_str())
}

// Touches the counters of a STOCK row, and its text of a district.
fn touched_counters(stock: &Stock, district: DistrictNumber) -> u32 {
    stock.quantity.get() ^ first_byte(stock.district_info(district).as_str())
}

// Touches all lines of a STOCK row.
fn touched_stock(stock: &Stock) -> u32 {
    let mut joined = stock.quantity.get();
    for text in &stock.dist_info {
        joined ^= first_byte(text.as_str());
    }
    joined
}

// Touches name and account of a CUSTOMER row.
fn touched_account(customer: &Customer) -> u32 {
    customer.account.payment_count.get() ^ first_byte(customer.name.last.as_str())
}

// Touches all lines of a CUSTOMER row.
fn touched_customer(customer: &Customer) -> u32 {
    let mut joined = touched_account(customer) ^ first_byte(customer.phone.as_str());
    for byte in customer.data.as_str().as_bytes().iter().step_by(64) {
        joined ^= u32::from(*byte);
    }
    joined
}

impl Tables {
    /// Touches an ITEM row, and of its STOCK row what an order of that district takes: its
    /// counters and a text, or the whole, where records keep whole rows.
    #[inline(never)]
    pub fn touch_stock(&self, key: StockKey, district: DistrictNumber, layout: Layout) -> u32 {
        let item = match self.item(ItemKey { item: key.item }) {
            Some(item) => touched_item(item),
            None => 0,
        };
        let Some(stock) = self.stock(key) else {
            return item;
        };
        match layout {
            Layout::WholeRows => item ^ touched_stock(stock),
            Layout::ChangedColumns => item ^ touched_counters(stock, district),
        }
    }

    /// Touches name and account of a CUSTOMER row, which an order reads.
    #[inline(never)]
    pub fn touch_account(&self, key: CustomerKey) -> u32 {
        match self.customer(key) {
            Some(customer) => touched_account(customer),
            None => 0,
        }
    }

    /// Touches of a CUSTOMER row what a payment takes: name and account, or the whole, where
    /// records keep whole rows.
    #[inline(never)]
    pub fn touch_customer(&self, key: CustomerKey, layout: Layout) -> u32 {
        let Some(customer) = self.customer(key) else {
            return 0;
        };
        match layout {
            Layout::WholeRows => touched_customer(customer),
            Layout::ChangedColumns => touched_account(customer),
        }
    }
}
