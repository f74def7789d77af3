//! The rows that the population's formulas give, each equal to the model's row of that key.
ghost use Rattle.std.specs.Prelude.{◌≡◌, ◌≤◌};
ghost use Rattle.oe_model.specs.Population.{address_of, warehouse_of, district_of, customer_of, history_of, history_key, order_of, line_of, item_of, stock_of, last_delivered, lines_of, start};

use crate::texts::{alphabet, dist_info, name_of, numbered, plain, zip};
use oe_rows::{
    Account, Address, Credit, Customer, CustomerKey, CustomerName, District, History, HistoryKey,
    Item, Order, OrderLine, OrderLineKey, Scale, Stock, StockKey, Warehouse,
};
use oe_values::known::{amount, number};
use oe_values::{
    Balance, BrandText, CustomerNumber, DistrictNumber, ItemNumber, LineCount, Stamp,
    WarehouseNumber,
};

/// Gives the stamp of all rows: 2000-01-01T00:00:00.
fn first_stamp() -> Stamp
    ensures { result ≡ start }
{
    match Stamp::from_seconds(3_155_673_600) {
        Some(stamp) => stamp,
        None => unreachable!(),
    }
}

fn address(number: u32) -> Address
    ensures { result ≡ address_of number }
{
    Address {
        street_1: plain("STREET1"),
        street_2: plain("STREET2"),
        city: plain("CITY"),
        state: plain("ST"),
        zip: zip(number),
    }
}

pub(crate) fn warehouse_row(scale: &Scale, warehouse: WarehouseNumber) -> Warehouse
    ensures { result ≡ warehouse_of scale.now warehouse }
{
    let w = warehouse.get();
    Warehouse {
        name: numbered("WARE", w, 2),
        address: address(w),
        tax: number(100 * w % 2_001),
        ytd: amount(u64::from(scale.customers.get()) * 10_000),
    }
}

pub(crate) fn district_row(scale: &Scale, district: DistrictNumber) -> District
    ensures { result ≡ district_of scale.now district }
{
    let d = district.get();
    let customers = scale.customers.get();
    District {
        name: numbered("DIST", d, 2),
        address: address(d),
        tax: number(50 * d % 2_001),
        ytd: amount(u64::from(customers) * 1_000),
        next_order: number(customers + 1),
    }
}

fn customer_name(customer: u32) -> CustomerName
    requires low { 1 ≤ customer }
    requires high { customer ≤ 3_000 }
    ensures { result ≡ (customer_of customer).name }
{
    CustomerName {
        first: numbered("F", 10_000 - customer, 5),
        middle: plain("OE"),
        last: name_of((customer - 1) % 1_000),
    }
}

fn customer_account(customer: u32) -> Account
    requires { customer ≤ 3_000 }
    ensures { result ≡ (customer_of customer).account }
{
    let Some(balance) = Balance::new(-1_000) else {
        unreachable!()
    };
    Account {
        credit_limit: amount(5_000_000),
        discount: number(10 * customer % 5_001),
        balance,
        ytd_payment: amount(1_000),
        payment_count: number(1),
        delivery_count: number(0),
    }
}

pub(crate) fn customer_row(customer: CustomerNumber) -> Customer
    ensures { result ≡ customer_of customer }
{
    let c = customer.get();
    let (credit, length) = if c % 10 == 0 {
        (Credit::Bad, 500)
    } else {
        (Credit::Good, 300)
    };
    Customer {
        name: customer_name(c),
        address: address(c),
        phone: numbered("", c, 16),
        since: first_stamp(),
        credit,
        account: customer_account(c),
        data: alphabet(length, c),
    }
}

/// Gives the key of the history of a customer: customers are counted from 1 in the order of their
/// keys.
pub(crate) fn history_key_of(scale: &Scale, customer: &CustomerKey) -> HistoryKey
    ensures { result ≡ history_key scale.now customer.now }
{
    let ordinal = (customer.warehouse.get() - 1) * 10 + (customer.district.get() - 1);
    HistoryKey {
        terminal: number(0),
        number: number(ordinal * scale.customers.get() + customer.customer.get()),
        ordinal: number(1),
    }
}

pub(crate) fn history_row(customer: CustomerKey) -> History
    ensures { result ≡ history_of customer }
{
    let payer = customer;
    History {
        customer: payer,
        district: customer.district_key(),
        date: first_stamp(),
        amount: amount(1_000),
        data: plain("INITIAL HISTORY"),
    }
}

/// Gives the last order of each district that is delivered: three in ten are not.
pub(crate) fn last_delivered_order(scale: &Scale) -> u32
    ensures { result ≡ last_delivered scale.now }
{
    let customers = scale.customers.get();
    customers - 3 * customers / 10
}

/// Gives the number of an order's lines.
pub(crate) fn line_count(order: u32) -> LineCount
    ensures { result ≡ lines_of order }
{
    number(5 + order % 11)
}

pub(crate) fn order_row(scale: &Scale, customer: CustomerNumber) -> Order
    ensures { result ≡ order_of scale.now customer }
{
    let order = customer.get();
    let carrier = if order <= last_delivered_order(scale) {
        Some(number(1 + order % 10))
    } else {
        None
    };
    Order {
        customer,
        entry: first_stamp(),
        carrier,
        line_count: line_count(order),
        all_local: true,
    }
}

pub(crate) fn line_row(scale: &Scale, key: &OrderLineKey) -> OrderLine
    ensures { result ≡ line_of scale.now key.now }
{
    let order = key.order.get();
    let line = key.number.get();
    let item = 1 + (7 * order + 3 * line) % scale.items.get();
    let (delivery, cents) = if order <= last_delivered_order(scale) {
        (Some(first_stamp()), 0)
    } else {
        (None, u64::from(1 + (97 * order + 31 * line) % 999_999))
    };
    OrderLine {
        item: number(item),
        supply: key.warehouse,
        delivery,
        quantity: number(5),
        amount: amount(cents),
        dist_info: dist_info(key.warehouse.get(), key.district.get(), item),
    }
}

pub(crate) fn item_row(item: ItemNumber) -> Item
    ensures { result ≡ item_of item }
{
    let i = item.get();
    let label = if i % 10 == 0 {
        "ORIGINAL-"
    } else {
        "ITEMDATA-"
    };
    Item {
        image: number(1 + i % 10_000),
        name: numbered("ITEM", i, 6),
        price: amount(u64::from(100 + 37 * i % 9_901)),
        data: BrandText::of(numbered(label, i, 6)),
    }
}

pub(crate) fn stock_row(key: &StockKey) -> Stock
    ensures { result ≡ stock_of key.now.warehouse key.now.item }
{
    let w = key.warehouse.get();
    let i = key.item.get();
    let label = if i % 20 == 0 {
        "ORIGINAL-"
    } else {
        "STOCKDATA-"
    };
    Stock {
        quantity: number(10 + (13 * i + w) % 91),
        dist_info: [
            dist_info(w, 1, i),
            dist_info(w, 2, i),
            dist_info(w, 3, i),
            dist_info(w, 4, i),
            dist_info(w, 5, i),
            dist_info(w, 6, i),
            dist_info(w, 7, i),
            dist_info(w, 8, i),
            dist_info(w, 9, i),
            dist_info(w, 10, i),
        ],
        ytd: number(0),
        order_count: number(0),
        remote_count: number(0),
        data: BrandText::of(numbered(label, i, 6)),
    }
}
