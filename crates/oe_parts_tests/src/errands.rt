//! Errands beside those of a program in another language, which draws by the same rules: a digest
//! of each column of 10,000 errands, and how many were of what happens 1, 15 or 60 times in 100.
use oe_requests::{
    CustomerChoice, DeliveriesRequest, Errand, NewOrderRequest, PaymentRequest, Query, Request,
    RequestLine,
};
use oe_rows::Scale;
use oe_terms::{errand, request, words};
use oe_values::{Number, Stamp};

/// A digest of columns, and how often what was drawn was the rarer, or the other warehouse's, or by
/// name.
#[derive(Drop)]
struct Tally {
    digest: u32,
    unused_items: u32,
    remote_lines: u32,
    remote_payments: u32,
    names: u32,
}

fn scale(warehouses: u32, customers: u32, items: u32) -> Option<Scale> {
    Some(Scale {
        warehouses: Number::new(warehouses)?,
        customers: Number::new(customers)?,
        items: Number::new(items)?,
    })
}

/// Gives the last 32 bits of a stamp's seconds, as a digest has them.
fn short(stamp: Stamp) -> u32 {
    (stamp.seconds() & 0xffff_ffff) as u32
}

/// Adds columns to the digest.
fn add(tally: &mut Tally, columns: &[u32]) {
    for column in columns {
        tally.digest = tally.digest.wrapping_mul(31).wrapping_add(*column);
    }
}

/// Adds a customer's number, or each byte of its name.
fn add_customer(tally: &mut Tally, customer: &CustomerChoice) {
    match customer {
        CustomerChoice::Number(number) => add(tally, &[number.get()]),
        CustomerChoice::LastName(name) => {
            tally.names = tally.names.saturating_add(1);
            for byte in name.as_str().as_bytes() {
                add(tally, &[u32::from(*byte)]);
            }
        }
    }
}

/// Adds a line of an order in `warehouse`, of items up to `items`.
fn add_line(tally: &mut Tally, line: &RequestLine, warehouse: u32, items: u32) {
    let supply = line.supply.get();
    let item = line.item.get();
    add(tally, &[supply, item, line.quantity.get()]);
    if item > items {
        tally.unused_items = tally.unused_items.saturating_add(1);
    }
    if supply != warehouse {
        tally.remote_lines = tally.remote_lines.saturating_add(1);
    }
}

fn add_order(tally: &mut Tally, order: &NewOrderRequest, items: u32) {
    let warehouse = order.district.warehouse.get();
    let district = order.district.district.get();
    let customer = order.customer.get();
    add(
        tally,
        &[1, warehouse, district, customer, short(order.stamp)],
    );
    for line in order.lines.as_slice() {
        add_line(tally, line, warehouse, items);
    }
}

fn add_payment(tally: &mut Tally, payment: &PaymentRequest) {
    let warehouse = payment.district.warehouse.get();
    let district = payment.district.district.get();
    let home = payment.customer_district.warehouse.get();
    let home_district = payment.customer_district.district.get();
    add(tally, &[2, warehouse, district, home, home_district]);
    if home != warehouse {
        tally.remote_payments = tally.remote_payments.saturating_add(1);
    }
    add_customer(tally, &payment.customer);
    add(tally, &[payment.amount.get(), short(payment.stamp)]);
}

fn add_query(tally: &mut Tally, query: &Query) {
    match query {
        Query::Status(status) => {
            let warehouse = status.district.warehouse.get();
            add(tally, &[3, warehouse, status.district.district.get()]);
            add_customer(tally, &status.customer);
        }
        Query::Level(level) => {
            let warehouse = level.district.warehouse.get();
            let district = level.district.district.get();
            add(tally, &[5, warehouse, district, level.threshold.get()]);
        }
    }
}

fn add_delivery(tally: &mut Tally, delivery: &DeliveriesRequest) {
    let warehouse = delivery.warehouse.warehouse.get();
    add(
        tally,
        &[4, warehouse, delivery.carrier.get(), short(delivery.stamp)],
    );
}

fn add_errand(tally: &mut Tally, errand: &Errand, items: u32) {
    match errand {
        Errand::Begin(Request::NewOrder(order)) => add_order(tally, order, items),
        Errand::Begin(Request::Payment(payment)) => add_payment(tally, payment),
        Errand::Begin(_) => tally.digest = 0,
        Errand::Read(query) => add_query(tally, query),
        Errand::Deliver(delivery) => add_delivery(tally, delivery),
    }
}

/// Adds the first 1,000 errands of one terminal.
fn add_terminal(tally: &mut Tally, scale: &Scale, seed: u32, number: u32) -> Option<()> {
    let terminal = Number::new(number)?;
    let mut words = words(seed, terminal);
    for number in 1..1_001u32 {
        let drawn = errand(scale, terminal, Number::new(number)?, &mut words);
        add_errand(tally, &drawn, scale.items.get());
    }
    Some(())
}

/// Makes the tally of 10,000 errands: those of terminals 1 to 10.
fn tally_of_ten(scale: &Scale, seed: u32) -> Option<Tally> {
    let mut tally = Tally {
        digest: 0,
        unused_items: 0,
        remote_lines: 0,
        remote_payments: 0,
        names: 0,
    };
    for number in 1..11u32 {
        add_terminal(&mut tally, scale, seed, number)?;
    }
    Some(tally)
}

/// Gives a payment's district, its customer's warehouse and district, and its amount in cents, if
/// terminal 3 sends one as its second errand.
fn second_payment(scale: &Scale) -> Option<[u32; 4]> {
    match request(scale, 42, Number::new(3)?, Number::new(2)?) {
        Errand::Begin(Request::Payment(payment)) => Some([
            payment.district.district.get(),
            payment.customer_district.warehouse.get(),
            payment.customer_district.district.get(),
            payment.amount.get(),
        ]),
        _ => None,
    }
}

#[test]
fn errands_are_those_of_another_program(rt: HostRuntime) {
    let (Some(standard), Some(small)) = (scale(4, 3_000, 100_000), scale(2, 30, 100)) else {
        panic!(rt; "a scale")
    };
    let (Some(of_standard), Some(of_small)) = (tally_of_ten(&standard, 1), tally_of_ten(&small, 42))
    else {
        panic!(rt; "a terminal")
    };
    assert!(rt; of_standard.digest == 1_358_146_146 && of_small.digest == 3_694_931_880);
    assert!(rt; of_standard.unused_items == 21 && of_standard.remote_lines == 177);
    assert!(rt; of_standard.remote_payments == 318 && of_standard.names == 2_380);
    assert!(rt; second_payment(&small) == Some([2, 2, 4, 266_324]));
}
