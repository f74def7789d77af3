//! Payments, queries and deliveries (clauses 2.5.1, 2.6.1, 2.7.1 and 2.8.1).
ghost use Rattle.std.specs.Prelude.{◌≡◌};
ghost use Rattle.oe_terms.specs.Errands.{payment, order_status, delivery, stock_level};

use crate::columns::{choice, district_in, home, residence, stamp_of};
use crate::draws::number_in;
use crate::errands::RequestPlace;
use oe_requests::{DeliveriesRequest, LevelQuery, PaymentRequest, StatusQuery};
use oe_rows::{DistrictKey, Scale, WarehouseKey};
use oe_values::Terminal;
use oe_values::known::number;
use rand_pcg::Lcg64Xsh32;

/// Draws a payment, of 1.00 to 5,000.00 (clause 2.5.1.3).
pub fn payment(
    scale: &Scale,
    terminal: Terminal,
    r: RequestPlace,
    words: &mut Lcg64Xsh32,
) -> PaymentRequest
    ensures { (result, words.new) ≡ payment scale.now terminal r words.old }
{
    let district = district_in(home(scale, terminal), words);
    let customer_district = residence(scale, &district, words);
    let customer = choice(scale.customers, words);
    let amount = number_in(words);
    PaymentRequest {
        district,
        customer_district,
        customer,
        amount,
        stamp: stamp_of(r),
    }
}

/// Draws an order status.
pub fn order_status(scale: &Scale, terminal: Terminal, words: &mut Lcg64Xsh32) -> StatusQuery
    ensures { (result, words.new) ≡ order_status scale.now terminal words.old }
{
    let district = district_in(home(scale, terminal), words);
    let customer = choice(scale.customers, words);
    StatusQuery { district, customer }
}

/// Draws a delivery of the terminal's warehouse.
pub fn delivery(
    scale: &Scale,
    terminal: Terminal,
    r: RequestPlace,
    words: &mut Lcg64Xsh32,
) -> DeliveriesRequest
    ensures { (result, words.new) ≡ delivery scale.now terminal r words.old }
{
    DeliveriesRequest {
        warehouse: WarehouseKey {
            warehouse: home(scale, terminal),
        },
        carrier: number_in(words),
        stamp: stamp_of(r),
    }
}

/// Draws a stock level of the terminal's own district (clause 2.8.1.1).
pub fn stock_level(scale: &Scale, terminal: Terminal, words: &mut Lcg64Xsh32) -> LevelQuery
    ensures { (result, words.new) ≡ stock_level scale.now terminal words.old }
{
    LevelQuery {
        district: DistrictKey {
            warehouse: home(scale, terminal),
            district: number(1 + (terminal.get() - 1) % 10),
        },
        threshold: number_in(words),
    }
}
