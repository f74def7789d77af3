//! Why a request is turned away before anything else is looked at (clause 2.1.1 has warehouses 1 to
//! W).
ghost use Rattle.std.specs.Prelude.{◌≡◌, [], ◌∷◌, map};
ghost use Rattle.oe_model.specs.Requests.{first_absent};
ghost use Rattle.oe_model.specs.Requests as model;
ghost use Rattle.oe_store.specs.Places.{rows};

use oe_requests::{PaymentRequest, Refusal, Request, RequestLine};
use oe_rows::{Key, WarehouseKey};
use oe_store::Tables;
use oe_values::WarehouseNumber;

/// Gives `NoSuchRow` of a warehouse that isn't there.
#[inline]
fn absent(tables: &Tables, warehouse: WarehouseNumber) -> Option<Refusal>
    ensures { result ≡ first_absent (warehouse ∷ []) (rows tables.now) }
{
    match tables.warehouse(WarehouseKey { warehouse }) {
        Some(_) => None,
        None => Some(Refusal::NoSuchRow(Key::Warehouse(WarehouseKey { warehouse }))),
    }
}

/// Gives `NoSuchRow` of the first of a payment's two warehouses that isn't there. They are mostly
/// one, which is then looked up once.
#[inline]
fn absent_of_payment(tables: &Tables, payment: &PaymentRequest) -> Option<Refusal>
    ensures { result ≡ first_absent (payment.now.district.warehouse
        ∷ payment.now.customer_district.warehouse ∷ []) (rows tables.now) }
{
    let first = payment.district.warehouse;
    let second = payment.customer_district.warehouse;
    if let Some(refusal) = absent(tables, first) {
        return Some(refusal);
    }
    if second == first {
        return None;
    }
    absent(tables, second)
}

/// Gives `NoSuchRow` of the first warehouse, in line order, that is to supply an item and isn't
/// there.
fn absent_supply(tables: &Tables, lines: &[RequestLine]) -> Option<Refusal>
    ensures { result ≡ first_absent (map (λ l. l.supply) lines.now) (rows tables.now) }
{
    for line in lines {
        if let Some(refusal) = absent(tables, line.supply) {
            return Some(refusal);
        }
    }
    None
}

/// Gives `NoSuchRow` of the first warehouse, from the left, that the request names and that isn't
/// there.
pub fn rejection(tables: &Tables, request: &Request) -> Option<Refusal>
    ensures { result ≡ model.rejection request.now (rows tables.now) }
{
    match request {
        Request::Payment(payment) => absent_of_payment(tables, payment),
        Request::NewOrder(order) => match absent(tables, order.district.warehouse) {
            Some(refusal) => Some(refusal),
            None => absent_supply(tables, order.lines.as_slice()),
        },
        Request::Delivery(delivery) => absent(tables, delivery.district.warehouse),
        Request::Deliveries(deliveries) => absent(tables, deliveries.warehouse.warehouse),
        Request::Rename(rename) => absent(tables, rename.customer.warehouse),
    }
}
