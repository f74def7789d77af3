//! Whether the warehouse of a query is there; a query of another is refused.
ghost use Rattle.std.specs.Prelude.{◌≡◌, [], ◌∷◌};
ghost use Rattle.oe_model.specs.Requests.{first_absent};
ghost use Rattle.oe_store.specs.Places.{rows};

use oe_requests::Refusal;
use oe_rows::{Key, WarehouseKey};
use oe_store::Tables;
use oe_values::WarehouseNumber;

/// Gives `NoSuchRow` of a warehouse that isn't there.
pub fn absent(tables: &Tables, warehouse: WarehouseNumber) -> Option<Refusal>
    ensures { result ≡ first_absent (warehouse ∷ []) (rows tables.now) }
{
    match tables.warehouse(WarehouseKey { warehouse }) {
        Some(_) => None,
        None => Some(Refusal::NoSuchRow(Key::Warehouse(WarehouseKey { warehouse }))),
    }
}
