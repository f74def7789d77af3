//! Keys read from the front of bytes, exactly where a key's image stands there.
ghost use Rattle.std.specs.Prelude.{◌≡◌};
ghost use Rattle.std.proofs.Common.{rules};
ghost use Rattle.std.specs.Option.{option_map};
ghost use Rattle.oe_decode.specs.Fronts.{Reads};
ghost use Rattle.oe_rows.specs.Key.{IsDistrictKey, IsCustomerKey};
ghost use Rattle.oe_image.specs.Keys.{key_image, IsWarehouseKey, IsHistoryKey, IsNewOrderKey, IsOrderKey, IsOrderLineKey, IsItemKey, IsStockKey};
ghost use Rattle.oe_decode.specs.KeyFronts.{warehouse_key_at, district_key_at, customer_key_at, history_key_at, new_order_key_at, order_key_at, order_line_key_at, item_key_at, stock_key_at, key_at, IsKeyOf};

use crate::decode::{Decode, Row};
use crate::fronts::Ranged;
use oe_rows::{
    CustomerKey, DistrictKey, HistoryKey, ItemKey, Key, NewOrderKey, OrderKey, OrderLineKey,
    StockKey, Table, WarehouseKey,
};
use oe_values::numbers::TERMINALS;

impl Row for WarehouseKey {
    type Columns = Ranged<2, 1, 16>;

    ghost of = { λ c. record { warehouse = c } };

    ghost parts = { λ r. r.warehouse };

    ghost ranges = { IsWarehouseKey };

    ghost is_row = { Prim.search rules };

    fn of_columns(columns: Self::Columns) -> Self {
        let warehouse = columns.get();
        WarehouseKey { warehouse }
    }
}

impl Row for DistrictKey {
    type Columns = (Ranged<2, 1, 16>, Ranged<1, 1, 10>);

    ghost of = { λ c. record { warehouse = c.0; district = c.1 } };

    ghost parts = { λ r. (r.warehouse, r.district) };

    ghost ranges = { IsDistrictKey };

    ghost is_row = { Prim.search rules };

    fn of_columns(columns: Self::Columns) -> Self {
        let (warehouse, district) = columns;
        DistrictKey {
            warehouse: warehouse.get(),
            district: district.get(),
        }
    }
}

impl Row for CustomerKey {
    type Columns = (Ranged<2, 1, 16>, (Ranged<1, 1, 10>, Ranged<2, 1, 3_000>));

    ghost of = { λ c. record { warehouse = c.0; district = c.1.0; customer = c.1.1 } };

    ghost parts = { λ r. (r.warehouse, (r.district, r.customer)) };

    ghost ranges = { IsCustomerKey };

    ghost is_row = { Prim.search rules };

    fn of_columns(columns: Self::Columns) -> Self {
        let (warehouse, (district, customer)) = columns;
        CustomerKey {
            warehouse: warehouse.get(),
            district: district.get(),
            customer: customer.get(),
        }
    }
}

impl Row for HistoryKey {
    type Columns = (
        Ranged<2, 0, TERMINALS>,
        (Ranged<4, 0, 4_294_967_295>, Ranged<1, 1, 1>),
    );

    ghost of = { λ c. record { terminal = c.0; number = c.1.0; ordinal = c.1.1 } };

    ghost parts = { λ r. (r.terminal, (r.number, r.ordinal)) };

    ghost ranges = { IsHistoryKey };

    ghost is_row = { Prim.search rules };

    fn of_columns(columns: Self::Columns) -> Self {
        let (terminal, (number, ordinal)) = columns;
        HistoryKey {
            terminal: terminal.get(),
            number: number.get(),
            ordinal: ordinal.get(),
        }
    }
}

impl Row for NewOrderKey {
    type Columns = (
        Ranged<2, 1, 16>,
        (Ranged<1, 1, 10>, Ranged<4, 1, 10_000_000>),
    );

    ghost of = { λ c. record { warehouse = c.0; district = c.1.0; order = c.1.1 } };

    ghost parts = { λ r. (r.warehouse, (r.district, r.order)) };

    ghost ranges = { IsNewOrderKey };

    ghost is_row = { Prim.search rules };

    fn of_columns(columns: Self::Columns) -> Self {
        let (warehouse, (district, order)) = columns;
        NewOrderKey {
            warehouse: warehouse.get(),
            district: district.get(),
            order: order.get(),
        }
    }
}

impl Row for OrderKey {
    type Columns = (
        Ranged<2, 1, 16>,
        (Ranged<1, 1, 10>, Ranged<4, 1, 10_000_000>),
    );

    ghost of = { λ c. record { warehouse = c.0; district = c.1.0; order = c.1.1 } };

    ghost parts = { λ r. (r.warehouse, (r.district, r.order)) };

    ghost ranges = { IsOrderKey };

    ghost is_row = { Prim.search rules };

    fn of_columns(columns: Self::Columns) -> Self {
        let (warehouse, (district, order)) = columns;
        OrderKey {
            warehouse: warehouse.get(),
            district: district.get(),
            order: order.get(),
        }
    }
}

impl Row for OrderLineKey {
    type Columns = (
        Ranged<2, 1, 16>,
        (
            Ranged<1, 1, 10>,
            (Ranged<4, 1, 10_000_000>, Ranged<1, 1, 15>),
        ),
    );

    ghost of = { λ c. record {
      warehouse = c.0;
      district = c.1.0;
      order = c.1.1.0;
      number = c.1.1.1;
    } };

    ghost parts = { λ r. (r.warehouse, (r.district, (r.order, r.number))) };

    ghost ranges = { IsOrderLineKey };

    ghost is_row = { Prim.search rules };

    fn of_columns(columns: Self::Columns) -> Self {
        let (warehouse, (district, (order, number))) = columns;
        OrderLineKey {
            warehouse: warehouse.get(),
            district: district.get(),
            order: order.get(),
            number: number.get(),
        }
    }
}

impl Row for ItemKey {
    type Columns = Ranged<4, 1, 100_000>;

    ghost of = { λ c. record { item = c } };

    ghost parts = { λ r. r.item };

    ghost ranges = { IsItemKey };

    ghost is_row = { Prim.search rules };

    fn of_columns(columns: Self::Columns) -> Self {
        let item = columns.get();
        ItemKey { item }
    }
}

impl Row for StockKey {
    type Columns = (Ranged<2, 1, 16>, Ranged<4, 1, 100_000>);

    ghost of = { λ c. record { warehouse = c.0; item = c.1 } };

    ghost parts = { λ r. (r.warehouse, r.item) };

    ghost ranges = { IsStockKey };

    ghost is_row = { Prim.search rules };

    fn of_columns(columns: Self::Columns) -> Self {
        let (warehouse, item) = columns;
        StockKey {
            warehouse: warehouse.get(),
            item: item.get(),
        }
    }
}

/// Reads the key of a WAREHOUSE row at the front of the bytes, and those behind it.
#[tactic(auto, unfolding(crate::specs::KeyFronts::warehouse_key_at))]
pub fn read_warehouse_key(bytes: &[u8]) -> Option<(WarehouseKey, &[u8])>
    ensures { option_map (λ x. (x.0, x.1.now)) result ≡ warehouse_key_at bytes.now }
{
    WarehouseKey::decode(bytes)
}

/// Reads the key of a DISTRICT row at the front of the bytes, and those behind it.
#[tactic(auto, unfolding(crate::specs::KeyFronts::district_key_at))]
pub fn read_district_key(bytes: &[u8]) -> Option<(DistrictKey, &[u8])>
    ensures { option_map (λ x. (x.0, x.1.now)) result ≡ district_key_at bytes.now }
{
    DistrictKey::decode(bytes)
}

/// Reads the key of a CUSTOMER row at the front of the bytes, and those behind it.
#[tactic(auto, unfolding(crate::specs::KeyFronts::customer_key_at))]
pub fn read_customer_key(bytes: &[u8]) -> Option<(CustomerKey, &[u8])>
    ensures { option_map (λ x. (x.0, x.1.now)) result ≡ customer_key_at bytes.now }
{
    CustomerKey::decode(bytes)
}

/// Reads the key of a HISTORY row at the front of the bytes, and those behind it.
#[tactic(auto, unfolding(crate::specs::KeyFronts::history_key_at))]
pub fn read_history_key(bytes: &[u8]) -> Option<(HistoryKey, &[u8])>
    ensures { option_map (λ x. (x.0, x.1.now)) result ≡ history_key_at bytes.now }
{
    HistoryKey::decode(bytes)
}

/// Reads the key of a NEW-ORDER row at the front of the bytes, and those behind it.
#[tactic(auto, unfolding(crate::specs::KeyFronts::new_order_key_at))]
pub fn read_new_order_key(bytes: &[u8]) -> Option<(NewOrderKey, &[u8])>
    ensures { option_map (λ x. (x.0, x.1.now)) result ≡ new_order_key_at bytes.now }
{
    NewOrderKey::decode(bytes)
}

/// Reads the key of an ORDER row at the front of the bytes, and those behind it.
#[tactic(auto, unfolding(crate::specs::KeyFronts::order_key_at))]
pub fn read_order_key(bytes: &[u8]) -> Option<(OrderKey, &[u8])>
    ensures { option_map (λ x. (x.0, x.1.now)) result ≡ order_key_at bytes.now }
{
    OrderKey::decode(bytes)
}

/// Reads the key of an ORDER-LINE row at the front of the bytes, and those behind it.
#[tactic(auto, unfolding(crate::specs::KeyFronts::order_line_key_at))]
pub fn read_order_line_key(bytes: &[u8]) -> Option<(OrderLineKey, &[u8])>
    ensures { option_map (λ x. (x.0, x.1.now)) result ≡ order_line_key_at bytes.now }
{
    OrderLineKey::decode(bytes)
}

/// Reads the key of an ITEM row at the front of the bytes, and those behind it.
#[tactic(auto, unfolding(crate::specs::KeyFronts::item_key_at))]
pub fn read_item_key(bytes: &[u8]) -> Option<(ItemKey, &[u8])>
    ensures { option_map (λ x. (x.0, x.1.now)) result ≡ item_key_at bytes.now }
{
    ItemKey::decode(bytes)
}

/// Reads the key of a STOCK row at the front of the bytes, and those behind it.
#[tactic(auto, unfolding(crate::specs::KeyFronts::stock_key_at))]
pub fn read_stock_key(bytes: &[u8]) -> Option<(StockKey, &[u8])>
    ensures { option_map (λ x. (x.0, x.1.now)) result ≡ stock_key_at bytes.now }
{
    StockKey::decode(bytes)
}

/// Reads what stands at the front.
fn front_key(table: Table, bytes: &[u8]) -> Option<(Key, &[u8])>
    ensures { option_map (λ x. (x.0, x.1.now)) result ≡ key_at table bytes.now }
{
    match table {
        Table::Warehouse => match read_warehouse_key(bytes) {
            Some((key, rest)) => Some((Key::Warehouse(key), rest)),
            None => None,
        },
        Table::District => match read_district_key(bytes) {
            Some((key, rest)) => Some((Key::District(key), rest)),
            None => None,
        },
        Table::Customer => match read_customer_key(bytes) {
            Some((key, rest)) => Some((Key::Customer(key), rest)),
            None => None,
        },
        Table::History => match read_history_key(bytes) {
            Some((key, rest)) => Some((Key::History(key), rest)),
            None => None,
        },
        Table::NewOrder => match read_new_order_key(bytes) {
            Some((key, rest)) => Some((Key::NewOrder(key), rest)),
            None => None,
        },
        Table::Order => match read_order_key(bytes) {
            Some((key, rest)) => Some((Key::Order(key), rest)),
            None => None,
        },
        Table::OrderLine => match read_order_line_key(bytes) {
            Some((key, rest)) => Some((Key::OrderLine(key), rest)),
            None => None,
        },
        Table::Item => match read_item_key(bytes) {
            Some((key, rest)) => Some((Key::Item(key), rest)),
            None => None,
        },
        Table::Stock => match read_stock_key(bytes) {
            Some((key, rest)) => Some((Key::Stock(key), rest)),
            None => None,
        },
    }
}

/// Reads the key of that table at the front of the bytes, and those behind it; `None` exactly where
/// no front of the bytes is the image of a key of that table.
pub fn read_key(table: Table, bytes: &[u8]) -> Option<(Key, &[u8])>
    ensures { Reads (IsKeyOf table) key_image bytes.now (option_map (λ x. (x.0, x.1.now)) result) }
{
    front_key(table, bytes)
}
