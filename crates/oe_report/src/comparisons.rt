//! Whether two sets of tables have the same rows.
ghost use Rattle.std.specs.Prelude.{◌≡◌, ◌↔◌, IsTrue};
ghost use Rattle.oe_store.specs.Places.{rows};

use oe_rows::{
    Customer, CustomerKey, District, DistrictKey, History, HistoryKey, Item, ItemKey, NewOrder,
    NewOrderKey, Order, OrderKey, OrderLine, OrderLineKey, Stock, StockKey, Warehouse,
    WarehouseKey,
};
use oe_store::Tables;
use oe_table::shelf_walks::Rows;

/// A row that is compared with another, each at its key.
trait ComparedRow<K> {
    /// Tells whether two keys are the same, and their rows are.
    fn is_same(key: &K, row: &Self, other_key: &K, other: &Self) -> bool
        ensures { IsTrue result ↔ ((key.now ≡ other_key.now) × (row.now ≡ other.now)) };
}

impl ComparedRow<WarehouseKey> for Warehouse {
    fn is_same(
        key: &WarehouseKey,
        row: &Warehouse,
        other_key: &WarehouseKey,
        other: &Warehouse,
    ) -> bool {
        *key == *other_key && row.is_same(other)
    }
}

impl ComparedRow<DistrictKey> for District {
    fn is_same(
        key: &DistrictKey,
        row: &District,
        other_key: &DistrictKey,
        other: &District,
    ) -> bool {
        *key == *other_key && row.is_same(other)
    }
}

impl ComparedRow<CustomerKey> for Customer {
    fn is_same(
        key: &CustomerKey,
        row: &Customer,
        other_key: &CustomerKey,
        other: &Customer,
    ) -> bool {
        *key == *other_key && row.is_same(other)
    }
}

impl ComparedRow<HistoryKey> for History {
    fn is_same(key: &HistoryKey, row: &History, other_key: &HistoryKey, other: &History) -> bool {
        *key == *other_key && row.is_same(other)
    }
}

impl ComparedRow<NewOrderKey> for NewOrder {
    fn is_same(
        key: &NewOrderKey,
        row: &NewOrder,
        other_key: &NewOrderKey,
        other: &NewOrder,
    ) -> bool {
        *key == *other_key && row.is_same(other)
    }
}

impl ComparedRow<OrderKey> for Order {
    fn is_same(key: &OrderKey, row: &Order, other_key: &OrderKey, other: &Order) -> bool {
        *key == *other_key && row.is_same(other)
    }
}

impl ComparedRow<OrderLineKey> for OrderLine {
    fn is_same(
        key: &OrderLineKey,
        row: &OrderLine,
        other_key: &OrderLineKey,
        other: &OrderLine,
    ) -> bool {
        *key == *other_key && row.is_same(other)
    }
}

impl ComparedRow<ItemKey> for Item {
    fn is_same(key: &ItemKey, row: &Item, other_key: &ItemKey, other: &Item) -> bool {
        *key == *other_key && row.is_same(other)
    }
}

impl ComparedRow<StockKey> for Stock {
    fn is_same(key: &StockKey, row: &Stock, other_key: &StockKey, other: &Stock) -> bool {
        *key == *other_key && row.is_same(other)
    }
}

// Tells whether two walks have the same keys with the same rows.
#[tactic(auto, using(crate::proofs::WalkFacts::same_rest, crate::proofs::WalkFacts::other_head))]
fn is_same_walk<K, R: ComparedRow<K>>(left: Rows<'_, K, R>, right: Rows<'_, K, R>) -> bool
    ensures { IsTrue result ↔ (left.entry ≡ right.entry) }
{
    let mut right = right;
    for (key, row) in left {
        let Some((other_key, other)) = right.next() else {
            return false;
        };
        if !R::is_same(key, row, other_key, other) {
            return false;
        }
    }
    right.next().is_none()
}

/// Tells whether two sets of tables have the same rows, each at its key.
pub fn are_same(left: &Tables, right: &Tables) -> bool
    ensures { IsTrue result ↔ (rows left.now ≡ rows right.now) }
{
    if !is_same_walk(left.warehouses(), right.warehouses()) {
        return false;
    }
    if !is_same_walk(left.districts(), right.districts()) {
        return false;
    }
    if !is_same_walk(left.customers(), right.customers()) {
        return false;
    }
    if !is_same_walk(left.histories(), right.histories()) {
        return false;
    }
    if !is_same_walk(left.new_orders(), right.new_orders()) {
        return false;
    }
    if !is_same_walk(left.orders(), right.orders()) {
        return false;
    }
    if !is_same_walk(left.order_lines(), right.order_lines()) {
        return false;
    }
    if !is_same_walk(left.items(), right.items()) {
        return false;
    }
    is_same_walk(left.stocks(), right.stocks())
}
