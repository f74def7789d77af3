//! Where rows are put, each after the rows that it refers to (clauses 1.3 and 1.4).
//!
//! A row is put only where all that it refers to are there; where memory is refused, the tables are
//! as before.
ghost use Rattle.std.specs.Prelude.{◌≡◌, ◌∷◌, [], List, Option, None, OnErr, OnOk, is_some};
ghost use Rattle.oe_rows.specs.declared.keys.Key.{Key};
ghost use Rattle.oe_rows.specs.declared.keys.Key.TheVariants as kind;
ghost use Rattle.oe_model.specs.Changes.{rows_after, InsertHistory, InsertNewOrder, InsertOrder, InsertOrderLine};
ghost use Rattle.oe_model.specs.Keys.{customer_of_order, order_of_line, order_of_new_order, supply_of_line};
ghost use Rattle.oe_model.specs.Rows.{Rows, row_at};
ghost use Rattle.oe_store.specs.Places.{rows};
ghost use Rattle.oe_file_loading.specs.Placing.{missing_of, HasRow, OnlyAdds};

use oe_file_tables::RowLine;
use oe_rows::{
    History, HistoryKey, Key, NewOrder, NewOrderKey, Order, OrderKey, OrderLine, OrderLineKey,
    StockKey,
};
use oe_store::Tables;
use oe_values::NoMemory;

/// Tables that rows of one kind are put in.
pub trait Placing<K, R: RowLine<K>> {
    /// The rows of the tables.
    ghost rows_in: { Self → Rows };

    /// The keys of the rows that a row refers to.
    ghost refers: { K → R → List Key };

    /// The rows with this one more.
    ghost with_row: { K → R → Rows → Rows };

    /// Gives the first key that a row refers to and that has no row.
    fn missing(&self, key: &K, row: &R) -> Option<Key>
        ensures { result ≡ missing_of (refers key.now row.now) (rows_in self.now) };

    /// Puts a row.
    fn put(&mut self, key: K, row: R) -> Result<(), NoMemory>
        requires new { HasRow (rows_in self.old) (R.key_of key) → ⊥ }
        requires met { missing_of (refers key row) (rows_in self.old) ≡ None }
        ensures put { OnOk result (rows_in self.new ≡ with_row key row (rows_in self.old)) }
        ensures only { OnOk result (OnlyAdds R.key_of key (rows_in self.old) (rows_in self.new)) }
        ensures err { OnErr result (rows_in self.new ≡ rows_in self.old) };
}

impl Placing<OrderKey, Order> for Tables {
    ghost rows_in = { rows };

    ghost refers = { λ k x. kind.Customer (customer_of_order k x) ∷ [] };

    ghost with_row = { λ k x r. rows_after (InsertOrder k x) r };

    fn missing(&self, key: &OrderKey, row: &Order) -> Option<Key> {
        let found = self.customer(key.district_key().customer(row.customer));
        if found.is_none() {
            let customer = key.district_key().customer(row.customer);
            return Some(Key::Customer(customer));
        }
        None
    }

    fn put(&mut self, key: OrderKey, row: Order) -> Result<(), NoMemory> {
        let _carrier = row.carrier;
        self.insert_order(key, row)
    }
}

/// Gives the stock that a line was supplied from.
fn supply(row: &OrderLine) -> StockKey
    ensures { result ≡ record { warehouse = row.now.supply; item = row.now.item } }
{
    StockKey {
        warehouse: row.supply,
        item: row.item,
    }
}

impl Placing<OrderLineKey, OrderLine> for Tables {
    ghost rows_in = { rows };

    ghost refers = { λ k x. kind.Order (order_of_line k) ∷ kind.Stock (supply_of_line x) ∷ [] };

    ghost with_row = { λ k x r. rows_after (InsertOrderLine k x) r };

    fn missing(&self, key: &OrderLineKey, row: &OrderLine) -> Option<Key> {
        if self.order(key.order_key()).is_none() {
            return Some(Key::Order(key.order_key()));
        }
        if self.stock(supply(row)).is_none() {
            return Some(Key::Stock(supply(row)));
        }
        None
    }

    fn put(&mut self, key: OrderLineKey, row: OrderLine) -> Result<(), NoMemory> {
        self.insert_order_line(key, row)
    }
}

impl Placing<NewOrderKey, NewOrder> for Tables {
    ghost rows_in = { rows };

    ghost refers = { λ k x. kind.Order (order_of_new_order k) ∷ [] };

    ghost with_row = { λ k x r. rows_after (InsertNewOrder k x) r };

    fn missing(&self, key: &NewOrderKey, row: &NewOrder) -> Option<Key> {
        let _no_columns = row;
        if self.order(key.order_key()).is_none() {
            return Some(Key::Order(key.order_key()));
        }
        None
    }

    fn put(&mut self, key: NewOrderKey, row: NewOrder) -> Result<(), NoMemory> {
        self.insert_new_order(key, row)
    }
}

impl Placing<HistoryKey, History> for Tables {
    ghost rows_in = { rows };

    ghost refers = { λ k x. kind.Customer x.customer ∷ kind.District x.district ∷ [] };

    ghost with_row = { λ k x r. rows_after (InsertHistory k x) r };

    fn missing(&self, key: &HistoryKey, row: &History) -> Option<Key> {
        let _any_key = key;
        if self.customer(row.customer).is_none() {
            return Some(Key::Customer(row.customer));
        }
        if self.district(row.district).is_none() {
            return Some(Key::District(row.district));
        }
        None
    }

    fn put(&mut self, key: HistoryKey, row: History) -> Result<(), NoMemory> {
        self.insert_history(key, row)
    }
}
