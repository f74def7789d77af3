//! Inserts of rows that the schema accepts, as each call's `requires` says. A refused growth leaves
//! the tables as they were; a blanked key's place takes no memory.
ghost use Rattle.std.specs.Prelude.{◌≡◌, OnOk, OnErr};
ghost use Rattle.oe_model.specs.Changes.{rows_after, InsertHistory, InsertNewOrder, InsertOrder, InsertOrderLine};
ghost use Rattle.oe_model.specs.Meets.{Accepts};
ghost use Rattle.oe_store.specs.Names.{SameNames};
ghost use Rattle.oe_store.specs.Places.{rows, HasPlace, AddsPlace};

use crate::tables::Tables;
use oe_rows::{
    History, HistoryKey, Key, NewOrder, NewOrderKey, Order, OrderKey, OrderLine, OrderLineKey,
};
use oe_values::NoMemory;

// Only a key without a place takes memory.
impl Tables {
    /// Inserts a HISTORY row at a key that has none, where the rows that it refers to are there.
    pub fn insert_history(&mut self, key: HistoryKey, row: History) -> Result<(), NoMemory>
        requires { Accepts (InsertHistory key row) (rows self.old) }
        ensures rows { OnOk result
            (rows self.new ≡ rows_after (InsertHistory key row) (rows self.old)) }
        ensures place { OnOk result (AddsPlace self.old self.new (Key.History key)) }
        ensures names { SameNames self.old self.new }
        ensures no_place { OnErr result (¬ HasPlace self.old (Key.History key)) }
        ensures err { OnErr result (self.new ≡ self.old) }
    {
        self.histories.put_new(key, row)
    }

    /// Inserts a NEW-ORDER row at a key that has none, where the rows that it refers to are there.
    pub fn insert_new_order(&mut self, key: NewOrderKey, row: NewOrder) -> Result<(), NoMemory>
        requires { Accepts (InsertNewOrder key row) (rows self.old) }
        ensures rows { OnOk result
            (rows self.new ≡ rows_after (InsertNewOrder key row) (rows self.old)) }
        ensures place { OnOk result (AddsPlace self.old self.new (Key.NewOrder key)) }
        ensures names { SameNames self.old self.new }
        ensures no_place { OnErr result (¬ HasPlace self.old (Key.NewOrder key)) }
        ensures err { OnErr result (self.new ≡ self.old) }
    {
        self.new_orders.put_new(key, row)
    }

    /// Inserts an ORDER row at a key that has none, where the rows that it refers to are there.
    pub fn insert_order(&mut self, key: OrderKey, row: Order) -> Result<(), NoMemory>
        requires { Accepts (InsertOrder key row) (rows self.old) }
        ensures rows { OnOk result (rows self.new
            ≡ rows_after (InsertOrder key row) (rows self.old)) }
        ensures place { OnOk result (AddsPlace self.old self.new (Key.Order key)) }
        ensures names { SameNames self.old self.new }
        ensures no_place { OnErr result (¬ HasPlace self.old (Key.Order key)) }
        ensures err { OnErr result (self.new ≡ self.old) }
    {
        let _number = key.order.get();
        let _carrier = row.carrier;
        self.orders.put_new(key, row)
    }

    /// Inserts an ORDER-LINE row at a key that has none, where the rows that it refers to are
    /// there.
    pub fn insert_order_line(&mut self, key: OrderLineKey, row: OrderLine) -> Result<(), NoMemory>
        requires { Accepts (InsertOrderLine key row) (rows self.old) }
        ensures rows { OnOk result
            (rows self.new ≡ rows_after (InsertOrderLine key row) (rows self.old)) }
        ensures place { OnOk result (AddsPlace self.old self.new (Key.OrderLine key)) }
        ensures names { SameNames self.old self.new }
        ensures no_place { OnErr result (¬ HasPlace self.old (Key.OrderLine key)) }
        ensures err { OnErr result (self.new ≡ self.old) }
    {
        let _number = key.number.get();
        self.order_lines.put_new(key, row)
    }
}
