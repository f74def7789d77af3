//! What a purge of old commits gives up of the tables, places of rows that nobody puts back any
//! more, and with an undo, names that nobody finds a customer by.
ghost use Rattle.std.specs.Prelude.{◌≡◌};
ghost use Rattle.oe_model.specs.Keys.{district_of_customer};
ghost use Rattle.oe_index.specs.Numbers.{list_number};
ghost use Rattle.oe_store.specs.Names.{SameNames, TakesOff};
ghost use Rattle.oe_store.specs.Places.{rows, GivesUp, IsSwept};

use crate::tables::Tables;
use oe_rows::{CustomerKey, Key, NewOrderKey};
use oe_values::Text;

impl Tables {
    /// Gives up the place of a NEW-ORDER key without a row. Where the key has a row, or no place,
    /// nothing changes. It takes no memory.
    pub fn give_up_new_order(&mut self, key: NewOrderKey)
        ensures rows { rows self.new ≡ rows self.old }
        ensures places { GivesUp self.old self.new (Key.NewOrder key) }
        ensures names { SameNames self.old self.new }
    {
        self.new_orders.give_up(&key);
    }

    /// Takes a customer off the list of a C_LAST, where its own C_LAST has another list. It takes
    /// no memory.
    pub fn forget_name(&mut self, key: &CustomerKey, last: &Text<0, 16>)
        ensures { TakesOff self.old self.new
            (list_number (district_of_customer key.now) last.now) key.now }
    {
        self.customers.forget_name(key, last);
    }

    /// Gives up the place of each key without a row, in all tables. It takes no memory.
    pub fn sweep(&mut self)
        ensures rows { rows self.new ≡ rows self.old }
        ensures places { IsSwept (rows self.old) self.new }
        ensures names { SameNames self.old self.new }
    {
        self.warehouses.sweep();
        self.districts.sweep();
        self.customers.sweep();
        self.histories.sweep();
        self.new_orders.sweep();
        self.orders.sweep();
        self.order_lines.sweep();
        self.items.sweep();
        self.stocks.sweep();
    }
}
