//! Rows that are compared, each with another of its table.
ghost use Rattle.std.specs.Prelude.{◌≡◌, ◌↔◌, IsTrue};

use oe_rows::{Customer, District, Item, NewOrder, Order, OrderLine, Stock, Warehouse};

/// A row that is compared with another.
pub trait ComparedRow {
    /// Tells whether two rows are the same.
    fn equals(&self, other: &Self) -> bool
        ensures { IsTrue result ↔ (self.now ≡ other.now) };
}

impl ComparedRow for Warehouse {
    fn equals(&self, other: &Warehouse) -> bool {
        self.is_same(other)
    }
}

impl ComparedRow for District {
    fn equals(&self, other: &District) -> bool {
        self.is_same(other)
    }
}

impl ComparedRow for Customer {
    fn equals(&self, other: &Customer) -> bool {
        self.is_same(other)
    }
}

impl ComparedRow for NewOrder {
    fn equals(&self, other: &NewOrder) -> bool {
        self.is_same(other)
    }
}

impl ComparedRow for Order {
    fn equals(&self, other: &Order) -> bool {
        self.is_same(other)
    }
}

impl ComparedRow for OrderLine {
    fn equals(&self, other: &OrderLine) -> bool {
        self.is_same(other)
    }
}

impl ComparedRow for Item {
    fn equals(&self, other: &Item) -> bool {
        self.is_same(other)
    }
}

impl ComparedRow for Stock {
    fn equals(&self, other: &Stock) -> bool {
        self.is_same(other)
    }
}
