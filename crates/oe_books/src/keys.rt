//! The key of a row of any table, as the numbers of its columns from the left.
ghost use Rattle.std.specs.Prelude.{◌≡◌, ◌≤◌, ℕ, List, length};
ghost use Rattle.oe_books.specs.Keys.{of_number, of_district, of_customer, of_order, of_stock, of_block};

use arrayvec::ArrayVec;
use oe_facts::keys::{CustomerId, DistrictId, OrderId, StockId};
use oe_line_numbers::numbers::LineBlock;
use std::marker::Model;

/// A key has at most this many numbers.
pub const MOST_NUMBERS: usize = 4;

/// The numbers of a key.
#[derive(Drop)]
pub struct Key {
    numbers: ArrayVec<u32, MOST_NUMBERS>,
}

impl Model for Key {
    ghost use Rattle.std.specs.Prelude.{ℕ, List};

    ghost Value = { List ℕ };

    ghost view = { λ k. k.numbers.items };
}

impl Key {
    /// Takes the numbers.
    fn of(numbers: &[u32]) -> Key
        requires { length numbers.now ≤ 4 }
        ensures { result ≡ numbers.now }
    {
        let mut taken = ArrayVec::new();
        for number in numbers {
            taken.push(*number);
        }
        Key { numbers: taken }
    }

    /// Gives the numbers.
    pub fn as_slice(&self) -> &[u32]
        ensures value { result.now ≡ self.now }
        ensures most { length result.now ≤ 4 }
    {
        self.numbers.as_slice()
    }
}

/// A key of a table's rows.
pub trait RowKey {
    /// Its numbers.
    ghost numbers: { Self → List ℕ };

    /// Gives its numbers.
    fn key(&self) -> Key
        ensures { result ≡ numbers self.now };
}

impl RowKey for u32 {
    ghost numbers = { of_number };

    fn key(&self) -> Key {
        Key::of(&[*self])
    }
}

impl RowKey for DistrictId {
    ghost numbers = { of_district };

    fn key(&self) -> Key {
        Key::of(&[self.warehouse, u32::from(self.district)])
    }
}

impl RowKey for CustomerId {
    ghost numbers = { of_customer };

    fn key(&self) -> Key {
        Key::of(&[self.warehouse, u32::from(self.district), self.customer])
    }
}

impl RowKey for OrderId {
    ghost numbers = { of_order };

    fn key(&self) -> Key {
        Key::of(&[self.warehouse, u32::from(self.district), self.order])
    }
}

impl RowKey for StockId {
    ghost numbers = { of_stock };

    fn key(&self) -> Key {
        Key::of(&[self.warehouse, self.item])
    }
}

impl RowKey for LineBlock {
    ghost numbers = { of_block };

    fn key(&self) -> Key {
        let order = &self.order;
        let first = u32::from(self.block) * 64;
        Key::of(&[
            order.warehouse,
            u32::from(order.district),
            order.order,
            first,
        ])
    }
}
