//! Keys that have their places by their numbers. Nothing here takes memory or can fail.
ghost use Rattle.std.specs.Prelude.{◌≡◌, ◌<◌, ℕ, Option, Some};

use oe_rows::{
    CustomerKey, DistrictKey, ItemKey, NewOrderKey, OrderKey, OrderLineKey, StockKey, WarehouseKey,
};
use oe_values::ShelvedKey;

/// A key that has a number of its own on its shelf.
pub(crate) trait NumberedKey: ShelvedKey {
    ghost number_of: { Self → Option ℕ };

    /// Gives the number, from 0 on. The numbers of keys that follow one another are near to one
    /// another.
    fn number(&self) -> usize
        ensures number { number_of self.now ≡ Some result }
        ensures few { result < 4_294_967_296 };

    ghost numbered: { (j k : Self) (n : ℕ) → Self.shelf_of j ≡ Self.shelf_of k
        → number_of j ≡ Some n → number_of k ≡ Some n → j ≡ k };
}

impl NumberedKey for WarehouseKey {
    ghost use Rattle.oe_undo.specs.Numbers.{warehouse_number};
    ghost use Rattle.oe_undo.specs.NumberLaws.{warehouse_numbered};

    ghost number_of = { warehouse_number };

    #[inline]
    fn number(&self) -> usize {
        self.warehouse.get() as usize
    }

    ghost numbered = { warehouse_numbered };
}

impl NumberedKey for DistrictKey {
    ghost use Rattle.oe_undo.specs.Numbers.{district_number};
    ghost use Rattle.oe_undo.specs.NumberLaws.{district_numbered};

    ghost number_of = { district_number };

    #[inline]
    fn number(&self) -> usize {
        10 * self.warehouse.get() as usize + self.district.get() as usize
    }

    ghost numbered = { district_numbered };
}

impl NumberedKey for CustomerKey {
    ghost use Rattle.oe_undo.specs.Numbers.{customer_number};
    ghost use Rattle.oe_undo.specs.NumberLaws.{customer_numbered};

    ghost number_of = { customer_number };

    #[inline]
    fn number(&self) -> usize {
        let _district = self.district.get();
        self.customer.get() as usize
    }

    ghost numbered = { customer_numbered };
}

impl NumberedKey for NewOrderKey {
    ghost use Rattle.oe_undo.specs.Numbers.{new_order_number};
    ghost use Rattle.oe_undo.specs.NumberLaws.{new_order_numbered};

    ghost number_of = { new_order_number };

    #[inline]
    fn number(&self) -> usize {
        let _district = self.district.get();
        self.order.get() as usize
    }

    ghost numbered = { new_order_numbered };
}

impl NumberedKey for OrderKey {
    ghost use Rattle.oe_undo.specs.Numbers.{order_number};
    ghost use Rattle.oe_undo.specs.NumberLaws.{order_numbered};

    ghost number_of = { order_number };

    #[inline]
    fn number(&self) -> usize {
        let _district = self.district.get();
        self.order.get() as usize
    }

    ghost numbered = { order_numbered };
}

impl NumberedKey for OrderLineKey {
    ghost use Rattle.oe_undo.specs.Numbers.{order_line_number};
    ghost use Rattle.oe_undo.specs.NumberLaws.{order_line_numbered};

    ghost number_of = { order_line_number };

    #[inline]
    fn number(&self) -> usize {
        let _district = self.district.get();
        15 * self.order.get() as usize + self.number.get() as usize
    }

    ghost numbered = { order_line_numbered };
}

impl NumberedKey for ItemKey {
    ghost use Rattle.oe_undo.specs.Numbers.{item_number};
    ghost use Rattle.oe_undo.specs.NumberLaws.{item_numbered};

    ghost number_of = { item_number };

    #[inline]
    fn number(&self) -> usize {
        self.item.get() as usize
    }

    ghost numbered = { item_numbered };
}

impl NumberedKey for StockKey {
    ghost use Rattle.oe_undo.specs.Numbers.{stock_number};
    ghost use Rattle.oe_undo.specs.NumberLaws.{stock_numbered};

    ghost number_of = { stock_number };

    #[inline]
    fn number(&self) -> usize {
        self.item.get() as usize
    }

    ghost numbered = { stock_numbered };
}
