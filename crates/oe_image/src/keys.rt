//! Images of keys: their columns in order, each of a fixed width.
ghost use Rattle.std.specs.Prelude.{◌≡◌, ◌≤◌, ◌+◌, length};
ghost use Rattle.oe_extent.specs.Images.{Writes};
ghost use Rattle.oe_image.specs.Keys.{warehouse_key, district_key, customer_key, history_key, new_order_key, order_key, order_line_key, item_key, stock_key, key_image};

use crate::columns::Imaged;
use oe_rows::{
    CustomerKey, DistrictKey, HistoryKey, ItemKey, Key, NewOrderKey, OrderKey, OrderLineKey,
    StockKey, WarehouseKey,
};

impl Imaged for WarehouseKey {
    ghost most = { 2 };

    ghost image = { λ k. warehouse_key k };

    #[inline]
    #[tactic(auto, unfolding(crate::specs::Keys::warehouse_key))]
    fn length(&self) -> usize {
        2
    }

    #[inline]
    #[tactic(auto, unfolding(crate::specs::Keys::warehouse_key))]
    fn write(&self, bytes: &mut [u8], start: usize) -> usize {
        (self.warehouse.get() as u16).write(bytes, start)
    }
}

impl Imaged for DistrictKey {
    ghost most = { 3 };

    ghost image = { λ k. district_key k };

    #[inline]
    #[tactic(auto, unfolding(crate::specs::Keys::district_key))]
    fn length(&self) -> usize {
        3
    }

    #[inline]
    #[tactic(auto, unfolding(crate::specs::Keys::district_key))]
    fn write(&self, bytes: &mut [u8], start: usize) -> usize {
        (self.warehouse.get() as u16, self.district.get() as u8).write(bytes, start)
    }
}

impl Imaged for CustomerKey {
    ghost most = { 5 };

    ghost image = { λ k. customer_key k };

    #[inline]
    #[tactic(auto, unfolding(crate::specs::Keys::customer_key))]
    fn length(&self) -> usize {
        5
    }

    #[inline]
    #[tactic(auto, unfolding(crate::specs::Keys::customer_key))]
    fn write(&self, bytes: &mut [u8], start: usize) -> usize {
        (
            self.warehouse.get() as u16,
            (self.district.get() as u8, self.customer.get() as u16),
        )
            .write(bytes, start)
    }
}

impl Imaged for HistoryKey {
    ghost most = { 7 };

    ghost image = { λ k. history_key k };

    #[inline]
    #[tactic(auto, unfolding(crate::specs::Keys::history_key))]
    fn length(&self) -> usize {
        7
    }

    #[inline]
    #[tactic(auto, unfolding(crate::specs::Keys::history_key))]
    fn write(&self, bytes: &mut [u8], start: usize) -> usize {
        (
            self.terminal.get() as u16,
            (self.number.get(), self.ordinal.get() as u8),
        )
            .write(bytes, start)
    }
}

impl Imaged for NewOrderKey {
    ghost most = { 7 };

    ghost image = { λ k. new_order_key k };

    #[inline]
    #[tactic(auto, unfolding(crate::specs::Keys::new_order_key, crate::specs::Keys::order_key))]
    fn length(&self) -> usize {
        self.order_key().length()
    }

    #[inline]
    #[tactic(auto, unfolding(crate::specs::Keys::new_order_key, crate::specs::Keys::order_key))]
    fn write(&self, bytes: &mut [u8], start: usize) -> usize {
        self.order_key().write(bytes, start)
    }
}

impl Imaged for OrderKey {
    ghost most = { 7 };

    ghost image = { λ k. order_key k };

    #[inline]
    #[tactic(auto, unfolding(crate::specs::Keys::order_key))]
    fn length(&self) -> usize {
        7
    }

    #[inline]
    #[tactic(auto, unfolding(crate::specs::Keys::order_key))]
    fn write(&self, bytes: &mut [u8], start: usize) -> usize {
        (
            self.warehouse.get() as u16,
            (self.district.get() as u8, self.order.get()),
        )
            .write(bytes, start)
    }
}

impl Imaged for OrderLineKey {
    ghost most = { 8 };

    ghost image = { λ k. order_line_key k };

    #[inline]
    #[tactic(auto, unfolding(crate::specs::Keys::order_line_key))]
    fn length(&self) -> usize {
        8
    }

    #[inline]
    #[tactic(auto, unfolding(crate::specs::Keys::order_line_key))]
    fn write(&self, bytes: &mut [u8], start: usize) -> usize {
        (
            self.warehouse.get() as u16,
            (
                self.district.get() as u8,
                (self.order.get(), self.number.get() as u8),
            ),
        )
            .write(bytes, start)
    }
}

impl Imaged for ItemKey {
    ghost most = { 4 };

    ghost image = { λ k. item_key k };

    #[inline]
    #[tactic(auto, unfolding(crate::specs::Keys::item_key))]
    fn length(&self) -> usize {
        4
    }

    #[inline]
    #[tactic(auto, unfolding(crate::specs::Keys::item_key))]
    fn write(&self, bytes: &mut [u8], start: usize) -> usize {
        self.item.get().write(bytes, start)
    }
}

impl Imaged for StockKey {
    ghost most = { 6 };

    ghost image = { λ k. stock_key k };

    #[inline]
    #[tactic(auto, unfolding(crate::specs::Keys::stock_key))]
    fn length(&self) -> usize {
        6
    }

    #[inline]
    #[tactic(auto, unfolding(crate::specs::Keys::stock_key))]
    fn write(&self, bytes: &mut [u8], start: usize) -> usize {
        (self.warehouse.get() as u16, self.item.get()).write(bytes, start)
    }
}

impl Imaged for Key {
    ghost most = { 8 };

    ghost image = { λ k. key_image k };

    fn length(&self) -> usize {
        match self {
            Key::Warehouse(key) => key.length(),
            Key::District(key) => key.length(),
            Key::Customer(key) => key.length(),
            Key::History(key) => key.length(),
            Key::NewOrder(key) => key.length(),
            Key::Order(key) => key.length(),
            Key::OrderLine(key) => key.length(),
            Key::Item(key) => key.length(),
            Key::Stock(key) => key.length(),
        }
    }

    fn write(&self, bytes: &mut [u8], start: usize) -> usize {
        match self {
            Key::Warehouse(key) => key.write(bytes, start),
            Key::District(key) => key.write(bytes, start),
            Key::Customer(key) => key.write(bytes, start),
            Key::History(key) => key.write(bytes, start),
            Key::NewOrder(key) => key.write(bytes, start),
            Key::Order(key) => key.write(bytes, start),
            Key::OrderLine(key) => key.write(bytes, start),
            Key::Item(key) => key.write(bytes, start),
            Key::Stock(key) => key.write(bytes, start),
        }
    }
}

/// Writes the image of a key from offset `start` on, and answers the offset behind it.
pub fn write_key(key: &Key, bytes: &mut [u8], start: usize) -> usize
    requires { start + length (key_image key.now) ≤ length bytes.old }
    ensures { Writes bytes.old start (key_image key.now) bytes.new result }
{
    Imaged::write(key, bytes, start)
}
