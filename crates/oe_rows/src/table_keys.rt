//! The nine keys as keys of tables: the order of each tells any two keys apart, and its numbers say
//! where its row lies.
ghost use Rattle.std.specs.Prelude.{◌≡◌, ◌<◌};
ghost use Rattle.oe_rows.specs.KeyShelves.{district_shelf};

use crate::keys::{
    CustomerKey, DistrictKey, HistoryKey, ItemKey, NewOrderKey, OrderKey, OrderLineKey, StockKey,
    WarehouseKey,
};
use oe_values::{DistrictNumber, ShelvedKey, TableKey, WarehouseNumber};

impl TableKey for WarehouseKey {
    ghost use Rattle.oe_rows.specs.ExactKeys.{exact_warehouse};

    ghost exact = { exact_warehouse };
}

impl TableKey for DistrictKey {
    ghost use Rattle.oe_rows.specs.ExactKeys.{exact_district};

    ghost exact = { exact_district };
}

impl TableKey for CustomerKey {
    ghost use Rattle.oe_rows.specs.ExactKeys.{exact_customer};

    ghost exact = { exact_customer };
}

impl TableKey for HistoryKey {
    ghost use Rattle.oe_rows.specs.ExactKeys.{exact_history};

    ghost exact = { exact_history };
}

impl TableKey for NewOrderKey {
    ghost use Rattle.oe_rows.specs.ExactKeys.{exact_new_order};

    ghost exact = { exact_new_order };
}

impl TableKey for OrderKey {
    ghost use Rattle.oe_rows.specs.ExactKeys.{exact_order};

    ghost exact = { exact_order };
}

impl TableKey for OrderLineKey {
    ghost use Rattle.oe_rows.specs.ExactKeys.{exact_order_line};

    ghost exact = { exact_order_line };
}

impl TableKey for ItemKey {
    ghost use Rattle.oe_rows.specs.ExactKeys.{exact_item};

    ghost exact = { exact_item };
}

impl TableKey for StockKey {
    ghost use Rattle.oe_rows.specs.ExactKeys.{exact_stock};

    ghost exact = { exact_stock };
}

/// Gives the shelf of a district's rows: ten follow one another for each warehouse.
#[inline]
fn district_shelf(warehouse: WarehouseNumber, district: DistrictNumber) -> usize
    ensures number { result ≡ district_shelf warehouse district }
    ensures few { result < 1024 }
{
    10 * warehouse.get() as usize + district.get() as usize - 1
}

impl ShelvedKey for WarehouseKey {
    ghost use Rattle.oe_rows.specs.KeyShelves.{warehouse_ascends};

    ghost shelf_of = { λ k. 0 };

    #[inline]
    fn shelf(&self) -> usize {
        0
    }

    #[inline]
    fn place(&self) -> usize {
        self.warehouse.get() as usize
    }

    ghost ascends = { warehouse_ascends };
}

impl ShelvedKey for DistrictKey {
    ghost use Rattle.oe_rows.specs.KeyShelves.{district_ascends};

    ghost shelf_of = { λ k. 0 };

    #[inline]
    fn shelf(&self) -> usize {
        0
    }

    #[inline]
    fn place(&self) -> usize {
        10 * self.warehouse.get() as usize + self.district.get() as usize
    }

    ghost ascends = { district_ascends };
}

impl ShelvedKey for CustomerKey {
    ghost use Rattle.oe_rows.specs.KeyShelves.{customer_ascends};

    ghost shelf_of = { λ k. district_shelf k.warehouse k.district };

    #[inline]
    fn shelf(&self) -> usize {
        district_shelf(self.warehouse, self.district)
    }

    #[inline]
    fn place(&self) -> usize {
        self.customer.get() as usize
    }

    ghost ascends = { customer_ascends };
}

impl ShelvedKey for HistoryKey {
    ghost use Rattle.oe_rows.specs.KeyShelves.{history_ascends};

    ghost shelf_of = { λ k. k.terminal };

    #[inline]
    fn shelf(&self) -> usize {
        self.terminal.get() as usize
    }

    #[inline]
    fn place(&self) -> usize {
        self.number.get() as usize
    }

    ghost ascends = { history_ascends };
}

impl ShelvedKey for NewOrderKey {
    ghost use Rattle.oe_rows.specs.KeyShelves.{new_order_ascends};

    ghost shelf_of = { λ k. district_shelf k.warehouse k.district };

    #[inline]
    fn shelf(&self) -> usize {
        district_shelf(self.warehouse, self.district)
    }

    #[inline]
    fn place(&self) -> usize {
        self.order.get() as usize
    }

    ghost ascends = { new_order_ascends };
}

impl ShelvedKey for OrderKey {
    ghost use Rattle.oe_rows.specs.KeyShelves.{order_ascends};

    ghost shelf_of = { λ k. district_shelf k.warehouse k.district };

    #[inline]
    fn shelf(&self) -> usize {
        district_shelf(self.warehouse, self.district)
    }

    #[inline]
    fn place(&self) -> usize {
        self.order.get() as usize
    }

    ghost ascends = { order_ascends };
}

impl ShelvedKey for OrderLineKey {
    ghost use Rattle.oe_rows.specs.KeyShelves.{order_line_ascends};

    ghost shelf_of = { λ k. district_shelf k.warehouse k.district };

    #[inline]
    fn shelf(&self) -> usize {
        district_shelf(self.warehouse, self.district)
    }

    #[inline]
    fn place(&self) -> usize {
        15 * self.order.get() as usize + self.number.get() as usize
    }

    ghost ascends = { order_line_ascends };
}

impl ShelvedKey for ItemKey {
    ghost use Rattle.oe_rows.specs.KeyShelves.{item_ascends};

    ghost shelf_of = { λ k. 0 };

    #[inline]
    fn shelf(&self) -> usize {
        0
    }

    #[inline]
    fn place(&self) -> usize {
        self.item.get() as usize
    }

    ghost ascends = { item_ascends };
}

impl ShelvedKey for StockKey {
    ghost use Rattle.oe_rows.specs.KeyShelves.{stock_ascends};

    ghost shelf_of = { λ k. k.warehouse };

    #[inline]
    fn shelf(&self) -> usize {
        self.warehouse.get() as usize
    }

    #[inline]
    fn place(&self) -> usize {
        self.item.get() as usize
    }

    ghost ascends = { stock_ascends };
}
