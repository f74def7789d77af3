//! Images of addresses, warehouses and districts, by the order of their columns.
ghost use Rattle.std.specs.Prelude.{◌≡◌, ◌≤◌, ◌+◌, length};
ghost use Rattle.oe_extent.specs.Images.{Writes};
ghost use Rattle.oe_image.specs.Rows.{address, warehouse, district};

use crate::columns::Imaged;
use oe_rows::districts::District;
use oe_rows::warehouses::{Address, Warehouse};

impl Imaged for Address {
    ghost most = { 81 };

    ghost image = { λ a. address a };

    #[inline]
    #[tactic(auto, unfolding(crate::specs::Rows::address))]
    fn length(&self) -> usize {
        let town = (&self.city, (&self.state, &self.zip));
        (&self.street_1, (&self.street_2, town)).length()
    }

    #[inline(always)]
    #[tactic(auto, unfolding(crate::specs::Rows::address))]
    fn write(&self, bytes: &mut [u8], start: usize) -> usize {
        let town = (&self.city, (&self.state, &self.zip));
        (&self.street_1, (&self.street_2, town)).write(bytes, start)
    }
}

impl Imaged for Warehouse {
    ghost most = { 103 };

    ghost image = { λ w. warehouse w };

    #[inline]
    #[tactic(auto, unfolding(crate::specs::Rows::warehouse))]
    fn length(&self) -> usize {
        let money = (self.tax.get() as u16, self.ytd.cents());
        (&self.name, (&self.address, money)).length()
    }

    #[inline]
    #[tactic(auto, unfolding(crate::specs::Rows::warehouse))]
    fn write(&self, bytes: &mut [u8], start: usize) -> usize {
        let money = (self.tax.get() as u16, self.ytd.cents());
        (&self.name, (&self.address, money)).write(bytes, start)
    }
}

impl Imaged for District {
    ghost most = { 107 };

    ghost image = { λ d. district d };

    #[inline]
    #[tactic(auto, unfolding(crate::specs::Rows::district))]
    fn length(&self) -> usize {
        let numbers = (
            self.tax.get() as u16,
            (self.ytd.cents(), self.next_order.get()),
        );
        (&self.name, (&self.address, numbers)).length()
    }

    #[inline]
    #[tactic(auto, unfolding(crate::specs::Rows::district))]
    fn write(&self, bytes: &mut [u8], start: usize) -> usize {
        let numbers = (
            self.tax.get() as u16,
            (self.ytd.cents(), self.next_order.get()),
        );
        (&self.name, (&self.address, numbers)).write(bytes, start)
    }
}
