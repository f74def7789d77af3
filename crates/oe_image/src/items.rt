//! Images of items and of their stock, by the order of their columns.
ghost use Rattle.std.specs.Prelude.{◌≡◌, ◌≤◌, ◌+◌, length};
ghost use Rattle.oe_extent.specs.Images.{Writes};
ghost use Rattle.oe_image.specs.Columns.{ten_texts};
ghost use Rattle.oe_image.specs.Rows.{item, stock};

use crate::columns::Imaged;
use oe_rows::items::{Item, Stock};
use oe_values::texts::Text;

impl Imaged for [Text<24, 24>; 10] {
    ghost most = { 260 };

    ghost image = { λ ds. ten_texts ds };

    #[inline]
    #[tactic(auto, unfolding(crate::specs::Columns::ten_texts))]
    fn length(&self) -> usize {
        let last = (&self[7], (&self[8], &self[9]));
        let middle = (&self[4], (&self[5], (&self[6], last)));
        (&self[0], (&self[1], (&self[2], (&self[3], middle)))).length()
    }

    #[inline]
    #[tactic(auto, unfolding(crate::specs::Columns::ten_texts))]
    fn write(&self, bytes: &mut [u8], start: usize) -> usize {
        let last = (&self[7], (&self[8], &self[9]));
        let middle = (&self[4], (&self[5], (&self[6], last)));
        (&self[0], (&self[1], (&self[2], (&self[3], middle)))).write(bytes, start)
    }
}

impl Imaged for Item {
    ghost most = { 90 };

    ghost image = { λ i. item i };

    #[inline]
    #[tactic(auto, unfolding(crate::specs::Rows::item))]
    fn length(&self) -> usize {
        let sold = (self.price.cents(), self.data.as_text());
        (self.image.get(), (&self.name, sold)).length()
    }

    #[inline]
    #[tactic(auto, unfolding(crate::specs::Rows::item))]
    fn write(&self, bytes: &mut [u8], start: usize) -> usize {
        let sold = (self.price.cents(), self.data.as_text());
        (self.image.get(), (&self.name, sold)).write(bytes, start)
    }
}

impl Imaged for Stock {
    ghost most = { 322 };

    ghost image = { λ s. stock s };

    #[inline]
    #[tactic(auto, unfolding(crate::specs::Rows::stock))]
    fn length(&self) -> usize {
        let counts = (
            self.order_count.get() as u16,
            (self.remote_count.get() as u16, self.data.as_text()),
        );
        let rest = (&self.dist_info, (self.ytd.get(), counts));
        (self.quantity.get() as u16, rest).length()
    }

    #[inline]
    #[tactic(auto, unfolding(crate::specs::Rows::stock))]
    fn write(&self, bytes: &mut [u8], start: usize) -> usize {
        let counts = (
            self.order_count.get() as u16,
            (self.remote_count.get() as u16, self.data.as_text()),
        );
        let rest = (&self.dist_info, (self.ytd.get(), counts));
        (self.quantity.get() as u16, rest).write(bytes, start)
    }
}
