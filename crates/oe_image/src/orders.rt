//! Images of histories, orders and order lines, by the order of their columns.
ghost use Rattle.std.specs.Prelude.{◌≡◌, ◌≤◌, ◌+◌, length};
ghost use Rattle.oe_extent.specs.Images.{Writes};
ghost use Rattle.oe_image.specs.Rows.{history, new_order, order, order_line};

use crate::columns::Imaged;
use oe_rows::histories::History;
use oe_rows::orders::{NewOrder, Order, OrderLine};
use oe_values::numbers::Carrier;
use oe_values::stamps::Stamp;

/// Gives O_CARRIER_ID as it is written.
#[inline]
fn carrier_column(carrier: &Option<Carrier>) -> Option<u8>
    ensures { result ≡ carrier.now }
{
    match carrier {
        Some(carrier) => Some(carrier.get() as u8),
        None => None,
    }
}

/// Gives OL_DELIVERY_D as it is written.
#[inline]
fn delivery_column(delivery: &Option<Stamp>) -> Option<u64>
    ensures { result ≡ delivery.now }
{
    match delivery {
        Some(stamp) => Some(stamp.seconds()),
        None => None,
    }
}

impl Imaged for History {
    ghost most = { 50 };

    ghost image = { λ h. history h };

    #[inline]
    #[tactic(auto, unfolding(crate::specs::Rows::history))]
    fn length(&self) -> usize {
        24 + (&self.data).length()
    }

    #[inline]
    #[tactic(auto, unfolding(crate::specs::Rows::history))]
    fn write(&self, bytes: &mut [u8], start: usize) -> usize {
        let payment = (self.date.seconds(), (self.amount.cents(), &self.data));
        let district = (
            self.district.district.get() as u8,
            (self.district.warehouse.get() as u16, payment),
        );
        let home = (
            self.customer.district.get() as u8,
            (self.customer.warehouse.get() as u16, district),
        );
        (self.customer.customer.get() as u16, home).write(bytes, start)
    }
}

impl Imaged for NewOrder {
    ghost most = { 0 };

    ghost image = { λ o. new_order o };

    #[inline]
    fn length(&self) -> usize {
        0
    }

    #[inline]
    fn write(&self, bytes: &mut [u8], start: usize) -> usize {
        let _bytes = bytes.len();
        start
    }
}

impl Imaged for Order {
    ghost most = { 14 };

    ghost image = { λ o. order o };

    #[inline]
    #[tactic(auto, unfolding(crate::specs::Rows::order))]
    fn length(&self) -> usize {
        let carrier = carrier_column(&self.carrier);
        12 + carrier.length()
    }

    #[inline]
    #[tactic(auto, unfolding(crate::specs::Rows::order))]
    fn write(&self, bytes: &mut [u8], start: usize) -> usize {
        let carrier = carrier_column(&self.carrier);
        let rest = (carrier, (self.line_count.get() as u8, self.all_local));
        (self.customer.get() as u16, (self.entry.seconds(), rest)).write(bytes, start)
    }
}

impl Imaged for OrderLine {
    ghost most = { 50 };

    ghost image = { λ l. order_line l };

    #[inline]
    #[tactic(auto, unfolding(crate::specs::Rows::order_line))]
    fn length(&self) -> usize {
        let delivery = delivery_column(&self.delivery);
        15 + (delivery, &self.dist_info).length()
    }

    #[inline]
    #[tactic(auto, unfolding(crate::specs::Rows::order_line))]
    fn write(&self, bytes: &mut [u8], start: usize) -> usize {
        let delivery = delivery_column(&self.delivery);
        let sold = (
            self.quantity.get() as u8,
            (self.amount.cents(), &self.dist_info),
        );
        let rest = (self.supply.get() as u16, (delivery, sold));
        (self.item.get(), rest).write(bytes, start)
    }
}
