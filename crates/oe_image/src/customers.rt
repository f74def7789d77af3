//! Images of customers: names, accounts, and rows with an address and data.
ghost use Rattle.std.specs.Prelude.{◌≡◌, ◌≤◌, ◌+◌, length};
ghost use Rattle.oe_extent.specs.Images.{Writes};
ghost use Rattle.oe_image.specs.Rows.{customer_name, account, customer};

use crate::columns::Imaged;
use oe_rows::customers::{Account, Customer, CustomerName};

impl Imaged for CustomerName {
    ghost most = { 40 };

    ghost image = { λ n. customer_name n };

    #[inline]
    #[tactic(auto, unfolding(crate::specs::Rows::customer_name))]
    fn length(&self) -> usize {
        (&self.first, (&self.middle, &self.last)).length()
    }

    #[inline]
    #[tactic(auto, unfolding(crate::specs::Rows::customer_name))]
    fn write(&self, bytes: &mut [u8], start: usize) -> usize {
        (&self.first, (&self.middle, &self.last)).write(bytes, start)
    }
}

impl Imaged for Account {
    ghost most = { 30 };

    ghost image = { λ a. account a };

    #[inline]
    #[tactic(auto, unfolding(crate::specs::Rows::account))]
    fn length(&self) -> usize {
        30
    }

    #[inline]
    #[tactic(auto, unfolding(crate::specs::Rows::account))]
    fn write(&self, bytes: &mut [u8], start: usize) -> usize {
        let counts = (
            self.payment_count.get() as u16,
            self.delivery_count.get() as u16,
        );
        let money = (
            self.balance.cents().cast_unsigned(),
            (self.ytd_payment.cents(), counts),
        );
        (
            self.credit_limit.cents(),
            (self.discount.get() as u16, money),
        )
            .write(bytes, start)
    }
}

impl Imaged for Customer {
    ghost most = { 683 };

    ghost image = { λ c. customer c };

    #[inline]
    #[tactic(auto, unfolding(crate::specs::Rows::customer))]
    fn length(&self) -> usize {
        let money = (&self.credit, (&self.account, &self.data));
        let rest = (&self.phone, (self.since.seconds(), money));
        (&self.name, (&self.address, rest)).length()
    }

    #[inline]
    #[tactic(auto, unfolding(crate::specs::Rows::customer))]
    fn write(&self, bytes: &mut [u8], start: usize) -> usize {
        let money = (&self.credit, (&self.account, &self.data));
        let rest = (&self.phone, (self.since.seconds(), money));
        (&self.name, (&self.address, rest)).write(bytes, start)
    }
}
