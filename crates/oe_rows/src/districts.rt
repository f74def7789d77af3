//! Districts.
//!
//! A row's columns are in their ranges by type. Nothing can fail, and nothing takes memory.
ghost use Rattle.std.specs.Prelude.{◌≡◌, ◌↔◌, IsTrue};

use crate::warehouses::Address;
use oe_values::numbers::{OrderNumber, Rate, YearToDate};
use oe_values::texts::Text;

/// A DISTRICT row without its key (clause 1.3.1).
#[derive(Drop)]
pub struct District {
    pub name: Text<0, 10>,
    pub address: Address,
    pub tax: Rate,
    pub ytd: YearToDate,
    pub next_order: OrderNumber,
}

impl District {
    ghost use Rattle.oe_rows.specs.District.{IsDistrict};

    /// Gives D_TAX, D_YTD and D_NEXT_O_ID.
    pub fn figures(&self) -> (u32, u64, u32)
        ensures ranges { IsDistrict self.now }
        ensures value { result ≡ (self.now.tax, self.now.ytd, self.now.next_order) }
    {
        let _name = self.name.as_str();
        let _lines = self.address.lines();
        (self.tax.get(), self.ytd.cents(), self.next_order.get())
    }

    /// Copies the value, and takes no memory.
    pub fn copied(&self) -> Self
        ensures { result ≡ self.now }
    {
        District {
            name: self.name.copied(),
            address: self.address.copied(),
            tax: self.tax,
            ytd: self.ytd,
            next_order: self.next_order,
        }
    }

    /// Tells whether two districts are equal.
    pub fn is_same(&self, other: &District) -> bool
        ensures { IsTrue result ↔ (self.now ≡ other.now) }
    {
        self.name == other.name
            && self.address.is_same(&other.address)
            && self.tax == other.tax
            && self.ytd == other.ytd
            && self.next_order == other.next_order
    }
}
