//! Histories.
//!
//! A row's columns are in their ranges by type. Nothing can fail, and nothing takes memory.
ghost use Rattle.std.specs.Prelude.{◌≡◌, ◌↔◌, IsTrue};

use crate::keys::{CustomerKey, DistrictKey};
use oe_values::numbers::LineAmount;
use oe_values::stamps::Stamp;
use oe_values::texts::Text;

/// A HISTORY row without its key (clause 1.3.1): the customer who paid, and the district where.
#[derive(Drop)]
pub struct History {
    // Before the keys, so that no room is lost between them.
    pub date: Stamp,
    pub amount: LineAmount,
    pub customer: CustomerKey,
    pub district: DistrictKey,
    pub data: Text<0, 24>,
}

impl History {
    ghost use Rattle.oe_rows.specs.History.{IsHistory};

    /// Gives H_DATE in seconds, and H_AMOUNT in cents.
    pub fn figures(&self) -> (u64, u64)
        ensures ranges { IsHistory self.now }
        ensures value { result ≡ (self.now.date, self.now.amount) }
    {
        let _customer = self.customer.columns();
        let _district = self.district.columns();
        let _data = self.data.as_str();
        (self.date.seconds(), self.amount.cents())
    }

    /// Copies the value, and takes no memory.
    pub fn copied(&self) -> Self
        ensures { result ≡ self.now }
    {
        History {
            customer: self.customer,
            district: self.district,
            date: self.date,
            amount: self.amount,
            data: self.data.copied(),
        }
    }

    /// Tells whether two histories are equal.
    pub fn is_same(&self, other: &History) -> bool
        ensures { IsTrue result ↔ (self.now ≡ other.now) }
    {
        self.customer == other.customer
            && self.district == other.district
            && self.date == other.date
            && self.amount == other.amount
            && self.data == other.data
    }
}
