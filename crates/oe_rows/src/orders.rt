//! Orders, their lines, and the orders not yet delivered.
//!
//! A row's columns are in their ranges by type. Nothing can fail, and nothing takes memory.
ghost use Rattle.std.specs.Prelude.{◌≡◌, ◌↔◌, IsTrue};

use oe_values::numbers::{
    Carrier, CustomerNumber, ItemNumber, LineAmount, LineCount, LineQuantity, WarehouseNumber,
};
use oe_values::stamps::Stamp;
use oe_values::texts::Text;

/// A NEW-ORDER row without its key: it has no other column (clause 1.3.1).
#[derive(Clone, Copy, PartialEq, Eq)]
pub struct NewOrder;

/// An ORDER row without its key (clause 1.3.1). The carrier is null until the order is delivered.
#[derive(Clone, Copy)]
pub struct Order {
    pub customer: CustomerNumber,
    pub entry: Stamp,
    pub carrier: Option<Carrier>,
    pub line_count: LineCount,
    pub all_local: bool,
}

/// An ORDER-LINE row without its key (clause 1.3.1). The delivery date is null until the order is
/// delivered.
#[derive(Drop)]
pub struct OrderLine {
    pub item: ItemNumber,
    pub supply: WarehouseNumber,
    pub delivery: Option<Stamp>,
    // Before the quantity, so that no room is lost between them.
    pub amount: LineAmount,
    pub quantity: LineQuantity,
    pub dist_info: Text<24, 24>,
}

impl NewOrder {
    /// Tells whether two such rows are equal, which all are.
    pub fn is_same(&self, other: &NewOrder) -> bool
        ensures { IsTrue result ↔ (self.now ≡ other.now) }
    {
        self == other
    }
}

impl Order {
    ghost use Rattle.oe_rows.specs.Order.{IsOrder};

    /// Gives O_C_ID, O_CARRIER_ID and O_OL_CNT.
    pub fn figures(&self) -> (u32, Option<u32>, u32)
        ensures ranges { IsOrder self.now }
        ensures value { result ≡ (self.now.customer, self.now.carrier, self.now.line_count) }
    {
        let _entry = self.entry.seconds();
        (
            self.customer.get(),
            self.carrier.map(|carrier| carrier.get()),
            self.line_count.get(),
        )
    }

    /// Copies the value.
    pub fn copied(&self) -> Self
        ensures { result ≡ self.now }
    {
        *self
    }

    /// Tells whether two orders are equal.
    pub fn is_same(&self, other: &Order) -> bool
        ensures { IsTrue result ↔ (self.now ≡ other.now) }
    {
        self.customer == other.customer
            && self.entry == other.entry
            && self.carrier == other.carrier
            && self.line_count == other.line_count
            && self.all_local == other.all_local
    }
}

impl OrderLine {
    ghost use Rattle.oe_rows.specs.Order.{IsOrderLine};

    /// Gives OL_I_ID, OL_SUPPLY_W_ID, OL_DELIVERY_D in seconds, OL_QUANTITY and OL_AMOUNT in cents.
    pub fn figures(&self) -> (u32, u32, Option<u64>, u32, u64)
        ensures ranges { IsOrderLine self.now }
        ensures value { result ≡ (
          self.now.item,
          self.now.supply,
          self.now.delivery,
          self.now.quantity,
          self.now.amount,
        ) }
    {
        let _info = self.dist_info.as_str();
        (
            self.item.get(),
            self.supply.get(),
            self.delivery.map(|stamp| stamp.seconds()),
            self.quantity.get(),
            self.amount.cents(),
        )
    }

    /// Copies the value, and takes no memory.
    pub fn copied(&self) -> Self
        ensures { result ≡ self.now }
    {
        OrderLine {
            item: self.item,
            supply: self.supply,
            delivery: self.delivery,
            quantity: self.quantity,
            amount: self.amount,
            dist_info: self.dist_info.copied(),
        }
    }

    /// Tells whether two lines are equal.
    pub fn is_same(&self, other: &OrderLine) -> bool
        ensures { IsTrue result ↔ (self.now ≡ other.now) }
    {
        self.item == other.item
            && self.supply == other.supply
            && self.delivery == other.delivery
            && self.quantity == other.quantity
            && self.amount == other.amount
            && self.dist_info == other.dist_info
    }
}
