//! Replies to requests and queries (clauses 2.4.3 to 2.8.3).
//!
//! A reply is a plain value whose parts are in their ranges by type. Nothing can fail, and nothing
//! takes memory.
ghost use Rattle.std.specs.Prelude.{◌≡◌};
ghost use Rattle.oe_requests.specs.Reply.{told_reply};

use oe_rows::customers::Credit;
use oe_values::lines::Lines;
use oe_values::numbers::{
    Balance, Carrier, Cents, Count, CustomerNumber, ItemNumber, LineAmount, LineQuantity, LowStock,
    OrderNumber, WarehouseNumber,
};
use oe_values::stamps::Stamp;
use oe_values::texts::{FirstName, LastName, Text};

/// Whether an item and its stock are both original, printed as B, or not, printed as G (clause
/// 2.4.2.2).
#[derive(Clone, Copy, PartialEq, Eq)]
pub enum Brand {
    Original,
    Generic,
}

/// What a payment answers (clause 2.5.3): the customer after it.
#[derive(Drop, PartialEq, Eq)]
pub struct PaymentReply {
    pub customer: CustomerNumber,
    pub last: Text<0, 16>,
    pub credit: Credit,
    pub balance: Balance,
}

/// What an order answers of a line (clause 2.4.3): S_QUANTITY after it, and OL_AMOUNT.
#[derive(Clone, Copy, PartialEq, Eq)]
pub struct LineReply {
    pub brand: Brand,
    pub quantity: Count,
    pub amount: LineAmount,
}

/// The lines of an order's reply.
pub type LineReplies = Lines<LineReply, 0, 15>;

/// What an order answers (clause 2.4.3).
#[derive(Drop, PartialEq, Eq)]
pub struct NewOrderReply {
    pub order: OrderNumber,
    pub last: Text<0, 16>,
    pub credit: Credit,
    pub total: Cents,
    pub lines: LineReplies,
}

/// The order that a delivery delivered, its customer, and the sum of its lines' amounts (clause
/// 2.7.4).
#[derive(Clone, Copy, PartialEq, Eq)]
pub struct DeliveredOrder {
    pub order: OrderNumber,
    pub customer: CustomerNumber,
    pub sum: Cents,
}

/// What a delivery did in one district, which it skips where no order waits (clause 2.7.4.2).
#[derive(Clone, Copy, PartialEq, Eq)]
pub enum DistrictDelivery {
    Delivered(DeliveredOrder),
    Skipped,
}

/// What a rename answers: the new names.
#[derive(Drop, PartialEq, Eq)]
pub struct RenameReply {
    pub customer: CustomerNumber,
    pub last: LastName,
    pub first: FirstName,
}

/// What a delivery did in a warehouse's districts from 1 on, in their order: in all ten of them
/// once it has committed.
pub type DistrictDeliveries = Lines<DistrictDelivery, 0, 10>;

/// What a transaction answers when it has committed.
#[derive(Drop, PartialEq, Eq)]
pub enum Reply {
    Payment(PaymentReply),
    NewOrder(NewOrderReply),
    Delivery(DistrictDelivery),
    Deliveries(DistrictDeliveries),
    Rename(RenameReply),
}

/// A reply that a program has come to its end with, lent where its parts lie: a whole `Reply` takes
/// eight times the room of a payment's. Clauses see the reply that it is, by `told_reply`.
#[derive(Drop)]
pub enum ReplyRef<'a> {
    Payment(&'a PaymentReply),
    NewOrder {
        order: OrderNumber,
        last: &'a Text<0, 16>,
        credit: Credit,
        total: Cents,
        lines: &'a LineReplies,
    },
    Delivery(DistrictDelivery),
    Deliveries(&'a DistrictDeliveries),
    Rename {
        customer: CustomerNumber,
        last: &'a LastName,
        first: &'a FirstName,
    },
}

/// A line of a customer's newest order (clause 2.6.3).
#[derive(Clone, Copy, PartialEq, Eq)]
pub struct StatusLine {
    pub supply: WarehouseNumber,
    pub item: ItemNumber,
    pub quantity: LineQuantity,
    pub amount: LineAmount,
    pub delivery: Option<Stamp>,
}

/// The lines of a customer's newest order.
pub type StatusLines = Lines<StatusLine, 0, 15>;

/// A customer's newest order (clause 2.6.3).
#[derive(Drop, PartialEq, Eq)]
pub struct OrderStatus {
    pub number: OrderNumber,
    pub entry: Stamp,
    pub carrier: Option<Carrier>,
    pub lines: StatusLines,
}

/// What an order status answers (clause 2.6.3), with no order where the customer has none.
#[derive(Drop, PartialEq, Eq)]
pub struct StatusReply {
    pub customer: CustomerNumber,
    pub balance: Balance,
    pub order: Option<OrderStatus>,
}

/// What a query answers.
#[derive(Drop, PartialEq, Eq)]
pub enum QueryReply {
    Status(StatusReply),
    Level(LowStock),
}

impl PaymentReply {
    /// Copies the value, and takes no memory.
    pub fn copied(&self) -> Self
        ensures { result ≡ self.now }
    {
        let last = self.last.copied();
        PaymentReply {
            customer: self.customer,
            last,
            credit: self.credit,
            balance: self.balance,
        }
    }
}

impl NewOrderReply {
    /// Copies the value, and takes no memory.
    pub fn copied(&self) -> Self
        ensures { result ≡ self.now }
    {
        NewOrderReply {
            order: self.order,
            last: self.last.copied(),
            credit: self.credit,
            total: self.total,
            lines: self.lines.copied(),
        }
    }
}

impl RenameReply {
    /// Copies the value, and takes no memory.
    pub fn copied(&self) -> Self
        ensures { result ≡ self.now }
    {
        RenameReply {
            customer: self.customer,
            last: self.last.copied(),
            first: self.first.copied(),
        }
    }
}

impl Reply {
    /// Copies the value, and takes no memory.
    pub fn copied(&self) -> Self
        ensures { result ≡ self.now }
    {
        match self {
            Reply::Payment(reply) => Reply::Payment(reply.copied()),
            Reply::NewOrder(reply) => Reply::NewOrder(reply.copied()),
            Reply::Delivery(delivery) => Reply::Delivery(*delivery),
            Reply::Deliveries(deliveries) => Reply::Deliveries(deliveries.copied()),
            Reply::Rename(reply) => Reply::Rename(reply.copied()),
        }
    }
}

impl<'a> ReplyRef<'a> {
    /// Copies the value, and takes no memory.
    pub fn copied(&self) -> Reply
        ensures { result ≡ told_reply self.now }
    {
        match self {
            ReplyRef::Payment(reply) => Reply::Payment(reply.copied()),
            ReplyRef::NewOrder {
                order,
                last,
                credit,
                total,
                lines,
            } => Reply::NewOrder(NewOrderReply {
                order: *order,
                last: last.copied(),
                credit: *credit,
                total: *total,
                lines: lines.copied(),
            }),
            ReplyRef::Delivery(delivery) => Reply::Delivery(*delivery),
            ReplyRef::Deliveries(deliveries) => Reply::Deliveries(deliveries.copied()),
            ReplyRef::Rename {
                customer,
                last,
                first,
            } => Reply::Rename(RenameReply {
                customer: *customer,
                last: last.copied(),
                first: first.copied(),
            }),
        }
    }
}

impl OrderStatus {
    /// Copies the value, and takes no memory.
    pub fn copied(&self) -> Self
        ensures { result ≡ self.now }
    {
        OrderStatus {
            number: self.number,
            entry: self.entry,
            carrier: self.carrier,
            lines: self.lines.copied(),
        }
    }
}

impl StatusReply {
    /// Copies the value, and takes no memory.
    pub fn copied(&self) -> Self
        ensures { result ≡ self.now }
    {
        let order = match &self.order {
            Some(order) => Some(order.copied()),
            None => None,
        };
        StatusReply {
            customer: self.customer,
            balance: self.balance,
            order,
        }
    }
}

impl QueryReply {
    /// Copies the value, and takes no memory.
    pub fn copied(&self) -> Self
        ensures { result ≡ self.now }
    {
        match self {
            QueryReply::Status(reply) => QueryReply::Status(reply.copied()),
            QueryReply::Level(count) => QueryReply::Level(*count),
        }
    }
}

impl Default for DistrictDelivery {
    ghost use Rattle.std.specs.Prelude.{◌≡◌};
    ghost use Rattle.oe_requests.specs.declared.replies.DistrictDelivery.TheVariants.{Skipped};

    ghost is_default = { λ d. d ≡ Skipped };

    fn default() -> Self {
        DistrictDelivery::Skipped
    }
}

impl Default for LineReply {
    ghost use Rattle.std.specs.Prelude.{◌≡◌};
    ghost use Rattle.oe_requests.specs.declared.replies.Brand.TheVariants.{Generic};

    ghost is_default = { λ l. l ≡ record { brand = Generic; quantity = 0; amount = 0 } };

    fn default() -> Self {
        LineReply {
            brand: Brand::Generic,
            quantity: Count::new(0).unwrap(),
            amount: LineAmount::new(0).unwrap(),
        }
    }
}

impl Default for StatusLine {
    ghost use Rattle.std.specs.Prelude.{◌≡◌, None};

    ghost is_default = { λ l.
        l ≡ record { supply = 1; item = 1; quantity = 0; amount = 0; delivery = None } };

    fn default() -> Self {
        StatusLine {
            supply: WarehouseNumber::new(1).unwrap(),
            item: ItemNumber::new(1).unwrap(),
            quantity: LineQuantity::new(0).unwrap(),
            amount: LineAmount::new(0).unwrap(),
            delivery: None,
        }
    }
}
