//! Requests, queries and errands (clauses 2.4.1 to 2.8.1).
//!
//! A request is a plain value whose parts are in their ranges by type; whether its rows are there
//! is tested where it is begun. Nothing can fail, and nothing takes memory.
ghost use Rattle.std.specs.Prelude.{◌≡◌};

use oe_rows::keys::{CustomerKey, DistrictKey, WarehouseKey};
use oe_values::lines::Lines;
use oe_values::numbers::{
    Carrier, CustomerNumber, PaymentAmount, Quantity, RequestedItem, Threshold, WarehouseNumber,
};
use oe_values::stamps::Stamp;
use oe_values::texts::{FirstName, LastName};

/// A customer by C_ID, or by C_LAST (clauses 2.5.1.2 and 2.6.1.2).
#[derive(Drop)]
pub enum CustomerChoice {
    Number(CustomerNumber),
    LastName(LastName),
}

/// A payment at a district, by a customer of that or another one (clause 2.5.1).
#[derive(Drop)]
pub struct PaymentRequest {
    pub district: DistrictKey,
    pub customer_district: DistrictKey,
    pub customer: CustomerChoice,
    pub amount: PaymentAmount,
    pub stamp: Stamp,
}

/// One item of an order (clause 2.4.1.5).
#[derive(Clone, Copy)]
pub struct RequestLine {
    pub supply: WarehouseNumber,
    pub item: RequestedItem,
    pub quantity: Quantity,
}

/// The items of an order (clause 2.4.1.3).
pub type RequestLines = Lines<RequestLine, 5, 15>;

/// An order (clause 2.4.1).
#[derive(Drop)]
pub struct NewOrderRequest {
    pub district: DistrictKey,
    pub customer: CustomerNumber,
    pub stamp: Stamp,
    pub lines: RequestLines,
}

/// The delivery of the oldest order of one district (clause 2.7.1).
#[derive(Clone, Copy)]
pub struct DeliveryRequest {
    pub district: DistrictKey,
    pub carrier: Carrier,
    pub stamp: Stamp,
}

/// The delivery of the oldest order of each of a warehouse's ten districts (clause 2.7.1).
#[derive(Clone, Copy)]
pub struct DeliveriesRequest {
    pub warehouse: WarehouseKey,
    pub carrier: Carrier,
    pub stamp: Stamp,
}

/// A change of a customer's name, which is none of the standard's transactions.
#[derive(Drop)]
pub struct RenameRequest {
    pub customer: CustomerKey,
    pub last: LastName,
    pub first: FirstName,
}

/// What a transaction is begun with.
#[derive(Drop)]
pub enum Request {
    Payment(PaymentRequest),
    NewOrder(NewOrderRequest),
    Delivery(DeliveryRequest),
    Deliveries(DeliveriesRequest),
    Rename(RenameRequest),
}

/// A customer's newest order (clause 2.6.1).
#[derive(Drop)]
pub struct StatusQuery {
    pub district: DistrictKey,
    pub customer: CustomerChoice,
}

/// Asks how many of a district's recent items are in stock below the threshold (clause 2.8.1).
#[derive(Clone, Copy)]
pub struct LevelQuery {
    pub district: DistrictKey,
    pub threshold: Threshold,
}

/// What is read and changes nothing.
#[derive(Drop)]
pub enum Query {
    Status(StatusQuery),
    Level(LevelQuery),
}

/// What a terminal asks for: a transaction, a query, or a delivery that is queued (clause 2.7.2).
#[derive(Drop)]
pub enum Errand {
    Begin(Request),
    Read(Query),
    Deliver(DeliveriesRequest),
}

impl CustomerChoice {
    /// Copies the value, and takes no memory.
    pub fn copied(&self) -> Self
        ensures { result ≡ self.now }
    {
        match self {
            CustomerChoice::Number(number) => CustomerChoice::Number(*number),
            CustomerChoice::LastName(name) => CustomerChoice::LastName(name.copied()),
        }
    }
}

impl PaymentRequest {
    /// Copies the value, and takes no memory.
    pub fn copied(&self) -> Self
        ensures { result ≡ self.now }
    {
        PaymentRequest {
            district: self.district,
            customer_district: self.customer_district,
            customer: self.customer.copied(),
            amount: self.amount,
            stamp: self.stamp,
        }
    }
}

impl NewOrderRequest {
    /// Copies the value, and takes no memory.
    pub fn copied(&self) -> Self
        ensures { result ≡ self.now }
    {
        NewOrderRequest {
            district: self.district,
            customer: self.customer,
            stamp: self.stamp,
            lines: self.lines.copied(),
        }
    }
}

impl RenameRequest {
    /// Copies the value, and takes no memory.
    pub fn copied(&self) -> Self
        ensures { result ≡ self.now }
    {
        RenameRequest {
            customer: self.customer,
            last: self.last.copied(),
            first: self.first.copied(),
        }
    }
}

impl Request {
    /// Copies the value, and takes no memory.
    pub fn copied(&self) -> Self
        ensures { result ≡ self.now }
    {
        match self {
            Request::Payment(request) => Request::Payment(request.copied()),
            Request::NewOrder(request) => Request::NewOrder(request.copied()),
            Request::Delivery(request) => Request::Delivery(*request),
            Request::Deliveries(request) => Request::Deliveries(*request),
            Request::Rename(request) => Request::Rename(request.copied()),
        }
    }
}

impl StatusQuery {
    /// Copies the value, and takes no memory.
    pub fn copied(&self) -> Self
        ensures { result ≡ self.now }
    {
        let customer = self.customer.copied();
        StatusQuery {
            district: self.district,
            customer,
        }
    }
}

impl Query {
    /// Copies the value, and takes no memory.
    pub fn copied(&self) -> Self
        ensures { result ≡ self.now }
    {
        match self {
            Query::Status(query) => Query::Status(query.copied()),
            Query::Level(query) => Query::Level(*query),
        }
    }
}

impl Errand {
    /// Copies the value, and takes no memory.
    pub fn copied(&self) -> Self
        ensures { result ≡ self.now }
    {
        match self {
            Errand::Begin(request) => Errand::Begin(request.copied()),
            Errand::Read(query) => Errand::Read(query.copied()),
            Errand::Deliver(request) => Errand::Deliver(*request),
        }
    }
}

impl Default for RequestLine {
    ghost is_default = { λ l. l ≡ record { supply = 1; item = 1; quantity = 1 } };

    fn default() -> Self {
        RequestLine {
            supply: WarehouseNumber::new(1).unwrap(),
            item: RequestedItem::new(1).unwrap(),
            quantity: Quantity::new(1).unwrap(),
        }
    }
}
