//! What senders put into the queue: deliveries, and an end mark behind the last.
use oe_requests::DeliveriesRequest;
use oe_values::Terminal;

/// A message of a terminal.
#[derive(Clone, Copy)]
pub enum Message {
    /// The terminal asks for the delivery of a warehouse's oldest orders.
    Delivery(Terminal, DeliveriesRequest),
    /// The terminal submits nothing after this.
    End(Terminal),
}
