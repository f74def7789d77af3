//! The small values between terminals and the server: requests, queries and errands, their replies,
//! and refusals; steps, and what they are answered. Copying any of them takes no memory. Clause
//! numbers are TPC Benchmark C 5.11's.
#![tactic(auto)]

pub mod answers;
pub mod audits;
pub mod refusals;
pub mod replies;
pub mod requests;
pub mod steps;

pub use answers::Answer;
pub use audits::{Condition, Verdict};
pub use refusals::{Column, Refusal};
pub use replies::{
    Brand, DeliveredOrder, DistrictDeliveries, DistrictDelivery, LineReplies, LineReply,
    NewOrderReply, OrderStatus, PaymentReply, QueryReply, RenameReply, Reply, ReplyRef, StatusLine,
    StatusLines, StatusReply,
};
pub use requests::{
    CustomerChoice, DeliveriesRequest, DeliveryRequest, Errand, LevelQuery, NewOrderRequest,
    PaymentRequest, Query, RenameRequest, Request, RequestLine, RequestLines, StatusQuery,
};
pub use steps::Step;
