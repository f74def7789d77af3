//! Where a payment stands.
//!
//! A `Position` keeps its `Stage` and what the stages before it have read. What later ones read may
//! be anything yet, so that a payment begins by setting its stage alone. Nothing can fail.
ghost use Rattle.std.specs.Prelude.{◌≡◌};

use oe_requests::PaymentReply;
use oe_rows::Credit;
use oe_values::{Balance, CustomerNumber, Text};

/// The stage that a payment comes to next.
#[derive(Clone, Copy)]
pub enum Stage {
    Warehouse,
    District,
    /// Of a payment by last name alone.
    Names,
    Customer,
    History,
    End,
}

/// The stage that a payment comes to next, and what the stages before it have read; what the later
/// ones read is anything yet.
#[derive(Drop)]
pub struct Position {
    pub stage: Stage,
    /// W_NAME, once its stage is done.
    pub warehouse: Text<0, 10>,
    /// D_NAME, once its stage is done.
    pub district: Text<0, 10>,
    /// What is answered, once the customer's stage is done; the customer's number before that.
    pub reply: PaymentReply,
}

impl Position {
    ghost use Rattle.oe_model.specs.Positions.{PaymentWarehouse};
    ghost use Rattle.oe_payment.specs.Program.{position_in};

    /// Stands at the first stage.
    pub fn first() -> Self
        ensures { position_in result ≡ PaymentWarehouse }
    {
        Position {
            stage: Stage::Warehouse,
            warehouse: Text::of_printable(b""),
            district: Text::of_printable(b""),
            reply: PaymentReply {
                customer: CustomerNumber::new(1).unwrap(),
                last: Text::of_printable(b""),
                credit: Credit::Good,
                balance: Balance::new(0).unwrap(),
            },
        }
    }

    /// Copies the value, and takes no memory.
    pub fn copied(&self) -> Self
        ensures { result ≡ self.now }
    {
        Position {
            stage: self.stage,
            warehouse: self.warehouse.copied(),
            district: self.district.copied(),
            reply: self.reply.copied(),
        }
    }
}
