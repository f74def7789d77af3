//! Refusals, and the columns whose range a result may leave.
//!
//! Their numbers are 2 to 17: number 1 is a script's line which is none of the forms. Each refusal
//! says its cause; the calls that answer it say what has changed then.
ghost use Rattle.std.specs.Prelude.{◌≡◌};
ghost use Rattle.oe_requests.specs.Refusal.{refusal_number, column_name};

use oe_rows::keys::Key;
use oe_rows::locks::Name;
use oe_values::numbers::{Moment, Terminal, TerminalCount};

/// A column whose range a result may leave (clause 1.3.1).
#[derive(Clone, Copy, PartialEq, Eq)]
pub enum Column {
    WarehouseYtd,
    DistrictYtd,
    NextOrder,
    Balance,
    YtdPayment,
    PaymentCount,
    DeliveryCount,
    StockYtd,
    OrderCount,
    RemoteCount,
    HistoryNumber,
}

impl Column {
    /// Gives the column's name in the standard, and `H_NUMBER` for the number in a history row's
    /// key.
    pub fn name(self) -> &'static str
        ensures { result.now ≡ column_name self }
    {
        match self {
            Column::WarehouseYtd => "W_YTD",
            Column::DistrictYtd => "D_YTD",
            Column::NextOrder => "D_NEXT_O_ID",
            Column::Balance => "C_BALANCE",
            Column::YtdPayment => "C_YTD_PAYMENT",
            Column::PaymentCount => "C_PAYMENT_CNT",
            Column::DeliveryCount => "C_DELIVERY_CNT",
            Column::StockYtd => "S_YTD",
            Column::OrderCount => "S_ORDER_CNT",
            Column::RemoteCount => "S_REMOTE_CNT",
            Column::HistoryNumber => "H_NUMBER",
        }
    }
}

/// Why a step is refused.
#[derive(Clone, Copy, PartialEq, Eq)]
pub enum Refusal {
    /// The row that a change or a lock asks for isn't there.
    NoSuchRow(Key),
    /// The row to be inserted is there.
    RowExists(Key),
    /// The result leaves the column's range.
    Overflow(Column),
    /// The row would refer to this one, which isn't there.
    Reference(Key),
    /// An update would change a column that other rows are found by.
    KeyColumn,
    /// That terminal holds the name in a mode that excludes the one asked for.
    Busy(Name, Terminal),
    /// The undo ring has no room for the record.
    UndoFull,
    /// Memory was refused.
    NoMemory,
    /// The terminal has no transaction open.
    NotOpen,
    /// The terminal has a transaction open.
    AlreadyOpen,
    /// An item of the order is unused (clause 2.4.3.4).
    InvalidItem,
    /// No customer has the number or the name.
    NoCustomer,
    /// The moment asked for is before what is kept, which begins at this one.
    TooOld(Moment),
    /// The moment asked for is after the newest, which is this one.
    Future(Moment),
    /// So many terminals have a transaction open.
    NotQuiet(TerminalCount),
    /// The pin word with that number holds no moment of the reader's.
    NotPinned(u64),
}

impl Refusal {
    /// Gives the refusal's number, from 2 to 17.
    pub fn number(&self) -> u8
        ensures { result ≡ refusal_number self.now }
    {
        match self {
            Refusal::NoSuchRow(_) => 2,
            Refusal::RowExists(_) => 3,
            Refusal::Overflow(_) => 4,
            Refusal::Reference(_) => 5,
            Refusal::KeyColumn => 6,
            Refusal::Busy(_, _) => 7,
            Refusal::UndoFull => 8,
            Refusal::NoMemory => 9,
            Refusal::NotOpen => 10,
            Refusal::AlreadyOpen => 11,
            Refusal::InvalidItem => 12,
            Refusal::NoCustomer => 13,
            Refusal::TooOld(_) => 14,
            Refusal::Future(_) => 15,
            Refusal::NotQuiet(_) => 16,
            Refusal::NotPinned(_) => 17,
        }
    }
}
