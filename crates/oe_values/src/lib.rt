//! Numbers, money, moments, stamps and texts in their ranges, and short lists, whose copies take no
//! memory; what is kept by terminal; what makes a value a key of a table, and the refusal of
//! memory. Clause numbers are TPC Benchmark C 5.11's.
#![tactic(auto)]

pub mod brands;
pub mod fronts;
mod held;
pub mod known;
pub mod lines;
pub mod memory;
pub mod numbers;
pub mod stamps;
pub mod table_keys;
pub mod terminals;
pub mod texts;

pub use brands::BrandText;
pub use lines::Lines;
pub use memory::NoMemory;
pub use numbers::{
    Amount, Balance, Carrier, Cents, Count, CustomerNumber, DistrictNumber, ExtentCount,
    HistoryOrdinal, HistoryTerminal, ImageNumber, ItemNumber, LineAmount, LineCount, LineNumber,
    LineQuantity, LowStock, Moment, Number, OrderNumber, PaymentAmount, Price, Quantity, Rate,
    RequestedItem, StockYtd, TERMINALS, Terminal, TerminalCount, Threshold, TransactionNumber,
    WarehouseNumber, YearToDate,
};
pub use stamps::{SECONDS, Stamp};
pub use table_keys::{ShelvedKey, TableKey};
pub use terminals::{PerTerminal, empty_slots};
pub use texts::{FirstName, LastName, ShortText, Text};
