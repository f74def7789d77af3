//! The nine tables as one value, whose type keeps the schema. Clause numbers are TPC Benchmark C
//! 5.11's. A test asks and sets them so:
//!
//! ```
//! let oldest = tables.oldest(district)?.get();
//! let customer = tables.middle(district, &last.as_text())?.get();
//! let warehouse = district.warehouse_key();
//! let before = tables.warehouse(warehouse)?.ytd.cents();
//! tables.set_warehouse_ytd(&warehouse, YearToDate::new(before + 1)?);
//! let after = tables.warehouse(warehouse)?.ytd.cents();
//! Some((oldest, customer) == (8, 7) && after == before + 1)
//! ```
#![tactic(auto)]

pub mod choices;
pub mod columns;
pub mod columns_back;
pub mod copies;
pub mod inserts;
pub mod key_walks;
pub mod purges;
pub mod tables;
mod touches;
pub mod undo;
pub mod updates;
pub mod walks;

pub use key_walks::KeyWalk;
pub use tables::{NineTables, Tables};
