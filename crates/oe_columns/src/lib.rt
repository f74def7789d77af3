//! The columns that a fact needs of its table, their places on a line, the fact that a line spells,
//! and the print of the columns that no transaction changes. Clause numbers are TPC Benchmark C
//! 5.11's.
#![tactic(auto)]

pub mod columns;
pub mod constants;
pub mod facts;
pub mod headings;
pub mod prints;
pub mod rows;

pub use columns::{Column, Kind, MOST_COLUMNS, fact_columns};
pub use constants::{
    Constant, Constants, Form, MOST_CONSTANTS, Wanted, constant_columns, first_constants,
    heading_constants,
};
pub use facts::read_fact;
pub use headings::{LayoutFault, Named, Places, bare, heading_places, is_heading, layout};
pub use prints::{RowFact, print};
pub use rows::{Misfit, Row};
