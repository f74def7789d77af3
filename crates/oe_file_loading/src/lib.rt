//! Nine files of a folder: each is opened under its table's name, and they are read as the nine
//! tables. A file's lines spell rows; the rows whose references find their rows are kept as tables,
//! and the others are set apart. Where a line can't be read nothing is kept, and the answer has the
//! faults. A person is told how far the files are read, or why one can't be. Clause numbers are TPC
//! Benchmark C 5.11's.
#![tactic(auto)]

mod base;
pub mod counts;
pub mod files;
mod homes;
pub mod loading;
pub mod opening;
pub mod pace;
pub mod places;
mod putting;
pub mod whole;

pub use counts::RowCounts;
pub use files::{TableFile, reader_of};
pub use loading::{Apart, LoadError, Loaded, Sources, load};
pub use opening::{Openness, open_named, open_tables, tell_closed, tell_unread};
pub use pace::Pace;
pub use whole::{NotWhole, load_whole};
