//! Undo records as bytes, as they lie in the ring. A record has its length at both its ends,
//! so that it is found from either; between them stand what was done, and in which table, where the
//! previous record of the same row lies, the key, and of an update the row before, or a mask and
//! the columns that the update changed, as the layout says. Numbers have their most significant
//! byte first. Bytes that are no record are refused. No call takes memory. Clause numbers are TPC
//! Benchmark C 5.11's.
#![tactic(auto)]

pub mod kinds;
pub mod laws;
pub mod links;
pub mod loans;
pub mod parts;
pub mod ranges;
pub mod reading;
pub mod records;
pub mod restoring;
pub mod stored;

pub use links::{CommitMoment, Previous};
pub use loans::{LentRecord, LinkedRecord};
pub use reading::read_record;
pub use records::OwnRecord;
pub use stored::{StoredRecord, linked_record};
