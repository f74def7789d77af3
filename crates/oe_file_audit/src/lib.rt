//! The audit of files: what their lines spell is entered in books of sums, and the report of all
//! checks is written, or what is wrong with lines. Clause numbers are TPC Benchmark C 5.11's.
#![tactic(auto)]

pub mod audits;
pub mod causes;
pub mod earlier;
pub mod faults;
pub mod reading;

pub use audits::{AuditFault, Options, Verdict, audit_dump, audit_tables, status};
pub use causes::{Cause, cause_of};
pub use faults::{Side, write_faults, write_lack};
pub use oe_audit_report::Form;
pub use reading::{TableSource, Unread};
