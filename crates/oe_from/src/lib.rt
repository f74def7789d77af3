//! Commands that begin with the population of a folder's nine files: what they come to where it is
//! one, and that they do nothing where it is none. The first type parameter of each is the machine
//! that it opens.
#![tactic(auto)]

pub mod gaps;
pub mod loads;
pub mod scales;
pub mod scripts;
pub mod serials;

pub use gaps::write_gap;
pub use loads::{Following, FollowingFault, run_load_from};
pub use scales::{Gap, scale_of};
pub use scripts::{OpenedFault, run_script_from};
pub use serials::{FromFault, run_comparison_from, run_serial_from};
