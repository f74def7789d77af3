//! The numbers of a drive or a load, and what a load is made of, as the words of a command line say
//! them.
#![tactic(auto)]

pub mod drives;
pub mod forms;
pub mod kinds;

pub use drives::{DriveNumbers, FollowingNumbers, LoadNumbers, Ordinal, number_of};
pub use forms::{Form, Items};
pub use kinds::{Kind, Kinds};
