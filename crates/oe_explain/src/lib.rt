//! A line on an output of its own for each line of a script that is answered `BadLine`, which says
//! why; and the forms that lines may have.
#![tactic(auto)]

pub mod explaining;
pub mod forms;

pub use explaining::{Explainer, explain_script};
pub use forms::write_forms;
