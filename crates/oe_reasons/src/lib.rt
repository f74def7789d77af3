//! The table of the forms that a script's lines have, and why a line is answered `BadLine`. Nothing
//! here takes memory.
#![tactic(auto)]

pub mod faults;
pub mod forms;
pub mod laws;
pub mod reasons;
pub mod shapes;
pub mod texts;
pub mod verbs;
mod words;

pub use faults::{WordFault, WrongWord, is_miscounted, read_form, wrong_word};
pub use forms::{Column, Form};
pub use laws::{lists_are_whole, ranges_are_the_grammars, verbs_are_read, words_are_right};
pub use reasons::{Reason, why};
pub use shapes::list_forms;
pub use texts::tell;
pub use verbs::{Kind, Verb, near, read_kind, read_verb};
