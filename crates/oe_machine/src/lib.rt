//! What a client knows of a core: the world that it stands for, and its calls, each one step of the
//! model's machine. A client is generic in `M: Machine`, so that its proof needs no undo log and no
//! engine.
#![tactic(auto)]

pub mod advances;
pub mod machines;

pub use advances::Advanced;
pub use machines::Machine;
