//! The one error of a growth that was refused memory.

/// There was no memory.
#[derive(Clone, Copy)]
pub struct NoMemory;
