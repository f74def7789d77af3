//! What an undo record of an update has of the row before.

/// The layout of undo records: what a record of an update keeps.
#[derive(Clone, Copy, PartialEq, Eq)]
pub enum Layout {
    /// The whole row before.
    WholeRows,
    /// Of each column that the update changed its value before.
    ChangedColumns,
}
