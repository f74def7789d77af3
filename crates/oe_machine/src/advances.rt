//! How an advance ends. The machine lends the reply of a commit until its terminal begins again, so
//! that no answer carries one.

use oe_requests::Refusal;
use oe_values::Moment;

/// How an advance ends. `Machine::last_reply` lends the reply of a commit until its terminal
/// begins again.
#[derive(Drop)]
pub enum Advanced {
    /// A stage is done, and the transaction is open.
    More,
    /// The transaction committed and made that moment.
    Committed(Moment),
    /// Nothing has changed: the transaction is open where it was, or the terminal has none.
    Kept(Refusal),
    /// The transaction is rolled back.
    RolledBack(Refusal),
}
