//! What happens at the lines of a load.

use oe_rows::{Mode, Name};
use oe_values::Terminal;

/// What happened at a line of a load.
#[derive(Clone, Copy)]
pub enum Happening {
    /// A transaction began.
    Begun,
    /// A query was answered, or commits were let go of.
    Done,
    /// A terminal's stage that asks for no lock was carried out.
    Went(Terminal),
    /// A terminal's stage was carried out, and this lock was taken for it.
    Took(Terminal, Name, Mode),
    /// A terminal was answered `Busy`, with this name and the terminal that holds it.
    Waits(Terminal, Name, Terminal),
    /// A terminal was rolled back that waited for itself through others, and first for this name.
    Broke(Terminal, Name),
    /// A terminal was rolled back that did not wait for itself.
    GaveWay(Terminal),
}
