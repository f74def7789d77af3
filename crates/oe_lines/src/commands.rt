//! What a line of a script asks for.
//!
//! A `Command` keeps its parts as plain values, in their ranges by type. A line has at most one
//! meaning.
ghost use Rattle.std.specs.Prelude.{◌≡◌};
ghost use Rattle.oe_lines.specs.Rings.{layout_of};

use oe_requests::{Condition, Query, Request};
use oe_rows::{Layout, Scale, Table};
use oe_values::{ExtentCount, Moment, Number, Terminal};

/// The newest moment, or one by its number.
#[derive(Clone, Copy)]
pub enum MomentChoice {
    Now,
    At(Moment),
}

/// What a line asks to be shown.
#[derive(Clone, Copy)]
pub enum Display {
    /// A table's rows.
    Rows(Table),
    /// Who waits for whom.
    Waits,
    /// Who holds which name in which mode.
    Locks,
}

/// The undo ring that a line opens: how many extents, and the layout of its records, where the line
/// says one.
#[derive(Clone, Copy)]
pub struct RingChoice {
    pub extents: ExtentCount,
    pub layout: Option<Layout>,
}

impl RingChoice {
    /// Gives the layout of records: whole rows where the line says none.
    pub fn layout_or_whole_rows(&self) -> Layout
        ensures { result ≡ layout_of self.now }
    {
        match self.layout {
            Some(layout) => layout,
            None => Layout::WholeRows,
        }
    }
}

/// What a line asks for.
#[derive(Drop)]
pub enum Command {
    /// Opens a population of that scale, with such an undo ring.
    Open(Scale, RingChoice),
    /// The terminal begins a transaction.
    Begin(Terminal, Request),
    /// The terminal's transaction advances by one stage.
    Next(Terminal),
    /// The terminal's transaction advances until it is answered something else than that a stage is
    /// left.
    Run(Terminal),
    /// The terminal's transaction moves its mark here.
    Save(Terminal),
    /// The terminal's transaction goes back to its mark.
    Back(Terminal),
    /// The terminal's transaction is rolled back.
    Rollback(Terminal),
    /// Shows something as it stands, open work included.
    Show(Display),
    /// Audits a consistency condition.
    Audit(Condition, MomentChoice),
    /// Answers a query.
    Read(MomentChoice, Query),
    /// Lets go of what is older than the moment.
    Purge(MomentChoice),
    /// Takes the tables back to the moment.
    Rewind(MomentChoice),
}
