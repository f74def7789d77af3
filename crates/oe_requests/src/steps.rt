//! Steps, for those who keep lists of them. A step is a plain value, and owns its request.
ghost use Rattle.std.specs.Prelude.{◌≡◌};

use crate::audits::Condition;
use crate::requests::{Query, Request};
use oe_values::{Moment, Terminal};

/// One step of the server. The moments of reads, audits, purges and rewinds are numbers of commits.
#[derive(Drop)]
pub enum Step {
    /// The terminal begins a transaction.
    Begin(Terminal, Request),
    /// The terminal's transaction carries out the next stage of its program, or commits where none
    /// is left.
    Advance(Terminal),
    /// The terminal's transaction moves its mark here.
    Save(Terminal),
    /// The terminal's transaction goes back to its mark.
    Back(Terminal),
    /// The terminal's transaction is rolled back.
    Rollback(Terminal),
    /// A query is answered as of that moment.
    Read(Moment, Query),
    /// What is older than that moment is let go.
    Purge(Moment),
    /// The tables go back to that moment.
    Rewind(Moment),
    /// A condition is audited as of that moment.
    Audit(Condition, Moment),
}

impl Step {
    /// Copies the value, and takes no memory.
    pub fn copied(&self) -> Self
        ensures { result ≡ self.now }
    {
        match self {
            Step::Begin(terminal, request) => Step::Begin(*terminal, request.copied()),
            Step::Advance(terminal) => Step::Advance(*terminal),
            Step::Save(terminal) => Step::Save(*terminal),
            Step::Back(terminal) => Step::Back(*terminal),
            Step::Rollback(terminal) => Step::Rollback(*terminal),
            Step::Read(moment, query) => Step::Read(*moment, query.copied()),
            Step::Purge(moment) => Step::Purge(*moment),
            Step::Rewind(moment) => Step::Rewind(*moment),
            Step::Audit(condition, moment) => Step::Audit(*condition, *moment),
        }
    }
}
