//! How a stage of a program ends.
use oe_requests::Refusal;

/// How one stage of a program ends.
#[derive(Drop)]
pub enum Progress {
    /// The stage is done, and there is a further one.
    More,
    /// All stages are done, and the program has its reply; nothing is left but to commit.
    Ready,
    /// The stage was refused, and nothing has changed.
    Refused(Refusal),
}
