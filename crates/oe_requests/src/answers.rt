//! Answers: each step has one. An answer is a plain value, and owns its reply.
ghost use Rattle.std.specs.Prelude.{◌≡◌};

use crate::audits::Verdict;
use crate::refusals::Refusal;
use crate::replies::{QueryReply, Reply};
use oe_values::Moment;

/// What a step is answered.
#[derive(Drop, PartialEq, Eq)]
pub enum Answer {
    Begun,
    /// The transaction is open, and has a stage left.
    More,
    /// The transaction committed and made that moment.
    Committed(Moment, Reply),
    Saved,
    Back,
    RolledBack,
    Replied(QueryReply),
    Purged(Moment),
    Rewound(Moment),
    Audited(Verdict),
    Refused(Refusal),
}

impl Answer {
    /// Copies the value, and takes no memory.
    pub fn copied(&self) -> Self
        ensures { result ≡ self.now }
    {
        match self {
            Answer::Begun => Answer::Begun,
            Answer::More => Answer::More,
            Answer::Committed(moment, reply) => Answer::Committed(*moment, reply.copied()),
            Answer::Saved => Answer::Saved,
            Answer::Back => Answer::Back,
            Answer::RolledBack => Answer::RolledBack,
            Answer::Replied(reply) => Answer::Replied(reply.copied()),
            Answer::Purged(moment) => Answer::Purged(*moment),
            Answer::Rewound(moment) => Answer::Rewound(*moment),
            Answer::Audited(verdict) => Answer::Audited(*verdict),
            Answer::Refused(refusal) => Answer::Refused(*refusal),
        }
    }
}
