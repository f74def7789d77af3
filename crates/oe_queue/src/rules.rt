//! The rule of the queue, and what each step of a sender or of the taker makes of what it knows.
//! All of it is for proofs: no value of these types is made.
ghost use Rattle.std.specs.Prelude.{⊤};
ghost use Rattle.oe_queue.specs.Rule.{Kept, Submits, Takes, Tells, nothing_taken, with_next, next_sender, knowledge_after};
ghost use Rattle.oe_queue.specs.declared.rules.Knowledge.TheVariants.{Gone, Taking};

use crate::messages::Message;
use atomic_table::{Join, Split};
use crossbeam_channel::protocol::{Lesson, Outcome, Protocol};
use oe_values::Terminal;
use std::collections::LinkedList;

/// What a sender knows: its terminal, and what it submitted.
pub struct Submitted {
    pub terminal: Terminal,
    pub messages: LinkedList<Message>,
}

/// What the taker knows: what it took, how many senders were made, and what those submitted that
/// were compared, the newest first.
pub struct Taken {
    pub messages: LinkedList<Message>,
    pub senders: u32,
    pub told: LinkedList<Submitted>,
}

/// What the holder of a pass knows: a sender, the taker, or a sender that is gone.
pub enum Knowledge {
    Gone,
    Sending(Submitted),
    Taking(Taken),
}

/// The rule: of each sender, what was taken and then what is queued is what it submitted.
pub struct InOrder;

impl Protocol<Message, Knowledge> for InOrder {
    ghost holds = { Kept };

    ghost first = { Taking nothing_taken };
}

/// A sender's step: a message more is submitted.
pub struct Submitting;

impl Outcome<Message, Knowledge> for Submitting {
    ghost then = { Submits };
}

impl Lesson<Message, Knowledge> for Submitting {
    ghost fact = { λ known queued. ⊤ };
}

/// The taker's step: a message more is taken.
pub struct Removing;

impl Outcome<Message, Knowledge> for Removing {
    ghost then = { Takes };
}

impl Lesson<Message, Knowledge> for Removing {
    ghost fact = { Tells };
}

/// The taker's step: the next terminal gets a sender.
pub struct Making;

impl Split<Knowledge> for Making {
    ghost left = { with_next };

    ghost right = { next_sender };
}

/// The taker's step: it takes what a sender submitted, which is then gone.
pub struct Telling;

impl Join<Knowledge> for Telling {
    ghost both = { knowledge_after };

    ghost spent = { Gone };
}

impl Lesson<Message, Knowledge> for Telling {
    ghost fact = { Tells };
}
