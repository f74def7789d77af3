//! Senders, which submit deliveries and end by a mark.
//!
//! By its invariant a `Sender` has submitted no end mark, and a `Finished` one has submitted it
//! last. So a sender that has ended can submit nothing more.
ghost use Rattle.std.specs.Prelude.{◌≡◌, ◌+◌, ◌++◌, ℕ, [], ◌∷◌, Some, false, vec_len, slice_get, OnOk, OnErr, IfOk, IfErr};
ghost use Rattle.std.specs.List.{Contains};
ghost use Rattle.oe_queue.specs.Ends.{TheSender, new_sender, with_heard};
ghost use Rattle.oe_queue.specs.Order.{messages_of, IsBeginning, has_end, IsEnded};
ghost use Rattle.oe_queue.specs.declared.messages.Message.TheVariants.{Delivery, End};

use crate::ends::{CAPACITY, SendingEnd, Taker};
use crate::messages::Message;
use crossbeam_channel::bounded_with;
use oe_requests::DeliveriesRequest;
use oe_values::{Terminal, TerminalCount};
use std::alloc::{AllocError, Global};
use std::marker::Model;
use std::sync::Wait;

/// A terminal's sender, which has submitted deliveries alone.
#[derive(Drop)]
pub struct Sender {
    end: SendingEnd,
}

impl Model for Sender {
    ghost Value = { TheSender };

    ghost view = { λ s. s.end };

    ghost invariant = { λ s. has_end s.end.sent ≡ false };
}

/// A sender that has submitted its end mark, and nothing after.
#[derive(Drop)]
pub struct Finished {
    end: SendingEnd,
}

impl Model for Finished {
    ghost Value = { TheSender };

    ghost view = { λ f. f.end };

    ghost invariant = { λ f. IsEnded f.end.terminal f.end.sent };
}

/// Makes a queue for terminals 1 to that number: their senders in order, and the taker. Memory is
/// the only refusal.
pub fn open(alloc: Global, terminals: TerminalCount) -> Result<(Vec<Sender>, Taker), AllocError>
    ensures count { IfOk result (λ r. vec_len r.0 ≡ terminals) }
    ensures senders { IfOk result (λ r. (k : ℕ) (s : TheSender) → slice_get r.0.items k ≡ Some s
        → s ≡ new_sender r.1.queue (k + 1)) }
    ensures taker { IfOk result (λ r. (r.1.taken ≡ []) × (r.1.heard ≡ [])) }
{
    let (end, receiver, mut pass) = bounded_with(alloc, CAPACITY)?;
    let mut senders = Vec::new(alloc);
    for number in 0..terminals.get() {
        let terminal = Terminal::new(number + 1).unwrap();
        let end = SendingEnd::new(&end, &mut pass, terminal)?;
        senders.push(Sender { end })?;
    }
    Ok((senders, Taker::new(receiver, pass)))
}

impl Sender {
    /// Gives the terminal whose sender it is.
    pub fn terminal(&self) -> Terminal
        ensures { result ≡ self.now.terminal }
    {
        self.end.terminal()
    }

    // Makes a delivery a message of the terminal.
    fn message(&self, delivery: &DeliveriesRequest) -> Message
        ensures { result ≡ Delivery self.now.terminal delivery.now }
    {
        Message::Delivery(self.terminal(), *delivery)
    }

    /// Submits a delivery, once fewer than 16 messages are queued. Where the taker is gone, it is
    /// handed back and not queued.
    #[tactic(auto, using(crate::proofs::EndFacts::no_end_more))]
    pub fn submit<W: Wait>(
        &mut self,
        rt: &W,
        delivery: DeliveriesRequest,
    ) -> Result<(), DeliveriesRequest>
        ensures ok { OnOk result (self.new ≡ record self.old {
          sent = self.old.sent ++ Delivery self.old.terminal delivery ∷ [];
        }) }
        ensures back { IfErr result (λ d. d ≡ delivery) }
        ensures err { OnErr result (self.new ≡ self.old) }
    {
        let message = self.message(&delivery);
        match self.end.submit(rt, message) {
            Ok(()) => Ok(()),
            Err(()) => Err(delivery),
        }
    }

    /// Submits the end mark, once fewer than 16 messages are queued. Where the taker is gone, the
    /// sender is handed back, and nothing is queued.
    #[tactic(auto, using(crate::proofs::EndFacts::ended))]
    pub fn finish<W: Wait>(self, rt: &W) -> Result<Finished, Sender>
        ensures ok { IfOk result (λ f.
            f ≡ record self { sent = self.sent ++ End self.terminal ∷ [] }) }
        ensures err { IfErr result (λ s. s ≡ self) }
    {
        let terminal = self.terminal();
        let Sender { mut end } = self;
        match end.submit(rt, Message::End(terminal)) {
            Ok(()) => Ok(Finished { end }),
            Err(()) => Err(Sender { end }),
        }
    }

    /// Compares what was taken with what was submitted: it is a beginning. The taker hears the whole,
    /// and finds no message only once it has taken that. This does nothing else: it is a law.
    pub fn compare(self, taker: &mut Taker)
        requires { self.queue ≡ taker.old.queue }
        ensures heard { taker.new ≡ with_heard self taker.old }
        ensures beginning { IsBeginning (messages_of self.terminal taker.old.taken) self.sent }
    {
        let Sender { end } = self;
        taker.hear(end);
    }
}

impl Finished {
    /// Compares what was taken with what was submitted: it is a beginning, and with the end mark
    /// the whole. The taker hears it. This does nothing else: it is a law.
    #[tactic(auto, using(crate::proofs::EndFacts::is_whole))]
    pub fn compare(self, taker: &mut Taker)
        requires { self.queue ≡ taker.old.queue }
        ensures heard { taker.new ≡ with_heard self taker.old }
        ensures beginning { IsBeginning (messages_of self.terminal taker.old.taken) self.sent }
        ensures whole { Contains taker.old.taken (End self.terminal)
            → messages_of self.terminal taker.old.taken ≡ self.sent }
    {
        let Finished { end } = self;
        taker.hear(end);
    }
}
