//! The taker, and the end of a queue that a sender has.
//!
//! Each end keeps its channel's end and its pass, which knows what was submitted or taken there; by
//! the invariants the pass sits on the seat of that end. To submit may wait for a place, and to
//! take for a message.
ghost use Rattle.std.specs.Prelude.{◌≡◌, ◌+◌, ◌<◌, ◌++◌, [], ◌∷◌, OnOk, OnErr, IfOk, IfSome, IfNone};
ghost use Rattle.crossbeam_channel.specs.Claims.{view as known, IsSeatAt};
ghost use Rattle.crossbeam_channel.specs.Ends.{sends_on, receives_on};
ghost use Rattle.oe_queue.specs.Ends.{TheSender, TheTaker, sent_in, hand_of, new_sender, with_heard, HasTakenAll};
ghost use Rattle.oe_queue.specs.Order.{sender_of, messages_of, IsBeginning};
ghost use Rattle.oe_queue.specs.Rule.{one_more};
ghost use Rattle.oe_queue.specs.declared.rules.Knowledge.TheVariants.{Sending, Taking};

use crate::messages::Message;
use crate::rules::{InOrder, Knowledge, Making, Removing, Submitting, Telling};
use crossbeam_channel::{Pass, RuledReceiver, RuledSender};
use oe_values::Terminal;
use std::alloc::AllocError;
use std::marker::Model;
use std::sync::Wait;

/// How many messages a queue holds.
pub const CAPACITY: usize = 16;

/// A sender's end of the queue, and its pass, which knows what was submitted.
#[derive(Drop)]
pub(crate) struct SendingEnd {
    end: RuledSender<Message, Knowledge, InOrder>,
    pass: Pass<Message, Knowledge>,
    terminal: Terminal,
}

impl Model for SendingEnd {
    ghost Value = { TheSender };

    ghost view = { λ s. record {
      queue = record { table = s.pass.table_id; key = s.pass.me.0.of };
      terminal = s.terminal;
      sent = sent_in (known s.pass);
    } };

    ghost invariant = { λ s. IsSeatAt (sends_on s.end) s.pass
        × (known s.pass
        ≡ Sending (record { terminal = s.terminal; messages = sent_in (known s.pass) })) };
}

/// The end that takes, whose pass knows what was taken.
#[derive(Drop)]
pub struct Taker {
    end: RuledReceiver<Message, Knowledge, InOrder>,
    pass: Pass<Message, Knowledge>,
}

impl Model for Taker {
    ghost Value = { TheTaker };

    ghost view = { λ t. record {
      queue = record { table = t.pass.table_id; key = t.pass.me.0.of };
      taken = (hand_of (known t.pass)).messages;
      heard = (hand_of (known t.pass)).told;
    } };

    ghost invariant = { λ t. IsSeatAt (receives_on t.end) t.pass
        × (known t.pass ≡ Taking (hand_of (known t.pass))) };
}

impl SendingEnd {
    /// Makes the end of the next terminal, from the taker's pass. Memory is the only refusal.
    pub(crate) fn new(
        end: &RuledSender<Message, Knowledge, InOrder>,
        pass: &mut Pass<Message, Knowledge>,
        terminal: Terminal,
    ) -> Result<SendingEnd, AllocError>
        requires seat { IsSeatAt (sends_on end.now) pass.old }
        requires taker { known pass.old ≡ Taking (hand_of (known pass.old)) }
        requires next { (hand_of (known pass.old)).senders + 1 ≡ terminal }
        ensures seat { IsSeatAt (sends_on end.now) pass.new }
        ensures queue { (pass.new.table_id ≡ pass.old.table_id)
            × (pass.new.me.0.of ≡ pass.old.me.0.of) }
        ensures taker { known pass.new ≡ Taking (one_more (hand_of (known pass.old))) }
        ensures sender { IfOk result (λ s.
            s ≡ new_sender (record { table = pass.old.table_id; key = pass.old.me.0.of })
            terminal) }
    {
        let theirs = end.another::<Making>(pass);
        Ok(SendingEnd {
            end: end.try_clone()?,
            pass: theirs,
            terminal,
        })
    }

    /// Gives the terminal.
    pub(crate) fn terminal(&self) -> Terminal
        ensures { result ≡ self.now.terminal }
    {
        self.terminal
    }

    /// Submits a message of the terminal, once fewer than 16 messages are queued. An error says
    /// that the taker is gone; the message is not queued then.
    pub(crate) fn submit<W: Wait>(&mut self, rt: &W, message: Message) -> Result<(), ()>
        requires { sender_of message ≡ self.old.terminal }
        ensures ok { OnOk result
            (self.new ≡ record self.old { sent = self.old.sent ++ message ∷ [] }) }
        ensures err { OnErr result (self.new ≡ self.old) }
    {
        let end = &self.end;
        let _terminal = self.terminal;
        if let Err(_) = end.send_as::<Submitting, W>(rt, &mut self.pass, message) {
            return Err(());
        }
        Ok(())
    }
}

impl Taker {
    /// Joins the taker's end and its pass.
    pub(crate) fn new(
        end: RuledReceiver<Message, Knowledge, InOrder>,
        pass: Pass<Message, Knowledge>,
    ) -> Taker
        requires seat { IsSeatAt (receives_on end) pass }
        requires taker { known pass ≡ Taking (hand_of (known pass)) }
        ensures queue { result.queue ≡ record { table = pass.table_id; key = pass.me.0.of } }
        ensures taken { result.taken ≡ (hand_of (known pass)).messages }
        ensures heard { result.heard ≡ (hand_of (known pass)).told }
    {
        Taker { end, pass }
    }

    /// Takes the oldest message, once there is one. There is none where nothing is queued and all
    /// senders are gone: of each sender that was compared, the whole was then taken.
    pub fn take<W: Wait>(&mut self, rt: &W) -> Option<Message>
        ensures some { IfSome result (λ m.
            self.new ≡ record self.old { taken = self.old.taken ++ m ∷ [] }) }
        ensures none { IfNone result (self.new ≡ self.old) }
        ensures whole { IfNone result (HasTakenAll self.old) }
    {
        let end = &self.end;
        if let Ok(message) = end.recv_as::<Removing, W>(rt, &mut self.pass) {
            return Some(message);
        }
        None
    }

    /// Learns what a sender submitted.
    pub(crate) fn hear(&mut self, sender: SendingEnd)
        requires { sender.queue ≡ self.old.queue }
        ensures heard { self.new ≡ with_heard sender self.old }
        ensures beginning { IsBeginning (messages_of sender.terminal self.old.taken) sender.sent }
    {
        let SendingEnd {
            end,
            pass,
            terminal: _,
        } = sender;
        end.absorb::<Telling>(&mut self.pass, pass);
        end.learn_as::<Telling>(&mut self.pass);
    }
}
