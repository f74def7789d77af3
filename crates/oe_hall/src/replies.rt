//! Where the reply of a commit is kept, behind the turn that made it.
ghost use Rattle.std.specs.Prelude.{◌≡◌, Some, IsSome};
ghost use Rattle.oe_requests.specs.Reply.{told_reply};

use oe_machine::Machine;
use oe_requests::{PaymentReply, Reply, ReplyRef};
use oe_values::Terminal;

/// Copies the reply of the terminal's last transaction, which has committed.
#[inline]
pub(crate) fn keep_last<M: Machine>(core: &M, terminal: Terminal, reply: &mut Option<Reply>)
    requires { IsSome (M.last core.now terminal) }
    ensures { reply.new ≡ M.last core.now terminal }
{
    match core.last_reply(terminal) {
        Some(last) => keep(&last, reply),
        None => unreachable!(),
    }
}

// Copies a reply that is lent.
#[inline]
fn keep(lent: &ReplyRef, reply: &mut Option<Reply>)
    ensures { reply.new ≡ Some (told_reply lent.now) }
{
    match lent {
        ReplyRef::Payment(payment) => keep_payment(payment, reply),
        other => *reply = Some(other.copied()),
    }
}

// Copies a payment's reply. Where another payment's was kept no more is written than it has, which
// is an eighth of the room.
#[inline]
fn keep_payment(payment: &PaymentReply, reply: &mut Option<Reply>)
    ensures { reply.new ≡ Some (Reply.Payment payment.now) }
{
    if let Some(Reply::Payment(before)) = reply {
        *before = payment.copied();
        return;
    }
    *reply = Some(Reply::Payment(payment.copied()));
}
