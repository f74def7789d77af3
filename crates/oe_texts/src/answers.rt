//! The texts of answers, appended to a buffer in which the longest has room.
ghost use Rattle.std.specs.Prelude.{◌≡◌, ◌≤◌, ◌+◌, ◌++◌, codes, decimal};
ghost use Rattle.arrayvec.specs.ArrayVec.{array_vec_len};
ghost use Rattle.oe_requests.specs.declared.answers.Answer.{Answer};
ghost use Rattle.oe_requests.specs.Reply.{told_reply};
ghost use Rattle.oe_texts.specs.Answer.{verdict_text, answer_text, answer_line, audit_line};

use crate::columns::{number, small_then};
use crate::keys::columns;
use crate::pending::{LONGEST, Pending, SIZE, text};
use crate::refusals::error;
use crate::replies::{lent_reply, query, reply};
use oe_requests::{Answer, Condition, Refusal, Reply, ReplyRef, Verdict};
use oe_values::Moment;

/// Appends `holds`, or `fails at <key columns>`.
fn verdict(out: &mut Pending, verdict: &Verdict)
    requires { array_vec_len out.old + 52 ≤ SIZE }
    ensures items { out.new.items ≡ out.old.items ++ verdict_text verdict.now }
    ensures len { array_vec_len out.new ≤ array_vec_len out.old + 52 }
{
    match verdict {
        Verdict::Holds => text(out, b"holds"),
        Verdict::Fails(key) => {
            text(out, b"fails at ");
            columns(out, key, b' ');
        }
    }
}

/// Appends `commit <moment> `.
fn commit_at(out: &mut Pending, moment: Moment)
    requires { array_vec_len out.old + 28 ≤ SIZE }
    ensures items { out.new.items ≡ out.old.items
        ++ (codes "commit " ++ decimal moment ++ codes " ") }
    ensures len { array_vec_len out.new ≤ array_vec_len out.old + 28 }
{
    text(out, b"commit ");
    number(out, moment.get());
    out.push(b' ');
}

/// Appends `commit <moment> <reply>`.
fn commit(out: &mut Pending, moment: Moment, given: &Reply)
    requires { array_vec_len out.old + 1239 ≤ SIZE }
    ensures items { out.new.items ≡ out.old.items
        ++ answer_text (Answer.Committed moment given.now) }
    ensures len { array_vec_len out.new ≤ array_vec_len out.old + 1239 }
{
    commit_at(out, moment);
    reply(out, given);
}

fn answer_without_end(out: &mut Pending, answer: &Answer)
    requires { array_vec_len out.old + 1239 ≤ SIZE }
    ensures items { out.new.items ≡ out.old.items ++ answer_text answer.now }
    ensures len { array_vec_len out.new ≤ array_vec_len out.old + 1239 }
{
    match answer {
        Answer::Begun => text(out, b"begun"),
        Answer::More => text(out, b"more"),
        Answer::Committed(moment, given) => commit(out, *moment, given),
        Answer::Saved => text(out, b"saved"),
        Answer::Back => text(out, b"back"),
        Answer::RolledBack => text(out, b"rolled back"),
        Answer::Replied(given) => query(out, given),
        Answer::Purged(moment) => {
            text(out, b"purged ");
            number(out, moment.get());
        }
        Answer::Rewound(moment) => {
            text(out, b"rewound ");
            number(out, moment.get());
        }
        Answer::Audited(found) => verdict(out, found),
        Answer::Refused(refusal) => error(out, refusal),
    }
}

/// Appends the line of an answer. That of an audit also names the condition: `audited` writes it.
pub fn answer(out: &mut Pending, answer: &Answer)
    requires { array_vec_len out.old + LONGEST ≤ SIZE }
    ensures items { out.new.items ≡ out.old.items ++ answer_line answer.now }
    ensures len { array_vec_len out.new ≤ array_vec_len out.old + LONGEST }
{
    answer_without_end(out, answer);
    out.push(b'\n');
}

/// Appends the line of a Begin that was not refused.
pub fn begun(out: &mut Pending)
    requires { array_vec_len out.old + LONGEST ≤ SIZE }
    ensures items { out.new.items ≡ out.old.items ++ answer_line Answer.Begun }
    ensures len { array_vec_len out.new ≤ array_vec_len out.old + LONGEST }
{
    text(out, b"begun\n");
}

/// Appends the line of an Advance that has left a row.
pub fn more(out: &mut Pending)
    requires { array_vec_len out.old + LONGEST ≤ SIZE }
    ensures items { out.new.items ≡ out.old.items ++ answer_line Answer.More }
    ensures len { array_vec_len out.new ≤ array_vec_len out.old + LONGEST }
{
    text(out, b"more\n");
}

/// Appends the line of a commit with this reply.
pub fn committed(out: &mut Pending, moment: Moment, given: &ReplyRef)
    requires { array_vec_len out.old + LONGEST ≤ SIZE }
    ensures items { out.new.items ≡ out.old.items
        ++ answer_line (Answer.Committed moment (told_reply given.now)) }
    ensures len { array_vec_len out.new ≤ array_vec_len out.old + LONGEST }
{
    commit_at(out, moment);
    lent_reply(out, given);
    out.push(b'\n');
}

/// Appends the line of a refusal.
pub fn refused(out: &mut Pending, refusal: &Refusal)
    requires { array_vec_len out.old + LONGEST ≤ SIZE }
    ensures items { out.new.items ≡ out.old.items ++ answer_line (Answer.Refused refusal.now) }
    ensures len { array_vec_len out.new ≤ array_vec_len out.old + LONGEST }
{
    error(out, refusal);
    out.push(b'\n');
}

/// Appends the line of an audit: `condition N holds`, or `condition N fails at <key columns>`.
pub fn audited(out: &mut Pending, condition: Condition, found: &Verdict)
    requires { array_vec_len out.old + LONGEST ≤ SIZE }
    ensures items { out.new.items ≡ out.old.items ++ audit_line condition found.now }
    ensures len { array_vec_len out.new ≤ array_vec_len out.old + LONGEST }
{
    text(out, b"condition ");
    small_then(out, u32::from(condition.number()), b' ');
    verdict(out, found);
    out.push(b'\n');
}

/// Appends the line `opened`.
pub fn opened(out: &mut Pending)
    requires { array_vec_len out.old + LONGEST ≤ SIZE }
    ensures items { out.new.items ≡ out.old.items ++ codes "opened\n" }
    ensures len { array_vec_len out.new ≤ array_vec_len out.old + LONGEST }
{
    text(out, b"opened\n");
}
