//! The text that a transaction or a query is answered, cut out of the line of its answer.
ghost use Rattle.std.specs.Prelude.{◌≡◌, ◌≤◌, ◌+◌, ◌++◌, [], ℕ, List, Some, length, codes};
ghost use Rattle.arrayvec.specs.ArrayVec.{array_vec_len};
ghost use Rattle.oe_texts.specs.Answer.{answer_line, answer_text};
ghost use Rattle.oe_texts.specs.Refusal.{error_text};
ghost use Rattle.oe_texts.specs.Reply.{reply_text};
ghost use Rattle.oe_requests.specs.declared.answers.Answer.{Answer};
ghost use Rattle.oe_requests.specs.declared.replies.Reply.{Reply};

use crate::texts::commit_front;
use arrayvec::ArrayVec;
use oe_machine::Machine;
use oe_requests::{Answer, Refusal};
use oe_texts::{LONGEST, Pending, SIZE, answer, committed, refused};
use oe_values::{Moment, Terminal};

/// The text that a transaction or a query is answered.
pub type AnswerText = ArrayVec<u8, LONGEST>;

// Appends these bytes.
fn put(out: &mut AnswerText, bytes: &[u8])
    requires { array_vec_len out.old + length bytes.now ≤ LONGEST }
    ensures { out.new.items ≡ out.old.items ++ bytes.now }
{
    out.try_extend_from_slice(bytes).unwrap();
}

// Gives what stands between a front and the byte 10 at the end.
fn inner<'a>(line: &'a [u8], front: &[u8]) -> &'a [u8]
    requires { (text : List ℕ) × (line.now ≡ front.now ++ text ++ codes "\n") }
    ensures text { (text : List ℕ) → line.now ≡ front.now ++ text ++ codes "\n"
        → result.now ≡ text }
    ensures short { length result.now ≤ length line.now }
{
    &line[front.len()..line.len() - 1]
}

// Appends the line of the commit at a moment, whose reply is the terminal's last.
fn commit_line<M: Machine>(core: &M, terminal: Terminal, moment: Moment, line: &mut Pending)
    requires room { array_vec_len line.old + LONGEST ≤ SIZE }
    requires reply { (y : Reply) × (M.last core.now terminal ≡ Some y) }
    ensures items { (y : Reply) → M.last core.now terminal ≡ Some y
        → line.new.items ≡ line.old.items ++ answer_line (Answer.Committed moment y) }
    ensures len { array_vec_len line.new ≤ array_vec_len line.old + LONGEST }
{
    match &core.last_reply(terminal) {
        Some(reply) => committed(line, moment, reply),
        None => unreachable!(),
    }
}

/// Writes the text of the reply of the commit at a moment.
pub(crate) fn write_reply<M: Machine>(
    core: &M,
    terminal: Terminal,
    moment: Moment,
    out: &mut AnswerText,
)
    requires empty { out.old.items ≡ [] }
    requires reply { (y : Reply) × (M.last core.now terminal ≡ Some y) }
    ensures { (y : Reply) → M.last core.now terminal ≡ Some y
        → out.new.items ≡ reply_text y }
{
    let mut front = Pending::new();
    commit_front(&mut front, moment);
    let mut line = Pending::new();
    commit_line(core, terminal, moment, &mut line);
    put(out, inner(line.as_slice(), front.as_slice()));
}

/// Writes the text of a refusal.
pub(crate) fn write_refusal(refusal: &Refusal, out: &mut AnswerText)
    requires { out.old.items ≡ [] }
    ensures { out.new.items ≡ error_text refusal.now }
{
    let mut line = Pending::new();
    refused(&mut line, refusal);
    put(out, inner(line.as_slice(), b""));
}

/// Writes the text of an answer.
pub(crate) fn write_answer(given: &Answer, out: &mut AnswerText)
    requires { out.old.items ≡ [] }
    ensures { out.new.items ≡ answer_text given.now }
{
    let mut line = Pending::new();
    answer(&mut line, given);
    put(out, inner(line.as_slice(), b""));
}
