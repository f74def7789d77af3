//! One transaction or query alone in a core. A transaction is begun where nothing is open, carried
//! out to its end, and forgotten once its answer is known, so that no more work is kept than one
//! transaction's.
ghost use Rattle.std.specs.Prelude.{◌≡◌, [], None, IfOk, OnOk};
ghost use Rattle.oe_texts.specs.Refusal.{error_text};
ghost use Rattle.oe_file_serial.specs.declared.lines.Asked.TheVariants as asked;
ghost use Rattle.oe_file_serial.specs.Answers.{Answers};
ghost use Rattle.oe_model.specs.System.{system};
ghost use Rattle.oe_file_serial.specs.InOrder.{between};
ghost use Rattle.oe_file_serial.specs.Worlds.{IsFree, Ends, IsAnswered, shortage_of};

use crate::answers::{AnswerText, write_answer, write_refusal, write_reply};
use crate::lines::Asked;
use crate::verdicts::Shortage;
use oe_machine::{Advanced, Machine};
use oe_requests::{Query, Refusal, Request};
use oe_values::Terminal;

// Begins a transaction and carries it out to its end.
fn carried_out<M: Machine>(core: &mut M, terminal: Terminal, request: &Request) -> Advanced
    requires { IsFree (M.world core.old) }
    ensures { Ends (between system (M.world core.old)) terminal request.now result
        (M.last core.new terminal) (M.world core.new) }
{
    if let Err(refusal) = core.begin(terminal, request) {
        return Advanced::Kept(refusal);
    }
    loop {
        match core.advance(terminal) {
            Advanced::More => {}
            ended => return ended,
        }
    }
}

// Forgets the commits so far.
fn forget<M: Machine>(core: &mut M)
    requires { IsFree (M.world core.old) }
    ensures free { IsFree (M.world core.new) }
    ensures same { between system (M.world core.new) ≡ between system (M.world core.old) }
{
    let _purged = core.purge(core.newest());
}

// Tells what a transaction was refused for want of, where it has no reason of its own.
fn shortage(refusal: &Refusal) -> Option<Shortage>
    ensures { result ≡ shortage_of refusal.now }
{
    match refusal {
        Refusal::NoMemory => Some(Shortage::NoMemory),
        Refusal::UndoFull => Some(Shortage::UndoFull),
        _ => None,
    }
}

// Writes the text of a refusal, where it doesn't tell of a shortage.
fn refused(refusal: &Refusal, out: &mut AnswerText) -> Result<(), Shortage>
    requires { out.old.items ≡ [] }
    ensures own { OnOk result (shortage_of refusal.now ≡ None) }
    ensures text { OnOk result (out.new.items ≡ error_text refusal.now) }
{
    match shortage(refusal) {
        Some(shortage) => Err(shortage),
        None => {
            write_refusal(refusal, out);
            Ok(())
        }
    }
}

// Carries a transaction out alone, and writes the text that it is answered.
#[tactic(none)]
fn transacted<M: Machine>(
    core: &mut M,
    terminal: Terminal,
    request: &Request,
    out: &mut AnswerText,
) -> Result<(), Shortage>
    requires { IsFree (M.world core.old) }
    ensures { IfOk result (λ o. IsAnswered (between system (M.world core.old))
        (asked.Transaction terminal request.now) out.new.items (M.world core.new)) }
{
    out.clear();
    match carried_out(core, terminal, request) {
        Advanced::Committed(moment) => {
            write_reply(core, terminal, moment, out);
            forget(core);
            Ok(())
        }
        Advanced::Kept(refusal) => refused(&refusal, out),
        Advanced::RolledBack(refusal) => refused(&refusal, out),
        Advanced::More => unreachable!(),
    }
}

// Writes the text that a query of the tables as they stand is answered.
#[tactic(none)]
fn enquired<M: Machine>(core: &M, query: &Query, out: &mut AnswerText)
    requires { IsFree (M.world core.now) }
    ensures { Answers (between system (M.world core.now)) (asked.Query query.now) out.new.items
        (between system (M.world core.now)) }
{
    out.clear();
    write_answer(&core.read(core.newest(), query), out);
}

/// Has one transaction or query answered, alone, and writes the text of its answer.
pub(crate) fn answered<M: Machine>(
    core: &mut M,
    asked: &Asked,
    out: &mut AnswerText,
) -> Result<(), Shortage>
    requires { IsFree (M.world core.old) }
    ensures { IfOk result (λ o. IsAnswered (between system (M.world core.old)) asked.now
        out.new.items (M.world core.new)) }
{
    match asked {
        Asked::Transaction(terminal, request) => transacted(core, *terminal, request, out),
        Asked::Query(query) => {
            enquired(core, query, out);
            Ok(())
        }
    }
}
