//! Who hears of lines that are answered `BadLine`, and says why they are.
ghost use Rattle.std.specs.Prelude.{◌≡◌, ◌≤◌, ◌+◌, ◌++◌, ℕ, List, [], length, false, None};
ghost use Rattle.arrayvec.specs.ArrayVec.{array_vec_len};
ghost use Rattle.oe_io.specs.Ports.{Streams};
ghost use Rattle.oe_script.specs.Hearing.{IsBad};
ghost use Rattle.oe_script.specs.Session.{ScriptHeard};
ghost use Rattle.oe_explain.specs.Explaining.{Explains, IsLineWhy, IsUntaken, IsWhy, Said, SaysOne};

use arrayvec::ArrayVec;
use oe_io::output::flush;
use oe_io::ports::{Failed, Intake, Outlet};
use oe_machine::Machine;
use oe_reasons::{tell, why};
use oe_script::listeners::{Listener, Place};
use oe_script::script::hear_script;
use oe_script::session::ScriptFault;
use oe_texts::{Pending, SIZE, decimal, text};
use std::alloc::Global;

/// A listener that says on an output why each line is answered `BadLine`. Where the output failed
/// once it says nothing more.
#[derive(Drop)]
pub struct Explainer<E: Outlet> {
    pub to: E,
    /// A call of the output failed.
    pub has_failed: bool,
}

impl<E: Outlet> Explainer<E> {
    /// Makes an explainer that says why on this output.
    pub fn new(to: E) -> Self
        ensures output { result.to ≡ to }
        ensures good { result.has_failed ≡ false }
    {
        Explainer {
            to,
            has_failed: false,
        }
    }
}

impl<E: Outlet> Listener for Explainer<E> {
    ghost hears = { λ before heard after.
        SaysOne before.has_failed after.has_failed (E.sink before.to) (E.sink after.to) heard };

    fn hear(&mut self, number: u128, line: &[u8], place: Place) {
        if self.has_failed {
            return;
        }
        self.has_failed = explain(&mut self.to, number, line, place).is_err();
    }
}

/// Appends why a whole line is no command, while something is open, or nothing.
fn tell_line(out: &mut Pending, line: &[u8], is_open: bool)
    requires room { array_vec_len out.old + length line.now + 1_120 ≤ SIZE }
    requires bad { IsUntaken is_open line.now }
    ensures items { (why : List ℕ) × IsLineWhy is_open line.now why
        × (out.new.items ≡ out.old.items ++ why) }
    ensures len { array_vec_len out.new ≤ array_vec_len out.old + length line.now + 1_120 }
{
    let Some(reason) = why(line, is_open) else {
        unreachable!()
    };
    tell(out, line, &reason);
}

/// Appends why a line is answered `BadLine`.
fn tell_why(out: &mut Pending, line: &[u8], place: Place)
    requires room { array_vec_len out.old + 2_200 ≤ SIZE }
    requires bad { IsBad place line.now }
    ensures items { (why : List ℕ) × IsWhy place line.now why
        × (out.new.items ≡ out.old.items ++ why) }
    ensures len { array_vec_len out.new ≤ array_vec_len out.old + 2_200 }
{
    match place {
        Place::Closed => tell_line(out, line, false),
        Place::Open => tell_line(out, line, true),
        Place::Long => text(out, b"it has more than 1024 bytes"),
        Place::Unended => text(out, b"it is the last, and does not end in LF"),
    }
}

/// Writes why the line of this number is answered `BadLine`.
fn explain<E: Outlet>(to: &mut E, number: u128, line: &[u8], place: Place) -> Result<(), Failed>
    requires { IsBad place line.now }
    ensures { (said : List ℕ)
        × Explains (record { number = number; line = line.now; place = place }) said
        × Streams (E.sink to.old) [] (E.sink to.new) [] said result }
{
    let mut out: Pending = ArrayVec::new();
    text(&mut out, b"line ");
    decimal(&mut out, number);
    text(&mut out, b": ");
    tell_why(&mut out, line, place);
    text(&mut out, b"\n");
    flush(&mut out, to)
}

/// Answers a script as `run_script` does, and says on the explainer's output why each line is
/// answered `BadLine`: one line for each, in their order. Where a call of that output failed, a
/// beginning of those lines was written there, and the answers are the same.
pub fn explain_script<M: Machine, R: Intake, W: Outlet, E: Outlet>(
    alloc: Global,
    reader: &mut R,
    writer: &mut W,
    explainer: &mut Explainer<E>,
) -> Result<(), ScriptFault>
    requires { explainer.old.has_failed ≡ false }
    ensures { ScriptHeard None
        (Said explainer.new.has_failed (E.sink explainer.old.to) (E.sink explainer.new.to))
        (R.source reader.old) (R.source reader.new)
        (W.sink writer.old) (W.sink writer.new) result }
{
    hear_script::<M, R, W, Explainer<E>>(alloc, reader, writer, explainer)
}
