//! Whole lines, with the byte that ends them.
ghost use Rattle.std.specs.Prelude.{◌≡◌, ◌≤◌, ◌+◌, ◌++◌, None};
ghost use Rattle.arrayvec.specs.ArrayVec.{array_vec_len};
ghost use Rattle.oe_lines.specs.declared.commands.Command.TheVariants as asks;
ghost use Rattle.oe_lines.specs.declared.commands.MomentChoice.TheVariants as moment;
ghost use Rattle.oe_lines.specs.Texts.{line_text, scale_text};

use crate::requests::{query, request};
use oe_requests::{Query, Request};
use oe_rows::Scale;
use oe_texts::{Pending, SIZE, small, text};
use oe_values::{ExtentCount, Terminal};

/// Appends warehouses, customers and items.
fn scale_words(out: &mut Pending, scale: &Scale)
    requires { array_vec_len out.old + 32 ≤ SIZE }
    ensures items { out.new.items ≡ out.old.items ++ scale_text scale.now }
    ensures len { array_vec_len out.new ≤ array_vec_len out.old + 32 }
{
    small(out, scale.warehouses.get());
    out.push(b' ');
    small(out, scale.customers.get());
    out.push(b' ');
    small(out, scale.items.get());
}

/// Appends the line that opens a population of a scale with a number of extents. It says no
/// layout.
pub fn open_line(out: &mut Pending, scale: &Scale, extents: ExtentCount)
    requires { array_vec_len out.old + 49 ≤ SIZE }
    ensures items { out.new.items ≡ out.old.items ++ line_text
        (asks.Open scale.now (record { extents = extents; layout = None })) }
    ensures len { array_vec_len out.new ≤ array_vec_len out.old + 49 }
{
    text(out, b"open ");
    scale_words(out, scale);
    out.push(b' ');
    small(out, extents.get());
    out.push(b'\n');
}

/// Appends the line by which a terminal begins a request.
#[tactic(auto, using(crate::proofs::TextFacts::request_behind))]
pub fn begin_line(out: &mut Pending, terminal: Terminal, begun: &Request)
    requires { array_vec_len out.old + 574 ≤ SIZE }
    ensures items { out.new.items ≡ out.old.items ++ line_text (asks.Begin terminal begun.now) }
    ensures len { array_vec_len out.new ≤ array_vec_len out.old + 574 }
{
    text(out, b"begin ");
    small(out, terminal.get());
    out.push(b' ');
    request(out, begun);
    out.push(b'\n');
}

/// Appends the line by which a terminal's transaction advances.
pub fn next_line(out: &mut Pending, terminal: Terminal)
    requires { array_vec_len out.old + 16 ≤ SIZE }
    ensures items { out.new.items ≡ out.old.items ++ line_text (asks.Next terminal) }
    ensures len { array_vec_len out.new ≤ array_vec_len out.old + 16 }
{
    text(out, b"next ");
    small(out, terminal.get());
    out.push(b'\n');
}

/// Appends the line by which a terminal's transaction is rolled back.
pub fn rollback_line(out: &mut Pending, terminal: Terminal)
    requires { array_vec_len out.old + 20 ≤ SIZE }
    ensures items { out.new.items ≡ out.old.items ++ line_text (asks.Rollback terminal) }
    ensures len { array_vec_len out.new ≤ array_vec_len out.old + 20 }
{
    text(out, b"rollback ");
    small(out, terminal.get());
    out.push(b'\n');
}

/// Appends the line that lets go of what is older than the newest moment.
pub fn purge_line(out: &mut Pending)
    requires { array_vec_len out.old + 10 ≤ SIZE }
    ensures items { out.new.items ≡ out.old.items ++ line_text (asks.Purge moment.Now) }
    ensures len { array_vec_len out.new ≤ array_vec_len out.old + 10 }
{
    text(out, b"purge now\n");
}

/// Appends the line that asks a query of the newest moment.
#[tactic(auto, using(crate::proofs::TextFacts::query_behind))]
pub fn read_line(out: &mut Pending, asked: &Query)
    requires { array_vec_len out.old + 55 ≤ SIZE }
    ensures items { out.new.items ≡ out.old.items ++ line_text (asks.Read moment.Now asked.now) }
    ensures len { array_vec_len out.new ≤ array_vec_len out.old + 55 }
{
    text(out, b"read now ");
    query(out, asked);
    out.push(b'\n');
}
