//! The verdict on a file: each line's transaction or query runs alone, in order, and what it is
//! answered is compared with what the line tells.
ghost use Rattle.std.specs.Prelude.{◌≡◌, IfOk, MatchOption};
ghost use Rattle.std.specs.List.{All};
ghost use Rattle.oe_model.specs.Conditions.{IsPopulation};
ghost use Rattle.oe_model.specs.Population.{IsPopulated, IsScale};
ghost use Rattle.oe_store.specs.Places.{rows};
ghost use Rattle.oe_model.specs.Rows.{Rows};
ghost use Rattle.oe_model.specs.System.{system};
ghost use Rattle.oe_file_serial.specs.InOrder.{at_first, between};
ghost use Rattle.oe_file_serial.specs.Files.{IsTold, IsOpening, lines_of};
ghost use Rattle.oe_file_serial.specs.Worlds.{IsFree};
ghost use Rattle.oe_file_serial.specs.Verdicts.{Agrees, Differs, IsVerdict, verdict_of, Leaves, opening_of, IsOrigin, Begins, IsDecision};

use crate::alone::answered;
use crate::answers::AnswerText;
use crate::changes::last_change;
use crate::lines::{BadLines, bad_lines, opening, read_words, told};
use crate::origins::Origin;
use oe_machine::Machine;
use oe_population::populate;
use oe_reply_words::{Change, parted_at};
use oe_rows::{Layout, Scale};
use oe_store::Tables;
use oe_values::{NoMemory, Number};
use std::alloc::Global;
use thiserror::Error;

/// What a file comes to.
#[derive(Drop)]
pub enum Verdict<'a> {
    /// So many lines agree, and there is no other.
    Serial(u128),
    /// The line of that number is the first that disagrees, and tells that text. The row that the
    /// first word which differs tells of was changed last so, where it is known.
    Differs(u128, &'a [u8], Option<Change>),
    /// Lines have no form, and nothing is decided.
    Unreadable(BadLines<'a>),
}

/// A verdict, with the tables that a serial file's transactions leave.
#[derive(Drop)]
pub enum Decision<'a> {
    /// So many lines agree, there is no other, and they leave these tables.
    Serial(u128, Tables),
    /// The line of that number is the first that disagrees, and tells that text. The row that the
    /// first word which differs tells of was changed last so, where it is known.
    Differs(u128, &'a [u8], Option<Change>),
    /// Lines have no form, and nothing is decided.
    Unreadable(BadLines<'a>),
}

/// Why nothing was decided.
#[derive(Clone, Copy, Debug, Error)]
pub enum Shortage {
    /// Memory was refused.
    #[error("no memory")]
    NoMemory,
    /// A transaction alone has filled the undo ring.
    #[error("no undo extents")]
    UndoFull,
}

// Compares what a line tells with what it asks for is answered: gives the line's text where they
// differ, and leaves the answer's in `ours`.
#[tactic(none)]
fn other_text<'a, M: Machine>(
    core: &mut M,
    line: &'a [u8],
    ours: &mut AnswerText,
) -> Result<Option<&'a [u8]>, Shortage>
    requires told { IsTold line.now }
    requires free { IsFree (M.world core.old) }
    ensures { IfOk result (λ r. MatchOption r
        (IsFree (M.world core.new)
        × Agrees (between system (M.world core.old)) line.now (between system (M.world core.new)))
        (λ theirs.
        Differs (between system (M.world core.old)) line.now theirs.now ours.new.items)) }
{
    let Some((words, theirs)) = told(line) else {
        unreachable!()
    };
    let Some(asked) = read_words(words) else {
        unreachable!()
    };
    if let Err(shortage) = answered(core, &asked, ours) {
        return Err(shortage);
    }
    if theirs == ours.as_slice() {
        return Ok(None);
    }
    Ok(Some(theirs))
}

// Compares lines in order, up to the first that disagrees.
#[tactic(none)]
fn compared<'a, M: Machine>(
    core: &mut M,
    lines: &'a [u8],
    ours: &mut AnswerText,
) -> Result<Verdict<'a>, Shortage>
    requires told { All IsTold (lines_of lines.now) }
    requires free { IsFree (M.world core.old) }
    ensures { IfOk result (λ v.
        IsVerdict (between system (M.world core.old)) (lines_of lines.now) v ours.new.items
        (between system (M.world core.new))) }
{
    let mut left = lines;
    let mut count = 0u128;
    while let Some((line, rest)) = parted_at(left, b'\n') {
        match other_text(core, line, ours) {
            Err(shortage) => return Err(shortage),
            Ok(Some(theirs)) => {
                let last = last_change(lines, count, line, ours.as_slice());
                return Ok(Verdict::Differs(count + 2, theirs, last));
            }
            Ok(None) => {}
        }
        count += 1;
        left = rest;
    }
    Ok(Verdict::Serial(count))
}

// Opens a machine on tables, with as many undo extents as there can be.
fn opened_on<M: Machine>(alloc: Global, tables: Tables) -> Result<M, NoMemory>
    requires { IsPopulation (rows tables) }
    ensures { IfOk result (λ c. IsFree (M.world c)
        × (between system (M.world c) ≡ at_first system (rows tables))) }
{
    M::open(
        alloc,
        tables,
        Number::new(4_096).unwrap(),
        Layout::WholeRows,
    )
}

// Opens a machine on the population of a scale.
fn opened<M: Machine>(alloc: Global, scale: Scale) -> Result<M, NoMemory>
    requires { IsScale scale }
    ensures { IfOk result (λ c. IsFree (M.world c)
        × ((r : Rows) × IsPopulated scale r × (between system (M.world c) ≡ at_first system r))) }
{
    match populate(alloc, scale) {
        Ok(tables) => opened_on::<M>(alloc, tables),
        Err(e) => Err(e),
    }
}

// Opens a machine on what the first line of a file opens.
fn begun<M: Machine>(alloc: Global, line: &[u8], origin: Origin) -> Result<M, NoMemory>
    requires opening { IsOpening (opening_of origin) line.now }
    requires origin { IsOrigin origin }
    ensures { IfOk result (λ c. IsFree (M.world c)
        × ((r : Rows) × Begins origin line.now r
        × (between system (M.world c) ≡ at_first system r))) }
{
    match origin {
        Origin::Population => {
            let Some(scale) = opening(line) else {
                unreachable!()
            };
            opened::<M>(alloc, scale)
        }
        Origin::Tables(tables) => opened_on::<M>(alloc, tables),
    }
}

// Ends a machine, and gives a verdict with its tables where that is serial.
fn closed<'a, M: Machine>(core: M, verdict: Verdict<'a>) -> Decision<'a>
    ensures verdict { verdict_of result ≡ verdict.entry }
    ensures tables { Leaves result (between system (M.world core)) }
{
    match verdict {
        Verdict::Serial(count) => Decision::Serial(count, core.close()),
        Verdict::Differs(number, theirs, last) => {
            core.discard();
            Decision::Differs(number, theirs, last)
        }
        Verdict::Unreadable(bad) => {
            core.discard();
            Decision::Unreadable(bad)
        }
    }
}

impl<'a> Decision<'a> {
    /// Gives the verdict, and lets go of the tables.
    pub fn verdict(self) -> Verdict<'a>
        ensures { result ≡ verdict_of self.entry }
    {
        match self {
            Decision::Serial(count, tables) => {
                tables.discard();
                Verdict::Serial(count)
            }
            Decision::Differs(number, theirs, last) => Verdict::Differs(number, theirs, last),
            Decision::Unreadable(bad) => Verdict::Unreadable(bad),
        }
    }
}

/// Decides whether a file's lines tell the replies that its transactions and queries have, one at a
/// time in this order from those tables. A transaction may be told to be refused: it
/// has changed nothing then. Where all lines agree, the tables that the transactions leave are part
/// of the decision. Where one doesn't, `ours` is the text that this order gives in place of the
/// first such line's.
///
/// A `Shortage` is a want of memory or of undo extents: nothing is decided then.
#[tactic(none)]
pub fn decide<'a, M: Machine>(
    alloc: Global,
    input: &'a [u8],
    origin: Origin,
    ours: &mut AnswerText,
) -> Result<Decision<'a>, Shortage>
    requires { IsOrigin origin }
    ensures { IfOk result (λ d. IsDecision origin input.now d ours.new.items) }
{
    let bad = bad_lines(input, origin.opening());
    if bad.count > 0 {
        origin.discard();
        return Ok(Decision::Unreadable(bad));
    }
    let Some((first, lines)) = parted_at(input, b'\n') else {
        unreachable!()
    };
    let Ok(mut core) = begun::<M>(alloc, first, origin) else {
        return Err(Shortage::NoMemory);
    };
    match compared(&mut core, lines, ours) {
        Ok(verdict) => Ok(closed(core, verdict)),
        Err(shortage) => {
            core.discard();
            Err(shortage)
        }
    }
}
