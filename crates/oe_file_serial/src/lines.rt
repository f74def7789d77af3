//! The lines of a file: its opening, and a line for each reply. A line has at most 1,024 bytes
//! before its end, as in a script.
ghost use Rattle.std.specs.Prelude.{◌≡◌, ◌≤◌, ◌<◌, ◌^◌, ◌+◌, ◌++◌, ◌∷◌, [], ℕ, List, length, take, IfSome, IsTrue, ◌↔◌, MatchOption, codes};
ghost use Rattle.oe_rows.specs.declared.scales.Scale.{Scale};
ghost use Rattle.oe_requests.specs.declared.requests.Query.{Query};
ghost use Rattle.oe_requests.specs.declared.requests.Request.{Request};
ghost use Rattle.oe_lines.specs.Grammar.{Says};
ghost use Rattle.oe_lines.specs.declared.commands.Command.{Command};
ghost use Rattle.oe_lines.specs.declared.commands.Command.TheVariants as asks;
ghost use Rattle.oe_lines.specs.declared.commands.MomentChoice.TheVariants as moment;
ghost use Rattle.oe_file_serial.specs.declared.lines.Asked.{Asked};
ghost use Rattle.oe_file_serial.specs.declared.reasons.BadLine.{BadLine};
ghost use Rattle.oe_reply_words.specs.Parts.{IsWithout};
ghost use Rattle.oe_file_serial.specs.Files.{Parts, AsksFor, Asks, IsTold, Opens, OpensRing, IsOpening, lines_of, last_of, last_line_fault, Unopened, Untold, AreBad, Shows};

use crate::origins::Opening;
use crate::reasons::{BadLine, Why, why_line, why_opening};
use arrayvec::ArrayVec;
use oe_lines::{Command, MomentChoice, command};
use oe_reply_words::parted_at;
use oe_requests::{Query, Request};
use oe_rows::Scale;
use oe_values::Terminal;
use oe_values::fronts::after;

/// No line has more bytes before its end.
pub(crate) const LINE: usize = 1_024;

/// The lines of no form: the first twenty, and how many there are.
#[derive(Drop)]
pub struct BadLines<'a> {
    pub first: ArrayVec<BadLine<'a>, 20>,
    pub count: u128,
}

/// What a line asks for.
#[derive(Drop)]
pub(crate) enum Asked {
    /// The terminal's next transaction.
    Transaction(Terminal, Request),
    /// A query of the tables where it stands.
    Query(Query),
}

// Takes a last blank away.
fn before_blank(bytes: &[u8]) -> Option<&[u8]>
    ensures { MatchOption result ((front : List ℕ) → bytes.now ≡ front ++ codes " " → ⊥)
        (λ front. bytes.now ≡ front.now ++ codes " ") }
{
    if bytes.is_empty() {
        return None;
    }
    let last = bytes.len() - 1;
    if bytes[last] != b' ' {
        return None;
    }
    Some(&bytes[..last])
}

/// Parts a line into the words that ask and the text of what was answered.
pub(crate) fn told(line: &[u8]) -> Option<(&[u8], &[u8])>
    ensures { MatchOption result ((words text : List ℕ) → Parts line.now words text → ⊥)
        (λ p. Parts line.now p.0.now p.1.now) }
{
    let Some((front, back)) = parted_at(line, b'=') else {
        return None;
    };
    let Some(words) = before_blank(front) else {
        return None;
    };
    let Some(text) = after(back, b"> ") else {
        return None;
    };
    Some((words, text))
}

// Reads the command that words ask for behind others.
fn command_behind(front: &[u8], words: &[u8]) -> Option<Command>
    requires front { length front.now ≤ 11 }
    requires words { length words.now ≤ 1_024 }
    ensures found { IfSome result (λ c. Says (front.now ++ words.now) c) }
    ensures only { (c : Command) → Says (front.now ++ words.now) c → result ≡ Some c }
{
    let mut line: ArrayVec<u8, 1_035> = ArrayVec::new();
    line.try_extend_from_slice(front).unwrap();
    line.try_extend_from_slice(words).unwrap();
    command(line.as_slice())
}

/// Reads the transaction that words ask for.
pub(crate) fn read_transaction(words: &[u8]) -> Option<(Terminal, Request)>
    requires { length words.now ≤ 1_024 }
    ensures { MatchOption result
        ((t : ℕ) (q : Request) → Says (codes "begin " ++ words.now) (asks.Begin t q) → ⊥)
        (λ a. Says (codes "begin " ++ words.now) (asks.Begin a.0 a.1)) }
{
    let Some(command) = command_behind(b"begin ", words) else {
        return None;
    };
    match command {
        Command::Begin(terminal, request) => Some((terminal, request)),
        _ => None,
    }
}

/// Tells whether a word is a terminal's number.
pub(crate) fn is_terminal(word: &[u8]) -> bool
    requires { length word.now ≤ 1_024 }
    ensures { IsTrue result ↔ ((t : ℕ) × Says (codes "next " ++ word.now) (asks.Next t)) }
{
    let Some(command) = command_behind(b"next ", word) else {
        return false;
    };
    matches!(command, Command::Next(_))
}

// Reads the query that words ask for, behind no terminal.
fn read_asked(words: &[u8]) -> Option<Query>
    requires { length words.now ≤ 1_024 }
    ensures { MatchOption result
        ((q : Query) → Says (codes "read now " ++ words.now) (asks.Read moment.Now q) → ⊥)
        (λ q. Says (codes "read now " ++ words.now) (asks.Read moment.Now q)) }
{
    let Some(command) = command_behind(b"read now ", words) else {
        return None;
    };
    match command {
        Command::Read(moment, query) => match moment {
            MomentChoice::Now => Some(query),
            MomentChoice::At(_) => None,
        },
        _ => None,
    }
}

// Reads the query that words ask for.
fn read_query(words: &[u8]) -> Option<Query>
    requires { length words.now ≤ 1_024 }
    ensures { MatchOption result ((q : Query) → AsksFor words.now q → ⊥) (AsksFor words.now) }
{
    let Some((front, behind)) = parted_at(words, b' ') else {
        return None;
    };
    if !is_terminal(front) {
        return None;
    }
    read_asked(behind)
}

/// Reads what words ask for.
pub(crate) fn read_words(words: &[u8]) -> Option<Asked>
    requires { length words.now ≤ 1_024 }
    ensures { MatchOption result ((a : Asked) → Asks words.now a → ⊥) (Asks words.now) }
{
    if let Some(query) = read_query(words) {
        return Some(Asked::Query(query));
    }
    match read_transaction(words) {
        Some((terminal, request)) => Some(Asked::Transaction(terminal, request)),
        None => None,
    }
}

// Tells whether a line tells of a reply.
fn is_told(line: &[u8]) -> bool
    ensures { IsTrue result ↔ IsTold line.now }
{
    if line.len() > LINE {
        return false;
    }
    let Some((words, _)) = told(line) else {
        return false;
    };
    read_words(words).is_some()
}

/// Reads the scale that a line opens.
pub(crate) fn opening(line: &[u8]) -> Option<Scale>
    ensures { MatchOption result ((s : Scale) → Opens line.now s → ⊥) (Opens line.now) }
{
    if line.len() > LINE {
        return None;
    }
    let Some(command) = command(line) else {
        return None;
    };
    match command {
        Command::Open(scale, _) => Some(scale),
        _ => None,
    }
}

// Tells whether a line opens an undo ring for tables that are there.
fn opens_ring(line: &[u8]) -> bool
    ensures { IsTrue result ↔ OpensRing line.now }
{
    if line.len() > LINE {
        return false;
    }
    let Some(rest) = after(line, b"open ") else {
        return false;
    };
    let Some(command) = command_behind(b"open 1 1 1 ", rest) else {
        return false;
    };
    matches!(command, Command::Open(_, _))
}

// Tells whether a line opens what a file's first line has to.
fn opens(line: &[u8], kind: Opening) -> bool
    ensures { IsTrue result ↔ IsOpening kind line.now }
{
    match kind {
        Opening::OfScale => opening(line).is_some(),
        Opening::OfRing => opens_ring(line),
    }
}

impl<'a> BadLines<'a> {
    // Makes no lines.
    fn none() -> Self
        ensures shown { Shows result [] }
        ensures count { result.count ≡ 0 }
    {
        BadLines {
            first: ArrayVec::new(),
            count: 0,
        }
    }

    // Notes one more line.
    fn note(&mut self, line: BadLine<'a>)
        requires { self.old.count + 1 < 2 ^ 128 }
        ensures shown { (bad : List BadLine) → Shows self.old bad
            → Shows self.new (bad ++ line.entry ∷ []) }
        ensures count { self.new.count ≡ self.old.count + 1 }
    {
        keep(&mut self.first, line);
        self.count += 1;
    }
}

// Keeps a line, where fewer than twenty are kept.
#[tactic(auto, using(crate::proofs::BadFacts::kept_full, crate::proofs::BadFacts::kept_first))]
fn keep<'a>(first: &mut ArrayVec<BadLine<'a>, 20>, line: BadLine<'a>)
    ensures { (bad : List BadLine) → first.old.items ≡ take 20 bad
        → first.new.items ≡ take 20 (bad ++ line.entry ∷ []) }
{
    if first.len() >= 20 {
        return;
    }
    first.push(line);
}

// Notes the first line, where it opens nothing.
fn note_opening<'a>(bad: &mut BadLines<'a>, line: &'a [u8], kind: Opening)
    requires { bad.old.count ≡ 0 }
    ensures shown { (first : List BadLine) × Unopened kind line.now first
        × ((b : List BadLine) → Shows bad.old b → Shows bad.new (b ++ first)) }
    ensures count { bad.new.count ≤ 1 }
{
    if !opens(line, kind) {
        bad.note(BadLine {
            number: 1,
            why: why_opening(line, kind),
        });
    }
}

// Notes a line of a number, where it tells of no reply.
fn note_line<'a>(bad: &mut BadLines<'a>, number: u128, line: &'a [u8])
    requires { bad.old.count + 1 < 2 ^ 128 }
    ensures shown { (more : List BadLine) × Untold number (line.now ∷ []) more
        × ((b : List BadLine) → Shows bad.old b → Shows bad.new (b ++ more)) }
    ensures count { bad.new.count ≤ bad.old.count + 1 }
{
    if !is_told(line) {
        bad.note(BadLine {
            number,
            why: why_line(line),
        });
    }
}

// Notes a last line without its end.
fn note_last(bad: &mut BadLines, number: u128, last: &[u8])
    requires { bad.old.count + 1 < 2 ^ 128 }
    ensures { (b : List BadLine) → Shows bad.old b
        → Shows bad.new (b ++ last_line_fault number last.now) }
{
    if !last.is_empty() {
        bad.note(BadLine {
            number,
            why: Why::Unended,
        });
    }
}

// Notes the lines behind the first.
fn note_lines<'a>(bad: &mut BadLines<'a>, lines: &'a [u8])
    requires { bad.old.count ≤ 1 }
    ensures { (more : List BadLine) × Untold 2 (lines_of lines.now) more
        × ((b : List BadLine) → Shows bad.old b → Shows bad.new (b ++ more
        ++ last_line_fault (length (lines_of lines.now) + 2) (last_of lines.now))) }
{
    let mut left = lines;
    let mut number = 2u128;
    while let Some((line, rest)) = parted_at(left, b'\n') {
        note_line(bad, number, line);
        number += 1;
        left = rest;
    }
    note_last(bad, number, left);
}

// Finds what is bad of a file without a line.
fn bad_last<'a>(input: &'a [u8], kind: Opening) -> BadLines<'a>
    requires { IsWithout 10 input.now }
    ensures { (bad : List BadLine) × AreBad kind input.now bad × Shows result bad }
{
    let mut bad = BadLines::none();
    if input.is_empty() {
        note_opening(&mut bad, input, kind);
        return bad;
    }
    note_last(&mut bad, 1, input);
    bad
}

/// Finds the lines of a file that have no form; the first has to open something of a kind.
pub(crate) fn bad_lines<'a>(input: &'a [u8], kind: Opening) -> BadLines<'a>
    ensures { (bad : List BadLine) × AreBad kind input.now bad × Shows result bad }
{
    let Some((first, rest)) = parted_at(input, b'\n') else {
        return bad_last(input, kind);
    };
    let mut bad = BadLines::none();
    note_opening(&mut bad, first, kind);
    note_lines(&mut bad, rest);
    bad
}
