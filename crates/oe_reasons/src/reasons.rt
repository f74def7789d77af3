//! Why a line is none that is taken where it stands.
ghost use Rattle.std.specs.Prelude.{ℕ, Bool, List, not, ◌≡◌, ◌↔◌, ◌≤◌, ◌<◌, ◌-◌, ◌==◌, Some, None, IfSome, length, position, slice_index, true, false};
ghost use Rattle.oe_lines.specs.declared.commands.Command.{Command};
ghost use Rattle.oe_lines.specs.Grammar.{Says};
ghost use Rattle.oe_reasons.specs.Columns.{first_word, form_of};
ghost use Rattle.oe_reasons.specs.Reasons.{is_opening, is_unprintable, IsReason, IsTaken};
ghost use Rattle.oe_reasons.specs.declared.verbs.Verb.{Verb};
ghost use Rattle.oe_reasons.specs.Verbs.{verb_of};

use crate::faults::{WrongWord, is_miscounted, read_form, wrong_word};
use crate::forms::Form;
use crate::verbs::{Verb, near, read_verb};
use crate::words::first_word;
use oe_lines::{Command, command};
use oe_values::fronts::after;

/// Why a line is answered `BadLine`.
#[derive(Clone, Copy)]
pub enum Reason {
    /// It has more than 1,024 bytes.
    Long,
    /// It ends in a carriage return.
    CarriageReturn,
    /// Its byte at that place, counted from 1, is no printable ASCII character.
    Unprintable(usize),
    /// It ends in a blank.
    LastBlank,
    /// It is empty, or begins with a blank.
    NoWord,
    /// It asks for an audit of condition 11, which has none.
    NoAudit,
    /// It opens, and something is open already.
    AlreadyOpen,
    /// It does not open, and nothing is open yet.
    NotOpen,
    /// No form begins with its first word; perhaps that verb is meant.
    NoVerb(Option<Verb>),
    /// It has too few words for that form, or too many.
    Miscounted(Form),
    /// A word is not what the form has there.
    Wrong(WrongWord),
    /// It is none of the forms that begin with that verb.
    NotSo(Verb),
}

/// Tells whether a line's last byte is that byte.
fn ends_in(line: &[u8], byte: u8) -> bool
    requires { 0 < byte }
    ensures { result ≡ (slice_index line.now (length line.now - 1) == byte) }
{
    if line.is_empty() {
        return false;
    }
    line[line.len() - 1] == byte
}

/// Tells whether a byte is no printable ASCII character.
fn is_unprintable(byte: u8) -> bool
    ensures { result ≡ is_unprintable byte }
{
    byte < 32 || 126 < byte
}

/// Tells where the first byte stands that is no printable ASCII character.
fn first_unprintable(line: &[u8]) -> Option<usize>
    ensures value { result ≡ position is_unprintable line.now }
    ensures short { IfSome result (λ k. k < length line.now) }
{
    line.iter().position(|b| is_unprintable(*b))
}

/// Tells whether a command opens.
fn is_opening(asked: &Command) -> bool
    ensures { result ≡ is_opening asked.now }
{
    matches!(asked, Command::Open(_, _))
}

/// Gives the reason why a line that is no command is none.
fn no_form(line: &[u8]) -> Reason
    requires { (c : Command) → Says line.now c → ⊥ }
    ensures { (is_open : Bool) → IsReason is_open line.now result }
{
    if ends_in(line, b'\r') {
        return Reason::CarriageReturn;
    }
    if let Some(place) = first_unprintable(line) {
        return Reason::Unprintable(place + 1);
    }
    if ends_in(line, b' ') {
        return Reason::LastBlank;
    }
    if after(line, b"audit 11 ").is_some() {
        return Reason::NoAudit;
    }
    no_word(line)
}

/// Gives the reason why a line of that form is no command, where one is found.
fn not_of(line: &[u8], form: Form) -> Option<Reason>
    requires verb { (verb : Verb) × (verb_of (first_word line.now) ≡ Some verb)
        × (form_of verb line.now ≡ Some form) }
    ensures { (is_open : Bool) → IfSome result (IsReason is_open line.now) }
{
    if is_miscounted(line, form) {
        return Some(Reason::Miscounted(form));
    }
    match wrong_word(line, form) {
        Some(wrong) => Some(Reason::Wrong(wrong)),
        None => None,
    }
}

/// Gives the reason why a line with that verb is no command.
fn not_so(line: &[u8], verb: Verb) -> Reason
    requires verb { verb_of (first_word line.now) ≡ Some verb }
    requires none { (c : Command) → Says line.now c → ⊥ }
    ensures { (is_open : Bool) → IsReason is_open line.now result }
{
    let Some(form) = read_form(line, verb) else {
        return Reason::NotSo(verb);
    };
    match not_of(line, form) {
        Some(reason) => reason,
        None => Reason::NotSo(verb),
    }
}

/// Gives the reason why a line that is no command is none, by its first word.
fn no_word(line: &[u8]) -> Reason
    requires { (c : Command) → Says line.now c → ⊥ }
    ensures { (is_open : Bool) → IsReason is_open line.now result }
{
    let word = first_word(line);
    if word.is_empty() {
        return Reason::NoWord;
    }
    match read_verb(word) {
        Some(verb) => not_so(line, verb),
        None => Reason::NoVerb(near(word)),
    }
}

/// Gives the reason why a command is not taken where it stands, if there is one.
fn no_place(asked: &Command, is_open: bool) -> Option<Reason>
    ensures why { (line : List ℕ) → Says line asked.now → IfSome result (IsReason is_open line) }
    ensures taken { (result ≡ None) ↔ (is_opening asked.now ≡ not is_open) }
{
    if is_opening(asked) {
        if is_open {
            Some(Reason::AlreadyOpen)
        } else {
            None
        }
    } else if is_open {
        None
    } else {
        Some(Reason::NotOpen)
    }
}

/// Gives the reason why a line, which stands without its end, is answered `BadLine` while something
/// is open, or nothing; none exactly where the line is taken for a command.
pub fn why(line: &[u8], is_open: bool) -> Option<Reason>
    ensures taken { (result ≡ None) ↔ ((c : Command) × IsTaken is_open line.now c) }
    ensures why { IfSome result (IsReason is_open line.now) }
{
    if line.len() > 1_024 {
        return Some(Reason::Long);
    }
    match command(line) {
        Some(asked) => no_place(&asked, is_open),
        None => Some(no_form(line)),
    }
}
