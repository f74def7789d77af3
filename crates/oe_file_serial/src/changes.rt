//! Which line changed a row last. Nothing here takes memory or can fail.
ghost use Rattle.std.specs.Prelude.{◌≤◌, ◌↔◌, ℕ, List, length, take, MatchOption, IsTrue};
ghost use Rattle.std.specs.List.{All};
ghost use Rattle.oe_requests.specs.declared.requests.Request.{Request};
ghost use Rattle.oe_file_serial.specs.Files.{IsTold, lines_of};
ghost use Rattle.oe_file_serial.specs.Changes.{TellsTransaction, ChangesRow, IsLater, IsLast, IsHint};

use crate::lines::{read_transaction, told};
use oe_reply_words::{Change, changes, parted_at, row_told};
use oe_requests::Request;
use oe_rows::Key;

// What a line tells: a transaction's request, and what it was answered.
#[derive(Drop)]
struct Told<'a> {
    request: Request,
    reply: &'a [u8],
}

// Reads the transaction that a line tells of.
fn transaction(line: &[u8]) -> Option<Told<'_>>
    requires { length line.now ≤ 1_024 }
    ensures { MatchOption result
        ((q : Request) (text : List ℕ) → TellsTransaction line.now q text → ⊥)
        (λ t. TellsTransaction line.now t.request t.reply.now) }
{
    let Some((words, reply)) = told(line) else {
        return None;
    };
    match read_transaction(words) {
        Some((_, request)) => Some(Told { request, reply }),
        None => None,
    }
}

// Tells whether a line tells of a transaction that changed a row.
fn changed(line: &[u8], row: &Key) -> bool
    requires { length line.now ≤ 1_024 }
    ensures { IsTrue result ↔ ChangesRow line.now row.now }
{
    match transaction(line) {
        Some(told) => changes(&told.request, told.reply, row),
        None => false,
    }
}

// Gives a line's change of a row, or else the last before it.
fn later(line: &[u8], row: &Key, number: u128, last: Option<Change>) -> Option<Change>
    requires { length line.now ≤ 1_024 }
    ensures { IsLater line.now row.now number last result }
{
    if changed(line, row) {
        Some(Change {
            row: *row,
            line: number,
        })
    } else {
        last
    }
}

// Finds the last of the first `count` lines that changed a row.
fn changed_before(lines: &[u8], count: u128, row: &Key) -> Option<Change>
    requires { All IsTold (lines_of lines.now) }
    ensures { IsLast (take count (lines_of lines.now)) row.now result }
{
    let mut left = lines;
    let mut behind = 0u128;
    let mut last = None;
    while behind < count {
        let Some((line, rest)) = parted_at(left, b'\n') else {
            return last;
        };
        last = later(line, row, behind + 2, last);
        behind += 1;
        left = rest;
    }
    last
}

/// Finds the row of the first word in which a line differs from `ours`, and the last of the first
/// `count` lines that changed this row. A query's answer tells of no row.
pub(crate) fn last_change(lines: &[u8], count: u128, line: &[u8], ours: &[u8]) -> Option<Change>
    requires told { All IsTold (lines_of lines.now) }
    requires line { IsTold line.now }
    ensures { IsHint (take count (lines_of lines.now)) line.now ours.now result }
{
    let Some(told) = transaction(line) else {
        return None;
    };
    let Some(row) = row_told(&told.request, told.reply, ours) else {
        return None;
    };
    changed_before(lines, count, &row)
}
