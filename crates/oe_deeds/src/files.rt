//! The file that tells commits, which `serial` reads: an opening, and a line for each commit.
ghost use Rattle.std.specs.Prelude.{◌≡◌, ◌≤◌, ◌+◌, ◌++◌, ℕ, List, [], length};
ghost use Rattle.std.specs.List.{flat_map};
ghost use Rattle.arrayvec.specs.ArrayVec.{array_vec_len};
ghost use Rattle.oe_io.specs.Ports.{Streams};
ghost use Rattle.oe_deeds.specs.Files.{asked_text, commit_front, commit_line};
ghost use Rattle.oe_deeds.specs.Files.{commits_text, reply_line};

use crate::commits::Commit;
use oe_io::output::{flush, make_room};
use oe_io::ports::{Failed, Outlet};
use oe_lines::{open_line, request};
use oe_requests::Answer;
use oe_rows::Scale;
use oe_texts::columns::number;
use oe_texts::{LONGEST, Pending, SIZE, answer, small, text};
use oe_values::{ExtentCount, Moment};

// Appends what an answer has before its reply.
fn commit_front(out: &mut Pending, moment: Moment)
    requires { array_vec_len out.old + 60 ≤ SIZE }
    ensures { out.new.items ≡ out.old.items ++ commit_front moment }
{
    text(out, b"commit ");
    number(out, moment.get());
    text(out, b" ");
}

// Gives what stands behind a front.
fn behind<'a>(line: &'a [u8], front: &[u8]) -> &'a [u8]
    requires { (rest : List ℕ) × (line.now ≡ front.now ++ rest) }
    ensures rest { (rest : List ℕ) → line.now ≡ front.now ++ rest → result.now ≡ rest }
    ensures short { length result.now ≤ length line.now }
{
    &line[front.len()..]
}

// Appends a reply, and the end of its line: the line of the commit's answer without its front.
fn reply_line(out: &mut Pending, commit: &Commit)
    requires { array_vec_len out.old + LONGEST ≤ SIZE }
    ensures { out.new.items ≡ out.old.items ++ reply_line commit.now.reply }
{
    let mut front = Pending::new();
    commit_front(&mut front, commit.moment);
    let mut line = Pending::new();
    answer(
        &mut line,
        &Answer::Committed(commit.moment, commit.reply.copied()),
    );
    text(out, behind(line.as_slice(), front.as_slice()));
}

// Appends a terminal and what it asked for, and what parts them from the reply.
fn asked(out: &mut Pending, commit: &Commit)
    requires { array_vec_len out.old + LONGEST ≤ SIZE }
    ensures { out.new.items ≡ out.old.items ++ asked_text commit.now }
{
    small(out, commit.terminal.get());
    text(out, b" ");
    request(out, &commit.request);
    text(out, b" => ");
}

// Appends what was asked for, and writes what waits first where there is no room behind it.
fn put_asked<W: Outlet>(commit: &Commit, out: &mut Pending, to: &mut W) -> Result<(), Failed>
    ensures { Streams (W.sink to.old) out.old.items (W.sink to.new) out.new.items
        (asked_text commit.now) result }
{
    if let Err(e) = make_room(out, to) {
        return Err(e);
    }
    asked(out, commit);
    Ok(())
}

// Appends a reply and the end of its line, and writes what waits first where there is no room
// behind it.
fn put_reply<W: Outlet>(commit: &Commit, out: &mut Pending, to: &mut W) -> Result<(), Failed>
    ensures { Streams (W.sink to.old) out.old.items (W.sink to.new) out.new.items
        (reply_line commit.now.reply) result }
{
    if let Err(e) = make_room(out, to) {
        return Err(e);
    }
    reply_line(out, commit);
    Ok(())
}

// Appends a commit's line, and writes what waits where there is no room.
fn put<W: Outlet>(commit: &Commit, out: &mut Pending, to: &mut W) -> Result<(), Failed>
    ensures { Streams (W.sink to.old) out.old.items (W.sink to.new) out.new.items
        (commit_line commit.now) result }
{
    if let Err(e) = put_asked(commit, out, to) {
        return Err(e);
    }
    put_reply(commit, out, to)
}

// Writes the commits' lines, in their order.
fn lines<W: Outlet>(commits: &[Commit], out: &mut Pending, to: &mut W) -> Result<(), Failed>
    ensures { Streams (W.sink to.old) out.old.items (W.sink to.new) out.new.items
        (flat_map commit_line commits.now) result }
{
    for commit in commits {
        if let Err(e) = put(commit, out, to) {
            return Err(e);
        }
    }
    Ok(())
}

/// Writes the file of commits on a population of a scale, in the order in which they stand.
pub fn write_commits<W: Outlet>(
    scale: &Scale,
    extents: ExtentCount,
    commits: &[Commit],
    to: &mut W,
) -> Result<(), Failed>
    ensures { Streams (W.sink to.old) [] (W.sink to.new) []
        (commits_text scale.now extents commits.now) result }
{
    let mut out = Pending::new();
    open_line(&mut out, scale, extents);
    if let Err(e) = lines(commits, &mut out, to) {
        return Err(e);
    }
    flush(&mut out, to)
}
