//! The answer to `waits`, a line at a time: who waits for whom, the cycles, and how many wait.
ghost use Rattle.std.specs.Prelude.{◌≡◌, ◌≤◌, ◌<◌, ◌+◌, ◌++◌, ◌&&◌, ◌||◌, [], cond, length, suc, Some, IfOk};
ghost use Rattle.oe_texts.specs.Dump.{count_line};
ghost use Rattle.arrayvec.specs.ArrayVec.{array_vec_len};
ghost use Rattle.oe_model.specs.Locks.{mode_of};
ghost use Rattle.oe_locks.specs.Holds.{hold_of};
ghost use Rattle.oe_machine.specs.Asks.{wanted_by};
ghost use Rattle.oe_io.specs.Ports.{Streams};
ghost use Rattle.oe_waits.specs.Knots.{any_to, count_to};
ghost use Rattle.oe_waits.specs.Waits.{is_least_in_cycle, last_terminal, wait_in_cycle, waits, waits_for};
ghost use Rattle.oe_waits.specs.Reaching.{is_in, is_least_in, line_in};
ghost use Rattle.oe_waits.specs.Texts.{cycle_line, lock_text, mode_text, or_no_cycle, terminal_text, texts_to, waiting_line, waits_text};

use crate::reaching::{Way, is_in_both, reached};
use crate::waiting::{terminal_after, waits, waits_for};
use itoa::Buffer;
use oe_io::output::make_room;
use oe_io::ports::{Failed, Outlet};
use oe_locks::Lock;
use oe_machine::Machine;
use oe_rows::Mode;
use oe_texts::{LONGEST, Pending, SIZE, name, small, text};
use oe_values::{TERMINALS, Terminal};

/// Appends `S` or `X`.
pub(crate) fn mode(out: &mut Pending, mode: Mode)
    requires { array_vec_len out.old + 1 ≤ SIZE }
    ensures items { out.new.items ≡ out.old.items ++ mode_text (mode_of mode) }
    ensures len { array_vec_len out.new ≤ array_vec_len out.old + 1 }
{
    match mode {
        Mode::Shared => text(out, b"S"),
        Mode::Exclusive => text(out, b"X"),
    }
}

/// Appends a lock's name and mode.
fn lock(out: &mut Pending, lock: &Lock)
    requires { array_vec_len out.old + 47 ≤ SIZE }
    ensures items { out.new.items ≡ out.old.items ++ lock_text (Some (hold_of lock.now)) }
    ensures len { array_vec_len out.new ≤ array_vec_len out.old + 47 }
{
    name(out, &lock.name);
    text(out, b" ");
    mode(out, lock.mode);
}

/// Appends a terminal behind a blank.
fn terminal(out: &mut Pending, terminal: Terminal)
    requires { array_vec_len out.old + 11 ≤ SIZE }
    ensures items { out.new.items ≡ out.old.items ++ terminal_text terminal }
    ensures len { array_vec_len out.new ≤ array_vec_len out.old + 11 }
{
    text(out, b" ");
    small(out, terminal.get());
}

/// Appends the terminals that one waits for.
fn holders<M: Machine>(core: &M, waiting: Terminal, out: &mut Pending)
    requires { array_vec_len out.old + 704 ≤ SIZE }
    ensures items { out.new.items ≡ out.old.items ++ texts_to
        (λ u. cond (waits_for (M.world core.now) waiting u) (terminal_text u) []) last_terminal }
    ensures len { array_vec_len out.new ≤ array_vec_len out.old + 704 }
{
    for before in 0..TERMINALS {
        let other = terminal_after(before);
        if waits_for(core, waiting, other) {
            terminal(out, other);
        }
    }
}

/// Appends the lock that a terminal's next stage asks for, where it asks for one.
fn wanted<M: Machine>(core: &M, waiting: Terminal, out: &mut Pending)
    requires { array_vec_len out.old + 47 ≤ SIZE }
    ensures items { out.new.items
        ≡ out.old.items ++ lock_text (wanted_by (M.world core.now) waiting) }
    ensures len { array_vec_len out.new ≤ array_vec_len out.old + 47 }
{
    match core.wanted(waiting) {
        Some(wanted) => lock(out, &wanted),
        None => {}
    }
}

/// Appends a terminal's line where it waits, and tells whether it does.
fn waiting<M: Machine>(core: &M, waiting: Terminal, out: &mut Pending) -> bool
    requires { array_vec_len out.old + LONGEST ≤ SIZE }
    ensures items { out.new.items
        ≡ out.old.items ++ waiting_line (M.world core.now) waiting }
    ensures waits { result ≡ waits (M.world core.now) waiting }
{
    if !waits(core, waiting) {
        return false;
    }
    small(out, waiting.get());
    text(out, b" waits ");
    wanted(core, waiting, out);
    text(out, b" for");
    holders(core, waiting, out);
    text(out, b"\n");
    true
}

/// Gives a count with one more where there is one.
fn with_one(count: u64, is_one: bool) -> u64
    requires { count < 64 }
    ensures { result ≡ cond is_one (suc count) count }
{
    if is_one { count + 1 } else { count }
}

/// Appends the lines of all that wait, and tells how many do.
fn all_waiting<W: Outlet, M: Machine>(
    core: &M,
    out: &mut Pending,
    to: &mut W,
) -> Result<u64, Failed>
    ensures stream { Streams (W.sink to.old) out.old.items (W.sink to.new) out.new.items
        (texts_to (waiting_line (M.world core.now)) last_terminal) result }
    ensures count { IfOk result
        (λ n. n ≡ count_to (waits (M.world core.now)) last_terminal) }
{
    let mut count = 0u64;
    for before in 0..TERMINALS {
        let terminal = terminal_after(before);
        if let Err(e) = make_room(out, to) {
            return Err(e);
        }
        count = with_one(count, waiting(core, terminal, out));
    }
    Ok(count)
}

/// Appends a terminal where it is in both sets.
fn member(ahead: &[bool; 65], back: &[bool; 65], number: Terminal, out: &mut Pending)
    requires { array_vec_len out.old + 11 ≤ SIZE }
    ensures items { out.new.items ≡ out.old.items
        ++ cond (is_in ahead.now number && is_in back.now number) (terminal_text number) [] }
    ensures len { array_vec_len out.new ≤ array_vec_len out.old + 11 }
{
    if is_in_both(ahead, back, number) {
        terminal(out, number);
    }
}

/// Appends the terminals that are in both sets.
fn members(ahead: &[bool; 65], back: &[bool; 65], out: &mut Pending)
    requires { array_vec_len out.old + 704 ≤ SIZE }
    ensures items { out.new.items ≡ out.old.items ++ texts_to
        (λ u. cond (is_in ahead.now u && is_in back.now u) (terminal_text u) []) last_terminal }
    ensures len { array_vec_len out.new ≤ array_vec_len out.old + 704 }
{
    for before in 0..TERMINALS {
        member(ahead, back, terminal_after(before), out);
    }
}

/// Tells whether a terminal is in the first set, and none below it is in both.
fn is_least(ahead: &[bool; 65], back: &[bool; 65], terminal: Terminal) -> bool
    ensures { result ≡ is_least_in ahead.now back.now terminal }
{
    let last = terminal.get();
    if !ahead[last as usize] {
        return false;
    }
    for before in 0..last - 1 {
        let lower = terminal_after(before);
        if is_in_both(ahead, back, lower) {
            return false;
        }
    }
    true
}

/// Appends the line of those in both sets where a terminal is the least of them, and tells whether
/// it is.
fn cycle_in(ahead: &[bool; 65], back: &[bool; 65], least: Terminal, out: &mut Pending) -> bool
    requires { array_vec_len out.old + LONGEST ≤ SIZE }
    ensures items { out.new.items ≡ out.old.items ++ line_in ahead.now back.now least }
    ensures found { result ≡ is_least_in ahead.now back.now least }
{
    if !is_least(ahead, back, least) {
        return false;
    }
    text(out, b"cycle");
    members(ahead, back, out);
    text(out, b"\n");
    true
}

/// Appends the line of the cycle in which a terminal is the least, and tells whether there is one.
fn cycle<M: Machine>(core: &M, least: Terminal, out: &mut Pending) -> bool
    requires { array_vec_len out.old + LONGEST ≤ SIZE }
    ensures items { out.new.items ≡ out.old.items ++ cycle_line (M.world core.now) least }
    ensures found { result ≡ is_least_in_cycle (M.world core.now) least }
{
    let ahead = reached(core, Way::Ahead, least);
    let back = reached(core, Way::Back, least);
    let _number = least.get();
    cycle_in(&ahead, &back, least, out)
}

/// Tells whether one of the two holds.
fn either(one: bool, other: bool) -> bool
    ensures { result ≡ (one || other) }
{
    one || other
}

/// Appends the lines of all cycles, and tells whether there is one.
fn all_cycles<W: Outlet, M: Machine>(
    core: &M,
    out: &mut Pending,
    to: &mut W,
) -> Result<bool, Failed>
    ensures stream { Streams (W.sink to.old) out.old.items (W.sink to.new) out.new.items
        (texts_to (cycle_line (M.world core.now)) last_terminal) result }
    ensures found { IfOk result
        (λ f. f ≡ any_to (is_least_in_cycle (M.world core.now)) last_terminal) }
{
    let mut is_found = false;
    for before in 0..TERMINALS {
        let terminal = terminal_after(before);
        if let Err(e) = make_room(out, to) {
            return Err(e);
        }
        is_found = either(is_found, cycle(core, terminal, out));
    }
    Ok(is_found)
}

/// Appends the lines of all cycles, or that there is none.
fn cycles<W: Outlet, M: Machine>(core: &M, out: &mut Pending, to: &mut W) -> Result<(), Failed>
    ensures { Streams (W.sink to.old) out.old.items (W.sink to.new) out.new.items
        (or_no_cycle (texts_to (cycle_line (M.world core.now)) last_terminal)) result }
{
    match all_cycles(core, out, to) {
        Ok(true) => Ok(()),
        Ok(false) => line(out, to, b"no cycle\n"),
        Err(e) => Err(e),
    }
}

/// Appends a short line, and writes what waits first where there is no room behind it.
fn line<W: Outlet>(out: &mut Pending, to: &mut W, bytes: &[u8]) -> Result<(), Failed>
    requires { length bytes.now ≤ LONGEST }
    ensures { Streams (W.sink to.old) out.old.items (W.sink to.new) out.new.items bytes.now result }
{
    if let Err(e) = make_room(out, to) {
        return Err(e);
    }
    text(out, bytes);
    Ok(())
}

/// Appends `rows <count>`.
fn rows(out: &mut Pending, count: u128)
    requires { array_vec_len out.old + LONGEST ≤ SIZE }
    ensures { out.new.items ≡ out.old.items ++ count_line count }
{
    let mut buffer = Buffer::new();
    text(out, b"rows ");
    text(out, buffer.format(count).as_bytes());
    text(out, b"\n");
}

/// Appends the line of a count, and writes what waits first where there is no room behind it.
pub(crate) fn total<W: Outlet>(count: u128, out: &mut Pending, to: &mut W) -> Result<(), Failed>
    ensures { Streams (W.sink to.old) out.old.items (W.sink to.new) out.new.items
        (count_line count) result }
{
    if let Err(e) = make_room(out, to) {
        return Err(e);
    }
    rows(out, count);
    Ok(())
}

/// Writes who waits for whom, the cycles, and how many wait. An error is one of the writer.
pub fn show_waits<W: Outlet, M: Machine>(
    core: &M,
    out: &mut Pending,
    to: &mut W,
) -> Result<(), Failed>
    ensures { Streams (W.sink to.old) out.old.items (W.sink to.new) out.new.items
        (waits_text (M.world core.now)) result }
{
    let count = match all_waiting(core, out, to) {
        Ok(count) => count,
        Err(e) => return Err(e),
    };
    if let Err(e) = cycles(core, out, to) {
        return Err(e);
    }
    total(u128::from(count), out, to)
}
