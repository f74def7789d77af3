//! The answer to `locks`, a line at a time: which names the terminals hold, in which modes, and how
//! many there are.
//!
//! The names of a terminal are on a list in the order in which it took them, which no model knows.
//! Its least name that is not yet shown is found by a look at the whole list, so that no memory is
//! wanted.
ghost use Rattle.std.specs.Prelude.{◌≡◌, ◌≤◌, ◌<◌, ◌+◌, ◌^◌, ◌++◌, ℕ, false, length, option_map, IfOk};
ghost use Rattle.std.specs.Option.{MatchOption};
ghost use Rattle.arrayvec.specs.ArrayVec.{array_vec_len};
ghost use Rattle.oe_values.specs.Text.{IsText};
ghost use Rattle.oe_rows.specs.declared.locks.Name.{Name};
ghost use Rattle.oe_io.specs.Ports.{Streams};
ghost use Rattle.oe_waits.specs.Names.{held_count, held_names, is_before, is_left, lesser, place, IsInRanges, IsLeast};
ghost use Rattle.oe_waits.specs.Texts.{held_line, held_lines, locks_text, texts_to};
ghost use Rattle.oe_waits.specs.Waits.{last_terminal};

use crate::shows::{mode as append_mode, total};
use crate::waiting::terminal_after;
use arrayvec::ArrayVec;
use oe_io::output::make_room;
use oe_io::ports::{Failed, Outlet};
use oe_machine::Machine;
use oe_rows::Name;
use oe_texts::{LONGEST, Pending, SIZE, name as append_name, small, text};
use oe_values::{ShortText, TERMINALS, Terminal};

/// A place among all names; the empty one is before all.
pub type Place = ArrayVec<u32, 20>;

/// Gives these numbers as a place.
fn place_of(numbers: &[u32]) -> Place
    requires { length numbers.now ≤ 20 }
    ensures { result.items ≡ numbers.now }
{
    let mut place = Place::new();
    place.try_extend_from_slice(numbers).unwrap();
    place
}

/// Appends the letters of a last name to a place.
fn letters(place: &mut Place, last: &ShortText)
    requires { array_vec_len place.old + 16 ≤ 20 }
    ensures items { place.new.items ≡ place.old.items ++ last.now }
    ensures fits { IsText 0 16 last.now }
{
    for letter in last.as_str().as_bytes() {
        place.push(u32::from(*letter));
    }
}

/// Gives a name's place among all names: its kind, then the columns of its key from the left, then
/// the letters of a last name.
#[tactic(auto, unfolding(crate::specs::Names::last_warehouse, crate::specs::Names::last_district, crate::specs::Names::last_customer, crate::specs::Names::last_order, crate::specs::Names::last_item, crate::specs::Names::most_letters))]
pub fn place(name: &Name) -> Place
    ensures value { result.items ≡ place name.now }
    ensures ranges { IsInRanges name.now }
{
    match *name {
        Name::Warehouse(key) => place_of(&[1, key.warehouse.get(), 0, 0]),
        Name::District(key) => place_of(&[2, key.warehouse.get(), key.district.get(), 0]),
        Name::Customer(key) => place_of(&[
            3,
            key.warehouse.get(),
            key.district.get(),
            key.customer.get(),
        ]),
        Name::Order(key) => place_of(&[
            4,
            key.warehouse.get(),
            key.district.get(),
            key.order.get(),
        ]),
        Name::Queue(key) => place_of(&[5, key.warehouse.get(), key.district.get(), 0]),
        Name::Stock(key) => place_of(&[6, key.warehouse.get(), key.item.get(), 0]),
        Name::Names(key, last) => {
            let mut place = place_of(&[7, key.warehouse.get(), key.district.get()]);
            letters(&mut place, &last);
            place
        }
    }
}

/// Tells whether a place is before another.
pub fn is_before(one: &Place, other: &Place) -> bool
    ensures { result ≡ is_before one.now.items other.now.items }
{
    one.as_slice().cmp(other.as_slice()).is_lt()
}

/// Gives the lesser of the least name so far and of one more, where that one counts.
fn lesser<'a>(least: Option<&'a Name>, name: &'a Name, is_left: bool) -> Option<&'a Name>
    ensures { option_map (λ n. n.now) result
        ≡ lesser (option_map (λ n. n.now) least.entry) name.now is_left }
{
    if !is_left {
        return least;
    }
    match least {
        None => Some(name),
        Some(before) => {
            if is_before(&place(name), &place(before)) {
                Some(name)
            } else {
                Some(before)
            }
        }
    }
}

/// Gives the least name behind a place that a terminal holds, where there is one.
fn next_held<'a, M: Machine>(core: &'a M, holder: Terminal, behind: &Place) -> Option<&'a Name>
    ensures { MatchOption (option_map (λ n. n.now) result)
        ((q : Name) → is_left (M.world core.now) holder behind.now.items q ≡ false)
        (IsLeast (is_left (M.world core.now) holder behind.now.items)) }
{
    let names = core.names(holder);
    let mut least = None;
    for name in names {
        least = lesser(least, name, is_before(behind, &place(name)));
    }
    least
}

/// Appends the line of a name in the mode in which a terminal holds it, where it does.
fn held<M: Machine>(core: &M, holder: Terminal, name: &Name, out: &mut Pending)
    requires { array_vec_len out.old + LONGEST ≤ SIZE }
    ensures { out.new.items ≡ out.old.items ++ held_line (M.world core.now) holder name.now }
{
    match core.held(holder, name) {
        Some(mode) => {
            small(out, holder.get());
            text(out, b" ");
            append_name(out, name);
            text(out, b" ");
            append_mode(out, mode);
            text(out, b"\n");
        }
        None => {}
    }
}

/// Tells that a terminal's names are few: all stand on one list.
fn names_are_few<M: Machine>(core: &M, holder: Terminal)
    ensures { length (held_names (M.world core.now) holder) < 2 ^ 64 }
{
    let _count = core.names(holder).len();
}

/// Appends the lines of a terminal's names, and tells how many there are.
fn all_of_one<W: Outlet, M: Machine>(
    core: &M,
    holder: Terminal,
    out: &mut Pending,
    to: &mut W,
) -> Result<u128, Failed>
    ensures stream { Streams (W.sink to.old) out.old.items (W.sink to.new) out.new.items
        (held_lines (M.world core.now) holder) result }
    ensures count { IfOk result (λ n. n ≡ length (held_names (M.world core.now) holder)) }
    ensures few { IfOk result (λ n. n < 2 ^ 64) }
{
    names_are_few(core, holder);
    let mut count = 0u128;
    let mut behind = Place::new();
    while let Some(name) = next_held(core, holder, &behind) {
        if let Err(e) = make_room(out, to) {
            return Err(e);
        }
        held(core, holder, name, out);
        behind = place(name);
        count += 1;
    }
    Ok(count)
}

/// Appends the lines of all terminals' names, and tells how many there are.
fn all_held<W: Outlet, M: Machine>(core: &M, out: &mut Pending, to: &mut W) -> Result<u128, Failed>
    ensures stream { Streams (W.sink to.old) out.old.items (W.sink to.new) out.new.items
        (texts_to (held_lines (M.world core.now)) last_terminal) result }
    ensures count { IfOk result (λ n. n ≡ held_count (M.world core.now) last_terminal) }
{
    let mut count = 0u128;
    for before in 0..TERMINALS {
        match all_of_one(core, terminal_after(before), out, to) {
            Ok(more) => count += more,
            Err(e) => return Err(e),
        }
    }
    Ok(count)
}

/// Writes which names the terminals hold, in which modes, and how many there are: by terminal, and
/// of each terminal by the kind of name, the columns of its key and the letters of a last name. An
/// error is one of the writer.
pub fn show_locks<W: Outlet, M: Machine>(
    core: &M,
    out: &mut Pending,
    to: &mut W,
) -> Result<(), Failed>
    ensures { Streams (W.sink to.old) out.old.items (W.sink to.new) out.new.items
        (locks_text (M.world core.now)) result }
{
    match all_held(core, out, to) {
        Ok(count) => total(count, out, to),
        Err(e) => Err(e),
    }
}
