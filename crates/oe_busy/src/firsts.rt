//! The names that were most often in the way, found one after another by a look at all of them, so
//! that no memory is wanted.
ghost use Rattle.std.specs.Prelude.{◌≡◌, ◌≤◌, ◌+◌, ◌*◌, ◌++◌, List, None, false, option_map};
ghost use Rattle.std.specs.Option.{MatchOption};
ghost use Rattle.std.specs.List.{flat_map};
ghost use Rattle.arrayvec.specs.ArrayVec.{array_vec_len};
ghost use Rattle.oe_rows.specs.declared.locks.Name.{Name};
ghost use Rattle.oe_busy.specs.Happenings.{count_in};
ghost use Rattle.oe_busy.specs.Firsts.{is_left, name_line, precedes, sooner, AreMostBusy, IsFirst};

use crate::names::NameCounts;
use oe_rows::Name;
use oe_texts::columns::number;
use oe_texts::{Pending, SIZE, name as append_name, text};
use oe_waits::{is_before, place};

/// Tells whether a name comes before another: it was more often in the way, or as often, and is
/// before it among all names.
fn precedes(counts: &NameCounts, one: &Name, other: &Name) -> bool
    ensures { result ≡ precedes (count_in counts.now) one.now other.now }
{
    let count = counts.count(one);
    let other_count = counts.count(other);
    if count == other_count {
        return is_before(&place(one), &place(other));
    }
    other_count < count
}

/// Tells whether a name was in the way, and comes behind another, where there is one.
fn is_left(counts: &NameCounts, behind: Option<&Name>, name: &Name) -> bool
    ensures { result ≡ is_left (count_in counts.now) (option_map (λ n. n.now) behind.entry)
        name.now }
{
    if counts.count(name) == 0 {
        return false;
    }
    match behind {
        Some(last) => precedes(counts, last, name),
        None => true,
    }
}

/// Gives the first name so far, or one more where that is left and comes before it.
fn sooner<'a>(
    counts: &NameCounts,
    first: Option<&'a Name>,
    name: &'a Name,
    is_left: bool,
) -> Option<&'a Name>
    ensures { option_map (λ n. n.now) result ≡ sooner (count_in counts.now)
        (option_map (λ n. n.now) first.entry) name.now is_left }
{
    if !is_left {
        return first;
    }
    match first {
        None => Some(name),
        Some(before) => {
            if precedes(counts, name, before) {
                Some(name)
            } else {
                Some(before)
            }
        }
    }
}

/// Gives the first name behind another, where one is left.
fn next_name<'a>(counts: &'a NameCounts, behind: Option<&Name>) -> Option<&'a Name>
    ensures { MatchOption (option_map (λ n. n.now) result)
        ((q : Name) → is_left (count_in counts.now) (option_map (λ n. n.now) behind.entry) q
        ≡ false)
        (IsFirst (count_in counts.now) (option_map (λ n. n.now) behind.entry)) }
{
    let names = counts.names();
    let mut first = None;
    for name in names {
        first = sooner(counts, first, name, is_left(counts, behind, name));
    }
    first
}

/// Appends the line of a name.
fn name_line(out: &mut Pending, counts: &NameCounts, name: &Name)
    requires { array_vec_len out.old + 72 ≤ SIZE }
    ensures items { out.new.items ≡ out.old.items ++ name_line (count_in counts.now) name.now }
    ensures len { array_vec_len out.new ≤ array_vec_len out.old + 72 }
{
    text(out, b"Busy ");
    number(out, counts.count(name));
    text(out, b" ");
    append_name(out, name);
    text(out, b"\n");
}

/// Appends the lines of at most that many names, which were most often in the way.
fn some_lines(out: &mut Pending, counts: &NameCounts, most: u32)
    requires { array_vec_len out.old + 72 * most ≤ SIZE }
    ensures items { (ns : List Name) × AreMostBusy (count_in counts.now) None most ns
        × (out.new.items ≡ out.old.items ++ flat_map (name_line (count_in counts.now)) ns) }
    ensures len { array_vec_len out.new ≤ array_vec_len out.old + 72 * most }
{
    let mut last = None;
    for shown in 0..most {
        let Some(name) = next_name(counts, last) else {
            return;
        };
        name_line(out, counts, name);
        last = Some(name);
    }
}

/// Appends the lines of the ten names that were most often in the way.
pub(crate) fn first_lines(out: &mut Pending, counts: &NameCounts)
    requires { array_vec_len out.old + 800 ≤ SIZE }
    ensures items { (ns : List Name) × AreMostBusy (count_in counts.now) None 10 ns
        × (out.new.items ≡ out.old.items ++ flat_map (name_line (count_in counts.now)) ns) }
    ensures len { array_vec_len out.new ≤ array_vec_len out.old + 720 }
{
    some_lines(out, counts, 10);
}
