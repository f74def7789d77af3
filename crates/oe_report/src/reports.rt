//! The two lines, and the status that goes with them.
ghost use Rattle.std.specs.Prelude.{◌≡◌, ◌+◌, ◌++◌, ◌≤◌, length, codes, decimal};
ghost use Rattle.arrayvec.specs.ArrayVec.{array_vec_len};
ghost use Rattle.oe_requests.specs.Condition.{condition_number};
ghost use Rattle.oe_report.specs.Reports.{condition_line, population_line, report_of, status_of};

use itoa::Buffer;
use oe_requests::Condition;
use oe_texts::{LONGEST, Pending, SIZE, text};

// Appends `condition N fails`.
fn failing_line(out: &mut Pending, number: Condition)
    requires { array_vec_len out.old + 60 ≤ SIZE }
    ensures items { out.new.items ≡ out.old.items
        ++ (codes "condition " ++ decimal (condition_number number) ++ codes " fails\n") }
    ensures len { array_vec_len out.new ≤ array_vec_len out.old + 60 }
{
    let mut buffer = Buffer::new();
    text(out, b"condition ");
    text(out, buffer.format(number.number()).as_bytes());
    text(out, b" fails\n");
}

// Appends the line on the conditions.
fn condition_line(out: &mut Pending, failing: Option<Condition>)
    requires { array_vec_len out.old + 60 ≤ SIZE }
    ensures items { out.new.items ≡ out.old.items ++ condition_line failing }
    ensures len { array_vec_len out.new ≤ array_vec_len out.old + 60 }
{
    match failing {
        None => text(out, b"conditions 1 2 3 4 hold\n"),
        Some(number) => failing_line(out, number),
    }
}

// Appends the line on the population.
fn population_line(out: &mut Pending, is_restored: bool)
    requires { array_vec_len out.old + 60 ≤ SIZE }
    ensures { out.new.items ≡ out.old.items ++ population_line is_restored }
{
    if is_restored {
        text(out, b"population restored\n");
    } else {
        text(out, b"population differs\n");
    }
}

/// Appends the two lines: which condition fails, if one does, and whether the population is
/// restored.
pub fn report(out: &mut Pending, failing: Option<Condition>, is_restored: bool)
    requires { array_vec_len out.old + LONGEST ≤ SIZE }
    ensures { out.new.items ≡ out.old.items ++ report_of failing is_restored }
{
    condition_line(out, failing);
    population_line(out, is_restored);
}

/// Gives the exit status: 0 where the conditions hold and the population is restored, else 1.
pub fn status(failing: Option<Condition>, is_restored: bool) -> u8
    ensures { result ≡ status_of failing is_restored }
{
    match failing {
        None => { if is_restored { 0 } else { 1 } }
        Some(_) => 1,
    }
}
