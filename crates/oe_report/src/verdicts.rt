//! Which of the conditions fails.
ghost use Rattle.std.specs.Prelude.{◌≡◌};
ghost use Rattle.oe_store.specs.Places.{rows};
ghost use Rattle.oe_report.specs.Verdicts.{fails, IsFirstFailing};

use oe_audit::condition;
use oe_requests::{Condition, Verdict};
use oe_store::Tables;

// Tells whether a condition fails.
fn fails(number: Condition, tables: &Tables) -> bool
    ensures { result ≡ fails number (rows tables.now) }
{
    match condition(number, tables) {
        Verdict::Holds => false,
        Verdict::Fails(_) => true,
    }
}

/// Finds the first of conditions 1 to 4 (clauses 3.3.2.1 to 3.3.2.4) that fails, if one does.
pub fn first_failing(tables: &Tables) -> Option<Condition>
    ensures { IsFirstFailing (rows tables.now) result }
{
    if fails(Condition::First, tables) {
        return Some(Condition::First);
    }
    if fails(Condition::Second, tables) {
        return Some(Condition::Second);
    }
    if fails(Condition::Third, tables) {
        return Some(Condition::Third);
    }
    if fails(Condition::Fourth, tables) {
        return Some(Condition::Fourth);
    }
    None
}
