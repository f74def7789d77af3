//! What tables lack of a population: conditions 1 to 4 are asked in order, and then STOCK rows in
//! key order. The first lack is told.
ghost use Rattle.std.specs.Prelude.{◌≡◌, MatchOption};
ghost use Rattle.oe_machine.specs.Verdict.{condition_of};
ghost use Rattle.oe_audit.specs.Verdict.{AreMet};
ghost use Rattle.oe_model.specs.Conditions.{IsPopulation};
ghost use Rattle.oe_model.specs.Verdicts.{IsMet, IsFirstRow};
ghost use Rattle.oe_store.specs.Places.{rows};
ghost use Rattle.oe_origin.specs.Lacks.{AreOfPopulation, Lacks};

use crate::stocks::no_stock;
use oe_audit::condition;
use oe_file_loading::Apart;
use oe_requests::{Condition, Verdict};
use oe_rows::{Key, StockKey};
use oe_store::Tables;

/// What files or tables lack of a population.
#[derive(Clone, Copy)]
pub enum Lack {
    /// A row of the files refers to a row that is not there (clauses 1.3 and 1.4).
    Row(Apart),
    /// The first of conditions 1 to 4 that fails, and the first row, in key order, at which it does
    /// (clauses 3.3.2.1 to 3.3.2.4).
    Condition(Condition, Key),
    /// Conditions 1 to 4 hold. This is the first STOCK row, in key order, that is not there though
    /// its warehouse and its item are.
    Stock(StockKey),
}

// Finds the first row at which a condition fails.
fn failing(number: Condition, tables: &Tables) -> Option<Key>
    ensures { MatchOption result (IsMet (condition_of number) (rows tables.now))
        (IsFirstRow (condition_of number) (rows tables.now)) }
{
    match condition(number, tables) {
        Verdict::Holds => None,
        Verdict::Fails(key) => Some(key),
    }
}

// Finds the first of conditions 1 to 4 that fails, and where it does.
fn unmet(tables: &Tables) -> Option<Lack>
    ensures { MatchOption result (AreMet (rows tables.now)) (Lacks (rows tables.now)) }
{
    if let Some(key) = failing(Condition::First, tables) {
        return Some(Lack::Condition(Condition::First, key));
    }
    if let Some(key) = failing(Condition::Second, tables) {
        return Some(Lack::Condition(Condition::Second, key));
    }
    if let Some(key) = failing(Condition::Third, tables) {
        return Some(Lack::Condition(Condition::Third, key));
    }
    match failing(Condition::Fourth, tables) {
        Some(key) => Some(Lack::Condition(Condition::Fourth, key)),
        None => None,
    }
}

/// Finds the first thing that tables lack of a population, in the order of `Lack`, where they are
/// none. Their HISTORY rows are of terminal 0, the population's. No memory is taken.
pub fn first_lack(tables: &Tables) -> Option<Lack>
    requires { AreOfPopulation (rows tables.now) }
    ensures { MatchOption result (IsPopulation (rows tables.now)) (Lacks (rows tables.now)) }
{
    tables.schema_holds();
    if let Some(lack) = unmet(tables) {
        return Some(lack);
    }
    match no_stock(tables) {
        Some(key) => Some(Lack::Stock(key)),
        None => None,
    }
}
