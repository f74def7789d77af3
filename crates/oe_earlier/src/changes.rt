//! Rows against earlier ones: of each earlier row whether there is still one of its key, whether
//! the columns that no transaction changes have the print that they had, and of a STOCK row whether
//! (S_QUANTITY + S_YTD) mod 91 is what it was.
ghost use Rattle.std.specs.Prelude.{◌≡◌, IfOk, List, pos};
ghost use Rattle.std.specs.Option.{option_map};
ghost use Rattle.oe_tally.specs.Tallies.{IsSettled, SameTotals};
ghost use Rattle.oe_tally.specs.Walks.{AreAll};
ghost use Rattle.oe_checks.specs.Comparing.{orphans_apart, single};
ghost use Rattle.oe_ledgers.specs.Keys.{same_stock, stock_cmp};
ghost use Rattle.oe_earlier.specs.Traces.{traces_joined, residues_joined};
ghost use Rattle.oe_earlier.specs.Changes.{loss_apart, change_apart, residue_apart};
ghost use Rattle.oe_earlier.specs.declared.traces.Trace.{Trace};
ghost use Rattle.oe_earlier.specs.declared.traces.Residue.{Residue};
ghost use Rattle.oe_facts.specs.declared.keys.StockId.{StockId};

use crate::traces::{Residue, Trace};
use oe_checks::figures::{Apart, differing};
use oe_facts::keys::StockId;
use oe_tally::checks::{Check, findings};
use oe_tally::tally::Tally;
use std::alloc::{AllocError, Global};

struct IsGone;

impl Check<Trace, Trace> for IsGone {
    ghost use Rattle.std.specs.Prelude.{refl};

    type Wrong = Apart;

    ghost judged = { λ _ row now. orphans_apart (option_map (λ s. pos s.rows) row)
        (option_map (λ s. pos s.rows) now) };

    ghost nothing = { λ _. refl };

    fn judge(&self, row: Option<Trace>, now: Option<Trace>) -> Option<Apart>
        ensures { result ≡ orphans_apart (option_map (λ s. pos s.rows) row)
            (option_map (λ s. pos s.rows) now) }
    {
        let Some(row) = row else {
            return None;
        };
        match now {
            Some(_) => None,
            None => Some(Apart {
                first: row.rows as i128,
                second: 0,
            }),
        }
    }
}

/// Gives each key of which there were rows and are none, with how many there were, and 0.
pub fn gone<K: Ord + Copy>(
    alloc: Global,
    before: &Tally<K, Trace>,
    now: &Tally<K, Trace>,
) -> Result<Vec<(K, Apart)>, AllocError>
    requires before { IsSettled K.cmp before.now }
    requires now { IsSettled K.cmp now.now }
    ensures { (of_before of_now : List (K × Trace))
        → SameTotals K.eq traces_joined of_before before.now
        → SameTotals K.eq traces_joined of_now now.now
        → IfOk result (λ found. AreAll K.cmp K.eq (loss_apart K.eq of_before of_now) found.items) }
{
    findings(alloc, &IsGone, before, now)
}

struct IsChanged;

impl Check<Trace, Trace> for IsChanged {
    ghost use Rattle.std.specs.Prelude.{refl};

    type Wrong = Apart;

    ghost judged = { λ _ row now. single (option_map (λ s. pos s.print) row)
        (option_map (λ s. pos s.print) now) };

    ghost nothing = { λ _. refl };

    fn judge(&self, row: Option<Trace>, now: Option<Trace>) -> Option<Apart>
        ensures { result ≡ single (option_map (λ s. pos s.print) row)
            (option_map (λ s. pos s.print) now) }
    {
        let Some(row) = row else {
            return None;
        };
        let Some(now) = now else {
            return None;
        };
        let first = row.print as i128;
        let second = now.print as i128;
        differing(first, second)
    }
}

/// Gives each key whose rows had another print, with the print that they had and the one that they
/// have.
pub fn changed<K: Ord + Copy>(
    alloc: Global,
    before: &Tally<K, Trace>,
    now: &Tally<K, Trace>,
) -> Result<Vec<(K, Apart)>, AllocError>
    requires before { IsSettled K.cmp before.now }
    requires now { IsSettled K.cmp now.now }
    ensures { (of_before of_now : List (K × Trace))
        → SameTotals K.eq traces_joined of_before before.now
        → SameTotals K.eq traces_joined of_now now.now
        → IfOk result (λ found. AreAll K.cmp K.eq
        (change_apart K.eq of_before of_now) found.items) }
{
    findings(alloc, &IsChanged, before, now)
}

struct IsMoved;

impl Check<Residue, Residue> for IsMoved {
    ghost use Rattle.std.specs.Prelude.{refl};

    type Wrong = Apart;

    ghost judged = { λ _ row now. single (option_map (λ s. s.residue) row)
        (option_map (λ s. s.residue) now) };

    ghost nothing = { λ _. refl };

    fn judge(&self, row: Option<Residue>, now: Option<Residue>) -> Option<Apart>
        ensures { result ≡ single (option_map (λ s. s.residue) row)
            (option_map (λ s. s.residue) now) }
    {
        let Some(row) = row else {
            return None;
        };
        let Some(now) = now else {
            return None;
        };
        differing(row.residue as i128, now.residue as i128)
    }
}

/// Gives each STOCK row whose (S_QUANTITY + S_YTD) mod 91 is another than it was, with what it was
/// and what it is: an order takes OL_QUANTITY from S_QUANTITY, adds 91 where less than 10 would be
/// left, and adds OL_QUANTITY to S_YTD (clause 2.4.2.2).
pub fn moved(
    alloc: Global,
    before: &Tally<StockId, Residue>,
    now: &Tally<StockId, Residue>,
) -> Result<Vec<(StockId, Apart)>, AllocError>
    requires before { IsSettled stock_cmp before.now }
    requires now { IsSettled stock_cmp now.now }
    ensures { (of_before of_now : List (StockId × Residue))
        → SameTotals same_stock residues_joined of_before before.now
        → SameTotals same_stock residues_joined of_now now.now
        → IfOk result (λ found. AreAll stock_cmp same_stock
        (residue_apart of_before of_now) found.items) }
{
    findings(alloc, &IsMoved, before, now)
}
