//! The numbers of an order's lines, in blocks of 64.
ghost use Rattle.std.specs.Prelude.{◌≡◌, [], OnOk, IfOk, List, pos, count_ones};
ghost use Rattle.std.specs.Option.{option_map};
ghost use Rattle.oe_tally.specs.Walks.{AreAll};
ghost use Rattle.oe_facts.specs.declared.facts.OrderLineFact.{OrderLineFact};
ghost use Rattle.oe_ledgers.specs.Keeping.{Takes, Stays};
ghost use Rattle.oe_ledgers.specs.Figures.{AreFew};
ghost use Rattle.oe_checks.specs.Comparing.{single};
ghost use Rattle.oe_line_numbers.specs.Numbers.{bit_of, numbers_of, same_block, block_cmp};
ghost use Rattle.oe_line_numbers.specs.Blocks.{KeepsLineNumbers, AreSettledLineNumbers, lines_once};

use oe_checks::figures::{Apart, differing};
use oe_facts::facts::OrderLineFact;
use oe_facts::keys::OrderId;
use oe_tally::checks::{Check, findings};
use oe_tally::count::Count;
use oe_tally::join::Join;
use oe_tally::tally::Tally;
use std::alloc::{AllocError, Global};

/// The numbers of an order's lines from 64 times `block` on, 64 of them.
#[derive(Clone, Copy, PartialEq, Eq, PartialOrd, Ord)]
pub struct LineBlock {
    pub order: OrderId,
    pub block: u8,
}

/// Of the ORDER-LINE rows of one block their OL_NUMBERs, a bit each, and how many rows there are, at
/// most 2^32 - 1.
#[derive(Clone, Copy)]
pub struct Numbers {
    pub seen: u64,
    pub rows: u32,
}

impl Join for Numbers {
    ghost use Rattle.oe_line_numbers.specs.Numbers.{numbers_joined};
    ghost use Rattle.oe_line_numbers.specs.NumberLaws.{numbers_associative, numbers_commutative};

    ghost joined = { numbers_joined };

    ghost associative = { numbers_associative };

    ghost commutative = { numbers_commutative };

    fn join(self, other: Self) -> Self {
        Numbers {
            seen: self.seen | other.seen,
            rows: self.rows.saturating_add(other.rows),
        }
    }
}

// Gives the bit of a number within its block.
fn bit(number: u8) -> u64
    ensures { result ≡ bit_of number }
{
    1u64 << (number % 64)
}

impl Numbers {
    /// Gives what one row brings.
    pub fn of(fact: &OrderLineFact) -> Self
        ensures { result ≡ numbers_of fact.now }
    {
        Numbers {
            seen: bit(fact.number),
            rows: 1,
        }
    }
}

/// The numbers of ORDER-LINE rows, by block.
#[derive(Drop)]
pub struct LineNumbers {
    pub by_block: Tally<LineBlock, Numbers>,
}

impl LineNumbers {
    /// Begins without a row.
    pub fn new(alloc: Global) -> Self
        ensures { KeepsLineNumbers [] result }
    {
        LineNumbers {
            by_block: Tally::new(alloc),
        }
    }

    /// Takes a row in. Where memory is refused, no sum changes.
    pub fn add(&mut self, fact: &OrderLineFact) -> Result<(), AllocError>
        ensures { OnOk result (Takes KeepsLineNumbers self.old self.new fact.now) }
    {
        let block = LineBlock {
            order: fact.order,
            block: fact.number / 64,
        };
        self.by_block.add(block, Numbers::of(fact))
    }

    /// Puts all sums in the order of their keys.
    pub fn settle(&mut self)
        ensures stays { Stays KeepsLineNumbers self.old self.new }
        ensures settled { AreSettledLineNumbers self.new }
    {
        self.by_block.settle();
    }
}

struct LinesOnce;

impl Check<Numbers, Count> for LinesOnce {
    ghost use Rattle.std.specs.Prelude.{refl};

    type Wrong = Apart;

    ghost judged = { λ _ row sum. single (option_map (λ s. pos s.rows) row)
        (option_map (λ s. pos (count_ones s.seen)) row) };

    ghost nothing = { λ _. refl };

    fn judge(&self, row: Option<Numbers>, _sum: Option<Count>) -> Option<Apart>
        ensures { result ≡ single (option_map (λ s. pos s.rows) row)
            (option_map (λ s. pos (count_ones s.seen)) row) }
    {
        let Some(row) = row else {
            return None;
        };
        differing(row.rows as i128, row.seen.count_ones() as i128)
    }
}

/// Gives each order and block of which an OL_NUMBER stands more than once, with the number of its
/// rows and how many numbers they have (clause 1.3.1).
pub fn lines_once(
    alloc: Global,
    numbers: &LineNumbers,
) -> Result<Vec<(LineBlock, Apart)>, AllocError>
    requires { AreSettledLineNumbers numbers.now }
    ensures { (of_lines : List OrderLineFact) → KeepsLineNumbers of_lines numbers.now
        → AreFew of_lines
        → IfOk result (λ found. AreAll block_cmp same_block (lines_once of_lines) found.items) }
{
    let nothing: Tally<LineBlock, Count> = Tally::new(alloc);
    findings(alloc, &LinesOnce, &numbers.by_block, &nothing)
}
