//! Numbers that are drawn from a generator (clauses 2.1.5 and 2.1.6).
ghost use Rattle.std.specs.Prelude.{◌≡◌, ◌+◌, ◌<◌, ◌≤◌, ◌^◌};
ghost use Rattle.oe_terms.specs.Draws.{random, nurand, words_of};

use oe_values::known::number;
use oe_values::{Number, Terminal};
use rand_core::utils::NextWord;
use rand_pcg::Lcg64Xsh32;

/// Makes the generator of a terminal from the seed of all.
pub fn words(seed: u32, terminal: Terminal) -> Lcg64Xsh32
    ensures { result ≡ words_of seed terminal }
{
    Lcg64Xsh32::new(u64::from(seed), u64::from(terminal.get()))
}

/// Draws a number from `low` to `high`.
pub fn random(words: &mut Lcg64Xsh32, low: u32, high: u32) -> u32
    requires order { low ≤ high }
    requires fits { high + 1 < 2 ^ 32 }
    ensures drawn { (result, words.new) ≡ random low high words.old }
    ensures within { (low ≤ result) × (result ≤ high) }
{
    low + words.next_word() % (high - low + 1)
}

/// Draws a number from `low` to `high`, some more often than others: `NURand(most, low, high)` with
/// the constant C.
pub fn nurand(words: &mut Lcg64Xsh32, most: u32, constant: u32, low: u32, high: u32) -> u32
    requires order { low ≤ high }
    requires fits { (high + 1 < 2 ^ 32) × (most + 1 < 2 ^ 32) }
    ensures drawn { (result, words.new) ≡ nurand most constant low high words.old }
    ensures within { (low ≤ result) × (result ≤ high) }
{
    let left = random(words, 0, most);
    let right = random(words, low, high);
    let count = u64::from(high - low + 1);
    let place = (u64::from(left | right) + u64::from(constant)) % count;
    low + place as u32
}

/// Draws a number of a range, each as often as the others.
pub fn number_in<const LOW: u32, const HIGH: u32>(words: &mut Lcg64Xsh32) -> Number<LOW, HIGH>
    requires order { LOW ≤ HIGH }
    requires fits { HIGH + 1 < 2 ^ 32 }
    ensures { (result, words.new) ≡ random LOW HIGH words.old }
{
    number(random(words, LOW, HIGH))
}
