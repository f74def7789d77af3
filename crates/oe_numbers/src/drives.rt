//! The numbers of a drive and of a load, and how they are read.
//!
//! A word is a number where it is what the number prints as: digits alone, and no zero before
//! another digit.
ghost use Rattle.std.specs.Prelude.{◌≡◌, ◌≢◌, ◌<◌, ◌≤◌, ℕ, length, map, slice_get, decimal, Some, IfSome, IfNone, MatchOption};
ghost use Rattle.std.specs.Int.{IsInRange};
ghost use Rattle.oe_numbers.specs.Words.{AreInRange, AreOfLoad, AreFollowing, Says, IsScaleOf};
ghost use Rattle.oe_numbers.specs.Words.{words_of, load_words_of, following_words_of};
ghost use Rattle.oe_numbers.specs.declared.drives.FollowingNumbers.{FollowingNumbers};
ghost use Rattle.oe_numbers.specs.declared.drives.DriveNumbers.{DriveNumbers};
ghost use Rattle.oe_numbers.specs.declared.drives.LoadNumbers.{LoadNumbers};
ghost use Rattle.oe_rows.specs.declared.scales.Scale.{Scale};

use itoa::Buffer;
use oe_rows::Scale;
use oe_values::{ExtentCount, Number};
use std::convert::AsStr;

/// How large a drive's population is, how many undo extents it has, how many terminals send how
/// many requests each, and the seed of all requests.
#[derive(Clone, Copy)]
pub struct DriveNumbers {
    pub scale: Scale,
    pub extents: ExtentCount,
    pub terminals: Number<1, 63>,
    pub requests: Number<1, 1_000>,
    pub seed: u32,
}

/// The number of a request among its terminal's in a load, from 1 to 1,000,000,000.
pub type Ordinal = Number<1, 1_000_000_000>;

/// How large a load's population is, how many undo extents it has, how many terminals ask for how
/// many requests each, and the seed of all requests.
#[derive(Clone, Copy)]
pub struct LoadNumbers {
    pub scale: Scale,
    pub extents: ExtentCount,
    pub terminals: Number<1, 63>,
    pub requests: Ordinal,
    pub seed: u32,
}

/// The numbers of a load on tables that are there: how many undo extents it has, how many terminals
/// ask for how many requests each, and the seed of all requests.
#[derive(Clone, Copy)]
pub struct FollowingNumbers {
    pub extents: ExtentCount,
    pub terminals: Number<1, 63>,
    pub requests: Ordinal,
    pub seed: u32,
}

/// Reads a number of a range: digits alone, and no zero before another digit.
pub fn number_of<const LOW: u32, const HIGH: u32>(word: &str) -> Option<Number<LOW, HIGH>>
    ensures some { IfSome result (λ n. IsInRange LOW HIGH n × (word.now ≡ decimal n)) }
    ensures none { IfNone result ((n : ℕ) → LOW ≤ n → n ≤ HIGH → word.now ≢ decimal n) }
{
    let Ok(number) = word.parse::<u32>() else {
        return None;
    };
    let mut buffer = Buffer::new();
    if buffer.format(number) != word {
        return None;
    }
    Number::new(number)
}

// Reads the word of that place.
fn number_at<S: AsStr, const LOW: u32, const HIGH: u32>(
    words: &[S],
    place: usize,
) -> Option<Number<LOW, HIGH>>
    requires { place < length words.now }
    ensures some { IfSome result (Says (map S.text words.now) place LOW HIGH) }
    ensures none { IfNone result ((n : ℕ) → LOW ≤ n → n ≤ HIGH
        → slice_get (map S.text words.now) place ≢ Some (decimal n)) }
{
    number_of(words[place].as_str())
}

// Reads warehouses, customers and items.
fn scale_of<S: AsStr>(words: &[S]) -> Option<Scale>
    requires { length words.now ≡ 7 }
    ensures { MatchOption result
        ((s : Scale) → IsScaleOf (map S.text words.now) s → ⊥)
        (λ s. IsScaleOf (map S.text words.now) s) }
{
    Some(Scale {
        warehouses: number_at(words, 0)?,
        customers: number_at(words, 1)?,
        items: number_at(words, 2)?,
    })
}

impl DriveNumbers {
    /// Reads the seven numbers of these words. None where they are other words.
    pub fn read<S: AsStr>(words: &[S]) -> Option<DriveNumbers>
        ensures { MatchOption result
            ((d : DriveNumbers) → AreInRange d → map S.text words.now ≢ words_of d)
            (λ d. AreInRange d × (map S.text words.now ≡ words_of d)) }
    {
        if words.len() != 7 {
            return None;
        }
        let scale = scale_of(words)?;
        let extents = number_at(words, 3)?;
        let terminals = number_at(words, 4)?;
        let requests = number_at(words, 5)?;
        let seed: Number<0, 4_294_967_295> = number_at(words, 6)?;
        Some(DriveNumbers {
            scale,
            extents,
            terminals,
            requests,
            seed: seed.get(),
        })
    }
}

impl LoadNumbers {
    /// Reads the seven numbers of these words. None where they are other words.
    pub fn read<S: AsStr>(words: &[S]) -> Option<LoadNumbers>
        ensures { MatchOption result
            ((d : LoadNumbers) → AreOfLoad d → map S.text words.now ≢ load_words_of d)
            (λ d. AreOfLoad d × (map S.text words.now ≡ load_words_of d)) }
    {
        if words.len() != 7 {
            return None;
        }
        let scale = scale_of(words)?;
        let extents = number_at(words, 3)?;
        let terminals = number_at(words, 4)?;
        let requests = number_at(words, 5)?;
        let seed: Number<0, 4_294_967_295> = number_at(words, 6)?;
        Some(LoadNumbers {
            scale,
            extents,
            terminals,
            requests,
            seed: seed.get(),
        })
    }
}

impl FollowingNumbers {
    /// Reads the four numbers of these words. None where they are other words.
    pub fn read<S: AsStr>(words: &[S]) -> Option<FollowingNumbers>
        ensures { MatchOption result
            ((d : FollowingNumbers) → AreFollowing d → map S.text words.now ≢ following_words_of d)
            (λ d. AreFollowing d × (map S.text words.now ≡ following_words_of d)) }
    {
        if words.len() != 4 {
            return None;
        }
        let extents = number_at(words, 0)?;
        let terminals = number_at(words, 1)?;
        let requests = number_at(words, 2)?;
        let seed: Number<0, 4_294_967_295> = number_at(words, 3)?;
        Some(FollowingNumbers {
            extents,
            terminals,
            requests,
            seed: seed.get(),
        })
    }
}
