//! Numbers and sums of money that are known to be in their ranges, made without a refusal.
ghost use Rattle.std.specs.Prelude.{◌≡◌, ◌≤◌};

use crate::numbers::{Amount, Number};

/// Makes the number `value`, in a range that has it.
#[inline]
pub fn number<const LOW: u32, const HIGH: u32>(value: u32) -> Number<LOW, HIGH>
    requires low { LOW ≤ value }
    requires high { value ≤ HIGH }
    ensures { result ≡ value }
{
    match Number::new(value) {
        Some(number) => number,
        None => unreachable!(),
    }
}

/// Makes an amount of `cents`, in a range that has them.
#[inline]
pub fn amount<const MOST: u64>(cents: u64) -> Amount<MOST>
    requires { cents ≤ MOST }
    ensures { result ≡ cents }
{
    match Amount::new(cents) {
        Some(amount) => amount,
        None => unreachable!(),
    }
}
