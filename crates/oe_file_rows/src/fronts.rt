//! Numbers and money at the front of what is left of a line, read without a search for the field's
//! end.
ghost use Rattle.std.specs.Prelude.{IfSome};
ghost use Rattle.std.specs.Option.{option_copied};
ghost use Rattle.oe_file_rows.specs.declared.forms.Form.TheVariants as form;
ghost use Rattle.oe_file_rows.specs.Line.{BeginsWith};
ghost use Rattle.oe_file_rows.specs.Value as says;

use crate::words::ranged;
use oe_values::fronts::{after, decimal, pair};
use oe_values::{Amount, Number};

/// Reads a number in the range of its type.
#[inline]
pub(crate) fn number_front<const LOW: u32, const HIGH: u32>(
    rest: &[u8],
) -> Option<(Number<LOW, HIGH>, Option<&[u8]>)>
    ensures { IfSome result (λ p. BeginsWith (form.Number LOW HIGH) (says.Number p.0) rest.now
        (option_copied p.1)) }
{
    let (n, behind) = decimal(rest)?;
    let number = ranged(n)?;
    let [tab, left @ ..] = behind else {
        return Some((number, None));
    };
    if *tab != b'\t' {
        return None;
    }
    Some((number, Some(left)))
}

/// Reads money in two decimals, in the range of its type.
#[inline]
pub(crate) fn money_front<const MOST: u64>(rest: &[u8]) -> Option<(Amount<MOST>, Option<&[u8]>)>
    ensures { IfSome result (λ p. BeginsWith (form.Money MOST) (says.Money p.0) rest.now
        (option_copied p.1)) }
{
    let (whole, behind) = decimal(rest)?;
    let (cents, behind) = pair(after(behind, b".")?)?;
    let amount = Amount::new(whole * 100 + u64::from(cents))?;
    let [tab, left @ ..] = behind else {
        return Some((amount, None));
    };
    if *tab != b'\t' {
        return None;
    }
    Some((amount, Some(left)))
}
