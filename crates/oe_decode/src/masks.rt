//! A mask, and the columns that it says are there, read from the front of bytes: each answers the
//! column and the bytes behind it, or `None` where a column that is to be there is not.
ghost use Rattle.std.specs.Prelude.{◌≡◌, ◌≤◌, ◌<◌, ◌+◌, ◌*◌, ◌^◌, IfSome};
ghost use Rattle.std.specs.Option.{option_map};
ghost use Rattle.oe_decode.specs.Fronts.{ranged_at};
ghost use Rattle.oe_decode.specs.ColumnFronts.{carrier_at};
ghost use Rattle.oe_decode.specs.BeforeFronts.{digits, mask_at, bit, kept_at};

use crate::decode::Decode;
use crate::fronts::{Ranged, number_or_none, read_ranged};
use oe_extent::numbers::read_number;
use oe_values::numbers::{Carrier, Number};

/// Reads a mask of `count` columns in the first `width` bytes; `None` also where a spare bit is 1.
#[inline]
pub(crate) fn read_mask(bytes: &[u8], width: usize, count: u32) -> Option<(u32, &[u8])>
    requires low { 1 ≤ width }
    requires high { width ≤ 3 }
    requires fits { count ≤ 8 * width }
    ensures found { option_map (λ x. (digits count x.0, x.1.now)) result
        ≡ mask_at width count bytes.now }
    ensures small { IfSome result (λ x. x.0 < 2 ^ count) }
{
    let unit = 1 << (8 * width as u32 - count);
    let Some((number, rest)) = read_number(bytes, width) else {
        return None;
    };
    if number % unit != 0 {
        return None;
    }
    Some(((number / unit) as u32, rest))
}

/// Tells whether the mask of `count` columns says that this one is there, counted from 0.
#[inline]
pub(crate) fn is_there(mask: u32, count: u32, index: u32) -> bool
    requires few { count ≤ 24 }
    requires within { index < count }
    requires small { mask < 2 ^ count }
    ensures { result ≡ bit (digits count mask) index }
{
    mask % (1 << (count - index)) >= 1 << (count - 1 - index)
}

/// Reads a column, where it is there.
#[inline]
pub(crate) fn read_kept<T: Decode>(bytes: &[u8], there: bool) -> Option<(Option<T>, &[u8])>
    requires { T.sound }
    ensures { option_map (λ x. (x.0, x.1.now)) result ≡ kept_at there T.at bytes.now }
{
    if !there {
        return Some((None, bytes));
    }
    let Some((column, rest)) = T::decode(bytes) else {
        return None;
    };
    Some((Some(column), rest))
}

/// Reads a number in the first `width` bytes, from `LOW` to `HIGH`, where it is there.
#[inline]
pub(crate) fn read_kept_ranged<const LOW: u32, const HIGH: u32>(
    bytes: &[u8],
    there: bool,
    width: usize,
) -> Option<(Option<Number<LOW, HIGH>>, &[u8])>
    requires low { 1 ≤ width }
    requires high { width ≤ 4 }
    requires fits { 256 ^ width ≤ 4294967296 }
    ensures { option_map (λ x. (x.0, x.1.now)) result
        ≡ kept_at there (ranged_at width LOW HIGH) bytes.now }
{
    if !there {
        return Some((None, bytes));
    }
    let Some((ranged, rest)) = read_ranged(bytes, width) else {
        return None;
    };
    Some((Some(ranged), rest))
}

/// Reads a carrier, or none, where it is there.
#[inline]
pub(crate) fn read_kept_carrier(
    bytes: &[u8],
    there: bool,
) -> Option<(Option<Option<Carrier>>, &[u8])>
    ensures { option_map (λ x. (x.0, x.1.now)) result ≡ kept_at there carrier_at bytes.now }
{
    let Some((column, rest)) = read_kept::<Option<Ranged<1, 1, 10>>>(bytes, there) else {
        return None;
    };
    let Some(carrier) = column else {
        return Some((None, rest));
    };
    Some((Some(number_or_none(carrier)), rest))
}
