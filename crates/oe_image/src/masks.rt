//! A column that an update may have changed: its bit in a mask, and its image where it is there.
ghost use Rattle.std.specs.Prelude.{◌≡◌, ◌≤◌, ◌<◌, ◌+◌, ◌^◌, length, cond, is_some};
ghost use Rattle.oe_extent.specs.Images.{Writes};
ghost use Rattle.oe_image.specs.Before.{image_where_there, kept_number};

use crate::columns::Imaged;
use oe_extent::numbers::write_number;
use oe_values::numbers::Number;

/// Gives the column's bit in a mask: `weight` where the column is there, and else 0.
#[inline(always)]
pub(crate) fn bit<T>(column: &Option<T>, weight: u32) -> u32
    ensures value { result ≡ cond (is_some column.now) weight 0 }
    ensures small { result ≤ weight }
{
    match column {
        Some(_) => weight,
        None => 0,
    }
}

/// Tells how many bytes the column's image has, and 0 where the column is not there.
#[inline(always)]
pub(crate) fn kept_length<T: Imaged>(column: &Option<T>) -> usize
    requires { T.most ≤ 65535 }
    ensures value { result ≡ length (image_where_there T.image column.now) }
    ensures short { result ≤ T.most }
{
    match column {
        Some(value) => value.length(),
        None => 0,
    }
}

/// Writes the column's image, if the column is there, from offset `start` on, and answers the
/// offset behind it.
#[inline(always)]
pub(crate) fn write_kept<T: Imaged>(column: &Option<T>, bytes: &mut [u8], start: usize) -> usize
    requires small { T.most ≤ 65535 }
    requires room { start + length (image_where_there T.image column.now) ≤ length bytes.old }
    ensures { Writes bytes.old start (image_where_there T.image column.now) bytes.new result }
{
    match column {
        Some(value) => value.write(bytes, start),
        None => start,
    }
}

/// Tells how many bytes a number in `width` bytes has, and 0 where it is not there.
#[inline(always)]
pub(crate) fn ranged_length<const LOW: u32, const HIGH: u32>(
    number: &Option<Number<LOW, HIGH>>,
    width: usize,
) -> usize
    ensures value { result ≡ length (kept_number width number.now) }
    ensures short { result ≤ width }
{
    match number {
        Some(_) => width,
        None => 0,
    }
}

/// Writes a number in `width` bytes, if it is there, from offset `start` on, and answers the offset
/// behind it.
#[inline(always)]
pub(crate) fn write_ranged<const LOW: u32, const HIGH: u32>(
    number: &Option<Number<LOW, HIGH>>,
    width: usize,
    bytes: &mut [u8],
    start: usize,
) -> usize
    requires low { 1 ≤ width }
    requires high { width ≤ 8 }
    requires fits { HIGH < 256 ^ width }
    requires room { start + length (kept_number width number.now) ≤ length bytes.old }
    ensures { Writes bytes.old start (kept_number width number.now) bytes.new result }
{
    match number {
        Some(number) => write_number(bytes, start, u64::from(number.get()), width),
        None => start,
    }
}
