//! Numbers as bytes, the most significant byte first. Writing needs room; reading answers none
//! where the bytes are too few.
ghost use Rattle.std.specs.Prelude.{◌≡◌, ◌≤◌, ◌<◌, ◌+◌, ◌^◌, length, IfSome};
ghost use Rattle.std.specs.Option.{option_map};
ghost use Rattle.oe_extent.specs.Images.{Writes, number, number_at};

use byteorder::{BigEndian, ByteOrder};

/// Writes a number of 1 to 8 bytes, `width`, from offset `start` on, and answers the offset behind
/// it.
#[inline]
pub fn write_number(bytes: &mut [u8], start: usize, value: u64, width: usize) -> usize
    requires low { 1 ≤ width }
    requires high { width ≤ 8 }
    requires fits { value < 256 ^ width }
    requires room { start + width ≤ length bytes.old }
    ensures { Writes bytes.old start (number width value) bytes.new result }
{
    BigEndian::write_uint(&mut bytes[start..], value, width);
    start + width
}

/// Gives the number in the first `width` bytes, 1 to 8, and the bytes behind them; `None` where
/// there are fewer bytes.
#[inline]
pub fn read_number(bytes: &[u8], width: usize) -> Option<(u64, &[u8])>
    requires low { 1 ≤ width }
    requires high { width ≤ 8 }
    ensures found { option_map (λ x. (x.0, x.1.now)) result ≡ number_at width bytes.now }
    ensures fits { IfSome result (λ x. x.0 < 256 ^ width) }
{
    if bytes.len() < width {
        return None;
    }
    Some((BigEndian::read_uint(bytes, width), &bytes[width..]))
}
