//! The buffer that texts are appended to, and whether the longest answer has room in it.
ghost use Rattle.std.specs.Prelude.{◌≡◌, ◌≤◌, ◌+◌, ◌++◌, ◌↔◌, length, decimal, IsTrue};
ghost use Rattle.arrayvec.specs.ArrayVec.{array_vec_len};

use arrayvec::ArrayVec;
use itoa::Buffer;

/// How many bytes a buffer holds.
pub const SIZE: usize = 8192;

/// No line is longer, its end included.
pub const LONGEST: usize = 1280;

/// Bytes that wait to be written.
pub type Pending = ArrayVec<u8, SIZE>;

/// Tells whether the longest line still fits.
pub fn has_room(out: &Pending) -> bool
    ensures { IsTrue result ↔ (array_vec_len out.now + LONGEST ≤ SIZE) }
{
    out.len() + LONGEST <= SIZE
}

/// Appends these bytes.
pub fn text(out: &mut Pending, bytes: &[u8])
    requires { array_vec_len out.old + length bytes.now ≤ SIZE }
    ensures items { out.new.items ≡ out.old.items ++ bytes.now }
    ensures len { array_vec_len out.new ≡ array_vec_len out.old + length bytes.now }
{
    out.try_extend_from_slice(bytes).unwrap();
}

/// Appends a number in decimal.
pub fn decimal(out: &mut Pending, number: u128)
    requires { array_vec_len out.old + 39 ≤ SIZE }
    ensures items { out.new.items ≡ out.old.items ++ decimal number }
    ensures len { array_vec_len out.new ≤ array_vec_len out.old + 39 }
{
    let mut buffer = Buffer::new();
    text(out, buffer.format(number).as_bytes());
}
