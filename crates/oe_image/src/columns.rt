//! What has an image: columns, and columns one after another. A column writes its image at its
//! offset, so that no buffer lies between.
ghost use Rattle.std.specs.Prelude.{◌≡◌, ◌≤◌, ◌+◌, ◌++◌, ℕ, List, length};
ghost use Rattle.oe_extent.specs.Images.{Writes, number};
ghost use Rattle.oe_image.specs.Columns.{text, optional, flag, balance, credit};

use oe_extent::bounded::write_bounded_run;
use oe_extent::numbers::write_number;
use oe_extent::runs::write_run;
use oe_rows::customers::Credit;
use oe_values::numbers::{Amount, Balance};
use oe_values::stamps::Stamp;
use oe_values::texts::Text;

/// What has an image: a column, or columns one after another.
pub trait Imaged {
    ghost most: { ℕ };

    ghost image: { Self → List ℕ };

    /// Tells how many bytes its image has: at most `most`.
    fn length(&self) -> usize
        requires { most ≤ 65535 }
        ensures value { result ≡ length (image self.now) }
        ensures short { result ≤ most };

    /// Writes its image from offset `start` on, and answers the offset behind it.
    fn write(&self, bytes: &mut [u8], start: usize) -> usize
        requires small { most ≤ 65535 }
        requires room { start + length (image self.now) ≤ length bytes.old }
        ensures { Writes bytes.old start (image self.now) bytes.new result };
}

impl Imaged for u8 {
    ghost most = { 1 };

    ghost image = { λ n. number 1 n };

    #[inline]
    fn length(&self) -> usize {
        1
    }

    #[inline]
    fn write(&self, bytes: &mut [u8], start: usize) -> usize {
        write_number(bytes, start, u64::from(*self), 1)
    }
}

impl Imaged for u16 {
    ghost most = { 2 };

    ghost image = { λ n. number 2 n };

    #[inline]
    fn length(&self) -> usize {
        2
    }

    #[inline]
    fn write(&self, bytes: &mut [u8], start: usize) -> usize {
        write_number(bytes, start, u64::from(*self), 2)
    }
}

impl Imaged for u32 {
    ghost most = { 4 };

    ghost image = { λ n. number 4 n };

    #[inline]
    fn length(&self) -> usize {
        4
    }

    #[inline]
    fn write(&self, bytes: &mut [u8], start: usize) -> usize {
        write_number(bytes, start, u64::from(*self), 4)
    }
}

impl Imaged for u64 {
    ghost most = { 8 };

    ghost image = { λ n. number 8 n };

    #[inline]
    fn length(&self) -> usize {
        8
    }

    #[inline]
    fn write(&self, bytes: &mut [u8], start: usize) -> usize {
        write_number(bytes, start, *self, 8)
    }
}

impl Imaged for bool {
    ghost most = { 1 };

    ghost image = { λ b. flag b };

    #[inline]
    fn length(&self) -> usize {
        let _value = *self;
        1
    }

    #[inline]
    fn write(&self, bytes: &mut [u8], start: usize) -> usize {
        let mark = u64::from(*self);
        write_number(bytes, start, mark, 1)
    }
}

impl<const LEAST: usize, const MOST: usize> Imaged for Text<LEAST, MOST> {
    ghost most = { MOST + 2 };

    ghost image = { λ t. text t };

    #[inline(always)]
    fn length(&self) -> usize {
        2 + self.as_str().len()
    }

    #[inline(always)]
    fn write(&self, bytes: &mut [u8], start: usize) -> usize {
        write_text::<LEAST, MOST>(self.as_str(), bytes, start)
    }
}

impl Imaged for Credit {
    ghost most = { 4 };

    ghost image = { λ c. credit c };

    #[inline]
    fn length(&self) -> usize {
        match self {
            Credit::Good => 4,
            Credit::Bad => 4,
        }
    }

    #[inline]
    fn write(&self, bytes: &mut [u8], start: usize) -> usize {
        match self {
            Credit::Good => write_run(bytes, start, b"\x00\x02GC"),
            Credit::Bad => write_run(bytes, start, b"\x00\x02BC"),
        }
    }
}

impl<const MOST: u64> Imaged for Amount<MOST> {
    ghost most = { 8 };

    ghost image = { λ cents. number 8 cents };

    #[inline]
    fn length(&self) -> usize {
        let _amount = *self;
        8
    }

    #[inline]
    fn write(&self, bytes: &mut [u8], start: usize) -> usize {
        write_number(bytes, start, self.cents(), 8)
    }
}

impl Imaged for Stamp {
    ghost most = { 8 };

    ghost image = { λ seconds. number 8 seconds };

    #[inline]
    fn length(&self) -> usize {
        let _stamp = *self;
        8
    }

    #[inline]
    fn write(&self, bytes: &mut [u8], start: usize) -> usize {
        write_number(bytes, start, self.seconds(), 8)
    }
}

impl Imaged for Balance {
    ghost most = { 8 };

    ghost image = { λ cents. balance cents };

    #[inline]
    fn length(&self) -> usize {
        let _balance = *self;
        8
    }

    #[inline]
    fn write(&self, bytes: &mut [u8], start: usize) -> usize {
        write_number(bytes, start, self.cents().cast_unsigned(), 8)
    }
}

impl<T: Imaged> Imaged for Option<T> {
    ghost most = { T.most + 1 };

    ghost image = { λ v. optional T.image v };

    #[inline]
    fn length(&self) -> usize {
        match self {
            Some(value) => value.length() + 1,
            None => 1,
        }
    }

    #[inline]
    fn write(&self, bytes: &mut [u8], start: usize) -> usize {
        match self {
            Some(value) => {
                let middle = write_number(bytes, start, 1, 1);
                value.write(bytes, middle)
            }
            None => write_number(bytes, start, 0, 1),
        }
    }
}

impl<'a, T: Imaged> Imaged for &'a T {
    ghost most = { T.most };

    ghost image = { λ v. T.image v.now };

    #[inline(always)]
    fn length(&self) -> usize {
        let value: &T = self;
        value.length()
    }

    #[inline(always)]
    fn write(&self, bytes: &mut [u8], start: usize) -> usize {
        let value: &T = self;
        value.write(bytes, start)
    }
}

impl<A: Imaged, B: Imaged> Imaged for (A, B) {
    ghost most = { A.most + B.most };

    ghost image = { λ v. A.image v.0 ++ B.image v.1 };

    #[inline(always)]
    fn length(&self) -> usize {
        self.0.length() + self.1.length()
    }

    #[inline(always)]
    fn write(&self, bytes: &mut [u8], start: usize) -> usize {
        let middle = self.0.write(bytes, start);
        self.1.write(bytes, middle)
    }
}

/// Writes the image of a text of `LEAST` to `MOST` bytes from offset `start` on, and answers the
/// offset behind it.
#[inline(always)]
pub(crate) fn write_text<const LEAST: usize, const MOST: usize>(
    string: &str,
    bytes: &mut [u8],
    start: usize,
) -> usize
    requires least { LEAST ≤ length string.now }
    requires most { length string.now ≤ MOST }
    requires short { MOST ≤ 65535 }
    requires room { start + length (text string.now) ≤ length bytes.old }
    ensures { Writes bytes.old start (text string.now) bytes.new result }
{
    let text = string.as_bytes();
    let middle = write_number(bytes, start, text.len() as u64, 2);
    write_bounded_run::<LEAST, MOST>(bytes, middle, text)
}
