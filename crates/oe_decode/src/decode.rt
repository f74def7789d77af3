//! What is read from the front of bytes: columns one after another, and keys and rows of them.
ghost use Rattle.std.specs.Prelude.{◌≡◌, ◌++◌, List, ℕ, Option, IfSome, ⊤};
ghost use Rattle.std.specs.Option.{option_map};
ghost use Rattle.oe_image.specs.Columns.{optional};
ghost use Rattle.oe_decode.specs.Fronts.{Reads, front_as, pair_at};
ghost use Rattle.oe_decode.specs.ColumnFronts.{optional_at};
ghost use Rattle.oe_decode.specs.Codec.{IsCodec, IsRow};
ghost use Rattle.oe_decode.specs.FrontFacts.{pair_law, row_law};
ghost use Rattle.oe_decode.specs.ColumnFacts.{optional_law};

use oe_extent::numbers::read_number;

/// What is read from the front of bytes, exactly where its image stands there.
pub trait Decode: Drop {
    /// What its parameters keep, so that each value has one image.
    ghost sound: { Type 0 };

    ghost fits: { Self → Type 0 };

    ghost image: { Self → List ℕ };

    ghost at: { List ℕ → Option (Self × List ℕ) };

    /// Reads the value whose image stands at the front, and gives the bytes behind it.
    fn decode(bytes: &[u8]) -> Option<(Self, &[u8])>
        requires { sound }
        ensures { option_map (λ x. (x.0, x.1.now)) result ≡ at bytes.now };

    /// What is read is what has its image there, and what has an image there is read.
    ghost exact: { sound → IsCodec fits image at };
}

impl<T: Decode> Decode for Option<T> {
    ghost sound = { T.sound };

    ghost fits = { λ v. IfSome v T.fits };

    ghost image = { λ v. optional T.image v };

    ghost at = { optional_at T.at };

    ghost exact = { λ s. optional_law (T.exact s) };

    #[inline]
    fn decode(bytes: &[u8]) -> Option<(Self, &[u8])> {
        let Some((mark, rest)) = read_number(bytes, 1) else {
            return None;
        };
        if mark == 0 {
            return Some((None, rest));
        }
        if mark != 1 {
            return None;
        }
        let Some((value, rest)) = T::decode(rest) else {
            return None;
        };
        Some((Some(value), rest))
    }
}

impl<A: Decode, B: Decode> Decode for (A, B) {
    ghost sound = { A.sound × B.sound };

    ghost fits = { λ v. A.fits v.0 × B.fits v.1 };

    ghost image = { λ v. A.image v.0 ++ B.image v.1 };

    ghost at = { pair_at A.at B.at };

    ghost exact = { λ s. pair_law (A.exact s.0) (B.exact s.1) };

    #[inline]
    fn decode(bytes: &[u8]) -> Option<(Self, &[u8])> {
        let Some((first, rest)) = A::decode(bytes) else {
            return None;
        };
        let Some((second, rest)) = B::decode(rest) else {
            return None;
        };
        Some(((first, second), rest))
    }
}

/// A row or a key, which is its columns one after another.
pub trait Row: Drop {
    type Columns: Decode;

    ghost of: { Self.Columns → Self };

    ghost parts: { Self → Self.Columns };

    ghost ranges: { Self → Type 0 };

    /// Makes it of its columns.
    fn of_columns(columns: Self::Columns) -> Self
        ensures { result ≡ of columns };

    /// Its columns in their ranges are the row in its ranges, one for one.
    ghost is_row: { IsRow ⟦<Self::Columns as Decode>⟧.sound ⟦<Self::Columns as Decode>⟧.fits
        ranges of parts };
}

impl<R: Row> Decode for R {
    ghost sound = { ⊤ };

    ghost fits = { R.ranges };

    ghost image = { λ r. R.Columns.image (R.parts r) };

    ghost at = { λ bytes. front_as R.of (R.Columns.at bytes) };

    ghost exact = { λ s. row_law R.is_row.shows (R.Columns.exact R.is_row.kept) };

    #[inline]
    fn decode(bytes: &[u8]) -> Option<(Self, &[u8])> {
        let Some((columns, rest)) = R::Columns::decode(bytes) else {
            return None;
        };
        Some((R::of_columns(columns), rest))
    }
}

/// Reads the value at the front of the bytes, and those behind it; `None` exactly where no front of
/// the bytes is the image of a value in its ranges.
#[inline]
pub fn read_exactly<T: Decode>(bytes: &[u8]) -> Option<(T, &[u8])>
    requires { T.sound }
    ensures { Reads T.fits T.image bytes.now (option_map (λ x. (x.0, x.1.now)) result) }
{
    T::decode(bytes)
}
