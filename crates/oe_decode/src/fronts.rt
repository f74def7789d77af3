//! Columns read from the front of bytes.
ghost use Rattle.std.specs.Prelude.{◌≡◌, ◌≤◌, ◌<◌, ◌^◌, ℕ, ⊤};
ghost use Rattle.std.specs.Option.{option_map};
ghost use Rattle.std.specs.Int.{IsInRange};
ghost use Rattle.oe_extent.specs.Images.{number};
ghost use Rattle.oe_values.specs.Number.{IsWithin};
ghost use Rattle.oe_values.specs.Text.{IsText};
ghost use Rattle.oe_image.specs.Columns.{text, flag, balance, credit, ten_texts};
ghost use Rattle.oe_decode.specs.Fronts.{ranged_at};
ghost use Rattle.oe_decode.specs.ColumnFronts.{text_at, stamp_at, balance_at, flag_at, credit_at, ten_texts_at, text_within};
ghost use Rattle.oe_decode.specs.Codec.{IsWidth};
ghost use Rattle.oe_decode.specs.FrontFacts.{ranged_law};
ghost use Rattle.oe_decode.specs.ColumnFacts.{upto_law, stamp_law, balance_law, text_law, flag_law, credit_law, AreTen, ten_texts_law};

use crate::decode::Decode;
use oe_extent::numbers::read_number;
use oe_extent::runs::read_run;
use oe_rows::customers::Credit;
use oe_values::numbers::{Amount, Balance, Carrier, Number};
use oe_values::stamps::Stamp;
use oe_values::texts::Text;
use std::marker::Model;

/// A number from `LOW` to `HIGH` in `WIDTH` bytes.
#[derive(Clone, Copy)]
pub struct Ranged<const WIDTH: usize, const LOW: u32, const HIGH: u32> {
    number: Number<LOW, HIGH>,
}

impl<const WIDTH: usize, const LOW: u32, const HIGH: u32> Model for Ranged<WIDTH, LOW, HIGH> {
    ghost Value = { ℕ };

    ghost view = { λ n. n.number };

    ghost inverse = { λ n. record { number = n } };
}

impl<const WIDTH: usize, const LOW: u32, const HIGH: u32> Ranged<WIDTH, LOW, HIGH> {
    /// Gives the number.
    #[inline]
    pub fn get(self) -> Number<LOW, HIGH>
        ensures { result ≡ self.entry }
    {
        self.number
    }
}

impl<const WIDTH: usize, const LOW: u32, const HIGH: u32> Decode for Ranged<WIDTH, LOW, HIGH> {
    ghost sound = { IsWidth WIDTH HIGH };

    ghost fits = { λ n. IsInRange LOW HIGH n };

    ghost image = { λ n. number WIDTH n };

    ghost at = { ranged_at WIDTH LOW HIGH };

    ghost exact = { λ s. ranged_law WIDTH LOW HIGH s.room };

    #[inline]
    fn decode(bytes: &[u8]) -> Option<(Self, &[u8])> {
        let Some((number, rest)) = read_ranged(bytes, WIDTH) else {
            return None;
        };
        Some((Ranged { number }, rest))
    }
}

impl<const MOST: u64> Decode for Amount<MOST> {
    ghost sound = { MOST < 256 ^ 8 };

    ghost fits = { λ n. n ≤ MOST };

    ghost image = { λ n. number 8 n };

    ghost at = { ranged_at 8 0 MOST };

    ghost exact = { λ s. upto_law 8 MOST s };

    #[inline]
    fn decode(bytes: &[u8]) -> Option<(Self, &[u8])> {
        let (cents, rest) = read_number(bytes, 8)?;
        Some((Amount::new(cents)?, rest))
    }
}

impl Decode for Stamp {
    ghost sound = { ⊤ };

    ghost fits = { λ n. n < 6_342_969_600 };

    ghost image = { λ n. number 8 n };

    ghost at = { stamp_at };

    ghost exact = { λ s. stamp_law };

    #[inline]
    fn decode(bytes: &[u8]) -> Option<(Self, &[u8])> {
        let (seconds, rest) = read_number(bytes, 8)?;
        Some((Stamp::from_seconds(seconds)?, rest))
    }
}

impl Decode for Balance {
    ghost sound = { ⊤ };

    ghost fits = { IsWithin 999_999_999_999 };

    ghost image = { λ z. balance z };

    ghost at = { balance_at };

    ghost exact = { λ s. balance_law };

    #[inline]
    fn decode(bytes: &[u8]) -> Option<(Self, &[u8])> {
        let (cents, rest) = read_number(bytes, 8)?;
        Some((Balance::new(cents.cast_signed())?, rest))
    }
}

impl<const LEAST: usize, const MOST: usize> Decode for Text<LEAST, MOST> {
    ghost sound = { MOST < 65536 };

    ghost fits = { IsText LEAST MOST };

    ghost image = { λ t. text t };

    ghost at = { text_at LEAST MOST };

    ghost exact = { λ s. text_law LEAST MOST s };

    #[inline]
    fn decode(bytes: &[u8]) -> Option<(Self, &[u8])> {
        let (count, rest) = read_number(bytes, 2)?;
        let (text, rest) = read_run(rest, count as usize)?;
        Some((checked_text(text)?, rest))
    }
}

impl Decode for bool {
    ghost sound = { ⊤ };

    ghost fits = { λ b. ⊤ };

    ghost image = { λ b. flag b };

    ghost at = { flag_at };

    ghost exact = { λ s. flag_law };

    #[inline]
    fn decode(bytes: &[u8]) -> Option<(Self, &[u8])> {
        let (mark, rest) = read_number(bytes, 1)?;
        if mark == 0 {
            return Some((false, rest));
        }
        if mark != 1 {
            return None;
        }
        Some((true, rest))
    }
}

impl Decode for Credit {
    ghost sound = { ⊤ };

    ghost fits = { λ c. ⊤ };

    ghost image = { λ c. credit c };

    ghost at = { credit_at };

    ghost exact = { λ s. credit_law };

    #[inline]
    #[tactic(auto, unfolding(crate::specs::ColumnFronts::credit_at))]
    fn decode(bytes: &[u8]) -> Option<(Self, &[u8])> {
        let Some((text, rest)) = Text::<2, 2>::decode(bytes) else {
            return None;
        };
        let text = text.as_str().as_bytes();
        if text[1] != b'C' {
            return None;
        }
        if text[0] == b'G' {
            Some((Credit::Good, rest))
        } else if text[0] == b'B' {
            Some((Credit::Bad, rest))
        } else {
            None
        }
    }
}

/// One of S_DIST_01 to S_DIST_10.
type DistInfo = Text<24, 24>;

/// Four of them, and what is behind them.
type Four<Rest> = (DistInfo, (DistInfo, (DistInfo, (DistInfo, Rest))));

impl Decode for [DistInfo; 10] {
    ghost sound = { ⊤ };

    ghost fits = { AreTen };

    ghost image = { ten_texts };

    ghost at = { ten_texts_at };

    ghost exact = { λ s. ten_texts_law };

    #[tactic(auto, unfolding(crate::specs::ColumnFronts::ten_texts_at))]
    fn decode(bytes: &[u8]) -> Option<(Self, &[u8])> {
        let Some((texts, rest)) = Four::<Four<(DistInfo, DistInfo)>>::decode(bytes) else {
            return None;
        };
        let (d0, (d1, (d2, (d3, (d4, (d5, (d6, (d7, (d8, d9))))))))) = texts;
        Some(([d0, d1, d2, d3, d4, d5, d6, d7, d8, d9], rest))
    }
}

/// Reads a number in the first `width` bytes, from `LOW` to `HIGH`.
#[inline]
pub(crate) fn read_ranged<const LOW: u32, const HIGH: u32>(
    bytes: &[u8],
    width: usize,
) -> Option<(Number<LOW, HIGH>, &[u8])>
    requires low { 1 ≤ width }
    requires high { width ≤ 4 }
    requires fits { 256 ^ width ≤ 4294967296 }
    ensures { option_map (λ x. (x.0, x.1.now)) result ≡ ranged_at width LOW HIGH bytes.now }
{
    let (value, rest) = read_number(bytes, width)?;
    Some((Number::new(value as u32)?, rest))
}

/// Reads the text of these bytes, where they are one.
#[inline]
fn checked_text<const LEAST: usize, const MOST: usize>(bytes: &[u8]) -> Option<Text<LEAST, MOST>>
    ensures { result ≡ text_within LEAST MOST bytes.now }
{
    Text::read_bytes(bytes)
}

/// Gives O_CARRIER_ID, which may be null.
#[inline]
pub(crate) fn number_or_none(column: Option<Ranged<1, 1, 10>>) -> Option<Carrier>
    ensures { result ≡ column }
{
    match column {
        Some(number) => Some(number.get()),
        None => None,
    }
}
