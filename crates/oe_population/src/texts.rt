//! The texts that the population's formulas give: numbers with leading zeros, syllables, letters in
//! turn.
ghost use Rattle.std.specs.Prelude.{◌≡◌, ◌≤◌, ◌<◌, ◌+◌, ◌++◌, true, length, codes};
ghost use Rattle.std.specs.List.{list_all};
ghost use Rattle.std.specs.Int.{IsInRange};
ghost use Rattle.oe_population.specs.Printable.{is_printable};
ghost use Rattle.oe_model.specs.Population.{dec, letters, last_name, dist_text};

use arrayvec::ArrayString;
use oe_formulas::names::syllable_of;
use oe_values::Text;

// From each letter of the first alphabet on it has 500 letters.
static ALPHABETS: [u8; 546] = *b"\
    ABCDEFGHIJKLMNOPQRSTUVWXYZABCDEFGHIJKLMNOPQRSTUVWXYZABCDEFGHIJKLMNOPQRSTUVWXYZ\
    ABCDEFGHIJKLMNOPQRSTUVWXYZABCDEFGHIJKLMNOPQRSTUVWXYZABCDEFGHIJKLMNOPQRSTUVWXYZ\
    ABCDEFGHIJKLMNOPQRSTUVWXYZABCDEFGHIJKLMNOPQRSTUVWXYZABCDEFGHIJKLMNOPQRSTUVWXYZ\
    ABCDEFGHIJKLMNOPQRSTUVWXYZABCDEFGHIJKLMNOPQRSTUVWXYZABCDEFGHIJKLMNOPQRSTUVWXYZ\
    ABCDEFGHIJKLMNOPQRSTUVWXYZABCDEFGHIJKLMNOPQRSTUVWXYZABCDEFGHIJKLMNOPQRSTUVWXYZ\
    ABCDEFGHIJKLMNOPQRSTUVWXYZABCDEFGHIJKLMNOPQRSTUVWXYZABCDEFGHIJKLMNOPQRSTUVWXYZ\
    ABCDEFGHIJKLMNOPQRSTUVWXYZABCDEFGHIJKLMNOPQRSTUVWXYZABCDEFGHIJKLMNOPQRSTUVWXYZ";

/// Writes a number into the cells, in decimal digits with leading zeros.
#[inline(always)]
fn write_digits(cells: &mut [u8], number: u32)
    ensures { cells.new ≡ dec number (length cells.old) }
{
    let mut left = number;
    let mut offset = cells.len();
    while offset > 0 {
        offset -= 1;
        cells[offset] = b'0' + (left % 10) as u8;
        left /= 10;
    }
}

/// Gives a text that is written out.
#[inline]
pub(crate) fn plain<const LEAST: usize, const MOST: usize>(text: &str) -> Text<LEAST, MOST>
    requires fits { IsInRange LEAST MOST (length text.now) }
    requires printable { list_all is_printable text.now ≡ true }
    ensures { result ≡ text.now }
{
    Text::of_printable(text.as_bytes())
}

/// Gives a label, and a number in `digits` digits.
pub(crate) fn numbered<const LEAST: usize, const MOST: usize>(
    label: &str,
    number: u32,
    digits: usize,
) -> Text<LEAST, MOST>
    requires fits { IsInRange LEAST MOST (length label.now + digits) }
    requires printable { list_all is_printable label.now ≡ true }
    ensures { result ≡ label.now ++ dec number digits }
{
    let mut array = [0; MOST];
    let bytes = &mut array[..];
    let start = label.len();
    let end = start + digits;
    bytes[..start].copy_from_slice(label.as_bytes());
    write_digits(&mut bytes[start..end], number);
    Text::of_printable(&bytes[..end])
}

/// Gives a zip code: four digits before `11111`.
pub(crate) fn zip(number: u32) -> Text<9, 9>
    ensures { result ≡ dec number 4 ++ codes "11111" }
{
    let mut bytes = *b"000011111";
    write_digits(&mut bytes[..4], number);
    Text::of_printable(&bytes)
}

/// Gives letters of the alphabet, which begins anew after Z, from the letter of this number on.
pub(crate) fn alphabet(count: u32, first: u32) -> Text<0, 500>
    requires count { count ≤ 500 }
    requires first { first ≤ 3_000 }
    ensures { result ≡ letters count first }
{
    let start = (first % 26) as usize;
    Text::of_printable(&ALPHABETS[start..start + count as usize])
}

/// Gives the last name of a number: the syllables of its three digits (clause 4.3.2.3).
pub(crate) fn name_of(number: u32) -> Text<0, 16>
    requires { number < 1_000 }
    ensures { result ≡ last_name number }
{
    let mut name: ArrayString<16> = ArrayString::new();
    name.push_str(syllable_of(number / 100));
    name.push_str(syllable_of(number / 10 % 10));
    name.push_str(syllable_of(number % 10));
    Text::of_printable(name.as_str().as_bytes())
}

/// Gives the information of a district that is kept with the stock of an item in a warehouse.
#[inline]
pub(crate) fn dist_info(warehouse: u32, district: u32, item: u32) -> Text<24, 24>
    ensures { result ≡ dist_text warehouse district item }
{
    let mut bytes = *b"STOCK-DIST-00-00-0000000";
    write_digits(&mut bytes[17..], item);
    write_digits(&mut bytes[14..16], district);
    write_digits(&mut bytes[11..13], warehouse);
    Text::of_printable(&bytes)
}
