//! Last names by number (clause 4.3.2.3).
ghost use Rattle.std.specs.Prelude.{◌≡◌, ◌<◌};
ghost use Rattle.oe_model.specs.Population.{last_name};

use arrayvec::ArrayString;
use oe_formulas::names::syllable_of;
use oe_values::LastName;

/// Gives the last name of a number below 1,000: the syllables of its three digits.
pub fn name_of(number: u32) -> LastName
    requires { number < 1_000 }
    ensures { result ≡ last_name number }
{
    let mut name: ArrayString<16> = ArrayString::new();
    name.push_str(syllable_of(number / 100));
    name.push_str(syllable_of(number / 10 % 10));
    name.push_str(syllable_of(number % 10));
    match LastName::read(name.as_str()) {
        Some(name) => name,
        None => unreachable!(),
    }
}
