//! The syllables of last names (clause 4.3.2.3).
ghost use Rattle.std.specs.Prelude.{◌≡◌, ◌<◌, ◌≤◌, length};
ghost use Rattle.oe_model.specs.Population.{syllable};

/// Gives the syllable of a digit (clause 4.3.2.3).
#[tactic(auto, unfolding(oe_model::specs::Population::syllable))]
pub fn syllable_of(digit: u32) -> &'static str
    requires { digit < 10 }
    ensures value { result.now ≡ syllable digit }
    ensures length { length result.now ≤ 5 }
{
    match digit {
        0 => "BAR",
        1 => "OUGHT",
        2 => "ABLE",
        3 => "PRI",
        4 => "PRES",
        5 => "ESE",
        6 => "ANTI",
        7 => "CALLY",
        8 => "ATION",
        9 => "EING",
        _ => unreachable!(),
    }
}
