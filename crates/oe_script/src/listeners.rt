//! Who hears of the lines that are answered `BadLine`.
ghost use Rattle.oe_script.specs.Hearing.{Heard, IsBad};

/// Where a line stands that is answered `BadLine`.
#[derive(Clone, Copy)]
pub enum Place {
    /// A whole line of at most 1,024 bytes, while nothing is open.
    Closed,
    /// A whole line of at most 1,024 bytes, while something is open.
    Open,
    /// A whole line of more than 1,024 bytes.
    Long,
    /// A last line without its end.
    Unended,
}

pub trait Listener {
    /// What a listener becomes when it hears of a line.
    ghost hears: { Self → Heard → Self → Type 0 };

    /// Hears that the line of this number, counted from 1, is answered `BadLine`. The line stands
    /// without its end; where it is too long, or has no end, it stands without its bytes.
    fn hear(&mut self, number: u128, line: &[u8], place: Place)
        requires { IsBad place line.now }
        ensures { hears self.old (record { number = number; line = line.now; place = place })
            self.new };
}

/// A listener that does nothing.
#[derive(Drop)]
pub struct Quiet {}

impl Listener for Quiet {
    ghost hears = { λ before heard after. Unit {0} };

    #[inline(always)]
    fn hear(&mut self, _number: u128, _line: &[u8], _place: Place) {}
}
