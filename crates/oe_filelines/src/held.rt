//! The beginning of a line whose end was not read yet, in the value itself.
ghost use Rattle.std.specs.Prelude.{◌≡◌, ◌≤◌, ◌++◌, ℕ, List, [], length, Some, true, false, IfSome};
ghost use Rattle.std.specs.Option.{option_map};
ghost use Rattle.oe_filelines.specs.Lines.{Holds};

use arrayvec::ArrayVec;
use std::marker::Model;

/// The bytes of a line so far. Once they are more than `LONGEST` they are not kept.
#[derive(Drop)]
pub struct HeldLine<const LONGEST: usize> {
    bytes: ArrayVec<u8, LONGEST>,
    // The line is too long.
    over: bool,
}

impl<const LONGEST: usize> Model for HeldLine<LONGEST> {
    ghost use Rattle.oe_filelines.specs.Lines.{Held, held_of};

    ghost Value = { Held };

    ghost view = { λ h. held_of h.bytes.items h.over };
}

impl<const LONGEST: usize> HeldLine<LONGEST> {
    /// Holds no byte.
    #[inline]
    pub fn new() -> Self
        ensures { result ≡ Some [] }
    {
        HeldLine {
            bytes: ArrayVec::new(),
            over: false,
        }
    }

    /// Tells whether the line has a byte.
    #[inline]
    pub fn is_begun(&self) -> bool
        ensures none { result ≡ false → self.now ≡ Some [] }
        ensures some { result ≡ true → self.now ≡ Some [] → ⊥ }
    {
        self.over || !self.bytes.is_empty()
    }

    /// Holds further bytes of the line.
    #[inline]
    pub fn keep(&mut self, bytes: &[u8])
        ensures { (line : List ℕ) → Holds LONGEST self.old line →
            Holds LONGEST self.new (line ++ bytes.now) }
    {
        if self.over {
            return;
        }
        if self.bytes.try_extend_from_slice(bytes).is_err() {
            self.over = true;
        }
    }

    /// Gives the bytes, where they are not too many.
    #[inline]
    pub fn text(&self) -> Option<&[u8]>
        ensures value { option_map (λ t. t.now) result ≡ self.now }
        ensures short { IfSome result (λ t. length t.now ≤ LONGEST) }
    {
        if self.over {
            return None;
        }
        Some(self.bytes.as_slice())
    }

    /// Holds no byte any more.
    #[inline]
    pub fn clear(&mut self)
        ensures { self.new ≡ Some [] }
    {
        self.bytes.clear();
        self.over = false;
    }
}
