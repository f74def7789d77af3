//! Short lists, which lie in the value itself.
//!
//! By its invariant a list has `LEAST` to `MOST` values. Nothing takes memory; `read` gives `None`
//! for a list of another length.
ghost use Rattle.std.specs.Prelude.{◌≡◌, ◌+◌, ◌<◌, ◌≤◌, ◌↔◌, List, [], ◌∷◌, ◌++◌, length, IsSome, IfSome};
ghost use Rattle.std.specs.Cmp.{partial_equiv_from_equiv};
ghost use Rattle.std.specs.Cmp.Lexicographic.{pointwise, lists_equiv, lists_per};

use arrayvec::ArrayVec;
use std::marker::Model;

/// A list of `LEAST` to `MOST` values, which takes no memory of its own.
#[derive(Drop)]
pub struct Lines<T, const LEAST: usize, const MOST: usize> {
    lines: ArrayVec<T, MOST>,
}

impl<T, const LEAST: usize, const MOST: usize> Model for Lines<T, LEAST, MOST> {
    ghost Value = { List T };

    ghost view = { λ l. l.lines.items };

    ghost invariant = { λ l. (LEAST ≤ length l.lines.items) × (length l.lines.items ≤ MOST) };
}

impl<T: Copy + Default, const LEAST: usize, const MOST: usize> Lines<T, LEAST, MOST> {
    /// Makes the list, where its length is in the range.
    pub fn read(lines: &[T]) -> Option<Self>
        ensures variant { IsSome result ↔ ((LEAST ≤ length lines.now) × (length lines.now ≤ MOST)) }
        ensures value { IfSome result (λ l. l ≡ lines.now) }
    {
        if lines.len() < LEAST {
            return None;
        }
        let mut held = ArrayVec::new();
        match held.try_extend_from_slice(lines) {
            Ok(()) => Some(Lines { lines: held }),
            Err(_) => None,
        }
    }

    /// Gives the list.
    #[inline]
    pub fn as_slice(&self) -> &[T]
        ensures value { result.now ≡ self.now }
        ensures least { LEAST ≤ length self.now }
        ensures most { length self.now ≤ MOST }
    {
        self.lines.as_slice()
    }

    /// Appends a value. There must be room.
    #[inline]
    pub fn push(&mut self, line: T)
        requires { length self.old < MOST }
        ensures { self.new ≡ self.old ++ line ∷ [] }
    {
        self.lines.push(line);
    }

    /// Copies the value, and takes no memory.
    pub fn copied(&self) -> Self
        ensures { result ≡ self.now }
    {
        let mut lines = ArrayVec::new();
        let Ok(()) = lines.try_extend_from_slice(self.as_slice()) else {
            unreachable!();
        };
        Lines { lines }
    }
}

impl<T: Copy + Default, const MOST: usize> Lines<T, 0, MOST> {
    /// Gives no value.
    pub fn new() -> Self
        ensures { result ≡ [] }
    {
        Lines {
            lines: ArrayVec::new(),
        }
    }
}

impl<T: PartialEq, const LEAST: usize, const MOST: usize> PartialEq for Lines<T, LEAST, MOST> {
    ghost eq = { λ s t. pointwise T.eq s t };

    ghost laws = { lists_per T.PartialEq.laws };

    fn eq(&self, other: &Self) -> bool {
        self.lines == other.lines
    }
}

impl<T: Eq, const LEAST: usize, const MOST: usize> Eq for Lines<T, LEAST, MOST> {
    ghost laws = { lists_equiv T.Eq.laws };
}
