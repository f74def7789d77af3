//! Places shelf by shelf.
//!
//! A place is named by its shelf and its number there. Only `reach` takes memory, and may be
//! refused it.
ghost use Rattle.std.specs.Prelude.{◌≡◌, ◌<◌, ◌≤◌, ◌++◌, ℕ, [], None, vec_len, replicate, OnOk, OnErr};
ghost use Rattle.std.specs.Borrow.{sem};
ghost use Rattle.std.specs.Option.{option_copied_mut};
ghost use Rattle.oe_undo.specs.Shelf.{spread, content_in};
ghost use Rattle.oe_undo.specs.Places.{place_at, ReachesPlace};

use crate::shelf::PlaceShelf;
use oe_values::NoMemory;
use std::alloc::Global;
use std::marker::Model;

/// Places by shelf and number: each is empty or has something in it.
#[derive(Drop)]
pub(crate) struct Places<T> {
    shelves: Vec<PlaceShelf<T>>,
    alloc: Global,
}

impl<T> Model for Places<T> {
    ghost use Rattle.std.specs.Prelude.{List, Option};

    ghost Value = { List (List (Option T)) };

    ghost view = { λ p. p.shelves.items };
}

// Puts shelves without a place after the others, until there is one of that number.
fn reach_shelf<T: Drop>(
    shelves: &mut Vec<PlaceShelf<T>>,
    alloc: Global,
    shelf: usize,
) -> Result<(), NoMemory>
    requires { shelf < 1_024 }
    ensures padded { (n : ℕ) × (shelves.new.items ≡ shelves.old.items ++ replicate n []) }
    ensures reached { OnOk result (shelf < vec_len shelves.new) }
    ensures short { OnErr result (vec_len shelves.old ≤ shelf) }
{
    while shelves.len() <= shelf {
        let next = PlaceShelf::new(alloc);
        if let Err(_refused) = shelves.push(next) {
            return Err(NoMemory);
        }
    }
    Ok(())
}

// Makes places up to that number of a shelf; where memory for them was refused there may be shelves
// more, without a place.
fn reach_in<T: Drop>(
    shelves: &mut Vec<PlaceShelf<T>>,
    alloc: Global,
    shelf: usize,
    number: usize,
) -> Result<(), NoMemory>
    requires shelf { shelf < 1_024 }
    requires number { number < 4_294_967_296 }
    ensures reached { OnOk result (ReachesPlace shelves.old.items shelves.new.items shelf number) }
    ensures short { OnErr result (place_at shelves.old.items shelf number ≡ None) }
    ensures padded { OnErr result
        ((n : ℕ) × (shelves.new.items ≡ shelves.old.items ++ replicate n [])) }
{
    reach_shelf(shelves, alloc, shelf)?;
    shelves[shelf].reach(number)
}

impl<T> Places<T> {
    ghost use Rattle.oe_undo.specs.PlacesLends.{lends_place};

    /// Makes a list without places, and takes no memory.
    pub(crate) fn new(alloc: Global) -> Self
        ensures { result ≡ [] }
    {
        Places {
            shelves: Vec::new(alloc),
            alloc,
        }
    }

    /// Answers the content of a place; none where it is empty, or there is no such place.
    #[inline(always)]
    pub(crate) fn content(&self, shelf: usize, number: usize) -> Option<T>
    where
        T: Copy,
        ensures { result ≡ content_in (place_at self.now shelf number) }
    {
        match self.shelves.get(shelf) {
            Some(places) => places.content(number),
            None => None,
        }
    }

    /// Gives a place, where there is such a one, to be set there. It takes no memory.
    #[inline(always)]
    pub(crate) fn place_mut(&mut self, shelf: usize, number: usize) -> Option<&mut Option<T>>
    where
        T: Copy,
        ensures* writes_back { sem 𝓛 (lends_place T.row self.entry shelf number result) }
        ensures place { option_copied_mut result ≡ place_at self.old shelf number }
    {
        self.shelves.get_mut(shelf)?.place_mut(number)
    }

    /// Makes places, which are empty, up to that number of a shelf, where there are fewer;
    /// `NoMemory` where memory for them was refused.
    pub(crate) fn reach(&mut self, shelf: usize, number: usize) -> Result<(), NoMemory>
    where
        T: Drop,
        requires shelf { shelf < 1_024 }
        requires number { number < 4_294_967_296 }
        ensures reached { OnOk result (ReachesPlace self.old self.new shelf number) }
        ensures short { OnErr result (place_at self.old shelf number ≡ None) }
        ensures err { OnErr result (self.new ≡ self.old) }
    {
        let before = self.shelves.len();
        let reached = reach_in(&mut self.shelves, self.alloc, shelf, number);
        if reached.is_err() {
            self.shelves.truncate(before);
        }
        reached
    }
}
