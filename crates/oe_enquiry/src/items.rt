//! Lists of items.
//!
//! An item in a list is seen as its number, and a list as its numbers; nothing can fail, and
//! nothing takes memory. Beside a list lie marks by the items' remainders, which tell of most items
//! that they are not listed, without a look at the list.
ghost use Rattle.std.specs.Prelude.{◌≡◌, ◌==◌, ◌≤◌, ◌<◌, ◌%◌, ◌++◌, ◌∷◌, [], ℕ, length};
ghost use Rattle.oe_enquiry.specs.Level.{is_listed};

use oe_values::lines::Lines;
use oe_values::{Count, ItemNumber};
use std::marker::Model;

/// I_ID of an item, in a list of such numbers.
#[derive(Clone, Copy)]
pub struct Listed {
    item: ItemNumber,
}

impl Model for Listed {
    ghost Value = { ℕ };

    ghost view = { λ l. l.item };

    ghost inverse = { λ n. record { item = n } };
}

impl Listed {
    /// Makes an entry for that item.
    pub fn new(item: ItemNumber) -> Self
        ensures { result ≡ item }
    {
        Listed { item }
    }

    /// Tells whether it is that item.
    pub fn is(&self, item: ItemNumber) -> bool
        ensures { result ≡ (self.now == item) }
    {
        self.item == item
    }
}

impl Default for Listed {
    ghost is_default = { λ l. l ≡ 1 };

    fn default() -> Self {
        Listed {
            item: ItemNumber::new(1).unwrap(),
        }
    }
}

/// The item of a line, and S_QUANTITY that its stock has now, if there is one.
#[derive(Clone, Copy)]
pub struct Sold {
    pub item: ItemNumber,
    pub quantity: Option<Count>,
}

impl Default for Sold {
    ghost use Rattle.std.specs.Prelude.{◌≡◌, None};

    ghost is_default = { λ s. s ≡ record { item = 1; quantity = None } };

    fn default() -> Self {
        Sold {
            item: ItemNumber::new(1).unwrap(),
            quantity: None,
        }
    }
}

/// The items of the lines of at most 20 orders with at most 15 lines each.
///
/// By its invariant each listed item has a mark at its remainder by 512.
#[derive(Drop)]
pub struct Items {
    listed: Lines<Listed, 0, 300>,
    marks: [bool; 512],
}

impl Model for Items {
    ghost use Rattle.std.specs.Prelude.{List, ℕ};
    ghost use Rattle.oe_enquiry.specs.Level.{AreMarked};

    ghost Value = { List ℕ };

    ghost view = { λ i. i.listed };

    ghost invariant = { λ i. AreMarked i.marks i.listed };
}

/// Gives the place of an item's mark.
fn mark_of(item: ItemNumber) -> usize
    ensures { result ≡ item % 512 }
{
    (item.get() % 512) as usize
}

/// Tells whether an item is in the list, by a look at each.
#[inline(never)]
fn is_among(items: &[Listed], item: ItemNumber) -> bool
    ensures { result ≡ is_listed items.now item }
{
    items.iter().any(|listed| listed.is(item))
}

impl Items {
    /// Makes a list without an item.
    pub fn new() -> Self
        ensures { result ≡ [] }
    {
        Items {
            listed: Lines::new(),
            marks: [false; 512],
        }
    }

    /// Gives the list.
    pub fn as_slice(&self) -> &[Listed]
        ensures value { result.now ≡ self.now }
        ensures most { length self.now ≤ 300 }
    {
        self.listed.as_slice()
    }

    /// Tells whether an item is in the list.
    #[tactic(auto, using(crate::proofs::MarkFacts::is_unmarked))]
    pub fn is_listed(&self, item: ItemNumber) -> bool
        ensures { result ≡ is_listed self.now item }
    {
        if !self.marks[mark_of(item)] {
            return false;
        }
        is_among(self.listed.as_slice(), item)
    }

    /// Appends an item. There must be room.
    pub fn push(&mut self, item: ItemNumber)
        requires { length self.old < 300 }
        ensures { self.new ≡ self.old ++ item ∷ [] }
    {
        self.marks[mark_of(item)] = true;
        self.listed.push(Listed::new(item));
    }
}
